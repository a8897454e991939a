//! The storage of a page: one vector with the cells of all rows, and a table that maps each row to
//! its slot in the vector.

ghost use Rattle.std.specs.Prelude.{◌≡◌, ◌≢◌, ◌+◌, ◌*◌, ◌<◌, ◌≤◌, ℕ, IfOk};
ghost use Rattle.std.specs.Prelude.{false, length, slice_set, take};
ghost use Rattle.std.specs.List.{slice_range};
ghost use Rattle.vt_cells.specs.Attrs.{default_attrs};
ghost use Rattle.vt_cells.specs.Refusals.{OnlyOutOfMemory};
ghost use Rattle.vt_rows.specs.Cells.{blanks};
ghost use Rattle.vt_rows.specs.Internals.{rotation_source};
ghost use Rattle.vt_grid.specs.Flat.{line_at, used_columns};

mod lines;
mod resizing;

use crate::flat::lines::Lines;
use crate::size::Size;
use std::alloc::Global;
use vt_cells::{Attrs, Cell, Error};
use vt_rows::cells;
use vt_rows::copies::{blank_cells, copied};

/// The value of [`Line`]'s field `used` that marks all columns of the row as used. Smaller values
/// count groups of eight columns.
pub const WHOLE_ROW: u8 = 255;

/// An entry of the row table, which records where the cells of one row are stored.
///
/// The entry holds the index of the row's slot in the vector of cells, whether the row is wrapped
/// (its text continues on the next row), and the number of used columns, in groups of eight (255
/// means the whole row). All cells after the used columns are default blanks, so blanking a row
/// writes only its used columns.
///
/// An entry is four bytes in size, so the table can be rotated with vector instructions.
#[derive(Clone, Copy, Debug)]
pub struct Line {
    pub(crate) place: u16,
    pub(crate) used: u8,
    pub(crate) wrapped: bool,
}

/// The number of columns of a page, and the number of cells that are stored for each row.
///
/// More cells can be stored for a row than it has columns. The additional cells are default blanks,
/// so the page can be widened to the number of stored cells without moving any cell.
#[derive(Clone, Copy, Debug)]
pub struct Columns {
    pub(crate) shown: u16,
    pub(crate) stored: u16,
}

/// The rows of a page: a vector of cells, divided into one slot per row, and a table with the slot,
/// the used columns and the wrapped flag of each row.
#[derive(Debug, Drop)]
pub struct Flat {
    pub(crate) cells: Vec<Cell>,
    pub(crate) lines: Lines,
    pub(crate) columns: Columns,
}

impl Flat {
    ghost use Rattle.vt_grid.specs.Flat.{IsBlankFrom, IsFlat, cells_at, in_order, rows_of};
    ghost use Rattle.vt_grid.specs.Page.{row_or};

    /// Creates the storage of a page of the given size, filled with default blanks. Row `k` is
    /// stored in slot `k` of the vector of cells.
    ///
    /// # Errors
    ///
    /// Returns [`Error::OutOfMemory`] if the cells or the table cannot be allocated.
    pub fn new(alloc: Global, size: Size) -> Result<Flat, Error>
        ensures cells { IfOk result (λ flat. flat.cells.items ≡ blanks default_attrs (size.rows * size.cols)) }
        ensures lines { IfOk result (λ flat. flat.lines.items ≡ in_order size.rows) }
        ensures columns { IfOk result (λ flat. flat.columns ≡ record { shown = size.cols; stored = size.cols }) }
        ensures memory { OnlyOutOfMemory result }
    {
        let cells = blank_cells(alloc, usize::from(size.rows) * usize::from(size.cols))?;
        Ok(Flat {
            cells,
            lines: Lines::new(Flat::lines_in_order(alloc, size.rows)?),
            columns: Columns {
                shown: size.cols,
                stored: size.cols,
            },
        })
    }

    /// Returns a copy of the storage, in which each row is in the same slot as in `self`.
    ///
    /// # Errors
    ///
    /// Returns [`Error::OutOfMemory`] if the cells or the table cannot be allocated.
    pub fn try_clone(&self, alloc: Global) -> Result<Flat, Error>
        ensures cells { IfOk result (λ flat. flat.cells.items ≡ self.now.cells.items) }
        ensures lines { IfOk result (λ flat. flat.lines.items ≡ self.now.lines.items) }
        ensures columns { IfOk result (λ flat. flat.columns ≡ self.now.columns) }
        ensures memory { OnlyOutOfMemory result }
    {
        let cells = copied(alloc, &self.cells)?;
        let lines = self.lines.try_clone(alloc)?;
        Ok(Flat {
            cells,
            lines,
            columns: self.columns,
        })
    }

    /// Returns the start and the end (exclusive) of the range that a row's cells occupy in the
    /// vector of cells.
    #[tactic(auto, using(crate::proofs::Flats::rows_counted))]
    #[inline]
    pub fn part(&self, row: usize) -> (usize, usize)
        requires flat { IsFlat self.now }
        requires inside { row < length (rows_of self.now) }
        ensures start { result.0 ≡ (line_at self.now.lines.items row).place * self.now.columns.stored }
        ensures end { result.1 ≡ result.0 + self.now.columns.shown }
        ensures inside { result.1 ≤ length self.now.cells.items }
        ensures line { row < length self.now.lines.items }
        ensures row { slice_range self.now.cells.items result.0 result.1
            ≡ (row_or self.now.columns.shown (rows_of self.now) row).cells }
    {
        let start = usize::from(self.lines.get(row).place) * usize::from(self.columns.stored);
        (start, start + usize::from(self.columns.shown))
    }

    /// Returns whether a row is wrapped (its text continues on the next row).
    #[tactic(auto, using(crate::proofs::Flats::rows_counted, crate::proofs::Flats::row_found))]
    #[inline]
    pub fn wrapped(&self, row: usize) -> bool
        requires { row < length (rows_of self.now) }
        ensures { result ≡ (row_or self.now.columns.shown (rows_of self.now) row).wrapped }
    {
        self.lines.get(row).wrapped
    }

    /// Sets the wrapped flag of a row to `wrapped`. The cells are unchanged.
    #[inline]
    pub fn wrap(&mut self, row: usize, wrapped: bool)
        requires { row < length self.old.lines.items }
        ensures cells { self.new.cells ≡ self.old.cells }
        ensures columns { self.new.columns ≡ self.old.columns }
        ensures lines { self.new.lines.items
            ≡ slice_set self.old.lines.items row (record (line_at self.old.lines.items row) { wrapped = wrapped }) }
    {
        let used = self.lines.get(row).used;
        self.set_entry(row, used, wrapped);
    }

    /// Changes the wrapped flag of a row from `was_wrapped` to `is_wrapped`. The cells are
    /// unchanged.
    #[inline(always)]
    pub fn rewrap(&mut self, row: usize, was_wrapped: bool, is_wrapped: bool)
        requires inside { row < length self.old.lines.items }
        requires was { (line_at self.old.lines.items row).wrapped ≡ was_wrapped }
        ensures cells { self.new.cells ≡ self.old.cells }
        ensures columns { self.new.columns ≡ self.old.columns }
        ensures lines { self.new.lines.items
            ≡ slice_set self.old.lines.items row (record (line_at self.old.lines.items row) { wrapped = is_wrapped }) }
    {
        if is_wrapped != was_wrapped {
            self.wrap(row, is_wrapped);
        }
    }

    /// Rotates rows `from..to` upward by `count`, together with their wrapped flags. Only the row
    /// table changes; the cells are not moved.
    #[tactic(auto, using(crate::proofs::Flats::rows_counted))]
    pub fn rotate(&mut self, from: usize, to: usize, count: usize)
        requires in_order { from + count ≤ to }
        requires inside { to ≤ length (rows_of self.old) }
        ensures cells { self.new.cells ≡ self.old.cells }
        ensures columns { self.new.columns ≡ self.old.columns }
        ensures len { length self.new.lines.items ≡ length self.old.lines.items }
        ensures lines { (k : ℕ) →
            line_at self.new.lines.items k ≡ line_at self.old.lines.items (rotation_source from to count k) }
    {
        self.lines.rotate(from, to, count);
    }

    /// Fills a row with default blanks and clears its wrapped flag. Writes only the used columns of
    /// the row, because the cells after them are default blanks already. The cells of all other
    /// rows are unchanged.
    #[tactic(auto, using(crate::proofs::Flats::rows_counted))]
    pub fn blank(&mut self, row: usize)
        requires flat { IsFlat self.old }
        requires inside { row < length (rows_of self.old) }
        ensures own { cells_at self.old.columns.stored self.new.cells.items (line_at self.old.lines.items row).place
            ≡ blanks default_attrs self.old.columns.stored }
        ensures others { (place : ℕ) → place < length self.old.lines.items →
            place ≢ (line_at self.old.lines.items row).place →
            cells_at self.old.columns.stored self.new.cells.items place ≡ cells_at self.old.columns.stored self.old.cells.items place }
        ensures len { length self.new.cells.items ≡ length self.old.cells.items }
        ensures columns { self.new.columns ≡ self.old.columns }
        ensures lines { self.new.lines.items
            ≡ slice_set self.old.lines.items row
            (record (line_at self.old.lines.items row) { used = 0; wrapped = false }) }
    {
        let (start, _end) = self.part(row);
        let used = used_columns(self.lines.get(row).used, self.columns.shown);
        self.set_entry(row, 0, false);
        clear_used(&mut self.cells[start..start + used]);
    }

    /// Turns all cells of a row into blanks with attributes `attrs`, and clears the row's wrapped
    /// flag. The cells of all other rows are unchanged.
    #[tactic(auto, using(crate::proofs::Flats::rows_counted))]
    pub fn fill(&mut self, row: usize, attrs: Attrs)
        requires flat { IsFlat self.old }
        requires inside { row < length (rows_of self.old) }
        ensures own { take self.old.columns.shown
            (cells_at self.old.columns.stored self.new.cells.items (line_at self.old.lines.items row).place)
            ≡ blanks attrs self.old.columns.shown }
        ensures after { IsBlankFrom self.old.columns.shown
            (cells_at self.old.columns.stored self.new.cells.items (line_at self.old.lines.items row).place) }
        ensures others { (place : ℕ) → place < length self.old.lines.items →
            place ≢ (line_at self.old.lines.items row).place →
            cells_at self.old.columns.stored self.new.cells.items place ≡ cells_at self.old.columns.stored self.old.cells.items place }
        ensures len { length self.new.cells.items ≡ length self.old.cells.items }
        ensures columns { self.new.columns ≡ self.old.columns }
        ensures lines { self.new.lines.items
            ≡ slice_set self.old.lines.items row
            (record (line_at self.old.lines.items row) { used = 255; wrapped = false }) }
    {
        let (start, end) = self.part(row);
        self.set_entry(row, WHOLE_ROW, false);
        cells::clear(&mut self.cells[start..end], attrs);
    }

    /// Marks the first `used` groups of eight columns of a row as used ([`WHOLE_ROW`] marks all
    /// columns), and sets the row's wrapped flag to `wrapped`. The cells are unchanged.
    #[inline]
    pub fn set_entry(&mut self, row: usize, used: u8, wrapped: bool)
        requires { row < length self.old.lines.items }
        ensures cells { self.new.cells ≡ self.old.cells }
        ensures columns { self.new.columns ≡ self.old.columns }
        ensures lines { self.new.lines.items
            ≡ slice_set self.old.lines.items row
            (record (line_at self.old.lines.items row) { used = used; wrapped = wrapped }) }
    {
        let place = self.lines.get(row).place;
        self.lines.set(
            row,
            Line {
                place,
                used,
                wrapped,
            },
        );
    }

    /// Creates a row table with `rows` entries, in which row `k` is in slot `k`, has no used
    /// columns and is not wrapped. The vector has memory for twice as many entries (see [`Lines`]).
    ///
    /// # Errors
    ///
    /// Returns [`Error::OutOfMemory`] if the table cannot be allocated.
    fn lines_in_order(alloc: Global, rows: u16) -> Result<Vec<Line>, Error>
        ensures ok { IfOk result (λ lines. lines.items ≡ in_order rows) }
        ensures memory { OnlyOutOfMemory result }
    {
        let mut lines = Vec::with_capacity(alloc, 2 * usize::from(rows))?;
        for place in 0..rows {
            lines.push_reserved(Line {
                place,
                used: 0,
                wrapped: false,
            });
        }
        Ok(lines)
    }
}

/// Sets the used cells of a row, of which there may be none, to default blanks.
#[inline(always)]
fn clear_used(cells: &mut [Cell])
    ensures { cells.new ≡ blanks default_attrs (length cells.old) }
{
    if !cells.is_empty() {
        cells::clear(cells, Attrs::new());
    }
}

/// Returns the number of used columns of a row that has `width` columns. These are the first
/// `groups` groups of eight columns, or all columns if `groups` is [`WHOLE_ROW`].
#[inline]
pub fn used_columns(groups: u8, width: u16) -> usize
    ensures { result ≡ used_columns width groups }
{
    if groups < WHOLE_ROW {
        (8 * usize::from(groups)).min(usize::from(width))
    } else {
        usize::from(width)
    }
}
