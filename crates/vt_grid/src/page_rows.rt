//! The rows of a page, without its cursor.

ghost use Rattle.std.specs.Fn.{FnOnceReturnsAtMut, FnOnceTakesAtMut};
ghost use Rattle.std.specs.Prelude.{◌≡◌, ◌≢◌, ◌+◌, ◌-◌, ◌^◌, ◌&&◌, ◌++◌, ◌<◌, ◌≤◌, ℕ, IfOk, IfSome};
ghost use Rattle.std.specs.Prelude.{List, Some, All, true, false, encode_utf8, if◌then◌else◌, length};
ghost use Rattle.std.specs.Prelude.{min, nat_le, nat_lt, replicate, slice_index_or, slice_set, take, drop};
ghost use Rattle.vt_cells.specs.Cell.{CellValue, IsCell, attrs_of, is_blank, is_right_half};
ghost use Rattle.vt_cells.specs.Cell.{is_wide, text_of, cell_made_wide};
ghost use Rattle.vt_cells.specs.Glyph.{columns_of};
ghost use Rattle.vt_cells.specs.Refusals.{OnlyOutOfMemory};
ghost use Rattle.vt_rows.specs.Cells.{IsPaired, at, ends_blank, cells_after_erase, marked_at};
ghost use Rattle.vt_rows.specs.Cells.{narrowed_at, put_narrow, put_wide, widened_at};
ghost use Rattle.vt_rows.specs.Row.{RowValue, IsRow, blank_row, deleted_row, inserted_row};
ghost use Rattle.vt_grid.specs.Sending.{LetsRowsGo};
ghost use Rattle.vt_grid.specs.PageRows.{CanLetRowsGo, blank_page_rows, page_row, page_rows_down, page_rows_up};
ghost use Rattle.vt_grid.specs.PageRows.{with_page_row, with_page_row_flag, with_row_cells};

mod columns;
mod resizing;
mod texts;
mod widths;

use crate::flat::{Flat, WHOLE_ROW};
use crate::page_rows::columns::erased_reach;
use crate::scrollback::Scrollback;
use crate::size::Size;
use std::alloc::Global;
use std::marker::Model;
use vt_cells::{Attrs, Cell, Error};
use vt_rows::capture::row_contents;
use vt_rows::{Leaving, RowContents, cells, shifts};

/// The rows of a page, all of the same width. Rows are edited in place and reordered by scrolling.
///
/// An edit that leaves the last column of a row blank clears the row's wrapped flag, and so does
/// inserting or deleting columns.
#[derive(Debug, Drop)]
pub struct PageRows {
    flat: Flat,
}

impl Model for PageRows {
    ghost use Rattle.vt_grid.specs.Flat.{IsFlat, rows_of};
    ghost use Rattle.vt_grid.specs.PageRows.{PageRowsValue};

    ghost Value = { PageRowsValue };

    ghost view = { λ s. record { rows = rows_of s.flat; width = s.flat.columns.shown } };

    ghost invariant = { λ s. IsFlat s.flat };
}

impl PageRows {
    /// Creates the rows of a page of the given size, filled with default blanks.
    ///
    /// # Errors
    ///
    /// Returns [`Error::OutOfMemory`] if the rows cannot be allocated.
    pub fn new(alloc: Global, size: Size) -> Result<PageRows, Error>
        ensures ok { IfOk result (λ page_rows. page_rows ≡ blank_page_rows size.rows size.cols) }
        ensures memory { OnlyOutOfMemory result }
    {
        let flat = Flat::new(alloc, size)?;
        Ok(PageRows { flat })
    }

    /// Returns a copy of the rows.
    ///
    /// # Errors
    ///
    /// Returns [`Error::OutOfMemory`] if the rows cannot be allocated.
    pub fn try_clone(&self, alloc: Global) -> Result<PageRows, Error>
        ensures ok { IfOk result (λ page_rows. page_rows ≡ self.now) }
        ensures memory { OnlyOutOfMemory result }
    {
        let flat = self.flat.try_clone(alloc)?;
        Ok(PageRows { flat })
    }

    /// Returns the number of rows and columns.
    #[inline]
    pub fn size(&self) -> Size
        requires { length self.now.rows < 2 ^ 16 }
        ensures rows { result.rows ≡ length self.now.rows }
        ensures cols { result.cols ≡ self.now.width }
    {
        Size {
            rows: self.flat.lines.len() as u16,
            cols: self.flat.columns.shown,
        }
    }

    /// Returns the number of rows.
    #[tactic(auto, using(crate::proofs::Flats::rows_counted))]
    #[inline]
    pub fn len(&self) -> usize
        ensures { result ≡ length self.now.rows }
    {
        self.flat.lines.len()
    }

    /// Returns the contents of a row, borrowed from the page.
    #[inline]
    pub fn row(&self, row: usize) -> RowContents<'_>
        requires inside { row < length self.now.rows }
        requires sound { All (IsRow self.now.width) self.now.rows }
        ensures { result ≡ page_row self.now row }
    {
        let (start, end) = self.flat.part(row);
        row_contents(&self.flat.cells[start..end], self.flat.wrapped(row))
    }

    /// Returns whether a row is wrapped (its text continues on the next row).
    #[inline]
    pub fn wrapped(&self, row: u16) -> bool
        requires { row < length self.now.rows }
        ensures { result ≡ (page_row self.now row).wrapped }
    {
        self.flat.wrapped(usize::from(row))
    }

    /// Returns the cell at column `col` of row `row`.
    #[inline]
    pub fn cell(&self, row: u16, col: u16) -> &Cell
        requires inside { row < length self.now.rows }
        requires column { col < length (page_row self.now row).cells }
        ensures { result.now ≡ at (page_row self.now row).cells col }
    {
        let (start, end) = self.flat.part(usize::from(row));
        &self.flat.cells[start..end][usize::from(col)]
    }

    /// Returns whether the last cell of a row is a blank.
    #[inline]
    pub fn ends_blank(&self, row: u16) -> bool
        requires { row < length self.now.rows }
        ensures { result ≡ ends_blank (page_row self.now row).cells }
    {
        let (start, end) = self.flat.part(usize::from(row));
        cells::ends_blank(&self.flat.cells[start..end])
    }

    /// Sets the wrapped flag of a row to `wrapped`.
    #[inline]
    #[tactic(auto, using(crate::proofs::Flats::rows_counted, crate::proofs::Flats::row_flagged))]
    pub fn wrap(&mut self, row: usize, wrapped: bool)
        requires { row < length self.old.rows }
        ensures { self.new ≡ with_page_row row (record (page_row self.old row) { wrapped = wrapped }) self.old }
    {
        self.flat.wrap(row, wrapped);
    }

    /// Sets the wrapped flag of row `left` to `is_wrapped` after the cursor wraps from that row.
    /// Does nothing if `left` is `None`.
    pub fn wrap_left(&mut self, left: Option<u16>, is_wrapped: bool)
        requires { IfSome left (λ row. row < length self.old.rows) }
        ensures { self.new ≡ with_page_row_flag left is_wrapped self.old }
    {
        if let Some(row) = left {
            self.wrap(usize::from(row), is_wrapped);
        }
    }

    /// Calls `edit` with the cells of a row and returns its result. Clears the row's wrapped flag
    /// if the edited row ends with a blank. Marks all columns of the row as used.
    #[inline(always)]
    fn edit_row<R, F: FnOnce(&mut [Cell]) -> R>(&mut self, row: u16, edit: F) -> R
        requires inside { row < length self.old.rows }
        requires callable { FnOnceTakesAtMut F.FnOnce edit (page_row self.old row).cells }
        ensures { (cells : List CellValue)
            × FnOnceReturnsAtMut F.FnOnce edit (page_row self.old row).cells result cells
            × (self.new ≡ with_row_cells row cells self.old) }
    {
        let row = usize::from(row);
        let was_wrapped = self.flat.wrapped(row);
        let (start, end) = self.flat.part(row);
        self.flat.set_entry(row, WHOLE_ROW, was_wrapped);
        let cells = &mut self.flat.cells[start..end];
        let edited = edit(cells);
        let is_wrapped = cells::is_still_wrapped(cells, was_wrapped);
        self.flat.rewrap(row, was_wrapped, is_wrapped);
        edited
    }

    /// Calls `edit` with the cells of a row, and sets the row's wrapped flag to `is_wrapped`.
    /// Marks all columns of the row as used.
    #[inline(always)]
    fn edit_row_and_flag<F: FnOnce(&mut [Cell])>(&mut self, row: usize, is_wrapped: bool, edit: F)
        requires inside { row < length self.old.rows }
        requires callable { FnOnceTakesAtMut F.FnOnce edit (page_row self.old row).cells }
        ensures { (cells : List CellValue)
            × FnOnceReturnsAtMut F.FnOnce edit (page_row self.old row).cells tt cells
            × (self.new ≡ with_page_row row (record { cells = cells; wrapped = is_wrapped }) self.old) }
    {
        let (start, end) = self.flat.part(row);
        edit(&mut self.flat.cells[start..end]);
        self.flat.set_entry(row, WHOLE_ROW, is_wrapped);
    }

    /// Puts the narrow glyph for `c` at column `col` of row `row`, as [`cells::put_narrow`] does.
    #[inline(always)]
    pub fn put_narrow(&mut self, row: u16, col: u16, c: char, attrs: Attrs)
        requires inside { row < length self.old.rows }
        requires paired { IsPaired (page_row self.old row).cells }
        requires column { col < length (page_row self.old row).cells }
        requires reported { c ≢ 0xFFFD }
        requires columns { columns_of c ≡ Some 1 }
        ensures { self.new
            ≡ with_row_cells row (put_narrow col (encode_utf8 c) attrs (page_row self.old row).cells) self.old }
    {
        let groups = self.groups(row);
        self.edit_row(row, |cells| {
            cells::put_narrow(cells, usize::from(col), c, attrs);
        });
        self.note_used(row, groups, usize::from(col) + 1);
    }

    /// Puts the wide glyph for `c` at columns `col` and `col + 1` of row `row`, as
    /// [`cells::put_wide`] does.
    #[inline(always)]
    pub fn put_wide(&mut self, row: u16, col: u16, c: char, attrs: Attrs)
        requires inside { row < length self.old.rows }
        requires paired { IsPaired (page_row self.old row).cells }
        requires column { col + 1 < length (page_row self.old row).cells }
        requires reported { c ≢ 0xFFFD }
        requires columns { columns_of c ≡ Some 2 }
        ensures { self.new
            ≡ with_row_cells row (put_wide col (encode_utf8 c) attrs (page_row self.old row).cells) self.old }
    {
        let groups = self.groups(row);
        self.edit_row(row, |cells| {
            cells::put_wide(cells, usize::from(col), c, attrs);
        });
        self.note_used(row, groups, usize::from(col) + 2);
    }

    /// Adds a combining character to the cell at column `col` of row `row`, as [`cells::append`]
    /// does.
    pub fn append(&mut self, row: u16, col: u16, mark: char)
        requires inside { row < length self.old.rows }
        requires column { col < length (page_row self.old row).cells }
        requires shown { is_right_half (at (page_row self.old row).cells col) ≡ false }
        requires mark { columns_of mark ≡ Some 0 }
        ensures { self.new ≡ with_row_cells row (marked_at col mark (page_row self.old row).cells) self.old }
    {
        let groups = self.groups(row);
        self.edit_row(row, |cells| cells::append(cells, usize::from(col), mark));
        self.note_used(row, groups, usize::from(col) + 1);
    }

    /// Makes the glyph at column `col` of row `row` wide, as [`cells::widen`] does.
    pub fn widen(&mut self, row: u16, col: u16, attrs: Attrs)
        requires inside { row < length self.old.rows }
        requires paired { IsPaired (page_row self.old row).cells }
        requires column { col + 1 < length (page_row self.old row).cells }
        requires glyph { is_blank (at (page_row self.old row).cells col) ≡ false }
        requires shown { is_right_half (at (page_row self.old row).cells col) ≡ false }
        requires fits { IsCell (cell_made_wide true (at (page_row self.old row).cells col)) }
        ensures { self.new ≡ with_row_cells row (widened_at col attrs (page_row self.old row).cells) self.old }
    {
        let groups = self.groups(row);
        self.edit_row(row, |cells| cells::widen(cells, usize::from(col), attrs));
        self.note_used(row, groups, usize::from(col) + 2);
    }

    /// Makes the glyph at column `col` of row `row` narrow, as [`cells::narrow`] does.
    pub fn narrow(&mut self, row: u16, col: u16, attrs: Attrs)
        requires inside { row < length self.old.rows }
        requires paired { IsPaired (page_row self.old row).cells }
        requires column { col < length (page_row self.old row).cells }
        requires shown { is_right_half (at (page_row self.old row).cells col) ≡ false }
        requires fits { IsCell (cell_made_wide false (at (page_row self.old row).cells col)) }
        ensures { self.new ≡ with_row_cells row (narrowed_at col attrs (page_row self.old row).cells) self.old }
    {
        let groups = self.groups(row);
        self.edit_row(row, |cells| cells::narrow(cells, usize::from(col), attrs));
        self.note_used(row, groups, usize::from(col) + 1);
    }

    /// Removes the cell at column `col` of row `row` and returns it, leaving a blank with
    /// attributes `attrs`, as [`cells::lift`] does.
    pub fn lift(&mut self, row: u16, col: u16, attrs: Attrs) -> Cell
        requires inside { row < length self.old.rows }
        requires paired { IsPaired (page_row self.old row).cells }
        requires column { col < length (page_row self.old row).cells }
        ensures lifted { result ≡ at (page_row self.old row).cells col }
        ensures value { self.new ≡ with_row_cells row (cells_after_erase col 1 attrs (page_row self.old row).cells) self.old }
    {
        let groups = self.groups(row);
        let lifted = self.edit_row(row, |cells| cells::lift(cells, usize::from(col), attrs));
        self.note_used(row, groups, usize::from(col) + 1);
        lifted
    }

    /// Puts a removed cell back at column `col` of row `row`, and sets the row's wrapped flag to
    /// `is_wrapped`. The other cells are unchanged.
    pub fn put_back(&mut self, row: u16, col: u16, cell: Cell, is_wrapped: bool)
        requires inside { row < length self.old.rows }
        requires column { col < length (page_row self.old row).cells }
        ensures { self.new
            ≡ with_page_row row
            (record { cells = slice_set (page_row self.old row).cells col cell; wrapped = is_wrapped }) self.old }
    {
        self.edit_row_and_flag(usize::from(row), is_wrapped, |cells| {
            cells[usize::from(col)] = cell;
        });
    }

    /// Puts the wide glyph `cell` at columns `col` and `col + 1` of row `row`, as
    /// [`cells::put_wide_cell`] does.
    pub fn put_wide_cell(&mut self, row: u16, col: u16, cell: Cell)
        requires inside { row < length self.old.rows }
        requires paired { IsPaired (page_row self.old row).cells }
        requires column { col + 1 < length (page_row self.old row).cells }
        requires wide { is_wide cell ≡ true }
        ensures { self.new
            ≡ with_row_cells row (put_wide col (text_of cell) (attrs_of cell) (page_row self.old row).cells) self.old }
    {
        let groups = self.groups(row);
        self.edit_row(row, |cells| {
            cells::put_wide_cell(cells, usize::from(col), cell);
        });
        self.note_used(row, groups, usize::from(col) + 2);
    }

    /// Replaces columns `from..to` of a row with blanks that have attributes `attrs`, as
    /// [`cells::erase`] does.
    pub fn erase(&mut self, row: u16, from: u16, to: u16, attrs: Attrs)
        requires inside { row < length self.old.rows }
        requires paired { IsPaired (page_row self.old row).cells }
        requires nonempty { from < to }
        requires columns { to ≤ length (page_row self.old row).cells }
        ensures { self.new
            ≡ with_row_cells row (cells_after_erase from (to - from) attrs (page_row self.old row).cells) self.old }
    {
        let groups = self.groups(row);
        self.edit_row(row, |cells| {
            cells::erase(cells, usize::from(from), usize::from(to), attrs);
        });
        self.note_used(row, groups, erased_reach(to, attrs));
    }

    /// Inserts `count` default blanks at column `col` of row `row`, as [`shifts::insert`] does, and
    /// clears the row's wrapped flag.
    pub fn insert(&mut self, row: u16, col: u16, count: u16)
        requires inside { row < length self.old.rows }
        requires paired { IsPaired (page_row self.old row).cells }
        requires column { col ≤ length (page_row self.old row).cells }
        ensures { self.new ≡ with_page_row row (inserted_row col count (page_row self.old row)) self.old }
    {
        self.edit_row_and_flag(usize::from(row), false, |cells| {
            shifts::insert(cells, usize::from(col), usize::from(count));
        });
    }

    /// Deletes `count` columns of a row, starting at `col`, as [`shifts::delete`] does, and clears
    /// the row's wrapped flag.
    pub fn delete(&mut self, row: u16, col: u16, count: u16)
        requires inside { row < length self.old.rows }
        requires paired { IsPaired (page_row self.old row).cells }
        requires column { col ≤ length (page_row self.old row).cells }
        ensures { self.new ≡ with_page_row row (deleted_row col count (page_row self.old row)) self.old }
    {
        self.edit_row_and_flag(usize::from(row), false, |cells| {
            shifts::delete(cells, usize::from(col), usize::from(count));
        });
    }

    /// Turns all cells of a row into blanks with attributes `attrs`, and clears the row's wrapped
    /// flag.
    pub fn clear_row(&mut self, row: usize, attrs: Attrs)
        requires inside { row < length self.old.rows }
        ensures { self.new ≡ with_page_row row (blank_row attrs self.old.width) self.old }
    {
        if attrs.is_same(&Attrs::new()) {
            self.flat.blank(row);
        } else {
            self.flat.fill(row, attrs);
        }
    }

    /// Turns all cells of the page into blanks with attributes `attrs`, and clears all wrapped
    /// flags.
    pub fn clear_all(&mut self, attrs: Attrs)
        requires sound { All (IsRow self.old.width) self.old.rows }
        ensures { self.new
            ≡ record self.old { rows = replicate (length self.old.rows) (blank_row attrs self.old.width) } }
    {
        self.clear_rows(0, self.len(), attrs);
    }

    /// Turns all cells of the rows above `row` into blanks with attributes `attrs`, and clears the
    /// wrapped flags of these rows.
    pub fn clear_above(&mut self, row: u16, attrs: Attrs)
        requires inside { row < length self.old.rows }
        requires sound { All (IsRow self.old.width) self.old.rows }
        ensures { self.new
            ≡ record self.old { rows = replicate row (blank_row attrs self.old.width) ++ drop row self.old.rows } }
    {
        self.clear_rows(0, usize::from(row), attrs);
    }

    /// Turns all cells of the rows below `row` into blanks with attributes `attrs`, and clears the
    /// wrapped flags of these rows.
    pub fn clear_below(&mut self, row: u16, attrs: Attrs)
        requires inside { row < length self.old.rows }
        requires sound { All (IsRow self.old.width) self.old.rows }
        ensures { self.new
            ≡ record self.old {
              rows =
                  take (row + 1) self.old.rows
                  ++ replicate (length self.old.rows - (row + 1)) (blank_row attrs self.old.width);
            } }
    {
        let end = self.len();
        self.clear_rows(usize::from(row) + 1, end, attrs);
    }

    /// Moves rows `top..=bottom` up by `count`. Blank rows enter at the bottom, and rows that move
    /// past the top are lost.
    ///
    /// For rows that are not lost, only the row table changes; their cells are not moved.
    pub fn scroll_up(&mut self, top: u16, bottom: u16, count: u16)
        requires in_order { top ≤ bottom }
        requires inside { bottom < length self.old.rows }
        requires sound { All (IsRow self.old.width) self.old.rows }
        ensures { self.new ≡ page_rows_up top bottom count self.old }
    {
        let top = usize::from(top);
        let end = usize::from(bottom) + 1;
        let count = usize::from(count).min(end - top);
        self.flat.rotate(top, end, count);
        self.clear_rows(end - count, end, Attrs::new());
    }

    /// Moves rows `top..=bottom` down by `count`. Blank rows enter at the top, and rows that move
    /// past the bottom are lost. The wrapped flag of row `bottom` is cleared.
    ///
    /// For rows that are not lost, only the row table changes; their cells are not moved.
    pub fn scroll_down(&mut self, top: u16, bottom: u16, count: u16)
        requires in_order { top ≤ bottom }
        requires inside { bottom < length self.old.rows }
        requires sound { All (IsRow self.old.width) self.old.rows }
        ensures { self.new ≡ page_rows_down top bottom count self.old }
    {
        let top = usize::from(top);
        let end = usize::from(bottom) + 1;
        let count = usize::from(count).min(end - top);
        self.flat.rotate(top, end, end - top - count);
        self.clear_rows(top, top + count, Attrs::new());
        self.wrap(usize::from(bottom), false);
    }

    /// Moves rows `0..=bottom` up by `count`, as [`PageRows::scroll_up`] does. The rows that scroll
    /// off are appended to `above`, the scrollback, and rows that it does not keep are reported to
    /// `leaving`. `size` must be the size of the page.
    ///
    /// # Errors
    ///
    /// Returns [`Error::OutOfMemory`] if memory for scrollback cannot be allocated. On error,
    /// nothing is changed and no row is reported.
    pub fn send_up<L: Leaving>(
        &mut self,
        bottom: u16,
        count: u16,
        size: Size,
        above: &mut Scrollback,
        leaving: &mut L,
    ) -> Result<(), Error>
        requires { CanLetRowsGo (bottom + 1) size.cols self.old }
        ensures { LetsRowsGo L.leaves size.rows size.cols (take (min count (bottom + 1)) self.old.rows)
            self.old above.old leaving.old (page_rows_up 0 bottom count self.old)
            self.new above.new leaving.new result }
    {
        let gone = usize::from(count).min(usize::from(bottom) + 1);
        above.push(self, gone, size, leaving)?;
        self.scroll_up(0, bottom, count);
        Ok(())
    }

    /// Turns all cells of rows `from..to` into blanks with attributes `attrs`, and clears the
    /// wrapped flags of these rows.
    fn clear_rows(&mut self, from: usize, to: usize, attrs: Attrs)
        requires in_order { from ≤ to }
        requires inside { to ≤ length self.old.rows }
        ensures len { length self.new.rows ≡ length self.old.rows }
        ensures width { self.new.width ≡ self.old.width }
        ensures by_index { (k : ℕ) (d : RowValue) → k < length self.old.rows →
            slice_index_or self.new.rows k d
            ≡ (if nat_le from k && nat_lt k to then blank_row attrs self.old.width
            else slice_index_or self.old.rows k d) }
    {
        for row in from..to {
            self.clear_row(row, attrs);
        }
    }
}
