//! An owned row of cells.

ghost use Rattle.std.specs.Prelude.{◌≡◌, ◌&&◌, ◌<◌, IfOk, IsErr, OnErr, OnOk, length};
ghost use Rattle.vt_cells.specs.Attrs.{default_attrs};
ghost use Rattle.vt_cells.specs.Refusals.{OnlyOutOfMemory};
ghost use Rattle.vt_rows.specs.Cells.{IsPaired};
ghost use Rattle.vt_rows.specs.Row.{IsRow, blank_row, resized_row, cells_without_end, trimmed_row};

use crate::capture::Leaving;
use crate::copies::{blank_cells, copied, push_copies};
use crate::trimming;
use std::alloc::Global;
use std::marker::Model;
use vt_cells::{Cell, Error};

/// An owned row: its cells, and whether the row is wrapped (its text continues on the next row).
#[derive(Debug, Drop)]
pub struct Row {
    cells: Vec<Cell>,
    wrapped: bool,
}

impl Model for Row {
    ghost use Rattle.vt_rows.specs.Row.{RowValue};

    ghost Value = { RowValue };

    ghost view = { λ r. record { cells = r.cells.items; wrapped = r.wrapped } };
}

impl Row {
    /// Creates a row of `columns` blanks with default attributes. The row is not wrapped.
    ///
    /// # Errors
    ///
    /// Returns [`Error::OutOfMemory`] if the cells cannot be allocated.
    pub fn new(alloc: Global, columns: usize) -> Result<Row, Error>
        ensures ok { IfOk result (λ row. row ≡ blank_row default_attrs columns) }
        ensures memory { OnlyOutOfMemory result }
    {
        let cells = blank_cells(alloc, columns)?;
        Ok(Row {
            cells,
            wrapped: false,
        })
    }

    /// Returns a copy of the row.
    ///
    /// # Errors
    ///
    /// Returns [`Error::OutOfMemory`] if the cells cannot be allocated.
    pub fn try_clone(&self, alloc: Global) -> Result<Row, Error>
        ensures ok { IfOk result (λ row. row ≡ self.now) }
        ensures memory { OnlyOutOfMemory result }
    {
        let cells = copied(alloc, &self.cells)?;
        Ok(Row {
            cells,
            wrapped: self.wrapped,
        })
    }

    /// Creates a row from a copy of `cells` without the trailing default blanks, which are blanks
    /// with default attributes. The row is wrapped if `wrapped` is true.
    ///
    /// # Errors
    ///
    /// Returns [`Error::OutOfMemory`] if the cells cannot be allocated.
    pub fn trimmed_copy(alloc: Global, cells: &[Cell], wrapped: bool) -> Result<Row, Error>
        ensures ok { IfOk result (λ row. row ≡ trimmed_row (record { cells = cells.now; wrapped = wrapped })) }
        ensures memory { OnlyOutOfMemory result }
    {
        let kept = &cells[..trimming::trimmed_len(cells)];
        let cells = copied(alloc, kept)?;
        Ok(Row { cells, wrapped })
    }

    /// Returns the number of columns of the row.
    #[inline]
    pub fn cols(&self) -> usize
        ensures { result ≡ length self.now.cells }
    {
        self.cells.len()
    }

    /// Returns the cells, from left to right.
    #[inline]
    pub fn cells(&self) -> &[Cell]
        ensures { result.now ≡ self.now.cells }
    {
        &self.cells
    }

    /// Returns whether the row is wrapped, that is, whether its text continues on the next row.
    #[inline]
    pub fn wrapped(&self) -> bool
        ensures { result ≡ self.now.wrapped }
    {
        self.wrapped
    }

    /// Passes the row to `leaving` and then reuses the row's memory: the row becomes a copy of
    /// `cells` without the trailing default blanks, and is wrapped if `wrapped` is true.
    ///
    /// # Errors
    ///
    /// Returns [`Error::OutOfMemory`] if the row must grow and the allocation fails. The row is
    /// then unchanged and was not passed to `leaving`.
    pub fn leave_for<L: Leaving>(
        &mut self,
        cells: &[Cell],
        wrapped: bool,
        leaving: &mut L,
    ) -> Result<(), Error>
        requires { IsRow (length self.old.cells) self.old }
        ensures row { OnOk result (self.new ≡ trimmed_row (record { cells = cells.now; wrapped = wrapped })) }
        ensures reported { OnOk result (L.leaves leaving.old self.old leaving.new) }
        ensures err { OnErr result ((self.new ≡ self.old) × (leaving.new ≡ leaving.old)) }
        ensures grows { IsErr result → length self.old.cells < length (cells_without_end cells.now) }
        ensures memory { OnlyOutOfMemory result }
    {
        let kept = &cells[..trimming::trimmed_len(cells)];
        let more = kept.len().saturating_sub(self.cells.len());
        self.cells.reserve_exact(more)?;
        leaving.leave(self.contents());
        self.cells.clear();
        push_copies(&mut self.cells, kept);
        self.wrapped = wrapped;
        Ok(())
    }

    /// Moves the cells of `from` into this row, which must be blank. Cells past the end of this row
    /// are lost, and columns past the end of `from` stay blank.
    ///
    /// If the last column holds the first cell of a wide glyph after the move, that cell becomes a
    /// blank and keeps its attributes. The row is wrapped if `from` is wrapped and has the same
    /// width.
    pub fn refit(&mut self, from: Row)
        requires blank { self.old ≡ blank_row default_attrs (length self.old.cells) }
        requires paired { IsPaired from.cells }
        ensures { self.new ≡ resized_row (length self.old.cells) from }
    {
        self.wrapped = is_wrapped_after_resize(from.wrapped, from.cells.len() == self.cells.len());
        trimming::refit(&mut self.cells, &from.cells);
    }
}

/// Returns whether a row is still wrapped after it is resized, that is, whether it was wrapped
/// before (`wrapped`) and its width has not changed (`same`).
pub fn is_wrapped_after_resize(wrapped: bool, same: bool) -> bool
    ensures { result ≡ (wrapped && same) }
{
    wrapped && same
}
