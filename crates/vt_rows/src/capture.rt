//! Borrowed rows, and their text with or without attributes.

ghost use Rattle.std.specs.Prelude.{◌≡◌, ◌<◌, ◌↔◌, length, IfSome, IsSome};
ghost use Rattle.vt_rows.specs.Cells.{at};
ghost use Rattle.vt_rows.specs.Row.{IsRow, trimmed_row};

mod basic;
mod leaving;
mod plain;
mod range;
mod rows;
mod state;

use crate::row::Row;
use crate::trimming;
pub use leaving::Leaving;
pub use plain::{
    BasicFormattedToPlain, BasicFormattedToPlainIndexed, basic_formatted_to_plain,
    basic_formatted_to_plain_indexed,
};
pub use range::BasicFormattedCaptureRange;
pub use rows::{BasicFormattedRows, basic_formatted_rows};
pub use state::BasicFormattedCaptureState;
use std::marker::Model;
use vt_cells::Cell;

/// The contents of a row: a reference to its cells, and whether the row is wrapped (its text
/// continues on the next row).
///
/// The row has its own width, which may differ from that of the page.
#[derive(Drop)]
pub struct RowContents<'a> {
    cells: &'a [Cell],
    wrapped: bool,
}

impl<'a> Model for RowContents<'a> {
    ghost use Rattle.std.specs.Prelude.{length};
    ghost use Rattle.vt_rows.specs.Row.{IsRow, RowValue};

    ghost Value = { RowValue };

    ghost view = { λ r. record { cells = r.cells.now; wrapped = r.wrapped } };

    ghost invariant = { λ r. IsRow (length r.cells.now) (record { cells = r.cells.now; wrapped = r.wrapped }) };
}

impl<'a> RowContents<'a> {
    ghost use Rattle.std.specs.Prelude.{◌≡◌, length};
    ghost use Rattle.vt_rows.specs.Row.{IsRow};

    /// Returns the cells, from left to right.
    #[inline]
    pub fn cells(&self) -> &[Cell]
        ensures value { result.now ≡ self.now.cells }
        ensures sound { IsRow (length self.now.cells) self.now }
    {
        self.cells
    }

    /// Returns whether the row is wrapped, that is, whether its text continues on the next row.
    #[inline]
    pub fn wrapped(&self) -> bool
        ensures { result ≡ self.now.wrapped }
    {
        self.wrapped
    }
}

/// Creates the contents of a row that borrows `cells`. The row is wrapped (its text continues on
/// the next row) if `wrapped` is true.
///
/// Every wide glyph must be followed by its continuation cell, and a wrapped row must not end with
/// a blank.
#[inline]
pub fn row_contents<'a>(cells: &'a [Cell], wrapped: bool) -> RowContents<'a>
    requires { IsRow (length cells.now) (record { cells = cells.now; wrapped = wrapped }) }
    ensures { result ≡ record { cells = cells.now; wrapped = wrapped } }
{
    RowContents { cells, wrapped }
}

/// Returns the cells of a row. The returned reference can outlive `row`.
#[inline]
pub fn cells_of<'a>(row: &RowContents<'a>) -> &'a [Cell]
    ensures { result.now ≡ row.now.cells }
{
    row.cells
}

/// Returns the cell at `column` of a row, or `None` if the row has no such column.
#[inline]
pub fn cell_of<'a>(row: &RowContents<'a>, column: usize) -> Option<&'a Cell>
    ensures inside { IsSome result ↔ (column < length row.now.cells) }
    ensures value { IfSome result (λ cell. cell.now ≡ at row.now.cells column) }
{
    if column < row.cells.len() {
        Some(&row.cells[column])
    } else {
        None
    }
}

/// Returns the row without its trailing default blanks, which are blanks with default attributes.
pub fn trimmed<'a>(row: &RowContents<'a>) -> RowContents<'a>
    ensures { result ≡ trimmed_row row.now }
{
    RowContents {
        cells: &row.cells[..trimming::trimmed_len(row.cells)],
        wrapped: row.wrapped,
    }
}

impl Row {
    /// Borrows the contents of the row.
    #[inline]
    pub fn contents(&self) -> RowContents<'_>
        requires { IsRow (length self.now.cells) self.now }
        ensures { result ≡ self.now }
    {
        row_contents(self.cells(), self.wrapped())
    }
}
