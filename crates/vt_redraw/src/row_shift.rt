//! Columns of a row that move right or left.

ghost use Rattle.std.specs.Prelude.{◌≡◌, ◌<◌, ◌++◌, IfSome, OnOk, length, true};
ghost use Rattle.vt_cells.specs.Op.{counted};
ghost use Rattle.vt_redraw.specs.Shifted.{IsRowShift, shift_text, shifted_page};

use vt_cells::term::{BufWrite, MoveTo};
use vt_cells::{Pos, Sink};
use vt_grid::{CursorMove, Grid};

/// A shift of columns in a row: to the right, because blanks are inserted, or to the left, because
/// columns are deleted. Columns that move past the end of the row are lost, and default blanks fill
/// the vacated columns.
#[derive(Clone, Copy, PartialEq, Eq, Debug)]
pub struct RowShift {
    /// The row, counted from 0.
    pub row: u16,

    /// The column at which blanks are inserted or columns are deleted, counted from 0.
    pub col: u16,

    /// The number of columns that are inserted or deleted.
    pub count: u16,

    /// Whether blanks are inserted; otherwise columns are deleted.
    pub insert: bool,
}

impl RowShift {
    /// Returns whether the shift moves columns and lies within a picture of
    /// `height` rows and `cols` columns.
    pub fn is_within(&self, height: u16, cols: u16) -> bool
        ensures { result ≡ true → IsRowShift height cols self.now }
    {
        0 < self.count
            && self.row < height
            && u32::from(self.col) + u32::from(self.count) <= u32::from(cols)
    }

    /// Shifts the columns of a row of `grid`, and leaves the cursor at the column where blanks are
    /// inserted or columns are deleted.
    pub fn apply(&self, grid: &mut Grid)
        requires { IsRowShift (length grid.old.rows) grid.old.width self.now }
        ensures { grid.new ≡ shifted_page self.now grid.old }
    {
        grid.move_cursor(CursorMove::ToRow(self.row));
        grid.move_cursor(CursorMove::ToColumn(self.col));
        if self.insert {
            grid.insert_cells(self.count);
        } else {
            grid.delete_cells(self.count);
        }
    }

    /// Writes the sequences that make a terminal shift the columns: CUP, then
    /// ICH or DCH.
    ///
    /// # Errors
    ///
    /// Returns the sink's error. Part of the output may have been written by
    /// then.
    pub fn write<S: Sink>(&self, sink: &mut S) -> Result<(), S::Error>
        ensures { OnOk result (S.text sink.new ≡ S.text sink.old ++ shift_text self.now) }
    {
        MoveTo {
            pos: Pos {
                row: self.row,
                col: self.col,
            },
        }
        .write_buf(sink)?;
        if self.insert {
            write_blanks_inserted(sink, self.count)
        } else {
            write_columns_deleted(sink, self.count)
        }
    }

    /// Returns the column, before the shift, of the cell that is in column `col` after the shift,
    /// in a row of `cols` columns. Returns `None` if column `col` becomes blank.
    pub(crate) fn source(&self, col: u16, cols: u16) -> Option<u16>
        ensures { IfSome result (λ from. col < cols → from < cols) }
    {
        if col < self.col {
            return Some(col);
        }
        if self.insert {
            let from = col.checked_sub(self.count)?;
            if from < self.col { None } else { Some(from) }
        } else {
            let from = col.checked_add(self.count)?;
            if from < cols { Some(from) } else { None }
        }
    }
}

/// Writes the sequence that inserts `count` blanks at the cursor (ICH), or
/// nothing if `count` is 0.
fn write_blanks_inserted<S: Sink>(sink: &mut S, count: u16) -> Result<(), S::Error>
    ensures { OnOk result (S.text sink.new ≡ S.text sink.old ++ counted count 0x40) }
{
    match count {
        0 => Ok(()),
        1 => sink.write_str("\x1b[@"),
        count => {
            let mut digits = itoa::Buffer::new();
            sink.write_str("\x1b[")?;
            sink.write_str(digits.format(u32::from(count)))?;
            sink.write_str("@")
        }
    }
}

/// Writes the sequence that deletes `count` columns at the cursor (DCH), or
/// nothing if `count` is 0.
fn write_columns_deleted<S: Sink>(sink: &mut S, count: u16) -> Result<(), S::Error>
    ensures { OnOk result (S.text sink.new ≡ S.text sink.old ++ counted count 0x50) }
{
    match count {
        0 => Ok(()),
        1 => sink.write_str("\x1b[P"),
        count => {
            let mut digits = itoa::Buffer::new();
            sink.write_str("\x1b[")?;
            sink.write_str(digits.format(u32::from(count)))?;
            sink.write_str("P")
        }
    }
}
