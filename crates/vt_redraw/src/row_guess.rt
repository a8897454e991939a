//! A guess at the columns that have moved in a row between two pictures. Correctness does not
//! depend on the guess: whichever columns are moved, the diff then draws all remaining changes.
//!
//! Throughout this module, `over` is the row that the terminal displays, and `cells` is the row
//! that it is to display.

ghost use Rattle.std.specs.Prelude.{◌<◌, IfSome, length};
ghost use Rattle.vt_redraw.specs.Picture.{SamePictureSize};
ghost use Rattle.vt_redraw.specs.Shifted.{IsRowShift};

use crate::picture_row::PictureRow;
use crate::row_shift::RowShift;
use crate::shift_counts::likely_counts;
use crate::view::View;
use vt_cells::{Attrs, Cell, cell};

/// The approximate number of bytes that it takes to move the cursor within a row, or to erase a run
/// of blanks, rounded up so that few shifts are tried in vain.
const RUN: i32 = 4;

/// The approximate number of bytes that it takes to change attributes.
const CHANGE: i32 = 6;

/// The approximate number of bytes in the escape sequences of a shift.
const SEQUENCES: i32 = 10;

/// The best shift so far, and the approximate number of bytes that it takes to draw the row after
/// that shift. If there is none yet, the number that a shift must be below.
#[derive(Drop)]
struct Best {
    shift: Option<RowShift>,
    bytes: i32,
}

/// An estimate of the length of the output that draws the leading cells of a row. It also records
/// whether and how the last cell was drawn and which attributes are set, because the output for the
/// next cell depends on them.
#[derive(Drop)]
struct Estimate {
    bytes: i32,
    drew: bool,
    drew_blank: bool,
    attrs: Attrs,
}

/// Returns the shift of columns in row `row` that most likely happened between `prev` and `view`,
/// or `None` if no shift is expected to save more than `least` bytes.
pub fn likely_row_shift(view: &View<'_>, prev: &View<'_>, row: u16, least: i32) -> Option<RowShift>
    requires size { SamePictureSize view.now prev.now }
    requires row { row < length view.now.rows }
    ensures { IfSome result (IsRowShift (length prev.now.rows) prev.now.width) }
{
    let cells = view.row(row);
    let over = prev.row(row);
    let col = first_difference(&cells, &over)?;
    let shift = best_shift(&cells, &over, row, col, least)?;
    if shift.is_within(prev.rows(), prev.cols()) {
        Some(shift)
    } else {
        None
    }
}

/// Returns the first column in which the two rows differ, or `None` if they are equal.
fn first_difference(cells: &PictureRow<'_>, over: &PictureRow<'_>) -> Option<u16> {
    let cols = cells.cols().min(over.cols());
    let same = cells.same_run(over, 0);
    let first = u16::try_from(same).unwrap_or(cols);
    for col in first..cols {
        let same = *cells.cell(col) == *over.cell(col);
        if !same {
            return Some(col);
        }
    }
    None
}

/// Returns the shift of the columns of row `row`, starting at column `col`, that saves the most
/// bytes, or `None` if no such shift saves more than `least` bytes.
fn best_shift(
    cells: &PictureRow<'_>,
    over: &PictureRow<'_>,
    row: u16,
    col: u16,
    least: i32,
) -> Option<RowShift> {
    let none = RowShift {
        row,
        col,
        count: 0,
        insert: false,
    };
    let counts = likely_counts(cells.own_cells(), over.own_cells(), usize::from(col));
    if counts.deleted == 0 && counts.inserted == 0 {
        return None;
    }
    let unshifted = drawing(cells, over, none, i32::MAX);
    let mut best = Best {
        shift: None,
        bytes: unshifted.saturating_sub(SEQUENCES).saturating_sub(least),
    };
    let mut shift = none;
    shift.count = counts.deleted;
    best.consider(cells, over, shift);
    shift.count = counts.inserted;
    shift.insert = true;
    best.consider(cells, over, shift);
    best.shift
}

impl Best {
    /// Makes `shift` the best shift if drawing the row after it takes fewer bytes than the best
    /// shift so far. Ignores a shift by zero columns.
    fn consider(&mut self, cells: &PictureRow<'_>, over: &PictureRow<'_>, shift: RowShift) {
        if shift.count == 0 {
            return;
        }
        let bytes = drawing(cells, over, shift, self.bytes);
        if bytes < self.bytes {
            self.shift = Some(shift);
            self.bytes = bytes;
        }
    }
}

/// Returns the approximate number of bytes that it takes to draw the row `cells` over the row
/// `over` after `shift` has been applied to `over`. Counts only columns at or after the column of
/// `shift`, and stops counting at the first column at which the number is at least `limit`.
fn drawing(cells: &PictureRow<'_>, over: &PictureRow<'_>, shift: RowShift, limit: i32) -> i32 {
    let cols = cells.cols().min(over.cols());
    let blank = cell::default_blank();
    let mut estimate = Estimate {
        bytes: 0,
        drew: true,
        drew_blank: false,
        attrs: Attrs::new(),
    };
    for col in shift.col..cols {
        if estimate.bytes >= limit {
            break;
        }
        let cell = cells.cell(col);
        let same = match shift.source(col, cols) {
            Some(from) => *cell == *over.cell(from),
            None => cell::has_head_of(cell, &blank),
        };
        estimate.add(cell, same);
    }
    estimate.bytes
}

impl Estimate {
    /// Adds the estimated length of the output for one cell. If `same` is true, the terminal
    /// already displays the cell, and it is not drawn. A continuation cell adds nothing, because it
    /// is drawn with the glyph before it.
    fn add(&mut self, cell: &Cell, same: bool) {
        if cell.is_wide_continuation() {
            return;
        }
        if same {
            self.drew = false;
            return;
        }
        let attrs = cell::attrs(cell);
        if attrs != self.attrs {
            self.attrs = attrs;
            self.bytes = self.bytes.saturating_add(CHANGE);
        }
        let blank = cell::is_blank(cell);
        self.bytes = self
            .bytes
            .saturating_add(if self.drew { 0 } else { RUN })
            .saturating_add(self.text_len(cell, blank));
        self.drew = true;
        self.drew_blank = blank;
    }

    /// Returns the approximate number of bytes that it takes to draw a cell whose attributes are
    /// already set. For a glyph, this is the length of its text. For the first blank of a run, it
    /// is the number of bytes that it takes to erase the run, and for each later blank it is 0.
    /// `blank` is true if the cell is a blank.
    fn text_len(&self, cell: &Cell, blank: bool) -> i32 {
        if !blank {
            return i32::try_from(cell.contents().len()).unwrap_or(0);
        }
        if self.drew && self.drew_blank { 0 } else { RUN }
    }
}
