//! The form of redraws and diffs, and the choices that depend on it.

ghost use Rattle.std.specs.Prelude.{◌≡◌, ◌==◌, ◌||◌, ◌-◌, ◌<◌, ◌≤◌, length, not};
ghost use Rattle.vt_cells.specs.Cell.{text_of};
ghost use Rattle.vt_rows.specs.Cells.{at};
ghost use Rattle.vt_redraw.specs.Certain.{is_certain_text};
ghost use Rattle.vt_redraw.specs.Script.{erased_count, resets, run_count, shifts, swaps_intensity};

use crate::certain::is_certain_text;
use crate::picture_row::PictureRow;
use vt_cells::{Attrs, Cell};

/// The form of the output that displays a picture.
#[derive(Clone, Copy, PartialEq, Eq, Debug)]
pub enum Form {
    /// The form of the ordinary calls, which is fixed byte for byte.
    Fixed,

    /// A form that avoids the sequences on whose effects terminals disagree.
    Portable,
}

/// Returns whether all attributes are reset when the attributes change from `was` to `new`. On many
/// terminals, setting bold does not clear dim, nor the reverse.
#[inline]
pub(crate) fn resets(form: Form, was: Attrs, new: Attrs) -> bool
    ensures { result ≡ resets form was new }
{
    match form {
        Form::Fixed => false,
        Form::Portable => swaps_intensity(was, new),
    }
}

/// Returns whether one of the two sets of attributes is bold and the other is dim.
fn swaps_intensity(was: Attrs, new: Attrs) -> bool
    ensures { result ≡ swaps_intensity was new }
{
    (was.bold() && new.dim()) || (was.dim() && new.bold())
}

/// Returns the number of columns to erase for a run of `count` blanks that ends just before column
/// `end`. In the portable form, this includes the continuation cell of a wide glyph that the run
/// cuts.
pub(crate) fn run_count(form: Form, count: u16, end: u16, over: &PictureRow<'_>) -> u16
    requires inside { end < length over.now.cells }
    requires order { count ≤ end }
    ensures { result ≡ run_count form count (at over.now.cells end) }
{
    match form {
        Form::Fixed => count,
        Form::Portable => {
            // Only for the proof: the end of the run is less than a number of 16 bits.
            if end < over.cols() && over.cell(end).is_wide_continuation() {
                return count + 1;
            }
            count
        }
    }
}

/// Returns the number of columns to erase of the glyph that begins in column `col` and ends the row:
/// one in the fixed form, and all columns of the glyph in the portable form.
pub(crate) fn erased_columns(form: Form, cells: &PictureRow<'_>, col: u16) -> u16
    requires { col ≤ length cells.now.cells }
    ensures { result ≡ erased_count form (length cells.now.cells - col) }
{
    match form {
        Form::Fixed => 1,
        Form::Portable => cells.cols() - col,
    }
}

/// Returns whether terminals may differ in the cursor's position after they print the glyph in a
/// cell. Always returns `false` in the fixed form, which does not take this into account.
#[inline(always)]
pub(crate) fn shifts(form: Form, cell: &Cell) -> bool
    ensures { result ≡ shifts form (text_of cell.now) }
{
    match form {
        Form::Fixed => false,
        Form::Portable => is_uncertain(cell),
    }
}

/// Returns whether terminals may disagree on the width of the glyph in a cell. A glyph of one byte
/// is printable ASCII.
fn is_uncertain(cell: &Cell) -> bool
    ensures { result
        ≡ not ((length (text_of cell.now) == 1) || is_certain_text (text_of cell.now)) }
{
    let text = cell.contents();
    !(text.len() == 1 || is_certain_text(text))
}
