//! Functions that write the column shifts that most likely happened between two pictures, and apply
//! them to a page.

ghost use Rattle.std.specs.Prelude.{◌≡◌, ◌++◌, OnOk, length};
ghost use Rattle.vt_redraw.specs.Internals.{Shifts};
ghost use Rattle.vt_redraw.specs.Picture.{SamePictureSize};
ghost use Rattle.vt_redraw.specs.Shifted.{IsRowShift, shift_text, shifted_page};

use crate::row_guess::likely_row_shift;
use crate::row_shift::RowShift;
use crate::view::View;
use vt_cells::Sink;
use vt_grid::Grid;

/// Writes the sequences for a shift, and applies the shift to `grid`.
fn write_shift<S: Sink>(sink: &mut S, grid: &mut Grid, shift: RowShift) -> Result<(), S::Error>
    requires { IsRowShift (length grid.old.rows) grid.old.width shift }
    ensures text { OnOk result (S.text sink.new ≡ S.text sink.old ++ shift_text shift) }
    ensures page { OnOk result (grid.new ≡ shifted_page shift grid.old) }
{
    shift.write(sink)?;
    shift.apply(grid);
    Ok(())
}

/// Writes the sequences of the shift `first` and then of the most likely shift, if any, of each row
/// below the row of `first`. Applies these shifts to `grid`, a page that displays `prev`.
///
/// # Errors
///
/// Returns the sink's error. Part of the output may have been written by then.
pub fn write_row_shifts<S: Sink>(
    sink: &mut S,
    grid: &mut Grid,
    view: &View<'_>,
    prev: &View<'_>,
    first: RowShift,
) -> Result<(), S::Error>
    requires size { SamePictureSize view.now prev.now }
    requires height { length grid.old.rows ≡ length prev.now.rows }
    requires width { grid.old.width ≡ prev.now.width }
    requires first { IsRowShift (length grid.old.rows) grid.old.width first }
    ensures { OnOk result (Shifts first (S.text sink.old) (S.text sink.new) grid.old grid.new) }
{
    write_shift(sink, grid, first)?;
    let height = view.rows();
    for row in first.row + 1..height {
        if let Some(shift) = likely_row_shift(view, prev, row, 0) {
            write_shift(sink, grid, shift)?;
        }
    }
    Ok(())
}
