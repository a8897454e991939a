//! The output that turns the display of one picture into that of another, apart from hiding or
//! showing the cursor.
//!
//! Throughout this module, the *terminal* is the terminal that reads the output, and `pen` holds
//! its cursor position and attributes. `cells` is a row of the picture, and `over` is the row that
//! the terminal displays in its place. The module `links` defines links and breaks.

ghost use Rattle.std.specs.Prelude.{◌≡◌, IfOk, OnOk};
ghost use Rattle.vt_cells.specs.Op.{bytes_of_all};
ghost use Rattle.vt_redraw.specs.Internals.{AppendsOrStops, IsRowOver, Writes, row_behind};
ghost use Rattle.vt_redraw.specs.Picture.{SamePictureSize};
ghost use Rattle.vt_redraw.specs.Refusals.{RefusedOnlyIfSome};
ghost use Rattle.vt_redraw.specs.Redraw.{row_written, rows_written, script_in};

use crate::cells::write_cells;
use crate::cursor_rule::write_cursor;
use crate::drawn_rows::RowWatch;
use crate::form::Form;
use crate::links::{Link, write_break, write_link};
use crate::pen::{Pen, write_change_in};
use crate::picture_row::PictureRow;
use crate::view::View;
use vt_cells::{Pos, Sink};

/// Writes the sequences that turn the terminal's row `over` into the picture's row `cells`, except
/// for the leading cells that `link` has already written. If only the terminal's row is then
/// wrapped, also writes the row break, that is, the output that clears the wrapped flag. Returns
/// whether the terminal's row is wrapped afterward.
#[tactic(auto, using(crate::proofs::CellSteps::range_of))]
pub(crate) fn write_row<S: Sink>(
    sink: &mut S,
    pen: &mut Pen,
    row: u16,
    link: Link,
    cells: &PictureRow<'_>,
    over: &PictureRow<'_>,
) -> Result<bool, S::Error>
    requires { IsRowOver cells.now.cells over.now.cells }
    ensures writes { IfOk result (λ is_wrapped. Writes (S.text sink.old) (S.text sink.new) pen.new is_wrapped
        (row_behind row link pen.old cells.now over.now)) }
    ensures nonempty { RefusedOnlyIfSome result (bytes_of_all (row_behind row link pen.old cells.now over.now).ops) }
{
    let mut wrapped = link.wrapped;
    let pos = Pos {
        row,
        col: link.settled,
    };
    write_cells(sink, pen, &mut wrapped, pos, cells, over)?;
    // Only for the proof: the prover finds the clause about a value in tail
    // position.
    let is_wrapped = write_break(sink, pen, row, wrapped, cells)?;
    Ok(is_wrapped)
}

/// Writes the sequences that turn the terminal's first row, `over`, into the picture's first row,
/// `cells`. Returns whether the terminal's row is wrapped afterward.
pub(crate) fn write_top<S: Sink>(
    sink: &mut S,
    pen: &mut Pen,
    cells: &PictureRow<'_>,
    over: &PictureRow<'_>,
) -> Result<bool, S::Error>
    requires { IsRowOver cells.now.cells over.now.cells }
    ensures writes { IfOk result (λ is_wrapped. Writes (S.text sink.old) (S.text sink.new) pen.new is_wrapped
        (row_written 0 0 pen.old over.now.wrapped cells.now over.now.cells)) }
    ensures nonempty { RefusedOnlyIfSome result
        (bytes_of_all (row_written 0 0 pen.old over.now.wrapped cells.now over.now.cells).ops) }
{
    let link = Link {
        wrapped: over.wrapped(),
        settled: 0,
    };
    // Only for the proof: the prover finds the clause about a value in tail
    // position.
    let is_wrapped = write_row(sink, pen, 0, link, cells, over)?;
    Ok(is_wrapped)
}

/// Writes the sequences that turn the rows of `prev`, which the terminal displays, into the rows of
/// `view`, from top to bottom. Notifies `watch` after each row.
fn write_rows<S: Sink, W: RowWatch<S>>(
    sink: &mut S,
    pen: &mut Pen,
    view: &View<'_>,
    prev: &View<'_>,
    watch: &mut W,
) -> Result<(), S::Error>
    requires size { SamePictureSize view.now prev.now }
    ensures ops { AppendsOrStops result (S.text sink.old) (S.text sink.new)
        (rows_written pen.old view.now.rows prev.now.rows).ops }
    ensures pen { OnOk result (pen.new ≡ (rows_written pen.old view.now.rows prev.now.rows).pen) }
{
    let last = view.rows() - 1;
    let mut above = view.row(0);
    let mut wrapped_above = write_top(sink, pen, &above, &prev.row(0))?;
    watch.finish_row(0, sink);
    let mut row = 0;
    while row < last {
        let below = row + 1;
        let cells = view.row(below);
        let over = prev.row(below);
        let link = write_link(sink, pen, row, &above, wrapped_above, &cells, &over)?;
        wrapped_above = write_row(sink, pen, below, link, &cells, &over)?;
        watch.finish_row(below, sink);
        above = cells;
        row = below;
    }
    Ok(())
}

/// Writes the sequences that turn the display of `prev` into that of `view`: first the rows, then
/// the cursor position and the attributes. The output has the given form. Does not hide or show the
/// cursor. Notifies `watch` after each row.
///
/// # Errors
///
/// Returns the sink's error. Part of the output may have been written by then.
#[tactic(auto, unfolding(crate::specs::Redraw::script_in))]
pub fn write_script<S: Sink, W: RowWatch<S>>(
    sink: &mut S,
    view: &View<'_>,
    prev: &View<'_>,
    form: Form,
    watch: &mut W,
) -> Result<(), S::Error>
    requires size { SamePictureSize view.now prev.now }
    ensures { AppendsOrStops result (S.text sink.old) (S.text sink.new) (script_in form view.now prev.now) }
{
    let mut pen = prev.pen_in(form);
    write_rows(sink, &mut pen, view, prev, watch)?;
    write_cursor(sink, pen, view)?;
    write_change_in(sink, form, pen.attrs, view.pen().attrs)
}
