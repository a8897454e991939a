//! Output for a range of columns in one row of a picture, for a terminal with default attributes
//! whose cursor is at the start of the range.
//!
//! Throughout this module, the *terminal* is the terminal that reads the output, `pen` holds its
//! cursor position and attributes, `cells` is the row of the picture, and `over` is the row that
//! the terminal displays. `wrapped` is true if the terminal's row is wrapped.

ghost use Rattle.std.specs.Prelude.{◌≡◌, ◌++◌, ◌+◌, ◌<◌, ◌≤◌, ◌&&◌, false};
ghost use Rattle.std.specs.Prelude.{IfOk, OnOk, length};
ghost use Rattle.vt_cells.specs.Attrs.{default_attrs};
ghost use Rattle.vt_cells.specs.Op.{bytes_of_all};
ghost use Rattle.vt_rows.specs.Cells.{IsPaired, blanks};
ghost use Rattle.vt_redraw.specs.Items.{changed_row_text, formatted_row_text, is_linked, is_whole, linked_item};
ghost use Rattle.vt_redraw.specs.Items.{range_written};
ghost use Rattle.vt_redraw.specs.Internals.{AppendsOrStops, IsRange, LeadsOn, Writes, cells_from, end_ops, mark_of};
ghost use Rattle.vt_redraw.specs.Internals.{range_over};
ghost use Rattle.vt_redraw.specs.Picture.{SamePictureSize};
ghost use Rattle.vt_redraw.specs.Refusals.{RefusedOnlyIfSome};

use crate::cells::{wrapped_after_erasure, write_cells, write_run};
use crate::form::Form;
use crate::links::{write_break, write_first, write_last};
use crate::pen::Pen;
use crate::picture_row::PictureRow;
use crate::view::View;
use vt_cells::{Attrs, Pos, Sink};

/// Erases the first column of a range, and any default blanks after it, if that column of `cells`
/// holds a continuation cell, whose wide character begins before the range. Writes nothing if that
/// column of `over` also holds a continuation cell. Returns the first column that has not been
/// handled. `pos` is the row and the first column of the range.
fn write_begin<S: Sink>(
    sink: &mut S,
    pen: &mut Pen,
    wrapped: &mut bool,
    pos: Pos,
    cells: &PictureRow<'_>,
    over: &PictureRow<'_>,
) -> Result<u16, S::Error>
    requires range { IsRange cells.now.cells over.now.cells }
    ensures leads { IfOk result (λ col. LeadsOn (S.text sink.new) (cells_from pos.row col pen.new wrapped.new
        cells.now.cells over.now.cells) (S.text sink.old) (range_over pos pen.old wrapped.old cells.now over.now)) }
    ensures nonempty { RefusedOnlyIfSome result (bytes_of_all (range_over pos pen.old wrapped.old cells.now over.now).ops) }
{
    let Pos { row: _, col } = pos;
    if col >= cells.cols().min(over.cols()) {
        return Ok(col);
    }
    if !cells.cell(col).is_wide_continuation() {
        return Ok(col);
    }
    if over.cell(col).is_wide_continuation() {
        return Ok(col + 1);
    }
    let attrs = Attrs::new();
    let count = cells.run(col + 1, attrs) + 1;
    write_run(sink, pen, pos, attrs, count, over)?;
    *wrapped = wrapped_after_erasure(*wrapped, over, col + count);
    Ok(col + count)
}

/// Writes the sequences that draw the picture's row `cells`, from position `pos` to its end, over
/// the terminal's row `over`. The caller has cut `cells` at the end of the range to draw. `wrapped`
/// is true if the terminal's row is wrapped, and is updated.
fn write_range<S: Sink>(
    sink: &mut S,
    pen: &mut Pen,
    wrapped: &mut bool,
    pos: Pos,
    cells: &PictureRow<'_>,
    over: &PictureRow<'_>,
) -> Result<(), S::Error>
    requires range { IsRange cells.now.cells over.now.cells }
    ensures writes { OnOk result (Writes (S.text sink.old) (S.text sink.new) pen.new wrapped.new
        (range_over pos pen.old wrapped.old cells.now over.now)) }
    ensures nonempty { RefusedOnlyIfSome result (bytes_of_all (range_over pos pen.old wrapped.old cells.now over.now).ops) }
{
    let row = pos.row;
    let col = write_begin(sink, pen, wrapped, pos, cells, over)?;
    write_cells(sink, pen, wrapped, Pos { row, col }, cells, over)
}

/// Prints the last glyph of a row again if the picture's row is wrapped and the terminal's row is
/// not. In that case, a wrap is pending on the terminal afterward.
fn write_mark<S: Sink>(
    sink: &mut S,
    pen: &mut Pen,
    row: u16,
    wrapped: bool,
    cells: &PictureRow<'_>,
) -> Result<(), S::Error>
    requires nonempty { 0 < length cells.now.cells }
    requires paired { IsPaired cells.now.cells }
    ensures { AppendsOrStops result (S.text sink.old) (S.text sink.new)
        (mark_of row pen.old wrapped cells.now.wrapped cells.now.cells) }
{
    if wrapped {
        return Ok(());
    }
    if !cells.wrapped() {
        return Ok(());
    }
    write_last(sink, pen, row, cells)
}

/// Corrects the wrapped flag of the terminal's row after all cells of the row have been written. If
/// only the terminal's row is wrapped, writes a break, after which it is no longer wrapped (see
/// [`write_break`]). If only the picture's row is wrapped, prints the last glyph again, which
/// leaves a wrap pending.
fn write_end<S: Sink>(
    sink: &mut S,
    pen: &mut Pen,
    row: u16,
    wrapped: bool,
    cells: &PictureRow<'_>,
) -> Result<(), S::Error>
    requires nonempty { 0 < length cells.now.cells }
    requires paired { IsPaired cells.now.cells }
    ensures { AppendsOrStops result (S.text sink.old) (S.text sink.new) (end_ops row pen.old wrapped cells.now) }
{
    let is_wrapped = write_break(sink, pen, row, wrapped, cells)?;
    write_mark(sink, pen, row, is_wrapped, cells)
}

/// Writes the sequences that draw columns `start..stop` of a row of `view` on a terminal that
/// displays the same row of `prev`. If these columns are the whole row and the row of `view` is not
/// wrapped, neither is the terminal's row afterward. If they are the whole row and only the row of
/// `view` is wrapped, a wrap is pending on the terminal afterward.
///
/// The terminal's cursor must be in column `start` of the row, and the terminal must have default
/// attributes.
///
/// # Errors
///
/// Returns the sink's error. Part of the output may have been written by then.
pub fn write_row_diff<S: Sink>(
    sink: &mut S,
    view: &View<'_>,
    prev: &View<'_>,
    row: u16,
    start: u16,
    stop: u16,
) -> Result<(), S::Error>
    requires size { SamePictureSize view.now prev.now }
    requires inside { row < length view.now.rows }
    requires order { start ≤ stop }
    requires stop { stop ≤ view.now.width }
    ensures text { OnOk result
        (S.text sink.new ≡ S.text sink.old ++ changed_row_text row start stop view.now prev.now) }
    ensures nonempty { RefusedOnlyIfSome result (changed_row_text row start stop view.now prev.now) }
{
    let cells = view.row(row);
    let over = prev.row(row);
    let mut pen = Pen {
        row,
        col: start,
        attrs: Attrs::new(),
        form: Form::Fixed,
        is_shifted: false,
    };
    let mut wrapped = over.wrapped();
    let pos = Pos { row, col: start };
    write_range(sink, &mut pen, &mut wrapped, pos, &cells.up_to(stop), &over)?;
    if !is_whole(start, stop, &cells) {
        return Ok(());
    }
    write_end(sink, &mut pen, row, wrapped, &cells)
}

/// Returns whether the columns `start..stop` are the whole row.
fn is_whole(start: u16, stop: u16, cells: &PictureRow<'_>) -> bool
    ensures { result ≡ is_whole start stop (length cells.now.cells) }
{
    start == 0 && stop == cells.cols()
}

/// Writes a whole row that follows a wrapped row, over a blank row of the terminal. The first cell
/// is printed even if it is blank, so that a wrap that is pending in the row above takes effect.
fn write_linked<S: Sink>(sink: &mut S, row: u16, cells: &PictureRow<'_>) -> Result<(), S::Error>
    requires nonempty { 0 < length cells.now.cells }
    requires paired { IsPaired cells.now.cells }
    ensures { AppendsOrStops result (S.text sink.old) (S.text sink.new) (linked_item row cells.now.cells).ops }
{
    let over = PictureRow::blank(cells.cols());
    let mut pen = Pen {
        row,
        col: 0,
        attrs: Attrs::new(),
        form: Form::Fixed,
        is_shifted: false,
    };
    let link = write_first(sink, &mut pen, row, false, cells, &over)?;
    let mut wrapped = link.wrapped;
    let pos = Pos {
        row,
        col: link.settled,
    };
    write_cells(sink, &mut pen, &mut wrapped, pos, cells, &over)
}

/// Writes a range of columns of the picture's row `cells` over a blank row of the terminal. The
/// range extends from the position `pos` to column `stop`.
fn write_over_blanks<S: Sink>(
    sink: &mut S,
    pos: Pos,
    stop: u16,
    cells: &PictureRow<'_>,
) -> Result<(), S::Error>
    requires order { pos.col ≤ stop }
    requires stop { stop ≤ length cells.now.cells }
    requires paired { IsPaired cells.now.cells }
    ensures { AppendsOrStops result (S.text sink.old) (S.text sink.new) (range_written pos.row pos.col stop false
        cells.now.cells (blanks default_attrs (length cells.now.cells))).ops }
{
    let over = PictureRow::blank(cells.cols());
    let mut pen = Pen {
        row: pos.row,
        col: pos.col,
        attrs: Attrs::new(),
        form: Form::Fixed,
        is_shifted: false,
    };
    let mut wrapped = false;
    write_range(sink, &mut pen, &mut wrapped, pos, &cells.up_to(stop), &over)
}

/// Returns whether the picture's row directly above row `row` is wrapped.
#[tactic(auto, using(crate::proofs::WriterSteps::linked_below))]
fn is_linked(view: &View<'_>, row: u16) -> bool
    requires { row < length view.now.rows }
    ensures { result ≡ is_linked view.now.width view.now.rows row }
{
    row > 0 && view.row(row - 1).wrapped()
}

/// Returns whether the columns `start..stop` span the whole of row `row` and the row above it is
/// wrapped.
fn needs_link(view: &View<'_>, row: u16, start: u16, stop: u16, cells: &PictureRow<'_>) -> bool
    requires { row < length view.now.rows }
    ensures { result ≡ (is_whole start stop (length cells.now.cells) && is_linked view.now.width view.now.rows row) }
{
    is_whole(start, stop, cells) && is_linked(view, row)
}

/// Writes the sequences that draw columns `start..stop` of a row of `view` on a blank row of the
/// terminal.
///
/// The terminal's cursor must be in column `start` of the row, and the terminal must have default
/// attributes. If these columns are the whole row and the row above it in `view` is wrapped, the
/// terminal's cursor may instead be at the end of the row above with a wrap pending; the terminal's
/// row above then becomes wrapped.
///
/// # Errors
///
/// Returns the sink's error. Part of the output may have been written by then.
pub fn write_row_formatted<S: Sink>(
    sink: &mut S,
    view: &View<'_>,
    row: u16,
    start: u16,
    stop: u16,
) -> Result<(), S::Error>
    requires inside { row < length view.now.rows }
    requires order { start ≤ stop }
    requires stop { stop ≤ view.now.width }
    ensures text { OnOk result (S.text sink.new ≡ S.text sink.old ++ formatted_row_text row start stop view.now) }
    ensures nonempty { RefusedOnlyIfSome result (formatted_row_text row start stop view.now) }
{
    let cells = view.row(row);
    if needs_link(view, row, start, stop, &cells) {
        return write_linked(sink, row, &cells);
    }
    write_over_blanks(sink, Pos { row, col: start }, stop, &cells)
}
