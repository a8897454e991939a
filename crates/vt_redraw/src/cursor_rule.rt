//! Output that moves the terminal's cursor to a position or leaves a wrap pending.
//!
//! Throughout this module, the *terminal* is the terminal that reads the output, and `pen` holds
//! its cursor position and attributes. The terminal already displays the rows of the picture.

ghost use Rattle.std.specs.Prelude.{◌≡◌, ◌++◌, ◌+◌, ◌-◌, ◌<◌, ◌≤◌, None};
ghost use Rattle.std.specs.Prelude.{OnOk, IfSome, Some, length, replicate};
ghost use Rattle.vt_cells.specs.Cell.{attrs_of};
ghost use Rattle.vt_cells.specs.Op.{bytes_of_all};
ghost use Rattle.vt_cells.specs.Op as op;
ghost use Rattle.vt_rows.specs.Cells.{at, IsPaired};
ghost use Rattle.vt_grid.specs.Page.{row_or};
ghost use Rattle.vt_redraw.specs.Internals.{AppendsOrStops};
ghost use Rattle.vt_redraw.specs.Redraw.{blank_passed, cursor_written, nearest, over_blank};
ghost use Rattle.vt_redraw.specs.Redraw.{cursor_alone, pending_alone, pending_at, strays, under_last};
ghost use Rattle.vt_redraw.specs.Script.{after_last_glyph};

use crate::form::{Form, shifts};
use crate::links::{write_back, write_last};
use crate::pen::{Pen, write_change, write_change_in};
use crate::picture_row::PictureRow;
use crate::view::View;
use vt_cells::term::{BufWrite, EraseChar, LineFeed, MoveTo, RestoreCursor, SaveCursor};
use vt_cells::{Attrs, Pos, Sink, cell};

/// Returns the nearest row of the picture, at or above `row`, whose last column is not blank.
/// Returns `None` if there is no such row.
pub fn nearest(view: &View<'_>, row: u16) -> Option<u16>
    requires { row < length view.now.rows }
    ensures value { result ≡ nearest view.now.width view.now.rows row }
    ensures above { IfSome result (λ found. found ≤ row) }
{
    let mut at = row;
    while view.row(at).ends_blank() {
        if at == 0 {
            return None;
        }
        at -= 1;
    }
    Some(at)
}

/// Writes `count` line feeds.
///
/// # Errors
///
/// Returns the sink's error. Part of the output may have been written by then.
pub fn write_feeds<S: Sink>(sink: &mut S, count: u16) -> Result<(), S::Error>
    ensures { AppendsOrStops result (S.text sink.old) (S.text sink.new) (replicate count op.LineFeed) }
{
    for _ in 0..count {
        LineFeed.write_buf(sink)?;
    }
    Ok(())
}

/// Writes the sequences that leave a wrap pending in a row whose last column is a blank with
/// attributes `attrs`. The sequences print a space in the last column, which leaves a wrap pending,
/// and erase the space without canceling the wrap. The cursor must be at `pos`, on the last column. The
/// terminal has the attributes `was` both before and afterward.
///
/// # Errors
///
/// Returns the sink's error. Part of the output may have been written by then.
pub fn write_passed<S: Sink>(
    sink: &mut S,
    form: Form,
    pos: Pos,
    was: Attrs,
    attrs: Attrs,
) -> Result<(), S::Error>
    ensures { OnOk result (S.text sink.new
        ≡ S.text sink.old ++ bytes_of_all (blank_passed form pos.row pos.col was attrs)) }
{
    sink.write_str(" ")?;
    write_change_in(sink, form, was, attrs)?;
    SaveCursor.write_buf(sink)?;
    write_back(sink, form, pos)?;
    EraseChar { count: 1 }.write_buf(sink)?;
    RestoreCursor.write_buf(sink)?;
    write_change_in(sink, form, attrs, was)
}

/// Writes the sequences that leave a wrap pending at the end of row `row`: they print the last
/// glyph of row `found` again and move down to row `row` with line feeds. `found` is the row that
/// [`nearest`] returns.
#[tactic(auto, unfolding(crate::specs::Redraw::under_last))]
fn write_under_last<S: Sink>(
    sink: &mut S,
    pen: Pen,
    view: &View<'_>,
    found: u16,
    row: u16,
) -> Result<(), S::Error>
    requires above { found ≤ row }
    requires inside { row < length view.now.rows }
    ensures { AppendsOrStops result (S.text sink.old) (S.text sink.new)
        (under_last pen found row (row_or view.now.width view.now.rows found).cells) }
{
    let mut last = pen;
    write_last(sink, &mut last, found, &view.row(found))?;
    write_change_in(sink, pen.form, last.attrs, pen.attrs)?;
    write_feeds(sink, row - found)
}

/// Writes the sequences that leave a wrap pending at the end of row `row`,
/// whose last column is blank.
#[tactic(auto, unfolding(crate::specs::Redraw::over_blank))]
fn write_over_blank<S: Sink>(
    sink: &mut S,
    pen: Pen,
    view: &View<'_>,
    row: u16,
) -> Result<(), S::Error>
    requires { row < length view.now.rows }
    ensures { AppendsOrStops result (S.text sink.old) (S.text sink.new) (over_blank pen row view.now.width
        (attrs_of (at (row_or view.now.width view.now.rows row).cells (view.now.width - 1)))) }
{
    let col = view.cols() - 1;
    let attrs = cell::attrs(view.row(row).cell(col));
    let mut last = pen;
    let pos = Pos { row, col };
    last.move_to(sink, pos)?;
    write_passed(sink, pen.form, pos, pen.attrs, attrs)
}

/// Writes the sequences that leave a wrap pending at the end of row `row`.
fn write_pending<S: Sink>(sink: &mut S, pen: Pen, view: &View<'_>, row: u16) -> Result<(), S::Error>
    requires { row < length view.now.rows }
    ensures { AppendsOrStops result (S.text sink.old) (S.text sink.new)
        (pending_at (nearest view.now.width view.now.rows row) pen view.now.width view.now.rows row) }
{
    match nearest(view, row) {
        Some(found) => write_from(sink, pen, view, found, row),
        None => write_over_blank(sink, pen, view, row),
    }
}

/// Writes the sequences that leave a wrap pending at the end of row `row`. `found` is the row that
/// [`nearest`] returns.
fn write_from<S: Sink>(
    sink: &mut S,
    pen: Pen,
    view: &View<'_>,
    found: u16,
    row: u16,
) -> Result<(), S::Error>
    requires above { found ≤ row }
    requires inside { row < length view.now.rows }
    ensures { AppendsOrStops result (S.text sink.old) (S.text sink.new)
        (pending_at (Some found) pen view.now.width view.now.rows row) }
{
    let cells = view.row(found);
    if strays_after_last(&pen, found, &cells) && found < row {
        return write_over_blank(sink, pen, view, row);
    }
    write_under_last(sink, pen, view, found, row)
}

/// Returns whether line feeds must not follow [`write_last`]. In the portable form, they must not if
/// terminals may differ in where the cursor is then.
fn strays_after_last(pen: &Pen, row: u16, cells: &PictureRow<'_>) -> bool
    requires nonempty { 0 < length cells.now.cells }
    requires paired { IsPaired cells.now.cells }
    ensures { result ≡ strays pen.now.form (after_last_glyph row pen.now cells.now.cells).pen.is_shifted }
{
    match pen.form {
        Form::Fixed => false,
        Form::Portable => is_shifted_after_last(pen, row, cells),
    }
}

/// Returns whether terminals may differ in the cursor's position after [`write_last`].
fn is_shifted_after_last(pen: &Pen, row: u16, cells: &PictureRow<'_>) -> bool
    requires nonempty { 0 < length cells.now.cells }
    requires paired { IsPaired cells.now.cells }
    ensures { result ≡ (after_last_glyph row pen.now cells.now.cells).pen.is_shifted }
{
    if pen.is_at(row, cells.cols()) {
        return pen.is_shifted;
    }
    shifts(pen.form, cells.cell(cells.last_col()))
}

/// Writes the sequences that move the cursor to its position in the picture.
/// Afterward, the terminal's attributes are again those of `pen`.
///
/// # Errors
///
/// Returns the sink's error. Part of the output may have been written by then.
#[tactic(auto, unfolding(crate::specs::Redraw::cursor_written))]
pub fn write_cursor<S: Sink>(sink: &mut S, pen: Pen, view: &View<'_>) -> Result<(), S::Error>
    ensures { AppendsOrStops result (S.text sink.old) (S.text sink.new)
        (cursor_written pen view.now.width view.now.rows view.now.row view.now.column) }
{
    let Pen { row, col, .. } = view.pen();
    if col < view.cols() {
        let mut moved = pen;
        return moved.move_to(sink, Pos { row, col });
    }
    if pen.is_at(row, col) {
        return Ok(());
    }
    write_pending(sink, pen, view, row)
}

/// Writes the sequences that leave a wrap pending at the end of row `row`: they print the last
/// glyph of row `found` again and move down to row `row` with line feeds. `found` is the row that
/// [`nearest`] returns. The terminal must have default attributes; its cursor may be anywhere.
fn write_under_last_alone<S: Sink>(
    sink: &mut S,
    view: &View<'_>,
    found: u16,
    row: u16,
) -> Result<(), S::Error>
    requires above { found ≤ row }
    requires inside { row < length view.now.rows }
    ensures { OnOk result (S.text sink.new
        ≡ S.text sink.old ++ bytes_of_all (pending_alone (Some found) view.now.width view.now.rows row)) }
{
    let cells = view.row(found);
    let col = cells.last_col();
    let cell = cells.cell(col);
    let pos = Pos { row: found, col };
    MoveTo { pos }.write_buf(sink)?;
    write_change(sink, Attrs::new(), cell::attrs(cell))?;
    sink.write_str(cell.contents())?;
    write_change(sink, cell::attrs(cell), Attrs::new())?;
    write_feeds(sink, row - found)
}

/// Writes the sequences that leave a wrap pending at the end of row `row`,
/// whose last column is blank. The terminal must have default attributes; its
/// cursor may be anywhere.
fn write_over_blank_alone<S: Sink>(sink: &mut S, view: &View<'_>, row: u16) -> Result<(), S::Error>
    requires { row < length view.now.rows }
    ensures { OnOk result
        (S.text sink.new ≡ S.text sink.old ++ bytes_of_all (pending_alone None view.now.width view.now.rows row)) }
{
    let col = view.cols() - 1;
    let attrs = cell::attrs(view.row(row).cell(col));
    let pos = Pos { row, col };
    MoveTo { pos }.write_buf(sink)?;
    write_passed(sink, Form::Fixed, pos, Attrs::new(), attrs)
}

/// Writes the sequences that leave a wrap pending at the end of row `row`. The
/// terminal must have default attributes; its cursor may be anywhere.
fn write_pending_alone<S: Sink>(sink: &mut S, view: &View<'_>, row: u16) -> Result<(), S::Error>
    requires { row < length view.now.rows }
    ensures { OnOk result (S.text sink.new
        ≡ S.text sink.old
        ++ bytes_of_all (pending_alone (nearest view.now.width view.now.rows row) view.now.width view.now.rows row)) }
{
    match nearest(view, row) {
        Some(found) => write_under_last_alone(sink, view, found, row),
        None => write_over_blank_alone(sink, view, row),
    }
}

/// Writes the sequences that move the cursor to its position in the picture.
/// The terminal must have default attributes; its cursor may be anywhere.
///
/// # Errors
///
/// Returns the sink's error. Part of the output may have been written by then.
pub fn write_cursor_alone<S: Sink>(sink: &mut S, view: &View<'_>) -> Result<(), S::Error>
    ensures { OnOk result (S.text sink.new ≡ S.text sink.old ++ bytes_of_all (cursor_alone view.now)) }
{
    let Pen { row, col, .. } = view.pen();
    if col < view.cols() {
        let pos = Pos { row, col };
        return MoveTo { pos }.write_buf(sink);
    }
    write_pending_alone(sink, view, row)
}
