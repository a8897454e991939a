//! Links between rows, and breaks between them. The *terminal* is the terminal that reads the
//! output, and `pen` holds its cursor position and attributes.
//!
//! A *link* makes the terminal wrap from one row into the next, so that the upper row becomes
//! wrapped. A *break* prints the end of a wrapped row again, so that the row is no longer wrapped.

ghost use Rattle.std.specs.Prelude.{◌≡◌, ◌++◌, ◌<◌, ◌&&◌, ◌||◌, [], ◌∷◌, not, nat_le, true, IfOk, OnOk, length};
ghost use Rattle.vt_cells.specs.Cell.{is_blank, is_glyph};
ghost use Rattle.vt_cells.specs.Op.{Print, bytes_of, bytes_of_all};
ghost use Rattle.vt_rows.specs.Cells.{IsPaired};
ghost use Rattle.vt_redraw.specs.Internals.{AppendsOrStops, IsRowOver, IsRowUnder, LinksOrStops, Writes, break_of};
ghost use Rattle.vt_redraw.specs.Redraw.{link_of};
ghost use Rattle.vt_redraw.specs.Refusals.{RefusedOnlyIfSome};
ghost use Rattle.vt_redraw.specs.Script.{after_last_glyph, back_op, first_written, is_at, starts_other, wrap_ops};

use crate::cells::{columns, print_at, wrapped_after_glyph, write_text};
use crate::form::{Form, erased_columns, shifts};
use crate::pen::Pen;
use crate::picture_row::PictureRow;
use vt_cells::term::{Backspace, BufWrite, EraseChar, MoveTo};
use vt_cells::{Cell, Pos, Sink, cell};

/// The state of a row after a *link*, that is, output that makes the terminal wrap into the row
/// from the row above: whether the row is itself wrapped, and how many of its leading cells the
/// link has already written.
#[derive(Clone, Copy, Debug)]
pub struct Link {
    /// Whether the lower of the two linked rows is itself wrapped on the terminal.
    pub wrapped: bool,

    /// The number of leading cells of the lower of the two linked rows that the link has already
    /// written.
    pub settled: u16,
}

/// Prints the last glyph of a row again, unless the cursor is already just after that glyph.
/// Afterward, a wrap is pending on the terminal.
///
/// # Errors
///
/// Returns the sink's error. Part of the output may have been written by then.
pub fn write_last<S: Sink>(
    sink: &mut S,
    pen: &mut Pen,
    row: u16,
    cells: &PictureRow<'_>,
) -> Result<(), S::Error>
    requires nonempty { 0 < length cells.now.cells }
    requires paired { IsPaired cells.now.cells }
    ensures ops { AppendsOrStops result (S.text sink.old) (S.text sink.new)
        (after_last_glyph row pen.old cells.now.cells).ops }
    ensures pen { OnOk result (pen.new ≡ (after_last_glyph row pen.old cells.now.cells).pen) }
{
    if pen.is_at(row, cells.cols()) {
        return Ok(());
    }
    let col = cells.last_col();
    let cell = cells.cell(col);
    print_at(sink, pen, Pos { row, col }, cell)?;
    pen.col = cells.cols();
    pen.is_shifted = shifts(pen.form, cell);
    Ok(())
}

/// Writes the sequence that moves the cursor one column to the left, to position `pos`. If a wrap is
/// pending, terminals disagree on where the cursor is, so the portable form moves to the position
/// itself.
pub fn write_back<S: Sink>(sink: &mut S, form: Form, pos: Pos) -> Result<(), S::Error>
    ensures text { OnOk result (S.text sink.new ≡ S.text sink.old ++ bytes_of (back_op form pos.row pos.col)) }
    ensures nonempty { RefusedOnlyIfSome result (bytes_of (back_op form pos.row pos.col)) }
{
    match form {
        Form::Fixed => Backspace.write_buf(sink),
        Form::Portable => MoveTo { pos }.write_buf(sink),
    }
}

/// Writes the blank `cell` in the first column of a row while a wrap is pending in the row above.
/// Prints a space, which makes the terminal wrap into the row, and then erases the space. Returns
/// the state of the row afterward.
fn write_first_blank<S: Sink>(
    sink: &mut S,
    pen: &mut Pen,
    row: u16,
    wrapped: bool,
    cell: &Cell,
    over: &PictureRow<'_>,
) -> Result<Link, S::Error>
    requires over { 0 < length over.now.cells }
    requires blank { is_blank cell.now ≡ true }
    ensures { LinksOrStops result (S.text sink.old) (S.text sink.new) pen.new
        (first_written row pen.old wrapped (cell.now ∷ []) over.now.cells) }
{
    pen.change_attrs(sink, cell::attrs(cell))?;
    sink.write_str(" ")?;
    write_back(sink, pen.form, Pos { row, col: 0 })?;
    EraseChar { count: 1 }.write_buf(sink)?;
    pen.row = row;
    pen.col = 0;
    pen.is_shifted = false;
    Ok(Link {
        wrapped: is_wrapped(wrapped, over),
        settled: 1,
    })
}

/// Returns whether the terminal's row is still wrapped after its first cell has been erased.
/// Erasing the only cell of a row clears the row's wrapped flag.
fn is_wrapped(wrapped: bool, over: &PictureRow<'_>) -> bool
    ensures { result ≡ (wrapped && not (nat_le (length over.now.cells) 1)) }
{
    wrapped && !(over.cols() <= 1)
}

/// Prints the text of a glyph in the first column of row `row`, while a wrap is pending in the row
/// above. If terminals may differ in where the cursor is, first prints a space, which makes the
/// terminal wrap, and then moves the cursor to the glyph's position. A terminal that does not wrap
/// displays the space beside the glyph of uncertain width.
fn write_wrapping<S: Sink>(sink: &mut S, pen: &Pen, row: u16, text: &str) -> Result<(), S::Error>
    ensures { AppendsOrStops result (S.text sink.old) (S.text sink.new) (wrap_ops row pen.now ++ Print text.now ∷ []) }
{
    if pen.is_shifted {
        let pos = Pos { row, col: 0 };
        write_text(sink, " ")?;
        MoveTo { pos }.write_buf(sink)?;
    }
    write_text(sink, text)
}

/// Prints the glyph `cell` at the beginning of a row while a wrap is pending in the row above,
/// which makes the terminal wrap into the row. Returns the state of the row afterward.
fn write_first_glyph<S: Sink>(
    sink: &mut S,
    pen: &mut Pen,
    row: u16,
    wrapped: bool,
    cell: &Cell,
    over: &PictureRow<'_>,
) -> Result<Link, S::Error>
    requires over { 0 < length over.now.cells }
    requires glyph { is_glyph cell.now ≡ true }
    ensures { LinksOrStops result (S.text sink.old) (S.text sink.new) pen.new
        (first_written row pen.old wrapped (cell.now ∷ []) over.now.cells) }
{
    pen.change_attrs(sink, cell::attrs(cell))?;
    write_wrapping(sink, pen, row, cell.contents())?;
    let settled = columns(cell);
    pen.row = row;
    pen.col = settled;
    pen.is_shifted = shifts(pen.form, cell);
    Ok(Link {
        wrapped: wrapped_after_glyph(wrapped, cell.is_wide(), over, settled),
        settled,
    })
}

/// Writes the first cell of a row while a wrap is pending in the row above, which makes the
/// terminal wrap into the row. Returns the state of the row afterward. `cells` is the row of the
/// picture, and `over` is the row that the terminal displays; `wrapped` is true if the latter is
/// wrapped.
///
/// # Errors
///
/// Returns the sink's error. Part of the output may have been written by then.
pub fn write_first<S: Sink>(
    sink: &mut S,
    pen: &mut Pen,
    row: u16,
    wrapped: bool,
    cells: &PictureRow<'_>,
    over: &PictureRow<'_>,
) -> Result<Link, S::Error>
    requires { IsRowOver cells.now.cells over.now.cells }
    ensures { LinksOrStops result (S.text sink.old) (S.text sink.new) pen.new
        (first_written row pen.old wrapped cells.now.cells over.now.cells) }
{
    let cell = cells.cell(0);
    if cell::is_blank(cell) {
        // Only for the proof: the prover finds the clause about a value in tail position.
        let link = write_first_blank(sink, pen, row, wrapped, cell, over)?;
        return Ok(link);
    }
    // Only for the proof: the prover finds the clause about a value in tail position.
    let link = write_first_glyph(sink, pen, row, wrapped, cell, over)?;
    Ok(link)
}

/// Returns whether the row `cells` begins with a glyph and the row `over` does not begin with the
/// same glyph.
fn starts_other(cells: &PictureRow<'_>, over: &PictureRow<'_>) -> bool
    requires nonempty { 0 < length cells.now.cells }
    requires over { 0 < length over.now.cells }
    ensures { result ≡ starts_other cells.now.cells over.now.cells }
{
    let cell = cells.cell(0);
    cell.has_contents() && !(cell == over.cell(0))
}

/// Returns whether a link, that is, output that makes the terminal wrap, is needed between the
/// picture's row `above`, which is wrapped, and the row `cells` below it. A link is needed if the
/// terminal's upper row is not wrapped (`wrapped_above` is false). It is also needed if a wrap is
/// pending at the end of that row and `cells` begins with a glyph that the terminal's lower row,
/// `over`, does not begin with.
fn needs_link(
    pen: &Pen,
    row: u16,
    above: &PictureRow<'_>,
    wrapped_above: bool,
    cells: &PictureRow<'_>,
    over: &PictureRow<'_>,
) -> bool
    requires nonempty { 0 < length cells.now.cells }
    requires over { 0 < length over.now.cells }
    ensures { result
        ≡ (not wrapped_above || (is_at pen.now row (length above.now.cells) && starts_other cells.now.cells over.now.cells)) }
{
    !wrapped_above || (pen.is_at(row, above.cols()) && starts_other(cells, over))
}

/// Writes the link between row `row` and the next row, if the picture's row `row` is wrapped and a
/// link is needed. The link makes the terminal wrap into the next row. Returns the state of the
/// next row afterward. `above` and `cells` are the picture's upper and lower row, and `over` is the
/// terminal's lower row. `wrapped_above` is true if the terminal's upper row is already wrapped.
///
/// # Errors
///
/// Returns the sink's error. Part of the output may have been written by then.
#[tactic(auto, unfolding(crate::specs::Script::row_link))]
pub fn write_link<S: Sink>(
    sink: &mut S,
    pen: &mut Pen,
    row: u16,
    above: &PictureRow<'_>,
    wrapped_above: bool,
    cells: &PictureRow<'_>,
    over: &PictureRow<'_>,
) -> Result<Link, S::Error>
    requires { IsRowUnder row above.now.cells cells.now.cells over.now.cells }
    ensures { LinksOrStops result (S.text sink.old) (S.text sink.new) pen.new
        (link_of row pen.old above.now wrapped_above cells.now over.now) }
{
    let wrapped = over.wrapped();
    if !above.wrapped() {
        return Ok(Link {
            wrapped,
            settled: 0,
        });
    }
    if !needs_link(pen, row, above, wrapped_above, cells, over) {
        return Ok(Link {
            wrapped,
            settled: 0,
        });
    }
    write_last(sink, pen, row, above)?;
    // Only for the proof: the prover finds the clause about a value in tail position.
    let link = write_first(sink, pen, row + 1, wrapped, cells, over)?;
    Ok(link)
}

/// Writes the row break, that is, the output that erases the last glyph of a row and prints it
/// again, so that the terminal's row is no longer wrapped. Writes nothing unless the terminal's row
/// is wrapped (`wrapped` is true) and the picture's row `cells` is not. Returns whether the
/// terminal's row is wrapped afterward.
///
/// # Errors
///
/// Returns the sink's error. Part of the output may have been written by then.
#[tactic(auto, unfolding(crate::specs::Script::row_break))]
pub fn write_break<S: Sink>(
    sink: &mut S,
    pen: &mut Pen,
    row: u16,
    wrapped: bool,
    cells: &PictureRow<'_>,
) -> Result<bool, S::Error>
    requires nonempty { 0 < length cells.now.cells }
    requires paired { IsPaired cells.now.cells }
    ensures writes { IfOk result (λ is_wrapped. Writes (S.text sink.old) (S.text sink.new)
        pen.new is_wrapped (break_of row pen.old wrapped cells.now)) }
    ensures nonempty { RefusedOnlyIfSome result (bytes_of_all (break_of row pen.old wrapped cells.now).ops) }
{
    if !wrapped {
        return Ok(wrapped);
    }
    if cells.wrapped() {
        return Ok(wrapped);
    }
    let col = cells.last_col();
    let cell = cells.cell(col);
    pen.move_to(sink, Pos { row, col })?;
    let count = erased_columns(pen.form, cells, col);
    EraseChar { count }.write_buf(sink)?;
    pen.change_attrs(sink, cell::attrs(cell))?;
    write_text(sink, cell.contents())?;
    pen.col = cells.cols();
    pen.is_shifted = shifts(pen.form, cell);
    Ok(false)
}
