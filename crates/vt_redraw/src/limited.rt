//! A redraw that is abandoned once it has reached a limit, or not begun if a lower bound on its
//! length reaches it.

ghost use Rattle.std.specs.Prelude.{◌≡◌, ◌<◌, ◌≤◌, ◌+◌, ◌-◌, ◌∷◌, List, None, IfOk, IsTrue, length, string_bytes};
ghost use Rattle.vt_cells.specs.Cell.{CellValue, IsCell};
ghost use Rattle.vt_cells.specs.Internals.{head_of_cell};
ghost use Rattle.vt_cells.specs.Op.{bytes_of_all};
ghost use Rattle.vt_cells.specs.Refusals.{OnlyOutOfMemory};
ghost use Rattle.vt_rows.specs.Cells.{at};
ghost use Rattle.vt_redraw.specs.Limited.{AppendsWithin, IsEach, change_least, drawn_least};
ghost use Rattle.vt_redraw.specs.Limited.{is_undrawn};
ghost use Rattle.vt_redraw.specs.Picture.{SamePictureSize};
ghost use Rattle.vt_redraw.specs.Redraw.{redraw_in, rows_written, script_in};

use crate::cursor_rule::write_cursor;
use crate::form::Form;
use crate::links::write_link;
use crate::pen::{Pen, write_change_in};
use crate::script::{write_row, write_top};
use crate::view::View;
use vt_cells::term::{BufWrite, ClearAttrs, ClearScreen, HideCursor};
use vt_cells::{Attrs, Cell, Error, cell};

/// Returns a lower bound on the number of bytes that it takes to change a terminal's attributes from
/// `was`, if known, to `new`. An SGR sequence has at least three bytes.
#[inline]
fn change_least(was: Option<Attrs>, new: Attrs) -> usize
    ensures { result ≡ change_least was new }
{
    match was {
        Some(was) => { if was == new { 0 } else { 3 } }
        None => 0,
    }
}

/// Returns whether nothing is written to draw the cell over a default blank: it is a default blank
/// itself, or a continuation cell, which is drawn with the wide glyph before it.
#[inline]
fn is_undrawn(cell: &Cell) -> bool
    ensures { result ≡ is_undrawn cell.now }
{
    !cell.has_contents() && cell::attrs(cell) == Attrs::new()
}

/// What it takes, at least, to draw a cell over a default blank.
#[derive(Clone, Copy)]
struct Drawing {
    /// The number of bytes of the change of attributes before the cell.
    change: usize,

    /// The number of bytes that the cell adds without a change of attributes.
    each: usize,

    /// The attributes of the terminal afterward, if known.
    was: Option<Attrs>,
}

/// Returns what it takes, at least, to draw `cell` over a default blank on a terminal with the
/// attributes `was`, if known.
fn draw_over_blank(was: Option<Attrs>, cell: &Cell) -> Drawing
    ensures sum { (xs : List CellValue) →
        drawn_least was (cell.now ∷ xs) ≡ result.change + (result.each + drawn_least result.was xs) }
    ensures each { IsEach result.was result.each cell.now }
    ensures small { result.change + result.each ≤ 32 }
{
    let each = cell.contents().len();
    if is_undrawn(cell) {
        return Drawing {
            change: 0,
            each: 0,
            was,
        };
    }
    let attrs = cell::attrs(cell);
    Drawing {
        change: change_least(was, attrs),
        each,
        was: Some(attrs),
    }
}

/// Returns whether cell `col` differs from the cell before it in at most the bytes of its text.
#[inline]
fn is_like_previous(cells: &[Cell], col: usize) -> bool
    requires { col < length cells.now }
    ensures some { IsTrue result → 0 < col }
    ensures sound { IsTrue result → IsCell (at cells.now col) }
    ensures head { IsTrue result → head_of_cell (at cells.now col) ≡ head_of_cell (at cells.now (col - 1)) }
{
    col > 0 && cell::has_head_of(&cells[col], &cells[col - 1])
}

/// Returns a lower bound on the number of bytes that it takes to draw `cells` over default blanks:
/// the bytes of the glyphs, plus three for each change of attributes from one drawn cell to the next.
fn drawn_least(cells: &[Cell]) -> usize
    ensures { result ≡ drawn_least None cells.now }
{
    let mut was = None;
    let mut each = 0;
    let mut len = 0;
    for col in 0..cells.len() {
        if !is_like_previous(cells, col) {
            let drawn = draw_over_blank(was, &cells[col]);
            len += drawn.change;
            each = drawn.each;
            was = drawn.was;
        }
        len += each;
    }
    len
}

/// Returns whether the glyphs of the picture and the changes of attributes within its rows take at
/// least `len` bytes. If they do, so does the full redraw of the picture in either form. Returns
/// `false` without adding up lengths if `len` is more than four bytes per cell, which few pictures
/// take.
fn has_drawn_least(view: &View<'_>, len: usize) -> bool
    ensures { (form : Form) → IsTrue result → len ≤ length (bytes_of_all (redraw_in form view.now)) }
{
    let cells = usize::from(view.rows()).saturating_mul(usize::from(view.cols()));
    if len / 4 > cells {
        return false;
    }
    let mut least = 0_usize;
    for row in 0..view.rows() {
        least = least.saturating_add(drawn_least(view.row(row).own_cells()));
        if least >= len {
            return true;
        }
    }
    false
}

/// Writes the rows of `view` as [`crate::script::write_script`] does, but stops before a row if the
/// string has then reached `limit` bytes. Returns whether all rows were written.
fn write_rows_within(
    text: &mut String,
    pen: &mut Pen,
    view: &View<'_>,
    prev: &View<'_>,
    limit: usize,
) -> Result<bool, Error>
    requires size { SamePictureSize view.now prev.now }
    ensures ops { IfOk result (λ is_whole. AppendsWithin is_whole limit (string_bytes text.old) (string_bytes text.new)
        (bytes_of_all (rows_written pen.old view.now.rows prev.now.rows).ops)) }
    ensures pen { IfOk result (λ is_whole. IsTrue is_whole →
        pen.new ≡ (rows_written pen.old view.now.rows prev.now.rows).pen) }
{
    let last = view.rows() - 1;
    let mut above = view.row(0);
    let mut wrapped_above = write_top(text, pen, &above, &prev.row(0))?;
    let mut row = 0;
    while row < last {
        if text.len() >= limit {
            return Ok(false);
        }
        let below = row + 1;
        let cells = view.row(below);
        let over = prev.row(below);
        let link = write_link(text, pen, row, &above, wrapped_above, &cells, &over)?;
        wrapped_above = write_row(text, pen, below, link, &cells, &over)?;
        above = cells;
        row = below;
    }
    Ok(true)
}

/// Writes the output of [`crate::script::write_script`] to a string, but stops if the string has
/// reached `limit` bytes before all rows are written. Returns whether all of the output was
/// written.
#[tactic(auto, unfolding(crate::specs::Redraw::script_in))]
fn write_script_within(
    text: &mut String,
    view: &View<'_>,
    prev: &View<'_>,
    form: Form,
    limit: usize,
) -> Result<bool, Error>
    requires size { SamePictureSize view.now prev.now }
    ensures { IfOk result (λ is_whole. AppendsWithin is_whole limit (string_bytes text.old) (string_bytes text.new)
        (bytes_of_all (script_in form view.now prev.now))) }
{
    let mut pen = prev.pen_in(form);
    let is_whole = write_rows_within(text, &mut pen, view, prev, limit)?;
    if !is_whole {
        return Ok(false);
    }
    write_cursor(text, pen, view)?;
    write_change_in(text, form, pen.attrs, view.pen().attrs)?;
    Ok(true)
}

/// Writes the output of [`crate::write_contents_formatted_in`] to a string, but stops if the string
/// has reached `limit` bytes before all rows are written. Returns whether all of the output was
/// written.
#[tactic(auto, unfolding(crate::specs::Redraw::redraw_in))]
fn write_redraw_within(
    text: &mut String,
    view: &View<'_>,
    form: Form,
    limit: usize,
) -> Result<bool, Error>
    ensures { IfOk result (λ is_whole. AppendsWithin is_whole limit (string_bytes text.old) (string_bytes text.new)
        (bytes_of_all (redraw_in form view.now))) }
{
    HideCursor {
        state: view.hidden(),
    }
    .write_buf(text)?;
    ClearAttrs.write_buf(text)?;
    ClearScreen.write_buf(text)?;
    if text.len() >= limit {
        return Ok(false);
    }
    let blank = view.blanked();
    let is_whole = write_script_within(text, view, &blank, form, limit)?;
    Ok(is_whole)
}

/// Writes the full redraw of a picture to a string, as [`crate::write_contents_formatted_in`] does,
/// but stops if the string has reached `limit` bytes before all rows are written. Writes nothing if
/// the glyphs of the picture and the changes of attributes within its rows are known to take at
/// least `limit` bytes. Returns whether the whole redraw was written.
///
/// If it was not, the string with the whole redraw would have at least `limit` bytes.
///
/// # Errors
///
/// Returns `Error::OutOfMemory` if the string cannot grow. Part of the redraw may have been written
/// by then.
pub fn write_contents_formatted_within(
    text: &mut String,
    view: &View<'_>,
    form: Form,
    limit: usize,
) -> Result<bool, Error>
    ensures text { IfOk result (λ is_whole. AppendsWithin is_whole limit (string_bytes text.old) (string_bytes text.new)
        (bytes_of_all (redraw_in form view.now))) }
    ensures memory { OnlyOutOfMemory result }
{
    // Adding up lengths takes far less time than writing.
    if has_drawn_least(view, limit) {
        return Ok(false);
    }
    match write_redraw_within(text, view, form, limit) {
        Ok(is_whole) => Ok(is_whole),
        Err(_) => Err(Error::OutOfMemory),
    }
}
