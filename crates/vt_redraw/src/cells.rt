//! The output that the cells of a row need, given the cells that the terminal displays.
//!
//! Throughout this crate, *the terminal* is the terminal that reads the output, and `over` is the row
//! that it displays. A cell *needs output* if the terminal does not display it already. A parameter
//! `wrapped` is true if the terminal's row is wrapped.

ghost use Rattle.std.specs.Prelude.{◌≡◌, ◌++◌, ◌+◌, ◌<◌, ◌≤◌, ℕ, List, true, false, IsTrue, OnOk, drop, length};
ghost use Rattle.vt_cells.specs.Internals.{buffered_text};
ghost use Rattle.vt_cells.specs.Cell.{attrs_of, is_blank, is_glyph, is_wide, text_of};
ghost use Rattle.vt_cells.specs.Op.{bytes_of, bytes_of_all};
ghost use Rattle.vt_rows.specs.Cells.{at};
ghost use Rattle.vt_redraw.specs.Internals.{AppendsOrStops, GathersOrStops, IsAlike, IsOther, IsRange, Leads};
ghost use Rattle.vt_redraw.specs.Internals.{SettlesOrStops, Writes, cells_from, cells_over, columns_of, glyph_ops, run_ops};
ghost use Rattle.vt_redraw.specs.Refusals.{RefusedOnlyIfSome};
ghost use Rattle.vt_redraw.specs.Script.{erase_run, pen_in, pen_past, wrapped_after_erasure, wrapped_after_glyph};

use crate::form::{Form, run_count, shifts};
use crate::passing::{next_other, stands_at};
use crate::pen::Pen;
use crate::picture_row::PictureRow;
use vt_cells::term::{ClearRowForward, EraseChar};
use vt_cells::{Attrs, Buffer, Cell, Pos, Sink, cell};

/// The free space, in bytes, that a buffer must have before a glyph or a run of blanks is appended:
/// enough for a cursor movement, an SGR sequence, and the longest text of a cell.
const RUN_ROOM: usize = 121;

/// Returns the number of columns that the glyph in a cell takes: 2 if it is wide, otherwise 1.
#[inline]
pub fn columns(cell: &Cell) -> u16
    ensures { result ≡ columns_of cell.now }
{
    if cell.is_wide() { 2 } else { 1 }
}

/// Writes a string to the sink. Does not call the sink if the string is empty.
///
/// # Errors
///
/// Returns the sink's error.
pub fn write_text<S: Sink>(sink: &mut S, text: &str) -> Result<(), S::Error>
    ensures text { OnOk result (S.text sink.new ≡ S.text sink.old ++ text.now) }
    ensures nonempty { RefusedOnlyIfSome result text.now }
{
    if text.is_empty() {
        return Ok(());
    }
    sink.write_str(text)
}

/// Writes the output that prints the glyph `cell` at position `pos`, including the cursor movement
/// and the SGR sequence that it requires. Afterward, the pen is still at `pos`; the caller must
/// move it past the glyph.
///
/// # Errors
///
/// Returns the sink's error. Part of the output may have been written by then.
#[inline]
pub fn print_at<S: Sink>(sink: &mut S, pen: &mut Pen, pos: Pos, cell: &Cell) -> Result<(), S::Error>
    ensures ops { AppendsOrStops result (S.text sink.old) (S.text sink.new) (glyph_ops pen.old pos cell.now) }
    ensures pen { OnOk result (pen.new ≡ pen_in pen.old.form pos.row pos.col (attrs_of cell.now)) }
{
    let mut buffer = Buffer::new();
    gather_at(sink, &mut buffer, pen, pos, cell)?;
    buffer.flush(sink)
}

/// Buffers the output that prints the glyph `cell` at position `pos`. Afterward, the pen is still
/// at `pos`; the caller must move it past the glyph.
#[inline]
fn gather_at<S: Sink>(
    sink: &mut S,
    buffer: &mut Buffer,
    pen: &mut Pen,
    pos: Pos,
    cell: &Cell,
) -> Result<(), S::Error>
    ensures gathers { GathersOrStops result
        (S.text sink.old) buffer.old (S.text sink.new) buffer.new (glyph_ops pen.old pos cell.now) }
    ensures pen { OnOk result (pen.new ≡ pen_in pen.old.form pos.row pos.col (attrs_of cell.now)) }
{
    buffer.make_room(sink, RUN_ROOM)?;
    pen.push_move(buffer, pos);
    pen.push_attrs(buffer, cell::attrs(cell));
    buffer.push(cell.contents());
    Ok(())
}

/// Buffers the output that prints the glyph `cell` at position `pos`, and moves the pen past the
/// glyph.
#[inline]
fn gather_glyph<S: Sink>(
    sink: &mut S,
    buffer: &mut Buffer,
    pen: &mut Pen,
    pos: Pos,
    cell: &Cell,
) -> Result<(), S::Error>
    requires { pos.col + columns_of cell.now < 65536 }
    ensures gathers { GathersOrStops result
        (S.text sink.old) buffer.old (S.text sink.new) buffer.new (glyph_ops pen.old pos cell.now) }
    ensures pen { OnOk result (pen.new
        ≡ pen_past pen.old.form pos.row (pos.col + columns_of cell.now) (attrs_of cell.now) (text_of cell.now)) }
{
    gather_at(sink, buffer, pen, pos, cell)?;
    pen.col = pos.col + columns(cell);
    pen.is_shifted = shifts(pen.form, cell);
    Ok(())
}

/// Buffers the output that prints the narrow glyph `cell`, whose text is one byte long, at position
/// `pos`, and moves the pen past the glyph.
#[inline(always)]
fn gather_byte<S: Sink>(
    sink: &mut S,
    buffer: &mut Buffer,
    pen: &mut Pen,
    pos: Pos,
    cell: &Cell,
) -> Result<(), S::Error>
    requires short { pos.col + 1 < 65536 }
    requires one { length (text_of cell.now) ≡ 1 }
    ensures gathers { GathersOrStops result
        (S.text sink.old) buffer.old (S.text sink.new) buffer.new (glyph_ops pen.old pos cell.now) }
    ensures pen { OnOk result (pen.new ≡ pen_in pen.old.form pos.row (pos.col + 1) (attrs_of cell.now)) }
{
    buffer.make_room(sink, RUN_ROOM)?;
    pen.push_move(buffer, pos);
    pen.push_attrs(buffer, cell::attrs(cell));
    buffer.push_one(cell.contents());
    pen.col = pos.col + 1;
    Ok(())
}

/// Writes `count` blanks with attributes `attrs` at a position. The pen remains at the first one.
///
/// # Errors
///
/// Returns the sink's error. Part of the output may have been written by then.
pub fn write_run<S: Sink>(
    sink: &mut S,
    pen: &mut Pen,
    pos: Pos,
    attrs: Attrs,
    count: u16,
    over: &PictureRow<'_>,
) -> Result<(), S::Error>
    requires inside { pos.col + count ≤ length over.now.cells }
    requires short { pos.col + count < 65536 }
    ensures ops { AppendsOrStops result (S.text sink.old) (S.text sink.new) (run_ops pen.old pos attrs count over.now) }
    ensures pen { OnOk result (pen.new ≡ pen_in pen.old.form pos.row pos.col attrs) }
{
    let mut buffer = Buffer::new();
    gather_run(sink, &mut buffer, pen, pos, attrs, count, over)?;
    buffer.flush(sink)
}

/// Appends to `buffer` the sequence that erases `count` columns (ECH), or the rest of the row (EL)
/// if the columns extend to its end. `end` is the column after the erased columns.
#[tactic(auto, using(crate::proofs::Filling::erase_run_counted))]
fn push_erase(buffer: &mut Buffer, form: Form, count: u16, end: u16, over: &PictureRow<'_>)
    requires inside { end ≤ length over.now.cells }
    requires order { count ≤ end }
    requires room { length buffer.old + 25 ≤ 256 }
    ensures { buffer.new ≡ buffer.old ++ bytes_of (erase_run form count (drop end over.now.cells)) }
{
    if end == over.cols() {
        ClearRowForward.push(buffer);
    } else {
        let count = run_count(form, count, end, over);
        EraseChar { count }.push(buffer);
    }
}

/// Buffers `count` blanks with attributes `attrs` at a position. The pen remains at the first one.
fn gather_run<S: Sink>(
    sink: &mut S,
    buffer: &mut Buffer,
    pen: &mut Pen,
    pos: Pos,
    attrs: Attrs,
    count: u16,
    over: &PictureRow<'_>,
) -> Result<(), S::Error>
    requires inside { pos.col + count ≤ length over.now.cells }
    requires short { pos.col + count < 65536 }
    ensures gathers { GathersOrStops result (S.text sink.old) buffer.old (S.text sink.new) buffer.new
        (run_ops pen.old pos attrs count over.now) }
    ensures pen { OnOk result (pen.new ≡ pen_in pen.old.form pos.row pos.col attrs) }
{
    buffer.make_room(sink, RUN_ROOM)?;
    pen.push_move(buffer, pos);
    pen.push_attrs(buffer, attrs);
    push_erase(buffer, pen.form, count, pos.col + count, over);
    Ok(())
}

/// Returns whether the terminal's row is still wrapped after printing a glyph that ends just before
/// column `col`. `wrapped` is true if the row was wrapped, and `wide` if the glyph is wide.
pub fn wrapped_after_glyph(wrapped: bool, wide: bool, over: &PictureRow<'_>, col: u16) -> bool
    ensures { result ≡ wrapped_after_glyph wrapped wide (drop col over.now.cells) }
{
    // In a loop, this order of the tests costs the fewest instructions.
    wrapped && !(over.is_torn(col) && wide)
}

/// Returns whether the terminal's row is still wrapped after erasing a run of columns that ends just
/// before column `col`. `wrapped` is true if the row was wrapped.
#[tactic(auto, using(crate::proofs::Filling::nil_at))]
pub fn wrapped_after_erasure(wrapped: bool, over: &PictureRow<'_>, col: u16) -> bool
    requires { col ≤ length over.now.cells }
    ensures { result ≡ wrapped_after_erasure wrapped (drop col over.now.cells) }
{
    if col == over.cols() {
        return false;
    }
    wrapped && !over.is_torn(col)
}

/// Returns whether `own` has a stored cell in column `col` that has the same attributes, width and
/// text length as the glyph `like`, and that differs from the stored cell of `others` in that
/// column, if there is one.
#[inline(always)]
fn is_alike(like: &Cell, own: &[Cell], others: &[Cell], col: u16) -> bool
    ensures { IsTrue result → IsAlike col like.now own.now others.now }
{
    let col = usize::from(col);
    if col >= own.len() || !cell::has_head_of(&own[col], like) {
        return false;
    }
    col >= others.len() || !(own[col] == others[col])
}

/// Buffers consecutive narrow glyphs, starting at the pen, whose text is one byte long and whose
/// attributes are those of `like`, and moves the pen past them. Stops at a glyph that the terminal
/// already displays or that does not fit in the buffer. `like` must itself be such a glyph.
/// `wrapped` is true if the terminal's row is wrapped.
#[inline(always)]
fn gather_alike(
    buffer: &mut Buffer,
    pen: &mut Pen,
    wrapped: bool,
    like: &Cell,
    cells: &PictureRow<'_>,
    over: &PictureRow<'_>,
)
    requires range { IsRange cells.now.cells over.now.cells }
    requires short { length over.now.cells < 65536 }
    requires one { length (text_of like.now) ≡ 1 }
    requires narrow { is_wide like.now ≡ false }
    requires attrs { pen.old.attrs ≡ attrs_of like.now }
    requires placed { pen.old.is_shifted ≡ false }
    requires inside { pen.old.col ≤ length over.now.cells }
    ensures leads { (text : List ℕ) → Leads (buffered_text text buffer.new)
        (cells_from pen.old.row pen.new.col pen.new wrapped cells.now.cells over.now.cells)
        (buffered_text text buffer.old)
        (cells_from pen.old.row pen.old.col pen.old wrapped cells.now.cells over.now.cells) }
    ensures order { pen.old.col ≤ pen.new.col }
    ensures inside { pen.new.col ≤ length over.now.cells }
{
    let own = cells.own_cells();
    let others = over.own_cells();
    let mut col = pen.col;
    while buffer.room() > 0 && is_alike(like, own, others, col) {
        buffer.push_one(own[usize::from(col)].contents());
        col += 1;
    }
    pen.col = col;
}

/// Buffers consecutive glyphs, starting at the pen, that have the same attributes, width and text
/// length as the glyph `like`, and moves the pen past them. Stops at a glyph that the terminal
/// already displays or that does not fit in the buffer. `wrapped` is true if the terminal's row is
/// wrapped, and is updated. `form` is the pen's: if it is a constant, the loop does not test it.
#[inline(always)]
fn gather_in(
    form: Form,
    buffer: &mut Buffer,
    pen: &mut Pen,
    wrapped: &mut bool,
    like: &Cell,
    cells: &PictureRow<'_>,
    over: &PictureRow<'_>,
)
    requires form { pen.old.form ≡ form }
    requires range { IsRange cells.now.cells over.now.cells }
    requires short { length over.now.cells < 65536 }
    requires glyph { is_glyph like.now ≡ true }
    requires attrs { pen.old.attrs ≡ attrs_of like.now }
    requires inside { pen.old.col ≤ length over.now.cells }
    ensures leads { (text : List ℕ) → Leads (buffered_text text buffer.new)
        (cells_from pen.old.row pen.new.col pen.new wrapped.new cells.now.cells over.now.cells)
        (buffered_text text buffer.old)
        (cells_from pen.old.row pen.old.col pen.old wrapped.old cells.now.cells over.now.cells) }
    ensures order { pen.old.col ≤ pen.new.col }
    ensures inside { pen.new.col ≤ length over.now.cells }
{
    let bytes = like.contents().len();
    let wide = like.is_wide();
    let own = cells.own_cells();
    let others = over.own_cells();
    let count = columns(like);
    let mut col = pen.col;
    let mut is_wrapped = *wrapped;
    let mut is_shifted = pen.is_shifted;
    while !is_shifted && bytes <= buffer.room() && is_alike(like, own, others, col) {
        let cell = &own[usize::from(col)];
        buffer.push(cell.contents());
        is_shifted = shifts(form, cell);
        col += count;
        is_wrapped = wrapped_after_glyph(is_wrapped, wide, over, col);
    }
    pen.col = col;
    pen.is_shifted = is_shifted;
    *wrapped = is_wrapped;
}

/// Buffers consecutive glyphs, starting at the pen, that have the same attributes, width and text
/// length as the glyph `like`, and moves the pen past them. Stops at a glyph that the terminal
/// already displays or that does not fit in the buffer. `wrapped` is true if the terminal's row is
/// wrapped, and is updated.
#[inline(never)]
fn gather_more(
    buffer: &mut Buffer,
    pen: &mut Pen,
    wrapped: &mut bool,
    like: &Cell,
    cells: &PictureRow<'_>,
    over: &PictureRow<'_>,
)
    requires range { IsRange cells.now.cells over.now.cells }
    requires short { length over.now.cells < 65536 }
    requires glyph { is_glyph like.now ≡ true }
    requires attrs { pen.old.attrs ≡ attrs_of like.now }
    requires inside { pen.old.col ≤ length over.now.cells }
    ensures leads { (text : List ℕ) → Leads (buffered_text text buffer.new)
        (cells_from pen.old.row pen.new.col pen.new wrapped.new cells.now.cells over.now.cells)
        (buffered_text text buffer.old)
        (cells_from pen.old.row pen.old.col pen.old wrapped.old cells.now.cells over.now.cells) }
    ensures order { pen.old.col ≤ pen.new.col }
    ensures inside { pen.new.col ≤ length over.now.cells }
{
    match pen.form {
        Form::Fixed => gather_in(Form::Fixed, buffer, pen, wrapped, like, cells, over),
        Form::Portable => gather_in(Form::Portable, buffer, pen, wrapped, like, cells, over),
    }
}

/// Buffers the narrow glyph `cell` at position `pos`, whose text is one byte long, and the glyphs
/// directly after it that have the same attributes, width and text length. Returns the number of
/// columns that they take. `wrapped` is true if the terminal's row is wrapped.
#[inline(always)]
fn gather_short<S: Sink>(
    sink: &mut S,
    buffer: &mut Buffer,
    pen: &mut Pen,
    wrapped: bool,
    pos: Pos,
    cell: &Cell,
    cells: &PictureRow<'_>,
    over: &PictureRow<'_>,
) -> Result<u16, S::Error>
    requires other { IsOther pos.col cells.now over.now }
    requires cell { cell.now ≡ at cells.now.cells pos.col }
    requires glyph { is_blank cell.now ≡ false }
    requires one { length (text_of cell.now) ≡ 1 }
    requires narrow { is_wide cell.now ≡ false }
    ensures { SettlesOrStops result (S.text sink.old) buffer.old (S.text sink.new) buffer.new
        pen.new wrapped pos cells.now over.now (cells_over pos pen.old wrapped cells.now over.now) }
{
    gather_byte(sink, buffer, pen, pos, cell)?;
    gather_alike(buffer, pen, wrapped, cell, cells, over);
    Ok(pen.col - pos.col)
}

/// Buffers the glyph at position `pos` and the glyphs directly after it that have the same
/// attributes, width and text length. Returns the number of columns that they take.
fn gather_long<S: Sink>(
    sink: &mut S,
    buffer: &mut Buffer,
    pen: &mut Pen,
    wrapped: &mut bool,
    pos: Pos,
    cells: &PictureRow<'_>,
    over: &PictureRow<'_>,
) -> Result<u16, S::Error>
    requires other { IsOther pos.col cells.now over.now }
    requires glyph { is_blank (at cells.now.cells pos.col) ≡ false }
    ensures { SettlesOrStops result (S.text sink.old) buffer.old (S.text sink.new) buffer.new
        pen.new wrapped.new pos cells.now over.now (cells_over pos pen.old wrapped.old cells.now over.now) }
{
    let cell = cells.cell(pos.col);
    gather_glyph(sink, buffer, pen, pos, cell)?;
    *wrapped = wrapped_after_glyph(*wrapped, cell.is_wide(), over, pen.col);
    gather_more(buffer, pen, wrapped, cell, cells, over);
    Ok(pen.col - pos.col)
}

/// Buffers the glyph `cell` at position `pos` and the glyphs directly after it that have the same
/// attributes, width and text length. Returns the number of columns that they take.
#[inline]
fn gather_glyphs<S: Sink>(
    sink: &mut S,
    buffer: &mut Buffer,
    pen: &mut Pen,
    wrapped: &mut bool,
    pos: Pos,
    cell: &Cell,
    cells: &PictureRow<'_>,
    over: &PictureRow<'_>,
) -> Result<u16, S::Error>
    requires other { IsOther pos.col cells.now over.now }
    requires cell { cell.now ≡ at cells.now.cells pos.col }
    requires glyph { is_blank cell.now ≡ false }
    ensures { SettlesOrStops result (S.text sink.old) buffer.old (S.text sink.new) buffer.new
        pen.new wrapped.new pos cells.now over.now (cells_over pos pen.old wrapped.old cells.now over.now) }
{
    if cell.contents().len() == 1 && !cell.is_wide() {
        return gather_short(sink, buffer, pen, *wrapped, pos, cell, cells, over);
    }
    gather_long(sink, buffer, pen, wrapped, pos, cells, over)
}

/// Buffers the glyphs or the run of blanks that begin with `cell` at position `pos`. Returns the
/// number of columns that they take.
fn write_next<S: Sink>(
    sink: &mut S,
    buffer: &mut Buffer,
    pen: &mut Pen,
    wrapped: &mut bool,
    pos: Pos,
    cell: &Cell,
    cells: &PictureRow<'_>,
    over: &PictureRow<'_>,
) -> Result<u16, S::Error>
    requires other { IsOther pos.col cells.now over.now }
    requires cell { cell.now ≡ at cells.now.cells pos.col }
    ensures { SettlesOrStops result (S.text sink.old) buffer.old (S.text sink.new) buffer.new
        pen.new wrapped.new pos cells.now over.now (cells_over pos pen.old wrapped.old cells.now over.now) }
{
    if !cell::is_blank(cell) {
        return gather_glyphs(sink, buffer, pen, wrapped, pos, cell, cells, over);
    }
    let attrs = cell::attrs(cell);
    let count = cells.run(pos.col, attrs);
    gather_run(sink, buffer, pen, pos, attrs, count, over)?;
    *wrapped = wrapped_after_erasure(*wrapped, over, pos.col + count);
    Ok(count)
}

/// Writes the output that makes the terminal's row `over` display `cells`, starting at `pos`.
/// Writes nothing if no cell needs to be drawn.
///
/// # Errors
///
/// Returns the sink's error. Part of the output may have been written by then.
pub fn write_cells<S: Sink>(
    sink: &mut S,
    pen: &mut Pen,
    wrapped: &mut bool,
    pos: Pos,
    cells: &PictureRow<'_>,
    over: &PictureRow<'_>,
) -> Result<(), S::Error>
    requires range { IsRange cells.now.cells over.now.cells }
    ensures writes { OnOk result (Writes (S.text sink.old) (S.text sink.new) pen.new wrapped.new
        (cells_over pos pen.old wrapped.old cells.now over.now)) }
    ensures nonempty { RefusedOnlyIfSome result (bytes_of_all (cells_over pos pen.old wrapped.old cells.now over.now).ops) }
{
    let Pos { row, col } = pos;
    let first = next_other(cells, over, col);
    if first >= cells.cols() {
        return Ok(());
    }
    write_others(sink, pen, wrapped, Pos { row, col: first }, cells, over)
}

/// Writes the output that makes the terminal's row `over` display `cells`, starting at `pos`.
/// Consecutive glyphs are buffered and written together.
#[tactic(auto, using(vt_cells::proofs::Sinks::nothing_gathered))]
fn write_others<S: Sink>(
    sink: &mut S,
    pen: &mut Pen,
    wrapped: &mut bool,
    pos: Pos,
    cells: &PictureRow<'_>,
    over: &PictureRow<'_>,
) -> Result<(), S::Error>
    requires range { IsRange cells.now.cells over.now.cells }
    ensures writes { OnOk result (Writes (S.text sink.old) (S.text sink.new) pen.new wrapped.new
        (cells_over pos pen.old wrapped.old cells.now over.now)) }
    ensures nonempty { RefusedOnlyIfSome result (bytes_of_all (cells_over pos pen.old wrapped.old cells.now over.now).ops) }
{
    let cols = cells.cols().min(over.cols());
    let mut buffer = Buffer::new();
    let mut col = pos.col;
    while col < cols {
        let cell = cells.cell(col);
        if stands_at(cell, over, col) {
            col = next_other(cells, over, col + 1);
        } else {
            let next = Pos { row: pos.row, col };
            col += write_next(sink, &mut buffer, pen, wrapped, next, cell, cells, over)?;
        }
    }
    buffer.flush(sink)?;
    Ok(())
}
