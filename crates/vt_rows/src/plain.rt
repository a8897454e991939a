//! The plain text of a range of columns of a row.

ghost use Rattle.std.specs.Prelude.{◌≡◌, ◌<◌, ◌≤◌, ◌+◌, ◌++◌, drop, flat_map, length, take, true, IsTrue, OnErr, OnOk};
ghost use Rattle.vt_cells.specs.Cell.{is_right_half, text_of};
ghost use Rattle.vt_rows.specs.Basic.{shown_text};
ghost use Rattle.vt_rows.specs.Cells.{at};
ghost use Rattle.vt_rows.specs.Internals.{Shows};
ghost use Rattle.vt_rows.specs.Plain.{has_glyph, plain_text, up_to_last_glyph};

use crate::trimming::trimmed_len;
use vt_cells::{Buffer, Cell, Sink, cell};

/// The maximum length of a cell's text, in bytes.
const LONGEST: usize = 29;

/// Writes the plain text of columns `start..stop`, without attributes. Columns past the end of the
/// row are ignored.
///
/// The text ends with the last glyph that begins in these columns. Before that glyph, columns
/// without a glyph are written as spaces. A wide glyph that begins in the last of these columns is
/// written whole. The continuation cell of a wide glyph that begins before the first column is
/// written as a space.
///
/// # Errors
///
/// Returns the sink's error. Part of the text may have been written by then. The call never fails
/// if the text is empty.
#[tactic(auto, unfolding(crate::specs::Plain::plain_text), using(crate::proofs::RowTexts::plain_rows))]
pub fn write_contents<S: Sink>(
    sink: &mut S,
    cells: &[Cell],
    start: usize,
    stop: usize,
) -> Result<(), S::Error>
    ensures text { OnOk result (S.text sink.new ≡ S.text sink.old ++ plain_text start stop cells.now) }
    ensures nonempty { OnErr result (0 < length (plain_text start stop cells.now)) }
{
    let columns = columns_between(cells, start, stop);
    let shown = &columns[..text_end(columns)];
    let mut buffer = Buffer::new();
    if begins_cut(shown) {
        buffer.push_byte(b' ');
    }
    write_shown(sink, &mut buffer, shown)
}

/// Returns whether a glyph begins in columns `start..stop`.
pub fn has_contents(cells: &[Cell], start: usize, stop: usize) -> bool
    ensures { result ≡ has_glyph start stop cells.now }
{
    let columns = columns_between(cells, start, stop);
    for cell in columns {
        if cell.has_contents() {
            return true;
        }
    }
    false
}

/// Returns the cells of columns `start..stop`, limited to the columns that the row has.
#[inline]
#[tactic(auto, using(std::proofs::lemmas::List::take_min, std::proofs::lemmas::List::drop_min))]
fn columns_between(cells: &[Cell], start: usize, stop: usize) -> &[Cell]
    ensures { result.now ≡ drop start (take stop cells.now) }
{
    let left = &cells[..stop.min(cells.len())];
    &left[start.min(left.len())..]
}

/// Returns the number of cells up to and including the first cell of the last glyph, or 0 if there
/// is no glyph.
fn text_end(cells: &[Cell]) -> usize
    ensures inside { result ≤ length cells.now }
    ensures value { take result cells.now ≡ up_to_last_glyph cells.now }
{
    let mut len = trimmed_len(cells);
    while len > 0 && !cells[len - 1].has_contents() {
        len -= 1;
    }
    len
}

/// Returns whether the first cell is a continuation cell. Returns `false` if there are no cells.
fn begins_cut(cells: &[Cell]) -> bool
    ensures { result ≡ is_right_half (at cells.now 0) }
{
    !cells.is_empty() && cells[0].is_wide_continuation()
}

/// Writes the buffered bytes and then the text of `cells`: a space for each blank, and nothing for
/// a continuation cell.
///
/// Most cells belong to runs of letters, of wide characters or of blanks. Each kind of run has its
/// own loop.
///
/// # Errors
///
/// Returns the sink's error. Part of the text may have been written by then.
#[inline(always)]
fn write_shown<S: Sink>(sink: &mut S, buffer: &mut Buffer, cells: &[Cell]) -> Result<(), S::Error>
    ensures text { OnOk result
        (S.text sink.new ≡ S.text sink.old ++ (buffer.old ++ flat_map shown_text cells.now)) }
    ensures nonempty { OnErr result (0 < length (buffer.old ++ flat_map shown_text cells.now)) }
{
    let mut count = 0;
    while count < cells.len() {
        buffer.make_room(sink, LONGEST)?;
        count += push_runs(buffer, &cells[count..]);
    }
    buffer.flush(sink)?;
    Ok(())
}

/// Appends the text of the first cell and then, while the buffer has room, the text of up to three
/// runs in this order: one-byte glyphs, three-byte wide glyphs, and blanks. Returns the number of
/// cells appended. The buffer must have room for [`LONGEST`] bytes.
#[inline(always)]
fn push_runs(buffer: &mut Buffer, cells: &[Cell]) -> usize
    requires room { length buffer.old + 29 ≤ 256 }
    requires nonempty { 0 < length cells.now }
    ensures shows { Shows buffer.old buffer.new result cells.now }
    ensures nonempty { 0 < result }
{
    push_cell(buffer, &cells[0]);
    let letters = 1 + push_letters(buffer, &cells[1..]);
    let pairs = letters + push_pairs(buffer, &cells[letters..]);
    pairs + push_spaces(buffer, &cells[pairs..])
}

/// Appends the text of a cell: a space for a blank, and nothing for a continuation cell. The buffer
/// must have room for [`LONGEST`] bytes.
#[inline(always)]
fn push_cell(buffer: &mut Buffer, cell: &Cell)
    requires { length buffer.old + 29 ≤ 256 }
    ensures { buffer.new ≡ buffer.old ++ shown_text cell.now }
{
    if cell.has_contents() {
        buffer.push(cell.contents());
    } else if !cell.is_wide_continuation() {
        buffer.push_byte(b' ');
    }
}

/// Appends the text of each leading cell whose text is one byte long, until the buffer is full.
/// Returns the number of cells appended.
#[inline(always)]
fn push_letters(buffer: &mut Buffer, cells: &[Cell]) -> usize
    ensures { Shows buffer.old buffer.new result cells.now }
{
    let stop = cells.len().min(buffer.room());
    let mut count = 0;
    while count < stop && cells[count].contents().len() == 1 {
        buffer.push_one(cells[count].contents());
        count += 1;
    }
    count
}

/// Appends the text of leading wide glyphs that are three bytes long. May stop before the buffer is
/// full. Returns the number of cells appended, two for each glyph.
#[inline(always)]
fn push_pairs(buffer: &mut Buffer, cells: &[Cell]) -> usize
    ensures { Shows buffer.old buffer.new result cells.now }
{
    let stop = cells.len().min(buffer.room() / 2);
    let mut count = 0;
    while count + 1 < stop && is_pair(&cells[count], &cells[count + 1]) {
        buffer.push(cells[count].contents());
        count += 2;
    }
    count
}

/// Returns whether `cell` has three bytes of text and `next` is a continuation cell.
#[inline(always)]
fn is_pair(cell: &Cell, next: &Cell) -> bool
    ensures text { IsTrue result → length (text_of cell.now) ≡ 3 }
    ensures half { IsTrue result → is_right_half next.now ≡ true }
{
    cell.contents().len() == 3 && next.is_wide_continuation()
}

/// Appends a space for each leading blank until the buffer is full. Returns the number of spaces
/// appended.
#[inline(always)]
fn push_spaces(buffer: &mut Buffer, cells: &[Cell]) -> usize
    ensures { Shows buffer.old buffer.new result cells.now }
{
    let stop = cells.len().min(buffer.room());
    let mut count = 0;
    while count < stop && cell::is_blank(&cells[count]) {
        buffer.push_byte(b' ');
        count += 1;
    }
    count
}
