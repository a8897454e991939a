//! In-place edits of the cells of a row.
//!
//! A wide glyph takes two columns: its first cell holds the text, and the next column is its
//! continuation cell. No edit leaves one of these two cells without the other. If an edit
//! overwrites only one of them, the function's documentation describes what the other cell becomes.

ghost use Rattle.std.specs.Prelude.{◌≡◌, ◌≢◌, ◌<◌, ◌≤◌, ◌+◌, ◌-◌, ◌*◌, ◌&&◌, ◌∷◌, [], All};
ghost use Rattle.std.specs.Prelude.{Some, encode_utf8, false, true, length, not};
ghost use Rattle.vt_cells.specs.Attrs.{default_attrs};
ghost use Rattle.vt_cells.specs.Cell.{IsCell, IsShort, attrs_of, blank, glyph, is_blank};
ghost use Rattle.vt_cells.specs.Cell.{is_right_half, is_wide, text_of, cell_made_wide};
ghost use Rattle.vt_cells.specs.Glyph.{columns_of};
ghost use Rattle.vt_rows.specs.Cells.{IsPaired, at, blanks, ends_blank, cells_after_erase, marked_at};
ghost use Rattle.vt_rows.specs.Cells.{narrowed_at, put_narrow, put_wide, widened_at};
ghost use Rattle.vt_rows.specs.Internals.{HasRoom, left_blanked, right_replaced};
ghost use Rattle.vt_rows.specs.Texts.{IsNarrowText, IsPrintableAscii, glyphs_of, put_text, IsWideText, put_wide_text};
ghost use Rattle.vt_rows.specs.Texts.{wide_glyphs_of};

use std::mem;
use vt_cells::{Attrs, Cell, cell};

/// The number of cells written at a time: few enough that the compiler unrolls the loop over them.
const GLYPHS: usize = 8;

/// Puts the narrow glyph for `c`, with attributes `attrs`, at column `column`.
///
/// If the column held the continuation cell of a wide glyph, the first cell of that glyph becomes a
/// blank and keeps its attributes. If the column held the first cell of a wide glyph, the
/// continuation cell of that glyph becomes a space with attributes `attrs`.
#[inline(always)]
pub fn put_narrow(cells: &mut [Cell], column: usize, c: char, attrs: Attrs)
    requires paired { IsPaired cells.old }
    requires inside { column < length cells.old }
    requires reported { c ≢ 0xFFFD }
    requires columns { columns_of c ≡ Some 1 }
    ensures value { cells.new ≡ put_narrow column (encode_utf8 c) attrs cells.old }
    ensures paired { IsPaired cells.new }
    ensures sound { All IsCell cells.old → All IsCell cells.new }
{
    blank_left(cells, column);
    space_right(cells, column, attrs);
    let cell = &mut cells[column];
    cell::set_glyph(cell, c, false, attrs);
}

/// Puts the bytes of `text` as narrow glyphs at consecutive columns, starting at `column`. The text
/// must be printable ASCII and must not be empty.
///
/// The result is the same as that of calling [`put_narrow`] for each byte. If the first column held
/// the continuation cell of a wide glyph, the first cell of that glyph becomes a blank and keeps
/// its attributes. If the last column held the first cell of a wide glyph, the continuation cell of
/// that glyph becomes a space with attributes `attrs`.
#[inline]
pub fn put_text(cells: &mut [Cell], column: usize, text: &[u8], attrs: Attrs)
    requires paired { IsPaired cells.old }
    requires nonempty { 0 < length text.now }
    requires inside { column + length text.now ≤ length cells.old }
    requires printable { IsPrintableAscii text.now }
    ensures value { cells.new ≡ put_text column text.now attrs cells.old }
    ensures paired { IsPaired cells.new }
    ensures sound { All IsCell cells.old → All IsCell cells.new }
{
    let end = column + text.len();
    blank_left(cells, column);
    space_right(cells, end - 1, attrs);
    write_text(&mut cells[column..end], text, attrs);
}

/// Sets each cell to the narrow glyph for the corresponding byte of `text`, which must be printable
/// ASCII. The cells are written in groups of [`GLYPHS`].
#[inline]
fn write_text(cells: &mut [Cell], text: &[u8], attrs: Attrs)
    requires same { length cells.old ≡ length text.now }
    requires printable { IsPrintableAscii text.now }
    ensures { cells.new ≡ glyphs_of attrs text.now }
{
    let len = text.len();
    let mut done = 0;
    while len - done >= GLYPHS {
        let end = done + GLYPHS;
        write_group(&mut cells[done..end], &text[done..end], attrs);
        done = end;
    }
    write_each(&mut cells[done..len], &text[done..len], attrs);
}

/// Sets each cell to the narrow glyph for the corresponding byte of `text`, which must be printable
/// ASCII. A single test determines whether every cell has at most seven bytes of text before it is
/// overwritten.
#[inline(always)]
fn write_group(cells: &mut [Cell], text: &[u8], attrs: Attrs)
    requires same { length cells.old ≡ length text.now }
    requires printable { IsPrintableAscii text.now }
    ensures { cells.new ≡ glyphs_of attrs text.now }
{
    if cell::are_short(cells) {
        write_short(cells, text, attrs);
    } else {
        write_long(cells, text, attrs);
    }
}

/// Sets each cell to the narrow glyph for the corresponding byte of `text`, which must be printable
/// ASCII. Called if a cell has more than seven bytes of text, which is rare.
///
/// This function is kept out of line: if it is inlined, the compiler no longer combines the text
/// lengths of the cells into one word to test them.
#[inline(never)]
fn write_long(cells: &mut [Cell], text: &[u8], attrs: Attrs)
    requires same { length cells.old ≡ length text.now }
    requires printable { IsPrintableAscii text.now }
    ensures { cells.new ≡ glyphs_of attrs text.now }
{
    write_each(cells, text, attrs);
}

/// Sets each cell to the narrow glyph for the corresponding byte of `text`, which must be printable
/// ASCII. No cell may have more than seven bytes of text.
#[inline(always)]
fn write_short(cells: &mut [Cell], text: &[u8], attrs: Attrs)
    requires same { length cells.old ≡ length text.now }
    requires printable { IsPrintableAscii text.now }
    requires short { All IsShort cells.old }
    ensures { cells.new ≡ glyphs_of attrs text.now }
{
    let count = cells.len().min(text.len());
    for k in 0..count {
        cell::put_short(&mut cells[k], &cell::ascii(text[k], attrs));
    }
}

/// Sets each cell to the narrow glyph for the corresponding byte of `text`, which must be printable
/// ASCII. The cells are written one by one.
#[inline(always)]
fn write_each(cells: &mut [Cell], text: &[u8], attrs: Attrs)
    requires same { length cells.old ≡ length text.now }
    requires printable { IsPrintableAscii text.now }
    ensures { cells.new ≡ glyphs_of attrs text.now }
{
    let count = cells.len().min(text.len());
    for k in 0..count {
        cell::set_ascii(&mut cells[k], text[k], attrs);
    }
}

/// Puts the characters of `text` as narrow glyphs at consecutive columns, starting at `column`. The
/// text must not be empty, and each character must take one column and not be U+FFFD.
///
/// The result is the same as that of calling [`put_narrow`] for each character. If the first column
/// held the continuation cell of a wide glyph, the first cell of that glyph becomes a blank and
/// keeps its attributes. If the last column held the first cell of a wide glyph, the continuation
/// cell of that glyph becomes a space with attributes `attrs`.
#[inline]
pub fn put_narrow_text(cells: &mut [Cell], column: usize, text: &[char], attrs: Attrs)
    requires paired { IsPaired cells.old }
    requires nonempty { 0 < length text.now }
    requires inside { column + length text.now ≤ length cells.old }
    requires narrow { IsNarrowText text.now }
    ensures value { cells.new ≡ put_text column text.now attrs cells.old }
    ensures paired { IsPaired cells.new }
    ensures sound { All IsCell cells.old → All IsCell cells.new }
{
    let end = column + text.len();
    blank_left(cells, column);
    space_right(cells, end - 1, attrs);
    write_narrow(&mut cells[column..end], text, attrs);
}

/// Sets each cell to the narrow glyph for the corresponding character of `text`.
#[inline]
fn write_narrow(cells: &mut [Cell], text: &[char], attrs: Attrs)
    requires same { length cells.old ≡ length text.now }
    requires narrow { IsNarrowText text.now }
    ensures { cells.new ≡ glyphs_of attrs text.now }
{
    let count = cells.len().min(text.len());
    for k in 0..count {
        cell::set_glyph(&mut cells[k], text[k], false, attrs);
    }
}

/// Puts the wide glyph for `c`, with attributes `attrs`, at `column` and the next column.
///
/// If the first column held the continuation cell of a wide glyph, the first cell of that glyph
/// becomes a blank and keeps its attributes. If the second column held the first cell of a wide
/// glyph, the continuation cell of that glyph becomes a blank with attributes `attrs`.
#[inline(always)]
pub fn put_wide(cells: &mut [Cell], column: usize, c: char, attrs: Attrs)
    requires paired { IsPaired cells.old }
    requires inside { column + 1 < length cells.old }
    requires reported { c ≢ 0xFFFD }
    requires columns { columns_of c ≡ Some 2 }
    ensures value { cells.new ≡ put_wide column (encode_utf8 c) attrs cells.old }
    ensures paired { IsPaired cells.new }
    ensures sound { All IsCell cells.old → All IsCell cells.new }
{
    put_wide_cell(cells, column, cell::glyph(c, true, attrs));
}

/// Puts the wide glyph `cell` at `column`, and its continuation cell at the next column.
///
/// If the first column held the continuation cell of a wide glyph, the first cell of that glyph
/// becomes a blank and keeps its attributes. If the second column held the first cell of a wide
/// glyph, the continuation cell of that glyph becomes a blank with the attributes of `cell`.
#[inline(always)]
pub fn put_wide_cell(cells: &mut [Cell], column: usize, cell: Cell)
    requires paired { IsPaired cells.old }
    requires inside { column + 1 < length cells.old }
    requires wide { is_wide cell ≡ true }
    ensures value { cells.new ≡ put_wide column (text_of cell) (attrs_of cell) cells.old }
    ensures paired { IsPaired cells.new }
    ensures sound { IsCell cell → All IsCell cells.old → All IsCell cells.new }
{
    blank_left(cells, column);
    blank_right(cells, column + 1, cell::attrs(&cell));
    cells[column] = cell;
    cell::set_right_half(&mut cells[column + 1]);
}

/// Puts the characters of `text` as wide glyphs at consecutive pairs of columns, starting at
/// `column`. The text must not be empty, and each character must take two columns and not be
/// U+FFFD.
///
/// The result is the same as that of calling [`put_wide`] for each character. If the first column
/// held the continuation cell of a wide glyph, the first cell of that glyph becomes a blank and
/// keeps its attributes. If the last column held the first cell of a wide glyph, the continuation
/// cell of that glyph becomes a blank with attributes `attrs`.
#[inline]
pub fn put_wide_text(cells: &mut [Cell], column: usize, text: &[char], attrs: Attrs)
    requires paired { IsPaired cells.old }
    requires nonempty { 0 < length text.now }
    requires inside { column + 2 * length text.now ≤ length cells.old }
    requires wide { IsWideText text.now }
    ensures value { cells.new ≡ put_wide_text column text.now attrs cells.old }
    ensures paired { IsPaired cells.new }
    ensures sound { All IsCell cells.old → All IsCell cells.new }
{
    let end = column + 2 * text.len();
    blank_left(cells, column);
    blank_right(cells, end - 1, attrs);
    write_wide(&mut cells[column..end], text, attrs);
}

/// Sets each pair of cells to the two cells of the wide glyph for the corresponding character of
/// `text`.
#[inline]
fn write_wide(cells: &mut [Cell], text: &[char], attrs: Attrs)
    requires same { length cells.old ≡ 2 * length text.now }
    requires wide { IsWideText text.now }
    ensures { cells.new ≡ wide_glyphs_of attrs text.now }
{
    let count = text.len().min(cells.len() / 2);
    for k in 0..count {
        cell::set_glyph(&mut cells[2 * k], text[k], true, attrs);
        cell::set_right_half(&mut cells[2 * k + 1]);
    }
}

/// Removes the cell at column `column` and returns it, leaving a blank with attributes `attrs`.
///
/// If the cell was one of the two cells of a wide glyph, the other cell becomes a blank and keeps
/// its attributes.
pub fn lift(cells: &mut [Cell], column: usize, attrs: Attrs) -> Cell
    requires paired { IsPaired cells.old }
    requires inside { column < length cells.old }
    ensures lifted { result ≡ at cells.old column }
    ensures value { cells.new ≡ cells_after_erase column 1 attrs cells.old }
    ensures paired { IsPaired cells.new }
    ensures sound { All IsCell cells.old → All IsCell cells.new }
{
    blank_left(cells, column);
    blank_right(cells, column, Attrs::new());
    mem::replace(&mut cells[column], cell::blank(attrs))
}

/// Adds the combining character `mark`, of width 0, to the cell at column `column`.
///
/// A blank first becomes a space with the same attributes. A cell that already has
/// [`MARK_LIMIT`](vt_cells::MARK_LIMIT) or more bytes of text is unchanged. The cell must not be a
/// continuation cell: a combining character belongs to the first cell of a wide glyph.
pub fn append(cells: &mut [Cell], column: usize, mark: char)
    requires inside { column < length cells.old }
    requires shown { is_right_half (at cells.old column) ≡ false }
    requires mark { columns_of mark ≡ Some 0 }
    ensures value { cells.new ≡ marked_at column mark cells.old }
    ensures paired { IsPaired cells.old → IsPaired cells.new }
    ensures sound { All IsCell cells.old → All IsCell cells.new }
{
    let cell = &mut cells[column];
    cell::append(cell, mark);
}

/// Makes the glyph at column `column` wide, and turns the next column into its continuation cell.
///
/// If the next column held the first cell of a wide glyph, the continuation cell of that glyph
/// becomes a blank with attributes `attrs`.
pub fn widen(cells: &mut [Cell], column: usize, attrs: Attrs)
    requires paired { IsPaired cells.old }
    requires inside { column + 1 < length cells.old }
    requires glyph { is_blank (at cells.old column) ≡ false }
    requires shown { is_right_half (at cells.old column) ≡ false }
    requires fits { IsCell (cell_made_wide true (at cells.old column)) }
    ensures value { cells.new ≡ widened_at column attrs cells.old }
    ensures paired { IsPaired cells.new }
    ensures sound { All IsCell cells.old → All IsCell cells.new }
{
    blank_right(cells, column + 1, attrs);
    let cell = &mut cells[column];
    cell::set_wide(cell, true);
    cells[column + 1] = cell::right_half();
}

/// Makes the glyph at column `column` narrow. If it was wide, its continuation cell becomes a space
/// with attributes `attrs`.
pub fn narrow(cells: &mut [Cell], column: usize, attrs: Attrs)
    requires paired { IsPaired cells.old }
    requires inside { column < length cells.old }
    requires shown { is_right_half (at cells.old column) ≡ false }
    requires fits { IsCell (cell_made_wide false (at cells.old column)) }
    ensures value { cells.new ≡ narrowed_at column attrs cells.old }
    ensures paired { IsPaired cells.new }
    ensures sound { All IsCell cells.old → All IsCell cells.new }
{
    space_right(cells, column, attrs);
    let cell = &mut cells[column];
    cell::set_wide(cell, false);
}

/// Sets all cells to blanks with attributes `attrs`.
#[inline]
pub fn clear(cells: &mut [Cell], attrs: Attrs)
    ensures { cells.new ≡ blanks attrs (length cells.old) }
{
    if attrs.is_same(&Attrs::new()) {
        clear_default(cells);
    } else {
        clear_each(cells, attrs);
    }
}

/// Sets all cells to default blanks, in groups of [`GLYPHS`].
///
/// This function is kept out of line: when it is inlined, the loop is compiled to one large
/// unrolled block.
#[inline(never)]
fn clear_default(cells: &mut [Cell])
    ensures { cells.new ≡ blanks default_attrs (length cells.old) }
{
    let attrs = Attrs::new();
    let len = cells.len();
    let mut done = 0;
    while len - done >= GLYPHS {
        let end = done + GLYPHS;
        clear_group(&mut cells[done..end], attrs);
        done = end;
    }
    clear_each(&mut cells[done..len], attrs);
}

/// Sets all cells to blanks with attributes `attrs`. A single test determines whether every cell
/// has at most seven bytes of text before it is overwritten.
#[inline(always)]
fn clear_group(cells: &mut [Cell], attrs: Attrs)
    ensures { cells.new ≡ blanks attrs (length cells.old) }
{
    if cell::are_short(cells) {
        clear_short(cells, attrs);
    } else {
        clear_each(cells, attrs);
    }
}

/// Sets all cells to blanks with attributes `attrs`. No cell may have more than seven bytes of
/// text.
#[inline(always)]
fn clear_short(cells: &mut [Cell], attrs: Attrs)
    requires { All IsShort cells.old }
    ensures { cells.new ≡ blanks attrs (length cells.old) }
{
    for cell in cells.iter_mut() {
        cell::put_short(cell, &cell::blank(attrs));
    }
}

/// Sets all cells to blanks with attributes `attrs`, one by one.
///
/// This function is kept out of line: if it is inlined in [`clear_group`], the compiler no longer
/// combines the text lengths of the cells into one word to test them.
#[inline(never)]
fn clear_each(cells: &mut [Cell], attrs: Attrs)
    ensures { cells.new ≡ blanks attrs (length cells.old) }
{
    for cell in cells.iter_mut() {
        cell::clear(cell, attrs);
    }
}

/// Sets columns `start..end` to blanks with attributes `attrs`.
///
/// If only one cell of a wide glyph is erased, the other cell becomes a blank and keeps its
/// attributes.
pub fn erase(cells: &mut [Cell], start: usize, end: usize, attrs: Attrs)
    requires paired { IsPaired cells.old }
    requires nonempty { start < end }
    requires inside { end ≤ length cells.old }
    ensures value { cells.new ≡ cells_after_erase start (end - start) attrs cells.old }
    ensures paired { IsPaired cells.new }
    ensures sound { All IsCell cells.old → All IsCell cells.new }
{
    blank_left(cells, start);
    blank_right(cells, end - 1, Attrs::new());
    clear(&mut cells[start..end], attrs);
}

/// Returns whether the last cell is a blank. Also returns `true` if there are no cells.
#[inline]
pub fn ends_blank(cells: &[Cell]) -> bool
    ensures { result ≡ ends_blank cells.now }
{
    match cells.last() {
        Some(cell) => cell::is_blank(cell),
        None => true,
    }
}

/// Returns whether a row is still wrapped after an edit, that is, whether it was wrapped before the
/// edit (`wrapped`) and its last cell is not a blank. `cells` are the cells after the edit.
#[inline]
pub fn is_still_wrapped(cells: &[Cell], wrapped: bool) -> bool
    ensures { result ≡ (wrapped && not (ends_blank cells.now)) }
{
    wrapped && !ends_blank(cells)
}

/// Prepares a column to be overwritten: if it holds the continuation cell of a wide glyph, turns
/// the first cell of that glyph into a blank, which keeps the cell's attributes.
#[tactic(auto, unfolding(crate::specs::Internals::left_blanked))]
#[inline]
pub(crate) fn blank_left(cells: &mut [Cell], column: usize)
    requires paired { IsPaired cells.old }
    requires inside { column < length cells.old }
    ensures { cells.new ≡ left_blanked column cells.old }
{
    if cells[column].is_wide_continuation() {
        let attrs = cell::attrs(&cells[column - 1]);
        cells[column - 1] = cell::blank(attrs);
    }
}

/// Prepares a column to be overwritten: if it holds the first cell of a wide glyph, turns its
/// continuation cell into a space with attributes `attrs`.
#[tactic(auto, unfolding(crate::specs::Internals::right_replaced))]
#[inline]
fn space_right(cells: &mut [Cell], column: usize, attrs: Attrs)
    requires room { HasRoom column cells.old }
    requires inside { column < length cells.old }
    ensures { cells.new ≡ right_replaced column (glyph (0x20 ∷ []) false attrs) cells.old }
{
    if cells[column].is_wide() {
        cells[column + 1] = cell::space(attrs);
    }
}

/// Prepares a column to be overwritten: if it holds the first cell of a wide glyph, turns its
/// continuation cell into a blank with attributes `attrs`.
#[tactic(auto, unfolding(crate::specs::Internals::right_replaced))]
#[inline]
pub(crate) fn blank_right(cells: &mut [Cell], column: usize, attrs: Attrs)
    requires room { HasRoom column cells.old }
    requires inside { column < length cells.old }
    ensures { cells.new ≡ right_replaced column (blank attrs) cells.old }
{
    if cells[column].is_wide() {
        cells[column + 1] = cell::blank(attrs);
    }
}
