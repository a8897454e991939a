//! Functions that change a cell in place.

ghost use Rattle.std.specs.Prelude.{◌≡◌, ◌≢◌, ◌<◌, ◌≤◌, false, Some, if◌then◌else◌, encode_utf8};
ghost use Rattle.vt_cells.specs.Cell.{blank, glyph, right_half, is_blank, is_right_half, cell_with_mark, cell_made_wide, cell_with_attrs, IsCell};
ghost use Rattle.vt_cells.specs.Internals.{cell_as_glyph};
ghost use Rattle.vt_cells.specs.Glyph.{columns_of};

use super::making::{ascii, blank, glyph, push_char, right_half, space};
use super::short::overwrite;
use super::{Cell, MARK_LIMIT, attrs, is_blank};
use crate::attrs::Attrs;
use crate::head::Head;

/// Turns the cell into a blank with the given attributes.
#[inline]
pub fn clear(cell: &mut Cell, attrs: Attrs)
    ensures { cell.new ≡ blank attrs }
{
    overwrite(cell, blank(attrs));
}

/// Turns the cell into a glyph of one character, which takes two columns if `wide` is true,
/// otherwise one.
///
/// `wide` must agree with the width that [`columns`](crate::columns) returns for `c`. `c` must not
/// be U+FFFD, which is never drawn.
#[inline(always)]
pub fn set_glyph(cell: &mut Cell, c: char, wide: bool, attrs: Attrs)
    requires reported { c ≢ 0xFFFD }
    requires columns { columns_of c ≡ Some (if wide then 2 else 1) }
    ensures { cell.new ≡ glyph (encode_utf8 c) wide attrs }
{
    overwrite(cell, glyph(c, wide, attrs));
}

/// Turns the cell into the narrow glyph for `byte`, which must be printable ASCII.
#[inline(always)]
pub fn set_ascii(cell: &mut Cell, byte: u8, attrs: Attrs)
    requires low { 0x20 ≤ byte }
    requires high { byte < 0x7F }
    ensures { cell.new ≡ glyph (encode_utf8 byte) false attrs }
{
    overwrite(cell, ascii(byte, attrs));
}

/// Turns the cell into the continuation cell of a wide glyph.
#[inline(always)]
pub fn set_right_half(cell: &mut Cell)
    ensures { cell.new ≡ right_half }
{
    overwrite(cell, right_half());
}

/// Adds the combining character `c`, of width 0, to the cell.
///
/// A blank first becomes a space with the same attributes. A cell that already has [`MARK_LIMIT`]
/// or more bytes of text is unchanged. The cell must not be a continuation cell: a combining
/// character belongs to the first cell of a wide glyph.
pub fn append(cell: &mut Cell, c: char)
    requires shown { is_right_half cell.old ≡ false }
    requires mark { columns_of c ≡ Some 0 }
    ensures { cell.new ≡ cell_with_mark c cell.old }
{
    fill_blank(cell);
    put_mark(cell, c);
}

/// Turns a blank into a space (U+0020) with the same attributes; leaves any other cell unchanged.
fn fill_blank(cell: &mut Cell)
    ensures { cell.new ≡ cell_as_glyph cell.old }
{
    if is_blank(cell) {
        *cell = space(attrs(cell));
    }
}

/// Adds a combining character to a glyph, or leaves the glyph unchanged if its text already has
/// [`MARK_LIMIT`] or more bytes.
fn put_mark(cell: &mut Cell, c: char)
    requires glyph { is_blank cell.old ≡ false }
    requires shown { is_right_half cell.old ≡ false }
    requires mark { columns_of c ≡ Some 0 }
    ensures { cell.new ≡ cell_with_mark c cell.old }
{
    let shape = cell.head.shape();
    let len = shape.len();
    if len < MARK_LIMIT {
        let longer = push_char(&mut cell.contents, len, c);
        cell.head = Head::text(longer, shape.wide(), cell.head.attrs());
    }
}

/// Makes a glyph wide or narrow; leaves any other cell unchanged.
///
/// Unless the glyph contains U+FE0F (variation selector 16), the new width must equal the width of
/// the glyph's first character.
pub fn set_wide(cell: &mut Cell, wide: bool)
    requires { IsCell (cell_made_wide wide cell.old) }
    ensures { cell.new ≡ cell_made_wide wide cell.old }
{
    let len = cell.head.shape().len();
    if len > 0 {
        cell.head = Head::text(len, wide, cell.head.attrs());
    }
}

/// Sets the attributes of a blank or a glyph; leaves a continuation cell unchanged.
#[inline]
pub fn set_attrs(cell: &mut Cell, attrs: Attrs)
    ensures { cell.new ≡ cell_with_attrs attrs cell.old }
{
    let shape = cell.head.shape();
    if !shape.is_right_half() {
        cell.head = Head::of(shape, attrs);
    }
}
