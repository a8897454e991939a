//! Functions that create cells.

ghost use Rattle.std.specs.Prelude.{◌≡◌, ◌≢◌, ◌<◌, ◌≤◌, ◌++◌, ◌+◌, ◌%◌, [], ◌∷◌, ℕ};
ghost use Rattle.std.specs.Prelude.{length, slice_index, take, false, Some, if◌then◌else◌, encode_utf8};
ghost use Rattle.vt_cells.specs.Attrs.{default_attrs};
ghost use Rattle.vt_cells.specs.Cell.{blank, glyph, right_half};
ghost use Rattle.vt_cells.specs.Glyph.{columns_of};

use super::{Cell, MARK_LIMIT, TEXT_ROOM};
use crate::attrs::Attrs;
use crate::head::Head;

/// Creates a blank with default attributes.
#[inline]
pub fn default_blank() -> Cell
    ensures { result ≡ blank default_attrs }
{
    blank(Attrs::new())
}

/// Creates a blank with the given attributes.
#[inline]
pub fn blank(attrs: Attrs) -> Cell
    ensures { result ≡ blank attrs }
{
    Cell {
        head: Head::text(0, false, attrs),
        contents: [0; TEXT_ROOM],
    }
}

/// Creates a continuation cell, which has default attributes and no text.
#[inline]
pub fn right_half() -> Cell
    ensures { result ≡ right_half }
{
    Cell {
        head: Head::right_half(),
        contents: [0; TEXT_ROOM],
    }
}

/// Creates a glyph of one character, which takes two columns if `wide` is true, otherwise one.
///
/// `wide` must agree with the width that [`columns`](crate::columns) returns for `c`. `c` must not
/// be U+FFFD, which is never drawn.
#[inline]
pub fn glyph(c: char, wide: bool, attrs: Attrs) -> Cell
    requires reported { c ≢ 0xFFFD }
    requires columns { columns_of c ≡ Some (if wide then 2 else 1) }
    ensures { result ≡ glyph (encode_utf8 c) wide attrs }
{
    let mut contents = [0; TEXT_ROOM];
    let len = push_char(&mut contents, 0, c);
    Cell {
        head: Head::text(len, wide, attrs),
        contents,
    }
}

/// Creates the narrow glyph for `byte`, which must be printable ASCII.
#[inline(always)]
pub fn ascii(byte: u8, attrs: Attrs) -> Cell
    requires low { 0x20 ≤ byte }
    requires high { byte < 0x7F }
    ensures { result ≡ glyph (encode_utf8 byte) false attrs }
{
    let mut contents = [0; TEXT_ROOM];
    let len = push_byte(&mut contents, 0, byte);
    Cell {
        head: Head::text(len, false, attrs),
        contents,
    }
}

/// Creates a space: a glyph whose text is U+0020.
#[inline]
pub fn space(attrs: Attrs) -> Cell
    ensures { result ≡ glyph (0x20 ∷ []) false attrs }
{
    ascii(b' ', attrs)
}

/// Appends the UTF-8 encoding of `c` (Unicode Standard, section 3.9, Table 3-6) to the text in the
/// first `len` bytes of `contents`. Returns the new length of the text.
#[inline]
pub(super) fn push_char(contents: &mut [u8; TEXT_ROOM], len: u8, c: char) -> u8
    requires { len < MARK_LIMIT }
    ensures text { take result contents.new ≡ take len contents.old ++ encode_utf8 c }
    ensures len { result ≡ len + length (encode_utf8 c) }
    ensures fits { result ≤ TEXT_ROOM }
    ensures rest { (k : ℕ) → result ≤ k
        → slice_index contents.new k ≡ slice_index contents.old k }
{
    let code = c as u32;
    if code < 0x80 {
        push_byte(contents, len, code as u8)
    } else if code < 0x800 {
        let lead = push_byte(contents, len, (0xC0 + code / 64) as u8);
        push_byte(contents, lead, low_bits(code))
    } else if code < 0x1_0000 {
        let lead = push_byte(contents, len, (0xE0 + code / 4096) as u8);
        let second = push_byte(contents, lead, low_bits(code / 64));
        push_byte(contents, second, low_bits(code))
    } else {
        let lead = push_byte(contents, len, (0xF0 + code / 262_144) as u8);
        let second = push_byte(contents, lead, low_bits(code / 4096));
        let third = push_byte(contents, second, low_bits(code / 64));
        push_byte(contents, third, low_bits(code))
    }
}

/// Appends `byte` to the text in the first `len` bytes of `contents`. Returns the new length of the
/// text.
#[inline]
fn push_byte(contents: &mut [u8; TEXT_ROOM], len: u8, byte: u8) -> u8
    requires { len < TEXT_ROOM }
    ensures text { take result contents.new ≡ take len contents.old ++ byte ∷ [] }
    ensures len { result ≡ len + 1 }
    ensures rest { (k : ℕ) → result ≤ k
        → slice_index contents.new k ≡ slice_index contents.old k }
{
    contents[usize::from(len)] = byte;
    len + 1
}

/// Returns the UTF-8 continuation byte that encodes the low six bits of `bits`.
#[inline]
fn low_bits(bits: u32) -> u8
    ensures { result ≡ 0x80 + bits % 64 }
{
    (0x80 + bits % 64) as u8
}
