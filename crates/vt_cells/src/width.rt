//! The width of a character: the number of columns that it takes on the screen.

ghost use Rattle.std.specs.Prelude.{◌≡◌, IsTrue, Some};
ghost use Rattle.vt_cells.specs.Glyph.{columns_of};

use unicode_width::UnicodeWidthChar;

/// Returns the number of columns that a character takes, from 0 to 2, or `None` for a control
/// character (UAX #11).
///
/// If `unicode_width` returns more than two columns for a character, the character takes two
/// columns. If it returns `None` for a character at or above U+0100, the character takes one
/// column.
#[inline]
pub fn columns(c: char) -> Option<u8>
    ensures { result ≡ columns_of c }
{
    let code = c as u32;
    if code >= 0x20 && code < 0x7F {
        return Some(1);
    }
    if is_ideograph(code) {
        return Some(2);
    }
    if is_diacritic(code) {
        return Some(0);
    }
    match c.width() {
        Some(width) => Some(width.min(2) as u8),
        None => if code < 0x100 { None } else { Some(1) },
    }
}

/// Returns whether `code` is in one of a few common blocks in which every character takes two
/// columns. For such a character, the width table need not be searched.
///
/// The blocks are U+3250 to U+A48C (enclosed characters, ideographs and Yi syllables), and the main
/// ranges of CJK punctuation, Hiragana, Katakana and Hangul. The first block is tested first
/// because its characters are the most frequent. Wide characters also exist outside these blocks.
#[inline]
#[tactic(auto, using(crate::proofs::Glyphs::blocks_wide))]
fn is_ideograph(code: u32) -> bool
    ensures { IsTrue result → columns_of code ≡ Some 2 }
{
    if code >= 0x3250 && code <= 0xA48C {
        return true;
    }
    if code > 0xA48C {
        return matches!(code, 0xAC00..=0xD7A3);
    }
    matches!(code, 0x3000..=0x3029 | 0x3041..=0x3096 | 0x309B..=0x30FF)
}

/// Returns whether `code` is one of the most frequent combining characters, U+0300 to U+0337, which
/// take no columns. For such a character, the width table need not be searched.
#[inline]
#[tactic(auto, using(crate::proofs::Glyphs::diacritics))]
fn is_diacritic(code: u32) -> bool
    ensures { IsTrue result → columns_of code ≡ Some 0 }
{
    matches!(code, 0x300..=0x337)
}
