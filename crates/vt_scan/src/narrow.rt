//! Functions that decode runs of narrow characters.

ghost use Rattle.std.specs.Prelude.{◌≡◌, ◌≤◌, ◌<◌, ◌∷◌, [], IfSome, IsTrue, Some, length, slice_index_or, take};
ghost use Rattle.vt_cells.specs.Glyph.{columns_of};
ghost use Rattle.vt_scan.specs.Texts.{AreNarrow, IsNarrowCoded};
ghost use Rattle.vt_scan.specs.Scanner.{IsPrintableByte};

use crate::unfinished::{join_three, join_two, may_be_second, may_continue};
use vt_cells::columns;

/// Decodes the narrow characters below U+3000 at the start of `bytes` into `text`, as many as fit.
/// Stops before three or more ASCII characters in a row and before an ASCII character in the last
/// two bytes. Returns the number of characters decoded and the number of bytes that they take.
#[inline]
pub fn narrow_characters(bytes: &[u8], text: &mut [char]) -> (usize, usize)
    ensures same { length text.new ≡ length text.old }
    ensures room { result.0 ≤ length text.new }
    ensures inside { result.1 ≤ length bytes.now }
    ensures narrow { AreNarrow (take result.1 bytes.now) (take result.0 text.new) }
{
    let count = text.len();
    let mut done = 0;
    let mut at = 0;
    while done < count {
        let Some((c, len)) = narrow_character(&bytes[at..]) else {
            return (done, at);
        };
        text[done] = c;
        done += 1;
        at += len;
    }
    (done, at)
}

/// Decodes the narrow character below U+3000 at the start of `bytes`. Returns the character and its
/// length in bytes, or `None` if there is no such character. An ASCII character is decoded only if
/// at least one of the next two bytes is not ASCII (see [`is_between`]).
#[inline(always)]
fn narrow_character(bytes: &[u8]) -> Option<(char, usize)>
    ensures inside { IfSome result (λ found. found.1 ≤ length bytes.now) }
    ensures narrow { IfSome result (λ found. AreNarrow (take found.1 bytes.now) (found.0 ∷ [])) }
{
    if bytes.is_empty() {
        return None;
    }
    let first = bytes[0];
    if first >= 0x80 {
        return narrow_coded(bytes);
    }
    if is_between(bytes) {
        Some((char::from(first), 1))
    } else {
        None
    }
}

/// Returns whether `bytes` starts with a printable ASCII character followed by at least two bytes,
/// the first or second of which is not ASCII. Three or more ASCII characters in a row end a run of
/// narrow characters, because they are cheaper to print as a run of their own.
#[inline(always)]
fn is_between(bytes: &[u8]) -> bool
    requires { 0 < length bytes.now }
    ensures { IsTrue result → IsPrintableByte (slice_index_or bytes.now 0 0) }
{
    bytes.len() > 2 && bytes[0] >= 0x20 && bytes[0] < 0x7F && (bytes[1] >= 0x80 || bytes[2] >= 0x80)
}

/// Decodes the narrow character from U+0080 to U+2FFF at the start of `bytes`. Returns the
/// character and its length in bytes, or `None` if there is no such character.
#[inline(always)]
fn narrow_coded(bytes: &[u8]) -> Option<(char, usize)>
    ensures inside { IfSome result (λ found. found.1 ≤ length bytes.now) }
    ensures coded { IfSome result (λ found. IsNarrowCoded (take found.1 bytes.now) found.0) }
{
    if bytes.len() < 2 {
        return None;
    }
    if bytes[0] < 0xE0 {
        let c = narrow_two(bytes[0], bytes[1])?;
        return Some((c, 2));
    }
    if bytes.len() < 3 {
        return None;
    }
    let c = narrow_three(bytes[0], bytes[1], bytes[2])?;
    Some((c, 3))
}

/// Decodes the two-byte character with the bytes `a` and `b`. Returns `None` unless the character
/// is valid and takes one column.
#[tactic(auto, using(crate::proofs::Characters::coded_two, crate::proofs::Characters::whole_two))]
#[inline(always)]
fn narrow_two(a: u8, b: u8) -> Option<char>
    ensures { IfSome result (IsNarrowCoded (a ∷ b ∷ [])) }
{
    if a < 0xC2 || a > 0xDF || !may_continue(b) {
        return None;
    }
    let found = join_two(a, b);
    if is_narrow(found) { Some(found) } else { None }
}

/// Decodes the three-byte character with the bytes `a`, `b` and `c`. Returns `None` unless the
/// character is valid, is below U+3000 and takes one column.
#[tactic(auto, using(crate::proofs::Characters::coded_three, crate::proofs::Characters::whole_three))]
#[inline(always)]
fn narrow_three(a: u8, b: u8, c: u8) -> Option<char>
    ensures { IfSome result (IsNarrowCoded (a ∷ b ∷ c ∷ [])) }
{
    if a < 0xE0 || a > 0xE2 || !may_be_second(a, b) || !may_continue(c) {
        return None;
    }
    let found = join_three(a, b, c);
    if is_narrow(found) { Some(found) } else { None }
}

/// Returns whether a character takes one column. Characters in the most frequent blocks are
/// recognized without a table lookup.
#[inline(always)]
fn is_narrow(c: char) -> bool
    ensures { IsTrue result → columns_of c ≡ Some 1 }
{
    if is_in_block(c as u32) {
        return true;
    }
    match columns(c) {
        Some(1) => true,
        _ => false,
    }
}

/// Returns whether `code` is in one of the common ranges in which every character takes one column:
/// Latin, Greek and Cyrillic letters, box drawing and block elements.
#[inline(always)]
#[tactic(auto, using(crate::proofs::Characters::blocks_narrow))]
fn is_in_block(code: u32) -> bool
    ensures { IsTrue result → columns_of code ≡ Some 1 }
{
    matches!(code, 0xA0..=0xAC | 0xAE..=0x2FF | 0x370..=0x482 | 0x48A..=0x52F | 0x2500..=0x259F)
}
