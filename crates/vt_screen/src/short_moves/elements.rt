//! The elements of drawing output, in the form that the writers of `vt_redraw` produce.

ghost use Rattle.std.specs.Prelude.{◌≡◌, ◌<◌, ◌≤◌, ◌++◌, ◌∷◌, [], IfSome, IsTrue, decimal, length, take, slice_index_or};
ghost use Rattle.std.specs.List.{AllByRecursion};
ghost use Rattle.vt_cells.specs.Op.{counted};
ghost use Rattle.vt_redraw.specs.Fits.{IsDrawn};
ghost use Rattle.vt_screen.specs.ShortMoves.{IsAsciiCharacter, IsElement, IsSgrText, IsWantedNext, is_movement, is_still};

use crate::sgr::{Reading, Wanted};
use vt_cells::{Pos, columns};

/// The maximum number of parameters in an SGR sequence that is recognized as an element.
const MOST_NUMBERS: u8 = 32;

/// A unit of drawing output: a run of characters, a control or a control sequence.
#[derive(Clone, Copy, PartialEq, Eq, Debug)]
pub enum Element {
    /// A run of printable ASCII characters.
    Ascii,

    /// A printed character that is not ASCII.
    Other(char),

    /// A cursor movement to the given position (CUP).
    Place(Pos),

    /// A cursor movement to the right by the given number of columns (CUF).
    Right(u16),

    /// A cursor movement to the first column of the next row (CR LF).
    NextRow,

    /// An erasure from the cursor to the end of the row (EL without a parameter).
    EraseRest,

    /// An erasure of the given number of columns, beginning at the cursor (ECH).
    EraseChars(u16),

    /// An insertion (IL) of the given number of rows if the flag is `true`, otherwise a deletion
    /// (DL) of that many rows.
    Lines(u16, bool),

    /// An insertion (ICH) of the given number of columns in the cursor's row if the flag is `true`,
    /// otherwise a deletion (DCH) of that many columns.
    Chars(u16, bool),

    /// The sequence that hides the cursor if the flag is `true`, or shows it otherwise (DECTCEM).
    Hide(bool),

    /// A reset of all attributes (SGR without a parameter).
    ClearAttrs,

    /// A change of attributes (SGR with parameters).
    Attrs,
}

impl Element {
    /// Returns whether the element does nothing but move the cursor.
    #[inline]
    pub fn is_movement(self) -> bool
        ensures { result ≡ is_movement self }
    {
        matches!(
            self,
            Element::Place(_) | Element::Right(_) | Element::NextRow
        )
    }

    /// Returns whether the element leaves the cursor where it is.
    pub fn is_still(self) -> bool
        ensures { result ≡ is_still self }
    {
        match self {
            Element::EraseRest
            | Element::EraseChars(_)
            | Element::Lines(_, _)
            | Element::Chars(_, _)
            | Element::Hide(_)
            | Element::ClearAttrs
            | Element::Attrs => true,
            _ => false,
        }
    }
}

/// Returns the first element of `text` and its length in bytes, or `None` if `text` does not begin
/// with an element.
pub fn first_element(text: &str) -> Option<(Element, usize)>
    ensures nonempty { IfSome result (λ found. 0 < found.1) }
    ensures inside { IfSome result (λ found. found.1 ≤ length text.now) }
    ensures element { IfSome result (λ found. IsElement found.0 (take found.1 text.now)) }
{
    let bytes = text.as_bytes();
    if bytes.is_empty() {
        return None;
    }
    match bytes[0] {
        0x1B => sequence(bytes),
        b'\r' => next_row(bytes),
        0x20..=0x7E => Some((Element::Ascii, ascii_len(bytes))),
        0x00..=0x7F => None,
        _ => other_character(text),
    }
}

/// Returns the number of bytes of printable ASCII at the beginning of `bytes`.
fn ascii_len(bytes: &[u8]) -> usize
    ensures inside { result ≤ length bytes.now }
    ensures ascii { AllByRecursion IsAsciiCharacter (take result bytes.now) }
    ensures first { 0 < length bytes.now → IsAsciiCharacter (slice_index_or bytes.now 0 0) → 0 < result }
{
    let mut len = 0;
    while len < bytes.len() && bytes[len] >= 0x20 && bytes[len] < 0x7F {
        len += 1;
    }
    len
}

/// Returns [`Element::NextRow`] and its length in bytes if `bytes` begins with CR LF, otherwise
/// `None`.
fn next_row(bytes: &[u8]) -> Option<(Element, usize)>
    ensures nonempty { IfSome result (λ found. 0 < found.1) }
    ensures inside { IfSome result (λ found. found.1 ≤ length bytes.now) }
    ensures element { IfSome result (λ found. IsElement found.0 (take found.1 bytes.now)) }
{
    if bytes.len() >= 2 && bytes[0] == b'\r' && bytes[1] == b'\n' {
        Some((Element::NextRow, 2))
    } else {
        None
    }
}

/// Returns the first character of `text` as an element, and its length in bytes. Returns `None` if
/// `text` is empty, or if the character is ASCII or is not printed.
fn other_character(text: &str) -> Option<(Element, usize)>
    ensures nonempty { IfSome result (λ found. 0 < found.1) }
    ensures inside { IfSome result (λ found. found.1 ≤ length text.now) }
    ensures element { IfSome result (λ found. IsElement found.0 (take found.1 text.now)) }
{
    let mut chars = text.chars();
    let c = chars.next()?;
    if c < '\u{a0}' || !is_drawn(c) {
        return None;
    }
    Some((Element::Other(c), c.len_utf8()))
}

/// Returns whether a terminal prints `c` or adds it to the glyph before the cursor. Every character
/// from U+0100 on takes a known number of columns, so the width table need not be searched for it.
#[inline]
#[tactic(auto, using(crate::proofs::ReadCharacters::columns_some))]
fn is_drawn(c: char) -> bool
    ensures { IsTrue result → IsDrawn c }
{
    c != '\u{fffd}' && (c >= '\u{100}' || columns(c).is_some())
}

/// Returns the element and the length in bytes of the control sequence at the beginning of `bytes`.
/// Returns `None` if there is no such sequence, or if it is not an element.
fn sequence(bytes: &[u8]) -> Option<(Element, usize)>
    ensures nonempty { IfSome result (λ found. 0 < found.1) }
    ensures inside { IfSome result (λ found. found.1 ≤ length bytes.now) }
    ensures element { IfSome result (λ found. IsElement found.0 (take found.1 bytes.now)) }
{
    if bytes.len() < 3 || bytes[0] != 0x1B || bytes[1] != b'[' {
        return None;
    }
    match bytes[2] {
        b'?' => hide(bytes),
        b'0'..=b'9' => numbered_sequence(bytes),
        last => {
            let element = short_sequence(last)?;
            Some((element, 3))
        }
    }
}

/// Returns the element whose control sequence has no parameters and ends with `last`, or `None` if
/// there is no such element.
fn short_sequence(last: u8) -> Option<Element>
    ensures { IfSome result (λ element. IsElement element (0x1B ∷ 0x5B ∷ last ∷ [])) }
{
    match last {
        b'm' => Some(Element::ClearAttrs),
        b'K' => Some(Element::EraseRest),
        b'H' => Some(Element::Place(Pos { row: 0, col: 0 })),
        _ => counted_sequence(1, last),
    }
}

/// Returns the element whose control sequence has the single parameter `count` (omitted if it is 1)
/// and ends with `last`, or `None` if there is no such element. `count` must not be 0.
fn counted_sequence(count: u16, last: u8) -> Option<Element>
    requires { 0 < count }
    ensures { IfSome result (λ element. IsElement element (counted count last)) }
{
    match last {
        b'C' => Some(Element::Right(count)),
        b'X' => Some(Element::EraseChars(count)),
        b'L' => Some(Element::Lines(count, true)),
        b'M' => Some(Element::Lines(count, false)),
        b'@' => Some(Element::Chars(count, true)),
        b'P' => Some(Element::Chars(count, false)),
        _ => None,
    }
}

/// Returns [`Element::Hide`] and its length in bytes if `bytes` begins with the sequence that hides
/// or shows the cursor, otherwise `None`.
fn hide(bytes: &[u8]) -> Option<(Element, usize)>
    ensures nonempty { IfSome result (λ found. 0 < found.1) }
    ensures inside { IfSome result (λ found. found.1 ≤ length bytes.now) }
    ensures element { IfSome result (λ found. IsElement found.0 (take found.1 bytes.now)) }
{
    match bytes {
        [0x1B, b'[', b'?', b'2', b'5', b'l', ..] => Some((Element::Hide(true), 6)),
        [0x1B, b'[', b'?', b'2', b'5', b'h', ..] => Some((Element::Hide(false), 6)),
        _ => None,
    }
}

/// Returns the element and the length in bytes of the control sequence with numeric parameters at
/// the beginning of `bytes`, or `None` if there is no such element. `bytes` must begin with
/// `ESC [`.
fn numbered_sequence(bytes: &[u8]) -> Option<(Element, usize)>
    requires long { 2 ≤ length bytes.now }
    requires introduced { take 2 bytes.now ≡ 0x1B ∷ 0x5B ∷ [] }
    ensures nonempty { IfSome result (λ found. 0 < found.1) }
    ensures inside { IfSome result (λ found. found.1 ≤ length bytes.now) }
    ensures element { IfSome result (λ found. IsElement found.0 (take found.1 bytes.now)) }
{
    let parameters = &bytes[2..];
    let (element, len) = numbered(parameters)?;
    Some((element, len + 2))
}

/// Parses the parameters and the final byte of a control sequence. `bytes` begins directly after
/// the `ESC [` of the sequence. Returns the element and the number of bytes parsed, or `None` if
/// the sequence is not an element.
fn numbered(bytes: &[u8]) -> Option<(Element, usize)>
    ensures inside { IfSome result (λ found. found.1 ≤ length bytes.now) }
    ensures element { IfSome result (λ found. IsElement found.0 (0x1B ∷ 0x5B ∷ take found.1 bytes.now)) }
{
    let (first, len) = number(bytes)?;
    if len >= bytes.len() {
        return None;
    }
    match bytes[len] {
        b'm' => {
            wanted_next(Wanted::Any, first)?;
            Some((Element::Attrs, len + 1))
        }
        b';' => several_numbers(bytes, first, len),
        last if first >= 2 => {
            let element = counted_sequence(first, last)?;
            Some((element, len + 1))
        }
        _ => None,
    }
}

/// Parses the parameters and the final byte of a control sequence with several parameters, at the
/// beginning of `bytes`. The first parameter is `first`, and a `;` follows its `len` digits. Returns
/// the element and the number of bytes parsed, or `None` if the sequence is not an element.
fn several_numbers(bytes: &[u8], first: u16, len: usize) -> Option<(Element, usize)>
    requires inside { len < length bytes.now }
    requires digits { take len bytes.now ≡ decimal first }
    requires separator { slice_index_or bytes.now len 0 ≡ 0x3B }
    ensures inside { IfSome result (λ found. found.1 ≤ length bytes.now) }
    ensures element { IfSome result (λ found. IsElement found.0 (0x1B ∷ 0x5B ∷ take found.1 bytes.now)) }
{
    let rest = &bytes[len + 1..];
    if ends_with_h(rest) {
        let (pos, more) = place(first, rest)?;
        return Some((Element::Place(pos), len + 1 + more));
    }
    let len = sgr_len(bytes, first, len)?;
    Some((Element::Attrs, len + 1))
}

/// Returns whether an `H` follows the digits at the beginning of `bytes`. Only CUP ends like this,
/// so that no number of an SGR sequence is parsed twice.
fn ends_with_h(bytes: &[u8]) -> bool {
    for &byte in bytes {
        if !byte.is_ascii_digit() {
            return byte == b'H';
        }
    }
    false
}

/// Returns the position in a CUP sequence and the number of bytes read. The first parameter is
/// `row`; the second parameter and the final byte are at the beginning of `bytes`. Returns `None`
/// if `bytes` does not complete a CUP sequence, if a parameter is 0, or if both are 1.
fn place(row: u16, bytes: &[u8]) -> Option<(Pos, usize)>
    ensures inside { IfSome result (λ found. found.1 ≤ length bytes.now) }
    ensures element { IfSome result (λ found.
        IsElement (Element.Place found.0) (0x1B ∷ 0x5B ∷ (decimal row ++ 0x3B ∷ take found.1 bytes.now))) }
{
    let (col, len) = number(bytes)?;
    if row == 0 || col == 0 || (row == 1 && col == 1) {
        return None;
    }
    if len >= bytes.len() || bytes[len] != b'H' {
        return None;
    }
    let pos = Pos {
        row: row - 1,
        col: col - 1,
    };
    Some((pos, len + 1))
}

/// Returns the length, in bytes, of the SGR parameters at the beginning of `bytes`, without the
/// final byte `m`. The first parameter is `first`, and a `;` follows its `len` digits. Returns `None`
/// if there are more than [`MOST_NUMBERS`] parameters, if one of them is missing, has a leading zero,
/// is above 65535 or is unknown, or if no `m` follows them.
fn sgr_len(bytes: &[u8], first: u16, len: usize) -> Option<usize>
    requires inside { len < length bytes.now }
    requires digits { take len bytes.now ≡ decimal first }
    requires separator { slice_index_or bytes.now len 0 ≡ 0x3B }
    ensures inside { IfSome result (λ len. len < length bytes.now) }
    ensures last { IfSome result (λ len. slice_index_or bytes.now len 0 ≡ 0x6D) }
    ensures text { IfSome result (λ len. IsSgrText 32 Wanted.Any (take len bytes.now)) }
{
    let mut wanted = wanted_next(Wanted::Any, first)?;
    let mut end = len + 1;
    for _number in 1..MOST_NUMBERS {
        let (value, digits) = number(&bytes[end..])?;
        wanted = wanted_next(wanted, value)?;
        end += digits;
        if end >= bytes.len() {
            return None;
        }
        match bytes[end] {
            b'm' => return Some(end),
            b';' => end += 1,
            _ => return None,
        }
    }
    None
}

/// Returns how the number after `number` in an SGR sequence is interpreted, or `None` if `number`
/// is unknown. `number` itself is interpreted as `wanted` specifies. Most numbers are handled
/// without a lookup in the SGR table.
#[inline]
fn wanted_next(wanted: Wanted, number: u16) -> Option<Wanted>
    ensures { IfSome result (IsWantedNext wanted number) }
{
    if is_palette_number(wanted, number) {
        return Some(Wanted::Any);
    }
    let read = wanted.read(&[number]);
    if read.reading == Reading::Unhandled {
        return None;
    }
    Some(read.wanted)
}

/// Returns whether `wanted` is [`Wanted::Any`] and `number` selects one of the first 16 colors of
/// the palette.
#[inline]
#[tactic(auto, using(crate::proofs::ReadTexts::foreground_known, crate::proofs::ReadTexts::background_known, crate::proofs::ReadTexts::bright_known, crate::proofs::ReadTexts::bright_background_known))]
fn is_palette_number(wanted: Wanted, number: u16) -> bool
    ensures { IsTrue result → IsWantedNext wanted number Wanted.Any }
{
    matches!(wanted, Wanted::Any) && matches!(number, 30..=37 | 40..=47 | 90..=97 | 100..=107)
}

/// Returns the decimal number at the beginning of `bytes`, and the number of its digits. A leading
/// 0 is a number by itself, whatever follows it. Returns `None` if `bytes` does not begin with a
/// digit, or if the number is above 65535.
#[tactic(auto, using(crate::proofs::ReadTexts::number_first, crate::proofs::ReadTexts::number_next))]
fn number(bytes: &[u8]) -> Option<(u16, usize)>
    ensures inside { IfSome result (λ found. found.1 ≤ length bytes.now) }
    ensures digits { IfSome result (λ found. take found.1 bytes.now ≡ decimal found.0) }
    ensures some { IfSome result (λ found. 0 < found.1) }
{
    if bytes.is_empty() || bytes[0] < b'0' || bytes[0] > b'9' {
        return None;
    }
    let mut value = u32::from(bytes[0] - b'0');
    let mut len = 1;
    while value > 0 && len < bytes.len() && bytes[len] >= b'0' && bytes[len] <= b'9' {
        value = value * 10 + u32::from(bytes[len] - b'0');
        len += 1;
        if value > 0xFFFF {
            return None;
        }
    }
    match u16::try_from(value) {
        Ok(value) => Some((value, len)),
        Err(_) => None,
    }
}
