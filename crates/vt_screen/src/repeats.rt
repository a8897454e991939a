//! Runs of the same character that are written with REP.
//!
//! REP (CSI `n` `b`) repeats the last printed character `n` times (ECMA-48,
//! 8.3.103). Terminals differ in what they do if the repeated characters do not
//! fit in the row, so a run is written with REP only if it certainly fits. They
//! also differ in whether a combining character joins a glyph that REP printed,
//! so the last character of a run is printed itself if one may follow it.

ghost use Rattle.std.specs.Prelude.{◌≡◌, ◌≢◌, ◌+◌, ◌-◌, ◌<◌, ◌≤◌, ◌++◌, ℕ, List, Some, IfOk, IfSome, IsOk, OnOk, codes, length, max, true};
ghost use Rattle.std.proofs.Common.{IsUtf8};
ghost use Rattle.std.specs.Prelude.{slice_index_or, string_bytes, take};
ghost use Rattle.std.specs.Char.{encode_utf8};
ghost use Rattle.std.specs.List.{AllByRecursion};
ghost use Rattle.vt_cells.specs.Glyph.{columns_of};
ghost use Rattle.vt_cells.specs.Op.{csi};
ghost use Rattle.vt_cells.specs.Refusals.{OnlyOutOfMemory};
ghost use Rattle.vt_redraw.specs.Fits.{IsDrawn};
ghost use Rattle.vt_redraw.specs.Refusals.{RefusedOnlyIfSome};
ghost use Rattle.vt_scan.specs.Internals.{Opens};
ghost use Rattle.vt_scan.specs.Parameters.{table_of};
ghost use Rattle.vt_scan.specs.Texts.{IsParameterText};
ghost use Rattle.vt_screen.specs.MadeOf.{IsOneOf};
ghost use Rattle.vt_screen.specs.Internals.{AppendsRepeating, BeginsRun, BeginsWithVisibility, Finds, IsApart};
ghost use Rattle.vt_screen.specs.Internals.{IsFinalAt, KeepsAgreed, KeepsPieces, KeepsRoom, Skips};
ghost use Rattle.vt_screen.specs.Repeating.{IsNarrow, Repeats, copies, repeat_text};
ghost use Rattle.vt_screen.specs.ShortMoves.{IsAsciiCharacter};
ghost use Rattle.vt_screen.specs.TextResults.{IfText};

use crate::repeat::Repeat;
use std::alloc::Global;
use vt_cells::{Error, Sink, columns};
use vt_scan::Parameters;

/// A run of the same character, and the output before and after it.
#[derive(Clone, Copy)]
pub(crate) struct CharRun<'a> {
    /// The output up to and including the first character of the run.
    front: &'a str,

    /// The number of repetitions of the character, not counting its first occurrence.
    count: u16,

    /// The output after the run.
    back: &'a str,

    /// A lower bound on the number of columns left in the cursor's row after the run.
    room: u16,
}

/// A part of the output that is copied unchanged: characters, a control or an escape sequence.
#[derive(Clone, Copy)]
pub(crate) struct Skipped {
    /// The length of the skipped part, in bytes.
    len: usize,

    /// A lower bound on the number of columns left in the cursor's row after the skipped part.
    room: u16,
}

/// Returns `text`, in which each run of a character that `repeat` allows is written with REP if
/// that is shorter and the run certainly fits in the row. The terminal has `cols` columns, and at
/// least `room` of them are left in the cursor's row.
///
/// # Errors
///
/// Returns `Error::OutOfMemory` if the output cannot be allocated.
pub fn with_repeats(
    alloc: Global,
    text: String,
    repeat: Repeat,
    cols: u16,
    room: u16,
) -> Result<String, Error>
    ensures text { IfText result (Repeats repeat cols room (string_bytes text)) }
    ensures pieces { IfText result (KeepsPieces (string_bytes text)) }
    ensures agrees { IfText result (KeepsAgreed cols room (string_bytes text)) }
    ensures memory { OnlyOutOfMemory result }
    ensures nonempty { RefusedOnlyIfSome result (string_bytes text) }
{
    if repeat == Repeat::Never {
        return Ok(text);
    }
    let mut short = String::new(alloc);
    match write_repeating(&mut short, text.as_str(), repeat, cols, room) {
        Ok(true) => Ok(short),
        Ok(false) => Ok(text),
        Err(_) => Err(Error::OutOfMemory),
    }
}

/// Writes `text` with REP in place of each run of characters that `repeat` allows and that REP
/// makes shorter, and returns `true`. If there is no such run, writes nothing and returns `false`.
/// The terminal has `cols` columns, and at least `room` of them are left in the cursor's row.
fn write_repeating<S: Sink>(
    sink: &mut S,
    text: &str,
    repeat: Repeat,
    cols: u16,
    room: u16,
) -> Result<bool, S::Error>
    ensures repeats { IfOk result (λ wrote. wrote ≡ true
        → AppendsRepeating repeat (S.text sink.old) (S.text sink.new) cols room text.now) }
    ensures nonempty { length text.now ≡ 0 → IsOk result }
{
    let mut rest = text;
    let mut left = room;
    while let Some(run) = find_run(rest, repeat, cols, left) {
        sink.write_str(run.front)?;
        write_repeat(sink, run.count)?;
        rest = run.back;
        left = run.room;
    }
    if rest.len() == text.len() {
        return Ok(false);
    }
    sink.write_str(rest)?;
    Ok(true)
}

/// Writes the control sequence that repeats the last character `count` times (REP).
fn write_repeat<S: Sink>(sink: &mut S, count: u16) -> Result<(), S::Error>
    ensures { OnOk result (S.text sink.new ≡ S.text sink.old ++ repeat_text count) }
{
    sink.write_str("\x1b[")?;
    let mut buffer = itoa::Buffer::new();
    sink.write_str(buffer.format(count))?;
    sink.write_str("b")
}

/// Returns the first run in `text` of a character that `repeat` allows, if the run is shorter with
/// REP. Returns `None` if the search reaches the end of `text`, or an element that this module does
/// not recognize, without finding such a run. The terminal has `cols` columns, and at least `room`
/// of them are left in the cursor's row.
fn find_run(text: &str, repeat: Repeat, cols: u16, room: u16) -> Option<CharRun<'_>>
    ensures { IfSome result (λ run.
        Finds repeat cols room text.now run.front.now run.count run.room run.back.now) }
{
    let mut at = 0;
    let mut left = room;
    while at < text.len() {
        let rest = text.get(at..)?;
        if let Some(run) = first_run(rest, repeat, left) {
            let front = text.get(..at + run.front.len())?;
            return Some(CharRun { front, ..run });
        }
        let skipped = skip(rest, cols, left)?;
        at += skipped.len;
        left = skipped.room;
    }
    None
}

/// Returns the run of a repeated character at the beginning of `text` if `repeat` allows the
/// character and the run is shorter with REP, otherwise `None`. `room` is a lower bound on the
/// number of columns left in the cursor's row, and a longer run is cut to that many columns.
#[inline(always)]
fn first_run(text: &str, repeat: Repeat, room: u16) -> Option<CharRun<'_>>
    requires { 0 < length text.now }
    ensures { IfSome result (λ run.
        BeginsRun repeat room text.now run.front.now run.count run.room run.back.now) }
{
    if may_repeat(text.as_bytes()) {
        repeated(text, repeat, room)
    } else {
        None
    }
}

/// Returns whether `bytes` may begin with a run that REP shortens. This quick test compares only
/// the first and last bytes of the first character with those of the character that would end the
/// shortest such run (see [`fewest`]).
#[inline(always)]
fn may_repeat(bytes: &[u8]) -> bool
    requires { 0 < length bytes.now }
{
    let len = match bytes[0] {
        0x20..=0x7E => 1,
        0xC2..=0xDF => 2,
        0xE0..=0xEF => 3,
        0xF0..=0xF4 => 4,
        _ => return false,
    };
    let far = len * usize::from(fewest(len));
    far + len <= bytes.len() && bytes[0] == bytes[far] && bytes[len - 1] == bytes[far + len - 1]
}

/// Returns the smallest number of repetitions for which REP is shorter than the
/// repeated characters, which have `len` bytes each.
#[inline(always)]
fn fewest(len: usize) -> u16
    ensures { (n c : ℕ) → result ≤ n → n < 65536 → length (encode_utf8 c) ≡ len
        → length (repeat_text n) < length (copies n c) }
{
    match len {
        0 | 1 => 5,
        2 => 3,
        _ => 2,
    }
}

/// Returns the run of a repeated one-column character at the beginning of `text` if `repeat` allows
/// the character and the run is shorter with REP, otherwise `None`. `room` is a lower bound on the
/// number of columns left in the cursor's row, and a longer run is cut to that many columns.
fn repeated(text: &str, repeat: Repeat, room: u16) -> Option<CharRun<'_>>
    ensures { IfSome result (λ run.
        BeginsRun repeat room text.now run.front.now run.count run.room run.back.now) }
{
    let (character, width) = first_character(text)?;
    if width != 1 || !repeat.allows(character) {
        return None;
    }
    let (front, rest) = text.split_at_checked(character.len_utf8())?;
    let left = room.checked_sub(1)?;
    let (count, back) = apart_copies(rest, character, left);
    if count == 0 || count < fewest(front.len()) {
        return None;
    }
    Some(CharRun {
        front,
        count,
        back,
        room: left - count,
    })
}

/// Returns the first character of `text` and the number of columns that it takes. Returns `None` if
/// `text` is empty or if the character is not printed.
fn first_character(text: &str) -> Option<(char, u8)>
    ensures drawn { IfSome result (λ found. IsDrawn found.0) }
    ensures columns { IfSome result (λ found. columns_of found.0 ≡ Some found.1) }
    ensures first { IfSome result (λ found.
        take (length (encode_utf8 found.0)) text.now ≡ encode_utf8 found.0) }
{
    let character = text.chars().next()?;
    if character == '\u{fffd}' {
        return None;
    }
    let width = columns(character)?;
    Some((character, width))
}

/// Counts up to `most` copies of `character` at the start of `text`. Returns their number and the
/// text after them.
fn skip_copies(text: &str, character: char, most: u16) -> (u16, &str)
    ensures most { result.0 ≤ most }
    ensures whole { text.now ≡ copies result.0 character ++ result.1.now }
    ensures utf8 { IsUtf8 result.1.now }
{
    let mut count = 0;
    let mut rest = text;
    while count < most {
        let Some(tail) = rest.strip_prefix(character) else {
            return (count, rest);
        };
        count += 1;
        rest = tail;
    }
    (count, rest)
}

/// Counts up to `most` copies of `character`, which takes one column, at the start of `text`, but
/// not the last one if what follows may join it. Returns their number and the text after them.
fn apart_copies(text: &str, character: char, most: u16) -> (u16, &str)
    requires narrow { IsNarrow character }
    ensures most { result.0 ≤ most }
    ensures whole { text.now ≡ copies result.0 character ++ result.1.now }
    ensures utf8 { IsUtf8 result.1.now }
    ensures apart { result.0 ≢ 0 → IsApart result.1.now }
{
    let (count, back) = skip_copies(text, character, most);
    if count == 0 || begins_apart(back) {
        return (count, back);
    }
    skip_copies(text, character, count - 1)
}

/// Returns whether `text` is known to begin with neither a combining character nor REP.
#[tactic(auto, using(crate::proofs::PortableRepeats::empty_apart, crate::proofs::PortableRepeats::control_apart))]
fn begins_apart(text: &str) -> bool
    ensures { result ≡ true → IsApart text.now }
{
    let bytes = text.as_bytes();
    if bytes.is_empty() {
        return true;
    }
    if bytes[0] == 0x1B {
        return begins_with_sequence(bytes);
    }
    if bytes[0] < 0x20 {
        return true;
    }
    takes_columns(text)
}

/// Returns whether the first character of `text` is printed in columns of its own.
fn takes_columns(text: &str) -> bool
    ensures { result ≡ true → IsApart text.now }
{
    let Some((_, width)) = first_character(text) else {
        return false;
    };
    width > 0
}

/// Returns whether `bytes` begins with a control sequence that has no private marker, and is not
/// REP.
#[tactic(auto, using(crate::proofs::PortableRepeats::sequence_apart))]
fn begins_with_sequence(bytes: &[u8]) -> bool
    requires nonempty { 0 < length bytes.now }
    requires escape { slice_index_or bytes.now 0 0 ≡ 0x1B }
    ensures { result ≡ true → IsApart bytes.now }
{
    if bytes.len() < 2 || bytes[1] != b'[' {
        return false;
    }
    let Some(last) = final_byte_at(bytes) else {
        return false;
    };
    bytes[last] >= 0x40 && bytes[last] <= 0x7E && bytes[last] != b'b'
}

/// Skips the element at the beginning of `text`: a run of characters, a control or an escape
/// sequence. Returns `None` if this module does not recognize the element. `room` is a lower bound
/// on the number of columns left in the cursor's row, which has `cols` columns.
#[inline(always)]
fn skip(text: &str, cols: u16, room: u16) -> Option<Skipped>
    requires { 0 < length text.now }
    ensures { IfSome result (Skips cols room text.now) }
{
    let bytes = text.as_bytes();
    match bytes[0] {
        0x20..=0x7E => Some(skip_ascii(bytes, room)),
        0x1B => skip_escape(bytes, cols, room),
        b'\r' => Some(Skipped { len: 1, room: cols }),
        b'\n' | 0x08 => Some(Skipped { len: 1, room }),
        b'\t' => Some(Skipped {
            len: 1,
            room: room.saturating_sub(8),
        }),
        0x00..=0x7F => None,
        _ => skip_character(text, room),
    }
}

/// Skips the first byte of `bytes`, which must be printable ASCII, and the printable ASCII
/// characters that follow it, but stops before two equal bytes and before the last byte. `room` is
/// a lower bound on the number of columns left in the cursor's row.
fn skip_ascii(bytes: &[u8], room: u16) -> Skipped
    requires nonempty { 0 < length bytes.now }
    requires ascii { IsAsciiCharacter (slice_index_or bytes.now 0 0) }
    ensures { (cols : ℕ) → Skips cols room bytes.now result }
{
    let len = 1 + single_len(&bytes[1..]);
    let taken = u16::try_from(len).unwrap_or(u16::MAX);
    Skipped {
        len,
        room: room.saturating_sub(taken),
    }
}

/// Returns the number of printable ASCII characters at the beginning of `bytes` that come before
/// the first two equal adjacent bytes and before the last byte.
fn single_len(bytes: &[u8]) -> usize
    ensures inside { result ≤ length bytes.now }
    ensures ascii { AllByRecursion IsAsciiCharacter (take result bytes.now) }
{
    let mut len = 0;
    while len + 1 < bytes.len() && is_ascii_character(bytes[len]) && bytes[len] != bytes[len + 1] {
        len += 1;
    }
    len
}

/// Returns whether `byte` is printable ASCII.
#[inline(always)]
fn is_ascii_character(byte: u8) -> bool
    ensures { result ≡ true → IsAsciiCharacter byte }
{
    byte >= 0x20 && byte < 0x7F
}

/// Skips the non-ASCII character at the beginning of `text`. Returns `None` if the character is not
/// printed. `room` is a lower bound on the number of columns left in the cursor's row. A combining
/// character is counted as two columns, because it may make the glyph before the cursor wide.
fn skip_character(text: &str, room: u16) -> Option<Skipped>
    ensures { IfSome result (λ skipped. (cols : ℕ) → Skips cols room text.now skipped) }
{
    let (character, width) = first_character(text)?;
    let len = character.len_utf8();
    if width == 1 {
        return Some(Skipped {
            len,
            room: room.saturating_sub(1),
        });
    }
    Some(Skipped {
        len,
        room: room.saturating_sub(2),
    })
}

/// Skips the escape or control sequence at the beginning of `bytes`. Returns `None` if this module
/// does not recognize the sequence. The terminal has `cols` columns, and at least `room` of them
/// are left in the cursor's row.
fn skip_escape(bytes: &[u8], cols: u16, room: u16) -> Option<Skipped>
    requires nonempty { 0 < length bytes.now }
    requires escape { slice_index_or bytes.now 0 0 ≡ 0x1B }
    ensures { IfSome result (Skips cols room bytes.now) }
{
    if bytes.len() < 2 {
        return None;
    }
    match bytes[1] {
        b'[' => skip_sequence(bytes, cols, room),
        b'7' => Some(Skipped { len: 2, room }),
        b'8' => Some(Skipped { len: 2, room: 0 }),
        _ => None,
    }
}

/// Skips the control sequence at the beginning of `bytes`. Returns `None` if this module does not
/// recognize the sequence. The terminal has `cols` columns, and at least `room` of them are left in
/// the cursor's row.
fn skip_sequence(bytes: &[u8], cols: u16, room: u16) -> Option<Skipped>
    requires { Opens bytes.now }
    ensures { IfSome result (Skips cols room bytes.now) }
{
    let last = final_byte_at(bytes)?;
    if keeps_column(bytes[last]) {
        return Some(Skipped {
            len: last + 1,
            room,
        });
    }
    skip_movement(bytes, cols, room)
}

/// Returns the index of the first byte after the parameter bytes of the control sequence at the
/// beginning of `bytes`, or `None` if there is no such byte.
fn final_byte_at(bytes: &[u8]) -> Option<usize>
    requires { Opens bytes.now }
    ensures { IfSome result (IsFinalAt bytes.now) }
{
    let mut last = 2;
    while last < bytes.len() && bytes[last] >= 0x30 && bytes[last] <= 0x3B {
        last += 1;
    }
    if last < bytes.len() { Some(last) } else { None }
}

/// Skips the control sequence at the beginning of `bytes` if it shows or hides the cursor, or moves
/// it right or to a column (CUF, CHA or CUP). Returns `None` for any other sequence, and if the
/// sequence is incomplete. The terminal has `cols` columns, and at least `room` of them are left in
/// the cursor's row.
fn skip_movement(bytes: &[u8], cols: u16, room: u16) -> Option<Skipped>
    requires { Opens bytes.now }
    ensures { IfSome result (Skips cols room bytes.now) }
{
    if is_visibility(bytes) {
        return Some(Skipped { len: 6, room });
    }
    let mut parameters = Parameters::new();
    let count = parameters.push_all(&bytes[2..]);
    let last = 2 + count;
    if last == bytes.len() {
        return None;
    }
    let after = room_after(bytes[last], &parameters, cols, room)?;
    Some(Skipped {
        len: last + 1,
        room: after,
    })
}

/// Returns whether `bytes` begins with the sequence that shows or hides the
/// cursor.
fn is_visibility(bytes: &[u8]) -> bool
    requires { Opens bytes.now }
    ensures { result ≡ true → BeginsWithVisibility bytes.now }
{
    bytes.len() >= 6
        && bytes[2] == b'?'
        && bytes[3] == b'2'
        && bytes[4] == b'5'
        && (bytes[5] == b'h' || bytes[5] == b'l')
}

/// Returns a lower bound on the number of columns left in the cursor's row after a control sequence
/// that moves the cursor right or to a column, or `None` if this module does not recognize the
/// sequence. The row has `cols` columns, at least `room` of which are left before the sequence.
fn room_after(final_byte: u8, parameters: &Parameters, cols: u16, room: u16) -> Option<u16>
    ensures { IfSome result (λ after. (text : List ℕ) → IsParameterText text → parameters.now ≡ table_of text
        → KeepsRoom cols room after (csi text final_byte)) }
{
    match final_byte {
        b'C' => Some(room.saturating_sub(parameters.number(0).max(1))),
        b'G' => Some(room_from(parameters.number(0), cols)),
        b'H' => Some(room_from(parameters.number(1), cols)),
        _ => None,
    }
}

/// Returns whether a control sequence with this final byte is known to leave the cursor in its
/// column or to move it left.
fn keeps_column(final_byte: u8) -> bool
    ensures { result ≡ true → IsOneOf final_byte (codes "mJKXABDd@PLM") }
{
    match final_byte {
        b'm' | b'J' | b'K' | b'X' | b'A' | b'B' | b'D' | b'd' | b'@' | b'P' | b'L' | b'M' => true,
        _ => false,
    }
}

/// Returns the number of columns from column `number`, counted from 1, to the end of a row of
/// `cols` columns. A `number` of 0 is treated as 1.
fn room_from(number: u16, cols: u16) -> u16
    ensures { result ≡ cols - (max number 1 - 1) }
{
    cols.saturating_sub(number.max(1) - 1)
}
