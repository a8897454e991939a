//! Functions that find the rows of a capture, and its chunks of text outside SGR sequences. A
//! capture is the text of rows with SGR sequences as the only escape sequences.

ghost use Rattle.std.specs.Prelude.{◌≡◌, ◌+◌, ◌<◌, ◌≤◌, ◌↔◌, List, IfSome, IsSome, drop, length};
ghost use Rattle.vt_rows.specs.CaptureRows.{AreRowsOf};
ghost use Rattle.vt_rows.specs.Pieces.{ArePiecesOf, Piece};
ghost use Rattle.vt100_c.specs.Walking.{FindsPlain, FindsRow, IsFirstPiece, IsFirstRow, IsPlace, after_line_end};

use crate::status::{BAD_ARGUMENT, OK};
use std::str;
use vt100::capture::{basic_formatted_rows, basic_formatted_to_plain_indexed};

/// The value that is stored instead of the index of the next row if there is no next row. No
/// capture is long enough for a row to begin at this index.
const NO_PLACE: usize = usize::MAX;

/// Finds the first chunk of text outside SGR sequences in the capture `text`, searching from byte
/// `at` on. Stores the indices of its start and end in `start` and `end`. If there is no such
/// chunk, stores the length of the capture in both `start` and `end`. A capture is the text of rows
/// with SGR sequences as the only escape sequences.
///
/// # Errors
///
/// Returns `BAD_ARGUMENT` if `text` is not valid UTF-8 or `at` is not on a
/// character boundary. On error, nothing is stored.
#[unsafe(no_mangle)]
pub extern "C" fn vt100_next_plain(text: &[u8], at: usize, start: &mut usize, end: &mut usize) -> u8
    ensures status { result ≡ OK ↔ IsPlace text.now at }
    ensures other { ¬ (result ≡ OK) → result ≡ BAD_ARGUMENT }
    ensures refused { ¬ (result ≡ OK) → (start.new ≡ start.old) × (end.new ≡ end.old) }
    ensures piece { result ≡ OK → FindsPlain text.now at start.new end.new }
{
    let Some(rest) = text_from(text, at) else {
        return BAD_ARGUMENT;
    };
    let (first, last) = next_plain(rest, at, text.len());
    *start = first;
    *end = last;
    OK
}

/// Finds the row that begins at byte `at` of the capture `text`, for a terminal that is `width`
/// columns wide. Stores the index of its end in `end` and the index of the next row in `next`. If
/// there is no next row, stores `SIZE_MAX` in `next`. A capture is the text of rows with SGR
/// sequences as the only escape sequences.
///
/// # Errors
///
/// Returns `BAD_ARGUMENT` if `text` is not valid UTF-8 or `at` is not on a
/// character boundary. On error, nothing is stored.
#[unsafe(no_mangle)]
pub extern "C" fn vt100_next_row(
    text: &[u8],
    width: u16,
    at: usize,
    end: &mut usize,
    next: &mut usize,
) -> u8
    ensures status { result ≡ OK ↔ IsPlace text.now at }
    ensures other { ¬ (result ≡ OK) → result ≡ BAD_ARGUMENT }
    ensures refused { ¬ (result ≡ OK) → (end.new ≡ end.old) × (next.new ≡ next.old) }
    ensures row { result ≡ OK → FindsRow text.now width at end.new next.new }
{
    let Some(rest) = text_from(text, at) else {
        return BAD_ARGUMENT;
    };
    let (last, following) = next_row(rest, width, at);
    *end = last;
    *next = following;
    OK
}

/// Returns the part of `text` that starts at byte `at`, or `None` if `text` is not valid UTF-8 or
/// `at` is not on a character boundary.
fn text_from(text: &[u8], at: usize) -> Option<&str>
    ensures is { IsSome result ↔ IsPlace text.now at }
    ensures rest { IfSome result (λ rest. rest.now ≡ drop at text.now) }
    ensures len { IfSome result (λ rest. at + length rest.now ≡ length text.now) }
{
    let Ok(text) = str::from_utf8(text) else {
        return None;
    };
    match text.split_at_checked(at) {
        Some((_, rest)) => Some(rest),
        None => None,
    }
}

/// Returns the start and the end of the first chunk of `text` outside SGR sequences, as indices
/// into the capture. `text` is the part of the capture from byte `at` on, and `stop` is the length
/// of the capture. If there is no such chunk, both indices are `stop`.
fn next_plain(text: &str, at: usize, stop: usize) -> (usize, usize)
    requires { at + length text.now ≤ stop }
    ensures { (pieces : List Piece) × ArePiecesOf text.now pieces
        × IsFirstPiece stop at pieces result.0 result.1 }
{
    let mut pieces = basic_formatted_to_plain_indexed(text);
    match pieces.next() {
        Some((start, piece)) => (at + start, at + start + piece.len()),
        None => (stop, stop),
    }
}

/// Returns the end of the first row of `text` and the start of the next row, as
/// indices into the capture. `text` is the part of the capture from byte `at`
/// on. If there is no next row, the second index is [`NO_PLACE`].
fn next_row(text: &str, width: u16, at: usize) -> (usize, usize)
    requires { at + length text.now < 18446744073709551615 }
    ensures { (rows : List Piece) × AreRowsOf width text.now rows × IsFirstRow at rows result.0 result.1 }
{
    let mut rows = basic_formatted_rows(text, width);
    let Some(row) = rows.next() else {
        return (at, NO_PLACE);
    };
    match rows.next() {
        Some(_) => (
            at + row.len(),
            at + after_line_end(text.as_bytes(), row.len()),
        ),
        None => (at + row.len(), NO_PLACE),
    }
}

/// Returns the index after the line feed at `end`, or `end` if there is none.
fn after_line_end(text: &[u8], end: usize) -> usize
    ensures value { result ≡ after_line_end text.now end }
    ensures inside { end ≤ length text.now → result ≤ length text.now }
{
    if end < text.len() && text[end] == b'\n' {
        end + 1
    } else {
        end
    }
}
