//! The plain text of a capture.

ghost use Rattle.std.specs.Prelude.{◌≡◌, ◌+◌, ◌-◌, ◌≤◌, ◌<◌, ◌++◌, ℕ, List, length};
ghost use Rattle.std.specs.Iterator.{YieldsFirstBy, YieldsFirstRef, item_count};
ghost use Rattle.std.specs.List.{concat};
ghost use Rattle.vt_rows.specs.Internals.{piece_at, pieces_from, pieces_within};
ghost use Rattle.vt_rows.specs.Pieces.{ArePiecesOf, Piece, texts_of, without_stretches};

use std::iter::FusedIterator;
use std::marker::Model;

/// An iterator over the chunks of a capture (text with SGR sequences) that are outside its SGR
/// sequences, each with its byte index.
///
/// The iterator borrows the capture and allocates nothing. It is created by
/// [`basic_formatted_to_plain_indexed`].
#[derive(Drop)]
pub struct BasicFormattedToPlainIndexed<'a> {
    /// The unread part of the capture.
    rest: &'a str,
    /// The length of the whole capture, in bytes.
    len: usize,
}

/// The model of the iterator is the list of the remaining chunks.
impl<'a> Model for BasicFormattedToPlainIndexed<'a> {
    ghost use Rattle.std.specs.Prelude.{◌-◌, ◌≤◌, List, length};
    ghost use Rattle.vt_rows.specs.Internals.{pieces_from};
    ghost use Rattle.vt_rows.specs.Pieces.{Piece};

    ghost Value = { List Piece };

    ghost view = { λ it. pieces_from (it.len - length it.rest.now) it.rest.now };

    ghost invariant = { λ it. length it.rest.now ≤ it.len };
}

/// Returns an iterator over the chunks of `capture` that are outside SGR sequences, in order, each
/// with its byte index in `capture`.
///
/// An SGR sequence extends from ESC through the next `m`, or to the end of the capture if there is
/// none. No chunk is empty.
///
/// ```
/// use vt100::capture::basic_formatted_to_plain_indexed;
///
/// let mut pieces = basic_formatted_to_plain_indexed("hello\x1b[31;1mworld");
/// assert_eq!(pieces.next(), Some((0, "hello")));
/// assert_eq!(pieces.next(), Some((12, "world")));
/// assert_eq!(pieces.next(), None);
/// ```
pub fn basic_formatted_to_plain_indexed(capture: &str) -> BasicFormattedToPlainIndexed<'_>
    ensures pieces { ArePiecesOf capture.now result }
    ensures joined { concat (texts_of result) ≡ without_stretches capture.now }
{
    BasicFormattedToPlainIndexed {
        rest: capture,
        len: capture.len(),
    }
}

impl<'a> Iterator for BasicFormattedToPlainIndexed<'a> {
    type Item = (usize, &'a str);

    ghost next_gives = { YieldsFirstBy (λ item. (item.0, item.1.now)) (λ pieces. pieces) };

    ghost remaining = { item_count (λ pieces. pieces) };

    fn next(&mut self) -> Option<(usize, &'a str)> {
        while !self.rest.is_empty() {
            let index = self.len - self.rest.len();
            let (piece, rest) = split_at_sgr(self.rest);
            self.rest = rest;
            if !piece.is_empty() {
                return Some((index, piece));
            }
        }
        None
    }
}

impl<'a> FusedIterator for BasicFormattedToPlainIndexed<'a> {}

/// Splits `text` at its first SGR sequence. Returns the text before the sequence and the text after
/// it, or `text` and an empty string if there is no sequence.
fn split_at_sgr(text: &str) -> (&str, &str)
    ensures pieces { (at : ℕ) →
        pieces_from at text.now
        ≡ piece_at at result.0.now ++ pieces_from (at + (length text.now - length result.1.now)) result.1.now }
    ensures shorter { 0 < length text.now → length result.1.now < length text.now }
{
    match text.split_once('\x1b') {
        Some((piece, rest)) => (piece, after_sgr(rest)),
        None => (text, ""),
    }
}

/// Skips the rest of the SGR sequence that `text` begins in. Returns everything after the first
/// `m`, or an empty string if there is no `m`.
fn after_sgr(text: &str) -> &str
    ensures pieces { (at : ℕ) →
        pieces_within at text.now ≡ pieces_from (at + (length text.now - length result.now)) result.now }
    ensures len { length result.now ≤ length text.now }
{
    match text.split_once('m') {
        Some((_, rest)) => rest,
        None => "",
    }
}

/// An iterator over the chunks of a capture (text with SGR sequences) that are outside its SGR
/// sequences.
///
/// The iterator borrows the capture and allocates nothing. It is created by
/// [`basic_formatted_to_plain`].
#[derive(Drop)]
pub struct BasicFormattedToPlain<'a> {
    indexed: BasicFormattedToPlainIndexed<'a>,
}

/// The model of the iterator is the list of the remaining chunks.
impl<'a> Model for BasicFormattedToPlain<'a> {
    ghost use Rattle.std.specs.Prelude.{List, ℕ};
    ghost use Rattle.vt_rows.specs.Pieces.{texts_of};

    ghost Value = { List (List ℕ) };

    ghost view = { λ it. texts_of it.indexed };
}

/// Returns an iterator over the chunks of `capture` that are outside SGR sequences, in order.
/// Concatenated, the chunks are the plain text of the capture.
///
/// [`basic_formatted_to_plain_indexed`] also returns the byte index of each chunk.
pub fn basic_formatted_to_plain(capture: &str) -> BasicFormattedToPlain<'_>
    ensures pieces { (pieces : List Piece) × ArePiecesOf capture.now pieces × (result ≡ texts_of pieces) }
    ensures joined { concat result ≡ without_stretches capture.now }
{
    BasicFormattedToPlain {
        indexed: basic_formatted_to_plain_indexed(capture),
    }
}

impl<'a> Iterator for BasicFormattedToPlain<'a> {
    type Item = &'a str;

    ghost next_gives = { YieldsFirstRef (λ texts. texts) };

    ghost remaining = { item_count (λ texts. texts) };

    fn next(&mut self) -> Option<&'a str> {
        let (_, piece) = self.indexed.next()?;
        Some(piece)
    }
}

impl<'a> FusedIterator for BasicFormattedToPlain<'a> {}
