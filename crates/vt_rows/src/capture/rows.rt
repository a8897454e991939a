//! An iterator over the rows of a capture on a terminal of a given width.

ghost use Rattle.std.specs.Prelude.{◌≡◌, ◌+◌, ◌≤◌, ◌∷◌, ◌&&◌, [], ◌==◌, ◌<◌, ◌^◌, false, not, List};
ghost use Rattle.std.specs.Iterator.{YieldsFirstRef, item_count};
ghost use Rattle.std.specs.Option.{option_map_or};
ghost use Rattle.vt_rows.specs.CaptureRows.{AreRowsOf, is_beyond};
ghost use Rattle.vt_rows.specs.Internals.{rows_of};
ghost use Rattle.vt_rows.specs.Pieces.{Piece, texts_of};
ghost use Rattle.vt_rows.specs.Stretches.{columns_added, is_within_after, shown_columns};

use std::iter::FusedIterator;
use std::marker::Model;
use unicode_width::UnicodeWidthChar;

/// An iterator over the rows of a capture (text with SGR sequences) on a terminal of a given width.
///
/// The iterator borrows the capture and allocates nothing. It is created by
/// [`basic_formatted_rows`].
#[derive(Drop)]
pub struct BasicFormattedRows<'a> {
    /// The unread part of the capture, or `None` after the last row.
    rest: Option<&'a str>,
    width: u16,
}

/// The model of the iterator is the list of the remaining rows.
impl<'a> Model for BasicFormattedRows<'a> {
    ghost use Rattle.std.specs.Prelude.{List, ℕ, []};
    ghost use Rattle.std.specs.Option.{option_map_or};
    ghost use Rattle.vt_rows.specs.Internals.{rows_of};

    ghost Value = { List (List ℕ) };

    ghost view = { λ it. option_map_or (λ rest. rows_of it.width rest.now) it.rest [] };
}

/// Returns an iterator over the rows of `capture` on a terminal of `screen_width` columns, in
/// order.
///
/// A row ends at a `\n` that is outside SGR sequences, or before a character that would make the
/// row wider than `screen_width`. The `\n` is dropped. A row always has room for its first
/// character of nonzero width, even if that character is wider than `screen_width`. The text after
/// the last row end is the last row, even if it is empty.
///
/// An SGR sequence extends from ESC through the next `m`, or to the end of the capture if there is
/// none. An SGR sequence takes no columns; between two rows, it belongs to the earlier row. A
/// character takes as many columns as [`UnicodeWidthChar`] returns, but at most two. If
/// [`UnicodeWidthChar`] returns `None` for a character, the character takes one column. A
/// zero-width character begins a row only at the start of the capture or after a `\n`.
///
/// ```
/// use vt100::capture::basic_formatted_rows;
///
/// let mut rows = basic_formatted_rows("abcd\nef", 2);
/// assert_eq!(rows.next(), Some("ab"));
/// assert_eq!(rows.next(), Some("cd"));
/// assert_eq!(rows.next(), Some("ef"));
/// assert_eq!(rows.next(), None);
/// ```
pub fn basic_formatted_rows(capture: &str, screen_width: u16) -> BasicFormattedRows<'_>
    ensures { (rows : List Piece) × AreRowsOf screen_width capture.now rows × (result ≡ texts_of rows) }
{
    BasicFormattedRows {
        rest: Some(capture),
        width: screen_width,
    }
}

impl<'a> Iterator for BasicFormattedRows<'a> {
    type Item = &'a str;

    ghost next_gives = { YieldsFirstRef (λ rows. rows) };

    ghost remaining = { item_count (λ rows. rows) };

    fn next(&mut self) -> Option<&'a str> {
        let rest = self.rest?;
        let (row, rest) = split_row(rest, self.width);
        self.rest = rest;
        Some(row)
    }
}

impl<'a> FusedIterator for BasicFormattedRows<'a> {}

/// Splits off the first row of `text` on a terminal of `width` columns. Returns that row and the
/// text of the remaining rows, which is `None` if no rows remain.
fn split_row(text: &str, width: u16) -> (&str, Option<&str>)
    ensures { rows_of width text.now ≡ result.0.now ∷ option_map_or (λ rest. rows_of width rest.now) result.1 [] }
{
    let mut reach = Reach::new();
    for (at, c) in text.char_indices() {
        if reach.is_row_end(c) {
            return (&text[..at], Some(&text[at + 1..]));
        }
        if reach.is_overflow(c, width) {
            return (&text[..at], Some(&text[at..]));
        }
        reach = reach.with(c);
    }
    (text, None)
}

/// The extent of a row's text: its width in columns, and whether it ends inside an SGR sequence.
#[derive(Clone, Copy)]
struct Reach {
    columns: u32,
    /// Whether the text ends inside an SGR sequence.
    is_within: bool,
}

impl Reach {
    /// Returns the extent of an empty string: no columns, and outside any SGR sequence.
    fn new() -> Reach
        ensures columns { result.columns ≡ 0 }
        ensures within { result.is_within ≡ false }
    {
        Reach {
            columns: 0,
            is_within: false,
        }
    }

    /// Returns whether the character `c`, which follows the text read so far, ends the row, that
    /// is, whether it is a `\n` outside SGR sequences.
    fn is_row_end(self, c: char) -> bool
        ensures { result ≡ (not self.is_within && (c == 0x0A)) }
    {
        !self.is_within && c == '\n'
    }

    /// Returns whether the character `c`, which follows the text read so far, would make the row
    /// wider than `width` columns. The first character of nonzero width always fits.
    fn is_overflow(self, c: char, width: u16) -> bool
        requires { self.columns ≤ width + 2 }
        ensures { result ≡ is_beyond width self.columns (columns_added self.is_within c) }
    {
        let added = self.columns_added(c);
        self.columns > 0 && added > 0 && self.columns + added > u32::from(width)
    }

    /// Returns the extent of the text after the character `c` is appended to it.
    fn with(self, c: char) -> Reach
        requires { self.columns + 2 < 2 ^ 32 }
        ensures columns { result.columns ≡ self.columns + columns_added self.is_within c }
        ensures within { result.is_within ≡ is_within_after self.is_within c }
    {
        Reach {
            columns: self.columns + self.columns_added(c),
            is_within: is_within_after(self.is_within, c),
        }
    }

    /// Returns the number of columns that the character `c` adds when it is appended to the row's
    /// text: 0 if it is part of an SGR sequence, otherwise from 0 to 2.
    fn columns_added(self, c: char) -> u32
        ensures value { result ≡ columns_added self.is_within c }
        ensures most { result ≤ 2 }
    {
        if self.is_within {
            0
        } else if c == '\x1b' {
            0
        } else {
            shown_columns(c)
        }
    }
}

/// Returns whether a string whose last character is `c` ends inside an SGR sequence. `within` is
/// true if the part before `c` ends inside one.
fn is_within_after(within: bool, c: char) -> bool
    ensures { result ≡ is_within_after within c }
{
    if within { c != 'm' } else { c == '\x1b' }
}

/// Returns the number of columns that a character outside SGR sequences takes, from 0 to 2. A
/// character without a width, such as a control character, takes one column.
#[tactic(auto, unfolding(crate::specs::Stretches::shown_columns))]
fn shown_columns(c: char) -> u32
    ensures value { result ≡ shown_columns c }
    ensures most { result ≤ 2 }
{
    match c.width() {
        Some(width) => width.min(2) as u32,
        None => 1,
    }
}
