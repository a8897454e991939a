//! Tests of the basic text of consecutive rows, and of the functions that split captures into chunks
//! outside SGR sequences, and into rows.

ghost use Rattle.std.specs.Prelude.{All, IfOk, false, ◌≡◌};
ghost use Rattle.vt_cells.specs.Cell.{IsCell};
ghost use Rattle.vt_rows.specs.Cells.{IsPaired};

use crate::sequence_tests::{PLAIN, Parts};
use std::alloc::Global;
use std::process::Abort;
use std::test::Fail;
use vt_cells::{Attrs, Cell, Color, Error, Sink, columns};
use vt_rows::capture::{
    basic_formatted_rows, basic_formatted_to_plain, basic_formatted_to_plain_indexed, row_contents,
    trimmed,
};
use vt_rows::copies::copied;
use vt_rows::{BasicFormattedCaptureState, Row, RowContents, cells};

/// Test cases: a capture, and the chunks of its plain text with their byte indices.
const PIECES: [(&str, &[(usize, &str)]); 9] = [
    ("hello\x1b[31;1mworld", &[(0, "hello"), (12, "world")]),
    ("a\x1b[1mb\x1b", &[(0, "a"), (5, "b")]),
    ("\x1b[31", &[]),
    ("", &[]),
    ("\x1b[1m\x1b[31mab\x1b[m", &[(9, "ab")]),
    ("a\x1b\x1b[1mmb", &[(0, "a"), (6, "mb")]),
    ("中\x1b[1m中", &[(0, "中"), (7, "中")]),
    ("m\x1b[1m\nm", &[(0, "m"), (5, "\nm")]),
    ("ab", &[(0, "ab")]),
];

/// Test cases: a capture, a width, and the rows of the capture at that width.
#[rattlefmt::skip]
const ROWS: [(&str, u16, &[&str]); 17] = [
    ("abcd\nef", 2, &["ab", "cd", "ef"]),
    ("", 80, &[""]),
    ("ab", 0, &["a", "b"]),
    ("中a", 1, &["中", "a"]),
    ("ab\n", 2, &["ab", ""]),
    ("\n\n", 80, &["", "", ""]),
    ("", 0, &[""]),
    ("abcd\x1b[31mef", 4, &["abcd\x1b[31m", "ef"]),
    ("ab\u{301}cd", 2, &["ab\u{301}", "cd"]),
    ("ab\n\u{301}cd", 2, &["ab", "\u{301}cd"]),
    ("a\x1b[3\n1mb", 2, &["a\x1b[3\n1mb"]),
    ("中中", 3, &["中", "中"]),
    ("a中b", 2, &["a", "中", "b"]),
    ("a\u{301}b", 0, &["a\u{301}", "b"]),
    ("ab\x1b[1mcd\x1b[", 2, &["ab\x1b[1m", "cd\x1b["]),
    ("a\tb", 2, &["a\t", "b"]),
    ("abc", 65535, &["abc"]),
];

#[test]
fn pieces_stand_outside_sgr(rt: HostRuntime) {
    for (capture, want) in &PIECES {
        let mut pieces = basic_formatted_to_plain_indexed(capture);
        let mut plain = basic_formatted_to_plain(capture);
        for (index, text) in *want {
            assert!(rt; pieces.next() == Some((*index, *text)));
            assert!(rt; plain.next() == Some(*text));
        }
        assert!(rt; pieces.next().is_none());
        assert!(rt; plain.next().is_none());
        assert!(rt; pieces.next().is_none());
    }
}

#[test]
fn rows_end_at_line_ends_and_at_the_width(rt: HostRuntime) {
    for (capture, width, want) in &ROWS {
        let mut rows = basic_formatted_rows(capture, *width);
        for row in *want {
            assert!(rt; rows.next() == Some(*row));
        }
        assert!(rt; rows.next().is_none());
        assert!(rt; rows.next().is_none());
    }
}

const RED: Parts = Parts {
    fgcolor: Color::Idx(1),
    ..PLAIN
};

const ON_BLUE: Parts = Parts {
    bgcolor: Color::Idx(4),
    ..PLAIN
};

/// Puts a character at a column, or a blank if the character takes no columns or does not fit.
fn put(cells: &mut [Cell], column: usize, c: char, attrs: Attrs)
    requires { IsPaired cells.old }
    ensures paired { IsPaired cells.new }
    ensures sound { All IsCell cells.old → All IsCell cells.new }
{
    let left = cells.len().saturating_sub(column);
    match columns(c) {
        Some(1) if left > 0 && c != char::REPLACEMENT_CHARACTER => {
            cells::put_narrow(cells, column, c, attrs);
        }
        Some(2) if left > 1 && c != char::REPLACEMENT_CHARACTER => {
            cells::put_wide(cells, column, c, attrs);
        }
        _ if left > 0 => cells::erase(cells, column, column + 1, attrs),
        _ => {}
    }
}

/// Creates the cells of a row of `columns` columns, with characters at the columns listed in
/// `puts`.
fn cells_of(
    alloc: Global,
    columns: usize,
    puts: &[(usize, char, Parts)],
) -> Result<Vec<Cell>, Error>
    ensures paired { IfOk result (λ cells. IsPaired cells.items) }
    ensures sound { IfOk result (λ cells. All IsCell cells.items) }
{
    let blank = Row::new(alloc, columns)?;
    let mut cells = copied(alloc, blank.cells())?;
    for (column, c, attrs) in puts {
        put(&mut cells, *column, *c, attrs.attrs());
    }
    Ok(cells)
}

/// Creates the contents of a row with the given cells. The row is wrapped if `is_wrapped` is true
/// and its last column is not blank.
fn row_of(cells: &[Cell], is_wrapped: bool) -> RowContents<'_>
    requires paired { IsPaired cells.now }
    requires sound { All IsCell cells.now }
{
    row_contents(cells, cells::is_still_wrapped(cells, is_wrapped))
}

/// Returns the concatenated basic text of consecutive rows.
fn text_of(alloc: Global, rows: &[RowContents<'_>]) -> Result<String, Error> {
    let mut text = String::new(alloc);
    let mut state = BasicFormattedCaptureState::new();
    for row in rows {
        row.write_formatted_basic(&mut text, &mut state)?;
    }
    Ok(text)
}

/// Returns whether the row begins with a continuation cell. The contract states that no borrowed
/// row begins with a continuation cell.
fn begins_torn(row: &RowContents<'_>) -> bool
    ensures { result ≡ false }
{
    match row.cells().first() {
        Some(cell) => cell.is_wide_continuation(),
        None => false,
    }
}

#[test]
fn lends_sound_rows(rt: HostRuntime) -> Result<(), Fail> {
    let cells = cells_of(rt.alloc(), 3, &[(0, '中', RED), (2, '中', RED)])?;
    assert!(rt; !begins_torn(&row_of(&cells, false)));
    let puts = [(0, '中', RED), (2, '中', RED), (1, 'a', RED)];
    let cells = cells_of(rt.alloc(), 3, &puts)?;
    assert!(rt; !begins_torn(&trimmed(&row_of(&cells, false))));
    Ok(())
}

/// Test cases: the number of columns of a row, the characters put into the row, and the basic text
/// of the row.
const WRITTEN: [(usize, &[(usize, char, Parts)], &str); 7] = [
    (3, &[(0, 'a', RED), (2, 'b', PLAIN)], "\x1b[31ma \x1b[mb"),
    (4, &[(0, 'a', PLAIN), (2, '\0', ON_BLUE)], "a \x1b[44m "),
    (3, &[(0, '中', PLAIN), (2, 'a', PLAIN)], "中a"),
    (4, &[(0, '中', RED), (3, 'a', RED)], "\x1b[31m中 a"),
    (3, &[(0, '中', RED)], "\x1b[31m中"),
    (1, &[], ""),
    (1, &[(0, '\0', ON_BLUE)], "\x1b[44m "),
];

#[test]
fn writes_cells_in_their_attributes(rt: HostRuntime) -> Result<(), Fail> {
    for (columns, puts, want) in &WRITTEN {
        let cells = cells_of(rt.alloc(), *columns, puts)?;
        assert!(rt; text_of(rt.alloc(), &[row_of(&cells, false)])?.as_str() == *want);
    }
    Ok(())
}

#[test]
fn ends_a_row_before_the_next(rt: HostRuntime) -> Result<(), Fail> {
    let first = cells_of(rt.alloc(), 2, &[(0, 'a', RED), (1, 'b', RED)])?;
    let second = cells_of(rt.alloc(), 2, &[(0, 'c', RED), (1, 'd', PLAIN)])?;
    let ended = text_of(rt.alloc(), &[row_of(&first, false), row_of(&second, false)])?;
    assert!(rt; ended.as_str() == "\x1b[31mab\nc\x1b[md");
    let joined = text_of(rt.alloc(), &[row_of(&first, true), row_of(&second, false)])?;
    assert!(rt; joined.as_str() == "\x1b[31mabc\x1b[md");
    Ok(())
}

#[test]
fn writes_blank_rows_as_line_ends(rt: HostRuntime) -> Result<(), Fail> {
    let cells = cells_of(rt.alloc(), 4, &[])?;
    let mut text = String::new(rt.alloc());
    let mut state = BasicFormattedCaptureState::default();
    for _row in 0..3 {
        row_of(&cells, false).write_formatted_basic(&mut text, &mut state)?;
    }
    assert!(rt; text.as_str() == "\n\n");
    Ok(())
}

/// A sink that accepts a number of strings, fails for the next string, and accepts all later
/// strings.
#[derive(Drop)]
struct Refusing {
    text: String,
    pieces_left: Option<usize>,
}

impl Sink for Refusing {
    type Error = Error;

    ghost use Rattle.std.specs.Prelude.{◌≡◌, string_bytes};

    ghost text = { λ s. string_bytes s.text };

    ghost refuses = { λ before _ after. after ≡ before };

    fn write_str(&mut self, s: &str) -> Result<(), Error> {
        match self.pieces_left {
            Some(0) => {
                self.pieces_left = None;
                return Err(Error::OutOfMemory);
            }
            Some(pieces) => self.pieces_left = Some(pieces - 1),
            None => {}
        }
        self.text.write_str(s)
    }
}

/// Returns the state of a capture that consists of `row` alone.
fn state_after(alloc: Global, row: &RowContents<'_>) -> Result<BasicFormattedCaptureState, Fail> {
    let mut state = BasicFormattedCaptureState::new();
    let mut text = String::new(alloc);
    row.write_formatted_basic(&mut text, &mut state)?;
    Ok(state)
}

/// The basic text of a row if no write fails.
const WHOLE: &str = "\n\x1b[mb\x1b[31mc";

/// Writes a row to a sink that fails after `pieces` strings, and returns whether the whole row was
/// written.
fn is_taken(
    rt: &impl Abort,
    alloc: Global,
    row: &RowContents<'_>,
    state: &mut BasicFormattedCaptureState,
    pieces: usize,
) -> bool {
    let mut sink = Refusing {
        text: String::new(alloc),
        pieces_left: Some(pieces),
    };
    let result = row.write_formatted_basic(&mut sink, state);
    assert!(rt; WHOLE.starts_with(sink.text.as_str()));
    assert!(rt; result.is_ok() == (sink.text.as_str() == WHOLE));
    result.is_ok()
}

#[test]
fn stays_where_a_row_is_refused(rt: HostRuntime) -> Result<(), Fail> {
    let before = cells_of(rt.alloc(), 1, &[(0, 'a', RED)])?;
    let cells = cells_of(rt.alloc(), 2, &[(0, 'b', PLAIN), (1, 'c', RED)])?;
    let written = state_after(rt.alloc(), &row_of(&before, false))?;
    let row = row_of(&cells, false);
    for (pieces, taken) in [(0, false), (1, false), (100, true)] {
        let mut state = written.clone()?;
        let found = is_taken(&rt, rt.alloc(), &row, &mut state, pieces);
        assert!(rt; found == taken);
        if !taken {
            let mut again = String::new(rt.alloc());
            row.write_formatted_basic(&mut again, &mut state)?;
            assert!(rt; again.as_str() == WHOLE);
        }
    }
    Ok(())
}
