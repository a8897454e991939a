//! Tests of captures: of the displayed rows, of all rows, of rows as they scroll off, and into
//! sinks that fail.

use std::alloc::Global;
use std::process::Abort;
use std::test::Fail;
use test_input::examples::Step::{self, Bytes, Resize, Text, View};
use test_input::examples::{
    Pieces, expect_read_back_at_each_byte, expect_text, feed, read_keeping, size_of, taken,
};
use vt_notes::Recorder;
use vt100::capture::{
    BasicFormattedCaptureRange, BasicFormattedCaptureState, basic_formatted_rows,
    basic_formatted_to_plain,
};
use vt100::{Error, Parser, Screen, Sink};

/// Test cases: a size, a scrollback capacity, the steps, and two captures after the steps: of the
/// displayed rows, and of all rows.
#[rattlefmt::skip]
const CAPTURES: [((u16, u16), usize, &[Step], &str, &str); 14] = [
    ((3, 4), 0, &[], "\n\n", "\n\n"),
    ((1, 6), 0, &[Text("\x1b[31ma\x1b[m\x1b[Cb")], "\x1b[31ma \x1b[mb", "\x1b[31ma \x1b[mb"),
    ((2, 4), 0, &[Text("abcdx")], "abcdx", "abcdx"),
    ((2, 4), 0, &[Text("abcd\r\nx")], "abcd\nx", "abcd\nx"),
    ((1, 4), 0, &[Text("\x1b[41m\x1b[K\x1b[m")], "\x1b[41m    ", "\x1b[41m    "),
    ((1, 4), 0, &[Text("中\x1b[1;4Hx")], "中 x", "中 x"),
    ((1, 4), 0, &[Bytes(b"e\xcc\x81")], "e\u{301}", "e\u{301}"),

    // Scrollback, and what is displayed of it.
    ((2, 4), 10, &[Text("a\r\nb\r\nc")], "b\nc", "a\nb\nc"),
    ((2, 4), 10, &[Text("a\r\nb\r\nc"), View(1)], "a\nb", "a\nb\nc"),
    ((2, 6), 10, &[Text("abcdef\r\nghi\r\nj"), Resize(2, 3), View(1)], "abcdef\nghi", "abcdef\nghi\nj"),

    // A row of scrollback that is extended is no longer wrapped.
    ((2, 2), 10, &[Text("abcde"), Resize(2, 4)], "cd\ne", "abcd\ne"),
    ((2, 2), 10, &[Text("abcde"), Resize(2, 4), View(1)], "ab\ncd", "ab\ncd\ne"),
    ((2, 2), 10, &[Text("abcde"), Resize(2, 4), View(1), View(0)], "cd\ne", "ab\ncd\ne"),

    // The active page.
    ((2, 4), 10, &[Text("a\r\nb\r\nc\x1b[?1049hx")], "x\n", "x\n"),
];

#[test]
fn captures(rt: HostRuntime) -> Result<(), Fail> {
    for (size, capacity, steps, visible, full) in &CAPTURES {
        expect_read_back_at_each_byte(rt.alloc(), *size, *capacity, steps)?;
        let parser = taken(rt.alloc(), *size, *capacity, steps, Pieces::Single)?;
        expect_captures(rt.alloc(), parser.screen(), visible, full)?;
    }
    Ok(())
}

fn expect_captures(alloc: Global, screen: &Screen, visible: &str, full: &str) -> Result<(), Fail> {
    expect_text(screen.contents_formatted_basic()?, visible)?;
    let mut state = BasicFormattedCaptureState::new();
    expect_text(all_rows(alloc, screen, &mut state)?, full)
}

/// Returns the capture of all rows, continuing from `state`.
fn all_rows(
    alloc: Global,
    screen: &Screen,
    state: &mut BasicFormattedCaptureState,
) -> Result<String, Error> {
    let mut text = String::new(alloc);
    let range = BasicFormattedCaptureRange::Full(state);
    screen.write_contents_formatted_basic(&mut text, range)?;
    Ok(text)
}

/// Test cases: a size, the input, and the capture of the rows that scrolled off followed by the
/// remaining rows.
#[rattlefmt::skip]
const STREAMED: [((u16, u16), &str, &str); 8] = [
    ((2, 4), "a\r\nb\r\nc", "a\nb\nc"),
    ((2, 2), "abcde", "abcde"),
    ((2, 2), "abcd\r\ne\r\nf", "abcd\ne\nf"),
    ((1, 4), "\x1b[31mab\r\n\x1b[mc", "\x1b[31mab\n\x1b[mc"),
    ((1, 4), "a\r\n\x1b[1m\r\nb", "a\n\n\x1b[1mb"),
    ((2, 4), "a\r\nb\r\nc\x1b[3J\r\nd", "a\nb\nc\nd"),
    ((1, 4), "a\r\nb\x1b[?1049hx\r\ny\r\nz\x1b[?1049l\r\nc", "a\nb\nc"),
    ((3, 2), "a\r\nb\r\nc\x1b[2;3r\x1b[3;1H\nd", "a\nc\nd"),
];

#[test]
fn streamed_captures(rt: HostRuntime) -> Result<(), Fail> {
    for (size, text, wanted) in &STREAMED {
        for capacity in [0, 1, 10] {
            for most in 0..=text.len() {
                let pieces = Pieces::Two(most);
                expect_streamed(rt.alloc(), *size, capacity, text, pieces, wanted)?;
            }
            expect_streamed(rt.alloc(), *size, capacity, text, Pieces::Single, wanted)?;
            expect_read_back_at_each_byte(rt.alloc(), *size, capacity, &[Text(text)])?;
        }
    }
    Ok(())
}

/// Fails if the capture of the input is not `wanted`.
fn expect_streamed(
    alloc: Global,
    size: (u16, u16),
    capacity: usize,
    text: &str,
    pieces: Pieces,
    wanted: &str,
) -> Result<(), Fail> {
    let (rows, cols) = size_of(size)?;
    let recorder = Recorder::new(alloc);
    let mut parser = Parser::new_with_callbacks(alloc, rows, cols, capacity, recorder)?;
    feed(&mut parser, text.as_bytes(), pieces)?;
    let (screen, recorder) = parser.screen_and_callbacks_mut();
    recorder.capture(screen)?;
    let found = recorder.text();
    if found != wanted {
        return Err(Fail::new(format_args!(
            "{text:?} with {capacity} rows of scrollback gives {found:?} and not {wanted:?}"
        )));
    }
    Ok(())
}

/// Test cases: a size, the input, the rows of the capture at the width of the screen, and the plain
/// text of the capture.
#[rattlefmt::skip]
const READ: [((u16, u16), &str, &[&str], &str); 4] = [
    ((2, 4), "abcdx", &["abcd", "x"], "abcdx"),
    ((2, 4), "\x1b[31mab\r\n\x1b[mcd", &["\x1b[31mab", "\x1b[mcd"], "ab\ncd"),
    ((2, 3), "ab中", &["ab", "中"], "ab\n中"),
    ((3, 4), "", &["", "", ""], "\n\n"),
];

#[test]
fn reads_captures(rt: HostRuntime) -> Result<(), Fail> {
    for (size, text, wanted, plain) in &READ {
        let parser = read_keeping(rt.alloc(), *size, 0, &[text.as_bytes()])?;
        let capture = parser.screen().contents_formatted_basic()?;
        expect_rows(&rt, capture.as_str(), size.1, wanted);
        let mut joined = String::new(rt.alloc());
        for piece in basic_formatted_to_plain(capture.as_str()) {
            joined.push_str(piece)?;
        }
        assert!(rt; joined.as_str() == *plain);
    }
    Ok(())
}

fn expect_rows<A: Abort>(rt: &A, capture: &str, width: u16, wanted: &[&str]) {
    let mut rows = basic_formatted_rows(capture, width);
    for row in wanted {
        assert!(rt; rows.next() == Some(*row));
    }
    assert!(rt; rows.next().is_none());
    assert!(rt; rows.next().is_none());
}

/// A sink that accepts whole writes up to a total number of bytes, and fails for a write that would
/// exceed it.
#[derive(Drop)]
struct Limited {
    text: String,
    left: usize,
}

impl Sink for Limited {
    type Error = Error;

    ghost use Rattle.std.specs.Prelude.{◌≡◌, string_bytes};

    ghost text = { λ s. string_bytes s.text };

    ghost refuses = { λ before _ after. after ≡ before };

    fn write_str(&mut self, s: &str) -> Result<(), Error> {
        let Some(left) = self.left.checked_sub(s.len()) else {
            return Err(Error::OutOfMemory);
        };
        self.left = left;
        self.text.write_str(s)
    }
}

/// A sink that keeps the bytes that fit into a limited space, and fails for further bytes.
#[derive(Drop)]
struct Filled {
    bytes: Vec<u8>,
    left: usize,
}

impl Sink for Filled {
    type Error = Error;

    ghost use Rattle.std.specs.Prelude.{◌≡◌, ◌++◌, ℕ, take};

    ghost text = { λ s. s.bytes.items };

    ghost refuses = { λ before piece after. (n : ℕ) × (after ≡ before ++ take n piece) };

    fn write_str(&mut self, s: &str) -> Result<(), Error> {
        let len = s.len().min(self.left);
        self.bytes.extend_from_slice(&s.as_bytes()[..len])?;
        self.left -= len;
        if len < s.len() {
            return Err(Error::OutOfMemory);
        }
        Ok(())
    }
}

/// Returns the contents of a sink that keeps the first `left` bytes of a capture; fails if the
/// whole capture fits.
fn fitting(
    alloc: Global,
    screen: &Screen,
    range: BasicFormattedCaptureRange<'_>,
    left: usize,
) -> Result<Vec<u8>, Fail> {
    let mut sink = Filled {
        bytes: Vec::new(alloc),
        left,
    };
    match screen.write_contents_formatted_basic(&mut sink, range) {
        Ok(()) => Err(Fail::new("a sink that takes all")),
        Err(_) => Ok(sink.bytes),
    }
}

/// Returns the contents of a sink that accepts whole writes up to `left` bytes; fails if it accepts
/// the whole capture.
fn refused(
    alloc: Global,
    screen: &Screen,
    range: BasicFormattedCaptureRange<'_>,
    left: usize,
) -> Result<String, Fail> {
    let mut sink = Limited {
        text: String::new(alloc),
        left,
    };
    match screen.write_contents_formatted_basic(&mut sink, range) {
        Ok(()) => Err(Fail::new("a sink that takes all")),
        Err(_) => Ok(sink.text),
    }
}

#[test]
fn goes_on_after_the_last_whole_row(rt: HostRuntime) -> Result<(), Fail> {
    let parser = read_keeping(rt.alloc(), (3, 2), 0, &[b"a\r\nb"])?;
    let mut state = BasicFormattedCaptureState::new();
    let range = BasicFormattedCaptureRange::Full(&mut state);
    expect_text(refused(rt.alloc(), parser.screen(), range, 1)?, "a")?;
    let rest = all_rows(rt.alloc(), parser.screen(), &mut state)?;
    expect_text(rest, "\na\nb\n")
}

/// Test cases: the number of bytes that a sink keeps, its contents after a capture of all rows, and
/// the text of a second capture of all rows, which continues from the same capture state.
const FILLED: [(usize, &str, &str); 4] = [
    (0, "", "a\nb\n"),
    (1, "a", "\na\nb\n"),
    (2, "a\n", "\na\nb\n"),
    (3, "a\nb", "\na\nb\n"),
];

#[test]
fn goes_on_after_the_last_whole_row_of_what_fits(rt: HostRuntime) -> Result<(), Fail> {
    let parser = read_keeping(rt.alloc(), (3, 2), 0, &[b"a\r\nb"])?;
    for (left, taken, rest) in &FILLED {
        let mut state = BasicFormattedCaptureState::new();
        let range = BasicFormattedCaptureRange::Full(&mut state);
        let bytes = fitting(rt.alloc(), parser.screen(), range, *left)?;
        assert!(rt; bytes.as_slice() == taken.as_bytes());
        expect_text(all_rows(rt.alloc(), parser.screen(), &mut state)?, rest)?;
    }
    Ok(())
}

#[test]
fn writes_a_beginning_where_refused(rt: HostRuntime) -> Result<(), Fail> {
    let written = b"\x1b[1mab\x1b[mc\r\n\x1b[32md\r\ne";
    let parser = read_keeping(rt.alloc(), (2, 3), 10, &[written])?;
    let (full, visible) = ("\x1b[1mab\x1b[mc\n\x1b[32md\ne", "\x1b[32md\ne");
    expect_captures(rt.alloc(), parser.screen(), visible, full)?;
    for left in 0..full.len() {
        let mut state = BasicFormattedCaptureState::new();
        let range = BasicFormattedCaptureRange::Full(&mut state);
        let text = refused(rt.alloc(), parser.screen(), range, left)?;
        assert!(rt;
            full.starts_with(text.as_str()),
            "with room for {left} bytes"
        );
    }
    for left in 0..visible.len() {
        let range = BasicFormattedCaptureRange::Visible;
        let text = refused(rt.alloc(), parser.screen(), range, left)?;
        assert!(rt;
            visible.starts_with(text.as_str()),
            "with room for {left} bytes"
        );
    }
    Ok(())
}
