//! Tests of the plain text of the screen, of ranges and of rows, and of redraws and diffs of single
//! rows.

use std::alloc::Global;
use std::test::Fail;
use test_input::examples::Step::{self, Resize, ResizeParser, Text, View};
use test_input::examples::{
    Pieces, expect_read_back_at_each_byte, expect_text, longest, read_keeping, taken,
};
use test_input::readback::have_same_cells;
use vt_notes::Notes;
use vt100::{Error, Parser, Screen};

/// Test cases: a size, a scrollback capacity, the steps, and the plain text after the steps.
#[rattlefmt::skip]
const CONTENTS: [((u16, u16), usize, &[Step], &str); 24] = [
    ((2, 4), 0, &[], ""),

    // Wrapped rows, and rows without text.
    ((3, 4), 0, &[Text("abcdx\x1b[L")], "abcd\n\nx"),
    ((2, 4), 0, &[Text("abcdx")], "abcdx"),
    ((2, 4), 0, &[Text("abcd\r\nx")], "abcd\nx"),
    ((2, 4), 0, &[Text("abcdxyz\x1b[1;4He\x1b[2;2H\x1b[X")], "abcex z"),
    ((2, 4), 0, &[Text("ab中x")], "ab中x"),
    ((2, 4), 0, &[Text("ab中x\x1b[1;4Hd")], "ab dx"),
    ((3, 4), 0, &[Text("abcdx\x1b[2;1H\x1b[X\r\ny")], "abcd\n\ny"),
    ((3, 2), 0, &[Text("a\r\nb\r\nc\x1b[2;3r\x1b[H\x1bM")], "a\n\nb"),

    // Scrollback, and resized screens.
    ((2, 4), 10, &[Text("a\r\nb\r\nc")], "b\nc"),
    ((2, 4), 10, &[Text("a\r\nb\r\nc"), View(1)], "a\nb"),
    ((2, 4), 1, &[Text("a\r\nb\r\nc\r\nd"), Resize(5, 4)], "\nb\nc\nd"),
    ((3, 4), 0, &[Text("a\r\nb\r\nc"), ResizeParser(2, 4)], "b\nc"),
    ((3, 4), 0, &[Text("a\r\nb\r\nc\x1b[H"), ResizeParser(2, 4)], "a\nb"),
    ((2, 6), 10, &[Text("abcdef\r\nghi\r\nj"), Resize(2, 3), View(1)], "abc\nghi"),

    // Cut wide characters, spaces and blanks.
    ((1, 6), 0, &[Text("中ab\x1b[1;2Hx")], " xab"),
    ((1, 6), 0, &[Text("中ab\x1b[Hx")], "x ab"),
    ((1, 5), 0, &[Text("a中b\x1b[1;3H\x1b[P")], "a b"),
    ((1, 4), 0, &[Text("a中\x1b[1;2H\x1b[@")], "a 中"),
    ((1, 4), 0, &[Text("a中\x1b[1;2H\x1b[2@")], "a"),
    ((1, 4), 0, &[Text("a\x1b[41m\x1b[K")], "a"),
    ((1, 40), 0, &[Text("\x1b[1;38Ha")], "                                     a"),

    // Both pages.
    ((2, 4), 0, &[Text("ab\x1b[?1049hxy")], "xy"),
    ((2, 4), 0, &[Text("ab\x1b[?1049hxy\x1b[?1049l")], "ab"),
];

#[test]
fn contents(rt: HostRuntime) -> Result<(), Fail> {
    for (size, capacity, steps, wanted) in &CONTENTS {
        for most in 0..=longest(steps) {
            expect_contents(
                rt.alloc(),
                *size,
                *capacity,
                steps,
                Pieces::Two(most),
                *wanted,
            )?;
        }
        expect_contents(rt.alloc(), *size, *capacity, steps, Pieces::Single, *wanted)?;
        expect_read_back_at_each_byte(rt.alloc(), *size, *capacity, steps)?;
    }
    Ok(())
}

fn expect_contents(
    alloc: Global,
    size: (u16, u16),
    capacity: usize,
    steps: &[Step],
    pieces: Pieces,
    wanted: &str,
) -> Result<(), Fail> {
    let parser = taken(alloc, size, capacity, steps, pieces)?;
    expect_text(parser.screen().contents()?, wanted)
}

/// Test cases: the input, a range given by the row and column of its start and of its end, and the
/// text of the range.
#[rattlefmt::skip]
const RANGES: [(&str, (u16, u16), (u16, u16), &str); 8] = [
    ("abcdx", (0, 2), (1, 1), "cdx"),
    ("abcdx", (0, 4), (1, 1), "x"),
    ("abcdx", (1, 0), (0, 4), ""),
    ("ab\r\ncd", (0, 1), (1, 2), "b\ncd"),
    ("ab\r\ncd", (0, 1), (9, 1), "b\ncd\n"),
    ("abcd", (0, 1), (0, 3), "bc"),
    ("abcd", (0, 3), (0, 3), ""),
    ("abcd", (2, 0), (2, 4), ""),
];

#[test]
fn contents_between(rt: HostRuntime) -> Result<(), Fail> {
    for (text, start, end, wanted) in &RANGES {
        for most in 0..=text.len() {
            expect_range(
                rt.alloc(),
                *text,
                Pieces::Two(most),
                (*start, *end),
                *wanted,
            )?;
        }
        expect_range(rt.alloc(), *text, Pieces::Single, (*start, *end), *wanted)?;
        expect_read_back_at_each_byte(rt.alloc(), (2, 4), 0, &[Text(*text)])?;
    }
    Ok(())
}

fn expect_range(
    alloc: Global,
    text: &'static str,
    pieces: Pieces,
    (start, end): ((u16, u16), (u16, u16)),
    wanted: &str,
) -> Result<(), Fail> {
    let parser = taken(alloc, (2, 4), 0, &[Text(text)], pieces)?;
    expect_text(range(parser.screen(), start, end)?, wanted)
}

/// Returns the text of a range of the screen; fails if the range begins past the last column.
fn range(screen: &Screen, start: (u16, u16), end: (u16, u16)) -> Result<String, Fail> {
    let (_, cols) = screen.size();
    if start.0 < end.0 && start.1 > cols.get() {
        return Err(Fail::new("a range that begins past the columns"));
    }
    Ok(screen.contents_between(start.0, start.1, end.0, end.1)?)
}

/// Steps that leave two rows in scrollback, both with more columns than the screen. The newer row
/// is displayed.
const LONGER: [Step; 3] = [Text("abcdef\r\nghi\r\nj"), Resize(2, 3), View(1)];

#[test]
fn longer_rows_of_scrollback(rt: HostRuntime) -> Result<(), Fail> {
    for most in 0..=longest(&LONGER) {
        expect_longer(rt.alloc(), Pieces::Two(most))?;
    }
    expect_longer(rt.alloc(), Pieces::Single)
}

fn expect_longer(alloc: Global, pieces: Pieces) -> Result<(), Fail> {
    let parser = taken(alloc, (2, 6), 10, &LONGER, pieces)?;
    let screen = parser.screen();
    expect_text(range(screen, (0, 2), (1, 9))?, "c\nghi")?;
    expect_text(range(screen, (0, 2), (0, 9))?, "cdef")?;
    expect_rows(screen, 0, 9, &["abcdef", "ghi"])
}

fn expect_rows(screen: &Screen, start: u16, width: u16, wanted: &[&str]) -> Result<(), Fail> {
    let mut rows = screen.rows(start, width);
    for text in wanted {
        let Some(item) = rows.next() else {
            return Err(Fail::new("fewer rows"));
        };
        expect_text(item?, *text)?;
    }
    match rows.next() {
        None => Ok(()),
        Some(_) => Err(Fail::new("more rows")),
    }
}

#[test]
fn rows(rt: HostRuntime) -> Result<(), Fail> {
    for most in 0..=5 {
        let parser = taken(rt.alloc(), (2, 4), 0, &[Text("abcdx")], Pieces::Two(most))?;
        let screen = parser.screen();
        expect_rows(screen, 0, 4, &["abcd", "x"])?;
        expect_rows(screen, 1, 2, &["bc", ""])?;
        expect_rows(screen, 65535, 65535, &["", ""])?;
        let texts: Result<Vec<String>, Error> = screen.rows(1, 2).try_collect(rt.alloc());
        expect_texts(texts?, &["bc", ""])?;
    }
    Ok(())
}

/// Fails if `texts` does not equal `wanted`.
pub(crate) fn expect_texts(texts: Vec<String>, wanted: &[&str]) -> Result<(), Fail> {
    if texts.len() != wanted.len() {
        return Err(Fail::new("more texts, or fewer"));
    }
    for (text, word) in texts.iter().zip(wanted.iter()) {
        if text.as_str() != *word {
            return Err(Fail::new(format_args!("{text:?} and not {word:?}")));
        }
    }
    Ok(())
}

#[test]
fn rows_end_for_good(rt: HostRuntime) -> Result<(), Fail> {
    let parser = read_keeping(rt.alloc(), (1, 4), 0, &[b"ab"])?;
    let mut rows = parser.screen().rows(0, 4);
    assert!(rt; rows.next().is_some());
    assert!(rt; rows.next().is_none());
    assert!(rt; rows.next().is_none());
    Ok(())
}

/// Test cases: a size, the input, a range given by its first column and its number of columns, and
/// the output for each row.
#[rattlefmt::skip]
const FORMATTED: [((u16, u16), &str, (u16, u16), &[&str]); 9] = [
    ((2, 4), "abcdx", (0, 4), &["abcd", "x"]),
    ((2, 4), "abcdx", (1, 2), &["bc", ""]),
    ((1, 4), "\x1b[31mabcd", (1, 2), &["\x1b[31mbc"]),
    ((1, 4), "abcd", (3, 65535), &["d"]),
    ((1, 4), "abcd", (2, 0), &[""]),

    // The blank first cell after a wrapped row.
    ((2, 4), "abcdx\x1b[2;1H\x1b[X", (0, 4), &["abcd", " \x08\x1b[X"]),
    ((2, 4), "abcdx\x1b[2;1H\x1b[X", (0, 3), &["abc", ""]),

    // Ranges that cut a wide glyph.
    ((1, 4), "中ab", (1, 2), &["\x1b[X\x1b[Ca"]),
    ((1, 4), "ab中", (1, 2), &["b中"]),
];

/// Test cases: a size, two inputs, a range given by its first column and its number of columns, and
/// the diff of each row from the screen after the first input to the screen after the second input.
#[rattlefmt::skip]
const CHANGED: [((u16, u16), &str, &str, (u16, u16), &[&str]); 9] = [
    ((2, 4), "ab中x", "ab中x\x1b[1;4Hd", (0, 4), &["\x1b[2C\x1b[X\x1b[Cd", ""]),
    ((2, 4), "abcdx", "abcd\r\nx", (0, 4), &["\x1b[3C\x1b[Xd", ""]),
    ((2, 4), "abcd\r\nx", "abcdx", (0, 4), &["\x1b[3Cd", ""]),
    ((2, 4), "abcd\r\nx", "abcdx", (0, 3), &["", ""]),
    ((2, 4), "abcdx", "abcdx", (0, 65535), &["", ""]),
    ((1, 4), "abcd", "a", (0, 4), &["\x1b[C\x1b[K"]),
    ((1, 4), "abcd", "a", (1, 3), &["\x1b[K"]),
    ((1, 4), "abcd", "a", (1, 2), &["\x1b[2X"]),
    ((1, 4), "abcd", "a", (1, 1), &["\x1b[X"]),
];

#[test]
fn rows_formatted(rt: HostRuntime) -> Result<(), Fail> {
    for (size, text, range, wanted) in &FORMATTED {
        for most in 0..=text.len() {
            let parser = taken(rt.alloc(), *size, 0, &[Text(*text)], Pieces::Two(most))?;
            expect_texts(formatted(rt.alloc(), parser.screen(), *range)?, *wanted)?;
        }
        expect_read_back_at_each_byte(rt.alloc(), *size, 0, &[Text(*text)])?;
        let parser = taken(rt.alloc(), *size, 0, &[Text(*text)], Pieces::Single)?;
        expect_texts(formatted(rt.alloc(), parser.screen(), *range)?, *wanted)?;
    }
    Ok(())
}

#[test]
fn rows_diff(rt: HostRuntime) -> Result<(), Fail> {
    for (size, was, text, range, wanted) in &CHANGED {
        expect_read_back_at_each_byte(rt.alloc(), *size, 0, &[Text(*was)])?;
        expect_read_back_at_each_byte(rt.alloc(), *size, 0, &[Text(*text)])?;
        let prev = taken(rt.alloc(), *size, 0, &[Text(*was)], Pieces::Single)?;
        for most in 0..=text.len() {
            let parser = taken(rt.alloc(), *size, 0, &[Text(*text)], Pieces::Two(most))?;
            let texts = changed(rt.alloc(), parser.screen(), prev.screen(), *range)?;
            expect_texts(texts, *wanted)?;
        }
    }
    Ok(())
}

/// Returns, for each row, the redraw within a range of columns. Fails if the range begins past the
/// last column.
fn formatted(
    alloc: Global,
    screen: &Screen,
    (start, width): (u16, u16),
) -> Result<Vec<String>, Fail> {
    let (_rows, cols) = screen.size();
    if start >= cols.get() {
        return Err(Fail::new("a range past the columns"));
    }
    let texts: Result<Vec<String>, Error> = screen.rows_formatted(start, width).try_collect(alloc);
    Ok(texts?)
}

/// Returns, for each row, the diff from `prev` to `screen` within a range of columns. Fails if the
/// screens differ in size or the range begins past the last column.
fn changed(
    alloc: Global,
    screen: &Screen,
    prev: &Screen,
    (start, width): (u16, u16),
) -> Result<Vec<String>, Fail> {
    let (rows, cols) = screen.size();
    let (other_rows, other_cols) = prev.size();
    if rows.get() != other_rows.get() || cols.get() != other_cols.get() || start >= cols.get() {
        return Err(Fail::new("screens of two sizes, or a range past the columns"));
    }
    let texts: Result<Vec<String>, Error> = screen.rows_diff(prev, start, width).try_collect(alloc);
    Ok(texts?)
}

/// Input with wrapped rows, wide glyphs and colors.
const ONE: &[u8] = b"ab\xe4\xb8\xadcd\x1b[31mxy\x1b[4;2H\x1b[44m\x1b[K";

const OTHER: &[u8] = b"\x1b[32mfgh\xe4\xb8\xadij\x1b[1mklm\xe4\xb8\xadnopqr";

#[test]
fn rows_are_read(rt: HostRuntime) -> Result<(), Fail> {
    let shown = read_keeping(rt.alloc(), (4, 6), 0, &[ONE])?;
    let mut reader = read_keeping(rt.alloc(), (4, 6), 0, &[])?;
    let texts = formatted(rt.alloc(), shown.screen(), (0, 6))?;
    read_rows(rt.alloc(), &mut reader, texts)?;
    assert!(rt; have_same_cells(reader.screen(), shown.screen(), 4));
    Ok(())
}

#[test]
fn changed_rows_are_read(rt: HostRuntime) -> Result<(), Fail> {
    let shown = read_keeping(rt.alloc(), (4, 6), 0, &[ONE])?;
    let prev = read_keeping(rt.alloc(), (4, 6), 0, &[OTHER])?;
    let mut reader = read_keeping(rt.alloc(), (4, 6), 0, &[OTHER])?;
    let texts = changed(rt.alloc(), shown.screen(), prev.screen(), (0, 6))?;
    read_rows(rt.alloc(), &mut reader, texts)?;
    assert!(rt; have_same_cells(reader.screen(), shown.screen(), 4));
    Ok(())
}

/// Feeds the output of each row to a terminal, with the cursor at the first column of the row and
/// default attributes.
fn read_rows(alloc: Global, reader: &mut Parser<Notes>, texts: Vec<String>) -> Result<(), Fail> {
    for (row, text) in (1..=4).zip(texts) {
        let mut bytes = String::new(alloc);
        write!(bytes, "\x1b[{row}H\x1b[m{text}")?;
        reader.process(bytes.as_bytes())?;
    }
    Ok(())
}

#[test]
fn rows_come_in_turn(rt: HostRuntime) -> Result<(), Fail> {
    let parser = read_keeping(rt.alloc(), (2, 4), 0, &[b"ab\r\n\x1b[1mcd"])?;
    let mut rows = parser.screen().rows_formatted(0, 4);
    for wanted in ["ab", "\x1b[1mcd"] {
        let text = rows.next().ok_or("fewer texts")?;
        assert!(rt; text?.as_str() == wanted);
    }
    assert!(rt; rows.next().is_none());
    Ok(())
}

#[test]
fn texts_end_for_good(rt: HostRuntime) -> Result<(), Fail> {
    let parser = read_keeping(rt.alloc(), (1, 4), 0, &[b"ab"])?;
    let mut rows = parser.screen().rows_formatted(0, 4);
    assert!(rt; rows.next().is_some());
    assert!(rt; rows.next().is_none());
    assert!(rt; rows.next().is_none());
    Ok(())
}
