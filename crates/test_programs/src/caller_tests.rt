//! Tests of the proved callers: what each returns, and what a terminal displays afterward.

use crate::numbers::size;
use example_contracts::{mirroring, multiplexer, recording, screen_test, values};
use std::alloc::Global;
use std::test::Fail;
use vt_mirror::{Mirror, Update};
use vt100::{Color, CursorStyle, Error, MouseProtocolEncoding, MouseProtocolMode, Parser, Screen};

/// Creates a terminal with the given number of rows and columns.
fn terminal(alloc: Global, rows_and_cols: (u16, u16)) -> Result<Parser, Fail> {
    let (rows, cols) = size(rows_and_cols)?;
    Ok(Parser::new(alloc, rows, cols, 0)?)
}

/// Returns a screen of two rows and four columns after the input `text`.
fn screen_after(alloc: Global, text: &str) -> Result<Screen, Fail> {
    let mut terminal = terminal(alloc, (2, 4))?;
    terminal.process(text.as_bytes())?;
    Ok(terminal.screen().clone()?)
}

/// Fails if the size, text or cursor position of a terminal is not the expected one.
fn expect_shown(
    terminal: &Parser,
    rows_and_cols: (u16, u16),
    text: &str,
    cursor: (u16, u16),
) -> Result<(), Fail> {
    let screen = terminal.screen();
    if screen.size() != size(rows_and_cols)? {
        return Err(Fail::new(format_args!("{text:?}: the size is not {rows_and_cols:?}")));
    }
    let found = screen.contents()?;
    if found.as_str() != text {
        return Err(Fail::new(format_args!("{found:?} and not {text:?}")));
    }
    if screen.cursor_position() != cursor {
        return Err(Fail::new(format_args!("{text:?}: the cursor is not at {cursor:?}")));
    }
    Ok(())
}

/// Fails if a terminal does not display each screen that is sent to it. Sends a redraw of `first`
/// and the diff from `first` to `second`, then a redraw of `second` and the diff from `second` to
/// `first`.
fn send(first: &Screen, second: &Screen, remote: &mut Parser) -> Result<(), Fail> {
    if first.size() != second.size() {
        return Err(Fail::new("two sizes"));
    }
    multiplexer::send_redraw(first, remote)?;
    expect_shown(remote, (2, 4), "ab", (0, 2))?;
    multiplexer::send_difference(second, first, remote)?;
    expect_shown(remote, (2, 4), "ab\nxd", (1, 0))?;
    multiplexer::send_both(second, first, remote)?;
    expect_shown(remote, (2, 4), "ab", (0, 2))
}

#[test]
fn sends_a_redraw_and_a_difference(rt: HostRuntime) -> Result<(), Fail> {
    let first = screen_after(rt.alloc(), "ab")?;
    let second = screen_after(rt.alloc(), "ab\r\n\x1b[7mcd\rx\x08")?;
    send(&first, &second, &mut terminal(rt.alloc(), (2, 4))?)
}

/// Adds a viewer to a mirror that has already parsed `output`. Fails if the viewer's number or
/// display is not the expected one.
fn join_late(
    mirror: &mut Mirror,
    output: &str,
    terminal: &mut Parser,
    number: u64,
    (text, cursor): (&str, (u16, u16)),
) -> Result<(), Fail> {
    let viewer = mirroring::show_late(mirror, output.as_bytes(), terminal)?;
    if viewer != number {
        return Err(Fail::new(format_args!("viewer {viewer} and not {number}")));
    }
    expect_shown(terminal, (2, 4), text, cursor)
}

/// Checks that one terminal can join twice, each time as a separate viewer.
#[test]
fn shows_a_late_viewer_what_came_before(rt: HostRuntime) -> Result<(), Fail> {
    let (rows, cols) = size((2, 4))?;
    let mut mirror = Mirror::new(rt.alloc(), rows, cols, 0)?;
    let mut terminal = terminal(rt.alloc(), (1, 9))?;
    join_late(
        &mut mirror,
        "a\r\nb\r\nc",
        &mut terminal,
        0,
        ("b\nc", (1, 1)),
    )?;
    join_late(&mut mirror, "\x1b[Hx", &mut terminal, 1, ("x\nc", (0, 1)))
}

/// Creates a full update with the given number of rows and columns.
fn full(alloc: Global, rows: u16, cols: u16) -> Result<Update, Fail> {
    let text = String::from_str(alloc, "x")?;
    Ok(Update::Full { rows, cols, text })
}

#[test]
fn takes_no_update_without_a_row_or_a_column(rt: HostRuntime) -> Result<(), Fail> {
    let mut terminal = terminal(rt.alloc(), (1, 9))?;
    for (rows, cols) in [(0, 4), (2, 0)] {
        let answer = mirroring::take_update(&mut terminal, &full(rt.alloc(), rows, cols)?);
        assert!(rt;
            answer == Err(Error::Failed),
            "{rows} rows and {cols} columns"
        );
    }
    expect_shown(&terminal, (1, 9), "", (0, 0))?;
    mirroring::take_update(&mut terminal, &full(rt.alloc(), 2, 4)?)?;
    expect_shown(&terminal, (2, 4), "x", (0, 1))
}

/// Test cases: a size, the input, and the expected text of everything that was displayed.
const RECORDED: [((u16, u16), &str, &str); 4] = [
    ((1, 4), "", ""),
    ((1, 4), "ab", "ab"),
    ((1, 4), "a\r\nb\r\nc", "a\nb\nc"),
    ((2, 4), "abcdef\r\n\x1b[31mx", "abcdef\n\x1b[31mx"),
];

#[test]
fn records_the_same_with_any_scrollback(rt: HostRuntime) -> Result<(), Fail> {
    for (rows_and_cols, output, wanted) in &RECORDED {
        for capacity in [0, 1, 10] {
            expect_recorded(rt.alloc(), *rows_and_cols, capacity, output, wanted)?;
        }
    }
    Ok(())
}

fn expect_recorded(
    alloc: Global,
    rows_and_cols: (u16, u16),
    capacity: usize,
    output: &str,
    wanted: &str,
) -> Result<(), Fail> {
    let (rows, cols) = size(rows_and_cols)?;
    let text = recording::record(alloc, rows, cols, capacity, output.as_bytes())?;
    if text.as_str() != wanted {
        return Err(Fail::new(format_args!("{output:?} with {capacity}: {text:?}")));
    }
    Ok(())
}

/// Test cases: a row and a column, a text, and whether the cell at that position has the text. Only
/// the first cell of a wide character has its text.
const CELLS: [(u16, u16, &str, bool); 8] = [
    (0, 0, "a", true),
    (0, 0, "b", false),
    (0, 1, "\u{4e2d}", true),
    (0, 2, "\u{4e2d}", false),
    (0, 3, "", true),
    (1, 0, "", true),
    (2, 0, "", false),
    (0, 4, "", false),
];

/// Test cases: the index of a row, a text, and whether the row has that text.
const ROWS: [(u16, &str, bool); 5] = [
    (0, "a\u{4e2d}", true),
    (0, "a", false),
    (0, "a\u{4e2d} ", false),
    (1, "", true),
    (2, "", true),
];

#[test]
fn tells_what_stands_where(rt: HostRuntime) -> Result<(), Fail> {
    let screen = screen_after(rt.alloc(), "a\u{4e2d}")?;
    for (row, column, text, wanted) in &CELLS {
        let found = screen_test::cell_shows(&screen, *row, *column, text);
        assert!(rt; found == *wanted, "{text:?} at {row}, {column}");
    }
    for (row, text, wanted) in &ROWS {
        assert!(rt;
            screen_test::row_shows(&screen, *row, text)? == *wanted,
            "{text:?} in row {row}"
        );
    }
    assert!(rt; screen_test::screen_shows(&screen, "a\u{4e2d}")?);
    assert!(rt; !screen_test::screen_shows(&screen, "a")?);
    Ok(())
}

/// Test cases: input on a screen of two rows and four columns, a text, and whether that text is
/// displayed afterward.
const OUTPUTS: [(&str, &str, bool); 4] = [
    ("ab\r\ncd", "ab\ncd", true),
    ("ab\r\ncd", "ab", false),
    ("abcdef", "abcdef", true),
    ("ab\x1b[2J", "", true),
];

#[test]
fn tells_what_an_output_shows(rt: HostRuntime) -> Result<(), Fail> {
    let (rows, cols) = size((2, 4))?;
    for (output, text, wanted) in &OUTPUTS {
        if screen_test::output_shows(rt.alloc(), rows, cols, output.as_bytes(), text)? != *wanted {
            return Err(Fail::new(format_args!("{output:?} shows {text:?}: not {wanted}")));
        }
    }
    Ok(())
}

/// Lists of chunk sizes, which include single bytes, empty chunks, and chunks longer than the
/// output.
const CUTS: [&[usize]; 4] = [&[], &[1, 1, 0, 2], &[0, 100], &[3, 4, 5, 6, 7, 8]];

fn send_cut(first: &Screen, second: &Screen, remote: &mut Parser) -> Result<(), Fail> {
    if first.size() != second.size() {
        return Err(Fail::new("two sizes"));
    }
    for sizes in &CUTS {
        multiplexer::send_redraw_cut(first, sizes, remote)?;
        expect_shown(remote, (2, 4), "ab", (0, 2))?;
        multiplexer::send_difference_cut(second, first, sizes, remote)?;
        expect_shown(remote, (2, 4), "ab\nxd", (1, 0))?;
    }
    Ok(())
}

#[test]
fn sends_in_pieces(rt: HostRuntime) -> Result<(), Fail> {
    let first = screen_after(rt.alloc(), "ab")?;
    let second = screen_after(rt.alloc(), "ab\r\n\x1b[7mcd\rx\x08")?;
    send_cut(&first, &second, &mut terminal(rt.alloc(), (2, 4))?)
}

/// Test cases: output in chunks on a screen of two rows and four columns, a text, and whether that
/// text is displayed afterward.
const PIECES: [(&[&[u8]], &str, bool); 4] = [
    (&[], "", true),
    (&[b"a", b"", b"b\r", b"\ncd"], "ab\ncd", true),
    (&[b"ab\x1b", b"[2", b"J"], "", true),
    (&[b"ab", b"c"], "ab", false),
];

#[test]
fn tells_what_pieces_show(rt: HostRuntime) -> Result<(), Fail> {
    let (rows, cols) = size((2, 4))?;
    for (pieces, text, wanted) in &PIECES {
        let answer = screen_test::pieces_show(rt.alloc(), rows, cols, pieces, text)?;
        assert!(rt; answer == *wanted);
    }
    Ok(())
}

#[test]
fn copies_and_defaults_are_these(rt: HostRuntime) {
    let color = Color::Rgb(1, 2, 3);
    assert!(rt; values::same_color(&color) == color);
    let mode = MouseProtocolMode::AnyMotion;
    assert!(rt; values::same_mouse_mode(&mode) == mode);
    let encoding = MouseProtocolEncoding::Sgr;
    assert!(rt; values::same_mouse_encoding(&encoding) == encoding);
    let style = CursorStyle::SteadyVerticalBar;
    assert!(rt; values::same_cursor_style(&style) == style);
    assert!(rt; values::own_color() == Color::Default);
    assert!(rt; values::no_mouse_mode() == MouseProtocolMode::None);
    assert!(rt; values::first_mouse_encoding() == MouseProtocolEncoding::Default);
    assert!(rt; values::own_cursor_style() == CursorStyle::Default);
}
