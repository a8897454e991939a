//! Tests of diffs, with and without movements of rows and columns: their escape sequences, and the
//! display of a terminal that parses them.

use std::alloc::Global;
use std::test::Fail;
use test_input::examples::Step::{self, Text, View};
use test_input::examples::{Pieces, expect_read_back_at_each_byte, longest, taken};
use test_input::readback::Change;
use vt100::Screen;

/// An example: a size, a scrollback capacity, the steps of two new parsers, and the escape
/// sequences that turn the display of the first parser into that of the second.
pub(crate) type Example = (
    (u16, u16),
    usize,
    &'static [Step],
    &'static [Step],
    &'static str,
);

#[rattlefmt::skip]
const DIFFERENCES: [Example; 14] = [
    // Cells in a different color, and erased cells.
    (
        (24, 80), 0,
        &[Text("this text is \x1b[31mRED\x1b[m")],
        &[Text("this text is \x1b[31mRED\x1b[m\x1b[3D\x1b[32mGREEN")],
        "\x1b[1;14H\x1b[32mGREEN",
    ),
    ((1, 6), 0, &[Text("abcdef")], &[Text("abcdef\x1b[1;2H\x1b[2X")], "\x1b[1;2H\x1b[2X"),

    // Only the cursor, its visibility or the attributes differ.
    ((2, 4), 0, &[Text("ab")], &[Text("ab\x1b[2;1H")], "\r\n"),
    ((2, 4), 0, &[Text("ab")], &[Text("ab\x1b[1m")], "\x1b[1m"),
    ((2, 4), 0, &[Text("ab")], &[Text("ab\x1b[?25l")], "\x1b[?25l"),

    // A row becomes wrapped, or is no longer wrapped.
    ((2, 4), 0, &[Text("abcdx")], &[Text("abcd\r\nx")], "\x1b[1;4H\x1b[Xd\x1b[2;2H"),
    ((2, 4), 0, &[Text("abcd\r\nx")], &[Text("abcdx")], "\x1b[1;4Hdx"),
    (
        (2, 4), 0,
        &[Text("abcdxyz")],
        &[Text("abcdxyz\x1b[1;4He\x1b[2;2H\x1b[X")],
        "\x1b[1;4He\x1b[2;2H\x1b[X",
    ),
    ((3, 1), 0, &[Text("a\r\nbc")], &[Text("abc\x1b[2;1H\x1b[X")], "\x1b[Ha \x08\x1b[X"),

    // Wide glyphs at the end of a row.
    (
        (2, 4), 0,
        &[Text("ab\u{4e2d}x")],
        &[Text("ab\u{4e2d}x\x1b[1;4Hd")],
        "\x1b[1;3H\x1b[X\x1b[Cdx\x1b[1;4Hd",
    ),
    ((2, 4), 0, &[Text("ab\u{4e2d}x")], &[Text("ab\u{4e2d}\r\nx")], "\x1b[1;3H\x1b[X\u{4e2d}\x1b[2;2H"),
    ((2, 4), 0, &[Text("ab\u{4e2d}\r\nx")], &[Text("ab\u{4e2d}x")], "\x1b[1;3H\u{4e2d}x"),

    // A glyph that U+FE0F made wide.
    (
        (2, 5), 0,
        &[Text("abcde")],
        &[Text("a\u{2764}\u{fe0f}xe")],
        "\x1b[1;2H\u{2764}\u{fe0f}xe",
    ),

    // Displayed scrollback.
    (
        (2, 4), 10,
        &[Text("a\r\nb\r\nc")],
        &[Text("a\r\nb\r\nc"), View(1)],
        "\x1b[Ha\r\nb",
    ),
];

/// Checks an example with the bytes in two chunks and one by one. Fails if the diff is not the
/// expected one, if a terminal that parses the diff does not display the second screen, or if the
/// diff from a screen to itself is not empty. Also fails if, after some prefix of the bytes, a
/// terminal that parses the screen's output does not display the screen.
pub(crate) fn expect_at_each_cut(
    alloc: Global,
    change: Change,
    example: &Example,
) -> Result<(), Fail> {
    for most in 0..=longest(example.2).max(longest(example.3)) {
        expect(alloc, change, example, Pieces::Two(most))?;
    }
    expect(alloc, change, example, Pieces::Single)?;
    expect_read_back_at_each_byte(alloc, example.0, example.1, example.2)?;
    expect_read_back_at_each_byte(alloc, example.0, example.1, example.3)
}

fn expect(
    alloc: Global,
    change: Change,
    (size, capacity, before, steps, wanted): &Example,
    pieces: Pieces,
) -> Result<(), Fail> {
    let prev = taken(alloc, *size, *capacity, before, pieces)?;
    let parser = taken(alloc, *size, *capacity, steps, pieces)?;
    let (prev, screen) = (prev.screen(), parser.screen());
    let text = change.text(screen, prev)?;
    expect_text(text.as_str(), wanted)?;
    change.expect_read(alloc, screen, prev, wanted)?;
    let back = change.text(prev, screen)?;
    change.expect_read(alloc, prev, screen, back.as_str())?;
    expect_none_from_itself(change, screen)?;
    expect_none_from_itself(change, prev)
}

fn expect_text(found: &str, wanted: &str) -> Result<(), Fail> {
    if found != wanted {
        let (found, wanted) = (found.as_bytes(), wanted.as_bytes());
        return Err(Fail::new(format_args!(
            "{} and not {}",
            found.escape_ascii(),
            wanted.escape_ascii()
        )));
    }
    Ok(())
}

fn expect_none_from_itself(change: Change, screen: &Screen) -> Result<(), Fail> {
    let text = change.text(screen, screen)?;
    expect_text(text.as_str(), "")
}

#[test]
fn differs(rt: HostRuntime) -> Result<(), Fail> {
    for example in &DIFFERENCES {
        expect_at_each_cut(rt.alloc(), Change::Picture, example)?;
    }
    Ok(())
}

/// Test cases: a size, a scrollback capacity, and the steps that produce a screen. The diff from
/// each of these screens to itself must be empty. Among them are screens of one and two columns
/// with a glyph that contains U+FE0F, a wrapped row, a pending wrap after an erased row, displayed
/// scrollback, and modes.
const ALONE: [((u16, u16), usize, &[Step]); 9] = [
    ((2, 1), 0, &[Text("\u{2764}\u{fe0f}")]),
    ((2, 2), 0, &[Text("\u{2764}\u{fe0f}")]),
    ((2, 4), 0, &[Text("abc\u{2764}\u{fe0f}")]),
    ((2, 4), 0, &[Text("#\u{fe0f}a\u{a9}\u{fe0f}")]),
    ((3, 4), 0, &[Text("abcdx\x1b[L")]),
    ((2, 4), 0, &[Text("\x1b[31mabcd\x1b[2K\x1b[?25l")]),
    (
        (2, 4),
        10,
        &[Text("\u{2764}\u{fe0f}\r\nab\u{4e2d}c\x1b[7m"), View(1)],
    ),
    ((2, 4), 10, &[Text("a\r\nb\r\nc\r\nd"), View(2)]),
    (
        (2, 1),
        0,
        &[Text("\u{2764}\u{fe0f}\x1b=\x1b[?1;1003;1006;2004h\x1b[5 q")],
    ),
];

#[test]
fn no_screen_differs_from_itself(rt: HostRuntime) -> Result<(), Fail> {
    for (size, capacity, steps) in &ALONE {
        let parser = taken(rt.alloc(), *size, *capacity, steps, Pieces::Single)?;
        expect_none_from_itself(Change::Picture, parser.screen())?;
        expect_none_from_itself(Change::State, parser.screen())?;
    }
    Ok(())
}

/// Input that fills four rows.
const FOUR: &str = "aaaaaaaaa\r\nbbbbbbbbb\r\nccccccccc\r\nddddddddd";

/// Input that adds a fifth row, which does not move, and leaves the cursor at the end of the fourth
/// row.
const FIFTH: &str = "\r\nsssssssss\x1b[4;10H";

/// Input with a row of words.
const SIX: &str = "one two three four five six";

/// Input with the words of [`SIX`] except the second one.
const FIVE: &str = "one three four five six";

#[rattlefmt::skip]
const MOVED: [Example; 7] = [
    // All rows move up.
    (
        (4, 10), 0,
        &[Text(FOUR)],
        &[Text(FOUR), Text("\r\neeeeeeeee")],
        "\x1b[H\x1b[M\n\n\neeeeeeeee",
    ),

    // The rows above the last one move up.
    (
        (5, 10), 0,
        &[Text(FOUR), Text(FIFTH)],
        &[Text(FOUR), Text(FIFTH), Text("\x1b[1;4r\x1b[4;1H\neeeeeeeee\x1b[r\x1b[4;10H")],
        "\x1b[H\x1b[M\n\n\n\x1b[Leeeeeeeee",
    ),

    // All rows move down, and then only the rows above the last one.
    (
        (4, 10), 0,
        &[Text(FOUR), Text("\x1b[H")],
        &[Text(FOUR), Text("\x1b[H\x1b[Lzzzzzzzzz")],
        "\x1b[Lzzzzzzzzz",
    ),
    (
        (5, 10), 0,
        &[Text(FOUR), Text(FIFTH), Text("\x1b[H")],
        &[Text(FOUR), Text(FIFTH), Text("\x1b[1;4r\x1b[H\x1b[L\x1b[rzzzzzzzzz")],
        "\n\n\n\x1b[M\x1b[H\x1b[Lzzzzzzzzz",
    ),

    // The attributes are reset to their defaults first.
    (
        (4, 10), 0,
        &[Text(FOUR), Text("\x1b[41m")],
        &[Text(FOUR), Text("\r\neeeeeeeee")],
        "\x1b[m\x1b[H\x1b[M\n\n\neeeeeeeee",
    ),
    (
        (4, 10), 0,
        &[Text(FOUR), Text("\x1b[41m")],
        &[Text(FOUR), Text("\x1b[41m\r\neeeeeeeee")],
        "\x1b[m\x1b[H\x1b[M\n\n\n\x1b[41meeeeeeeee",
    ),

    // Nothing has moved.
    ((4, 10), 0, &[Text(FOUR)], &[Text(FOUR), Text("\x1b[H0")], "\x1b[H0"),
];

#[rattlefmt::skip]
const ERASED: [Example; 2] = [
    // DL erases all rows.
    ((4, 10), 0, &[Text(FOUR)], &[Text(FOUR), Text("\x1b[H\x1b[J")], "\x1b[H\x1b[4M"),

    // DL erases the rows above the last one, and IL moves it back.
    (
        (5, 10), 0,
        &[Text(FOUR), Text(FIFTH)],
        &[Text("\x1b[5;1Hsssssssss\x1b[H")],
        "\x1b[H\x1b[4M\x1b[4L",
    ),
];

#[rattlefmt::skip]
const REDRAWN: [Example; 1] = [
    // Below the 256 rows that are searched for moves, the old text of ten rows is too long to be
    // erased row by row, so the redraw is shorter.
    (
        (266, 4), 0,
        &[Text("\x1b[257;1Haa\r\naa\r\naa\r\naa\r\naa\r\naa\r\naa\r\naa\r\naa\r\naa\x1b[H")],
        &[Text("\x1b[257;1Hb\r\nb\r\nb\r\nb\r\nb\r\nb\r\nb\r\nb\r\nb\r\nb")],
        "\x1b[?25h\x1b[m\x1b[H\x1b[J\x1b[257;1Hb\r\nb\r\nb\r\nb\r\nb\r\nb\r\nb\r\nb\r\nb\r\nb",
    ),
];

#[rattlefmt::skip]
const SHIFTED: [Example; 4] = [
    // Columns are deleted.
    (
        (1, 30), 0,
        &[Text(SIX)],
        &[Text(SIX), Text("\x1b[1;6H\x1b[4P")],
        "\x1b[6G\x1b[4P",
    ),

    // Columns are inserted, and the blanks are drawn over.
    (
        (1, 30), 0,
        &[Text(FIVE)],
        &[Text(FIVE), Text("\x1b[1;6H\x1b[4@wo t")],
        "\x1b[6G\x1b[4@wo t",
    ),

    // Columns of two rows are deleted, but not those of the row between them.
    (
        (3, 30), 0,
        &[Text(SIX), Text("\r\nsix\r\n"), Text(SIX)],
        &[Text(SIX), Text("\r\nsix\r\n"), Text(SIX), Text("\x1b[1;6H\x1b[4P\x1b[3;6H\x1b[4P")],
        "\x1b[1;6H\x1b[4P\n\n\x1b[4P",
    ),

    // The attributes are reset to their defaults first.
    (
        (1, 30), 0,
        &[Text(SIX), Text("\x1b[41m")],
        &[Text(FIVE), Text("\x1b[1;6H")],
        "\x1b[m\x1b[6G\x1b[4P",
    ),
];

#[rattlefmt::skip]
const SHORTENED: [Example; 11] = [
    // HT moves to the next column that is a multiple of 8.
    ((1, 30), 0, &[Text("\x1b[H")], &[Text("\x1b[1;9Hz")], "\tz"),

    // HT moves too far, and BS moves back.
    ((1, 30), 0, &[Text("\x1b[H")], &[Text("\x1b[1;7Hz")], "\t\x08\x08z"),

    // CUF remains if HT is not shorter.
    ((1, 30), 0, &[Text("\x1b[H")], &[Text("\x1b[1;3Hz")], "\x1b[2Cz"),

    // BS moves left.
    ((1, 30), 0, &[Text("abcde")], &[Text("abcde"), Text("\x1b[1;4Hz")], "\x08\x08z"),

    // CR moves to the first column.
    ((1, 30), 0, &[Text("abcde")], &[Text("abcde"), Text("\rz")], "\rz"),

    // LF moves down and keeps the column.
    ((3, 30), 0, &[Text("ab")], &[Text("ab"), Text("\x1b[3;3Hz")], "\n\nz"),

    // CHA moves to a column.
    (
        (2, 90), 0,
        &[Text("\x1b[1;70H")],
        &[Text("\x1b[2;40Hz")],
        "\n\x1b[40Gz",
    ),

    // While a wrap is pending, the position is not known.
    ((2, 3), 0, &[Text("abc")], &[Text("abc"), Text("\x1b[2;2Hz")], "\x1b[2;2Hz"),

    // LF and CR move to the beginning of a row if they are not longer than CUP without a column.
    ((6, 30), 0, &[Text("ab")], &[Text("ab"), Text("\x1b[4;1Hz")], "\n\n\n\rz"),

    // CUP without a column moves to the beginning of a row further down.
    ((6, 30), 0, &[Text("ab")], &[Text("ab"), Text("\x1b[5;1Hz")], "\x1b[5Hz"),

    // CUP without a column does not need a known position.
    ((3, 3), 0, &[Text("abc")], &[Text("abc"), Text("\x1b[3;1Hz")], "\x1b[3Hz"),
];

/// Input with a row of letters, which leaves the cursor at its beginning.
const LETTERS: &str = "abcdefgh\x1b[H";

#[rattlefmt::skip]
const GAPS: [Example; 8] = [
    // Two columns between changed columns are printed again, since CUF takes four bytes.
    ((1, 30), 0, &[Text(LETTERS)], &[Text(LETTERS), Text("X\x1b[2CY")], "XbcY"),

    // So are gaps in a row below.
    (
        (2, 30), 0,
        &[Text("abcd\r\nefgh\x1b[H")],
        &[Text("abcd\r\nefgh\x1b[HX\r\nY\x1b[CZ")],
        "X\r\nYfZ",
    ),

    // Four columns are skipped, since CUF is not longer.
    ((1, 30), 0, &[Text(LETTERS)], &[Text(LETTERS), Text("X\x1b[4CY")], "X\x1b[4CY"),

    // Columns with different attributes are skipped.
    (
        (1, 30), 0,
        &[Text("a\x1b[31mb\x1b[mcd\x1b[H")],
        &[Text("a\x1b[31mb\x1b[mcd\x1b[HX\x1b[2CY")],
        "X\x1b[2CY",
    ),

    // Columns are skipped while the attributes are not the default ones.
    (
        (1, 30), 0,
        &[Text(LETTERS)],
        &[Text(LETTERS), Text("\x1b[31mX\x1b[2CY\x1b[m")],
        "\x1b[31mX\x1b[2CY\x1b[m",
    ),

    // Blank columns are skipped.
    (
        (1, 30), 0,
        &[Text("a\x1b[Cc\x1b[H")],
        &[Text("a\x1b[Cc\x1b[HX\x1b[CY")],
        "X\x1b[CY",
    ),

    // Columns that the diff has just erased are skipped.
    (
        (1, 30), 0,
        &[Text(LETTERS)],
        &[Text(LETTERS), Text("\x1b[2X\x1b[3CY")],
        "\x1b[2X\x1b[3CY",
    ),

    // Columns before a character that is not ASCII are skipped.
    ((1, 30), 0, &[Text(LETTERS)], &[Text(LETTERS), Text("X\x1b[2C\u{e9}")], "X\x1b[2C\u{e9}"),
];

#[test]
fn short_gaps_are_printed(rt: HostRuntime) -> Result<(), Fail> {
    for example in &GAPS {
        expect_at_each_cut(rt.alloc(), Change::Scrolling, example)?;
    }
    Ok(())
}

#[test]
fn movements_are_short(rt: HostRuntime) -> Result<(), Fail> {
    for example in &SHORTENED {
        expect_at_each_cut(rt.alloc(), Change::Scrolling, example)?;
    }
    Ok(())
}

#[test]
fn columns_move_first(rt: HostRuntime) -> Result<(), Fail> {
    for example in &SHIFTED {
        expect_at_each_cut(rt.alloc(), Change::Scrolling, example)?;
    }
    Ok(())
}

#[test]
fn rows_move_first(rt: HostRuntime) -> Result<(), Fail> {
    for example in &MOVED {
        expect_at_each_cut(rt.alloc(), Change::Scrolling, example)?;
    }
    Ok(())
}

#[test]
fn rows_are_erased_first(rt: HostRuntime) -> Result<(), Fail> {
    for example in &ERASED {
        expect_at_each_cut(rt.alloc(), Change::Scrolling, example)?;
    }
    Ok(())
}

#[test]
fn shorter_redraws_are_chosen(rt: HostRuntime) -> Result<(), Fail> {
    for example in &REDRAWN {
        expect_at_each_cut(rt.alloc(), Change::Scrolling, example)?;
    }
    Ok(())
}
