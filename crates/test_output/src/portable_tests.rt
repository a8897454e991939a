//! Tests of portable redraws and diffs, which avoid sequences on whose effects terminals disagree.

use crate::difference_tests::{Example, expect_at_each_cut};
use crate::redraw_tests::{Example as Redrawn, expect_at_each_cut as expect_redraw, wanted_text};
use std::test::Fail;
use test_input::examples::Step::Text;
use test_input::readback::Asked::Portable;
use test_input::readback::Change;
use vt100::{DiffOptions, Repeat};

/// Portable diffs that may move rows and have short cursor movements.
const SHORT: DiffOptions = DiffOptions {
    scroll: true,
    repeat: Repeat::Never,
    portable: true,
};

/// Portable diffs without REP.
const PORTABLE: DiffOptions = DiffOptions {
    scroll: false,
    repeat: Repeat::Never,
    portable: true,
};

#[rattlefmt::skip]
const REDRAWN: [Redrawn; 16] = [
    // A wrap is pending on a row whose last cell is blank. Terminals disagree on where the cursor
    // is then, so it is moved to a position.
    (
        (2, 5), 0, &[Text("abcd\r\nxxxxx\x1b[A")],
        Portable, "abcd\r\nxxxxx\x1b[1;5H \x1b7\x1b[1;5H\x1b[X\x1b8",
    ),

    // Many terminals do not clear dim when bold is set, nor the reverse.
    ((2, 5), 0, &[Text("\x1b[2ma\x1b[22;1mb")], Portable, "\x1b[2ma\x1b[m\x1b[1mb"),
    (
        (2, 5), 0, &[Text("\x1b[1;31ma\x1b[22;2mb\x1b[22mc")],
        Portable, "\x1b[31;1ma\x1b[m\x1b[31;2mb\x1b[22mc",
    ),

    // A blank at the beginning of a row below a wrapped row.
    ((3, 4), 0, &[Text("abcdx\x1b[L")], Portable, "abcd \x1b[2;1H\x1b[X\r\nx\x1b[2;2H"),

    // A heart with U+FE0F, an Indic vowel sign after its consonant, and a letter with U+0301:
    // terminals disagree on their widths, so the next character is placed.
    ((1, 5), 0, &[Text("\u{2764}\u{fe0f}x")], Portable, "\u{2764}\u{fe0f}\x1b[1;3Hx"),
    ((1, 5), 0, &[Text("\u{915}\u{93f}x")], Portable, "\u{915}\u{93f}\x1b[1;3Hx"),
    ((1, 5), 0, &[Text("xe\u{301}")], Portable, "xe\u{301}\x1b[1;3H"),

    // Such a glyph at the end of a row. Terminals may have wrapped already, so CR is not used.
    ((2, 2), 0, &[Text("ae\u{301}\r\nb")], Portable, "ae\u{301}\x1b[2;1Hb"),

    // Such a glyph at the end of a wrapped row. Terminals may wrap elsewhere, so a space marks the row
    // as wrapped, and the first glyph of the next row is placed.
    ((2, 2), 0, &[Text("ae\u{301}bc")], Portable, "ae\u{301} \x1b[2;1Hbc"),
    ((2, 4), 0, &[Text("ab\u{2764}\u{fe0f}x")], Portable, "ab\u{2764}\u{fe0f} \x1b[2;1Hx"),
    ((2, 4), 0, &[Text("ab\u{2764}\u{fe0f}\u{65e5}")], Portable, "ab\u{2764}\u{fe0f} \x1b[2;1H\u{65e5}"),
    ((2, 2), 0, &[Text("ae\u{301}\x1b[31mb")], Portable, "ae\u{301}\x1b[31m \x1b[2;1Hb"),
    ((3, 1), 0, &[Text("e\u{301}xy")], Portable, "e\u{301} \x1b[2;1Hxy"),
    ((2, 2), 0, &[Text("ab\u{2764}\u{fe0f}")], Portable, "ab\u{2764}\u{fe0f}"),

    // A wrap is pending below such a glyph, or below a glyph of certain width.
    (
        (2, 2), 0, &[Text("ae\u{301}\n")],
        Portable, "ae\u{301}\x1b[2;2H \x1b7\x1b[2;2H\x1b[X\x1b8",
    ),
    ((2, 2), 0, &[Text("ab\n")], Portable, "ab\n"),
];

#[test]
fn portable_redraws_use_no_state_in_which_terminals_disagree(rt: HostRuntime) -> Result<(), Fail> {
    for example in &REDRAWN {
        let wanted = wanted_text(rt.alloc(), Portable, example.4)?;
        expect_redraw(rt.alloc(), example, wanted.as_str())?;
    }
    Ok(())
}

#[rattlefmt::skip]
const CHANGED: [Example; 11] = [
    // The three faults of the fixed form.
    (
        (2, 5), 0, &[], &[Text("abcd\r\nxxxxx\x1b[A")],
        "abcd\r\nxxxxx\x1b[1;5H \x1b7\x1b[1;5H\x1b[X\x1b8",
    ),
    ((2, 5), 0, &[], &[Text("\x1b[2ma\x1b[22;1mb")], "\x1b[2ma\x1b[m\x1b[1mb"),
    (
        (2, 4), 0, &[Text("ab\u{65e5}x")], &[Text("ab\u{65e5}\r\nx")],
        "\x1b[1;3H\x1b[2X\u{65e5}\x1b[2;2H",
    ),

    // A blank over the first half of a wide glyph: the whole glyph is erased.
    (
        (1, 4), 0, &[Text("\u{65e5}b")], &[Text("\x1b[2Gxb")],
        "\x1b[H\x1b[2X\x1b[Cx\x1b[C",
    ),

    // A letter with U+0301: terminals disagree on its width, so what follows is placed.
    ((2, 5), 0, &[Text("ab")], &[Text("e\u{301}c")], "\x1b[He\u{301}\x1b[1;2Hc"),
    ((2, 5), 0, &[Text("a")], &[Text("e\u{301}")], "\x1b[He\u{301}\x1b[1;2H"),

    // A wrap is pending after such a glyph, and a glyph follows on the next row.
    ((2, 2), 0, &[Text("ae\u{301}")], &[Text("ae\u{301}b")], " \x1b[2;1Hb"),

    // The row above becomes wrapped, and ends with such a glyph.
    (
        (2, 2), 0, &[Text("ae\u{301}\r\nxy")], &[Text("ae\u{301}xy")],
        "\x1b[1;2He\u{301} \x1b[2;1Hxy",
    ),

    // A wide glyph, half of which the space overwrites.
    (
        (2, 2), 0, &[Text("ae\u{301}\r\n\u{65e5}")], &[Text("ae\u{301}\u{65e5}")],
        "\x1b[1;2He\u{301} \x1b[2;1H\u{65e5}",
    ),

    // A wrap is pending after such a glyph. Terminals may have wrapped already, so CR is not used.
    ((2, 2), 0, &[Text("ae\u{301}")], &[Text("ae\u{301}\r\nb")], "\x1b[2;1Hb"),

    // The fixed form is kept where terminals agree.
    ((2, 20), 0, &[], &[Text("----------")], "----------"),
];

#[test]
fn portable_diffs_use_no_state_in_which_terminals_disagree(rt: HostRuntime) -> Result<(), Fail> {
    for example in &CHANGED {
        expect_at_each_cut(rt.alloc(), Change::With(PORTABLE), example)?;
    }
    Ok(())
}

#[rattlefmt::skip]
const SHORTENED: [Example; 9] = [
    // BS, CR and LF are shorter than CUP.
    ((2, 5), 0, &[Text("abc\r\ndef")], &[Text("abc\r\ndef\x1b[2;2H")], "\x08\x08"),
    ((2, 5), 0, &[Text("abc")], &[Text("abc\x1b[H")], "\r"),
    ((2, 5), 0, &[Text("abc")], &[Text("abc\x1b[2;4H")], "\n"),

    // HT would be shorter than CUF, but tab stops may be cleared.
    ((1, 20), 0, &[], &[Text("\x1b[17Gx")], "\x1b[16Cx"),

    // While a wrap is pending, the cursor moves only to an absolute position.
    ((2, 3), 0, &[Text("abc")], &[Text("abc\x1b[1;2H")], "\x1b[1;2H"),

    // Terminals agree on the widths of U+00E9 and of U+0915, an Indic letter, but not on that of
    // U+093F, an Indic vowel sign.
    ((1, 9), 0, &[], &[Text("\u{e9}\x1b[H")], "\u{e9}\r"),
    ((1, 9), 0, &[], &[Text("\u{915}\x1b[H")], "\u{915}\r"),
    ((1, 9), 0, &[], &[Text("\u{93f}\x1b[H")], "\u{93f}\x1b[H"),

    // The diff is shorter than 20 bytes, so no rows are moved.
    ((2, 3), 0, &[Text("a\r\nb")], &[Text("a\r\nb\n")], "\x1b[Hb\r\n\x1b[K\x1b[C"),
];

#[test]
fn portable_diffs_move_the_cursor_with_short_sequences(rt: HostRuntime) -> Result<(), Fail> {
    for example in &SHORTENED {
        expect_at_each_cut(rt.alloc(), Change::With(SHORT), example)?;
    }
    Ok(())
}

/// Input that fills four rows of nine or ten columns.
const FOUR: &str = "aaaaaaaaa\r\nbbbbbbbbb\r\nccccccccc\r\nddddddddd";

#[rattlefmt::skip]
const MOVED: [Example; 6] = [
    // All rows move up, while a wrap is pending and while none is.
    (
        (4, 10), 0,
        &[Text(FOUR)],
        &[Text(FOUR), Text("\r\neeeeeeeee")],
        "\x1b[H\x1b[M\n\n\neeeeeeeee",
    ),
    (
        (4, 9), 0,
        &[Text(FOUR)],
        &[Text(FOUR), Text("\r\neeeeeeeee")],
        "\x1b[H\x1b[M\n\n\neeeeeeeee",
    ),

    // All rows move down. The cursor is already in the first column of the first row.
    (
        (4, 10), 0,
        &[Text(FOUR), Text("\x1b[H")],
        &[Text(FOUR), Text("\x1b[H\x1b[Lzzzzzzzzz")],
        "\x1b[Lzzzzzzzzz",
    ),

    // DL erases all rows, after the attributes are reset.
    (
        (4, 10), 0,
        &[Text(FOUR), Text("\x1b[1m")],
        &[Text(FOUR), Text("\x1b[H\x1b[J")],
        "\x1b[m\x1b[H\x1b[4M",
    ),

    // Columns have moved, but are drawn again.
    (
        (1, 30), 0,
        &[Text("one two three four five six")],
        &[Text("one two three four five six"), Text("\x1b[1;6H\x1b[4P")],
        "\x1b[6Ghree four five six\x1b[K\x1b[6G",
    ),

    // The portable redraw is shorter than drawing over the old text of ten rows.
    (
        (266, 4), 0,
        &[Text("\x1b[257;1Haa\r\naa\r\naa\r\naa\r\naa\r\naa\r\naa\r\naa\r\naa\r\naa\x1b[H")],
        &[Text("\x1b[257;1Hb\r\nb\r\nb\r\nb\r\nb\r\nb\r\nb\r\nb\r\nb\r\nb")],
        "\x1b[?25h\x1b[m\x1b[H\x1b[J\x1b[257;1Hb\r\nb\r\nb\r\nb\r\nb\r\nb\r\nb\r\nb\r\nb\r\nb",
    ),
];

#[test]
fn portable_diffs_move_rows_but_no_columns(rt: HostRuntime) -> Result<(), Fail> {
    for example in &MOVED {
        expect_at_each_cut(rt.alloc(), Change::With(SHORT), example)?;
    }
    Ok(())
}
