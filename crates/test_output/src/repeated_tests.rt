//! Diffs in which runs of a character are written with REP (ECMA-48, 8.3.103).

use crate::difference_tests::{Example, expect_at_each_cut};
use std::test::Fail;
use test_input::examples::Step::Text;
use test_input::readback::Change;
use vt100::{DiffOptions, Repeat};

/// REP for any character, and no movements of rows or columns.
const REPEAT: DiffOptions = DiffOptions {
    scroll: false,
    repeat: Repeat::Any,
    portable: false,
};

/// REP for printable ASCII characters, and no movements of rows or columns.
const REPEAT_ASCII: DiffOptions = DiffOptions {
    scroll: false,
    repeat: Repeat::Ascii,
    portable: false,
};

/// Both options.
const BOTH: DiffOptions = DiffOptions {
    scroll: true,
    repeat: Repeat::Any,
    portable: false,
};

/// Neither option.
const NEITHER: DiffOptions = DiffOptions {
    scroll: false,
    repeat: Repeat::Never,
    portable: false,
};

/// Input that fills four rows.
const FOUR: &str = "aaaaaaaaa\r\nbbbbbbbbb\r\nccccccccc\r\nddddddddd";

#[rattlefmt::skip]
const REPEATED: [Example; 22] = [
    // The character, and nine repetitions.
    ((2, 20), 0, &[], &[Text("----------")], "-\x1b[9b"),

    // Spaces, too, and tildes, the first and the last printable ASCII characters.
    ((2, 20), 0, &[], &[Text("          x")], " \x1b[9bx"),
    ((2, 20), 0, &[], &[Text("~~~~~~~~~~")], "~\x1b[9b"),

    // REP is used only if it is shorter.
    ((2, 20), 0, &[], &[Text("aaaaaa")], "a\x1b[5b"),
    ((2, 20), 0, &[], &[Text("aaaaa")], "aaaaa"),

    // A run that fills a row.
    ((2, 10), 0, &[], &[Text("==========")], "=\x1b[9b"),

    // A repetition stops at the end of its row.
    ((2, 10), 0, &[], &[Text("============")], "=\x1b[9b=="),
    ((2, 10), 0, &[Text("abcde")], &[Text("abcde--------")], "--------"),

    // Runs after attributes and after a movement of the cursor.
    ((2, 10), 0, &[], &[Text("\x1b[31m#######")], "\x1b[31m#\x1b[6b"),
    ((2, 10), 0, &[], &[Text("\x1b[2;3H*******")], "\x1b[2;3H*\x1b[6b"),

    // A run between other characters.
    ((2, 20), 0, &[], &[Text("\u{4e2d}.........z")], "\u{4e2d}.\x1b[8bz"),

    // Characters of two, three and four bytes, with the fewest repetitions for which REP is shorter.
    ((2, 20), 0, &[], &[Text("\u{e9}\u{e9}\u{e9}\u{e9}")], "\u{e9}\x1b[3b"),
    ((2, 20), 0, &[], &[Text("\u{e9}\u{e9}\u{e9}")], "\u{e9}\u{e9}\u{e9}"),
    ((2, 20), 0, &[], &[Text("\u{2500}\u{2500}\u{2500}")], "\u{2500}\x1b[2b"),
    ((2, 20), 0, &[], &[Text("\u{2500}\u{2500}")], "\u{2500}\u{2500}"),
    ((2, 20), 0, &[], &[Text("\u{1d400}\u{1d400}\u{1d400}")], "\u{1d400}\x1b[2b"),

    // A repetition of such a character stops at the end of its row, too.
    ((2, 4), 0, &[], &[Text("\u{2500}\u{2500}\u{2500}\u{2500}\u{2500}")],
        "\u{2500}\x1b[3b\u{2500}"),

    // Wide characters are not repeated.
    ((2, 20), 0, &[], &[Text("\u{4e2d}\u{4e2d}\u{4e2d}\u{4e2d}")],
        "\u{4e2d}\u{4e2d}\u{4e2d}\u{4e2d}"),

    // A combining character is added to the last character of a run, which is not repeated, since
    // terminals differ in whether a combining character joins a repeated character.
    ((2, 20), 0, &[], &[Text("xxxxxxx\u{301}")], "x\x1b[5bx\u{301}"),
    ((2, 20), 0, &[], &[Text("xxxxxx\u{301}")], "xxxxxx\u{301}"),
    ((2, 20), 0, &[], &[Text("xxxxxxx\u{e9}")], "x\x1b[6b\u{e9}"),
    ((2, 20), 0, &[], &[Text("x\u{301}xxxxxxx")], "x\u{301}x\x1b[6b"),
];

#[test]
fn runs_are_repeated(rt: HostRuntime) -> Result<(), Fail> {
    for example in &REPEATED {
        expect_at_each_cut(rt.alloc(), Change::With(REPEAT), example)?;
    }
    Ok(())
}

#[rattlefmt::skip]
const ASCII_REPEATED: [Example; 6] = [
    // Of two runs, only that of an ASCII character is written with REP.
    ((2, 20), 0, &[], &[Text("\u{2500}\u{2500}\u{2500}\u{2500}----------")],
        "\u{2500}\u{2500}\u{2500}\u{2500}-\x1b[9b"),
    ((2, 20), 0, &[], &[Text("----------\u{2500}\u{2500}\u{2500}\u{2500}")],
        "-\x1b[9b\u{2500}\u{2500}\u{2500}\u{2500}"),

    // The first and the last printable ASCII characters.
    ((2, 20), 0, &[], &[Text("          x")], " \x1b[9bx"),
    ((2, 20), 0, &[], &[Text("~~~~~~~~~~")], "~\x1b[9b"),

    // Characters of two and four bytes.
    ((2, 20), 0, &[], &[Text("\u{e9}\u{e9}\u{e9}\u{e9}\u{e9}")],
        "\u{e9}\u{e9}\u{e9}\u{e9}\u{e9}"),
    ((2, 20), 0, &[], &[Text("\u{1d400}\u{1d400}\u{1d400}")], "\u{1d400}\u{1d400}\u{1d400}"),
];

#[test]
fn only_ascii_characters_are_repeated_if_the_options_say_so(rt: HostRuntime) -> Result<(), Fail> {
    for example in &ASCII_REPEATED {
        expect_at_each_cut(rt.alloc(), Change::With(REPEAT_ASCII), example)?;
    }
    Ok(())
}

#[rattlefmt::skip]
const MOVED: [Example; 1] = [
    (
        (4, 10), 0,
        &[Text(FOUR)],
        &[Text(FOUR), Text("\r\neeeeeeeee")],
        "\x1b[H\x1b[M\n\n\ne\x1b[8b",
    ),
];

#[test]
fn runs_are_repeated_after_rows_move(rt: HostRuntime) -> Result<(), Fail> {
    for example in &MOVED {
        expect_at_each_cut(rt.alloc(), Change::With(BOTH), example)?;
    }
    Ok(())
}

#[rattlefmt::skip]
const PLAIN: [Example; 2] = [
    ((2, 20), 0, &[], &[Text("----------")], "----------"),
    ((4, 10), 0, &[Text(FOUR)], &[Text(FOUR), Text("\x1b[H0")], "\x1b[H0"),
];

#[test]
fn nothing_is_repeated_without_the_option(rt: HostRuntime) -> Result<(), Fail> {
    for example in &PLAIN {
        expect_at_each_cut(rt.alloc(), Change::With(NEITHER), example)?;
        expect_at_each_cut(rt.alloc(), Change::With(DiffOptions::default()), example)?;
    }
    Ok(())
}
