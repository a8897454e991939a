//! Tests of output with options for the whole state: a redraw or a diff with options, followed by
//! the sequences that set input modes.

use crate::difference_tests::{Example, expect_at_each_cut};
use crate::redraw_tests::{Example as Redrawn, expect_at_each_cut as expect_redraw, wanted_text};
use std::test::Fail;
use test_input::examples::Step::{Text, View};
use test_input::readback::Asked::PortableState;
use test_input::readback::Change;
use vt100::{DiffOptions, Repeat};

/// No options.
const PLAIN: DiffOptions = DiffOptions {
    scroll: false,
    repeat: Repeat::Never,
    portable: false,
};

/// Portable output.
const PORTABLE: DiffOptions = DiffOptions {
    scroll: false,
    repeat: Repeat::Never,
    portable: true,
};

/// Movements of rows and columns, and REP for any character.
const BOTH: DiffOptions = DiffOptions {
    scroll: true,
    repeat: Repeat::Any,
    portable: false,
};

/// Portable output with REP and short cursor movements.
const ALL: DiffOptions = DiffOptions {
    scroll: true,
    repeat: Repeat::Any,
    portable: true,
};

#[rattlefmt::skip]
const REDRAWN: [Redrawn; 4] = [
    ((2, 4), 0, &[], PortableState, "\x1b>\x1b[?1l\x1b[?2004l"),

    // The attributes are reset between dim and bold. The modes are set last.
    (
        (2, 5), 0, &[Text("\x1b=\x1b[2ma\x1b[22;1mb")],
        PortableState, "\x1b[2ma\x1b[m\x1b[1mb\x1b=\x1b[?1l\x1b[?2004l",
    ),

    // A wrap is pending, and the sequences for modes follow it.
    (
        (2, 5), 0, &[Text("abcd\r\nxxxxx\x1b[A\x1b[?1003h\x1b[?1006h")],
        PortableState,
        "abcd\r\nxxxxx\x1b[1;5H \x1b7\x1b[1;5H\x1b[X\x1b8\x1b>\x1b[?1l\x1b[?2004l\x1b[?1003h\x1b[?1006h",
    ),

    // Displayed scrollback.
    (
        (2, 4), 10, &[Text("a\r\nb\r\nc\x1b[?2004h"), View(1)],
        PortableState, "a\r\nb\x1b>\x1b[?1l\x1b[?2004h",
    ),
];

#[test]
fn portable_states_are_portable_redraws_and_modes(rt: HostRuntime) -> Result<(), Fail> {
    for example in &REDRAWN {
        let wanted = wanted_text(rt.alloc(), PortableState, example.4)?;
        expect_redraw(rt.alloc(), example, wanted.as_str())?;
    }
    Ok(())
}

/// A diff with options.
type Changed = (DiffOptions, Example);

#[rattlefmt::skip]
const CHANGED: [Changed; 14] = [
    // Without options.
    (PLAIN, ((2, 4), 0, &[], &[Text("a\x1b=")], "a\x1b=")),
    (PLAIN, ((2, 5), 0, &[], &[Text("\x1b[2ma\x1b[22;1mb")], "\x1b[2ma\x1b[1mb")),
    (PLAIN, ((2, 20), 0, &[], &[Text("----------\x1b[?1h")], "----------\x1b[?1h")),

    // Portable: the attributes are reset between dim and bold.
    (PORTABLE, ((2, 4), 0, &[], &[Text("a\x1b=")], "a\x1b=")),
    (
        PORTABLE,
        ((2, 5), 0, &[], &[Text("\x1b[2ma\x1b[22;1mb\x1b=")], "\x1b[2ma\x1b[m\x1b[1mb\x1b="),
    ),
    (
        PORTABLE,
        (
            (2, 5), 0, &[Text("\x1b[?9h")], &[Text("abcd\r\nxxxxx\x1b[A\x1b[?1002h\x1b[2 q")],
            "abcd\r\nxxxxx\x1b[1;5H \x1b7\x1b[1;5H\x1b[X\x1b8\x1b[?1002h\x1b[2 q",
        ),
    ),

    // REP, and rows that move.
    (BOTH, ((2, 20), 0, &[], &[Text("----------\x1b[?1h")], "-\x1b[9b\x1b[?1h")),
    (
        BOTH,
        (
            (4, 10), 0,
            &[Text("aaaaaaaaa\r\nbbbbbbbbb\r\nccccccccc\r\nddddddddd\x1b[?2004h")],
            &[Text("bbbbbbbbb\r\nccccccccc\r\nddddddddd\r\neeeeeeeee")],
            "\x1b[H\x1b[M\n\n\ne\x1b[8b\x1b[?2004l",
        ),
    ),
    (ALL, ((2, 20), 0, &[], &[Text("----------\x1b[?1h")], "-\x1b[9b\x1b[?1h")),
    (ALL, ((2, 5), 0, &[Text("abc")], &[Text("abc\x1b[H\x1b=")], "\r\x1b=")),

    // Only modes change, or nothing does.
    (ALL, ((2, 4), 0, &[Text("ab\x1b[?1006h")], &[Text("ab\x1b[5 q")], "\x1b[?1006l\x1b[5 q")),
    (ALL, ((2, 4), 0, &[Text("\x1b=ab")], &[Text("ab\x1b=")], "")),
    (BOTH, ((2, 4), 0, &[Text("\x1b=ab")], &[Text("ab\x1b=")], "")),

    // The saved cursor and the modes of the terminal are not part of the display.
    (PORTABLE, ((2, 4), 0, &[Text("ab")], &[Text("\x1b7ab\x1b[4l")], "")),
];

#[test]
fn states_differ_with_options(rt: HostRuntime) -> Result<(), Fail> {
    for (options, example) in &CHANGED {
        expect_at_each_cut(rt.alloc(), Change::StateWith(*options), example)?;
    }
    Ok(())
}
