//! Tests of redraws and of the output for the whole state: their escape sequences, and the display of a
//! terminal that parses them.

use crate::difference_tests::{Example as Difference, expect_at_each_cut as expect_difference};
use std::alloc::Global;
use std::test::Fail;
use test_input::examples::Step::{self, Text, View};
use test_input::examples::{
    Pieces, expect, expect_read_back_at_each_byte, feed, longest, read, read_keeping, taken,
};
use test_input::readback::Asked::{
    self, Attributes, Cursor, Modes, Portable, PortableState, Redraw, Reset, State,
};
use test_input::readback::{ASKED, Change};
use vt_notes::Notes;
use vt100::{Parser, Screen};

/// The beginning of each redraw of a screen with a visible cursor.
const CLEAR: &str = "\x1b[?25h\x1b[m\x1b[H\x1b[J";

/// The prefix of a redraw for terminals with any scroll region: it resets origin mode and the
/// region.
const WHOLE_REGION: &str = "\x1b[?6l\x1b[r";

/// An example: a size, a scrollback capacity, the steps, the kind of output, and the expected
/// output. For a redraw, only the part after [`CLEAR`] is given.
pub(crate) type Example = ((u16, u16), usize, &'static [Step], Asked, &'static str);

#[rattlefmt::skip]
const REDRAWN: [Example; 19] = [
    // A screen with colors, and a new one.
    (
        (24, 80), 0, &[Text("this text is \x1b[31mRED\x1b[m"), Text("\x1b[3D\x1b[32mGREEN")],
        Redraw, "this text is \x1b[32mGREEN",
    ),
    ((24, 80), 0, &[], Redraw, ""),
    ((24, 80), 0, &[], Cursor, "\x1b[?25h\x1b[H"),
    ((2, 4), 0, &[Text("\x1b[31mabcd\x1b[m")], Redraw, "\x1b[31mabcd\x1b[m"),

    // The smallest screen.
    ((1, 1), 0, &[Text("ab")], Redraw, "b"),

    // Wrapped rows.
    ((3, 4), 0, &[Text("abcdx\x1b[L")], Redraw, "abcd \x08\x1b[X\r\nx\x1b[2;2H"),
    (
        (2, 2), 0, &[Text("abc\x1b[41m\x1b[2K")],
        Redraw, "ab\x1b[41m \x08\x1b[X\x1b[C\x1b[K",
    ),

    // A pending wrap.
    ((2, 4), 0, &[Text("abcd\n")], Redraw, "abcd\n"),
    ((2, 4), 0, &[Text("abcd\x1b[2K")], Redraw, "\x1b[3C \x1b7\x08\x1b[X\x1b8"),
    ((2, 4), 0, &[Text("ab\u{4e2d}")], Cursor, "\x1b[?25h\x1b[1;3H\u{4e2d}"),
    ((2, 4), 0, &[Text("\x1b[31mabcd\x1b[m")], Cursor, "\x1b[?25h\x1b[1;4H\x1b[31md\x1b[m"),

    // Displayed scrollback.
    ((2, 4), 10, &[Text("a\r\nb\r\nc"), View(1)], Redraw, "a\r\nb"),

    // A glyph that U+FE0F made wide.
    ((2, 4), 0, &[Text("a\u{2764}\u{fe0f}b")], Redraw, "a\u{2764}\u{fe0f}b"),

    // For terminals with any scroll region. The screen's own region and origin mode make no
    // difference.
    ((24, 80), 0, &[], Reset, ""),
    ((3, 2), 0, &[Text("a")], Reset, "a"),
    ((3, 2), 0, &[Text("\x1b[2;3r\x1b[?6ha")], Reset, "\r\na"),

    // Attributes.
    ((24, 80), 0, &[Text("\x1b[1;31;44m")], Attributes, "\x1b[m\x1b[31;44;1m"),
    ((24, 80), 0, &[Text("\x1b[38;5;9m")], Attributes, "\x1b[m\x1b[91m"),
    ((24, 80), 0, &[Text("\x1b[38;5;300m")], Attributes, "\x1b[m"),
];

/// Returns the complete output that an example expects.
pub(crate) fn wanted_text(alloc: Global, asked: Asked, text: &str) -> Result<String, Fail> {
    let mut wanted = String::new(alloc);
    match asked {
        Redraw | Portable | PortableState => wanted.push_str(CLEAR)?,
        Reset => {
            wanted.push_str(WHOLE_REGION)?;
            wanted.push_str(CLEAR)?;
        }
        _ => {}
    }
    wanted.push_str(text)?;
    Ok(wanted)
}

/// Checks an example with the bytes in two chunks and one by one. Fails if the output is not
/// `wanted`. Also fails if, after some prefix of the bytes, a terminal that parses the screen's
/// output does not display the screen.
pub(crate) fn expect_at_each_cut(
    alloc: Global,
    example: &Example,
    wanted: &str,
) -> Result<(), Fail> {
    for most in 0..=longest(example.2) {
        expect_after(alloc, example, Pieces::Two(most), wanted)?;
    }
    expect_after(alloc, example, Pieces::Single, wanted)?;
    expect_read_back_at_each_byte(alloc, example.0, example.1, example.2)
}

fn expect_after(
    alloc: Global,
    (size, capacity, steps, asked, _text): &Example,
    pieces: Pieces,
    wanted: &str,
) -> Result<(), Fail> {
    let parser = taken(alloc, *size, *capacity, steps, pieces)?;
    expect_text(parser.screen(), *asked, wanted)
}

fn expect_text(screen: &Screen, asked: Asked, wanted: &str) -> Result<(), Fail> {
    let text = asked.text(screen)?;
    if text.as_str() != wanted {
        let (found, wanted) = (text.as_bytes(), wanted.as_bytes());
        return Err(Fail::new(format_args!(
            "{asked:?}: {} and not {}",
            found.escape_ascii(),
            wanted.escape_ascii()
        )));
    }
    Ok(())
}

/// Applies the steps of an example to a new parser. Fails if a terminal that parses some kind of
/// output of the parser's screen does not then agree with the screen in the parts that the output
/// sets.
pub(crate) fn expect_read_back(
    alloc: Global,
    (size, capacity, steps, _asked, _text): &Example,
) -> Result<(), Fail> {
    let parser = taken(alloc, *size, *capacity, steps, Pieces::Single)?;
    for asked in &ASKED {
        asked.expect_read(alloc, parser.screen())?;
    }
    Ok(())
}

#[test]
fn redraws_at_every_cut(rt: HostRuntime) -> Result<(), Fail> {
    for example in &REDRAWN {
        let wanted = wanted_text(rt.alloc(), example.3, example.4)?;
        expect_at_each_cut(rt.alloc(), example, wanted.as_str())?;
    }
    Ok(())
}

#[test]
fn redraws_are_read_back(rt: HostRuntime) -> Result<(), Fail> {
    for example in &REDRAWN {
        expect_read_back(rt.alloc(), example)?;
    }
    Ok(())
}

/// Input for a new terminal of three rows and two columns, and three expected states: after the
/// terminal has parsed the redraw of a screen that displays `a`, then the redraw for any region,
/// and then [`AT_ENDS`].
type InRegion = (&'static str, [&'static str; 3]);

/// Input that prints a letter at the top left, a letter at the bottom, and a line feed, which
/// scrolls the whole page only if the whole page is the scroll region.
const AT_ENDS: &[u8] = b"\x1b[Hb\x1b[3;1Hz\n";

const IN_REGION: [InRegion; 5] = [
    // Nothing is promised for the first redraw if the region is not the whole page.
    (
        "\x1b[2;3r\x1b[?6h",
        ["1:a @1,1\n", "0:a @0,1\n", "1:z @2,1\nscroll 62 0\n"],
    ),
    (
        "\x1b[?47h\x1b[2;3r\x1b[?6h",
        [
            "1:a @1,1 alternate\n",
            "0:a @0,1 alternate\n",
            "1:z @2,1 alternate\nscroll 62 1\n",
        ],
    ),
    (
        "\x1b[2;3r",
        ["0:a @0,1\n", "0:a @0,1\n", "1:z @2,1\nscroll 62 0\n"],
    ),
    (
        "\x1b[?6h",
        ["0:a @0,1\n", "0:a @0,1\n", "1:z @2,1\nscroll 62 0\n"],
    ),
    ("", ["0:a @0,1\n", "0:a @0,1\n", "1:z @2,1\nscroll 62 0\n"]),
];

/// Feeds the inputs of an [`InRegion`] example to a terminal. Fails if one of the three states is
/// not the expected one.
fn expect_redrawn(
    alloc: Global,
    screen: &Screen,
    (before, [redrawn, reset, at_ends]): &InRegion,
    pieces: Pieces,
) -> Result<(), Fail> {
    let mut reader = read(alloc, (3, 2), &[before.as_bytes()])?;
    let text = screen.contents_formatted()?;
    expect_seen(alloc, &mut reader, text.as_bytes(), pieces, redrawn)?;
    let text = screen.contents_formatted_reset()?;
    expect_seen(alloc, &mut reader, text.as_bytes(), pieces, reset)?;
    expect_seen(alloc, &mut reader, AT_ENDS, pieces, at_ends)
}

/// Feeds bytes to the terminal `reader`. Fails if its state after the bytes is not `wanted`.
fn expect_seen(
    alloc: Global,
    reader: &mut Parser<Notes>,
    bytes: &[u8],
    pieces: Pieces,
    wanted: &str,
) -> Result<(), Fail> {
    feed(reader, bytes, pieces)?;
    expect(alloc, reader, &[], wanted)
}

#[test]
fn redraws_in_any_region(rt: HostRuntime) -> Result<(), Fail> {
    let parser = read(rt.alloc(), (3, 2), &[b"a"])?;
    for example in &IN_REGION {
        for pieces in [Pieces::Two(usize::MAX), Pieces::Single] {
            expect_redrawn(rt.alloc(), parser.screen(), example, pieces)?;
        }
    }
    Ok(())
}

/// Test cases: a size, the input, and the complete redraw, which begins by showing or hiding the
/// cursor and clearing the screen.
#[rattlefmt::skip]
const WHOLE: [((u16, u16), &str, &str); 10] = [
    ((24, 80), "", "\x1b[?25h\x1b[m\x1b[H\x1b[J"),
    ((24, 80), "this text is \x1b[31mRED\x1b[m", "\x1b[?25h\x1b[m\x1b[H\x1b[Jthis text is \x1b[31mRED\x1b[m"),
    (
        (24, 80),
        "this text is \x1b[31mRED\x1b[m\x1b[1;14H\x1b[32mGREEN",
        "\x1b[?25h\x1b[m\x1b[H\x1b[Jthis text is \x1b[32mGREEN",
    ),
    ((2, 4), "abcd\r\nx", "\x1b[?25h\x1b[m\x1b[H\x1b[Jabcd\r\nx"),
    ((1, 4), "\x1b[41m\x1b[1;2H\x1b[2X\x1b[m", "\x1b[?25h\x1b[m\x1b[H\x1b[J\x1b[C\x1b[41m\x1b[2X\x1b[m"),
    ((2, 4), "\x1b[?25lx", "\x1b[?25l\x1b[m\x1b[H\x1b[Jx"),

    // A cursor on a blank screen.
    ((2, 4), "\x1b[1;2H", "\x1b[?25h\x1b[m\x1b[H\x1b[J\x1b[C"),
    ((2, 4), "\x1b[?25l\x1b[2;1H", "\x1b[?25l\x1b[m\x1b[H\x1b[J\r\n"),
    ((2, 4), "\x1b[?25l\x1b[2;3H", "\x1b[?25l\x1b[m\x1b[H\x1b[J\x1b[2;3H"),
    ((2, 4), "\x1b[41m\x1b[1;4H", "\x1b[?25h\x1b[m\x1b[H\x1b[J\x1b[3C\x1b[41m"),
];

#[test]
fn whole_redraws(rt: HostRuntime) -> Result<(), Fail> {
    for (size, text, wanted) in &WHOLE {
        let parser = read(rt.alloc(), *size, &[text.as_bytes()])?;
        assert!(rt; parser.screen().contents_formatted()?.as_str() == *wanted);
    }
    Ok(())
}

#[rattlefmt::skip]
const STATES: [Example; 8] = [
    ((2, 4), 0, &[], State, "\x1b[?25h\x1b[m\x1b[H\x1b[J\x1b>\x1b[?1l\x1b[?2004l"),
    ((2, 4), 0, &[Text("a\x1b=")], State, "\x1b[?25h\x1b[m\x1b[H\x1b[Ja\x1b=\x1b[?1l\x1b[?2004l"),
    (
        (2, 4), 0, &[Text("\x1b=\x1b[?1000h\x1b[?1006h\x1b[2 q")],
        State, "\x1b[?25h\x1b[m\x1b[H\x1b[J\x1b=\x1b[?1l\x1b[?2004l\x1b[?1000h\x1b[?1006h\x1b[2 q",
    ),
    (
        (2, 4), 0, &[Text("\x1b[31mabcd\x1b[?25;1005;1h\x1b[?25l\x1b[?2004;1003h\x1b[6 q")],
        State, "\x1b[?25l\x1b[m\x1b[H\x1b[J\x1b[31mabcd\x1b>\x1b[?1h\x1b[?2004h\x1b[?1003h\x1b[?1005h\x1b[6 q",
    ),
    (
        (2, 4), 10, &[Text("a\r\nb\r\nc\x1b[?1h"), View(1)],
        State, "\x1b[?25h\x1b[m\x1b[H\x1b[Ja\r\nb\x1b>\x1b[?1h\x1b[?2004l",
    ),
    ((24, 80), 0, &[], Modes, "\x1b>\x1b[?1l\x1b[?2004l"),
    (
        (24, 80), 0, &[Text("\x1b=\x1b[?1000h\x1b[?1006h\x1b[2 q")],
        Modes, "\x1b=\x1b[?1l\x1b[?2004l\x1b[?1000h\x1b[?1006h\x1b[2 q",
    ),
    (
        (24, 80), 0, &[Text("\x1b[?1h\x1b[?2004h\x1b[?1003h\x1b[?1005h\x1b[6 q")],
        Modes, "\x1b>\x1b[?1h\x1b[?2004h\x1b[?1003h\x1b[?1005h\x1b[6 q",
    ),
];

#[test]
fn states_at_every_cut(rt: HostRuntime) -> Result<(), Fail> {
    for example in &STATES {
        expect_at_each_cut(rt.alloc(), example, example.4)?;
    }
    Ok(())
}

#[test]
fn states_are_read_back(rt: HostRuntime) -> Result<(), Fail> {
    for example in &STATES {
        expect_read_back(rt.alloc(), example)?;
    }
    Ok(())
}

#[rattlefmt::skip]
const STATE_CHANGES: [Difference; 7] = [
    ((2, 4), 0, &[], &[Text("a\x1b=")], "a\x1b="),
    (
        (2, 4), 0,
        &[], &[Text("\x1b=\x1b[?1000h\x1b[?1006h\x1b[2 q")],
        "\x1b=\x1b[?1000h\x1b[?1006h\x1b[2 q",
    ),
    (
        (2, 4), 0,
        &[Text("\x1b=\x1b[?1000h\x1b[?1006h\x1b[2 q")], &[],
        "\x1b>\x1b[?1000l\x1b[?1006l\x1b[0 q",
    ),
    (
        (1, 6), 0,
        &[Text("abcdef")], &[Text("abcdef\x1b[1;2H\x1b[2X\x1b[?2004h")],
        "\x1b[1;2H\x1b[2X\x1b[?2004h",
    ),
    ((2, 4), 0, &[Text("ab\x1b[?9h")], &[Text("ab\x1b[1m\x1b[?1002h")], "\x1b[1m\x1b[?1002h"),
    ((2, 4), 0, &[Text("ab\x1b=")], &[Text("\x1b=ab\x1b[?25l")], "\x1b[?25l"),
    (
        (2, 4), 10,
        &[Text("a\r\nb\r\nc\x1b[3 q")], &[Text("a\r\nb\r\nc"), View(1)],
        "\x1b[Ha\r\nb\x1b[0 q",
    ),
];

#[test]
fn states_differ(rt: HostRuntime) -> Result<(), Fail> {
    for example in &STATE_CHANGES {
        expect_difference(rt.alloc(), Change::State, example)?;
    }
    Ok(())
}

#[rattlefmt::skip]
const MODE_CHANGES: [Difference; 8] = [
    ((2, 4), 0, &[], &[Text("a\x1b=")], "\x1b="),
    (
        (2, 4), 0,
        &[], &[Text("\x1b=\x1b[?1000h\x1b[?1006h\x1b[2 q")],
        "\x1b=\x1b[?1000h\x1b[?1006h\x1b[2 q",
    ),
    (
        (2, 4), 0,
        &[Text("\x1b=\x1b[?1000h\x1b[?1006h\x1b[2 q")], &[],
        "\x1b>\x1b[?1000l\x1b[?1006l\x1b[0 q",
    ),
    ((2, 4), 0, &[], &[Text("\x1b[?1h\x1b[?2004h")], "\x1b[?1h\x1b[?2004h"),
    ((2, 4), 0, &[Text("\x1b[?1h\x1b[?2004h")], &[], "\x1b[?1l\x1b[?2004l"),
    (
        (2, 4), 0,
        &[Text("\x1b[?9h\x1b[?1005h\x1b[1 q")], &[Text("\x1b[?1002h\x1b[?1006h\x1b[5 q")],
        "\x1b[?1002h\x1b[?1006h\x1b[5 q",
    ),
    ((2, 4), 0, &[Text("\x1b=")], &[Text("\x1b=")], ""),
    ((2, 4), 0, &[], &[Text("ab\x1b[?25l\x1b[1m")], ""),
];

#[test]
fn modes_differ(rt: HostRuntime) -> Result<(), Fail> {
    for example in &MODE_CHANGES {
        expect_difference(rt.alloc(), Change::Modes, example)?;
    }
    Ok(())
}

/// The sequences that set each mouse mode, each mouse encoding and each cursor style.
const SETTINGS: [&[&str]; 3] = [
    &["", "\x1b[?9h", "\x1b[?1000h", "\x1b[?1002h", "\x1b[?1003h"],
    &["", "\x1b[?1005h", "\x1b[?1006h"],
    &[
        "", "\x1b[1 q", "\x1b[2 q", "\x1b[3 q", "\x1b[4 q", "\x1b[5 q", "\x1b[6 q",
    ],
];

/// Generates the output of `state_diff` and of `input_mode_diff` from a terminal that has parsed
/// `was` to a terminal that has parsed `new`. Fails if reading the output does not turn the state
/// of the first terminal into that of the second.
fn expect_followed(alloc: Global, was: &str, new: &str) -> Result<(), Fail> {
    let prev = read_keeping(alloc, (1, 2), 0, &[was.as_bytes()])?;
    let parser = read_keeping(alloc, (1, 2), 0, &[new.as_bytes()])?;
    for change in &[Change::State, Change::Modes] {
        let text = change.text(parser.screen(), prev.screen())?;
        change.expect_read(alloc, parser.screen(), prev.screen(), text.as_str())?;
    }
    Ok(())
}

#[test]
fn each_setting_is_followed_by_each(rt: HostRuntime) -> Result<(), Fail> {
    for settings in &SETTINGS {
        for was in settings.iter() {
            for new in settings.iter() {
                expect_followed(rt.alloc(), was, new)?;
            }
        }
    }
    Ok(())
}
