//! Tests of the text of escape sequences.

use std::alloc::Global;
use std::test::Fail;
use vt_cells::term::{
    ApplicationCursor, ApplicationKeypad, Backspace, BracketedPaste, BufWrite, ChangeAttrs,
    ClearAttrs, ClearRowForward, ClearScreen, Crlf, CursorStyle, EraseChar, HideCursor, LineFeed,
    MouseProtocolEncoding, MouseProtocolMode, MoveFromTo, MoveRight, MoveTo, RestoreCursor,
    SHORT_ROOM, SaveCursor,
};
use vt_cells::{
    Attrs, Buffer, Color, CursorStyle as Style, Error, Intensity,
    MouseProtocolEncoding as Encoding, MouseProtocolMode as Mode, Pos,
};

/// The six components of a set of attributes, in the form that tables of examples use.
#[derive(Clone, Copy)]
pub(crate) struct Parts {
    pub(crate) fgcolor: Color,
    pub(crate) bgcolor: Color,
    pub(crate) intensity: Intensity,
    pub(crate) italic: bool,
    pub(crate) underline: bool,
    pub(crate) inverse: bool,
}

pub(crate) const PLAIN: Parts = Parts {
    fgcolor: Color::Default,
    bgcolor: Color::Default,
    intensity: Intensity::Normal,
    italic: false,
    underline: false,
    inverse: false,
};

impl Parts {
    /// Returns the attributes that have the given components.
    pub(crate) fn attrs(self) -> Attrs {
        let mut attrs = Attrs::new();
        attrs.set_fgcolor(self.fgcolor);
        attrs.set_bgcolor(self.bgcolor);
        attrs.set_intensity(self.intensity);
        attrs.set_italic(self.italic);
        attrs.set_underline(self.underline);
        attrs.set_inverse(self.inverse);
        attrs
    }
}

/// Returns the text of a sequence.
fn text_of<W: BufWrite>(alloc: Global, sequence: &W) -> Result<String, Error> {
    let mut text = String::new(alloc);
    sequence.write_buf(&mut text)?;
    Ok(text)
}

/// Fails if the text of a sequence is not `want`.
fn expect_text<W: BufWrite>(alloc: Global, sequence: &W, want: &str) -> Result<(), Fail> {
    let text = text_of(alloc, sequence)?;
    if text.as_str() != want {
        return Err(Fail::new(format_args!("{text:?} is not {want:?}")));
    }
    Ok(())
}

fn pos_of((row, col): (u16, u16)) -> Pos {
    Pos { row, col }
}

#[test]
fn fixed(rt: HostRuntime) -> Result<(), Fail> {
    let alloc = rt.alloc();
    expect_text(alloc, &ClearAttrs, "\x1b[m")?;
    expect_text(alloc, &ClearScreen, "\x1b[H\x1b[J")?;
    expect_text(alloc, &ClearRowForward, "\x1b[K")?;
    expect_text(alloc, &Crlf, "\r\n")?;
    expect_text(alloc, &LineFeed, "\n")?;
    expect_text(alloc, &SaveCursor, "\x1b7")?;
    expect_text(alloc, &Backspace, "\x08")?;
    expect_text(alloc, &RestoreCursor, "\x1b8")?;
    expect_text(alloc, &HideCursor { state: true }, "\x1b[?25l")?;
    expect_text(alloc, &HideCursor { state: false }, "\x1b[?25h")
}

const POSITIONS: [(u16, u16, &str); 4] = [
    (0, 0, "\x1b[H"),
    (2, 0, "\x1b[3;1H"),
    (0, 4, "\x1b[1;5H"),
    (65535, 65535, "\x1b[65536;65536H"),
];

#[test]
fn positions(rt: HostRuntime) -> Result<(), Fail> {
    for (row, col, want) in &POSITIONS {
        let pos = pos_of((*row, *col));
        expect_text(rt.alloc(), &MoveTo { pos }, want)?;
    }
    Ok(())
}

/// Test cases: a number of columns, the sequence that moves the cursor right by that many columns,
/// and the sequence that erases that many columns.
const COUNTS: [(u16, &str, &str); 4] = [
    (0, "", ""),
    (1, "\x1b[C", "\x1b[X"),
    (5, "\x1b[5C", "\x1b[5X"),
    (65535, "\x1b[65535C", "\x1b[65535X"),
];

#[test]
fn counts(rt: HostRuntime) -> Result<(), Fail> {
    for (count, right, erased) in &COUNTS {
        let (move_right, erase) = (MoveRight { count: *count }, EraseChar { count: *count });
        expect_text(rt.alloc(), &move_right, right)?;
        expect_text(rt.alloc(), &erase, erased)?;
    }
    Ok(())
}

const MOVES: [((u16, u16), (u16, u16), &str); 10] = [
    ((3, 7), (3, 7), ""),
    ((3, 7), (4, 0), "\r\n"),
    ((3, 7), (3, 8), "\x1b[C"),
    ((3, 7), (3, 12), "\x1b[5C"),
    ((3, 7), (3, 6), "\x1b[4;7H"),
    ((3, 7), (4, 1), "\x1b[5;2H"),
    ((3, 7), (5, 0), "\x1b[6;1H"),
    ((3, 7), (3, 0), "\x1b[4;1H"),
    ((3, 7), (0, 0), "\x1b[H"),
    ((65535, 1), (0, 0), "\x1b[H"),
];

#[test]
fn moves(rt: HostRuntime) -> Result<(), Fail> {
    for (from, to, want) in &MOVES {
        let (from, to) = (pos_of(*from), pos_of(*to));
        expect_text(rt.alloc(), &MoveFromTo { from, to }, want)?;
    }
    Ok(())
}

/// Tests sequences that are appended to a buffer, and that the buffer passes them to its sink in
/// order when it is flushed.
#[test]
fn buffered(rt: HostRuntime) -> Result<(), Fail> {
    let mut text = String::new(rt.alloc());
    let mut buffer = Buffer::new();
    let (home, far) = (pos_of((0, 0)), pos_of((2, 4)));
    let away = MoveFromTo {
        from: home,
        to: far,
    };
    let stays = MoveFromTo { from: far, to: far };
    buffer.make_room(&mut text, SHORT_ROOM)?;
    away.push(&mut buffer);
    buffer.make_room(&mut text, SHORT_ROOM)?;
    EraseChar { count: 1 }.push(&mut buffer);
    buffer.make_room(&mut text, SHORT_ROOM)?;
    EraseChar { count: 12 }.push(&mut buffer);
    buffer.make_room(&mut text, SHORT_ROOM)?;
    stays.push(&mut buffer);
    buffer.make_room(&mut text, SHORT_ROOM)?;
    ClearRowForward.push(&mut buffer);
    assert!(rt; text.is_empty());
    assert!(rt; buffer.room() == 239);
    buffer.make_room(&mut text, SHORT_ROOM)?;
    buffer.push("\u{2500}");
    assert!(rt; buffer.room() == 236);
    buffer.make_room(&mut text, 237)?;
    assert!(rt; buffer.room() == 256);
    buffer.flush(&mut text)?;
    if text.as_str() != "\x1b[3;5H\x1b[X\x1b[12X\x1b[K\u{2500}" {
        return Err(Fail::new(format_args!("{text:?}")));
    }
    Ok(())
}

const BRIGHT: Parts = Parts {
    fgcolor: Color::Idx(9),
    ..PLAIN
};

const BOLD: Parts = Parts {
    fgcolor: Color::Idx(1),
    bgcolor: Color::Idx(4),
    intensity: Intensity::Bold,
    ..PLAIN
};

const RICH: Parts = Parts {
    fgcolor: Color::Rgb(1, 2, 3),
    italic: true,
    underline: true,
    inverse: true,
    ..PLAIN
};

const DIM: Parts = Parts {
    intensity: Intensity::Dim,
    ..PLAIN
};

const BACK: Parts = Parts {
    bgcolor: Color::Idx(200),
    ..PLAIN
};

const LIGHT: Parts = Parts {
    bgcolor: Color::Idx(15),
    ..PLAIN
};

const LAST: Parts = Parts {
    fgcolor: Color::Idx(255),
    ..PLAIN
};

/// Test cases: two sets of attributes, and the sequence that changes the attributes from the first
/// set to the second.
const CHANGES: [(Parts, Parts, &str); 11] = [
    (PLAIN, PLAIN, ""),
    (BOLD, BOLD, ""),
    (PLAIN, BRIGHT, "\x1b[91m"),
    (PLAIN, BOLD, "\x1b[31;44;1m"),
    (BOLD, PLAIN, "\x1b[m"),
    (PLAIN, RICH, "\x1b[38;2;1;2;3;3;4;7m"),
    (RICH, DIM, "\x1b[39;2;23;24;27m"),
    (DIM, BRIGHT, "\x1b[91;22m"),
    (PLAIN, BACK, "\x1b[48;5;200m"),
    (BACK, LIGHT, "\x1b[107m"),
    (LIGHT, LAST, "\x1b[38;5;255;49m"),
];

#[test]
fn attributes(rt: HostRuntime) -> Result<(), Fail> {
    for (was, new, want) in &CHANGES {
        let (was, new) = (was.attrs(), new.attrs());
        expect_text(rt.alloc(), &ChangeAttrs { was, new }, want)?;
    }
    Ok(())
}

/// Test cases: whether a mode is set, and the sequences for the keypad, the cursor keys and
/// bracketed paste.
const SWITCHES: [(bool, &str, &str, &str); 2] = [
    (true, "\x1b=", "\x1b[?1h", "\x1b[?2004h"),
    (false, "\x1b>", "\x1b[?1l", "\x1b[?2004l"),
];

#[test]
fn switches(rt: HostRuntime) -> Result<(), Fail> {
    for (state, keypad, cursor, paste) in &SWITCHES {
        let state = *state;
        expect_text(rt.alloc(), &ApplicationKeypad { state }, keypad)?;
        expect_text(rt.alloc(), &ApplicationCursor { state }, cursor)?;
        expect_text(rt.alloc(), &BracketedPaste { state }, paste)?;
    }
    Ok(())
}

const MOUSE_MODES: [(Mode, Mode, &str); 10] = [
    (Mode::None, Mode::None, ""),
    (Mode::None, Mode::Press, "\x1b[?9h"),
    (Mode::Press, Mode::PressRelease, "\x1b[?1000h"),
    (Mode::PressRelease, Mode::PressRelease, ""),
    (Mode::None, Mode::ButtonMotion, "\x1b[?1002h"),
    (Mode::None, Mode::AnyMotion, "\x1b[?1003h"),
    (Mode::Press, Mode::None, "\x1b[?9l"),
    (Mode::PressRelease, Mode::None, "\x1b[?1000l"),
    (Mode::ButtonMotion, Mode::None, "\x1b[?1002l"),
    (Mode::AnyMotion, Mode::None, "\x1b[?1003l"),
];

#[test]
fn mouse_modes(rt: HostRuntime) -> Result<(), Fail> {
    for (was, new, want) in &MOUSE_MODES {
        let (was, new) = (*was, *new);
        expect_text(rt.alloc(), &MouseProtocolMode { was, new }, want)?;
    }
    Ok(())
}

const MOUSE_ENCODINGS: [(Encoding, Encoding, &str); 5] = [
    (Encoding::Sgr, Encoding::Sgr, ""),
    (Encoding::Default, Encoding::Sgr, "\x1b[?1006h"),
    (Encoding::Sgr, Encoding::Utf8, "\x1b[?1005h"),
    (Encoding::Utf8, Encoding::Default, "\x1b[?1005l"),
    (Encoding::Sgr, Encoding::Default, "\x1b[?1006l"),
];

#[test]
fn mouse_encodings(rt: HostRuntime) -> Result<(), Fail> {
    for (was, new, want) in &MOUSE_ENCODINGS {
        let (was, new) = (*was, *new);
        expect_text(rt.alloc(), &MouseProtocolEncoding { was, new }, want)?;
    }
    Ok(())
}

const STYLES: [(Style, Style, &str); 9] = [
    (Style::Default, Style::Default, ""),
    (Style::SteadyBlock, Style::SteadyBlock, ""),
    (Style::SteadyBlock, Style::Default, "\x1b[0 q"),
    (Style::Default, Style::BlinkBlock, "\x1b[1 q"),
    (Style::Default, Style::SteadyBlock, "\x1b[2 q"),
    (Style::Default, Style::BlinkUnderline, "\x1b[3 q"),
    (Style::Default, Style::SteadyUnderline, "\x1b[4 q"),
    (Style::Default, Style::BlinkVerticalBar, "\x1b[5 q"),
    (Style::Default, Style::SteadyVerticalBar, "\x1b[6 q"),
];

#[test]
fn styles(rt: HostRuntime) -> Result<(), Fail> {
    for (was, new, want) in &STYLES {
        let (was, new) = (*was, *new);
        expect_text(rt.alloc(), &CursorStyle { was, new }, want)?;
    }
    Ok(())
}
