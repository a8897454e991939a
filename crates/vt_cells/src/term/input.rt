//! Sequences that set input modes and the cursor style.

ghost use Rattle.vt_cells.specs.InputModes.{keypad_text, application_cursor_text, bracketed_paste_text};
ghost use Rattle.vt_cells.specs.InputModes.{mouse_mode_change, mouse_encoding_change, cursor_style_change};

use crate::modes;
use crate::sink::Sink;
use crate::term::BufWrite;

/// The sequence that switches the keypad between application and numeric mode (DECKPAM, DECKPNM).
#[derive(Clone, Copy, Debug)]
pub struct ApplicationKeypad {
    /// Whether the sequence selects application mode; otherwise it selects numeric mode.
    pub state: bool,
}

impl BufWrite for ApplicationKeypad {
    ghost bytes = { λ it. keypad_text it.state };

    fn write_buf<S: Sink>(&self, sink: &mut S) -> Result<(), S::Error> {
        sink.write_str(if self.state { "\x1b=" } else { "\x1b>" })
    }
}

/// The sequence that sets or resets application cursor keys mode (DECCKM).
#[derive(Clone, Copy, Debug)]
pub struct ApplicationCursor {
    /// Whether the sequence sets application cursor keys mode; otherwise it resets the mode.
    pub state: bool,
}

impl BufWrite for ApplicationCursor {
    ghost bytes = { λ it. application_cursor_text it.state };

    fn write_buf<S: Sink>(&self, sink: &mut S) -> Result<(), S::Error> {
        sink.write_str(if self.state { "\x1b[?1h" } else { "\x1b[?1l" })
    }
}

/// The sequence that sets or resets bracketed paste mode (xterm, DEC private mode 2004).
#[derive(Clone, Copy, Debug)]
pub struct BracketedPaste {
    /// Whether the sequence sets bracketed paste mode; otherwise it resets the mode.
    pub state: bool,
}

impl BufWrite for BracketedPaste {
    ghost bytes = { λ it. bracketed_paste_text it.state };

    fn write_buf<S: Sink>(&self, sink: &mut S) -> Result<(), S::Error> {
        sink.write_str(if self.state {
            "\x1b[?2004h"
        } else {
            "\x1b[?2004l"
        })
    }
}

/// The sequence that changes which mouse events are reported.
///
/// The sequence is empty if the mode does not change. If the new mode is `None`, the sequence
/// resets the old mode; otherwise it sets the new mode.
#[derive(Clone, Copy, Debug)]
pub struct MouseProtocolMode {
    /// The mode before the change.
    pub was: modes::MouseProtocolMode,

    /// The mode after the change.
    pub new: modes::MouseProtocolMode,
}

impl BufWrite for MouseProtocolMode {
    ghost bytes = { λ it. mouse_mode_change it.was it.new };

    fn write_buf<S: Sink>(&self, sink: &mut S) -> Result<(), S::Error> {
        use modes::MouseProtocolMode::{AnyMotion, ButtonMotion, None, Press, PressRelease};
        let text = match (self.was, self.new) {
            (None, None)
            | (Press, Press)
            | (PressRelease, PressRelease)
            | (ButtonMotion, ButtonMotion)
            | (AnyMotion, AnyMotion) => return Ok(()),
            (Press, None) => "\x1b[?9l",
            (PressRelease, None) => "\x1b[?1000l",
            (ButtonMotion, None) => "\x1b[?1002l",
            (AnyMotion, None) => "\x1b[?1003l",
            (_, Press) => "\x1b[?9h",
            (_, PressRelease) => "\x1b[?1000h",
            (_, ButtonMotion) => "\x1b[?1002h",
            (_, AnyMotion) => "\x1b[?1003h",
        };
        sink.write_str(text)
    }
}

/// The sequence that changes the encoding of mouse events.
///
/// The sequence is empty if the encoding does not change. If the new encoding is the default, the
/// sequence resets the old encoding; otherwise it sets the new encoding.
#[derive(Clone, Copy, Debug)]
pub struct MouseProtocolEncoding {
    /// The encoding before the change.
    pub was: modes::MouseProtocolEncoding,

    /// The encoding after the change.
    pub new: modes::MouseProtocolEncoding,
}

impl BufWrite for MouseProtocolEncoding {
    ghost bytes = { λ it. mouse_encoding_change it.was it.new };

    fn write_buf<S: Sink>(&self, sink: &mut S) -> Result<(), S::Error> {
        use modes::MouseProtocolEncoding::{Default, Sgr, Utf8};
        let text = match (self.was, self.new) {
            (Default, Default) | (Utf8, Utf8) | (Sgr, Sgr) => return Ok(()),
            (Utf8, Default) => "\x1b[?1005l",
            (Sgr, Default) => "\x1b[?1006l",
            (_, Utf8) => "\x1b[?1005h",
            (_, Sgr) => "\x1b[?1006h",
        };
        sink.write_str(text)
    }
}

/// The sequence that changes the cursor style (DECSCUSR); empty if the style does not change.
#[derive(Clone, Copy, Debug)]
pub struct CursorStyle {
    /// The cursor style before the change.
    pub was: modes::CursorStyle,

    /// The cursor style after the change.
    pub new: modes::CursorStyle,
}

impl BufWrite for CursorStyle {
    ghost bytes = { λ it. cursor_style_change it.was it.new };

    fn write_buf<S: Sink>(&self, sink: &mut S) -> Result<(), S::Error> {
        if self.was == self.new {
            return Ok(());
        }
        sink.write_str(match self.new {
            modes::CursorStyle::Default => "\x1b[0 q",
            modes::CursorStyle::BlinkBlock => "\x1b[1 q",
            modes::CursorStyle::SteadyBlock => "\x1b[2 q",
            modes::CursorStyle::BlinkUnderline => "\x1b[3 q",
            modes::CursorStyle::SteadyUnderline => "\x1b[4 q",
            modes::CursorStyle::BlinkVerticalBar => "\x1b[5 q",
            modes::CursorStyle::SteadyVerticalBar => "\x1b[6 q",
        })
    }
}
