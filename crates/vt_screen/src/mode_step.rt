//! Changes to the modes of a screen.

ghost use Rattle.std.specs.Prelude.{◌≡◌};
ghost use Rattle.vt_screen.specs.ModeStep.{modes_after};

use crate::modes::{self, Modes};
use vt_cells::modes::{CursorStyle, MouseProtocolEncoding, MouseProtocolMode};

/// A change to one mode.
#[derive(Clone, Copy, PartialEq, Eq, Debug)]
pub enum ModeStep {
    /// Turns application keypad mode on or off (DECKPAM, DECKPNM).
    UseApplicationKeypad(bool),

    /// Turns application cursor key mode on or off (DECCKM).
    UseApplicationCursor(bool),

    /// Turns bracketed paste mode on or off (xterm, DEC private mode 2004).
    UseBracketedPaste(bool),

    /// Sets which mouse events are reported (xterm, DEC private modes 9, 1000,
    /// 1002 and 1003).
    SetMouseMode(MouseProtocolMode),

    /// Turns mouse reporting off if the given mode is the active one.
    ClearMouseMode(MouseProtocolMode),

    /// Sets the encoding of mouse events (xterm, DEC private modes 1005 and
    /// 1006).
    SetMouseEncoding(MouseProtocolEncoding),

    /// Resets the encoding of mouse events to the default if the given encoding
    /// is the active one.
    ClearMouseEncoding(MouseProtocolEncoding),

    /// Sets the cursor style (DECSCUSR).
    SetCursorStyle(CursorStyle),
}

impl Modes {
    /// Applies the change `step` to the modes.
    #[inline(always)]
    pub fn apply(&mut self, step: ModeStep)
        ensures { self.new ≡ modes_after step self.old }
    {
        match step {
            ModeStep::UseApplicationKeypad(on) => self.application_keypad = on,
            ModeStep::UseApplicationCursor(on) => self.application_cursor = on,
            ModeStep::UseBracketedPaste(on) => self.bracketed_paste = on,
            ModeStep::SetMouseMode(mode) => self.mouse_mode = mode,
            ModeStep::ClearMouseMode(mode) => {
                self.mouse_mode = modes::clear_mode(self.mouse_mode, mode);
            }
            ModeStep::SetMouseEncoding(encoding) => self.mouse_encoding = encoding,
            ModeStep::ClearMouseEncoding(encoding) => {
                self.mouse_encoding = modes::clear_encoding(self.mouse_encoding, encoding);
            }
            ModeStep::SetCursorStyle(style) => self.cursor_style = style,
        }
    }
}
