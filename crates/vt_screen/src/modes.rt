//! The modes of a screen.

ghost use Rattle.std.specs.Prelude.{◌≡◌};
ghost use Rattle.vt_screen.specs.Screen.{no_modes};
ghost use Rattle.vt_screen.specs.ModeStep.{mouse_mode_without, mouse_encoding_without};

use vt_cells::modes::{CursorStyle, MouseProtocolEncoding, MouseProtocolMode};

/// The input modes and the cursor style that a program has set.
#[derive(Clone, Copy, PartialEq, Eq, Debug)]
pub struct Modes {
    /// Whether the keypad sends application sequences (DECKPAM).
    pub application_keypad: bool,

    /// Whether the cursor keys send application sequences (DECCKM).
    pub application_cursor: bool,

    /// Whether pasted text is bracketed (xterm, DEC private mode 2004).
    pub bracketed_paste: bool,

    /// Which mouse events are reported.
    pub mouse_mode: MouseProtocolMode,

    /// The encoding of mouse events.
    pub mouse_encoding: MouseProtocolEncoding,

    /// The cursor style (DECSCUSR).
    pub cursor_style: CursorStyle,
}

impl Modes {
    /// Returns the modes of a fresh screen, each of them off or at its default.
    pub fn new() -> Self
        ensures { result ≡ no_modes }
    {
        Modes {
            application_keypad: false,
            application_cursor: false,
            bracketed_paste: false,
            mouse_mode: MouseProtocolMode::None,
            mouse_encoding: MouseProtocolEncoding::Default,
            cursor_style: CursorStyle::Default,
        }
    }
}

/// Returns the mouse mode after `mode` is reset: `None` if `mode` is the active
/// mode `was`, otherwise `was`.
pub fn clear_mode(was: MouseProtocolMode, mode: MouseProtocolMode) -> MouseProtocolMode
    ensures { result ≡ mouse_mode_without was mode }
{
    if was != mode {
        return was;
    }
    MouseProtocolMode::None
}

/// Returns the mouse encoding after `encoding` is reset: `Default` if
/// `encoding` is the active encoding `was`, otherwise `was`.
pub fn clear_encoding(
    was: MouseProtocolEncoding,
    encoding: MouseProtocolEncoding,
) -> MouseProtocolEncoding
    ensures { result ≡ mouse_encoding_without was encoding }
{
    if was != encoding {
        return was;
    }
    MouseProtocolEncoding::Default
}
