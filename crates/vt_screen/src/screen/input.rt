//! Escape sequences that set the input modes of a terminal.

ghost use Rattle.std.specs.Prelude.{◌≡◌, ◌++◌, [], IsOk, OnOk};
ghost use Rattle.vt_cells.specs.InputModes.{application_cursor_text, bracketed_paste_text, keypad_text};
ghost use Rattle.vt_cells.specs.Refusals.{OnlyOutOfMemory};
ghost use Rattle.vt_redraw.specs.Refusals.{RefusedOnlyIfSome};
ghost use Rattle.vt_screen.specs.States.{input_change, input_text, mouse_and_style_text, where_changed};
ghost use Rattle.vt_screen.specs.States.{HasDefaultMouseAndStyle, SetsModes};
ghost use Rattle.vt_screen.specs.MadeOf.{IsMadeOf, input_controls};
ghost use Rattle.vt_screen.specs.TextResults.{IfText};

use crate::modes::Modes;
use crate::screen::Screen;
use vt_cells::term::{
    ApplicationCursor, ApplicationKeypad, BracketedPaste, BufWrite, CursorStyle,
    MouseProtocolEncoding, MouseProtocolMode,
};
use vt_cells::{Error, Sink};

impl Screen {
    /// Returns the escape sequences that set the input modes of this screen on
    /// a terminal with the default mouse mode, mouse encoding and cursor style.
    ///
    /// They set the keypad mode (DECKPAM or DECKPNM), the cursor key mode
    /// (DECCKM) and bracketed paste mode (xterm, DEC private mode 2004). They
    /// also set the mouse mode, the mouse encoding and the cursor style
    /// (DECSCUSR) unless these are at their defaults.
    ///
    /// If such a terminal is in ground state, it has the modes of this screen
    /// after reading the output (clause `sets`). Reading the output invokes no
    /// callbacks, allocates nothing and changes nothing else.
    ///
    /// # Errors
    ///
    /// Returns `Error::OutOfMemory` if the output cannot be allocated.
    ///
    /// # Examples
    ///
    /// ```text
    /// // on a fresh screen
    /// assert_eq!(screen.input_mode_formatted()?, "\x1b>\x1b[?1l\x1b[?2004l");
    /// ```
    pub fn input_mode_formatted(&self) -> Result<String, Error>
        ensures text { IfText result (λ text. text ≡ input_text self.now.modes) }
        ensures controls { IfText result (IsMadeOf [] input_controls) }
        ensures sets { IfText result (SetsModes HasDefaultMouseAndStyle self.now.modes) }
        ensures memory { OnlyOutOfMemory result }
    {
        let mut text = String::new(self.alloc);
        match self.write_input_mode_formatted(&mut text) {
            Ok(()) => Ok(text),
            Err(_) => Err(Error::OutOfMemory),
        }
    }

    /// Returns the escape sequences that change the input modes of `prev` to
    /// those of this screen. They set only the modes that differ.
    ///
    /// If the mouse mode of this screen is the default but that of `prev` is
    /// not, the output resets the mouse mode of `prev`; the same applies to the
    /// mouse encoding. A terminal in ground state with the modes of `prev` has
    /// the modes of this screen after reading the output, and nothing else
    /// changes (clause `sets`). The output is empty if and only if both screens
    /// have the same modes (clauses `empty` and `none`).
    ///
    /// # Errors
    ///
    /// Returns `Error::OutOfMemory` if the output cannot be allocated. There is
    /// no error if both screens have the same modes (clause `never`).
    pub fn input_mode_diff(&self, prev: &Screen) -> Result<String, Error>
        ensures text { IfText result (λ text. text ≡ input_change prev.now.modes self.now.modes) }
        ensures controls { IfText result (IsMadeOf [] input_controls) }
        ensures sets { IfText result (SetsModes (λ had. had ≡ prev.now.modes) self.now.modes) }
        ensures empty { IfText result (λ text. text ≡ [] → self.now.modes ≡ prev.now.modes) }
        ensures none { IfText result (λ text. self.now.modes ≡ prev.now.modes → text ≡ []) }
        ensures memory { OnlyOutOfMemory result }
        ensures nonempty { RefusedOnlyIfSome result (input_change prev.now.modes self.now.modes) }
        ensures never { self.now.modes ≡ prev.now.modes → IsOk result }
    {
        let mut text = String::new(self.alloc);
        match self.write_input_mode_diff(&mut text, prev) {
            Ok(()) => Ok(text),
            Err(_) => Err(Error::OutOfMemory),
        }
    }

    /// Writes the output of [`Screen::input_mode_formatted`].
    pub(super) fn write_input_mode_formatted<S: Sink>(&self, sink: &mut S) -> Result<(), S::Error>
        ensures { OnOk result (S.text sink.new ≡ S.text sink.old ++ input_text self.now.modes) }
    {
        let new = self.modes;
        let state = new.application_keypad;
        ApplicationKeypad { state }.write_buf(sink)?;
        let state = new.application_cursor;
        ApplicationCursor { state }.write_buf(sink)?;
        let state = new.bracketed_paste;
        BracketedPaste { state }.write_buf(sink)?;
        write_mouse_and_style(sink, Modes::new(), new)
    }

    /// Writes the output of [`Screen::input_mode_diff`].
    pub(super) fn write_input_mode_diff<S: Sink>(
        &self,
        sink: &mut S,
        prev: &Screen,
    ) -> Result<(), S::Error>
        ensures text { OnOk result
            (S.text sink.new ≡ S.text sink.old ++ input_change prev.now.modes self.now.modes) }
        ensures nonempty { RefusedOnlyIfSome result (input_change prev.now.modes self.now.modes) }
    {
        let (was, new) = (prev.modes, self.modes);
        write_keypad(sink, was.application_keypad, new.application_keypad)?;
        write_cursor_keys(sink, was.application_cursor, new.application_cursor)?;
        write_paste(sink, was.bracketed_paste, new.bracketed_paste)?;
        write_mouse_and_style(sink, was, new)
    }
}

/// Writes the escape sequences that change the mouse mode, the mouse encoding
/// and the cursor style from those of `was` to those of `new`. Writes nothing
/// for a setting that does not change.
fn write_mouse_and_style<S: Sink>(sink: &mut S, was: Modes, new: Modes) -> Result<(), S::Error>
    ensures text { OnOk result (S.text sink.new ≡ S.text sink.old ++ mouse_and_style_text was new) }
    ensures nonempty { RefusedOnlyIfSome result (mouse_and_style_text was new) }
{
    let mouse_mode = MouseProtocolMode {
        was: was.mouse_mode,
        new: new.mouse_mode,
    };
    mouse_mode.write_buf(sink)?;
    let mouse_encoding = MouseProtocolEncoding {
        was: was.mouse_encoding,
        new: new.mouse_encoding,
    };
    mouse_encoding.write_buf(sink)?;
    let style = CursorStyle {
        was: was.cursor_style,
        new: new.cursor_style,
    };
    style.write_buf(sink)
}

/// Writes the escape sequence that changes the keypad mode from `was` to `new`.
/// Writes nothing if `was` equals `new`.
fn write_keypad<S: Sink>(sink: &mut S, was: bool, new: bool) -> Result<(), S::Error>
    ensures text { OnOk result (S.text sink.new ≡ S.text sink.old ++ where_changed was new (keypad_text new)) }
    ensures nonempty { RefusedOnlyIfSome result (where_changed was new (keypad_text new)) }
{
    if was == new {
        return Ok(());
    }
    ApplicationKeypad { state: new }.write_buf(sink)
}

/// Writes the escape sequence that changes the cursor key mode from `was` to
/// `new`. Writes nothing if `was` equals `new`.
fn write_cursor_keys<S: Sink>(sink: &mut S, was: bool, new: bool) -> Result<(), S::Error>
    ensures text { OnOk result
        (S.text sink.new ≡ S.text sink.old ++ where_changed was new (application_cursor_text new)) }
    ensures nonempty { RefusedOnlyIfSome result (where_changed was new (application_cursor_text new)) }
{
    if was == new {
        return Ok(());
    }
    ApplicationCursor { state: new }.write_buf(sink)
}

/// Writes the escape sequence that changes bracketed paste mode from `was` to
/// `new`. Writes nothing if `was` equals `new`.
fn write_paste<S: Sink>(sink: &mut S, was: bool, new: bool) -> Result<(), S::Error>
    ensures text { OnOk result (S.text sink.new ≡ S.text sink.old ++ where_changed was new (bracketed_paste_text new)) }
    ensures nonempty { RefusedOnlyIfSome result (where_changed was new (bracketed_paste_text new)) }
{
    if was == new {
        return Ok(());
    }
    BracketedPaste { state: new }.write_buf(sink)
}
