//! Output that reproduces the whole state of a screen: its display and its
//! input modes.
//!
//! The documentation of the module `redraw` defines what a screen displays,
//! when a terminal is plain, and when a screen is steady.

ghost use Rattle.std.specs.Prelude.{◌≡◌, ◌++◌, IsOk, OnOk};
ghost use Rattle.vt_cells.specs.Refusals.{OnlyOutOfMemory};
ghost use Rattle.vt_grid.specs.Page.{SameSize};
ghost use Rattle.vt_redraw.specs.Refusals.{RefusedOnlyIfSome};
ghost use Rattle.vt_screen.specs.MadeOf.{IsMadeOf, drawing_finals, state_controls};
ghost use Rattle.vt_screen.specs.Screen.{IsColored, IsScreen};
ghost use Rattle.vt_screen.specs.Shown.{display};
ghost use Rattle.vt_screen.specs.States.{AreModes, GivesState, HasDefaultMouseAndStyle, IsEmptyIfSameState};
ghost use Rattle.vt_screen.specs.States.{IsSameStateIfEmpty, IsStateReader, IsStateReaderOf, SetsModesPlainly, state_change};
ghost use Rattle.vt_screen.specs.States.{state_text};
ghost use Rattle.vt_screen.specs.TextResults.{IfText};

use crate::screen::Screen;
use vt_cells::{Error, Sink};

impl Screen {
    /// Returns the escape sequences that redraw the screen on a plain terminal
    /// of the same size and set its input modes. They are the output of
    /// [`Screen::contents_formatted`] followed by the output of
    /// [`Screen::input_mode_formatted`].
    ///
    /// The terminal must be plain (in ground state, with the full scroll
    /// region, origin mode off and no scrollback displayed) and have the
    /// default mouse mode, mouse encoding and cursor style.
    ///
    /// If this screen is steady (each glyph reproduces itself when printed),
    /// such a terminal is plain after reading the output, displays this screen
    /// and has its modes (clause `gives`). Reading the output invokes no
    /// callbacks and allocates nothing. Scrollback and the inactive page are
    /// unchanged; only the saved cursor, saved origin mode, saved attributes
    /// and last character may change.
    ///
    /// Such a terminal of any size is plain again and has the modes of this
    /// screen after reading the output even if this screen is not steady
    /// (clause `again`): no callback except `on_scroll` was invoked, and the
    /// inactive page and the size are unchanged.
    ///
    /// # Errors
    ///
    /// Returns `Error::OutOfMemory` if the output cannot be allocated.
    ///
    /// # Examples
    ///
    /// ```text
    /// // on a fresh screen
    /// assert_eq!(
    ///     screen.state_formatted()?,
    ///     "\x1b[?25h\x1b[m\x1b[H\x1b[J\x1b>\x1b[?1l\x1b[?2004l",
    /// );
    /// ```
    pub fn state_formatted(&self) -> Result<String, Error>
        ensures text { IfText result (λ text. text ≡ state_text self.now) }
        ensures controls { IfText result (IsMadeOf drawing_finals state_controls) }
        ensures again { IfText result (SetsModesPlainly HasDefaultMouseAndStyle self.now.modes) }
        ensures gives { IfText result (GivesState (IsStateReader self.now) self.now) }
        ensures memory { OnlyOutOfMemory result }
    {
        let mut text = String::new(self.alloc);
        match self.write_state_formatted(&mut text) {
            Ok(()) => Ok(text),
            Err(_) => Err(Error::OutOfMemory),
        }
    }

    /// Returns the escape sequences that turn the display and the input modes
    /// of `prev` into those of this screen. They are the output of
    /// [`Screen::contents_diff`] followed by the output of
    /// [`Screen::input_mode_diff`]. Both screens must have the same size.
    ///
    /// A terminal is plain if it is in ground state, with the full scroll
    /// region, origin mode off and no scrollback displayed. A screen is steady
    /// if each glyph reproduces itself when printed.
    ///
    /// If this screen is steady, a plain terminal with the display and modes of
    /// `prev` has the display and modes of this screen after reading the output
    /// (clause `gives`), as with [`Screen::state_formatted`]. The output is
    /// empty if both screens have the same display and modes; if this screen is
    /// steady, it is empty only in that case (clause `empty`). A plain terminal
    /// with the modes of `prev` is plain again and has the modes of this screen
    /// after reading the output even if this screen is not steady (clause
    /// `again`), as with [`Screen::state_formatted`].
    ///
    /// # Errors
    ///
    /// Returns `Error::OutOfMemory` if the output cannot be allocated. There is
    /// no error if both screens have the same display and modes, because empty
    /// output needs no allocation (clause `never`).
    ///
    /// # Examples
    ///
    /// ```text
    /// // from a fresh screen to one that read `a`, and then DECKPAM
    /// assert_eq!(screen.state_diff(&fresh)?, "a\x1b=");
    /// ```
    pub fn state_diff(&self, prev: &Screen) -> Result<String, Error>
        requires { SameSize self.now.page prev.now.page }
        ensures text { IfText result (λ text. text ≡ state_change prev.now self.now) }
        ensures controls { IfText result (IsMadeOf drawing_finals state_controls) }
        ensures again { IfText result (SetsModesPlainly (AreModes prev.now.modes) self.now.modes) }
        ensures gives { IfText result (GivesState (IsStateReaderOf self.now prev.now) self.now) }
        ensures empty { IfText result (IsSameStateIfEmpty prev.now self.now) }
        ensures none { IfText result (IsEmptyIfSameState prev.now self.now) }
        ensures memory { OnlyOutOfMemory result }
        ensures nonempty { RefusedOnlyIfSome result (state_change prev.now self.now) }
        ensures never { display self.now ≡ display prev.now → self.now.modes ≡ prev.now.modes → IsOk result }
    {
        let mut text = String::new(self.alloc);
        match self.write_state_diff(&mut text, prev) {
            Ok(()) => Ok(text),
            Err(_) => Err(Error::OutOfMemory),
        }
    }

    /// Writes the output of [`Screen::state_formatted`] to `sink`. Stops at the first error of the
    /// sink and returns it.
    fn write_state_formatted<S: Sink>(&self, sink: &mut S) -> Result<(), S::Error>
        ensures whole { IsScreen self.now }
        ensures colored { IsColored self.now }
        ensures text { OnOk result (S.text sink.new ≡ S.text sink.old ++ state_text self.now) }
    {
        self.write_contents_formatted(sink)?;
        self.write_input_mode_formatted(sink)
    }

    /// Writes the output of [`Screen::state_diff`] to `sink`. Stops at the first error of the sink
    /// and returns it.
    fn write_state_diff<S: Sink>(&self, sink: &mut S, prev: &Screen) -> Result<(), S::Error>
        requires { SameSize self.now.page prev.now.page }
        ensures whole { IsScreen self.now }
        ensures colored { IsColored self.now }
        ensures other { IsScreen prev.now }
        ensures other_colored { IsColored prev.now }
        ensures text { OnOk result (S.text sink.new ≡ S.text sink.old ++ state_change prev.now self.now) }
        ensures nonempty { RefusedOnlyIfSome result (state_change prev.now self.now) }
    {
        self.write_contents_diff(sink, prev)?;
        self.write_input_mode_diff(sink, prev)
    }
}
