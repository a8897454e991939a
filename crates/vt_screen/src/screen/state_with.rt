//! Output with options that reproduces the whole state of a screen: its display and its input
//! modes.
//!
//! The documentation of the module `redraw` defines what a screen displays, when a terminal is
//! plain, and when a screen is steady.

ghost use Rattle.std.specs.Prelude.{◌≡◌, ◌≤◌, ◌++◌, IsOk, IsTrue, length};
ghost use Rattle.vt_cells.specs.Refusals.{OnlyOutOfMemory};
ghost use Rattle.vt_grid.specs.Page.{SameSize};
ghost use Rattle.vt_redraw.specs.Refusals.{RefusedOnlyIfSome};
ghost use Rattle.vt_screen.specs.Diffs.{RepeatsOnlyInRows, finals_with, form_with};
ghost use Rattle.vt_screen.specs.States.{input_change, input_text, AreModes, GivesState, HasDefaultMouseAndStyle};
ghost use Rattle.vt_screen.specs.States.{IsEmptyIfSameState, IsSameStateIfEmpty, IsStateReader, IsStateReaderOf};
ghost use Rattle.vt_screen.specs.States.{SetsModesPlainly, DrawsThenSets, IsStateDiffWith, SetsModesOnScreens};
ghost use Rattle.vt_screen.specs.States.{state_change_in, state_diff_controls, state_text_in};
ghost use Rattle.vt_screen.specs.MadeOf.{IsMadeOf, drawing_finals, state_controls};
ghost use Rattle.vt_screen.specs.Portable.{IsPortableAnywhere, IsPortableFrom};
ghost use Rattle.vt_screen.specs.Shown.{display, form_of, shown_text_in};
ghost use Rattle.vt_screen.specs.TextResults.{IfText};

use crate::diff_options::DiffOptions;
use crate::redraw_options::RedrawOptions;
use crate::screen::Screen;
use vt_cells::Error;

impl Screen {
    /// Returns the escape sequences that redraw the screen on a plain terminal of the same size and
    /// set its input modes, as [`Screen::state_formatted`] does, but with options. They are the
    /// output of [`Screen::contents_formatted_with`] followed by the output of
    /// [`Screen::input_mode_formatted`].
    ///
    /// The terminal must be plain (in ground state, with the full scroll region, origin mode off and
    /// no scrollback displayed) and have the default mouse mode, mouse encoding and cursor style. If
    /// this screen is steady (each glyph reproduces itself when printed), such a terminal is plain
    /// after reading the output, displays this screen and has its modes (clause `gives`). Such a
    /// terminal of any size is plain again and has the modes of this screen after reading the output
    /// even if this screen is not steady (clause `again`).
    ///
    /// With `portable`, terminals agree on the effect of each sequence of the redraw if this screen
    /// is steady, whatever they differ in before (clause `portable`). The sequences for the input
    /// modes follow the redraw and are the same as without options; the clause does not cover them.
    ///
    /// # Errors
    ///
    /// Returns `Error::OutOfMemory` if the output cannot be allocated.
    ///
    /// # Examples
    ///
    /// ```text
    /// // a dim `a` and a bold `b` on a fresh screen
    /// let options = RedrawOptions { portable: true };
    /// assert!(
    ///     screen
    ///         .state_formatted_with(options)?
    ///         .ends_with("\x1b[2ma\x1b[m\x1b[1mb\x1b>\x1b[?1l\x1b[?2004l"),
    /// );
    /// ```
    pub fn state_formatted_with(&self, options: RedrawOptions) -> Result<String, Error>
        ensures text { IfText result (λ text. text ≡ state_text_in (form_of options.portable) self.now) }
        ensures controls { IfText result (IsMadeOf drawing_finals state_controls) }
        ensures again { IfText result (SetsModesPlainly HasDefaultMouseAndStyle self.now.modes) }
        ensures gives { IfText result (GivesState (IsStateReader self.now) self.now) }
        ensures portable { IsTrue options.portable →
            IfText result (DrawsThenSets (IsPortableAnywhere self.now) (input_text self.now.modes)) }
        ensures memory { OnlyOutOfMemory result }
    {
        let mut text = self.contents_formatted_with(options)?;
        match self.write_input_mode_formatted(&mut text) {
            Ok(()) => Ok(text),
            Err(_) => Err(Error::OutOfMemory),
        }
    }

    /// Returns the escape sequences that turn the display and the input modes of `prev` into those
    /// of this screen, as [`Screen::state_diff`] does, but with options. They are the output of
    /// [`Screen::contents_diff_with`] followed by the output of [`Screen::input_mode_diff`]. Both
    /// screens must have the same size.
    ///
    /// [`Screen::contents_diff_with`] describes the options. They apply only to the part of the
    /// output that changes the display. The output contains only controls that draw, sequences that
    /// set input modes and, if `repeat` allows any character, REP (clause `controls`). The
    /// characters of each REP fit in the row of a plain terminal that displays `prev` (clause
    /// `rows`).
    ///
    /// The output is never longer than that of [`Screen::state_diff`] (clause `shorter`). With
    /// `scroll`, the part that changes the display is never longer than the full redraw (clause
    /// `redraw`). With `portable`, both are compared in their portable form.
    ///
    /// If this screen is steady, a plain terminal with the display and modes of `prev` has the
    /// display and modes of this screen after reading the output (clause `gives`). A terminal is
    /// plain if it is in ground state, with the full scroll region, origin mode off and no
    /// scrollback displayed; a screen is steady if each glyph reproduces itself when printed. The
    /// output is empty if both screens have the same display and modes (clause `none`); if this
    /// screen is steady, it is empty only in that case (clause `empty`). A plain terminal with the
    /// modes of `prev` is plain again and has the modes of this screen after reading the output even
    /// if this screen is not steady (clause `again`).
    ///
    /// With `portable`, if this screen is steady, terminals that display `prev` agree on the effect
    /// of each sequence that changes the display (clause `portable`). The sequences that change the
    /// input modes follow these and are the same as without options; the clause does not cover them.
    ///
    /// # Errors
    ///
    /// Returns `Error::OutOfMemory` if the output, or intermediate output from which it is made,
    /// cannot be allocated. There is no error if both screens have the same display and modes
    /// (clause `never`).
    ///
    /// # Examples
    ///
    /// ```text
    /// // from a fresh screen to one that read ten `-`, and then DECKPAM
    /// let options = DiffOptions { repeat: Repeat::Ascii, ..DiffOptions::default() };
    /// assert_eq!(screen.state_diff_with(&fresh, options)?, "-\x1b[9b\x1b=");
    /// ```
    pub fn state_diff_with(&self, prev: &Screen, options: DiffOptions) -> Result<String, Error>
        requires { SameSize self.now.page prev.now.page }
        ensures text { IfText result (IsStateDiffWith options prev.now self.now) }
        ensures controls { IfText result
            (IsMadeOf (finals_with options.repeat options.scroll) (state_diff_controls options.scroll)) }
        ensures rows { IfText result (RepeatsOnlyInRows prev.now self.now) }
        ensures again { IfText result (SetsModesOnScreens (AreModes prev.now.modes) self.now.modes) }
        ensures gives { IfText result (GivesState (IsStateReaderOf self.now prev.now) self.now) }
        ensures shorter { IfText result
            (λ text. length text ≤ length (state_change_in (form_with options) prev.now self.now)) }
        ensures redraw { IsTrue options.scroll → IfText result (λ text. length text
            ≤ length (shown_text_in (form_with options) self.now ++ input_change prev.now.modes self.now.modes)) }
        ensures empty { IfText result (IsSameStateIfEmpty prev.now self.now) }
        ensures none { IfText result (IsEmptyIfSameState prev.now self.now) }
        ensures portable { IsTrue options.portable → IfText result
            (DrawsThenSets (IsPortableFrom prev.now self.now) (input_change prev.now.modes self.now.modes)) }
        ensures memory { OnlyOutOfMemory result }
        ensures nonempty { RefusedOnlyIfSome result (state_change_in (form_with options) prev.now self.now) }
        ensures never { display self.now ≡ display prev.now → self.now.modes ≡ prev.now.modes → IsOk result }
    {
        let mut text = self.contents_diff_with(prev, options)?;
        match self.write_input_mode_diff(&mut text, prev) {
            Ok(()) => Ok(text),
            Err(_) => Err(Error::OutOfMemory),
        }
    }
}
