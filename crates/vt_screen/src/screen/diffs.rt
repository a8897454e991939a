//! Diffs with options.

ghost use Rattle.std.specs.Prelude.{◌≡◌, ◌≤◌, ◌-◌, [], IsOk, false, IsTrue, length, string_bytes};
ghost use Rattle.vt_cells.specs.Refusals.{OnlyOutOfMemory};
ghost use Rattle.vt_grid.specs.Page.{SameSize};
ghost use Rattle.vt_redraw.specs.Refusals.{RefusedOnlyIfSome};
ghost use Rattle.vt_screen.specs.Internals.{IsPlainDiff, KeepsAgreed, KeepsPieces};
ghost use Rattle.vt_screen.specs.Diffs.{IsDiffWith, KeepsScreensPlain, MayRepeat, RepeatsOnlyInRows};
ghost use Rattle.vt_screen.specs.Diffs.{diff_controls, finals_with, form_with};
ghost use Rattle.vt_screen.specs.MadeOf.{IsMadeOf};
ghost use Rattle.vt_screen.specs.Portable.{IsPortableFrom};
ghost use Rattle.vt_screen.specs.Shown.{IsSameIfEmpty, RedrawsFrom, display, display_change_in, shown_text_in};
ghost use Rattle.vt_screen.specs.TextResults.{IfText};

use crate::diff_options::DiffOptions;
use crate::redraw_options::form_of;
use crate::repeat::Repeat;
use crate::repeats::with_repeats;
use crate::screen::Screen;
use vt_cells::Error;
use vt_redraw::Form;

impl Screen {
    /// Returns the escape sequences that turn the display of `prev` into the display of this
    /// screen, as [`Screen::contents_diff`] does, but with options. Both screens must have the same
    /// size.
    ///
    /// With `scroll`, the output may move rows or columns before it draws the remaining changes, as
    /// [`Screen::contents_diff_scrolling`] does. Runs of the one-column characters that `repeat`
    /// allows may be written as the character followed by REP (CSI `n` `b`, ECMA-48, 8.3.103) if
    /// that is shorter. Some terminals ignore REP, and tmux 3.3a performs it only after ASCII
    /// characters, so allow only what the receiving terminal performs. With `Repeat::Never`, the
    /// output is that of `contents_diff` or, with `scroll`, of `contents_diff_scrolling`.
    ///
    /// With `portable`, the output avoids sequences on whose effects terminals disagree, as that of
    /// [`Screen::contents_formatted_with`] does. With `scroll`, it may move rows, but no columns. It
    /// then moves the cursor with LF, CR, BS or CHA if that is shorter, but not with HT, since tab
    /// stops may be cleared. If this screen is steady, terminals that display `prev` agree on the effect
    /// of each sequence of the output (clause `portable`).
    ///
    /// The output contains only controls that draw and, if `repeat` allows any character, REP
    /// (clause `controls`).
    ///
    /// The output is never longer than that of `contents_diff` (clause `shorter`) or, with `scroll`,
    /// than the full redraw (clause `redraw`). With `portable`, both are compared in their portable
    /// form. Every terminal in ground state takes the same steps
    /// for the output with REP as for the output with the runs written out (clause `text`). On a
    /// plain terminal that displays `prev`, the characters of each REP fit in the row (clause
    /// `rows`); terminals differ in how they treat characters that do not fit.
    ///
    /// If this screen is steady, a plain terminal that displays `prev` displays this screen after
    /// reading the output (clause `redraws`). The output is empty if both screens have the same
    /// display; if this screen is steady, it is empty only in that case (clause `empty`). A plain
    /// terminal that has read the output is plain again, even if this screen is not steady (clause
    /// `again`).
    ///
    /// # Errors
    ///
    /// Returns `Error::OutOfMemory` if the output, or intermediate output from which it is made,
    /// cannot be allocated. There is no error if both screens have the same display (clause
    /// `never`).
    ///
    /// # Examples
    ///
    /// ```text
    /// // ten `-` on a blank screen: the character, and nine repetitions
    /// let options = DiffOptions { repeat: Repeat::Ascii, ..DiffOptions::default() };
    /// assert_eq!(screen.contents_diff_with(&blank, options)?, "-\x1b[9b");
    /// ```
    pub fn contents_diff_with(&self, prev: &Screen, options: DiffOptions) -> Result<String, Error>
        requires { SameSize self.now.page prev.now.page }
        ensures text { IfText result (IsDiffWith options prev.now self.now) }
        ensures controls { IfText result
            (IsMadeOf (finals_with options.repeat options.scroll) (diff_controls options.scroll)) }
        ensures rows { IfText result (RepeatsOnlyInRows prev.now self.now) }
        ensures again { IfText result KeepsScreensPlain }
        ensures shorter { IfText result
            (λ text. length text ≤ length (display_change_in (form_with options) prev.now self.now)) }
        ensures redraw { IsTrue options.scroll → IfText result
            (λ text. length text ≤ length (shown_text_in (form_with options) self.now)) }
        ensures redraws { IfText result (RedrawsFrom prev.now self.now) }
        ensures empty { IfText result (IsSameIfEmpty prev.now self.now) }
        ensures none { IfText result (λ text. display self.now ≡ display prev.now → text ≡ []) }
        ensures portable { IsTrue options.portable → IfText result (IsPortableFrom prev.now self.now) }
        ensures memory { OnlyOutOfMemory result }
        ensures nonempty { RefusedOnlyIfSome result (display_change_in (form_with options) prev.now self.now) }
        ensures never { display self.now ≡ display prev.now → IsOk result }
    {
        let plain = self.plain_diff(prev, options)?;
        let text = self.diff_with_repeats(prev, plain, options.repeat)?;
        Ok(text)
    }

    /// Returns the diff with the given options, but without REP.
    ///
    /// # Errors
    ///
    /// Returns `Error::OutOfMemory` if the output cannot be allocated.
    fn plain_diff(&self, prev: &Screen, options: DiffOptions) -> Result<String, Error>
        requires { SameSize self.now.page prev.now.page }
        ensures text { IfText result (IsPlainDiff (form_with options) options.scroll prev.now self.now) }
        ensures memory { OnlyOutOfMemory result }
        ensures nonempty { RefusedOnlyIfSome result (display_change_in (form_with options) prev.now self.now) }
    {
        let form = form_of(options.portable);
        if options.scroll {
            let text = self.scrolling_diff(prev, form)?;
            return Ok(text);
        }
        let text = self.ordinary_diff(prev, form)?;
        Ok(text)
    }

    /// Returns the ordinary diff in the given form: in the fixed form, the output of
    /// [`Screen::contents_diff`].
    ///
    /// # Errors
    ///
    /// Returns `Error::OutOfMemory` if the output cannot be allocated.
    fn ordinary_diff(&self, prev: &Screen, form: Form) -> Result<String, Error>
        requires { SameSize self.now.page prev.now.page }
        ensures text { IfText result (IsPlainDiff form false prev.now self.now) }
        ensures memory { OnlyOutOfMemory result }
        ensures nonempty { RefusedOnlyIfSome result (display_change_in form prev.now self.now) }
    {
        let mut text = String::new(self.alloc);
        match self.write_contents_diff_in(&mut text, prev, form) {
            Ok(()) => Ok(text),
            Err(_) => Err(Error::OutOfMemory),
        }
    }

    /// Returns the diff `plain` in which runs of the characters that `repeat` allows are written
    /// with REP. The terminal displays `prev` before it reads the diff.
    ///
    /// # Errors
    ///
    /// Returns `Error::OutOfMemory` if the output cannot be allocated.
    #[tactic(auto, using(crate::proofs::RepeatDiffs::to_may_repeat))]
    fn diff_with_repeats(
        &self,
        prev: &Screen,
        plain: String,
        repeat: Repeat,
    ) -> Result<String, Error>
        ensures text { IfText result (MayRepeat repeat prev.now (string_bytes plain)) }
        ensures pieces { IfText result (KeepsPieces (string_bytes plain)) }
        ensures agrees { IfText result
            (KeepsAgreed prev.now.page.width (prev.now.page.width - prev.now.page.column) (string_bytes plain)) }
        ensures memory { OnlyOutOfMemory result }
        ensures nonempty { RefusedOnlyIfSome result (string_bytes plain) }
    {
        let (_, cols) = prev.size();
        let (_, column) = prev.cursor_position();
        let room = cols.get().saturating_sub(column);
        let text = with_repeats(self.alloc, plain, repeat, cols.get(), room)?;
        Ok(text)
    }
}
