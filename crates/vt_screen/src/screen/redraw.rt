//! Output that redraws the screen on another terminal.
//!
//! The *picture* of a screen is what it displays: the displayed rows, cut to
//! its columns, and whether each is wrapped; the cursor, including a pending
//! wrap; the current attributes; and whether the cursor is hidden.
//!
//! A terminal is *plain* if it is in ground state, its scroll region is the
//! whole page, origin mode is off and no scrollback is displayed.
//!
//! A picture is *steady* if each of its glyphs, printed on a blank row,
//! reproduces itself. Every glyph without U+FE0F reproduces itself, and so does
//! U+2764 U+FE0F in a row of two or more columns.

ghost use Rattle.std.specs.Prelude.{◌≡◌, ◌↔◌, ◌++◌, [], IfOk, IsOk, IsTrue, OnOk};
ghost use Rattle.vt_cells.specs.Op.{bytes_of_all};
ghost use Rattle.vt_cells.specs.Refusals.{OnlyOutOfMemory};
ghost use Rattle.vt_grid.specs.Page.{SameSize};
ghost use Rattle.vt_redraw.specs.Locality.{MayPlace};
ghost use Rattle.vt_redraw.specs.Picture.{SamePictureSize};
ghost use Rattle.vt_redraw.specs.Redraw.{cursor_state};
ghost use Rattle.vt_redraw.specs.Refusals.{RefusedOnlyIfSome};
ghost use Rattle.vt_redraw.specs.Steady.{IsSteady};
ghost use Rattle.vt_screen.specs.Again.{KeepsPlain, MakesPlain};
ghost use Rattle.vt_screen.specs.AnyRegion.{IsReaderInAnyRegion, KeepsRestButRegion, reset_text};
ghost use Rattle.vt_screen.specs.MadeOf.{IsMadeOf, drawing_controls, drawing_finals, reset_controls};
ghost use Rattle.vt_screen.specs.Portable.{IsPortableAnywhere};
ghost use Rattle.vt_screen.specs.Screen.{IsColored, IsScreen, ScreenValue, above_page, page_alone};
ghost use Rattle.vt_screen.specs.Touched.{TouchesNear, TouchesOnly};
ghost use Rattle.vt_screen.specs.Shown.{IsReader, IsReaderOfRows, IsSameIfEmpty, KeepsRest, Redraws, RedrawsFrom};
ghost use Rattle.vt_screen.specs.Shown.{SetsAttrs, ShowsOwnPage, ShowsScrollback, TakesCursor, Turns, attributes_text, display};
ghost use Rattle.vt_screen.specs.Shown.{display_change, display_change_in, form_of, shown_text, shown_text_in};
ghost use Rattle.vt_screen.specs.TextResults.{IfText};

use crate::redraw_options::{RedrawOptions, form_of};
use crate::screen::Screen;
use vt_cells::term::{BufWrite, ChangeAttrs, ClearAttrs};
use vt_cells::{Attrs, Error, Sink};
use vt_grid::Scrollback;
use vt_redraw::{
    Form, View, is_steady, write_contents_diff, write_contents_diff_in, write_contents_formatted,
    write_contents_formatted_in, write_cursor_state,
};

impl Screen {
    /// Returns a copy of what the screen displays: a screen with the same
    /// active page, attributes and modes, but without scrollback or the
    /// inactive page (clause `alone`). It takes less memory than a clone.
    ///
    /// The copy has the same size, the same display and the same modes (clauses
    /// `size`, `shown` and `modes`), so it can serve as `prev` in diffs,
    /// including [`Screen::state_diff`].
    ///
    /// While scrollback is displayed, the result is a copy of the whole screen,
    /// as returned by `Screen::clone` (clause `whole`).
    ///
    /// # Errors
    ///
    /// Returns `Error::OutOfMemory` if the copy cannot be allocated.
    pub fn shown_copy(&self) -> Result<Screen, Error>
        ensures shown { IfOk result (λ screen. display screen ≡ display self.now) }
        ensures size { IfOk result (λ screen. SameSize screen.page self.now.page) }
        ensures modes { IfOk result (λ screen. screen.modes ≡ self.now.modes) }
        ensures alone { ShowsOwnPage self.now → IfOk result (λ screen. screen ≡ page_alone self.now) }
        ensures whole { ShowsScrollback self.now → IfOk result (λ screen. screen ≡ self.now) }
        ensures memory { OnlyOutOfMemory result }
    {
        if self.scrollback.offset() == 0 {
            return self.page_copy();
        }
        let copy = self.clone()?;
        Ok(copy)
    }

    /// Returns a screen with a copy of the active page and with the attributes and modes of this
    /// screen, but without scrollback or the inactive page.
    ///
    /// # Errors
    ///
    /// Returns `Error::OutOfMemory` if the copy cannot be allocated.
    #[tactic(auto, using(crate::proofs::StepInvariant::kept_alone))]
    fn page_copy(&self) -> Result<Screen, Error>
        ensures shown { (above_page self.now).offset ≡ 0 → IfOk result (λ screen. display screen ≡ display self.now) }
        ensures size { IfOk result (λ screen. SameSize screen.page self.now.page) }
        ensures alone { IfOk result (λ screen. screen ≡ page_alone self.now) }
        ensures memory { OnlyOutOfMemory result }
    {
        let grid = self.grid.try_clone(self.alloc)?;
        Ok(Screen {
            alloc: self.alloc,
            grid,
            attrs: self.attrs,
            saved_attrs: self.saved_attrs,
            hidden: self.hidden,
            modes: self.modes,
            last: self.last,
            scrollback: Scrollback::new(self.alloc, 0),
            other: None,
            other_scrollback: Scrollback::new(self.alloc, 0),
            is_alternate: false,
        })
    }

    /// Returns whether the screen is *steady*: whether each displayed glyph,
    /// printed character by character on a blank row of the screen's width,
    /// reproduces itself.
    ///
    /// A terminal that reads the redraw of a steady screen, or a diff to a
    /// steady screen, displays exactly that screen. A glyph can fail to
    /// reproduce itself only if its text contains U+FE0F, which may make it
    /// wide or narrow.
    ///
    /// Only cells whose text contains U+FE0F are examined closely. If the text
    /// of every cell in a row is shorter than four bytes, only the lengths of
    /// the texts are read.
    ///
    /// # Examples
    ///
    /// ```text
    /// // U+2764 U+FE0F is a wide glyph, on a screen of two columns or more
    /// parser.process("\u{2764}\u{fe0f}".as_bytes())?;
    /// assert!(parser.screen().is_steady());
    /// ```
    pub fn is_steady(&self) -> bool
        ensures { IsTrue result ↔ IsSteady (display self.now) }
    {
        is_steady(&self.view())
    }

    /// Returns the escape sequences that redraw the screen on a plain terminal
    /// of the same size, whatever it displayed before.
    ///
    /// A terminal is *plain* if it is in ground state and has not run out of
    /// memory, its scroll region is the whole page, origin mode is off, and no
    /// scrollback is displayed. Every fresh terminal is plain. A screen is
    /// *steady* if each displayed glyph, printed on a blank row, reproduces
    /// itself; see [`Screen::is_steady`].
    ///
    /// If this screen is steady, a plain terminal of its size that has read the
    /// output is plain and displays this screen (clause `redraws`). Reading the
    /// output invokes no callbacks and allocates nothing. Scrollback, the
    /// inactive page and the modes are unchanged; only the saved cursor, saved
    /// origin mode, saved attributes and last character may change. Screens
    /// with the same display have the same output, and steady screens of the
    /// same size with different displays have different output (clause `same`).
    ///
    /// Even if the screen is not steady, the output contains only controls that
    /// draw (clause `controls`). A plain terminal that has read the output is
    /// plain again (clause `again`): no callback except `on_scroll` was
    /// invoked, and the inactive page, the input modes, the cursor style and
    /// the size are unchanged.
    ///
    /// # Errors
    ///
    /// Returns `Error::OutOfMemory` if the output cannot be allocated.
    ///
    /// # Examples
    ///
    /// ```text
    /// // on a fresh screen
    /// assert_eq!(screen.contents_formatted()?, "\x1b[?25h\x1b[m\x1b[H\x1b[J");
    /// ```
    pub fn contents_formatted(&self) -> Result<String, Error>
        ensures colored { IsColored self.now }
        ensures text { IfText result (λ text. text ≡ shown_text self.now) }
        ensures controls { IfText result (IsMadeOf drawing_finals drawing_controls) }
        ensures again { IfText result KeepsPlain }
        ensures redraws { IfText result (Redraws (display self.now) (IsReader (display self.now)) KeepsRest) }
        ensures same { IfText result (λ text. (other : ScreenValue) → IsScreen other → IsColored other →
            SamePictureSize (display self.now) (display other) → IsSteady (display self.now) → IsSteady (display other) →
            text ≡ shown_text other → display self.now ≡ display other) }
        ensures memory { OnlyOutOfMemory result }
    {
        let mut text = String::new(self.alloc);
        match self.write_contents_formatted(&mut text) {
            Ok(()) => Ok(text),
            Err(_) => Err(Error::OutOfMemory),
        }
    }

    /// Returns the escape sequences that redraw the screen on a plain terminal of the same size, as
    /// [`Screen::contents_formatted`] does, but with options. What plain and steady mean is
    /// explained there.
    ///
    /// With `portable`, the output avoids sequences on whose effects terminals disagree: attributes
    /// change from bold to dim, or back, only after a reset; a cursor on the last column is moved
    /// only to an absolute position; a wide glyph is erased as a whole; and after a glyph on whose
    /// width terminals may disagree, the cursor is moved to an absolute position. Without it, the
    /// output is that of `contents_formatted`.
    ///
    /// If this screen is steady, a plain terminal of its size that has read the output is plain and
    /// displays this screen (clause `redraws`). With `portable`, terminals then agree on the effect
    /// of each sequence of the output, whatever they differ in before (clause `portable`). Steady
    /// screens of the same size with different displays have different output (clause `same`). Even
    /// if the screen is not steady, the output contains only controls that draw (clause `controls`),
    /// and a plain terminal that has read it is plain again (clause `again`).
    ///
    /// # Errors
    ///
    /// Returns `Error::OutOfMemory` if the output cannot be allocated.
    ///
    /// # Examples
    ///
    /// ```text
    /// // a dim `a` and a bold `b` on a fresh screen, after the bytes that clear the terminal
    /// let options = RedrawOptions { portable: true };
    /// assert!(screen.contents_formatted_with(options)?.ends_with("\x1b[2ma\x1b[m\x1b[1mb"));
    /// ```
    pub fn contents_formatted_with(&self, options: RedrawOptions) -> Result<String, Error>
        ensures colored { IsColored self.now }
        ensures text { IfText result (λ text. text ≡ shown_text_in (form_of options.portable) self.now) }
        ensures controls { IfText result (IsMadeOf drawing_finals drawing_controls) }
        ensures again { IfText result KeepsPlain }
        ensures redraws { IfText result (Redraws (display self.now) (IsReader (display self.now)) KeepsRest) }
        ensures portable { IfText result (λ text. IsTrue options.portable → IsPortableAnywhere self.now text) }
        ensures same { IfText result (λ text. (other : ScreenValue) → IsScreen other → IsColored other →
            SamePictureSize (display self.now) (display other) → IsSteady (display self.now) → IsSteady (display other) →
            text ≡ shown_text_in (form_of options.portable) other → display self.now ≡ display other) }
        ensures memory { OnlyOutOfMemory result }
    {
        let mut text = String::new(self.alloc);
        match self.write_contents_formatted_in(&mut text, form_of(options.portable)) {
            Ok(()) => Ok(text),
            Err(_) => Err(Error::OutOfMemory),
        }
    }

    /// Returns the escape sequences that redraw the screen on a terminal of the
    /// same size, whatever its scroll region and origin mode are and whatever
    /// it displayed before.
    ///
    /// The sequences turn off origin mode (DECOM), reset the scroll region to
    /// the whole page (DECSTBM), and then redraw as
    /// [`Screen::contents_formatted`] does.
    ///
    /// The terminal must be in ground state and display no scrollback; it may
    /// be on the main or the alternate page. If this screen is steady (each
    /// glyph reproduces itself when printed), such a terminal is plain and
    /// displays this screen after reading the output (clause `redraws`).
    /// Reading the output invokes no callbacks and allocates nothing.
    /// Scrollback, the inactive page and the modes are unchanged; besides the
    /// scroll region and origin mode, only the saved cursor, saved origin mode,
    /// saved attributes and last character may change. Screens with the same
    /// display have the same output, and steady screens of the same size with
    /// different displays have different output (clause `same`).
    ///
    /// Such a terminal is plain after reading the output even if this screen is
    /// not steady (clause `again`): no callback except `on_scroll` was invoked,
    /// and the inactive page, the input modes, the cursor style and the size
    /// are unchanged.
    ///
    /// # Errors
    ///
    /// Returns `Error::OutOfMemory` if the output cannot be allocated.
    ///
    /// # Examples
    ///
    /// ```text
    /// // on a fresh screen
    /// assert_eq!(
    ///     screen.contents_formatted_reset()?,
    ///     "\x1b[?6l\x1b[r\x1b[?25h\x1b[m\x1b[H\x1b[J",
    /// );
    /// ```
    pub fn contents_formatted_reset(&self) -> Result<String, Error>
        ensures colored { IsColored self.now }
        ensures text { IfText result (λ text. text ≡ reset_text (display self.now)) }
        ensures controls { IfText result (IsMadeOf drawing_finals reset_controls) }
        ensures again { IfText result MakesPlain }
        ensures redraws { IfText result
            (Redraws (display self.now) (IsReaderInAnyRegion (display self.now)) KeepsRestButRegion) }
        ensures same { IfText result (λ text. (other : ScreenValue) → IsScreen other → IsColored other →
            SamePictureSize (display self.now) (display other) → IsSteady (display self.now) → IsSteady (display other) →
            text ≡ reset_text (display other) → display self.now ≡ display other) }
        ensures memory { OnlyOutOfMemory result }
    {
        let mut text = String::new(self.alloc);
        match self.write_contents_formatted_reset(&mut text) {
            Ok(()) => Ok(text),
            Err(_) => Err(Error::OutOfMemory),
        }
    }

    /// Returns the escape sequences that turn the display of `prev` into the
    /// display of this screen. Both screens must have the same size.
    ///
    /// A terminal is plain if it is in ground state, with the full scroll
    /// region, origin mode off and no scrollback displayed. A screen is steady
    /// if each glyph reproduces itself when printed.
    ///
    /// If this screen is steady, a plain terminal that displays `prev` displays
    /// this screen after reading the output (clause `redraws`), as with
    /// [`Screen::contents_formatted`]. The output is empty if both screens have
    /// the same display (clause `none`); if this screen is steady, it is empty
    /// only in that case (clause `empty`).
    ///
    /// If this screen is steady, the output touches only rows that differ and
    /// the rows directly below them (clause `touches`). In these rows, glyphs
    /// that are equal on both screens are not touched, except in the first and
    /// the last column. The output may also touch the end of one row to make a
    /// wrap pending.
    ///
    /// A plain terminal that has read the output is plain again even if this
    /// screen is not steady (clause `again`), as with
    /// [`Screen::contents_formatted`].
    ///
    /// # Errors
    ///
    /// Returns `Error::OutOfMemory` if the output cannot be allocated. There is
    /// no error if both screens have the same display, because empty output
    /// needs no allocation (clause `never`).
    ///
    /// # Examples
    ///
    /// ```text
    /// // from a fresh screen to one that read `a`
    /// assert_eq!(screen.contents_diff(&fresh)?, "a");
    /// ```
    pub fn contents_diff(&self, prev: &Screen) -> Result<String, Error>
        requires { SameSize self.now.page prev.now.page }
        ensures text { IfText result (λ text. text ≡ display_change prev.now self.now) }
        ensures controls { IfText result (IsMadeOf drawing_finals drawing_controls) }
        ensures again { IfText result KeepsPlain }
        ensures redraws { IfText result (RedrawsFrom prev.now self.now) }
        ensures empty { IfText result (IsSameIfEmpty prev.now self.now) }
        ensures none { IfText result (λ text. display self.now ≡ display prev.now → text ≡ []) }
        ensures touches { IfText result (TouchesNear prev.now self.now) }
        ensures memory { OnlyOutOfMemory result }
        ensures nonempty { RefusedOnlyIfSome result (display_change prev.now self.now) }
        ensures never { display self.now ≡ display prev.now → IsOk result }
    {
        let mut text = String::new(self.alloc);
        match self.write_contents_diff(&mut text, prev) {
            Ok(()) => Ok(text),
            Err(_) => Err(Error::OutOfMemory),
        }
    }

    /// Returns the escape sequences that move the cursor to its position on
    /// this screen and hide or show it.
    ///
    /// The output is for a plain terminal (in ground state, with the full
    /// scroll region, origin mode off and no scrollback displayed) that has the
    /// same size as this screen, displays its rows, and has default attributes.
    ///
    /// If this screen is steady (each glyph reproduces itself when printed),
    /// such a terminal has this screen's cursor after reading the output, and
    /// is plain again (clause `turns`). Reading the output invokes no callbacks
    /// and allocates nothing, and the rows and attributes are unchanged.
    /// Nothing is touched except the end of one row if a wrap is pending
    /// (clause `touches`). A plain terminal that has read the output is plain
    /// again even if this screen is not steady (clause `again`).
    ///
    /// # Errors
    ///
    /// Returns `Error::OutOfMemory` if the output cannot be allocated.
    pub fn cursor_state_formatted(&self) -> Result<String, Error>
        ensures text { IfText result (λ text. text ≡ bytes_of_all (cursor_state (display self.now))) }
        ensures controls { IfText result (IsMadeOf drawing_finals drawing_controls) }
        ensures again { IfText result KeepsPlain }
        ensures turns { IfText result (λ text. IsSteady (display self.now) →
            Turns (IsReaderOfRows (display self.now)) text (TakesCursor (display self.now))) }
        ensures touches { IfText result (λ text. IsSteady (display self.now) →
            TouchesOnly (IsReaderOfRows (display self.now)) text (MayPlace (display self.now))) }
        ensures memory { OnlyOutOfMemory result }
    {
        let mut text = String::new(self.alloc);
        match self.write_cursor_state(&mut text) {
            Ok(()) => Ok(text),
            Err(_) => Err(Error::OutOfMemory),
        }
    }

    /// Returns the escape sequences that set the current attributes: a reset (SGR 0) followed by
    /// the changes from the defaults.
    ///
    /// Any terminal in ground state has this screen's current attributes after reading the output,
    /// and nothing else changes (clause `sets`).
    ///
    /// # Errors
    ///
    /// Returns `Error::OutOfMemory` if the output cannot be allocated.
    pub fn attributes_formatted(&self) -> Result<String, Error>
        ensures text { IfText result (λ text. text ≡ attributes_text self.now.attrs) }
        ensures controls { IfText result (IsMadeOf drawing_finals drawing_controls) }
        ensures sets { IfText result (SetsAttrs self.now.attrs) }
        ensures memory { OnlyOutOfMemory result }
    {
        let mut text = String::new(self.alloc);
        match write_attrs(&mut text, self.attrs()) {
            Ok(()) => Ok(text),
            Err(_) => Err(Error::OutOfMemory),
        }
    }

    /// Writes the output of [`Screen::contents_formatted`].
    pub(super) fn write_contents_formatted<S: Sink>(&self, sink: &mut S) -> Result<(), S::Error>
        ensures whole { IsScreen self.now }
        ensures colored { IsColored self.now }
        ensures text { OnOk result (S.text sink.new ≡ S.text sink.old ++ shown_text self.now) }
    {
        write_contents_formatted(sink, &self.view())
    }

    /// Writes the redraw of the screen in the given form.
    fn write_contents_formatted_in<S: Sink>(&self, sink: &mut S, form: Form) -> Result<(), S::Error>
        ensures whole { IsScreen self.now }
        ensures colored { IsColored self.now }
        ensures text { OnOk result (S.text sink.new ≡ S.text sink.old ++ shown_text_in form self.now) }
    {
        write_contents_formatted_in(sink, &self.view(), form)
    }

    /// Writes the output of [`Screen::contents_formatted_reset`].
    fn write_contents_formatted_reset<S: Sink>(&self, sink: &mut S) -> Result<(), S::Error>
        ensures whole { IsScreen self.now }
        ensures colored { IsColored self.now }
        ensures text { OnOk result (S.text sink.new ≡ S.text sink.old ++ reset_text (display self.now)) }
    {
        let view = self.view();
        sink.write_str("\x1b[?6l\x1b[r")?;
        write_contents_formatted(sink, &view)
    }

    /// Writes the output of [`Screen::contents_diff`].
    pub(super) fn write_contents_diff<S: Sink>(
        &self,
        sink: &mut S,
        prev: &Screen,
    ) -> Result<(), S::Error>
        requires { SameSize self.now.page prev.now.page }
        ensures whole { IsScreen self.now }
        ensures colored { IsColored self.now }
        ensures other { IsScreen prev.now }
        ensures other_colored { IsColored prev.now }
        ensures text { OnOk result (S.text sink.new ≡ S.text sink.old ++ display_change prev.now self.now) }
        ensures nonempty { RefusedOnlyIfSome result (display_change prev.now self.now) }
    {
        write_contents_diff(sink, &self.view(), &prev.view())
    }

    /// Writes the diff from `prev` to this screen in the given form.
    pub(super) fn write_contents_diff_in<S: Sink>(
        &self,
        sink: &mut S,
        prev: &Screen,
        form: Form,
    ) -> Result<(), S::Error>
        requires { SameSize self.now.page prev.now.page }
        ensures whole { IsScreen self.now }
        ensures colored { IsColored self.now }
        ensures other { IsScreen prev.now }
        ensures other_colored { IsColored prev.now }
        ensures text { OnOk result (S.text sink.new ≡ S.text sink.old ++ display_change_in form prev.now self.now) }
        ensures nonempty { RefusedOnlyIfSome result (display_change_in form prev.now self.now) }
    {
        write_contents_diff_in(sink, &self.view(), &prev.view(), form, &mut ())
    }

    /// Writes the output of [`Screen::cursor_state_formatted`].
    fn write_cursor_state<S: Sink>(&self, sink: &mut S) -> Result<(), S::Error>
        ensures whole { IsScreen self.now }
        ensures colored { IsColored self.now }
        ensures text { OnOk result (S.text sink.new ≡ S.text sink.old ++ bytes_of_all (cursor_state (display self.now))) }
    {
        write_cursor_state(sink, &self.view())
    }

    /// Returns a view of what the screen displays.
    pub(super) fn view(&self) -> View<'_>
        ensures value { result ≡ display self.now }
        ensures whole { IsScreen self.now }
        ensures colored { IsColored self.now }
    {
        let attrs = self.attrs();
        View::new(&self.scrollback, &self.grid, attrs, self.hidden)
    }
}

/// Writes the escape sequences that set the attributes `attrs`, as [`Screen::attributes_formatted`]
/// describes.
fn write_attrs<S: Sink>(sink: &mut S, attrs: Attrs) -> Result<(), S::Error>
    ensures text { OnOk result (S.text sink.new ≡ S.text sink.old ++ attributes_text attrs) }
{
    ClearAttrs.write_buf(sink)?;
    ChangeAttrs {
        was: Attrs::new(),
        new: attrs,
    }
    .write_buf(sink)
}
