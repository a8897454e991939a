//! Diffs that may move rows or columns before they draw the remaining changes. They are never
//! longer than the ordinary diff or the full redraw.
//!
//! The module `redraw` defines what a screen displays, when a terminal is plain, and when a screen
//! is steady.

ghost use Rattle.std.specs.Prelude.{◌≡◌, ◌<◌, ◌≤◌, ◌++◌, [], IsOk, IsTrue, OnOk, length, string_bytes, true};
ghost use Rattle.vt_cells.specs.Attrs.{default_attrs};
ghost use Rattle.vt_cells.specs.Refusals.{OnlyOutOfMemory};
ghost use Rattle.vt_grid.specs.Page.{IsPage, SameSize};
ghost use Rattle.vt_redraw.specs.Moved.{IsBand, picture_after_move, scrolling_text};
ghost use Rattle.vt_redraw.specs.Picture.{picture_of};
ghost use Rattle.vt_redraw.specs.Shifted.{IsMoving, IsRowShift};
ghost use Rattle.vt_redraw.specs.Internals.{AppendsShifting};
ghost use Rattle.vt_redraw.specs.Refusals.{RefusedOnlyIfSome};
ghost use Rattle.vt_redraw.specs.declared.form.Form.TheVariants.{Fixed};
ghost use Rattle.vt_screen.specs.Again.{KeepsPlain};
ghost use Rattle.vt_screen.specs.Internals.{HasDiffProperties, IsPlainDiff};
ghost use Rattle.vt_screen.specs.MadeOf.{IsMadeOf, shortened_controls, shortened_finals};
ghost use Rattle.vt_screen.specs.Screen.{IsColored, IsScreen};
ghost use Rattle.vt_screen.specs.Gaps.{IsShortVersion};
ghost use Rattle.vt_screen.specs.ShortMoves.{IsMovingOrRedraw, IsShortMoving, IsShorterWithRedraw, known_cursor};
ghost use Rattle.vt_screen.specs.Shown.{IsSameIfEmpty, RedrawsFrom, ShowsOwnPage, display, display_change};
ghost use Rattle.vt_screen.specs.Shown.{display_change_in, shown_text};
ghost use Rattle.vt_screen.specs.TextResults.{IfText};

use crate::screen::Screen;
use crate::short_moves::{Known, with_short_moves};
use vt_cells::{Attrs, Error, Pos, Sink};
use vt_grid::Grid;
use vt_redraw::pen::write_change;
use vt_redraw::{
    Band, DrawnRows, Form, Move, RowShift, View, likely_move, write_contents_diff,
    write_contents_diff_in, write_contents_formatted_within, write_moves, write_row_shifts,
};

/// The number of bytes with which each redraw begins: those that hide or show the cursor, reset the
/// attributes, and clear the screen.
const LEAST_REDRAW: usize = 15;

impl Screen {
    /// Returns the escape sequences that turn the display of `prev` into the display of this
    /// screen. If rows or columns have moved, the output may move them before it draws the
    /// remaining changes. If the full redraw is shorter, the output is that of
    /// [`Screen::contents_formatted`]. So the output is never longer than that of either
    /// [`Screen::contents_diff`] (clause `shorter`) or [`Screen::contents_formatted`] (clause
    /// `redraw`). Both screens must have the same size.
    ///
    /// If rows have scrolled, even in only a part of the screen, the output may move them with DL
    /// and IL. If text has moved within its row, the output may move it with DCH and ICH. Either
    /// can make the output much shorter. If erasing rows and drawing them again seems shorter, the
    /// output may begin by erasing them with DL and IL. The moves are chosen heuristically, and
    /// only the first 256 rows are searched for moved rows. The output may touch any row.
    ///
    /// The cursor is moved with LF, CR, BS, HT or CHA if that is shorter. The tty must therefore
    /// not translate output, and the tab stops must be at every eighth column.
    ///
    /// A terminal is plain if it is in ground state, with the full scroll region, origin mode off
    /// and no scrollback displayed. A screen is steady if each glyph reproduces itself when
    /// printed.
    ///
    /// If this screen is steady, a plain terminal that displays `prev` displays this screen after
    /// reading the output (clause `redraws`), as with [`Screen::contents_formatted`]. The output is
    /// empty if both screens have the same display; if this screen is steady, it is empty only in
    /// that case (clause `empty`). A plain terminal that has read the output is plain again, even
    /// if this screen is not steady (clause `again`).
    ///
    /// # Errors
    ///
    /// Returns `Error::OutOfMemory` if the output, or output that it is compared with, cannot be
    /// allocated. There is no error if both screens have the same display (clause `never`).
    ///
    /// # Examples
    ///
    /// ```text
    /// // three rows of four columns: from `one`, `two`, `six` to `two`, `six`
    /// assert_eq!(screen.contents_diff_scrolling(&prev)?, "\x1b[H\x1b[M\n\n");
    /// ```
    #[tactic(auto, using(crate::proofs::MadeContents::none_refused, crate::proofs::ReadRedraws::difference_none))]
    pub fn contents_diff_scrolling(&self, prev: &Screen) -> Result<String, Error>
        requires { SameSize self.now.page prev.now.page }
        ensures text { IfText result (IsMovingOrRedraw (display self.now) (display prev.now)) }
        ensures controls { IfText result (IsMadeOf shortened_finals shortened_controls) }
        ensures again { IfText result KeepsPlain }
        ensures shorter { IfText result (λ text. length text ≤ length (display_change prev.now self.now)) }
        ensures redraw { IfText result (λ text. length text ≤ length (shown_text self.now)) }
        ensures redraws { IfText result (RedrawsFrom prev.now self.now) }
        ensures empty { IfText result (IsSameIfEmpty prev.now self.now) }
        ensures none { IfText result (λ text. display self.now ≡ display prev.now → text ≡ []) }
        ensures memory { OnlyOutOfMemory result }
        ensures nonempty { RefusedOnlyIfSome result (display_change prev.now self.now) }
        ensures never { display self.now ≡ display prev.now → IsOk result }
    {
        let text = self.scrolling_diff(prev, Form::Fixed)?;
        Ok(text)
    }

    /// Returns the scrolling diff in the given form: in the fixed form, the output of
    /// [`Screen::contents_diff_scrolling`]. In the portable form, the output moves no columns.
    ///
    /// # Errors
    ///
    /// Returns `Error::OutOfMemory` if the output, or output that it is compared with, cannot be
    /// allocated.
    pub(super) fn scrolling_diff(&self, prev: &Screen, form: Form) -> Result<String, Error>
        requires { SameSize self.now.page prev.now.page }
        ensures text { IfText result (IsPlainDiff form true prev.now self.now) }
        ensures memory { OnlyOutOfMemory result }
        ensures nonempty { RefusedOnlyIfSome result (display_change_in form prev.now self.now) }
    {
        let moving = self.moving_diff(prev, form)?;
        // Only for the proof: a named result lets the prover find the clauses of the call.
        let shortest = self.or_redraw(moving, form)?;
        Ok(shortest)
    }

    /// Returns `text`, or the redraw of this screen in the given form if that is shorter.
    ///
    /// # Errors
    ///
    /// Returns `Error::OutOfMemory` if the redraw, up to the length of `text`, cannot be allocated.
    #[tactic(auto, using(crate::proofs::AgainForms::redraw_least))]
    fn or_redraw(&self, text: String, form: Form) -> Result<String, Error>
        ensures whole { IsScreen self.now }
        ensures colored { IsColored self.now }
        ensures text { IfText result (IsShorterWithRedraw form (display self.now) (string_bytes text)) }
        ensures memory { OnlyOutOfMemory result }
        ensures nonempty { RefusedOnlyIfSome result (string_bytes text) }
    {
        let view = self.view();
        let len = text.len();
        if len <= LEAST_REDRAW {
            return Ok(text);
        }
        let mut redraw = String::new(self.alloc);
        let is_whole = write_contents_formatted_within(&mut redraw, &view, form, len)?;
        if is_whole && redraw.len() < len {
            Ok(redraw)
        } else {
            Ok(text)
        }
    }

    /// Returns the output of [`Screen::scrolling_diff`], but without comparing it with the redraw.
    ///
    /// # Errors
    ///
    /// Returns `Error::OutOfMemory` if the output, or output that it is compared with, cannot be
    /// allocated.
    fn moving_diff(&self, prev: &Screen, form: Form) -> Result<String, Error>
        requires { SameSize self.now.page prev.now.page }
        ensures text { IfText result (IsShortMoving form (display self.now) (display prev.now)) }
        ensures has { IfText result (HasDiffProperties form true prev.now self.now) }
        ensures memory { OnlyOutOfMemory result }
        ensures nonempty { RefusedOnlyIfSome result (display_change_in form prev.now self.now) }
    {
        let mut drawn = DrawnRows::new();
        let text = self.watched_diff(prev, form, &mut drawn)?;
        let moving = self.shortened(prev, form, text, &drawn)?;
        // Only for the proof: a named result lets the prover find the clauses of the call.
        let short = prev.with_short_moves(moving, form)?;
        Ok(short)
    }

    /// Returns the ordinary diff in the given form, and records in `drawn`, which must be empty, the
    /// rows for which it contains output.
    ///
    /// # Errors
    ///
    /// Returns `Error::OutOfMemory` if the output cannot be allocated.
    fn watched_diff(
        &self,
        prev: &Screen,
        form: Form,
        drawn: &mut DrawnRows,
    ) -> Result<String, Error>
        requires { SameSize self.now.page prev.now.page }
        ensures text { IfText result (λ text. text ≡ display_change_in form prev.now self.now) }
        ensures memory { OnlyOutOfMemory result }
        ensures nonempty { RefusedOnlyIfSome result (display_change_in form prev.now self.now) }
    {
        let mut text = String::new(self.alloc);
        match write_contents_diff_in(&mut text, &self.view(), &prev.view(), form, drawn) {
            Ok(()) => Ok(text),
            Err(_) => Err(Error::OutOfMemory),
        }
    }

    /// Returns `text`, which is output in the given form for a terminal that displays this screen, or
    /// shorter output that has the same effect but moves the cursor differently.
    ///
    /// # Errors
    ///
    /// Returns `Error::OutOfMemory` if the alternative output cannot be allocated.
    pub(crate) fn with_short_moves(&self, text: String, form: Form) -> Result<String, Error>
        ensures text { IfText result (IsShortVersion form self.now (string_bytes text)) }
        ensures memory { OnlyOutOfMemory result }
        ensures nonempty { RefusedOnlyIfSome result (string_bytes text) }
    {
        let start = Known {
            form,
            at: self.known_cursor(),
            kept: Some(Pos { row: 0, col: 0 }),
            is_default: self.attrs().is_same(&Attrs::new()),
        };
        match with_short_moves(self.alloc, text.as_str(), &self.view(), start) {
            Err(error) => Err(error),
            Ok(Some(short)) if is_better(short.as_str(), text.as_str()) => Ok(short),
            Ok(_) => Ok(text),
        }
    }

    /// Returns the position of the cursor, or `None` if a wrap is pending.
    fn known_cursor(&self) -> Option<Pos>
        ensures { result ≡ known_cursor self.now }
    {
        let pos = self.grid.pos();
        if pos.col < self.grid.size().cols {
            Some(pos)
        } else {
            None
        }
    }

    /// Returns the ordinary diff `text` in the given form, or shorter output that begins by moving
    /// rows or columns. `drawn` holds the rows for which `text` contains output.
    ///
    /// # Errors
    ///
    /// Returns `Error::OutOfMemory` if the alternative output cannot be allocated.
    fn shortened(
        &self,
        prev: &Screen,
        form: Form,
        text: String,
        drawn: &DrawnRows,
    ) -> Result<String, Error>
        requires size { SameSize self.now.page prev.now.page }
        requires text { string_bytes text ≡ display_change_in form prev.now self.now }
        ensures whole { IsScreen self.now }
        ensures colored { IsColored self.now }
        ensures other { IsScreen prev.now }
        ensures other_colored { IsColored prev.now }
        ensures text { IfText result (IsMoving form (display self.now) (display prev.now)) }
        ensures shorter { IfText result (λ text. length text ≤ length (display_change_in form prev.now self.now)) }
        ensures memory { OnlyOutOfMemory result }
        ensures nonempty { RefusedOnlyIfSome result (display_change_in form prev.now self.now) }
    {
        match likely_move(&self.view(), &prev.view(), form, text.as_str(), drawn) {
            None => Ok(text),
            Some(Move::Rows(band)) => self.shorter_of(prev, form, band, text),
            Some(Move::Columns(first)) => self.shorter_with_shifts(prev, first, text),
        }
    }

    /// Returns the shorter of the ordinary diff `text` in the given form and the output in that form
    /// that begins by moving the rows of `band`.
    ///
    /// # Errors
    ///
    /// Returns `Error::OutOfMemory` if the alternative output cannot be allocated.
    fn shorter_of(
        &self,
        prev: &Screen,
        form: Form,
        band: Band,
        text: String,
    ) -> Result<String, Error>
        requires size { SameSize self.now.page prev.now.page }
        requires band { IsBand (length (display prev.now).rows) band }
        requires text { string_bytes text ≡ display_change_in form prev.now self.now }
        ensures text { IfText result (IsMoving form (display self.now) (display prev.now)) }
        ensures shorter { IfText result (λ text. length text ≤ length (display_change_in form prev.now self.now)) }
        ensures memory { OnlyOutOfMemory result }
    {
        let mut moved = String::new(self.alloc);
        match self.write_moved_diff(&mut moved, prev, form, band) {
            Err(_) => Err(Error::OutOfMemory),
            Ok(()) if moved.len() < text.len() => Ok(moved),
            Ok(()) => Ok(text),
        }
    }

    /// Writes the escape sequences that move the rows of `band`, followed by the sequences in the
    /// given form that turn the resulting display into that of this screen.
    fn write_moved_diff<S: Sink>(
        &self,
        sink: &mut S,
        prev: &Screen,
        form: Form,
        band: Band,
    ) -> Result<(), S::Error>
        requires size { SameSize self.now.page prev.now.page }
        requires band { IsBand (length (display prev.now).rows) band }
        ensures text { OnOk result
            (S.text sink.new ≡ S.text sink.old ++ scrolling_text form band (display self.now) (display prev.now)) }
    {
        write_moves(sink, &prev.view(), band)?;
        let moved = prev.moved_view(band);
        write_contents_diff_in(sink, &self.view(), &moved, form, &mut ())
    }

    /// Returns the shorter of the ordinary diff `text` and the output that begins by shifting
    /// columns, starting with the shift `first`. Returns `text` if scrollback is displayed on
    /// `prev`.
    ///
    /// # Errors
    ///
    /// Returns `Error::OutOfMemory` if the alternative output, or the copy of the page that it is
    /// made from, cannot be allocated.
    fn shorter_with_shifts(
        &self,
        prev: &Screen,
        first: RowShift,
        text: String,
    ) -> Result<String, Error>
        requires size { SameSize self.now.page prev.now.page }
        requires first { IsRowShift (length (display prev.now).rows) (display prev.now).width first }
        requires text { string_bytes text ≡ display_change prev.now self.now }
        ensures text { IfText result (IsMoving Fixed (display self.now) (display prev.now)) }
        ensures shorter { IfText result (λ text. length text ≤ length (display_change prev.now self.now)) }
        ensures memory { OnlyOutOfMemory result }
    {
        if prev.scrollback.offset() != 0 {
            return Ok(text);
        }
        let mut grid = prev.grid.try_clone(self.alloc)?;
        let mut shifted = String::new(self.alloc);
        match self.write_shifted_diff(&mut shifted, prev, &mut grid, first) {
            Err(_) => Err(Error::OutOfMemory),
            Ok(()) if shifted.len() < text.len() => Ok(shifted),
            Ok(()) => Ok(text),
        }
    }

    /// Writes the escape sequences that shift columns, beginning with the shift
    /// `first`, followed by those that turn the resulting display into that of
    /// this screen. The shifts are applied to `grid`, a copy of the page of
    /// `prev`.
    fn write_shifted_diff<S: Sink>(
        &self,
        sink: &mut S,
        prev: &Screen,
        grid: &mut Grid,
        first: RowShift,
    ) -> Result<(), S::Error>
        requires size { SameSize self.now.page prev.now.page }
        requires own { ShowsOwnPage prev.now }
        requires page { grid.old ≡ prev.now.page }
        requires first { IsRowShift (length (display prev.now).rows) (display prev.now).width first }
        ensures { OnOk result (AppendsShifting (S.text sink.old) (S.text sink.new) (display self.now) (display prev.now)) }
    {
        write_change(sink, prev.attrs(), Attrs::new())?;
        write_row_shifts(sink, grid, &self.view(), &prev.view(), first)?;
        write_contents_diff(sink, &self.view(), &prev.view_of(grid))
    }

    /// Returns a view of what the screen would display with default attributes
    /// if `grid` were its active page.
    fn view_of<'a>(&'a self, grid: &'a Grid) -> View<'a>
        requires own { ShowsOwnPage self.now }
        requires page { IsPage grid.now }
        ensures { result ≡ picture_of (record {
          page = grid.now;
          attrs = default_attrs;
          saved_attrs = default_attrs;
          hidden = self.now.hidden;
        }) }
    {
        View::new(&self.scrollback, grid, Attrs::new(), self.hidden)
    }

    /// Returns a view of this screen as a terminal displays it after moving the rows of `band`.
    fn moved_view(&self, band: Band) -> View<'_>
        requires { IsBand (length (display self.now).rows) band }
        ensures { result ≡ picture_after_move band (display self.now) }
    {
        View::moved(&self.scrollback, &self.grid, self.hidden, band)
    }
}

/// Returns whether `short` is shorter than `text` but not empty.
fn is_better(short: &str, text: &str) -> bool
    ensures { IsTrue result → 0 < length short.now }
{
    !short.is_empty() && short.len() < text.len()
}
