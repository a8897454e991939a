//! Output that redraws the rows of the screen one by one.

ghost use Rattle.std.specs.Prelude.{◌≡◌, ◌+◌, ◌≤◌, ◌<◌, ◌↔◌, ℕ, [], length};
ghost use Rattle.vt_cells.specs.Attrs.{default_attrs};
ghost use Rattle.vt_rows.specs.Row.{blank_row};
ghost use Rattle.vt_grid.specs.Page.{SameSize};
ghost use Rattle.vt_redraw.specs.Items.{CutsNone};
ghost use Rattle.vt_redraw.specs.Steady.{IsSteady};
ghost use Rattle.vt_screen.specs.Internals.{IsColumns};
ghost use Rattle.vt_screen.specs.MadeOf.{IsMadeOf, drawing_controls, drawing_finals};
ghost use Rattle.vt_screen.specs.RowsShown.{DrawsRow, EachLinked, EachUncut, EachUnwrapped, HasLinked, IsBlankReader};
ghost use Rattle.vt_screen.specs.RowsShown.{IsRowReader, IsUnwrapped, IsWholeRow, IsWrapReader, changed_rows, changed_text};
ghost use Rattle.vt_screen.specs.RowsShown.{formatted_rows, formatted_text, range_end, shown_row, text_at};
ghost use Rattle.vt_screen.specs.Screen.{IsColored, IsScreen};
ghost use Rattle.vt_screen.specs.Shown.{Makes, Turns, display};
ghost use Rattle.vt_screen.specs.TextResults.{AnswersText};

use crate::rows::{RowsDiff, RowsFormatted};
use crate::screen::Screen;
use vt_cells::Error;
use vt_redraw::{write_row_diff, write_row_formatted};

impl Screen {
    /// Returns an iterator over the escape sequences that draw each displayed
    /// row, from top to bottom, on a blank row of another terminal.
    ///
    /// Each item draws the `width` columns that begin at column `start`, or all columns from
    /// `start` on if there are fewer. `start` must be less than the number of columns.
    ///
    /// The iterator yields one item for each row of the screen. An item is an
    /// error if its output cannot be allocated; iteration then continues with
    /// the next row.
    ///
    /// The output of a row is for a plain terminal of the same size on which that row is blank,
    /// with the cursor at the beginning of the range and default attributes. The screen must be
    /// steady (each glyph reproduces itself when printed), and the range must not cut a wide
    /// character of the row in two. After reading the output, the terminal has the row's cells in
    /// the range, and none of its other cells has changed (clause `draws`). Its cursor and
    /// attributes may have changed. The terminal's row is not wrapped after the output has been
    /// read (clause `unwrapped`). The output of a whole row that follows a wrapped row may also be read
    /// while a wrap is pending in the row above, which then becomes wrapped (clause `linked`).
    ///
    /// # Examples
    ///
    /// ```text
    /// for (row, text) in (1..).zip(screen.rows_formatted(10, 20)) {
    ///     print!("\x1b[{row};11H\x1b[m{}", text?);
    /// }
    /// ```
    pub fn rows_formatted(&self, start: u16, width: u16) -> RowsFormatted<'_>
        requires { start < self.now.page.width }
        ensures texts { result ≡ formatted_rows start width self.now }
        ensures controls { (r : ℕ) → r < length self.now.page.rows →
            IsMadeOf drawing_finals drawing_controls (text_at result r) }
        ensures count { length result ≡ length self.now.page.rows }
        ensures draws { IsSteady (display self.now) → EachUncut start width self.now
            (λ r. DrawsRow start width self.now r (blank_row default_attrs self.now.page.width) (text_at result r)) }
        ensures unwrapped { IsSteady (display self.now) → EachUncut start width self.now
            (λ r. Makes (IsBlankReader (display self.now) r start) (text_at result r) (IsUnwrapped r)) }
        ensures linked { IsWholeRow start width self.now.page.width → IsSteady (display self.now) →
            EachLinked self.now (λ r. Turns (IsWrapReader (display self.now) r) (text_at result (r + 1))
            (HasLinked r (shown_row self.now (r + 1)))) }
    {
        // Only for the proof: this call makes the screen's invariant available.
        self.sound();
        RowsFormatted::new(self, start, self.range_end(start, width))
    }

    /// Returns an iterator over the escape sequences that turn each displayed row of `prev`, from
    /// top to bottom, into the corresponding row of this screen.
    ///
    /// Each item covers the `width` columns that begin at column `start`, or all columns from
    /// `start` on if there are fewer. `start` must be less than the number of columns, and both
    /// screens must have the same size.
    ///
    /// The iterator yields one item for each row of the screen. An item is an
    /// error if its output cannot be allocated; iteration then continues with
    /// the next row.
    ///
    /// The output of a row has the effect described for [`Screen::rows_formatted`], but on a
    /// terminal that displays the row of `prev` (clause `draws`). The range must not cut a wide
    /// character of either row in two. The output of a whole row is empty if and only if both
    /// screens display the same row (clause `empty`). A row that is not wrapped on this screen is
    /// not wrapped on the terminal after the output of the whole row has been read (clause `unwrapped`).
    ///
    /// If a row is wrapped on this screen but not on `prev`, the output of the whole row ends with
    /// a pending wrap. The terminal's row then becomes wrapped only if a character is printed
    /// before the cursor moves; no clause states this. In the example, the cursor moves before each
    /// output, so such a row does not become wrapped.
    ///
    /// # Examples
    ///
    /// ```text
    /// for (row, text) in (1..).zip(screen.rows_diff(&prev, 0, u16::MAX)) {
    ///     let text = text?;
    ///     if !text.is_empty() {
    ///         print!("\x1b[{row}H\x1b[m{text}");
    ///     }
    /// }
    /// ```
    pub fn rows_diff<'a>(&'a self, prev: &'a Screen, start: u16, width: u16) -> RowsDiff<'a>
        requires start { start < self.now.page.width }
        requires size { SameSize self.now.page prev.now.page }
        ensures texts { result ≡ changed_rows start width self.now prev.now }
        ensures controls { (r : ℕ) → r < length self.now.page.rows →
            IsMadeOf drawing_finals drawing_controls (text_at result r) }
        ensures count { length result ≡ length self.now.page.rows }
        ensures draws { IsSteady (display self.now) → EachUncut start width self.now
            (λ r. CutsNone start (range_end start width self.now.page.width) (shown_row prev.now r).cells →
            DrawsRow start width self.now r (shown_row prev.now r) (text_at result r)) }
        ensures unwrapped { IsWholeRow start width self.now.page.width → IsSteady (display self.now) → EachUnwrapped self.now
            (λ r. Makes (IsRowReader (display self.now) r 0 (shown_row prev.now r)) (text_at result r) (IsUnwrapped r)) }
        ensures empty { IsWholeRow start width self.now.page.width → (r : ℕ) → r < length self.now.page.rows →
            (text_at result r ≡ []) ↔ (shown_row self.now r ≡ shown_row prev.now r) }
    {
        // Only for the proof: these calls make the invariants of both screens available.
        self.sound();
        prev.sound();
        RowsDiff::new(self, prev, start, self.range_end(start, width))
    }

    /// Does nothing; the clauses of this function state the invariant of every screen.
    #[inline]
    pub(super) fn sound(&self)
        ensures whole { IsScreen self.now }
        ensures colored { IsColored self.now }
    {
        // Only for the proof: reading a field makes the screen's invariant available.
        let _ = &self.alloc;
        let _ = self.attrs();
    }

    /// Returns the end of the range of `width` columns that begins at column
    /// `start`, clamped to the number of columns of the screen.
    fn range_end(&self, start: u16, width: u16) -> u16
        requires { start < self.now.page.width }
        ensures value { result ≡ range_end start width self.now.page.width }
        ensures order { start ≤ result }
        ensures inside { result ≤ self.now.page.width }
    {
        let (_, cols) = self.size();
        start + width.min(cols.get() - start)
    }

    /// Returns the output that draws the columns `start..stop` of row `row` on a blank row.
    ///
    /// # Errors
    ///
    /// Returns `Error::OutOfMemory` if the output cannot be allocated. Empty output needs no
    /// allocation.
    #[tactic(auto, using(crate::proofs::Shown::shown_height))]
    pub(crate) fn row_formatted(&self, row: u16, start: u16, stop: u16) -> Result<String, Error>
        requires inside { row < length self.now.page.rows }
        requires columns { IsColumns start stop self.now }
        ensures { AnswersText result (formatted_text start stop (display self.now) row) }
    {
        let mut text = String::new(self.alloc);
        match write_row_formatted(&mut text, &self.view(), row, start, stop) {
            Ok(()) => Ok(text),
            Err(_) => Err(Error::OutOfMemory),
        }
    }

    /// Returns the output that turns the columns `start..stop` of row `row` of `prev` into those of
    /// this screen.
    ///
    /// # Errors
    ///
    /// Returns `Error::OutOfMemory` if the output cannot be allocated. Empty output needs no
    /// allocation.
    pub(crate) fn row_diff(
        &self,
        prev: &Screen,
        row: u16,
        start: u16,
        stop: u16,
    ) -> Result<String, Error>
        requires size { SameSize self.now.page prev.now.page }
        requires inside { row < length self.now.page.rows }
        requires columns { IsColumns start stop self.now }
        ensures { AnswersText result (changed_text start stop (display self.now) (display prev.now) row) }
    {
        let mut text = String::new(self.alloc);
        match write_row_diff(&mut text, &self.view(), &prev.view(), row, start, stop) {
            Ok(()) => Ok(text),
            Err(_) => Err(Error::OutOfMemory),
        }
    }
}
