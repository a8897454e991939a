//! Printing runs of characters that fit on the cursor's row, with a single edit of the row for each
//! run.

ghost use Rattle.std.specs.Prelude.{◌≡◌, ◌+◌, ◌*◌, ◌<◌, ◌≤◌, length};
ghost use Rattle.vt_rows.specs.Texts.{IsNarrowText, IsPrintableAscii, IsWideText};
ghost use Rattle.vt_grid.specs.Page.{IsPage};
ghost use Rattle.vt_grid.specs.Texts.{printed_text, text_put, wide_text_put};

use super::Grid;
use vt_cells::Attrs;

impl Grid {
    /// Prints `text` in a single edit of the cursor's row. The text must be printable ASCII and
    /// must fit on that row, so no row scrolls off the page.
    ///
    /// The result is the same as that of calling [`Grid::print_columns`] for each
    /// character.
    #[inline]
    pub fn print_text(&mut self, text: &[u8], attrs: Attrs)
        requires nonempty { 0 < length text.now }
        requires room { self.old.column + length text.now ≤ self.old.width }
        requires printable { IsPrintableAscii text.now }
        ensures { self.new ≡ printed_text text.now attrs self.old }
    {
        self.put_text(text, attrs);
    }

    /// Puts the bytes of `text` at the cursor as narrow glyphs, and moves the
    /// cursor past them.
    #[inline]
    fn put_text(&mut self, text: &[u8], attrs: Attrs)
        requires nonempty { 0 < length text.now }
        requires room { self.old.column + length text.now ≤ self.old.width }
        requires printable { IsPrintableAscii text.now }
        ensures value { self.new ≡ text_put text.now attrs self.old }
        ensures page { IsPage self.old }
    {
        self.page_rows
            .put_text(self.pos.row, self.pos.col, text, attrs);
        self.pos.col += text.len() as u16;
    }

    /// Prints `text` in a single edit of the cursor's row. The text must consist of narrow
    /// characters and must fit on that row, so no row scrolls off the page.
    ///
    /// The result is the same as that of calling [`Grid::print_columns`] for each
    /// character.
    #[tactic(auto, using(crate::proofs::Texts::text_printed))]
    #[inline]
    pub fn print_narrow_text(&mut self, text: &[char], attrs: Attrs)
        requires nonempty { 0 < length text.now }
        requires room { self.old.column + length text.now ≤ self.old.width }
        requires narrow { IsNarrowText text.now }
        ensures { self.new ≡ printed_text text.now attrs self.old }
    {
        self.put_narrow_text(text, attrs);
    }

    /// Puts the characters of `text` at the cursor as narrow glyphs, and moves the
    /// cursor past them.
    #[inline]
    fn put_narrow_text(&mut self, text: &[char], attrs: Attrs)
        requires nonempty { 0 < length text.now }
        requires room { self.old.column + length text.now ≤ self.old.width }
        requires narrow { IsNarrowText text.now }
        ensures value { self.new ≡ text_put text.now attrs self.old }
        ensures page { IsPage self.old }
    {
        self.page_rows
            .put_narrow_text(self.pos.row, self.pos.col, text, attrs);
        self.pos.col += text.len() as u16;
    }

    /// Prints `text` in a single edit of the cursor's row. The text must consist of wide characters
    /// and must fit on that row, so no row scrolls off the page.
    ///
    /// The result is the same as that of calling [`Grid::print_columns`] for each
    /// character.
    #[tactic(auto, using(crate::proofs::Texts::wide_text_printed))]
    #[inline]
    pub fn print_wide_text(&mut self, text: &[char], attrs: Attrs)
        requires nonempty { 0 < length text.now }
        requires room { self.old.column + 2 * length text.now ≤ self.old.width }
        requires wide { IsWideText text.now }
        ensures { self.new ≡ printed_text text.now attrs self.old }
    {
        self.put_wide_text(text, attrs);
    }

    /// Puts the characters of `text` at the cursor as wide glyphs, and moves the
    /// cursor past them.
    #[inline]
    fn put_wide_text(&mut self, text: &[char], attrs: Attrs)
        requires nonempty { 0 < length text.now }
        requires room { self.old.column + 2 * length text.now ≤ self.old.width }
        requires wide { IsWideText text.now }
        ensures value { self.new ≡ wide_text_put text.now attrs self.old }
        ensures page { IsPage self.old }
    {
        self.page_rows
            .put_wide_text(self.pos.row, self.pos.col, text, attrs);
        self.pos.col += 2 * text.len() as u16;
    }
}
