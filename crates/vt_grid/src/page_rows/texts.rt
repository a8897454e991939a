//! Putting runs of characters into a row of a page, with a single edit of the row for each run.

ghost use Rattle.std.specs.Prelude.{◌≡◌, ◌+◌, ◌*◌, ◌<◌, ◌≤◌, length};
ghost use Rattle.vt_rows.specs.Cells.{IsPaired};
ghost use Rattle.vt_rows.specs.Texts.{IsNarrowText, IsPrintableAscii, put_text, IsWideText, put_wide_text};
ghost use Rattle.vt_grid.specs.PageRows.{page_row, with_row_cells};

use super::PageRows;
use vt_cells::Attrs;
use vt_rows::cells;

impl PageRows {
    /// Puts the bytes of `text` into consecutive columns of a row, starting at column `col`. Each
    /// byte becomes a narrow glyph (see [`cells::put_text`]).
    #[inline]
    pub fn put_text(&mut self, row: u16, col: u16, text: &[u8], attrs: Attrs)
        requires inside { row < length self.old.rows }
        requires paired { IsPaired (page_row self.old row).cells }
        requires nonempty { 0 < length text.now }
        requires columns { col + length text.now ≤ length (page_row self.old row).cells }
        requires printable { IsPrintableAscii text.now }
        ensures { self.new ≡ with_row_cells row (put_text col text.now attrs (page_row self.old row).cells) self.old }
    {
        let groups = self.groups(row);
        self.edit_row(row, |cells| {
            cells::put_text(cells, usize::from(col), text, attrs);
        });
        self.note_used(row, groups, usize::from(col) + text.len());
    }

    /// Puts the characters of `text` into consecutive columns of a row, starting at column `col`.
    /// Each character becomes a narrow glyph (see [`cells::put_narrow_text`]).
    #[inline]
    pub fn put_narrow_text(&mut self, row: u16, col: u16, text: &[char], attrs: Attrs)
        requires inside { row < length self.old.rows }
        requires paired { IsPaired (page_row self.old row).cells }
        requires nonempty { 0 < length text.now }
        requires columns { col + length text.now ≤ length (page_row self.old row).cells }
        requires narrow { IsNarrowText text.now }
        ensures { self.new ≡ with_row_cells row (put_text col text.now attrs (page_row self.old row).cells) self.old }
    {
        let groups = self.groups(row);
        self.edit_row(row, |cells| {
            cells::put_narrow_text(cells, usize::from(col), text, attrs);
        });
        self.note_used(row, groups, usize::from(col) + text.len());
    }

    /// Puts the characters of `text` into consecutive pairs of columns of a row, starting at column
    /// `col`. Each character becomes a wide glyph (see [`cells::put_wide_text`]).
    #[inline]
    pub fn put_wide_text(&mut self, row: u16, col: u16, text: &[char], attrs: Attrs)
        requires inside { row < length self.old.rows }
        requires paired { IsPaired (page_row self.old row).cells }
        requires nonempty { 0 < length text.now }
        requires columns { col + 2 * length text.now ≤ length (page_row self.old row).cells }
        requires wide { IsWideText text.now }
        ensures { self.new
            ≡ with_row_cells row (put_wide_text col text.now attrs (page_row self.old row).cells) self.old }
    {
        let groups = self.groups(row);
        self.edit_row(row, |cells| {
            cells::put_wide_text(cells, usize::from(col), text, attrs);
        });
        self.note_used(row, groups, usize::from(col) + 2 * text.len());
    }
}
