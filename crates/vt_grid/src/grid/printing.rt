//! Printing: glyphs, combining characters, and glyphs whose width changes with U+FE0F.

ghost use Rattle.std.specs.Prelude.{◌≡◌, ◌≢◌, ◌+◌, ◌-◌, ◌&&◌, ◌==◌, ◌<◌, ◌≤◌, [], Some};
ghost use Rattle.std.specs.Prelude.{encode_utf8, false, if◌then◌else◌, length, nat_lt, not, slice_set, true};
ghost use Rattle.vt_cells.specs.Cell.{IsCell, attrs_of, glyph, is_right_half, is_wide, cell_with_mark, text_of};
ghost use Rattle.vt_cells.specs.Glyph.{IsGlyphText, columns_of, is_selector, is_wide_text};
ghost use Rattle.vt_rows.specs.Cells.{at, widened_at};
ghost use Rattle.vt_grid.specs.Internals.{IsSelected, mark_out, room_out, wide_out, wide_printed};
ghost use Rattle.vt_grid.specs.Outgoing.{printed_out};
ghost use Rattle.vt_grid.specs.Page.{IsPage, cursor_row, with_row};
ghost use Rattle.vt_grid.specs.Printing.{carries, glyph_put, lifted_page, made_narrow, mark_column, mark_printed};
ghost use Rattle.vt_grid.specs.Printing.{mark_put, page_after_print, room_made, takes_mark, width_followed, with_cursor_cells};
ghost use Rattle.vt_grid.specs.Sending.{LetsRowsGo};

use super::Grid;
use crate::scrollback::Scrollback;
use vt_cells::{Attrs, Cell, Error, MARK_LIMIT, cell};
use vt_rows::Leaving;

impl Grid {
    /// Prints a character at the cursor (VT510 manual, DECAWM set). `width` is the width of the
    /// character in columns, or `None` for a control character.
    ///
    /// A character of one or two columns becomes a glyph. If it does not fit on the cursor's row,
    /// the cursor wraps first; if it does not fit on the page, nothing is printed. A combining
    /// character is added to the glyph before the cursor. U+FE0F may change the width of that
    /// glyph. A control character prints nothing.
    ///
    /// A wrap at the bottom of the scroll region scrolls the region up, as [`Grid::scroll_up`]
    /// does.
    ///
    /// # Errors
    ///
    /// Returns [`Error::OutOfMemory`] if memory for scrollback cannot be allocated. On error,
    /// nothing is changed and no row is reported.
    #[tactic(auto, using(crate::proofs::Printing::printed_cases, crate::proofs::Printing::out_cases))]
    #[inline(always)]
    pub fn print_columns<L: Leaving>(
        &mut self,
        c: char,
        width: Option<u8>,
        attrs: Attrs,
        above: &mut Scrollback,
        leaving: &mut L,
    ) -> Result<(), Error>
        requires reported { c ≢ 0xFFFD }
        requires columns { width ≡ columns_of c }
        ensures { LetsRowsGo L.leaves (length self.old.rows) self.old.width (printed_out c attrs self.old)
            self.old above.old leaving.old (page_after_print c attrs self.old) self.new above.new leaving.new result }
    {
        let Some(width) = width else {
            return Ok(());
        };
        if width == 1 {
            self.print_narrow(c, attrs, above, leaving)
        } else if width == 2 {
            self.print_wide(c, attrs, above, leaving)
        } else {
            self.print_mark(c, attrs, above, leaving)
        }
    }

    /// Returns the number of columns from the cursor to the end of its row, that is, how many
    /// columns of text fit before the cursor wraps.
    #[inline]
    pub fn room(&self) -> u16
        ensures { result ≡ self.now.width - self.now.column }
    {
        self.size.cols - self.pos.col
    }

    /// Prints a character that takes one column, as [`Grid::print_columns`] does.
    ///
    /// # Errors
    ///
    /// Returns [`Error::OutOfMemory`] if memory for scrollback cannot be allocated. On error,
    /// nothing is changed and no row is reported.
    #[tactic(auto, using(crate::proofs::Printing::has_room_made, crate::proofs::Printing::width_room_made))]
    #[inline(always)]
    fn print_narrow<L: Leaving>(
        &mut self,
        c: char,
        attrs: Attrs,
        above: &mut Scrollback,
        leaving: &mut L,
    ) -> Result<(), Error>
        requires reported { c ≢ 0xFFFD }
        requires columns { columns_of c ≡ Some 1 }
        ensures { LetsRowsGo L.leaves (length self.old.rows) self.old.width (room_out 1 self.old)
            self.old above.old leaving.old (glyph_put (encode_utf8 c) false attrs (room_made 1 self.old))
            self.new above.new leaving.new result }
    {
        self.make_room(1, above, leaving)?;
        self.put_narrow(c, attrs);
        Ok(())
    }

    /// Wraps to the next row if fewer than `columns` columns are left on the cursor's row, unless
    /// the cursor is in column 0.
    ///
    /// # Errors
    ///
    /// Returns [`Error::OutOfMemory`] if memory for scrollback cannot be allocated. On error,
    /// nothing is changed and no row is reported.
    #[tactic(auto, unfolding(crate::specs::Printing::room_made))]
    #[inline(always)]
    fn make_room<L: Leaving>(
        &mut self,
        columns: u16,
        above: &mut Scrollback,
        leaving: &mut L,
    ) -> Result<(), Error>
        ensures room { LetsRowsGo L.leaves (length self.old.rows) self.old.width (room_out columns self.old)
            self.old above.old leaving.old (room_made columns self.old) self.new above.new leaving.new result }
        ensures nonempty { 0 < self.old.width }
    {
        if self.pos.col > self.size.cols.saturating_sub(columns) {
            self.wrap(above, leaving)?;
            return Ok(());
        }
        Ok(())
    }

    /// Prints a combining character by adding it to the glyph before the cursor. Does nothing in
    /// column 0.
    ///
    /// # Errors
    ///
    /// Returns [`Error::OutOfMemory`] if memory for scrollback cannot be allocated. On error,
    /// nothing is changed and no row is reported.
    #[inline(never)]
    fn print_mark<L: Leaving>(
        &mut self,
        mark: char,
        attrs: Attrs,
        above: &mut Scrollback,
        leaving: &mut L,
    ) -> Result<(), Error>
        requires { columns_of mark ≡ Some 0 }
        ensures { LetsRowsGo L.leaves (length self.old.rows) self.old.width
            (if self.old.column == 0 then [] else mark_out mark attrs self.old) self.old above.old leaving.old
            (if self.old.column == 0 then self.old else mark_printed mark attrs self.old)
            self.new above.new leaving.new result }
    {
        if self.pos.col == 0 {
            return Ok(());
        }
        if self.carries(mark) {
            return self.carry(mark, attrs, above, leaving);
        }
        self.mark_cell(mark, attrs);
        Ok(())
    }

    /// Returns whether `mark` is U+FE0F and would make the narrow glyph in the last column wide
    /// while a wrap is pending, so that the glyph must move to the next row. Returns `false` on a
    /// page of one column.
    #[tactic(auto, unfolding(crate::specs::Printing::carries))]
    fn carries(&self, mark: char) -> bool
        requires mark { columns_of mark ≡ Some 0 }
        requires after_first { 0 < self.now.column }
        ensures { result ≡ carries mark self.now }
    {
        mark == '\u{FE0F}'
            && self.pos.col == self.size.cols
            && self.size.cols > 1
            && self.grows_wide(mark)
    }

    /// Returns whether the glyph before the cursor is narrow, has room for the combining character
    /// `mark`, and takes more than one column once `mark` is added.
    fn grows_wide(&self, mark: char) -> bool
        requires mark { columns_of mark ≡ Some 0 }
        requires after_first { 0 < self.now.column }
        ensures { result
            ≡ ((takes_mark (at (cursor_row self.now).cells (mark_column self.now))
            && not (is_wide (at (cursor_row self.now).cells (mark_column self.now))))
            && is_wide_text (text_of (cell_with_mark mark (at (cursor_row self.now).cells (mark_column self.now))))) }
    {
        let col = self.mark_col();
        self.takes_mark(col) && !self.is_wide(col) && self.is_wide_with(col, mark)
    }

    /// Returns whether the cell at column `col` of the cursor's row takes more than one column once
    /// the combining character `mark` is added.
    fn is_wide_with(&self, col: u16, mark: char) -> bool
        requires mark { columns_of mark ≡ Some 0 }
        requires inside { col < length (cursor_row self.now).cells }
        requires shown { is_right_half (at (cursor_row self.now).cells col) ≡ false }
        ensures { result ≡ is_wide_text (text_of (cell_with_mark mark (at (cursor_row self.now).cells col))) }
    {
        let mut cell = *self.page_rows.cell(self.pos.row, col);
        cell::append(&mut cell, mark);
        cell::is_wide_text(&cell)
    }

    /// Adds a combining character to the glyph before the cursor, or does nothing if that glyph has
    /// no room for it. If the character is U+FE0F, also sets the glyph's width to that of its new
    /// text.
    #[tactic(auto, unfolding(crate::specs::Printing::mark_printed))]
    fn mark_cell(&mut self, mark: char, attrs: Attrs)
        requires mark { columns_of mark ≡ Some 0 }
        requires after_first { 0 < self.old.column }
        requires stays { carries mark self.old ≡ false }
        ensures { self.new ≡ mark_printed mark attrs self.old }
    {
        let col = self.mark_col();
        if self.takes_mark(col) {
            self.put_mark(col, mark);
            if mark == '\u{FE0F}' {
                self.follow_width(col, attrs);
            }
        }
    }

    /// Returns the column of the glyph before the cursor. For a wide glyph, returns the first of
    /// its two columns.
    fn mark_col(&self) -> u16
        requires { 0 < self.now.column }
        ensures value { result ≡ mark_column self.now }
        ensures page { IsPage self.now }
    {
        let before = self.pos.col - 1;
        if self
            .page_rows
            .cell(self.pos.row, before)
            .is_wide_continuation()
        {
            before - 1
        } else {
            before
        }
    }

    /// Returns whether the cell at column `col` of the cursor's row has room for a combining
    /// character.
    fn takes_mark(&self, col: u16) -> bool
        requires { col < length (cursor_row self.now).cells }
        ensures { result ≡ takes_mark (at (cursor_row self.now).cells col) }
    {
        self.page_rows.cell(self.pos.row, col).contents().len() < usize::from(MARK_LIMIT)
    }

    /// Adds a combining character to the cell at column `col` of the cursor's row.
    fn put_mark(&mut self, col: u16, mark: char)
        requires mark { columns_of mark ≡ Some 0 }
        requires inside { col < length (cursor_row self.old).cells }
        requires shown { is_right_half (at (cursor_row self.old).cells col) ≡ false }
        ensures { self.new ≡ mark_put col mark self.old }
    {
        self.page_rows.append(self.pos.row, col, mark);
    }

    /// Returns whether the text of the glyph at column `col` of the cursor's row takes more than
    /// one column, and the page has more than one column.
    fn wants_wide(&self, col: u16) -> bool
        requires { col < length (cursor_row self.now).cells }
        ensures { result ≡ (is_wide_text (text_of (at (cursor_row self.now).cells col)) && nat_lt 1 self.now.width) }
    {
        cell::is_wide_text(self.page_rows.cell(self.pos.row, col)) && self.size.cols > 1
    }

    /// Returns whether the cell at column `col` of the cursor's row is a wide glyph.
    fn is_wide(&self, col: u16) -> bool
        requires { col < length (cursor_row self.now).cells }
        ensures { result ≡ is_wide (at (cursor_row self.now).cells col) }
    {
        self.page_rows.cell(self.pos.row, col).is_wide()
    }

    /// Makes the glyph at column `col` of the cursor's row as wide as its text. On a page of one
    /// column, the glyph stays narrow.
    #[tactic(auto, unfolding(crate::specs::Printing::width_followed, crate::specs::Printing::made_wide))]
    fn follow_width(&mut self, col: u16, attrs: Attrs)
        requires selected { IsSelected self.old col }
        requires room { is_wide (at (cursor_row self.old).cells col) ≡ false →
            (is_wide_text (text_of (at (cursor_row self.old).cells col)) && nat_lt 1 self.old.width) ≡ true →
            self.old.column < self.old.width }
        ensures { self.new ≡ width_followed col attrs self.old }
    {
        let wide = self.wants_wide(col);
        if self.is_wide(col) {
            if !wide {
                self.make_narrow(col, attrs);
            }
        } else if wide {
            self.widen(col, attrs);
        }
    }

    /// Moves the glyph in the last column to the start of the next row, where it becomes a wide
    /// glyph with the combining character `mark` (U+FE0F) added. A wrap must be pending.
    ///
    /// The glyph is removed before the wrap: on a page of one row, the row scrolls off during the
    /// wrap and must not contain the glyph. If the wrap fails, the glyph is put back.
    ///
    /// # Errors
    ///
    /// Returns [`Error::OutOfMemory`] if memory for scrollback cannot be allocated. On error,
    /// nothing is changed and no row is reported.
    fn carry<L: Leaving>(
        &mut self,
        mark: char,
        attrs: Attrs,
        above: &mut Scrollback,
        leaving: &mut L,
    ) -> Result<(), Error>
        requires mark { columns_of mark ≡ Some 0 }
        requires carried { carries mark self.old ≡ true }
        ensures { LetsRowsGo L.leaves (length self.old.rows) self.old.width (mark_out mark attrs self.old)
            self.old above.old leaving.old (mark_printed mark attrs self.old) self.new above.new leaving.new result }
    {
        let col = self.mark_col();
        let is_wrapped = self.row_wrapped(self.pos.row);
        let cell = self.lift(col, attrs);
        if let Err(error) = self.wrap(above, leaving) {
            self.put_back(col, cell, is_wrapped);
            return Err(error);
        }
        self.put_wide_cell(widened(cell, mark, attrs));
        Ok(())
    }

    /// Removes the cell at column `col` of the cursor's row and returns it, leaving a blank with
    /// attributes `attrs`.
    fn lift(&mut self, col: u16, attrs: Attrs) -> Cell
        requires { col < length (cursor_row self.old).cells }
        ensures lifted { result ≡ at (cursor_row self.old).cells col }
        ensures value { self.new ≡ lifted_page col attrs self.old }
    {
        self.page_rows.lift(self.pos.row, col, attrs)
    }

    /// Puts a removed cell back at column `col` of the cursor's row, and sets the row's wrapped
    /// flag to `is_wrapped`.
    #[tactic(auto, using(crate::proofs::Carries::sized_with_row))]
    fn put_back(&mut self, col: u16, cell: Cell, is_wrapped: bool)
        requires inside { col < length (cursor_row self.old).cells }
        requires page { IsPage (with_row self.old.row
            (record { cells = slice_set (cursor_row self.old).cells col cell; wrapped = is_wrapped }) self.old) }
        ensures { self.new
            ≡ with_row self.old.row
            (record { cells = slice_set (cursor_row self.old).cells col cell; wrapped = is_wrapped }) self.old }
    {
        self.page_rows.put_back(self.pos.row, col, cell, is_wrapped);
    }

    /// Puts the wide glyph `cell` at the cursor, and moves the cursor past it.
    fn put_wide_cell(&mut self, cell: Cell)
        requires wide { is_wide cell ≡ true }
        requires sound { IsGlyphText (text_of cell) true }
        requires room { self.old.column + 2 ≤ self.old.width }
        ensures { self.new ≡ glyph_put (text_of cell) true (attrs_of cell) self.old }
    {
        self.page_rows
            .put_wide_cell(self.pos.row, self.pos.col, cell);
        self.pos.col += 2;
    }

    /// Makes the glyph at column `col` of the cursor's row narrow. The cursor does not move.
    fn make_narrow(&mut self, col: u16, attrs: Attrs)
        requires { IsSelected self.old col }
        ensures { self.new ≡ made_narrow col attrs self.old }
    {
        self.page_rows.narrow(self.pos.row, col, attrs);
    }

    /// Makes the glyph at column `col` wide and moves the cursor right by one column. The glyph
    /// must be directly before the cursor.
    fn widen(&mut self, col: u16, attrs: Attrs)
        requires selected { IsSelected self.old col }
        requires before { col + 1 ≡ self.old.column }
        requires room { self.old.column < self.old.width }
        ensures { self.new
            ≡ record (with_cursor_cells (widened_at col attrs (cursor_row self.old).cells) self.old)
            { column = self.old.column + 1 } }
    {
        self.page_rows.widen(self.pos.row, col, attrs);
        self.pos.col += 1;
    }

    /// Puts `c` at the cursor as a narrow glyph, and moves the cursor past it.
    #[inline(always)]
    fn put_narrow(&mut self, c: char, attrs: Attrs)
        requires reported { c ≢ 0xFFFD }
        requires columns { columns_of c ≡ Some 1 }
        requires room { self.old.column < self.old.width }
        ensures { self.new ≡ glyph_put (encode_utf8 c) false attrs self.old }
    {
        self.page_rows
            .put_narrow(self.pos.row, self.pos.col, c, attrs);
        self.pos.col += 1;
    }

    /// Prints a character that takes two columns, as [`Grid::print_columns`] does. Prints nothing
    /// on a page of one column.
    ///
    /// # Errors
    ///
    /// Returns [`Error::OutOfMemory`] if memory for scrollback cannot be allocated. On error,
    /// nothing is changed and no row is reported.
    #[inline(always)]
    fn print_wide<L: Leaving>(
        &mut self,
        c: char,
        attrs: Attrs,
        above: &mut Scrollback,
        leaving: &mut L,
    ) -> Result<(), Error>
        requires reported { c ≢ 0xFFFD }
        requires columns { columns_of c ≡ Some 2 }
        ensures { LetsRowsGo L.leaves (length self.old.rows) self.old.width (wide_out self.old)
            self.old above.old leaving.old (wide_printed c attrs self.old) self.new above.new leaving.new result }
    {
        if self.size.cols == 1 {
            return Ok(());
        }
        self.make_room(2, above, leaving)?;
        self.put_wide(c, attrs);
        Ok(())
    }

    /// Puts `c` at the cursor as a wide glyph, and moves the cursor past it.
    #[inline(always)]
    fn put_wide(&mut self, c: char, attrs: Attrs)
        requires reported { c ≢ 0xFFFD }
        requires columns { columns_of c ≡ Some 2 }
        requires room { self.old.column + 2 ≤ self.old.width }
        ensures { self.new ≡ glyph_put (encode_utf8 c) true attrs self.old }
    {
        self.page_rows
            .put_wide(self.pos.row, self.pos.col, c, attrs);
        self.pos.col += 2;
    }
}

/// Returns the glyph `cell` with the combining character `mark` added, as a wide glyph with
/// attributes `attrs`.
#[tactic(auto, using(crate::proofs::Printing::selected_cell, crate::proofs::Printing::lifted_cell))]
fn widened(mut cell: Cell, mark: char, attrs: Attrs) -> Cell
    requires mark { columns_of mark ≡ Some 0 }
    requires selector { is_selector mark ≡ true }
    requires sound { IsCell cell }
    requires room { takes_mark cell ≡ true }
    requires shown { is_right_half cell ≡ false }
    ensures { result ≡ glyph (text_of (cell_with_mark mark cell)) true attrs }
{
    cell::append(&mut cell, mark);
    cell::set_attrs(&mut cell, attrs);
    cell::set_wide(&mut cell, true);
    cell
}
