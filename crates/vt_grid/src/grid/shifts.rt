//! Insertion and deletion of rows and columns, and scrolling down.

ghost use Rattle.std.specs.Prelude.{◌≡◌};
ghost use Rattle.vt_grid.specs.Shifts.{chars_deleted, chars_inserted, lines_deleted};
ghost use Rattle.vt_grid.specs.Shifts.{lines_inserted, reverse_index, scrolled_down};

use super::Grid;

impl Grid {
    /// Moves the cursor up by one row; the column is unchanged (RI).
    ///
    /// At the top of the scroll region or in the first row of the page, the region scrolls down by
    /// one row instead.
    #[tactic(auto, using(crate::proofs::Shifting::moving_down), unfolding(crate::specs::Shifts::reverse_index))]
    pub fn reverse_index(&mut self)
        ensures { self.new ≡ reverse_index self.old }
    {
        if self.pos.row == self.scroll_top || self.pos.row == 0 {
            self.page_rows
                .scroll_down(self.scroll_top, self.scroll_bottom, 1);
        } else {
            self.pos.row -= 1;
        }
    }

    /// Scrolls the scroll region down by `count` rows (SD). Blank rows enter at the top, and rows
    /// that move past the bottom are lost.
    ///
    /// The wrapped flag of the region's bottom row is cleared.
    #[tactic(auto, using(crate::proofs::Printing::region_order))]
    pub fn scroll_down(&mut self, count: u16)
        ensures { self.new ≡ scrolled_down count self.old }
    {
        self.page_rows
            .scroll_down(self.scroll_top, self.scroll_bottom, count);
    }

    /// Inserts `count` blank rows at the cursor's row (IL). Rows that move past the bottom of the
    /// scroll region are lost. Does nothing if the cursor is outside the region.
    ///
    /// The wrapped flag of the region's bottom row is cleared.
    #[tactic(auto, using(crate::proofs::Shifting::moving_down), unfolding(crate::specs::Shifts::lines_inserted))]
    pub fn insert_lines(&mut self, count: u16)
        ensures { self.new ≡ lines_inserted count self.old }
    {
        if self.in_scroll_region() {
            self.page_rows
                .scroll_down(self.pos.row, self.scroll_bottom, count);
        }
    }

    /// Deletes `count` rows starting at the cursor's row (DL). Blank rows enter at the bottom of
    /// the scroll region. Does nothing if the cursor is outside the region.
    #[tactic(auto, using(crate::proofs::Shifting::page_lines_deleted), unfolding(crate::specs::Shifts::lines_deleted))]
    pub fn delete_lines(&mut self, count: u16)
        ensures { self.new ≡ lines_deleted count self.old }
    {
        if self.in_scroll_region() {
            self.page_rows
                .scroll_up(self.pos.row, self.scroll_bottom, count);
        }
    }

    /// Inserts `count` default blanks at the cursor (ICH). If the cursor is on the continuation
    /// cell of a wide glyph, the blanks are inserted after that glyph. Cells that move past the
    /// last column are lost.
    ///
    /// The wrapped flag of the row is cleared.
    #[tactic(auto, using(crate::proofs::Pages::cursor_paired, crate::proofs::Pages::cursor_columns))]
    pub fn insert_cells(&mut self, count: u16)
        ensures { self.new ≡ chars_inserted count self.old }
    {
        self.page_rows.insert(self.pos.row, self.pos.col, count);
    }

    /// Deletes `count` columns starting at the cursor (DCH). Default blanks enter at the end of the
    /// row.
    ///
    /// The wrapped flag of the row is cleared.
    #[tactic(auto, using(crate::proofs::Pages::cursor_paired, crate::proofs::Pages::cursor_columns))]
    pub fn delete_cells(&mut self, count: u16)
        ensures { self.new ≡ chars_deleted count self.old }
    {
        self.page_rows.delete(self.pos.row, self.pos.col, count);
    }
}
