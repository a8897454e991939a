//! Erasing: cells become blanks with given attributes.

ghost use Rattle.std.specs.Prelude.{◌≡◌};
ghost use Rattle.vt_grid.specs.Erasing.{erased_above, erased_below, erased_chars, erased_page};
ghost use Rattle.vt_grid.specs.Erasing.{erased_rest, erased_row, erased_start};

use super::Grid;
use vt_cells::Attrs;

impl Grid {
    /// Erases `count` columns starting at the cursor, stopping at the end of the row (ECH). Erases
    /// nothing if a wrap is pending.
    #[tactic(auto, using(crate::proofs::Pages::erasing), unfolding(crate::specs::Erasing::erased_chars))]
    pub fn erase_cells(&mut self, count: u16, attrs: Attrs)
        ensures { self.new ≡ erased_chars count attrs self.old }
    {
        let end = self.pos.col.saturating_add(count).min(self.size.cols);
        if self.pos.col < end {
            self.page_rows.erase(self.pos.row, self.pos.col, end, attrs);
        }
    }

    /// Erases from the cursor to the end of the row (EL 0). Erases nothing if a wrap is pending.
    #[tactic(auto, using(crate::proofs::Pages::erasing), unfolding(crate::specs::Erasing::erased_rest))]
    pub fn erase_row_forward(&mut self, attrs: Attrs)
        ensures { self.new ≡ erased_rest attrs self.old }
    {
        if self.pos.col < self.size.cols {
            self.page_rows
                .erase(self.pos.row, self.pos.col, self.size.cols, attrs);
        }
    }

    /// Erases from the start of the row through the cursor, or the whole row if a wrap is pending
    /// (EL 1).
    #[tactic(auto, using(crate::proofs::Pages::cursor_cells), unfolding(crate::specs::Erasing::erased_start))]
    pub fn erase_row_backward(&mut self, attrs: Attrs)
        ensures { self.new ≡ erased_start attrs self.old }
    {
        let end = self.pos.col.saturating_add(1).min(self.size.cols);
        self.page_rows.erase(self.pos.row, 0, end, attrs);
    }

    /// Erases the cursor's row (EL 2).
    #[tactic(auto, using(crate::proofs::Pages::cursor_columns))]
    pub fn erase_row(&mut self, attrs: Attrs)
        ensures { self.new ≡ erased_row attrs self.old }
    {
        self.page_rows.clear_row(usize::from(self.pos.row), attrs);
    }

    /// Erases from the cursor to the end of the page (ED 0). If a wrap is pending, the cursor's row
    /// is unchanged.
    #[tactic(auto, using(crate::proofs::Pages::page_erased_below), unfolding(crate::specs::Erasing::erased_below))]
    pub fn erase_all_forward(&mut self, attrs: Attrs)
        ensures { self.new ≡ erased_below attrs self.old }
    {
        self.erase_row_forward(attrs);
        self.page_rows.clear_below(self.pos.row, attrs);
    }

    /// Erases from the start of the page through the cursor, or through the end of the cursor's row
    /// if a wrap is pending (ED 1).
    #[tactic(auto, using(crate::proofs::Shifting::page_erased_above), unfolding(crate::specs::Erasing::erased_above))]
    pub fn erase_all_backward(&mut self, attrs: Attrs)
        ensures { self.new ≡ erased_above attrs self.old }
    {
        self.erase_row_backward(attrs);
        self.page_rows.clear_above(self.pos.row, attrs);
    }

    /// Erases the whole page (ED 2).
    pub fn erase_all(&mut self, attrs: Attrs)
        ensures { self.new ≡ erased_page attrs self.old }
    {
        self.page_rows.clear_all(attrs);
    }
}
