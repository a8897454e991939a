//! Cursor movement, the scroll region, origin mode and the saved cursor.

ghost use Rattle.std.specs.Prelude.{◌≡◌, ◌+◌, ◌<◌, ◌⊎◌, length};
ghost use Rattle.vt_grid.specs.Moves.{cursor_restored, cursor_saved, lower_edge, moved, origin_set};
ghost use Rattle.vt_grid.specs.Moves.{position_after, target_row, upper_edge};
ghost use Rattle.vt_grid.specs.Regions.{in_region, region_set};

use super::Grid;
use vt_cells::Pos;

/// A movement of the cursor. Rows and columns are counted from 0.
#[derive(Clone, Copy, PartialEq, Eq, Debug)]
pub enum CursorMove {
    /// Moves the cursor to the first column (CR).
    Return,

    /// Moves the cursor up by this many rows, keeping the column (CUU). The cursor stops at the top
    /// of the scroll region if it starts inside the region, and at the first row otherwise.
    Up(u16),

    /// Moves the cursor down by this many rows, keeping the column (CUD). The cursor stops at the
    /// bottom of the scroll region if it starts inside the region, and at the last row otherwise.
    Down(u16),

    /// Moves the cursor right by this many columns, stopping at the last column (CUF). If a wrap is
    /// pending, the cursor moves to the last column.
    Right(u16),

    /// Moves the cursor left by this many columns, stopping at the first column (BS, CUB). If a
    /// wrap is pending, the cursor counts as being one column past the last column, so a move by
    /// one column ends at the last column.
    Left(u16),

    /// Moves the cursor to the first column, and down by this many rows as [`CursorMove::Down`]
    /// does (CNL).
    NextLine(u16),

    /// Moves the cursor to the first column, and up by this many rows as [`CursorMove::Up`] does
    /// (CPL).
    PreviousLine(u16),

    /// Moves the cursor to the next column that is a multiple of 8, or to the last column if there
    /// is no such column (HT).
    Tab,

    /// Moves the cursor to a row and a column, clamped to the last row and the last column (CUP,
    /// HVP). In origin mode, the row is relative to the top of the scroll region and clamped to the
    /// region.
    To {
        /// The row to move to, counted from 0.
        row: u16,

        /// The column to move to, counted from 0.
        col: u16,
    },

    /// Moves the cursor to a column, clamped to the last column (CHA, HPA).
    ToColumn(u16),

    /// Moves the cursor to a row, clamped to the last row (VPA).
    ToRow(u16),
}

impl Grid {
    /// Moves the cursor as `cursor_move` specifies; see the variants of [`CursorMove`].
    #[tactic(auto, using(crate::proofs::Pages::page_moved))]
    #[inline(always)]
    pub fn move_cursor(&mut self, cursor_move: CursorMove)
        ensures { self.new ≡ moved cursor_move self.old }
    {
        let (row, col) = self.position_after(cursor_move);
        self.pos = Pos { row, col };
    }

    /// Returns the row and column to which a movement takes the cursor.
    #[inline(always)]
    fn position_after(&self, cursor_move: CursorMove) -> (u16, u16)
        ensures { result ≡ position_after cursor_move self.now }
    {
        let Pos { row, col } = self.pos;
        let last_col = self.size.cols - 1;
        match cursor_move {
            CursorMove::Return => (row, 0),
            CursorMove::Up(count) => (row.saturating_sub(count).max(self.upper_edge()), col),
            CursorMove::Down(count) => (row.saturating_add(count).min(self.lower_edge()), col),
            CursorMove::Right(count) => (row, col.saturating_add(count).min(last_col)),
            CursorMove::Left(count) => (row, col.saturating_sub(count)),
            CursorMove::NextLine(count) => (row.saturating_add(count).min(self.lower_edge()), 0),
            CursorMove::PreviousLine(count) => (
                row.saturating_sub(count).max(self.upper_edge()),
                0,
            ),
            CursorMove::Tab => (row, col.saturating_add(8 - col % 8).min(last_col)),
            CursorMove::To { row, col } => (self.target_row(row), col.min(last_col)),
            CursorMove::ToColumn(col) => (row, col.min(last_col)),
            CursorMove::ToRow(row) => (row.min(self.size.rows - 1), col),
        }
    }

    /// Sets the scroll region to rows `top..=bottom`, counted from 0, and moves the cursor to the
    /// first column of the region's first row (DECSTBM).
    ///
    /// `bottom` is clamped to the last row. If the region would have fewer than two rows, the whole
    /// page becomes the region.
    #[tactic(auto, unfolding(crate::specs::Regions::region_set))]
    pub fn set_scroll_region(&mut self, top: u16, bottom: u16)
        ensures { self.new ≡ region_set top bottom self.old }
    {
        let last = self.size.rows - 1;
        let bottom = bottom.min(last);
        if top < bottom {
            self.enter_region(top, bottom);
        } else {
            self.enter_region(0, last);
        }
    }

    /// Turns origin mode on or off, and moves the cursor to its home position (DECOM).
    #[tactic(auto, using(crate::proofs::Pages::page_origin))]
    pub fn set_origin_mode(&mut self, on: bool)
        ensures { self.new ≡ origin_set on self.old }
    {
        self.origin_mode = on;
        self.move_cursor(CursorMove::To { row: 0, col: 0 });
    }

    /// Saves the cursor position and origin mode (DECSC).
    pub fn save_cursor(&mut self)
        ensures { self.new ≡ cursor_saved self.old }
    {
        self.saved_pos = self.pos;
        self.saved_origin_mode = self.origin_mode;
    }

    /// Restores the saved cursor position and origin mode (DECRC).
    ///
    /// Afterward a wrap may be pending, and the cursor may be outside the scroll region.
    pub fn restore_cursor(&mut self)
        ensures { self.new ≡ cursor_restored self.old }
    {
        self.pos = self.saved_pos;
        self.origin_mode = self.saved_origin_mode;
    }

    /// Sets the scroll region to rows `top..=bottom`, and moves the cursor to the first column of
    /// the region's first row.
    fn enter_region(&mut self, top: u16, bottom: u16)
        requires inside { bottom < length self.old.rows }
        requires region { (top < bottom) ⊎ ((top ≡ 0) × (bottom + 1 ≡ length self.old.rows)) }
        ensures { self.new ≡ record self.old { top = top; bottom = bottom; row = top; column = 0 } }
    {
        self.scroll_top = top;
        self.scroll_bottom = bottom;
        self.pos = Pos { row: top, col: 0 };
    }

    /// Returns whether the cursor is inside the scroll region.
    #[inline]
    pub(super) fn in_scroll_region(&self) -> bool
        ensures { result ≡ in_region self.now }
    {
        self.scroll_top <= self.pos.row && self.pos.row <= self.scroll_bottom
    }

    /// Returns the topmost row that the cursor can move up to: the top of the scroll region if the
    /// cursor is inside the region, otherwise the first row of the page.
    #[tactic(auto, unfolding(crate::specs::Moves::upper_edge))]
    #[inline]
    fn upper_edge(&self) -> u16
        ensures { result ≡ upper_edge self.now }
    {
        if self.in_scroll_region() {
            self.scroll_top
        } else {
            0
        }
    }

    /// Returns the bottommost row that the cursor can move down to: the bottom of the scroll region
    /// if the cursor is inside the region, otherwise the last row of the page.
    #[tactic(auto, unfolding(crate::specs::Moves::lower_edge))]
    #[inline]
    fn lower_edge(&self) -> u16
        ensures { result ≡ lower_edge self.now }
    {
        if self.in_scroll_region() {
            self.scroll_bottom
        } else {
            self.size.rows - 1
        }
    }

    /// Returns the row to which CUP moves the cursor, given its row parameter `row`, counted from
    /// 0. In origin mode, `row` is relative to the top of the scroll region, and the result is
    /// clamped to the region's bottom. Otherwise the result is `row`, clamped to the last row of
    /// the page.
    #[inline]
    fn target_row(&self, row: u16) -> u16
        ensures { result ≡ target_row row self.now }
    {
        if self.origin_mode {
            self.scroll_top.saturating_add(row).min(self.scroll_bottom)
        } else {
            row.min(self.size.rows - 1)
        }
    }
}
