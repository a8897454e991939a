//! Changes to a page that do not scroll rows off the top.

ghost use Rattle.std.specs.Prelude.{◌≡◌};
ghost use Rattle.vt_grid.specs.PageStep.{page_after};

use crate::grid::Grid;
use crate::grid::moves::CursorMove;
use vt_cells::Attrs;

/// A change to a page that does not scroll rows off the top. Rows and columns are counted from 0.
#[derive(Clone, Copy, PartialEq, Eq, Debug)]
pub enum PageStep {
    /// Moves the cursor.
    Move(CursorMove),

    /// Moves the cursor up by one row, keeping its column (RI). If the cursor is in the top row of
    /// the scroll region or of the page, the region scrolls down instead.
    ReverseIndex,

    /// Sets the scroll region and moves the cursor to the first column of the region's first row
    /// (DECSTBM). If the region would have fewer than two rows, the whole page becomes the region.
    SetRegion {
        /// The first row of the region, counted from 0.
        top: u16,

        /// The last row of the region, counted from 0 and clamped to the last row of the page.
        bottom: u16,
    },

    /// Turns origin mode on (`true`) or off (`false`) and moves the cursor home (DECOM): to the
    /// first column of the scroll region's first row if origin mode is now on, otherwise to the top
    /// left corner of the page.
    UseOrigin(bool),

    /// Erases from the cursor to the end of the page (ED 0). If a wrap is pending, the cursor's row
    /// is unchanged.
    EraseBelow,

    /// Erases from the beginning of the page through the cursor (ED 1). If a wrap is pending,
    /// erases through the end of the cursor's row.
    EraseAbove,

    /// Erases the whole page (ED 2).
    ErasePage,

    /// Erases from the cursor to the end of its row (EL 0). If a wrap is pending, nothing is
    /// erased.
    EraseRest,

    /// Erases from the beginning of the cursor's row through the cursor (EL 1). If a wrap is
    /// pending, erases the whole row.
    EraseStart,

    /// Erases the cursor's row (EL 2).
    EraseRow,

    /// Erases this many columns, starting at the cursor and stopping at the end of the row (ECH).
    /// If a wrap is pending, nothing is erased.
    EraseChars(u16),

    /// Inserts this many default blanks at the cursor (ICH). Cells that move past the last column
    /// are lost.
    InsertChars(u16),

    /// Deletes this many columns of the cursor's row, starting at the cursor, and fills the end of
    /// the row with default blanks (DCH).
    DeleteChars(u16),

    /// Inserts this many default blank rows at the cursor's row (IL). Rows pushed past the bottom
    /// of the scroll region are lost. If the cursor is outside the region, nothing happens.
    InsertLines(u16),

    /// Deletes this many rows, starting at the cursor's row, and fills the bottom of the scroll
    /// region with default blank rows (DL). If the cursor is outside the region, nothing happens.
    DeleteLines(u16),

    /// Scrolls the scroll region down by this many rows and fills its top with default blank rows
    /// (SD).
    ScrollDown(u16),
}

impl Grid {
    /// Applies a step to the page. Erased cells become blanks with the attributes `attrs`.
    #[inline(always)]
    pub fn apply(&mut self, step: PageStep, attrs: Attrs)
        ensures { self.new ≡ page_after attrs step self.old }
    {
        match step {
            PageStep::Move(cursor_move) => self.move_cursor(cursor_move),
            PageStep::ReverseIndex => self.reverse_index(),
            PageStep::SetRegion { top, bottom } => self.set_scroll_region(top, bottom),
            PageStep::UseOrigin(on) => self.set_origin_mode(on),
            PageStep::EraseBelow => self.erase_all_forward(attrs),
            PageStep::EraseAbove => self.erase_all_backward(attrs),
            PageStep::ErasePage => self.erase_all(attrs),
            PageStep::EraseRest => self.erase_row_forward(attrs),
            PageStep::EraseStart => self.erase_row_backward(attrs),
            PageStep::EraseRow => self.erase_row(attrs),
            PageStep::EraseChars(count) => self.erase_cells(count, attrs),
            PageStep::InsertChars(count) => self.insert_cells(count),
            PageStep::DeleteChars(count) => self.delete_cells(count),
            PageStep::InsertLines(count) => self.insert_lines(count),
            PageStep::DeleteLines(count) => self.delete_lines(count),
            PageStep::ScrollDown(count) => self.scroll_down(count),
        }
    }
}
