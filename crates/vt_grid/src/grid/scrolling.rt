//! Scrolling up, line feeds and wraps. Rows that scroll off the top of the page go to scrollback.

ghost use Rattle.std.specs.Prelude.{◌≡◌, ◌+◌, ◌-◌, ◌&&◌, ◌==◌, ◌<◌, ◌≤◌, IfSome, None};
ghost use Rattle.std.specs.Prelude.{Some, if◌then◌else◌, length, nat_lt, not};
ghost use Rattle.vt_rows.specs.Cells.{ends_blank};
ghost use Rattle.vt_grid.specs.Moves.{line_feed};
ghost use Rattle.vt_grid.specs.Outgoing.{fed_out, scrolled_out};
ghost use Rattle.vt_grid.specs.Page.{IsPage, cursor_row, scrolled_up};
ghost use Rattle.vt_grid.specs.Printing.{flagged_left, goes_down, wrapped_page};
ghost use Rattle.vt_grid.specs.Sending.{LetsRowsGo};

use super::Grid;
use crate::scrollback::Scrollback;
use vt_cells::Error;
use vt_rows::Leaving;

impl Grid {
    /// Scrolls the scroll region up by `count` rows, limited to its height (SU). Blank rows enter
    /// at the bottom.
    ///
    /// If the region begins at the top of the page, the rows that scroll off go to scrollback, and
    /// rows that scrollback does not keep are reported. Otherwise the rows that scroll off are
    /// lost.
    ///
    /// # Errors
    ///
    /// Returns [`Error::OutOfMemory`] if memory for scrollback cannot be allocated. On error,
    /// nothing is changed and no row is reported.
    #[tactic(auto, using(crate::proofs::Printing::region_order))]
    pub fn scroll_up<L: Leaving>(
        &mut self,
        count: u16,
        above: &mut Scrollback,
        leaving: &mut L,
    ) -> Result<(), Error>
        ensures { LetsRowsGo L.leaves (length self.old.rows) self.old.width (scrolled_out count self.old)
            self.old above.old leaving.old (scrolled_up count self.old) self.new above.new leaving.new result }
    {
        if self.scroll_top == 0 {
            self.page_rows
                .send_up(self.scroll_bottom, count, self.size, above, leaving)?;
            return Ok(());
        }
        self.page_rows
            .scroll_up(self.scroll_top, self.scroll_bottom, count);
        Ok(())
    }

    /// Moves the cursor down by one row; the column is unchanged (LF).
    ///
    /// At the bottom of the scroll region, the region scrolls up by one row instead, as
    /// [`Grid::scroll_up`] does. In the last row of the page, outside the region, nothing happens.
    ///
    /// # Errors
    ///
    /// Returns [`Error::OutOfMemory`] if memory for scrollback cannot be allocated. On error,
    /// nothing is changed and no row is reported.
    #[tactic(auto, unfolding(crate::specs::Moves::line_feed))]
    pub fn line_feed<L: Leaving>(
        &mut self,
        above: &mut Scrollback,
        leaving: &mut L,
    ) -> Result<(), Error>
        ensures { LetsRowsGo L.leaves (length self.old.rows) self.old.width (fed_out self.old)
            self.old above.old leaving.old (line_feed self.old) self.new above.new leaving.new result }
    {
        if self.pos.row == self.scroll_bottom {
            self.scroll_up(1, above, leaving)?;
            return Ok(());
        }
        self.step_down();
        Ok(())
    }

    /// Moves the cursor to the next row, if there is one.
    fn step_down(&mut self)
        ensures { self.new
            ≡ (if nat_lt (self.old.row + 1) (length self.old.rows)
            then record self.old { row = self.old.row + 1 } else self.old) }
    {
        if self.pos.row + 1 < self.size.rows {
            self.pos.row += 1;
        }
    }

    /// Moves the cursor to the first column of the next row, as a line feed and a carriage return
    /// do, and updates the wrapped flag of the row that the cursor leaves.
    ///
    /// The row is marked as wrapped (its text continues on the next row) if its last cell is not a
    /// blank and the cursor is on the row below it afterward; otherwise it is marked as not
    /// wrapped.
    ///
    /// # Errors
    ///
    /// Returns [`Error::OutOfMemory`] if memory for scrollback cannot be allocated. On error,
    /// nothing is changed and no row is reported.
    #[tactic(auto, using(crate::proofs::Printing::page_left), unfolding(crate::specs::Printing::wrapped_page))]
    #[inline(never)]
    pub(super) fn wrap<L: Leaving>(
        &mut self,
        above: &mut Scrollback,
        leaving: &mut L,
    ) -> Result<(), Error>
        ensures { LetsRowsGo L.leaves (length self.old.rows) self.old.width (fed_out self.old)
            self.old above.old leaving.old (wrapped_page self.old) self.new above.new leaving.new result }
    {
        let left = left_row(self.pos.row, self.scroll_top, self.scroll_bottom);
        let is_wrapped = self.is_wrapped();
        self.line_feed(above, leaving)?;
        self.leave(left, is_wrapped);
        Ok(())
    }

    /// Returns whether a wrap would mark the cursor's row as wrapped.
    fn is_wrapped(&self) -> bool
        ensures { result ≡ (goes_down self.now && not (ends_blank (cursor_row self.now).cells)) }
    {
        (self.pos.row == self.scroll_bottom || self.pos.row + 1 < self.size.rows)
            && !self.page_rows.ends_blank(self.pos.row)
    }

    /// Finishes a wrap from row `left`: sets the row's wrapped flag to `is_wrapped`, and moves the
    /// cursor to the first column. If that row has scrolled off, `left` is `None`, and no flag is
    /// changed.
    fn leave(&mut self, left: Option<u16>, is_wrapped: bool)
        requires page { IsPage (flagged_left left is_wrapped self.old) }
        requires inside { IfSome left (λ row. row < length self.old.rows) }
        ensures { self.new ≡ record (flagged_left left is_wrapped self.old) { column = 0 } }
    {
        self.page_rows.wrap_left(left, is_wrapped);
        self.pos.col = 0;
    }
}

/// Returns the index of row `row` after the cursor wraps from it to the next row. If `row` is the
/// bottom row of the scroll region (rows `top..=bottom`), the region scrolls, and the result is
/// `row - 1`, or `None` if the region consists of that row alone. Otherwise the result is `row`.
fn left_row(row: u16, top: u16, bottom: u16) -> Option<u16>
    requires { top ≤ bottom }
    ensures { result ≡ (if row == bottom then (if row == top then None else Some (row - 1)) else Some row) }
{
    if row != bottom {
        Some(row)
    } else if row == top {
        None
    } else {
        Some(row - 1)
    }
}
