//! Resizing a page as xterm does: rows scroll off the top of a page that shrinks, and return to the
//! top of a page that grows.

ghost use Rattle.std.specs.Prelude.{◌≡◌, ◌^◌, ◌-◌, ◌<◌, ◌≤◌, IfSome, None, OnErr, OnOk, length, min, option_map};
ghost use Rattle.vt_grid.specs.Page.{blank_page};
ghost use Rattle.vt_grid.specs.PageRows.{blank_page_rows};
ghost use Rattle.vt_grid.specs.Resize.{page_resized, row_resized, scrollback_resized};
ghost use Rattle.vt_grid.specs.Sending.{AddsRows, ResizesPage};

use super::Grid;
use crate::page_rows::PageRows;
use crate::scrollback::Scrollback;
use crate::size::Size;
use vt_cells::{Error, Pos};
use vt_rows::Leaving;

impl Grid {
    /// Resizes the page to the size of `fresh`, as xterm does. `fresh` is a new page; the rows are
    /// moved into it.
    ///
    /// If the new page has fewer rows, the rows below the cursor are dropped first. If these are
    /// not enough, rows scroll off the top into scrollback, and rows that scrollback does not keep
    /// are reported.
    ///
    /// If the new page has more rows, rows that have scrolled off since scrollback was last cleared
    /// return to the top of the page, as many as fit. They are the newest scrollback rows; rows
    /// that were not kept are replaced by blank rows. Blank rows at the bottom fill the rest of the
    /// page.
    ///
    /// Each row is truncated or extended to the new width. The cursor and the saved cursor move
    /// with their rows and are clamped to the new page. Afterward the scroll region is the whole
    /// page, no wrap is pending, and no scrollback row is displayed.
    ///
    /// # Errors
    ///
    /// Returns [`Error::OutOfMemory`] if memory for scrollback cannot be allocated. On error,
    /// nothing is changed and no row is reported.
    pub fn set_size<L: Leaving>(
        &mut self,
        fresh: Grid,
        above: &mut Scrollback,
        leaving: &mut L,
    ) -> Result<(), Error>
        requires { fresh ≡ blank_page (length fresh.rows) fresh.width }
        ensures { ResizesPage L.leaves (length fresh.rows) fresh.width self.old above.old leaving.old
            self.new above.new leaving.new result }
    {
        self.fill(fresh.page_rows, above, leaving)?;
        Ok(())
    }

    /// Shrinks the page in place to `rows` rows, which must be at least 1 and at most the current
    /// number of rows. The width is unchanged. The rules are those of [`Grid::set_size`].
    ///
    /// # Errors
    ///
    /// Returns [`Error::OutOfMemory`] if memory for scrollback cannot be allocated. On error,
    /// nothing is changed and no row is reported.
    pub fn remove_rows<L: Leaving>(
        &mut self,
        rows: u16,
        above: &mut Scrollback,
        leaving: &mut L,
    ) -> Result<(), Error>
        requires nonempty { 0 < rows }
        requires fewer { rows ≤ length self.old.rows }
        ensures { ResizesPage L.leaves rows self.old.width self.old above.old leaving.old
            self.new above.new leaving.new result }
    {
        let size = Size {
            rows,
            cols: self.size.cols,
        };
        let below = self.size.rows - (self.pos.row + 1);
        let down = (self.size.rows - rows).saturating_sub(below);
        above.push_out_of_view(&self.page_rows, usize::from(down), self.size, leaving)?;
        self.page_rows.keep_rows(down, rows);
        self.pos = resized(self.pos, down, 0, size);
        self.saved_pos = resized(self.saved_pos, down, 0, size);
        self.scroll_top = 0;
        self.scroll_bottom = rows - 1;
        self.size = size;
        Ok(())
    }

    /// Extends this page and `other`, if there is one, to `rows` rows in place. Neither page may
    /// have more than `rows` rows. The widths are unchanged. The rules are those of
    /// [`Grid::set_size`], with `above` as this page's scrollback and `other_above` as the other
    /// page's.
    ///
    /// # Errors
    ///
    /// Returns [`Error::OutOfMemory`] if the rows cannot be allocated. On error, nothing is
    /// changed.
    pub fn add_rows(
        &mut self,
        other: &mut Option<Grid>,
        rows: u16,
        above: &mut Scrollback,
        other_above: &mut Scrollback,
    ) -> Result<(), Error>
        requires own { length self.old.rows ≤ rows }
        requires other { IfSome other.old (λ page. length page.rows ≤ rows) }
        ensures own { AddsRows rows self.old above.old self.new above.new result }
        ensures other { OnOk result (other.new
            ≡ option_map (λ page. page_resized rows page.width other_above.old page) other.old) }
        ensures other_above { OnOk result (IfSome other.old (λ page.
            other_above.new ≡ scrollback_resized rows page other_above.old)) }
        ensures none { other.old ≡ None → other_above.new ≡ other_above.old }
        ensures err { OnErr result ((other.new ≡ other.old) × (other_above.new ≡ other_above.old)) }
    {
        let Some(page) = other else {
            return self.add_own_rows(rows, above);
        };
        self.add_rows_to_both(page, rows, above, other_above)?;
        Ok(())
    }

    /// Extends this page to `rows` rows, as [`Grid::add_rows`] does if there is no other page.
    ///
    /// # Errors
    ///
    /// Returns [`Error::OutOfMemory`] if the rows cannot be allocated. On error, nothing is
    /// changed.
    fn add_own_rows(&mut self, rows: u16, above: &mut Scrollback) -> Result<(), Error>
        requires { length self.old.rows ≤ rows }
        ensures { AddsRows rows self.old above.old self.new above.new result }
    {
        let size = Size {
            rows,
            cols: self.size.cols,
        };
        let up = at_most(rows - self.size.rows, above.theoretical_len());
        self.page_rows.append_rows(rows)?;
        above.leave_view();
        self.page_rows.bring_back(up, above);
        self.pos = resized(self.pos, 0, up, size);
        self.saved_pos = resized(self.saved_pos, 0, up, size);
        self.scroll_top = 0;
        self.scroll_bottom = rows - 1;
        self.size = size;
        Ok(())
    }

    /// Extends this page and `other` to `rows` rows, as [`Grid::add_rows`] does.
    ///
    /// # Errors
    ///
    /// Returns [`Error::OutOfMemory`] if the rows cannot be allocated. On error, nothing is
    /// changed.
    fn add_rows_to_both(
        &mut self,
        other: &mut Grid,
        rows: u16,
        above: &mut Scrollback,
        other_above: &mut Scrollback,
    ) -> Result<(), Error>
        requires own { length self.old.rows ≤ rows }
        requires other { length other.old.rows ≤ rows }
        ensures own { AddsRows rows self.old above.old self.new above.new result }
        ensures other { AddsRows rows other.old other_above.old other.new other_above.new result }
    {
        let size = Size {
            rows,
            cols: self.size.cols,
        };
        let other_size = Size {
            rows,
            cols: other.size.cols,
        };
        let up = at_most(rows - self.size.rows, above.theoretical_len());
        let other_up = at_most(rows - other.size.rows, other_above.theoretical_len());
        self.page_rows
            .append_rows_to_both(&mut other.page_rows, rows)?;
        above.leave_view();
        self.page_rows.bring_back(up, above);
        self.pos = resized(self.pos, 0, up, size);
        self.saved_pos = resized(self.saved_pos, 0, up, size);
        self.scroll_top = 0;
        self.scroll_bottom = rows - 1;
        self.size = size;
        other_above.leave_view();
        other.page_rows.bring_back(other_up, other_above);
        other.pos = resized(other.pos, 0, other_up, other_size);
        other.saved_pos = resized(other.saved_pos, 0, other_up, other_size);
        other.scroll_top = 0;
        other.scroll_bottom = rows - 1;
        other.size = other_size;
        Ok(())
    }

    /// Moves the rows of the page into `fresh`, a new page of default blanks, and adopts its size,
    /// as [`Grid::set_size`] describes.
    ///
    /// # Errors
    ///
    /// Returns [`Error::OutOfMemory`] if memory for scrollback cannot be allocated. On error,
    /// nothing is changed and no row is reported.
    fn fill<L: Leaving>(
        &mut self,
        fresh: PageRows,
        above: &mut Scrollback,
        leaving: &mut L,
    ) -> Result<(), Error>
        requires blank { fresh ≡ blank_page_rows (length fresh.rows) fresh.width }
        requires rows { 0 < length fresh.rows }
        requires height { length fresh.rows < 2 ^ 16 }
        requires cols { 0 < fresh.width }
        ensures { ResizesPage L.leaves (length fresh.rows) fresh.width self.old above.old leaving.old
            self.new above.new leaving.new result }
    {
        let size = fresh.size();
        let below = self.size.rows - (self.pos.row + 1);
        let down = self
            .size
            .rows
            .saturating_sub(size.rows)
            .saturating_sub(below);
        let up = at_most(
            size.rows.saturating_sub(self.size.rows),
            above.theoretical_len(),
        );
        above.push_out_of_view(&self.page_rows, usize::from(down), self.size, leaving)?;
        self.page_rows.refit(fresh, down, up, above);
        self.pos = resized(self.pos, down, up, size);
        self.saved_pos = resized(self.saved_pos, down, up, size);
        self.scroll_top = 0;
        self.scroll_bottom = size.rows - 1;
        self.size = size;
        Ok(())
    }
}

/// Returns the smaller of two row counts.
fn at_most(rows: u16, count: usize) -> u16
    ensures { result ≡ min rows count }
{
    usize::from(rows).min(count) as u16
}

/// Returns the new position of a cursor that was at `pos` before `down` rows scrolled off the top
/// of the page and `up` rows returned to the top. The cursor moves with its row and is clamped to
/// `size`, the new size of the page.
pub(super) fn resized(pos: Pos, down: u16, up: u16, size: Size) -> Pos
    ensures row { result.row ≡ row_resized size.rows down up pos.row }
    ensures col { result.col ≡ min pos.col (size.cols - 1) }
{
    let row = pos.row.saturating_sub(down).saturating_add(up);
    Pos {
        row: row.min(size.rows.saturating_sub(1)),
        col: pos.col.min(size.cols.saturating_sub(1)),
    }
}
