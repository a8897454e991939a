//! Resizing the rows of a page: in place, or by copying them into new rows if the width changes.

ghost use Rattle.std.specs.Prelude.{◌≡◌, ◌+◌, ◌-◌, ◌<◌, ◌≤◌, ◌++◌, ℕ, All, List, OnErr, OnOk};
ghost use Rattle.std.specs.Prelude.{length, replicate, slice_index_or};
ghost use Rattle.vt_cells.specs.Attrs.{default_attrs};
ghost use Rattle.vt_cells.specs.Refusals.{OnlyOutOfMemory};
ghost use Rattle.vt_rows.specs.Row.{RowValue, IsRow, blank_row, resized_row};
ghost use Rattle.vt_grid.specs.Internals.{row_after_refill, taken_over};
ghost use Rattle.vt_rows.specs.Cells.{IsPaired};
ghost use Rattle.vt_grid.specs.Resize.{rows_resized, taken_back, window};
ghost use Rattle.vt_grid.specs.PageRows.{blank_page_rows, page_row, with_blank_rows, with_page_row};

use super::PageRows;
use crate::scrollback::Scrollback;
use vt_cells::{Cell, Error};
use vt_rows::row::is_wrapped_after_resize;
use vt_rows::trimming;

impl PageRows {
    /// Appends default blank rows until there are `rows` rows.
    ///
    /// # Errors
    ///
    /// Returns [`Error::OutOfMemory`] if the rows cannot be allocated. On error, nothing is
    /// changed.
    pub fn append_rows(&mut self, rows: u16) -> Result<(), Error>
        requires { length self.old.rows ≤ rows }
        ensures ok { OnOk result (self.new ≡ with_blank_rows rows self.old) }
        ensures err { OnErr result (self.new ≡ self.old) }
        ensures memory { OnlyOutOfMemory result }
    {
        self.flat.reserve(rows)?;
        self.flat.append_rows(rows);
        Ok(())
    }

    /// Appends default blank rows to this page and to `other` until each has `rows` rows.
    ///
    /// # Errors
    ///
    /// Returns [`Error::OutOfMemory`] if the rows cannot be allocated. On error, neither page is
    /// changed.
    pub fn append_rows_to_both(&mut self, other: &mut PageRows, rows: u16) -> Result<(), Error>
        requires own { length self.old.rows ≤ rows }
        requires other { length other.old.rows ≤ rows }
        ensures own { OnOk result (self.new ≡ with_blank_rows rows self.old) }
        ensures other { OnOk result (other.new ≡ with_blank_rows rows other.old) }
        ensures err { OnErr result ((self.new ≡ self.old) × (other.new ≡ other.old)) }
        ensures memory { OnlyOutOfMemory result }
    {
        self.flat.reserve(rows)?;
        other.flat.reserve(rows)?;
        self.flat.append_rows(rows);
        other.flat.append_rows(rows);
        Ok(())
    }

    /// Moves the newest `up` scrollback rows back to the top of the page. The last `up` rows of the
    /// page must be default blanks; the rows above them move down by `up` rows. The wrapped flag of
    /// the last row is cleared. The scrollback offset must be 0.
    pub fn bring_back(&mut self, up: u16, above: &mut Scrollback)
        requires nonempty { 0 < length self.old.rows }
        requires inside { up ≤ length self.old.rows }
        requires blank { (k : ℕ) (d : RowValue) → length self.old.rows ≤ k + up → k < length self.old.rows →
            slice_index_or self.old.rows k d ≡ blank_row default_attrs self.old.width }
        requires hidden { above.old.offset ≡ 0 }
        requires sound { All (IsRow self.old.width) self.old.rows }
        ensures rows { (own : List RowValue) → length own + up ≤ length self.old.rows →
            self.old.rows
            ≡ own ++ replicate (length self.old.rows - length own) (blank_row default_attrs self.old.width) →
            self.new.rows
            ≡ rows_resized self.old.width
            (window self.old.width (length self.old.rows) 0 up above.old.rows own) }
        ensures width { self.new.width ≡ self.old.width }
        ensures above { above.new ≡ taken_back up above.old }
    {
        let len = self.len();
        let up = usize::from(up);
        self.flat.rotate(0, len, len - up);
        above.give_back(self, up);
        self.wrap(len - 1, false);
    }

    /// Keeps `rows` rows, beginning with row `down`, and removes the others. The wrapped flag of
    /// the last row is cleared.
    pub fn keep_rows(&mut self, down: u16, rows: u16)
        requires nonempty { 0 < rows }
        requires inside { down + rows ≤ length self.old.rows }
        requires sound { All (IsRow self.old.width) self.old.rows }
        ensures rows { (above : List RowValue) → self.new.rows
            ≡ rows_resized self.old.width (window self.old.width rows down 0 above self.old.rows) }
        ensures width { self.new.width ≡ self.old.width }
    {
        let len = self.len();
        let rows = usize::from(rows);
        self.flat.rotate(0, len, usize::from(down));
        self.flat.truncate(rows);
        self.wrap(rows - 1, false);
    }

    /// Replaces the page with `fresh`, a page of default blanks, and fills it with the newest `up`
    /// scrollback rows and, below them, the rows of the old page after its first `down` rows. The
    /// wrapped flag of the last row is cleared. One of `down` and `up` must be 0, and so must the
    /// scrollback offset.
    pub fn refit(&mut self, mut fresh: PageRows, down: u16, up: u16, above: &mut Scrollback)
        requires blank { fresh ≡ blank_page_rows (length fresh.rows) fresh.width }
        requires either { 0 < up → down ≡ 0 }
        requires inside { up < length fresh.rows }
        requires hidden { above.old.offset ≡ 0 }
        requires sound { All (IsRow self.old.width) self.old.rows }
        ensures rows { self.new.rows
            ≡ rows_resized fresh.width
            (window self.old.width (length fresh.rows) down up above.old.rows self.old.rows) }
        ensures width { self.new.width ≡ fresh.width }
        ensures above { above.new ≡ taken_back up above.old }
    {
        fill(&mut fresh, self, usize::from(down), usize::from(up), above);
        let last = fresh.len() - 1;
        fresh.wrap(last, false);
        self.flat = fresh.flat;
    }

    /// Copies the cells in `from` into the blank row `row`, truncating or extending them to the
    /// width of the row, as [`trimming::refit`] does. Sets the row's wrapped flag to `wrapped` if
    /// the two widths are equal, otherwise to `false`.
    #[tactic(auto, using(crate::proofs::Flats::columns_counted))]
    pub fn fit_row(&mut self, row: usize, from: &[Cell], wrapped: bool)
        requires inside { row < length self.old.rows }
        requires blank { page_row self.old row ≡ blank_row default_attrs (length (page_row self.old row).cells) }
        requires paired { IsPaired from.now }
        ensures { self.new
            ≡ with_page_row row
            (resized_row (length (page_row self.old row).cells) (record { cells = from.now; wrapped = wrapped }))
            self.old }
    {
        let is_wrapped = is_wrapped_after_resize(
            wrapped,
            from.len() == usize::from(self.flat.columns.shown),
        );
        self.edit_row_and_flag(row, is_wrapped, |cells| trimming::refit(cells, from));
    }

    /// Copies the rows of `rows`, starting at row `down`, into this page, starting at row `up`.
    /// Copies as many rows as fit, and truncates or extends each of them to the width of this page.
    /// The rows of this page at and after `up` must be blank.
    fn take_rows(&mut self, rows: &PageRows, down: usize, up: usize)
        requires blank { (k : ℕ) (d : RowValue) → up ≤ k → k < length self.old.rows →
            slice_index_or self.old.rows k d
            ≡ blank_row default_attrs (length (slice_index_or self.old.rows k d).cells) }
        requires inside { up ≤ length self.old.rows }
        requires sound { All (IsRow rows.now.width) rows.now.rows }
        ensures len { length self.new.rows ≡ length self.old.rows }
        ensures width { self.new.width ≡ self.old.width }
        ensures by_index { (k : ℕ) (d : RowValue) → k < length self.old.rows →
            slice_index_or self.new.rows k d
            ≡ taken_over down up rows.now.rows (slice_index_or self.old.rows k d) k d }
    {
        let mut k = (self.len() - up).min(rows.len().saturating_sub(down));
        while k > 0 {
            k -= 1;
            let row = rows.row(down + k);
            self.fit_row(up + k, row.cells(), row.wrapped());
        }
    }
}

/// Fills `fresh`, a page of default blanks, with the newest `up` scrollback rows and, below them,
/// the rows of the page `rows`, starting at row `down`. The scrollback offset must be 0.
fn fill(fresh: &mut PageRows, rows: &PageRows, down: usize, up: usize, above: &mut Scrollback)
    requires blank { fresh.old ≡ blank_page_rows (length fresh.old.rows) fresh.old.width }
    requires inside { up ≤ length fresh.old.rows }
    requires hidden { above.old.offset ≡ 0 }
    requires sound { All (IsRow rows.now.width) rows.now.rows }
    ensures len { length fresh.new.rows ≡ length fresh.old.rows }
    ensures width { fresh.new.width ≡ fresh.old.width }
    ensures above { above.new ≡ taken_back up above.old }
    ensures by_index { (k : ℕ) (d : RowValue) → k < length fresh.old.rows →
        slice_index_or fresh.new.rows k d
        ≡ row_after_refill down up above.old.rows rows.now.rows (slice_index_or fresh.old.rows k d) k d }
{
    above.give_back(fresh, up);
    fresh.take_rows(rows, down, up);
}
