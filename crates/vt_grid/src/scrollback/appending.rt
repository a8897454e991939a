//! Appending a single row to scrollback while no scrollback row is displayed, without creating a
//! list of rows.

ghost use Rattle.std.specs.Prelude.{◌≡◌, ◌<◌, ℕ, IsErr, OnErr, OnOk, length, take};
ghost use Rattle.vt_cells.specs.Refusals.{OnlyOutOfMemory};
ghost use Rattle.vt_grid.specs.PageRows.{HasRows};
ghost use Rattle.vt_grid.specs.Scrollback.{RecyclesOldest, scrollback_after_push};
ghost use Rattle.vt_grid.specs.Sending.{SendsOrFails};

use super::Scrollback;
use crate::page_rows::PageRows;
use crate::row_lists::{push_copy, recycle_oldest};
use vt_cells::Error;
use vt_rows::Leaving;

impl Scrollback {
    /// Appends a copy of the first row of a page, without the row's trailing default blanks. If
    /// scrollback is at capacity, its oldest row is removed and reported to `leaving`.
    /// [`Scrollback::push`] calls this function for a single row if the offset is 0.
    ///
    /// # Errors
    ///
    /// Returns [`Error::OutOfMemory`] if an allocation fails. On error, nothing is changed and no
    /// row is reported.
    pub(super) fn push_one<L: Leaving>(
        &mut self,
        page: &PageRows,
        leaving: &mut L,
    ) -> Result<(), Error>
        requires nonempty { 0 < self.old.capacity }
        requires hidden { self.old.offset ≡ 0 }
        requires page { HasRows 1 page.now }
        ensures pushed { (height width : ℕ) → SendsOrFails L.leaves height width (take 1 page.now.rows)
            self.old leaving.old self.old self.new leaving.new result }
        ensures grows { IsErr result → RecyclesOldest (take 1 page.now.rows) self.old → ⊥ }
    {
        if self.rows.len() == self.capacity {
            return self.recycle_oldest(page, leaving);
        }
        self.add(page)
    }

    /// Appends a copy of the first row of a page, without the row's trailing default blanks.
    /// Scrollback must be below capacity, and the offset must be 0.
    ///
    /// # Errors
    ///
    /// Returns [`Error::OutOfMemory`] if an allocation fails. On error, nothing is changed.
    fn add(&mut self, page: &PageRows) -> Result<(), Error>
        requires room { length self.old.rows < self.old.capacity }
        requires hidden { self.old.offset ≡ 0 }
        requires page { HasRows 1 page.now }
        ensures added { OnOk result ((height width : ℕ) →
            self.new ≡ scrollback_after_push height width (take 1 page.now.rows) self.old) }
        ensures err { OnErr result (self.new ≡ self.old) }
        ensures memory { OnlyOutOfMemory result }
    {
        push_copy(self.alloc, &mut self.rows, page)?;
        self.theoretical = self.theoretical.saturating_add(1);
        Ok(())
    }

    /// Reports the oldest row and reuses its memory for a copy of the first row of a page.
    /// Scrollback must be at capacity, and the offset must be 0.
    ///
    /// # Errors
    ///
    /// Returns [`Error::OutOfMemory`] if the copy is wider than the oldest row and the allocation
    /// fails. On error, nothing is changed and no row is reported.
    fn recycle_oldest<L: Leaving>(&mut self, page: &PageRows, leaving: &mut L) -> Result<(), Error>
        requires full { length self.old.rows ≡ self.old.capacity }
        requires nonempty { 0 < self.old.capacity }
        requires hidden { self.old.offset ≡ 0 }
        requires page { HasRows 1 page.now }
        ensures pushed { (height width : ℕ) → SendsOrFails L.leaves height width (take 1 page.now.rows)
            self.old leaving.old self.old self.new leaving.new result }
        ensures grows { IsErr result → RecyclesOldest (take 1 page.now.rows) self.old → ⊥ }
    {
        recycle_oldest(&mut self.rows, page, leaving)?;
        self.theoretical = self.theoretical.saturating_add(1);
        Ok(())
    }
}
