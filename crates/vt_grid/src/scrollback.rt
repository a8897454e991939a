//! Scrollback: the rows that scrolled off the top of a page and are kept (xterm's saved lines).

ghost use Rattle.std.specs.Prelude.{◌≡◌, ◌+◌, ◌-◌, ◌^◌, ◌==◌, ◌<◌, ◌≤◌, ◌↔◌, ◌++◌, ◌∷◌, [], ℕ};
ghost use Rattle.std.specs.Prelude.{List, All, IfOk, IfSome, IsErr, IsSome, OnErr, OnOk, if◌then◌else◌};
ghost use Rattle.std.specs.Prelude.{length, min, nat_lt, slice_index_or, take};
ghost use Rattle.std.specs.List.{FoldsTo};
ghost use Rattle.std.specs.VecDeque.{deque_capacity, deque_len};
ghost use Rattle.vt_cells.specs.Attrs.{default_attrs};
ghost use Rattle.vt_cells.specs.Refusals.{OnlyOutOfMemory};
ghost use Rattle.vt_rows.specs.Row.{RowValue, IsRow, blank_row};
ghost use Rattle.vt_grid.specs.Internals.{given_back, AreRows, AreSpare, grown_from, in_view, window_from};
ghost use Rattle.vt_grid.specs.PageRows.{CanLetRowsGo, HasRows};
ghost use Rattle.vt_grid.specs.Resize.{out_of_view, taken_back};
ghost use Rattle.vt_grid.specs.Scrollback.{IsScrollback, Sends, TakesMemory, ViewTakesMemory};
ghost use Rattle.vt_grid.specs.Scrollback.{before_last, scrollback_after_clear, grown_row, kept_after, last_of};
ghost use Rattle.vt_grid.specs.Scrollback.{narrow_rows, no_scrollback, with_view, visible};
ghost use Rattle.vt_grid.specs.Sending.{SendsOrFails};

mod appending;

use crate::page_rows::PageRows;
use crate::row_lists::{blank_rows, copied_rows, report_all, report_trimmed, trimmed_rows};
use crate::size::Size;
use std::alloc::Global;
use std::collections::VecDeque;
use std::marker::Model;
use std::mem;
use vt_cells::Error;
use vt_rows::{Leaving, Row, RowContents};

/// The newest rows that scrolled off the top of a page, up to the capacity, and the offset, which
/// is the number of rows by which the display is scrolled back.
///
/// With an offset of `n`, the display consists of the newest `n` scrollback rows followed by the
/// rows of the page, cut off at the height of the page.
#[derive(Debug, Drop)]
pub struct Scrollback {
    alloc: Global,
    rows: VecDeque<Row>,
    capacity: usize,
    theoretical: usize,
    offset: usize,
}

impl Model for Scrollback {
    ghost use Rattle.vt_grid.specs.Scrollback.{IsScrollback, Scrollback};

    ghost Value = { Scrollback };

    ghost view = { λ s.
        record { rows = s.rows.items; capacity = s.capacity; theoretical = s.theoretical; offset = s.offset } };

    ghost invariant = { λ s. IsScrollback
        (record { rows = s.rows.items; capacity = s.capacity; theoretical = s.theoretical; offset = s.offset }) };
}

impl Scrollback {
    /// Creates an empty scrollback that keeps at most `capacity` rows. Allocates nothing.
    pub fn new(alloc: Global, capacity: usize) -> Scrollback
        ensures { result ≡ no_scrollback capacity }
    {
        Scrollback {
            alloc,
            rows: VecDeque::new(alloc),
            capacity,
            theoretical: 0,
            offset: 0,
        }
    }

    /// Returns a copy of the scrollback.
    ///
    /// # Errors
    ///
    /// Returns [`Error::OutOfMemory`] if the copy cannot be allocated.
    pub fn try_clone(&self) -> Result<Scrollback, Error>
        ensures ok { IfOk result (λ above. above ≡ self.now) }
        ensures memory { OnlyOutOfMemory result }
    {
        Ok(Scrollback {
            alloc: self.alloc,
            rows: copied_rows(&self.rows, self.alloc)?,
            capacity: self.capacity,
            theoretical: self.theoretical,
            offset: self.offset,
        })
    }

    /// Returns the number of rows in scrollback.
    #[inline]
    pub fn len(&self) -> usize
        ensures { result ≡ length self.now.rows }
    {
        self.rows.len()
    }

    /// Returns the maximum number of rows that scrollback keeps.
    #[inline]
    pub fn capacity(&self) -> usize
        ensures { result ≡ self.now.capacity }
    {
        self.capacity
    }

    /// Returns the number of rows that have scrolled off since scrollback was last cleared and have
    /// not returned to the page, whether they were kept or not.
    #[inline]
    pub fn theoretical_len(&self) -> usize
        ensures value { result ≡ self.now.theoretical }
        ensures sound { IsScrollback self.now }
    {
        self.theoretical
    }

    /// Returns the number of rows by which the display is scrolled back. The number may exceed the
    /// height of the screen.
    #[inline]
    pub fn offset(&self) -> usize
        ensures { result ≡ self.now.offset }
    {
        self.offset
    }

    /// Appends copies of the first `count` rows of a page, which are about to scroll off, oldest
    /// first. The default blanks at the end of each row are not copied. `size` must be the size of
    /// the page.
    ///
    /// Rows in excess of the capacity are reported to `leaving`, oldest first. If the offset is not
    /// 0, it grows by `count`, clamped to the number of rows kept, so that the displayed rows stay
    /// in place as long as they are kept. Displayed rows that are narrower than the page are
    /// extended to its width.
    ///
    /// No memory is allocated if `count` or the capacity is 0, or if the offset is 0 and a single
    /// row replaces a row that is at least as wide.
    ///
    /// # Errors
    ///
    /// Returns [`Error::OutOfMemory`] if an allocation fails. On error, nothing is changed and no
    /// row is reported.
    pub fn push<L: Leaving>(
        &mut self,
        page: &PageRows,
        count: usize,
        size: Size,
        leaving: &mut L,
    ) -> Result<(), Error>
        requires page { CanLetRowsGo count size.cols page.now }
        ensures pushed { SendsOrFails L.leaves size.rows size.cols (take count page.now.rows)
            self.old leaving.old self.old self.new leaving.new result }
        ensures grows { IsErr result → TakesMemory (take count page.now.rows) self.old }
    {
        if count == 0 {
            return Ok(());
        }
        if self.capacity == 0 {
            self.pass(page, count, leaving);
            return Ok(());
        }
        if count == 1 && self.offset == 0 {
            return self.push_one(page, leaving);
        }
        self.keep(page, count, size, leaving)
    }

    /// Sets the offset to 0, and then appends rows as [`Scrollback::push`] does.
    ///
    /// # Errors
    ///
    /// Returns [`Error::OutOfMemory`] if an allocation fails. On error, nothing is changed, not
    /// even the offset, and no row is reported.
    pub fn push_out_of_view<L: Leaving>(
        &mut self,
        page: &PageRows,
        count: usize,
        size: Size,
        leaving: &mut L,
    ) -> Result<(), Error>
        requires page { CanLetRowsGo count size.cols page.now }
        ensures pushed { SendsOrFails L.leaves size.rows size.cols (take count page.now.rows)
            (out_of_view self.old) leaving.old self.old self.new leaving.new result }
        ensures grows { IsErr result → TakesMemory (take count page.now.rows) (out_of_view self.old) }
    {
        let offset = self.offset;
        self.offset = 0;
        if let Err(error) = self.push(page, count, size, leaving) {
            self.offset = offset;
            return Err(error);
        }
        Ok(())
    }

    /// Moves the newest `up` rows of scrollback into the first `up` rows of a page, in order. Those
    /// rows of the page must be blank. If scrollback keeps fewer than `up` rows, the topmost rows
    /// of the page stay blank.
    ///
    /// [`Scrollback::theoretical_len`] decreases by `up`, even if fewer rows were kept. The offset
    /// must be 0.
    pub fn give_back(&mut self, page: &mut PageRows, up: usize)
        requires hidden { self.old.offset ≡ 0 }
        requires inside { up ≤ length page.old.rows }
        requires blank { (k : ℕ) (d : RowValue) → k < up → slice_index_or page.old.rows k d
            ≡ blank_row default_attrs (length (slice_index_or page.old.rows k d).cells) }
        ensures above { self.new ≡ taken_back up self.old }
        ensures len { length page.new.rows ≡ length page.old.rows }
        ensures width { page.new.width ≡ page.old.width }
        ensures by_index { (k : ℕ) (d : RowValue) → k < length page.old.rows →
            slice_index_or page.new.rows k d ≡ given_back up self.old.rows (slice_index_or page.old.rows k d) k d }
    {
        self.theoretical = self.theoretical.saturating_sub(up);
        give_rows(&mut self.rows, page, up);
    }

    /// Reports to `leaving` the first `count` rows of a page, which are about to scroll off, and
    /// counts them in [`Scrollback::theoretical_len`]. [`Scrollback::push`] calls this function if
    /// the capacity is 0.
    fn pass<L: Leaving>(&mut self, page: &PageRows, count: usize, leaving: &mut L)
        requires none { self.old.capacity ≡ 0 }
        requires nonempty { 0 < count }
        requires page { HasRows count page.now }
        ensures { (height width : ℕ) →
            Sends L.leaves height width (take count page.now.rows) self.old leaving.old self.new leaving.new }
    {
        report_trimmed(page, count, leaving);
        self.theoretical = self.theoretical.saturating_add(count);
    }

    /// Appends copies of the first `count` rows of a page, which are about to scroll off, and
    /// reports the rows in excess of the capacity to `leaving`. [`Scrollback::push`] calls this
    /// function if the capacity is not 0.
    ///
    /// # Errors
    ///
    /// Returns [`Error::OutOfMemory`] if an allocation fails. On error, nothing is changed and no
    /// row is reported.
    fn keep<L: Leaving>(
        &mut self,
        page: &PageRows,
        count: usize,
        size: Size,
        leaving: &mut L,
    ) -> Result<(), Error>
        requires page { CanLetRowsGo count size.cols page.now }
        requires nonempty { 0 < count }
        requires kept { 0 < self.old.capacity }
        ensures { SendsOrFails L.leaves size.rows size.cols (take count page.now.rows)
            self.old leaving.old self.old self.new leaving.new result }
    {
        let copies = trimmed_rows(self.alloc, page, count)?;
        let spare = blank_rows(
            self.alloc,
            usize::from(size.cols),
            self.allocations(count, size),
        )?;
        self.rows
            .reserve(count.min(self.capacity - self.rows.len()))?;
        push_rows(copies, &mut self.rows, self.capacity, leaving);
        self.theoretical = self.theoretical.saturating_add(count);
        self.offset = followed(self.offset, count, self.rows.len());
        grow_in_view(&mut self.rows, self.offset, size, spare);
        Ok(())
    }

    /// Returns an upper bound on the number of displayed rows that will be narrower than the screen
    /// after `count` rows have been appended.
    fn allocations(&self, count: usize, size: Size) -> usize
        requires { count < 2 ^ 63 }
        ensures { (gone : List RowValue) → length gone ≡ count →
            narrow_rows size.cols (in_view size.rows (kept_after gone self.now)) ≤ result }
    {
        if self.offset == 0 {
            return 0;
        }
        let len = self.rows.len();
        let end = len + count;
        let first = end - (self.offset + count).min(self.capacity);
        let below = first + usize::from(size.rows);
        narrow_rows(&self.rows, first, size) + below.min(end).saturating_sub(len)
    }

    /// Sets the offset to `n`, clamped to the number of rows kept. Rows that a screen of the given
    /// size displays at the new offset are extended to its width if they are narrower.
    ///
    /// No memory is allocated if no row needs to be extended.
    ///
    /// # Errors
    ///
    /// Returns [`Error::OutOfMemory`] if an allocation fails. On error, nothing is changed.
    pub fn set_offset(&mut self, n: usize, size: Size) -> Result<(), Error>
        ensures ok { OnOk result (self.new ≡ with_view size.rows size.cols n self.old) }
        ensures err { OnErr result (self.new ≡ self.old) }
        ensures grows { IsErr result → ViewTakesMemory size.rows size.cols n self.old }
        ensures memory { OnlyOutOfMemory result }
    {
        let offset = n.min(self.rows.len());
        let narrow = narrow_rows(&self.rows, self.rows.len() - offset, size);
        let spare = blank_rows(self.alloc, usize::from(size.cols), narrow)?;
        self.offset = offset;
        grow_in_view(&mut self.rows, offset, size, spare);
        Ok(())
    }

    /// Sets the offset to 0, so that no scrollback row is displayed.
    pub fn leave_view(&mut self)
        ensures value { self.new ≡ out_of_view self.old }
        ensures sound { IsScrollback self.old }
    {
        self.offset = 0;
    }

    /// Removes all rows and passes them to `leaving`, oldest first, and resets the row counts and
    /// the offset to 0.
    pub fn clear<L: Leaving>(&mut self, leaving: &mut L)
        ensures rows { self.new ≡ scrollback_after_clear self.old }
        ensures reported { FoldsTo L.leaves leaving.old self.old.rows leaving.new }
    {
        report_all(&mut self.rows, leaving);
        self.theoretical = 0;
        self.offset = 0;
    }

    /// Returns the displayed row at index `row`, or `None` if the page has no such row. With an
    /// offset of `n`, the newest `n` scrollback rows come first, followed by the rows of the page.
    pub fn visible_row<'a>(&'a self, page: &'a PageRows, row: u16) -> Option<RowContents<'a>>
        requires { All (IsRow page.now.width) page.now.rows }
        ensures inside { IsSome result ↔ (row < length page.now.rows) }
        ensures value { (d : RowValue) →
            IfSome result (λ found. found ≡ slice_index_or (visible self.now page.now.rows) row d) }
    {
        let row = usize::from(row);
        if row >= page.len() {
            return None;
        }
        if row < self.offset {
            return Some(self.rows[self.rows.len() - self.offset + row].contents());
        }
        Some(page.row(row - self.offset))
    }

    /// Returns the total number of rows in scrollback and on the page.
    pub fn stacked_len(&self, page: &PageRows) -> usize
        requires { length page.now.rows < 2 ^ 16 }
        ensures { result ≡ length self.now.rows + length page.now.rows }
    {
        self.rows.len() + page.len()
    }

    /// Returns the row at `index` in the list of all scrollback rows, oldest first, followed by the
    /// rows of the page.
    pub fn stacked_row<'a>(&'a self, page: &'a PageRows, index: usize) -> RowContents<'a>
        requires inside { index < length self.now.rows + length page.now.rows }
        requires sound { All (IsRow page.now.width) page.now.rows }
        ensures { (d : RowValue) → result ≡ slice_index_or (self.now.rows ++ page.now.rows) index d }
    {
        let kept = self.rows.len();
        if index < kept {
            self.rows[index].contents()
        } else {
            page.row(index - kept)
        }
    }
}

/// Appends each row of `gone` to `kept`, the rows in scrollback, as [`push_row`] does.
fn push_rows<L: Leaving>(gone: Vec<Row>, kept: &mut VecDeque<Row>, capacity: usize, leaving: &mut L)
    requires nonempty { 0 < capacity }
    requires inside { length kept.old.items ≤ capacity }
    requires room { length kept.old.items + min (length gone.items) (capacity - length kept.old.items)
        ≤ deque_capacity kept.old }
    requires sound { AreRows gone.items }
    requires sound_kept { AreRows kept.old.items }
    ensures rows { kept.new.items ≡ last_of capacity (kept.old.items ++ gone.items) }
    ensures reported { FoldsTo L.leaves leaving.old (before_last capacity (kept.old.items ++ gone.items)) leaving.new }
{
    for row in gone {
        push_row(row, kept, capacity, leaving);
    }
}

/// Appends a row to `kept`, the rows in scrollback. If `kept` already has `capacity` rows, first
/// removes its oldest row and reports it to `leaving`.
fn push_row<L: Leaving>(row: Row, kept: &mut VecDeque<Row>, capacity: usize, leaving: &mut L)
    requires nonempty { 0 < capacity }
    requires inside { length kept.old.items ≤ capacity }
    requires room { length kept.old.items < capacity → deque_len kept.old < deque_capacity kept.old }
    requires sound { AreRows kept.old.items }
    ensures rows { kept.new.items ≡ last_of capacity (kept.old.items ++ row ∷ []) }
    ensures reported { FoldsTo L.leaves leaving.old (before_last capacity (kept.old.items ++ row ∷ [])) leaving.new }
    ensures capacity { deque_capacity kept.new ≡ deque_capacity kept.old }
{
    if kept.len() < capacity {
        kept.push_back_reserved(row);
        return;
    }
    if let Some(oldest) = kept.pop_front() {
        leaving.leave(oldest.contents());
    }
    kept.push_back_reserved(row);
}

/// Moves the newest `up` rows of `kept` into the first `up` rows of a page, as
/// [`Scrollback::give_back`] describes.
fn give_rows(kept: &mut VecDeque<Row>, page: &mut PageRows, up: usize)
    requires inside { up ≤ length page.old.rows }
    requires blank { (k : ℕ) (d : RowValue) → k < up → slice_index_or page.old.rows k d
        ≡ blank_row default_attrs (length (slice_index_or page.old.rows k d).cells) }
    requires sound { AreRows kept.old.items }
    ensures kept { kept.new.items ≡ take (length kept.old.items - up) kept.old.items }
    ensures len { length page.new.rows ≡ length page.old.rows }
    ensures width { page.new.width ≡ page.old.width }
    ensures by_index { (k : ℕ) (d : RowValue) → k < length page.old.rows →
        slice_index_or page.new.rows k d ≡ given_back up kept.old.items (slice_index_or page.old.rows k d) k d }
{
    let mut k = up;
    while k > 0 {
        let Some(row) = kept.pop_back() else {
            return;
        };
        k -= 1;
        page.fit_row(k, row.cells(), row.wrapped());
    }
}

/// Returns the scrollback offset after `count` rows have been appended. An `offset` of 0 stays 0;
/// any other offset grows by `count`, but not beyond `len`, the number of rows now in scrollback.
fn followed(offset: usize, count: usize, len: usize) -> usize
    ensures { result ≡ (if offset == 0 then 0 else min (offset + count) len) }
{
    if offset == 0 {
        0
    } else {
        offset.saturating_add(count).min(len)
    }
}

/// Returns the number of displayed scrollback rows that are narrower than the screen. The displayed
/// rows are those that a screen of the given size displays if row `first` of `rows` is at its top.
fn narrow_rows(rows: &VecDeque<Row>, first: usize, size: Size) -> usize
    requires { first < 2 ^ 64 - 2 ^ 16 }
    ensures value { result ≡ narrow_rows size.cols (window_from first size.rows rows.now.items) }
    ensures few { result ≤ size.rows }
{
    let end = rows.len().min(first + usize::from(size.rows));
    let mut count = 0;
    for k in first..end {
        count += narrow(&rows[k], usize::from(size.cols));
    }
    count
}

/// Returns 1 if the row has fewer than `columns` columns, otherwise 0.
fn narrow(row: &Row, columns: usize) -> usize
    ensures { result ≡ (if nat_lt (length row.now.cells) columns then 1 else 0) }
{
    if row.cols() < columns { 1 } else { 0 }
}

/// Extends displayed scrollback rows that are narrower than the screen to its width. The displayed
/// rows are those that a screen of the given size displays at the given offset. `spare` must hold a
/// blank row as wide as the screen for each row that is extended.
fn grow_in_view(rows: &mut VecDeque<Row>, offset: usize, size: Size, mut spare: Vec<Row>)
    requires inside { offset ≤ length rows.old.items }
    requires sound { AreRows rows.old.items }
    requires spare { AreSpare size.cols
        (window_from (length rows.old.items - offset) size.rows rows.old.items) spare.items }
    ensures { rows.new.items ≡ grown_from (length rows.old.items - offset) size.rows size.cols rows.old.items }
{
    let len = rows.len();
    let first = len - offset;
    let end = len.min(first + usize::from(size.rows));
    for k in first..end {
        grow_row(&mut rows[k], usize::from(size.cols), &mut spare);
    }
}

/// Widens a row that has fewer than `columns` columns: takes a blank row from `spare`, moves the
/// cells into it, and replaces the row with it. A row that is already wide enough is unchanged.
fn grow_row(row: &mut Row, columns: usize, spare: &mut Vec<Row>)
    requires sound { IsRow (length row.old.cells) row.old }
    requires spare { AreSpare columns (row.old ∷ []) spare.old.items }
    ensures row { row.new ≡ grown_row columns row.old }
    ensures spare { (rows : List RowValue) → AreSpare columns (row.old ∷ rows) spare.old.items →
        AreSpare columns rows spare.new.items }
{
    if row.cols() >= columns {
        return;
    }
    if let Some(blank) = spare.pop() {
        let from = mem::replace(row, blank);
        row.refit(from);
    }
}
