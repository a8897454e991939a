//! Functions that create, copy and extend lists of rows, and that report rows dropped from a page
//! or scrollback.

ghost use Rattle.std.specs.Prelude.{◌≡◌, ◌<◌, ◌++◌, [], IfOk, IsErr, OnErr, OnOk};
ghost use Rattle.std.specs.Prelude.{drop, length, map, replicate, take};
ghost use Rattle.std.specs.List.{FoldsTo};
ghost use Rattle.vt_cells.specs.Attrs.{default_attrs};
ghost use Rattle.vt_cells.specs.Refusals.{OnlyOutOfMemory};
ghost use Rattle.vt_rows.specs.Row.{blank_row, trimmed_row};
ghost use Rattle.vt_grid.specs.PageRows.{HasRows};
ghost use Rattle.vt_grid.specs.Sending.{FailsUnchanged};
ghost use Rattle.vt_grid.specs.Internals.{AreRows, OldestIsShorter};

use crate::page_rows::PageRows;
use std::alloc::Global;
use std::collections::VecDeque;
use vt_cells::Error;
use vt_rows::capture::trimmed;
use vt_rows::{Leaving, Row};

/// Creates a list of `count` rows, each with `columns` default blanks.
///
/// # Errors
///
/// Returns [`Error::OutOfMemory`] if the rows cannot be allocated.
pub fn blank_rows(alloc: Global, columns: usize, count: usize) -> Result<Vec<Row>, Error>
    ensures ok { IfOk result (λ rows. rows.items ≡ replicate count (blank_row default_attrs columns)) }
    ensures grows { IsErr result → 0 < count }
    ensures memory { OnlyOutOfMemory result }
{
    let mut rows = Vec::with_capacity(alloc, count)?;
    for _row in 0..count {
        rows.push_reserved(Row::new(alloc, columns)?);
    }
    Ok(rows)
}

/// Creates a list of copies of the first `count` rows of a page, each without the default blanks at
/// its end.
///
/// # Errors
///
/// Returns [`Error::OutOfMemory`] if the copies cannot be allocated.
pub fn trimmed_rows(alloc: Global, page: &PageRows, count: usize) -> Result<Vec<Row>, Error>
    requires { HasRows count page.now }
    ensures ok { IfOk result (λ copies. copies.items ≡ map trimmed_row (take count page.now.rows)) }
    ensures memory { OnlyOutOfMemory result }
{
    let mut copies = Vec::with_capacity(alloc, count)?;
    for k in 0..count {
        let row = page.row(k);
        let cells = page.used_cells(k);
        copies.push_reserved(Row::trimmed_copy(alloc, cells, row.wrapped())?);
    }
    Ok(copies)
}

/// Returns a copy of a list of rows.
///
/// # Errors
///
/// Returns [`Error::OutOfMemory`] if the copy cannot be allocated.
pub fn copied_rows(rows: &VecDeque<Row>, alloc: Global) -> Result<VecDeque<Row>, Error>
    ensures ok { IfOk result (λ copies. copies.items ≡ rows.now.items) }
    ensures memory { OnlyOutOfMemory result }
{
    let mut copies = VecDeque::new(alloc);
    copies.reserve(rows.len())?;
    for k in 0..rows.len() {
        copies.push_back_reserved(rows[k].try_clone(alloc)?);
    }
    Ok(copies)
}

/// Appends to `rows` a copy of the first row of a page, without the default blanks at the end of
/// that row.
///
/// # Errors
///
/// Returns [`Error::OutOfMemory`] if the copy cannot be allocated. On error, nothing is changed.
pub fn push_copy(alloc: Global, rows: &mut VecDeque<Row>, page: &PageRows) -> Result<(), Error>
    requires { HasRows 1 page.now }
    ensures rows { OnOk result (rows.new.items ≡ rows.old.items ++ map trimmed_row (take 1 page.now.rows)) }
    ensures err { OnErr result (rows.new.items ≡ rows.old.items) }
    ensures memory { OnlyOutOfMemory result }
{
    let row = page.row(0);
    let copy = Row::trimmed_copy(alloc, page.used_cells(0), row.wrapped())?;
    rows.reserve(1)?;
    rows.push_back_reserved(copy);
    Ok(())
}

/// Passes the oldest row to `leaving`, and reuses the row's memory for a copy of the first row of a
/// page. The copy becomes the newest row; trailing default blanks are not copied.
///
/// # Errors
///
/// Returns [`Error::OutOfMemory`] if the copy is wider than the oldest row and the allocation
/// fails. On error, nothing is changed and no row is passed to `leaving`.
pub fn recycle_oldest<L: Leaving>(
    rows: &mut VecDeque<Row>,
    page: &PageRows,
    leaving: &mut L,
) -> Result<(), Error>
    requires nonempty { 0 < length rows.old.items }
    requires page { HasRows 1 page.now }
    requires sound { AreRows rows.old.items }
    ensures rows { OnOk result (rows.new.items ≡ drop 1 rows.old.items ++ map trimmed_row (take 1 page.now.rows)) }
    ensures reported { OnOk result (FoldsTo L.leaves leaving.old (take 1 rows.old.items) leaving.new) }
    ensures refused { FailsUnchanged rows.old.items leaving.old rows.new.items leaving.new result }
    ensures grows { IsErr result → OldestIsShorter page.now.rows rows.old.items }
{
    let row = page.row(0);
    let cells = page.used_cells(0);
    // The row moves before it is filled: a move right after it would wait for the cells just
    // written to reach memory.
    rows.rotate_left(1);
    let newest = rows.len() - 1;
    if let Err(error) = rows[newest].leave_for(cells, row.wrapped(), leaving) {
        rows.rotate_right(1);
        return Err(error);
    }
    Ok(())
}

/// Removes all rows from `rows` and passes them to `leaving`, oldest first.
pub fn report_all<L: Leaving>(rows: &mut VecDeque<Row>, leaving: &mut L)
    requires { AreRows rows.old.items }
    ensures rows { rows.new.items ≡ [] }
    ensures reported { FoldsTo L.leaves leaving.old rows.old.items leaving.new }
{
    while let Some(row) = rows.pop_front() {
        leaving.leave(row.contents());
    }
}

/// Passes the first `count` rows of a page to `leaving`, each without the default blanks at its
/// end. Does nothing if `leaving` wants no rows.
#[tactic(auto, using(vt_rows::proofs::RowTexts::folds_unchanged))]
pub fn report_trimmed<L: Leaving>(page: &PageRows, count: usize, leaving: &mut L)
    requires { HasRows count page.now }
    ensures { FoldsTo L.leaves leaving.old (map trimmed_row (take count page.now.rows)) leaving.new }
{
    if !leaving.wants() {
        return;
    }
    for k in 0..count {
        let row = page.row(k);
        leaving.leave(trimmed(&row));
    }
}
