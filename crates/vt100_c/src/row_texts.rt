//! The concatenated text of rows, with the index at which the text of each row
//! ends.

ghost use Rattle.std.specs.Prelude.{◌≡◌, ◌<◌, ◌≤◌, ◌++◌, IfOk, OnOk, length, slice_set, string_bytes};
ghost use Rattle.vt_cells.specs.Refusals.{OnlyOutOfMemory};
ghost use Rattle.vt_grid.specs.Page.{SameSize};
ghost use Rattle.vt100_c.specs.Rows.{FitRows, JoinsTexts, plain_rows};
ghost use Rattle.vt_screen.specs.RowsShown.{changed_rows, formatted_rows};

use std::alloc::Global;
use vt100::{Error, Screen};

/// Returns the concatenated plain text of the displayed rows, in `width`
/// columns starting at `start`. Stores in `ends` the index at which the text of
/// each row ends.
///
/// # Errors
///
/// Returns [`Error::OutOfMemory`] if the text cannot be allocated.
pub(crate) fn plain(
    alloc: Global,
    screen: &Screen,
    start: u16,
    width: u16,
    ends: &mut [usize],
) -> Result<String, Error>
    requires { length screen.now.page.rows ≤ length ends.old }
    ensures joined { IfOk result (λ text. JoinsTexts (length screen.now.page.rows)
        (plain_rows start width screen.now) (string_bytes text) ends.new) }
    ensures memory { OnlyOutOfMemory result }
{
    let mut joined = String::new(alloc);
    let mut rows = screen.rows(start, width);
    let mut row = 0;
    while let Some(item) = rows.next() {
        let text = item?;
        add(&mut joined, ends, row, &text)?;
        row += 1;
    }
    Ok(joined)
}

/// Returns the concatenated output that draws each displayed row on a blank
/// row, in `width` columns starting at `start`. Stores in `ends` the index at
/// which the output for each row ends.
///
/// # Errors
///
/// Returns [`Error::OutOfMemory`] if the output cannot be allocated.
pub(crate) fn formatted(
    alloc: Global,
    screen: &Screen,
    start: u16,
    width: u16,
    ends: &mut [usize],
) -> Result<String, Error>
    requires { FitRows start (length ends.old) screen.now }
    ensures joined { IfOk result (λ text. JoinsTexts (length screen.now.page.rows)
        (formatted_rows start width screen.now) (string_bytes text) ends.new) }
    ensures memory { OnlyOutOfMemory result }
{
    let mut joined = String::new(alloc);
    let mut rows = screen.rows_formatted(start, width);
    let mut row = 0;
    while let Some(item) = rows.next() {
        let text = item?;
        add(&mut joined, ends, row, &text)?;
        row += 1;
    }
    Ok(joined)
}

/// Returns the concatenated output that turns each displayed row of `prev` into
/// the corresponding row of `screen`, in the columns of `range` (the first
/// column and the number of columns). Stores in `ends` the index at which the
/// output for each row ends.
///
/// # Errors
///
/// Returns [`Error::OutOfMemory`] if the output cannot be allocated.
pub(crate) fn changed(
    alloc: Global,
    screen: &Screen,
    prev: &Screen,
    range: (u16, u16),
    ends: &mut [usize],
) -> Result<String, Error>
    requires rows { FitRows range.0 (length ends.old) screen.now }
    requires size { SameSize screen.now.page prev.now.page }
    ensures joined { IfOk result (λ text. JoinsTexts (length screen.now.page.rows)
        (changed_rows range.0 range.1 screen.now prev.now) (string_bytes text) ends.new) }
    ensures memory { OnlyOutOfMemory result }
{
    let mut joined = String::new(alloc);
    let mut rows = screen.rows_diff(prev, range.0, range.1);
    let mut row = 0;
    while let Some(item) = rows.next() {
        let text = item?;
        add(&mut joined, ends, row, &text)?;
        row += 1;
    }
    Ok(joined)
}

/// Appends `text`, the text of a row, to `joined`, and stores in `ends[row]` the index at which the
/// text ends.
///
/// # Errors
///
/// Returns [`Error::OutOfMemory`] if the text cannot be allocated.
fn add(joined: &mut String, ends: &mut [usize], row: usize, text: &str) -> Result<(), Error>
    requires { row < length ends.old }
    ensures text { OnOk result (string_bytes joined.new ≡ string_bytes joined.old ++ text.now) }
    ensures ends { OnOk result (ends.new ≡ slice_set ends.old row (length (string_bytes joined.old ++ text.now))) }
    ensures memory { OnlyOutOfMemory result }
{
    if joined.push_str(text).is_err() {
        return Err(Error::OutOfMemory);
    }
    ends[row] = joined.len();
    Ok(())
}
