//! Output that turns the rows of one screen into those of another.

ghost use Rattle.std.specs.Prelude.{◌≡◌, IfOk, length, string_bytes};
ghost use Rattle.vt100_c.specs.Due.{AnswersOrStays, IsAnswer, OnBoth, due_at_both, due_beside, due_on_both};
ghost use Rattle.vt100_c.specs.Texts.{KeepsBoth};
ghost use Rattle.vt100_c.specs.Rows.{ChangesRows, HoldBeside, GivesRows, ranges_status};
ghost use Rattle.vt100_c.specs.Held.{screen_in};
ghost use Rattle.vt_screen.specs.RowsShown.{changed_rows};

use crate::handle::Handle;
use crate::object::{Source, screen_of};
use crate::output::{is_sized_as, keep, or_status};
use crate::row_texts;
use crate::rows::{has_range, places_for, write_ends};
use crate::status::{BAD_ARGUMENT, NO_OBJECT, OTHER_SIZE, WRONG_KIND};
use std::alloc::Global;
use vt100::Screen;

/// Generates the escape sequences that turn each displayed row of `prev` into the corresponding row
/// of `handle`'s screen, in `width` columns starting at `start` ([`Screen::rows_diff`]). Stores
/// their concatenation in `handle`, its length in `len`, and the end index of each row's output in
/// `ends`.
///
/// `ends` must have an element for each row. Any further elements are unchanged.
///
/// # Errors
///
/// Returns `NO_OBJECT` if a handle is empty, `WRONG_KIND` if a handle holds
/// neither a parser nor a saved screen, `OTHER_SIZE` if the two screens differ
/// in size, `BAD_ARGUMENT` if the same handle is passed twice, `start` is not a
/// column of the screen or `ends` is too short, or `OUT_OF_MEMORY` if the
/// output cannot be allocated. On error, nothing is changed.
#[unsafe(no_mangle)]
pub extern "C" fn vt100_rows_diff(
    alloc: Global,
    handle: &mut Handle,
    prev: &mut Handle,
    start: u16,
    width: u16,
    ends: &mut [usize],
    len: &mut usize,
) -> u8
    ensures answer { IsAnswer (due_at_both (ranges_status start (length ends.old)) handle.old.held prev.old.held) result }
    ensures rows { ChangesRows start width handle.old.held prev.old.held result handle.new.held ends.old ends.new }
    ensures keeps { KeepsBoth handle.old.held prev.old.held result handle.new.held prev.new.held len.old len.new }
{
    if !handle.is_full() || !prev.is_full() {
        return NO_OBJECT;
    }
    let mut object = handle.take_out(alloc);
    let made = beside(alloc, &object.source, prev, (start, width), ends);
    let status = keep(&mut object.text, made, len);
    handle.put_back(object);
    status
}

/// Returns the output that turns the rows of the screen in `prev` into the rows of `source`.
/// `range` is the first column and the number of columns. Stores in `ends` the index at which the
/// output for each row ends.
///
/// While output is being stored in an object, its handle is empty. So if `prev` is empty, the
/// caller passed the same handle twice, and the function returns `BAD_ARGUMENT`. Otherwise, it
/// returns the same errors as [`changed_in`].
fn beside(
    alloc: Global,
    source: &Source,
    prev: &mut Handle,
    range: (u16, u16),
    ends: &mut [usize],
) -> Result<String, u8>
    ensures prev { prev.new.held ≡ prev.old.held }
    ensures rows { IfOk result (λ made. HoldBeside (screen_in source.now) prev.old.held (λ screen before.
        GivesRows screen (changed_rows range.0 range.1 screen before) (string_bytes made) ends.old ends.new)) }
    ensures answer { AnswersOrStays (due_beside (ranges_status range.0 (length ends.old))
        (screen_in source.now) prev.old.held) result (ends.new ≡ ends.old) }
{
    if !prev.is_full() {
        return Err(BAD_ARGUMENT);
    }
    let other = prev.take_out(alloc);
    let made = changed_in(alloc, source, &other.source, range, ends);
    prev.put_back(other);
    made
}

/// Returns the output that turns the rows of `prev` into the rows of `source`, in the columns of
/// `range` (the first column and the number of columns). Stores in `ends` the index at which the
/// output for each row ends. Returns `WRONG_KIND` if either source has no screen, or one of the
/// errors of [`changed_of`].
fn changed_in(
    alloc: Global,
    source: &Source,
    prev: &Source,
    range: (u16, u16),
    ends: &mut [usize],
) -> Result<String, u8>
    ensures rows { IfOk result (λ made. OnBoth (screen_in source.now) (screen_in prev.now) (λ screen before.
        GivesRows screen (changed_rows range.0 range.1 screen before) (string_bytes made) ends.old ends.new)) }
    ensures answer { AnswersOrStays (due_on_both (ranges_status range.0 (length ends.old))
        (screen_in source.now) (screen_in prev.now)) result (ends.new ≡ ends.old) }
{
    let Some(screen) = screen_of(source) else {
        return Err(WRONG_KIND);
    };
    match screen_of(prev) {
        Some(prev) => changed_of(alloc, screen, prev, range, ends),
        None => Err(WRONG_KIND),
    }
}

/// Returns the output that turns the rows of `prev` into the rows of `screen`, in the columns of
/// `range` (the first column and the number of columns). Stores in `ends` the index at which the
/// output for each row ends. Returns `OTHER_SIZE` if the two screens differ in size, `BAD_ARGUMENT`
/// if `ends` is too short or the range does not begin at a column of the screen, or `OUT_OF_MEMORY`
/// if an allocation fails.
fn changed_of(
    alloc: Global,
    screen: &Screen,
    prev: &Screen,
    range: (u16, u16),
    ends: &mut [usize],
) -> Result<String, u8>
    ensures rows { IfOk result (λ made. GivesRows screen.now
        (changed_rows range.0 range.1 screen.now prev.now) (string_bytes made) ends.old ends.new) }
    ensures answer { AnswersOrStays (ranges_status range.0 (length ends.old) screen.now prev.now) result (ends.new ≡ ends.old) }
{
    if !is_sized_as(screen, prev) {
        return Err(OTHER_SIZE);
    }
    if !has_range(screen, range.0, ends) {
        return Err(BAD_ARGUMENT);
    }
    let mut places = places_for(alloc, screen)?;
    let text = or_status(row_texts::changed(alloc, screen, prev, range, places.as_mut_slice()))?;
    write_ends(places.as_slice(), ends);
    Ok(text)
}
