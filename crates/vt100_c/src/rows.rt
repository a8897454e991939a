//! The concatenated text of the displayed rows.

ghost use Rattle.std.specs.Prelude.{◌≡◌, ◌<◌, ◌≤◌, IfErr, IfOk, length, string_bytes};
ghost use Rattle.std.specs.Prelude.{drop, if◌then◌else◌, take, true};
ghost use Rattle.vt100_c.specs.Due.{AnswersOrStays, IsAnswer, IsSomeAnd, due_at, due_on};
ghost use Rattle.vt100_c.specs.Texts.{KeepsText};
ghost use Rattle.vt100_c.specs.Rows.{MakesRows, GivesRows, places_status, range_status, plain_rows};
ghost use Rattle.vt100_c.specs.Held.{screen_in};
ghost use Rattle.vt100_c.specs.Status.{bad_argument, ok, out_of_memory};
ghost use Rattle.vt_screen.specs.RowsShown.{formatted_rows};

use crate::handle::Handle;
use crate::object::{Source, screen_of};
use crate::output::{keep, or_status};
use crate::row_texts;
use crate::status::{BAD_ARGUMENT, NO_OBJECT, OUT_OF_MEMORY, WRONG_KIND};
use std::alloc::Global;
use vt100::Screen;

/// Generates the plain text of each displayed row, in `width` columns starting at `start`
/// ([`Screen::rows`]). Stores the concatenated text in the handle, its length in `len`, and the end
/// index of each row's text in `ends`.
///
/// `ends` must have an element for each row. Any further elements are unchanged.
///
/// # Errors
///
/// Returns `NO_OBJECT` if the handle is empty, `WRONG_KIND` if it holds neither
/// a parser nor a saved screen, `BAD_ARGUMENT` if `ends` is too short, or
/// `OUT_OF_MEMORY` if the text cannot be allocated. On error, nothing is
/// changed.
#[unsafe(no_mangle)]
pub extern "C" fn vt100_rows(
    alloc: Global,
    handle: &mut Handle,
    start: u16,
    width: u16,
    ends: &mut [usize],
    len: &mut usize,
) -> u8
    ensures answer { IsAnswer (due_at (places_status (length ends.old)) handle.old.held) result }
    ensures rows { MakesRows (plain_rows start width) handle.old.held result handle.new.held ends.old ends.new }
    ensures keeps { KeepsText handle.old.held result handle.new.held len.old len.new }
{
    if !handle.is_full() {
        return NO_OBJECT;
    }
    let mut object = handle.take_out(alloc);
    let made = plain_in(alloc, &object.source, start, width, ends);
    let status = keep(&mut object.text, made, len);
    handle.put_back(object);
    status
}

/// Generates the escape sequences that draw each displayed row on a blank row, in `width` columns
/// starting at `start` ([`Screen::rows_formatted`]). Stores their concatenation in the handle, its
/// length in `len`, and the end index of each row's output in `ends`.
///
/// `ends` must have an element for each row. Any further elements are unchanged.
///
/// # Errors
///
/// Returns `NO_OBJECT` if the handle is empty, `WRONG_KIND` if it holds neither
/// a parser nor a saved screen, `BAD_ARGUMENT` if `start` is not a column of
/// the screen or `ends` is too short, or `OUT_OF_MEMORY` if the output cannot
/// be allocated. On error, nothing is changed.
#[unsafe(no_mangle)]
pub extern "C" fn vt100_rows_formatted(
    alloc: Global,
    handle: &mut Handle,
    start: u16,
    width: u16,
    ends: &mut [usize],
    len: &mut usize,
) -> u8
    ensures answer { IsAnswer (due_at (range_status start (length ends.old)) handle.old.held) result }
    ensures rows { MakesRows (formatted_rows start width) handle.old.held result handle.new.held ends.old ends.new }
    ensures keeps { KeepsText handle.old.held result handle.new.held len.old len.new }
{
    if !handle.is_full() {
        return NO_OBJECT;
    }
    let mut object = handle.take_out(alloc);
    let made = formatted_in(alloc, &object.source, start, width, ends);
    let status = keep(&mut object.text, made, len);
    handle.put_back(object);
    status
}

/// Returns the concatenated plain text of the displayed rows of a source, in `width` columns
/// starting at `start`. Stores in `ends` the index at which the text of each row ends. Returns
/// `WRONG_KIND` if the source has no screen, `BAD_ARGUMENT` if `ends` is too short, or
/// `OUT_OF_MEMORY` if an allocation fails.
fn plain_in(
    alloc: Global,
    source: &Source,
    start: u16,
    width: u16,
    ends: &mut [usize],
) -> Result<String, u8>
    ensures rows { IfOk result (λ made. IsSomeAnd (screen_in source.now) (λ screen.
        GivesRows screen (plain_rows start width screen) (string_bytes made) ends.old ends.new)) }
    ensures answer { AnswersOrStays
        (due_on (places_status (length ends.old)) (screen_in source.now)) result (ends.new ≡ ends.old) }
{
    match screen_of(source) {
        Some(screen) => plain_of(alloc, screen, start, width, ends),
        None => Err(WRONG_KIND),
    }
}

/// Returns the concatenated plain text of the displayed rows of a screen, in `width` columns
/// starting at `start`. Stores in `ends` the index at which the text of each row ends. Returns
/// `BAD_ARGUMENT` if `ends` is too short, or `OUT_OF_MEMORY` if an allocation fails.
fn plain_of(
    alloc: Global,
    screen: &Screen,
    start: u16,
    width: u16,
    ends: &mut [usize],
) -> Result<String, u8>
    ensures rows { IfOk result (λ made.
        GivesRows screen.now (plain_rows start width screen.now) (string_bytes made) ends.old ends.new) }
    ensures answer { AnswersOrStays (places_status (length ends.old) screen.now) result (ends.new ≡ ends.old) }
{
    if !has_places(screen, ends) {
        return Err(BAD_ARGUMENT);
    }
    let mut places = places_for(alloc, screen)?;
    let text = or_status(row_texts::plain(alloc, screen, start, width, places.as_mut_slice()))?;
    write_ends(places.as_slice(), ends);
    Ok(text)
}

/// Returns the output that draws the displayed rows of a source on blank rows, in `width` columns
/// starting at `start`. Stores in `ends` the index at which the output for each row ends. Returns
/// `WRONG_KIND` if the source has no screen, `BAD_ARGUMENT` if `ends` is too short or `start` is
/// not a column of the screen, or `OUT_OF_MEMORY` if an allocation fails.
fn formatted_in(
    alloc: Global,
    source: &Source,
    start: u16,
    width: u16,
    ends: &mut [usize],
) -> Result<String, u8>
    ensures rows { IfOk result (λ made. IsSomeAnd (screen_in source.now) (λ screen.
        GivesRows screen (formatted_rows start width screen) (string_bytes made) ends.old ends.new)) }
    ensures answer { AnswersOrStays
        (due_on (range_status start (length ends.old)) (screen_in source.now)) result (ends.new ≡ ends.old) }
{
    match screen_of(source) {
        Some(screen) => formatted_of(alloc, screen, start, width, ends),
        None => Err(WRONG_KIND),
    }
}

/// Returns the output that draws the displayed rows of a screen on blank rows, in `width` columns
/// starting at `start`. Stores in `ends` the index at which the output for each row ends. Returns
/// `BAD_ARGUMENT` if `ends` is too short or `start` is not a column of the screen, or
/// `OUT_OF_MEMORY` if an allocation fails.
fn formatted_of(
    alloc: Global,
    screen: &Screen,
    start: u16,
    width: u16,
    ends: &mut [usize],
) -> Result<String, u8>
    ensures rows { IfOk result (λ made.
        GivesRows screen.now (formatted_rows start width screen.now) (string_bytes made) ends.old ends.new) }
    ensures answer { AnswersOrStays (range_status start (length ends.old) screen.now) result (ends.new ≡ ends.old) }
{
    if !has_range(screen, start, ends) {
        return Err(BAD_ARGUMENT);
    }
    let mut places = places_for(alloc, screen)?;
    let text = or_status(row_texts::formatted(alloc, screen, start, width, places.as_mut_slice()))?;
    write_ends(places.as_slice(), ends);
    Ok(text)
}

/// Returns whether `ends` has an element for each row of a screen.
fn has_places(screen: &Screen, ends: &[usize]) -> bool
    ensures yes { result ≡ true → length screen.now.page.rows ≤ length ends.now }
    ensures value { places_status (length ends.now) screen.now ≡ (if result then ok else bad_argument) }
{
    let (rows, _) = screen.size();
    usize::from(rows.get()) <= ends.len()
}

/// Returns whether `ends` has an element for each row of a screen, and `start`
/// is a column of the screen.
pub(crate) fn has_range(screen: &Screen, start: u16, ends: &[usize]) -> bool
    ensures yes { result ≡ true → length screen.now.page.rows ≤ length ends.now }
    ensures start { result ≡ true → start < screen.now.page.width }
    ensures value { range_status start (length ends.now) screen.now ≡ (if result then ok else bad_argument) }
{
    let (_, cols) = screen.size();
    start < cols.get() && has_places(screen, ends)
}

/// Returns a vector with an element for each row of a screen. The end index of each row's text is
/// first stored in this vector, so that the caller's array is unchanged if an allocation fails for
/// a later row.
///
/// # Errors
///
/// Returns `OUT_OF_MEMORY` if the vector cannot be allocated.
pub(crate) fn places_for(alloc: Global, screen: &Screen) -> Result<Vec<usize>, u8>
    ensures len { IfOk result (λ places. length places.items ≡ length screen.now.page.rows) }
    ensures memory { IfErr result (λ status. status ≡ out_of_memory) }
{
    let (rows, _) = screen.size();
    let mut places = Vec::new(alloc);
    match places.resize(usize::from(rows.get()), 0) {
        Ok(()) => Ok(places),
        Err(_) => Err(OUT_OF_MEMORY),
    }
}

/// Copies the end index of each row from `places` to `ends`, the C caller's array. Any further
/// elements of `ends` are unchanged.
pub(crate) fn write_ends(places: &[usize], ends: &mut [usize])
    requires { length places.now ≤ length ends.old }
    ensures ends { take (length places.now) ends.new ≡ places.now }
    ensures rest { drop (length places.now) ends.new ≡ drop (length places.now) ends.old }
{
    ends[..places.len()].copy_from_slice(places);
}
