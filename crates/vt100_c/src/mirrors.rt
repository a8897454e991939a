//! Mirrors: terminals whose viewers display the same screen.

ghost use Rattle.std.specs.Prelude.{◌≡◌, IfSome, None, Some};
ghost use Rattle.vt100_c.specs.Calls.{OnObject, OnSource};
ghost use Rattle.vt100_c.specs.Due.{HoldsOne, IsSomeAnd, due_to, due_to_held};
ghost use Rattle.vt100_c.specs.Life.{Makes};
ghost use Rattle.vt100_c.specs.Viewing.{IsNewMirror, JoinsSource, LeavesSource, TellsCurrent, UpdatesObject, numbers};
ghost use Rattle.vt100_c.specs.Held.{mirror_in};
ghost use Rattle.vt100_c.specs.Status.{ok};
ghost use Rattle.vt100_c.specs.Texts.{options_of};
ghost use Rattle.vt_mirror.specs.Calls.{default_options, scrolling_options};

use crate::handle::Handle;
use crate::lifecycle::{hold, size_of};
use crate::object::{Object, Source};
use crate::output::options_in;
use crate::status::{BAD_ARGUMENT, IN_USE, NO_OBJECT, OK, OUT_OF_MEMORY, WRONG_KIND};
use crate::viewers;
use std::alloc::Global;
use vt_mirror::Mirror;
use vt100::DiffOptions;

/// Creates a mirror with a fresh screen and no viewers in the empty handle
/// `out`.
///
/// # Errors
///
/// Returns `IN_USE` if `out` is not empty, `BAD_ARGUMENT` if `rows` or `cols`
/// is 0, or `OUT_OF_MEMORY` if an allocation fails. On error, nothing is
/// changed.
#[unsafe(no_mangle)]
pub extern "C" fn vt100_mirror_new(
    alloc: Global,
    rows: u16,
    cols: u16,
    scrollback_capacity: usize,
    out: &mut Handle,
) -> u8
    ensures { Makes rows cols (IsNewMirror rows cols scrollback_capacity) out.old.held result out.new.held }
{
    if out.is_full() {
        return IN_USE;
    }
    let Some((some_rows, some_cols)) = size_of(rows, cols) else {
        return BAD_ARGUMENT;
    };
    match Mirror::new(alloc, some_rows, some_cols, scrollback_capacity) {
        Ok(mirror) => hold(alloc, Source::Mirror(mirror), out),
        Err(_) => OUT_OF_MEMORY,
    }
}

/// Adds a viewer to a mirror, and stores the number of the viewer in `viewer`.
///
/// # Errors
///
/// Returns `NO_OBJECT` if the handle is empty, `WRONG_KIND` if it holds no
/// mirror, `NO_NUMBER` if no viewer number is left, or `OUT_OF_MEMORY` if an
/// allocation fails. On error, nothing is changed.
#[unsafe(no_mangle)]
pub extern "C" fn vt100_join(alloc: Global, handle: &mut Handle, viewer: &mut u64) -> u8
    ensures call { OnSource (JoinsSource viewer.old viewer.new) handle.old.held result handle.new.held }
    ensures refused { ¬ (result ≡ ok) → viewer.new ≡ viewer.old }
{
    if !handle.is_full() {
        return NO_OBJECT;
    }
    let mut object = handle.take_out(alloc);
    let status = join(&mut object.source, viewer);
    handle.put_back(object);
    status
}

/// Removes a viewer from a mirror.
///
/// # Errors
///
/// Returns `NO_OBJECT` if the handle is empty, `WRONG_KIND` if it holds no
/// mirror, or `BAD_ARGUMENT` if there is no viewer whose number is `viewer`. On
/// error, nothing is changed.
#[unsafe(no_mangle)]
pub extern "C" fn vt100_leave(alloc: Global, handle: &mut Handle, viewer: u64) -> u8
    ensures { OnSource (LeavesSource viewer) handle.old.held result handle.new.held }
{
    if !handle.is_full() {
        return NO_OBJECT;
    }
    let mut object = handle.take_out(alloc);
    let status = leave(&mut object.source, viewer);
    handle.put_back(object);
    status
}

/// Generates the next update for a viewer. Stores its text in the handle and
/// its length in `len`. For a full update, stores the size of the screen in
/// `rows` and `cols`. For a diff, stores 0 in both `rows` and `cols`.
///
/// # Errors
///
/// Returns `NO_OBJECT` if the handle is empty, `WRONG_KIND` if it holds no
/// mirror, `BAD_ARGUMENT` if there is no viewer whose number is `viewer`, or
/// `OUT_OF_MEMORY` if an allocation fails. On error, nothing is changed.
#[unsafe(no_mangle)]
pub extern "C" fn vt100_update(
    alloc: Global,
    handle: &mut Handle,
    viewer: u64,
    rows: &mut u16,
    cols: &mut u16,
    len: &mut usize,
) -> u8
    ensures call { OnObject (UpdatesObject default_options viewer
        (numbers rows.old cols.old len.old) (numbers rows.new cols.new len.new)) handle.old.held result handle.new.held }
    ensures refused { ¬ (result ≡ ok) → numbers rows.new cols.new len.new ≡ numbers rows.old cols.old len.old }
{
    if !handle.is_full() {
        return NO_OBJECT;
    }
    let mut object = handle.take_out(alloc);
    let status = update(&mut object, viewer, rows, cols, len);
    handle.put_back(object);
    status
}

/// Generates the next update for a viewer, as [`vt100_update`] does, except
/// that a diff may begin by moving rows or columns. If the screen of the
/// viewer's last update was not steady, the update is a full one.
///
/// # Errors
///
/// Returns the same errors as [`vt100_update`].
#[unsafe(no_mangle)]
pub extern "C" fn vt100_update_scrolling(
    alloc: Global,
    handle: &mut Handle,
    viewer: u64,
    rows: &mut u16,
    cols: &mut u16,
    len: &mut usize,
) -> u8
    ensures call { OnObject (UpdatesObject scrolling_options viewer
        (numbers rows.old cols.old len.old) (numbers rows.new cols.new len.new)) handle.old.held result handle.new.held }
    ensures refused { ¬ (result ≡ ok) → numbers rows.new cols.new len.new ≡ numbers rows.old cols.old len.old }
{
    if !handle.is_full() {
        return NO_OBJECT;
    }
    let mut object = handle.take_out(alloc);
    let status = update_scrolling(&mut object, viewer, rows, cols, len);
    handle.put_back(object);
    status
}

/// Generates the next update for a viewer, as [`vt100_update`] does, with options for a diff
/// ([`Mirror::update_with`]). Bit 0 of `options` allows a diff to begin by moving rows or columns,
/// bit 1 allows REP, bit 2 allows REP for printable ASCII characters only, and bit 3 makes the
/// update portable, whether it is a diff or a full update; the other bits are ignored. With bit 0,
/// the update may be a full one, as with [`vt100_update_scrolling`].
///
/// # Errors
///
/// Returns the same errors as [`vt100_update`].
#[unsafe(no_mangle)]
pub extern "C" fn vt100_update_with(
    alloc: Global,
    handle: &mut Handle,
    viewer: u64,
    options: u8,
    rows: &mut u16,
    cols: &mut u16,
    len: &mut usize,
) -> u8
    ensures call { OnObject (UpdatesObject (options_of options) viewer
        (numbers rows.old cols.old len.old) (numbers rows.new cols.new len.new)) handle.old.held result handle.new.held }
    ensures refused { ¬ (result ≡ ok) → numbers rows.new cols.new len.new ≡ numbers rows.old cols.old len.old }
{
    if !handle.is_full() {
        return NO_OBJECT;
    }
    let chosen = options_in(options);
    let mut object = handle.take_out(alloc);
    let status = update_with(&mut object, viewer, chosen, rows, cols, len);
    handle.put_back(object);
    status
}

/// Stores 1 in `out` if a viewer is up to date, as defined by [`Mirror::is_current`], otherwise 0.
///
/// # Errors
///
/// Returns `NO_OBJECT` if the handle is empty, or `WRONG_KIND` if it holds no mirror. On error,
/// `out` is unchanged.
#[unsafe(no_mangle)]
pub extern "C" fn vt100_mirror_is_current(
    alloc: Global,
    handle: &mut Handle,
    viewer: u64,
    out: &mut u8,
) -> u8
    ensures same { handle.new.held ≡ handle.old.held }
    ensures status { result ≡ due_to_held mirror_in handle.old.held }
    ensures current { result ≡ ok → HoldsOne mirror_in handle.old.held (TellsCurrent viewer out.new) }
    ensures refused { ¬ (result ≡ ok) → out.new ≡ out.old }
{
    if !handle.is_full() {
        return NO_OBJECT;
    }
    let object = handle.take_out(alloc);
    let status = write_current(&object.source, viewer, out);
    handle.put_back(object);
    status
}

/// Adds a viewer to a mirror, and stores the number of the viewer in `viewer`. Returns `WRONG_KIND`
/// if the source is not a mirror, `NO_NUMBER` if no viewer number is left, or `OUT_OF_MEMORY` if an
/// allocation fails.
fn join(source: &mut Source, viewer: &mut u64) -> u8
    ensures call { JoinsSource viewer.old viewer.new source.old result source.new }
    ensures refused { ¬ (result ≡ ok) → viewer.new ≡ viewer.old }
{
    match source {
        Source::Mirror(mirror) => viewers::join(mirror, viewer),
        Source::Parser(_) => WRONG_KIND,
        Source::Screen(_) => WRONG_KIND,
        Source::Capture(_) => WRONG_KIND,
        Source::Charsets(_) => WRONG_KIND,
    }
}

/// Removes a viewer from a mirror. Returns `WRONG_KIND` if the source is not a mirror, or
/// `BAD_ARGUMENT` if there is no viewer whose number is `viewer`.
fn leave(source: &mut Source, viewer: u64) -> u8
    ensures { LeavesSource viewer source.old result source.new }
{
    match source {
        Source::Mirror(mirror) => viewers::leave(mirror, viewer),
        Source::Parser(_) => WRONG_KIND,
        Source::Screen(_) => WRONG_KIND,
        Source::Capture(_) => WRONG_KIND,
        Source::Charsets(_) => WRONG_KIND,
    }
}

/// Generates the next update for a viewer of a mirror, as [`vt100_update`]
/// does. Returns `WRONG_KIND` if the object is not a mirror.
fn update(object: &mut Object, viewer: u64, rows: &mut u16, cols: &mut u16, len: &mut usize) -> u8
    ensures call { UpdatesObject default_options viewer
        (numbers rows.old cols.old len.old) (numbers rows.new cols.new len.new) object.old result object.new }
    ensures refused { ¬ (result ≡ ok) → numbers rows.new cols.new len.new ≡ numbers rows.old cols.old len.old }
{
    match &mut object.source {
        Source::Mirror(mirror) => {
            let answer = mirror.update(viewer);
            viewers::hand_over(answer, &mut object.text, rows, cols, len)
        }
        Source::Parser(_) => WRONG_KIND,
        Source::Screen(_) => WRONG_KIND,
        Source::Capture(_) => WRONG_KIND,
        Source::Charsets(_) => WRONG_KIND,
    }
}

/// Generates the next update for a viewer of a mirror, as
/// [`vt100_update_scrolling`] does. Returns `WRONG_KIND` if the object is not a
/// mirror.
fn update_scrolling(
    object: &mut Object,
    viewer: u64,
    rows: &mut u16,
    cols: &mut u16,
    len: &mut usize,
) -> u8
    ensures call { UpdatesObject scrolling_options viewer
        (numbers rows.old cols.old len.old) (numbers rows.new cols.new len.new) object.old result object.new }
    ensures refused { ¬ (result ≡ ok) → numbers rows.new cols.new len.new ≡ numbers rows.old cols.old len.old }
{
    match &mut object.source {
        Source::Mirror(mirror) => {
            let answer = mirror.update_scrolling(viewer);
            viewers::hand_over(answer, &mut object.text, rows, cols, len)
        }
        Source::Parser(_) => WRONG_KIND,
        Source::Screen(_) => WRONG_KIND,
        Source::Capture(_) => WRONG_KIND,
        Source::Charsets(_) => WRONG_KIND,
    }
}

/// Generates the next update for a viewer of a mirror, as
/// [`vt100_update_with`] does. Returns `WRONG_KIND` if the object is not a
/// mirror.
fn update_with(
    object: &mut Object,
    viewer: u64,
    options: DiffOptions,
    rows: &mut u16,
    cols: &mut u16,
    len: &mut usize,
) -> u8
    ensures call { UpdatesObject options viewer
        (numbers rows.old cols.old len.old) (numbers rows.new cols.new len.new) object.old result object.new }
    ensures refused { ¬ (result ≡ ok) → numbers rows.new cols.new len.new ≡ numbers rows.old cols.old len.old }
{
    match &mut object.source {
        Source::Mirror(mirror) => {
            let answer = mirror.update_with(viewer, options);
            viewers::hand_over(answer, &mut object.text, rows, cols, len)
        }
        Source::Parser(_) => WRONG_KIND,
        Source::Screen(_) => WRONG_KIND,
        Source::Capture(_) => WRONG_KIND,
        Source::Charsets(_) => WRONG_KIND,
    }
}

/// Returns the mirror if the source is one, otherwise `None`.
fn mirror_of(source: &Source) -> Option<&Mirror>
    ensures some { IfSome result (λ mirror. mirror_in source.now ≡ Some mirror.now) }
    ensures none { result ≡ None → mirror_in source.now ≡ None }
{
    match source {
        Source::Mirror(mirror) => Some(mirror),
        Source::Parser(_) => None,
        Source::Screen(_) => None,
        Source::Capture(_) => None,
        Source::Charsets(_) => None,
    }
}

/// Stores 1 in `out` if a viewer is up to date, as defined by [`Mirror::is_current`], otherwise 0.
/// Returns `WRONG_KIND` if the source is not a mirror.
fn write_current(source: &Source, viewer: u64, out: &mut u8) -> u8
    ensures status { result ≡ due_to (mirror_in source.now) }
    ensures current { result ≡ ok → IsSomeAnd (mirror_in source.now) (TellsCurrent viewer out.new) }
    ensures refused { ¬ (result ≡ ok) → out.new ≡ out.old }
{
    match mirror_of(source) {
        Some(mirror) => {
            *out = viewers::current_bit(mirror, viewer);
            OK
        }
        None => WRONG_KIND,
    }
}
