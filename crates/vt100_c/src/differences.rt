//! Output that turns the display of one screen into that of another.

ghost use Rattle.std.specs.Prelude.{◌≡◌, Some, string_bytes};
ghost use Rattle.vt100_c.specs.Due.{IsAnswer, OnBoth, any_screens, due_at_both, due_beside, due_on_both, sizes_status};
ghost use Rattle.vt100_c.specs.Texts.{HasDifference, IsDifference, KeepsBoth, KeepsText, MakesDifference, due_for_both};
ghost use Rattle.vt100_c.specs.Texts.{options_of};
ghost use Rattle.vt100_c.specs.Held.{screen_in};
ghost use Rattle.vt100_c.specs.Status.{ok, out_of_memory};
ghost use Rattle.vt100_c.specs.declared.output.Difference.TheVariants as between;

use crate::handle::Handle;
use crate::object::{Object, Source};
use crate::output::{Difference, difference_in, keep, options_in};
use crate::status::{BAD_ARGUMENT, NO_OBJECT};
use std::alloc::Global;

/// Generates the escape sequences that turn the display of `prev` into that of
/// `handle`'s screen ([`vt100::Screen::contents_diff`]). Stores them in
/// `handle` and their length in `len`.
///
/// # Errors
///
/// Returns `NO_OBJECT` if a handle is empty, `WRONG_KIND` if a handle holds
/// neither a parser nor a saved screen, `OTHER_SIZE` if the two screens differ
/// in size, `BAD_ARGUMENT` if the same handle is passed twice, or
/// `OUT_OF_MEMORY` if the output cannot be allocated. On error, nothing is
/// changed.
#[unsafe(no_mangle)]
pub extern "C" fn vt100_contents_diff(
    alloc: Global,
    handle: &mut Handle,
    prev: &mut Handle,
    len: &mut usize,
) -> u8
    ensures answer { IsAnswer (due_at_both sizes_status handle.old.held prev.old.held) result }
    ensures text { MakesDifference between.Contents handle.old.held prev.old.held result handle.new.held }
    ensures keeps { KeepsBoth handle.old.held prev.old.held result handle.new.held prev.new.held len.old len.new }
{
    make(alloc, handle, prev, Difference::Contents, len)
}

/// Generates the escape sequences that turn the display of `prev` into that of `handle`'s screen.
/// The output may begin by moving rows or columns ([`vt100::Screen::contents_diff_scrolling`]).
/// Stores the output in `handle` and its length in `len`.
///
/// # Errors
///
/// Returns `NO_OBJECT` if a handle is empty, `WRONG_KIND` if a handle holds neither a parser nor a
/// saved screen, `OTHER_SIZE` if the two screens differ in size, `BAD_ARGUMENT` if the same handle
/// is passed twice, or `OUT_OF_MEMORY` if the output cannot be allocated. On error, nothing is
/// changed.
#[unsafe(no_mangle)]
pub extern "C" fn vt100_contents_diff_scrolling(
    alloc: Global,
    handle: &mut Handle,
    prev: &mut Handle,
    len: &mut usize,
) -> u8
    ensures answer { IsAnswer (due_at_both sizes_status handle.old.held prev.old.held) result }
    ensures text { MakesDifference between.Scrolling handle.old.held prev.old.held result handle.new.held }
    ensures keeps { KeepsBoth handle.old.held prev.old.held result handle.new.held prev.new.held len.old len.new }
{
    make(alloc, handle, prev, Difference::Scrolling, len)
}

/// Generates the escape sequences that turn the display of `prev` into that of `handle`'s screen,
/// with options ([`vt100::Screen::contents_diff_with`]). Bit 0 of `options` allows the output to
/// begin by moving rows or columns, bit 1 allows REP, bit 2 allows REP for printable ASCII
/// characters only, and bit 3 makes the output portable; the other bits are ignored. Stores the
/// output in `handle` and its length in `len`.
///
/// # Errors
///
/// Returns `NO_OBJECT` if a handle is empty, `WRONG_KIND` if a handle holds neither a parser nor a
/// saved screen, `OTHER_SIZE` if the two screens differ in size, `BAD_ARGUMENT` if the same handle
/// is passed twice, or `OUT_OF_MEMORY` if the output cannot be allocated. On error, nothing is
/// changed.
#[unsafe(no_mangle)]
pub extern "C" fn vt100_contents_diff_with(
    alloc: Global,
    handle: &mut Handle,
    prev: &mut Handle,
    options: u8,
    len: &mut usize,
) -> u8
    ensures answer { IsAnswer (due_at_both sizes_status handle.old.held prev.old.held) result }
    ensures text { MakesDifference (between.With (options_of options)) handle.old.held prev.old.held result handle.new.held }
    ensures keeps { KeepsBoth handle.old.held prev.old.held result handle.new.held prev.new.held len.old len.new }
{
    let chosen = options_in(options);
    make(alloc, handle, prev, Difference::With(chosen), len)
}

/// Generates the escape sequences that turn the display and input modes of
/// `prev` into those of `handle`'s screen ([`vt100::Screen::state_diff`]).
/// Stores them in `handle` and their length in `len`.
///
/// # Errors
///
/// Returns `NO_OBJECT` if a handle is empty, `WRONG_KIND` if a handle holds
/// neither a parser nor a saved screen, `OTHER_SIZE` if the two screens differ
/// in size, `BAD_ARGUMENT` if the same handle is passed twice, or
/// `OUT_OF_MEMORY` if the output cannot be allocated. On error, nothing is
/// changed.
#[unsafe(no_mangle)]
pub extern "C" fn vt100_state_diff(
    alloc: Global,
    handle: &mut Handle,
    prev: &mut Handle,
    len: &mut usize,
) -> u8
    ensures answer { IsAnswer (due_at_both sizes_status handle.old.held prev.old.held) result }
    ensures text { MakesDifference between.State handle.old.held prev.old.held result handle.new.held }
    ensures keeps { KeepsBoth handle.old.held prev.old.held result handle.new.held prev.new.held len.old len.new }
{
    make(alloc, handle, prev, Difference::State, len)
}

/// Generates the escape sequences that turn the display and input modes of `prev` into those of
/// `handle`'s screen, with options ([`vt100::Screen::state_diff_with`]). The bits of `options` are
/// those of [`vt100_contents_diff_with`]. Stores the output in `handle` and its length in `len`.
///
/// # Errors
///
/// Returns `NO_OBJECT` if a handle is empty, `WRONG_KIND` if a handle holds neither a parser nor a
/// saved screen, `OTHER_SIZE` if the two screens differ in size, `BAD_ARGUMENT` if the same handle
/// is passed twice, or `OUT_OF_MEMORY` if the output cannot be allocated. On error, nothing is
/// changed.
#[unsafe(no_mangle)]
pub extern "C" fn vt100_state_diff_with(
    alloc: Global,
    handle: &mut Handle,
    prev: &mut Handle,
    options: u8,
    len: &mut usize,
) -> u8
    ensures answer { IsAnswer (due_at_both sizes_status handle.old.held prev.old.held) result }
    ensures text { MakesDifference (between.StateWith (options_of options)) handle.old.held prev.old.held result handle.new.held }
    ensures keeps { KeepsBoth handle.old.held prev.old.held result handle.new.held prev.new.held len.old len.new }
{
    let chosen = options_in(options);
    make(alloc, handle, prev, Difference::StateWith(chosen), len)
}

/// Generates the escape sequences that change the input modes of `prev` to
/// those of `handle`'s screen ([`vt100::Screen::input_mode_diff`]). Stores them
/// in `handle` and their length in `len`.
///
/// # Errors
///
/// Returns `NO_OBJECT` if a handle is empty, `WRONG_KIND` if a handle holds
/// neither a parser nor a saved screen, `BAD_ARGUMENT` if the same handle is
/// passed twice, or `OUT_OF_MEMORY` if the output cannot be allocated. On
/// error, nothing is changed.
#[unsafe(no_mangle)]
pub extern "C" fn vt100_input_mode_diff(
    alloc: Global,
    handle: &mut Handle,
    prev: &mut Handle,
    len: &mut usize,
) -> u8
    ensures answer { IsAnswer (due_at_both any_screens handle.old.held prev.old.held) result }
    ensures text { MakesDifference between.InputMode handle.old.held prev.old.held result handle.new.held }
    ensures keeps { KeepsBoth handle.old.held prev.old.held result handle.new.held prev.new.held len.old len.new }
{
    make(alloc, handle, prev, Difference::InputMode, len)
}

/// Generates a diff of the given kind from the screen in `prev` to the screen in `handle`. Stores
/// it in `handle` and its length in `len`, and returns the status code.
fn make(
    alloc: Global,
    handle: &mut Handle,
    prev: &mut Handle,
    difference: Difference,
    len: &mut usize,
) -> u8
    ensures answer { IsAnswer (due_at_both (due_for_both difference) handle.old.held prev.old.held) result }
    ensures text { MakesDifference difference handle.old.held prev.old.held result handle.new.held }
    ensures keeps { KeepsBoth handle.old.held prev.old.held result handle.new.held prev.new.held len.old len.new }
{
    if !handle.is_full() || !prev.is_full() {
        return NO_OBJECT;
    }
    let mut object = handle.take_out(alloc);
    let status = make_beside(alloc, &mut object, prev, difference, len);
    handle.put_back(object);
    status
}

/// Generates a diff of the given kind from the screen in `prev` to the screen of `object`. Stores
/// it in the object and its length in `len`.
///
/// While output is being stored in an object, its handle is empty. So if `prev` is empty, the
/// caller passed the same handle twice, and the function returns `BAD_ARGUMENT`. Otherwise, it
/// returns the status code of [`renew`].
fn make_beside(
    alloc: Global,
    object: &mut Object,
    prev: &mut Handle,
    difference: Difference,
    len: &mut usize,
) -> u8
    ensures answer { IsAnswer (due_beside (due_for_both difference) (screen_in object.old.source) prev.old.held) result }
    ensures text { MakesDifference difference (Some object.old) prev.old.held result (Some object.new) }
    ensures keeps { KeepsBoth (Some object.old) prev.old.held result (Some object.new) prev.new.held len.old len.new }
{
    if !prev.is_full() {
        return BAD_ARGUMENT;
    }
    let other = prev.take_out(alloc);
    let status = renew(object, &other.source, difference, len);
    prev.put_back(other);
    status
}

/// Generates a diff of the given kind from the screen of `prev` to the screen of `object`. Stores
/// it in the object and its length in `len`, and returns the status code.
fn renew(object: &mut Object, prev: &Source, difference: Difference, len: &mut usize) -> u8
    ensures source { object.new.source ≡ object.old.source }
    ensures answer { IsAnswer
        (due_on_both (due_for_both difference) (screen_in object.old.source) (screen_in prev.now)) result }
    ensures nonempty { result ≡ out_of_memory →
        OnBoth (screen_in object.old.source) (screen_in prev.now) (HasDifference difference) }
    ensures text { result ≡ ok → OnBoth (screen_in object.old.source) (screen_in prev.now)
        (λ screen before. IsDifference difference screen before (string_bytes object.new.text)) }
    ensures keeps { KeepsText (Some object.old) result (Some object.new) len.old len.new }
{
    let made = difference_in(&object.source, prev, difference);
    keep(&mut object.text, made, len)
}
