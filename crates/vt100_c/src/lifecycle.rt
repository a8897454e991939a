//! Creating, saving, swapping and freeing the objects that handles hold.

ghost use Rattle.std.specs.Prelude.{◌≡◌, IfErr, IfOk, IfSome, None, Some, is_some, unwrap_or};
ghost use Rattle.vt100_c.specs.Calls.{Fills, is_size};
ghost use Rattle.vt100_c.specs.Due.{IsSomeAnd};
ghost use Rattle.vt100_c.specs.Life.{IsNewParser, IsShownCopy, Makes, Saves, SavesShown, Swaps};
ghost use Rattle.vt100_c.specs.Life.{refusal_of, refusal_on, saved_from, swap_status, with_other};
ghost use Rattle.vt100_c.specs.Held.{kind_held, screen_in};
ghost use Rattle.vt100_c.specs.Status.{out_of_memory};
ghost use Rattle.vt100_c.specs.declared.object.Source.TheVariants as source;

use crate::event_log::{DEFAULT_LIMIT, Events};
use crate::handle::Handle;
use crate::object::{Object, Source, kind_of, screen_of};
use crate::status::{BAD_ARGUMENT, IN_USE, NO_OBJECT, OK, OUT_OF_MEMORY, WRONG_KIND};
use std::alloc::Global;
use std::mem;
use std::num::NonZeroU16;
use vt100::{Parser, Screen};

/// Creates a parser with a fresh screen in the empty handle `out`. Events of kind `k` are recorded
/// if bit `k` of `wanted` is set, and rows are recorded without their text if bit 13 is set.
///
/// # Errors
///
/// Returns `IN_USE` if `out` is not empty, `BAD_ARGUMENT` if `rows` or `cols` is 0, or
/// `OUT_OF_MEMORY` if an allocation fails. On error, nothing is changed.
#[unsafe(no_mangle)]
pub extern "C" fn vt100_parser_new(
    alloc: Global,
    rows: u16,
    cols: u16,
    scrollback_capacity: usize,
    wanted: u16,
    out: &mut Handle,
) -> u8
    ensures { Makes rows cols (IsNewParser rows cols scrollback_capacity wanted) out.old.held result out.new.held }
{
    if out.is_full() {
        return IN_USE;
    }
    let Some((some_rows, some_cols)) = size_of(rows, cols) else {
        return BAD_ARGUMENT;
    };
    let events = Events::new(alloc, wanted, DEFAULT_LIMIT);
    match Parser::new_with_callbacks(alloc, some_rows, some_cols, scrollback_capacity, events) {
        Ok(parser) => hold(alloc, Source::Parser(parser), out),
        Err(_) => OUT_OF_MEMORY,
    }
}

/// Saves a copy of a screen or a capture in the empty handle `out`. `handle`
/// must hold a parser, a saved screen or a capture. For a parser, only its
/// screen is copied.
///
/// # Errors
///
/// Returns `NO_OBJECT` if `handle` is empty, `IN_USE` if `out` is not empty,
/// `WRONG_KIND` if `handle` holds a mirror or a translator, or `OUT_OF_MEMORY` if
/// the copy cannot be allocated. On error, nothing is changed.
#[unsafe(no_mangle)]
pub extern "C" fn vt100_save(alloc: Global, handle: &mut Handle, out: &mut Handle) -> u8
    ensures same { handle.new.held ≡ handle.old.held }
    ensures call { Saves handle.old.held out.old.held result out.new.held }
{
    if !handle.is_full() {
        return NO_OBJECT;
    }
    if out.is_full() {
        return IN_USE;
    }
    let object = handle.take_out(alloc);
    let copy = copy_of(&object.source);
    handle.put_back(object);
    match copy {
        Ok(copy) => hold(alloc, copy, out),
        Err(status) => status,
    }
}

/// Saves a copy of the display of a parser's screen or a saved screen in the empty handle `out`.
/// The copy is a saved screen of the same size and with the same modes, without scrollback and
/// without the inactive page. While scrollback is displayed, the whole screen is copied
/// ([`Screen::shown_copy`]).
///
/// # Errors
///
/// Returns `NO_OBJECT` if `handle` is empty, `IN_USE` if `out` is not empty, `WRONG_KIND` if
/// `handle` holds neither a parser nor a saved screen, or `OUT_OF_MEMORY` if an allocation fails.
/// On error, nothing is changed.
#[unsafe(no_mangle)]
pub extern "C" fn vt100_shown_copy(alloc: Global, handle: &mut Handle, out: &mut Handle) -> u8
    ensures same { handle.new.held ≡ handle.old.held }
    ensures call { SavesShown handle.old.held out.old.held result out.new.held }
{
    if !handle.is_full() {
        return NO_OBJECT;
    }
    if out.is_full() {
        return IN_USE;
    }
    let object = handle.take_out(alloc);
    let copy = shown_copy_of(&object.source);
    handle.put_back(object);
    match copy {
        Ok(copy) => hold(alloc, copy, out),
        Err(status) => status,
    }
}

/// Swaps the screens of two handles, each of which must hold a parser or a
/// saved screen.
///
/// # Errors
///
/// Returns `NO_OBJECT` if a handle is empty, `WRONG_KIND` if a handle holds
/// neither a parser nor a saved screen, or `BAD_ARGUMENT` if the same handle is
/// passed twice. On error, nothing is changed.
#[unsafe(no_mangle)]
pub extern "C" fn vt100_swap(alloc: Global, handle: &mut Handle, other: &mut Handle) -> u8
    ensures { Swaps handle.old.held other.old.held result handle.new.held other.new.held }
{
    if !handle.is_full() || !other.is_full() {
        return NO_OBJECT;
    }
    let mut first = handle.take_out(alloc);
    if !other.is_full() {
        // Both handles were full before, so the same handle was passed twice.
        handle.put_back(first);
        return BAD_ARGUMENT;
    }
    let mut second = other.take_out(alloc);
    let status = swap(&mut first.source, &mut second.source);
    other.put_back(second);
    handle.put_back(first);
    status
}

/// Frees the object that a handle holds, and leaves the handle empty.
#[unsafe(no_mangle)]
pub extern "C" fn vt100_free(alloc: Global, handle: &mut Handle)
    ensures { handle.new.held ≡ None }
{
    if handle.is_full() {
        drop(handle.take_out(alloc));
    }
}

/// Returns the kind of the object that a handle holds: 1 for a parser, 2 for a saved screen, 3 for
/// a mirror, 4 for a capture, and 5 for a translator of character sets. Returns 0 if the handle is
/// empty.
#[unsafe(no_mangle)]
pub extern "C" fn vt100_kind(alloc: Global, handle: &mut Handle) -> u8
    ensures same { handle.new.held ≡ handle.old.held }
    ensures kind { result ≡ kind_held handle.old.held }
{
    if !handle.is_full() {
        return 0;
    }
    let object = handle.take_out(alloc);
    let kind = kind_of(&object.source);
    handle.put_back(object);
    kind
}

/// Returns `rows` and `cols` as nonzero numbers, or `None` if either is 0.
pub(crate) fn size_of(rows: u16, cols: u16) -> Option<(NonZeroU16, NonZeroU16)>
    ensures some { is_some result ≡ is_size rows cols }
    ensures rows { IfSome result (λ size. size.0.value ≡ rows) }
    ensures cols { IfSome result (λ size. size.1.value ≡ cols) }
{
    let Some(some_rows) = NonZeroU16::new(rows) else {
        return None;
    };
    let Some(some_cols) = NonZeroU16::new(cols) else {
        return None;
    };
    Some((some_rows, some_cols))
}

/// Puts an object with the value `source` and empty text into the empty handle `out`. Returns
/// `OUT_OF_MEMORY` if the object cannot be allocated.
pub(crate) fn hold(alloc: Global, source: Source, out: &mut Handle) -> u8
    requires { out.old.held ≡ None }
    ensures { Fills (λ held. held ≡ source) result out.new.held }
{
    let object = Object {
        source,
        text: String::new(alloc),
    };
    match Box::new(alloc, object) {
        Ok(object) => {
            out.put_back(object);
            OK
        }
        Err(_) => OUT_OF_MEMORY,
    }
}

/// Returns a copy of a source. If the source is a parser, only its screen is copied.
///
/// # Errors
///
/// Returns `WRONG_KIND` if the source is a mirror or a translator, or `OUT_OF_MEMORY` if an
/// allocation fails.
fn copy_of(source: &Source) -> Result<Source, u8>
    ensures ok { IfOk result (λ copy. saved_from source.now ≡ Some copy) }
    ensures err { IfErr result (λ status. status ≡ refusal_of (saved_from source.now)) }
{
    match source {
        Source::Parser(parser) => saved(parser.screen()),
        Source::Screen(screen) => saved(screen),
        Source::Mirror(_) => Err(WRONG_KIND),
        Source::Charsets(_) => Err(WRONG_KIND),
        Source::Capture(state) => match state.clone() {
            Ok(copy) => Ok(Source::Capture(copy)),
            Err(_) => Err(OUT_OF_MEMORY),
        },
    }
}

/// Returns a saved screen that copies what the screen of a source displays, as
/// [`vt100_shown_copy`] describes.
///
/// # Errors
///
/// Returns `WRONG_KIND` if the source has no screen, or `OUT_OF_MEMORY` if an
/// allocation fails.
fn shown_copy_of(source: &Source) -> Result<Source, u8>
    ensures ok { IfOk result (λ copy. IsSomeAnd (screen_in source.now) (λ screen. IsShownCopy screen copy)) }
    ensures err { IfErr result (λ status. status ≡ refusal_on (screen_in source.now)) }
{
    match screen_of(source) {
        Some(screen) => match screen.shown_copy() {
            Ok(shown) => Ok(Source::Screen(shown)),
            Err(_) => Err(OUT_OF_MEMORY),
        },
        None => Err(WRONG_KIND),
    }
}

/// Returns a copy of a screen as a saved screen.
///
/// # Errors
///
/// Returns `OUT_OF_MEMORY` if an allocation fails.
fn saved(screen: &Screen) -> Result<Source, u8>
    ensures ok { IfOk result (λ copy. copy ≡ source.Screen screen.now) }
    ensures err { IfErr result (λ status. status ≡ out_of_memory) }
{
    match screen.clone() {
        Ok(copy) => Ok(Source::Screen(copy)),
        Err(_) => Err(OUT_OF_MEMORY),
    }
}

/// Swaps the screens of two sources. Returns `WRONG_KIND` if either source has
/// no screen.
fn swap(first: &mut Source, second: &mut Source) -> u8
    ensures status { result ≡ swap_status (screen_in first.old) (screen_in second.old) }
    ensures first { first.new ≡ with_other (screen_in second.old) first.old }
    ensures second { second.new ≡ with_other (screen_in first.old) second.old }
{
    match first {
        Source::Parser(parser) => swap_with(parser.screen_mut(), second),
        Source::Screen(screen) => swap_with(screen, second),
        Source::Mirror(_) => WRONG_KIND,
        Source::Capture(_) => WRONG_KIND,
        Source::Charsets(_) => WRONG_KIND,
    }
}

/// Swaps `screen` with the screen of a source. Returns `WRONG_KIND` if the
/// source has no screen.
fn swap_with(screen: &mut Screen, source: &mut Source) -> u8
    ensures status { result ≡ swap_status (Some screen.old) (screen_in source.old) }
    ensures screen { screen.new ≡ unwrap_or (screen_in source.old) screen.old }
    ensures source { source.new ≡ with_other (Some screen.old) source.old }
{
    match source {
        Source::Parser(parser) => {
            mem::swap(screen, parser.screen_mut());
            OK
        }
        Source::Screen(other) => {
            mem::swap(screen, other);
            OK
        }
        Source::Mirror(_) => WRONG_KIND,
        Source::Capture(_) => WRONG_KIND,
        Source::Charsets(_) => WRONG_KIND,
    }
}
