//! The state of a screen, without its cells.

ghost use Rattle.std.specs.Prelude.{◌≡◌};
ghost use Rattle.vt_redraw.specs.Steady.{IsSteady};
ghost use Rattle.vt_screen.specs.Shown.{display};
ghost use Rattle.vt100_c.specs.Due.{HoldsScreen, IsSomeAnd, any_screen, due_at, due_on};
ghost use Rattle.vt100_c.specs.Shown.{IsBitFor, state_for_c};
ghost use Rattle.vt100_c.specs.Held.{screen_in};
ghost use Rattle.vt100_c.specs.Status.{ok};

use crate::cells::VtState;
use crate::convert::state_for_c;
use crate::handle::Handle;
use crate::object::{Source, screen_of};
use crate::status::{NO_OBJECT, OK, WRONG_KIND};
use std::alloc::Global;
use vt100::Screen;

/// Stores the state of a screen in `out`: its size, its cursor, its modes, the attributes of newly
/// printed text, and the position, length and capacity of its scrollback.
///
/// # Errors
///
/// Returns `NO_OBJECT` if the handle is empty, or `WRONG_KIND` if it holds neither a parser nor a
/// saved screen. On error, nothing is stored.
#[unsafe(no_mangle)]
pub extern "C" fn vt100_get_state(alloc: Global, handle: &mut Handle, out: &mut VtState) -> u8
    ensures same { handle.new.held ≡ handle.old.held }
    ensures status { result ≡ due_at any_screen handle.old.held }
    ensures state { result ≡ ok → HoldsScreen handle.old.held (λ screen. out.new ≡ state_for_c screen) }
    ensures refused { ¬ (result ≡ ok) → out.new ≡ out.old }
{
    if !handle.is_full() {
        return NO_OBJECT;
    }
    let object = handle.take_out(alloc);
    let status = write_state(&object.source, out);
    handle.put_back(object);
    status
}

/// Stores 1 in `out` if a screen is steady, otherwise 0. A screen is steady if
/// every visible glyph reproduces itself when it is printed on a blank row
/// ([`Screen::is_steady`]).
///
/// # Errors
///
/// Returns `NO_OBJECT` if the handle is empty, or `WRONG_KIND` if it holds
/// neither a parser nor a saved screen. On error, `out` is unchanged.
#[unsafe(no_mangle)]
pub extern "C" fn vt100_is_steady(alloc: Global, handle: &mut Handle, out: &mut u8) -> u8
    ensures same { handle.new.held ≡ handle.old.held }
    ensures status { result ≡ due_at any_screen handle.old.held }
    ensures steady { result ≡ ok → HoldsScreen handle.old.held (λ screen. IsBitFor (IsSteady (display screen)) out.new) }
    ensures refused { ¬ (result ≡ ok) → out.new ≡ out.old }
{
    if !handle.is_full() {
        return NO_OBJECT;
    }
    let object = handle.take_out(alloc);
    let status = write_steady(&object.source, out);
    handle.put_back(object);
    status
}

/// Stores the state of a source's screen in `out`. Returns `WRONG_KIND` if the
/// source has no screen.
fn write_state(source: &Source, out: &mut VtState) -> u8
    ensures status { result ≡ due_on any_screen (screen_in source.now) }
    ensures state { result ≡ ok → IsSomeAnd (screen_in source.now) (λ screen. out.new ≡ state_for_c screen) }
    ensures refused { ¬ (result ≡ ok) → out.new ≡ out.old }
{
    match screen_of(source) {
        Some(screen) => {
            *out = state_for_c(screen);
            OK
        }
        None => WRONG_KIND,
    }
}

/// Stores 1 in `out` if a source's screen is steady, otherwise 0. Returns
/// `WRONG_KIND` if the source has no screen.
fn write_steady(source: &Source, out: &mut u8) -> u8
    ensures status { result ≡ due_on any_screen (screen_in source.now) }
    ensures steady { result ≡ ok → IsSomeAnd (screen_in source.now) (λ screen. IsBitFor (IsSteady (display screen)) out.new) }
    ensures refused { ¬ (result ≡ ok) → out.new ≡ out.old }
{
    match screen_of(source) {
        Some(screen) => {
            *out = steady_bit(screen);
            OK
        }
        None => WRONG_KIND,
    }
}

/// Returns 1 if a screen is steady, otherwise 0.
fn steady_bit(screen: &Screen) -> u8
    ensures { IsBitFor (IsSteady (display screen.now)) result }
{
    if screen.is_steady() { 1 } else { 0 }
}
