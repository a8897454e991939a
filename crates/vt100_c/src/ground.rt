//! Whether a parser or a mirror is in ground state.

ghost use Rattle.std.specs.Prelude.{◌≡◌};
ghost use Rattle.vt_scan.specs.Automaton.{start};
ghost use Rattle.vt_scan.specs.Scanner.{StandsFor};
ghost use Rattle.vt100_c.specs.Due.{HoldsOne, IsSomeAnd, due_to, due_to_held};
ghost use Rattle.vt100_c.specs.Reading.{scanner_in};
ghost use Rattle.vt100_c.specs.Shown.{IsBitFor};
ghost use Rattle.vt100_c.specs.Status.{ok};

use crate::event_log::Events;
use crate::handle::Handle;
use crate::object::Source;
use crate::status::{NO_OBJECT, OK, WRONG_KIND};
use std::alloc::Global;
use vt_mirror::Mirror;
use vt100::Parser;

/// Stores 1 in `out` if a parser or a mirror is in ground state, which means that no escape
/// sequence, control string or character is half read, otherwise 0 ([`Parser::is_ground`]).
///
/// # Errors
///
/// Returns `NO_OBJECT` if the handle is empty, or `WRONG_KIND` if it holds neither a parser nor a
/// mirror. On error, `out` is unchanged.
#[unsafe(no_mangle)]
pub extern "C" fn vt100_is_ground(alloc: Global, handle: &mut Handle, out: &mut u8) -> u8
    ensures same { handle.new.held ≡ handle.old.held }
    ensures status { result ≡ due_to_held scanner_in handle.old.held }
    ensures ground { result ≡ ok → HoldsOne scanner_in handle.old.held
        (λ scanner. IsBitFor (StandsFor scanner start) out.new) }
    ensures refused { ¬ (result ≡ ok) → out.new ≡ out.old }
{
    if !handle.is_full() {
        return NO_OBJECT;
    }
    let object = handle.take_out(alloc);
    let status = write_ground(&object.source, out);
    handle.put_back(object);
    status
}

/// Stores 1 in `out` if a source is in ground state, otherwise 0. Returns `WRONG_KIND` if the
/// source is neither a parser nor a mirror.
fn write_ground(source: &Source, out: &mut u8) -> u8
    ensures status { result ≡ due_to (scanner_in source.now) }
    ensures ground { result ≡ ok → IsSomeAnd (scanner_in source.now)
        (λ scanner. IsBitFor (StandsFor scanner start) out.new) }
    ensures refused { ¬ (result ≡ ok) → out.new ≡ out.old }
{
    match source {
        Source::Parser(parser) => {
            *out = parser_bit(parser);
            OK
        }
        Source::Screen(_) => WRONG_KIND,
        Source::Mirror(mirror) => {
            *out = mirror_bit(mirror);
            OK
        }
        Source::Capture(_) => WRONG_KIND,
        Source::Charsets(_) => WRONG_KIND,
    }
}

/// Returns 1 if a parser is in ground state, otherwise 0.
fn parser_bit(parser: &Parser<Events>) -> u8
    ensures { IsBitFor (StandsFor parser.now.scanner start) result }
{
    if parser.is_ground() { 1 } else { 0 }
}

/// Returns 1 if a mirror is in ground state, otherwise 0.
fn mirror_bit(mirror: &Mirror) -> u8
    ensures { IsBitFor (StandsFor mirror.now.parser.scanner start) result }
{
    if mirror.is_ground() { 1 } else { 0 }
}
