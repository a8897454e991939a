//! How often a parser's input has asked to erase scrollback.

ghost use Rattle.std.specs.Prelude.{◌≡◌};
ghost use Rattle.vt100_c.specs.Due.{HoldsOne, IsSomeAnd, due_to, due_to_held};
ghost use Rattle.vt100_c.specs.Reading.{HasErased, parser_in};
ghost use Rattle.vt100_c.specs.Status.{ok};

use crate::handle::Handle;
use crate::object::Source;
use crate::pending::parser_of;
use crate::status::{NO_OBJECT, OK, WRONG_KIND};
use std::alloc::Global;
use vt100::Parser;

/// Stores in `count` how often a parser's input has asked to erase scrollback
/// ([`Parser::scrollback_erasures`]).
///
/// # Errors
///
/// Returns `NO_OBJECT` if the handle is empty, or `WRONG_KIND` if it holds no parser. On error,
/// `count` is unchanged.
#[unsafe(no_mangle)]
pub extern "C" fn vt100_scrollback_erasures(
    alloc: Global,
    handle: &mut Handle,
    count: &mut u64,
) -> u8
    ensures same { handle.new.held ≡ handle.old.held }
    ensures status { result ≡ due_to_held parser_in handle.old.held }
    ensures erased { result ≡ ok → HoldsOne parser_in handle.old.held (HasErased count.new) }
    ensures refused { ¬ (result ≡ ok) → count.new ≡ count.old }
{
    if !handle.is_full() {
        return NO_OBJECT;
    }
    let object = handle.take_out(alloc);
    let status = write_erasures(&object.source, count);
    handle.put_back(object);
    status
}

/// Stores in `count` how often a parser's input has asked to erase scrollback. Returns `WRONG_KIND`
/// if the source is not a parser.
fn write_erasures(source: &Source, count: &mut u64) -> u8
    ensures status { result ≡ due_to (parser_in source.now) }
    ensures erased { result ≡ ok → IsSomeAnd (parser_in source.now) (HasErased count.new) }
    ensures refused { ¬ (result ≡ ok) → count.new ≡ count.old }
{
    match parser_of(source) {
        Some(parser) => {
            *count = parser.scrollback_erasures();
            OK
        }
        None => WRONG_KIND,
    }
}
