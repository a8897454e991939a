//! The number of bytes that a parser holds for an incomplete operating system
//! command.

ghost use Rattle.std.specs.Prelude.{◌≡◌, IfSome, None, Some};
ghost use Rattle.vt100_c.specs.Due.{HoldsOne, IsSomeAnd, due_to, due_to_held};
ghost use Rattle.vt100_c.specs.Reading.{ArePending, parser_in};
ghost use Rattle.vt100_c.specs.Status.{ok};

use crate::event_log::Events;
use crate::handle::Handle;
use crate::object::Source;
use crate::status::{NO_OBJECT, OK, WRONG_KIND};
use std::alloc::Global;
use vt100::Parser;

/// Stores in `len` the number of bytes that a parser holds for an incomplete
/// operating system command ([`Parser::pending_len`]).
///
/// # Errors
///
/// Returns `NO_OBJECT` if the handle is empty, or `WRONG_KIND` if it holds no
/// parser. On error, `len` is unchanged.
#[unsafe(no_mangle)]
pub extern "C" fn vt100_pending_len(alloc: Global, handle: &mut Handle, len: &mut usize) -> u8
    ensures same { handle.new.held ≡ handle.old.held }
    ensures status { result ≡ due_to_held parser_in handle.old.held }
    ensures pending { result ≡ ok → HoldsOne parser_in handle.old.held (ArePending len.new) }
    ensures refused { ¬ (result ≡ ok) → len.new ≡ len.old }
{
    if !handle.is_full() {
        return NO_OBJECT;
    }
    let object = handle.take_out(alloc);
    let status = write_pending(&object.source, len);
    handle.put_back(object);
    status
}

/// Returns the parser if the source is one, otherwise `None`.
pub(crate) fn parser_of(source: &Source) -> Option<&Parser<Events>>
    ensures some { IfSome result (λ parser. parser_in source.now ≡ Some parser.now) }
    ensures none { result ≡ None → parser_in source.now ≡ None }
{
    match source {
        Source::Parser(parser) => Some(parser),
        Source::Screen(_) => None,
        Source::Mirror(_) => None,
        Source::Capture(_) => None,
        Source::Charsets(_) => None,
    }
}

/// Stores in `len` the number of bytes that a parser holds for an incomplete
/// operating system command. Returns `WRONG_KIND` if the source is not a
/// parser.
fn write_pending(source: &Source, len: &mut usize) -> u8
    ensures status { result ≡ due_to (parser_in source.now) }
    ensures pending { result ≡ ok → IsSomeAnd (parser_in source.now) (ArePending len.new) }
    ensures refused { ¬ (result ≡ ok) → len.new ≡ len.old }
{
    match parser_of(source) {
        Some(parser) => {
            *len = parser.pending_len();
            OK
        }
        None => WRONG_KIND,
    }
}
