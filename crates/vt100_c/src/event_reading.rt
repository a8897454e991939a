//! Reading and clearing the records of a parser's events.

ghost use Rattle.std.specs.Prelude.{◌≡◌, IfSome, None, Some, drop, length, min, take};
ghost use Rattle.vt100_c.specs.Calls.{OnSource};
ghost use Rattle.vt100_c.specs.Due.{due_to, due_to_held};
ghost use Rattle.vt100_c.specs.Log.{Empties, Limits, log_at, log_in, records_of, whole_of};
ghost use Rattle.vt100_c.specs.Records.{log_after_clear, nothing_logged};
ghost use Rattle.vt100_c.specs.Status.{ok};

use crate::copying::copy;
use crate::event_log::Events;
use crate::handle::Handle;
use crate::object::Source;
use crate::status::{NO_OBJECT, OK, WRONG_KIND};
use std::alloc::Global;
use vt100::Parser;

/// Stores in `len` the length, in bytes, of the event records added to a parser's log since it was
/// last cleared. Stores 1 in `is_whole` if no record has been lost since
/// then, otherwise 0. Once a record has been lost, no more are added until the log is cleared.
///
/// # Errors
///
/// Returns `NO_OBJECT` if the handle is empty, or `WRONG_KIND` if it holds no
/// parser. On error, nothing is stored.
#[unsafe(no_mangle)]
pub extern "C" fn vt100_events(
    alloc: Global,
    handle: &mut Handle,
    len: &mut usize,
    is_whole: &mut u8,
) -> u8
    ensures same { handle.new.held ≡ handle.old.held }
    ensures status { result ≡ due_to_held log_in handle.old.held }
    ensures len { result ≡ ok → len.new ≡ length (records_of (log_at handle.old.held)) }
    ensures whole { result ≡ ok → is_whole.new ≡ whole_of (log_at handle.old.held) }
    ensures refused_len { ¬ (result ≡ ok) → len.new ≡ len.old }
    ensures refused_whole { ¬ (result ≡ ok) → is_whole.new ≡ is_whole.old }
{
    if !handle.is_full() {
        return NO_OBJECT;
    }
    let object = handle.take_out(alloc);
    let status = tell(&object.source, len, is_whole);
    handle.put_back(object);
    status
}

/// Copies as many bytes of a parser's event records as fit into `out`, and returns the number of
/// bytes copied, which is 0 if the handle holds no parser. The rest of `out` and the log are
/// unchanged.
#[unsafe(no_mangle)]
pub extern "C" fn vt100_copy_events(alloc: Global, handle: &mut Handle, out: &mut [u8]) -> usize
    ensures same { handle.new.held ≡ handle.old.held }
    ensures count { result ≡ min (length (records_of (log_at handle.old.held))) (length out.old) }
    ensures text { take result out.new ≡ take result (records_of (log_at handle.old.held)) }
    ensures rest { drop result out.new ≡ drop result out.old }
{
    if !handle.is_full() {
        return 0;
    }
    let object = handle.take_out(alloc);
    let count = copy_records(&object.source, out);
    handle.put_back(object);
    count
}

/// Clears a parser's log: its records, the rows that they report, and the flag
/// that is set once records have been lost.
///
/// # Errors
///
/// Returns `NO_OBJECT` if the handle is empty, or `WRONG_KIND` if it holds no
/// parser.
#[unsafe(no_mangle)]
pub extern "C" fn vt100_clear_events(alloc: Global, handle: &mut Handle) -> u8
    ensures { OnSource Empties handle.old.held result handle.new.held }
{
    if !handle.is_full() {
        return NO_OBJECT;
    }
    let mut object = handle.take_out(alloc);
    let status = clear(&mut object.source);
    handle.put_back(object);
    status
}

/// Clears a parser's log and sets its limit, the number of bytes after which
/// records are lost. The limit covers the records and the cells of the rows
/// that they report.
///
/// # Errors
///
/// Returns `NO_OBJECT` if the handle is empty, or `WRONG_KIND` if it holds no
/// parser.
#[unsafe(no_mangle)]
pub extern "C" fn vt100_set_event_limit(alloc: Global, handle: &mut Handle, bytes: usize) -> u8
    ensures { OnSource (Limits bytes) handle.old.held result handle.new.held }
{
    if !handle.is_full() {
        return NO_OBJECT;
    }
    let mut object = handle.take_out(alloc);
    let status = set_limit(&mut object.source, bytes);
    handle.put_back(object);
    status
}

/// Returns the log of a source if it is a parser, otherwise `None`.
pub(crate) fn log_of(source: &Source) -> Option<&Events>
    ensures some { IfSome result (λ log. log_in source.now ≡ Some log.now) }
    ensures none { result ≡ None → log_in source.now ≡ None }
{
    match source {
        Source::Parser(parser) => Some(parser.callbacks()),
        Source::Screen(_) => None,
        Source::Mirror(_) => None,
        Source::Capture(_) => None,
        Source::Charsets(_) => None,
    }
}

/// Copies as many bytes of a source's records as fit into `out`, and returns
/// the number of bytes copied, which is 0 if the source is not a parser.
fn copy_records(source: &Source, out: &mut [u8]) -> usize
    ensures count { result ≡ min (length (records_of (log_in source.now))) (length out.old) }
    ensures text { take result out.new ≡ take result (records_of (log_in source.now)) }
    ensures rest { drop result out.new ≡ drop result out.old }
{
    match log_of(source) {
        Some(log) => copy(log.records(), out),
        None => 0,
    }
}

/// Stores the length of a source's records in `len`. Stores 1 in `is_whole` if
/// no record has been lost, otherwise 0. Returns `WRONG_KIND` if the source has
/// no log.
fn tell(source: &Source, len: &mut usize, is_whole: &mut u8) -> u8
    ensures status { result ≡ due_to (log_in source.now) }
    ensures len { result ≡ ok → len.new ≡ length (records_of (log_in source.now)) }
    ensures whole { result ≡ ok → is_whole.new ≡ whole_of (log_in source.now) }
    ensures refused_len { ¬ (result ≡ ok) → len.new ≡ len.old }
    ensures refused_whole { ¬ (result ≡ ok) → is_whole.new ≡ is_whole.old }
{
    match log_of(source) {
        Some(log) => {
            *len = log.records().len();
            *is_whole = log.whole_bit();
            OK
        }
        None => WRONG_KIND,
    }
}

/// Clears the log of a source. Returns `WRONG_KIND` if the source has no log.
fn clear(source: &mut Source) -> u8
    ensures { Empties source.old result source.new }
{
    match source {
        Source::Parser(parser) => {
            clear_log(parser);
            OK
        }
        Source::Screen(_) => WRONG_KIND,
        Source::Mirror(_) => WRONG_KIND,
        Source::Capture(_) => WRONG_KIND,
        Source::Charsets(_) => WRONG_KIND,
    }
}

/// Clears the log of a source and sets the log's size limit to `bytes` bytes.
/// Returns `WRONG_KIND` if the source has no log.
fn set_limit(source: &mut Source, bytes: usize) -> u8
    ensures { Limits bytes source.old result source.new }
{
    match source {
        Source::Parser(parser) => {
            set_log_limit(parser, bytes);
            OK
        }
        Source::Screen(_) => WRONG_KIND,
        Source::Mirror(_) => WRONG_KIND,
        Source::Capture(_) => WRONG_KIND,
        Source::Charsets(_) => WRONG_KIND,
    }
}

/// Clears the log of a parser and sets the log's size limit to `bytes` bytes.
fn set_log_limit(parser: &mut Parser<Events>, bytes: usize)
    ensures { parser.new ≡ record parser.old { callbacks = nothing_logged parser.old.callbacks.wanted bytes } }
{
    parser.callbacks_mut().set_limit(bytes);
}

/// Clears the log of a parser.
fn clear_log(parser: &mut Parser<Events>)
    ensures { parser.new ≡ record parser.old { callbacks = log_after_clear parser.old.callbacks } }
{
    parser.callbacks_mut().clear();
}
