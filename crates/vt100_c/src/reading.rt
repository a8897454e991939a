//! Parsing bytes with parsers and mirrors.

ghost use Rattle.std.specs.Prelude.{◌≡◌, ◌<◌, None, false, length, true};
ghost use Rattle.vt100_c.specs.Calls.{OnSource};
ghost use Rattle.vt100_c.specs.Reading.{Reads, ReadsMirror, ReadsParser, ReadsUntil, ReadsUntilEvent};
ghost use Rattle.vt100_c.specs.Reading.{ReadsFrom, ReadsUnit, are_bare_rows, has_bare_rows, has_space, is_quiet, mark_of};

use crate::event_log::Events;
use crate::handle::Handle;
use crate::object::Source;
use crate::records::HEAD_LEN;
use crate::status::{NO_OBJECT, OK, WRONG_KIND, answered};
use std::alloc::Global;
use vt_mirror::Mirror;
use vt100::Parser;

/// The size limit, in bytes (64 KiB), for rows that a call records without their text. The call
/// stops parsing once these rows have reached this size.
const BATCH: usize = 65_536;

/// Parses bytes with a parser or a mirror.
///
/// # Errors
///
/// Returns `NO_OBJECT` if the handle is empty, `WRONG_KIND` if it holds neither a parser nor a
/// mirror, or `OUT_OF_MEMORY` if an allocation fails. Once an allocation has failed, all later
/// calls of this function return `FAILED`. The steps before the failing step remain in effect.
#[unsafe(no_mangle)]
pub extern "C" fn vt100_process(alloc: Global, handle: &mut Handle, bytes: &[u8]) -> u8
    ensures { OnSource (Reads bytes.now) handle.old.held result handle.new.held }
{
    if !handle.is_full() {
        return NO_OBJECT;
    }
    let mut object = handle.take_out(alloc);
    let status = process(&mut object.source, bytes);
    handle.put_back(object);
    status
}

/// Parses bytes with a parser, up to and including the first byte that causes an event to be
/// recorded, or the first event since the log was cleared to be lost. Stores the number of bytes
/// parsed in `used`. If a record was lost before the call, nothing is recorded, and all bytes are
/// parsed.
///
/// Rows that are recorded without their text do not stop parsing until the rows recorded by this
/// call take 64 KiB or the log reaches its limit.
///
/// # Errors
///
/// Returns `NO_OBJECT` if the handle is empty, `WRONG_KIND` if it holds no parser, `OUT_OF_MEMORY`
/// if an allocation fails, or `FAILED` if parsing ran out of memory in an earlier call and `bytes`
/// is not empty. On `OUT_OF_MEMORY`, `used` is the number of bytes before the byte that required
/// the allocation. On any other error, `used` is 0.
#[unsafe(no_mangle)]
pub extern "C" fn vt100_process_until(
    alloc: Global,
    handle: &mut Handle,
    bytes: &[u8],
    used: &mut usize,
) -> u8
    ensures none { handle.old.held ≡ None → used.new ≡ 0 }
    ensures call { OnSource (ReadsUntilEvent false bytes.now used.new) handle.old.held result handle.new.held }
{
    if !handle.is_full() {
        *used = 0;
        return NO_OBJECT;
    }
    let mut object = handle.take_out(alloc);
    let (status, count) = process_until(&mut object.source, bytes, false);
    handle.put_back(object);
    *used = count;
    status
}

/// Parses bytes with a parser, and lets events gather in the log. Stops after the first byte whose
/// events leave at most half of the log's limit, or that causes the first event since the log was
/// cleared to be lost, and otherwise at the end. Stores the number of bytes parsed in `used`.
///
/// If at most half of the limit is left before the call, parsing stops after the first byte that
/// causes an event to be recorded. If a record was lost before the call, nothing is recorded, and
/// all bytes are parsed.
///
/// # Errors
///
/// Returns the status codes of [`vt100_process_until`], and stores the same in `used`.
#[unsafe(no_mangle)]
pub extern "C" fn vt100_process_until_full(
    alloc: Global,
    handle: &mut Handle,
    bytes: &[u8],
    used: &mut usize,
) -> u8
    ensures none { handle.old.held ≡ None → used.new ≡ 0 }
    ensures call { OnSource (ReadsUntilEvent true bytes.now used.new) handle.old.held result handle.new.held }
{
    if !handle.is_full() {
        *used = 0;
        return NO_OBJECT;
    }
    let mut object = handle.take_out(alloc);
    let (status, count) = process_until(&mut object.source, bytes, true);
    handle.put_back(object);
    *used = count;
    status
}

/// Parses bytes with a parser or a mirror, and returns the status code, which is `WRONG_KIND` if
/// the source is neither.
fn process(source: &mut Source, bytes: &[u8]) -> u8
    ensures { Reads bytes.now source.old result source.new }
{
    match source {
        Source::Parser(parser) => read(parser, bytes),
        Source::Screen(_) => WRONG_KIND,
        Source::Mirror(mirror) => read_mirror(mirror, bytes),
        Source::Capture(_) => WRONG_KIND,
        Source::Charsets(_) => WRONG_KIND,
    }
}

/// Parses bytes with a parser, and returns the status code.
fn read(parser: &mut Parser<Events>, bytes: &[u8]) -> u8
    ensures { ReadsParser parser.old bytes.now result parser.new }
{
    answered(parser.process(bytes))
}

/// Passes bytes to a mirror, and returns the status code.
fn read_mirror(mirror: &mut Mirror, bytes: &[u8]) -> u8
    ensures { ReadsMirror mirror.old bytes.now result mirror.new }
{
    answered(mirror.process(bytes))
}

/// Parses bytes until an event, as [`vt100_process_until`] does, or until events have gathered in
/// the log, as [`vt100_process_until_full`] does. Returns the status code and the number of bytes
/// parsed. The status code is `WRONG_KIND` if the source is not a parser.
fn process_until(source: &mut Source, bytes: &[u8], gathers: bool) -> (u8, usize)
    ensures { ReadsUntilEvent gathers bytes.now result.1 source.old result.0 source.new }
{
    match source {
        Source::Parser(parser) => read_until(parser, bytes, gathers),
        Source::Screen(_) => (WRONG_KIND, 0),
        Source::Mirror(_) => (WRONG_KIND, 0),
        Source::Capture(_) => (WRONG_KIND, 0),
        Source::Charsets(_) => (WRONG_KIND, 0),
    }
}

/// The state of a log when parsing begins, and whether events gather in it.
#[derive(Clone, Copy)]
pub struct Mark {
    /// The length of the records in bytes.
    pub(crate) len: usize,
    /// The number of reported rows.
    pub(crate) rows: usize,
    /// The number of bytes left until the log reaches its limit.
    pub(crate) room: usize,
    /// Whether no record has been lost.
    pub(crate) is_whole: bool,
    /// Whether events gather in the log until half of its limit is reached. Otherwise, each event
    /// but a row without text stops parsing.
    pub(crate) gathers: bool,
}

/// Parses bytes with a parser until an event, as [`vt100_process_until`] does, or until events have
/// gathered in the log, as [`vt100_process_until_full`] does. Returns the status code and the
/// number of bytes parsed.
#[tactic(auto, using(crate::proofs::Answering::quiet_now))]
fn read_until(parser: &mut Parser<Events>, bytes: &[u8], gathers: bool) -> (u8, usize)
    ensures { ReadsUntil gathers bytes.now result.1 parser.old result.0 parser.new }
{
    let mark = mark_of(parser.callbacks(), gathers);
    read_from(parser, bytes, mark)
}

/// Parses bytes with a parser until its log has changed since `mark` in a way
/// that stops parsing (see [`is_quiet`]). Returns the status code and the
/// number of bytes parsed.
fn read_from(parser: &mut Parser<Events>, bytes: &[u8], mark: Mark) -> (u8, usize)
    requires { is_quiet mark parser.old.callbacks ≡ true }
    ensures { ReadsFrom mark bytes.now result.1 parser.old result.0 parser.new }
{
    let mut at = 0;
    while at < bytes.len() {
        let (status, count) = read_unit(parser, &bytes[at..]);
        if status != OK {
            return (status, at + count);
        }
        at += count;
        if !is_quiet(mark, parser.callbacks()) {
            return (OK, at);
        }
    }
    (OK, at)
}

/// Parses one unit of `bytes`, in which only the last byte can cause an event (see
/// [`Parser::process_unit`]). Returns the status code and the number of bytes parsed.
#[inline(always)]
fn read_unit(parser: &mut Parser<Events>, bytes: &[u8]) -> (u8, usize)
    requires { 0 < length bytes.now }
    ensures { ReadsUnit parser.old bytes.now result.1 result.0 parser.new }
{
    let (count, answer) = parser.process_unit(bytes);
    (answered(answer), count)
}

/// Returns a mark of the current state of a log, in which events gather if `gathers` is true.
fn mark_of(log: &Events, gathers: bool) -> Mark
    ensures { result ≡ mark_of gathers log.now }
{
    Mark {
        len: log.records().len(),
        rows: log.row_count(),
        room: log.room(),
        is_whole: log.is_whole(),
        gathers,
    }
}

/// Returns whether parsing continues: the log has space if events gather in it (see [`has_space`]),
/// and otherwise has recorded no event but rows without text (see [`has_bare_rows`]).
#[inline(always)]
fn is_quiet(mark: Mark, log: &Events) -> bool
    ensures { result ≡ is_quiet mark log.now }
{
    if mark.gathers {
        has_space(mark, log)
    } else {
        has_bare_rows(mark, log)
    }
}

/// Returns whether more than half of the log's limit is left, or nothing was recorded since `mark`;
/// and the log has not lost a record since then.
#[inline(always)]
fn has_space(mark: Mark, log: &Events) -> bool
    ensures { result ≡ has_space mark log.now }
{
    (log.limit() / 2 < log.room() || log.records().len().saturating_sub(mark.len) == 0)
        && (log.is_whole() || !mark.is_whole)
}

/// Returns whether only rows without text were recorded since `mark`, these rows take less than
/// [`BATCH`] bytes, and the log has neither reached its limit nor lost a record since then.
#[inline(always)]
fn has_bare_rows(mark: Mark, log: &Events) -> bool
    ensures { result ≡ has_bare_rows mark log.now }
{
    let bytes = log.records().len().saturating_sub(mark.len);
    let rows = log.row_count().saturating_sub(mark.rows);
    are_bare_rows(bytes, rows)
        && mark.room.saturating_sub(log.room()) < BATCH
        && (log.room() != 0 || mark.room == 0)
        && (log.is_whole() || !mark.is_whole)
}

/// Returns whether `bytes` is exactly the length of `rows` records of rows
/// without text.
#[inline(always)]
fn are_bare_rows(bytes: usize, rows: usize) -> bool
    ensures { result ≡ are_bare_rows bytes rows }
{
    bytes / HEAD_LEN == rows && bytes % HEAD_LEN == 0
}
