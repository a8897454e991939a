//! The loop that parses bytes and applies the resulting events.

ghost use Rattle.std.specs.Prelude.{◌-◌, ◌<◌, ◌≤◌, ℕ, IfOk, IsErr, length, map, option_to_list, slice_index_or};
ghost use Rattle.vt_cells.specs.Refusals.{OnlyOutOfMemory};
ghost use Rattle.vt100.specs.Erasures.{CountsErasures, CountsRead, CountsUntilStopped};
ghost use Rattle.vt100.specs.Internals.{PerformsOrBreaks, ReadsOrStops, ReadsSilently};
ghost use Rattle.vt100.specs.Parser.{CallsByLast, Ran, Stopped, parser_value};
ghost use Rattle.vt_scan.specs.Scanner.{ReadsItself, event_of, events_in};
ghost use Rattle.vt_screen.specs.Run.{state};

use crate::erasures::{count_each, count_escape, count_sequence};
use crate::perform::{
    command, control_sequence, escape_sequence, execute, perform, print, print_apart,
};
use vt_cells::Error;
use vt_scan::{Event, Events, Scanner};
use vt_screen::screen::printing;
use vt_screen::{Callbacks, Screen};

/// The maximum number of wide or narrow characters that are printed as one run, in a single edit of
/// the row.
const RUN: usize = 64;

/// Parses `bytes`, applies the resulting events to the screen, invokes callbacks, and adds to
/// `erasures` the number of events that erase scrollback.
///
/// # Errors
///
/// Returns `Error::OutOfMemory` if an allocation fails. The steps before the
/// failing one remain in effect.
pub fn process<CB: Callbacks>(
    scanner: &mut Scanner,
    screen: &mut Screen,
    callbacks: &mut CB,
    erasures: &mut u64,
    bytes: &[u8],
) -> Result<(), Error>
    ensures ran { IfOk result (λ _. Ran CB.does (parser_value scanner.old screen.old callbacks.old)
        bytes.now (parser_value scanner.new screen.new callbacks.new)) }
    ensures stopped { IsErr result → Stopped CB.does (parser_value scanner.old screen.old callbacks.old)
        bytes.now (parser_value scanner.new screen.new callbacks.new) }
    ensures memory { OnlyOutOfMemory result }
    ensures erased { IfOk result (λ _. CountsErasures scanner.old bytes.now erasures.old erasures.new) }
    ensures erased_before { IsErr result → CountsUntilStopped CB.does scanner.old
        (state callbacks.old screen.old) erasures.old bytes.now (state callbacks.new screen.new) erasures.new }
{
    let mut rest = bytes;
    while !rest.is_empty() {
        match process_some(scanner, screen, callbacks, erasures, rest) {
            Ok(count) => rest = &rest[count..],
            Err(_) => return Err(Error::OutOfMemory),
        }
    }
    Ok(())
}

/// Parses and applies the first unit of `bytes`, and returns its length in bytes. A unit is a run
/// of narrow characters or of wide characters that fits on the cursor's row, a single character, a
/// single-byte control function, a complete or partial sequence, bytes of a control string, or any
/// other single byte.
///
/// # Errors
///
/// If an allocation fails, returns the number of bytes read before the byte that required it.
#[inline(always)]
pub fn process_some<CB: Callbacks>(
    scanner: &mut Scanner,
    screen: &mut Screen,
    callbacks: &mut CB,
    erasures: &mut u64,
    bytes: &[u8],
) -> Result<usize, usize>
    requires { 0 < length bytes.now }
    ensures progress { IfOk result (λ count. 0 < count) }
    ensures last { IfOk result (λ count. CallsByLast callbacks.old screen.old scanner.old bytes.now count callbacks.new) }
    ensures read { ReadsOrStops CB.does (parser_value scanner.old screen.old callbacks.old) bytes.now
        (parser_value scanner.new screen.new callbacks.new) result }
    ensures erased { CountsRead scanner.old bytes.now erasures.old erasures.new result }
{
    if scanner.is_text(bytes[0]) {
        return print_some(scanner, screen, callbacks, bytes);
    }
    if bytes[0] >= 0x80 {
        let count = process_high(scanner, screen, callbacks, erasures, bytes)?;
        return Ok(count);
    }
    if scanner.is_control(bytes[0]) {
        return match execute(screen, callbacks, bytes[0]) {
            Ok(()) => Ok(1),
            Err(_) => Err(0),
        };
    }
    let count = process_sequence(scanner, screen, callbacks, erasures, bytes)?;
    if count > 0 {
        return Ok(count);
    }
    process_rest(scanner, screen, callbacks, erasures, bytes)
}

/// Parses leading bytes of `bytes` that begin, continue or end a sequence or an operating system
/// command, and performs it if it is completed. Returns the number of bytes read, which may be 0.
///
/// # Errors
///
/// If an allocation fails, returns the number of bytes read before the byte
/// that required it.
#[inline(always)]
fn process_sequence<CB: Callbacks>(
    scanner: &mut Scanner,
    screen: &mut Screen,
    callbacks: &mut CB,
    erasures: &mut u64,
    bytes: &[u8],
) -> Result<usize, usize>
    ensures last { IfOk result (λ count. CallsByLast callbacks.old screen.old scanner.old bytes.now count callbacks.new) }
    ensures read { ReadsOrStops CB.does (parser_value scanner.old screen.old callbacks.old) bytes.now
        (parser_value scanner.new screen.new callbacks.new) result }
    ensures erased { CountsRead scanner.old bytes.now erasures.old erasures.new result }
{
    let leading = scanner.take_introducer(bytes);
    if leading == bytes.len() {
        return Ok(leading);
    }
    match end_sequence(scanner, screen, callbacks, erasures, &bytes[leading..]) {
        Ok(last) => Ok(leading + last),
        Err(before) => Err(leading + before),
    }
}

/// Parses the first byte of `bytes` if it ends a control sequence, an escape sequence or an
/// operating system command, and performs the completed sequence or command. Returns the number of
/// bytes read, 0 or 1.
///
/// # Errors
///
/// If an allocation fails, returns the number of bytes read before the byte
/// that required it.
#[inline(always)]
fn end_sequence<CB: Callbacks>(
    scanner: &mut Scanner,
    screen: &mut Screen,
    callbacks: &mut CB,
    erasures: &mut u64,
    bytes: &[u8],
) -> Result<usize, usize>
    requires { 0 < length bytes.now }
    ensures last { IfOk result (λ count. CallsByLast callbacks.old screen.old scanner.old bytes.now count callbacks.new) }
    ensures read { ReadsOrStops CB.does (parser_value scanner.old screen.old callbacks.old) bytes.now
        (parser_value scanner.new screen.new callbacks.new) result }
    ensures erased { CountsRead scanner.old bytes.now erasures.old erasures.new result }
{
    if scanner.take_final_byte(bytes[0]) {
        return match control_sequence(scanner, screen, callbacks, bytes[0]) {
            Ok(()) => {
                count_sequence(scanner, bytes[0], erasures);
                Ok(1)
            }
            Err(_) => Err(0),
        };
    }
    if scanner.take_escape_byte(bytes[0]) {
        escape_sequence(scanner, screen, callbacks, bytes[0]);
        count_escape(scanner, bytes[0], erasures);
        return Ok(1);
    }
    if scanner.take_command_byte(bytes[0]) {
        command(scanner, screen, callbacks);
        scanner.release_text();
        return Ok(1);
    }
    Ok(0)
}

/// Parses and applies the complete multibyte character at the start of `bytes`, and returns its
/// length in bytes. If there is no such character, parses and applies bytes of a control string or
/// a single byte, as [`process_rest`] does, and returns the number of bytes read.
///
/// # Errors
///
/// If an allocation fails, returns the number of bytes read before the byte that required it.
#[inline(always)]
fn process_one<CB: Callbacks>(
    scanner: &mut Scanner,
    screen: &mut Screen,
    callbacks: &mut CB,
    erasures: &mut u64,
    bytes: &[u8],
) -> Result<usize, usize>
    requires { 0 < length bytes.now }
    ensures progress { IfOk result (λ count. 0 < count) }
    ensures last { IfOk result (λ count. CallsByLast callbacks.old screen.old scanner.old bytes.now count callbacks.new) }
    ensures read { ReadsOrStops CB.does (parser_value scanner.old screen.old callbacks.old) bytes.now
        (parser_value scanner.new screen.new callbacks.new) result }
    ensures erased { CountsRead scanner.old bytes.now erasures.old erasures.new result }
{
    if let Some((character, count)) = scanner.whole_character(bytes) {
        return match print(screen, callbacks, character) {
            Ok(()) => Ok(count),
            Err(_) => Err(count - 1),
        };
    }
    if scanner.is_stray(bytes[0]) {
        return match print_apart(screen, callbacks, char::REPLACEMENT_CHARACTER) {
            Ok(()) => Ok(1),
            Err(_) => Err(0),
        };
    }
    process_rest(scanner, screen, callbacks, erasures, bytes)
}

/// Parses and applies the leading bytes of `bytes` that belong to a control string (OSC, DCS, SOS,
/// PM or APC) whose introducer has already been parsed. If there are no such bytes, parses and
/// applies one byte. Returns the number of bytes read.
///
/// # Errors
///
/// If an allocation fails, returns the number of bytes read before the byte
/// that required it.
#[inline(always)]
fn process_rest<CB: Callbacks>(
    scanner: &mut Scanner,
    screen: &mut Screen,
    callbacks: &mut CB,
    erasures: &mut u64,
    bytes: &[u8],
) -> Result<usize, usize>
    requires { 0 < length bytes.now }
    ensures progress { IfOk result (λ count. 0 < count) }
    ensures last { IfOk result (λ count. CallsByLast callbacks.old screen.old scanner.old bytes.now count callbacks.new) }
    ensures read { ReadsOrStops CB.does (parser_value scanner.old screen.old callbacks.old) bytes.now
        (parser_value scanner.new screen.new callbacks.new) result }
    ensures erased { CountsRead scanner.old bytes.now erasures.old erasures.new result }
{
    let skipped = scanner.skipped_len(bytes);
    if skipped > 0 {
        return Ok(skipped);
    }
    let Ok(collected) = scanner.take_command_text(bytes) else {
        return Err(0);
    };
    if collected > 0 {
        return Ok(collected);
    }
    let Ok(events) = scanner.feed(bytes[0]) else {
        return Err(0);
    };
    match perform_each(scanner, screen, callbacks, events) {
        Ok(()) => {
            count_each(scanner, events, erasures);
            scanner.release_text();
            Ok(1)
        }
        Err(_) => Err(0),
    }
}

/// Prints the printable ASCII characters at the start of `bytes`, stopping at
/// the end of the cursor's row, and returns how many were printed. If the
/// cursor is already past the last column, prints one character, which may
/// scroll the screen.
///
/// # Errors
///
/// If there is not enough memory to keep the row that scrolls off the top,
/// returns the number of bytes read before the byte that caused the scrolling.
#[inline]
fn print_some<CB: Callbacks>(
    scanner: &Scanner,
    screen: &mut Screen,
    callbacks: &mut CB,
    bytes: &[u8],
) -> Result<usize, usize>
    requires nonempty { 0 < length bytes.now }
    requires itself { ReadsItself scanner.now (slice_index_or bytes.now 0 0) }
    ensures progress { IfOk result (λ count. 0 < count) }
    ensures last { IfOk result (λ count. CallsByLast callbacks.old screen.old scanner.now bytes.now count callbacks.new) }
    ensures read { ReadsOrStops CB.does (parser_value scanner.now screen.old callbacks.old) bytes.now
        (parser_value scanner.now screen.new callbacks.new) result }
    ensures keeps { (count : ℕ) → CountsRead scanner.now bytes.now count count result }
{
    let room = usize::from(printing::room(screen));
    if room == 0 {
        return match print_apart(screen, callbacks, char::from(bytes[0])) {
            Ok(()) => Ok(1),
            Err(_) => Err(0),
        };
    }
    let fitting = bytes.len().min(room);
    let count = scanner.text_len(&bytes[..fitting]);
    printing::print_text(screen, &bytes[..count]);
    Ok(count)
}

/// Parses and applies a run of wide characters, or a run of narrow characters, at the start of
/// `bytes`. If there is no such run, parses and applies a single character or other bytes, as
/// [`process_one`] does. The first byte must be at least 0x80. Returns the number of bytes read.
///
/// # Errors
///
/// If an allocation fails, returns the number of bytes read before the byte that required it.
#[inline(always)]
fn process_high<CB: Callbacks>(
    scanner: &mut Scanner,
    screen: &mut Screen,
    callbacks: &mut CB,
    erasures: &mut u64,
    bytes: &[u8],
) -> Result<usize, usize>
    requires { 0 < length bytes.now }
    ensures progress { IfOk result (λ count. 0 < count) }
    ensures last { IfOk result (λ count. CallsByLast callbacks.old screen.old scanner.old bytes.now count callbacks.new) }
    ensures read { ReadsOrStops CB.does (parser_value scanner.old screen.old callbacks.old) bytes.now
        (parser_value scanner.new screen.new callbacks.new) result }
    ensures erased { CountsRead scanner.old bytes.now erasures.old erasures.new result }
{
    let printed = print_run(scanner, screen, bytes);
    if printed > 0 {
        return Ok(printed);
    }
    process_one(scanner, screen, callbacks, erasures, bytes)
}

/// Prints a run of three-byte wide characters, or a run of narrow characters below U+3000, from the
/// start of `bytes`, stopping at the end of the cursor's row. Returns the number of bytes read,
/// which is 0 if nothing was printed.
#[inline(always)]
fn print_run(scanner: &Scanner, screen: &mut Screen, bytes: &[u8]) -> usize
    requires { 0 < length bytes.now }
    ensures { ReadsSilently scanner.now screen.old bytes.now result screen.new }
{
    match bytes[0] {
        // The most common combining characters begin with CC or CD. They end a run at once, so
        // trying to print a run would cost more than it saves.
        0xc2..=0xcb | 0xce..=0xe2 => print_narrow_run(scanner, screen, bytes),
        0xe3..=0xed => print_wide_run(scanner, screen, bytes),
        _ => 0,
    }
}

/// Prints a run of at most 64 three-byte wide characters from the start of `bytes`, stopping at the
/// end of the cursor's row. Returns the number of bytes read, which is 0 if nothing was printed.
///
/// This function is never inlined, so that its buffer takes up stack space only while it runs. The
/// buffer is not filled if the row has no room for a wide character.
#[inline(never)]
fn print_wide_run(scanner: &Scanner, screen: &mut Screen, bytes: &[u8]) -> usize
    ensures { ReadsSilently scanner.now screen.old bytes.now result screen.new }
{
    if printing::room(screen) < 2 {
        return 0;
    }
    let mut text = ['\0'; RUN];
    print_wide_some(scanner, screen, bytes, &mut text)
}

/// Decodes a run of three-byte wide characters from the start of `bytes` into the buffer `text`,
/// and prints it. The run holds at most as many characters as fit in `text` and on the cursor's
/// row. Returns the number of bytes read, which is 0 if nothing was printed.
#[inline(always)]
fn print_wide_some(scanner: &Scanner, screen: &mut Screen, bytes: &[u8], text: &mut [char]) -> usize
    ensures { ReadsSilently scanner.now screen.old bytes.now result screen.new }
{
    let most = bytes.len().min(3 * usize::from(printing::room(screen) / 2));
    let count = scanner.wide_text(&bytes[..most], text);
    if count == 0 {
        return 0;
    }
    printing::print_wide_text(screen, &text[..count]);
    3 * count
}

/// Prints a run of at most 64 narrow characters below U+3000 from the start of `bytes`, stopping at
/// the end of the cursor's row. Returns the number of bytes read, which is 0 if nothing was
/// printed.
///
/// This function is never inlined, so that its buffer takes up stack space only while it runs.
#[inline(never)]
fn print_narrow_run(scanner: &Scanner, screen: &mut Screen, bytes: &[u8]) -> usize
    ensures { ReadsSilently scanner.now screen.old bytes.now result screen.new }
{
    let mut text = ['\0'; RUN];
    print_narrow_some(scanner, screen, bytes, &mut text)
}

/// Decodes a run of narrow characters below U+3000 from the start of `bytes` into the buffer
/// `text`, and prints it. The run holds at most as many characters as fit in `text` and on the
/// cursor's row. Returns the number of bytes read, which is 0 if nothing was printed.
#[inline(always)]
fn print_narrow_some(
    scanner: &Scanner,
    screen: &mut Screen,
    bytes: &[u8],
    text: &mut [char],
) -> usize
    ensures { ReadsSilently scanner.now screen.old bytes.now result screen.new }
{
    let most = text.len().min(usize::from(printing::room(screen)));
    print_narrow_fitting(scanner, screen, bytes, &mut text[..most])
}

/// Decodes a run of narrow characters below U+3000 from the start of `bytes` into the buffer
/// `text`, and prints it. The run holds at most `text.len()` characters, and the cursor's row must
/// have room for that many. Returns the number of bytes read, which is 0 if nothing was printed.
#[inline(always)]
fn print_narrow_fitting(
    scanner: &Scanner,
    screen: &mut Screen,
    bytes: &[u8],
    text: &mut [char],
) -> usize
    requires room { length text.old ≤ screen.old.page.width - screen.old.page.column }
    ensures { ReadsSilently scanner.now screen.old bytes.now result screen.new }
{
    let (count, len) = scanner.narrow_text(bytes, text);
    if count == 0 {
        return 0;
    }
    printing::print_narrow_text(screen, &text[..count]);
    len
}

/// Applies the events that a single input byte has produced, in order.
///
/// # Errors
///
/// Returns `Error::OutOfMemory` if an allocation fails. The steps before the
/// failing one remain in effect.
#[inline(always)]
#[tactic(auto, using(vt_rows::proofs::RowTexts::folds_then, crate::proofs::Running::stops_later))]
fn perform_each<CB: Callbacks>(
    scanner: &Scanner,
    screen: &mut Screen,
    callbacks: &mut CB,
    events: Events,
) -> Result<(), Error>
    ensures { PerformsOrBreaks CB.does (state callbacks.old screen.old)
        (events_in scanner.now events) (state callbacks.new screen.new) result }
{
    perform_some(scanner, screen, callbacks, events.first)?;
    perform_some(scanner, screen, callbacks, events.second)?;
    Ok(())
}

/// Applies `event`, or does nothing if it is `None`.
///
/// # Errors
///
/// Returns `Error::OutOfMemory` if an allocation fails. The steps before the failing one remain in
/// effect.
#[inline(always)]
fn perform_some<CB: Callbacks>(
    scanner: &Scanner,
    screen: &mut Screen,
    callbacks: &mut CB,
    event: Option<Event>,
) -> Result<(), Error>
    ensures { PerformsOrBreaks CB.does (state callbacks.old screen.old)
        (map (event_of scanner.now) (option_to_list event)) (state callbacks.new screen.new) result }
{
    let Some(event) = event else {
        return Ok(());
    };
    perform(scanner, screen, callbacks, event)?;
    Ok(())
}
