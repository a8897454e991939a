//! The engine of `vtshow`, which feeds its input to a terminal and writes the resulting screen.

ghost use Rattle.std.specs.Int.NonZero.{non_zero_u16_get};
ghost use Rattle.std.specs.Io.KnownBytes.{Appends, IsAtEnd, Keeps};
ghost use Rattle.std.specs.Prelude.{◌≡◌, ◌≢◌, ◌↔◌, map, true, None, Some, IfOk, IsErr, OnErr, OnOk, Err};
ghost use Rattle.std.specs.Prelude.{string_bytes};
ghost use Rattle.vt_show.specs.Program.{AskFor, AskForNothing};
ghost use Rattle.vt_show.specs.Internals.{HasReadBytes};
ghost use Rattle.vt_show.specs.Shown.{AppendsPart, IsOfMode, ShowsOrFails, screen_text};
ghost use Rattle.vt_show.specs.declared.faults.Fault.{Fault};

use crate::faults::Fault;
use crate::mode::Mode;
use crate::words::asked;
use std::alloc::Global;
use std::io::{ErrorKind, Read, Write};
use std::num::NonZeroU16;
use vt100::{Parser, Screen};

/// The maximum number of bytes read at once.
const BUFFER_SIZE: usize = 8192;

/// Reads all input into a new terminal of the given size without scrollback, and writes only the
/// output that `mode` selects.
///
/// # Errors
///
/// - [`Fault::Memory`] if an allocation fails. Nothing has been written.
/// - [`Fault::Read`] if a read fails, even if it was only interrupted. Nothing has been written.
/// - [`Fault::Write`] if a write or the final flush fails, or if the writer accepts no bytes. An
///   interrupted write is retried. All input has been read, and a prefix of the output, possibly
///   all of it, has been written.
pub fn run<R: Read, W: Write>(
    alloc: Global,
    reader: &mut R,
    writer: &mut W,
    rows: NonZeroU16,
    cols: NonZeroU16,
    mode: Mode,
) -> Result<(), Fault>
    ensures call { ShowsOrFails (λ fault. fault) mode (non_zero_u16_get rows) (non_zero_u16_get cols)
        (R.remaining reader.old) (R.remaining reader.new) (W.contents writer.old) (W.contents writer.new) result }
{
    let Ok(mut parser) = Parser::new(alloc, rows, cols, 0) else {
        return Err(Fault::Memory);
    };
    read_all(&mut parser, reader)?;
    let text = text(parser.screen(), mode)?;
    write_text(writer, text.as_str())
}

/// Parses the command-line arguments `words` and calls [`run`] with the result.
///
/// # Errors
///
/// Returns the fault of [`run`], or `None` if the arguments are invalid (see
/// [`arguments`](crate::arguments)). If they are invalid, nothing is read or written.
pub fn run_words<R: Read, W: Write>(
    alloc: Global,
    words: &[String],
    reader: &mut R,
    writer: &mut W,
) -> Result<(), Option<Fault>>
    ensures wrong { result ≡ Err None ↔ AskForNothing (map (λ word. string_bytes word) words.now) }
    ensures nothing { result ≡ Err None → Keeps (R.remaining reader.old) (R.remaining reader.new)
        × Keeps (W.contents writer.old) (W.contents writer.new) }
    ensures asked { result ≢ Err None → AskFor (map (λ word. string_bytes word) words.now)
        (λ rows cols mode. ShowsOrFails Some mode rows cols
        (R.remaining reader.old) (R.remaining reader.new) (W.contents writer.old) (W.contents writer.new) result) }
{
    let Some((rows, cols, mode)) = asked(words) else {
        return Err(None);
    };
    match run(alloc, reader, writer, rows, cols, mode) {
        Ok(()) => Ok(()),
        Err(fault) => Err(Some(fault)),
    }
}

/// Reads all input into the parser. Returns [`Fault::Memory`] if the parser runs out of memory, and
/// [`Fault::Read`] if a read fails.
fn read_all<R: Read>(parser: &mut Parser, reader: &mut R) -> Result<(), Fault>
    ensures end { OnOk result (IsAtEnd (R.remaining reader.new)) }
    ensures ran { OnOk result (HasReadBytes (R.remaining reader.old) (R.remaining reader.new) parser.old parser.new) }
    ensures whole { OnErr result (result ≢ Err Fault.Write) }
    ensures memory { result ≡ Err Fault.Memory → parser.new.is_failed ≡ true }
{
    let mut buffer = [0; BUFFER_SIZE];
    for _ in 0..u64::MAX {
        let Ok(count) = reader.read(&mut buffer) else {
            return Err(Fault::Read);
        };
        if count == 0 {
            return Ok(());
        }
        if parser.process(&buffer[..count]).is_err() {
            return Err(Fault::Memory);
        }
    }
    Err(Fault::Read)
}

/// Returns the output for `screen` that `mode` selects, or [`Fault::Memory`] if an allocation
/// fails.
fn text(screen: &Screen, mode: Mode) -> Result<String, Fault>
    ensures text { IfOk result (λ text. string_bytes text ≡ screen_text mode screen.now) }
    ensures controls { IfOk result (λ text. IsOfMode mode (string_bytes text)) }
    ensures memory { IsErr result → result ≡ Err Fault.Memory }
{
    let text = match mode {
        Mode::Plain => screen.contents(),
        Mode::Formatted => screen.contents_formatted(),
        Mode::Basic => screen.contents_formatted_basic(),
    };
    text.map_err(|_| Fault::Memory)
}

/// Writes `text` and flushes the writer.
///
/// # Errors
///
/// Returns [`Fault::Write`] if a write or the flush fails, or if the writer accepts no bytes. A
/// prefix of the text, possibly all of it, has then been written. An interrupted write is retried.
pub fn write_text<W: Write>(writer: &mut W, text: &str) -> Result<(), Fault>
    ensures text { OnOk result (Appends (W.contents writer.old) (W.contents writer.new) text.now) }
    ensures part { OnErr result (AppendsPart (W.contents writer.old) (W.contents writer.new) text.now) }
    ensures write { IsErr result → result ≡ Err Fault.Write }
{
    write_bytes(writer, text.as_bytes())?;
    if writer.flush().is_err() {
        return Err(Fault::Write);
    }
    Ok(())
}

/// Writes all of `bytes`. Returns [`Fault::Write`] if a write fails or the writer accepts no bytes;
/// an interrupted write is retried. This function is used instead of `Write::write_all`, whose
/// contract does not state what has been written when an error occurs.
fn write_bytes<W: Write>(writer: &mut W, bytes: &[u8]) -> Result<(), Fault>
    ensures all { OnOk result (Appends (W.contents writer.old) (W.contents writer.new) bytes.now) }
    ensures part { OnErr result (AppendsPart (W.contents writer.old) (W.contents writer.new) bytes.now) }
    ensures write { IsErr result → result ≡ Err Fault.Write }
{
    let mut rest = bytes;
    for _ in 0..u64::MAX {
        if rest.is_empty() {
            return Ok(());
        }
        match writer.write(rest) {
            Ok(0) => return Err(Fault::Write),
            Ok(count) => rest = &rest[count..],
            Err(error) if error.kind() == ErrorKind::Interrupted => {}
            Err(_) => return Err(Fault::Write),
        }
    }
    Err(Fault::Write)
}
