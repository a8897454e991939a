//! The engine of the program `vtmirror`, which turns its input into updates for
//! one viewer.

ghost use Rattle.std.specs.Io.KnownBytes.{Keeps};
ghost use Rattle.std.specs.Prelude.{◌≡◌, ◌≢◌, ◌<◌, ◌↔◌, Err, IfErr, IfOk, None, OnOk, Some, map, string_bytes, true};
ghost use Rattle.vt_mirror.specs.Program.{AskFor, AskForNothing};
ghost use Rattle.vt_mirror.specs.Internals.{IsBegun, ReadsAtMost, ReadsFewer, ReadsStretch};
ghost use Rattle.vt_mirror.specs.Internals.{WritesUpdate, WritesUpdatePart};
ghost use Rattle.vt_mirror.specs.Runs.{UpdatesOrFails};
ghost use Rattle.vt_mirror.specs.Mirror.{is_viewer};
ghost use Rattle.vt_screen.specs.Screen.{fresh_screen};
ghost use Rattle.vt_show.specs.declared.faults.Fault.{Fault};

use crate::mirror::Mirror;
use crate::words::asked;
use std::alloc::Global;
use std::io::{Read, Write};
use std::num::NonZeroU16;
use vt_show::{Fault, write_text};

/// The maximum number of bytes read at once.
const BUFFER_SIZE: usize = 8192;

/// Reads all input into a mirror of the given size, without scrollback and with
/// one viewer, and writes that viewer's updates.
///
/// One update is written at the start, one after every `every` bytes, and one
/// at the end. Each update is flushed. A fresh terminal of the same size that
/// reads the output displays the screen as it was at the last update, if the
/// screen was steady (each glyph reproduces itself when printed) at each
/// update.
///
/// # Errors
///
/// Nothing more is written after a fault.
///
/// - `Fault::Read` if a read fails, even if it was only interrupted. All
///   updates that were due for the bytes read have been written.
/// - `Fault::Memory` if an allocation fails. At most one update that was due
///   has not been written.
/// - `Fault::Write` if a write or a flush fails, or if the writer accepts no
///   bytes. An interrupted write is retried. All updates before the failing one
///   have been written, as well as a prefix (possibly all) of the failing
///   update. No input has been read beyond the bytes for which that update was
///   due.
pub fn run<R: Read, W: Write>(
    alloc: Global,
    reader: &mut R,
    writer: &mut W,
    rows: NonZeroU16,
    cols: NonZeroU16,
    every: NonZeroU16,
) -> Result<(), Fault>
    ensures call { UpdatesOrFails (λ fault. fault) (fresh_screen rows.value cols.value 0) every.value
        (R.remaining reader.old) (R.remaining reader.new) (W.contents writer.old) (W.contents writer.new) result }
{
    let Ok(mut mirror) = Mirror::new(alloc, rows, cols, 0) else {
        return Err(Fault::Memory);
    };
    let Ok(viewer) = mirror.join() else {
        return Err(Fault::Memory);
    };
    let every = usize::from(every.get());
    run_viewer(&mut mirror, viewer, reader, writer, every)
}

/// Calls [`run`] with the size and the interval given by the command-line
/// arguments `words`, which do not include the program's name.
///
/// # Errors
///
/// Returns the fault of [`run`], or `None` if the arguments are invalid (see
/// [`arguments`](crate::arguments)). If they are invalid, nothing is read or
/// written.
pub fn run_words<R: Read, W: Write>(
    alloc: Global,
    words: &[String],
    reader: &mut R,
    writer: &mut W,
) -> Result<(), Option<Fault>>
    ensures wrong { result ≡ Err None ↔ AskForNothing (map (λ word. string_bytes word) words.now) }
    ensures nothing { result ≡ Err None → Keeps (R.remaining reader.old) (R.remaining reader.new)
        × Keeps (W.contents writer.old) (W.contents writer.new) }
    ensures asked { result ≢ Err None → AskFor (map (λ word. string_bytes word) words.now)
        (λ rows cols every. UpdatesOrFails Some (fresh_screen rows cols 0) every
        (R.remaining reader.old) (R.remaining reader.new) (W.contents writer.old) (W.contents writer.new) result) }
{
    let Some((rows, cols, every)) = asked(words) else {
        return Err(None);
    };
    match run(alloc, reader, writer, rows, cols, every) {
        Ok(()) => Ok(()),
        Err(fault) => Err(Some(fault)),
    }
}

/// Reads all input and writes the updates of a viewer that has just joined: one at the start, one
/// after every `every` bytes, and one at the end. Returns the faults that [`run`] describes.
fn run_viewer<R: Read, W: Write>(
    mirror: &mut Mirror,
    viewer: u64,
    reader: &mut R,
    writer: &mut W,
    every: usize,
) -> Result<(), Fault>
    requires nonempty { 0 < every }
    requires begun { IsBegun mirror.old viewer }
    ensures { UpdatesOrFails (λ fault. fault) mirror.old.parser.screen every
        (R.remaining reader.old) (R.remaining reader.new) (W.contents writer.old) (W.contents writer.new) result }
{
    let mut buffer = [0; BUFFER_SIZE];
    write_update(mirror, viewer, writer)?;
    for _ in 0..u64::MAX {
        let is_whole = read_stretch(mirror, reader, &mut buffer, every)?;
        write_update(mirror, viewer, writer)?;
        if !is_whole {
            return Ok(());
        }
    }
    Err(Fault::Read)
}

/// Reads `every` bytes into the mirror, or all remaining bytes if there are fewer. Returns whether
/// `every` bytes were read. Returns `Fault::Read` if a read fails, and `Fault::Memory` if an
/// allocation fails.
fn read_stretch<R: Read>(
    mirror: &mut Mirror,
    reader: &mut R,
    buffer: &mut [u8; BUFFER_SIZE],
    every: usize,
) -> Result<bool, Fault>
    requires { 0 < every }
    ensures stretch { IfOk result (λ is_whole. ReadsStretch every is_whole mirror.old mirror.new
        (R.remaining reader.old) (R.remaining reader.new)) }
    ensures read { result ≡ Err Fault.Read → ReadsFewer every (R.remaining reader.old) (R.remaining reader.new) }
    ensures memory { result ≡ Err Fault.Memory → ReadsAtMost every (R.remaining reader.old) (R.remaining reader.new) }
    ensures fault { IfErr result (λ fault. fault ≢ Fault.Write) }
{
    let mut left = every;
    for _ in 0..u64::MAX {
        let size = left.min(BUFFER_SIZE);
        let Ok(count) = reader.read(&mut buffer[..size]) else {
            return Err(Fault::Read);
        };
        if count == 0 {
            return Ok(false);
        }
        if mirror.process(&buffer[..count]).is_err() {
            return Err(Fault::Memory);
        }
        left = left.saturating_sub(count);
        if left == 0 {
            return Ok(true);
        }
    }
    Err(Fault::Read)
}

/// Writes the viewer's next update and flushes the writer. Returns `Fault::Memory` if an allocation
/// fails, and `Fault::Write` if the update cannot be written.
fn write_update<W: Write>(mirror: &mut Mirror, viewer: u64, writer: &mut W) -> Result<(), Fault>
    requires { is_viewer mirror.old.viewers viewer ≡ true }
    ensures writes { OnOk result
        (WritesUpdate mirror.old viewer mirror.new (W.contents writer.old) (W.contents writer.new)) }
    ensures memory { result ≡ Err Fault.Memory → Keeps (W.contents writer.old) (W.contents writer.new) }
    ensures part { result ≡ Err Fault.Write →
        WritesUpdatePart mirror.old viewer mirror.new (W.contents writer.old) (W.contents writer.new) }
    ensures fault { IfErr result (λ fault. fault ≢ Fault.Read) }
{
    let Ok(answer) = mirror.update(viewer) else {
        return Err(Fault::Memory);
    };
    let Some(update) = answer else {
        return Ok(());
    };
    write_text(writer, update.text())
}
