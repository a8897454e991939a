//! Calls that may allocate: the creation of a parser of the default size, and the writers, notes,
//! recorders and engines that use a parser.

use crate::step;
use std::io;
use std::io::Write;
use vt_notes::{Notes, Recorder};
use vt_show::{Fault, Mode};
use vt100::{Error, Parser};

/// Creates a parser of the default size, and prints the result.
pub fn run_default<R: AllocGlobal + Print>(rt: &R) -> io::Result<()> {
    println!(rt; "-- a parser of the default size")?;
    match Parser::default(rt.alloc()) {
        Ok(parser) => {
            let (rows, cols) = parser.screen().size();
            println!(rt; "default: ok; {rows} rows, {cols} columns")
        }
        Err(_) => println!(rt; "default: refused"),
    }
}

/// Uses a parser as a writer, and prints the results. A title is collected in allocated memory.
pub fn run_writer<R: AllocGlobal + Print>(rt: &R) -> io::Result<()> {
    println!(rt; "-- a parser as a writer")?;
    let (rows, cols) = step::size((1, 4));
    let Ok(mut parser) = Parser::new(rt.alloc(), rows, cols, 0) else {
        return println!(rt; "new: refused");
    };
    for bytes in [b"\x1b]2;t\x07", b"abcdef"] {
        match parser.write(bytes).map_err(|error| error.kind()) {
            Ok(count) => println!(rt; "write: {count} bytes")?,
            Err(io::ErrorKind::OutOfMemory) => println!(rt; "write: out of memory")?,
            Err(io::ErrorKind::Other) => println!(rt; "write: other")?,
            Err(_) => println!(rt; "write: another kind")?,
        }
    }
    Ok(())
}

/// Uses a parser that notes the callbacks it invokes (a bell, a title, and a row that is not kept),
/// and prints the results.
pub fn run_notes<R: AllocGlobal + Print>(rt: &R) -> io::Result<()> {
    println!(rt; "-- calls that are noted")?;
    let (rows, cols) = step::size((1, 4));
    let notes = Notes::new(rt.alloc());
    let Ok(mut parser) = Parser::new_with_callbacks(rt.alloc(), rows, cols, 0, notes) else {
        return println!(rt; "new: refused");
    };
    for bytes in [b"\x07".as_slice(), b"\x1b]2;t\x07", b"a\r\n"] {
        let answer = word(parser.process(bytes));
        let notes = parser.callbacks();
        let (count, complete) = (notes.calls().len(), notes.is_complete());
        println!(rt;
            "process {}: {answer}; {count} noted, all of them: {complete}",
            bytes.escape_ascii()
        )?;
    }
    Ok(())
}

/// Returns the word that is printed for a result.
fn word(answer: Result<(), Error>) -> &'static str {
    match answer {
        Ok(()) => "ok",
        Err(Error::OutOfMemory) => "refused",
        Err(Error::Failed) => "failed",
        Err(Error::NoNumber) => "no number",
    }
}

/// Captures rows as they scroll off, then captures the page twice, and prints the results.
pub fn run_recorder<R: AllocGlobal + Print>(rt: &R) -> io::Result<()> {
    println!(rt; "-- a capture that is written as rows leave")?;
    let (rows, cols) = step::size((1, 8));
    let recorder = Recorder::new(rt.alloc());
    let Ok(mut parser) = Parser::new_with_callbacks(rt.alloc(), rows, cols, 0, recorder) else {
        return println!(rt; "new: refused");
    };
    for bytes in [b"a\r\n".as_slice(), b"abcdefgh\r\n", b"ijklmnop"] {
        let answer = word(parser.process(bytes));
        println!(rt; "process {}: {answer}", bytes.escape_ascii())?;
    }
    for _ in 0..2 {
        let (screen, recorder) = parser.screen_and_callbacks_mut();
        let answer = word(recorder.capture(screen));
        println!(rt; "capture: {answer}")?;
    }
    Ok(())
}

/// A writer that accepts every write, and counts the bytes.
#[derive(Drop)]
struct Counted(usize);

impl Write for Counted {
    fn write(&mut self, buf: &[u8]) -> io::Result<usize> {
        self.0 = self.0.saturating_add(buf.len());
        Ok(buf.len())
    }

    fn flush(&mut self) -> io::Result<()> {
        Ok(())
    }
}

/// Runs the engine of `vtshow`, and prints how the run ends.
pub fn run_show<R: AllocGlobal + Print>(rt: &R) -> io::Result<()> {
    println!(rt; "-- from an input to a text")?;
    let (rows, cols) = step::size((1, 4));
    let mut written = Counted(0);
    let input = b"x\x1b]2;t\x07";
    let answer = ending(vt_show::run(
        rt.alloc(),
        &mut input.as_slice(),
        &mut written,
        rows,
        cols,
        Mode::Formatted,
    ));
    println!(rt; "run: {answer}; {} bytes", written.0)
}

/// Runs the engine of `vtmirror`, with one update at the start, one after four bytes, and one at
/// the end, and prints how the run ends.
pub fn run_mirror<R: AllocGlobal + Print>(rt: &R) -> io::Result<()> {
    println!(rt; "-- from an input to updates")?;
    let (rows, every) = step::size((1, 4));
    let mut written = Counted(0);
    let input = b"x\x1b]2;t\x07";
    let answer = ending(vt_mirror::run(
        rt.alloc(),
        &mut input.as_slice(),
        &mut written,
        rows,
        every,
        every,
    ));
    println!(rt; "run: {answer}; {} bytes", written.0)
}

/// Returns the word that is printed for how a run ends.
fn ending(answer: Result<(), Fault>) -> &'static str {
    match answer {
        Ok(()) => "ok",
        Err(Fault::Memory) => "memory",
        Err(Fault::Read) => "read",
        Err(Fault::Write) => "write",
    }
}
