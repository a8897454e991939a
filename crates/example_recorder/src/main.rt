//! `example_recorder ROWS COLS [--colors]`: reads what a program wrote to its terminal, and writes
//! a log of what was displayed: each row as it scrolls off the top, and at the end the rows of the
//! screen.
//!
//! Rows are written as they scroll off, so a long recording needs no more memory than a short one.
//! A wrapped row and the row after it are written as one line.
#![tactic(auto)]

ghost use Rattle.std.specs.Io.KnownBytes.{IsAtEnd};
ghost use Rattle.std.specs.Prelude.{OnOk};

use anyhow::Result;
use std::alloc::Global;
use std::io::{ErrorKind, Read, Write};
use std::num::NonZeroU16;
use std::process::ExitCode;
use std::{env, io};
use vt100::capture::{
    BasicFormattedCaptureRange, BasicFormattedCaptureState, RowContents, basic_formatted_to_plain,
};
use vt100::{Call, Callbacks, Parser, Screen};

/// The number of bytes that are read at once.
const BUFFER_SIZE: usize = 8192;

/// The settings that the command-line arguments specify.
#[derive(Clone, Copy)]
struct Settings {
    rows: NonZeroU16,
    cols: NonZeroU16,
    keeps_colors: bool,
}

/// Returns the settings that the command-line arguments specify, or `None` if the arguments are
/// invalid.
fn read_words(words: &[String]) -> Option<Settings> {
    let (rows, cols, keeps_colors) = match words {
        [rows, cols] => (rows, cols, false),
        [rows, cols, option] if option.as_str() == "--colors" => (rows, cols, true),
        _ => return None,
    };
    Some(Settings {
        rows: rows.parse::<NonZeroU16>().ok()?,
        cols: cols.parse::<NonZeroU16>().ok()?,
        keeps_colors,
    })
}

/// The part of the log that has not been written yet.
#[derive(Drop)]
struct Log {
    text: String,
    /// The state between rows: whether a line end is pending, and the attributes written last.
    state: BasicFormattedCaptureState,
    /// Whether a row is missing because memory for it could not be allocated.
    has_gap: bool,
}

impl Log {
    fn new(alloc: Global) -> Self {
        Log {
            text: String::new(alloc),
            state: BasicFormattedCaptureState::new(),
            has_gap: false,
        }
    }
}

/// Callbacks that log the rows that scroll off the main page. Rows of the alternate page are
/// ignored, because full-screen programs draw their rows again and again.
impl Callbacks for Log {
    ghost use Rattle.std.specs.Prelude.{◌≡◌};

    // No callback changes the screen.
    ghost does = { λ _ _ before _ after. after ≡ before };

    fn otherwise(&mut self, _screen: &mut Screen, _call: Call<'_>) {}

    fn on_scroll(&mut self, row: RowContents<'_>, alternate: bool) {
        if alternate {
            return;
        }
        if row
            .write_formatted_basic(&mut self.text, &mut self.state)
            .is_err()
        {
            self.has_gap = true;
        }
    }
}

/// Writes the text of rows, with or without its SGR sequences.
fn write_text<W: Write>(writer: &mut W, text: &str, keeps_colors: bool) -> io::Result<()> {
    if keeps_colors {
        return writer.write_all(text.as_bytes());
    }
    for piece in basic_formatted_to_plain(text) {
        writer.write_all(piece.as_bytes())?;
    }
    Ok(())
}

/// Writes the rows that scrolled off since the last call.
fn write_rows<W: Write>(log: &mut Log, writer: &mut W, keeps_colors: bool) -> io::Result<()> {
    if log.has_gap {
        return Err(io::Error::from(ErrorKind::OutOfMemory));
    }
    write_text(writer, log.text.as_str(), keeps_colors)?;
    writer.flush()?;
    log.text.clear();
    Ok(())
}

/// Writes the rows of the final screen, without the blank rows after the last text.
fn write_screen<W: Write>(
    parser: &mut Parser<Log>,
    writer: &mut W,
    keeps_colors: bool,
) -> io::Result<()> {
    let (screen, log) = parser.screen_and_callbacks_mut();
    screen.write_contents_formatted_basic(
        &mut log.text,
        BasicFormattedCaptureRange::Full(&mut log.state),
    )?;
    write_text(writer, log.text.trim_end_matches('\n'), keeps_colors)?;
    let end = if keeps_colors { "\x1b[m\n" } else { "\n" };
    writer.write_all(end.as_bytes())?;
    writer.flush()
}

/// Reads all input, and writes the log of what was displayed.
fn record<R: Read, W: Write>(
    parser: &mut Parser<Log>,
    reader: &mut R,
    writer: &mut W,
    keeps_colors: bool,
) -> io::Result<()>
    ensures end { OnOk result (IsAtEnd (R.remaining reader.new)) }
{
    let mut buffer = [0; BUFFER_SIZE];
    for _ in 0..u64::MAX {
        let count = reader.read(&mut buffer)?;
        if count == 0 {
            write_screen(parser, writer, keeps_colors)?;
            return Ok(());
        }
        parser.process(&buffer[..count])?;
        write_rows(parser.callbacks_mut(), writer, keeps_colors)?;
    }
    Err(io::Error::other("no end of input"))
}

/// Reads standard input, and writes the log to standard output.
fn run<R: AllocGlobal + Input + Print>(rt: &R, settings: Settings) -> io::Result<()> {
    let log = Log::new(rt.alloc());
    let mut parser = Parser::new_with_callbacks(rt.alloc(), settings.rows, settings.cols, 0, log)?;
    record(
        &mut parser,
        &mut rt.reader(),
        &mut io::writer(rt),
        settings.keeps_colors,
    )
}

/// Writes the log of standard input as the command-line arguments specify. A closed output is not
/// an error.
fn main(rt: HostRuntime) -> Result<ExitCode> {
    let words: Vec<String> = env::args(&rt)?.skip(1).collect(rt.alloc())?;
    let Some(settings) = read_words(words.as_slice()) else {
        eprintln!(rt; "usage: example_recorder ROWS COLS [--colors]")?;
        return Ok(ExitCode::from(2));
    };
    if let Err(error) = run(&rt, settings) {
        if error.kind() != ErrorKind::BrokenPipe {
            return Err(error.into());
        }
    }
    Ok(ExitCode::SUCCESS)
}
