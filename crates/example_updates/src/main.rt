//! `example_updates ROWS COLS EVERY`: reads what a program writes to its terminal, and writes the
//! escape sequences that keep a second terminal of the same size up to date: first a redraw, and
//! then a diff after each chunk of at most EVERY bytes.
//!
//! The output may go to any real terminal, so it is portable: it avoids sequences on whose effects
//! terminals disagree.
#![tactic(auto)]

use anyhow::Result;
use std::alloc::Global;
use std::env;
use std::io::{self, ErrorKind, Read, Write};
use std::num::NonZeroU16;
use std::process::ExitCode;
use vt100::{DiffOptions, Parser, RedrawOptions, Repeat};

/// The options of redraws.
const REDRAW: RedrawOptions = RedrawOptions { portable: true };

/// The options of diffs.
const DIFF: DiffOptions = DiffOptions {
    scroll: true,
    repeat: Repeat::Never,
    portable: true,
};

/// The settings that the command-line arguments specify.
#[derive(Clone, Copy)]
struct Settings {
    rows: NonZeroU16,
    cols: NonZeroU16,

    /// The maximum number of bytes that are read between two updates.
    every: NonZeroU16,
}

/// Returns the settings that the command-line arguments specify, or `None` if the arguments are
/// invalid.
fn read_arguments(arguments: &[String]) -> Option<Settings> {
    let [rows, cols, every] = arguments else {
        return None;
    };
    Some(Settings {
        rows: rows.parse::<NonZeroU16>().ok()?,
        cols: cols.parse::<NonZeroU16>().ok()?,
        every: every.parse::<NonZeroU16>().ok()?,
    })
}

/// Parses a chunk of input, and writes the diff from the screen before the chunk to the screen
/// after the chunk.
fn update<W: Write>(parser: &mut Parser, writer: &mut W, piece: &[u8]) -> io::Result<()> {
    let before = parser.screen().clone()?;
    parser.process(piece)?;
    let screen = parser.screen();
    let update = if screen.is_sized_as(&before) {
        screen.contents_diff_with(&before, DIFF)?
    } else {
        screen.contents_formatted_with(REDRAW)?
    };
    writer.write_all(update.as_bytes())?;
    writer.flush()
}

/// Reads all input, and writes a redraw of the screen followed by its updates.
fn run<R: Read, W: Write>(
    alloc: Global,
    reader: &mut R,
    writer: &mut W,
    settings: Settings,
) -> io::Result<()> {
    let mut parser = Parser::new(alloc, settings.rows, settings.cols, 0)?;
    let redraw = parser.screen().contents_formatted_with(REDRAW)?;
    writer.write_all(redraw.as_bytes())?;
    let mut buffer = vec![in alloc; 0u8; usize::from(settings.every.get())]?;
    for _ in 0..u64::MAX {
        let count = reader.read(&mut buffer)?;
        if count == 0 {
            return Ok(());
        }
        update(&mut parser, writer, &buffer[..count])?;
    }
    Err(io::Error::other("no end of input"))
}

/// Runs the program as the command-line arguments specify. A closed output is not an error.
fn main(rt: HostRuntime) -> Result<ExitCode> {
    let arguments: Vec<String> = env::args(&rt)?.skip(1).collect(rt.alloc())?;
    let Some(settings) = read_arguments(arguments.as_slice()) else {
        eprintln!(rt; "usage: example_updates ROWS COLS EVERY")?;
        return Ok(ExitCode::from(2));
    };
    let ended = run(rt.alloc(), &mut rt.reader(), &mut io::writer(&rt), settings);
    if let Err(error) = ended {
        if error.kind() != ErrorKind::BrokenPipe {
            return Err(error.into());
        }
    }
    Ok(ExitCode::SUCCESS)
}
