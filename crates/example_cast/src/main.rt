//! `example_cast`, installed as `vtcast`: reads a recording made by asciinema, version 2 or 3, and
//! prints the screen at a moment, or plays the recording through a mirror with two viewers, one for
//! each kind of diff. Then it writes the number and length of the output events, the number and
//! length of the updates for each viewer, and the rows that the second viewer displays at the end.
#![tactic(auto)]

mod cast;
mod drawing;
mod moment;
mod player;
mod recording;
mod tally;
mod viewer;
mod words;

use anyhow::{Context, Result};
use moment::{Moment, terminal_at};
use player::Player;
use recording::Recording;
use std::alloc::Global;
use std::io::ErrorKind;
use std::process::ExitCode;
use std::rt::Env;
use std::{env, io};
use tally::Tally;
use vt100::{Error, Screen};
use words::{Form, Request, read_words};

const USAGE: &str = "usage: vtcast [--at SECONDS|--last [--redraw|--svg]] <RECORDING";

/// The version of Caldrosk.
const VERSION: &str = "7";

/// The texts of rows, or the error if a text cannot be allocated.
type Texts = std::result::Result<Vec<String>, Error>;

/// Plays a whole recording through a mirror.
fn play_all(alloc: Global, text: &str) -> Result<Player> {
    let recording = Recording::read(alloc, text)?;
    let header = recording.header;
    let mut player = Player::new(alloc, header.rows, header.cols)?;
    recording.play(alloc, &mut player)?;
    player.update()?;
    Ok(player)
}

/// Writes the counts in `tally`, followed by `rows`, one row per line.
fn write<R: Print>(rt: &R, tally: &Tally, rows: &[String]) -> io::Result<()> {
    println!(rt; "{tally}\n")?;
    write_rows(rt, rows)
}

fn write_rows<R: Print>(rt: &R, rows: &[String]) -> io::Result<()> {
    for row in rows {
        println!(rt; "{row}")?;
    }
    Ok(())
}

/// Returns the result of writing; a closed output is not an error.
fn or_closed(written: io::Result<()>) -> Result<()> {
    match written {
        Err(error) if error.kind() != ErrorKind::BrokenPipe => Err(error.into()),
        _ => Ok(()),
    }
}

fn read_recording<R: AllocGlobal + Input>(rt: &R) -> Result<String> {
    Ok(io::read_to_string(rt.alloc(), rt.reader()).context("reading the recording")?)
}

/// Reads a recording from standard input, and writes the counts and the rows that the second viewer
/// displays.
fn play<R: AllocGlobal + Input + Print>(rt: &R) -> Result<()> {
    let text = read_recording(rt)?;
    let player = play_all(rt.alloc(), text.as_str())?;
    let rows = player.rows(rt.alloc())?;
    or_closed(write(rt, &player.tally(), rows.as_slice()))
}

/// Reads a recording from standard input, and writes the screen at a moment.
fn show<R: AllocGlobal + Input + Print>(rt: &R, moment: Moment, form: Form) -> Result<()> {
    let text = read_recording(rt)?;
    let recording = Recording::read(rt.alloc(), text.as_str())?;
    let terminal = terminal_at(rt.alloc(), &recording, moment)?;
    write_screen(rt, terminal.screen(), form)
}

/// Writes a screen: the text of each row in a line, or the bytes of a redraw or of an image.
fn write_screen<R: AllocGlobal + Print>(rt: &R, screen: &Screen, form: Form) -> Result<()> {
    match form {
        Form::Text => {
            let (_, cols) = screen.size();
            let rows: Texts = screen.rows(0, cols.get()).try_collect(rt.alloc());
            or_closed(write_rows(rt, rows?.as_slice()))
        }
        Form::Redraw => or_closed(rt.print(screen.contents_formatted()?.as_str())),
        Form::Svg => or_closed(rt.print(vt_picture::svg(rt.alloc(), screen)?.as_str())),
    }
}

/// Does what the command-line arguments ask for, and returns whether they are valid.
fn perform<R: AllocGlobal + Env + Input + Print>(rt: &R) -> Result<bool> {
    let words: Vec<String> = env::args(rt)?.skip(1).collect(rt.alloc())?;
    match read_words(words.as_slice()) {
        Some(Request::Play) => play(rt)?,
        Some(Request::Screen(moment, form)) => show(rt, moment, form)?,
        Some(Request::Version) => println!(rt; "vtcast {VERSION}")?,
        None => return Ok(false),
    }
    Ok(true)
}

fn main(rt: HostRuntime) -> ExitCode {
    match perform(&rt) {
        Ok(true) => ExitCode::SUCCESS,
        Ok(false) => {
            let _ = eprintln!(rt; "{USAGE}");
            ExitCode::from(2)
        }
        Err(error) => {
            let _ = eprintln!(rt; "vtcast: {error:#}");
            ExitCode::FAILURE
        }
    }
}
