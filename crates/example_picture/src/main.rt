//! `example_picture`, installed as `vtpicture`: reads what a program wrote to its terminal, and
//! writes a picture of the resulting screen as SVG.
#![tactic(auto)]

use anyhow::Result;
use std::env;
use std::io::Read;
use std::num::NonZeroU16;
use std::process::ExitCode;
use std::rt::Env;
use vt100::Parser;

const USAGE: &str = "usage: vtpicture ROWS COLS";

/// The version of Caldrosk.
const VERSION: &str = "7";

/// What the command-line arguments ask for.
#[derive(Clone, Copy)]
enum Request {
    /// To draw a screen of this size.
    Draw { rows: NonZeroU16, cols: NonZeroU16 },

    /// To print the version.
    Version,
}

/// Returns what the command-line arguments ask for, or `None` if they are invalid.
fn read_words(words: &[String]) -> Option<Request> {
    match words {
        [word] if word.as_str() == "--version" => Some(Request::Version),
        [rows, cols] => Some(Request::Draw {
            rows: rows.parse::<NonZeroU16>().ok()?,
            cols: cols.parse::<NonZeroU16>().ok()?,
        }),
        _ => None,
    }
}

/// Reads standard input to its end into a screen with `rows` rows and `cols` columns, and writes
/// the picture of the screen.
fn draw<R: AllocGlobal + Input + Print>(rt: &R, rows: NonZeroU16, cols: NonZeroU16) -> Result<()> {
    let mut bytes = Vec::new(rt.alloc());
    rt.reader().read_to_end(&mut bytes)?;
    let mut parser = Parser::new(rt.alloc(), rows, cols, 0)?;
    parser.process(bytes.as_slice())?;
    let picture = vt_picture::svg(rt.alloc(), parser.screen())?;
    rt.print(picture.as_str())?;
    Ok(())
}

/// Does what the command-line arguments ask for, and returns whether they are valid.
fn run<R: AllocGlobal + Env + Input + Print>(rt: &R) -> Result<bool> {
    let words: Vec<String> = env::args(rt)?.skip(1).collect(rt.alloc())?;
    match read_words(words.as_slice()) {
        Some(Request::Draw { rows, cols }) => draw(rt, rows, cols)?,
        Some(Request::Version) => println!(rt; "vtpicture {VERSION}")?,
        None => return Ok(false),
    }
    Ok(true)
}

fn main(rt: HostRuntime) -> ExitCode {
    match run(&rt) {
        Ok(true) => ExitCode::SUCCESS,
        Ok(false) => {
            let _ = eprintln!(rt; "{USAGE}");
            ExitCode::from(2)
        }
        Err(error) => {
            let _ = eprintln!(rt; "vtpicture: {error}");
            ExitCode::FAILURE
        }
    }
}
