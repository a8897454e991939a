//! Replays recorded cases and scripts. However the bytes of a case are split, a new parser must
//! have the display and invoke the callbacks that the case specifies, and its output must reproduce
//! the display. After each call in a script, the parser must have the state that the script
//! specifies.
//!
//! Each command-line argument is a file to read. Prints a line for each difference, and finally a
//! line with the counts. The exit status is 1 if a case differs.
#![tactic(auto)]

mod case;
mod cut;
mod given;
mod replay;
mod script;
mod text;

use anyhow::{Context, Result, bail};
use case::Case;
use replay::Tally;
use script::Script;
use std::num::NonZeroU16;
use std::process::ExitCode;
use std::rt::{Env, Files};
use std::{env, fs};

/// Replays the cases and scripts of one file.
fn replay_file<R: AllocGlobal + Print>(rt: &R, text: &str, tally: &mut Tally) -> Result<()> {
    let blocks = text
        .strip_prefix("= ")
        .context("a file that begins with no case")?;
    for block in blocks.split("\n= ") {
        let (head, lines) = block.split_once('\n').unwrap_or((block, ""));
        let same = replay_block(rt, head, lines)?;
        tally.count(same);
    }
    Ok(())
}

/// Replays a case, or a script if the first line (`head`) also gives a scrollback capacity.
fn replay_block<R: AllocGlobal + Print>(rt: &R, head: &str, lines: &str) -> Result<bool> {
    let words: Vec<&str> = head.split_whitespace().collect(rt.alloc())?;
    match words.as_slice() {
        [name, rows, cols] => {
            let (rows, cols) = (rows.parse::<NonZeroU16>()?, cols.parse::<NonZeroU16>()?);
            replay::replay(rt, &Case::read(rt.alloc(), name, rows, cols, lines)?)
        }
        [name, rows, cols, capacity] => script::replay(
            rt,
            Script {
                name,
                rows: rows.parse::<NonZeroU16>()?,
                cols: cols.parse::<NonZeroU16>()?,
                capacity: capacity.parse::<usize>()?,
                lines,
            },
        ),
        _ => bail!("a case that begins with {head:?}"),
    }
}

fn replay_files<R: AllocGlobal + Env + Files + Print>(rt: &R) -> Result<Tally> {
    let mut tally = Tally::default();
    for name in env::args(rt)?.skip(1) {
        let text = fs::read_to_string(rt, name.as_str())?;
        replay_file(rt, text.as_str(), &mut tally)?;
    }
    Ok(tally)
}

fn main(rt: HostRuntime) -> Result<ExitCode> {
    let tally = replay_files(&rt)?;
    println!(rt; "{tally}")?;
    if tally.differ > 0 {
        return Ok(ExitCode::FAILURE);
    }
    Ok(ExitCode::SUCCESS)
}
