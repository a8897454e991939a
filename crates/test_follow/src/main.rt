//! `test_follow ROWS COLS SEED FILE`: keeps a terminal equal to a second terminal that parses a
//! recorded stream, by one redraw followed by diffs, and compares the two terminals after each
//! update. Also captures the stream with various scrollback capacities, and lets viewers of a
//! mirror follow the stream.
//!
//! Prints two lines with the counts, each followed by the first difference if there is one. The
//! exit status is 1 if something differs.
#![tactic(auto)]

mod follow;
mod pace;
mod picture;
mod viewers;

use anyhow::{Context, Result};
use pace::Pace;
use picture::{Part, Tally};
use std::num::NonZeroU16;
use std::process::ExitCode;
use std::rt::{Env, Files};
use std::{env, fs};
use viewers::Visits;

fn size(word: &str) -> Result<NonZeroU16> {
    let number = word.parse::<u16>().context("reading a size")?;
    NonZeroU16::new(number).context("a size of nothing")
}

fn follow_file<R: AllocGlobal + Env + Files>(rt: &R) -> Result<(Tally, Visits)> {
    let words: Vec<String> = env::args(rt)?.skip(1).collect(rt.alloc())?;
    let [rows, cols, seed, file] = words.as_slice() else {
        return None.context("usage: test_follow ROWS COLS SEED FILE");
    };
    let (rows, cols) = (size(rows.as_str())?, size(cols.as_str())?);
    let seed = seed.parse::<u32>().context("reading the seed")?;
    let bytes = fs::read(rt, file.as_str())?;
    let (size, pace, bytes) = ((rows, cols), Pace::new(seed), bytes.as_slice());
    let mut tally = follow::follow(rt.alloc(), size, pace, bytes)?;
    if tally.differs.is_none() && !follow::are_one(rt.alloc(), size, bytes)? {
        tally.differs = Some(Part::Captures);
    }
    Ok((tally, viewers::follow(rt.alloc(), size, pace, bytes)?))
}

fn main(rt: HostRuntime) -> Result<ExitCode> {
    let (tally, visits) = follow_file(&rt)?;
    println!(rt; "{tally}\n{visits}")?;
    if tally.differs.is_some() || visits.differs {
        return Ok(ExitCode::FAILURE);
    }
    Ok(ExitCode::SUCCESS)
}
