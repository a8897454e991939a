//! `test_soak SEED STEPS`: a long random run. Two terminals parse the same random bytes, split
//! differently, and receive the same calls in between. A third terminal is kept equal to them by
//! diffs, and a fourth terminal by redraws. The third and the fourth terminal also parse the output
//! of screens that are not steady; the displays of these two terminals are not checked again until
//! the next steady screen.
//!
//! Finally prints a line with the counts, or a line with the first difference and its step. The
//! exit status is 1 if something differs. If standard error is a terminal, the progress is printed
//! there from time to time.
#![tactic(auto)]

mod checks;
mod digest;
mod part;
mod random;
mod reader;
mod round;

use anyhow::{Context, Result};
use part::Tally;
use random::Dice;
use std::env;
use std::io::IsTerminal;
use std::process::ExitCode;
use std::rt::Env;

/// The number of steps between two lines that report the progress.
const PACE: u64 = 100_000;

/// The number of steps after which all terminals are replaced, with a different size and scrollback
/// capacity.
const ROUND: u64 = 2000;

fn words<R: AllocGlobal + Env>(rt: &R) -> Result<(u64, u64)> {
    let words: Vec<String> = env::args(rt)?.skip(1).collect(rt.alloc())?;
    let [seed, steps] = words.as_slice() else {
        return None.context("usage: test_soak SEED STEPS");
    };
    let seed = seed.parse::<u64>().context("reading the seed")?;
    let steps = steps.parse::<u64>().context("reading the number of steps")?;
    Ok((seed, steps))
}

/// Runs rounds until all steps are done or something differs.
fn soak<R: AllocGlobal + Env + Eprint>(rt: &R, is_terminal: bool) -> Result<Tally> {
    let (seed, steps) = words(rt)?;
    let mut tally = Tally::new(seed);
    let mut dice = Dice::new(seed);
    for _ in 0..steps.div_ceil(ROUND) {
        let left = steps.saturating_sub(tally.steps);
        round::run(rt.alloc(), &mut dice, &mut tally, left.min(ROUND))?;
        if tally.differs.is_some() {
            break;
        }
        if is_terminal && tally.steps % PACE == 0 {
            eprintln!(rt; "{tally}")?;
        }
    }
    Ok(tally)
}

fn main(rt: HostRuntime) -> Result<ExitCode> {
    let is_terminal = rt.stderr().is_terminal();
    let tally = soak(&rt, is_terminal)?;
    println!(rt; "{tally}")?;
    if tally.differs.is_some() {
        return Ok(ExitCode::FAILURE);
    }
    Ok(ExitCode::SUCCESS)
}
