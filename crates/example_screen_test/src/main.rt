//! `example_screen_test [demo]`: tests what a terminal displays after a program's output. Each case
//! in a table has some output, the size of the terminal, and the texts that must be on its screen,
//! with their positions and attributes.
//!
//! Prints `ok` and the name of each case that passes. For a case that fails, prints the expected
//! screen beside the actual one, and what is missing. The exit status is 1 if a case fails.
#![tactic(auto)]

mod cases;
mod check;
mod picture;

use anyhow::{Context, Result};
use cases::{CASES, Case, WRONG};
use std::alloc::Global;
use std::env;
use std::num::NonZeroU16;
use std::process::ExitCode;
use vt100::{Parser, Screen};

/// The number of cases that passed, and the number that failed.
#[derive(Clone, Copy)]
struct Tally {
    passed: u64,
    failed: u64,
}

/// Creates a terminal of the size that a case specifies.
fn terminal(alloc: Global, case: &Case) -> Result<Parser> {
    let rows = NonZeroU16::new(case.rows).context("a case without rows")?;
    let columns = NonZeroU16::new(case.columns).context("a case without columns")?;
    Ok(Parser::new(alloc, rows, columns, 0)?)
}

/// Tests a case, prints the result, and counts it.
fn test_case<R: AllocGlobal + Print>(rt: &R, case: &Case, tally: &mut Tally) -> Result<()> {
    let mut parser = terminal(rt.alloc(), case)?;
    parser.process(case.output.as_bytes())?;
    judge(rt, case, parser.screen(), tally)
}

/// Prints whether a screen displays what a case expects, and counts the result.
fn judge<R: AllocGlobal + Print>(
    rt: &R,
    case: &Case,
    seen: &Screen,
    tally: &mut Tally,
) -> Result<()> {
    if check::holds(seen, case) {
        tally.passed = tally.passed.saturating_add(1);
        println!(rt; "ok {}", case.name)?;
        return Ok(());
    }
    tally.failed = tally.failed.saturating_add(1);
    println!(rt; "failed {}", case.name)?;
    let mut expected = terminal(rt.alloc(), case)?;
    picture::draw(rt.alloc(), &mut expected, case)?;
    picture::print_both(rt, expected.screen(), seen)?;
    check::print_misses(rt, seen, case)
}

/// Tests each case of a table.
fn test_all<R: AllocGlobal + Print>(rt: &R, cases: &[Case], tally: &mut Tally) -> Result<()> {
    for case in cases {
        test_case(rt, case, tally)?;
    }
    Ok(())
}

/// Returns whether the command-line arguments ask for the failing cases too, or `None` if the
/// arguments are invalid.
fn read_words(words: &[String]) -> Option<bool> {
    match words {
        [] => Some(false),
        [word] if word.as_str() == "demo" => Some(true),
        _ => None,
    }
}

fn main(rt: HostRuntime) -> Result<ExitCode> {
    let words: Vec<String> = env::args(&rt)?.skip(1).collect(rt.alloc())?;
    let Some(is_demo) = read_words(words.as_slice()) else {
        eprintln!(rt; "usage: example_screen_test [demo]")?;
        return Ok(ExitCode::from(2));
    };
    let mut tally = Tally {
        passed: 0,
        failed: 0,
    };
    test_all(&rt, &CASES, &mut tally)?;
    if is_demo {
        test_all(&rt, &WRONG, &mut tally)?;
    }
    println!(rt; "{} passed, {} failed", tally.passed, tally.failed)?;
    Ok(if tally.failed == 0 {
        ExitCode::SUCCESS
    } else {
        ExitCode::FAILURE
    })
}
