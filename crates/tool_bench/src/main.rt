//! `tool_bench WHAT ROWS COLS CAPACITY TIMES FILE`: makes one call many times, so that its
//! instructions can be counted.
//!
//! With WHAT `process`, one parser parses FILE TIMES times, in chunks of 4096 bytes. With any other
//! WHAT, the parser parses the first half of FILE, keeps a copy of the screen, parses the rest, and
//! then makes the call on the screen TIMES times. Prints the name of the call, the number of calls,
//! and the number of bytes that they parsed or wrote. For `clone`, `add-row` and `add-column`,
//! prints the number of rows that the screens have instead, and for `steady` the number of calls
//! that returned `true`.
//!
//! `tool_bench lengths ROWS COLS CAPACITY EVERY FILE` prints the total lengths in bytes of
//! `contents_diff`, of `contents_diff_scrolling`, of `contents_diff_with` with `scroll`, for REP after
//! any character and for REP after ASCII characters, and of portable diffs without and with `scroll`,
//! and those of redraws and portable redraws. One of each is taken after every EVERY bytes of FILE
//! and one at its end. Each diff starts from the screen at the previous diff; the first diff starts
//! from a new screen.
//!
//! `tool_bench texts ROWS COLS CAPACITY EVERY FILE` prints the same diffs, redraws of the same
//! screens, portable diffs and redraws, and what these screens display: see `bench/terminals`.
//!
//! `tool_bench mirror WHAT CALL ROWS COLS CAPACITY VIEWERS EVERY FILE` feeds FILE to a mirror with
//! many viewers: see `bench/mirrors`.
#![tactic(auto)]

mod lengths;
mod mirrors;
mod texts;
mod work;

use anyhow::{Context, Result, bail};
use lengths::{Lengths, Reading};
use mirrors::measure_mirror;
use std::alloc::Global;
use std::num::NonZeroU16;
use std::rt::{Env, Files};
use std::{env, fs};
use texts::show_texts;
use vt100::{Parser, Screen};
use work::Work;

/// The number of bytes that are passed to a parser at a time.
const PIECE: usize = 4096;

/// The measurement that the command-line arguments specify.
#[derive(Clone, Copy)]
struct Task {
    work: Work,
    rows: NonZeroU16,
    cols: NonZeroU16,
    capacity: usize,
    times: u64,
}

fn main(rt: HostRuntime) -> Result<()> {
    run(&rt)
}

fn run<R: AllocGlobal + Env + Files + Print>(rt: &R) -> Result<()> {
    let words: Vec<String> = env::args(rt)?.skip(1).collect(rt.alloc())?;
    measure(rt, words.as_slice())
}

/// Makes the measurement that the command-line arguments specify, and prints its result.
fn measure<R: AllocGlobal + Files + Print>(rt: &R, words: &[String]) -> Result<()> {
    if let Some((what, rest)) = words.split_first()
        && what.as_str() == "mirror"
    {
        return measure_mirror(rt, rest);
    }
    let [what, rows, cols, capacity, times, file] = words else {
        bail!("usage: tool_bench WHAT ROWS COLS CAPACITY TIMES FILE");
    };
    if matches!(what.as_str(), "lengths" | "texts") {
        let reading = Reading {
            rows: rows.parse::<NonZeroU16>()?,
            cols: cols.parse::<NonZeroU16>()?,
            capacity: capacity.parse::<usize>()?,
            every: times.parse::<usize>()?,
        };
        return show_on_the_way(rt, what.as_str(), reading, file.as_str());
    }
    let task = Task {
        work: Work::named(what.as_str()).context("no call of this name")?,
        rows: rows.parse::<NonZeroU16>()?,
        cols: cols.parse::<NonZeroU16>()?,
        capacity: capacity.parse::<usize>()?,
        times: times.parse::<u64>()?,
    };
    let bytes = fs::read(rt, file.as_str())?;
    let count = measured(rt.alloc(), task, bytes.as_slice())?;
    println!(rt; "{what}: {times} times, {count}")?;
    Ok(())
}

/// Parses a file in chunks. If `what` is `texts`, prints the redraw and the diffs of the screen
/// after each chunk. Otherwise, prints the total lengths of the redraws of these screens and of the
/// diffs between successive screens.
fn show_on_the_way<R: AllocGlobal + Files + Print>(
    rt: &R,
    what: &str,
    reading: Reading,
    file: &str,
) -> Result<()> {
    let bytes = fs::read(rt, file)?;
    if what == "texts" {
        return show_texts(rt, reading, bytes.as_slice());
    }
    let Lengths {
        plain,
        scrolling,
        repeating,
        repeating_ascii,
        portable,
        portable_scrolling,
        redraws,
        portable_redraws,
    } = reading.lengths(rt.alloc(), bytes.as_slice())?;
    print!(rt; "{plain} {scrolling} {repeating} {repeating_ascii} ")?;
    println!(rt; "{portable} {portable_scrolling} {redraws} {portable_redraws}")?;
    Ok(())
}

/// Makes the calls of a task, and returns the total of the counts that they return.
fn measured(alloc: Global, task: Task, bytes: &[u8]) -> Result<usize> {
    let mut parser = Parser::new(alloc, task.rows, task.cols, task.capacity)?;
    if let Work::Process = task.work {
        return process_often(&mut parser, task.times, bytes);
    }
    if let Work::AddRow | Work::AddColumn = task.work {
        process(&mut parser, bytes)?;
        return resize_often(parser.screen_mut(), task);
    }
    let (first, rest) = bytes.split_at(bytes.len() / 2);
    call_often(&mut parser, task, first, rest)
}

/// Adds a row or a column to the screen and removes it again, `times` times. Returns the total of
/// the screen's rows after each removal.
fn resize_often(screen: &mut Screen, task: Task) -> Result<usize> {
    let (rows, cols) = match task.work {
        Work::AddRow => (one_more(task.rows)?, task.cols),
        _ => (task.rows, one_more(task.cols)?),
    };
    let mut count = 0usize;
    for _ in 0..task.times {
        screen.set_size(rows, cols)?;
        screen.set_size(task.rows, task.cols)?;
        count = count.saturating_add(usize::from(screen.size().0.get()));
    }
    Ok(count)
}

/// Returns the number after `number`. Fails for 65535.
fn one_more(number: NonZeroU16) -> Result<NonZeroU16> {
    let next = number
        .get()
        .checked_add(1)
        .context("the size is too large")?;
    NonZeroU16::new(next).context("the size is zero")
}

/// Parses the bytes `times` times, and returns the number of bytes parsed.
fn process_often(parser: &mut Parser, times: u64, bytes: &[u8]) -> Result<usize> {
    let mut count = 0usize;
    for _ in 0..times {
        process(parser, bytes)?;
        count = count.saturating_add(bytes.len());
    }
    Ok(count)
}

/// Parses bytes in chunks.
fn process(parser: &mut Parser, bytes: &[u8]) -> Result<()> {
    for piece in bytes.chunks(PIECE) {
        parser.process(piece)?;
    }
    Ok(())
}

/// Parses `first` and `rest`, and then makes the calls of the task. Diffs start from the screen
/// after `first`.
fn call_often(parser: &mut Parser, task: Task, first: &[u8], rest: &[u8]) -> Result<usize> {
    process(parser, first)?;
    let prev = parser.screen().clone()?;
    process(parser, rest)?;
    let mut count = 0usize;
    for _ in 0..task.times {
        count = count.saturating_add(task.work.call(parser.screen(), &prev)?);
    }
    Ok(count)
}
