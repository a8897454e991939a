//! Makes calls that allocate, one after another, and prints the result of each and the state after
//! it.
//!
//! The program makes no other allocations, except at the start: for each byte of standard input it
//! makes one allocation and frees it. If the allocation with a given number is made to fail, the
//! length of the input thus determines in which call it fails. That call must return an error and
//! leave everything else unchanged; `tests/refusals` checks this.
//!
//! If the input is a single exclamation mark, the program allocates all memory first and then makes
//! calls while none is left. `tests/scarce` runs the program in this way with a memory limit.
#![tactic(auto)]

mod mirrors;
mod pair;
mod scarce;
mod scenes;
mod shown;
mod standing;
mod step;
mod tally;
mod users;
mod whole;

use pair::{Act, Pair};
use scenes::{ACTS, MORE_SCENES, MORE_TEXTS, MOVED, REPEATED, ROWS, SCENES, STATES, Scene, TEXTS};
use shown::Shown;
use standing::Standing;
use std::alloc::Global;
use std::io;
use std::io::Read;
use std::num::NonZeroU16;
use tally::Tally;
use vt100::{Error, Parser};

/// The maximum number of bytes of standard input that are read.
const MOST: usize = 1024;

/// The input that requests calls while no memory is left.
const SCARCE: u8 = b'!';

fn main(rt: HostRuntime) -> io::Result<()> {
    let mut input = [0; MOST];
    let count = rt.reader().read(&mut input)?;
    if count == 1 && input[0] == SCARCE {
        return scarce::run(&rt);
    }
    if !has_warmed_up(rt.alloc(), count) {
        return println!(rt; "the allocations that come first: refused");
    }
    run_scenes(&rt)
}

/// Makes `count` allocations and frees each of them. Returns `false` if one fails.
fn has_warmed_up(alloc: Global, count: usize) -> bool {
    for _ in 0..count {
        if Vec::<u8>::with_capacity(alloc, 1).is_err() {
            return false;
        }
    }
    true
}

/// Makes the calls of all scenes, and prints their results.
fn run_scenes<R: AllocGlobal + Print>(rt: &R) -> io::Result<()> {
    for scene in &SCENES {
        run(rt, scene)?;
    }
    run_pair(rt, "pages, sizes and a copy", &ACTS)?;
    users::run_default(rt)?;
    users::run_writer(rt)?;
    users::run_notes(rt)?;
    users::run_show(rt)?;
    run_pair(rt, "texts of two screens", &TEXTS)?;
    run_pair(rt, "states, plain texts and captures", &MORE_TEXTS)?;
    run_pair(rt, "texts of the rows of two screens", &ROWS)?;
    for scene in &MORE_SCENES {
        run(rt, scene)?;
    }
    mirrors::run(rt)?;
    users::run_recorder(rt)?;
    users::run_mirror(rt)?;
    run_pair(rt, "diffs after rows move", &MOVED)?;
    mirrors::run_scrolling(rt)?;
    mirrors::run_sharing(rt)?;
    run_pair(rt, "a difference with REP", &REPEATED)?;
    mirrors::run_repeating(rt)?;
    run_pair(rt, "states with options", &STATES)
}

/// Creates a parser, makes the calls of a scene on it, and prints the results.
fn run<R: AllocGlobal + Print>(rt: &R, scene: &Scene) -> io::Result<()> {
    println!(rt; "-- {}", scene.name)?;
    let Ok(mut parser) = new_parser(rt.alloc(), scene.size, scene.scrollback) else {
        return println!(rt; "new: refused");
    };
    println!(rt; "new: ok; {}", Shown(&parser))?;
    for (number, step) in scene.steps.iter().enumerate() {
        let answer = step.make(rt.alloc(), &mut parser);
        print!(rt; "{step}: {answer}; {}", Shown(&parser))?;
        if answer.is_refusal() {
            print(rt, standing::of_scene(rt.alloc(), scene, number, &parser))?;
        }
        println!(rt)?;
    }
    Ok(())
}

/// Creates two parsers with two rows and a scrollback of one row each, performs the actions on
/// them, and prints the results.
fn run_pair<R: AllocGlobal + Print>(rt: &R, name: &str, acts: &[Act]) -> io::Result<()> {
    println!(rt; "-- {name}")?;
    let mut pair = match new_pair(rt.alloc()) {
        Ok(pair) => pair,
        Err(name) => return println!(rt; "{name} new: refused"),
    };
    for (number, act) in acts.iter().enumerate() {
        let answer = pair.make(rt.alloc(), *act);
        print!(rt; "{act}: {answer}; {}", Shown(pair.changed_by(*act)))?;
        if answer.is_refusal() {
            print(rt, standing::of_pair(rt.alloc(), acts, number, &pair))?;
        }
        println!(rt)?;
    }
    Ok(())
}

/// Creates two parsers. If a parser cannot be allocated, returns the name of that parser as the
/// error.
fn new_pair(alloc: Global) -> Result<Pair, &'static str> {
    let Ok(first) = new_parser(alloc, (2, 4), 1) else {
        return Err("first");
    };
    match new_parser(alloc, (2, 4), 1) {
        Ok(second) => Ok(Pair { first, second }),
        Err(_) => Err("second"),
    }
}

/// Prints the state that was determined after a failed call.
fn print<R: Print>(rt: &R, standing: Result<Standing, Error>) -> io::Result<()> {
    match standing {
        Ok(standing) => print!(rt; "; {standing}"),
        Err(_) => print!(rt; "; refused once more"),
    }
}

/// Creates a parser of the given size, with callbacks that count calls and a scrollback of at most
/// `scrollback` rows.
fn new_parser(alloc: Global, size: (u16, u16), scrollback: usize) -> Result<Parser<Tally>, Error> {
    let (rows, cols) = step::size(size);
    Parser::new_with_callbacks(alloc, rows, cols, scrollback, Tally::default())
}
