//! The state after a failed allocation, compared with the states before and after each step.

use crate::pair::{Act, Pair};
use crate::scenes::Scene;
use crate::step::Step;
use crate::tally::Tally;
use crate::whole::are_alike;
use crate::{new_pair, new_parser};
use std::alloc::Global;
use std::fmt;
use vt100::{Error, Parser};

/// The state of a parser after a failed call, determined by making the same calls on a control
/// parser without failures.
#[derive(Clone, Copy)]
pub enum Standing {
    /// The parser is in the state before the call.
    Before,

    /// The parser is in the state after the first `taken` steps of the call's input, which consists
    /// of `of` steps.
    After { taken: usize, of: usize },

    /// The parser is in any other state.
    Other,
}

impl fmt::Display for Standing {
    fn fmt<W: fmt::Write>(&self, f: &mut fmt::Formatter<W>) -> fmt::Result {
        match self {
            Standing::Before => write!(f, "all as before"),
            Standing::After { taken, of } => write!(f, "all as after {taken} of {of} steps"),
            Standing::Other => write!(f, "something else"),
        }
    }
}

/// Inputs in which some step is not a single byte, each with a list of inputs that perform the same
/// steps one by one. In all other input, each byte is a step.
#[rattlefmt::skip]
const STEPS: [(&[u8], &[&[u8]]); 8] = [
    (b"a\x1b[5b", &[b"a", b"a", b"a", b"a", b"a", b"a"]),
    (b"\x1b[2S", &[b"\x1b[2S"]),
    (b"\xef\xb8\x8f", &[b"\xef\xb8\x8f"]),
    (b"\x1b[2;3H\x1b[?1;1049;2004h", &[b"\x1b[2;3H", b"\x1b[?1h", b"\x1b[?1049h", b"\x1b[?2004h"]),
    (b"\x1b[?47h", &[b"\x1b[?47h"]),
    (b"a\r\nb\r\n\xe4\xb8\xad", &[b"a", b"\r", b"\n", b"b", b"\r", b"\n", b"\xe4\xb8\xad"]),
    (b"a\r\nb\r\nc\x1b[?1000h", &[b"a", b"\r", b"\n", b"b", b"\r", b"\n", b"c", b"\x1b[?1000h"]),
    (
        b"\x1b[1;31ma\r\nb\r\nc\r\nd\r\n",
        &[b"\x1b[1;31m", b"a", b"\r", b"\n", b"b", b"\r", b"\n", b"c", b"\r", b"\n", b"d", b"\r", b"\n"],
    ),
];

/// Returns the state of `parser` after step `number` of the scene has failed. The parser has
/// performed all steps before it.
pub fn of_scene(
    alloc: Global,
    scene: &Scene,
    number: usize,
    parser: &Parser<Tally>,
) -> Result<Standing, Error> {
    let mut control = new_parser(alloc, scene.size, scene.scrollback)?;
    for step in scene.steps.iter().take(number) {
        let _ = step.make(alloc, &mut control);
    }
    match scene.steps.get(number) {
        Some(Step::Process(bytes)) => of_reading(alloc, bytes, &mut control, parser),
        _ => of_call(alloc, &control, parser),
    }
}

/// Returns the state of `parser` after a failed call that must not have changed anything. `control`
/// is in the state before the call.
fn of_call(
    alloc: Global,
    control: &Parser<Tally>,
    parser: &Parser<Tally>,
) -> Result<Standing, Error> {
    if are_alike(alloc, control, parser)? {
        return Ok(Standing::Before);
    }
    Ok(Standing::Other)
}

/// Returns the state of `parser` after `process` has failed: the smallest number of steps after
/// which the control parser has the same state. `control` is in the state before the call.
fn of_reading(
    alloc: Global,
    bytes: &[u8],
    control: &mut Parser<Tally>,
    parser: &Parser<Tally>,
) -> Result<Standing, Error> {
    if are_alike(alloc, control, parser)? {
        return Ok(Standing::Before);
    }
    for (read, steps) in &STEPS {
        if *read == bytes {
            return of_pieces(alloc, steps, control, parser);
        }
    }
    of_bytes(alloc, bytes, control, parser)
}

fn of_pieces(
    alloc: Global,
    pieces: &[&[u8]],
    control: &mut Parser<Tally>,
    parser: &Parser<Tally>,
) -> Result<Standing, Error> {
    let mut taken = 0usize;
    for piece in pieces {
        control.process(piece)?;
        taken = taken.saturating_add(1);
        if are_alike(alloc, control, parser)? {
            let of = pieces.len();
            return Ok(Standing::After { taken, of });
        }
    }
    Ok(Standing::Other)
}

/// Returns the state of `parser` after `process` has failed on input in which each byte is a step.
/// `control` is in the state before the call.
fn of_bytes(
    alloc: Global,
    bytes: &[u8],
    control: &mut Parser<Tally>,
    parser: &Parser<Tally>,
) -> Result<Standing, Error> {
    let mut taken = 0usize;
    for byte in bytes.chunks(1) {
        control.process(byte)?;
        taken = taken.saturating_add(1);
        if are_alike(alloc, control, parser)? {
            let of = bytes.len();
            return Ok(Standing::After { taken, of });
        }
    }
    Ok(Standing::Other)
}

/// Returns the state of `pair` after action `number` has failed. The pair has performed all actions
/// before it.
pub fn of_pair(alloc: Global, acts: &[Act], number: usize, pair: &Pair) -> Result<Standing, Error> {
    let Ok(mut control) = new_pair(alloc) else {
        return Err(Error::OutOfMemory);
    };
    for act in acts.iter().take(number) {
        let _ = control.make(alloc, *act);
    }
    match acts.get(number) {
        Some(Act::First(Step::Process(bytes))) => {
            if !are_alike(alloc, &control.second, &pair.second)? {
                return Ok(Standing::Other);
            }
            of_reading(alloc, bytes, &mut control.first, &pair.first)
        }
        Some(Act::Second(Step::Process(bytes))) => {
            if !are_alike(alloc, &control.first, &pair.first)? {
                return Ok(Standing::Other);
            }
            of_reading(alloc, bytes, &mut control.second, &pair.second)
        }
        _ => {
            if !are_alike(alloc, &control.second, &pair.second)? {
                return Ok(Standing::Other);
            }
            of_call(alloc, &control.first, &pair.first)
        }
    }
}
