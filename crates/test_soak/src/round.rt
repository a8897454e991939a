//! The steps of a run.

use crate::checks::{is_drawn, is_sound, prints_itself};
use crate::digest::Digest;
use crate::part::{Part, Tally, differing};
use crate::random::{Dice, feed, push_some};
use crate::reader::{read_difference, read_modes, read_redraw, read_unsteady};
use anyhow::Result;
use std::alloc::Global;
use std::mem;
use std::num::NonZeroU16;
use vt100::capture::{BasicFormattedCaptureRange, BasicFormattedCaptureState};
use vt100::{Parser, Screen};

/// The scrollback capacities, one of which is chosen for each round.
const CAPACITIES: [usize; 6] = [0, 1, 3, 20, 1000, usize::MAX];

/// The average number of steps between two comparisons of all rows of scrollback.
const WHOLE: u32 = 16;

/// The terminals of a round, and the bytes that two of them parsed last.
#[derive(Drop)]
struct Round {
    one: Terminal,
    other: Terminal,
    mirror: Parser,
    painter: Parser,
    bytes: Vec<u8>,
}

/// Creates all terminals and takes `steps` steps, stopping early if something differs.
pub fn run(alloc: Global, dice: &mut Dice, tally: &mut Tally, steps: u64) -> Result<()> {
    let mut round = Round::new(alloc, dice)?;
    for _ in 0..steps {
        tally.differs = round.step(alloc, dice, tally)?;
        if tally.differs.is_some() {
            break;
        }
    }
    Ok(())
}

impl Round {
    /// Creates the four terminals of a round. The first two terminals are equal, and the third
    /// terminal may be on its alternate page.
    fn new(alloc: Global, dice: &mut Dice) -> Result<Round> {
        let (rows, cols) = size(dice);
        let capacity = dice.pick(&CAPACITIES).unwrap_or(0);
        let one = Parser::new_with_callbacks(alloc, rows, cols, capacity, Digest::default())?;
        let other = Parser::new_with_callbacks(alloc, rows, cols, capacity, Digest::default())?;
        let (rows, cols) = size(dice);
        let mut mirror = Parser::new(alloc, rows, cols, 0)?;
        if dice.is_one_in(2) {
            mirror.process(b"\x1b[?1049h")?;
        }
        let (rows, cols) = size(dice);
        let painter = Parser::new(alloc, rows, cols, 0)?;
        Ok(Round {
            one,
            other,
            mirror,
            painter,
            bytes: Vec::new(alloc),
        })
    }

    /// Takes one step. Returns the first difference or broken invariant that is found after the
    /// step, if any.
    fn step(&mut self, alloc: Global, dice: &mut Dice, tally: &mut Tally) -> Result<Option<Part>> {
        let prev = self.one.screen().clone()?;
        take_step(dice, tally, &mut self.bytes, &mut self.one, &mut self.other)?;
        let found = twins_part(alloc, dice, &self.one, &self.other)?;
        if found.is_some() {
            return Ok(found);
        }
        let found = screen_part(alloc, self.one.screen())?;
        if found.is_some() {
            return Ok(found);
        }
        let (mirror, painter) = (&mut self.mirror, &mut self.painter);
        readers_part(dice, tally, mirror, painter, self.one.screen(), &prev)
    }
}

/// Returns the part in which two terminals that parsed the same bytes differ, or
/// [`Part::Soundness`] if a screen breaks an invariant.
fn twins_part(
    alloc: Global,
    dice: &mut Dice,
    one: &Terminal,
    other: &Terminal,
) -> Result<Option<Part>> {
    if one.callbacks() != other.callbacks() {
        return Ok(Some(Part::Calls));
    }
    if !is_sound(one.screen()) {
        return Ok(Some(Part::Soundness));
    }
    let found = differing(one.screen(), other.screen());
    if found.is_some() || !dice.is_one_in(WHOLE) {
        return Ok(found);
    }
    let rows = all_rows(alloc, one.screen())?;
    if rows.as_str() != all_rows(alloc, other.screen())?.as_str() {
        return Ok(Some(Part::Rows));
    }
    Ok(None)
}

/// Returns the basic text of all rows of a screen, including scrollback.
fn all_rows(alloc: Global, screen: &Screen) -> Result<String> {
    let mut text = String::new(alloc);
    let mut state = BasicFormattedCaptureState::new();
    let range = BasicFormattedCaptureRange::Full(&mut state);
    screen.write_contents_formatted_basic(&mut text, range)?;
    Ok(text)
}

/// Checks the redraw of a screen and the result of `is_steady`. Returns the part that is wrong, if
/// any.
fn screen_part(alloc: Global, screen: &Screen) -> Result<Option<Part>> {
    if !is_drawn(screen.contents_formatted()?.as_str()) {
        return Ok(Some(Part::Output));
    }
    if prints_itself(alloc, screen)? != screen.is_steady() {
        return Ok(Some(Part::Steadiness));
    }
    Ok(None)
}

/// Feeds the output of `screen` to the terminals `mirror` and `painter`. Returns what differs
/// between the screen and these terminals afterward.
fn readers_part(
    dice: &mut Dice,
    tally: &mut Tally,
    mirror: &mut Parser,
    painter: &mut Parser,
    screen: &Screen,
    prev: &Screen,
) -> Result<Option<Part>> {
    let modes = read_modes(dice, mirror, screen, prev)?;
    if modes.is_some() {
        return Ok(modes);
    }
    if !screen.is_steady() {
        return read_unsteady(dice, tally, mirror, painter, screen, prev);
    }
    let shown = read_difference(dice, tally, mirror, screen, prev)?;
    if shown.is_some() {
        return Ok(shown);
    }
    read_redraw(dice, tally, painter, screen)
}

/// A terminal whose callbacks compute a hash of all calls.
pub type Terminal = Parser<Digest>;

/// Performs one random action on both terminals. In most steps, both terminals parse the same
/// bytes, split differently.
pub fn take_step(
    dice: &mut Dice,
    tally: &mut Tally,
    bytes: &mut Vec<u8>,
    one: &mut Terminal,
    other: &mut Terminal,
) -> Result<()> {
    tally.steps = tally.steps.saturating_add(1);
    match dice.below(64) {
        0 | 1 => resize(dice, one, other),
        2..=4 => view(dice, one, other),
        5 => {
            one.screen_mut().clear_scrollback();
            other.screen_mut().clear_scrollback();
            Ok(())
        }
        6 => copy(one, other),
        7 => {
            mem::swap(one.screen_mut(), other.screen_mut());
            Ok(())
        }
        _ => read(dice, tally, bytes, one, other),
    }
}

fn read(
    dice: &mut Dice,
    tally: &mut Tally,
    bytes: &mut Vec<u8>,
    one: &mut Terminal,
    other: &mut Terminal,
) -> Result<()> {
    bytes.clear();
    push_some(bytes, dice)?;
    tally.bytes = tally.bytes.saturating_add(bytes.len() as u64);
    feed(one, dice, bytes.as_slice())?;
    feed(other, dice, bytes.as_slice())?;
    Ok(())
}

/// Replaces the screen of the first terminal with a copy of the second terminal's screen.
fn copy(one: &mut Terminal, other: &Terminal) -> Result<()> {
    *one.screen_mut() = other.screen().clone()?;
    Ok(())
}

fn view(dice: &mut Dice, one: &mut Terminal, other: &mut Terminal) -> Result<()> {
    let kept = one.screen().scrollback_len();
    let rows = match dice.below(4) {
        0 => 0,
        1 => usize::MAX,
        _ => dice.place(kept.saturating_add(2)),
    };
    one.screen_mut().set_scrollback(rows)?;
    other.screen_mut().set_scrollback(rows)?;
    Ok(())
}

fn resize(dice: &mut Dice, one: &mut Terminal, other: &mut Terminal) -> Result<()> {
    let (rows, cols) = size(dice);
    if dice.is_one_in(2) {
        one.set_size(rows, cols)?;
        other.set_size(rows, cols)?;
    } else {
        one.screen_mut().set_size(rows, cols)?;
        other.screen_mut().set_size(rows, cols)?;
    }
    Ok(())
}

/// Returns a random size: usually small, sometimes larger, and rarely large in one dimension and
/// 1 or 2 in the other.
pub fn size(dice: &mut Dice) -> (NonZeroU16, NonZeroU16) {
    match dice.below(64) {
        0 => (number(dice, 2), number(dice, 300)),
        1 => (number(dice, 300), number(dice, 2)),
        2..=6 => (number(dice, 30), number(dice, 90)),
        _ => (number(dice, 7), number(dice, 12)),
    }
}

/// Returns a random number from 1 to `most`.
fn number(dice: &mut Dice, most: u32) -> NonZeroU16 {
    let number = u16::try_from(dice.up_to(most)).unwrap_or(1);
    NonZeroU16::new(number).unwrap_or(NonZeroU16::MIN)
}
