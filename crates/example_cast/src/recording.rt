//! The events of a recording, in order.

use crate::cast::{Clock, Event, Header, json};
use anyhow::{Context, Result};
use std::alloc::Global;

/// The header of a recording, and the lines after it.
#[derive(Clone, Copy)]
pub struct Recording<'a> {
    pub header: Header,
    events: &'a str,
}

/// A player of the events of a recording.
pub trait Play {
    /// Plays the event in the line `number`. Returns whether the event after it is wanted.
    fn play(&mut self, event: Event<'_>, number: u64) -> Result<bool>;
}

impl<'a> Recording<'a> {
    /// Reads the header, which is the first line of a recording.
    pub fn read(alloc: Global, text: &'a str) -> Result<Recording<'a>> {
        let (first, events) = text.split_once('\n').unwrap_or((text, ""));
        let header = read_header(alloc, first).context("line 1")?;
        Ok(Recording { header, events })
    }

    /// Plays the events, one in each line that is neither blank nor a comment, until the player
    /// wants no more.
    pub fn play<P: Play>(&self, alloc: Global, player: &mut P) -> Result<()> {
        let mut clock = Clock::new(self.header.version);
        let mut number = 2u64;
        for line in self.events.lines() {
            if self.header.version.has_event(line)
                && !play_line(alloc, player, &mut clock, line, number).context(format_args!(
                    "line {number}"
                ))?
            {
                break;
            }
            number = number.saturating_add(1);
        }
        Ok(())
    }
}

fn read_header(alloc: Global, line: &str) -> Result<Header> {
    Header::read(&json(alloc, line)?)
}

/// Plays the event in a line. Returns whether the event after it is wanted.
fn play_line<P: Play>(
    alloc: Global,
    player: &mut P,
    clock: &mut Clock,
    line: &str,
    number: u64,
) -> Result<bool> {
    let value = json(alloc, line)?;
    player.play(Event::read(&value, clock)?, number)
}
