//! The screen at a moment of a recording.

use crate::cast::{Action, Event, Header};
use crate::drawing::Drawing;
use crate::recording::{Play, Recording};
use anyhow::{Context, Result};
use std::alloc::Global;
use vt100::{Parser, Screen};

/// The difference in seconds up to which two times are the same. Recordings have whole microseconds,
/// but sums of times are rounded.
const ROUNDING: f64 = 0.0000005;

/// A moment of a recording.
#[derive(Clone, Copy)]
pub enum Moment {
    /// The time in seconds since the recording began. All events of that time have happened.
    At(f64),

    /// The last time at which the screen was not blank.
    Last,
}

/// The last event before a moment.
#[derive(Clone, Copy)]
enum Until {
    /// The last event before the first one that happened later than this time.
    Time(f64),

    /// The event in this line.
    Line(u64),
}

impl Until {
    /// Returns whether an event happened before the moment.
    fn includes(self, time: f64, number: u64) -> bool {
        match self {
            Until::Time(last) => time - last <= ROUNDING,
            Until::Line(last) => number <= last,
        }
    }
}

/// A terminal that parses recorded output.
#[derive(Drop)]
pub struct Terminal {
    parser: Parser,
    drawing: Drawing,
}

impl Terminal {
    /// Creates a terminal of the size in a recording's header.
    fn new(alloc: Global, header: Header) -> Result<Terminal> {
        Ok(Terminal {
            parser: Parser::new(alloc, header.rows, header.cols, 0)?,
            drawing: Drawing::new(alloc),
        })
    }

    /// Parses output, or resizes the screen.
    fn act(&mut self, action: Action<'_>) -> Result<()> {
        match action {
            Action::Output(text) => self.parser.process(self.drawing.translate(text)?)?,
            Action::Resize { rows, cols } => self.parser.set_size(rows, cols)?,
            Action::Other => {}
        }
        Ok(())
    }

    /// Returns the screen.
    pub fn screen(&self) -> &Screen {
        self.parser.screen()
    }
}

/// A player that stops at a moment.
#[derive(Drop)]
struct Replay {
    terminal: Terminal,
    until: Until,
}

impl Play for Replay {
    fn play(&mut self, event: Event<'_>, number: u64) -> Result<bool> {
        if !self.until.includes(event.time, number) {
            return Ok(false);
        }
        self.terminal.act(event.action)?;
        Ok(true)
    }
}

/// A player that searches for the last time at which the screen was not blank.
#[derive(Drop)]
struct Search {
    terminal: Terminal,

    /// The time of the last event.
    time: f64,

    /// The line of the last event.
    line: u64,

    /// The line of the last event before a time at which the screen was not blank.
    found: Option<u64>,
}

impl Search {
    /// Creates a player at the beginning of a recording.
    fn new(alloc: Global, header: Header) -> Result<Search> {
        Ok(Search {
            terminal: Terminal::new(alloc, header)?,
            time: 0.0,
            line: 1,
            found: None,
        })
    }

    /// Notes the last event if it left a screen that is not blank.
    fn note(&mut self) {
        if !is_blank(self.terminal.screen()) {
            self.found = Some(self.line);
        }
    }
}

impl Play for Search {
    /// Plays an event, after all events of an earlier time were noted together.
    fn play(&mut self, event: Event<'_>, number: u64) -> Result<bool> {
        if let Action::Other = event.action {
            return Ok(true);
        }
        if self.time != event.time {
            self.note();
        }
        self.time = event.time;
        self.line = number;
        self.terminal.act(event.action)?;
        Ok(true)
    }
}

/// Returns whether no cell of the screen has a character other than a blank.
fn is_blank(screen: &Screen) -> bool {
    let (rows, cols) = screen.size();
    for row in 0..rows.get() {
        for col in 0..cols.get() {
            if has_glyph(screen, row, col) {
                return false;
            }
        }
    }
    true
}

/// Returns whether a cell has a character other than a blank.
fn has_glyph(screen: &Screen, row: u16, col: u16) -> bool {
    match screen.cell(row, col) {
        Some(cell) => !matches!(cell.contents(), "" | " "),
        None => false,
    }
}

/// Returns a terminal with the screen at a moment of a recording.
pub fn terminal_at(alloc: Global, recording: &Recording<'_>, moment: Moment) -> Result<Terminal> {
    let until = match moment {
        Moment::At(time) => Until::Time(time),
        Moment::Last => Until::Line(last_line(alloc, recording)?),
    };
    let mut replay = Replay {
        terminal: Terminal::new(alloc, recording.header)?,
        until,
    };
    recording.play(alloc, &mut replay)?;
    let Replay { terminal, until: _ } = replay;
    Ok(terminal)
}

/// Returns the line of the last event that left a screen that is not blank.
fn last_line(alloc: Global, recording: &Recording<'_>) -> Result<u64> {
    let mut search = Search::new(alloc, recording.header)?;
    recording.play(alloc, &mut search)?;
    search.note();
    search.found.context("the screen is always blank")
}
