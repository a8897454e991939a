//! Viewers of a mirror that follow a stream, with their counts and result.

use crate::pace::{Pace, may_scroll};
use crate::picture::differing;
use anyhow::{Context, Result};
use std::alloc::Global;
use std::fmt;
use std::num::NonZeroU16;
use vt_mirror::{Mirror, Update};
use vt100::{Parser, Screen};

/// The maximum number of viewers.
const SEATS: u32 = 20;

/// The number of viewers that join, leave or are updated after each chunk of input.
const VISITS: u32 = 4;

/// The average number of visits after which a viewer leaves.
const LEAVING: u32 = 8;

/// The average number of chunks of input between two resizes of the mirror.
const RESIZED: u32 = 16;

/// The maximum number of rows after a resize.
const MOST_ROWS: u32 = 40;

/// The minimum number of columns after a resize. With one column, a glyph that U+FE0F makes wide on
/// wider screens stays narrow, and would be unsteady after a resize to more columns.
const LEAST_COLS: u32 = 2;

/// The maximum number of columns after a resize.
const MOST_COLS: u32 = 100;

/// The initial size of a viewer's terminal.
const SIZE: (u16, u16) = (3, 7);

/// The scrollback capacity of a viewer's terminal in rows.
const KEPT: usize = 5;

/// Input that a terminal parses before it becomes the terminal of a viewer.
const BEFORE: &[u8] = b"\x1b[7mbefore \xe4\xb8\xad\x1b[30b\x1b[32;1m\x1b[?25l";

/// A viewer: its number, and its terminal.
#[derive(Drop)]
struct Viewer {
    number: u64,
    terminal: Parser,
}

/// A mirror, a leader (a terminal that parses the same input and is resized in the same way), and
/// the viewers.
#[derive(Drop)]
struct Hall {
    mirror: Mirror,
    leader: Parser,
    viewers: Vec<Viewer>,
}

/// Feeds `bytes` to a mirror in chunks, makes viewers join, leave and receive updates in between,
/// and updates all viewers at the end.
pub fn follow(
    alloc: Global,
    (rows, cols): (NonZeroU16, NonZeroU16),
    mut pace: Pace,
    bytes: &[u8],
) -> Result<Visits> {
    let mut hall = Hall {
        mirror: Mirror::new(alloc, rows, cols, 0)?,
        leader: Parser::new(alloc, rows, cols, 0)?,
        viewers: Vec::new(alloc),
    };
    let mut visits = Visits::default();
    let mut rest = bytes;
    for _ in 0..bytes.len() {
        if rest.is_empty() || visits.differs {
            break;
        }
        let (piece, later) = rest.split_at(pace.next_length().min(rest.len()));
        rest = later;
        hall.read(piece)?;
        if pace.next_below(RESIZED) == 0 {
            hall.resize(size(&mut pace)?)?;
        }
        hall.visit_some(alloc, &mut pace, &mut visits)?;
    }
    hall.update_all(&mut visits)?;
    Ok(visits)
}

fn size(pace: &mut Pace) -> Result<(NonZeroU16, NonZeroU16)> {
    let rows = 1 + pace.next_below(MOST_ROWS);
    let cols = LEAST_COLS + pace.next_below(MOST_COLS - 1);
    size_of(u16::try_from(rows)?, u16::try_from(cols)?)
}

fn size_of(rows: u16, cols: u16) -> Result<(NonZeroU16, NonZeroU16)> {
    let rows = NonZeroU16::new(rows).context("a size without rows")?;
    let cols = NonZeroU16::new(cols).context("a size without columns")?;
    Ok((rows, cols))
}

/// Creates a plain terminal whose display differs from that of the mirror.
fn terminal(alloc: Global) -> Result<Parser> {
    let (rows, cols) = size_of(SIZE.0, SIZE.1)?;
    let mut terminal = Parser::new(alloc, rows, cols, KEPT)?;
    terminal.process(BEFORE)?;
    Ok(terminal)
}

impl Hall {
    fn read(&mut self, piece: &[u8]) -> Result<()> {
        self.mirror.process(piece)?;
        self.leader.process(piece)?;
        Ok(())
    }

    fn resize(&mut self, (rows, cols): (NonZeroU16, NonZeroU16)) -> Result<()> {
        self.mirror.set_size(rows, cols)?;
        self.leader.set_size(rows, cols)?;
        Ok(())
    }

    fn visit_some(&mut self, alloc: Global, pace: &mut Pace, visits: &mut Visits) -> Result<()> {
        for _ in 0..VISITS {
            let seat = pace.next_below(SEATS) as usize;
            if seat >= self.viewers.len() {
                self.join(alloc)?;
                visits.count_join();
            } else if pace.next_below(LEAVING) == 0 {
                self.leave(seat, visits);
            } else {
                self.update(seat, visits)?;
            }
        }
        Ok(())
    }

    fn join(&mut self, alloc: Global) -> Result<()> {
        let number = self.mirror.join()?;
        let terminal = terminal(alloc)?;
        self.viewers.push(Viewer { number, terminal })?;
        Ok(())
    }

    /// Removes the viewer at index `seat`, and checks that the mirror no longer has this viewer.
    fn leave(&mut self, seat: usize, visits: &mut Visits) {
        if seat >= self.viewers.len() {
            return;
        }
        let number = self.viewers.swap_remove(seat).number;
        let was = self.mirror.leave(number);
        visits.count_leave();
        if !was || self.mirror.leave(number) {
            visits.differs = true;
        }
    }

    /// Updates the viewer at index `seat`, and checks that it displays what the leader displays.
    fn update(&mut self, seat: usize, visits: &mut Visits) -> Result<()> {
        let Some(viewer) = self.viewers.get_mut(seat) else {
            return Ok(());
        };
        let update = if may_scroll(visits.updates()) {
            self.mirror.update_scrolling(viewer.number)?
        } else {
            self.mirror.update(viewer.number)?
        };
        visits.count_update(update.as_ref());
        read_update(&mut viewer.terminal, update)?;
        if !are_same(self.leader.screen(), viewer.terminal.screen()) {
            visits.differs = true;
        }
        Ok(())
    }

    fn update_all(&mut self, visits: &mut Visits) -> Result<()> {
        for seat in 0..self.viewers.len() {
            self.update(seat, visits)?;
        }
        Ok(())
    }
}

fn read_update(terminal: &mut Parser, update: Option<Update>) -> Result<()> {
    match update {
        Some(Update::Diff(text)) => Ok(terminal.process(text.as_bytes())?),
        Some(Update::Full { rows, cols, text }) => {
            let (rows, cols) = size_of(rows, cols)?;
            terminal.set_size(rows, cols)?;
            Ok(terminal.process(text.as_bytes())?)
        }
        None => None.context("a viewer that is none"),
    }
}

fn are_same(one: &Screen, other: &Screen) -> bool {
    one.is_sized_as(other) && differing(one, other).is_none()
}

/// Counts of viewers that joined, left and were updated, and whether the display of a viewer
/// differed.
#[derive(Clone, Copy, Default)]
pub struct Visits {
    /// The number of viewers that joined.
    pub joined: usize,

    /// The number of viewers that left.
    pub left: usize,

    /// The number of full updates that were parsed.
    pub full: usize,

    /// The number of diffs that were parsed.
    pub differences: usize,

    /// Whether a viewer's display differed from the mirror's, or the mirror still had a viewer that
    /// had left.
    pub differs: bool,
}

impl Visits {
    /// Counts a viewer that joined.
    pub fn count_join(&mut self) {
        self.joined = self.joined.saturating_add(1);
    }

    /// Counts a viewer that left.
    pub fn count_leave(&mut self) {
        self.left = self.left.saturating_add(1);
    }

    /// Returns the number of updates that were parsed.
    pub fn updates(&self) -> usize {
        self.full.saturating_add(self.differences)
    }

    /// Counts an update.
    pub fn count_update(&mut self, update: Option<&Update>) {
        match update {
            Some(Update::Full { .. }) => self.full = self.full.saturating_add(1),
            Some(Update::Diff(_)) => self.differences = self.differences.saturating_add(1),
            None => {}
        }
    }
}

impl fmt::Display for Visits {
    fn fmt<W: fmt::Write>(&self, f: &mut fmt::Formatter<W>) -> fmt::Result {
        let Visits {
            joined,
            left,
            full,
            differences,
            differs,
        } = *self;
        write!(
            f,
            "viewers: {joined} joined, {left} left; full updates: {full}, differences: {differences}"
        )?;
        if differs {
            write!(f, "\ndiffers: a viewer")?;
        }
        Ok(())
    }
}
