//! Counts of input and updates.

use std::fmt;

/// The counts of the output events in a recording, and of the updates of both
/// viewers.
#[derive(Clone, Copy)]
pub struct Tally {
    /// The output events of the recording.
    pub read: Count,

    /// The updates of the viewer that receives diffs that never move rows.
    pub drawn: Updates,

    /// The updates of the viewer that receives diffs that may move rows first.
    pub scrolling: Updates,
}

/// The counts of the updates that a viewer received.
#[derive(Clone, Copy, Default)]
pub struct Updates {
    /// The updates that redraw the whole screen.
    pub redraws: Count,

    /// The updates that are diffs from the screen at the previous update.
    pub differences: Count,
}

impl Updates {
    /// Returns the sum of the counts of redraws and diffs.
    fn all(self) -> Count {
        self.redraws.with(self.differences)
    }
}

/// A number of items, and the sum of their lengths in bytes.
#[derive(Clone, Copy, Default)]
pub struct Count {
    times: u64,
    bytes: usize,
}

impl Count {
    /// Counts one more item, with a length of `bytes` bytes.
    pub fn add(&mut self, bytes: usize) {
        self.times = self.times.saturating_add(1);
        self.bytes = self.bytes.saturating_add(bytes);
    }

    /// Returns the sum of two counts.
    fn with(self, other: Count) -> Count {
        Count {
            times: self.times.saturating_add(other.times),
            bytes: self.bytes.saturating_add(other.bytes),
        }
    }
}

impl fmt::Display for Count {
    fn fmt<W: fmt::Write>(&self, f: &mut fmt::Formatter<W>) -> fmt::Result {
        let Count { times, bytes } = *self;
        write!(f, "{times:>8}{bytes:>10}")
    }
}

impl fmt::Display for Tally {
    fn fmt<W: fmt::Write>(&self, f: &mut fmt::Formatter<W>) -> fmt::Result {
        let Tally {
            read,
            drawn,
            scrolling,
        } = *self;
        writeln!(f, "               times     bytes")?;
        writeln!(f, "read        {read}")?;
        writeln!(f, "redraws     {}", drawn.redraws)?;
        writeln!(f, "differences {}", drawn.differences)?;
        writeln!(f, "updates     {}", drawn.all())?;
        write!(f, "scrolling   {}", scrolling.all())
    }
}
