//! Playing a recording through a mirror.

use crate::cast::{Action, Event};
use crate::drawing::Drawing;
use crate::recording::Play;
use crate::tally::{Count, Tally};
use crate::viewer::{Kind, Viewer};
use anyhow::Result;
use std::alloc::Global;
use std::num::NonZeroU16;
use vt_mirror::Mirror;

/// A mirror that parses the recorded output, and two viewers, one for each kind of diff.
#[derive(Drop)]
pub struct Player {
    mirror: Mirror,
    drawing: Drawing,
    drawn: Viewer,
    scrolling: Viewer,

    /// The time of the events that the viewers have not yet received.
    time: Option<f64>,
    read: Count,
}

impl Player {
    /// Creates a mirror with `rows` rows and `cols` columns, and its two viewers.
    pub fn new(alloc: Global, rows: NonZeroU16, cols: NonZeroU16) -> Result<Player> {
        let mut mirror = Mirror::new(alloc, rows, cols, 0)?;
        let drawn = Viewer::join(alloc, &mut mirror, Kind::Drawn, (rows, cols))?;
        let scrolling = Viewer::join(alloc, &mut mirror, Kind::Scrolling, (rows, cols))?;
        Ok(Player {
            mirror,
            drawing: Drawing::new(alloc),
            drawn,
            scrolling,
            time: None,
            read: Count::default(),
        })
    }

    /// Parses output, with its line drawing translated.
    fn output(&mut self, text: &str) -> Result<()> {
        self.mirror.process(self.drawing.translate(text)?)?;
        self.read.add(text.len());
        Ok(())
    }

    /// Sends the pending events to the viewers, if there are any.
    pub fn update(&mut self) -> Result<()> {
        if self.time.take().is_none() {
            return Ok(());
        }
        self.drawn.update(&mut self.mirror)?;
        self.scrolling.update(&mut self.mirror)
    }

    /// Returns the text of each row that the second viewer displays.
    pub fn rows(&self, alloc: Global) -> Result<Vec<String>> {
        self.scrolling.rows(alloc)
    }

    /// Returns the counts of the input and of the updates so far.
    pub fn tally(&self) -> Tally {
        Tally {
            read: self.read,
            drawn: self.drawn.updates(),
            scrolling: self.scrolling.updates(),
        }
    }
}

impl Play for Player {
    /// Plays an event. Events with the same time are sent to the viewers together, when an event
    /// with a different time is played.
    fn play(&mut self, event: Event<'_>, _: u64) -> Result<bool> {
        if let Action::Other = event.action {
            return Ok(true);
        }
        if self.time != Some(event.time) {
            self.update()?;
        }
        self.time = Some(event.time);
        match event.action {
            Action::Output(text) => self.output(text)?,
            Action::Resize { rows, cols } => self.mirror.set_size(rows, cols)?,
            Action::Other => {}
        }
        Ok(true)
    }
}
