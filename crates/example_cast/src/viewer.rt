//! A viewer of a mirror, and its terminal.

use crate::tally::Updates;
use anyhow::{Context, Result};
use std::alloc::Global;
use std::num::NonZeroU16;
use vt_mirror::{Mirror, Update};
use vt100::{Error, Parser};

/// The texts of rows, or the error if a text cannot be allocated.
type Texts = std::result::Result<Vec<String>, Error>;

/// The kind of diffs that a viewer receives.
#[derive(Clone, Copy)]
pub enum Kind {
    /// Diffs that draw changed cells and never move rows.
    Drawn,

    /// Diffs that may move rows first, if doing so makes the output shorter.
    Scrolling,
}

/// A viewer whose terminal receives only updates.
#[derive(Drop)]
pub struct Viewer {
    number: u64,
    kind: Kind,
    terminal: Parser,
    updates: Updates,
}

impl Viewer {
    /// Adds to a mirror a viewer whose terminal has the given size.
    pub fn join(
        alloc: Global,
        mirror: &mut Mirror,
        kind: Kind,
        (rows, cols): (NonZeroU16, NonZeroU16),
    ) -> Result<Viewer> {
        let number = mirror.join()?;
        Ok(Viewer {
            number,
            kind,
            terminal: Parser::new(alloc, rows, cols, 0)?,
            updates: Updates::default(),
        })
    }

    /// Applies the next update to the viewer's terminal.
    pub fn update(&mut self, mirror: &mut Mirror) -> Result<()> {
        let update = match self.kind {
            Kind::Drawn => mirror.update(self.number)?,
            Kind::Scrolling => mirror.update_scrolling(self.number)?,
        };
        match update {
            Some(Update::Full { rows, cols, text }) => {
                self.resize(rows, cols)?;
                self.terminal.process(text.as_bytes())?;
                self.updates.redraws.add(text.len());
            }
            Some(Update::Diff(text)) => {
                self.terminal.process(text.as_bytes())?;
                self.updates.differences.add(text.len());
            }
            None => {}
        }
        Ok(())
    }

    /// Resizes the viewer's terminal to the mirror's size.
    fn resize(&mut self, rows: u16, cols: u16) -> Result<()> {
        let rows = NonZeroU16::new(rows).context("no rows")?;
        let cols = NonZeroU16::new(cols).context("no columns")?;
        self.terminal.set_size(rows, cols)?;
        Ok(())
    }

    /// Returns the text of each displayed row.
    pub fn rows(&self, alloc: Global) -> Result<Vec<String>> {
        let screen = self.terminal.screen();
        let (_, cols) = screen.size();
        let rows: Texts = screen.rows(0, cols.get()).try_collect(alloc);
        Ok(rows?)
    }

    /// Returns the counts of the updates so far.
    pub fn updates(&self) -> Updates {
        self.updates
    }
}
