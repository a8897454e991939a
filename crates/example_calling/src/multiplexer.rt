//! A client's terminal that is kept equal to a screen.

use anyhow::Result;
use std::io::Write;
use vt100::{DiffOptions, Error, RedrawOptions, Repeat, Screen};

/// The options of redraws. Portable output avoids sequences on whose effects terminals disagree.
const REDRAW: RedrawOptions = RedrawOptions { portable: true };

/// The options of diffs: portable ones, which may move rows first.
const DIFF: DiffOptions = DiffOptions {
    scroll: true,
    repeat: Repeat::Never,
    portable: true,
};

/// A client, and the screen that its terminal displays.
#[derive(Drop)]
pub struct Client {
    seen: Option<Screen>,
}

impl Client {
    /// Creates a client whose terminal is plain and may display anything.
    pub fn new() -> Self {
        Client { seen: None }
    }

    /// Writes the escape sequences that make the client's terminal display `screen`.
    pub fn update<W: Write>(&mut self, screen: &Screen, writer: &mut W) -> Result<()> {
        let text = match &self.seen {
            Some(seen) => text_from(screen, seen)?,
            None => screen.contents_formatted_with(REDRAW)?,
        };
        let seen = screen.shown_copy()?;
        writer.write_all(text.as_bytes())?;
        writer.flush()?;
        self.seen = Some(seen);
        Ok(())
    }
}

/// Returns the diff from the earlier screen `seen` to `screen`, or a redraw of `screen` if the
/// sizes differ.
fn text_from(screen: &Screen, seen: &Screen) -> Result<String, Error> {
    if screen.is_sized_as(seen) {
        screen.contents_diff_with(seen, DIFF)
    } else {
        screen.contents_formatted_with(REDRAW)
    }
}
