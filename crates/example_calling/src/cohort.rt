//! Viewers of a parser's screen that share their updates.

use std::alloc::Global;
use std::collections::VecDeque;
use vt100::{DiffOptions, Error, Repeat, Screen};

/// The number of past updates that are kept.
const KEPT: usize = 64;

/// An update may begin by moving rows or columns.
const OPTIONS: DiffOptions = DiffOptions {
    scroll: true,
    repeat: Repeat::Never,
    portable: false,
};

/// What a viewer must read next.
#[derive(Drop)]
pub enum Message {
    /// All updates that the viewer's terminal has missed.
    Updates(String),

    /// A redraw for a new terminal, which replaces the viewer's terminal.
    Redraw(String),
}

/// An update, and the version of the screen from which it leads to the next version.
#[derive(Drop)]
struct Step {
    from: u64,
    text: String,
}

/// The present version of a screen, and the last updates that led to it.
#[derive(Drop)]
pub struct Cohort {
    alloc: Global,
    shown: Screen,
    version: u64,
    steps: VecDeque<Step>,
}

impl Cohort {
    /// Makes `screen` the first version, whose number is 0.
    pub fn new(alloc: Global, screen: &Screen) -> Result<Self, Error> {
        Ok(Cohort {
            alloc,
            shown: screen.shown_copy()?,
            version: 0,
            steps: VecDeque::new(alloc),
        })
    }

    /// Makes `screen` the next version, and returns its number.
    pub fn advance(&mut self, screen: &Screen) -> Result<u64, Error> {
        let shown = screen.shown_copy()?;
        match update_from(&self.shown, screen)? {
            Some(text) => self.keep(text)?,
            None => self.steps.clear(),
        }
        self.shown = shown;
        self.version = self.version.saturating_add(1);
        Ok(self.version)
    }

    /// Returns the update for all viewers that display the version before the present one, or `None`
    /// if every viewer needs a redraw.
    pub fn update(&self) -> Option<&str> {
        match self.steps.back() {
            Some(step) => Some(step.text.as_str()),
            None => None,
        }
    }

    /// Returns what a viewer must read to display the present version: the updates that it missed,
    /// or a redraw if these are no longer kept or are longer. The viewer displays the version
    /// `seen`, or nothing yet.
    pub fn message(&self, seen: Option<u64>) -> Result<Message, Error> {
        let redraw = self.shown.state_formatted()?;
        match self.missed(seen)? {
            Some(text) if text.len() <= redraw.len() => Ok(Message::Updates(text)),
            _ => Ok(Message::Redraw(redraw)),
        }
    }

    /// Returns the updates from the version `seen` to the present one, or `None` if they are not
    /// kept.
    fn missed(&self, seen: Option<u64>) -> Result<Option<String>, Error> {
        let Some(seen) = seen else {
            return Ok(None);
        };
        let oldest = match self.steps.front() {
            Some(step) => step.from,
            None => self.version,
        };
        if seen < oldest || seen > self.version {
            return Ok(None);
        }
        let mut text = String::new(self.alloc);
        for step in &self.steps {
            if step.from >= seen {
                text.push_str(step.text.as_str())?;
            }
        }
        Ok(Some(text))
    }

    /// Keeps an update from the present version to the next one.
    fn keep(&mut self, text: String) -> Result<(), Error> {
        if self.steps.len() >= KEPT {
            self.steps.pop_front();
        }
        let step = Step {
            from: self.version,
            text,
        };
        if self.steps.push_back(step).is_err() {
            return Err(Error::OutOfMemory);
        }
        Ok(())
    }
}

/// Returns the output that turns the display and the input modes of `seen` into those of `screen`.
/// Returns `None` if a redraw is needed: if the sizes differ, or if `seen` is not steady.
fn update_from(seen: &Screen, screen: &Screen) -> Result<Option<String>, Error> {
    if !seen.is_steady() || !screen.is_sized_as(seen) {
        return Ok(None);
    }
    let text = screen.state_diff_with(seen, OPTIONS)?;
    Ok(Some(text))
}
