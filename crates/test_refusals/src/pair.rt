//! Two parsers, and actions on them.

use crate::step::{Answer, Change, Step};
use crate::tally::Tally;
use std::alloc::Global;
use std::{fmt, mem};
use vt100::Parser;

/// The two parsers on which actions are performed.
#[derive(Drop)]
pub struct Pair {
    pub first: Parser<Tally>,
    pub second: Parser<Tally>,
}

/// An action on two parsers.
#[derive(Clone, Copy)]
pub enum Act {
    /// A call on the first parser.
    First(Step),

    /// A call on the second parser.
    Second(Step),

    /// The parsers exchange their screens.
    Exchange,

    /// The screen of the first parser is replaced by a copy of the second parser's screen.
    Copy,

    /// The diff from the second parser's screen to the first parser's screen is generated.
    Differ(Change),
}

impl Pair {
    /// Performs an action on the two parsers, and returns its result.
    pub fn make(&mut self, alloc: Global, act: Act) -> Answer {
        match act {
            Act::First(step) => step.make(alloc, &mut self.first),
            Act::Second(step) => step.make(alloc, &mut self.second),
            Act::Exchange => {
                mem::swap(self.first.screen_mut(), self.second.screen_mut());
                Answer::Done
            }
            Act::Copy => match self.second.screen().clone() {
                Ok(screen) => {
                    *self.first.screen_mut() = screen;
                    Answer::Done
                }
                Err(error) => Answer::Refused(error),
            },
            Act::Differ(change) => change.make(self.first.screen(), self.second.screen()),
        }
    }

    /// Returns the parser that an action changes. If the action changes both parsers, returns the
    /// second parser.
    pub fn changed_by(&self, act: Act) -> &Parser<Tally> {
        match act {
            Act::First(_) | Act::Copy | Act::Differ(_) => &self.first,
            Act::Second(_) | Act::Exchange => &self.second,
        }
    }
}

impl fmt::Display for Act {
    fn fmt<W: fmt::Write>(&self, f: &mut fmt::Formatter<W>) -> fmt::Result {
        match self {
            Act::First(step) => write!(f, "first {step}"),
            Act::Second(step) => write!(f, "second {step}"),
            Act::Exchange => write!(f, "exchange"),
            Act::Copy => write!(f, "first gets a copy"),
            Act::Differ(Change::Picture) => write!(f, "first differs from second"),
            Act::Differ(Change::Scrolling) => {
                write!(f, "first differs from second, whose rows may move")
            }
            Act::Differ(Change::Repeating) => write!(f, "first differs from second, with REP"),
            Act::Differ(Change::State) => write!(f, "state of first differs from second"),
            Act::Differ(Change::PortableState) => {
                write!(f, "state of first differs from second, portable, with REP")
            }
            Act::Differ(Change::Modes) => write!(f, "modes of first differ from second"),
            Act::Differ(Change::Rows) => write!(f, "rows of first differ from second"),
        }
    }
}
