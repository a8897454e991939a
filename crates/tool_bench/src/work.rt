//! The calls that `tool_bench` can measure.

use crate::lengths::PORTABLE;
use vt100::{DiffOptions, Error, RedrawOptions, Repeat, Screen};

/// A call that `tool_bench` can measure.
#[derive(Clone, Copy)]
pub enum Work {
    /// Parses bytes.
    Process,

    /// Writes the redraw of the screen.
    Formatted,

    /// Writes the portable redraw of the screen.
    PortableFormatted,

    /// Writes the diff from the earlier screen to the screen.
    Diff,

    /// Writes the portable diff from the earlier screen to the screen.
    PortableDiff,

    /// Writes the scrolling diff, which may move rows first, from the earlier screen to the screen.
    Scrolling,

    /// Writes the diff from the earlier screen to the screen, with REP for runs of a character.
    Repeating,

    /// Writes the diff from the screen to itself.
    Same,

    /// Writes the text of the screen.
    Contents,

    /// Writes the text of the screen with SGR sequences.
    Basic,

    /// Copies the screen.
    Clone,

    /// Tests whether the screen is steady.
    Steady,

    /// Adds a row to the screen and removes it again.
    AddRow,

    /// Adds a column to the screen and removes it again.
    AddColumn,
}

impl Work {
    /// Returns the call named `name`, or `None` if there is no such call.
    pub fn named(name: &str) -> Option<Work> {
        match name {
            "process" => Some(Work::Process),
            "formatted" => Some(Work::Formatted),
            "portable-formatted" => Some(Work::PortableFormatted),
            "diff" => Some(Work::Diff),
            "portable-diff" => Some(Work::PortableDiff),
            "scrolling" => Some(Work::Scrolling),
            "repeating" => Some(Work::Repeating),
            "same" => Some(Work::Same),
            "contents" => Some(Work::Contents),
            "basic" => Some(Work::Basic),
            "clone" => Some(Work::Clone),
            "steady" => Some(Work::Steady),
            "add-row" => Some(Work::AddRow),
            "add-column" => Some(Work::AddColumn),
            _ => None,
        }
    }

    /// Makes the call once, and returns the length of its output in bytes. For `Clone`, returns the
    /// number of rows copied; for `Steady`, 1 if the screen is steady, otherwise 0.
    pub fn call(self, screen: &Screen, prev: &Screen) -> Result<usize, Error> {
        match self {
            Work::Process | Work::AddRow | Work::AddColumn => Ok(0),
            Work::Formatted => Ok(screen.contents_formatted()?.len()),
            Work::PortableFormatted => portable_redraw(screen),
            Work::Diff => difference(screen, prev),
            Work::PortableDiff => portable_difference(screen, prev),
            Work::Scrolling => scrolling_difference(screen, prev),
            Work::Repeating => repeating_difference(screen, prev),
            Work::Same => difference(screen, screen),
            Work::Contents => Ok(screen.contents()?.len()),
            Work::Basic => Ok(screen.contents_formatted_basic()?.len()),
            Work::Clone => rows_of_copy(screen),
            Work::Steady => Ok(usize::from(screen.is_steady())),
        }
    }
}

fn rows_of_copy(screen: &Screen) -> Result<usize, Error> {
    let (rows, _cols) = screen.clone()?.size();
    Ok(usize::from(rows.get()))
}

fn portable_redraw(screen: &Screen) -> Result<usize, Error> {
    let options = RedrawOptions { portable: true };
    Ok(screen.contents_formatted_with(options)?.len())
}

fn portable_difference(screen: &Screen, prev: &Screen) -> Result<usize, Error> {
    if !screen.is_sized_as(prev) {
        return Ok(0);
    }
    Ok(screen.contents_diff_with(prev, PORTABLE)?.len())
}

fn difference(screen: &Screen, prev: &Screen) -> Result<usize, Error> {
    if !screen.is_sized_as(prev) {
        return Ok(0);
    }
    Ok(screen.contents_diff(prev)?.len())
}

fn scrolling_difference(screen: &Screen, prev: &Screen) -> Result<usize, Error> {
    let (rows, cols) = screen.size();
    let (prev_rows, prev_cols) = prev.size();
    if rows.get() != prev_rows.get() || cols.get() != prev_cols.get() {
        return Ok(0);
    }
    Ok(screen.contents_diff_scrolling(prev)?.len())
}

fn repeating_difference(screen: &Screen, prev: &Screen) -> Result<usize, Error> {
    if !screen.is_sized_as(prev) {
        return Ok(0);
    }
    let options = DiffOptions {
        scroll: false,
        repeat: Repeat::Any,
        portable: false,
    };
    Ok(screen.contents_diff_with(prev, options)?.len())
}
