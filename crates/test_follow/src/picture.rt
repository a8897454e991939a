//! Comparison of two screens, and the counts of a run and its result.

use std::fmt;
use vt100::{Color, Screen};

/// A part of the state in which a follower may differ from its leader.
#[derive(Clone, Copy)]
pub enum Part {
    /// A displayed cell or its attributes.
    Cells,

    /// The wrapped flag of a row.
    Flags,

    /// The position or visibility of the cursor.
    Cursor,

    /// The current attributes.
    Attributes,

    /// The callbacks that were invoked.
    Calls,

    /// The inactive page, or scrollback.
    Rest,

    /// Captures of the whole stream with different scrollback capacities.
    Captures,
}

impl fmt::Display for Part {
    fn fmt<W: fmt::Write>(&self, f: &mut fmt::Formatter<W>) -> fmt::Result {
        f.write_str(match self {
            Part::Cells => "cells",
            Part::Flags => "flags",
            Part::Cursor => "cursor",
            Part::Attributes => "attributes",
            Part::Calls => "calls",
            Part::Rest => "main page or scrollback",
            Part::Captures => "captures",
        })
    }
}

/// Returns the part in which the displays of two screens of the same size differ, if any.
pub fn differing(one: &Screen, other: &Screen) -> Option<Part> {
    let rows = one.size().0.get();
    if !have_same_cells(one, other, rows) {
        Some(Part::Cells)
    } else if !have_same_flags(one, other) {
        Some(Part::Flags)
    } else if cursor(one) != cursor(other) {
        Some(Part::Cursor)
    } else if attributes(one) != attributes(other) {
        Some(Part::Attributes)
    } else {
        None
    }
}

/// Returns whether the first `rows` rows of two screens have the same cells.
pub fn have_same_cells(one: &Screen, other: &Screen, rows: u16) -> bool {
    let (_rows, cols) = one.size();
    for row in 0..rows {
        for col in 0..cols.get() {
            if one.cell(row, col) != other.cell(row, col) {
                return false;
            }
        }
    }
    true
}

/// Returns whether the rows of two screens have the same wrapped flags.
pub fn have_same_flags(one: &Screen, other: &Screen) -> bool {
    let (rows, _cols) = one.size();
    for row in 0..rows.get() {
        if one.row_wrapped(row) != other.row_wrapped(row) {
            return false;
        }
    }
    true
}

fn cursor(screen: &Screen) -> ((u16, u16), bool) {
    (screen.cursor_position(), screen.hide_cursor())
}

fn attributes(screen: &Screen) -> (Color, Color, [bool; 5]) {
    let switches = [
        screen.bold(),
        screen.dim(),
        screen.italic(),
        screen.underline(),
        screen.inverse(),
    ];
    (screen.fgcolor(), screen.bgcolor(), switches)
}

/// The counts of a run, and the first difference, if any.
#[derive(Clone, Copy, Default)]
pub struct Tally {
    /// The number of diffs that were parsed.
    pub updates: usize,

    /// The number of bytes that the leader parsed.
    pub read: usize,

    /// The total length of the diffs in bytes.
    pub written: usize,

    /// The first part of the state that differs, if any.
    pub differs: Option<Part>,
}

impl Tally {
    /// Counts an update, with the number of bytes that the leader read and the
    /// length of the diff.
    pub fn count(&mut self, read: usize, written: usize) {
        self.updates = self.updates.saturating_add(1);
        self.read = self.read.saturating_add(read);
        self.written = self.written.saturating_add(written);
    }
}

impl fmt::Display for Tally {
    fn fmt<W: fmt::Write>(&self, f: &mut fmt::Formatter<W>) -> fmt::Result {
        let Tally {
            updates,
            read,
            written,
            differs,
        } = *self;
        write!(
            f,
            "updates: {updates}, bytes read: {read}, bytes of differences: {written}"
        )?;
        match differs {
            Some(part) => write!(f, "\ndiffers: {part} after update {updates}"),
            None => Ok(()),
        }
    }
}
