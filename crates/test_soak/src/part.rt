//! Comparison of two screens, and the counts of a run and its result.

use std::fmt;
use vt100::{Color, Screen};

/// A part of the state in which screens or terminals may differ.
#[derive(Clone, Copy)]
pub enum Part {
    /// The number of rows or the number of columns.
    Size,

    /// A cell or its attributes.
    Cells,

    /// The wrapped flag of a row.
    Flags,

    /// The position or visibility of the cursor.
    Cursor,

    /// The current attributes.
    Attributes,

    /// The input modes, the cursor style, or which page is active.
    Modes,

    /// The number of rows in scrollback, the number of rows by which the display is scrolled back,
    /// or the scrollback capacity.
    Counts,

    /// The rows of scrollback, or the rows of the page that are not visible while scrollback is
    /// displayed.
    Rows,

    /// The callbacks that were invoked.
    Calls,

    /// An invariant that every screen must satisfy.
    Soundness,

    /// The display of a terminal that parsed diffs.
    Difference,

    /// The display of a terminal that parsed a redraw.
    Redraw,

    /// The redraw of a terminal that parsed a redraw.
    Text,

    /// A control character that output for other terminals must not contain.
    Output,

    /// Whether the screen is steady.
    Steadiness,
}

impl fmt::Display for Part {
    fn fmt<W: fmt::Write>(&self, f: &mut fmt::Formatter<W>) -> fmt::Result {
        f.write_str(match self {
            Part::Size => "size",
            Part::Cells => "cells",
            Part::Flags => "flags",
            Part::Cursor => "cursor",
            Part::Attributes => "attributes",
            Part::Modes => "modes",
            Part::Counts => "counts of scrollback",
            Part::Rows => "rows of scrollback",
            Part::Calls => "calls",
            Part::Soundness => "a screen that is not sound",
            Part::Difference => "what differences show",
            Part::Redraw => "what a redraw shows",
            Part::Text => "text of a redraw",
            Part::Output => "a control in a text",
            Part::Steadiness => "whether the screen is steady",
        })
    }
}

/// Returns the part in which two screens differ, if any. Cells are compared to the end of each
/// displayed row, even past the columns of the screen.
pub fn differing(one: &Screen, other: &Screen) -> Option<Part> {
    if !one.is_sized_as(other) {
        return Some(Part::Size);
    }
    if counts(one) != counts(other) {
        return Some(Part::Counts);
    }
    if !have_same_cells(one, other) {
        return Some(Part::Cells);
    }
    if !have_same_flags(one, other) {
        return Some(Part::Flags);
    }
    if cursor(one) != cursor(other) {
        return Some(Part::Cursor);
    }
    if attributes(one) != attributes(other) {
        return Some(Part::Attributes);
    }
    if one.alternate_screen() != other.alternate_screen() || !have_same_modes(one, other) {
        return Some(Part::Modes);
    }
    None
}

/// Returns the number of rows by which the display is scrolled back, the number of rows in
/// scrollback, and the scrollback capacity.
pub fn counts(screen: &Screen) -> (usize, usize, usize) {
    (
        screen.scrollback(),
        screen.scrollback_len(),
        screen.scrollback_capacity(),
    )
}

fn have_same_cells(one: &Screen, other: &Screen) -> bool {
    let (rows, _cols) = one.size();
    for row in 0..rows.get() {
        if !is_same_row(one, other, row) {
            return false;
        }
    }
    true
}

fn is_same_row(one: &Screen, other: &Screen, row: u16) -> bool {
    for col in 0..u16::MAX {
        let cell = one.cell(row, col);
        if cell != other.cell(row, col) {
            return false;
        }
        if cell.is_none() {
            return true;
        }
    }
    true
}

fn have_same_flags(one: &Screen, other: &Screen) -> bool {
    let (rows, _cols) = one.size();
    for row in 0..rows.get() {
        if one.row_wrapped(row) != other.row_wrapped(row) {
            return false;
        }
    }
    true
}

/// Returns the cursor position, and whether the cursor is hidden.
pub fn cursor(screen: &Screen) -> ((u16, u16), bool) {
    (screen.cursor_position(), screen.hide_cursor())
}

/// Returns the current attributes.
pub fn attributes(screen: &Screen) -> (Color, Color, [bool; 5]) {
    let switches = [
        screen.bold(),
        screen.dim(),
        screen.italic(),
        screen.underline(),
        screen.inverse(),
    ];
    (screen.fgcolor(), screen.bgcolor(), switches)
}

/// Returns whether two screens have the same input modes and cursor style.
pub fn have_same_modes(one: &Screen, other: &Screen) -> bool {
    switched_modes(one) == switched_modes(other)
        && one.mouse_protocol_mode() == other.mouse_protocol_mode()
        && one.mouse_protocol_encoding() == other.mouse_protocol_encoding()
        && one.cursor_style() == other.cursor_style()
}

fn switched_modes(screen: &Screen) -> [bool; 3] {
    [
        screen.application_keypad(),
        screen.application_cursor(),
        screen.bracketed_paste(),
    ]
}

/// The counts of a run, its seed, and the first difference, if any.
#[derive(Clone, Copy)]
pub struct Tally {
    pub seed: u64,
    pub steps: u64,

    /// The number of bytes that each of the first two terminals parsed.
    pub bytes: u64,

    /// The number of redraws that a terminal parsed and that were compared with the screen.
    pub redraws: u64,

    /// The number of diffs that a terminal parsed.
    pub differences: u64,

    /// The number of diffs that moved rows first.
    pub moved: u64,

    /// The number of unsteady screens, on which some glyph does not reproduce itself when it is
    /// printed again.
    pub unsteady: u64,

    /// The first part of the state that differs, if any.
    pub differs: Option<Part>,
}

impl Tally {
    /// Creates the counts of a run that has not begun, with the seed `seed`.
    pub fn new(seed: u64) -> Self {
        Tally {
            seed,
            steps: 0,
            bytes: 0,
            redraws: 0,
            differences: 0,
            moved: 0,
            unsteady: 0,
            differs: None,
        }
    }
}

impl fmt::Display for Tally {
    fn fmt<W: fmt::Write>(&self, f: &mut fmt::Formatter<W>) -> fmt::Result {
        write!(
            f,
            "seed {}: {} steps, {} bytes read, {} redraws and {} differences read back, {} of them behind rows that moved, {} screens unsteady",
            self.seed,
            self.steps,
            self.bytes,
            self.redraws,
            self.differences,
            self.moved,
            self.unsteady
        )?;
        match self.differs {
            Some(part) => write!(f, "\ndiffers after step {}: {part}", self.steps),
            None => Ok(()),
        }
    }
}
