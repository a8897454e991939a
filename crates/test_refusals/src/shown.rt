//! The state of a parser, as text.

use crate::tally::Tally;
use std::fmt;
use vt100::{Parser, Screen};

/// Displays the state of a parser: the cells of its screen, row by row with a dot for each blank;
/// the cursor; the number of titles counted; the number of rows in scrollback, and how many of them
/// are displayed; the number of rows reported; and the modes that are set.
#[derive(Clone, Copy)]
pub struct Shown<'a>(pub &'a Parser<Tally>);

impl fmt::Display for Shown<'_> {
    fn fmt<W: fmt::Write>(&self, f: &mut fmt::Formatter<W>) -> fmt::Result {
        let screen = self.0.screen();
        write!(f, "cells ")?;
        write_cells(screen, f)?;
        let (row, col) = screen.cursor_position();
        let (kept, in_view) = (screen.scrollback_len(), screen.scrollback());
        let Tally { titles, reported } = *self.0.callbacks();
        write!(
            f,
            ", cursor {row} {col}, titles {titles}, kept {kept}, in view {in_view}, reported {reported}"
        )?;
        write_modes(screen, f)
    }
}

/// Writes the rows, separated by slashes.
fn write_cells<W: fmt::Write>(screen: &Screen, f: &mut fmt::Formatter<W>) -> fmt::Result {
    let (rows, cols) = screen.size();
    for row in 0..rows.get() {
        if row > 0 {
            write!(f, "/")?;
        }
        for col in 0..cols.get() {
            match screen.cell(row, col) {
                Some(cell) if cell.has_contents() => write!(f, "{}", cell.contents())?,
                _ => write!(f, ".")?,
            }
        }
    }
    Ok(())
}

/// Writes the modes that are set.
fn write_modes<W: fmt::Write>(screen: &Screen, f: &mut fmt::Formatter<W>) -> fmt::Result {
    for (on, word) in [
        (screen.alternate_screen(), "alternate page"),
        (screen.application_cursor(), "cursor keys"),
        (screen.bracketed_paste(), "paste"),
    ] {
        if on {
            write!(f, ", {word}")?;
        }
    }
    Ok(())
}
