//! Redraws of the screen after a prefix of the input.

use crate::given::difference;
use anyhow::Result;
use std::alloc::Global;
use vt100::Screen;

/// Returns whether a new parser displays `screen` after each of two inputs: the redraw of `screen`,
/// and the redraw of `prev` followed by the diff from `prev` to `screen`. After each input, the
/// parser must have the same cells, wrapped flags, cursor and redraw as `screen`, and must have
/// invoked no callbacks.
///
/// Returns `true` for a screen that has a narrow glyph with U+FE0F, since that glyph may differ
/// when it is printed again.
pub fn is_drawn(alloc: Global, screen: &Screen, prev: &Screen) -> Result<bool> {
    if !is_surely_steady(screen) {
        return Ok(true);
    }
    let redraw = screen.contents_formatted()?;
    if !is_drawn_by(alloc, screen, &[redraw.as_bytes()], redraw.as_str())? {
        return Ok(false);
    }
    if !is_surely_steady(prev) {
        return Ok(true);
    }
    let begun = prev.contents_formatted()?;
    let update = difference(screen, prev)?;
    let pieces = [begun.as_bytes(), update.as_bytes()];
    is_drawn_by(alloc, screen, &pieces, redraw.as_str())
}

fn is_drawn_by(alloc: Global, screen: &Screen, pieces: &[&[u8]], redraw: &str) -> Result<bool> {
    let (rows, cols) = screen.size();
    let parser = vt_notes::read(alloc, rows, cols, pieces)?;
    let again = parser.screen().contents_formatted()?;
    let is_quiet = parser.callbacks().calls().is_empty();
    Ok(is_quiet && again.as_str() == redraw && has_same_picture(parser.screen(), screen))
}

/// Returns whether two screens have the same cells, wrapped flags and cursor. Neither screen
/// displays scrollback.
fn has_same_picture(one: &Screen, other: &Screen) -> bool {
    let (rows, cols) = other.size();
    for row in 0..rows.get() {
        if one.row_wrapped(row) != other.row_wrapped(row) {
            return false;
        }
        for col in 0..cols.get() {
            if one.cell(row, col) != other.cell(row, col) {
                return false;
            }
        }
    }
    one.cursor_position() == other.cursor_position()
}

/// Returns whether no narrow glyph on the screen contains U+FE0F. If so, every displayed glyph
/// reproduces itself when printed on a blank row.
fn is_surely_steady(screen: &Screen) -> bool {
    let (rows, cols) = screen.size();
    for row in 0..rows.get() {
        for col in 0..cols.get() {
            if let Some(cell) = screen.cell(row, col)
                && !cell.is_wide()
                && cell.contents().contains('\u{fe0f}')
            {
                return false;
            }
        }
    }
    true
}
