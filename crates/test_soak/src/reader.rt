//! Terminals that parse redraws and diffs, and comparison of what they display.

use crate::checks::is_drawn;
use crate::part::{Part, Tally, attributes, cursor, have_same_modes};
use crate::random::{Dice, feed};
use anyhow::{Result, bail};
use vt100::{Cell, Color, Parser, Screen};

/// Feeds the terminal `reader` a diff from `prev` to `screen`, either plain or scrolling. Returns
/// what differs between the terminal and `screen` afterward.
///
/// If the terminal has a different size, or does not display `prev` because it skipped a step, it
/// receives a redraw instead.
pub fn read_difference(
    dice: &mut Dice,
    tally: &mut Tally,
    reader: &mut Parser,
    screen: &Screen,
    prev: &Screen,
) -> Result<Option<Part>> {
    if !is_at(reader.screen(), screen, prev) {
        return read_redraw(dice, tally, reader, screen);
    }
    let text = difference(tally, screen, prev)?;
    if !is_drawn(text.as_str()) {
        return Ok(Some(Part::Output));
    }
    feed(reader, dice, text.as_bytes())?;
    Ok(missing(reader.screen(), screen, Part::Difference))
}

/// Feeds the redraw of `screen` to the terminal `reader`, whatever the terminal displays. Returns
/// what differs between the terminal and `screen` afterward.
pub fn read_redraw(
    dice: &mut Dice,
    tally: &mut Tally,
    reader: &mut Parser,
    screen: &Screen,
) -> Result<Option<Part>> {
    let (rows, cols) = screen.size();
    reader.set_size(rows, cols)?;
    let text = screen.contents_formatted()?;
    tally.redraws = tally.redraws.saturating_add(1);
    feed(reader, dice, text.as_bytes())?;
    if reader.screen().contents_formatted()?.as_str() != text.as_str() {
        return Ok(Some(Part::Text));
    }
    Ok(missing(reader.screen(), screen, Part::Redraw))
}

/// Feeds the terminal `mirror` a diff from `prev` to `screen`, which is not steady, and feeds the
/// terminal `painter` a redraw of `screen`. Afterward, the displays of both terminals are
/// unspecified, but both terminals are still plain, so later redraws have the expected effect.
pub fn read_unsteady(
    dice: &mut Dice,
    tally: &mut Tally,
    mirror: &mut Parser,
    painter: &mut Parser,
    screen: &Screen,
    prev: &Screen,
) -> Result<Option<Part>> {
    tally.unsteady = tally.unsteady.saturating_add(1);
    if mirror.screen().is_sized_as(screen) && prev.is_sized_as(screen) {
        let text = difference(tally, screen, prev)?;
        if !is_drawn(text.as_str()) {
            return Ok(Some(Part::Output));
        }
        feed(mirror, dice, text.as_bytes())?;
    }
    if painter.screen().is_sized_as(screen) {
        let text = screen.contents_formatted()?;
        feed(painter, dice, text.as_bytes())?;
    }
    Ok(None)
}

/// Feeds the diff from the input modes of `prev` to those of `screen` to a terminal that has the
/// modes of `prev`. Returns [`Part::Modes`] if the terminal does not have the modes of `screen`
/// afterward.
pub fn read_modes(
    dice: &mut Dice,
    reader: &mut Parser,
    screen: &Screen,
    prev: &Screen,
) -> Result<Option<Part>> {
    let text = screen.input_mode_diff(prev)?;
    feed(reader, dice, text.as_bytes())?;
    if !have_same_modes(reader.screen(), screen) {
        return Ok(Some(Part::Modes));
    }
    Ok(None)
}

/// Returns whether the terminal `reader` and both screens have the same size, and the terminal
/// displays `prev`.
fn is_at(reader: &Screen, screen: &Screen, prev: &Screen) -> bool {
    reader.is_sized_as(screen) && prev.is_sized_as(screen) && shows(reader, prev)
}

/// Returns a diff from `prev` to `screen`. Two diffs that never move rows alternate with two diffs
/// that may do so; each kind is therefore tested after itself and after the other kind.
fn difference(tally: &mut Tally, screen: &Screen, prev: &Screen) -> Result<String> {
    if !screen.is_sized_as(prev) {
        bail!("screens of two sizes");
    }
    let may_scroll = tally.differences % 4 >= 2;
    tally.differences = tally.differences.saturating_add(1);
    let drawn = screen.contents_diff(prev)?;
    if !may_scroll {
        return Ok(drawn);
    }
    let text = screen.contents_diff_scrolling(prev)?;
    if text.as_str() != drawn.as_str() {
        tally.moved = tally.moved.saturating_add(1);
    }
    Ok(text)
}

fn missing(reader: &Screen, screen: &Screen, part: Part) -> Option<Part> {
    if shows(reader, screen) {
        None
    } else {
        Some(part)
    }
}

/// Returns whether the terminal `reader` displays no scrollback and its page has the cells, wrapped
/// flags, cursor and attributes that `screen` displays. Both screens must have the same size.
///
/// A row of scrollback that is wider than the screen is cut to the screen's columns: a wide glyph
/// that is cut becomes a blank, and the row counts as wrapped only if its last column is not blank
/// and it is not the last row.
pub fn shows(reader: &Screen, screen: &Screen) -> bool {
    let (rows, _cols) = screen.size();
    if !reader.is_sized_as(screen) || reader.scrollback() != 0 {
        return false;
    }
    for row in 0..rows.get() {
        if !shows_row(reader, screen, row) {
            return false;
        }
    }
    cursor(reader) == cursor(screen) && attributes(reader) == attributes(screen)
}

fn shows_row(reader: &Screen, screen: &Screen, row: u16) -> bool {
    let (rows, cols) = screen.size();
    let last = cols.get().saturating_sub(1);
    for col in 0..last {
        if reader.cell(row, col) != screen.cell(row, col) {
            return false;
        }
    }
    let (Some(read), Some(cell)) = (reader.cell(row, last), screen.cell(row, last)) else {
        return false;
    };
    let is_blank = cell.is_wide() || !(cell.has_contents() || cell.is_wide_continuation());
    let is_wrapped = screen.row_wrapped(row) && !is_blank && row != rows.get().saturating_sub(1);
    shows_last(read, cell) && reader.row_wrapped(row) == is_wrapped
}

/// Returns whether `read` is what a terminal displays in the last column for `cell`: a blank with
/// the same attributes if `cell` is the first cell of a wide glyph, otherwise an equal cell.
fn shows_last(read: &Cell, cell: &Cell) -> bool {
    if cell.is_wide() {
        return !read.has_contents()
            && !read.is_wide_continuation()
            && attributes_of(read) == attributes_of(cell);
    }
    read == cell
}

fn attributes_of(cell: &Cell) -> (Color, Color, [bool; 5]) {
    let switches = [
        cell.bold(),
        cell.dim(),
        cell.italic(),
        cell.underline(),
        cell.inverse(),
    ];
    (cell.fgcolor(), cell.bgcolor(), switches)
}
