//! The output of a screen for a second terminal, and what that terminal must display.

use crate::lengths::{PORTABLE, PORTABLE_SCROLLING, REPEATING, REPEATING_ASCII, Reading};
use anyhow::{Result, ensure};
use std::alloc::{AllocError, Global};
use vt100::{Cell, Color, Parser, RedrawOptions, Screen};

/// Prints a group of nine texts after every `every` bytes and at the end of the input:
/// `contents_formatted`; `contents_diff`, `contents_diff_scrolling`, and `contents_diff_with` with
/// [`REPEATING_ASCII`] and with [`REPEATING`], from the screen of the previous group (for the first
/// group, a new screen); the portable redraw; the diffs with [`PORTABLE`] and with
/// [`PORTABLE_SCROLLING`]; and the display of the screen.
///
/// Each group begins with a line that contains the cursor's row and column, counted from 0, whether
/// the cursor is hidden, and the length of each text in bytes. Each group ends with a newline.
pub fn show_texts<R: AllocGlobal + Print>(rt: &R, reading: Reading, bytes: &[u8]) -> Result<()> {
    ensure!(reading.every > 0, "no bytes between texts");
    let alloc = rt.alloc();
    let mut parser = Parser::new(alloc, reading.rows, reading.cols, reading.capacity)?;
    let mut prev = parser.screen().clone()?;
    for piece in bytes.chunks(reading.every) {
        parser.process(piece)?;
        show(rt, parser.screen(), &prev)?;
        prev = parser.screen().clone()?;
    }
    Ok(())
}

fn show<R: AllocGlobal + Print>(rt: &R, screen: &Screen, prev: &Screen) -> Result<()> {
    ensure!(screen.is_sized_as(prev), "another size");
    let (redraw, drawn) = (screen.contents_formatted()?, screen.contents_diff(prev)?);
    let scrolling = screen.contents_diff_scrolling(prev)?;
    let ascii = screen.contents_diff_with(prev, REPEATING_ASCII)?;
    let repeating = screen.contents_diff_with(prev, REPEATING)?;
    let portable = screen.contents_formatted_with(RedrawOptions { portable: true })?;
    let portable_diff = screen.contents_diff_with(prev, PORTABLE)?;
    let moved = screen.contents_diff_with(prev, PORTABLE_SCROLLING)?;
    let shown = shown(rt.alloc(), screen)?;
    let texts = [
        redraw,
        drawn,
        scrolling,
        ascii,
        repeating,
        portable,
        portable_diff,
        moved,
        shown,
    ];
    let (row, col) = screen.cursor_position();
    let hidden = screen.hide_cursor();
    print!(rt; "{row} {col} {hidden}")?;
    for text in &texts {
        let len = text.len();
        print!(rt; " {len}")?;
    }
    println!(rt; "")?;
    for text in &texts {
        print!(rt; "{text}")?;
    }
    println!(rt; "")?;
    Ok(())
}

/// Returns the display of a screen: for each row its cells and a newline. A cell is its glyph, NUL
/// for a blank, or nothing for a continuation cell, and ends with U+001F. Attributes precede the
/// first cell of a row and each change, as `ESC [ FOREGROUND BACKGROUND MARKS m`; continuation
/// cells have those of their wide characters.
fn shown(alloc: Global, screen: &Screen) -> Result<String, AllocError> {
    let (rows, cols) = screen.size();
    let mut text = String::new(alloc);
    for row in 0..rows.get() {
        let mut before = None;
        for col in 0..cols.get() {
            if let Some(cell) = screen.cell(row, col) {
                if !cell.is_wide_continuation() {
                    write_cell(&mut text, cell, before)?;
                    before = Some(cell);
                }
                text.push_str("\x1f")?;
            }
        }
        text.push_str("\n")?;
    }
    Ok(text)
}

/// Appends a cell that is no continuation cell, preceded by its attributes if they differ from
/// those of `before`.
fn write_cell(text: &mut String, cell: &Cell, before: Option<&Cell>) -> Result<(), AllocError> {
    if before.is_none_or(|before| looks(before) != looks(cell)) {
        let (ink, paper, marks) = looks(cell);
        text.push_str("\x1b[")?;
        write_color(text, ink)?;
        write_color(text, paper)?;
        write!(text, "{marks}m")?;
    }
    if cell.has_contents() {
        text.push_str(cell.contents())
    } else {
        text.push_str("\0")
    }
}

/// Returns the colors of a cell, and the sum of its attributes: 1 for bold, 2 for dim, 4 for
/// italics, 8 for underlined and 16 for inverse.
fn looks(cell: &Cell) -> (Color, Color, u32) {
    let marks = u32::from(cell.bold())
        + 2 * u32::from(cell.dim())
        + 4 * u32::from(cell.italic())
        + 8 * u32::from(cell.underline())
        + 16 * u32::from(cell.inverse());
    (cell.fgcolor(), cell.bgcolor(), marks)
}

/// Appends a color and a space. The color is written as `-`, as its index, or as its red, green and
/// blue components.
fn write_color(text: &mut String, color: Color) -> Result<(), AllocError> {
    match color {
        Color::Default => text.push_str("- "),
        Color::Idx(number) => write!(text, "{number} "),
        Color::Rgb(red, green, blue) => write!(text, "{red},{green},{blue} "),
    }
}
