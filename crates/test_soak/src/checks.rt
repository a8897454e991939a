//! Checks of a screen, of its output, and of whether it is steady.

use crate::part::counts;
use anyhow::Result;
use std::alloc::Global;
use std::num::NonZeroU16;
use std::str::Chars;
use vt100::{Cell, Parser, Screen};

/// The final bytes of the control sequences in output for terminals: CUP, CUF, ECH, EL, ED, SGR,
/// and ICH, DCH, IL, DL and CHA in diffs that move rows or columns.
const FINALS: &str = "HCXKJm@PLMG";

/// Returns whether the only control characters in a text are CR, LF, tabs, backspaces, and those of
/// the escape sequences that draw.
pub fn is_drawn(text: &str) -> bool {
    let mut chars = text.chars();
    for _ in 0..text.len() {
        let Some(c) = chars.next() else {
            break;
        };
        let is_right = match c {
            '\u{1b}' => is_sequence(&mut chars),
            '\r' | '\n' | '\t' | '\u{8}' => true,
            _ => !is_control(c),
        };
        if !is_right {
            return false;
        }
    }
    true
}

/// Returns whether the characters after an ESC form a sequence that draws.
fn is_sequence(chars: &mut Chars<'_>) -> bool {
    match chars.next() {
        Some('7' | '8') => true,
        Some('[') => is_control_sequence(chars),
        _ => false,
    }
}

/// Returns whether the characters after CSI are decimal numbers followed by one of the final bytes
/// in [`FINALS`], or form the sequence that shows or hides the cursor.
fn is_control_sequence(chars: &mut Chars<'_>) -> bool {
    match chars.next() {
        Some('?') => is_cursor_mode(chars),
        Some(c) if is_parameter(c) => ends_listed(chars),
        Some(c) => FINALS.contains(c),
        None => false,
    }
}

/// Returns whether the characters after `CSI ?` set or reset mode 25.
fn is_cursor_mode(chars: &mut Chars<'_>) -> bool {
    let mode = (chars.next(), chars.next(), chars.next());
    matches!(mode, (Some('2'), Some('5'), Some('h' | 'l')))
}

/// Returns whether the remaining characters of a control sequence are decimal numbers followed by
/// one of the final bytes in [`FINALS`].
fn ends_listed(chars: &mut Chars<'_>) -> bool {
    for c in chars {
        if !is_parameter(c) {
            return FINALS.contains(c);
        }
    }
    false
}

fn is_parameter(c: char) -> bool {
    c.is_ascii_digit() || c == ';'
}

/// Returns whether a character is a C0 or C1 control character, or DEL.
fn is_control(c: char) -> bool {
    c < ' ' || matches!(c, '\u{7f}'..='\u{9f}')
}

/// Returns whether the observable invariants of a screen hold.
///
/// The cursor is on the screen or has a pending wrap. Each displayed row of the page is as wide as
/// the screen, and each displayed row of scrollback at least as wide. A wide glyph is followed by
/// its continuation cell. No row with a blank last column is wrapped, and neither is the last row
/// of the page. The display is scrolled back by at most as many rows as scrollback has, and
/// scrollback has at most as many rows as its capacity.
pub fn is_sound(screen: &Screen) -> bool {
    let (rows, cols) = screen.size();
    let (row, col) = screen.cursor_position();
    let (in_view, kept, capacity) = counts(screen);
    row < rows.get()
        && col <= cols.get()
        && in_view <= kept
        && kept <= capacity
        && are_rows_sound(screen)
        && !screen.row_wrapped(rows.get())
        && screen.cell(rows.get(), 0).is_none()
}

fn are_rows_sound(screen: &Screen) -> bool {
    let (rows, cols) = screen.size();
    for row in 0..rows.get() {
        let is_kept = usize::from(row) < screen.scrollback();
        let Some(length) = sound_length(screen, row) else {
            return false;
        };
        if length < cols.get() || (length > cols.get() && !is_kept) {
            return false;
        }
        if screen.row_wrapped(row) && !may_go_on(screen, row, length, is_kept) {
            return false;
        }
    }
    true
}

/// Returns the number of cells of a row. Returns `None` if a wide glyph has no continuation cell, a
/// continuation cell has no wide glyph, or a cell is not valid.
fn sound_length(screen: &Screen, row: u16) -> Option<u16> {
    let mut is_due = false;
    for col in 0..u16::MAX {
        let Some(cell) = screen.cell(row, col) else {
            return if is_due { None } else { Some(col) };
        };
        if cell.is_wide_continuation() != is_due || !is_sound_cell(cell) {
            return None;
        }
        is_due = cell.is_wide();
    }
    None
}

/// Returns whether a cell is valid: a glyph has at most 29 bytes of text, and a continuation cell
/// has no text.
fn is_sound_cell(cell: &Cell) -> bool {
    let length = cell.contents().len();
    let is_right_half = cell.is_wide_continuation();
    length <= 29
        && cell.has_contents() == (length > 0)
        && !(is_right_half && (cell.is_wide() || length > 0))
        && !(cell.is_wide() && length == 0)
}

/// Returns whether a row may be wrapped: its last cell is not blank, and it is a row of scrollback
/// or not the last row of the page.
fn may_go_on(screen: &Screen, row: u16, length: u16, is_kept: bool) -> bool {
    let (rows, _cols) = screen.size();
    let is_last = screen.scrollback() == 0 && row == rows.get().saturating_sub(1);
    match screen.cell(row, length.saturating_sub(1)) {
        Some(last) => (last.has_contents() || last.is_wide_continuation()) && (is_kept || !is_last),
        None => false,
    }
}

/// Returns whether every visible glyph reproduces itself when printed on a blank row of the
/// screen's width. Only glyphs with U+FE0F are tested, because all other glyphs reproduce
/// themselves.
pub fn prints_itself(alloc: Global, screen: &Screen) -> Result<bool> {
    let (rows, cols) = screen.size();
    for row in 0..rows.get() {
        for col in 0..cols.get() {
            let is_cut = col == cols.get().saturating_sub(1);
            if let Some(cell) = screen.cell(row, col)
                && cell.contents().contains('\u{fe0f}')
                && !(is_cut && cell.is_wide())
                && !is_printed_alike(alloc, cols, cell)?
            {
                return Ok(false);
            }
        }
    }
    Ok(true)
}

/// Returns whether the text of a glyph, printed on a blank row, leaves the glyph in the first
/// columns, blanks after it, and the cursor directly after it.
fn is_printed_alike(alloc: Global, cols: NonZeroU16, glyph: &Cell) -> Result<bool> {
    let mut parser = Parser::new(alloc, NonZeroU16::MIN, cols, 0)?;
    parser.process(glyph.contents().as_bytes())?;
    let screen = parser.screen();
    let width = if glyph.is_wide() { 2 } else { 1 };
    let is_alike = match screen.cell(0, 0) {
        Some(cell) => cell.contents() == glyph.contents() && cell.is_wide() == glyph.is_wide(),
        None => false,
    };
    Ok(is_alike && screen.cursor_position() == (0, width) && is_blank_from(screen, width))
}

/// Returns whether all cells of the first row from a column on are blank.
fn is_blank_from(screen: &Screen, start: u16) -> bool {
    let (_rows, cols) = screen.size();
    for col in start..cols.get() {
        match screen.cell(0, col) {
            Some(cell) if !cell.has_contents() && !cell.is_wide_continuation() => {}
            _ => return false,
        }
    }
    true
}
