//! The words that case files use for bytes, numbers, colors and attributes, and the lines with which
//! they describe a screen and the callbacks invoked.

use anyhow::Result;
use std::alloc::{AllocError, Global};
use std::fmt;
use vt_notes::Notes;
use vt100::{Cell, Color, Screen};

/// Returns the bytes that a word encodes in hexadecimal, or no bytes if the word is a dot.
pub fn bytes_of(alloc: Global, word: &str) -> Result<Vec<u8>> {
    if word == "." {
        return Ok(Vec::new(alloc));
    }
    Ok(hex::decode(alloc, word)?)
}

/// Displays bytes in hexadecimal, or as a dot if there are none.
#[derive(Clone, Copy)]
pub struct Hex<'a>(pub &'a [u8]);

impl fmt::Display for Hex<'_> {
    fn fmt<W: fmt::Write>(&self, f: &mut fmt::Formatter<W>) -> fmt::Result {
        if self.0.is_empty() {
            return write!(f, ".");
        }
        for byte in self.0 {
            write!(f, "{byte:02x}")?;
        }
        Ok(())
    }
}

/// Displays a color as a word in the notation of case files.
#[derive(Clone, Copy)]
pub struct ColorWord(pub Color);

impl fmt::Display for ColorWord {
    fn fmt<W: fmt::Write>(&self, f: &mut fmt::Formatter<W>) -> fmt::Result {
        match self.0 {
            Color::Default => write!(f, "default"),
            Color::Idx(index) => write!(f, "{index}"),
            Color::Rgb(red, green, blue) => write!(f, "rgb:{red}:{green}:{blue}"),
        }
    }
}

/// Displays attributes as a letter for each that is set, or as a dash if none is set.
#[derive(Clone, Copy)]
pub struct AttrsWord {
    pub bold: bool,
    pub dim: bool,
    pub italic: bool,
    pub underline: bool,
    pub inverse: bool,
}

impl AttrsWord {
    /// Returns whether no attribute is set.
    pub fn is_default(self) -> bool {
        !(self.bold || self.dim || self.italic || self.underline || self.inverse)
    }
}

impl fmt::Display for AttrsWord {
    fn fmt<W: fmt::Write>(&self, f: &mut fmt::Formatter<W>) -> fmt::Result {
        if self.is_default() {
            return write!(f, "-");
        }
        let letters = [
            (self.bold, 'b'),
            (self.dim, 'd'),
            (self.italic, 'i'),
            (self.underline, 'u'),
            (self.inverse, 'v'),
        ];
        for (on, letter) in letters {
            if on {
                write!(f, "{letter}")?;
            }
        }
        Ok(())
    }
}

/// Returns 1 for `true` and 0 for `false`.
pub fn digit(on: bool) -> u8 {
    if on { 1 } else { 0 }
}

/// Returns the lines that describe the cursor, the wrapped flags and the cells, each with its
/// newline.
pub fn picture_lines(alloc: Global, screen: &Screen) -> Result<String, AllocError> {
    let mut lines = String::new(alloc);
    write_picture(&mut lines, screen)?;
    Ok(lines)
}

/// Returns the lines that describe the modes and the callbacks invoked, each with its newline.
pub fn other_lines(alloc: Global, screen: &Screen, notes: &Notes) -> Result<String, AllocError> {
    let mut lines = String::new(alloc);
    write_modes(&mut lines, screen)?;
    write_calls(alloc, &mut lines, notes)?;
    Ok(lines)
}

/// Returns the lines that describe the size, the scrollback and the lengths of the rows, each with
/// its newline.
pub fn size_lines(alloc: Global, screen: &Screen) -> Result<String, AllocError> {
    let mut lines = String::new(alloc);
    let (rows, cols) = screen.size();
    writeln!(lines, "size {rows} {cols}")?;
    let offset = screen.scrollback();
    let length = screen.scrollback_len();
    let capacity = screen.scrollback_capacity();
    writeln!(lines, "scrollback {offset} {length} {capacity}")?;
    lines.push_str("lengths")?;
    for row in 0..rows.get() {
        write!(lines, " {}", row_length(screen, row))?;
    }
    lines.push('\n')?;
    Ok(lines)
}

fn write_picture(lines: &mut String, screen: &Screen) -> Result<(), AllocError> {
    let (row, col) = screen.cursor_position();
    writeln!(lines, "cursor {row} {col}")?;
    write_flags(lines, screen)?;
    let (rows, _cols) = screen.size();
    for row in 0..rows.get() {
        write_row(lines, screen, row)?;
    }
    Ok(())
}

fn write_flags(lines: &mut String, screen: &Screen) -> Result<(), AllocError> {
    let (rows, _cols) = screen.size();
    lines.push_str("flags ")?;
    for row in 0..rows.get() {
        write!(lines, "{}", digit(screen.row_wrapped(row)))?;
    }
    lines.push('\n')
}

fn write_modes(lines: &mut String, screen: &Screen) -> Result<(), AllocError> {
    let hide = digit(screen.hide_cursor());
    let alternate = digit(screen.alternate_screen());
    let keypad = digit(screen.application_keypad());
    let cursor = digit(screen.application_cursor());
    let paste = digit(screen.bracketed_paste());
    write!(lines, "screen {hide} {alternate} {keypad} {cursor} {paste}")?;
    let mouse = screen.mouse_protocol_mode();
    let encoding = screen.mouse_protocol_encoding();
    let style = screen.cursor_style() as u8;
    write!(lines, " {mouse:?} {encoding:?} {style}")?;
    let attrs = AttrsWord {
        bold: screen.bold(),
        dim: screen.dim(),
        italic: screen.italic(),
        underline: screen.underline(),
        inverse: screen.inverse(),
    };
    let foreground = ColorWord(screen.fgcolor());
    let background = ColorWord(screen.bgcolor());
    writeln!(lines, " {foreground} {background} {attrs}")
}

fn write_calls(alloc: Global, lines: &mut String, notes: &Notes) -> Result<(), AllocError> {
    let calls = notes.lines(alloc)?;
    for call in calls.lines() {
        if call.starts_with("scroll ") {
            writeln!(lines, "{call}")?;
        } else {
            writeln!(lines, "event {call}")?;
        }
    }
    Ok(())
}

/// Returns the number of cells of a row. A row of scrollback may have more or fewer cells than the
/// screen has columns.
fn row_length(screen: &Screen, row: u16) -> u16 {
    for col in 0..u16::MAX {
        if screen.cell(row, col).is_none() {
            return col;
        }
    }
    u16::MAX
}

/// Writes a line for each cell that is not a default blank.
fn write_row(lines: &mut String, screen: &Screen, row: u16) -> Result<(), AllocError> {
    for col in 0..u16::MAX {
        let Some(cell) = screen.cell(row, col) else {
            return Ok(());
        };
        write_cell(lines, row, col, cell)?;
    }
    Ok(())
}

fn write_cell(lines: &mut String, row: u16, col: u16, cell: &Cell) -> Result<(), AllocError> {
    let attrs = cell_attrs(cell);
    if is_default_blank(cell, attrs) {
        return Ok(());
    }
    let text = Hex(cell.contents().as_bytes());
    let kind = kind_of(cell);
    let foreground = ColorWord(cell.fgcolor());
    let background = ColorWord(cell.bgcolor());
    writeln!(
        lines,
        "cell {row} {col} {text} {kind} {foreground} {background} {attrs}"
    )
}

fn is_default_blank(cell: &Cell, attrs: AttrsWord) -> bool {
    let shows = cell.has_contents() || cell.is_wide_continuation();
    let colored = cell.fgcolor() != Color::Default || cell.bgcolor() != Color::Default;
    !shows && !colored && attrs.is_default()
}

/// Returns `n` for a blank and a narrow glyph, `w` for a wide glyph, and `r` for a continuation
/// cell.
fn kind_of(cell: &Cell) -> char {
    if cell.is_wide_continuation() {
        'r'
    } else if cell.is_wide() {
        'w'
    } else {
        'n'
    }
}

fn cell_attrs(cell: &Cell) -> AttrsWord {
    AttrsWord {
        bold: cell.bold(),
        dim: cell.dim(),
        italic: cell.italic(),
        underline: cell.underline(),
        inverse: cell.inverse(),
    }
}
