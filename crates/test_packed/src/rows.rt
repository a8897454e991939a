//! Tables of rows, and the cells that they describe.

ghost use Rattle.std.specs.Prelude.{All, IfOk};
ghost use Rattle.vt_cells.specs.Cell.{IsCell};
ghost use Rattle.vt_rows.specs.Cells.{IsPaired};

use std::alloc::Global;
use vt_cells::{Attrs, Cell, Color, Error, columns};
use vt_rows::copies::copied;
use vt_rows::{Row, cells};

/// The colors of a glyph or a blank, in the form that tables of rows use.
#[derive(Clone, Copy)]
pub(crate) enum Ink {
    Plain,
    /// A red foreground.
    Red,
    /// A blue background.
    OnBlue,
}

impl Ink {
    /// Returns the attributes with these colors.
    pub(crate) fn attrs(self) -> Attrs {
        let mut attrs = Attrs::new();
        match self {
            Ink::Plain => {}
            Ink::Red => attrs.set_fgcolor(Color::Idx(1)),
            Ink::OnBlue => attrs.set_bgcolor(Color::Idx(4)),
        }
        attrs
    }
}

/// What is put at a column of a blank row: the text of a glyph, or an empty string for a blank.
pub(crate) type Put = (usize, &'static str, Ink);

/// A row, and what it becomes when it is packed.
#[derive(Clone, Copy)]
pub(crate) struct Example {
    pub(crate) columns: usize,
    pub(crate) wrapped: bool,
    /// The glyphs and blanks that are put into the row, in this order.
    pub(crate) puts: &'static [Put],
    /// The number of runs of the packed row.
    pub(crate) runs: usize,
    /// The number of bytes of text of the packed row.
    pub(crate) bytes: usize,
    /// The basic text of the row.
    pub(crate) text: &'static str,
}

/// Adds a character to a row at a column: a glyph if it takes columns, or else a combining character
/// of the glyph that is there. Erases the column if the character does not fit.
fn put_char(cells: &mut [Cell], column: usize, c: char, attrs: Attrs)
    requires { IsPaired cells.old }
    ensures paired { IsPaired cells.new }
    ensures sound { All IsCell cells.old → All IsCell cells.new }
{
    let left = cells.len().saturating_sub(column);
    match columns(c) {
        Some(0) if left > 0 && !cells[column].is_wide_continuation() => {
            cells::append(cells, column, c);
        }
        Some(1) if left > 0 && c != char::REPLACEMENT_CHARACTER => {
            cells::put_narrow(cells, column, c, attrs);
        }
        Some(2) if left > 1 && c != char::REPLACEMENT_CHARACTER => {
            cells::put_wide(cells, column, c, attrs);
        }
        _ if left > 0 => cells::erase(cells, column, column + 1, attrs),
        _ => {}
    }
}

/// Puts a glyph with the given text at a column, or a blank if the text is empty.
fn put(cells: &mut [Cell], column: usize, text: &str, attrs: Attrs)
    requires { IsPaired cells.old }
    ensures paired { IsPaired cells.new }
    ensures sound { All IsCell cells.old → All IsCell cells.new }
{
    if !text.is_empty() {
        return put_chars(cells, column, text, attrs);
    }
    if column < cells.len() {
        cells::erase(cells, column, column + 1, attrs);
    }
}

/// Puts a character at a column, and adds the characters after it to the same glyph.
fn put_chars(cells: &mut [Cell], column: usize, text: &str, attrs: Attrs)
    requires { IsPaired cells.old }
    ensures paired { IsPaired cells.new }
    ensures sound { All IsCell cells.old → All IsCell cells.new }
{
    for c in text.chars() {
        put_char(cells, column, c, attrs);
    }
}

/// Creates the cells of a row of `columns` columns with glyphs and blanks.
///
/// # Errors
///
/// Returns [`Error::OutOfMemory`] if the cells cannot be allocated.
pub(crate) fn cells_of(alloc: Global, columns: usize, puts: &[Put]) -> Result<Vec<Cell>, Error>
    ensures paired { IfOk result (λ cells. IsPaired cells.items) }
    ensures sound { IfOk result (λ cells. All IsCell cells.items) }
{
    let blank = Row::new(alloc, columns)?;
    let mut cells = copied(alloc, blank.cells())?;
    for (column, text, ink) in puts {
        put(&mut cells, *column, *text, ink.attrs());
    }
    Ok(cells)
}
