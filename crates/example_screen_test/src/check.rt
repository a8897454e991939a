//! Comparison of a screen with what a test case expects.

use crate::cases::{Case, Property, Spot};
use crate::picture::shown;
use anyhow::Result;
use vt100::{Cell, Screen};

/// The reason why an expected text is not displayed.
#[derive(Clone, Copy)]
enum Miss {
    /// A different text is displayed at the position of the expected text.
    Text,

    /// The expected text is displayed at its position but lacks the given property.
    Property(Property),
}

/// Returns whether a screen displays everything that a test case expects.
pub fn holds(screen: &Screen, case: &Case) -> bool {
    for spot in case.spots {
        if miss_at(screen, spot).is_some() {
            return false;
        }
    }
    screen.cursor_position() == case.cursor
}

/// Prints a line for each expectation that a screen does not meet.
pub fn print_misses<R: Print>(rt: &R, screen: &Screen, case: &Case) -> Result<()> {
    for spot in case.spots {
        let (row, column, text, _) = spot;
        match miss_at(screen, spot) {
            None => {}
            Some(Miss::Text) => println!(rt; "  row {row}, column {column}: no {text:?}")?,
            Some(Miss::Property(property)) => {
                println!(rt; "  row {row}, column {column}: {text:?} isn't {property:?}")?;
            }
        }
    }
    let (row, column) = screen.cursor_position();
    if (row, column) != case.cursor {
        let (wanted_row, wanted_column) = case.cursor;
        println!(rt;
            "  the cursor is at row {row}, column {column}, not at row {wanted_row}, column {wanted_column}"
        )?;
    }
    Ok(())
}

/// Returns why an expected text is not displayed, or `None` if the text is displayed.
fn miss_at(screen: &Screen, spot: &Spot) -> Option<Miss> {
    let (_, columns) = screen.size();
    let (row, start, text, properties) = *spot;
    if is_right_half(screen, row, start) {
        return Some(Miss::Text);
    }
    let mut rest = text;
    for column in start..columns.get() {
        if rest.is_empty() {
            return None;
        }
        let Some(cell) = screen.cell(row, column) else {
            return Some(Miss::Text);
        };
        let Some(behind) = rest.strip_prefix(shown(cell)) else {
            return Some(Miss::Text);
        };
        if let Some(property) = lacking(cell, properties) {
            return Some(Miss::Property(property));
        }
        rest = behind;
    }
    if rest.is_empty() {
        None
    } else {
        Some(Miss::Text)
    }
}

/// Returns whether the cell is the continuation cell of a wide character.
fn is_right_half(screen: &Screen, row: u16, column: u16) -> bool {
    match screen.cell(row, column) {
        Some(cell) => cell.is_wide_continuation(),
        None => false,
    }
}

/// Returns the first property in `properties` that a cell lacks, or `None` if it has all of them. A
/// continuation cell is drawn with its wide character and therefore lacks no property.
fn lacking(cell: &Cell, properties: &[Property]) -> Option<Property> {
    if cell.is_wide_continuation() {
        return None;
    }
    for property in properties {
        if !has(cell, *property) {
            return Some(*property);
        }
    }
    None
}

/// Returns whether a cell has a property.
fn has(cell: &Cell, property: Property) -> bool {
    match property {
        Property::Bold => cell.bold(),
        Property::Underlined => cell.underline(),
        Property::Inverse => cell.inverse(),
        Property::Foreground(color) => cell.fgcolor() == color,
        Property::Background(color) => cell.bgcolor() == color,
    }
}
