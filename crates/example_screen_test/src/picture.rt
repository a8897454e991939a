//! Pictures of two screens side by side.

ghost use Rattle.std.specs.Prelude.{◌≡◌};
ghost use Rattle.vt_rows.specs.Basic.{shown_text};

use crate::cases::Case;
use anyhow::Result;
use std::alloc::{AllocError, Global};
use vt100::{Cell, Parser, Screen};

/// Draws the screen that a test case expects, by writing each text to a terminal at its position.
pub fn draw(alloc: Global, parser: &mut Parser, case: &Case) -> Result<()> {
    for (row, column, text, _) in case.spots {
        let (row, column) = (u32::from(*row) + 1, u32::from(*column) + 1);
        let output = format!(in alloc; "\x1b[{row};{column}H{text}")?;
        parser.process(output.as_bytes())?;
    }
    Ok(())
}

/// Prints two screens of the same size side by side, with a bar at each end of every row.
pub fn print_both<R: AllocGlobal + Print>(rt: &R, expected: &Screen, seen: &Screen) -> Result<()> {
    let (rows, columns) = seen.size();
    let width = usize::from(columns.get()) + 2;
    println!(rt; "  {:width$}  seen", "expected")?;
    for row in 0..rows.get() {
        let left = row_text(rt.alloc(), expected, row)?;
        let right = row_text(rt.alloc(), seen, row)?;
        println!(rt; "  |{left}|  |{right}|")?;
    }
    Ok(())
}

/// Returns the text of a row over all columns of a screen.
fn row_text(alloc: Global, screen: &Screen, row: u16) -> Result<String, AllocError> {
    let (_, columns) = screen.size();
    let mut text = String::new(alloc);
    for column in 0..columns.get() {
        if let Some(cell) = screen.cell(row, column) {
            text.push_str(shown(cell))?;
        }
    }
    Ok(text)
}

/// Returns the text that a cell displays: a space for a blank, and nothing for a continuation cell.
pub fn shown(cell: &Cell) -> &str
    ensures { result.now ≡ shown_text cell.now }
{
    if cell.has_contents() || cell.is_wide_continuation() {
        cell.contents()
    } else {
        " "
    }
}
