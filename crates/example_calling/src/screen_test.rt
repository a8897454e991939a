//! Functions for tests of what a program displays.

ghost use Rattle.std.specs.Prelude.{◌≡◌, ◌↔◌, true, IfOk};
ghost use Rattle.vt_cells.specs.Refusals.{OnlyOutOfMemory};
ghost use Rattle.vt_screen.specs.Contents.{between_of, contents_of};

use vt100::{Color, Error, Screen};

/// Returns whether the text of all displayed rows is `text`.
pub fn shows(screen: &Screen, text: &str) -> Result<bool, Error>
    ensures shows { IfOk result (λ is. is ≡ true ↔ contents_of screen.now ≡ text.now) }
    ensures memory { OnlyOutOfMemory result }
{
    let shown = screen.contents()?;
    Ok(shown.as_str() == text)
}

/// Returns whether the text of a displayed row, not counting blanks at its end, is `text`.
pub fn row_shows(screen: &Screen, row: u16, text: &str) -> Result<bool, Error>
    ensures shows { IfOk result
        (λ is. is ≡ true ↔ between_of row 0 row screen.now.page.width screen.now ≡ text.now) }
    ensures memory { OnlyOutOfMemory result }
{
    let (_, columns) = screen.size();
    let shown = screen.contents_between(row, 0, row, columns.get())?;
    Ok(shown.as_str() == text)
}

/// Returns whether the foreground color of a displayed cell is `color`.
pub fn cell_is_in(screen: &Screen, row: u16, column: u16, color: Color) -> bool {
    match screen.cell(row, column) {
        Some(cell) => cell.fgcolor() == color,
        None => false,
    }
}
