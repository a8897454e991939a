//! Checks of what a program displays: which text appears where on the screen after the program's
//! output has been parsed.

ghost use Rattle.std.specs.Prelude.{◌≡◌, ◌↔◌, false, map, true, IfOk, OnOk};
ghost use Rattle.vt100.specs.Parser.{Ran, pieces_joined, does_nothing};
ghost use Rattle.example_contracts.specs.Spots.{HasText};
ghost use Rattle.vt_cells.specs.Refusals.{OnlyOutOfMemory};
ghost use Rattle.vt_scan.specs.Automaton.{start};
ghost use Rattle.vt_screen.specs.Contents.{between_of, contents_of};
ghost use Rattle.vt_screen.specs.Screen.{fresh_screen};
ghost use Rattle.vt_screen.specs.CallsOfRun.{screen_in};

use std::alloc::Global;
use std::num::NonZeroU16;
use vt100::{Error, Parser, Screen, laws};

/// Returns whether the displayed cell at a row and column contains exactly `text`.
pub fn cell_shows(screen: &Screen, row: u16, column: u16, text: &str) -> bool
    ensures { result ≡ true ↔ HasText screen.now row column text.now }
{
    match screen.cell(row, column) {
        Some(cell) => cell.contents() == text,
        None => false,
    }
}

/// Returns whether the text of a displayed row, within the screen's columns and not counting blanks
/// at its end, is `text`.
///
/// # Errors
///
/// Returns [`Error::OutOfMemory`] if the text cannot be allocated.
pub fn row_shows(screen: &Screen, row: u16, text: &str) -> Result<bool, Error>
    ensures shows { IfOk result (λ is. is ≡ true ↔ between_of row 0 row screen.now.page.width screen.now ≡ text.now) }
    ensures memory { OnlyOutOfMemory result }
{
    let (_, columns) = screen.size();
    let shown = screen.contents_between(row, 0, row, columns.get())?;
    Ok(shown.as_str() == text)
}

/// Returns whether the text of all displayed rows is `text`.
///
/// # Errors
///
/// Returns [`Error::OutOfMemory`] if the text cannot be allocated.
pub fn screen_shows(screen: &Screen, text: &str) -> Result<bool, Error>
    ensures shows { IfOk result (λ is. is ≡ true ↔ contents_of screen.now ≡ text.now) }
    ensures memory { OnlyOutOfMemory result }
{
    let shown = screen.contents()?;
    Ok(shown.as_str() == text)
}

/// Returns whether a terminal with the given number of rows and columns displays `text` after it
/// has parsed `output`.
///
/// # Errors
///
/// Returns [`Error::OutOfMemory`] if an allocation fails.
pub fn output_shows(
    alloc: Global,
    rows: NonZeroU16,
    cols: NonZeroU16,
    output: &[u8],
    text: &str,
) -> Result<bool, Error>
    ensures shows { IfOk result
        (λ is. is ≡ true ↔ contents_of (screen_in start (fresh_screen rows.value cols.value 0) output.now) ≡ text.now) }
    ensures memory { OnlyOutOfMemory result }
{
    laws::one_text::<()>();
    let mut parser = Parser::new(alloc, rows, cols, 0)?;
    parser.process(output)?;
    // Only for the proof: naming the result before returning it makes the callee's clauses
    // available.
    let holds = screen_shows(parser.screen(), text)?;
    Ok(holds)
}

/// Returns whether a terminal with the given number of rows and columns displays `text` after it
/// has parsed the chunks in `pieces`, in order.
///
/// # Errors
///
/// Returns [`Error::OutOfMemory`] if an allocation fails.
pub fn pieces_show(
    alloc: Global,
    rows: NonZeroU16,
    cols: NonZeroU16,
    pieces: &[&[u8]],
    text: &str,
) -> Result<bool, Error>
    ensures shows { IfOk result (λ is. is ≡ true ↔ contents_of (screen_in start (fresh_screen rows.value cols.value 0)
        (pieces_joined (map (λ piece. piece.now) pieces.now))) ≡ text.now) }
    ensures memory { OnlyOutOfMemory result }
{
    laws::one_text::<()>();
    let mut parser = Parser::new(alloc, rows, cols, 0)?;
    read_pieces(&mut parser, pieces)?;
    // Only for the proof: naming the result before returning it makes the callee's clauses
    // available.
    let holds = screen_shows(parser.screen(), text)?;
    Ok(holds)
}

/// Passes chunks to a terminal one by one, which has the same effect as parsing their
/// concatenation.
fn read_pieces(parser: &mut Parser, pieces: &[&[u8]]) -> Result<(), Error>
    requires { parser.old.is_failed ≡ false }
    ensures ran { OnOk result
        (Ran does_nothing parser.old (pieces_joined (map (λ piece. piece.now) pieces.now)) parser.new) }
    ensures memory { OnlyOutOfMemory result }
{
    laws::pieces::<()>();
    for piece in pieces {
        parser.process(piece)?;
    }
    Ok(())
}
