//! Short gaps between changed columns: their glyphs are printed again instead of being skipped.
//!
//! CUF takes three or four bytes, so printing one to three glyphs that the terminal already
//! displays is shorter.

ghost use Rattle.std.specs.Prelude.{◌≡◌, ◌<◌, ◌≤◌, ◌+◌, ◌++◌, IfSome, IsTrue, OnOk, length, string_bytes};
ghost use Rattle.vt_cells.specs.Refusals.{OnlyOutOfMemory};
ghost use Rattle.vt_screen.specs.Gaps.{IsByteGlyph, IsFrom, IsGap, IsGapOver, IsLetter, gap_text};

use crate::short_moves::elements::Element;
use crate::short_moves::known::Known;
use vt_cells::{Attrs, Cell, Error, Pos, Sink, cell};
use vt_redraw::{PictureRow, View};

/// The number of columns in the longest gap whose glyphs take fewer bytes to print than to skip
/// with CUF.
const LONGEST_GAP: u16 = 3;

/// A range of columns in the cursor's row, beginning at the cursor, that a cursor movement skips.
#[derive(Clone, Copy, PartialEq, Eq, Debug)]
pub struct Gap {
    /// The position of the first column.
    pub from: Pos,

    /// The number of columns.
    pub count: u16,
}

/// Returns the gap that `element` skips on a terminal that displayed `prev` before it read the
/// output. Returns `None` if `element` is not a movement to the right, or if the gap's glyphs
/// cannot be printed instead.
///
/// They can be printed if the gap has at most three columns and ends before the last column, the
/// terminal is known to have default attributes, and each column of the gap is known to still
/// display a printable ASCII character with default attributes.
#[inline]
pub fn gap_over(prev: &View<'_>, known: Known, element: Element) -> Option<Gap>
    ensures { IfSome result (IsGapOver prev.now known element) }
{
    let Element::Right(count) = element else {
        return None;
    };
    if count == 0 || count > LONGEST_GAP || !known.is_default {
        return None;
    }
    let from = known.at?;
    let kept = known.kept?;
    if from.row >= prev.rows() || from.col >= prev.cols() || !is_from(kept, from) {
        return None;
    }
    if count >= prev.cols() - from.col || !is_gap(&prev.row(from.row), from.col, count) {
        return None;
    }
    Some(Gap { from, count })
}

/// Returns whether `pos` is at or after `first` in reading order.
fn is_from(first: Pos, pos: Pos) -> bool
    ensures { IsTrue result → IsFrom first pos.row pos.col }
{
    first.row < pos.row || (first.row == pos.row && first.col <= pos.col)
}

/// Returns whether each of the `count` columns from `col` on has a glyph of one printable ASCII
/// character with default attributes.
#[tactic(auto, using(crate::proofs::ReadGaps::gap_more))]
fn is_gap(row: &PictureRow<'_>, col: u16, count: u16) -> bool
    requires inside { col + count ≤ length row.now.cells }
    requires short { col + count < 65536 }
    ensures { IsTrue result → IsGap row.now.cells col count }
{
    if count == 0 {
        return true;
    }
    is_byte_glyph(row.cell(col)) && is_gap(row, col + 1, count - 1)
}

/// Returns whether the cell is a narrow glyph of one printable ASCII character with default
/// attributes.
fn is_byte_glyph(cell: &Cell) -> bool
    ensures { IsTrue result → IsByteGlyph cell.now }
{
    let text = cell.contents().as_bytes();
    if cell.is_wide() || text.len() != 1 || text[0] < 0x20 || text[0] >= 0x7F {
        return false;
    }
    cell::has_attrs(cell, &Attrs::new())
}

/// Appends to `short` the text of the `count` columns of `row` that begin at column `col`.
///
/// # Errors
///
/// Returns `Error::OutOfMemory` if the string cannot grow.
#[tactic(auto, using(crate::proofs::ReadGaps::text_more))]
pub fn write_gap(
    short: &mut String,
    row: &PictureRow<'_>,
    col: u16,
    count: u16,
) -> Result<(), Error>
    requires inside { col + count ≤ length row.now.cells }
    requires short { col + count < 65536 }
    ensures text { OnOk result (string_bytes short.new ≡ string_bytes short.old ++ gap_text row.now.cells col count) }
    ensures memory { OnlyOutOfMemory result }
{
    if count == 0 {
        return Ok(());
    }
    short.write_str(row.cell(col).contents())?;
    write_gap(short, row, col + 1, count - 1)
}

/// Returns the first character of `text` and the rest of `text`, or `None` if `text` does not begin
/// with a printable ASCII character.
pub fn first_letter(text: &str) -> Option<(&str, &str)>
    ensures letter { IfSome result (λ found. IsLetter found.0.now) }
    ensures parts { IfSome result (λ found. text.now ≡ found.0.now ++ found.1.now) }
{
    let (letter, rest) = text.split_at_checked(1)?;
    let bytes = letter.as_bytes();
    if bytes.is_empty() || bytes[0] < 0x20 || bytes[0] >= 0x7F {
        return None;
    }
    Some((letter, rest))
}
