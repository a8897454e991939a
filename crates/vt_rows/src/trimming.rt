//! Trimming and resizing of rows.

ghost use Rattle.std.specs.Prelude.{◌≡◌, ◌≤◌, IsTrue, length, take};
ghost use Rattle.vt_cells.specs.Attrs.{default_attrs};
ghost use Rattle.vt_cells.specs.Cell.{is_default_blank};
ghost use Rattle.vt_rows.specs.Cells.{IsPaired, blanks, cells_after_resize};
ghost use Rattle.vt_rows.specs.Internals.{end_blanked};
ghost use Rattle.vt_rows.specs.Row.{cells_without_end};

use crate::copies::copy_over;
use vt_cells::{Attrs, Cell, cell};

/// Returns the number of cells in a row, not counting its trailing default blanks.
pub fn trimmed_len(cells: &[Cell]) -> usize
    ensures inside { result ≤ length cells.now }
    ensures value { take result cells.now ≡ cells_without_end cells.now }
{
    let mut len = cells.len();
    while len >= 8 && eight_default(&cells[len - 8..len]) {
        len -= 8;
    }
    while len > 0 && is_default(&cells[len - 1]) {
        len -= 1;
    }
    len
}

/// Returns whether all eight cells are default blanks. All eight are tested, with no branch between
/// the tests.
#[inline(always)]
fn eight_default(cells: &[Cell]) -> bool
    requires { length cells.now ≡ 8 }
    ensures { IsTrue result → cells.now ≡ blanks default_attrs 8 }
{
    four_default(&cells[..4]) & four_default(&cells[4..])
}

/// Returns whether all four cells are default blanks.
#[inline(always)]
fn four_default(cells: &[Cell]) -> bool
    requires { length cells.now ≡ 4 }
    ensures { IsTrue result → cells.now ≡ blanks default_attrs 4 }
{
    is_default(&cells[0]) & is_default(&cells[1]) & is_default(&cells[2]) & is_default(&cells[3])
}

/// Copies the cells of `from` into the blank row `cells`, which may have a different width. Copies
/// as many cells as the narrower row has.
///
/// If the last column holds the first cell of a wide glyph after the copy, that cell becomes a
/// blank and keeps its attributes.
pub fn refit(cells: &mut [Cell], from: &[Cell])
    requires blank { cells.old ≡ blanks default_attrs (length cells.old) }
    requires paired { IsPaired from.now }
    ensures { cells.new ≡ cells_after_resize (length cells.old) from.now }
{
    let count = cells.len().min(from.len());
    copy_over(&mut cells[..count], &from[..count]);
    blank_end(cells);
}

/// Turns the last cell into a blank with the same attributes if it is the first cell of a wide
/// glyph.
#[tactic(auto, unfolding(crate::specs::Internals::end_blanked))]
pub fn blank_end(cells: &mut [Cell])
    ensures { cells.new ≡ end_blanked cells.old }
{
    let len = cells.len();
    if len == 0 {
        return;
    }
    if cells[len - 1].is_wide() {
        let attrs = cell::attrs(&cells[len - 1]);
        cells[len - 1] = cell::blank(attrs);
    }
}

/// Returns whether the cell is a default blank, that is, a blank with default attributes.
#[tactic(auto, using(crate::proofs::Rows::default_is))]
#[inline]
pub(crate) fn is_default(cell: &Cell) -> bool
    ensures { result ≡ is_default_blank cell.now }
{
    cell::is_blank(cell) && cell::attrs(cell).is_same(&Attrs::new())
}
