//! The columns of a row that need no output, because the terminal displays their cells already.

ghost use Rattle.std.specs.Prelude.{◌≡◌, ◌<◌, ◌≤◌, ◌||◌, false, length};
ghost use Rattle.vt_cells.specs.Cell.{is_right_half, same_cell};
ghost use Rattle.vt_rows.specs.Cells.{at};
ghost use Rattle.vt_redraw.specs.Internals.{IsRange, Passes, stands};

use crate::picture_row::PictureRow;
use vt_cells::Cell;

/// Returns whether `cell`, the picture's cell in column `col`, needs no output, because the
/// terminal already displays it there or because it is the continuation cell of a wide glyph.
#[inline(always)]
pub fn stands_at(cell: &Cell, over: &PictureRow<'_>, col: u16) -> bool
    requires { col < length over.now.cells }
    ensures { result ≡ (is_right_half cell.now || same_cell cell.now (at over.now.cells col)) }
{
    *cell == *over.cell(col) || cell.is_wide_continuation()
}

/// Returns whether the picture's cell in column `col` needs no output, because the terminal already
/// displays it or because it is the continuation cell of a wide glyph.
#[inline(always)]
fn stands(cells: &PictureRow<'_>, over: &PictureRow<'_>, col: u16) -> bool
    requires inside { col < length cells.now.cells }
    requires over { length cells.now.cells ≤ length over.now.cells }
    ensures { result ≡ stands col cells.now over.now }
{
    stands_at(cells.cell(col), over, col)
}

/// Returns the first column in `col..stop` whose cell needs output, or the
/// greater of `col` and `stop` if there is none.
#[inline(always)]
fn pass(cells: &PictureRow<'_>, over: &PictureRow<'_>, col: u16, stop: usize) -> u16
    requires inside { stop ≤ length cells.now.cells }
    requires short { stop < 65536 }
    requires range { IsRange cells.now.cells over.now.cells }
    ensures order { col ≤ result }
    ensures passed { Passes col result cells.now.cells over.now.cells }
    ensures other { result < stop → stands result cells.now over.now ≡ false }
{
    let mut next = col;
    while usize::from(next) < stop && stands(cells, over, next) {
        next += 1;
    }
    next
}

/// Skips consecutive columns, starting at `col`, in which the cells of the two
/// rows are equal and therefore need no output. Returns the first column that
/// was not skipped; its cells may still be equal.
#[inline]
fn pass_same(cells: &PictureRow<'_>, over: &PictureRow<'_>, col: u16) -> u16
    requires short { length cells.now.cells < 65536 }
    requires range { IsRange cells.now.cells over.now.cells }
    ensures order { col ≤ result }
    ensures passed { Passes col result cells.now.cells over.now.cells }
{
    col + cells.same_run(over, col) as u16
}

/// Skips consecutive columns, starting at `col`, in which the cells of `cells` equal the blank
/// after the stored cells of `over` and therefore need no output. Returns the first column that was
/// not skipped; its cell may still equal that blank.
#[inline]
fn pass_ended(cells: &PictureRow<'_>, over: &PictureRow<'_>, col: u16) -> u16
    requires short { length cells.now.cells < 65536 }
    requires range { IsRange cells.now.cells over.now.cells }
    ensures order { col ≤ result }
    ensures passed { Passes col result cells.now.cells over.now.cells }
{
    col + cells.end_run(over, col) as u16
}

/// Returns the first column at or after `col` whose cell needs output, or a
/// column past the end of the row if there is none.
///
/// One loop handles the columns in which both rows have stored cells, a second
/// loop the columns in which only `cells` has stored cells, and a third loop
/// the remaining columns.
pub fn next_other(cells: &PictureRow<'_>, over: &PictureRow<'_>, col: u16) -> u16
    requires range { IsRange cells.now.cells over.now.cells }
    ensures order { col ≤ result }
    ensures passed { Passes col result cells.now.cells over.now.cells }
    ensures other { result < length cells.now.cells → stands result cells.now over.now ≡ false }
{
    let cols = usize::from(cells.cols());
    let own = cells.own_len();
    let stored = own.min(over.own_len());
    let same = pass_same(cells, over, col);
    let both = pass(cells, over, same, stored);
    if usize::from(both) < stored {
        return both;
    }
    let ended = pass_ended(cells, over, both);
    let alone = pass(cells, over, ended, own);
    if usize::from(alone) < own {
        return alone;
    }
    pass(cells, over, alone, cols)
}
