//! Insertion and deletion of columns within a row.

ghost use Rattle.std.specs.Prelude.{◌≡◌, ◌≤◌, ◌<◌, ◌+◌, ◌-◌, ℕ, All, length, slice_index_or};
ghost use Rattle.vt_cells.specs.Cell.{IsCell};
ghost use Rattle.vt_rows.specs.Cells.{IsPaired, at, cells_after_delete, insert_column, cells_after_insert};
ghost use Rattle.vt_rows.specs.Internals.{rotation_source};

use crate::{cells, trimming};
use vt_cells::{Attrs, Cell};

/// Inserts `count` default blanks at column `column` (ICH). Cells that are pushed past the end of
/// the row are lost.
///
/// If the column holds a continuation cell, the blanks are inserted after it. If the last column
/// holds the first cell of a wide glyph after the insertion, that cell becomes a blank and keeps
/// its attributes.
pub fn insert(cells: &mut [Cell], column: usize, count: usize)
    requires paired { IsPaired cells.old }
    requires inside { column ≤ length cells.old }
    ensures value { cells.new ≡ cells_after_insert column count cells.old }
    ensures paired { IsPaired cells.new }
    ensures sound { All IsCell cells.old → All IsCell cells.new }
{
    let start = insert_column(cells, column);
    let len = cells.len();
    let count = count.min(len - start);
    open_gap(cells, start, count);
    cells::clear(&mut cells[start..start + count], Attrs::new());
    trimming::blank_end(cells);
}

/// Deletes `count` columns starting at `column`, stopping at the end of the row (DCH). The cells
/// after the deleted columns move left, and default blanks fill the end of the row.
///
/// If only one cell of a wide glyph is deleted, the other cell becomes a blank and keeps its
/// attributes.
pub fn delete(cells: &mut [Cell], column: usize, count: usize)
    requires paired { IsPaired cells.old }
    requires inside { column ≤ length cells.old }
    ensures value { cells.new ≡ cells_after_delete column count cells.old }
    ensures paired { IsPaired cells.new }
    ensures sound { All IsCell cells.old → All IsCell cells.new }
{
    let len = cells.len();
    let count = count.min(len - column);
    if count == 0 {
        return;
    }
    cells::blank_left(cells, column);
    cells::blank_right(cells, column + count - 1, Attrs::new());
    close_gap(cells, column, count);
    cells::clear(&mut cells[len - count..len], Attrs::new());
}

/// Shifts the cells at and after `start` right by `count` columns. Cells that are pushed past the
/// end of the row are lost. The cells in `start..start + count` are unspecified and must be
/// overwritten by the caller.
///
/// If `count` is 1, the cells are rotated: all but one of them move as one block of memory.
/// Otherwise they are copied, because a rotation by more columns moves each cell several times.
fn open_gap(cells: &mut [Cell], start: usize, count: usize)
    requires inside { start + count ≤ length cells.old }
    ensures len { length cells.new ≡ length cells.old }
    ensures before { (k : ℕ) → k < start → at cells.new k ≡ at cells.old k }
    ensures after { (k : ℕ) → start + count ≤ k → k < length cells.old →
        at cells.new k ≡ at cells.old (start + (k - (start + count))) }
{
    let len = cells.len();
    if count == 1 {
        turn(cells, start, len, len - start - count);
        return;
    }
    cells.copy_within(start..len - count, start + count);
}

/// Shifts the cells at and after `column + count` left by `count` columns. The last `count` cells
/// of the row are unspecified and must be overwritten by the caller.
///
/// If `count` is 1, the cells are rotated: all but one of them move as one block of memory.
/// Otherwise they are copied, because a rotation by more columns moves each cell several times.
fn close_gap(cells: &mut [Cell], column: usize, count: usize)
    requires inside { column + count ≤ length cells.old }
    ensures len { length cells.new ≡ length cells.old }
    ensures before { (k : ℕ) → k < column → at cells.new k ≡ at cells.old k }
    ensures after { (k : ℕ) → column ≤ k → k < length cells.old - count →
        at cells.new k ≡ at cells.old (column + count + (k - column)) }
{
    let len = cells.len();
    if count == 1 {
        turn(cells, column, len, count);
        return;
    }
    cells.copy_within(column + count..len, column);
}

/// Rotates `items[from..to]` left by `count`.
pub fn turn<T>(items: &mut [T], from: usize, to: usize, count: usize)
    requires in_order { from + count ≤ to }
    requires inside { to ≤ length items.old }
    ensures len { length items.new ≡ length items.old }
    ensures by_index { (k : ℕ) (d : T) →
        slice_index_or items.new k d ≡ slice_index_or items.old (rotation_source from to count k) d }
{
    items[from..to].rotate_left(count);
}

/// Returns the column at which an insertion at `column` takes place: the next column if `column`
/// holds a continuation cell, otherwise `column` itself.
fn insert_column(cells: &[Cell], column: usize) -> usize
    requires paired { IsPaired cells.now }
    requires inside { column ≤ length cells.now }
    ensures value { result ≡ insert_column column cells.now }
    ensures inside { result ≤ length cells.now }
{
    if column == cells.len() {
        return column;
    }
    if cells[column].is_wide_continuation() {
        column + 1
    } else {
        column
    }
}
