//! Comparison of runs of cells.

ghost use Rattle.std.specs.Prelude.{◌≡◌, ◌<◌, ◌≤◌, ℕ, IsTrue, length, slice_index_or};
ghost use Rattle.vt_cells.specs.Cell.{CellValue};

use crate::cell::Cell;

/// Returns the length, in cells, of a common prefix of two rows, not necessarily the longest one.
///
/// Cells are compared in groups of four. The comparison stops at the first group in which the two
/// rows differ or a cell has more than seven bytes of text, or when fewer than four cells remain.
pub fn same_run(own: &[Cell], others: &[Cell]) -> usize
    ensures own { result ≤ length own.now }
    ensures others { result ≤ length others.now }
    ensures same { (k : ℕ) (d : CellValue) → k < result
        → slice_index_or own.now k d ≡ slice_index_or others.now k d }
{
    let len = own.len().min(others.len());
    let mut count = 0;
    while len - count >= 4 && four_same(&own[count..count + 4], &others[count..count + 4]) {
        count += 4;
    }
    count
}

/// Returns whether two groups of four cells are equal and no cell has more than seven bytes of
/// text.
///
/// The differences are combined into one word so that the compiler can vectorize the comparison.
#[inline(always)]
fn four_same(own: &[Cell], others: &[Cell]) -> bool
    requires own { length own.now ≡ 4 }
    requires others { length others.now ≡ 4 }
    ensures { IsTrue result → own.now ≡ others.now }
{
    let odd = own[0].odd_bits(&others[0])
        | own[1].odd_bits(&others[1])
        | own[2].odd_bits(&others[2])
        | own[3].odd_bits(&others[3]);
    odd == 0
}
