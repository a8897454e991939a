//! Bulk copies of cells.

ghost use Rattle.std.specs.Prelude.{◌≡◌, ◌≤◌, ◌+◌, ◌++◌, IfOk, length, vec_capacity, vec_len};
ghost use Rattle.vt_cells.specs.Attrs.{default_attrs};
ghost use Rattle.vt_cells.specs.Refusals.{OnlyOutOfMemory};
ghost use Rattle.vt_rows.specs.Cells.{blanks};

use std::alloc::Global;
use vt_cells::{Cell, Error, cell};

/// The number of cells copied at a time: few enough that the C library copies them with vector
/// instructions.
const PIECE: usize = 96;

/// The number of blanks written at a time: few enough that the C library copies them with vector
/// instructions.
const BLANKS: usize = 48;

/// Returns a copy of the cells.
///
/// # Errors
///
/// Returns [`Error::OutOfMemory`] if the copy cannot be allocated.
pub fn copied(alloc: Global, cells: &[Cell]) -> Result<Vec<Cell>, Error>
    ensures ok { IfOk result (λ copies. copies.items ≡ cells.now) }
    ensures memory { OnlyOutOfMemory result }
{
    let mut copies = Vec::with_capacity(alloc, cells.len())?;
    push_copies(&mut copies, cells);
    Ok(copies)
}

/// Returns a vector of `count` default blanks.
///
/// # Errors
///
/// Returns [`Error::OutOfMemory`] if the vector cannot be allocated.
pub fn blank_cells(alloc: Global, count: usize) -> Result<Vec<Cell>, Error>
    ensures ok { IfOk result (λ cells. cells.items ≡ blanks default_attrs count) }
    ensures memory { OnlyOutOfMemory result }
{
    let mut cells = Vec::with_capacity(alloc, count)?;
    while cells.len() < count {
        let end = count.min(cells.len() + BLANKS);
        let _ = cells.resize(end, cell::default_blank());
    }
    Ok(cells)
}

/// Appends copies of the cells in `from`. The vector must have enough spare capacity.
pub fn push_copies(cells: &mut Vec<Cell>, from: &[Cell])
    requires { vec_len cells.old + length from.now ≤ vec_capacity cells.old }
    ensures { cells.new.items ≡ cells.old.items ++ from.now }
{
    let mut done = 0;
    while done < from.len() {
        let end = from.len().min(done + PIECE);
        let _ = cells.extend_from_slice(&from[done..end]);
        done = end;
    }
}

/// Overwrites `cells` with copies of the cells in `from`. The two slices must have the same length.
pub fn copy_over(cells: &mut [Cell], from: &[Cell])
    requires { length cells.old ≡ length from.now }
    ensures { cells.new ≡ from.now }
{
    let mut done = 0;
    while done < from.len() {
        let end = from.len().min(done + PIECE);
        cells[done..end].copy_from_slice(&from[done..end]);
        done = end;
    }
}
