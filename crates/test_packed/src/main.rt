//! Tests of packed rows, and a program that packs rows while an allocation fails.
//!
//! The program packs each row, copies it, and packs another row in its place. If a call fails, the
//! row must be as it was before, and the program ends with an error. If it is not, or if a call has
//! another effect, the program prints the row's number. `rt try --fail-alloc N` makes an allocation
//! fail.
#![tactic(auto)]

mod examples;
#[cfg(test)]
mod row_tests;
mod rows;

use examples::EXAMPLES;
use rows::{Example, cells_of};
use std::alloc::Global;
use std::io;
use vt_cells::{Cell, Error, cell};
use vt_packed::PackedRow;

/// The number of columns of the widest row, or more.
const WIDEST: usize = 16;

/// The distance between a row in the table and the row that is packed in its place: it differs in
/// size from most of the others.
const STEP: usize = 7;

fn main(rt: HostRuntime) -> io::Result<()> {
    let mut result_of_all = Ok(());
    for number in 0..EXAMPLES.len() {
        let next = (number + STEP) % EXAMPLES.len();
        match packs(rt.alloc(), &EXAMPLES[number], &EXAMPLES[next]) {
            Ok(true) => {}
            Ok(false) => return println!(rt; "row {} is not as it should be", number),
            Err(error) => result_of_all = Err(error),
        }
    }
    result_of_all?;
    Ok(())
}

/// Packs a row, copies it, and packs another row in its place. Returns whether the row, the copy and
/// the other row are as they should be.
///
/// # Errors
///
/// Returns [`Error::OutOfMemory`] if an allocation fails, and the row is as it was before.
fn packs(alloc: Global, example: &Example, next: &Example) -> Result<bool, Error> {
    let cells = cells_of(alloc, example.columns, example.puts)?;
    let others = cells_of(alloc, next.columns, next.puts)?;
    let mut row = PackedRow::packed(alloc, &cells, example.wrapped)?;
    let copy = row.try_clone(alloc);
    if !is_packed(&row, &cells, example) {
        return Ok(false);
    }
    if !is_packed(&copy?, &cells, example) {
        return Ok(false);
    }
    match row.repack(&others, next.wrapped) {
        Ok(()) => Ok(is_packed(&row, &others, next)),
        Err(error) if is_packed(&row, &cells, example) => Err(error),
        Err(_) => Ok(false),
    }
}

/// Returns whether a row has the given cells, and the size and the wrapped flag of an example.
/// Allocates nothing.
fn is_packed(row: &PackedRow, cells: &[Cell], example: &Example) -> bool {
    if row.cols() != cells.len() || row.wrapped() != example.wrapped {
        return false;
    }
    if row.packed_len() != (example.runs, example.bytes) || cells.len() > WIDEST {
        return false;
    }
    let mut found = [cell::default_blank(); WIDEST];
    row.unpack(&mut found[..cells.len()]);
    &found[..cells.len()] == cells
}
