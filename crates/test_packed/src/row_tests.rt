//! Tests of packed rows.

use crate::examples::{EXAMPLES, LONG};
use crate::rows::Ink::{OnBlue, Plain, Red};
use crate::rows::{Example, Put, cells_of};
use std::alloc::Global;
use std::process::Abort;
use std::test::Fail;
use vt_cells::{Attrs, Cell, Color};
use vt_packed::PackedRow;
use vt_rows::cells::erase;

/// Returns the packed row of an example.
fn packed(alloc: Global, example: &Example) -> Result<PackedRow, Fail> {
    let cells = cells_of(alloc, example.columns, example.puts)?;
    Ok(PackedRow::packed(alloc, &cells, example.wrapped)?)
}

/// Returns cells of which none is a blank.
fn full_cells(alloc: Global, columns: usize) -> Result<Vec<Cell>, Fail> {
    let mut cells = Vec::new(alloc);
    let glyph = cells_of(alloc, 1, &[(0, "x", Red)])?;
    for _ in 0..columns {
        cells.extend_from_slice(&glyph)?;
    }
    Ok(cells)
}

/// Fails unless unpacking `row` over other cells gives the cells of `example`.
fn expect_cells(
    rt: &impl Abort,
    alloc: Global,
    row: &PackedRow,
    example: &Example,
) -> Result<(), Fail> {
    let wanted = cells_of(alloc, example.columns, example.puts)?;
    assert!(rt; row.cols() == example.columns);
    assert!(rt; row.wrapped() == example.wrapped);
    let mut cells = full_cells(alloc, row.cols())?;
    assert!(rt; cells.len() == row.cols());
    row.unpack(&mut cells);
    assert!(rt; cells.as_slice() == wanted.as_slice());
    Ok(())
}

#[test]
fn unpacks_what_was_packed(rt: HostRuntime) -> Result<(), Fail> {
    for example in &EXAMPLES {
        let row = packed(rt.alloc(), example)?;
        expect_cells(&rt, rt.alloc(), &row, example)?;
    }
    Ok(())
}

#[test]
fn takes_the_size_of_its_items(rt: HostRuntime) -> Result<(), Fail> {
    for example in &EXAMPLES {
        let row = packed(rt.alloc(), example)?;
        assert!(rt; row.packed_len() == (example.runs, example.bytes));
    }
    Ok(())
}

#[test]
fn writes_its_text(rt: HostRuntime) -> Result<(), Fail> {
    for example in &EXAMPLES {
        let row = packed(rt.alloc(), example)?;
        let mut text = String::new(rt.alloc());
        row.write_basic(&mut text, Attrs::new(), false)?;
        assert!(rt; text.as_str() == example.text);
    }
    Ok(())
}

#[test]
fn continues_the_text_of_the_row_above(rt: HostRuntime) -> Result<(), Fail> {
    let mut red = Attrs::new();
    red.set_fgcolor(Color::Idx(1));
    let puts: &[Put] = &[(0, "a", Red), (1, "b", Plain)];
    let cells = cells_of(rt.alloc(), 3, puts)?;
    let row = PackedRow::packed(rt.alloc(), &cells, false)?;
    let mut text = String::new(rt.alloc());
    let last = row.write_basic(&mut text, red, true)?;
    assert!(rt; text.as_str() == "\na\x1b[mb");
    assert!(rt; last == Attrs::new());
    Ok(())
}

#[test]
fn new_rows_have_no_cells(rt: HostRuntime) {
    let row = PackedRow::new(rt.alloc());
    assert!(rt; row.cols() == 0);
    assert!(rt; !row.wrapped());
    assert!(rt; row.packed_len() == (0, 0));
}

/// A row of some columns, and the same row after it is refitted to another number of columns.
type Refit = (usize, &'static [Put], usize, &'static [Put]);

#[rattlefmt::skip]
const REFITS: [Refit; 10] = [
    (3, &[(0, "a", Plain), (1, "b", Red), (2, "c", Plain)], 2, &[(0, "a", Plain), (1, "b", Red)]),
    (3, &[(0, "a", Plain), (1, "b", Red), (2, "c", Plain)], 0, &[]),
    (3, &[(0, "a", Plain), (1, "b", Red), (2, "c", Plain)], 5,
        &[(0, "a", Plain), (1, "b", Red), (2, "c", Plain)]),
    (0, &[], 3, &[]),
    (3, &[(2, "", OnBlue)], 2, &[]),
    (3, &[(2, "", OnBlue)], 4, &[(2, "", OnBlue)]),
    // A wide glyph that is cut becomes a blank and keeps its attributes.
    (4, &[(0, "中", Red), (2, "文", Red)], 3, &[(0, "中", Red), (2, "", Red)]),
    (4, &[(0, "中", Red), (2, "文", Red)], 1, &[(0, "", Red)]),
    (4, &[(0, "中", Red), (2, "文", Red)], 6, &[(0, "中", Red), (2, "文", Red)]),
    (2, &[(0, LONG, Plain), (1, "b", Plain)], 1, &[(0, LONG, Plain)]),
];

#[test]
fn refits_to_other_widths(rt: HostRuntime) -> Result<(), Fail> {
    for (columns, puts, new_columns, wanted) in &REFITS {
        let cells = cells_of(rt.alloc(), *columns, puts)?;
        let row = PackedRow::packed(rt.alloc(), &cells, false)?;
        let mut fitted = full_cells(rt.alloc(), *new_columns)?;
        row.refit(&mut fitted);
        let wanted = cells_of(rt.alloc(), *new_columns, wanted)?;
        assert!(rt; fitted.as_slice() == wanted.as_slice());
    }
    Ok(())
}

#[test]
fn repacks_over_every_other_row(rt: HostRuntime) -> Result<(), Fail> {
    for first in &EXAMPLES {
        for second in &EXAMPLES {
            let mut row = packed(rt.alloc(), first)?;
            let cells = cells_of(rt.alloc(), second.columns, second.puts)?;
            row.repack(&cells, second.wrapped)?;
            assert!(rt; row.packed_len() == (second.runs, second.bytes));
            expect_cells(&rt, rt.alloc(), &row, second)?;
        }
    }
    Ok(())
}

#[test]
fn copies_are_equal_and_independent(rt: HostRuntime) -> Result<(), Fail> {
    for example in &EXAMPLES {
        let mut row = packed(rt.alloc(), example)?;
        let copy = row.try_clone(rt.alloc())?;
        row.repack(&[], false)?;
        assert!(rt; row.packed_len() == (0, 0));
        assert!(rt; copy.packed_len() == (example.runs, example.bytes));
        expect_cells(&rt, rt.alloc(), &copy, example)?;
    }
    Ok(())
}

/// A number of columns with more items than a run can count.
const MANY: usize = 65535 + 2;

#[test]
fn splits_runs_that_are_full(rt: HostRuntime) -> Result<(), Fail> {
    let mut blank = cells_of(rt.alloc(), MANY, &[])?;
    let cells = blank.as_mut_slice();
    assert!(rt; cells.len() == MANY);
    erase(cells, 0, MANY, OnBlue.attrs());
    let row = PackedRow::packed(rt.alloc(), cells, false)?;
    assert!(rt; row.packed_len() == (2, MANY));
    let mut unpacked = full_cells(rt.alloc(), MANY)?;
    assert!(rt; unpacked.len() == row.cols());
    row.unpack(&mut unpacked);
    assert!(rt; unpacked.as_slice() == &cells[..]);
    Ok(())
}
