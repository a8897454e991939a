//! Unpacking of items into cells.

ghost use Rattle.std.specs.Prelude.{◌≡◌, ℕ, ◌<◌, ◌≤◌, ◌++◌, List, length};
ghost use Rattle.vt_cells.specs.Cell.{CellValue, default_blank};
ghost use Rattle.vt_packed.specs.Items.{IsItemText, cell_of_parts, cells_of, first_cell, item_cells};
ghost use Rattle.vt_packed.specs.Internals.{IsWrittenTo};
ghost use Rattle.vt_rows.specs.Cells.{at};

use crate::items::{Item, Items};
use std::str;
use vt_cells::{Attrs, Cell, cell, columns};

/// Creates the blank or the glyph with the given text, width and attributes.
fn cell_of_text(text: &[u8], wide: bool, attrs: Attrs) -> Cell
    requires { IsItemText wide text.now }
    ensures { result ≡ cell_of_parts wide text.now attrs }
{
    if text.is_empty() {
        return cell::blank(attrs);
    }
    let text = unsafe { str::from_utf8_unchecked(text) };
    let mut chars = text.chars();
    let Some(first) = chars.next() else {
        return cell::default_blank();
    };
    let is_wide = columns(first) == Some(2);
    let mut built = cell::glyph(first, is_wide, attrs);
    for mark in chars {
        cell::append(&mut built, mark);
    }
    cell::set_wide(&mut built, wide);
    built
}

/// Creates the first cell of an item: a blank or a glyph.
#[inline]
fn first_cell(item: &Item) -> Cell
    ensures { result ≡ first_cell item.now }
{
    cell_of_text(item.text, item.wide, item.attrs)
}

/// Writes the cells of an item into `cells`, starting at column `column`, as many as fit. Returns
/// the column after them.
fn put_item(cells: &mut [Cell], column: usize, item: &Item) -> usize
    requires { column < length cells.old }
    ensures len { length cells.new ≡ length cells.old }
    ensures after { column < result }
    ensures written { (all rest : List CellValue) → IsWrittenTo all cells.old column (item_cells item.now ++ rest)
        → IsWrittenTo all cells.new result rest }
{
    cells[column] = first_cell(item);
    if !item.wide {
        return column + 1;
    }
    if column + 1 == cells.len() {
        return column + 1;
    }
    cells[column + 1] = cell::right_half();
    column + 2
}

/// Overwrites `cells` with the cells of `items`, as many as fit. Cells past the last item become
/// default blanks.
pub fn write_items(cells: &mut [Cell], items: &mut Items)
    ensures len { length cells.new ≡ length cells.old }
    ensures value { (k : ℕ) → k < length cells.old → at cells.new k ≡ at (cells_of items.old) k }
{
    let mut column = 0;
    while column < cells.len() {
        let Some(item) = items.next() else {
            clear_from(cells, column);
            return;
        };
        column = put_item(cells, column, &item);
    }
}

/// Overwrites the cells from `column` on with default blanks.
fn clear_from(cells: &mut [Cell], column: usize)
    ensures len { length cells.new ≡ length cells.old }
    ensures before { (k : ℕ) → k < column → at cells.new k ≡ at cells.old k }
    ensures cleared { (k : ℕ) → column ≤ k → at cells.new k ≡ default_blank }
{
    for k in column..cells.len() {
        cells[k] = cell::default_blank();
    }
}
