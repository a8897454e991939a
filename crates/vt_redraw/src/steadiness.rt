//! A test of whether a picture is steady, that is, whether each of its glyphs
//! reproduces itself when it is printed character by character on a blank row.
//!
//! Only U+FE0F changes the width of a glyph after its first character, so a
//! glyph without it is steady. A glyph with U+FE0F is tested by printing it
//! into a separate cell.

ghost use Rattle.std.specs.Prelude.{◌≡◌, ◌↔◌, ◌&&◌, ◌<◌, All, IsTrue, false, length, nat_lt, true};
ghost use Rattle.std.specs.Prelude.{if◌then◌else◌};
ghost use Rattle.vt_cells.specs.Cell.{is_glyph, text_of, IsCell};
ghost use Rattle.vt_cells.specs.Glyph.{is_selector, is_wide_text};
ghost use Rattle.vt_rows.specs.Row.{IsRow};
ghost use Rattle.vt_grid.specs.Page.{row_or};
ghost use Rattle.vt_redraw.specs.Internals.{FitsColumns, IsSteadyRow, IsWithin};
ghost use Rattle.vt_redraw.specs.Steady.{IsSteady, IsSteadyCell, has_selector};

use crate::picture_row::PictureRow;
use crate::view::View;
use vt_cells::{Attrs, Cell, cell, columns};

/// U+FE0F, variation selector 16, which requests emoji presentation.
const SELECTOR: char = '\u{FE0F}';

/// The smallest length, in bytes, of text that contains [`SELECTOR`] after its
/// first character.
const SELECTED_LEN: usize = 4;

/// Returns whether each glyph of the picture reproduces itself when it is
/// printed on a blank row.
///
/// If the text of every cell in a row is shorter than four bytes, only the
/// lengths of the texts are read.
pub fn is_steady(view: &View<'_>) -> bool
    ensures { IsTrue result ↔ IsSteady view.now }
{
    let rows = view.rows();
    for row in 0..rows {
        if !is_steady_at(view, row) {
            return false;
        }
    }
    true
}

/// Returns whether each glyph of row `row` of the picture reproduces itself
/// when it is printed on a blank row.
#[inline]
fn is_steady_at(view: &View<'_>, row: u16) -> bool
    requires { row < length view.now.rows }
    ensures { IsTrue result ↔ IsSteadyRow view.now.width (row_or view.now.width view.now.rows row) }
{
    if is_short_at(view, row) {
        return true;
    }
    is_steady_row(&view.row(row))
}

/// Returns whether the text of every stored cell of row `row` is too short to contain [`SELECTOR`]
/// after its first character. Returns `false` if [`View::uncut_cells`] returns `None`.
///
/// The row is not cut to the picture's width, which would take about 60 more instructions.
#[inline]
fn is_short_at(view: &View<'_>, row: u16) -> bool
    requires { row < length view.now.rows }
    ensures { IsTrue result → IsSteadyRow view.now.width (row_or view.now.width view.now.rows row) }
{
    match view.uncut_cells(row) {
        Some(cells) => are_short(cells),
        None => false,
    }
}

/// Returns whether each glyph of the row reproduces itself when it is printed
/// on a blank row.
fn is_steady_row(row: &PictureRow<'_>) -> bool
    requires { IsRow (length row.now.cells) row.now }
    ensures { IsTrue result ↔ IsSteadyRow (length row.now.cells) row.now }
{
    are_steady(row.own_cells(), row.cols())
}

/// Returns whether the text of every cell is too short to contain [`SELECTOR`] after its first
/// character.
///
/// The lengths of 16 cells at a time are combined into one number without branching, so each cell
/// takes fewer than one and a half instructions.
fn are_short(cells: &[Cell]) -> bool
    ensures { IsTrue result → All (λ cell. has_selector cell ≡ false) cells.now }
{
    let mut lens = 0;
    let mut rest = cells;
    while rest.len() >= 16 {
        lens |= lens_of_eight(&rest[..8]) | lens_of_eight(&rest[8..16]);
        rest = &rest[16..];
    }
    lens |= lens_of(rest);
    lens < SELECTED_LEN
}

/// Returns the bitwise OR of the text lengths, in bytes, of eight cells.
#[inline(always)]
fn lens_of_eight(cells: &[Cell]) -> usize
    requires { length cells.now ≡ 8 }
    ensures { All (IsWithin result) cells.now }
{
    lens_of_four(&cells[..4]) | lens_of_four(&cells[4..])
}

/// Returns the bitwise OR of the text lengths, in bytes, of four cells.
#[inline(always)]
fn lens_of_four(cells: &[Cell]) -> usize
    requires { length cells.now ≡ 4 }
    ensures { All (IsWithin result) cells.now }
{
    let first = text_len(&cells[0]) | text_len(&cells[1]);
    first | (text_len(&cells[2]) | text_len(&cells[3]))
}

/// Returns the bitwise OR of the text lengths, in bytes, of the cells.
#[inline]
fn lens_of(cells: &[Cell]) -> usize
    ensures { All (IsWithin result) cells.now }
{
    let mut lens = 0;
    for cell in cells {
        lens |= text_len(cell);
    }
    lens
}

/// Returns the length of a cell's text in bytes.
#[inline(always)]
fn text_len(cell: &Cell) -> usize
    ensures { IsWithin result cell.now }
{
    cell.contents().len()
}

/// Returns whether each glyph reproduces itself when it is printed on a blank
/// row of `cols` columns.
fn are_steady(cells: &[Cell], cols: u16) -> bool
    requires { All (FitsColumns cols) cells.now }
    ensures { IsTrue result ↔ All (IsSteadyCell cols) cells.now }
{
    for cell in cells {
        if !is_steady_cell(cell, cols) {
            return false;
        }
    }
    true
}

/// Returns whether a cell is not a glyph, or is a glyph that reproduces itself
/// when it is printed on a blank row of `cols` columns.
#[inline]
#[tactic(auto, using(crate::proofs::SteadyTests::cell_without))]
fn is_steady_cell(cell: &Cell, cols: u16) -> bool
    requires { FitsColumns cols cell.now }
    ensures { IsTrue result ↔ IsSteadyCell cols cell.now }
{
    if !has_selector(cell) {
        return true;
    }
    prints_itself(cell, cols)
}

/// Returns whether the cell's text contains [`SELECTOR`].
#[inline]
fn has_selector(cell: &Cell) -> bool
    ensures value { result ≡ has_selector cell.now }
    ensures sound { IsCell cell.now }
{
    let text = cell.contents();
    if text.len() < SELECTED_LEN {
        return false;
    }
    for c in text.chars() {
        if c == SELECTOR {
            return true;
        }
    }
    false
}

/// Returns whether the characters of a glyph's text, printed on a blank row of `cols` columns,
/// reproduce the glyph.
///
/// The printed glyph starts with the width of its first character. At each [`SELECTOR`], its width
/// becomes that of its whole text so far. A glyph that becomes narrow leaves a blank after it, so
/// it is not reproduced.
fn prints_itself(cell: &Cell, cols: u16) -> bool
    requires glyph { is_glyph cell.now ≡ true }
    requires fits { FitsColumns cols cell.now }
    ensures { IsTrue result ↔ IsSteadyCell cols cell.now }
{
    let mut chars = cell.contents().chars();
    let Some(first) = chars.next() else {
        return true;
    };
    let mut wide = columns(first) == Some(2);
    let mut printed = cell::glyph(first, wide, Attrs::new());
    for mark in chars {
        cell::append(&mut printed, mark);
        let follows = width_after(&printed, mark, wide, cols);
        if wide && !follows {
            return false;
        }
        wide = follows;
    }
    wide == cell.is_wide()
}

/// Returns whether a glyph is wide after the combining character `mark` has
/// been added. `printed` is the glyph with `mark`, and `wide` is true if it was
/// wide before.
fn width_after(printed: &Cell, mark: char, wide: bool, cols: u16) -> bool
    ensures { result ≡ (if is_selector mark then is_wide_text (text_of printed.now) && nat_lt 1 cols else wide) }
{
    if mark == SELECTOR {
        cell::is_wide_text(printed) && cols > 1
    } else {
        wide
    }
}
