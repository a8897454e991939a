//! Reading any row that a screen keeps, without displaying it.

ghost use Rattle.std.specs.Prelude.{◌≡◌, IfErr, IfOk, length, string_bytes};
ghost use Rattle.vt100_c.specs.Due.{IsAnswer, IsSomeAnd, due_at, due_on, status_in, text_at};
ghost use Rattle.vt100_c.specs.KeptRows.{HasCells, HoldsKeptRow, OnKeptRow, kept_row_status, text_of_row};
ghost use Rattle.vt100_c.specs.Held.{screen_in};
ghost use Rattle.vt100_c.specs.Shown.{bit};
ghost use Rattle.vt100_c.specs.Status.{ok};
ghost use Rattle.vt100_c.specs.Texts.{KeepsText};

use crate::cells::VtCell;
use crate::convert::{bit, cell_for_c};
use crate::handle::Handle;
use crate::object::{Source, screen_of};
use crate::output::keep;
use crate::records::text_of;
use crate::status::{BAD_ARGUMENT, NO_OBJECT, OK, OUT_OF_MEMORY, WRONG_KIND};
use std::alloc::Global;
use vt100::{Cell, Screen};

/// Stores the cells of a row that a screen keeps, whether it is displayed or not, in `out`: as many
/// as `out` has room for. `row` is the index of the row, counted from 0: the rows of scrollback come
/// first, oldest first, and the rows of the page follow. Stores the number of the row's cells in
/// `len`, and 1 in `wrapped` if the row is wrapped, otherwise 0. The rest of `out` is unchanged.
///
/// # Errors
///
/// Returns `NO_OBJECT` if the handle is empty, `WRONG_KIND` if it holds neither a parser nor a saved
/// screen, or `BAD_ARGUMENT` if there is no such row. On error, nothing is stored.
#[unsafe(no_mangle)]
pub extern "C" fn vt100_get_row_cells(
    alloc: Global,
    handle: &mut Handle,
    row: usize,
    out: &mut [VtCell],
    len: &mut usize,
    wrapped: &mut u8,
) -> u8
    ensures same { handle.new.held ≡ handle.old.held }
    ensures status { result ≡ due_at (kept_row_status row) handle.old.held }
    ensures cells { result ≡ ok → HoldsKeptRow row handle.old.held (λ found. HasCells found.cells out.old out.new) }
    ensures len { result ≡ ok → HoldsKeptRow row handle.old.held (λ found. len.new ≡ length found.cells) }
    ensures wrapped { result ≡ ok → HoldsKeptRow row handle.old.held (λ found. wrapped.new ≡ bit 1 found.wrapped) }
    ensures refused { ¬ (result ≡ ok) → out.new ≡ out.old }
    ensures refused_len { ¬ (result ≡ ok) → len.new ≡ len.old }
    ensures refused_wrapped { ¬ (result ≡ ok) → wrapped.new ≡ wrapped.old }
{
    if !handle.is_full() {
        return NO_OBJECT;
    }
    let object = handle.take_out(alloc);
    let status = write_row(&object.source, row, out, len, wrapped);
    handle.put_back(object);
    status
}

/// Generates the plain text of a row that a screen keeps, whether it is displayed or not. `row` is
/// the index of the row, as for [`vt100_get_row_cells`]. Stores the text in the handle and its
/// length in `len`.
///
/// # Errors
///
/// Returns `NO_OBJECT` if the handle is empty, `WRONG_KIND` if it holds neither a parser nor a saved
/// screen, `BAD_ARGUMENT` if there is no such row, or `OUT_OF_MEMORY` if the text cannot be
/// allocated. On error, nothing is changed.
#[unsafe(no_mangle)]
pub extern "C" fn vt100_row_contents(
    alloc: Global,
    handle: &mut Handle,
    row: usize,
    len: &mut usize,
) -> u8
    ensures answer { IsAnswer (due_at (kept_row_status row) handle.old.held) result }
    ensures text { result ≡ ok → HoldsKeptRow row handle.old.held (λ found. text_at handle.new.held ≡ text_of_row found) }
    ensures keeps { KeepsText handle.old.held result handle.new.held len.old len.new }
{
    if !handle.is_full() {
        return NO_OBJECT;
    }
    let mut object = handle.take_out(alloc);
    let made = row_text_in(alloc, &object.source, row);
    let status = keep(&mut object.text, made, len);
    handle.put_back(object);
    status
}

/// Stores the cells of a row of a source's screen in `out`, as [`vt100_get_row_cells`] does. Returns
/// `WRONG_KIND` if the source has no screen, and `BAD_ARGUMENT` if there is no such row.
fn write_row(
    source: &Source,
    row: usize,
    out: &mut [VtCell],
    len: &mut usize,
    wrapped: &mut u8,
) -> u8
    ensures status { result ≡ due_on (kept_row_status row) (screen_in source.now) }
    ensures cells { result ≡ ok → IsSomeAnd (screen_in source.now) (λ screen. OnKeptRow row screen
        (λ found. HasCells found.cells out.old out.new)) }
    ensures len { result ≡ ok → IsSomeAnd (screen_in source.now) (λ screen. OnKeptRow row screen
        (λ found. len.new ≡ length found.cells)) }
    ensures wrapped { result ≡ ok → IsSomeAnd (screen_in source.now) (λ screen. OnKeptRow row screen
        (λ found. wrapped.new ≡ bit 1 found.wrapped)) }
    ensures refused { ¬ (result ≡ ok) → out.new ≡ out.old }
    ensures refused_len { ¬ (result ≡ ok) → len.new ≡ len.old }
    ensures refused_wrapped { ¬ (result ≡ ok) → wrapped.new ≡ wrapped.old }
{
    match screen_of(source) {
        Some(screen) => write_row_of(screen, row, out, len, wrapped),
        None => WRONG_KIND,
    }
}

/// Stores the cells of a row of a screen in `out`, as [`vt100_get_row_cells`] does. Returns
/// `BAD_ARGUMENT` if there is no such row.
fn write_row_of(
    screen: &Screen,
    row: usize,
    out: &mut [VtCell],
    len: &mut usize,
    wrapped: &mut u8,
) -> u8
    ensures status { result ≡ kept_row_status row screen.now }
    ensures cells { result ≡ ok → OnKeptRow row screen.now (λ found. HasCells found.cells out.old out.new) }
    ensures len { result ≡ ok → OnKeptRow row screen.now (λ found. len.new ≡ length found.cells) }
    ensures wrapped { result ≡ ok → OnKeptRow row screen.now (λ found. wrapped.new ≡ bit 1 found.wrapped) }
    ensures refused { ¬ (result ≡ ok) → out.new ≡ out.old }
    ensures refused_len { ¬ (result ≡ ok) → len.new ≡ len.old }
    ensures refused_wrapped { ¬ (result ≡ ok) → wrapped.new ≡ wrapped.old }
{
    match screen.kept_row(row) {
        Some(found) => {
            store_cells(found.cells(), out);
            *len = found.cells().len();
            *wrapped = bit(1, found.wrapped());
            OK
        }
        None => BAD_ARGUMENT,
    }
}

/// Stores as many of `cells` as `out` has room for at the beginning of `out`. The rest of `out` is
/// unchanged.
fn store_cells(cells: &[Cell], out: &mut [VtCell])
    ensures { HasCells cells.now out.old out.new }
{
    for index in 0..cells.len().min(out.len()) {
        out[index] = cell_for_c(&cells[index]);
    }
}

/// Returns the plain text of a row of a source's screen. Returns `WRONG_KIND` if the source has no
/// screen, `BAD_ARGUMENT` if there is no such row, or `OUT_OF_MEMORY` if an allocation fails.
fn row_text_in(alloc: Global, source: &Source, row: usize) -> Result<String, u8>
    ensures text { IfOk result (λ made. IsSomeAnd (screen_in source.now) (λ screen. OnKeptRow row screen
        (λ found. string_bytes made ≡ text_of_row found))) }
    ensures answer { IsAnswer (due_on (kept_row_status row) (screen_in source.now)) (status_in result) }
    ensures refused { IfErr result (λ status. ¬ (status ≡ ok)) }
{
    match screen_of(source) {
        Some(screen) => row_text(alloc, screen, row),
        None => Err(WRONG_KIND),
    }
}

/// Returns the plain text of a row of a screen. Returns `BAD_ARGUMENT` if there is no such row, or
/// `OUT_OF_MEMORY` if an allocation fails.
fn row_text(alloc: Global, screen: &Screen, row: usize) -> Result<String, u8>
    ensures text { IfOk result (λ made. OnKeptRow row screen.now (λ found. string_bytes made ≡ text_of_row found)) }
    ensures answer { IsAnswer (kept_row_status row screen.now) (status_in result) }
    ensures refused { IfErr result (λ status. ¬ (status ≡ ok)) }
{
    match screen.kept_row(row) {
        Some(found) => match text_of(alloc, &found) {
            Ok(text) => Ok(text),
            Err(_) => Err(OUT_OF_MEMORY),
        },
        None => Err(BAD_ARGUMENT),
    }
}
