//! Reading displayed cells and rows.

ghost use Rattle.std.specs.Prelude.{◌≡◌, ◌<◌, drop, length};
ghost use Rattle.vt_screen.specs.Screen.{visible_row};
ghost use Rattle.vt100_c.specs.Due.{HoldsScreen, IsSomeAnd, all_cells_status, cell_status, due_at, due_on};
ghost use Rattle.vt100_c.specs.Due.{row_cells_status, row_status};
ghost use Rattle.vt100_c.specs.Shown.{AreRowsForC, IsRowForC, bit, cell_count, cell_for_c, shown_cell};
ghost use Rattle.vt100_c.specs.Held.{screen_in};
ghost use Rattle.vt100_c.specs.Status.{ok};

use crate::cells::VtCell;
use crate::convert::{bit, cell_for_c};
use crate::handle::Handle;
use crate::object::{Source, screen_of};
use crate::status::{BAD_ARGUMENT, NO_OBJECT, OK, WRONG_KIND};
use std::alloc::Global;
use vt_cells::cell;
use vt100::Screen;

/// Stores the displayed cell at a row and a column, both counted from 0, in
/// `out`.
///
/// # Errors
///
/// Returns `NO_OBJECT` if the handle is empty, `WRONG_KIND` if it holds neither
/// a parser nor a saved screen, or `BAD_ARGUMENT` if there is no such cell. On
/// error, nothing is stored.
#[unsafe(no_mangle)]
pub extern "C" fn vt100_get_cell(
    alloc: Global,
    handle: &mut Handle,
    row: u16,
    col: u16,
    out: &mut VtCell,
) -> u8
    ensures same { handle.new.held ≡ handle.old.held }
    ensures status { result ≡ due_at (cell_status row col) handle.old.held }
    ensures cell { result ≡ ok → HoldsScreen handle.old.held
        (λ screen. out.new ≡ cell_for_c (shown_cell row col screen)) }
    ensures refused { ¬ (result ≡ ok) → out.new ≡ out.old }
{
    if !handle.is_full() {
        return NO_OBJECT;
    }
    let object = handle.take_out(alloc);
    let status = write_cell(&object.source, row, col, out);
    handle.put_back(object);
    status
}

/// Stores the cells of the displayed row at index `row`, counted from 0, in `out`, one for each
/// column of the screen. The rest of `out` is unchanged.
///
/// # Errors
///
/// Returns `NO_OBJECT` if the handle is empty, `WRONG_KIND` if it holds neither
/// a parser nor a saved screen, or `BAD_ARGUMENT` if there is no such row or
/// `out` is too short. On error, nothing is stored.
#[unsafe(no_mangle)]
pub extern "C" fn vt100_get_cells(
    alloc: Global,
    handle: &mut Handle,
    row: u16,
    out: &mut [VtCell],
) -> u8
    ensures same { handle.new.held ≡ handle.old.held }
    ensures status { result ≡ due_at (row_cells_status row (length out.old)) handle.old.held }
    ensures cells { result ≡ ok → HoldsScreen handle.old.held (λ screen. IsRowForC row screen out.new) }
    ensures rest { result ≡ ok → HoldsScreen handle.old.held
        (λ screen. drop screen.page.width out.new ≡ drop screen.page.width out.old) }
    ensures refused { ¬ (result ≡ ok) → out.new ≡ out.old }
{
    if !handle.is_full() {
        return NO_OBJECT;
    }
    let object = handle.take_out(alloc);
    let status = write_cells(&object.source, row, out);
    handle.put_back(object);
    status
}

/// Stores the cells of all displayed rows in `out`, one row after the other, with one cell for each
/// column of the screen in each row. The rest of `out` is unchanged.
///
/// # Errors
///
/// Returns `NO_OBJECT` if the handle is empty, `WRONG_KIND` if it holds neither
/// a parser nor a saved screen, or `BAD_ARGUMENT` if `out` is too short. On
/// error, nothing is stored.
#[unsafe(no_mangle)]
pub extern "C" fn vt100_get_all_cells(alloc: Global, handle: &mut Handle, out: &mut [VtCell]) -> u8
    ensures same { handle.new.held ≡ handle.old.held }
    ensures status { result ≡ due_at (all_cells_status (length out.old)) handle.old.held }
    ensures cells { result ≡ ok → HoldsScreen handle.old.held (λ screen. AreRowsForC screen out.new) }
    ensures rest { result ≡ ok → HoldsScreen handle.old.held
        (λ screen. drop (cell_count screen) out.new ≡ drop (cell_count screen) out.old) }
    ensures refused { ¬ (result ≡ ok) → out.new ≡ out.old }
{
    if !handle.is_full() {
        return NO_OBJECT;
    }
    let object = handle.take_out(alloc);
    let status = write_all_cells(&object.source, out);
    handle.put_back(object);
    status
}

/// Stores 1 in `out` if the displayed row at index `row`, counted from 0, is wrapped (its text
/// continues on the next row), otherwise 0.
///
/// # Errors
///
/// Returns `NO_OBJECT` if the handle is empty, `WRONG_KIND` if it holds neither
/// a parser nor a saved screen, or `BAD_ARGUMENT` if there is no such row. On
/// error, nothing is stored.
#[unsafe(no_mangle)]
pub extern "C" fn vt100_row_wrapped(
    alloc: Global,
    handle: &mut Handle,
    row: u16,
    out: &mut u8,
) -> u8
    ensures same { handle.new.held ≡ handle.old.held }
    ensures status { result ≡ due_at (row_status row) handle.old.held }
    ensures wrapped { result ≡ ok → HoldsScreen handle.old.held
        (λ screen. out.new ≡ bit 1 (visible_row screen row).wrapped) }
    ensures refused { ¬ (result ≡ ok) → out.new ≡ out.old }
{
    if !handle.is_full() {
        return NO_OBJECT;
    }
    let object = handle.take_out(alloc);
    let status = write_wrapped(&object.source, row, out);
    handle.put_back(object);
    status
}

/// Stores a displayed cell of a source's screen in `out`. Returns `WRONG_KIND`
/// if the source has no screen, and `BAD_ARGUMENT` if there is no such cell.
fn write_cell(source: &Source, row: u16, col: u16, out: &mut VtCell) -> u8
    ensures status { result ≡ due_on (cell_status row col) (screen_in source.now) }
    ensures cell { result ≡ ok → IsSomeAnd (screen_in source.now)
        (λ screen. out.new ≡ cell_for_c (shown_cell row col screen)) }
    ensures refused { ¬ (result ≡ ok) → out.new ≡ out.old }
{
    match screen_of(source) {
        Some(screen) => write_shown(screen, row, col, out),
        None => WRONG_KIND,
    }
}

/// Stores the displayed cell of a screen at a row and a column in `out`.
/// Returns `BAD_ARGUMENT` if there is no such cell.
fn write_shown(screen: &Screen, row: u16, col: u16, out: &mut VtCell) -> u8
    ensures status { result ≡ cell_status row col screen.now }
    ensures cell { result ≡ ok → out.new ≡ cell_for_c (shown_cell row col screen.now) }
    ensures refused { ¬ (result ≡ ok) → out.new ≡ out.old }
{
    match screen.cell(row, col) {
        Some(cell) => {
            *out = cell_for_c(cell);
            OK
        }
        None => BAD_ARGUMENT,
    }
}

/// Stores the cells of a displayed row of a source's screen in `out`. Returns
/// `WRONG_KIND` if the source has no screen, and `BAD_ARGUMENT` if there is no
/// such row or `out` is too short.
fn write_cells(source: &Source, row: u16, out: &mut [VtCell]) -> u8
    ensures status { result ≡ due_on (row_cells_status row (length out.old)) (screen_in source.now) }
    ensures cells { result ≡ ok → IsSomeAnd (screen_in source.now) (λ screen. IsRowForC row screen out.new) }
    ensures rest { result ≡ ok → IsSomeAnd (screen_in source.now)
        (λ screen. drop screen.page.width out.new ≡ drop screen.page.width out.old) }
    ensures refused { ¬ (result ≡ ok) → out.new ≡ out.old }
{
    match screen_of(source) {
        Some(screen) => write_row(screen, row, out),
        None => WRONG_KIND,
    }
}

/// Stores the cells of a displayed row of a screen in `out`. Returns
/// `BAD_ARGUMENT` if there is no such row or `out` is too short.
fn write_row(screen: &Screen, row: u16, out: &mut [VtCell]) -> u8
    ensures status { result ≡ row_cells_status row (length out.old) screen.now }
    ensures cells { result ≡ ok → IsRowForC row screen.now out.new }
    ensures rest { result ≡ ok → drop screen.now.page.width out.new ≡ drop screen.now.page.width out.old }
    ensures refused { ¬ (result ≡ ok) → out.new ≡ out.old }
{
    let (rows, cols) = screen.size();
    let width = usize::from(cols.get());
    if out.len() < width || row >= rows.get() {
        return BAD_ARGUMENT;
    }
    fill_row(screen, row, &mut out[..width]);
    OK
}

/// Stores the cells of all displayed rows of a source's screen in `out`, one row after the other.
/// Returns `WRONG_KIND` if the source has no screen, and `BAD_ARGUMENT` if `out` is too short.
fn write_all_cells(source: &Source, out: &mut [VtCell]) -> u8
    ensures status { result ≡ due_on (all_cells_status (length out.old)) (screen_in source.now) }
    ensures cells { result ≡ ok → IsSomeAnd (screen_in source.now) (λ screen. AreRowsForC screen out.new) }
    ensures rest { result ≡ ok → IsSomeAnd (screen_in source.now)
        (λ screen. drop (cell_count screen) out.new ≡ drop (cell_count screen) out.old) }
    ensures refused { ¬ (result ≡ ok) → out.new ≡ out.old }
{
    match screen_of(source) {
        Some(screen) => write_rows(screen, out),
        None => WRONG_KIND,
    }
}

/// Stores the cells of all displayed rows of a screen in `out`, one row after the other. Returns
/// `BAD_ARGUMENT` if `out` is too short.
fn write_rows(screen: &Screen, out: &mut [VtCell]) -> u8
    ensures status { result ≡ all_cells_status (length out.old) screen.now }
    ensures cells { result ≡ ok → AreRowsForC screen.now out.new }
    ensures rest { result ≡ ok → drop (cell_count screen.now) out.new ≡ drop (cell_count screen.now) out.old }
    ensures refused { ¬ (result ≡ ok) → out.new ≡ out.old }
{
    let (rows, cols) = screen.size();
    let count = usize::from(rows.get()) * usize::from(cols.get());
    if out.len() < count {
        return BAD_ARGUMENT;
    }
    fill_rows(screen, &mut out[..count]);
    OK
}

/// Stores the cells of all displayed rows in `out`, one row after the other,
/// with one cell for each column of the screen in each row.
fn fill_rows(screen: &Screen, out: &mut [VtCell])
    requires { length out.old ≡ cell_count screen.now }
    ensures { AreRowsForC screen.now out.new }
{
    let (rows, cols) = screen.size();
    let width = usize::from(cols.get());
    for row in 0..rows.get() {
        let start = usize::from(row) * width;
        fill_row(screen, row, &mut out[start..start + width]);
    }
}

/// Stores the cells of a displayed row in `out`, one for each column of the
/// screen.
fn fill_row(screen: &Screen, row: u16, out: &mut [VtCell])
    requires shown { row < length screen.now.page.rows }
    requires room { length out.old ≡ screen.now.page.width }
    ensures len { length out.new ≡ length out.old }
    ensures cells { IsRowForC row screen.now out.new }
{
    let (_, cols) = screen.size();
    for col in 0..cols.get() {
        out[usize::from(col)] = shown_cell(screen, row, col);
    }
}

/// Returns the displayed cell at `row` and `col`, or a blank cell if the row has no such column.
#[tactic(auto, using(crate::proofs::AllCells::past))]
fn shown_cell(screen: &Screen, row: u16, col: u16) -> VtCell
    requires { row < length screen.now.page.rows }
    ensures { result ≡ cell_for_c (shown_cell row col screen.now) }
{
    match screen.cell(row, col) {
        Some(cell) => cell_for_c(cell),
        None => cell_for_c(&cell::default_blank()),
    }
}

/// Stores 1 in `out` if a displayed row of a source's screen is wrapped, otherwise 0. Returns
/// `WRONG_KIND` if the source has no screen, and `BAD_ARGUMENT` if there is no such row.
fn write_wrapped(source: &Source, row: u16, out: &mut u8) -> u8
    ensures status { result ≡ due_on (row_status row) (screen_in source.now) }
    ensures wrapped { result ≡ ok → IsSomeAnd (screen_in source.now)
        (λ screen. out.new ≡ bit 1 (visible_row screen row).wrapped) }
    ensures refused { ¬ (result ≡ ok) → out.new ≡ out.old }
{
    match screen_of(source) {
        Some(screen) => write_row_wrapped(screen, row, out),
        None => WRONG_KIND,
    }
}

/// Stores 1 in `out` if a displayed row of a screen is wrapped, otherwise 0. Returns `BAD_ARGUMENT`
/// if there is no such row.
fn write_row_wrapped(screen: &Screen, row: u16, out: &mut u8) -> u8
    ensures status { result ≡ row_status row screen.now }
    ensures wrapped { result ≡ ok → out.new ≡ bit 1 (visible_row screen.now row).wrapped }
    ensures refused { ¬ (result ≡ ok) → out.new ≡ out.old }
{
    let (rows, _) = screen.size();
    if row >= rows.get() {
        return BAD_ARGUMENT;
    }
    *out = bit(1, screen.row_wrapped(row));
    OK
}
