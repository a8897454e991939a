//! Replaces the cursor movements of drawing output with shorter ones.
//!
//! The writers of `vt_redraw` move the cursor with CUP, CUF, and CR LF. This module reads their
//! output, keeps track of the cursor position of the terminal, and replaces a movement with LF, CR,
//! HT, BS, CUF, CHA or CUP without a column if these take fewer bytes. It replaces a short CUF with
//! the ASCII glyphs that the terminal already displays there, if their attributes and the current
//! attributes are the defaults. Nothing else in the output changes.
//!
//! In the portable form, movements begin only where terminals agree on the position of the cursor
//! and no wrap is pending, and HT is not used. So the shorter output is portable if the output is.

ghost use Rattle.std.specs.Prelude.{◌≡◌, ◌+◌, ◌++◌, ◌-◌, ◌<◌, ◌≤◌, IfOk, IfSome, IsTrue, OnOk, Some, length, ℕ, min, string_bytes};
ghost use Rattle.vt_cells.specs.Cell.{CellValue};
ghost use Rattle.vt_cells.specs.Glyph.{columns_of};
ghost use Rattle.vt_cells.specs.Refusals.{OnlyOutOfMemory};
ghost use Rattle.vt_cells.specs.Op.{counted};
ghost use Rattle.vt_redraw.specs.Refusals.{RefusedOnlyIfSome};
ghost use Rattle.vt_redraw.specs.declared.form.Form.TheVariants.{Portable};
ghost use Rattle.vt_screen.specs.Gaps.{AppendsInstead, AppendsUpTo, IsCertainElement, IsLetter, IsPrinted, IsShownGap};
ghost use Rattle.vt_screen.specs.Gaps.{ReplacesTracked, ReplacesWhole, picture_cell};
ghost use Rattle.vt_screen.specs.ShortMoves.{AppendsReplacement, IsAfter, IsElement, IsPortableRoute, IsRoute, LeadsTo};
ghost use Rattle.vt_screen.specs.ShortMoves.{Replaces, Settles, route_text, row_start_text};

mod elements;
mod gaps;
mod known;
mod route;

use elements::{Element, first_element};
use gaps::{Gap, first_letter, gap_over, write_gap};
pub use known::Known;
use route::{Route, digits, likely_route};
use std::alloc::Global;
use vt_cells::{Error, Pos, Sink, columns};
use vt_grid::Size;
use vt_redraw::{Form, View};

/// The maximum length, in bytes, of output that is shortened. For longer output, the few bytes
/// saved are not worth the time.
const LONGEST: usize = 4096;

/// Returns `text` with shorter cursor movements, for a plain terminal that displays `prev`. `start`
/// is what is known about the terminal before it reads the output. If the output is in the portable
/// form and is portable, the result is portable, too. Returns `None` if `text` is empty or longer
/// than [`LONGEST`], or does not consist of elements that this module recognizes.
///
/// # Errors
///
/// Returns `Error::OutOfMemory` if the output cannot be allocated.
pub fn with_short_moves(
    alloc: Global,
    text: &str,
    prev: &View<'_>,
    start: Known,
) -> Result<Option<String>, Error>
    ensures short { IfOk result (λ found. IfSome found (λ short. ReplacesWhole
        (length prev.now.rows) prev.now.width (picture_cell prev.now) start text.now (string_bytes short))) }
    ensures memory { OnlyOutOfMemory result }
    ensures nonempty { RefusedOnlyIfSome result text.now }
{
    if text.is_empty() || text.len() > LONGEST {
        return Ok(None);
    }
    let Ok(mut short) = String::with_capacity(alloc, text.len()) else {
        return Err(Error::OutOfMemory);
    };
    let mut known = start;
    // What is in `uncopied` before `rest` has been read, and is still to be copied unchanged.
    let mut uncopied = text;
    let mut rest = text;
    while !rest.is_empty() {
        let Some((element, head, tail)) = split_element(rest) else {
            return Ok(None);
        };
        if element.is_movement() {
            let Some((copied, _)) = uncopied.split_at_checked(uncopied.len() - rest.len()) else {
                return Ok(None);
            };
            short.write_str(copied)?;
            let (next, after) = add_movement(&mut short, prev, known, element, head, tail)?;
            known = next;
            uncopied = after;
            rest = after;
        } else {
            known = known_after(known, element, size_of(prev), head);
            rest = tail;
        }
    }
    short.write_str(uncopied)?;
    Ok(Some(short))
}

/// Returns the first element of `text`, the text of this element, and the rest of `text`. Returns
/// `None` if `text` does not begin with an element that this module recognizes.
#[inline]
fn split_element(text: &str) -> Option<(Element, &str, &str)>
    ensures element { IfSome result (λ found. IsElement found.0 found.1.now) }
    ensures parts { IfSome result (λ found. text.now ≡ found.1.now ++ found.2.now) }
    ensures some { IfSome result (λ found. 0 < length found.1.now) }
{
    let (element, len) = first_element(text)?;
    let (head, tail) = text.split_at_checked(len)?;
    Some((element, head, tail))
}

/// Appends `element`, which is a cursor movement, to `short`, or shorter output with the same
/// effect. `head` is the text of the element, and `tail` is the output after it. Returns what is
/// known about the terminal afterward, and `tail` without the character after a gap, which is
/// appended with the gap.
///
/// # Errors
///
/// Returns `Error::OutOfMemory` if the string cannot grow.
#[inline]
#[tactic(auto, using(crate::proofs::ShortMoves::gap_up_to, crate::proofs::ShortMoves::element_up_to))]
fn add_movement<'a>(
    short: &mut String,
    prev: &View<'_>,
    known: Known,
    element: Element,
    head: &str,
    tail: &'a str,
) -> Result<(Known, &'a str), Error>
    requires { IsElement element head.now }
    ensures appends { IfOk result (λ next. AppendsUpTo
        (length prev.now.rows) prev.now.width (picture_cell prev.now) known next.0
        (head.now ++ tail.now) next.1.now (string_bytes short.old) (string_bytes short.new)) }
    ensures shorter { IfOk result (λ next. length next.1.now ≤ length tail.now) }
    ensures memory { OnlyOutOfMemory result }
{
    if let Some(gap) = gap_over(prev, known, element) {
        if let Some((letter, after)) = first_letter(tail) {
            let next = add_gap(short, prev, known, gap, letter)?;
            return Ok((next, after));
        }
    }
    let next = add_element(short, size_of(prev), known, element, head)?;
    Ok((next, tail))
}

/// Returns the size of a view.
#[inline]
fn size_of(view: &View<'_>) -> Size
    ensures rows { result.rows ≡ length view.now.rows }
    ensures cols { result.cols ≡ view.now.width }
{
    Size {
        rows: view.rows(),
        cols: view.cols(),
    }
}

/// Appends the glyphs that `prev` displays in `gap`, so that they are printed instead of being
/// skipped with CUF, followed by `letter`, the character after the gap. Returns what is known about
/// the terminal afterward.
///
/// # Errors
///
/// Returns `Error::OutOfMemory` if the string cannot grow.
fn add_gap(
    short: &mut String,
    prev: &View<'_>,
    known: Known,
    gap: Gap,
    letter: &str,
) -> Result<Known, Error>
    requires gap { IsShownGap prev.now known gap }
    requires letter { IsLetter letter.now }
    ensures appends { IfOk result (λ after. AppendsInstead
        (length prev.now.rows) prev.now.width (picture_cell prev.now) known after
        (counted gap.count 0x43 ++ letter.now) (string_bytes short.old) (string_bytes short.new)) }
    ensures memory { OnlyOutOfMemory result }
{
    write_gap(short, &prev.row(gap.from.row), gap.from.col, gap.count)?;
    short.write_str(letter)?;
    let to = Pos {
        row: gap.from.row,
        col: gap.from.col + gap.count,
    };
    let over = Known {
        at: Some(to),
        ..known
    };
    Ok(known_after(over, Element::Ascii, size_of(prev), letter))
}

/// Appends `element` to `short`, or a shorter movement with the same effect, and returns what is
/// known about the terminal afterward. `head` is the text of the element.
///
/// # Errors
///
/// Returns `Error::OutOfMemory` if the string cannot grow.
fn add_element(
    short: &mut String,
    size: Size,
    known: Known,
    element: Element,
    head: &str,
) -> Result<Known, Error>
    requires { IsElement element head.now }
    ensures appends { IfOk result (λ after. (cells : ℕ → ℕ → CellValue) → AppendsInstead
        size.rows size.cols cells known after head.now (string_bytes short.old) (string_bytes short.new)) }
    ensures memory { OnlyOutOfMemory result }
{
    match destination(element, size, known.at, head) {
        Some(to) => {
            let at = add_move(short, size, known, to, head)?;
            Ok(Known { at, ..known })
        }
        None => {
            short.write_str(head)?;
            Ok(known_after(known, element, size, head))
        }
    }
}

/// Returns what is known about the terminal after it has read an element that is copied unchanged.
/// `head` is the text of the element.
#[inline(always)]
fn known_after(known: Known, element: Element, size: Size, head: &str) -> Known
    requires { IsElement element head.now }
    ensures { (cells : ℕ → ℕ → CellValue) → ReplacesTracked size.rows size.cols cells known result head.now head.now }
{
    let at = place_after(known, element, size, head);
    Known {
        form: known.form,
        at,
        kept: known.kept_after(element, at),
        is_default: known.is_default_after(element),
    }
}

/// Returns the position of the cursor after `element`, which is copied unchanged to the output.
/// `head` is the text of the element. Returns `None` if the new position is unknown or, in the
/// portable form, if terminals may disagree on it.
#[inline(always)]
fn place_after(known: Known, element: Element, size: Size, head: &str) -> Option<Pos>
    requires { IsElement element head.now }
    ensures replaces { Replaces size.rows size.cols known.at result head.now head.now }
    ensures printed { IfSome result (IsPrinted size.cols element known.at head.now) }
    ensures certain { known.form ≡ Portable → IfSome result (λ to. IsCertainElement element) }
{
    if !known.keeps_place(element) {
        return None;
    }
    // Only for the proof: a named result lets the prover find the clauses of the call.
    let at = position_after(element, size, known.at, head);
    at
}

/// Returns the position to which an element moves the cursor from `at`. Returns `None` if the
/// element is not a cursor movement, or if the position is unknown or outside the terminal.
fn destination(element: Element, size: Size, at: Option<Pos>, head: &str) -> Option<Pos>
    requires { IsElement element head.now }
    ensures leads { IfSome result (λ to. LeadsTo size.rows size.cols at to head.now) }
    ensures settles { IfSome result (λ to. Settles size.rows size.cols at head.now) }
    ensures row { IfSome result (λ to. to.row < size.rows) }
    ensures col { IfSome result (λ to. to.col < size.cols) }
{
    match element {
        Element::Place(to) if to.row < size.rows && to.col < size.cols => Some(to),
        Element::Right(count) => {
            let from = at?;
            right_of(from, count, size)
        }
        Element::NextRow => {
            let from = at?;
            next_row(from, size)
        }
        _ => None,
    }
}

/// Returns the position `count` columns to the right of `from`, but no further than the last
/// column. Returns `None` if the row of `from` is outside the terminal or the terminal has no
/// columns.
fn right_of(from: Pos, count: u16, size: Size) -> Option<Pos>
    ensures row { IfSome result (λ to. (to.row ≡ from.row) × (to.row < size.rows)) }
    ensures col { IfSome result (λ to. (to.col ≡ min (from.col + count) (size.cols - 1)) × (to.col < size.cols)) }
{
    if from.row >= size.rows || size.cols == 0 {
        return None;
    }
    let col = from.col.saturating_add(count).min(size.cols - 1);
    Some(Pos { row: from.row, col })
}

/// Returns the position in the first column of the row below `from`, or `None` if the terminal has
/// no such position.
fn next_row(from: Pos, size: Size) -> Option<Pos>
    ensures row { IfSome result (λ to. (to.row ≡ from.row + 1) × (to.row < size.rows)) }
    ensures col { IfSome result (λ to. (to.col ≡ 0) × (to.col < size.cols)) }
{
    if from.row < size.rows && size.rows - from.row > 1 && size.cols > 0 {
        Some(Pos {
            row: from.row + 1,
            col: 0,
        })
    } else {
        None
    }
}

/// Returns the position of the cursor after `element`, which is copied unchanged to the output.
/// `head` is the text of the element, and `at` is the position of the cursor before it. Returns
/// `None` if the new position is unknown.
#[inline(always)]
fn position_after(element: Element, size: Size, at: Option<Pos>, head: &str) -> Option<Pos>
    requires { IsElement element head.now }
    ensures replaces { Replaces size.rows size.cols at result head.now head.now }
    ensures printed { IfSome result (IsPrinted size.cols element at head.now) }
{
    match element {
        Element::Ascii => match at {
            Some(from) => after_characters(from, head.len(), size),
            None => None,
        },
        Element::Other(c) => match at {
            Some(from) => after_other(from, c, size),
            None => None,
        },
        // Other terminals move the cursor to the first column after IL and DL.
        Element::Lines(_, _) if !is_first_column(at) => None,
        _ if element.is_still() => at,
        _ => None,
    }
}

/// Returns whether the cursor position `at` is known and in the first column.
fn is_first_column(at: Option<Pos>) -> bool {
    match at {
        Some(pos) => pos.col == 0,
        None => false,
    }
}

/// Returns the position after the character `c` is printed at `from`. Returns `None` if that
/// position is past the last column, or if `c` takes no columns.
#[inline(always)]
fn after_other(from: Pos, c: char, size: Size) -> Option<Pos>
    ensures { IfSome result (λ to. (n : ℕ) × (columns_of c ≡ Some n) × (0 < n) × IsAfter size.cols from n to) }
{
    if is_box_drawing(c) {
        return after_characters(from, 1, size);
    }
    match columns(c) {
        Some(1) => after_characters(from, 1, size),
        Some(2) => after_characters(from, 2, size),
        _ => None,
    }
}

/// Returns whether `c` is a box drawing character or a block element. These take one column, so the
/// width table need not be searched for the most frequent characters that are not ASCII.
#[inline(always)]
#[tactic(auto, using(vt_scan::proofs::Characters::blocks_narrow))]
fn is_box_drawing(c: char) -> bool
    ensures { IsTrue result → columns_of c ≡ Some 1 }
{
    matches!(c as u32, 0x2500..=0x259F)
}

/// Returns the position `count` columns to the right of `from`, or `None` if it is past the last
/// column, where a wrap is pending.
#[inline(always)]
fn after_characters(from: Pos, count: usize, size: Size) -> Option<Pos>
    ensures { IfSome result (IsAfter size.cols from count) }
{
    let left = size.cols.saturating_sub(from.col);
    match u16::try_from(count) {
        Ok(count) if count < left => Some(Pos {
            row: from.row,
            col: from.col + count,
        }),
        _ => None,
    }
}

/// Appends `head`, which moves the cursor from `known.at` to `to`, or a shorter movement with the
/// same effect. Returns the new position.
///
/// # Errors
///
/// Returns `Error::OutOfMemory` if the string cannot grow.
fn add_move(
    short: &mut String,
    size: Size,
    known: Known,
    to: Pos,
    head: &str,
) -> Result<Option<Pos>, Error>
    requires leads { LeadsTo size.rows size.cols known.at to head.now }
    requires settles { Settles size.rows size.cols known.at head.now }
    requires row { to.row < size.rows }
    requires col { to.col < size.cols }
    ensures appends { IfOk result (λ after. AppendsReplacement known.form size.rows size.cols known.at after
        head.now (string_bytes short.old) (string_bytes short.new)) }
    ensures memory { OnlyOutOfMemory result }
{
    if let Some(route) = shorter_route(known, to, size.cols, head.len()) {
        route.write(short)?;
        return Ok(Some(to));
    }
    add_place(short, size, known, to, head)?;
    Ok(Some(to))
}

/// Returns a route from `known.at` to `to` on a terminal with `cols` columns that takes fewer than
/// `len` bytes, and no more than CUP without a column if that leads to `to`. Returns `None` if no
/// such route is known.
fn shorter_route(known: Known, to: Pos, cols: u16, len: usize) -> Option<Route>
    ensures leads { IfSome result (λ route. (from : Pos) × (known.at ≡ Some from) × IsRoute cols route from to
        × (known.form ≡ Portable → IsPortableRoute route from.col)) }
    ensures shorter { IfSome result (λ route. length (route_text route) < len) }
{
    let from = known.at?;
    let route = likely_route(known.form, from, to, cols, len)?;
    let bytes = route.len();
    let is_short = bytes < len && (to.col > 0 || bytes <= row_start_len(to.row));
    if is_short && route.is_allowed(known.form, from.col) && route.leads(from, to, cols) {
        Some(route)
    } else {
        None
    }
}

/// Returns the length, in bytes, of CUP without a column, which moves the cursor to the first column
/// of row `row` (counted from 0).
#[inline]
#[tactic(auto, using(crate::proofs::ReadRoutes::row_start_length))]
fn row_start_len(row: u16) -> usize
    ensures { result ≡ length (row_start_text row) }
{
    3 + digits(u32::from(row) + 1)
}

/// Appends `head`, which moves the cursor from `known.at` to `to`. If `to` is in the first column and
/// CUP without a column is shorter, appends that instead.
///
/// # Errors
///
/// Returns `Error::OutOfMemory` if the string cannot grow.
fn add_place(short: &mut String, size: Size, known: Known, to: Pos, head: &str) -> Result<(), Error>
    requires leads { LeadsTo size.rows size.cols known.at to head.now }
    requires settles { Settles size.rows size.cols known.at head.now }
    requires row { to.row < size.rows }
    requires col { to.col < size.cols }
    ensures appends { OnOk result (AppendsReplacement known.form size.rows size.cols known.at (Some to)
        head.now (string_bytes short.old) (string_bytes short.new)) }
    ensures memory { OnlyOutOfMemory result }
{
    if to.col == 0 && row_start_len(to.row) < head.len() {
        write_row_start(short, to.row)?;
        return Ok(());
    }
    short.write_str(head)
}

/// Appends CUP without a column, which moves the cursor to the first column of row `row` (counted
/// from 0).
///
/// # Errors
///
/// Returns `Error::OutOfMemory` if the string cannot grow.
fn write_row_start(short: &mut String, row: u16) -> Result<(), Error>
    ensures text { OnOk result (string_bytes short.new ≡ string_bytes short.old ++ row_start_text row) }
    ensures memory { OnlyOutOfMemory result }
{
    let mut buffer = itoa::Buffer::new();
    short.write_str("\x1b[")?;
    short.write_str(buffer.format(u32::from(row) + 1))?;
    short.write_str("H")
}
