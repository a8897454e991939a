//! The sizes of packed rows, which are known before anything is allocated.

ghost use Rattle.std.specs.Prelude.{◌≡◌, ◌<◌, ◌≤◌, [], ◌∷◌, ◌+◌, ◌-◌, ◌^◌, List, if◌then◌else◌};
ghost use Rattle.std.specs.Prelude.{length, min};
ghost use Rattle.vt_packed.specs.declared.runs.Run.{Run};
ghost use Rattle.vt_packed.specs.Internals.{AddsCell, full_run, last_or};
ghost use Rattle.vt_packed.specs.Items.{stored_text, style_of};
ghost use Rattle.vt_packed.specs.Packed.{extends, packed_runs, packed_text, run_of};

use crate::runs::{Run, is_extended};
use crate::texts::is_single;
use vt_cells::{Attrs, Cell, cell};

/// The size of packed cells.
#[derive(Clone, Copy)]
pub struct Size {
    /// The number of runs.
    pub runs: usize,
    /// The number of bytes of the stored texts, or `usize::MAX` if there are more.
    pub text: usize,
}

/// Returns the size of `cells` once they are packed.
pub fn size_of(cells: &[Cell]) -> Size
    ensures runs { result.runs ≡ length (packed_runs cells.now) }
    ensures text { result.text ≡ min (length (packed_text cells.now)) (2 ^ 64 - 1) }
{
    let mut runs: usize = 0;
    let mut text: usize = 0;
    // A full run, so that the first item begins a run.
    let mut last = Run {
        attrs: Attrs::new(),
        wide: false,
        count: u16::MAX,
    };
    for cell in cells {
        runs += count_cell(&mut last, cell);
        text = text.saturating_add(text_len(cell));
    }
    Size { runs, text }
}

/// Adds the item of a cell to `last`, the last run, if it belongs to that run. Otherwise, a run of
/// this item becomes the last one. Returns the number of runs that begin with the cell. A
/// continuation cell has no item.
#[inline]
fn count_cell(last: &mut Run, cell: &Cell) -> usize
    ensures adds { (runs : List Run) → last.old ≡ last_or full_run runs → AddsCell runs cell.now result last.new }
    ensures few { result ≤ 1 }
{
    if cell.is_wide_continuation() {
        return 0;
    }
    count_style(last, cell::attrs(cell), cell.is_wide())
}

/// Adds an item with the given style to `last`, the last run, if it belongs to that run. Otherwise,
/// a run of this item becomes the last one. Returns the number of runs that begin with the item.
#[inline]
fn count_style(last: &mut Run, attrs: Attrs, wide: bool) -> usize
    ensures count { result ≡ (if extends (style_of attrs wide) last.old then 0 else 1) }
    ensures last { last.new ≡ (if extends (style_of attrs wide) last.old
        then record last.old { count = last.old.count + 1 } else run_of (style_of attrs wide)) }
    ensures few { result ≤ 1 }
{
    if is_extended(last, &attrs, wide) {
        last.count += 1;
        return 0;
    }
    *last = Run {
        attrs,
        wide,
        count: 1,
    };
    1
}

/// Returns the number of bytes that the text of a cell takes in the stored texts. A continuation
/// cell has no text.
#[inline]
fn text_len(cell: &Cell) -> usize
    ensures { result ≡ length (packed_text (cell.now ∷ [])) }
{
    let contents = cell.contents();
    if cell.is_wide_continuation() {
        return 0;
    }
    stored_len(contents.as_bytes())
}

/// Returns the number of bytes that a text takes in the stored texts.
#[inline]
#[tactic(auto, unfolding(crate::specs::Items::stored_text))]
fn stored_len(text: &[u8]) -> usize
    requires { length text.now < 64 }
    ensures { result ≡ length (stored_text text.now) }
{
    if is_single(text) {
        text.len()
    } else {
        1 + text.len()
    }
}
