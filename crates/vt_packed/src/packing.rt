//! Packing of cells: the runs and the stored texts of their items.

ghost use Rattle.std.specs.Prelude.{◌≡◌, ◌≤◌, [], ◌∷◌, ◌++◌, length, vec_capacity};
ghost use Rattle.vt_cells.specs.Cell.{IsCell};
ghost use Rattle.vt_packed.specs.Internals.{runs_with};
ghost use Rattle.vt_packed.specs.Packed.{Packs, packed_runs, packed_text};

use crate::runs::{Run, push_style};
use crate::texts::push_text;
use vt_cells::{Cell, cell};

/// Packs `cells` into `runs` and `text`, which must be empty and have enough memory.
pub fn push_cells(runs: &mut Vec<Run>, text: &mut Vec<u8>, cells: &[Cell])
    requires no_runs { runs.old.items ≡ [] }
    requires no_text { text.old.items ≡ [] }
    requires runs { length (packed_runs cells.now) ≤ vec_capacity runs.old }
    requires text { length (packed_text cells.now) ≤ vec_capacity text.old }
    ensures { Packs cells.now runs.new.items text.new.items }
{
    for cell in cells {
        push_cell(runs, text, cell);
    }
}

/// Adds the item of a cell after the items of `runs` and `text`, which must have enough memory.
/// Adds nothing for a continuation cell.
#[inline]
fn push_cell(runs: &mut Vec<Run>, text: &mut Vec<u8>, cell: &Cell)
    requires runs { length (runs_with runs.old.items cell.now) ≤ vec_capacity runs.old }
    requires text { length (text.old.items ++ packed_text (cell.now ∷ [])) ≤ vec_capacity text.old }
    ensures runs { runs.new.items ≡ runs_with runs.old.items cell.now }
    ensures text { text.new.items ≡ text.old.items ++ packed_text (cell.now ∷ []) }
    ensures runs_capacity { vec_capacity runs.new ≡ vec_capacity runs.old }
    ensures text_capacity { vec_capacity text.old ≤ vec_capacity text.new }
    ensures sound { IsCell cell.now }
{
    let contents = cell.contents();
    if cell.is_wide_continuation() {
        return;
    }
    push_style(runs, cell::attrs(cell), cell.is_wide());
    push_text(text, contents.as_bytes());
}
