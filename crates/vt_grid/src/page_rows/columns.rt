//! The used columns of a row. All cells after the used columns are default blanks.

ghost use Rattle.std.specs.Prelude.{◌≡◌, ◌<◌, ◌≤◌, if◌then◌else◌, length, max};
ghost use Rattle.vt_cells.specs.Cell.{blank, is_default_blank};
ghost use Rattle.vt_rows.specs.Row.{cells_without_end};
ghost use Rattle.vt_grid.specs.Flat.{IsBlankFrom, used_columns};
ghost use Rattle.vt_grid.specs.PageRows.{page_row};

use super::PageRows;
use crate::flat::used_columns;
use vt_cells::{Attrs, Cell};

impl PageRows {
    /// Returns the cells in the used columns of a row. All cells after them are default blanks.
    #[inline]
    pub fn used_cells(&self, row: usize) -> &[Cell]
        requires { row < length self.now.rows }
        ensures { cells_without_end result.now ≡ cells_without_end (page_row self.now row).cells }
    {
        let (start, _end) = self.flat.part(row);
        let used = used_columns(self.flat.lines.get(row).used, self.flat.columns.shown);
        &self.flat.cells[start..start + used]
    }

    /// Returns how many groups of eight columns of a row are used, as recorded in the row table;
    /// 255 means that all columns are used.
    #[inline]
    pub(super) fn groups(&self, row: u16) -> u8
        requires { row < length self.now.rows }
        ensures { IsBlankFrom (used_columns self.now.width result) (page_row self.now row).cells }
    {
        self.flat.lines.get(usize::from(row)).used
    }

    /// Returns the number of used columns of a row. All cells after them are default blanks.
    pub(super) fn used_len(&self, row: u16) -> usize
        requires { row < length self.now.rows }
        ensures inside { result ≤ length (page_row self.now row).cells }
        ensures blank { IsBlankFrom result (page_row self.now row).cells }
    {
        used_columns(self.groups(row), self.flat.columns.shown)
    }

    /// Marks the first `groups` groups of eight columns of a row as used (255 marks all columns),
    /// or as many groups as are needed to cover `reach` columns if that is more. The cells are
    /// unchanged. All cells after the marked columns must be default blanks.
    #[inline]
    pub(super) fn note_used(&mut self, row: u16, groups: u8, reach: usize)
        requires inside { row < length self.old.rows }
        requires blank { IsBlankFrom (max (used_columns self.old.width groups) reach) (page_row self.old row).cells }
        ensures { self.new ≡ self.old }
    {
        let row = usize::from(row);
        let reached = ((reach.min(2040) + 7) / 8) as u8;
        let is_wrapped = self.flat.wrapped(row);
        self.flat.set_entry(row, groups.max(reached), is_wrapped);
    }
}

/// Returns how many leading columns an erasure up to column `to` (exclusive) marks as used: `to`,
/// or 0 if `attrs` are the default attributes, because the erased cells are then default blanks.
pub(super) fn erased_reach(to: u16, attrs: Attrs) -> usize
    ensures { result ≡ (if is_default_blank (blank attrs) then 0 else to) }
{
    if attrs.is_same(&Attrs::new()) {
        0
    } else {
        usize::from(to)
    }
}
