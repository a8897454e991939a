//! Changing the number of columns of a page in place.

ghost use Rattle.std.specs.Prelude.{◌≡◌, ◌≢◌, ◌<◌, ◌≤◌, ◌^◌, All, IsTrue, false, length};
ghost use Rattle.vt_rows.specs.Cells.{IsPaired};
ghost use Rattle.vt_rows.specs.Row.{IsRow};
ghost use Rattle.vt_grid.specs.Flat.{IsBlankFrom};
ghost use Rattle.vt_grid.specs.Internals.{cells_cut};
ghost use Rattle.vt_grid.specs.PageRows.{page_row, with_page_row, with_width};

use super::PageRows;
use crate::flat::WHOLE_ROW;
use vt_cells::{Attrs, Cell};
use vt_rows::{cells, trimming};

impl PageRows {
    /// Truncates or extends each row to `width` columns in place, and clears all wrapped flags.
    /// `width` must differ from the current width. Returns `false` and changes nothing if `width`
    /// exceeds the number of cells stored for each row, or would narrow the rows to less than half
    /// of that number (rounded down); otherwise returns `true`.
    pub fn set_width(&mut self, width: u16) -> bool
        requires other { width ≢ self.old.width }
        requires height { length self.old.rows < 2 ^ 16 }
        requires sound { All (IsRow self.old.width) self.old.rows }
        ensures done { IsTrue result → self.new ≡ with_width width self.old }
        ensures undone { result ≡ false → self.new ≡ self.old }
    {
        if width < self.flat.columns.shown {
            if self.wastes_places(width) {
                return false;
            }
            self.narrow_to(width);
            return true;
        }
        if width > self.flat.columns.stored {
            return false;
        }
        self.flat.set_columns(width);
        true
    }

    /// Truncates or extends each row of this page and of `other` to `width` columns, as
    /// [`PageRows::set_width`] does. Both pages must have the same width, which must differ from
    /// `width`. Returns `false` and changes nothing if `set_width` would return `false` for either
    /// page; otherwise returns `true`.
    pub fn set_width_of_both(&mut self, other: &mut PageRows, width: u16) -> bool
        requires equal { other.old.width ≡ self.old.width }
        requires other { width ≢ self.old.width }
        requires height { length self.old.rows < 2 ^ 16 }
        requires other_height { length other.old.rows < 2 ^ 16 }
        requires sound { All (IsRow self.old.width) self.old.rows }
        requires other_sound { All (IsRow other.old.width) other.old.rows }
        ensures done { IsTrue result → self.new ≡ with_width width self.old }
        ensures other_done { IsTrue result → other.new ≡ with_width width other.old }
        ensures undone { result ≡ false → self.new ≡ self.old }
        ensures other_undone { result ≡ false → other.new ≡ other.old }
    {
        if width < self.flat.columns.shown {
            if self.wastes_places(width) || other.wastes_places(width) {
                return false;
            }
            self.narrow_to(width);
            other.narrow_to(width);
            return true;
        }
        if width > self.flat.columns.stored || width > other.flat.columns.stored {
            return false;
        }
        self.flat.set_columns(width);
        other.flat.set_columns(width);
        true
    }

    /// Returns whether rows of `width` columns would use less than half (rounded down) of the cells
    /// stored for each row. Adding rows to such a page would take too much memory.
    fn wastes_places(&self, width: u16) -> bool {
        width < self.flat.columns.stored / 2
    }

    /// Truncates each row to `width` columns in place, and clears all wrapped flags.
    fn narrow_to(&mut self, width: u16)
        requires fits { width < self.old.width }
        requires height { length self.old.rows < 2 ^ 16 }
        requires sound { All (IsRow self.old.width) self.old.rows }
        ensures { self.new ≡ with_width width self.old }
    {
        for row in 0..self.size().rows {
            self.cut_row(row, width);
        }
        self.flat.set_columns(width);
    }

    /// Truncates a row to `width` columns, fills the rest of it with default blanks, and clears its
    /// wrapped flag.
    fn cut_row(&mut self, row: u16, width: u16)
        requires inside { row < length self.old.rows }
        requires fits { width ≤ length (page_row self.old row).cells }
        requires paired { IsPaired (page_row self.old row).cells }
        ensures { self.new
            ≡ with_page_row row
            (record { cells = cells_cut width (page_row self.old row).cells; wrapped = false }) self.old }
    {
        let groups = self.groups(row);
        let used = self.used_len(row);
        let index = usize::from(row);
        let (start, end) = self.flat.part(index);
        cut(&mut self.flat.cells[start..end], usize::from(width), used);
        self.flat.set_entry(index, WHOLE_ROW, false);
        self.note_used(row, groups, 0);
    }
}

/// Truncates a row to `width` columns and fills the rest of it with default blanks. All cells from
/// column `used` on must already be default blanks.
fn cut(cells: &mut [Cell], width: usize, used: usize)
    requires fits { width ≤ length cells.old }
    requires inside { used ≤ length cells.old }
    requires blank { IsBlankFrom used cells.old }
    requires paired { IsPaired cells.old }
    ensures { cells.new ≡ cells_cut width cells.old }
{
    cells::clear(&mut cells[width..used.max(width)], Attrs::new());
    trimming::blank_end(&mut cells[..width]);
}
