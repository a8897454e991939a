//! Adding rows to a page and removing rows from it in place.

ghost use Rattle.std.specs.Prelude.{◌≡◌, ◌≢◌, ◌++◌, ◌+◌, ◌-◌, ◌*◌, ◌<◌, ◌≤◌, ℕ, OnOk, false, length};
ghost use Rattle.vt_cells.specs.Attrs.{default_attrs};
ghost use Rattle.vt_cells.specs.Refusals.{OnlyOutOfMemory};
ghost use Rattle.vt_rows.specs.Cells.{blanks};
ghost use Rattle.vt_grid.specs.Flat.{line_at, lines_from};

use super::{Flat, Line};
use vt_cells::{Error, cell};

impl Flat {
    ghost use Rattle.vt_grid.specs.Flat.{HasRoom, IsFlat, row_in};

    /// Reserves memory for a total of `rows` rows. The existing rows are unchanged.
    ///
    /// # Errors
    ///
    /// Returns [`Error::OutOfMemory`] if the memory cannot be allocated.
    pub fn reserve(&mut self, rows: u16) -> Result<(), Error>
        ensures cells { self.new.cells.items ≡ self.old.cells.items }
        ensures lines { self.new.lines.items ≡ self.old.lines.items }
        ensures columns { self.new.columns ≡ self.old.columns }
        ensures room { OnOk result (HasRoom rows self.new) }
        ensures memory { OnlyOutOfMemory result }
    {
        let cells = usize::from(rows) * usize::from(self.columns.stored);
        self.cells
            .reserve_exact(cells.saturating_sub(self.cells.len()))?;
        self.lines.reserve(rows)?;
        Ok(())
    }

    /// Appends rows of default blanks until there are `rows` rows. Memory for these rows must have
    /// been reserved.
    pub fn append_rows(&mut self, rows: u16)
        requires flat { IsFlat self.old }
        requires room { HasRoom rows self.old }
        requires more { length self.old.lines.items ≤ rows }
        ensures cells { self.new.cells.items
            ≡ self.old.cells.items
            ++ blanks default_attrs (rows * self.old.columns.stored - length self.old.cells.items) }
        ensures lines { self.new.lines.items
            ≡ self.old.lines.items
            ++ lines_from (length self.old.lines.items) (rows - length self.old.lines.items) }
        ensures columns { self.new.columns ≡ self.old.columns }
    {
        let cells = usize::from(rows) * usize::from(self.columns.stored);
        // There is memory for the blanks.
        let _ = self.cells.resize(cells, cell::default_blank());
        self.lines.append(rows);
    }

    /// Removes all rows after the first `rows` rows. Of the remaining rows, only those whose slot
    /// is past the new end of the vector are moved.
    pub fn truncate(&mut self, rows: usize)
        requires flat { IsFlat self.old }
        requires inside { rows ≤ length self.old.lines.items }
        ensures flat { IsFlat self.new }
        ensures len { length self.new.lines.items ≡ rows }
        ensures columns { self.new.columns ≡ self.old.columns }
        ensures rows { (k : ℕ) → k < rows →
            row_in self.old.columns self.new.cells.items (line_at self.new.lines.items k)
            ≡ row_in self.old.columns self.old.cells.items (line_at self.old.lines.items k) }
    {
        self.pack(rows);
        self.lines.truncate(rows);
        self.cells.truncate(rows * usize::from(self.columns.stored));
    }

    /// Sets the number of columns of the page, which must not exceed the number of cells stored for
    /// each row, and clears all wrapped flags. The cells are unchanged.
    pub fn set_columns(&mut self, columns: u16)
        ensures cells { self.new.cells ≡ self.old.cells }
        ensures columns { self.new.columns ≡ record { shown = columns; stored = self.old.columns.stored } }
        ensures len { length self.new.lines.items ≡ length self.old.lines.items }
        ensures lines { (k : ℕ) → k < length self.old.lines.items →
            line_at self.new.lines.items k ≡ record (line_at self.old.lines.items k) { wrapped = false } }
    {
        for row in 0..self.lines.len() {
            let mut line = *self.lines.get(row);
            line.wrapped = false;
            self.lines.set(row, line);
        }
        self.columns.shown = columns;
    }

    /// Moves the first `rows` rows into the first `rows` slots of the vector of cells. The contents
    /// of the rows after the first `rows` rows may be lost.
    fn pack(&mut self, rows: usize)
        requires flat { IsFlat self.old }
        requires inside { rows ≤ length self.old.lines.items }
        ensures flat { IsFlat self.new }
        ensures len { length self.new.lines.items ≡ length self.old.lines.items }
        ensures columns { self.new.columns ≡ self.old.columns }
        ensures rows { (k : ℕ) → k < rows →
            row_in self.old.columns self.new.cells.items (line_at self.new.lines.items k)
            ≡ row_in self.old.columns self.old.cells.items (line_at self.old.lines.items k) }
        ensures packed { (k : ℕ) → k < rows → (line_at self.new.lines.items k).place < rows }
    {
        let mut free = rows;
        for row in 0..rows {
            if usize::from(self.lines.get(row).place) >= rows {
                free = free_row(self.lines.as_slice(), free, rows);
                self.trade(row, free);
            }
        }
    }

    /// Copies the cells of `row` to the slot of `other`, and swaps the slots of the two rows. The
    /// cells of `other` are lost: it becomes a copy of `row`.
    fn trade(&mut self, row: usize, other: usize)
        requires flat { IsFlat self.old }
        requires row { row < length self.old.lines.items }
        requires other { other < length self.old.lines.items }
        requires apart { row ≢ other }
        ensures flat { IsFlat self.new }
        ensures len { length self.new.lines.items ≡ length self.old.lines.items }
        ensures columns { self.new.columns ≡ self.old.columns }
        ensures row { line_at self.new.lines.items row
            ≡ record (line_at self.old.lines.items row) { place = (line_at self.old.lines.items other).place } }
        ensures other { line_at self.new.lines.items other ≡ line_at self.old.lines.items row }
        ensures lines { (k : ℕ) → k ≢ row → k ≢ other →
            line_at self.new.lines.items k ≡ line_at self.old.lines.items k }
        ensures rows { (k : ℕ) → k < length self.old.lines.items → k ≢ other →
            row_in self.old.columns self.new.cells.items (line_at self.new.lines.items k)
            ≡ row_in self.old.columns self.old.cells.items (line_at self.old.lines.items k) }
    {
        let stored = usize::from(self.columns.stored);
        let line = *self.lines.get(row);
        let free = self.lines.get(other).place;
        let start = usize::from(line.place) * stored;
        self.cells
            .copy_within(start..start + stored, usize::from(free) * stored);
        let mut moved = line;
        moved.place = free;
        self.lines.set(row, moved);
        self.lines.set(other, line);
    }
}

/// Returns the index of the first row at or after index `from` whose slot is one of the first
/// `rows` slots. One of the first `rows` rows must be in a later slot, and the rows from `rows` to
/// `from - 1`, too, so that such a row exists.
fn free_row(lines: &[Line], from: usize, rows: usize) -> usize
    requires after { rows ≤ from }
    requires later { (k : ℕ) → rows ≤ k → k < from → rows ≤ (line_at lines.now k).place }
    requires table { (k : ℕ) → k < length lines.now → (line_at lines.now k).place < length lines.now }
    requires distinct { (j k : ℕ) → j < length lines.now → k < length lines.now →
        (line_at lines.now j).place ≡ (line_at lines.now k).place → j ≡ k }
    requires nonempty { (row : ℕ) × (row < rows) × (row < length lines.now) × (rows ≤ (line_at lines.now row).place) }
    ensures after { from ≤ result }
    ensures inside { result < length lines.now }
    ensures found { (line_at lines.now result).place < rows }
    ensures later { (k : ℕ) → rows ≤ k → k < result → rows ≤ (line_at lines.now k).place }
{
    let mut row = from;
    while usize::from(lines[row].place) >= rows {
        row += 1;
    }
    row
}
