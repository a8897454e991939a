//! The row table of a page.

ghost use Rattle.std.specs.Prelude.{◌≡◌, ◌++◌, ◌-◌, ◌+◌, ◌<◌, ◌≤◌, ℕ, IfOk, OnOk, length, slice_set, take, drop, vec_capacity};
ghost use Rattle.vt_cells.specs.Refusals.{OnlyOutOfMemory};
ghost use Rattle.vt_rows.specs.Internals.{rotation_source};
ghost use Rattle.vt_grid.specs.Flat.{line_at, lines_from};

use super::Line;
use std::alloc::Global;
use std::marker::Model;
use vt_cells::Error;
use vt_rows::shifts::turn;

/// The row table of a page: one entry for each row, from top to bottom.
///
/// The entries are the last ones of a vector that has memory for twice as many. When all rows move
/// up by one, the first entry is therefore appended, and the table begins one entry later. When all
/// rows move down, the last entries are moved before the first one, if there is room, and the table
/// begins earlier. In both cases, the other entries stay where they are.
#[derive(Debug, Drop)]
pub struct Lines {
    entries: Vec<Line>,
    start: usize,
}

impl Model for Lines {
    ghost use Rattle.std.specs.Prelude.{◌≤◌, drop, length, vec_capacity};
    ghost use Rattle.vt_grid.specs.Lines.{LinesValue};

    ghost Value = { LinesValue };

    ghost view = { λ s. record { items = drop s.start s.entries.items; capacity = vec_capacity s.entries } };

    ghost invariant = { λ s. s.start ≤ length s.entries.items };
}

impl Lines {
    /// Creates a table of the given entries. Entry `k` is that of row `k`.
    pub fn new(entries: Vec<Line>) -> Lines
        ensures items { result.items ≡ entries.items }
        ensures capacity { result.capacity ≡ vec_capacity entries }
    {
        Lines { entries, start: 0 }
    }

    /// Returns a copy of the table.
    ///
    /// # Errors
    ///
    /// Returns [`Error::OutOfMemory`] if the copy cannot be allocated.
    pub fn try_clone(&self, alloc: Global) -> Result<Lines, Error>
        ensures ok { IfOk result (λ lines. lines.items ≡ self.now.items) }
        ensures memory { OnlyOutOfMemory result }
    {
        let mut entries = Vec::with_capacity(alloc, self.len().saturating_mul(2))?;
        entries.extend_from_slice(self.as_slice())?;
        Ok(Lines { entries, start: 0 })
    }

    /// Returns the number of rows.
    #[inline]
    pub fn len(&self) -> usize
        ensures { result ≡ length self.now.items }
    {
        self.entries.len() - self.start
    }

    /// Returns the entry of a row.
    #[inline]
    pub fn get(&self, row: usize) -> &Line
        requires { row < length self.now.items }
        ensures { result.now ≡ line_at self.now.items row }
    {
        &self.entries[self.start + row]
    }

    /// Returns the entries of all rows.
    pub fn as_slice(&self) -> &[Line]
        ensures { result.now ≡ self.now.items }
    {
        &self.entries[self.start..]
    }

    /// Replaces the entry of a row.
    #[inline]
    pub fn set(&mut self, row: usize, line: Line)
        requires { row < length self.old.items }
        ensures { self.new.items ≡ slice_set self.old.items row line }
    {
        // Written field by field, since a field that keeps its value then costs no instruction.
        let entry = &mut self.entries[self.start + row];
        entry.place = line.place;
        entry.used = line.used;
        entry.wrapped = line.wrapped;
    }

    /// Rotates the entries of rows `from..to` upward by `count`. If all rows are rotated, upward by
    /// `count` or downward by the number of the remaining rows, the average time per row does not
    /// depend on the number of rows. A rotation of a single row changes nothing.
    pub fn rotate(&mut self, from: usize, to: usize, count: usize)
        requires in_order { from + count ≤ to }
        requires inside { to ≤ length self.old.items }
        ensures len { length self.new.items ≡ length self.old.items }
        ensures lines { (k : ℕ) →
            line_at self.new.items k ≡ line_at self.old.items (rotation_source from to count k) }
    {
        if count == to - from {
            return;
        }
        if count == 1 && to - from == self.len() {
            self.rotate_by_one();
        } else if count + 1 == self.len() {
            self.rotate_down();
        } else {
            self.rotate_many(from, to, count);
        }
    }

    /// Rotates all entries downward by one, that is, upward by the number of the other entries.
    #[inline(always)]
    fn rotate_down(&mut self)
        requires { 0 < length self.old.items }
        ensures len { length self.new.items ≡ length self.old.items }
        ensures lines { (k : ℕ) → line_at self.new.items k
            ≡ line_at self.old.items (rotation_source 0 (length self.old.items) (length self.old.items - 1) k) }
    {
        if self.start > 0 {
            move_before(&mut self.entries, self.start, 1);
            self.start -= 1;
        } else {
            let len = self.len();
            self.rotate_many(0, len, len - 1);
        }
    }

    /// Rotates the entries of rows `from..to` upward by `count`, as [`Lines::rotate`] does.
    #[inline(never)]
    fn rotate_many(&mut self, from: usize, to: usize, count: usize)
        requires in_order { from + count ≤ to }
        requires inside { to ≤ length self.old.items }
        ensures len { length self.new.items ≡ length self.old.items }
        ensures lines { (k : ℕ) →
            line_at self.new.items k ≡ line_at self.old.items (rotation_source from to count k) }
    {
        if to - from < self.len() {
            turn(&mut self.entries, self.start + from, self.start + to, count);
        } else {
            self.rotate_all(count);
        }
    }

    /// Rotates all entries upward by `count`. A downward rotation by few entries moves only these,
    /// if there is room for them before the first entry. Otherwise it is an upward rotation by the
    /// remaining entries, after which there is room for many downward rotations.
    fn rotate_all(&mut self, count: usize)
        requires { count ≤ length self.old.items }
        ensures len { length self.new.items ≡ length self.old.items }
        ensures lines { (k : ℕ) →
            line_at self.new.items k ≡ line_at self.old.items (rotation_source 0 (length self.old.items) count k) }
    {
        let down = self.len() - count;
        if down < count && down <= self.start {
            move_before(&mut self.entries, self.start, down);
            self.start -= down;
        } else {
            self.rotate_up(count);
        }
    }

    /// Rotates all entries upward by `count`, one by one.
    fn rotate_up(&mut self, count: usize)
        requires { count ≤ length self.old.items }
        ensures len { length self.new.items ≡ length self.old.items }
        ensures lines { (k : ℕ) →
            line_at self.new.items k ≡ line_at self.old.items (rotation_source 0 (length self.old.items) count k) }
    {
        for step in 0..count {
            self.rotate_by_one();
        }
    }

    /// Rotates all entries upward by one.
    #[inline(always)]
    fn rotate_by_one(&mut self)
        requires { 0 < length self.old.items }
        ensures len { length self.new.items ≡ length self.old.items }
        ensures lines { (k : ℕ) →
            line_at self.new.items k ≡ line_at self.old.items (rotation_source 0 (length self.old.items) 1 k) }
    {
        self.make_room();
        self.append_first();
    }

    /// Appends the first entry, and begins the table one entry later. If there is no memory left
    /// after the entries, they are rotated in place.
    #[inline(always)]
    fn append_first(&mut self)
        requires { 0 < length self.old.items }
        ensures len { length self.new.items ≡ length self.old.items }
        ensures lines { (k : ℕ) →
            line_at self.new.items k ≡ line_at self.old.items (rotation_source 0 (length self.old.items) 1 k) }
    {
        if self.entries.len() < self.entries.capacity() {
            let first = self.entries[self.start];
            self.entries.push_reserved(first);
            self.start += 1;
        } else {
            let end = self.entries.len();
            turn(&mut self.entries, self.start, end, 1);
        }
    }

    /// Moves the entries toward the beginning of the vector if there is no memory left after them.
    ///
    /// Some of the room before them remains. Otherwise, rotations by one that alternate between
    /// upward and downward could each move all entries.
    #[inline(always)]
    fn make_room(&mut self)
        ensures { self.new ≡ self.old }
    {
        if self.entries.len() == self.entries.capacity() {
            let start = self.start / 16;
            move_forward(&mut self.entries, self.start, start);
            self.start = start;
        }
    }

    /// Reserves memory for a total of `rows` entries, and for as many more, which
    /// [`Lines::rotate`] uses. The existing entries are unchanged.
    ///
    /// # Errors
    ///
    /// Returns [`Error::OutOfMemory`] if the memory cannot be allocated.
    pub fn reserve(&mut self, rows: u16) -> Result<(), Error>
        ensures items { self.new.items ≡ self.old.items }
        ensures room { OnOk result (rows ≤ self.new.capacity) }
        ensures memory { OnlyOutOfMemory result }
    {
        let total = 2 * usize::from(rows);
        self.entries
            .reserve_exact(total.saturating_sub(self.entries.len()))?;
        Ok(())
    }

    /// Appends entries until there are `rows` entries. The slot of each new row is its own index.
    /// Memory for the new entries must have been reserved.
    pub fn append(&mut self, rows: u16)
        requires room { rows ≤ self.old.capacity }
        requires more { length self.old.items ≤ rows }
        ensures { self.new.items
            ≡ self.old.items ++ lines_from (length self.old.items) (rows - length self.old.items) }
    {
        move_forward(&mut self.entries, self.start, 0);
        self.start = 0;
        push_lines(&mut self.entries, rows);
    }

    /// Removes all entries after the first `rows` entries.
    pub fn truncate(&mut self, rows: usize)
        ensures { self.new.items ≡ take rows self.old.items }
    {
        move_forward(&mut self.entries, self.start, 0);
        self.start = 0;
        self.entries.truncate(rows);
    }
}

/// Moves the entries from index `from` on to index `to`, and removes what is after them.
#[inline(never)]
fn move_forward(entries: &mut Vec<Line>, from: usize, to: usize)
    requires forward { to ≤ from }
    requires inside { from ≤ length entries.old.items }
    ensures inside { to ≤ length entries.new.items }
    ensures items { drop to entries.new.items ≡ drop from entries.old.items }
    ensures capacity { vec_capacity entries.new ≡ vec_capacity entries.old }
{
    let len = entries.len();
    entries.copy_within(from..len, to);
    entries.truncate(len - (from - to));
}

/// Moves the last `count` entries before index `start`, overwriting what is there.
#[inline(always)]
fn move_before(entries: &mut Vec<Line>, start: usize, count: usize)
    requires room { count ≤ start }
    requires inside { start + count ≤ length entries.old.items }
    ensures len { length entries.new.items ≡ length entries.old.items - count }
    ensures lines { (k : ℕ) →
        line_at (drop (start - count) entries.new.items) k
        ≡ line_at (drop start entries.old.items) (rotation_source 0 (length entries.old.items - start)
        (length entries.old.items - start - count) k) }
{
    let len = entries.len();
    entries.copy_within(len - count..len, start - count);
    entries.truncate(len - count);
}

/// Appends entries to a table until it has `rows` entries. The slot of each new row is its own
/// index. Memory for the new entries must already be reserved.
fn push_lines(lines: &mut Vec<Line>, rows: u16)
    requires room { rows ≤ vec_capacity lines.old }
    requires more { length lines.old.items ≤ rows }
    ensures { lines.new.items ≡ lines.old.items ++ lines_from (length lines.old.items) (rows - length lines.old.items) }
{
    for place in lines.len() as u16..rows {
        lines.push_reserved(Line {
            place,
            used: 0,
            wrapped: false,
        });
    }
}
