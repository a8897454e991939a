//! A row in packed form.

ghost use Rattle.std.specs.Prelude.{◌≡◌, ◌*◌, ◌<◌, ◌≤◌, ◌++◌, [], IfOk, IsOk, OnErr, OnOk};
ghost use Rattle.std.specs.Prelude.{false, length, vec_capacity, vec_len};
ghost use Rattle.vt_cells.specs.Refusals.{OnlyOutOfMemory};
ghost use Rattle.vt_cells.specs.Sinks.{IsStopped};
ghost use Rattle.vt_packed.specs.Packed.{FitsIn, packed_size};
ghost use Rattle.vt_rows.specs.Basic.{basic_text, written_after};
ghost use Rattle.vt_rows.specs.Cells.{IsPaired, cells_after_resize};

use crate::basic::{write_item_texts, write_line_end};
use crate::items::items_of;
use crate::packing::push_cells;
use crate::runs::Run;
use crate::size::size_of;
use crate::unpacking::write_items;
use std::alloc::Global;
use std::marker::Model;
use vt_cells::{Attrs, Cell, Error, Sink};
use vt_rows::trimming::{blank_end, trimmed_len};

/// An owned row in packed form: its cells, and whether it is wrapped (its text continues on the
/// next row).
///
/// A packed row consists of runs of items with equal attributes, and of the texts of the items, one
/// after the other. Default blanks at its end take no memory.
#[derive(Debug, Drop)]
pub struct PackedRow {
    runs: Vec<Run>,
    text: Vec<u8>,
    cols: usize,
    wrapped: bool,
}

impl Model for PackedRow {
    ghost use Rattle.vt_packed.specs.Items.{cells_of};
    ghost use Rattle.vt_packed.specs.Packed.{IsPacked, items_from, padded, styles_of};
    ghost use Rattle.vt_rows.specs.Row.{RowValue};

    ghost Value = { RowValue };

    ghost view = { λ r. record {
      cells = padded r.cols (cells_of (items_from (styles_of r.runs.items) r.text.items));
      wrapped = r.wrapped;
    } };

    ghost invariant = { λ r. IsPacked r.runs.items r.text.items r.cols };
}

impl PackedRow {
    /// Creates a row without cells. The row is not wrapped. Allocates nothing.
    pub fn new(alloc: Global) -> PackedRow
        ensures { result ≡ record { cells = []; wrapped = false } }
    {
        PackedRow {
            runs: Vec::new(alloc),
            text: Vec::new(alloc),
            cols: 0,
            wrapped: false,
        }
    }

    /// Creates a row that consists of `cells`. The row is wrapped if `wrapped` is true.
    ///
    /// Every wide glyph must be followed by its continuation cell.
    ///
    /// # Errors
    ///
    /// Returns [`Error::OutOfMemory`] if the row cannot be allocated.
    pub fn packed(alloc: Global, cells: &[Cell], wrapped: bool) -> Result<PackedRow, Error>
        requires { IsPaired cells.now }
        ensures ok { IfOk result (λ row. row ≡ record { cells = cells.now; wrapped = wrapped }) }
        ensures memory { OnlyOutOfMemory result }
    {
        let mut row = PackedRow::new(alloc);
        row.repack(cells, wrapped)?;
        Ok(row)
    }

    /// Reuses the row's memory: the row becomes one that consists of `cells`, and is wrapped if
    /// `wrapped` is true.
    ///
    /// Every wide glyph must be followed by its continuation cell. The call takes no memory, and
    /// succeeds, if the new row has no more runs and no more bytes of text than the old one.
    ///
    /// # Errors
    ///
    /// Returns [`Error::OutOfMemory`] if the row must grow and the allocation fails. The row is
    /// then unchanged.
    pub fn repack(&mut self, cells: &[Cell], wrapped: bool) -> Result<(), Error>
        requires { IsPaired cells.now }
        ensures ok { OnOk result (self.new ≡ record { cells = cells.now; wrapped = wrapped }) }
        ensures err { OnErr result (self.new ≡ self.old) }
        ensures fits { FitsIn (packed_size (record { cells = cells.now; wrapped = wrapped })) (packed_size self.old)
            → IsOk result }
        ensures memory { OnlyOutOfMemory result }
    {
        let kept = &cells[..trimmed_len(cells)];
        let size = size_of(kept);
        reserve_total(&mut self.runs, size.runs)?;
        reserve_total(&mut self.text, size.text)?;
        self.runs.clear();
        self.text.clear();
        push_cells(&mut self.runs, &mut self.text, kept);
        self.cols = cells.len();
        self.wrapped = wrapped;
        Ok(())
    }

    /// Returns a copy of the row.
    ///
    /// # Errors
    ///
    /// Returns [`Error::OutOfMemory`] if the copy cannot be allocated.
    pub fn try_clone(&self, alloc: Global) -> Result<PackedRow, Error>
        ensures ok { IfOk result (λ row. row ≡ self.now) }
        ensures memory { OnlyOutOfMemory result }
    {
        let runs = copied(alloc, &self.runs)?;
        let text = copied(alloc, &self.text)?;
        Ok(PackedRow {
            runs,
            text,
            cols: self.cols,
            wrapped: self.wrapped,
        })
    }

    /// Returns the number of columns of the row.
    #[inline]
    pub fn cols(&self) -> usize
        ensures { result ≡ length self.now.cells }
    {
        self.cols
    }

    /// Returns whether the row is wrapped, that is, whether its text continues on the next row.
    #[inline]
    pub fn wrapped(&self) -> bool
        ensures { result ≡ self.now.wrapped }
    {
        self.wrapped
    }

    /// Returns the number of runs and the number of bytes of text of the row. The row takes 16 bytes
    /// for each run, and one for each byte of text: at most 46 bytes for each column.
    #[inline]
    pub fn packed_len(&self) -> (usize, usize)
        ensures size { packed_size self.now ≡ record { runs = result.0; text = result.1 } }
        ensures runs { result.0 ≤ length self.now.cells }
        ensures text { result.1 ≤ 30 * length self.now.cells }
    {
        (self.runs.len(), self.text.len())
    }

    /// Overwrites `cells` with the cells of the row. There must be as many of them as the row has
    /// columns. Allocates nothing.
    pub fn unpack(&self, cells: &mut [Cell])
        requires { length cells.old ≡ length self.now.cells }
        ensures { cells.new ≡ self.now.cells }
    {
        write_items(cells, &mut items_of(&self.runs, &self.text));
    }

    /// Overwrites `cells` with the cells of the row, truncated or extended with default blanks to
    /// as many columns as `cells` has. Allocates nothing.
    ///
    /// If the last column holds the first cell of a wide glyph after the copy, that cell becomes a
    /// blank and keeps its attributes.
    pub fn refit(&self, cells: &mut [Cell])
        ensures { cells.new ≡ cells_after_resize (length cells.old) self.now.cells }
    {
        write_items(cells, &mut items_of(&self.runs, &self.text));
        blank_end(cells);
    }

    /// Writes the row's basic text: its text with SGR sequences, and no other escape sequences.
    ///
    /// `attrs` are the attributes in effect before the text. If `is_due` is true, the text begins
    /// with `\n`. Default blanks at the end of the row are dropped. Returns the attributes in effect
    /// after the text. The text is the one that
    /// [`RowContents::write_formatted_basic`](vt_rows::RowContents::write_formatted_basic) writes
    /// for the unpacked row.
    ///
    /// # Errors
    ///
    /// Returns the sink's error. The sink has then accepted a prefix of the text and failed to write
    /// the next string; each sink specifies the effect of a failed write. Nothing is written after a
    /// failure. The call never fails if the text is empty.
    pub fn write_basic<S: Sink>(
        &self,
        sink: &mut S,
        attrs: Attrs,
        is_due: bool,
    ) -> Result<Attrs, S::Error>
        ensures ok { OnOk result (S.text sink.new
            ≡ S.text sink.old ++ basic_text (record { attrs = attrs; is_due = is_due }) self.now) }
        ensures attrs { IfOk result (λ last. last
            ≡ (written_after (record { attrs = attrs; is_due = is_due }) self.now).attrs) }
        ensures stopped { OnErr result (IsStopped S.refuses (S.text sink.old)
            (basic_text (record { attrs = attrs; is_due = is_due }) self.now) (S.text sink.new)) }
        ensures nonempty { OnErr result
            (0 < length (basic_text (record { attrs = attrs; is_due = is_due }) self.now)) }
    {
        write_line_end(sink, is_due)?;
        let last = write_item_texts(sink, &mut items_of(&self.runs, &self.text), attrs)?;
        Ok(last)
    }
}

/// Reserves memory for `len` elements of `items` in total. Allocates nothing if the vector already
/// has that many elements, or memory for them.
///
/// # Errors
///
/// Returns [`Error::OutOfMemory`] if the allocation fails. The elements are unchanged in any case.
fn reserve_total<T>(items: &mut Vec<T>, len: usize) -> Result<(), Error>
    ensures items { items.new.items ≡ items.old.items }
    ensures room { OnOk result (len ≤ vec_capacity items.new) }
    ensures fits { len ≤ vec_len items.old → IsOk result }
    ensures memory { OnlyOutOfMemory result }
{
    items.reserve_exact(len.saturating_sub(items.len()))?;
    Ok(())
}

/// Returns a copy of the elements of `items`.
///
/// # Errors
///
/// Returns [`Error::OutOfMemory`] if the copy cannot be allocated.
fn copied<T: Copy>(alloc: Global, items: &[T]) -> Result<Vec<T>, Error>
    ensures ok { IfOk result (λ copies. copies.items ≡ items.now) }
    ensures memory { OnlyOutOfMemory result }
{
    let mut copies = Vec::with_capacity(alloc, items.len())?;
    copies.extend_from_slice(items)?;
    Ok(copies)
}
