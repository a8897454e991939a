//! The basic text of a row: its text with SGR sequences.

ghost use Rattle.std.specs.Prelude.{◌≡◌, ◌<◌, [], ◌∷◌, ◌++◌, if◌then◌else◌, false};
ghost use Rattle.std.specs.Prelude.{length, true, IfOk, IsErr, OnErr, OnOk};
ghost use Rattle.vt_cells.specs.Cell.{attrs_of};
ghost use Rattle.vt_cells.specs.Op.{change_text};
ghost use Rattle.vt_cells.specs.Sinks.{IsStopped};
ghost use Rattle.vt_rows.specs.Basic.{attrs_after, attrs_after_all, basic_text, cells_text};
ghost use Rattle.vt_rows.specs.Basic.{shown_text, written_after};
ghost use Rattle.vt_rows.specs.Internals.{Gathers, cell_text};

use super::{BasicFormattedCaptureState, RowContents};
use crate::trimming;
use vt_cells::term::ChangeAttrs;
use vt_cells::{Attrs, Buffer, Cell, Sink, cell};

impl RowContents<'_> {
    /// Writes the row's basic text: its text with SGR sequences, and no other escape sequences.
    ///
    /// The text begins with `\n` unless the row is the first one or follows a wrapped row. Default
    /// blanks at the end of the row are dropped. Any other default blank is written as a space with
    /// the attributes of the text before it. A blank with other attributes is written as a space
    /// with its own attributes.
    ///
    /// `state` carries two things from one row to the next: the attributes written last, and
    /// whether a newline is pending. Pass the same state for each row of a capture.
    ///
    /// # Errors
    ///
    /// Returns the sink's error, and leaves `state` unchanged. The sink has then accepted a prefix
    /// of the text and failed to write the next string; each sink specifies the effect of a failed
    /// write. Nothing is written after a failure. The call never fails if the text is empty.
    pub fn write_formatted_basic<S: Sink>(
        &self,
        sink: &mut S,
        state: &mut BasicFormattedCaptureState,
    ) -> Result<(), S::Error>
        ensures ok { OnOk result (S.text sink.new ≡ S.text sink.old ++ basic_text state.old self.now) }
        ensures state { OnOk result (state.new ≡ written_after state.old self.now) }
        ensures err { OnErr result (state.new ≡ state.old) }
        ensures stopped { OnErr result
            (IsStopped S.refuses (S.text sink.old) (basic_text state.old self.now) (S.text sink.new)) }
        ensures nonempty { OnErr result (0 < length (basic_text state.old self.now)) }
    {
        write_line_end(sink, state.is_due)?;
        let cells = &self.cells[..trimming::trimmed_len(self.cells)];
        state.attrs = write_cells(sink, cells, state.attrs)?;
        state.is_due = !self.wrapped;
        Ok(())
    }
}

/// Writes `\n` if `is_due` is true.
///
/// # Errors
///
/// Returns the sink's error.
fn write_line_end<S: Sink>(sink: &mut S, is_due: bool) -> Result<(), S::Error>
    ensures text { OnOk result (S.text sink.new ≡ S.text sink.old ++ (if is_due then 0x0A ∷ [] else [])) }
    ensures stopped { OnErr result
        (IsStopped S.refuses (S.text sink.old) (if is_due then 0x0A ∷ [] else []) (S.text sink.new)) }
    ensures due { IsErr result → is_due ≡ true }
{
    if is_due { sink.write_str("\n") } else { Ok(()) }
}

/// Writes the text of `cells`, with an SGR sequence wherever the attributes change. `attrs` are the
/// attributes in effect before the text. Returns the attributes in effect after it.
///
/// # Errors
///
/// Returns the sink's error. Part of the output may have been written by then.
#[tactic(auto, using(vt_cells::proofs::Sinks::nothing_gathered))]
fn write_cells<S: Sink>(sink: &mut S, cells: &[Cell], attrs: Attrs) -> Result<Attrs, S::Error>
    ensures text { OnOk result (S.text sink.new ≡ S.text sink.old ++ cells_text attrs cells.now) }
    ensures attrs { IfOk result (λ last. last ≡ attrs_after_all attrs cells.now) }
    ensures stopped { OnErr result
        (IsStopped S.refuses (S.text sink.old) (cells_text attrs cells.now) (S.text sink.new)) }
    ensures nonempty { OnErr result (0 < length (cells_text attrs cells.now)) }
{
    let mut buffer = Buffer::new();
    let mut last = attrs;
    for cell in cells {
        add_cell(sink, &mut buffer, cell, &mut last)?;
    }
    buffer.flush(sink)?;
    Ok(last)
}

/// Appends the text of a cell to `buffer`. If the cell's attributes differ from `attrs`, the
/// attributes written last, first appends the SGR sequence that changes them and updates `attrs`.
/// Flushes the buffer to `sink` when it lacks room.
///
/// A default blank is written without a change of attributes. Nothing is appended for a
/// continuation cell.
///
/// # Errors
///
/// Returns the sink's error. Part of the output may have been written by then.
#[inline]
#[tactic(auto, using(crate::proofs::RowTexts::right_adds, crate::proofs::RowTexts::right_keeps))]
fn add_cell<S: Sink>(
    sink: &mut S,
    buffer: &mut Buffer,
    cell: &Cell,
    attrs: &mut Attrs,
) -> Result<(), S::Error>
    ensures added { OnOk result
        (Gathers (S.text sink.old) buffer.old (cell_text attrs.old cell.now) (S.text sink.new) buffer.new) }
    ensures attrs { OnOk result (attrs.new ≡ attrs_after attrs.old cell.now) }
    ensures stopped { OnErr result
        (IsStopped S.refuses (S.text sink.old) (buffer.old ++ cell_text attrs.old cell.now) (S.text sink.new)) }
    ensures nonempty { OnErr result (0 < length (cell_text attrs.old cell.now)) }
{
    if cell.is_wide_continuation() {
        return Ok(());
    }
    if keeps_attrs(cell, attrs) {
        return buffer.add(sink, shown_text(cell));
    }
    let was = *attrs;
    *attrs = cell::attrs(cell);
    ChangeAttrs { was, new: *attrs }.add(sink, buffer)?;
    buffer.add(sink, shown_text(cell))
}

/// Returns whether a cell is written without an SGR sequence, that is, whether it is a default
/// blank, a continuation cell, or a cell with `attrs`, the attributes written last.
#[inline]
#[tactic(auto, using(crate::proofs::RowTexts::attrs_kept))]
fn keeps_attrs(cell: &Cell, attrs: &Attrs) -> bool
    ensures yes { result ≡ true →
        (attrs_after attrs.now cell.now ≡ attrs.now) × (change_text attrs.now (attrs_after attrs.now cell.now) ≡ []) }
    ensures no { result ≡ false → attrs_after attrs.now cell.now ≡ attrs_of cell.now }
{
    if cell::has_attrs(cell, attrs) {
        return true;
    }
    if cell.is_wide_continuation() {
        return true;
    }
    trimming::is_default(cell)
}

/// Returns the text that is written for a cell: the text of a glyph, a space for a blank, or an
/// empty string for a continuation cell.
#[inline]
fn shown_text(cell: &Cell) -> &str
    ensures { result.now ≡ shown_text cell.now }
{
    if cell::is_blank(cell) {
        " "
    } else {
        cell.contents()
    }
}
