//! Captures: the text of rows with SGR as the only escape sequences.

ghost use Rattle.std.specs.Prelude.{◌≡◌, ◌≤◌, ◌++◌, OnErr, OnOk, length};
ghost use Rattle.std.specs.List.{slice_range};
ghost use Rattle.vt_cells.specs.Refusals.{OnlyOutOfMemory};
ghost use Rattle.vt_rows.specs.Basic.{Written, nothing_written};
ghost use Rattle.vt_redraw.specs.Refusals.{RefusedOnlyIfSome};
ghost use Rattle.vt_screen.specs.Capture.{IfGiven, StopsAfter, all_rows, basic_texts};
ghost use Rattle.vt_screen.specs.Capture.{captured_rows, captured_text, given_state, written_after_all};
ghost use Rattle.vt_screen.specs.Internals.{WritesRows};
ghost use Rattle.vt_screen.specs.MadeOf.{IsMadeOf, capture_finals, plain_controls};
ghost use Rattle.vt_screen.specs.Screen.{visible_rows};
ghost use Rattle.vt_screen.specs.TextResults.{IfText};

use super::Screen;
use vt_cells::{Error, Sink};
use vt_rows::{BasicFormattedCaptureRange, BasicFormattedCaptureState};

impl Screen {
    /// Returns the displayed rows as text with SGR as the only escape sequences. The only controls
    /// in the text are newlines and the ESC that begins each SGR sequence.
    ///
    /// Rows are separated by `\n`, except after a wrapped row. Trailing default blanks of a row
    /// are dropped (see
    /// [`RowContents::write_formatted_basic`](vt_rows::RowContents::write_formatted_basic)). Rows
    /// of scrollback may be wider than the screen. The text assumes default attributes at its
    /// beginning and does not restore them at its end.
    ///
    /// # Errors
    ///
    /// Returns `Error::OutOfMemory` if the text cannot be allocated. Empty text
    /// needs no allocation.
    pub fn contents_formatted_basic(&self) -> Result<String, Error>
        ensures text { IfText result (λ text. text ≡ basic_texts nothing_written (visible_rows self.now)) }
        ensures controls { IfText result (IsMadeOf capture_finals plain_controls) }
        ensures memory { OnlyOutOfMemory result }
        ensures nonempty { RefusedOnlyIfSome result (basic_texts nothing_written (visible_rows self.now)) }
    {
        let mut text = String::new(self.alloc);
        match self.write_contents_formatted_basic(&mut text, BasicFormattedCaptureRange::Visible) {
            Ok(()) => Ok(text),
            Err(_) => Err(Error::OutOfMemory),
        }
    }

    /// Writes the rows of `range` as text with SGR as the only escape sequences.
    ///
    /// # Errors
    ///
    /// Returns the first error of the sink, after which nothing more is written. By then, the sink
    /// has accepted zero or more complete rows and possibly part of the next row. The capture state
    /// in `range`, if any, is the state after the complete rows. How much of the incomplete row the
    /// sink holds depends on the sink; a string holds every chunk that it accepted, and no partial
    /// chunk.
    pub fn write_contents_formatted_basic<S: Sink>(
        &self,
        sink: &mut S,
        range: BasicFormattedCaptureRange<'_>,
    ) -> Result<(), S::Error>
        ensures text { OnOk result (S.text sink.new ≡ S.text sink.old ++ captured_text range.entry self.now) }
        ensures state { OnOk result (IfGiven range.exit
            (λ state. state ≡ written_after_all (given_state range.entry) (captured_rows range.entry self.now))) }
        ensures err { OnErr result ((state : Written)
            × (StopsAfter S.refuses (S.text sink.old) (given_state range.entry) (captured_rows range.entry self.now)
            (S.text sink.new) state × IfGiven range.exit (λ given. given ≡ state))) }
        ensures nonempty { RefusedOnlyIfSome result (captured_text range.entry self.now) }
    {
        match range {
            BasicFormattedCaptureRange::Full(state) => self.write_all_rows(sink, state),
            BasicFormattedCaptureRange::Visible => {
                let mut state = BasicFormattedCaptureState::new();
                self.write_visible_rows(sink, &mut state)
            }
        }
    }

    /// Writes all rows of scrollback and the page, continuing from the capture
    /// state `state`.
    fn write_all_rows<S: Sink>(
        &self,
        sink: &mut S,
        state: &mut BasicFormattedCaptureState,
    ) -> Result<(), S::Error>
        ensures { WritesRows S.refuses (S.text sink.old) state.old (all_rows self.now)
            result (S.text sink.new) state.new }
    {
        let end = self.scrollback.stacked_len(self.grid.rows());
        self.write_rows(sink, state, 0, end)
    }

    /// Writes the displayed rows, continuing from the capture state `state`.
    fn write_visible_rows<S: Sink>(
        &self,
        sink: &mut S,
        state: &mut BasicFormattedCaptureState,
    ) -> Result<(), S::Error>
        ensures { WritesRows S.refuses (S.text sink.old) state.old (visible_rows self.now)
            result (S.text sink.new) state.new }
    {
        let rows = self.grid.rows();
        let end = self.scrollback.stacked_len(rows) - self.scrollback.offset();
        self.write_rows(sink, state, end - rows.len(), end)
    }

    /// Writes the rows `start..end`, counted from 0 at the first row of scrollback, continuing from
    /// the capture state `state`.
    fn write_rows<S: Sink>(
        &self,
        sink: &mut S,
        state: &mut BasicFormattedCaptureState,
        start: usize,
        end: usize,
    ) -> Result<(), S::Error>
        requires forward { start ≤ end }
        requires inside { end ≤ length (all_rows self.now) }
        ensures { WritesRows S.refuses (S.text sink.old) state.old (slice_range (all_rows self.now) start end)
            result (S.text sink.new) state.new }
    {
        for index in start..end {
            let row = self.scrollback.stacked_row(self.grid.rows(), index);
            row.write_formatted_basic(sink, state)?;
        }
        Ok(())
    }
}
