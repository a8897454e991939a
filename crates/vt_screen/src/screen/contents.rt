//! The plain text of a screen, without attributes.

ghost use Rattle.std.specs.Prelude.{◌≡◌, ◌≤◌, ◌<◌, ◌+◌, ◌-◌, ◌++◌, ◌↔◌, IfErr, IfSome};
ghost use Rattle.std.specs.Prelude.{IsSome, OnOk, false, length, min, string_bytes, if◌then◌else◌};
ghost use Rattle.std.specs.Prelude.{[], ℕ, IsTrue, IsFalse, slice_index, string_len};
ghost use Rattle.vt_cells.specs.Refusals.{OnlyOutOfMemory};
ghost use Rattle.vt_rows.specs.Plain.{plain_text};
ghost use Rattle.vt_redraw.specs.Refusals.{RefusedOnlyIfSome};
ghost use Rattle.vt_screen.specs.Contents.{between_of, contents_of, gap_line, line_end, lines_of};
ghost use Rattle.vt_screen.specs.Contents.{part_of, row_texts, rows_left, without_line_ends};
ghost use Rattle.vt_screen.specs.MadeOf.{IsMadeOf, plain_controls};
ghost use Rattle.vt_screen.specs.RowsShown.{text_at};
ghost use Rattle.vt_screen.specs.Screen.{visible_row, visible_rows};
ghost use Rattle.vt_screen.specs.TextResults.{AnswersText, IfText};

use crate::rows::Rows;
use crate::screen::Screen;
use std::alloc::Global;
use vt_cells::{Error, Pos, Sink};
use vt_rows::{RowContents, plain};

impl Screen {
    /// Returns the text of the displayed rows, without attributes.
    ///
    /// A row's text ends with its last glyph; blank columns before that glyph
    /// are written as spaces. Each row is followed by `\n`, unless it is
    /// wrapped and a glyph begins on the next row. Trailing newlines are
    /// dropped. Rows of scrollback that are wider than the screen are cut to
    /// its width.
    ///
    /// # Errors
    ///
    /// Returns `Error::OutOfMemory` if the text cannot be allocated.
    pub fn contents(&self) -> Result<String, Error>
        ensures text { IfText result (λ text. text ≡ contents_of self.now) }
        ensures controls { IfText result (IsMadeOf [] plain_controls) }
        ensures memory { OnlyOutOfMemory result }
    {
        let mut text = String::new(self.alloc);
        match self.write_lines(&mut text) {
            Ok(()) => {
                drop_line_ends(&mut text);
                Ok(text)
            }
            Err(_) => Err(Error::OutOfMemory),
        }
    }

    /// Returns the text between two positions, without attributes, as it would
    /// be copied from a selection.
    ///
    /// The text consists of the first row from `start_col` on, the rows in
    /// between, and the last row up to but not including `end_col`. Within a
    /// single row, it consists of the columns `start_col..end_col`. Rows and
    /// columns are zero-based. Each row except the last is followed by `\n`
    /// unless it is wrapped. If `start_row` is less than `end_row`, `start_col`
    /// must be at most the number of columns.
    ///
    /// Rows that aren't displayed have no text, and a range whose end is before
    /// its start is empty. Columns to the right of the screen are read only in
    /// the last row, and only if that row is a wider row of scrollback.
    ///
    /// # Errors
    ///
    /// Returns `Error::OutOfMemory` if the text cannot be allocated. Empty text
    /// needs no allocation.
    pub fn contents_between(
        &self,
        start_row: u16,
        start_col: u16,
        end_row: u16,
        end_col: u16,
    ) -> Result<String, Error>
        requires { start_row < end_row → start_col ≤ self.now.page.width }
        ensures text { IfText result (λ text. text ≡ between_of start_row start_col end_row end_col self.now) }
        ensures controls { IfText result (IsMadeOf [] plain_controls) }
        ensures memory { OnlyOutOfMemory result }
        ensures nonempty { RefusedOnlyIfSome result (between_of start_row start_col end_row end_col self.now) }
    {
        let mut text = String::new(self.alloc);
        let start = Pos {
            row: start_row,
            col: start_col,
        };
        let end = Pos {
            row: end_row,
            col: end_col,
        };
        match self.write_between(&mut text, start, end) {
            Ok(()) => Ok(text),
            Err(_) => Err(Error::OutOfMemory),
        }
    }

    /// Returns an iterator over the plain text of each displayed row, from top
    /// to bottom. Each item is the text of `width` columns, beginning at column
    /// `start`, without a trailing newline.
    ///
    /// `start` is zero-based. Any values of `start` and `width` are allowed:
    /// columns that a row does not have contribute no text. Rows of scrollback
    /// that are wider than the screen are read in full. A wide character is
    /// included if its first column is in the range.
    ///
    /// The iterator yields one item for each row of the screen. An item is an
    /// error if its text cannot be allocated; iteration then continues with the
    /// next row.
    ///
    /// # Examples
    ///
    /// ```text
    /// for text in screen.rows(0, 80) {
    ///     println!("{}", text?);
    /// }
    /// ```
    #[tactic(auto, using(crate::proofs::MadeContents::shown_rows, crate::proofs::MadeContents::rows_made))]
    pub fn rows(&self, start: u16, width: u16) -> Rows<'_>
        ensures texts { rows_left result ≡ row_texts start (start + width) (visible_rows self.now) }
        ensures controls { (r : ℕ) → IsMadeOf [] plain_controls (text_at (rows_left result) r) }
        ensures count { length (rows_left result) ≡ length self.now.page.rows }
    {
        // Only for the proof: this call makes the screen's invariant available.
        self.sound();
        Rows::new(self, start, width)
    }

    /// Returns the plain text of a displayed row in the columns `start..stop`, or
    /// `Error::OutOfMemory` if the text cannot be allocated. Returns `None` if the row does not
    /// exist.
    pub(crate) fn row_text(
        &self,
        row: u16,
        start: usize,
        stop: usize,
    ) -> Option<Result<String, Error>>
        ensures inside { IsSome result ↔ (row < length self.now.page.rows) }
        ensures text { IfSome result
            (λ item. IfText item (λ text. text ≡ plain_text start stop (visible_row self.now row).cells)) }
        ensures memory { IfSome result (λ item. IfErr item (λ error. error ≡ Error.OutOfMemory)) }
        ensures nonempty { IfSome result
            (λ item. RefusedOnlyIfSome item (plain_text start stop (visible_row self.now row).cells)) }
    {
        let found = self.visible_row(row)?;
        Some(text_of(self.alloc, &found, start, stop))
    }

    /// Writes the text of all displayed rows, including newlines.
    #[tactic(auto, using(crate::proofs::MadeContents::lines_more, crate::proofs::MadeContents::lines_done))]
    fn write_lines<S: Sink>(&self, sink: &mut S) -> Result<(), S::Error>
        ensures { OnOk result
            (S.text sink.new ≡ S.text sink.old ++ lines_of self.now.page.width false (visible_rows self.now)) }
    {
        let size = self.grid.size();
        let mut is_wrapped = false;
        for row in 0..size.rows {
            let Some(found) = self.visible_row(row) else {
                return Ok(());
            };
            write_line(sink, &found, usize::from(size.cols), is_wrapped)?;
            is_wrapped = found.wrapped();
        }
        Ok(())
    }

    /// Writes the text from `start` up to but not including `end`. Rows that aren't displayed have
    /// no text.
    #[tactic(auto, using(crate::proofs::MadeContents::parts_more, crate::proofs::MadeContents::parts_done))]
    fn write_between<S: Sink>(&self, sink: &mut S, start: Pos, end: Pos) -> Result<(), S::Error>
        ensures text { OnOk result
            (S.text sink.new ≡ S.text sink.old ++ between_of start.row start.col end.row end.col self.now) }
        ensures nonempty { RefusedOnlyIfSome result (between_of start.row start.col end.row end.col self.now) }
    {
        let size = self.grid.size();
        let past = past_row(end.row, size.rows);
        for row in start.row..past {
            self.write_part(sink, row, start, end)?;
        }
        Ok(())
    }

    /// Writes the part of a row that lies between `start` and `end`, followed
    /// by a newline unless the row is wrapped or is the last row of the range.
    fn write_part<S: Sink>(
        &self,
        sink: &mut S,
        row: u16,
        start: Pos,
        end: Pos,
    ) -> Result<(), S::Error>
        requires { row < length self.now.page.rows }
        ensures text { OnOk result
            (S.text sink.new ≡ S.text sink.old ++ part_of start.row start.col end.row end.col self.now row) }
        ensures nonempty { RefusedOnlyIfSome result (part_of start.row start.col end.row end.col self.now row) }
    {
        let cols = self.grid.size().cols;
        let Some(found) = self.visible_row(row) else {
            return Ok(());
        };
        let first = column_if(row == start.row, start.col, 0);
        let past = column_if(row == end.row, end.col, cols);
        plain::write_contents(sink, found.cells(), usize::from(first), usize::from(past))?;
        write_end_unless(sink, row == end.row, &found)
    }
}

/// Returns `column` if `test` is true, and `other` otherwise.
fn column_if(test: bool, column: u16, other: u16) -> u16
    ensures { result ≡ (if test then column else other) }
{
    if test { column } else { other }
}

/// Returns the index of the row after `row`, or `rows` if `row` is not less than `rows`.
fn past_row(row: u16, rows: u16) -> u16
    ensures { result ≡ min (row + 1) rows }
{
    if row < rows { row + 1 } else { rows }
}

/// Returns the plain text of a row in the columns `start..stop`.
///
/// # Errors
///
/// Returns `Error::OutOfMemory` if the text cannot be allocated. Empty text
/// needs no allocation.
fn text_of(alloc: Global, row: &RowContents<'_>, start: usize, stop: usize) -> Result<String, Error>
    ensures { AnswersText result (plain_text start stop row.now.cells) }
{
    let mut text = String::new(alloc);
    match plain::write_contents(&mut text, row.cells(), start, stop) {
        Ok(()) => Ok(text),
        Err(_) => Err(Error::OutOfMemory),
    }
}

/// Writes the text of a row, cut to `cols` columns, followed by a newline unless the row is
/// wrapped. Before the text, writes a newline if no glyph begins in this row and the previous row
/// is wrapped (`is_wrapped`).
fn write_line<S: Sink>(
    sink: &mut S,
    row: &RowContents<'_>,
    cols: usize,
    is_wrapped: bool,
) -> Result<(), S::Error>
    ensures { OnOk result (S.text sink.new
        ≡ S.text sink.old ++ (gap_line cols is_wrapped row.now ++ (plain_text 0 cols row.now.cells ++ line_end row.now))) }
{
    write_gap_line(sink, row, cols, is_wrapped)?;
    plain::write_contents(sink, row.cells(), 0, cols)?;
    write_line_end(sink, row)
}

/// Writes a newline if no glyph begins in the row and the previous row is
/// wrapped (`is_wrapped`).
fn write_gap_line<S: Sink>(
    sink: &mut S,
    row: &RowContents<'_>,
    cols: usize,
    is_wrapped: bool,
) -> Result<(), S::Error>
    ensures { OnOk result (S.text sink.new ≡ S.text sink.old ++ gap_line cols is_wrapped row.now) }
{
    if is_wrapped && !plain::has_contents(row.cells(), 0, cols) {
        sink.write_str("\n")
    } else {
        Ok(())
    }
}

/// Writes a newline after a row, unless the row is wrapped.
fn write_line_end<S: Sink>(sink: &mut S, row: &RowContents<'_>) -> Result<(), S::Error>
    ensures text { OnOk result (S.text sink.new ≡ S.text sink.old ++ line_end row.now) }
    ensures nonempty { RefusedOnlyIfSome result (line_end row.now) }
{
    if row.wrapped() {
        Ok(())
    } else {
        sink.write_str("\n")
    }
}

/// Writes a newline after a row, unless the row is wrapped or is the last row
/// of the range (`is_last`).
fn write_end_unless<S: Sink>(
    sink: &mut S,
    is_last: bool,
    row: &RowContents<'_>,
) -> Result<(), S::Error>
    ensures text { OnOk result
        (S.text sink.new ≡ S.text sink.old ++ (if is_last then [] else line_end row.now)) }
    ensures nonempty { RefusedOnlyIfSome result (if is_last then [] else line_end row.now) }
{
    if is_last {
        Ok(())
    } else {
        write_line_end(sink, row)
    }
}

/// Removes the trailing newlines from a string.
#[tactic(auto, using(crate::proofs::MadeContents::trim_more))]
fn drop_line_ends(text: &mut String)
    ensures { string_bytes text.new ≡ without_line_ends (string_bytes text.old) }
{
    while ends_line(text) {
        text.pop();
    }
}

/// Returns whether a string ends with a newline.
#[tactic(auto, using(crate::proofs::MadeContents::trim_none, crate::proofs::MadeContents::trim_other))]
fn ends_line(text: &String) -> bool
    ensures yes { IsTrue result →
        (0 < length (string_bytes text.now))
        × (slice_index (string_bytes text.now) (length (string_bytes text.now) - 1) ≡ 0x0A) }
    ensures no { IsFalse result → without_line_ends (string_bytes text.now) ≡ string_bytes text.now }
    ensures len { length (string_bytes text.now) ≡ string_len text.now }
{
    let bytes = text.as_bytes();
    if bytes.is_empty() {
        return false;
    }
    bytes[bytes.len() - 1] == b'\n'
}
