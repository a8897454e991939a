//! The rows of a picture, borrowed from where they are stored.

ghost use Rattle.std.specs.Prelude.{◌≡◌, ◌+◌, ◌<◌, ◌≤◌, ◌&&◌, ℕ, drop, false};
ghost use Rattle.std.specs.Prelude.{All, length, not, slice_index_or, take, true};
ghost use Rattle.vt_cells.specs.Attrs.{default_attrs};
ghost use Rattle.vt_cells.specs.Cell.{CellValue, is_blank};
ghost use Rattle.vt_rows.specs.Cells.{IsPaired, at, ends_blank, cells_after_resize};
ghost use Rattle.vt_rows.specs.Row.{RowValue, blank_row};
ghost use Rattle.vt_redraw.specs.Internals.{cut_row, cell_past_cut, kept_len};
ghost use Rattle.vt_redraw.specs.Script.{is_blank_of, is_torn, last_column, blank_run};

use std::marker::Model;
use vt_cells::cell_runs::same_run;
use vt_cells::{Attrs, Cell, cell};
use vt_rows::RowContents;
use vt_rows::capture::cells_of;

/// A row of a picture, as wide as the picture: the stored cells of a page row or
/// scrollback row, followed by blanks that are all alike.
///
/// No cell is copied. A wide character that the picture's right edge cuts in
/// two is replaced with a blank.
#[derive(Drop)]
pub struct PictureRow<'a> {
    cells: &'a [Cell],
    end: Cell,
    cols: u16,
    wrapped: bool,
}

impl<'a> Model for PictureRow<'a> {
    ghost use Rattle.vt_redraw.specs.Internals.{IsFilled, cells_filled_to};
    ghost use Rattle.vt_rows.specs.Row.{RowValue};

    ghost Value = { RowValue };

    ghost view = { λ r. record { cells = cells_filled_to r.cells.now r.cols r.end; wrapped = r.wrapped } };

    ghost invariant = { λ r. IsFilled r.cells.now r.cols r.end };
}

impl<'a> PictureRow<'a> {
    /// Creates a row of default blanks that is not wrapped.
    pub fn blank(cols: u16) -> PictureRow<'a>
        ensures { result ≡ blank_row default_attrs cols }
    {
        PictureRow {
            cells: &[],
            end: cell::default_blank(),
            cols,
            wrapped: false,
        }
    }

    /// Creates a picture row from `row`, cut or extended to `cols` columns. The
    /// picture row is wrapped if `row` is wrapped, unless its last column is
    /// blank after the cut or it is the last row of the picture (`is_last`).
    #[tactic(auto, using(crate::proofs::Filling::resized_columns))]
    pub fn cut(row: &RowContents<'a>, cols: u16, is_last: bool) -> PictureRow<'a>
        requires nonempty { 0 < cols }
        requires paired { IsPaired row.now.cells }
        ensures { result ≡ cut_row is_last cols row.now }
    {
        let mut cut = PictureRow::unwrapped(cells_of(row), cols);
        let is_wrapped = cut.is_wrapped_after_cut(row.wrapped(), is_last);
        cut.wrapped = is_wrapped;
        cut
    }

    /// Returns whether the row is wrapped after it has been cut. It is wrapped if it was wrapped
    /// before (`wrapped`), its last column is not blank, and it is not the last row of the picture
    /// (`is_last`).
    fn is_wrapped_after_cut(&self, wrapped: bool, is_last: bool) -> bool
        requires { 0 < length self.now.cells }
        ensures { result ≡ (not is_last && (wrapped && not (ends_blank self.now.cells))) }
    {
        !is_last && wrapped && !self.ends_blank()
    }

    /// Creates an unwrapped picture row from `cells`, cut or extended to `cols`
    /// columns.
    #[tactic(auto, using(crate::proofs::Filling::filled_resized, crate::proofs::Filling::kept_inside))]
    fn unwrapped(cells: &'a [Cell], cols: u16) -> PictureRow<'a>
        requires nonempty { 0 < cols }
        requires paired { IsPaired cells.now }
        ensures cells { result.cells ≡ cells_after_resize cols cells.now }
        ensures wrapped { result.wrapped ≡ false }
    {
        let kept = kept_cells(cells, cols);
        let end = end_cell(cells, cols);
        PictureRow {
            cells: kept,
            end,
            cols,
            wrapped: false,
        }
    }

    /// Returns a row that consists of the first `stop` columns of this row and is wrapped if this
    /// row is.
    #[tactic(auto, using(crate::proofs::Filling::filled_taken))]
    pub fn up_to(&self, stop: u16) -> PictureRow<'_>
        requires { stop ≤ length self.now.cells }
        ensures cells { result.cells ≡ take stop self.now.cells }
        ensures wrapped { result.wrapped ≡ self.now.wrapped }
    {
        let kept = self.cells.len().min(usize::from(stop));
        PictureRow {
            cells: &self.cells[..kept],
            end: self.end,
            cols: stop,
            wrapped: self.wrapped,
        }
    }

    /// Returns the number of columns of the row.
    #[inline]
    pub fn cols(&self) -> u16
        ensures { result ≡ length self.now.cells }
    {
        self.cols
    }

    /// Returns the number of stored cells of the row. The columns after them
    /// are identical blanks.
    #[inline]
    pub fn own_len(&self) -> usize
        ensures { result ≤ length self.now.cells }
    {
        self.cells.len()
    }

    /// Returns the stored cells of the row. All columns after them are blanks.
    #[inline]
    pub fn own_cells(&self) -> &'a [Cell]
        ensures inside { length result.now ≤ length self.now.cells }
        ensures first { result.now ≡ take (length result.now) self.now.cells }
        ensures blank { All (λ cell. is_blank cell ≡ true) (drop (length result.now) self.now.cells) }
    {
        self.cells
    }

    /// Returns the cell in column `col`, counted from 0.
    #[inline]
    pub fn cell(&self, col: u16) -> &Cell
        requires { col < length self.now.cells }
        ensures { result.now ≡ at self.now.cells col }
    {
        let col = usize::from(col);
        if col < self.cells.len() {
            &self.cells[col]
        } else {
            &self.end
        }
    }

    /// Returns a lower bound on the number of consecutive columns, starting at `col`, in which this
    /// row and `other` have equal cells. Only stored cells are compared, four at a time.
    pub fn same_run(&self, other: &PictureRow<'_>, col: u16) -> usize
        ensures inside { 0 < result → col + result ≤ length self.now.cells }
        ensures same { (k : ℕ) → k < result
            → at self.now.cells (col + k) ≡ at other.now.cells (col + k) }
    {
        let start = usize::from(col);
        let stop = self.cells.len().min(other.cells.len());
        if stop <= start {
            return 0;
        }
        same_run(&self.cells[start..stop], &other.cells[start..stop])
    }

    /// Returns a lower bound on the number of consecutive stored cells of this row, starting at
    /// column `col`, that equal the blank that fills `other` after its last stored cell. Returns 0
    /// if `other` has a stored cell at or after `col`.
    pub fn end_run(&self, other: &PictureRow<'_>, col: u16) -> usize
        ensures inside { 0 < result → col + result ≤ length self.now.cells }
        ensures same { (k : ℕ) → k < result
            → at self.now.cells (col + k) ≡ at other.now.cells (col + k) }
    {
        let start = usize::from(col);
        let stop = self.cells.len().min(usize::from(other.cols));
        if start < other.cells.len() || stop <= start {
            return 0;
        }
        blank_run(&self.cells[start..stop], &other.end)
    }

    /// Returns whether the row is wrapped.
    #[inline]
    pub fn wrapped(&self) -> bool
        ensures { result ≡ self.now.wrapped }
    {
        self.wrapped
    }

    /// Returns whether the last column is blank.
    #[inline]
    pub fn ends_blank(&self) -> bool
        requires { 0 < length self.now.cells }
        ensures { result ≡ ends_blank self.now.cells }
    {
        cell::is_blank(self.cell(self.cols - 1))
    }

    /// Returns the first column of the glyph or blank that covers the last
    /// column.
    pub fn last_col(&self) -> u16
        requires nonempty { 0 < length self.now.cells }
        requires paired { IsPaired self.now.cells }
        ensures value { result ≡ last_column self.now.cells }
        ensures inside { result < length self.now.cells }
    {
        let last = self.cols - 1;
        if self.cell(last).is_wide_continuation() {
            return last - 1;
        }
        last
    }

    /// Returns whether `col` is the last column and holds a continuation cell.
    #[inline]
    #[tactic(auto, using(crate::proofs::Filling::torn_at))]
    pub fn is_torn(&self, col: u16) -> bool
        ensures { result ≡ is_torn (drop col self.now.cells) }
    {
        usize::from(col) + 1 == usize::from(self.cols()) && self.cell(col).is_wide_continuation()
    }

    /// Returns the number of consecutive blanks with attributes `attrs`,
    /// starting at column `col`.
    pub fn run(&self, col: u16, attrs: Attrs) -> u16
        requires { col ≤ length self.now.cells }
        ensures value { result ≡ blank_run attrs (drop col self.now.cells) }
        ensures inside { col + result ≤ length self.now.cells }
    {
        let cols = self.cols();
        let mut end = col;
        while end < cols && is_blank_of(self.cell(end), attrs) {
            end += 1;
        }
        end - col
    }
}

/// Returns the cells of a row that are unchanged when the row is cut to `cols`
/// columns.
fn kept_cells<'a>(cells: &'a [Cell], cols: u16) -> &'a [Cell]
    requires { 0 < cols }
    ensures { result.now ≡ take (kept_len cols cells.now) cells.now }
{
    let cols = usize::from(cols);
    if cells.len() <= cols {
        return cells;
    }
    if cells[cols - 1].is_wide() {
        return &cells[..cols - 1];
    }
    &cells[..cols]
}

/// Returns the cell that follows the unchanged cells when a row is cut to
/// `cols` columns. It is a blank with the attributes of the wide character that
/// is cut in two, or a default blank if no wide character is cut.
fn end_cell(cells: &[Cell], cols: u16) -> Cell
    requires { 0 < cols }
    ensures { result ≡ cell_past_cut cols cells.now }
{
    let cols = usize::from(cols);
    if cols < cells.len() && cells[cols - 1].is_wide() {
        return cell::blank(cell::attrs(&cells[cols - 1]));
    }
    cell::default_blank()
}

/// Returns the number of leading cells that equal the blank `end`. Only attributes, widths and text
/// lengths are compared, which suffices because a blank has no text.
#[inline(always)]
fn blank_run(cells: &[Cell], end: &Cell) -> usize
    requires { is_blank end.now ≡ true }
    ensures own { result ≤ length cells.now }
    ensures same { (k : ℕ) (d : CellValue) → k < result → slice_index_or cells.now k d ≡ end.now }
{
    let mut count = 0;
    while count < cells.len() && cell::has_head_of(&cells[count], end) {
        count += 1;
    }
    count
}

/// Returns whether a cell is a blank with attributes `attrs`.
#[inline]
pub fn is_blank_of(cell: &Cell, attrs: Attrs) -> bool
    ensures { result ≡ is_blank_of attrs cell.now }
{
    cell::is_blank(cell) && cell::has_attrs(cell, &attrs)
}
