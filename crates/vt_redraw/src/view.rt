//! A view of what a screen displays, borrowed from its pages.

ghost use Rattle.std.specs.Prelude.{◌≡◌, ◌<◌, ◌+◌, ◌==◌, IfSome, length};
ghost use Rattle.vt_grid.specs.Page.{IsPage, row_or};
ghost use Rattle.vt_grid.specs.Scrollback.{IsScrollback, visible};
ghost use Rattle.vt_rows.specs.Cells.{IsPaired, cells_after_resize};
ghost use Rattle.vt_rows.specs.Row.{IsRow};
ghost use Rattle.vt_redraw.specs.Internals.{IsPageUnder, row_seen};
ghost use Rattle.vt_redraw.specs.Moved.{IsBand, picture_after_move, rows_moved};
ghost use Rattle.vt_redraw.specs.Picture.{IsPicture, cut_rows, picture_over};
ghost use Rattle.vt_redraw.specs.Doubts.{is_past_uncertain};
ghost use Rattle.vt_redraw.specs.Redraw.{blank_like, pen_of, starts_shifted};
ghost use Rattle.vt_redraw.specs.declared.form.Form.TheVariants.{Fixed};

use crate::band::Band;
use crate::form::{Form, shifts};
use crate::pen::Pen;
use crate::picture_row::PictureRow;
use std::marker::Model;
use vt_cells::{Attrs, Cell};
use vt_grid::{Grid, PageRows, Scrollback};
use vt_rows::capture::cells_of;

/// The origin of a picture's rows.
#[derive(Clone, Copy, PartialEq, Eq, Debug)]
pub(crate) enum Source {
    /// The displayed rows of a screen.
    InView,

    /// Default blank rows, one for each row of the screen.
    Blank,

    /// The displayed rows of a screen after a band of them has moved.
    Moved(Band),
}

/// A borrowed picture of a screen: its displayed rows, each cut to the screen's
/// columns, the cursor, the attributes, and whether the cursor is hidden. No
/// rows are copied.
#[derive(Drop)]
pub struct View<'a> {
    above: &'a Scrollback,
    rows: &'a PageRows,
    cols: u16,
    pen: Pen,
    hidden: bool,
    source: Source,
}

impl<'a> Model for View<'a> {
    ghost use Rattle.std.specs.Prelude.{◌≡◌};
    ghost use Rattle.vt_redraw.specs.Internals.{IsSource, picture_of_source};
    ghost use Rattle.vt_redraw.specs.Picture.{Picture};

    ghost Value = { Picture };

    ghost view = { λ v. picture_of_source v.source v.above.now v.rows.now.rows v.cols v.pen v.hidden };

    ghost invariant = { λ v. IsSource v.above.now v.rows.now.rows v.cols v.pen × (v.rows.now.width ≡ v.cols) };
}

impl<'a> View<'a> {
    /// Creates a view of the page `grid` with `above` as its scrollback and `attrs` as the current
    /// attributes. `hidden` is true if the cursor is hidden.
    pub fn new(above: &'a Scrollback, grid: &'a Grid, attrs: Attrs, hidden: bool) -> View<'a>
        requires above { IsScrollback above.now }
        requires page { IsPage grid.now }
        ensures value { result
            ≡ picture_over (visible above.now grid.now.rows)
            (record { page = grid.now; attrs = attrs; saved_attrs = attrs; hidden = hidden }) }
        ensures sound { IsPicture result }
    {
        let pos = grid.pos();
        let pen = Pen {
            row: pos.row,
            col: pos.col,
            attrs,
            form: Form::Fixed,
            is_shifted: false,
        };
        View {
            above,
            rows: grid.rows(),
            cols: grid.size().cols,
            pen,
            hidden,
            source: Source::InView,
        }
    }

    /// Creates a view of what a terminal displays after moving `band`, if it previously displayed
    /// the page `grid` with `above` as its scrollback. The view has default attributes, and its
    /// cursor is in the first column of the row that [`Band::last_moved`] returns. `hidden` is true
    /// if the cursor is hidden.
    pub fn moved(above: &'a Scrollback, grid: &'a Grid, hidden: bool, band: Band) -> View<'a>
        requires above { IsScrollback above.now }
        requires page { IsPage grid.now }
        requires band { IsBand (length grid.now.rows) band }
        ensures { (attrs : Attrs) → result
            ≡ picture_after_move band (picture_over (visible above.now grid.now.rows)
            (record { page = grid.now; attrs = attrs; saved_attrs = attrs; hidden = hidden })) }
    {
        let size = grid.size();
        let pen = Pen {
            row: band.last_moved(size.rows),
            col: 0,
            attrs: Attrs::new(),
            form: Form::Fixed,
            is_shifted: false,
        };
        View {
            above,
            rows: grid.rows(),
            cols: size.cols,
            pen,
            hidden,
            source: Source::Moved(band),
        }
    }

    /// Creates a view of the same size as this one, with default blanks,
    /// default attributes, and the cursor in the top left corner.
    pub fn blanked(&self) -> View<'a>
        ensures { result ≡ blank_like self.now }
    {
        View {
            above: self.above,
            rows: self.rows,
            cols: self.cols,
            pen: Pen::new(),
            hidden: self.hidden,
            source: Source::Blank,
        }
    }

    /// Returns the number of rows of the picture.
    #[inline]
    pub fn rows(&self) -> u16
        ensures value { result ≡ length self.now.rows }
        ensures nonempty { 0 < length self.now.rows }
    {
        self.rows.len() as u16
    }

    /// Returns the number of columns of the picture.
    #[inline]
    pub fn cols(&self) -> u16
        ensures value { result ≡ self.now.width }
        ensures nonempty { 0 < self.now.width }
    {
        self.cols
    }

    /// Returns the position of the cursor and the current attributes, as a pen that writes the fixed
    /// form.
    #[inline]
    pub fn pen(&self) -> Pen
        ensures value { result ≡ pen_of Fixed self.now }
        ensures inside { self.now.row < length self.now.rows }
    {
        self.pen_in(Form::Fixed)
    }

    /// Returns the position of the cursor and the current attributes, as a pen that writes the given
    /// form.
    #[inline]
    pub fn pen_in(&self, form: Form) -> Pen
        ensures value { result ≡ pen_of form self.now }
        ensures inside { self.now.row < length self.now.rows }
    {
        Pen {
            row: self.pen.row,
            col: self.pen.col,
            attrs: self.pen.attrs,
            form,
            is_shifted: self.starts_shifted(form),
        }
    }

    /// Returns whether terminals that display the picture may differ in the cursor's position, because
    /// a wrap is pending after a glyph on whose width they may disagree. Always returns `false` in the
    /// fixed form, which does not take this into account.
    #[inline]
    fn starts_shifted(&self, form: Form) -> bool
        ensures { result
            ≡ starts_shifted form self.now.width self.now.row self.now.column self.now.rows }
    {
        match form {
            Form::Fixed => false,
            Form::Portable => self.is_past_uncertain(),
        }
    }

    /// Returns whether a wrap is pending after a glyph on whose width terminals may disagree.
    #[tactic(auto, unfolding(crate::specs::Doubts::is_past_uncertain))]
    fn is_past_uncertain(&self) -> bool
        ensures { result ≡ is_past_uncertain self.now.width self.now.row self.now.column self.now.rows }
    {
        if self.pen.col < self.cols {
            return false;
        }
        let row = self.row(self.pen.row);
        !row.ends_blank() && shifts(Form::Portable, row.cell(row.last_col()))
    }

    /// Returns whether the cursor is hidden.
    #[inline]
    pub fn hidden(&self) -> bool
        ensures { result ≡ self.now.hidden }
    {
        self.hidden
    }

    /// Returns the row of the picture at index `row`, counted from 0.
    #[inline(always)]
    pub fn row(&self, row: u16) -> PictureRow<'_>
        requires { row < length self.now.rows }
        ensures value { result ≡ row_or self.now.width self.now.rows row }
        ensures sound { IsRow self.now.width result }
        ensures nonempty { 0 < length result.cells }
    {
        match self.source {
            Source::InView => row_seen(self.above, self.rows, self.cols, row, false),
            Source::Blank => PictureRow::blank(self.cols),
            Source::Moved(band) => row_moved(self.above, self.rows, self.cols, band, row),
        }
    }

    /// Returns the stored cells from which row `row` of the picture is cut, or
    /// `None` if the picture's source is not [`Source::InView`].
    #[inline]
    pub(crate) fn uncut_cells(&self, row: u16) -> Option<&[Cell]>
        requires { row < length self.now.rows }
        ensures cells { IfSome result (λ cells.
            (row_or self.now.width self.now.rows row).cells ≡ cells_after_resize self.now.width cells.now) }
        ensures paired { IfSome result (λ cells. IsPaired cells.now) }
        ensures sound { IsRow self.now.width (row_or self.now.width self.now.rows row) }
        ensures nonempty { 0 < self.now.width }
    {
        match self.source {
            Source::InView => {}
            _ => return None,
        }
        let found = self.above.visible_row(self.rows, row)?;
        Some(cells_of(&found))
    }
}

/// Returns the displayed row at index `row`, cut or extended to `cols` columns, or a blank row if
/// there is no such row. The result is not wrapped if `is_last` is true or `row` is the last row of
/// the page.
#[inline(always)]
fn row_seen<'a>(
    above: &'a Scrollback,
    rows: &'a PageRows,
    cols: u16,
    row: u16,
    is_last: bool,
) -> PictureRow<'a>
    requires { IsPageUnder above.now rows.now.width rows.now.rows cols }
    ensures { result ≡ row_seen is_last cols (visible above.now rows.now.rows) row }
{
    let last = is_last | ends(rows, row);
    match above.visible_row(rows, row) {
        Some(found) => PictureRow::cut(&found, cols, last),
        None => PictureRow::blank(cols),
    }
}

/// Returns whether `row` is the last row of a page.
fn ends(rows: &PageRows, row: u16) -> bool
    ensures { result ≡ (row + 1 == length rows.now.rows) }
{
    usize::from(row) + 1 == rows.len()
}

/// Returns row `row` of a picture after a band of its rows has moved. The row is borrowed from
/// where it was before the move.
fn row_moved<'a>(
    above: &'a Scrollback,
    rows: &'a PageRows,
    cols: u16,
    band: Band,
    row: u16,
) -> PictureRow<'a>
    requires page { IsPageUnder above.now rows.now.width rows.now.rows cols }
    requires inside { row < length rows.now.rows }
    ensures { result ≡ row_or cols (rows_moved cols band (cut_rows cols (visible above.now rows.now.rows))) row }
{
    match band.source(row) {
        Some(from) => row_seen(above, rows, cols, from, ends(rows, row)),
        None => PictureRow::blank(cols),
    }
}
