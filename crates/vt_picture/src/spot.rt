//! The contents of a row as glyphs and blanks, each with its position, colors and style.

ghost use Rattle.std.specs.Prelude.{◌≡◌, ◌+◌, ◌<◌, ◌-◌, ◌&&◌, IfSome, IsAscii, IsSome, IsTrue, None, false, min, not, true};
ghost use Rattle.vt_cells.specs.Cell.{attrs_of, text_of};
ghost use Rattle.vt_picture.specs.Spots.{columns_of, covers_column, has_block, has_no_ink, inverted_paint, mark_of, paint_of, paint_on};

use crate::color::{INK, PAPER, Rgb};
use std::alloc::{AllocError, Global};
use vt100::{Cell, CursorStyle, Screen};

/// A glyph or a blank of a row, with its position, colors and style.
#[derive(Clone, Copy)]
pub struct Spot<'a> {
    pub col: u16,

    /// The number of columns: 1, or 2 for a wide glyph.
    pub cols: u16,

    /// The text, empty for a blank.
    pub text: &'a str,
    pub paint: Paint,
}

/// The colors and the style of a glyph.
#[derive(Clone, Copy, PartialEq, Eq)]
pub struct Paint {
    pub ink: Rgb,
    pub paper: Rgb,
    pub bold: bool,
    pub italic: bool,
    pub underline: bool,
}

/// The way in which the cursor marks the cell that it is on.
#[derive(Clone, Copy, PartialEq, Eq)]
pub enum Mark {
    /// The foreground and background colors of the cell are exchanged.
    Block,

    /// A line is drawn at the bottom of the cell.
    Underline,

    /// A line is drawn at the left edge of the cell.
    Bar,
}

impl Spot<'_> {
    /// Returns whether the spot has nothing that is drawn in the text color.
    pub fn is_blank(&self) -> bool
        ensures { result ≡ (has_no_ink self.now.text.now && not self.now.paint.underline) }
    {
        let is_empty = self.text.is_empty() || self.text == " ";
        is_empty && !self.paint.underline
    }

    /// Returns whether the spot and `next` can be drawn as a single run of text: both are ASCII and
    /// have the same colors and style.
    ///
    /// A glyph outside ASCII may come from a font of a different width and would then shift the
    /// glyphs after it.
    pub fn goes_on_in(&self, next: &Spot<'_>) -> bool
        ensures ascii { IsTrue result → IsAscii self.now.text.now × IsAscii next.now.text.now }
        ensures paint { IsTrue result → self.now.paint ≡ next.now.paint }
        ensures joined { IsAscii self.now.text.now → IsAscii next.now.text.now → self.now.paint ≡ next.now.paint → result ≡ true }
    {
        let is_ascii = self.text.is_ascii() && next.text.is_ascii();
        is_ascii && self.paint == next.paint
    }

    /// Returns the column after the spot.
    pub fn end(&self) -> u32
        ensures { result ≡ self.now.col + self.now.cols }
    {
        u32::from(self.col) + u32::from(self.cols)
    }

    /// Returns whether the spot covers a column.
    pub fn covers(&self, col: u16) -> bool
        ensures { result ≡ covers_column self.now.col self.now.cols col }
    {
        self.col <= col && u32::from(col) < self.end()
    }
}

impl Paint {
    /// Returns the colors and style of a cell. Inverse video exchanges the two colors, and the
    /// color of dim text is halfway to its background.
    fn of(cell: &Cell) -> Paint
        ensures { result ≡ paint_of (attrs_of cell.now) }
    {
        let ink = Rgb::of(cell.fgcolor(), INK);
        let paper = Rgb::of(cell.bgcolor(), PAPER);
        let (ink, paper) = if cell.inverse() {
            (paper, ink)
        } else {
            (ink, paper)
        };
        Paint {
            ink: if cell.dim() { ink.mixed(paper) } else { ink },
            paper,
            bold: cell.bold(),
            italic: cell.italic(),
            underline: cell.underline(),
        }
    }

    /// Returns a copy with the foreground and background colors exchanged.
    fn inverted(self) -> Paint
        ensures { result ≡ inverted_paint self }
    {
        Paint {
            ink: self.paper,
            paper: self.ink,
            ..self
        }
    }
}

impl Mark {
    /// Returns the marking for a cursor style. A blinking cursor is drawn as a steady one.
    pub fn of(style: CursorStyle) -> Mark
        ensures { result ≡ mark_of style }
    {
        match style {
            CursorStyle::Default | CursorStyle::BlinkBlock | CursorStyle::SteadyBlock => {
                Mark::Block
            }
            CursorStyle::BlinkUnderline | CursorStyle::SteadyUnderline => Mark::Underline,
            CursorStyle::BlinkVerticalBar | CursorStyle::SteadyVerticalBar => Mark::Bar,
        }
    }
}

/// Returns the column of the cursor if the cursor is visible and in this row. Returns the last
/// column if a wrap is pending.
pub fn cursor_col(screen: &Screen, row: u16) -> Option<u16>
    ensures inside { IfSome result (λ col. col < screen.now.page.width) }
    ensures hidden { screen.now.hidden ≡ true → result ≡ None }
    ensures row { IfSome result (λ col. row ≡ screen.now.page.row) }
    ensures column { IfSome result (λ col. col ≡ min screen.now.page.column (screen.now.page.width - 1)) }
    ensures visible { screen.now.hidden ≡ false → screen.now.page.row ≡ row → IsSome result }
{
    let (_, cols) = screen.size();
    let (cursor_row, cursor_col) = screen.cursor_position();
    if screen.hide_cursor() || cursor_row != row {
        return None;
    }
    Some(cursor_col.min(cols.get() - 1))
}

/// Returns the glyphs and blanks of a row, from left to right. A wide glyph and its continuation
/// cell are one spot.
pub fn spots_of(alloc: Global, screen: &Screen, row: u16) -> Result<Vec<Spot<'_>>, AllocError> {
    let (_, cols) = screen.size();
    let mut spots = Vec::new(alloc);
    for col in 0..cols.get() {
        if let Some(cell) = screen.cell(row, col)
            && !cell.is_wide_continuation()
        {
            spots.push(seen_spot(screen, row, col, cell))?;
        }
    }
    Ok(spots)
}

/// Returns the glyph or the blank of the cell at a position. A block cursor exchanges its colors.
fn seen_spot<'a>(screen: &Screen, row: u16, col: u16, cell: &'a Cell) -> Spot<'a>
    ensures col { result.col ≡ col }
    ensures cols { result.cols ≡ columns_of cell.now }
    ensures text { result.text.now ≡ text_of cell.now }
    ensures paint { result.paint ≡ paint_on screen.now row col cell.now }
{
    let plain = Spot {
        col,
        cols: if cell.is_wide() { 2 } else { 1 },
        text: cell.contents(),
        paint: Paint::of(cell),
    };
    if is_under_block(screen, row, &plain) {
        return Spot {
            paint: plain.paint.inverted(),
            ..plain
        };
    }
    plain
}

/// Returns whether a visible block cursor is on the spot, which is in row `row`.
fn is_under_block(screen: &Screen, row: u16, spot: &Spot<'_>) -> bool
    ensures { result ≡ has_block screen.now row spot.now.col spot.now.cols }
{
    match Mark::of(screen.cursor_style()) {
        Mark::Block => match cursor_col(screen, row) {
            Some(col) => spot.covers(col),
            None => false,
        },
        Mark::Underline | Mark::Bar => false,
    }
}
