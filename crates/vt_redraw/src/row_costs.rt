//! The approximate number of bytes that it takes to draw rows of a picture.
//!
//! Throughout this module, only the first `height` rows are examined, and `here` holds the costs of
//! these rows if no rows are moved (see [`cost_at`]).

ghost use Rattle.std.specs.Prelude.{◌<◌, ◌≤◌, length};
ghost use Rattle.vt_redraw.specs.Picture.{SamePictureSize};

use crate::picture_row::PictureRow;
use crate::view::View;
use vt_cells::{Attrs, Cell, cell};

/// The approximate number of bytes that it takes to move the cursor within a row, or to erase a run
/// of blanks. Diffs of recorded streams are shortest with this value.
pub(crate) const RUN: i32 = 3;

/// The cost of each of the first 256 rows: the approximate number of bytes that it takes to draw the
/// row, or [`UNKNOWN`] if it has not been computed yet.
pub(crate) type Numbers = [i32; 256];

/// The cost of a row for which it has not been computed yet.
pub(crate) const UNKNOWN: i32 = -1;

/// Returns the approximate number of bytes that it takes to draw row `row` of `view` over the
/// corresponding row of `prev`. Computes this number and stores it in `here` unless `here` already
/// contains it.
pub(crate) fn cost_at(here: &mut Numbers, view: &View<'_>, prev: &View<'_>, row: u16) -> i32
    requires size { SamePictureSize view.now prev.now }
    requires inside { row < length view.now.rows }
    requires few { row < 256 }
{
    let known = here[usize::from(row)];
    if known != UNKNOWN {
        return known;
    }
    let new = cost(&view.row(row), &prev.row(row));
    here[usize::from(row)] = new;
    new
}

/// Stores the costs of the first `height` rows in `here` (see [`cost_at`]).
pub(crate) fn add_costs(here: &mut Numbers, view: &View<'_>, prev: &View<'_>, height: u16)
    requires size { SamePictureSize view.now prev.now }
    requires inside { height ≤ length view.now.rows }
    requires few { height ≤ 256 }
{
    for row in 0..height {
        cost_at(here, view, prev, row);
    }
}

/// Returns the approximate number of bytes that it takes to draw the row `cells` over the row
/// `over`. Assumes that the columns after the stored cells of a row are default blanks.
pub(crate) fn cost(cells: &PictureRow<'_>, over: &PictureRow<'_>) -> i32 {
    let own = cells.own_cells();
    let others = over.own_cells();
    let stored = own.len().min(others.len());
    let blank = cell::default_blank();
    let mut tally = Tally::new();
    for col in cells.same_run(over, 0)..stored {
        if own[col] == others[col] {
            // A continuation cell may be drawn with the glyph before it.
            if !own[col].is_wide_continuation() {
                tally.pass();
            }
        } else {
            tally.draw(&own[col]);
        }
    }
    tally.draw_over_blanks(&own[stored..]);
    for cell in &others[stored..] {
        if cell::has_head_of(cell, &blank) {
            tally.pass();
        } else {
            tally.draw(&blank);
        }
    }
    tally.bytes
}

/// Returns the approximate number of bytes that it takes to draw a row over default blanks.
pub(crate) fn fresh_cost(cells: &PictureRow<'_>) -> i32 {
    let mut tally = Tally::new();
    tally.draw_over_blanks(cells.own_cells());
    tally.bytes
}

/// The approximate number of bytes that it takes to draw the leading cells of a row.
#[derive(Drop)]
struct Tally {
    bytes: i32,

    /// The number of bytes that it takes, in addition to those of its text, to draw the next cell
    /// if it is a glyph.
    before_glyph: i32,

    /// The number of bytes that it takes to erase the next cell and the blanks after it, if the
    /// next cell is a blank.
    before_blank: i32,
}

impl Tally {
    /// Creates a tally in which no cell has been counted yet.
    fn new() -> Tally {
        Tally {
            bytes: 0,
            before_glyph: RUN,
            before_blank: 2 * RUN,
        }
    }

    /// Counts a cell that is drawn. A glyph takes one byte. The first blank of a run takes [`RUN`]
    /// bytes, which erase the whole run. The first of several consecutive drawn cells takes [`RUN`]
    /// more bytes, which move the cursor to it.
    #[inline(always)]
    fn draw(&mut self, cell: &Cell) {
        if cell::is_blank(cell) {
            self.bytes = self.bytes.wrapping_add(self.before_blank);
            self.before_blank = 0;
        } else {
            self.bytes = self.bytes.wrapping_add(1).wrapping_add(self.before_glyph);
            self.before_blank = RUN;
        }
        self.before_glyph = 0;
    }

    /// Counts a cell that the terminal displays already.
    #[inline(always)]
    fn pass(&mut self) {
        self.before_glyph = RUN;
        self.before_blank = 2 * RUN;
    }

    /// Counts cells that are drawn over default blanks.
    fn draw_over_blanks(&mut self, cells: &[Cell]) {
        let blank = cell::default_blank();
        for cell in cells {
            if cell::has_head_of(cell, &blank) {
                self.pass();
            } else {
                self.draw(cell);
            }
        }
    }
}

/// Returns an array whose element `k` is the number of bytes saved if the first `k` rows of `view`
/// are drawn over blank rows instead of the rows that the terminal displays.
pub(crate) fn savings(view: &View<'_>, height: u16, here: &Numbers) -> [i32; 257]
    requires inside { height ≤ length view.now.rows }
    requires few { height ≤ 256 }
{
    let mut savings = [0; 257];
    let mut sum = 0_i32;
    for row in 0..height {
        sum = sum
            .saturating_add(here[usize::from(row)])
            .saturating_sub(fresh_cost(&view.row(row)));
        savings[usize::from(row) + 1] = sum;
    }
    savings
}

/// Returns the number of bytes saved if rows `first..end` are drawn over blank rows instead of
/// the rows that the terminal displays. `savings` is the result of [`savings`].
pub(crate) fn between(savings: &[i32; 257], first: u16, end: u16) -> i32
    requires first { first ≤ 256 }
    requires end { end ≤ 256 }
{
    savings[usize::from(end)].saturating_sub(savings[usize::from(first)])
}

/// Returns the approximate number of bytes in the escape sequences of a move. If `both` is true,
/// the sequences delete rows at one end of the band and insert rows at the other end; otherwise,
/// they do only one of the two. They also reset the terminal's attributes, `attrs`, unless these
/// are the defaults.
pub(crate) fn sequences(both: bool, attrs: Attrs) -> i32 {
    let ends = if both { 15 } else { 6 };
    let change = if attrs == Attrs::new() { 0 } else { 3 };
    ends + change
}
