//! A guess at the rows or columns that have moved between two pictures. Correctness does not depend
//! on the guess: whatever is moved, the diff then draws all remaining changes.
//!
//! Throughout this module, `prev` is the picture that the terminal displays, and `view` is the
//! picture that it is to display. Only the first `height` rows are examined. `here` holds the costs
//! of these rows if no rows are moved, as far as they have been computed (see [`cost_at`]).

ghost use Rattle.std.specs.Prelude.{◌≡◌, ◌+◌, ◌<◌, ◌≤◌, IfSome, IsSome, length};
ghost use Rattle.vt_redraw.specs.declared.form.Form.TheVariants.{Fixed};
ghost use Rattle.vt_redraw.specs.Moved.{IsBand};
ghost use Rattle.vt_redraw.specs.Picture.{SamePictureSize};
ghost use Rattle.vt_redraw.specs.Shifted.{IsMove, IsRowShift};

use crate::band::Band;
use crate::drawn_rows::DrawnRows;
use crate::erasure::{likely_erasure, may_save};
use crate::form::Form;
use crate::picture_row::PictureRow;
use crate::row_costs::{Numbers, add_costs, between, cost, cost_at, savings, sequences};
use crate::row_guess::likely_row_shift;
use crate::row_shift::RowShift;
use crate::view::View;
use vt_cells::Attrs;

/// The maximum number of rows, counted from the top, that are examined in the search for a move.
const MOST_ROWS: u16 = 256;

/// The number of columns at the left edge that are ignored when rows are
/// compared, because they may hold line numbers.
const MARGIN: u16 = 8;

/// The minimum length, in bytes, of a diff for which a move is considered.
const LEAST_TEXT: usize = 20;

/// The maximum length, in bytes, of a diff for which moved columns and rows to erase are
/// considered. Writing a longer diff a second time would take too long.
const MOST_TEXT: usize = 4096;

/// The number of columns after the left margin ([`MARGIN`]) whose text is hashed into the key of a
/// row (see [`key`]).
const KEYED: usize = 12;

/// The distance between two of these columns.
const KEY_STEP: usize = 4;

/// The cost of a row, in bytes, up to which the row is never examined for columns that have moved.
const LEAST_COST: i32 = 12;

/// The divisor that determines the minimum saving of the first column shift of a diff: the shift
/// must be expected to save more bytes than the length of the diff divided by this number.
const SHARE_DIVISOR: i32 = 64;

/// The maximum number of rows that are examined in the search for a row whose columns seem to have
/// moved.
const MOST_TRIED: u32 = 4;

/// A key for each examined row. Rows are compared only if their keys are equal.
type Keys = [u32; 256];

/// The direction of a move, and its distance in rows.
#[derive(Clone, Copy)]
struct Shift {
    count: u16,
    up: bool,
}

/// A range of rows of the new picture that a shift fills with rows of the displayed picture, and
/// the approximate number of bytes that this saves.
#[derive(Clone, Copy)]
struct Stretch {
    gain: i32,
    first: u16,
    end: u16,
}

/// A move of rows or columns that a diff performs first, before it draws the remaining changes.
#[derive(Clone, Copy, PartialEq, Eq, Debug)]
pub enum Move {
    /// A band of rows moves up or down.
    Rows(Band),

    /// Columns move right or left in one or more rows. The value is the shift of the first of these
    /// rows.
    Columns(RowShift),
}

/// Returns the move of rows or columns that most likely happened between `prev` and `view`. If no
/// rows or columns seem to have moved, returns a move that erases rows. Returns `None` if no move
/// is expected to shorten the output enough, or if `text`, the diff written without a move, is
/// shorter than 20 bytes. Only the first 256 rows are examined, and if `text` is longer than 4096
/// bytes, or `form` is the portable form, only moves of rows are considered. Moves of rows that
/// keep their text are considered only if at least two rows have changed. `drawn` holds the rows
/// for which `text` contains output.
pub fn likely_move(
    view: &View<'_>,
    prev: &View<'_>,
    form: Form,
    text: &str,
    drawn: &DrawnRows,
) -> Option<Move>
    requires { SamePictureSize view.now prev.now }
    ensures inside { IfSome result (IsMove form (length prev.now.rows) prev.now.width) }
    ensures text { IsSome result → 0 < length text.now }
{
    if text.len() < LEAST_TEXT {
        return None;
    }
    let height = view.rows().min(MOST_ROWS);
    let mut here = drawn.costs();
    if drawn.count() > 1 {
        if let Some(band) = likely_band(view, prev, height, &mut here) {
            return Some(Move::Rows(band));
        }
    }
    if text.len() > MOST_TEXT {
        return None;
    }
    if let Some(shift) = allowed_row_shift(view, prev, form, height, &mut here, text.len()) {
        return Some(Move::Columns(shift));
    }
    let attrs = prev.pen().attrs;
    if !may_save(text, attrs) {
        return None;
    }
    add_costs(&mut here, view, prev, height);
    let erased = likely_erasure(view, height, &here, attrs, text.len())?;
    Some(Move::Rows(erased))
}

/// Returns the band of rows that has most likely moved between `prev` and
/// `view`, or `None` if no rows seem to have moved.
fn likely_band(view: &View<'_>, prev: &View<'_>, height: u16, here: &mut Numbers) -> Option<Band>
    requires size { SamePictureSize view.now prev.now }
    requires inside { height ≤ length view.now.rows }
    requires few { height ≤ 256 }
    ensures { IfSome result (λ band. IsBand (length prev.now.rows) band) }
{
    let shift = likely_shift(view, prev, height, here)?;
    add_costs(here, view, prev, height);
    let stretch = best_stretch(view, prev, height, here, shift)?;
    let band = stretch.band(shift);
    if band.is_within(prev.rows()) {
        Some(band)
    } else {
        None
    }
}

/// Returns the result of [`first_row_shift`], or `None` in the portable form: terminals that
/// disagree on the width of a glyph disagree on what ICH and DCH do in its row.
fn allowed_row_shift(
    view: &View<'_>,
    prev: &View<'_>,
    form: Form,
    height: u16,
    here: &mut Numbers,
    len: usize,
) -> Option<RowShift>
    requires size { SamePictureSize view.now prev.now }
    requires inside { height ≤ length view.now.rows }
    requires few { height ≤ 256 }
    ensures { IfSome result (λ shift. (form ≡ Fixed) × IsRowShift (length prev.now.rows) prev.now.width shift) }
{
    match form {
        Form::Fixed => first_row_shift(view, prev, height, here, len),
        Form::Portable => None,
    }
}

/// Returns the shift of the first row whose columns seem to have moved between `prev` and `view`,
/// or `None` if there is no such row. Skips a shift unless the number of bytes that it is expected
/// to save exceeds `len`, the length of the diff in bytes, divided by [`SHARE_DIVISOR`]. Examines
/// only the first [`MOST_TRIED`] rows whose cost exceeds both that quotient and [`LEAST_COST`].
fn first_row_shift(
    view: &View<'_>,
    prev: &View<'_>,
    height: u16,
    here: &mut Numbers,
    len: usize,
) -> Option<RowShift>
    requires size { SamePictureSize view.now prev.now }
    requires inside { height ≤ length view.now.rows }
    requires few { height ≤ 256 }
    ensures { IfSome result (IsRowShift (length prev.now.rows) prev.now.width) }
{
    let least = i32::try_from(len).ok()? / SHARE_DIVISOR;
    let least_cost = least.max(LEAST_COST);
    let mut tried = 0;
    for row in 0..height {
        if tried < MOST_TRIED && cost_at(here, view, prev, row) > least_cost {
            tried += 1;
            if let Some(shift) = likely_row_shift(view, prev, row, least) {
                return Some(shift);
            }
        }
    }
    None
}

/// Returns a key for each of the first `height` rows, computed from the row's text after the left
/// margin ([`MARGIN`]). Equal rows have equal keys.
fn keys(view: &View<'_>, height: u16) -> Keys
    requires inside { height ≤ length view.now.rows }
    requires few { height ≤ 256 }
{
    let mut keys = [0; 256];
    for row in 0..height {
        keys[usize::from(row)] = key(&view.row(row));
    }
    keys
}

/// Returns the key of a row, computed from the first byte of each cell's text in every fourth
/// column ([`KEY_STEP`]) after the left margin ([`MARGIN`]), [`KEYED`] columns in all. Blanks add
/// nothing to the key, because the blanks at the end of a row need not be stored.
fn key(cells: &PictureRow<'_>) -> u32 {
    let own = cells.own_cells();
    let mut key = 0_u32;
    let mut factor = 1_u32;
    for step in 0..KEYED {
        let col = usize::from(MARGIN) + KEY_STEP * step;
        if col >= own.len() {
            break;
        }
        if let Some(byte) = own[col].contents().as_bytes().first() {
            key = key.wrapping_add(u32::from(*byte).wrapping_mul(factor));
        }
        factor = factor.wrapping_mul(31);
    }
    key
}

/// Returns the shift that moves the most rows of `prev` onto equal rows of `view`, with each row
/// weighted by its cost. Returns `None` if no shift moves a row onto an equal row.
fn likely_shift(view: &View<'_>, prev: &View<'_>, height: u16, here: &mut Numbers) -> Option<Shift>
    requires size { SamePictureSize view.now prev.now }
    requires inside { height ≤ length view.now.rows }
    requires few { height ≤ 256 }
{
    let keys = keys(prev, height);
    let mut votes = [0_i32; 512];
    let mut voted = false;
    for row in 0..height {
        if here[usize::from(row)] != 0 {
            voted |= vote(&mut votes, &keys, here, view, prev, row, height);
        }
    }
    if voted { heaviest(&votes) } else { None }
}

/// Adds the cost of row `row` to the votes for each shift that would move a matching row of `prev` to
/// this row of `view`. Two rows match if they are equal from the column that [`compared_from`]
/// returns to the end. Adds no votes if the row has no text. Returns whether it added votes. `keys`
/// holds the keys of the rows of `prev`.
///
/// Element `256 + n` of `votes` holds the votes for moving rows up by `n` rows, or down if `n` is
/// negative.
fn vote(
    votes: &mut [i32; 512],
    keys: &Keys,
    here: &mut Numbers,
    view: &View<'_>,
    prev: &View<'_>,
    row: u16,
    height: u16,
) -> bool
    requires size { SamePictureSize view.now prev.now }
    requires row { row < height }
    requires inside { height ≤ length view.now.rows }
    requires few { height ≤ 256 }
{
    let cells = view.row(row);
    let Some(start) = compared_from(&cells) else {
        return false;
    };
    let key = key(&cells);
    let mut voted = false;
    for from in 0..height {
        let may_be = from != row && keys[usize::from(from)] == key;
        if may_be && are_alike(&cells, &prev.row(from), start) {
            let shift = usize::from(256 + from - row);
            let weight = cost_at(here, view, prev, row);
            votes[shift] = votes[shift].saturating_add(weight);
            voted = true;
        }
    }
    voted
}

/// Returns the first column of the part of a row that is compared with other rows: the column after
/// the left margin ([`MARGIN`]) if the row has text there or to the right, otherwise 0. Returns
/// `None` if the row has no text.
fn compared_from(cells: &PictureRow<'_>) -> Option<u16> {
    let cols = cells.cols();
    let margin = MARGIN.min(cols);
    if has_text(cells, margin, cols) {
        Some(margin)
    } else if has_text(cells, 0, margin) {
        Some(0)
    } else {
        None
    }
}

/// Returns whether columns `start..stop` of a row contain text.
fn has_text(cells: &PictureRow<'_>, start: u16, stop: u16) -> bool
    requires { stop ≤ length cells.now.cells }
{
    for col in start..stop {
        if cells.cell(col).has_contents() {
            return true;
        }
    }
    false
}

/// Returns whether two rows are equal from column `start` to the end.
fn are_alike(cells: &PictureRow<'_>, over: &PictureRow<'_>, start: u16) -> bool {
    let cols = cells.cols().min(over.cols());
    let same = cells.same_run(over, start);
    let first = start.saturating_add(u16::try_from(same).unwrap_or(cols));
    for col in first..cols {
        let same = *cells.cell(col) == *over.cell(col);
        if !same {
            return false;
        }
    }
    true
}

/// Returns the shift with the most votes, or `None` if there are no votes. In a tie, returns the
/// shift that moves rows furthest down.
fn heaviest(votes: &[i32; 512]) -> Option<Shift> {
    let mut best = 0;
    let mut shift = None;
    for place in 0..512_u16 {
        let weight = votes[usize::from(place)];
        if weight > best {
            best = weight;
            shift = Some(Shift {
                count: place.abs_diff(256),
                up: place > 256,
            });
        }
    }
    shift
}

/// Returns the range of rows in which `shift` saves the most bytes, or `None` if it saves no bytes
/// in any range. In a tie, returns the range that ends last.
fn best_stretch(
    view: &View<'_>,
    prev: &View<'_>,
    height: u16,
    here: &Numbers,
    shift: Shift,
) -> Option<Stretch>
    requires size { SamePictureSize view.now prev.now }
    requires inside { height ≤ length view.now.rows }
    requires few { height ≤ 256 }
{
    let savings = savings(view, height, here);
    let mut best = Stretch {
        gain: 0,
        first: 0,
        end: 0,
    };
    let mut run = Stretch {
        gain: i32::MIN,
        first: 0,
        end: 0,
    };
    for row in 0..height {
        if let Some(from) = shift.source(row, height) {
            let gain = here[usize::from(row)].saturating_sub(cost(&view.row(row), &prev.row(from)));
            run = run.and_row(row, shift.opening(&savings, from, row), gain);
            let whole = run.closed(shift, &savings, from, view.rows(), prev.pen().attrs);
            if whole > 0 && whole >= best.gain {
                best = Stretch { gain: whole, ..run };
            }
        }
    }
    if best.gain > 0 { Some(best) } else { None }
}

impl Shift {
    /// Returns the index of the row, among the first `height` rows, that the shift moves to row
    /// `row`, or `None` if there is no such row.
    fn source(&self, row: u16, height: u16) -> Option<u16>
        requires { row < height }
        ensures { IfSome result (λ from. from < height) }
    {
        if !self.up {
            return row.checked_sub(self.count);
        }
        let from = row.checked_add(self.count)?;
        if from < height { Some(from) } else { None }
    }

    /// Returns the number of bytes saved in the rows that become blank above a range of rows if the
    /// shift moves the range down. These are the rows `from..row` if the first row of the range
    /// moves from `from` to `row`. Returns 0 if the shift moves rows up, because no row above the
    /// range then becomes blank. `savings` is the result of [`savings`].
    fn opening(&self, savings: &[i32; 257], from: u16, row: u16) -> i32
        requires from { from ≤ 256 }
        requires row { row ≤ 256 }
    {
        if self.up {
            0
        } else {
            between(savings, from, row)
        }
    }
}

impl Stretch {
    /// Returns this range extended by row `row`, or a new range that consists of row `row` if the
    /// new range saves more bytes. `gain` is the number of bytes saved in row `row`. `opening` is
    /// the number of bytes that a range beginning at row `row` saves in the rows above it (see
    /// [`Shift::opening`]).
    fn and_row(&self, row: u16, opening: i32, gain: i32) -> Stretch
        requires { row < 65535 }
        ensures { result.end ≡ row + 1 }
    {
        let end = row + 1;
        if self.gain < opening {
            return Stretch {
                gain: opening.saturating_add(gain),
                first: row,
                end,
            };
        }
        Stretch {
            gain: self.gain.saturating_add(gain),
            first: self.first,
            end,
        }
    }

    /// Returns the total number of bytes saved if the shift moves exactly this range. `from` is the
    /// row that the last row of the range moves from. The total includes the bytes saved in the
    /// rows below the range that become blank, less the length of the escape sequences that perform
    /// the move. `height` is the height of the picture, and `attrs` are the terminal's attributes.
    fn closed(
        &self,
        shift: Shift,
        savings: &[i32; 257],
        from: u16,
        height: u16,
        attrs: Attrs,
    ) -> i32
        requires from { from < 256 }
        requires end { self.now.end ≤ 256 }
    {
        let bottom = if shift.up { from + 1 } else { self.end };
        let below = if shift.up {
            between(savings, self.end, from + 1)
        } else {
            0
        };
        self.gain
            .saturating_add(below)
            .saturating_sub(sequences(bottom < height, attrs))
    }

    /// Returns the band that covers this range and the rows from which `shift` fills it.
    fn band(&self, shift: Shift) -> Band {
        let Shift { count, up } = shift;
        if up {
            Band {
                top: self.first,
                bottom: self.end.saturating_add(count),
                count,
                up,
            }
        } else {
            Band {
                top: self.first.saturating_sub(count),
                bottom: self.end,
                count,
                up,
            }
        }
    }
}
