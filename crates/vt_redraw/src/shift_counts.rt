//! A guess at how far text has moved within a row.

ghost use Rattle.std.specs.Prelude.{◌<◌};

use vt_cells::Cell;

/// The number of votes that a distance must exceed to be considered likely.
const FEW_VOTES: u16 = 2;

/// The number of columns that were most likely deleted from a row, and the number that were most
/// likely inserted. Each is 0 if no number is likely.
#[derive(Clone, Copy)]
pub(crate) struct Counts {
    pub(crate) deleted: u16,
    pub(crate) inserted: u16,
}

/// Votes for the number of columns by which text has moved in one direction, and the number with
/// the most votes so far, which is 0 if no number has more than [`FEW_VOTES`] votes.
#[derive(Drop)]
struct Votes {
    votes: [u16; 256],
    most: u16,
    count: u16,
}

/// Returns the number of columns that were most likely deleted from the row `over` at column
/// `start`, and the number that were most likely inserted there, if the row has become `cells`.
///
/// Each cell of `cells` from column `start` on votes for its distance from the end of the last
/// occurrence in `over` of the four characters that end with this cell. These characters are
/// compared by a hash of their first bytes; only the last of them is compared exactly.
pub(crate) fn likely_counts(cells: &[Cell], over: &[Cell], start: usize) -> Counts {
    let places = last_places(over, start);
    let mut deleted = Votes::new();
    let mut inserted = Votes::new();
    let mut window = 0_u32;
    for col in start..cells.len() {
        window = shifted_window(window, &cells[col]);
        let place = places[key(window)];
        if 0 < place && place < over.len() && window != 0 && cells[col] == over[place] {
            deleted.add(place.saturating_sub(col));
            inserted.add(col.saturating_sub(place));
        }
    }
    Counts {
        deleted: deleted.count,
        inserted: inserted.count,
    }
}

/// Returns, for each key (see [`key`]), the last column at or after `start` that ends a group of four
/// cells with that key, or 0 if there is none.
fn last_places(cells: &[Cell], start: usize) -> [usize; 256] {
    let mut places = [0; 256];
    let mut window = 0_u32;
    for col in start..cells.len() {
        window = shifted_window(window, &cells[col]);
        places[key(window)] = col;
    }
    places
}

/// Returns the first bytes of the texts of four cells, packed into one 32-bit word. `window` holds
/// the bytes of the four cells before `cell`; the first of these bytes is dropped, and the first
/// byte of `cell` is appended. The byte of a cell without text is 0.
#[inline(always)]
fn shifted_window(window: u32, cell: &Cell) -> u32 {
    let byte = match cell.contents().as_bytes().first() {
        Some(byte) => u32::from(*byte),
        None => 0,
    };
    window.wrapping_mul(256).wrapping_add(byte)
}

/// Returns a key for the four bytes in `window`. Different windows may have the same key.
#[inline(always)]
fn key(window: u32) -> usize
    ensures { result < 256 }
{
    (window.wrapping_mul(0x9e37_79b1) / 0x0100_0000) as usize
}

impl Votes {
    /// Creates an empty set of votes.
    fn new() -> Votes {
        Votes {
            votes: [0; 256],
            most: FEW_VOTES,
            count: 0,
        }
    }

    /// Adds a vote for `count` columns. Ignores the vote if `count` is 0 or more than 255.
    #[inline(always)]
    fn add(&mut self, count: usize) {
        if count == 0 || count > 255 {
            return;
        }
        let votes = self.votes[count].saturating_add(1);
        self.votes[count] = votes;
        if votes > self.most {
            self.most = votes;
            self.count = count as u16;
        }
    }
}
