//! Bands: ranges of a picture's rows that move up or down together.

ghost use Rattle.std.specs.Prelude.{◌≡◌, ◌<◌, ℕ, true, unwrap_or};
ghost use Rattle.vt_redraw.specs.Moved.{IsBand, band_source, last_moved};

/// A range of rows whose contents move up or down together. Rows that move past one end of the
/// range are lost, and blank rows enter at the other end. If the distance is the height of the
/// range, all its rows become blank.
#[derive(Clone, Copy, PartialEq, Eq, Debug)]
pub struct Band {
    /// The first row of the range, counted from 0.
    pub top: u16,

    /// The row after the last row of the range, counted from 0.
    pub bottom: u16,

    /// The number of rows by which the band moves.
    pub count: u16,

    /// Whether the band moves up; otherwise it moves down.
    pub up: bool,
}

impl Band {
    /// Returns whether the band lies within a picture of `height` rows and moves by at least one
    /// row and at most its own height.
    pub fn is_within(&self, height: u16) -> bool
        ensures { result ≡ true → IsBand height self.now }
    {
        0 < self.count
            && u32::from(self.top) + u32::from(self.count) <= u32::from(self.bottom)
            && self.bottom <= height
    }

    /// Returns the row in which the escape sequences of the move leave the cursor: the row at which
    /// the last of them deletes or inserts rows. `height` is the height of the picture in rows.
    pub(crate) fn last_moved(&self, height: u16) -> u16
        requires { IsBand height self.now }
        ensures value { result ≡ last_moved height self.now }
        ensures inside { result < height }
    {
        if self.up && self.bottom != height {
            self.bottom - self.count
        } else {
            self.top
        }
    }

    /// Returns the index, before the move, of the row that is at index `row` after the move.
    /// Returns `None` if `row` becomes blank.
    pub(crate) fn source(&self, row: u16) -> Option<u16>
        ensures { (past : ℕ) → unwrap_or result past ≡ band_source self.now past row }
    {
        if row < self.top || self.bottom <= row {
            return Some(row);
        }
        let comes_free = if self.up {
            self.bottom - row <= self.count
        } else {
            row - self.top < self.count
        };
        if comes_free {
            return None;
        }
        Some(if self.up {
            row + self.count
        } else {
            row - self.count
        })
    }
}
