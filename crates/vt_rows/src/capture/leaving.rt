//! Receivers of the rows that a page drops.

use super::RowContents;

/// A receiver of the rows that a page drops: rows that scroll off the top without being kept, and
/// scrollback rows that are discarded.
pub trait Leaving {
    ghost use Rattle.std.specs.Prelude.{◌≡◌, false};
    ghost use Rattle.vt_rows.specs.Row.{RowValue};

    ghost leaves: { Self → RowValue → Self → Type 0 };

    /// Returns whether the receiver uses the rows that it is passed. If the result is `false`, a
    /// call to [`Leaving::leave`] has no effect, so the caller may skip it and the work of
    /// preparing the row.
    fn wants(&self) -> bool
        ensures { result ≡ false → (row : RowValue) → leaves self.now row self.now }
    {
        true
    }

    /// Receives a row that the page drops. Rows are passed oldest first.
    fn leave(&mut self, row: RowContents<'_>)
        ensures { leaves self.old row.entry self.new };
}

/// A receiver that ignores all rows.
impl Leaving for () {
    ghost use Rattle.std.specs.Prelude.{◌≡◌};

    ghost leaves = { λ old _ new. new ≡ old };

    #[inline]
    fn wants(&self) -> bool {
        false
    }

    fn leave(&mut self, _row: RowContents<'_>) {}
}
