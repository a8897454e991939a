//! Callbacks that count titles and reported rows.

use vt100::capture::RowContents;
use vt100::{Call, Callbacks, Screen};

/// The numbers of titles that were set and of rows that were reported.
#[derive(Clone, Copy, Default)]
pub struct Tally {
    pub titles: u64,
    pub reported: u64,
}

/// Callbacks that count titles and rows, without changing the screen or
/// allocating memory.
impl Callbacks for Tally {
    ghost use Rattle.std.specs.Prelude.{◌≡◌};

    ghost does = { λ _ _ before _ after. after ≡ before };

    fn otherwise(&mut self, _screen: &mut Screen, call: Call<'_>) {
        if let Call::SetWindowTitle(_) = call {
            self.titles = self.titles.saturating_add(1);
        }
    }

    fn on_scroll(&mut self, _row: RowContents<'_>, _alternate: bool) {
        self.reported = self.reported.saturating_add(1);
    }
}
