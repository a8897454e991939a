//! An iterator over the output that draws the rows of a screen on blank rows.

ghost use Rattle.std.specs.Prelude.{◌≡◌, ◌≤◌, length};
ghost use Rattle.vt_screen.specs.RowsShown.{formatted_text, texts_from};
ghost use Rattle.vt_screen.specs.Shown.{display};

use crate::screen::Screen;
use std::marker::Model;
use vt_cells::Error;

/// An iterator over the output that draws each row of a screen on a blank row;
/// see [`Screen::rows_formatted`].
///
/// An item is an error if its output cannot be allocated; iteration then
/// continues with the next row. After the last row, `next` keeps returning
/// `None`.
#[derive(Drop)]
pub struct RowsFormatted<'a> {
    screen: &'a Screen,
    row: u16,
    start: u16,
    stop: u16,
}

/// The model of the iterator is the list of outputs that it has yet to return.
impl<'a> Model for RowsFormatted<'a> {
    ghost use Rattle.std.specs.Prelude.{List, ℕ, length};
    ghost use Rattle.vt_screen.specs.Internals.{IsColumns};
    ghost use Rattle.vt_screen.specs.RowsShown.{formatted_text, texts_from};
    ghost use Rattle.vt_screen.specs.Shown.{display};

    ghost Value = { List (List ℕ) };

    ghost view = { λ r. texts_from (formatted_text r.start r.stop (display r.screen.now))
        r.row (length r.screen.now.page.rows) };

    ghost invariant = { λ r. IsColumns r.start r.stop r.screen.now };
}

impl<'a> RowsFormatted<'a> {
    /// Creates an iterator over the rows from top to bottom, restricted to the
    /// columns `start..stop`.
    pub(crate) fn new(screen: &'a Screen, start: u16, stop: u16) -> RowsFormatted<'a>
        requires order { start ≤ stop }
        requires stop { stop ≤ screen.now.page.width }
        ensures { result ≡ texts_from (formatted_text start stop (display screen.now)) 0 (length screen.now.page.rows) }
    {
        RowsFormatted {
            screen,
            row: 0,
            start,
            stop,
        }
    }
}

impl<'a> Iterator for RowsFormatted<'a> {
    ghost use Rattle.std.specs.Iterator.{item_count};
    ghost use Rattle.vt_screen.specs.RowsShown.{GivesText};

    type Item = Result<String, Error>;

    ghost next_gives = { GivesText (λ texts. texts) };

    ghost remaining = { item_count (λ texts. texts) };

    #[tactic(auto, using(crate::proofs::ReadRows::texts_more, crate::proofs::ReadRows::texts_done))]
    fn next(&mut self) -> Option<Result<String, Error>> {
        let row = self.row;
        let (rows, _) = self.screen.size();
        if row >= rows.get() {
            return None;
        }
        self.row = row + 1;
        Some(self.screen.row_formatted(row, self.start, self.stop))
    }
}
