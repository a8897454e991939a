//! An iterator over the output that turns the rows of one screen into the rows
//! of another.

ghost use Rattle.std.specs.Prelude.{◌≡◌, ◌≤◌, length};
ghost use Rattle.vt_grid.specs.Page.{SameSize};
ghost use Rattle.vt_screen.specs.RowsShown.{changed_text, texts_from};
ghost use Rattle.vt_screen.specs.Shown.{display};

use crate::screen::Screen;
use std::marker::Model;
use vt_cells::Error;

/// An iterator over the output that turns each row of one screen into the
/// corresponding row of another screen; see [`Screen::rows_diff`].
///
/// An item is an error if its output cannot be allocated; iteration then
/// continues with the next row. After the last row, `next` keeps returning
/// `None`.
#[derive(Drop)]
pub struct RowsDiff<'a> {
    screen: &'a Screen,
    prev: &'a Screen,
    row: u16,
    start: u16,
    stop: u16,
}

/// The model of the iterator is the list of outputs that it has yet to return.
impl<'a> Model for RowsDiff<'a> {
    ghost use Rattle.std.specs.Prelude.{List, ℕ, length};
    ghost use Rattle.vt_grid.specs.Page.{SameSize};
    ghost use Rattle.vt_screen.specs.Internals.{IsColumns};
    ghost use Rattle.vt_screen.specs.RowsShown.{changed_text, texts_from};
    ghost use Rattle.vt_screen.specs.Shown.{display};

    ghost Value = { List (List ℕ) };

    ghost view = { λ r. texts_from (changed_text r.start r.stop (display r.screen.now) (display r.prev.now))
        r.row (length r.screen.now.page.rows) };

    ghost invariant = { λ r. IsColumns r.start r.stop r.screen.now × SameSize r.screen.now.page r.prev.now.page };
}

impl<'a> RowsDiff<'a> {
    /// Creates an iterator over the rows from top to bottom, restricted to the
    /// columns `start..stop`.
    pub(crate) fn new(screen: &'a Screen, prev: &'a Screen, start: u16, stop: u16) -> RowsDiff<'a>
        requires order { start ≤ stop }
        requires stop { stop ≤ screen.now.page.width }
        requires size { SameSize screen.now.page prev.now.page }
        ensures { result
            ≡ texts_from (changed_text start stop (display screen.now) (display prev.now)) 0 (length screen.now.page.rows) }
    {
        RowsDiff {
            screen,
            prev,
            row: 0,
            start,
            stop,
        }
    }
}

impl<'a> Iterator for RowsDiff<'a> {
    ghost use Rattle.std.specs.Iterator.{item_count};
    ghost use Rattle.vt_screen.specs.RowsShown.{GivesText};

    type Item = Result<String, Error>;

    ghost next_gives = { GivesText (λ texts. texts) };

    ghost remaining = { item_count (λ texts. texts) };

    #[tactic(auto, using(crate::proofs::ReadRows::texts_more, crate::proofs::ReadRows::texts_done))]
    fn next(&mut self) -> Option<Result<String, Error>> {
        let row = self.row;
        let (rows, _) = self.screen.size();
        if row >= rows.get() {
            return None;
        }
        self.row = row + 1;
        Some(self.screen.row_diff(self.prev, row, self.start, self.stop))
    }
}
