//! Iterators over the rows of a screen. The iterator in this module yields
//! plain text; those in the submodules yield the output that redraws the rows.

ghost use Rattle.std.specs.Prelude.{◌≡◌, ◌+◌};
ghost use Rattle.vt_screen.specs.Contents.{row_texts, rows_left};
ghost use Rattle.vt_screen.specs.Screen.{visible_rows};

mod diff;
mod formatted;

use crate::screen::Screen;
pub use diff::RowsDiff;
pub use formatted::RowsFormatted;
use vt_cells::Error;

/// An iterator over the plain text of each displayed row; see [`Screen::rows`].
///
/// An item is an error if its text cannot be allocated; iteration then
/// continues with the next row. After the last row, `next` keeps returning
/// `None`.
#[derive(Drop)]
pub struct Rows<'a> {
    screen: &'a Screen,
    row: u16,
    start: usize,
    stop: usize,
}

impl<'a> Rows<'a> {
    /// Creates an iterator over the rows from top to bottom that reads `width`
    /// columns of each row, beginning at column `start`.
    pub(crate) fn new(screen: &'a Screen, start: u16, width: u16) -> Rows<'a>
        ensures { rows_left result ≡ row_texts start (start + width) (visible_rows screen.now) }
    {
        let start = usize::from(start);
        Rows {
            screen,
            row: 0,
            start,
            stop: start + usize::from(width),
        }
    }
}

impl<'a> Iterator for Rows<'a> {
    ghost use Rattle.std.specs.Iterator.{item_count};
    ghost use Rattle.vt_screen.specs.Contents.{rows_left};
    ghost use Rattle.vt_screen.specs.RowsShown.{GivesText};

    type Item = Result<String, Error>;

    ghost next_gives = { GivesText rows_left };

    ghost remaining = { item_count rows_left };

    #[tactic(auto, using(crate::proofs::MadeContents::texts_more, crate::proofs::MadeContents::texts_done))]
    fn next(&mut self) -> Option<Result<String, Error>> {
        let (rows, _) = self.screen.size();
        if self.row >= rows.get() {
            return None;
        }
        let item = self.screen.row_text(self.row, self.start, self.stop)?;
        self.row += 1;
        Some(item)
    }
}
