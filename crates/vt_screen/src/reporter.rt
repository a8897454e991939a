//! The adapter through which callbacks receive dropped rows.

use crate::callbacks::Callbacks;
use vt_rows::{Leaving, RowContents};

/// An adapter that calls [`Callbacks::on_scroll`] for each row that a page drops. Each adapter
/// serves a single page.
#[derive(Drop)]
pub struct Reporter<'a, CB: Callbacks> {
    /// The callbacks that receive the rows.
    pub callbacks: &'a mut CB,

    /// Whether the rows come from the alternate page.
    pub alternate: bool,
}

impl<'a, CB: Callbacks> Leaving for Reporter<'a, CB> {
    ghost use Rattle.vt_screen.specs.Internals.{Reports};

    ghost leaves = { Reports CB.does };

    fn wants(&self) -> bool {
        self.callbacks.wants_rows()
    }

    fn leave(&mut self, row: RowContents<'_>) {
        self.callbacks.on_scroll(row, self.alternate);
    }
}
