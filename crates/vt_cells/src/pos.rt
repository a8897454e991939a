//! Positions on a screen.

/// A position on the screen as a row and a column, both counted from 0.
#[derive(Clone, Copy, PartialEq, Eq, Debug, Default)]
pub struct Pos {
    /// The row, counted from the top.
    pub row: u16,

    /// The column, counted from the left. A column one past the last means that a wrap is pending.
    pub col: u16,
}
