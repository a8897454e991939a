//! Sizes of screens.

/// The size of a screen in rows and columns.
#[derive(Clone, Copy, PartialEq, Eq, Debug)]
pub struct Size {
    /// The number of rows.
    pub rows: u16,

    /// The number of columns.
    pub cols: u16,
}
