//! Colors of cells.

/// A foreground or background color of a cell.
#[derive(Clone, Copy, PartialEq, Eq, Debug, Default)]
pub enum Color {
    /// The terminal's default color.
    #[default]
    Default,

    /// A color of the 256-color palette, given by its index.
    Idx(u8),

    /// A color given by its red, green and blue components.
    Rgb(u8, u8, u8),
}
