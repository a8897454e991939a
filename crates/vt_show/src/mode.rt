//! The kinds of output of `vtshow`.

/// The kind of output that is written for the screen.
#[derive(Clone, Copy, PartialEq, Eq, Debug)]
pub enum Mode {
    /// The text of the screen, without attributes.
    Plain,

    /// The escape sequences that display the screen on a new terminal of the same size.
    Formatted,

    /// The text of the screen with SGR sequences, and no other escape sequences.
    Basic,
}
