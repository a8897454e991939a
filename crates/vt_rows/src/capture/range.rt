//! The rows that a capture contains.

use super::BasicFormattedCaptureState;

/// The rows of a screen that a capture (text with SGR sequences) contains.
#[derive(Debug, Drop)]
pub enum BasicFormattedCaptureRange<'a> {
    /// All scrollback rows, followed by the rows of the active page, regardless of what is
    /// displayed.
    ///
    /// The state carries two things from one capture to the next: the attributes written last, and
    /// whether a newline is pending.
    Full(&'a mut BasicFormattedCaptureState),
    /// The displayed rows, as a self-contained capture.
    Visible,
}
