//! The state that a capture carries from one row to the next.

ghost use Rattle.std.specs.Prelude.{◌≡◌};
ghost use Rattle.vt_rows.specs.Basic.{nothing_written};

use std::marker::Model;
use vt_cells::Attrs;

/// The state that a capture (the text of rows, with SGR sequences) carries from one row to the
/// next: the attributes written last, and whether a newline is pending.
#[derive(Clone, Debug, Drop)]
pub struct BasicFormattedCaptureState {
    pub(crate) attrs: Attrs,
    pub(crate) is_due: bool,
}

impl Model for BasicFormattedCaptureState {
    ghost use Rattle.vt_rows.specs.Basic.{Written};

    ghost Value = { Written };

    ghost view = { λ s. record { attrs = s.attrs; is_due = s.is_due } };
}

impl BasicFormattedCaptureState {
    /// Returns the state before the first row: default attributes and no pending newline.
    pub fn new() -> Self
        ensures { result ≡ nothing_written }
    {
        BasicFormattedCaptureState {
            attrs: Attrs::new(),
            is_due: false,
        }
    }
}

impl Default for BasicFormattedCaptureState {
    ghost use Rattle.std.specs.Prelude.{◌≡◌};
    ghost use Rattle.vt_rows.specs.Basic.{nothing_written};

    fn default() -> Self
        ensures { result ≡ nothing_written }
    {
        BasicFormattedCaptureState::new()
    }
}
