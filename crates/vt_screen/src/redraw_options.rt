//! Options for redraws.

ghost use Rattle.std.specs.Prelude.{◌≡◌, false};
ghost use Rattle.vt_screen.specs.Shown.{form_of};

use vt_redraw::Form;

/// Options for a full redraw.
///
/// By default, `Screen::contents_formatted_with` returns what `Screen::contents_formatted` returns.
#[derive(Clone, Copy, PartialEq, Eq, Debug)]
pub struct RedrawOptions {
    /// Whether the redraw avoids sequences on whose effects terminals disagree.
    pub portable: bool,
}

impl Default for RedrawOptions {
    fn default() -> Self
        ensures { result ≡ record { portable = false } }
    {
        RedrawOptions { portable: false }
    }
}

/// Returns the portable form of output if `portable` is true, otherwise the fixed form.
pub(crate) fn form_of(portable: bool) -> Form
    ensures { result ≡ form_of portable }
{
    if portable {
        Form::Portable
    } else {
        Form::Fixed
    }
}
