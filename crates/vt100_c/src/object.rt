//! The object that a handle holds.

ghost use Rattle.std.specs.Prelude.{◌≡◌, IfSome, Some, None};
ghost use Rattle.vt100_c.specs.Held.{kind_of, screen_in};

use crate::event_log::Events;
use vt_charsets::Charsets;
use vt_mirror::Mirror;
use vt100::capture::BasicFormattedCaptureState;
use vt100::{Parser, Screen};

/// The value of the object that a handle holds: a parser, a saved screen, a mirror, a capture or a
/// translator.
#[derive(Drop)]
pub enum Source {
    /// A parser, with its screen and its log of events.
    Parser(Parser<Events>),

    /// A saved screen.
    Screen(Screen),

    /// A mirror, with its viewers.
    Mirror(Mirror),

    /// The state of a capture.
    Capture(BasicFormattedCaptureState),

    /// A translator of character sets.
    Charsets(Charsets),
}

/// An object that a handle holds: a value, and the text that was last generated
/// from it.
#[derive(Drop)]
pub struct Object {
    /// The value of the object.
    pub(crate) source: Source,
    /// The text that was last generated from the value.
    pub(crate) text: String,
}

/// Returns the screen of a source, or `None` if the source is neither a
/// parser nor a saved screen.
pub(crate) fn screen_of(source: &Source) -> Option<&Screen>
    ensures some { IfSome result (λ screen. screen_in source.now ≡ Some screen.now) }
    ensures none { result ≡ None → screen_in source.now ≡ None }
{
    match source {
        Source::Parser(parser) => Some(parser.screen()),
        Source::Screen(screen) => Some(screen),
        Source::Mirror(_) => None,
        Source::Capture(_) => None,
        Source::Charsets(_) => None,
    }
}

/// Returns the kind of a source: 1 for a parser, 2 for a saved screen, 3 for a mirror, 4 for a
/// capture, and 5 for a translator of character sets.
pub(crate) fn kind_of(source: &Source) -> u8
    ensures { result ≡ kind_of source.now }
{
    match source {
        Source::Parser(_) => 1,
        Source::Screen(_) => 2,
        Source::Mirror(_) => 3,
        Source::Capture(_) => 4,
        Source::Charsets(_) => 5,
    }
}
