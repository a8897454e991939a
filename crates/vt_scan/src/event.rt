//! The events that the scanner returns for a byte.

ghost use Rattle.std.specs.Prelude.{◌≡◌, None, Some};

/// An event of the scanner: a character, a control character, or a complete sequence.
///
/// The parameters, intermediates and parts of a sequence can be read from the scanner until it
/// parses the next byte.
#[derive(Clone, Copy, PartialEq, Eq, Debug)]
pub enum Event {
    /// A character to print.
    Character(char),

    /// A control character to execute.
    Executed(u8),

    /// An escape sequence, with its final byte. The scanner holds its intermediates.
    Escape(u8),

    /// A control sequence, with its final byte. The scanner holds its parameters and intermediates.
    Csi(u8),

    /// An operating system command. The scanner holds its parts.
    Osc,
}

/// The events that one byte causes, at most two.
#[derive(Clone, Copy, PartialEq, Eq, Debug)]
pub struct Events {
    /// The first event.
    pub first: Option<Event>,

    /// The second event. It is `None` if there is no first event.
    pub second: Option<Event>,
}

impl Events {
    /// Returns the empty list of events.
    #[inline]
    pub fn none() -> Self
        ensures { result ≡ record { first = None; second = None } }
    {
        Events {
            first: None,
            second: None,
        }
    }

    /// Returns a list of one event.
    #[inline]
    pub fn one(event: Event) -> Self
        ensures { result ≡ record { first = Some event; second = None } }
    {
        Events {
            first: Some(event),
            second: None,
        }
    }

    /// Returns `event`, followed by the first event of `events` if there is one. A second event of
    /// `events` is dropped.
    #[inline]
    pub fn after(event: Event, events: Events) -> Self
        ensures { result ≡ record { first = Some event; second = events.first } }
    {
        Events {
            first: Some(event),
            second: events.first,
        }
    }
}
