//! The short escape sequences that make up a redraw, each with its exact bytes (ECMA-48, the VT510
//! manual and xterm's control sequences).

ghost use Rattle.std.specs.Prelude.{◌≡◌, ◌++◌, ◌<◌, ℕ, List, length, OnErr, OnOk};

use crate::sink::Sink;

mod changes;
mod cursor;
mod erasing;
mod input;
mod lines;
mod moves;
mod sequences;
mod sgr;

pub use changes::{ChangeAttrs, ClearAttrs};
pub use cursor::{Backspace, Crlf, HideCursor, LineFeed, RestoreCursor, SaveCursor};
pub use erasing::{ClearRowForward, ClearScreen, EraseChar};
pub use input::{
    ApplicationCursor, ApplicationKeypad, BracketedPaste, CursorStyle, MouseProtocolEncoding,
    MouseProtocolMode,
};
pub use lines::{DeleteLines, InsertLines};
pub use moves::{MoveFromTo, MoveRight, MoveTo};
pub use sequences::SHORT_ROOM;
pub use sgr::SGR_ROOM;

/// An escape sequence that can be written to a sink.
pub trait BufWrite {
    ghost bytes: { Self → List ℕ };

    /// Appends the sequence to `sink`.
    ///
    /// # Errors
    ///
    /// Returns the sink's error. Part of the sequence may have been written by then. Writing an
    /// empty sequence never fails.
    fn write_buf<S: Sink>(&self, sink: &mut S) -> Result<(), S::Error>
        ensures text { OnOk result (S.text sink.new ≡ S.text sink.old ++ bytes self.now) }
        ensures nonempty { OnErr result (0 < length (bytes self.now)) };
}
