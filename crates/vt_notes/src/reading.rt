//! A function that feeds input to a parser whose callbacks record each call in a note.

ghost use Rattle.std.specs.Prelude.{◌≡◌, map, true, IfOk};
ghost use Rattle.vt100.specs.Parser.{pieces_joined};
ghost use Rattle.vt_scan.specs.Automaton.{start};
ghost use Rattle.vt_screen.specs.Screen.{fresh_screen};
ghost use Rattle.vt_screen.specs.CallsOfRun.{calls_in, screen_in};

use crate::notes::Notes;
use std::alloc::Global;
use std::num::NonZeroU16;
use vt100::{Error, Parser};

/// Creates a parser with a new screen of the given size, without scrollback, and feeds the chunks
/// in `pieces` to it one by one. Returns the parser, whose notes record exactly the calls that the
/// bytes cause.
///
/// # Errors
///
/// Returns [`Error::OutOfMemory`] if the screen, the text of a command or a note cannot be
/// allocated.
pub fn read(
    alloc: Global,
    rows: NonZeroU16,
    cols: NonZeroU16,
    pieces: &[&[u8]],
) -> Result<Parser<Notes>, Error>
    ensures noted { IfOk result (λ parser. parser.callbacks.calls
        ≡ calls_in start (fresh_screen rows.value cols.value 0) (pieces_joined (map (λ piece. piece.now) pieces.now))) }
    ensures complete { IfOk result (λ parser. parser.callbacks.is_complete ≡ true) }
    ensures shown { IfOk result (λ parser. parser.screen
        ≡ screen_in start (fresh_screen rows.value cols.value 0)
        (pieces_joined (map (λ piece. piece.now) pieces.now))) }
{
    let mut parser = Parser::new_with_callbacks(alloc, rows, cols, 0, Notes::new(alloc))?;
    for piece in pieces {
        parser.process(piece)?;
    }
    if !parser.callbacks().is_complete() {
        return Err(Error::OutOfMemory);
    }
    Ok(parser)
}
