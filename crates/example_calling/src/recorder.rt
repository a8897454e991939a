//! A log of everything that was displayed: the rows that scrolled off the top, followed by the rows
//! of the screen.

ghost use Rattle.vt_cells.specs.Refusals.{OnlyOutOfMemory};

use std::alloc::Global;
use std::num::NonZeroU16;
use vt_notes::Recorder;
use vt100::{Error, Parser};

/// Returns the log of `output` on a terminal with `rows` rows and `cols` columns, as text with SGR
/// sequences.
pub fn log(
    alloc: Global,
    rows: NonZeroU16,
    cols: NonZeroU16,
    output: &[u8],
) -> Result<String, Error> {
    let mut parser = Parser::new_with_callbacks(alloc, rows, cols, 0, Recorder::new(alloc))?;
    parser.process(output)?;
    finish(alloc, &mut parser)
}

/// Returns the text of the rows that scrolled off, followed by the rows of scrollback and of the
/// page.
fn finish(alloc: Global, parser: &mut Parser<Recorder>) -> Result<String, Error>
    ensures memory { OnlyOutOfMemory result }
{
    let (screen, recorder) = parser.screen_and_callbacks_mut();
    recorder.capture(screen)?;
    match String::from_str(alloc, recorder.text()) {
        Ok(text) => Ok(text),
        Err(_) => Err(Error::OutOfMemory),
    }
}
