//! A recorder, which returns everything that was displayed as one string: the rows that scrolled
//! off, followed by the screen.

ghost use Rattle.std.specs.Prelude.{◌≡◌, ◌++◌, false, true, IfOk, string_bytes};
ghost use Rattle.vt100.specs.Streams.{whole_text};
ghost use Rattle.vt_cells.specs.Refusals.{OnlyOutOfMemory};
ghost use Rattle.vt_scan.specs.Automaton.{start};
ghost use Rattle.vt_screen.specs.Capture.{all_rows, basic_texts};
ghost use Rattle.vt_screen.specs.Screen.{fresh_screen};
ghost use Rattle.vt_screen.specs.Streamed.{HasNoRis};
ghost use Rattle.vt_screen.specs.CallsOfRun.{screen_in};

use std::alloc::Global;
use std::num::NonZeroU16;
use vt_notes::Recorder;
use vt100::{Error, Parser};

/// Returns the text of everything that `output` writes on the main page of a terminal with the
/// given number of rows and columns: the rows that scroll off the top, followed by the displayed
/// rows. The scrollback capacity `capacity` does not affect the result.
///
/// The contract assumes that the output ends on the main page and contains no RIS.
///
/// # Errors
///
/// Returns [`Error::OutOfMemory`] if an allocation fails.
pub fn record(
    alloc: Global,
    rows: NonZeroU16,
    cols: NonZeroU16,
    capacity: usize,
    output: &[u8],
) -> Result<String, Error>
    ensures text { IfOk result (λ text. HasNoRis start output.now →
        (screen_in start (fresh_screen rows.value cols.value capacity) output.now).is_alternate ≡ false →
        string_bytes text ≡ whole_text rows.value cols.value output.now) }
    ensures memory { OnlyOutOfMemory result }
{
    vt100::laws::one_text::<Recorder>();
    vt_notes::laws::recorded();
    let recorder = Recorder::new(alloc);
    let mut parser = Parser::new_with_callbacks(alloc, rows, cols, capacity, recorder)?;
    // Only for the proof: a call on a screen makes its invariant available.
    parser.screen().size();
    parser.process(output)?;
    // Only for the proof: naming the result before returning it makes the callee's clauses
    // available.
    let text = finish(alloc, &mut parser)?;
    Ok(text)
}

/// Returns the text that the parser's recorder has written, followed by the rows of the parser's
/// scrollback and page.
fn finish(alloc: Global, parser: &mut Parser<Recorder>) -> Result<String, Error>
    ensures whole { IfOk result (λ text. parser.old.callbacks.is_whole ≡ true) }
    ensures text { IfOk result (λ text. string_bytes text
        ≡ parser.old.callbacks.text ++ basic_texts parser.old.callbacks.state (all_rows parser.old.screen)) }
    ensures memory { OnlyOutOfMemory result }
{
    let (screen, recorder) = parser.screen_and_callbacks_mut();
    recorder.capture(screen)?;
    match String::from_str(alloc, recorder.text()) {
        Ok(text) => Ok(text),
        Err(_) => Err(Error::OutOfMemory),
    }
}
