//! A mirror with a viewer that joins late, and then displays what the mirror displays.

ghost use Rattle.std.specs.Prelude.{◌≡◌, ◌<◌, IfErr, IfOk, OnOk, true};
ghost use Rattle.vt100.specs.Parser.{Ran, does_nothing};
ghost use Rattle.vt100.specs.Pieces.{IsPlainParser};
ghost use Rattle.example_contracts.specs.Failing.{HasSides, IsFailure, IsLateFailure};
ghost use Rattle.example_contracts.specs.Remote.{ShowsScreen};
ghost use Rattle.vt_cells.specs.Refusals.{OnlyOutOfMemory};
ghost use Rattle.vt_mirror.specs.Mirror.{is_viewer, next_number};
ghost use Rattle.vt_mirror.specs.Watching.{IsFresh, ReadsText, TakesUpdate, TakesSize};
ghost use Rattle.vt_redraw.specs.Steady.{IsSteady};
ghost use Rattle.vt_screen.specs.Shown.{display};

use std::num::NonZeroU16;
use vt_mirror::{Mirror, Update, laws};
use vt100::{Callbacks, Error, Parser};

/// Feeds `output` to a mirror, adds a viewer, and passes the viewer's first update to `terminal`.
/// Returns the viewer's number, which is the next unused one.
///
/// A terminal is plain if it is in ground state, with the full scroll region, origin mode off and
/// no scrollback displayed. A display is steady if every visible glyph reproduces itself when
/// printed. After the call, the terminal has the same display as the mirror, provided that no
/// viewer had joined the mirror before, the terminal was plain, and the mirror's display is steady.
/// The terminal may have had any size before.
///
/// # Errors
///
/// Returns [`Error::OutOfMemory`] if an allocation fails, [`Error::Failed`] if the mirror or the
/// terminal failed before, and [`Error::NoNumber`] if no viewer number is left.
pub fn show_late<CB: Callbacks>(
    mirror: &mut Mirror,
    output: &[u8],
    terminal: &mut Parser<CB>,
) -> Result<u64, Error>
    ensures read { IfOk result (λ viewer. Ran does_nothing mirror.old.parser output.now mirror.new.parser) }
    ensures shows { IfOk result (λ viewer. IsFresh mirror.old → IsPlainParser terminal.old →
        IsSteady (display mirror.new.parser.screen) → ShowsScreen mirror.new.parser.screen terminal.new) }
    ensures number { IfOk result (λ viewer. viewer ≡ next_number mirror.old.viewers.last) }
    ensures joined { IfOk result (λ viewer. is_viewer mirror.new.viewers viewer ≡ true) }
    ensures only { IfErr result (IsLateFailure mirror.old terminal.old) }
{
    laws::viewers::<CB>();
    // Only for the proof: a call on a screen makes its invariant available.
    terminal.screen().size();
    mirror.process(output)?;
    let viewer = mirror.join()?;
    let answer = mirror.update(viewer)?;
    let Some(update) = answer else {
        return Err(Error::NoNumber);
    };
    take_update(terminal, &update)?;
    Ok(viewer)
}

/// Applies an update to a terminal: first the size, if it is a full update, and then the text.
///
/// # Errors
///
/// Returns [`Error::OutOfMemory`] if an allocation fails, and [`Error::Failed`] if the terminal
/// failed before or if a full update has no rows or no columns (no mirror returns such an update).
pub fn take_update<CB: Callbacks>(terminal: &mut Parser<CB>, update: &Update) -> Result<(), Error>
    ensures takes { OnOk result (TakesUpdate update.now terminal.old terminal.new) }
    ensures only { HasSides update.now → IfErr result (IsFailure terminal.old) }
{
    match update {
        Update::Diff(text) => read_text(terminal, text.as_str()),
        Update::Full { rows, cols, text } => {
            take_size(terminal, *rows, *cols)?;
            read_text(terminal, text.as_str())
        }
    }
}

/// Resizes a terminal. Returns [`Error::Failed`] if `rows` or `cols` is 0, which is never the case
/// for an update of a mirror.
fn take_size<CB: Callbacks>(terminal: &mut Parser<CB>, rows: u16, cols: u16) -> Result<(), Error>
    ensures takes { OnOk result (TakesSize rows cols terminal.old terminal.new) }
    ensures only { 0 < rows → 0 < cols → OnlyOutOfMemory result }
{
    let Some(rows) = NonZeroU16::new(rows) else {
        return Err(Error::Failed);
    };
    let Some(cols) = NonZeroU16::new(cols) else {
        return Err(Error::Failed);
    };
    terminal.set_size(rows, cols)
}

/// Passes a string to a terminal in one call to `process`.
fn read_text<CB: Callbacks>(terminal: &mut Parser<CB>, text: &str) -> Result<(), Error>
    ensures reads { OnOk result (ReadsText text.now terminal.old terminal.new) }
    ensures only { IfErr result (IsFailure terminal.old) }
{
    terminal.process(text.as_bytes())?;
    // Only for the proof: a call on a screen makes its invariant available.
    terminal.screen().size();
    Ok(())
}
