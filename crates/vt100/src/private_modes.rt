//! Private modes (DECSET and DECRST).

ghost use Rattle.std.specs.Prelude.{◌≡◌, ◌==◌, [], ◌∷◌, IsErr, OnErr, OnOk, false};
ghost use Rattle.vt_cells.specs.Refusals.{OnlyOutOfMemory};
ghost use Rattle.vt100.specs.Internals.{Does, DoesOrStops, report_of};
ghost use Rattle.vt_screen.specs.Controls.{alternate_step, encoding_step, fresh_alternate_step};
ghost use Rattle.vt_screen.specs.Controls.{mode_step, mode_steps, mouse_step};
ghost use Rattle.vt_screen.specs.Steps.{Grows, display_after};

use crate::sequence::Sequence;
use vt_cells::{Error, MouseProtocolEncoding, MouseProtocolMode};
use vt_grid::PageStep;
use vt_screen::screen::{controls, pages};
use vt_screen::{Callbacks, ModeStep, Screen};

/// Sets (if `on` is true) or resets each private mode that a sequence names, and reports the
/// sequence once for each parameter group that names no known mode.
///
/// # Errors
///
/// Returns `Error::OutOfMemory` if the alternate page cannot be allocated. The modes handled before
/// the failing mode stay set or reset.
pub fn perform<CB: Callbacks>(
    screen: &mut Screen,
    callbacks: &mut CB,
    on: bool,
    sequence: Sequence<'_>,
) -> Result<(), Error>
    ensures { DoesOrStops CB.does callbacks.old screen.old
        (mode_steps on (report_of sequence.entry) sequence.entry.parameters.now.groups)
        callbacks.new screen.new result }
{
    for i in 0..sequence.parameters.group_count() {
        perform_group(
            screen,
            callbacks,
            on,
            sequence,
            sequence.parameters.group(i),
        )?;
    }
    Ok(())
}

/// Sets (if `on` is true) or resets the private mode that a parameter group names, or reports the
/// sequence if the group names no known mode.
///
/// # Errors
///
/// Returns `Error::OutOfMemory` if the alternate page cannot be allocated. On error, the screen is
/// unchanged.
#[tactic(auto, using(crate::proofs::Stepping::called, crate::proofs::Stepping::groups_met))]
fn perform_group<CB: Callbacks>(
    screen: &mut Screen,
    callbacks: &mut CB,
    on: bool,
    sequence: Sequence<'_>,
    group: &[u16],
) -> Result<(), Error>
    ensures { DoesOrStops CB.does callbacks.old screen.old
        (mode_steps on (report_of sequence.entry) (group.now ∷ [])) callbacks.new screen.new result }
{
    if group.len() != 1 {
        sequence.report(screen, callbacks);
        return Ok(());
    }
    set_mode(screen, callbacks, on, sequence, group[0])
}

/// Sets (if `on` is true) or resets the private mode with the given number, or reports the sequence
/// if the mode is unknown.
///
/// # Errors
///
/// Returns `Error::OutOfMemory` if the alternate page cannot be allocated. On error, the screen is
/// unchanged.
#[tactic(auto, using(crate::proofs::Stepping::pages_exchanged), unfolding(vt_screen::specs::Controls::mode_step))]
fn set_mode<CB: Callbacks>(
    screen: &mut Screen,
    callbacks: &mut CB,
    on: bool,
    sequence: Sequence<'_>,
    number: u16,
) -> Result<(), Error>
    ensures { DoesOrStops CB.does callbacks.old screen.old
        (mode_step on (report_of sequence.entry) number) callbacks.new screen.new result }
{
    match number {
        47 => show_alternate(screen, on)?,
        1049 => show_fresh_alternate(screen, on)?,
        _ => set_other_mode(screen, callbacks, on, sequence, number),
    }
    Ok(())
}

/// Sets (if `on` is true) or resets a private mode other than 47 and 1049, which switch pages.
/// Reports the sequence if the mode is unknown.
#[tactic(auto, using(crate::proofs::Stepping::tested_steps), unfolding(vt_screen::specs::Controls::mode_step))]
fn set_other_mode<CB: Callbacks>(
    screen: &mut Screen,
    callbacks: &mut CB,
    on: bool,
    sequence: Sequence<'_>,
    number: u16,
)
    requires first { (number == 47) ≡ false }
    requires second { (number == 1049) ≡ false }
    ensures { Does CB.does callbacks.old screen.old
        (mode_step on (report_of sequence.entry) number) callbacks.new screen.new }
{
    match number {
        1 => controls::set_mode(screen, ModeStep::UseApplicationCursor(on)),
        6 => controls::apply(screen, PageStep::UseOrigin(on)),
        9 => controls::set_mode(screen, mouse_step(on, MouseProtocolMode::Press)),
        25 => controls::set_hidden(screen, !on),
        1000 => controls::set_mode(screen, mouse_step(on, MouseProtocolMode::PressRelease)),
        1002 => controls::set_mode(screen, mouse_step(on, MouseProtocolMode::ButtonMotion)),
        1003 => controls::set_mode(screen, mouse_step(on, MouseProtocolMode::AnyMotion)),
        1005 => controls::set_mode(screen, encoding_step(on, MouseProtocolEncoding::Utf8)),
        1006 => controls::set_mode(screen, encoding_step(on, MouseProtocolEncoding::Sgr)),
        2004 => controls::set_mode(screen, ModeStep::UseBracketedPaste(on)),
        _ => sequence.report(screen, callbacks),
    }
}

/// Sets or resets mode 47: if `on` is true, switches to the alternate page
/// without clearing it; otherwise switches back to the main page.
///
/// # Errors
///
/// Returns `Error::OutOfMemory` if the alternate page cannot be allocated. On
/// error, the screen is unchanged.
fn show_alternate(screen: &mut Screen, on: bool) -> Result<(), Error>
    ensures ok { OnOk result (screen.new ≡ display_after (alternate_step on) screen.old) }
    ensures err { OnErr result (screen.new ≡ screen.old) }
    ensures grows { IsErr result → Grows (alternate_step on) screen.old }
    ensures memory { OnlyOutOfMemory result }
{
    if on {
        return pages::enter_alternate(screen);
    }
    pages::leave_alternate(screen);
    Ok(())
}

/// Sets or resets mode 1049: if `on` is true, saves the cursor and switches to
/// the alternate page, clearing it; otherwise switches back to the main page
/// and restores the cursor.
///
/// # Errors
///
/// Returns `Error::OutOfMemory` if the alternate page cannot be allocated. On
/// error, the screen is unchanged.
fn show_fresh_alternate(screen: &mut Screen, on: bool) -> Result<(), Error>
    ensures ok { OnOk result (screen.new ≡ display_after (fresh_alternate_step on) screen.old) }
    ensures err { OnErr result (screen.new ≡ screen.old) }
    ensures grows { IsErr result → Grows (fresh_alternate_step on) screen.old }
    ensures memory { OnlyOutOfMemory result }
{
    if on {
        return pages::enter_fresh_alternate(screen);
    }
    pages::leave_and_restore(screen);
    Ok(())
}

/// Returns the step that sets (if `on` is true) or resets the mouse mode `mode`. Resetting `mode`
/// turns mouse reporting off if `mode` is the active mode.
fn mouse_step(on: bool, mode: MouseProtocolMode) -> ModeStep
    ensures { result ≡ mouse_step on mode }
{
    if on {
        return ModeStep::SetMouseMode(mode);
    }
    ModeStep::ClearMouseMode(mode)
}

/// Returns the step that sets (if `on` is true) or resets the mouse encoding `encoding`. Resetting
/// `encoding` restores the default encoding if `encoding` is the active one.
fn encoding_step(on: bool, encoding: MouseProtocolEncoding) -> ModeStep
    ensures { result ≡ encoding_step on encoding }
{
    if on {
        return ModeStep::SetMouseEncoding(encoding);
    }
    ModeStep::ClearMouseEncoding(encoding)
}
