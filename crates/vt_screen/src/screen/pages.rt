//! Control functions that switch between the two pages, save and restore the
//! cursor, or reset the terminal.

ghost use Rattle.std.specs.Prelude.{◌≡◌, IsErr, IsSome, None, OnErr, OnOk};
ghost use Rattle.vt_cells.specs.Refusals.{OnlyOutOfMemory};
ghost use Rattle.vt_screen.specs.Internals.{screen_after_exchange, with_fresh_other, with_fresh_page, with_other};
ghost use Rattle.vt_screen.specs.Pages.{screen_after_enter};
ghost use Rattle.vt_screen.specs.Screen.{IsScreen};
ghost use Rattle.vt_screen.specs.Steps as step;
ghost use Rattle.vt_screen.specs.Steps.{Grows, display_after};

use super::Screen;
use crate::modes::Modes;
use std::mem;
use vt_cells::{Attrs, Error};
use vt_grid::Grid;

/// Saves the cursor, origin mode and attributes (DECSC).
pub fn decsc(screen: &mut Screen)
    ensures { screen.new ≡ display_after step.SaveCursor screen.old }
{
    screen.grid.save_cursor();
    screen.saved_attrs = screen.attrs;
}

/// Restores the saved cursor, origin mode and attributes (DECRC).
pub fn decrc(screen: &mut Screen)
    ensures { screen.new ≡ display_after step.RestoreCursor screen.old }
{
    screen.grid.restore_cursor();
    screen.attrs = screen.saved_attrs;
}

/// Switches to the alternate page without clearing it, and stops displaying
/// scrollback (xterm, DEC private mode 47).
///
/// # Errors
///
/// Returns `Error::OutOfMemory` if the alternate page, which is created on the
/// first switch, cannot be allocated. On error, the screen is unchanged.
#[tactic(auto, using(crate::proofs::StepPages::entered_with))]
pub fn enter_alternate(screen: &mut Screen) -> Result<(), Error>
    ensures ok { OnOk result (screen.new ≡ display_after step.EnterAlternate screen.old) }
    ensures err { OnErr result (screen.new ≡ screen.old) }
    ensures grows { IsErr result → Grows step.EnterAlternate screen.old }
    ensures memory { OnlyOutOfMemory result }
{
    make_other(screen)?;
    show_alternate(screen);
    Ok(())
}

/// Saves the cursor as [`decsc`] does, then switches to the alternate page and
/// clears it (xterm, DEC private mode 1049).
///
/// # Errors
///
/// Returns `Error::OutOfMemory` if the alternate page, which is created on the
/// first switch, cannot be allocated. On error, the screen is unchanged.
#[tactic(auto, using(crate::proofs::StepPages::entered_fresh_with))]
pub fn enter_fresh_alternate(screen: &mut Screen) -> Result<(), Error>
    ensures ok { OnOk result (screen.new ≡ display_after step.EnterFresh screen.old) }
    ensures err { OnErr result (screen.new ≡ screen.old) }
    ensures grows { IsErr result → Grows step.EnterFresh screen.old }
    ensures memory { OnlyOutOfMemory result }
{
    make_other(screen)?;
    decsc(screen);
    show_alternate(screen);
    clear_active(screen);
    Ok(())
}

/// Switches to the main page (xterm, reset of DEC private mode 47).
pub fn leave_alternate(screen: &mut Screen)
    ensures value { screen.new ≡ display_after step.LeaveAlternate screen.old }
    ensures whole { IsScreen screen.old }
{
    if !screen.is_alternate {
        return;
    }
    exchange(screen);
}

/// Switches to the main page and restores the cursor as [`decrc`] does (xterm,
/// reset of DEC private mode 1049).
pub fn leave_and_restore(screen: &mut Screen)
    ensures { screen.new ≡ display_after step.LeaveRestoring screen.old }
{
    leave_alternate(screen);
    decrc(screen);
}

/// Resets the screen to the state of a fresh screen with the same size and
/// scrollback capacity (RIS). Allocates nothing.
///
/// No callbacks are invoked for the rows of scrollback. If the alternate page
/// has been created, it stays allocated and becomes blank.
pub fn ris(screen: &mut Screen)
    ensures { screen.new ≡ display_after step.Reset screen.old }
{
    leave_alternate(screen);
    clear_other(screen);
    clear_active(screen);
    screen.scrollback.clear(&mut ());
    screen.attrs = Attrs::new();
    screen.saved_attrs = Attrs::new();
    screen.hidden = false;
    screen.modes = Modes::new();
    screen.last = None;
}

/// Creates the inactive page if it does not exist yet.
///
/// # Errors
///
/// Returns `Error::OutOfMemory` if the page cannot be allocated. On error, the
/// screen is unchanged.
fn make_other(screen: &mut Screen) -> Result<(), Error>
    ensures ok { OnOk result (screen.new ≡ with_other screen.old) }
    ensures err { OnErr result (screen.new ≡ screen.old) }
    ensures grows { IsErr result → screen.old.other ≡ None }
    ensures memory { OnlyOutOfMemory result }
    ensures whole { IsScreen screen.old }
{
    if screen.other.is_some() {
        return Ok(());
    }
    let page = Grid::new(screen.alloc, screen.grid.size())?;
    screen.other = Some(page);
    Ok(())
}

/// Switches to the alternate page, which must have been created, and stops displaying scrollback.
/// Does nothing if the alternate page is already active.
fn show_alternate(screen: &mut Screen)
    requires { IsSome screen.old.other }
    ensures { screen.new ≡ screen_after_enter screen.old }
{
    if screen.is_alternate {
        return;
    }
    screen.scrollback.leave_view();
    exchange(screen);
}

/// Swaps the active and the inactive page, if the inactive page exists.
pub(super) fn exchange(screen: &mut Screen)
    ensures { screen.new ≡ screen_after_exchange screen.old }
{
    let Some(other) = &mut screen.other else {
        return;
    };
    mem::swap(&mut screen.grid, other);
    mem::swap(&mut screen.scrollback, &mut screen.other_scrollback);
    screen.is_alternate = !screen.is_alternate;
}

/// Resets the active page to the state of a fresh page.
fn clear_active(screen: &mut Screen)
    ensures { screen.new ≡ with_fresh_page screen.old }
{
    screen.grid.clear();
}

/// Resets the inactive page to the state of a fresh page, if the inactive page
/// exists.
fn clear_other(screen: &mut Screen)
    ensures { screen.new ≡ with_fresh_other screen.old }
{
    let Some(other) = &mut screen.other else {
        return;
    };
    other.clear();
}
