//! REP, which repeats the last printed character.

ghost use Rattle.std.specs.Prelude.{◌≡◌, ◌≢◌, ◌+◌, ◌<◌, ◌≤◌, replicate};
ghost use Rattle.vt100.specs.Internals.{DoesOrStops, RepeatsOrStops};
ghost use Rattle.vt_screen.specs.Controls.{repeated};
ghost use Rattle.vt_screen.specs.Steps as step;
ghost use Rattle.vt_screen.specs.Texts.{screen_after_text};

use vt_cells::Error;
use vt_screen::screen::printing;
use vt_screen::{Callbacks, Screen};

/// The maximum number of characters printed in a single edit of the row.
const TEXT_ROOM: usize = 64;

/// Performs REP: prints the last printed character `count` more times, or does
/// nothing if there is none.
///
/// # Errors
///
/// Returns `Error::OutOfMemory` if there is not enough memory to keep a row
/// that scrolls off the top. Characters that were printed before the failure
/// remain on the screen.
pub fn repeat<CB: Callbacks>(
    screen: &mut Screen,
    callbacks: &mut CB,
    count: u16,
) -> Result<(), Error>
    ensures { DoesOrStops CB.does callbacks.old screen.old
        (repeated count screen.old.last) callbacks.new screen.new result }
{
    let Some(character) = printing::last_char(screen) else {
        return Ok(());
    };
    let code = character as u32;
    if code >= 0x20 && code < 0x7F {
        repeat_ascii(screen, callbacks, code as u8, count)?;
        return Ok(());
    }
    repeat_other(screen, callbacks, character, count)?;
    Ok(())
}

/// Prints a printable ASCII character `count` times, in batches that fit on the
/// cursor's row.
///
/// # Errors
///
/// Returns `Error::OutOfMemory` if there is not enough memory to keep a row
/// that scrolls off the top. Characters that were printed before the failure
/// remain on the screen.
fn repeat_ascii<CB: Callbacks>(
    screen: &mut Screen,
    callbacks: &mut CB,
    byte: u8,
    count: u16,
) -> Result<(), Error>
    requires low { 0x20 ≤ byte }
    requires high { byte < 0x7F }
    ensures { DoesOrStops CB.does callbacks.old screen.old
        (replicate count (step.Print byte)) callbacks.new screen.new result }
{
    let mut left = count;
    while left > 0 {
        let printed = repeat_some(screen, callbacks, byte, left)?;
        left -= printed;
    }
    Ok(())
}

/// Prints a printable ASCII character up to `left` times (at most 64), stopping at the end of the
/// cursor's row, and returns how many times it was printed. If the cursor is already past the last
/// column, prints the character once, which may scroll the screen.
///
/// # Errors
///
/// Returns `Error::OutOfMemory` if there is not enough memory to keep a row that scrolls off the
/// top. On error, the screen is unchanged.
#[inline]
fn repeat_some<CB: Callbacks>(
    screen: &mut Screen,
    callbacks: &mut CB,
    byte: u8,
    left: u16,
) -> Result<u16, Error>
    requires low { 0x20 ≤ byte }
    requires high { byte < 0x7F }
    requires left { 0 < left }
    ensures { RepeatsOrStops CB.does callbacks.old screen.old
        left (step.Print byte) callbacks.new screen.new result }
{
    let count = left.min(printing::room(screen)).min(TEXT_ROOM as u16);
    if count == 0 {
        printing::text(screen, callbacks, char::from(byte))?;
        return Ok(1);
    }
    repeat_in_row(screen, byte, count);
    Ok(count)
}

/// Prints a printable ASCII character `count` times in a single edit of the row. `count` must be
/// from 1 to 64, and all the characters must fit on the cursor's row.
#[inline]
fn repeat_in_row(screen: &mut Screen, byte: u8, count: u16)
    requires low { 0x20 ≤ byte }
    requires high { byte < 0x7F }
    requires nonempty { 0 < count }
    requires most { count ≤ 64 }
    requires room { screen.old.page.column + count ≤ screen.old.page.width }
    ensures { screen.new ≡ screen_after_text (replicate count byte) screen.old }
{
    let text = [byte; TEXT_ROOM];
    printing::print_text(screen, &text[..usize::from(count)]);
}

/// Prints `character` `count` times, one at a time. [`repeat`] uses this
/// function for characters other than printable ASCII.
///
/// # Errors
///
/// Returns `Error::OutOfMemory` if there is not enough memory to keep a row
/// that scrolls off the top. Characters that were printed before the failure
/// remain on the screen.
fn repeat_other<CB: Callbacks>(
    screen: &mut Screen,
    callbacks: &mut CB,
    character: char,
    count: u16,
) -> Result<(), Error>
    requires { character ≢ 0xFFFD }
    ensures { DoesOrStops CB.does callbacks.old screen.old
        (replicate count (step.Print character)) callbacks.new screen.new result }
{
    for _ in 0..count {
        printing::text(screen, callbacks, character)?;
    }
    Ok(())
}
