//! Applies the scanner's events to the screen and invokes the callbacks for
//! them.

ghost use Rattle.std.specs.Prelude.{◌≡◌, ◌==◌, ◌&&◌, ◌||◌, [], false, nat_le};
ghost use Rattle.vt100.specs.Internals.{Does, DoesOrStops};
ghost use Rattle.vt_scan.specs.Scanner.{event_of};
ghost use Rattle.vt_scan.specs.declared.event.Event.{Event};
ghost use Rattle.vt_screen.specs.Run.{Performs, state};
ghost use Rattle.vt_screen.specs.Controls.{character_steps, control_steps, escape_steps, seen_of, steps_of};

use crate::{csi, numbers, osc};
use vt_cells::Error;
use vt_grid::{CursorMove, PageStep};
use vt_scan::{Event, Scanner};
use vt_screen::screen::{controls, pages, printing, scrolling};
use vt_screen::{Callbacks, ModeStep, Screen};

/// Applies one scanner event to the screen and invokes the callbacks that the event calls for.
///
/// # Errors
///
/// Returns `Error::OutOfMemory` if an allocation fails. The steps before the
/// failing one remain in effect.
#[inline(always)]
pub fn perform<CB: Callbacks>(
    scanner: &Scanner,
    screen: &mut Screen,
    callbacks: &mut CB,
    event: Event,
) -> Result<(), Error>
    ensures { DoesOrStops CB.does callbacks.old screen.old
        (steps_of (event_of scanner.now event) (seen_of screen.old)) callbacks.new screen.new result }
{
    match event {
        Event::Character(character) => print_apart(screen, callbacks, character),
        Event::Executed(byte) => execute(screen, callbacks, byte),
        Event::Escape(byte) => {
            escape_sequence(scanner, screen, callbacks, byte);
            Ok(())
        }
        Event::Csi(byte) => control_sequence(scanner, screen, callbacks, byte),
        Event::Osc => {
            command(scanner, screen, callbacks);
            Ok(())
        }
    }
}

/// Performs the control sequence that the scanner has collected, with the final
/// byte `byte`.
///
/// # Errors
///
/// Returns `Error::OutOfMemory` if an allocation fails. The steps before the
/// failing one remain in effect.
#[inline(always)]
pub fn control_sequence<CB: Callbacks>(
    scanner: &Scanner,
    screen: &mut Screen,
    callbacks: &mut CB,
    byte: u8,
) -> Result<(), Error>
    ensures { DoesOrStops CB.does callbacks.old screen.old
        (steps_of (event_of scanner.now (Event.Csi byte)) (seen_of screen.old)) callbacks.new screen.new result }
{
    csi::perform(
        screen,
        callbacks,
        scanner.parameters(),
        scanner.intermediates(),
        byte,
    )
}

/// Performs the escape sequence with the final byte `byte` and the intermediate
/// bytes that the scanner has collected.
#[inline(always)]
pub fn escape_sequence<CB: Callbacks>(
    scanner: &Scanner,
    screen: &mut Screen,
    callbacks: &mut CB,
    byte: u8,
)
    ensures { Performs CB.does (state callbacks.old screen.old)
        (event_of scanner.now (Event.Escape byte)) (state callbacks.new screen.new) }
{
    escape(screen, callbacks, scanner.intermediates(), byte);
}

/// Splits the operating system command that the scanner has collected into its
/// parts and performs it.
#[inline(never)]
pub fn command<CB: Callbacks>(scanner: &Scanner, screen: &mut Screen, callbacks: &mut CB)
    ensures { Performs CB.does (state callbacks.old screen.old)
        (event_of scanner.now Event.Osc) (state callbacks.new screen.new) }
{
    osc::perform(screen, callbacks, scanner.parts().as_slice());
}

/// Prints a character, or reports it if it is a C1 control or U+FFFD (the replacement character for
/// malformed UTF-8).
///
/// # Errors
///
/// Returns `Error::OutOfMemory` if there is not enough memory to keep a row that scrolls off the
/// top. On error, the screen is unchanged.
#[inline(always)]
#[tactic(auto, using(crate::proofs::Stepping::called_or_refused), unfolding(vt_screen::specs::Controls::character_steps))]
pub fn print<CB: Callbacks>(
    screen: &mut Screen,
    callbacks: &mut CB,
    character: char,
) -> Result<(), Error>
    ensures { DoesOrStops CB.does callbacks.old screen.old
        (character_steps character) callbacks.new screen.new result }
{
    if is_reported(character) {
        callbacks.unhandled_char(screen, character);
        return Ok(());
    }
    printing::text(screen, callbacks, character)?;
    Ok(())
}

/// Prints or reports a character, as [`print`] does, on code paths that are rarely taken.
///
/// This function is never inlined, because inlining it would slow down the loop over the input
/// bytes.
///
/// # Errors
///
/// Returns `Error::OutOfMemory` if there is not enough memory to keep a row that scrolls off the
/// top. On error, the screen is unchanged.
#[inline(never)]
pub fn print_apart<CB: Callbacks>(
    screen: &mut Screen,
    callbacks: &mut CB,
    character: char,
) -> Result<(), Error>
    ensures { DoesOrStops CB.does callbacks.old screen.old
        (character_steps character) callbacks.new screen.new result }
{
    print(screen, callbacks, character)
}

/// Returns whether a character is reported instead of printed: one of U+0080 to U+009F (the C1
/// controls), or U+FFFD (the replacement character for malformed UTF-8).
#[inline]
#[tactic(auto, using(crate::proofs::Stepping::tested_steps))]
fn is_reported(character: char) -> bool
    ensures { result ≡ ((character == 0xFFFD) || (nat_le 0x80 character && nat_le character 0x9F)) }
{
    matches!(character, '\u{80}'..='\u{9f}' | '\u{fffd}')
}

/// Performs a single-byte control function (C0), or reports it if it is unknown.
///
/// # Errors
///
/// Returns `Error::OutOfMemory` if there is not enough memory to keep a row that scrolls off the
/// top. On error, the screen is unchanged.
#[inline]
#[tactic(auto, using(crate::proofs::Stepping::tested_refusal, crate::proofs::Stepping::control_feeds))]
pub fn execute<CB: Callbacks>(
    screen: &mut Screen,
    callbacks: &mut CB,
    byte: u8,
) -> Result<(), Error>
    ensures { DoesOrStops CB.does callbacks.old screen.old
        (control_steps byte) callbacks.new screen.new result }
{
    if (0x0A..=0x0C).contains(&byte) {
        scrolling::lf(screen, callbacks)?;
        return Ok(());
    }
    execute_other(screen, callbacks, byte);
    Ok(())
}

/// Performs a single-byte control function other than LF, VT or FF, or reports it if it is unknown.
#[tactic(auto, using(crate::proofs::Stepping::tested_steps), unfolding(vt_screen::specs::Controls::control_steps))]
fn execute_other<CB: Callbacks>(screen: &mut Screen, callbacks: &mut CB, byte: u8)
    requires { (nat_le 0x0A byte && nat_le byte 0x0C) ≡ false }
    ensures { Does CB.does callbacks.old screen.old (control_steps byte) callbacks.new screen.new }
{
    match byte {
        0x07 => callbacks.audible_bell(screen),
        0x08 => controls::apply(screen, PageStep::Move(CursorMove::Left(1))),
        0x09 => controls::apply(screen, PageStep::Move(CursorMove::Tab)),
        0x0D => controls::apply(screen, PageStep::Move(CursorMove::Return)),
        0x0E | 0x0F => {}
        _ => callbacks.unhandled_control(screen, byte),
    }
}

/// Performs the escape sequence with the given intermediate bytes and final byte. An unknown
/// sequence, or any sequence with an intermediate byte, is reported as unhandled.
#[tactic(auto, using(crate::proofs::Stepping::steps_called), unfolding(vt_screen::specs::Controls::escape_steps))]
fn escape<CB: Callbacks>(screen: &mut Screen, callbacks: &mut CB, intermediates: &[u8], byte: u8)
    ensures { Does CB.does callbacks.old screen.old (escape_steps intermediates.now byte) callbacks.new screen.new }
{
    if intermediates.is_empty() {
        lone_escape(screen, callbacks, byte);
        return;
    }
    let first = numbers::intermediate_at(intermediates, 0);
    let second = numbers::intermediate_at(intermediates, 1);
    callbacks.unhandled_escape(screen, first, second, byte);
}

/// Performs the escape sequence with the given final byte and no intermediate bytes, or reports it
/// if it is unknown.
#[tactic(auto, using(crate::proofs::Stepping::tested_steps), unfolding(vt_screen::specs::Controls::escape_steps))]
fn lone_escape<CB: Callbacks>(screen: &mut Screen, callbacks: &mut CB, byte: u8)
    ensures { Does CB.does callbacks.old screen.old (escape_steps [] byte) callbacks.new screen.new }
{
    match byte {
        b'7' => pages::decsc(screen),
        b'8' => pages::decrc(screen),
        b'=' => controls::set_mode(screen, ModeStep::UseApplicationKeypad(true)),
        b'>' => controls::set_mode(screen, ModeStep::UseApplicationKeypad(false)),
        b'M' => controls::apply(screen, PageStep::ReverseIndex),
        b'c' => pages::ris(screen),
        b'g' => callbacks.visual_bell(screen),
        _ => callbacks.unhandled_escape(screen, None, None, byte),
    }
}
