//! Control sequences (CSI).

ghost use Rattle.std.specs.Prelude.{◌≡◌, ◌≢◌, ◌-◌, ◌<◌, None, Some, length};
ghost use Rattle.vt100.specs.Internals.{Does, DoesOrStops, report_of};
ghost use Rattle.vt_screen.specs.Calls.{UnhandledCsi};
ghost use Rattle.vt_screen.specs.Controls.{counted_step, csi_steps, intermediate_steps, number_at, number_or, other_steps};
ghost use Rattle.vt_screen.specs.Controls.{scrolling_steps, page_erasing, unmarked_steps, private_steps};
ghost use Rattle.vt_screen.specs.Controls.{row_erasing, size_or, space_steps, style_of, window_steps, seen_of};
ghost use Rattle.vt_grid.specs.declared.grid.moves.CursorMove.TheVariants.{To};
ghost use Rattle.vt_grid.specs.declared.page_step.PageStep.TheVariants as page;
ghost use Rattle.vt_screen.specs.Steps.{display_after};
ghost use Rattle.vt_screen.specs.Steps as step;

use crate::repeating::repeat;
use crate::sequence::Sequence;
use crate::{numbers, private_modes, sgr};
use vt_cells::{CursorStyle, Error};
use vt_grid::{CursorMove, PageStep};
use vt_scan::Parameters;
use vt_screen::screen::{controls, scrolling};
use vt_screen::{Callbacks, ModeStep, Screen};

/// Applies a control sequence to the screen and invokes the callbacks that it
/// calls for.
///
/// # Errors
///
/// Returns `Error::OutOfMemory` if an allocation fails. The steps before the
/// failing one remain in effect.
#[inline(always)]
#[tactic(auto, using(crate::proofs::Stepping::by_intermediates))]
pub fn perform<CB: Callbacks>(
    screen: &mut Screen,
    callbacks: &mut CB,
    parameters: &Parameters,
    intermediates: &[u8],
    byte: u8,
) -> Result<(), Error>
    ensures { DoesOrStops CB.does callbacks.old screen.old
        (csi_steps parameters.now.groups intermediates.now byte (seen_of screen.old))
        callbacks.new screen.new result }
{
    let Some(intermediate) = numbers::intermediate_at(intermediates, 0) else {
        return unmarked(screen, callbacks, parameters, byte);
    };
    let sequence = Sequence {
        first: Some(intermediate),
        second: numbers::intermediate_at(intermediates, 1),
        parameters,
        byte,
    };
    with_intermediate(screen, callbacks, intermediate, sequence)
}

/// Performs a control sequence without a private marker or an intermediate
/// byte.
///
/// CUP and SGR are tested first because they are by far the most frequent.
///
/// # Errors
///
/// Returns `Error::OutOfMemory` if an allocation fails. The steps before the
/// failing one remain in effect.
#[inline(always)]
fn unmarked<CB: Callbacks>(
    screen: &mut Screen,
    callbacks: &mut CB,
    parameters: &Parameters,
    byte: u8,
) -> Result<(), Error>
    ensures { DoesOrStops CB.does callbacks.old screen.old
        (unmarked_steps parameters.now.groups byte (seen_of screen.old)) callbacks.new screen.new result }
{
    if byte == b'm' {
        sgr::perform(screen, callbacks, parameters);
        return Ok(());
    }
    if byte == b'H' {
        move_to(screen, parameters);
        return Ok(());
    }
    unmarked_by_table(screen, callbacks, parameters, byte)
}

/// Performs a control sequence without a private marker or an intermediate
/// byte, by dispatching on its final byte.
///
/// # Errors
///
/// Returns `Error::OutOfMemory` if an allocation fails. The steps before the
/// failing one remain in effect.
#[inline(never)]
#[tactic(auto, using(crate::proofs::Stepping::by_counts))]
fn unmarked_by_table<CB: Callbacks>(
    screen: &mut Screen,
    callbacks: &mut CB,
    parameters: &Parameters,
    byte: u8,
) -> Result<(), Error>
    requires position { byte ≢ 0x48 }
    requires rendition { byte ≢ 0x6D }
    ensures { DoesOrStops CB.does callbacks.old screen.old
        (unmarked_steps parameters.now.groups byte (seen_of screen.old)) callbacks.new screen.new result }
{
    let count = numbers::number_or(1, parameters, 0);
    if let Some(step) = counted(byte, count) {
        controls::apply(screen, step);
        return Ok(());
    }
    let sequence = Sequence {
        first: None,
        second: None,
        parameters,
        byte,
    };
    uncounted(screen, callbacks, sequence, count)
}

/// Performs a control sequence that has neither a private marker nor an intermediate byte and that
/// neither [`unmarked`] itself nor [`counted`] handles. SU and REP may scroll rows off the page.
///
/// `count` is the first parameter, which defaults to 1.
///
/// # Errors
///
/// Returns `Error::OutOfMemory` if an allocation fails. The steps before the
/// failing one remain in effect.
#[inline(always)]
#[tactic(auto, using(crate::proofs::Stepping::tested_refusal), unfolding(vt_screen::specs::Controls::scrolling_steps))]
fn uncounted<CB: Callbacks>(
    screen: &mut Screen,
    callbacks: &mut CB,
    sequence: Sequence<'_>,
    count: u16,
) -> Result<(), Error>
    requires report { report_of sequence
        ≡ UnhandledCsi None None sequence.parameters.now.groups sequence.byte }
    requires position { sequence.byte ≢ 0x48 }
    requires rendition { sequence.byte ≢ 0x6D }
    requires count { count ≡ number_or 1 0 sequence.parameters.now.groups }
    ensures { DoesOrStops CB.does callbacks.old screen.old
        (scrolling_steps sequence.entry.parameters.now.groups sequence.entry.byte (seen_of screen.old))
        callbacks.new screen.new result }
{
    match sequence.byte {
        b'S' => {
            scrolling::su(screen, callbacks, count)?;
            Ok(())
        }
        b'b' => repeat(screen, callbacks, count),
        _ => {
            other(screen, callbacks, sequence);
            Ok(())
        }
    }
}

/// Returns the page step that the control sequence with the final byte `byte` and the parameter
/// `count` performs, or `None` if this function does not handle the sequence. `count` must be at
/// least 1.
#[inline(always)]
#[tactic(auto, using(std::proofs::lemmas::Bool::Decides::nat_tests), unfolding(vt_screen::specs::Controls::counted_step))]
fn counted(byte: u8, count: u16) -> Option<PageStep>
    requires { 0 < count }
    ensures { result ≡ counted_step byte count }
{
    let step = match byte {
        b'@' => PageStep::InsertChars(count),
        b'A' => PageStep::Move(CursorMove::Up(count)),
        b'B' => PageStep::Move(CursorMove::Down(count)),
        b'C' => PageStep::Move(CursorMove::Right(count)),
        b'D' => PageStep::Move(CursorMove::Left(count)),
        b'E' => PageStep::Move(CursorMove::NextLine(count)),
        b'F' => PageStep::Move(CursorMove::PreviousLine(count)),
        b'G' | b'`' => PageStep::Move(CursorMove::ToColumn(count - 1)),
        b'L' => PageStep::InsertLines(count),
        b'M' => PageStep::DeleteLines(count),
        b'P' => PageStep::DeleteChars(count),
        b'T' => PageStep::ScrollDown(count),
        b'X' => PageStep::EraseChars(count),
        b'd' => PageStep::Move(CursorMove::ToRow(count - 1)),
        _ => return None,
    };
    Some(step)
}

/// Performs HVP, ED, EL, DECSTBM or a window operation, or reports an unknown
/// control sequence.
///
/// CUP and SGR never reach this function, because [`unmarked`] handles them.
#[inline(always)]
#[tactic(auto, using(crate::proofs::Stepping::tested_steps), unfolding(vt_screen::specs::Controls::other_steps))]
fn other<CB: Callbacks>(screen: &mut Screen, callbacks: &mut CB, sequence: Sequence<'_>)
    requires report { report_of sequence
        ≡ UnhandledCsi None None sequence.parameters.now.groups sequence.byte }
    requires position { sequence.byte ≢ 0x48 }
    requires rendition { sequence.byte ≢ 0x6D }
    ensures { Does CB.does callbacks.old screen.old
        (other_steps sequence.entry.parameters.now.groups sequence.entry.byte (seen_of screen.old))
        callbacks.new screen.new }
{
    match sequence.byte {
        b'f' => move_to(screen, sequence.parameters),
        b'J' => erase_page(screen, callbacks, sequence),
        b'K' => erase_row(screen, callbacks, sequence),
        b'r' => set_region(screen, sequence.parameters),
        b't' => window(screen, callbacks, sequence),
        _ => sequence.report(screen, callbacks),
    }
}

/// Performs CUP or HVP. The row and column are 1-based and default to 1.
#[inline(always)]
fn move_to(screen: &mut Screen, parameters: &Parameters)
    ensures { screen.new
        ≡ display_after (step.OnPage (page.Move (To (number_or 1 0 parameters.now.groups - 1)
        (number_or 1 1 parameters.now.groups - 1))))
        screen.old }
{
    let row = numbers::number_or(1, parameters, 0);
    let col = numbers::number_or(1, parameters, 1);
    let place = CursorMove::To {
        row: row - 1,
        col: col - 1,
    };
    controls::apply(screen, PageStep::Move(place));
}

/// Performs DECSTBM. The rows are 1-based; the top defaults to 1, and the
/// bottom to the last row.
fn set_region(screen: &mut Screen, parameters: &Parameters)
    ensures { screen.new
        ≡ display_after (step.OnPage (page.SetRegion (number_or 1 0 parameters.now.groups - 1)
        (number_or (length screen.old.page.rows) 1 parameters.now.groups - 1)))
        screen.old }
{
    let (rows, _) = screen.size();
    let top = numbers::number_or(1, parameters, 0);
    let bottom = numbers::number_or(rows.get(), parameters, 1);
    let step = PageStep::SetRegion {
        top: top - 1,
        bottom: bottom - 1,
    };
    controls::apply(screen, step);
}

/// Performs ED (Erase in Display), or reports an unknown parameter.
#[tactic(auto, using(crate::proofs::Stepping::steps_taken), unfolding(vt_screen::specs::Controls::page_erasing))]
fn erase_page<CB: Callbacks>(screen: &mut Screen, callbacks: &mut CB, sequence: Sequence<'_>)
    ensures { Does CB.does callbacks.old screen.old
        (page_erasing (report_of sequence.entry) (number_at 0 sequence.entry.parameters.now.groups))
        callbacks.new screen.new }
{
    match sequence.parameters.number(0) {
        0 => controls::apply(screen, PageStep::EraseBelow),
        1 => controls::apply(screen, PageStep::EraseAbove),
        2 => controls::apply(screen, PageStep::ErasePage),
        3 => scrolling::erase_scrollback(screen, callbacks),
        _ => sequence.report(screen, callbacks),
    }
}

/// Performs EL (Erase in Line), or reports an unknown parameter.
#[tactic(auto, using(crate::proofs::Stepping::tested_steps), unfolding(vt_screen::specs::Controls::row_erasing))]
fn erase_row<CB: Callbacks>(screen: &mut Screen, callbacks: &mut CB, sequence: Sequence<'_>)
    ensures { Does CB.does callbacks.old screen.old
        (row_erasing (report_of sequence.entry) (number_at 0 sequence.entry.parameters.now.groups))
        callbacks.new screen.new }
{
    match sequence.parameters.number(0) {
        0 => controls::apply(screen, PageStep::EraseRest),
        1 => controls::apply(screen, PageStep::EraseStart),
        2 => controls::apply(screen, PageStep::EraseRow),
        _ => sequence.report(screen, callbacks),
    }
}

/// Performs a window operation (xterm, `CSI t`). Operation 8 invokes
/// [`Callbacks::resize`] with the requested size; all others are reported as
/// unhandled.
#[tactic(auto, using(crate::proofs::Stepping::tested_steps), unfolding(vt_screen::specs::Controls::window_steps))]
fn window<CB: Callbacks>(screen: &mut Screen, callbacks: &mut CB, sequence: Sequence<'_>)
    requires { report_of sequence ≡ UnhandledCsi None None sequence.parameters.now.groups 0x74 }
    ensures { Does CB.does callbacks.old screen.old
        (window_steps sequence.entry.parameters.now.groups (seen_of screen.old))
        callbacks.new screen.new }
{
    if sequence.parameters.number(0) != 8 {
        sequence.report(screen, callbacks);
        return;
    }
    let (rows, cols) = screen.size();
    let rows = number_or_own(rows.get(), sequence.parameters, 1);
    let cols = number_or_own(cols.get(), sequence.parameters, 2);
    callbacks.resize(screen, (rows, cols));
}

/// Returns the first number of parameter group `i`, or `own` (the screen's current number of rows
/// or columns) if there is no such group.
fn number_or_own(own: u16, parameters: &Parameters, i: usize) -> u16
    ensures { result ≡ size_or own i parameters.now.groups }
{
    if i >= parameters.group_count() {
        return own;
    }
    parameters.number(i)
}

/// Performs a control sequence with a private marker or an intermediate byte.
///
/// # Errors
///
/// Returns `Error::OutOfMemory` if an allocation fails. The steps before the
/// failing one remain in effect.
#[inline(never)]
#[tactic(auto, using(crate::proofs::Stepping::tested_steps), unfolding(vt_screen::specs::Controls::intermediate_steps))]
fn with_intermediate<CB: Callbacks>(
    screen: &mut Screen,
    callbacks: &mut CB,
    intermediate: u8,
    sequence: Sequence<'_>,
) -> Result<(), Error>
    requires { sequence.first ≡ Some intermediate }
    ensures { DoesOrStops CB.does callbacks.old screen.old
        (intermediate_steps intermediate sequence.entry.second sequence.entry.parameters.now.groups sequence.entry.byte)
        callbacks.new screen.new result }
{
    match intermediate {
        b'?' => private(screen, callbacks, sequence)?,
        b' ' => spaced(screen, callbacks, sequence),
        _ => sequence.report(screen, callbacks),
    }
    Ok(())
}

/// Performs a control sequence with the private marker `?`.
///
/// # Errors
///
/// Returns `Error::OutOfMemory` if an allocation fails. The steps before the
/// failing one remain in effect.
#[tactic(auto, using(crate::proofs::Stepping::tested_steps), unfolding(vt_screen::specs::Controls::private_steps))]
fn private<CB: Callbacks>(
    screen: &mut Screen,
    callbacks: &mut CB,
    sequence: Sequence<'_>,
) -> Result<(), Error>
    requires { sequence.first ≡ Some 0x3F }
    ensures { DoesOrStops CB.does callbacks.old screen.old
        (private_steps sequence.entry.second sequence.entry.parameters.now.groups sequence.entry.byte)
        callbacks.new screen.new result }
{
    match sequence.byte {
        b'J' => erase_page(screen, callbacks, sequence),
        b'K' => erase_row(screen, callbacks, sequence),
        b'h' => private_modes::perform(screen, callbacks, true, sequence)?,
        b'l' => private_modes::perform(screen, callbacks, false, sequence)?,
        _ => sequence.report(screen, callbacks),
    }
    Ok(())
}

/// Performs a control sequence whose first intermediate byte is a space. DECSCUSR (final byte `q`)
/// sets the cursor style, or is reported if the style is unknown. Any other sequence is reported
/// without its intermediate bytes.
#[tactic(auto, using(crate::proofs::Stepping::tested_steps), unfolding(vt_screen::specs::Controls::space_steps))]
fn spaced<CB: Callbacks>(screen: &mut Screen, callbacks: &mut CB, sequence: Sequence<'_>)
    requires { sequence.first ≡ Some 0x20 }
    ensures { Does CB.does callbacks.old screen.old
        (space_steps sequence.entry.second sequence.entry.parameters.now.groups sequence.entry.byte)
        callbacks.new screen.new }
{
    if sequence.byte != b'q' {
        let without_intermediates = Sequence {
            first: None,
            second: None,
            ..sequence
        };
        without_intermediates.report(screen, callbacks);
        return;
    }
    match style(sequence.parameters.number(0)) {
        Some(style) => controls::set_mode(screen, ModeStep::SetCursorStyle(style)),
        None => sequence.report(screen, callbacks),
    }
}

/// Returns the cursor style that `number` selects in DECSCUSR, or `None` if the
/// number is unknown.
#[tactic(auto, using(crate::proofs::Stepping::tested_steps), unfolding(vt_screen::specs::Controls::style_of))]
fn style(number: u16) -> Option<CursorStyle>
    ensures { result ≡ style_of number }
{
    match number {
        0 => Some(CursorStyle::Default),
        1 => Some(CursorStyle::BlinkBlock),
        2 => Some(CursorStyle::SteadyBlock),
        3 => Some(CursorStyle::BlinkUnderline),
        4 => Some(CursorStyle::SteadyUnderline),
        5 => Some(CursorStyle::BlinkVerticalBar),
        6 => Some(CursorStyle::SteadyVerticalBar),
        _ => None,
    }
}
