//! Counts the sequences that erase scrollback.

ghost use Rattle.std.specs.Prelude.{◌≡◌, ◌==◌, ◌&&◌, map, option_to_list};
ghost use Rattle.vt100.specs.Erasures.{erases_scrollback, erasures_after, erasures_after_event, may_be_erasing};
ghost use Rattle.vt_scan.specs.Scanner.{event_of, events_in};
ghost use Rattle.vt_scan.specs.declared.event.Event.{Event};
ghost use Rattle.vt_screen.specs.Controls.{number_at};

use crate::numbers;
use vt_scan::{Event, Events, Scanner};

/// Adds 1 to `erasures` if the control sequence that the scanner has collected, with the final byte
/// `byte`, erases scrollback. The count stays at `u64::MAX` when it has reached it.
#[inline(always)]
pub fn count_sequence(scanner: &Scanner, byte: u8, erasures: &mut u64)
    ensures { erasures.new ≡ erasures_after_event erasures.old (event_of scanner.now (Event.Csi byte)) }
{
    count(scanner, Event::Csi(byte), erasures);
}

/// Adds 1 to `erasures` if the escape sequence that the scanner has collected, with the final byte
/// `byte`, erases scrollback. The count stays at `u64::MAX` when it has reached it.
#[inline(always)]
pub fn count_escape(scanner: &Scanner, byte: u8, erasures: &mut u64)
    ensures { erasures.new ≡ erasures_after_event erasures.old (event_of scanner.now (Event.Escape byte)) }
{
    count(scanner, Event::Escape(byte), erasures);
}

/// Adds to `erasures` the number of events that erase scrollback, among those that a single input
/// byte has produced. The count stays at `u64::MAX` when it has reached it.
#[inline(always)]
pub fn count_each(scanner: &Scanner, events: Events, erasures: &mut u64)
    ensures { erasures.new ≡ erasures_after erasures.old (events_in scanner.now events) }
{
    count_some(scanner, events.first, erasures);
    count_some(scanner, events.second, erasures);
}

/// Adds 1 to `erasures` if there is an event and it erases scrollback.
#[inline(always)]
fn count_some(scanner: &Scanner, event: Option<Event>, erasures: &mut u64)
    ensures { erasures.new ≡ erasures_after erasures.old (map (event_of scanner.now) (option_to_list event)) }
{
    let Some(event) = event else {
        return;
    };
    count(scanner, event, erasures);
}

/// Adds 1 to `erasures` if an event erases scrollback.
#[inline(always)]
fn count(scanner: &Scanner, event: Event, erasures: &mut u64)
    ensures { erasures.new ≡ erasures_after_event erasures.old (event_of scanner.now event) }
{
    if erases_scrollback(scanner, event) {
        *erasures = erasures.saturating_add(1);
    }
}

/// Returns whether an event erases scrollback: RIS, or ED with the parameter 3, also with the
/// private marker `?`.
#[inline(always)]
fn erases_scrollback(scanner: &Scanner, event: Event) -> bool
    ensures { result ≡ erases_scrollback (event_of scanner.now event) }
{
    match event {
        Event::Escape(byte) => byte == b'c' && scanner.intermediates().is_empty(),
        Event::Csi(byte) => byte == b'J' && is_erasing(scanner),
        Event::Character(_) => false,
        Event::Executed(_) => false,
        Event::Osc => false,
    }
}

/// Returns whether ED erases scrollback with the parameters and intermediates that the scanner has
/// collected.
fn is_erasing(scanner: &Scanner) -> bool
    ensures { result ≡ (may_be_erasing scanner.now.intermediates && (number_at 0 scanner.now.table.groups == 3)) }
{
    may_be_erasing(scanner.intermediates()) && scanner.parameters().number(0) == 3
}

/// Returns whether a control sequence with the given private marker and intermediates can be ED: it
/// has none, or begins with the private marker `?`.
#[tactic(auto, using(crate::proofs::Stepping::by_intermediates))]
fn may_be_erasing(intermediates: &[u8]) -> bool
    ensures { result ≡ may_be_erasing intermediates.now }
{
    match numbers::intermediate_at(intermediates, 0) {
        Some(first) => first == b'?',
        None => true,
    }
}
