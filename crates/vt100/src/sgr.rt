//! Select Graphic Rendition (SGR).

ghost use Rattle.std.specs.Prelude.{◌≡◌, [], ◌∷◌, None, map};
ghost use Rattle.vt_screen.specs.Calls.{UnhandledCsi};
ghost use Rattle.vt100.specs.Internals.{Does};
ghost use Rattle.vt_screen.specs.Controls.{reading_steps, sgr_steps};

use crate::sequence::Sequence;
use vt_scan::Parameters;
use vt_screen::screen::controls;
use vt_screen::sgr::{Reading, Wanted};
use vt_screen::{Callbacks, Screen};

/// Applies the settings of an SGR sequence, group by group, and reports the sequence once for each
/// unknown group.
#[inline(never)]
pub fn perform<CB: Callbacks>(screen: &mut Screen, callbacks: &mut CB, parameters: &Parameters)
    ensures { Does CB.does callbacks.old screen.old
        (sgr_steps parameters.now.groups) callbacks.new screen.new }
{
    match parameters.lone_numbers() {
        Some(numbers) => set_by_numbers(screen, callbacks, parameters, numbers),
        None => set_by_groups(screen, callbacks, parameters),
    }
}

/// Applies the settings of an SGR sequence in which each parameter group is a
/// single number.
#[inline(always)]
fn set_by_numbers<CB: Callbacks>(
    screen: &mut Screen,
    callbacks: &mut CB,
    parameters: &Parameters,
    numbers: &[u16],
)
    requires { parameters.now.groups ≡ map (λ number. number ∷ []) numbers.now }
    ensures { Does CB.does callbacks.old screen.old
        (sgr_steps parameters.now.groups) callbacks.new screen.new }
{
    let mut wanted = Wanted::Any;
    for i in 0..numbers.len() {
        let group = [numbers[i]];
        let read = wanted.read(&group);
        apply(screen, callbacks, parameters, read.reading);
        wanted = read.wanted;
    }
}

/// Applies the settings of an SGR sequence with parameter groups of any length.
#[inline(never)]
fn set_by_groups<CB: Callbacks>(screen: &mut Screen, callbacks: &mut CB, parameters: &Parameters)
    ensures { Does CB.does callbacks.old screen.old
        (sgr_steps parameters.now.groups) callbacks.new screen.new }
{
    let mut wanted = Wanted::Any;
    for i in 0..parameters.group_count() {
        let read = wanted.read(parameters.group(i));
        apply(screen, callbacks, parameters, read.reading);
        wanted = read.wanted;
    }
}

/// Applies the effect of one group of an SGR sequence, or reports the sequence
/// if the group is unknown.
#[inline(always)]
#[tactic(auto, using(crate::proofs::Stepping::called, crate::proofs::Stepping::stepping))]
fn apply<CB: Callbacks>(
    screen: &mut Screen,
    callbacks: &mut CB,
    parameters: &Parameters,
    reading: Reading,
)
    ensures { Does CB.does callbacks.old screen.old
        (reading_steps parameters.now.groups reading) callbacks.new screen.new }
{
    match reading {
        Reading::Silent => {}
        Reading::Set(setting) => controls::render(screen, setting),
        Reading::Unhandled => report(screen, callbacks, parameters),
    }
}

/// Reports an SGR sequence to the callbacks because one of its groups is
/// unknown.
#[inline(never)]
fn report<CB: Callbacks>(screen: &mut Screen, callbacks: &mut CB, parameters: &Parameters)
    ensures { CB.does (UnhandledCsi None None parameters.now.groups 0x6D)
        callbacks.old screen.old callbacks.new screen.new }
{
    let sequence = Sequence {
        first: None,
        second: None,
        parameters,
        byte: b'm',
    };
    sequence.report(screen, callbacks);
}
