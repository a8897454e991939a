//! The designated and invoked character sets, and the effect of controls and sequences on them.

ghost use Rattle.std.specs.Prelude.{◌≡◌};
ghost use Rattle.vt_charsets.specs.Sets as effect;

use vt_scan::Parameters;

/// A character set. Sets other than DEC Special Graphics are read as ASCII.
#[derive(Clone, Copy, PartialEq, Eq, Debug)]
pub enum Charset {
    /// ASCII, or any set that is not translated.
    Ascii,

    /// DEC Special Graphics.
    Graphics,
}

/// One of the four graphic sets G0 to G3 of ECMA-35, to each of which a character set is designated.
#[derive(Clone, Copy, PartialEq, Eq, Debug)]
pub enum Slot {
    /// The graphic set that SI invokes.
    G0,

    /// The graphic set that SO invokes.
    G1,

    /// The graphic set that LS2 and SS2 invoke.
    G2,

    /// The graphic set that LS3 and SS3 invoke.
    G3,
}

/// The character set designated to each of G0 to G3, and the one of them that a locking shift has
/// invoked.
#[derive(Clone, Copy, PartialEq, Eq, Debug)]
pub struct Sets {
    /// The character set designated to G0.
    pub g0: Charset,

    /// The character set designated to G1.
    pub g1: Charset,

    /// The character set designated to G2.
    pub g2: Charset,

    /// The character set designated to G3.
    pub g3: Charset,

    /// The graphic set that the last locking shift invoked.
    pub shift: Slot,
}

/// Everything that determines in which character set the next character is printed.
#[derive(Clone, Copy, PartialEq, Eq, Debug)]
pub struct CharsetState {
    /// The designated and invoked sets.
    pub sets: Sets,

    /// The graphic set that a single shift invokes for the next character.
    pub single: Option<Slot>,

    /// The sets saved with the cursor of the main page.
    pub main: Sets,

    /// The sets saved with the cursor of the alternate page.
    pub alternate: Sets,

    /// Whether the alternate page is active.
    pub is_alternate: bool,
}

/// Returns the sets at power-on: ASCII is designated to each of G0 to G3, and G0 is invoked.
fn initial_sets() -> Sets
    ensures { result ≡ effect.initial_sets }
{
    Sets {
        g0: Charset::Ascii,
        g1: Charset::Ascii,
        g2: Charset::Ascii,
        g3: Charset::Ascii,
        shift: Slot::G0,
    }
}

/// Returns the state at power-on, with which RIS replaces any other.
pub(crate) fn initial_state() -> CharsetState
    ensures { result ≡ effect.initial_state }
{
    CharsetState {
        sets: initial_sets(),
        single: None,
        main: initial_sets(),
        alternate: initial_sets(),
        is_alternate: false,
    }
}

/// Returns the character set designated to one of G0 to G3.
fn set_in(sets: Sets, slot: Slot) -> Charset
    ensures { result ≡ effect.set_in sets slot }
{
    match slot {
        Slot::G0 => sets.g0,
        Slot::G1 => sets.g1,
        Slot::G2 => sets.g2,
        Slot::G3 => sets.g3,
    }
}

/// Returns the sets after a character set is designated to one of G0 to G3.
fn sets_with(sets: Sets, slot: Slot, set: Charset) -> Sets
    ensures { result ≡ effect.sets_with sets slot set }
{
    match slot {
        Slot::G0 => Sets { g0: set, ..sets },
        Slot::G1 => Sets { g1: set, ..sets },
        Slot::G2 => Sets { g2: set, ..sets },
        Slot::G3 => Sets { g3: set, ..sets },
    }
}

/// Returns the state after a character set is designated to one of G0 to G3.
fn after_designation(state: CharsetState, slot: Slot, set: Charset) -> CharsetState
    ensures { result ≡ effect.after_designation state slot set }
{
    CharsetState {
        sets: sets_with(state.sets, slot, set),
        ..state
    }
}

/// Returns the state after a locking shift, which invokes a graphic set until the next one.
fn after_locking_shift(state: CharsetState, slot: Slot) -> CharsetState
    ensures { result ≡ effect.after_locking_shift state slot }
{
    CharsetState {
        sets: Sets {
            shift: slot,
            ..state.sets
        },
        ..state
    }
}

/// Returns the state after a single shift, which invokes a graphic set for the next character.
fn after_single_shift(state: CharsetState, slot: Slot) -> CharsetState
    ensures { result ≡ effect.after_single_shift state slot }
{
    CharsetState {
        single: Some(slot),
        ..state
    }
}

/// Returns the state after a printed character, which ends a single shift.
pub(crate) fn after_character(state: CharsetState) -> CharsetState
    ensures { result ≡ effect.after_character state }
{
    CharsetState {
        single: None,
        ..state
    }
}

/// Returns the character set in which the next character is printed.
pub(crate) fn current_set(state: CharsetState) -> Charset
    ensures { result ≡ effect.current_set state }
{
    match state.single {
        Some(slot) => set_in(state.sets, slot),
        None => set_in(state.sets, state.sets.shift),
    }
}

/// Returns the state after the sets are saved with the cursor of the active page.
fn after_save(state: CharsetState) -> CharsetState
    ensures { result ≡ effect.after_save state }
{
    if state.is_alternate {
        CharsetState {
            alternate: state.sets,
            ..state
        }
    } else {
        CharsetState {
            main: state.sets,
            ..state
        }
    }
}

/// Returns the state after the sets saved with the cursor of the active page are restored, which also
/// ends a single shift.
fn after_restore(state: CharsetState) -> CharsetState
    ensures { result ≡ effect.after_restore state }
{
    let sets = if state.is_alternate {
        state.alternate
    } else {
        state.main
    };
    CharsetState {
        sets,
        single: None,
        ..state
    }
}

/// Returns the state after the alternate or the main page is made the active one.
fn after_page_switch(state: CharsetState, is_alternate: bool) -> CharsetState
    ensures { result ≡ effect.after_page_switch state is_alternate }
{
    CharsetState {
        is_alternate,
        ..state
    }
}

/// Returns the state after DECSTR, which resets the sets and those saved with the cursor of the active
/// page.
fn after_soft_reset(state: CharsetState) -> CharsetState
    ensures { result ≡ effect.after_soft_reset state }
{
    let first = CharsetState {
        sets: initial_sets(),
        single: None,
        ..state
    };
    after_save(first)
}

/// Returns the state after a control character, of which SO and SI matter.
#[tactic(auto, using(std::proofs::lemmas::Bool::Decides::nat_tests), unfolding(crate::specs::Sets::after_control))]
pub(crate) fn after_control(state: CharsetState, byte: u8) -> CharsetState
    ensures { result ≡ effect.after_control state byte }
{
    match byte {
        0x0E => after_locking_shift(state, Slot::G1),
        0x0F => after_locking_shift(state, Slot::G0),
        _ => state,
    }
}

/// Returns the set of 94 characters with the given name: `byte`, and the intermediates before it.
/// All sets but DEC Special Graphics, whose name is `0` alone, are read as ASCII.
#[tactic(auto, using(std::proofs::lemmas::Bool::Decides::nat_tests))]
fn set_named(intermediates: &[u8], byte: u8) -> Charset
    ensures { result ≡ effect.set_named intermediates.now byte }
{
    match (intermediates, byte) {
        ([], b'0') => Charset::Graphics,
        _ => Charset::Ascii,
    }
}

/// Returns the state after an escape sequence without intermediates: DECSC, DECRC, SS2, SS3, RIS, LS2
/// or LS3.
#[tactic(auto, using(std::proofs::lemmas::Bool::Decides::nat_tests), unfolding(crate::specs::Sets::after_plain_escape))]
fn after_plain_escape(state: CharsetState, byte: u8) -> CharsetState
    ensures { result ≡ effect.after_plain_escape state byte }
{
    match byte {
        b'7' => after_save(state),
        b'8' => after_restore(state),
        b'N' => after_single_shift(state, Slot::G2),
        b'O' => after_single_shift(state, Slot::G3),
        b'c' => initial_state(),
        b'n' => after_locking_shift(state, Slot::G2),
        b'o' => after_locking_shift(state, Slot::G3),
        _ => state,
    }
}

/// Returns the state after an escape sequence with the given first intermediate. `(`, `)`, `*` and
/// `+` designate `set`, a set of 94 characters. `-`, `.` and `/` designate sets of 96 characters,
/// which are read as ASCII.
#[tactic(auto, using(std::proofs::lemmas::Bool::Decides::nat_tests), unfolding(crate::specs::Sets::after_designating_escape))]
fn after_designating_escape(state: CharsetState, intermediate: u8, set: Charset) -> CharsetState
    ensures { result ≡ effect.after_designating_escape state intermediate set }
{
    match intermediate {
        b'(' => after_designation(state, Slot::G0, set),
        b')' => after_designation(state, Slot::G1, set),
        b'*' => after_designation(state, Slot::G2, set),
        b'+' => after_designation(state, Slot::G3, set),
        b'-' => after_designation(state, Slot::G1, Charset::Ascii),
        b'.' => after_designation(state, Slot::G2, Charset::Ascii),
        b'/' => after_designation(state, Slot::G3, Charset::Ascii),
        _ => state,
    }
}

/// Returns the state after an escape sequence.
pub(crate) fn after_escape(state: CharsetState, intermediates: &[u8], byte: u8) -> CharsetState
    ensures { result ≡ effect.after_escape state intermediates.now byte }
{
    match intermediates {
        [] => after_plain_escape(state, byte),
        [intermediate, rest @ ..] => after_designating_escape(
            state,
            *intermediate,
            set_named(rest, byte),
        ),
    }
}

/// Returns the state after mode 1048 is set or reset, which saves or restores the cursor.
fn after_cursor_mode(state: CharsetState, on: bool) -> CharsetState
    ensures { result ≡ effect.after_cursor_mode state on }
{
    if on {
        after_save(state)
    } else {
        after_restore(state)
    }
}

/// Returns the state after mode 1049 is set or reset, which saves the cursor before it activates the
/// alternate page, or restores the cursor after it has activated the main page.
fn after_page_mode(state: CharsetState, on: bool) -> CharsetState
    ensures { result ≡ effect.after_page_mode state on }
{
    if on {
        after_page_switch(after_save(state), true)
    } else {
        after_restore(after_page_switch(state, false))
    }
}

/// Returns the state after the private mode `number` is set or reset.
#[tactic(auto, using(std::proofs::lemmas::Bool::Decides::nat_tests), unfolding(crate::specs::Sets::after_mode))]
fn after_mode(state: CharsetState, on: bool, number: u16) -> CharsetState
    ensures { result ≡ effect.after_mode state on number }
{
    match number {
        47 | 1047 => after_page_switch(state, on),
        1048 => after_cursor_mode(state, on),
        1049 => after_page_mode(state, on),
        _ => state,
    }
}

/// Returns the state after the private mode that a group of numbers names is set or reset. A group
/// with subparameters names no mode.
fn after_group(state: CharsetState, on: bool, group: &[u16]) -> CharsetState
    ensures { result ≡ effect.after_group state on group.now }
{
    if group.len() == 1 {
        after_mode(state, on, group[0])
    } else {
        state
    }
}

/// Returns the state after private modes are set or reset, in their order.
#[tactic(auto, using(std::proofs::lemmas::List::drop_more))]
fn after_modes(state: CharsetState, on: bool, parameters: &Parameters) -> CharsetState
    ensures { result ≡ effect.after_modes state on parameters.now.groups }
{
    let mut state = state;
    for i in 0..parameters.group_count() {
        state = after_group(state, on, parameters.group(i));
    }
    state
}

/// Returns the state after a control sequence: DECSET, DECRST or DECSTR.
#[tactic(auto, using(std::proofs::lemmas::Bool::Decides::nat_tests), unfolding(crate::specs::Sets::after_private))]
pub(crate) fn after_sequence(
    state: CharsetState,
    parameters: &Parameters,
    intermediates: &[u8],
    byte: u8,
) -> CharsetState
    ensures { result ≡ effect.after_sequence state parameters.now.groups intermediates.now byte }
{
    let [intermediate] = intermediates else {
        return state;
    };
    match (*intermediate, byte) {
        (b'?', b'h') => after_modes(state, true, parameters),
        (b'?', b'l') => after_modes(state, false, parameters),
        (b'!', b'p') => after_soft_reset(state),
        _ => state,
    }
}
