//! The transition table of the scanner's automaton.

ghost use Rattle.std.specs.Prelude.{◌≡◌};
ghost use Rattle.vt_scan.specs.Internals.{Fits};
ghost use Rattle.vt_scan.specs.Table.{class_of, transition_of};

/// A state of the scanner's automaton.
#[derive(Clone, Copy, PartialEq, Eq, Debug)]
pub enum Kind {
    /// The state outside any sequence.
    Ground,

    /// The state after ESC.
    Escape,

    /// The state inside an escape sequence, after an intermediate.
    EscapeIntermediate,

    /// The state after CSI.
    CsiEntry,

    /// The state inside a control sequence, after a private marker or a parameter byte.
    CsiParam,

    /// The state inside a control sequence, after an intermediate.
    CsiIntermediate,

    /// The state inside a malformed control sequence, which ends without an event.
    CsiIgnore,

    /// The state inside an operating system command (OSC).
    OscString,

    /// The state inside an ignored control string (DCS, SOS, PM or APC).
    Skip,
}

/// A class of bytes that the transition table treats alike.
#[derive(Clone, Copy, PartialEq, Eq, Debug)]
pub enum Class {
    /// The bytes 0x00 to 0x1F, except those with a class of their own.
    Control,

    /// BEL (0x07).
    Bell,

    /// CAN (0x18) and SUB (0x1A).
    Cancel,

    /// ESC (0x1B).
    Introducer,

    /// The bytes 0x20 to 0x2F: intermediates.
    Intermediate,

    /// The bytes 0x30 to 0x3B: digits, `:` and `;`.
    Parameter,

    /// The bytes 0x3C to 0x3F: private markers.
    Marker,

    /// The bytes 0x40 to 0x7E, except those with a class of their own.
    Final,

    /// `[`, which introduces a control sequence if it follows ESC.
    CsiStart,

    /// `]`, which introduces an operating system command if it follows ESC.
    OscStart,

    /// `P`, `X`, `^` and `_`, which introduce ignored control strings (DCS, SOS, PM and APC) if
    /// they follow ESC.
    SkipStart,

    /// DEL (0x7F).
    Delete,

    /// The bytes 0x80 to 0xFF.
    High,
}

/// The events that a byte causes when it ends a character or a sequence.
#[derive(Clone, Copy, PartialEq, Eq, Debug)]
pub enum Ending {
    /// No event.
    Nothing,

    /// The byte itself is reported as a character.
    Character,

    /// The byte itself is executed as a control character.
    Executed,

    /// The byte completes an escape sequence, which is reported.
    EscDispatch,

    /// The byte completes a control sequence, which is reported.
    CsiDispatch,

    /// The byte ends an operating system command, which is reported.
    OscDispatch,

    /// The byte ends an operating system command, which is reported. The byte itself is then
    /// executed as a control character.
    OscDispatchAndExecuted,
}

/// A transition of the scanner's automaton: what it does with one byte.
#[derive(Clone, Copy, PartialEq, Eq, Debug)]
pub enum Transition {
    /// Collects the byte and enters the given state.
    Collect(Kind),

    /// Ignores the byte.
    Drop,

    /// Executes the byte as a control character; the state is unchanged.
    Execute,

    /// Causes the given events, discards the bytes collected so far, and enters the given state.
    End(Kind, Ending),
}

/// Returns the class of a byte.
#[inline]
#[tactic(auto, using(std::proofs::lemmas::Bool::Decides::nat_tests), unfolding(crate::specs::Table::class_of))]
pub fn classify(byte: u8) -> Class
    ensures { result ≡ class_of byte }
{
    match byte {
        0x07 => Class::Bell,
        0x18 | 0x1A => Class::Cancel,
        0x1B => Class::Introducer,
        0x00..=0x1F => Class::Control,
        0x20..=0x2F => Class::Intermediate,
        0x30..=0x3B => Class::Parameter,
        0x3C..=0x3F => Class::Marker,
        b'[' => Class::CsiStart,
        b']' => Class::OscStart,
        b'P' | b'X' | b'^' | b'_' => Class::SkipStart,
        0x40..=0x7E => Class::Final,
        0x7F => Class::Delete,
        0x80..=0xFF => Class::High,
    }
}

/// Returns the transition that `byte` causes in the state `kind`.
#[inline(always)]
#[tactic(auto, using(std::proofs::lemmas::Bool::Decides::nat_tests), unfolding(crate::specs::Table::class_of))]
pub fn transition_at(kind: Kind, byte: u8) -> Transition
    ensures turn { result ≡ transition_of kind (class_of byte) }
    ensures fits { Fits kind result }
{
    match (kind, byte) {
        (Kind::CsiParam, 0x30..=0x3B) => Transition::Collect(Kind::CsiParam),
        _ => look_up(kind, classify(byte)),
    }
}

/// Returns the transition that a byte of the class `class` causes in the state `kind`.
#[inline]
pub fn look_up(kind: Kind, class: Class) -> Transition
    ensures turn { result ≡ transition_of kind class }
    ensures fits { Fits kind result }
{
    match (kind, class) {
        (Kind::OscString, Class::Bell) => Transition::End(Kind::Ground, Ending::OscDispatch),
        (Kind::OscString, Class::Cancel) => Transition::End(
            Kind::Ground,
            Ending::OscDispatchAndExecuted,
        ),
        (Kind::OscString, Class::Introducer) => Transition::End(Kind::Escape, Ending::OscDispatch),
        (Kind::OscString, Class::Control) => Transition::Drop,
        (Kind::OscString, _) => Transition::Collect(Kind::OscString),
        (_, Class::Cancel) => Transition::End(Kind::Ground, Ending::Executed),
        (_, Class::Introducer) => Transition::End(Kind::Escape, Ending::Nothing),
        (Kind::Skip, _) => Transition::Drop,
        (_, Class::Control | Class::Bell) => Transition::Execute,
        (Kind::Ground, _) => Transition::End(Kind::Ground, Ending::Character),
        (_, Class::Delete | Class::High) => Transition::Drop,
        (Kind::Escape, Class::CsiStart) => Transition::End(Kind::CsiEntry, Ending::Nothing),
        (Kind::Escape, Class::OscStart) => Transition::End(Kind::OscString, Ending::Nothing),
        (Kind::Escape, Class::SkipStart) => Transition::End(Kind::Skip, Ending::Nothing),
        (Kind::Escape | Kind::EscapeIntermediate, Class::Intermediate) => Transition::Collect(
            Kind::EscapeIntermediate,
        ),
        (Kind::Escape | Kind::EscapeIntermediate, _) => Transition::End(
            Kind::Ground,
            Ending::EscDispatch,
        ),
        (Kind::CsiIgnore, Class::Intermediate | Class::Parameter | Class::Marker) =>
            Transition::Drop,
        (Kind::CsiIgnore, _) => Transition::End(Kind::Ground, Ending::Nothing),
        (_, Class::Intermediate) => Transition::Collect(Kind::CsiIntermediate),
        (Kind::CsiIntermediate, Class::Parameter | Class::Marker) => Transition::End(
            Kind::CsiIgnore,
            Ending::Nothing,
        ),
        (_, Class::Parameter) => Transition::Collect(Kind::CsiParam),
        (Kind::CsiEntry, Class::Marker) => Transition::Collect(Kind::CsiParam),
        (_, Class::Marker) => Transition::End(Kind::CsiIgnore, Ending::Nothing),
        (_, _) => Transition::End(Kind::Ground, Ending::CsiDispatch),
    }
}
