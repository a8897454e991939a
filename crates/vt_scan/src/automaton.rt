//! The scanner, which parses bytes and returns events.

ghost use Rattle.std.specs.Prelude.{◌≡◌, ◌≢◌, ◌≤◌, ◌<◌, ◌⊎◌, ℕ};
ghost use Rattle.std.specs.Prelude.{List, [], ◌∷◌, ◌++◌, IfOk, length};
ghost use Rattle.std.specs.Prelude.{IsErr, None, OnErr, OnOk, vec_capacity};
ghost use Rattle.vt_cells.specs.Refusals.{OnlyOutOfMemory};
ghost use Rattle.vt_scan.specs.Automaton.{State, fresh_step, parts_of, start, step_in};
ghost use Rattle.vt_scan.specs.Internals.{Begins, Fits, answer_of};
ghost use Rattle.vt_scan.specs.Scanner.{Feeds, Follows, Reads, StandsFor, unfinished_command};
ghost use Rattle.vt_scan.specs.Table.{class_of, transition_of};
ghost use Rattle.vt_scan.specs.declared.table.Kind.{Kind};
ghost use Rattle.vt_scan.specs.declared.table.Transition.{Transition};

mod character_runs;
mod leading;
mod shortcuts;

use crate::event::{Event, Events};
use crate::intermediates::Intermediates;
use crate::parameters::{Parameters, is_parameter_byte};
use crate::parts::Parts;
use crate::table::{Ending, Kind, Transition, transition_at};
use crate::unfinished::{Extended, Unfinished};
use std::alloc::Global;
use std::marker::Model;
use vt_cells::Error;

/// A parser that reads terminal output byte by byte and returns events.
///
/// It follows Paul Williams' parser for ANSI terminals, with UTF-8 as in Table 3-7 of the Unicode
/// Standard. It returns the first 32 numbers of a control sequence, each clamped to 65535; the
/// first two bytes among the private marker and the intermediates of a sequence; and the first 16
/// parts of an operating system command. Memory is allocated only for the text of operating system
/// commands.
pub struct Scanner {
    kind: Kind,
    unfinished: Unfinished,
    parameters: Parameters,
    intermediates: Intermediates,
    text: Vec<u8>,
}

impl Model for Scanner {
    ghost use Rattle.vt_scan.specs.Scanner.{ScannerValue};

    ghost Value = { ScannerValue };

    ghost use Rattle.vt_scan.specs.Automaton.{State};
    ghost use Rattle.vt_scan.specs.Internals.{scanner_value};
    ghost use Rattle.vt_scan.specs.Scanner.{StandsFor};

    ghost view = { λ s. scanner_value s.kind s.unfinished s.parameters s.intermediates s.text.items };

    ghost invariant = { λ s.
        ∥ ((state : State) × StandsFor (scanner_value s.kind s.unfinished s.parameters s.intermediates s.text.items) state) ∥₁ };
}

// With this implementation, dropping a scanner is one call in a proof. A derived drop would repeat
// its steps, field by field, at each exit in the proof of each caller.
impl Drop for Scanner {
    fn drop(self) {
        let Scanner {
            kind: _,
            unfinished: _,
            parameters: _,
            intermediates: _,
            text: _,
        } = self;
    }
}

impl Scanner {
    /// Creates a scanner in the ground state. Allocates nothing.
    #[tactic(auto, using(crate::proofs::Steps::stands_plain))]
    pub fn new(alloc: Global) -> Self
        ensures { StandsFor result start }
    {
        Scanner {
            kind: Kind::Ground,
            unfinished: Unfinished::new(),
            parameters: Parameters::new(),
            intermediates: Intermediates::new(),
            text: Vec::new(alloc),
        }
    }

    /// Parses one byte and returns its events, at most two.
    ///
    /// If an event reports a sequence, `parameters`, `intermediates` and `parts` return its
    /// contents until the next byte is parsed.
    ///
    /// # Errors
    ///
    /// Returns [`Error::OutOfMemory`] if the byte belongs to the text of an operating system
    /// command and memory for it cannot be allocated. On error, the scanner is unchanged, and the byte may be
    /// passed again.
    #[inline]
    pub fn feed(&mut self, byte: u8) -> Result<Events, Error>
        ensures fed { IfOk result (Feeds self.old byte self.new) }
        ensures err { OnErr result (self.new ≡ self.old) }
        ensures only { OnlyOutOfMemory result }
        ensures text { IsErr result → transition_of self.old.kind (class_of byte) ≡ Transition.Collect Kind.OscString }
    {
        match self.kind {
            Kind::Ground => Ok(self.feed_ground(byte)),
            _ => self.feed_sequence(byte),
        }
    }

    /// States that the scanner represents at least one state of the automaton. Does nothing when
    /// called.
    pub fn stands(&self)
        ensures { ∥ ((state : State) × StandsFor self.now state) ∥₁ }
    {
        // Only for the proof: reading a field makes the type's invariant available.
        let _kind = self.kind;
    }

    /// Returns the parameters of the control sequence that the last event reported.
    #[inline]
    pub fn parameters(&self) -> &Parameters
        ensures { result.now ≡ self.now.table }
    {
        &self.parameters
    }

    /// Returns the first two bytes, if any, among the private marker and the intermediates of the
    /// sequence that the last event reported.
    #[inline]
    pub fn intermediates(&self) -> &[u8]
        ensures { result.now ≡ self.now.intermediates }
    {
        self.intermediates.as_slice()
    }

    /// Returns the first 16 parts of the operating system command that the last event reported.
    #[inline]
    pub fn parts(&self) -> Parts<'_>
        ensures { result ≡ parts_of self.now.text }
    {
        Parts::of(&self.text)
    }

    /// Returns the number of bytes stored for an incomplete operating system command, not counting
    /// its introducer.
    ///
    /// Returns 0 outside such a command: other control strings are dropped as they are read, and
    /// other sequences take a fixed amount of memory.
    #[inline]
    pub fn pending_len(&self) -> usize
        ensures held { result ≡ length (unfinished_command self.now.kind self.now.text) }
        ensures collected { (state : State) → StandsFor self.now state
            → result ≡ length (unfinished_command state.kind state.collected) }
    {
        match self.kind {
            Kind::OscString => self.text.len(),
            _ => 0,
        }
    }

    /// Frees the buffer that holds the last operating system command if the buffer's capacity
    /// exceeds 4096 bytes, unless another operating system command is incomplete. After the buffer
    /// is freed, `parts` returns one empty part.
    ///
    /// Call this method once the command's event has been handled. Otherwise the memory is kept for
    /// later commands.
    #[inline]
    pub fn release_text(&mut self)
        ensures stands { (state : State) → StandsFor self.old state → StandsFor self.new state }
        ensures text { (self.new ≡ self.old) ⊎ (self.new ≡ record self.old { text = [] }) }
        ensures short { self.old.kind ≢ Kind.OscString → length self.new.text ≤ 4096 }
    {
        match self.kind {
            Kind::OscString => {}
            _ => release(&mut self.text),
        }
    }

    /// Parses a byte in the ground state, and returns its events.
    #[inline]
    fn feed_ground(&mut self, byte: u8) -> Events
        requires { self.old.kind ≡ Kind.Ground }
        ensures { Follows self.new result (step_in Kind.Ground self.old.unfinished byte) }
    {
        if self.unfinished.is_empty() {
            return self.feed_fresh(byte);
        }
        match self.unfinished.extend(byte) {
            Extended::Further => Events::none(),
            Extended::Character(c) => Events::one(Event::Character(c)),
            Extended::Broken => Events::after(
                Event::Character(char::REPLACEMENT_CHARACTER),
                self.feed_fresh(byte),
            ),
        }
    }

    /// Parses a byte in the ground state when no character is incomplete, and returns the event,
    /// if any.
    #[inline]
    fn feed_fresh(&mut self, byte: u8) -> Events
        requires kind { self.old.kind ≡ Kind.Ground }
        requires unfinished { self.old.unfinished ≡ [] }
        ensures follows { Follows self.new result (fresh_step byte) }
        ensures single { result.second ≡ None }
    {
        match byte {
            0x20..=0x7F => Events::one(Event::Character(char::from(byte))),
            0x1B => {
                self.begin(Kind::Escape);
                Events::none()
            }
            0x00..=0x1F => Events::one(Event::Executed(byte)),
            _ => {
                if self.unfinished.begin(byte) {
                    return Events::none();
                }
                Events::one(Event::Character(char::REPLACEMENT_CHARACTER))
            }
        }
    }

    /// Parses a byte in any state other than the ground state, and returns its events.
    ///
    /// # Errors
    ///
    /// Returns [`Error::OutOfMemory`] if the byte belongs to the text of an operating system
    /// command and memory for it cannot be allocated. On error, the scanner is unchanged.
    #[tactic(auto, using(crate::proofs::Steps::fed_end), unfolding(crate::specs::Table::class_of))]
    fn feed_sequence(&mut self, byte: u8) -> Result<Events, Error>
        requires { self.old.kind ≢ Kind.Ground }
        ensures fed { IfOk result (Feeds self.old byte self.new) }
        ensures err { OnErr result (self.new ≡ self.old) }
        ensures only { OnlyOutOfMemory result }
        ensures text { IsErr result → transition_of self.old.kind (class_of byte) ≡ Transition.Collect Kind.OscString }
    {
        match transition_at(self.kind, byte) {
            Transition::Collect(kind) => {
                self.collect(kind, byte)?;
                Ok(Events::none())
            }
            Transition::Drop => Ok(Events::none()),
            Transition::Execute => Ok(Events::one(Event::Executed(byte))),
            Transition::End(kind, ending) => {
                self.begin(kind);
                Ok(answer(ending, byte))
            }
        }
    }

    /// Adds a byte to the parameters, the intermediates or the text of an operating system command,
    /// and enters the state `kind`.
    ///
    /// # Errors
    ///
    /// Returns [`Error::OutOfMemory`] if the byte belongs to the text of an operating system
    /// command and memory for it cannot be allocated. On error, the scanner is unchanged.
    fn collect(&mut self, kind: Kind, byte: u8) -> Result<(), Error>
        requires { Fits self.old.kind (Transition.Collect kind) }
        ensures kind { OnOk result (self.new.kind ≡ kind) }
        ensures reads { IfOk result (λ _. (text : List ℕ) → Reads self.old self.old.kind text
            → Reads self.new kind (text ++ byte ∷ [])) }
        ensures err { OnErr result (self.new ≡ self.old) }
        ensures only { OnlyOutOfMemory result }
        ensures text { IsErr result → kind ≡ Kind.OscString }
    {
        if self.kind == Kind::OscString {
            return match self.text.push(byte) {
                Ok(()) => Ok(()),
                Err(_) => Err(Error::OutOfMemory),
            };
        }
        self.kind = kind;
        if is_parameter_byte(byte) {
            self.parameters.push(byte);
            return Ok(());
        }
        self.intermediates.push(byte);
        Ok(())
    }

    /// Enters the state `kind` with nothing collected. Fields that the new state does not use are
    /// unchanged.
    fn begin(&mut self, kind: Kind)
        ensures { Begins self.old self.new kind }
    {
        self.kind = kind;
        match kind {
            Kind::Ground => self.unfinished.clear(),
            Kind::CsiIgnore | Kind::Skip => {}
            Kind::OscString => self.text.clear(),
            _ => {
                self.parameters.clear();
                self.intermediates.clear();
            }
        }
    }
}

/// The largest buffer capacity, in bytes, that a scanner retains from one operating system
/// command (OSC) to the next.
const KEPT_CAPACITY: usize = 4096;

/// If the capacity of `text` exceeds [`KEPT_CAPACITY`], empties it and frees its memory. Otherwise
/// leaves it unchanged.
#[inline]
fn release(text: &mut Vec<u8>)
    ensures bounded { vec_capacity text.new ≤ 4096 }
    ensures kept { vec_capacity text.old ≤ 4096 → text.new ≡ text.old }
    ensures emptied { 4096 < vec_capacity text.old → text.new.items ≡ [] }
    ensures short { length text.new.items ≤ 4096 }
{
    if text.capacity() <= KEPT_CAPACITY {
        return;
    }
    text.clear();
    text.shrink_to_fit();
}

/// Converts `ending` to events. `byte` is the byte that caused the ending.
#[inline]
fn answer(ending: Ending, byte: u8) -> Events
    ensures { result ≡ answer_of ending byte }
{
    match ending {
        Ending::Nothing => Events::none(),
        Ending::Character => Events::one(Event::Character(char::from(byte))),
        Ending::Executed => Events::one(Event::Executed(byte)),
        Ending::EscDispatch => Events::one(Event::Escape(byte)),
        Ending::CsiDispatch => Events::one(Event::Csi(byte)),
        Ending::OscDispatch => Events::one(Event::Osc),
        Ending::OscDispatchAndExecuted => Events::after(
            Event::Osc,
            Events::one(Event::Executed(byte)),
        ),
    }
}
