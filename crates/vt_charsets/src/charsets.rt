//! The translator, which reads bytes and writes bytes.

ghost use Rattle.std.specs.Prelude.{◌≡◌, ◌≤◌, ◌<◌, ◌+◌, ◌-◌, ◌*◌, ◌++◌, OnErr, OnOk, length, take};
ghost use Rattle.std.specs.Prelude.{IsOk, vec_capacity, vec_len};
ghost use Rattle.std.specs.List.{AllByRecursion};
ghost use Rattle.vt_cells.specs.Refusals.{OnlyOutOfMemory};
ghost use Rattle.vt_charsets.specs.Charsets.{KeepsByte, StandsFor, Steps, Translates};
ghost use Rattle.vt_charsets.specs.Translation.{Reading, is_drawing, reading_by, start, state_at_end, output_of};
ghost use Rattle.vt_scan.specs.Automaton.{is_parameter};
ghost use Rattle.vt_scan.specs.Internals.{Fits};
ghost use Rattle.vt_scan.specs.declared.table.Transition.{Transition};

use crate::glyphs::glyph;
use crate::runs::kept_len;
use crate::sets::{
    Charset, CharsetState, after_character, after_control, after_escape, after_sequence,
    current_set, initial_state,
};
use std::marker::Model;
use vt_cells::Error;
use vt_scan::Parameters;
use vt_scan::intermediates::Intermediates;
use vt_scan::table::{Ending, Kind, Transition, transition_at};

/// A translator that reads terminal output and replaces what is printed in DEC Special Graphics by
/// Unicode characters in UTF-8.
///
/// It follows the designations of G0 to G3, SO, SI, the single and locking shifts, DECSC and DECRC,
/// the modes 47, 1047, 1048 and 1049, DECSTR and RIS. All other character sets are read as ASCII.
/// Bytes that are not replaced are written as they are, including the designations. No byte is held
/// back, and only the sink allocates memory.
pub struct Charsets {
    kind: Kind,
    parameters: Parameters,
    intermediates: Intermediates,
    state: CharsetState,
}

impl Model for Charsets {
    ghost use Rattle.vt_charsets.specs.Charsets.{CharsetsValue};

    ghost Value = { CharsetsValue };

    ghost use Rattle.vt_charsets.specs.Charsets.{StandsFor, charsets_value};
    ghost use Rattle.vt_charsets.specs.Translation.{Reading};

    ghost view = { λ c. charsets_value c.kind c.parameters c.intermediates c.state };

    ghost invariant = { λ c.
        ∥ ((r : Reading) × StandsFor (charsets_value c.kind c.parameters c.intermediates c.state) r) ∥₁ };
}

// With this implementation, dropping a translator is one call in a proof. A derived drop would
// repeat its steps, field by field, at each exit in the proof of each caller.
impl Drop for Charsets {
    fn drop(self) {
        let Charsets {
            kind: _,
            parameters: _,
            intermediates: _,
            state: _,
        } = self;
    }
}

impl Charsets {
    /// Creates a translator at the start of a terminal's input: ASCII is designated to G0 to G3,
    /// and G0 is invoked. Allocates nothing.
    #[tactic(auto, using(crate::proofs::Standing::stands_empty))]
    pub fn new() -> Self
        ensures { StandsFor result start }
    {
        Charsets {
            kind: Kind::Ground,
            parameters: Parameters::new(),
            intermediates: Intermediates::new(),
            state: initial_state(),
        }
    }

    /// States that the translator represents at least one reading. Does nothing when called.
    pub fn stands(&self)
        ensures { ∥ ((r : Reading) × StandsFor self.now r) ∥₁ }
    {
        // Only for the proof: reading a field makes the type's invariant available.
        let _kind = self.kind;
    }

    /// Appends the translation of `bytes` to `sink`, at most three bytes for each byte. Input may
    /// be split anywhere: the next call continues where this one ends.
    ///
    /// # Errors
    ///
    /// Returns [`Error::OutOfMemory`] if room for `3 * bytes.len()` more bytes cannot be allocated.
    /// On error, the translator and the contents of the sink are unchanged, and the bytes may be
    /// passed again.
    pub fn translate(&mut self, bytes: &[u8], sink: &mut Vec<u8>) -> Result<(), Error>
        ensures ok { OnOk result (Translates self.old bytes.now self.new sink.old.items sink.new.items) }
        ensures err { OnErr result ((self.new ≡ self.old) × (sink.new.items ≡ sink.old.items)) }
        ensures only { OnlyOutOfMemory result }
        ensures succeeds { vec_len sink.old + 3 * length bytes.now ≤ vec_capacity sink.old → IsOk result }
    {
        let Some(most) = bytes.len().checked_mul(3) else {
            return Err(Error::OutOfMemory);
        };
        sink.reserve(most)?;
        self.translate_reserved(bytes, sink);
        Ok(())
    }

    /// Appends the translation of `bytes` to `sink`, which must have room for three times as many
    /// bytes.
    fn translate_reserved(&mut self, bytes: &[u8], sink: &mut Vec<u8>)
        requires { vec_len sink.old + 3 * length bytes.now ≤ vec_capacity sink.old }
        ensures { Translates self.old bytes.now self.new sink.old.items sink.new.items }
    {
        let mut rest = bytes;
        while !rest.is_empty() {
            let count = self.translate_some(rest, sink);
            rest = &rest[count..];
        }
    }

    /// Appends the translation of the longest run of leading bytes that change nothing and are
    /// written as they are, or otherwise that of the first byte. Returns the number of bytes read.
    fn translate_some(&mut self, bytes: &[u8], sink: &mut Vec<u8>) -> usize
        requires nonempty { 0 < length bytes.now }
        requires room { vec_len sink.old + 3 * length bytes.now ≤ vec_capacity sink.old }
        ensures progress { 0 < result }
        ensures inside { result ≤ length bytes.now }
        ensures room { vec_len sink.new + 3 * (length bytes.now - result) ≤ vec_capacity sink.new }
        ensures translated { Translates self.old (take result bytes.now) self.new sink.old.items sink.new.items }
    {
        let kept = self.kept_len(bytes);
        if kept > 0 {
            put(sink, &bytes[..kept]);
            return kept;
        }
        self.write(bytes[0], sink);
        self.step(bytes[0]);
        1
    }

    /// Returns the number of leading bytes that change nothing and are written as they are. Returns
    /// 0 inside a sequence and after a single shift.
    fn kept_len(&self, bytes: &[u8]) -> usize
        ensures inside { result ≤ length bytes.now }
        ensures kept { AllByRecursion (KeepsByte self.now) (take result bytes.now) }
    {
        if self.kind != Kind::Ground || self.state.single.is_some() {
            return 0;
        }
        kept_len(bytes, self.is_drawing())
    }

    /// Appends the output for one byte to `sink`, which must have room for three bytes.
    #[tactic(auto, using(std::proofs::lemmas::Bool::Decides::nat_tests))]
    fn write(&self, byte: u8, sink: &mut Vec<u8>)
        requires { vec_len sink.old + 3 ≤ vec_capacity sink.old }
        ensures items { sink.new.items ≡ sink.old.items ++ output_of self.now.kind self.now.state byte }
        ensures len { vec_len sink.new ≤ vec_len sink.old + 3 }
        ensures capacity { vec_capacity sink.old ≤ vec_capacity sink.new }
    {
        if byte >= 0x5F && byte < 0x7F && self.is_drawing() {
            put(sink, glyph(byte).as_bytes());
        } else {
            put(sink, &[byte]);
        }
    }

    /// Returns whether a byte from 0x5F to 0x7E is printed in DEC Special Graphics.
    fn is_drawing(&self) -> bool
        ensures { result ≡ is_drawing self.now.kind self.now.state }
    {
        match (self.kind, current_set(self.state)) {
            (Kind::Ground, Charset::Graphics) => true,
            _ => false,
        }
    }

    /// Reads one byte.
    fn step(&mut self, byte: u8)
        ensures { Steps self.old byte self.new }
    {
        match transition_at(self.kind, byte) {
            Transition::Collect(kind) => self.collect(kind, byte),
            Transition::Drop => {}
            Transition::Execute => self.execute(byte),
            Transition::End(kind, ending) => self.end(kind, ending, byte),
        }
    }

    /// Collects a byte of a sequence. The text of an operating system command is not kept.
    fn collect(&mut self, kind: Kind, byte: u8)
        requires { Fits self.old.kind (Transition.Collect kind) }
        ensures { (r : Reading) → StandsFor self.old r → StandsFor self.new (reading_by r byte (Transition.Collect kind)) }
    {
        if self.kind == Kind::OscString {
            return;
        }
        self.kind = kind;
        if is_parameter_byte(byte) {
            self.parameters.push(byte);
        } else {
            self.intermediates.push(byte);
        }
    }

    /// Performs a control character.
    fn execute(&mut self, byte: u8)
        ensures { (r : Reading) → StandsFor self.old r → StandsFor self.new (reading_by r byte Transition.Execute) }
    {
        self.state = after_control(self.state, byte);
    }

    /// Ends a character or a sequence with its last byte, and enters the state `kind` with nothing
    /// collected.
    fn end(&mut self, kind: Kind, ending: Ending, byte: u8)
        ensures { (r : Reading) → StandsFor self.old r → StandsFor self.new (reading_by r byte (Transition.End kind ending)) }
    {
        self.state = self.state_at_end(ending, byte);
        self.kind = kind;
        self.parameters.clear();
        self.intermediates.clear();
    }

    /// Returns the state of the character sets after a byte that ends a character or a sequence.
    fn state_at_end(&self, ending: Ending, byte: u8) -> CharsetState
        ensures { result ≡ state_at_end ending self.now.state self.now.table.groups self.now.intermediates byte }
    {
        match ending {
            Ending::Character => after_character(self.state),
            Ending::EscDispatch => after_escape(self.state, self.intermediates.as_slice(), byte),
            Ending::CsiDispatch => after_sequence(
                self.state,
                &self.parameters,
                self.intermediates.as_slice(),
                byte,
            ),
            _ => self.state,
        }
    }
}

/// Appends `bytes` to `sink`, which must have enough spare capacity.
fn put(sink: &mut Vec<u8>, bytes: &[u8])
    requires { vec_len sink.old + length bytes.now ≤ vec_capacity sink.old }
    ensures items { sink.new.items ≡ sink.old.items ++ bytes.now }
    ensures len { vec_len sink.new ≡ vec_len sink.old + length bytes.now }
    ensures capacity { vec_capacity sink.old ≤ vec_capacity sink.new }
{
    let _ = sink.extend_from_slice(bytes);
}

/// Returns whether `byte` is a parameter byte: a digit, `:` or `;`.
fn is_parameter_byte(byte: u8) -> bool
    ensures { result ≡ is_parameter byte }
{
    byte >= 0x30 && byte <= 0x3B
}
