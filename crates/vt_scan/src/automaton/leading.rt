//! Parsing of the bytes that introduce a sequence and of the byte that ends it.

ghost use Rattle.std.specs.Prelude.{◌≡◌, ◌≢◌, ◌≤◌, ◌<◌, ◌==◌, ◌&&◌, ◌||◌, ◌↔◌, ◌⊎◌};
ghost use Rattle.std.specs.Prelude.{[], IsTrue, None, Some, false, length, slice_index_or, take};
ghost use Rattle.vt_scan.specs.Automaton.{is_parameter};
ghost use Rattle.vt_scan.specs.Internals.{Begins, Opens};
ghost use Rattle.vt_scan.specs.Scanner.{EndsEscape, Feeds, FeedsAll, ends_command, ends_sequence, is_final};
ghost use Rattle.vt_scan.specs.Scanner.{is_intermediate, is_marker, is_introducer, starts_skipped, starts_string};
ghost use Rattle.vt_scan.specs.declared.event.Event.{Event};
ghost use Rattle.vt_scan.specs.declared.table.Ending.{Ending};
ghost use Rattle.vt_scan.specs.declared.table.Kind.{Kind};
ghost use Rattle.vt_scan.specs.declared.table.Transition.{Transition};

use super::Scanner;
use crate::lengths::escapes_len;
use crate::table::{Ending, Kind, Transition, transition_at};

impl Scanner {
    /// Parses the leading bytes that introduce a sequence, and returns how many it parsed. These
    /// are an ESC in the ground state, any number of further ESCs, and then an intermediate, a byte
    /// that introduces a control string, or `[` with an optional private marker and any number of
    /// parameter bytes. Parsing them causes no event and allocates nothing. If all bytes are
    /// parsed, the next call continues where this one stopped.
    #[inline]
    pub fn take_introducer(&mut self, bytes: &[u8]) -> usize
        ensures inside { result ≤ length bytes.now }
        ensures fed { FeedsAll self.old (take result bytes.now) self.new [] }
        ensures longest { result < length bytes.now →
            is_introducer self.new.kind self.new.unfinished (slice_index_or bytes.now result 0) ≡ false }
    {
        match self.kind {
            Kind::Ground => self.take_introducer_in_ground(bytes),
            Kind::Escape => self.take_introducer_after_escape(bytes),
            Kind::CsiEntry => self.take_from_entry(bytes),
            Kind::CsiParam => self.take_parameter_bytes(bytes),
            _ => 0,
        }
    }

    /// Parses `byte` if it is the final byte of a control sequence without intermediates. Returns
    /// whether it was parsed. If so, the completed sequence is the only event produced.
    #[inline(always)]
    pub fn take_final_byte(&mut self, byte: u8) -> bool
        ensures value { result ≡ ends_sequence self.old.kind byte }
        ensures fed { IsTrue result
            → Feeds self.old byte self.new (record { first = Some (Event.Csi byte); second = None }) }
        ensures kept { result ≡ false → self.new ≡ self.old }
    {
        match self.kind {
            Kind::CsiEntry | Kind::CsiParam => self.take_if_final(byte),
            _ => false,
        }
    }

    /// Parses `byte` if it is the final byte of an escape sequence. Returns whether it was parsed.
    /// If so, the completed sequence is the only event produced.
    #[inline]
    pub fn take_escape_byte(&mut self, byte: u8) -> bool
        ensures value { IsTrue result ↔ EndsEscape self.old.kind byte }
        ensures fed { IsTrue result
            → Feeds self.old byte self.new (record { first = Some (Event.Escape byte); second = None }) }
        ensures kept { result ≡ false → self.new ≡ self.old }
    {
        match self.kind {
            Kind::Escape => self.take_dispatch(transition_at(Kind::Escape, byte)),
            Kind::EscapeIntermediate => self.take_dispatch(transition_at(
                Kind::EscapeIntermediate,
                byte,
            )),
            _ => false,
        }
    }

    /// Parses `byte` if it is a BEL or ESC that ends an operating system command. Returns whether
    /// it was parsed. If so, the completed command is the only event produced.
    #[inline]
    pub fn take_command_byte(&mut self, byte: u8) -> bool
        ensures value { result ≡ ends_command self.old.kind byte }
        ensures fed { IsTrue result
            → Feeds self.old byte self.new (record { first = Some Event.Osc; second = None }) }
        ensures kept { result ≡ false → self.new ≡ self.old }
    {
        match self.kind {
            Kind::OscString => self.take_command_end(byte),
            _ => false,
        }
    }

    /// Parses the leading bytes that introduce a sequence, starting from the ground state, and
    /// returns how many it parsed.
    #[inline(always)]
    fn take_introducer_in_ground(&mut self, bytes: &[u8]) -> usize
        requires { self.old.kind ≡ Kind.Ground }
        ensures inside { result ≤ length bytes.now }
        ensures fed { FeedsAll self.old (take result bytes.now) self.new [] }
        ensures longest { result < length bytes.now →
            is_introducer self.new.kind self.new.unfinished (slice_index_or bytes.now result 0) ≡ false }
    {
        if !self.take_opening(bytes) {
            return self.take_introducer_by_bytes(bytes);
        }
        let more = self.take_from_entry(&bytes[2..]);
        2 + more
    }

    /// Parses the leading bytes that introduce a sequence, starting from the ground state, and
    /// returns how many it parsed. Tests for ESC and `[` separately, because the input may end
    /// between them.
    #[inline]
    fn take_introducer_by_bytes(&mut self, bytes: &[u8]) -> usize
        requires { self.old.kind ≡ Kind.Ground }
        ensures inside { result ≤ length bytes.now }
        ensures fed { FeedsAll self.old (take result bytes.now) self.new [] }
        ensures longest { result < length bytes.now →
            is_introducer self.new.kind self.new.unfinished (slice_index_or bytes.now result 0) ≡ false }
    {
        if bytes.is_empty() {
            return 0;
        }
        if !self.take_escape(bytes[0]) {
            return 0;
        }
        let more = self.take_introducer_after_escape(&bytes[1..]);
        1 + more
    }

    /// Parses the bytes that follow an ESC and introduce a sequence, and returns how many it
    /// parsed.
    #[inline(always)]
    fn take_introducer_after_escape(&mut self, bytes: &[u8]) -> usize
        requires { self.old.kind ≡ Kind.Escape }
        ensures inside { result ≤ length bytes.now }
        ensures fed { FeedsAll self.old (take result bytes.now) self.new [] }
        ensures longest { result < length bytes.now →
            is_introducer self.new.kind self.new.unfinished (slice_index_or bytes.now result 0) ≡ false }
    {
        let escapes = self.take_escapes(bytes);
        let more = self.take_after_escapes(&bytes[escapes..]);
        escapes + more
    }

    /// Parses the bytes that follow the last ESC and introduce a sequence, and returns how many it
    /// parsed. `bytes` must not begin with another ESC.
    #[inline(always)]
    fn take_after_escapes(&mut self, bytes: &[u8]) -> usize
        requires kind { self.old.kind ≡ Kind.Escape }
        requires ended { 0 < length bytes.now → slice_index_or bytes.now 0 0 ≢ 0x1B }
        ensures inside { result ≤ length bytes.now }
        ensures fed { FeedsAll self.old (take result bytes.now) self.new [] }
        ensures longest { result < length bytes.now →
            is_introducer self.new.kind self.new.unfinished (slice_index_or bytes.now result 0) ≡ false }
    {
        if bytes.is_empty() {
            return 0;
        }
        if self.take_intermediate(bytes[0]) {
            return 1;
        }
        if self.take_string_start(bytes[0]) {
            return 1;
        }
        if !self.take_bracket(bytes[0]) {
            return 0;
        }
        let more = self.take_from_entry(&bytes[1..]);
        1 + more
    }

    /// Parses the optional private marker and the parameter bytes of a control sequence whose `[`
    /// has already been parsed. Returns how many bytes it parsed. Tests for a marker only if there
    /// are no parameter bytes, since most sequences have no marker.
    #[tactic(auto, using(crate::proofs::Leading::feeds_then))]
    #[inline(always)]
    fn take_from_entry(&mut self, bytes: &[u8]) -> usize
        requires { self.old.kind ≡ Kind.CsiEntry }
        ensures inside { result ≤ length bytes.now }
        ensures fed { FeedsAll self.old (take result bytes.now) self.new [] }
        ensures longest { result < length bytes.now →
            is_introducer self.new.kind self.new.unfinished (slice_index_or bytes.now result 0) ≡ false }
    {
        let count = self.take_parameter_bytes(bytes);
        if count > 0 || bytes.is_empty() {
            return count;
        }
        self.take_from_marker(bytes)
    }

    /// Parses the private marker, if any, and the parameter bytes after it in a control sequence
    /// whose `[` has already been parsed. Returns how many bytes it parsed. `bytes` must not begin
    /// with a parameter byte.
    #[inline(always)]
    fn take_from_marker(&mut self, bytes: &[u8]) -> usize
        requires kind { self.old.kind ≡ Kind.CsiEntry }
        requires nonempty { 0 < length bytes.now }
        requires other { is_parameter (slice_index_or bytes.now 0 0) ≡ false }
        ensures inside { result ≤ length bytes.now }
        ensures fed { FeedsAll self.old (take result bytes.now) self.new [] }
        ensures longest { result < length bytes.now →
            is_introducer self.new.kind self.new.unfinished (slice_index_or bytes.now result 0) ≡ false }
    {
        if !self.take_private_marker(bytes[0]) {
            return 0;
        }
        let more = self.take_parameter_bytes(&bytes[1..]);
        1 + more
    }

    /// Parses the leading parameter bytes of a control sequence, and returns how many it parsed.
    #[inline(always)]
    fn take_parameter_bytes(&mut self, bytes: &[u8]) -> usize
        requires { (self.old.kind ≡ Kind.CsiEntry) ⊎ (self.old.kind ≡ Kind.CsiParam) }
        ensures inside { result ≤ length bytes.now }
        ensures fed { FeedsAll self.old (take result bytes.now) self.new [] }
        ensures longest { result < length bytes.now → is_parameter (slice_index_or bytes.now result 0) ≡ false }
        ensures kind { (self.new.kind ≡ Kind.CsiParam) ⊎ ((self.new.kind ≡ self.old.kind) × (result ≡ 0)) }
        ensures none { result ≡ 0 → self.new.kind ≡ self.old.kind }
    {
        let count = self.parameters.push_all(bytes);
        if count == 0 {
            return 0;
        }
        self.kind = Kind::CsiParam;
        count
    }

    /// Parses `byte` if it ends a control sequence, and returns whether it was parsed.
    #[inline(always)]
    fn take_if_final(&mut self, byte: u8) -> bool
        requires { (self.old.kind ≡ Kind.CsiEntry) ⊎ (self.old.kind ≡ Kind.CsiParam) }
        ensures value { result ≡ is_final byte }
        ensures fed { IsTrue result
            → Feeds self.old byte self.new (record { first = Some (Event.Csi byte); second = None }) }
        ensures kept { result ≡ false → self.new ≡ self.old }
    {
        let ends = is_final_byte(byte);
        if ends {
            self.begin(Kind::Ground);
        }
        ends
    }

    /// Parses `byte` if it is BEL or ESC, which end an operating system command, and returns
    /// whether it was parsed. The scanner must be inside such a command.
    #[inline(always)]
    fn take_command_end(&mut self, byte: u8) -> bool
        requires { self.old.kind ≡ Kind.OscString }
        ensures value { result ≡ ((byte == 0x07) || (byte == 0x1B)) }
        ensures fed { IsTrue result
            → Feeds self.old byte self.new (record { first = Some Event.Osc; second = None }) }
        ensures kept { result ≡ false → self.new ≡ self.old }
    {
        if byte == 0x07 {
            self.begin(Kind::Ground);
            return true;
        }
        if byte == 0x1B {
            self.begin(Kind::Escape);
            return true;
        }
        false
    }

    /// Enters the ground state and returns `true` if the transition `turn` dispatches an escape
    /// sequence. Otherwise changes nothing and returns `false`.
    #[inline(always)]
    fn take_dispatch(&mut self, turn: Transition) -> bool
        ensures value { IsTrue result ↔ (turn ≡ Transition.End Kind.Ground Ending.EscDispatch) }
        ensures begins { IsTrue result → Begins self.old self.new Kind.Ground }
        ensures kept { result ≡ false → self.new ≡ self.old }
    {
        match turn {
            Transition::End(Kind::Ground, Ending::EscDispatch) => {
                self.begin(Kind::Ground);
                true
            }
            _ => false,
        }
    }

    /// Parses a leading `ESC [` if no character is incomplete, and returns whether it was parsed.
    #[tactic(auto, using(std::proofs::lemmas::Bool::Decides::nat_tests, std::proofs::lemmas::List::nil_from_length))]
    #[inline(always)]
    fn take_opening(&mut self, bytes: &[u8]) -> bool
        requires { self.old.kind ≡ Kind.Ground }
        ensures opens { IsTrue result → Opens bytes.now }
        ensures fresh { IsTrue result → self.old.unfinished ≡ [] }
        ensures begins { IsTrue result → Begins self.old self.new Kind.CsiEntry }
        ensures kept { result ≡ false → self.new ≡ self.old }
    {
        if !is_opening(bytes) || !self.unfinished.is_empty() {
            return false;
        }
        self.begin(Kind::CsiEntry);
        true
    }

    /// Parses `byte` if it is a `[` after ESC, and returns whether it was parsed.
    #[inline]
    fn take_bracket(&mut self, byte: u8) -> bool
        requires { self.old.kind ≡ Kind.Escape }
        ensures value { result ≡ (byte == 0x5B) }
        ensures begins { IsTrue result → self.new.kind ≡ Kind.CsiEntry }
        ensures fed { IsTrue result → Feeds self.old byte self.new (record { first = None; second = None }) }
        ensures kept { result ≡ false → self.new ≡ self.old }
    {
        let takes = byte == b'[';
        if takes {
            self.begin(Kind::CsiEntry);
        }
        takes
    }

    /// Parses `byte` if it is an intermediate after ESC, and returns whether it was parsed.
    #[inline]
    fn take_intermediate(&mut self, byte: u8) -> bool
        requires { self.old.kind ≡ Kind.Escape }
        ensures value { result ≡ is_intermediate byte }
        ensures kind { IsTrue result → self.new.kind ≡ Kind.EscapeIntermediate }
        ensures fed { IsTrue result → Feeds self.old byte self.new (record { first = None; second = None }) }
        ensures kept { result ≡ false → self.new ≡ self.old }
    {
        let takes = is_intermediate_byte(byte);
        if takes {
            self.kind = Kind::EscapeIntermediate;
            self.intermediates.push(byte);
        }
        takes
    }

    /// Parses `byte` if it is a private marker after `[`, and returns whether it was parsed.
    #[inline(always)]
    fn take_private_marker(&mut self, byte: u8) -> bool
        requires { self.old.kind ≡ Kind.CsiEntry }
        ensures value { result ≡ is_marker byte }
        ensures kind { IsTrue result → self.new.kind ≡ Kind.CsiParam }
        ensures fed { IsTrue result → Feeds self.old byte self.new (record { first = None; second = None }) }
        ensures kept { result ≡ false → self.new ≡ self.old }
    {
        let takes = is_marker_byte(byte);
        if takes {
            self.kind = Kind::CsiParam;
            self.intermediates.push(byte);
        }
        takes
    }

    /// Parses `byte` if it introduces a control string after ESC, and returns whether it was
    /// parsed.
    #[inline]
    fn take_string_start(&mut self, byte: u8) -> bool
        requires { self.old.kind ≡ Kind.Escape }
        ensures value { result ≡ starts_string byte }
        ensures kind { IsTrue result → (self.new.kind ≡ Kind.OscString) ⊎ (self.new.kind ≡ Kind.Skip) }
        ensures fed { IsTrue result → Feeds self.old byte self.new (record { first = None; second = None }) }
        ensures kept { result ≡ false → self.new ≡ self.old }
    {
        if byte == b']' {
            self.begin(Kind::OscString);
            return true;
        }
        let is_skipped = is_skip_start(byte);
        if is_skipped {
            self.begin(Kind::Skip);
        }
        is_skipped
    }

    /// Parses the ESCs at the start of `bytes`, which follow another ESC, and returns how many it
    /// parsed. Each ESC abandons the sequence that the previous one introduced.
    #[inline(always)]
    fn take_escapes(&mut self, bytes: &[u8]) -> usize
        requires { self.old.kind ≡ Kind.Escape }
        ensures inside { result ≤ length bytes.now }
        ensures kind { self.new.kind ≡ Kind.Escape }
        ensures fed { FeedsAll self.old (take result bytes.now) self.new [] }
        ensures ended { result < length bytes.now → slice_index_or bytes.now result 0 ≢ 0x1B }
    {
        let count = escapes_len(bytes);
        if count == 0 {
            return 0;
        }
        self.begin(Kind::Escape);
        count
    }

    /// Parses `byte` if it is ESC and no character is incomplete, and returns whether it was
    /// parsed.
    #[inline]
    fn take_escape(&mut self, byte: u8) -> bool
        requires { self.old.kind ≡ Kind.Ground }
        ensures value { result ≡ ((byte == 0x1B) && (length self.old.unfinished == 0)) }
        ensures begins { IsTrue result → self.new.kind ≡ Kind.Escape }
        ensures fed { IsTrue result → Feeds self.old byte self.new (record { first = None; second = None }) }
        ensures kept { result ≡ false → self.new ≡ self.old }
    {
        if byte != 0x1B || !self.unfinished.is_empty() {
            return false;
        }
        self.begin(Kind::Escape);
        true
    }
}

/// Returns whether `bytes` begins with ESC and `[`.
#[inline(always)]
fn is_opening(bytes: &[u8]) -> bool
    ensures { IsTrue result → Opens bytes.now }
{
    bytes.len() >= 2 && bytes[0] == 0x1B && bytes[1] == b'['
}

/// Returns whether `byte` is a private marker (0x3C to 0x3F).
#[inline(always)]
fn is_marker_byte(byte: u8) -> bool
    ensures { result ≡ is_marker byte }
{
    byte >= 0x3C && byte <= 0x3F
}

/// Returns whether `byte` introduces an ignored control string (DCS, SOS, PM or APC) after ESC.
#[inline(always)]
fn is_skip_start(byte: u8) -> bool
    ensures { result ≡ starts_skipped byte }
{
    byte == b'P' || byte == b'X' || byte == b'^' || byte == b'_'
}

/// Returns whether `byte` is an intermediate byte (0x20 to 0x2F).
#[inline(always)]
fn is_intermediate_byte(byte: u8) -> bool
    ensures { result ≡ is_intermediate byte }
{
    byte >= 0x20 && byte <= 0x2F
}

/// Returns whether `byte` is a final byte of a control sequence (0x40 to 0x7E).
#[inline(always)]
fn is_final_byte(byte: u8) -> bool
    ensures { result ≡ is_final byte }
{
    byte >= 0x40 && byte <= 0x7E
}
