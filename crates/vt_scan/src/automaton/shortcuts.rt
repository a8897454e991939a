//! Shortcuts for bytes that do not have to be fed one by one.

ghost use Rattle.std.specs.Prelude.{◌≡◌, ◌≢◌, ◌≤◌, ◌<◌, ◌-◌, ◌↔◌, ℕ};
ghost use Rattle.std.specs.Prelude.{[], ◌∷◌, All, IfOk, IfSome};
ghost use Rattle.std.specs.Prelude.{IsErr, IsSome, IsTrue, None, OnErr, Some};
ghost use Rattle.std.specs.Prelude.{false, length, slice_index_or, take, true};
ghost use Rattle.vt_cells.specs.Refusals.{OnlyOutOfMemory};
ghost use Rattle.vt_scan.specs.Automaton.{Character, State, start};
ghost use Rattle.vt_scan.specs.Characters.{is_beginning, is_character};
ghost use Rattle.vt_scan.specs.Scanner.{ExecutesItself, Feeds, FeedsAll, HasNoEvent, IsStray, ReadsItself, StandsFor};
ghost use Rattle.vt_scan.specs.Internals.{IsUnended};
ghost use Rattle.vt_scan.specs.Table.{class_of, transition_of};
ghost use Rattle.vt_scan.specs.declared.event.Event.{Event};
ghost use Rattle.vt_scan.specs.declared.table.Kind.{Kind};
ghost use Rattle.vt_scan.specs.declared.table.Transition.{Transition};

use super::Scanner;
use crate::lengths::{printable_len, text_len, unended_len};
use crate::table::Kind;
use crate::unfinished::{first_character, is_first_byte};
use vt_cells::Error;

impl Scanner {
    /// Returns whether feeding `byte` would only report it as a character: `byte` is printable
    /// ASCII, and no sequence or character is incomplete. Feeding such a byte leaves the scanner
    /// unchanged, so the caller can skip it.
    #[inline(always)]
    pub fn is_text(&self, byte: u8) -> bool
        ensures feeds { IsTrue result
            → Feeds self.now byte self.now (record { first = Some (Event.Character byte); second = None }) }
        ensures itself { IsTrue result ↔ ReadsItself self.now byte }
    {
        is_printable(byte) && self.is_ground()
    }

    /// Returns the number of leading bytes that are printable ASCII and would each be reported as a
    /// character. Returns 0 if a sequence or a character is incomplete. Feeding these bytes leaves
    /// the scanner unchanged, so the caller can skip them.
    #[inline]
    pub fn text_len(&self, bytes: &[u8]) -> usize
        ensures inside { result ≤ length bytes.now }
        ensures itself { All (ReadsItself self.now) (take result bytes.now) }
        ensures longest { result < length bytes.now → ReadsItself self.now (slice_index_or bytes.now result 0) → ⊥ }
    {
        if self.is_ground() {
            printable_len(bytes)
        } else {
            0
        }
    }

    /// Returns whether feeding `byte` would only execute it: `byte` is a C0 control character other
    /// than ESC, and no sequence or character is incomplete. Feeding such a byte leaves the scanner
    /// unchanged, so the caller can skip it.
    #[inline(always)]
    pub fn is_control(&self, byte: u8) -> bool
        ensures feeds { IsTrue result
            → Feeds self.now byte self.now (record { first = Some (Event.Executed byte); second = None }) }
        ensures control { IsTrue result ↔ ExecutesItself self.now byte }
    {
        is_control_byte(byte) && self.is_ground()
    }

    /// Returns whether feeding `byte` would only report U+FFFD: no sequence or character is
    /// incomplete, and no character begins with `byte` (Unicode Standard, section 3.9, Table 3-7).
    /// Feeding such a byte leaves the scanner unchanged, so the caller can skip it.
    #[inline(always)]
    pub fn is_stray(&self, byte: u8) -> bool
        ensures feeds { IsTrue result
            → Feeds self.now byte self.now (record { first = Some (Event.Character 0xFFFD); second = None }) }
        ensures stray { IsTrue result ↔ IsStray self.now byte }
    {
        is_stray_byte(byte) && self.is_ground()
    }

    /// Returns the number of leading bytes that belong to an ignored control string (DCS, SOS, PM
    /// or APC) and do not end it, or 0 outside such a string. Feeding these bytes leaves the
    /// scanner unchanged, so the caller can skip them.
    #[inline]
    pub fn skipped_len(&self, bytes: &[u8]) -> usize
        ensures inside { result ≤ length bytes.now }
        ensures fed { FeedsAll self.now (take result bytes.now) self.now [] }
        ensures longest { self.now.kind ≡ Kind.Skip → result < length bytes.now →
            IsUnended (slice_index_or bytes.now result 0) → ⊥ }
        ensures none { self.now.kind ≢ Kind.Skip → result ≡ 0 }
    {
        match self.kind {
            Kind::Skip => unended_len(bytes),
            _ => 0,
        }
    }

    /// Collects the leading bytes that belong to the text of an operating system command, up to the
    /// first C0 control character. Returns how many it collected, or 0 outside such a command.
    ///
    /// # Errors
    ///
    /// Returns [`Error::OutOfMemory`] if the bytes cannot be stored. On error, the scanner is
    /// unchanged, and the bytes may be passed again.
    #[inline]
    pub fn take_command_text(&mut self, bytes: &[u8]) -> Result<usize, Error>
        ensures inside { IfOk result (λ count. count ≤ length bytes.now) }
        ensures fed { IfOk result (λ count. FeedsAll self.old (take count bytes.now) self.new []) }
        ensures longest { IfOk result (λ count. self.old.kind ≡ Kind.OscString → count < length bytes.now →
            slice_index_or bytes.now count 0 < 0x20) }
        ensures none { IfOk result (λ count. self.old.kind ≢ Kind.OscString → count ≡ 0) }
        ensures err { OnErr result (self.new ≡ self.old) }
        ensures only { OnlyOutOfMemory result }
        ensures text { IsErr result → (0 < length bytes.now)
            × (transition_of self.old.kind (class_of (slice_index_or bytes.now 0 0)) ≡ Transition.Collect Kind.OscString) }
    {
        match self.kind {
            Kind::OscString => self.collect_text(bytes),
            _ => Ok(0),
        }
    }

    /// Returns the first character of `bytes` and its length in bytes. Returns `None` unless
    /// `bytes` begins with a complete multibyte UTF-8 character (Unicode Standard, section 3.9,
    /// Table 3-7). Also returns `None` if the scanner is in the middle of a sequence or a
    /// character. Feeding the bytes of the character causes one event and leaves the scanner
    /// unchanged, so the caller can skip them.
    #[inline(always)]
    pub fn whole_character(&self, bytes: &[u8]) -> Option<(char, usize)>
        ensures inside { IfSome result (λ found. (1 < found.1) × (found.1 ≤ length bytes.now)) }
        ensures fed { IfSome result
            (λ found. FeedsAll self.now (take found.1 bytes.now) self.now (Character found.0 ∷ [])) }
        ensures before { IfSome result (λ found. HasNoEvent self.now (take (found.1 - 1) bytes.now)) }
        ensures all { (n : ℕ) → self.now.kind ≡ Kind.Ground → self.now.unfinished ≡ [] →
            is_character (take n bytes.now) ≡ true → IsSome result }
    {
        if self.is_ground() {
            first_character(bytes)
        } else {
            None
        }
    }

    /// Returns whether nothing is half read: no sequence, control string or character is incomplete
    /// after the bytes parsed so far. The scanner then parses further bytes as a new scanner does.
    #[inline(always)]
    pub fn is_ground(&self) -> bool
        ensures held { IsTrue result ↔ ((self.now.kind ≡ Kind.Ground) × (self.now.unfinished ≡ [])) }
        ensures start { IsTrue result ↔ StandsFor self.now start }
        ensures state { (state : State) → StandsFor self.now state → IsTrue result ↔ (state ≡ start) }
    {
        match self.kind {
            Kind::Ground => self.unfinished.is_empty(),
            _ => false,
        }
    }

    /// Collects the leading bytes that belong to the text of an operating system command, and
    /// returns how many it collected. The scanner must be inside such a command. If the bytes
    /// cannot be stored, changes nothing and returns `OutOfMemory`.
    fn collect_text(&mut self, bytes: &[u8]) -> Result<usize, Error>
        requires { self.old.kind ≡ Kind.OscString }
        ensures inside { IfOk result (λ count. count ≤ length bytes.now) }
        ensures fed { IfOk result (λ count. FeedsAll self.old (take count bytes.now) self.new []) }
        ensures longest { IfOk result (λ count. count < length bytes.now →
            slice_index_or bytes.now count 0 < 0x20) }
        ensures err { OnErr result (self.new ≡ self.old) }
        ensures only { OnlyOutOfMemory result }
        ensures text { IsErr result → (0 < length bytes.now)
            × (transition_of self.old.kind (class_of (slice_index_or bytes.now 0 0)) ≡ Transition.Collect Kind.OscString) }
    {
        let count = text_len(bytes);
        if count == 0 {
            return Ok(0);
        }
        if self.text.extend_from_slice(&bytes[..count]).is_err() {
            return Err(Error::OutOfMemory);
        }
        Ok(count)
    }
}

/// Returns whether `byte` is printable ASCII.
#[inline(always)]
fn is_printable(byte: u8) -> bool
    ensures { IsTrue result ↔ ((0x20 ≤ byte) × (byte < 0x7F)) }
{
    byte >= 0x20 && byte < 0x7F
}

/// Returns whether `byte` is a C0 control character other than ESC.
#[inline(always)]
fn is_control_byte(byte: u8) -> bool
    ensures { IsTrue result ↔ ((byte < 0x20) × (byte ≢ 0x1B)) }
{
    byte < 0x20 && byte != 0x1B
}

/// Returns whether `byte` is above 7F and no UTF-8 character begins with it.
#[inline(always)]
fn is_stray_byte(byte: u8) -> bool
    ensures { IsTrue result ↔ ((0x80 ≤ byte) × (is_beginning (byte ∷ []) ≡ false)) }
{
    byte >= 0x80 && !is_first_byte(byte)
}
