//! The bytes of an incomplete UTF-8 character.
#![tactic(auto, unfolding(crate::specs::Characters::is_character, crate::specs::Characters::is_beginning))]

ghost use Rattle.std.specs.Prelude.{◌≡◌, ◌≢◌, ℕ, ◌*◌, ◌<◌, ◌≤◌, ◌==◌, true, List, [], ◌∷◌};
ghost use Rattle.std.specs.Prelude.{IfSome, IsSome, length, take, if◌then◌else◌};
ghost use Rattle.vt_scan.specs.Characters.{character_of, continues, is_beginning, is_character, is_second};
ghost use Rattle.vt_scan.specs.Internals.{Extends, bytes_in, is_unfinished};
ghost use Rattle.vt_scan.specs.Texts.{AreWideThrees, IsWideThree};

use std::marker::Model;
use vt_cells::columns;

/// The bytes read so far of an incomplete UTF-8 character, at most three.
#[derive(Clone, Copy, PartialEq, Eq, Debug)]
enum Bytes {
    Zero,
    One(u8),
    Two(u8, u8),
    Three(u8, u8, u8),
}

/// The result of adding one byte to an incomplete character.
#[derive(Clone, Copy, PartialEq, Eq, Debug)]
pub enum Extended {
    /// The character is still incomplete.
    Further,

    /// The character is complete.
    Character(char),

    /// The byte cannot continue the character.
    Broken,
}

/// A buffer for the bytes of an incomplete UTF-8 character. It is empty if no character is
/// incomplete.
#[derive(Drop)]
pub struct Unfinished {
    bytes: Bytes,
}

impl Model for Unfinished {
    ghost Value = { List ℕ };

    ghost view = { λ u. bytes_in u.bytes };

    ghost invariant = { λ u. is_unfinished (bytes_in u.bytes) ≡ true };
}

impl Unfinished {
    /// Creates an empty buffer, which means that no character is incomplete.
    pub fn new() -> Self
        ensures { result ≡ [] }
    {
        Unfinished { bytes: Bytes::Zero }
    }

    /// Drops the bytes of the incomplete character, if any.
    #[inline]
    pub fn clear(&mut self)
        ensures { self.new ≡ [] }
    {
        self.bytes = Bytes::Zero;
    }

    /// Returns `true` if there is no incomplete character.
    #[inline]
    pub fn is_empty(&self) -> bool
        ensures { result ≡ (length self.now == 0) }
    {
        match self.bytes {
            Bytes::Zero => true,
            _ => false,
        }
    }

    /// Stores `byte` if it can be the first byte of a multibyte UTF-8 character, and returns
    /// whether it was stored.
    pub fn begin(&mut self, byte: u8) -> bool
        requires { self.old ≡ [] }
        ensures value { result ≡ is_beginning (byte ∷ []) }
        ensures keeps { self.new ≡ (if result then byte ∷ [] else []) }
    {
        let is_first = is_first_byte(byte);
        if is_first {
            self.bytes = Bytes::One(byte);
        }
        is_first
    }

    /// Adds `byte` to the incomplete character, and returns the result (see [`Extended`]). If
    /// `byte` completes the character or cannot continue it, the stored bytes are cleared.
    pub fn extend(&mut self, byte: u8) -> Extended
        requires { self.old ≢ [] }
        ensures { Extends self.old byte result self.new }
    {
        let (bytes, extended) = extend_bytes(self.bytes, byte);
        self.bytes = bytes;
        extended
    }
}

/// Returns whether `byte` can be the first byte of a multibyte UTF-8 character.
#[inline(always)]
pub(crate) fn is_first_byte(byte: u8) -> bool
    ensures { result ≡ is_beginning (byte ∷ []) }
{
    (0xC2..=0xF4).contains(&byte)
}

/// Returns the first character of `bytes` and its length in bytes. Returns `None` unless `bytes`
/// begins with a complete multibyte UTF-8 character.
pub fn first_character(bytes: &[u8]) -> Option<(char, usize)>
    ensures inside { IfSome result (λ found. (1 < found.1) × (found.1 ≤ length bytes.now)) }
    ensures is { IfSome result (λ found. is_character (take found.1 bytes.now) ≡ true) }
    ensures means { IfSome result (λ found. found.0 ≡ character_of (take found.1 bytes.now)) }
    ensures all { (n : ℕ) → is_character (take n bytes.now) ≡ true → IsSome result }
{
    if bytes.len() < 2 || bytes[0] < 0xC2 || !may_be_second(bytes[0], bytes[1]) {
        return None;
    }
    if bytes[0] < 0xE0 {
        return Some((join_two(bytes[0], bytes[1]), 2));
    }
    if bytes.len() < 3 || !may_continue(bytes[2]) {
        return None;
    }
    if bytes[0] < 0xF0 {
        return Some((join_three(bytes[0], bytes[1], bytes[2]), 3));
    }
    if bytes.len() < 4 || bytes[0] > 0xF4 || !may_continue(bytes[3]) {
        return None;
    }
    Some((join_four(bytes[0], bytes[1], bytes[2], bytes[3]), 4))
}

/// Decodes the wide characters from U+3000 to U+D7FF at the start of `bytes` into `text`, as many
/// as fit, and returns how many it decoded. Each of them takes three bytes.
///
/// Stops before any other character, even a wide one.
#[inline]
pub fn wide_characters(bytes: &[u8], text: &mut [char]) -> usize
    ensures same { length text.new ≡ length text.old }
    ensures room { result ≤ length text.new }
    ensures inside { 3 * result ≤ length bytes.now }
    ensures threes { AreWideThrees result bytes.now text.new }
{
    let count = text.len().min(bytes.len() / 3);
    let mut done = 0;
    while done < count {
        let Some(c) = wide_character(bytes[3 * done], bytes[3 * done + 1], bytes[3 * done + 2])
        else {
            return done;
        };
        text[done] = c;
        done += 1;
    }
    done
}

/// Decodes the three-byte UTF-8 character with the bytes `a`, `b` and `c`. Returns `None` unless
/// the bytes are valid and the character is in the range U+3000 to U+D7FF and takes two columns.
#[inline(always)]
fn wide_character(a: u8, b: u8, c: u8) -> Option<char>
    ensures { IfSome result (IsWideThree (a ∷ b ∷ c ∷ [])) }
{
    if a < 0xE3 || a > 0xED || !may_be_second(a, b) || !may_continue(c) {
        return None;
    }
    let found = join_three(a, b, c);
    match columns(found) {
        Some(2) => Some(found),
        _ => None,
    }
}

/// Adds `byte` to the bytes of an incomplete character. Returns the bytes of the character if it is
/// still incomplete, or no bytes otherwise, together with the result of adding `byte`.
fn extend_bytes(bytes: Bytes, byte: u8) -> (Bytes, Extended)
    requires begun { is_beginning (bytes_in bytes) ≡ true }
    ensures extends { Extends (bytes_in bytes) byte result.1 (bytes_in result.0) }
    ensures valid { is_unfinished (bytes_in result.0) ≡ true }
{
    match bytes {
        Bytes::Zero => unreachable!(),
        Bytes::One(first) => extend_one(first, byte),
        Bytes::Two(first, second) => extend_two(first, second, byte),
        Bytes::Three(first, second, third) => extend_three(first, second, third, byte),
    }
}

/// Adds `byte` to the incomplete character that so far consists of the byte `first`. Returns the
/// character's bytes if it is still incomplete, or no bytes otherwise, together with the result of
/// adding `byte`.
fn extend_one(first: u8, byte: u8) -> (Bytes, Extended)
    requires { is_beginning (first ∷ []) ≡ true }
    ensures extends { Extends (first ∷ []) byte result.1 (bytes_in result.0) }
    ensures valid { is_unfinished (bytes_in result.0) ≡ true }
{
    if !may_be_second(first, byte) {
        return (Bytes::Zero, Extended::Broken);
    }
    if first < 0xE0 {
        return (Bytes::Zero, Extended::Character(join_two(first, byte)));
    }
    (Bytes::Two(first, byte), Extended::Further)
}

/// Adds `byte` to the incomplete character that so far consists of the bytes `first` and `second`.
/// Returns the character's bytes if it is still incomplete, or no bytes otherwise, together with
/// the result of adding `byte`.
fn extend_two(first: u8, second: u8, byte: u8) -> (Bytes, Extended)
    requires { is_beginning (first ∷ second ∷ []) ≡ true }
    ensures extends { Extends (first ∷ second ∷ []) byte result.1 (bytes_in result.0) }
    ensures valid { is_unfinished (bytes_in result.0) ≡ true }
{
    if !may_continue(byte) {
        return (Bytes::Zero, Extended::Broken);
    }
    if first < 0xF0 {
        return (
            Bytes::Zero,
            Extended::Character(join_three(first, second, byte)),
        );
    }
    (Bytes::Three(first, second, byte), Extended::Further)
}

/// Adds `byte` to the incomplete character that so far consists of the bytes `first`, `second` and
/// `third`. Returns no bytes, together with the result of adding `byte`: a fourth byte never leaves
/// the character incomplete.
fn extend_three(first: u8, second: u8, third: u8, byte: u8) -> (Bytes, Extended)
    requires { is_beginning (first ∷ second ∷ third ∷ []) ≡ true }
    ensures extends { Extends (first ∷ second ∷ third ∷ []) byte result.1 (bytes_in result.0) }
    ensures valid { is_unfinished (bytes_in result.0) ≡ true }
{
    if !may_continue(byte) {
        return (Bytes::Zero, Extended::Broken);
    }
    (
        Bytes::Zero,
        Extended::Character(join_four(first, second, third, byte)),
    )
}

/// Returns whether `byte` can be the second byte of a UTF-8 character whose first byte is `first`.
pub(crate) fn may_be_second(first: u8, byte: u8) -> bool
    ensures { result ≡ is_second first byte }
{
    match first {
        0xE0 => byte >= 0xA0 && byte <= 0xBF,
        0xED => byte >= 0x80 && byte <= 0x9F,
        0xF0 => byte >= 0x90 && byte <= 0xBF,
        0xF4 => byte >= 0x80 && byte <= 0x8F,
        _ => may_continue(byte),
    }
}

/// Returns whether `byte` can be the third or fourth byte of a UTF-8 character.
pub(crate) fn may_continue(byte: u8) -> bool
    ensures { result ≡ continues byte }
{
    byte >= 0x80 && byte <= 0xBF
}

/// Decodes the two-byte UTF-8 character with the bytes `a` and `b`.
pub(crate) fn join_two(a: u8, b: u8) -> char
    requires { is_character (a ∷ b ∷ []) ≡ true }
    ensures { result ≡ character_of (a ∷ b ∷ []) }
{
    let code = u32::from(a % 32) * 64 + u32::from(b % 64);
    char::from_u32(code).unwrap()
}

/// Decodes the three-byte UTF-8 character with the bytes `a`, `b` and `c`.
pub(crate) fn join_three(a: u8, b: u8, c: u8) -> char
    requires { is_character (a ∷ b ∷ c ∷ []) ≡ true }
    ensures { result ≡ character_of (a ∷ b ∷ c ∷ []) }
{
    let code = u32::from(a % 16) * 4096 + u32::from(b % 64) * 64 + u32::from(c % 64);
    char::from_u32(code).unwrap()
}

/// Decodes the four-byte UTF-8 character with the bytes `a`, `b`, `c` and `d`.
fn join_four(a: u8, b: u8, c: u8, d: u8) -> char
    requires { is_character (a ∷ b ∷ c ∷ d ∷ []) ≡ true }
    ensures { result ≡ character_of (a ∷ b ∷ c ∷ d ∷ []) }
{
    let code = u32::from(a % 8) * 262144
        + u32::from(b % 64) * 4096
        + u32::from(c % 64) * 64
        + u32::from(d % 64);
    char::from_u32(code).unwrap()
}
