//! The parameters of a control sequence. A *group* is a parameter with its subparameters. Groups
//! are separated by `;`, and the numbers of a group by `:`.

ghost use Rattle.std.specs.Prelude.{◌≡◌, ℕ, ◌+◌, ◌*◌, ◌<◌, ◌≤◌, List, [], ◌∷◌, ◌++◌};
ghost use Rattle.std.specs.Prelude.{IfSome, None, false, if◌then◌else◌, length, map, min, nat_lt};
ghost use Rattle.std.specs.Prelude.{slice_index_or, take, true};
ghost use Rattle.vt_scan.specs.Automaton.{is_parameter};
ghost use Rattle.vt_scan.specs.Parameters.{GroupTable, table_of, total};
ghost use Rattle.vt_scan.specs.Internals.{Ascends, groups_from, is_digit};
ghost use Rattle.vt_scan.specs.Texts.{IsParameterText};

use crate::groups::{Groups, MAX_NUMBERS};
use std::marker::Model;

/// The parameters of a control sequence: its first 32 numbers, each clamped to 65535, arranged in
/// groups (ECMA-48, section 5.4.2).
#[derive(Drop)]
pub struct Parameters {
    numbers: [u16; MAX_NUMBERS],
    len: usize,

    /// For each group except the last, the index in `numbers` just past the group's last number.
    ends: [usize; MAX_NUMBERS],
    closed: usize,

    /// Whether the sequence had more than 32 numbers.
    is_cut: bool,
}

impl Model for Parameters {
    ghost Value = { GroupTable };

    ghost view = { λ p. record { groups = groups_from 0 (take p.closed p.ends) p.len p.numbers; is_cut = p.is_cut } };

    ghost invariant = { λ p. (p.len ≤ 32) × (p.closed < p.len)
        × Ascends 0 (take p.closed p.ends) p.len × (p.is_cut ≡ true → p.len ≡ 32) };
}

impl Parameters {
    /// Returns the parameters of a sequence without parameter bytes: one group with the number 0.
    pub fn new() -> Self
        ensures { result ≡ table_of [] }
    {
        Parameters {
            numbers: [0; MAX_NUMBERS],
            len: 1,
            ends: [0; MAX_NUMBERS],
            closed: 0,
            is_cut: false,
        }
    }

    /// Resets the parameters to one group with the number 0.
    #[tactic(auto, using(crate::proofs::ParameterNumbers::step_clear))]
    #[inline]
    pub fn clear(&mut self)
        ensures { self.new ≡ table_of [] }
    {
        self.numbers[0] = 0;
        self.len = 1;
        self.closed = 0;
        self.is_cut = false;
    }

    /// Parses one parameter byte: a digit, `:` or `;`. Numbers above 65535 become 65535, and
    /// numbers after the 32nd are dropped.
    #[inline]
    pub fn push(&mut self, byte: u8)
        requires from { 0x30 ≤ byte }
        requires to { byte ≤ 0x3B }
        ensures { (text : List ℕ) → self.old ≡ table_of text → self.new ≡ table_of (text ++ byte ∷ []) }
    {
        match byte {
            b';' => self.end_group(),
            b':' => self.end_number(),
            _ => self.push_digit(byte),
        }
    }

    /// Appends a decimal digit to the last number, which is clamped to 65535. Does nothing if
    /// `is_cut` is set, because the digit then belongs to a dropped number.
    fn push_digit(&mut self, byte: u8)
        requires from { 0x30 ≤ byte }
        requires to { byte < 0x3A }
        ensures { (text : List ℕ) → self.old ≡ table_of text → self.new ≡ table_of (text ++ byte ∷ []) }
    {
        if self.is_cut {
            return;
        }
        let last = self.len - 1;
        self.numbers[last] = with_digit(self.numbers[last], byte - b'0');
    }

    /// Ends the last number and begins a new one in the same group. If there is no room for another
    /// number, sets `is_cut` instead.
    fn end_number(&mut self)
        ensures { (text : List ℕ) → self.old ≡ table_of text → self.new ≡ table_of (text ++ 0x3A ∷ []) }
    {
        if self.len == MAX_NUMBERS {
            self.is_cut = true;
            return;
        }
        self.numbers[self.len] = 0;
        self.len += 1;
    }

    /// Ends the last group and begins a new one whose first number is 0. If there is no room for
    /// another number, sets `is_cut` instead.
    fn end_group(&mut self)
        ensures { (text : List ℕ) → self.old ≡ table_of text → self.new ≡ table_of (text ++ 0x3B ∷ []) }
    {
        if self.len == MAX_NUMBERS {
            self.is_cut = true;
            return;
        }
        self.ends[self.closed] = self.len;
        self.closed += 1;
        self.numbers[self.len] = 0;
        self.len += 1;
    }

    /// Parses the leading parameter bytes of `bytes`, and returns how many it parsed.
    #[inline]
    pub fn push_all(&mut self, bytes: &[u8]) -> usize
        ensures inside { result ≤ length bytes.now }
        ensures parameters { IsParameterText (take result bytes.now) }
        ensures read { (text : List ℕ) → self.old ≡ table_of text
            → self.new ≡ table_of (text ++ take result bytes.now) }
        ensures longest { result < length bytes.now
            → is_parameter (slice_index_or bytes.now result 0) ≡ false }
    {
        let mut count = self.push_digits(bytes);
        while count < bytes.len() && is_parameter_byte(bytes[count]) {
            let more = self.push_some(bytes[count], &bytes[count + 1..]);
            count += 1 + more;
        }
        count
    }

    /// Parses the parameter byte `byte` and then the leading digits of `bytes`, and returns the
    /// number of digits parsed. If the sequence has more than 32 numbers, the digits are left
    /// unparsed, because they belong to a dropped number.
    #[inline(always)]
    fn push_some(&mut self, byte: u8, bytes: &[u8]) -> usize
        requires from { 0x30 ≤ byte }
        requires to { byte ≤ 0x3B }
        ensures inside { result ≤ length bytes.now }
        ensures parameters { IsParameterText (take result bytes.now) }
        ensures read { (text : List ℕ) → self.old ≡ table_of text
            → self.new ≡ table_of ((text ++ byte ∷ []) ++ take result bytes.now) }
    {
        if byte == b';' {
            return self.push_group(bytes);
        }
        self.push(byte);
        self.push_digits(bytes)
    }

    /// Ends the last group, begins a new one, and parses the digits of its first number from the
    /// start of `bytes`. Returns how many digits it parsed. If there is no room for another number,
    /// sets `is_cut` instead and returns 0.
    ///
    /// The group is stored only after its number is complete.
    #[inline(always)]
    fn push_group(&mut self, bytes: &[u8]) -> usize
        ensures inside { result ≤ length bytes.now }
        ensures parameters { IsParameterText (take result bytes.now) }
        ensures read { (text : List ℕ) → self.old ≡ table_of text
            → self.new ≡ table_of ((text ++ 0x3B ∷ []) ++ take result bytes.now) }
    {
        let place = self.len;
        if place == MAX_NUMBERS {
            self.is_cut = true;
            return 0;
        }
        let mut number = 0;
        let mut count = 0;
        while count < bytes.len() && is_digit_byte(bytes[count]) {
            number = with_digit(number, bytes[count] - b'0');
            count += 1;
        }
        self.ends[self.closed] = place;
        self.closed += 1;
        self.numbers[place] = number;
        self.len = place + 1;
        count
    }

    /// Appends the leading digits of `bytes` to the last number, and returns how many it appended.
    /// Returns 0 if `is_cut` is set, because the digits then belong to a dropped number.
    ///
    /// The number is stored only once, after the last digit.
    #[inline(always)]
    fn push_digits(&mut self, bytes: &[u8]) -> usize
        ensures inside { result ≤ length bytes.now }
        ensures parameters { IsParameterText (take result bytes.now) }
        ensures read { (text : List ℕ) → self.old ≡ table_of text
            → self.new ≡ table_of (text ++ take result bytes.now) }
    {
        if self.is_cut {
            return 0;
        }
        let last = self.len - 1;
        let mut number = self.numbers[last];
        let mut count = 0;
        while count < bytes.len() && is_digit_byte(bytes[count]) {
            number = with_digit(number, bytes[count] - b'0');
            count += 1;
        }
        self.numbers[last] = number;
        count
    }

    /// Returns the number of parameter groups, 1 to 32.
    #[tactic(auto, using(crate::proofs::ParameterGroups::groups_count))]
    #[inline]
    pub fn group_count(&self) -> usize
        ensures { result ≡ length self.now.groups }
    {
        self.closed + 1
    }

    /// Returns the numbers of the parameter group at index `i`, counted from 0. The group must
    /// exist.
    #[inline]
    pub fn group(&self, i: usize) -> &[u16]
        requires { i < length self.now.groups }
        ensures { result.now ≡ slice_index_or self.now.groups i [] }
    {
        let start = group_start(&self.ends, i);
        let end = group_end(&self.ends, self.closed, self.len, i);
        &self.numbers[start..end]
    }

    /// Returns the first number of the parameter group at index `i`, counted from 0, or 0 if there
    /// is no such group.
    #[inline]
    pub fn number(&self, i: usize) -> u16
        ensures { result ≡ slice_index_or (slice_index_or self.now.groups i []) 0 0 }
    {
        if i > self.closed {
            return 0;
        }
        self.numbers[group_start(&self.ends, i)]
    }

    /// Returns all numbers as one slice if each parameter group has exactly one number, otherwise
    /// `None`.
    #[inline(always)]
    pub fn lone_numbers(&self) -> Option<&[u16]>
        ensures some { IfSome result (λ numbers. self.now.groups ≡ map (λ number. number ∷ []) numbers.now) }
        ensures none { result ≡ None → length self.now.groups < total self.now.groups }
    {
        let count = self.len;
        if self.closed + 1 != count {
            return None;
        }
        Some(&self.numbers[..count])
    }

    /// Returns the parameter groups as slices that borrow the numbers.
    pub fn groups(&self) -> Groups<'_>
        ensures { result ≡ self.now.groups }
    {
        let mut groups = Groups::new();
        let mut start = 0;
        for i in 0..self.closed {
            let end = self.ends[i];
            groups.push(&self.numbers[start..end]);
            start = end;
        }
        groups.push(&self.numbers[start..self.len]);
        groups
    }
}

/// Returns the index of the first number of group `i`. `ends` holds the index just past the last
/// number of each earlier group.
#[inline(always)]
fn group_start(ends: &[usize; MAX_NUMBERS], i: usize) -> usize
    requires { i < 32 }
    ensures { result ≡ slice_index_or (0 ∷ ends.now) i 0 }
{
    if i == 0 { 0 } else { ends[i - 1] }
}

/// Returns the index just past the last number of group `i`. `ends` holds these indices for the
/// first `closed` groups, and the group after them ends at `len`.
#[inline(always)]
fn group_end(ends: &[usize; MAX_NUMBERS], closed: usize, len: usize, i: usize) -> usize
    requires { closed ≤ 32 }
    ensures { result ≡ (if nat_lt i closed then slice_index_or ends.now i 0 else len) }
{
    if i < closed { ends[i] } else { len }
}

/// Returns whether `byte` is a parameter byte: a digit, `:` or `;`.
#[inline(always)]
pub(crate) fn is_parameter_byte(byte: u8) -> bool
    ensures { result ≡ is_parameter byte }
{
    byte >= 0x30 && byte <= 0x3B
}

/// Returns whether `byte` is a decimal digit.
#[inline(always)]
fn is_digit_byte(byte: u8) -> bool
    ensures { result ≡ is_digit byte }
{
    byte >= 0x30 && byte <= 0x39
}

/// Returns `number` with the decimal digit `digit` appended, clamped to 65535.
#[inline]
fn with_digit(number: u16, digit: u8) -> u16
    ensures { result ≡ min 65535 (10 * number + digit) }
{
    let more = u32::from(number) * 10 + u32::from(digit);
    more.min(65535) as u16
}
