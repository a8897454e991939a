//! Writing control sequences with numeric parameters to a buffer or a sink.

ghost use Rattle.std.specs.Prelude.{◌≡◌, ◌+◌, ◌*◌, ◌≤◌, ◌<◌, ◌∷◌, ◌++◌, length, decimal, OnErr, OnOk};
ghost use Rattle.vt_cells.specs.Op.{counted, csi, place};

use crate::buffer::Buffer;
use crate::pos::Pos;
use crate::sink::Sink;

/// The free space, in bytes, that a buffer must have for a control sequence with one or two
/// parameters of at most ten digits each.
pub const SHORT_ROOM: usize = 25;

impl Buffer {
    /// Appends the ASCII character `lead` and the decimal digits of `number`. The buffer must have
    /// room for four bytes.
    #[inline(always)]
    #[tactic(auto, using(crate::proofs::Texts::digits_appended))]
    pub fn push_number(&mut self, lead: u8, number: u8)
        requires room { length self.old + 4 ≤ 256 }
        requires ascii { lead < 128 }
        ensures value { self.new ≡ self.old ++ lead ∷ decimal number }
        ensures room { length self.new ≤ length self.old + 4 }
    {
        self.push_byte(lead);
        if number < 10 {
            self.push_byte(b'0' + number);
        } else if number < 100 {
            self.push_byte(b'0' + number / 10);
            self.push_byte(b'0' + number % 10);
        } else if number < 200 {
            // A comparison takes fewer instructions than a division by 100.
            let rest = number - 100;
            self.push_byte(b'1');
            self.push_byte(b'0' + rest / 10);
            self.push_byte(b'0' + rest % 10);
        } else {
            let rest = number - 200;
            self.push_byte(b'2');
            self.push_byte(b'0' + rest / 10);
            self.push_byte(b'0' + rest % 10);
        }
    }

    /// Appends the ASCII character `lead` and a two-digit decimal number, given by its digits:
    /// `tens` from 1 to 9, and `unit` from 0 to 9. The buffer must have room for four bytes.
    #[inline(always)]
    #[tactic(auto, using(crate::proofs::Texts::digits_appended))]
    pub(crate) fn push_tens(&mut self, lead: u8, tens: u8, unit: u8)
        requires room { length self.old + 4 ≤ 256 }
        requires ascii { lead < 128 }
        requires nonzero { 0 < tens }
        requires digit { tens < 10 }
        requires unit { unit < 10 }
        ensures value { self.new ≡ self.old ++ lead ∷ decimal (10 * tens + unit) }
        ensures room { length self.new ≤ length self.old + 4 }
    {
        self.push_byte(lead);
        self.push_byte(b'0' + tens);
        self.push_byte(b'0' + unit);
    }

    /// Appends the ASCII character `lead` and the decimal digits of `number`. The buffer must have
    /// room for 11 bytes. Numbers below 256, the common case, are formatted inline.
    #[inline(always)]
    fn push_count(&mut self, lead: u8, number: u32)
        requires room { length self.old + 11 ≤ 256 }
        requires ascii { lead < 128 }
        ensures value { self.new ≡ self.old ++ lead ∷ decimal number }
        ensures room { length self.new ≤ length self.old + 11 }
    {
        if number < 256 {
            self.push_number(lead, number as u8);
        } else {
            self.push_long(lead, number);
        }
    }

    /// Appends the ASCII character `lead` and the decimal digits of `number`. The buffer must have
    /// room for 11 bytes.
    ///
    /// This function is kept out of line, because numbers of 256 or more are rare.
    #[inline(never)]
    fn push_long(&mut self, lead: u8, number: u32)
        requires room { length self.old + 11 ≤ 256 }
        requires ascii { lead < 128 }
        ensures value { self.new ≡ self.old ++ lead ∷ decimal number }
        ensures room { length self.new ≤ length self.old + 11 }
    {
        self.push_byte(lead);
        let mut digits = itoa::Buffer::new();
        self.push(digits.format(number));
    }

    /// Appends the control sequence with the parameter `count` and the final byte `last`. Omits the
    /// parameter if `count` is 1, and appends nothing if `count` is 0. The buffer must have room
    /// for [`SHORT_ROOM`] bytes.
    #[inline(always)]
    pub fn push_counted(&mut self, count: u16, last: u8)
        requires room { length self.old + 25 ≤ 256 }
        requires ascii { last < 128 }
        ensures value { self.new ≡ self.old ++ counted count last }
        ensures room { length self.new ≤ length self.old + 25 }
    {
        if count == 0 {
            return;
        }
        self.push_byte(0x1B);
        if count == 1 {
            self.push_byte(b'[');
        } else {
            self.push_count(b'[', u32::from(count));
        }
        self.push_byte(last);
    }

    /// Appends the sequence that moves the cursor to the 0-based position `pos` (CUP). The sequence
    /// has no parameters if the position is the top left corner. The buffer must have room for
    /// [`SHORT_ROOM`] bytes.
    #[inline(always)]
    pub fn push_place(&mut self, pos: Pos)
        requires { length self.old + 25 ≤ 256 }
        ensures value { self.new ≡ self.old ++ csi (place pos.row pos.col) 0x48 }
        ensures room { length self.new ≤ length self.old + 25 }
    {
        let Pos { row, col } = pos;
        self.push_byte(0x1B);
        if row == 0 && col == 0 {
            self.push_byte(b'[');
        } else {
            self.push_count(b'[', u32::from(row) + 1);
            self.push_count(b';', u32::from(col) + 1);
        }
        self.push_byte(b'H');
    }
}

/// Writes to `sink` the control sequence with the parameter `count` and the final byte `last`.
/// Omits the parameter if `count` is 1, and writes nothing if `count` is 0.
///
/// # Errors
///
/// Returns the sink's error. Part of the sequence may have been written by then. The call never
/// fails if `count` is 0.
#[tactic(auto, unfolding(crate::specs::Internals::buffered_text))]
pub fn write_counted<S: Sink>(sink: &mut S, count: u16, last: u8) -> Result<(), S::Error>
    requires { last < 128 }
    ensures text { OnOk result (S.text sink.new ≡ S.text sink.old ++ counted count last) }
    ensures nonempty { OnErr result (0 < length (counted count last)) }
{
    let mut buffer = Buffer::new();
    buffer.push_counted(count, last);
    buffer.flush(sink)
}
