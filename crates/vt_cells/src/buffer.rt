//! A buffer that collects short strings before they are written to a sink.

ghost use Rattle.std.specs.Prelude.{◌≡◌, ◌+◌, ◌++◌, ◌∷◌, ◌<◌, ◌≤◌, [], length, IsErr, OnErr, OnOk};
ghost use Rattle.vt_cells.specs.Internals.{buffered_text};
ghost use Rattle.vt_cells.specs.Sinks.{IsStopped};

use crate::sink::Sink;
use std::marker::Model;
use std::str;

/// The capacity of a [`Buffer`] in bytes.
const ROOM: usize = 256;

/// A buffer of 256 bytes that collects short strings before they are written to a [`Sink`].
///
/// Call [`Buffer::flush`] at the end to write the bytes that are still buffered.
#[derive(Drop)]
pub struct Buffer {
    bytes: [u8; ROOM],
    len: usize,
}

impl Model for Buffer {
    ghost use Rattle.std.specs.Prelude.{ℕ, List, take};
    ghost use Rattle.vt_cells.specs.Internals.{IsBuffer};

    ghost Value = { List ℕ };

    ghost view = { λ b. take b.len b.bytes };

    ghost invariant = { λ b. IsBuffer b.len (take b.len b.bytes) };
}

impl Buffer {
    /// Creates an empty buffer.
    #[inline]
    pub fn new() -> Self
        ensures { result ≡ [] }
    {
        Buffer {
            bytes: [0; ROOM],
            len: 0,
        }
    }

    /// Appends `text` to the buffer. If `text` does not fit, writes the buffered bytes and then
    /// `text` to `sink` instead.
    ///
    /// # Errors
    ///
    /// Returns the sink's error. Part of the output may have been written by then.
    #[inline(always)]
    #[tactic(auto, unfolding(crate::specs::Internals::buffered_text))]
    pub fn add<S: Sink>(&mut self, sink: &mut S, text: &str) -> Result<(), S::Error>
        ensures text { OnOk result (buffered_text (S.text sink.new) self.new
            ≡ buffered_text (S.text sink.old) self.old ++ text.now) }
        ensures gathers { length self.old + length text.now ≤ 256
            → (self.new ≡ self.old ++ text.now) × (sink.new ≡ sink.old) }
        ensures grows { OnOk result (length (S.text sink.old) ≤ length (S.text sink.new)) }
        ensures err { OnErr result (IsStopped S.refuses (S.text sink.old) (self.old ++ text.now) (S.text sink.new)) }
        ensures full { IsErr result → 256 < length self.old + length text.now }
        ensures nonempty { IsErr result → 0 < length text.now }
    {
        if text.len() == 1 && self.len < ROOM {
            self.push_one(text);
            return Ok(());
        }
        if text.len() > self.room() {
            self.flush(sink)?;
            return sink.write_str(text);
        }
        self.push(text);
        Ok(())
    }

    /// Writes the buffered bytes to `sink` and empties the buffer. Writes nothing if it is empty.
    ///
    /// # Errors
    ///
    /// Returns the sink's error. Part of the output may have been written by then.
    #[inline(never)]
    #[tactic(auto, unfolding(crate::specs::Internals::buffered_text))]
    pub fn flush<S: Sink>(&mut self, sink: &mut S) -> Result<(), S::Error>
        ensures text { OnOk result (S.text sink.new ≡ buffered_text (S.text sink.old) self.old) }
        ensures empty { OnOk result (self.new ≡ []) }
        ensures nothing { self.old ≡ [] → sink.new ≡ sink.old }
        ensures err { OnErr result (S.refuses (S.text sink.old) self.old (S.text sink.new)) }
        ensures nonempty { IsErr result → 0 < length self.old }
    {
        if self.len == 0 {
            return Ok(());
        }
        sink.write_str(self.as_str())?;
        self.clear();
        Ok(())
    }

    /// Returns the buffered bytes as a string.
    #[inline]
    fn as_str(&self) -> &str
        ensures { result.now ≡ self.now }
    {
        unsafe { str::from_utf8_unchecked(&self.bytes[..self.len]) }
    }

    /// Returns the number of bytes that still fit in the buffer.
    #[inline(always)]
    pub fn room(&self) -> usize
        ensures { length self.now + result ≡ 256 }
    {
        ROOM - self.len
    }

    /// Appends `text`, which must fit in the buffer.
    #[inline(always)]
    pub fn push(&mut self, text: &str)
        requires { length self.old + length text.now ≤ 256 }
        ensures { self.new ≡ self.old ++ text.now }
    {
        let end = self.len + text.len();
        copy(&mut self.bytes[self.len..end], text.as_bytes());
        self.len = end;
    }

    /// Appends a one-byte string, which must fit in the buffer. This is the fast path: most glyphs
    /// are one byte long.
    #[inline(always)]
    pub fn push_one(&mut self, text: &str)
        requires room { length self.old + 1 ≤ 256 }
        requires one { length text.now ≡ 1 }
        ensures { self.new ≡ self.old ++ text.now }
    {
        let end = self.len + 1;
        copy_one(&mut self.bytes[self.len..end], text.as_bytes());
        self.len = end;
    }

    /// Makes room in the buffer for `len` bytes, at most 256. If fewer than `len` bytes are free,
    /// writes the buffered bytes to `sink` and empties the buffer.
    ///
    /// # Errors
    ///
    /// Returns the sink's error. Part of the output may have been written by then.
    #[inline(always)]
    #[tactic(auto, using(crate::proofs::Sinks::all_buffered, crate::proofs::Sinks::longer_flushed))]
    pub fn make_room<S: Sink>(&mut self, sink: &mut S, len: usize) -> Result<(), S::Error>
        requires { len ≤ 256 }
        ensures text { OnOk result (buffered_text (S.text sink.new) self.new ≡ buffered_text (S.text sink.old) self.old) }
        ensures room { OnOk result (length self.new + len ≤ 256) }
        ensures grows { OnOk result (length (S.text sink.old) ≤ length (S.text sink.new)) }
        ensures err { OnErr result (S.refuses (S.text sink.old) self.old (S.text sink.new)) }
        ensures nonempty { IsErr result → 0 < length self.old }
    {
        if self.room() >= len {
            return Ok(());
        }
        self.flush(sink)?;
        Ok(())
    }

    /// Appends an ASCII character, which must fit in the buffer.
    #[inline(always)]
    #[tactic(auto, using(crate::proofs::Sinks::next_byte))]
    pub fn push_byte(&mut self, byte: u8)
        requires room { length self.old + 1 ≤ 256 }
        requires ascii { byte < 128 }
        ensures { self.new ≡ self.old ++ byte ∷ [] }
    {
        let at = self.len;
        self.bytes[at] = byte;
        self.len = at + 1;
    }

    /// Empties the buffer.
    #[inline]
    fn clear(&mut self)
        ensures { self.new ≡ [] }
    {
        self.len = 0;
    }
}

/// Copies the single byte in `from` into `to`, which must also have length 1.
#[inline(always)]
#[tactic(auto, using(crate::proofs::Sinks::one_set))]
fn copy_one(to: &mut [u8], from: &[u8])
    requires room { length to.old ≡ length from.now }
    requires one { length from.now ≡ 1 }
    ensures { to.new ≡ from.now }
{
    to[0] = from[0];
}

/// Copies `from` into `to`, which must have the same length.
///
/// Slices of one to three bytes, the length of most glyphs, are copied inline instead of by a call
/// to `memcpy`.
#[inline(always)]
#[tactic(auto, using(crate::proofs::Sinks::one_set, crate::proofs::Sinks::two_set, crate::proofs::Sinks::three_set))]
fn copy(to: &mut [u8], from: &[u8])
    requires { length to.old ≡ length from.now }
    ensures { to.new ≡ from.now }
{
    match from.len() {
        1 => to[0] = from[0],
        2 => {
            to[0] = from[0];
            to[1] = from[1];
        }
        3 => {
            to[0] = from[0];
            to[1] = from[1];
            to[2] = from[2];
        }
        _ => to.copy_from_slice(from),
    }
}
