//! Sequences that erase parts of the screen. Only [`ClearScreen`] moves the cursor.

ghost use Rattle.std.specs.Prelude.{◌≡◌, ◌+◌, ◌++◌, ◌≤◌, [], ◌∷◌, length};
ghost use Rattle.vt_cells.specs.Op as op;
ghost use Rattle.vt_cells.specs.Op.{bytes_of, bytes_of_all};

use crate::buffer::Buffer;
use crate::sink::Sink;
use crate::term::BufWrite;
use crate::term::sequences::write_counted;

/// The sequence that moves the cursor home and erases the whole screen (CUP, then ED).
#[derive(Clone, Copy, Debug)]
pub struct ClearScreen;

impl BufWrite for ClearScreen {
    ghost bytes = { λ _. bytes_of_all (op.MoveTo 0 0 ∷ op.EraseBelow ∷ []) };

    fn write_buf<S: Sink>(&self, sink: &mut S) -> Result<(), S::Error> {
        sink.write_str("\x1b[H\x1b[J")
    }
}

/// The sequence that erases from the cursor to the end of its row (EL).
#[derive(Clone, Copy, Debug)]
pub struct ClearRowForward;

impl ClearRowForward {
    /// Appends to `buffer` the sequence that erases from the cursor to the end of its row (EL). The
    /// buffer must have room for at least 25 bytes.
    #[inline(always)]
    pub fn push(&self, buffer: &mut Buffer)
        requires { length buffer.old + 25 ≤ 256 }
        ensures { buffer.new ≡ buffer.old ++ bytes_of op.EraseRest }
    {
        buffer.push("\x1b[K");
    }
}

impl BufWrite for ClearRowForward {
    ghost bytes = { λ _. bytes_of op.EraseRest };

    fn write_buf<S: Sink>(&self, sink: &mut S) -> Result<(), S::Error> {
        sink.write_str("\x1b[K")
    }
}

/// The sequence that erases `count` columns, starting at the cursor (ECH); empty if `count` is 0.
#[derive(Clone, Copy, Debug)]
pub struct EraseChar {
    /// The number of columns to erase.
    pub count: u16,
}

impl EraseChar {
    /// Appends to `buffer` the sequence that erases `count` columns, starting at the cursor (ECH),
    /// or nothing if `count` is 0. The buffer must have room for at least 25 bytes.
    #[inline(always)]
    pub fn push(&self, buffer: &mut Buffer)
        requires { length buffer.old + 25 ≤ 256 }
        ensures { buffer.new ≡ buffer.old ++ bytes_of (op.EraseChars self.now.count) }
    {
        buffer.push_counted(self.count, b'X');
    }
}

impl BufWrite for EraseChar {
    ghost bytes = { λ it. bytes_of (op.EraseChars it.count) };

    fn write_buf<S: Sink>(&self, sink: &mut S) -> Result<(), S::Error> {
        write_counted(sink, self.count, b'X')
    }
}
