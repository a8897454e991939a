//! Sequences that move the cursor to a position, or to the right within its row.

ghost use Rattle.std.specs.Prelude.{◌≡◌, ◌+◌, ◌++◌, ◌≤◌, length};
ghost use Rattle.vt_cells.specs.Internals.{move_text};
ghost use Rattle.vt_cells.specs.Op as op;
ghost use Rattle.vt_cells.specs.Op.{bytes_of};

use crate::buffer::Buffer;
use crate::pos::Pos;
use crate::sink::Sink;
use crate::term::BufWrite;
use crate::term::sequences::write_counted;

/// The sequence that moves the cursor to a position (CUP, whose parameters are 1-based).
#[derive(Clone, Copy, Debug)]
pub struct MoveTo {
    /// The position of the cursor after the move.
    pub pos: Pos,
}

impl BufWrite for MoveTo {
    ghost bytes = { λ it. bytes_of (op.MoveTo it.pos.row it.pos.col) };

    #[tactic(auto, unfolding(crate::specs::Internals::buffered_text))]
    fn write_buf<S: Sink>(&self, sink: &mut S) -> Result<(), S::Error> {
        let mut buffer = Buffer::new();
        buffer.push_place(self.pos);
        buffer.flush(sink)
    }
}

/// The sequence that moves the cursor right by `count` columns within its row (CUF); empty if
/// `count` is 0.
#[derive(Clone, Copy, Debug)]
pub struct MoveRight {
    /// The number of columns to move.
    pub count: u16,
}

impl BufWrite for MoveRight {
    ghost bytes = { λ it. bytes_of (op.MoveRight it.count) };

    fn write_buf<S: Sink>(&self, sink: &mut S) -> Result<(), S::Error> {
        write_counted(sink, self.count, b'C')
    }
}

/// The sequence that moves the cursor from one position to another.
///
/// The sequence is CR and LF if the target is the first column of the next row, CUF if the target
/// is further right in the same row, empty if the two positions are equal, and CUP otherwise.
#[derive(Clone, Copy, Debug)]
pub struct MoveFromTo {
    /// The position of the cursor before the move.
    pub from: Pos,

    /// The position of the cursor after the move.
    pub to: Pos,
}

impl MoveFromTo {
    /// Appends to `buffer` the sequence that moves the cursor from `from` to `to`, or nothing if
    /// the two are equal. The buffer must have room for at least 25 bytes.
    #[inline(always)]
    pub fn push(&self, buffer: &mut Buffer)
        requires { length buffer.old + 25 ≤ 256 }
        ensures value { buffer.new ≡ buffer.old ++ move_text self.now.from self.now.to }
        ensures room { length buffer.new ≤ length buffer.old + 25 }
    {
        let MoveFromTo { from, to } = *self;
        if from.row < to.row && to.row - from.row == 1 && to.col == 0 {
            buffer.push_byte(b'\r');
            buffer.push_byte(b'\n');
        } else if to.row == from.row && from.col < to.col {
            buffer.push_counted(to.col - from.col, b'C');
        } else if to != from {
            buffer.push_place(to);
        }
    }
}

impl BufWrite for MoveFromTo {
    ghost bytes = { λ it. move_text it.from it.to };

    #[tactic(auto, unfolding(crate::specs::Internals::buffered_text))]
    fn write_buf<S: Sink>(&self, sink: &mut S) -> Result<(), S::Error> {
        let mut buffer = Buffer::new();
        self.push(&mut buffer);
        buffer.flush(sink)
    }
}
