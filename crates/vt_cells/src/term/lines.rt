//! Sequences that insert and delete rows at the cursor (ECMA-48 and the VT510 manual).

ghost use Rattle.vt_cells.specs.Op.{counted};

use crate::sink::Sink;
use crate::term::BufWrite;
use crate::term::sequences::write_counted;

/// The sequence that deletes `count` rows, starting at the cursor's row, and moves the rows below
/// them up (DL); empty if `count` is 0.
#[derive(Clone, Copy, Debug)]
pub struct DeleteLines {
    /// The number of rows to delete.
    pub count: u16,
}

impl BufWrite for DeleteLines {
    ghost bytes = { λ it. counted it.count 0x4D };

    fn write_buf<S: Sink>(&self, sink: &mut S) -> Result<(), S::Error> {
        write_counted(sink, self.count, b'M')
    }
}

/// The sequence that inserts `count` blank rows at the cursor's row, and moves that row and the
/// rows below it down (IL); empty if `count` is 0.
#[derive(Clone, Copy, Debug)]
pub struct InsertLines {
    /// The number of rows to insert.
    pub count: u16,
}

impl BufWrite for InsertLines {
    ghost bytes = { λ it. counted it.count 0x4C };

    fn write_buf<S: Sink>(&self, sink: &mut S) -> Result<(), S::Error> {
        write_counted(sink, self.count, b'L')
    }
}
