//! Control characters and fixed sequences that move, save, restore, hide or show the cursor.

ghost use Rattle.vt_cells.specs.Op as op;
ghost use Rattle.vt_cells.specs.Op.{bytes_of};

use crate::sink::Sink;
use crate::term::BufWrite;

/// The sequence that moves the cursor to the first column of the next row (CR, then LF).
#[derive(Clone, Copy, Debug)]
pub struct Crlf;

impl BufWrite for Crlf {
    ghost bytes = { λ _. bytes_of op.NextRow };

    fn write_buf<S: Sink>(&self, sink: &mut S) -> Result<(), S::Error> {
        sink.write_str("\r\n")
    }
}

/// The control character that moves the cursor down one row, scrolling at the bottom (LF).
#[derive(Clone, Copy, Debug)]
pub struct LineFeed;

impl BufWrite for LineFeed {
    ghost bytes = { λ _. bytes_of op.LineFeed };

    fn write_buf<S: Sink>(&self, sink: &mut S) -> Result<(), S::Error> {
        sink.write_str("\n")
    }
}

/// The control character that moves the cursor left one column (BS).
#[derive(Clone, Copy, Debug)]
pub struct Backspace;

impl BufWrite for Backspace {
    ghost bytes = { λ _. bytes_of op.Backspace };

    fn write_buf<S: Sink>(&self, sink: &mut S) -> Result<(), S::Error> {
        sink.write_str("\x08")
    }
}

/// The sequence that saves the cursor position and the attributes (DECSC).
#[derive(Clone, Copy, Debug)]
pub struct SaveCursor;

impl BufWrite for SaveCursor {
    ghost bytes = { λ _. bytes_of op.SaveCursor };

    fn write_buf<S: Sink>(&self, sink: &mut S) -> Result<(), S::Error> {
        sink.write_str("\x1b7")
    }
}

/// The sequence that restores the cursor position and the attributes that [`SaveCursor`] saved
/// (DECRC).
#[derive(Clone, Copy, Debug)]
pub struct RestoreCursor;

impl BufWrite for RestoreCursor {
    ghost bytes = { λ _. bytes_of op.RestoreCursor };

    fn write_buf<S: Sink>(&self, sink: &mut S) -> Result<(), S::Error> {
        sink.write_str("\x1b8")
    }
}

/// The sequence that hides or shows the cursor (DECTCEM).
#[derive(Clone, Copy, Debug)]
pub struct HideCursor {
    /// Whether the sequence hides the cursor; otherwise it shows the cursor.
    pub state: bool,
}

impl BufWrite for HideCursor {
    ghost bytes = { λ it. bytes_of (op.Hide it.state) };

    fn write_buf<S: Sink>(&self, sink: &mut S) -> Result<(), S::Error> {
        sink.write_str(if self.state { "\x1b[?25l" } else { "\x1b[?25h" })
    }
}
