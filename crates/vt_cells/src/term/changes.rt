//! Sequences that change attributes (SGR).

ghost use Rattle.std.specs.Prelude.{◌≡◌, ◌+◌, ◌++◌, ◌<◌, ◌≤◌, length, OnErr, OnOk};
ghost use Rattle.vt_cells.specs.Op as op;
ghost use Rattle.vt_cells.specs.Op.{bytes_of, change_text};
ghost use Rattle.vt_cells.specs.Internals.{buffered_text};
ghost use Rattle.vt_cells.specs.Sinks.{IsStopped};

use crate::attrs::Attrs;
use crate::buffer::Buffer;
use crate::sink::Sink;
use crate::term::BufWrite;
use crate::term::sgr::SGR_ROOM;

/// The sequence that resets all attributes to their defaults (SGR 0).
#[derive(Clone, Copy, Debug)]
pub struct ClearAttrs;

impl BufWrite for ClearAttrs {
    ghost bytes = { λ _. bytes_of op.ClearAttrs };

    fn write_buf<S: Sink>(&self, sink: &mut S) -> Result<(), S::Error> {
        sink.write_str("\x1b[m")
    }
}

/// The SGR sequence that changes the attributes from `was` to `new`; empty if the two are equal.
#[derive(Clone, Copy, Debug)]
pub struct ChangeAttrs {
    /// The attributes before the change.
    pub was: Attrs,

    /// The attributes after the change.
    pub new: Attrs,
}

impl ChangeAttrs {
    /// Appends to `buffer` the SGR sequence that changes the attributes from `was` to `new`. First
    /// flushes the buffer to `sink` if it has fewer than [`SGR_ROOM`] free bytes. Does nothing if
    /// `was` and `new` are equal.
    ///
    /// # Errors
    ///
    /// Returns the sink's error. Part of the output may have been written by then.
    #[inline]
    #[tactic(auto, unfolding(crate::specs::Op::change_text))]
    pub fn add<S: Sink>(&self, sink: &mut S, buffer: &mut Buffer) -> Result<(), S::Error>
        ensures text { OnOk result (buffered_text (S.text sink.new) buffer.new
            ≡ buffered_text (S.text sink.old) buffer.old ++ change_text self.now.was self.now.new) }
        ensures grows { OnOk result (length (S.text sink.old) ≤ length (S.text sink.new)) }
        ensures err { OnErr result (IsStopped S.refuses (S.text sink.old)
            (buffer.old ++ change_text self.now.was self.now.new) (S.text sink.new)) }
        ensures nonempty { OnErr result (0 < length (change_text self.now.was self.now.new)) }
    {
        if self.was.is_same(&self.new) {
            return Ok(());
        }
        buffer.make_room(sink, SGR_ROOM)?;
        self.push(buffer);
        Ok(())
    }

    /// Appends to `buffer` the SGR sequence that changes the attributes from `was` to `new`, or
    /// nothing if the two are equal. The buffer must have room for [`SGR_ROOM`] bytes.
    #[inline(always)]
    #[tactic(auto, unfolding(crate::specs::Op::change_text))]
    pub fn push(&self, buffer: &mut Buffer)
        requires { length buffer.old + 64 ≤ 256 }
        ensures value { buffer.new ≡ buffer.old ++ change_text self.now.was self.now.new }
        ensures room { length buffer.new ≤ length buffer.old + 64 }
    {
        if self.was.is_same(&self.new) {
            return;
        }
        if self.new.is_same(&Attrs::new()) {
            buffer.push("\x1b[m");
        } else {
            buffer.push_change(self.was, self.new);
        }
    }
}

impl BufWrite for ChangeAttrs {
    ghost bytes = { λ it. bytes_of (op.ChangeAttrs it.was it.new) };

    #[tactic(auto, unfolding(crate::specs::Internals::buffered_text))]
    fn write_buf<S: Sink>(&self, sink: &mut S) -> Result<(), S::Error> {
        let mut buffer = Buffer::new();
        self.push(&mut buffer);
        buffer.flush(sink)
    }
}
