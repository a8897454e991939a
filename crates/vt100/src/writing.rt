//! The implementation of `io::Write` for a parser.

ghost use Rattle.std.specs.Io.{WritesAtMost};
ghost use Rattle.std.specs.Io.KnownBytes.{WriteAppends};
ghost use Rattle.std.specs.Prelude.{◌≡◌, None, Ok};
ghost use Rattle.vt100.specs.Calls.{ParserWrites};

use crate::parser::Parser;
use std::io;
use std::io::Write;

impl Write for Parser<()> {
    /// Parses all of `buf`, as [`Parser::process`] does, and returns its length
    /// in bytes.
    ///
    /// # Errors
    ///
    /// Returns an error of kind `OutOfMemory` if an allocation fails, and an
    /// error of kind `Other` on every later call.
    ///
    /// Input whose parsing invokes no callbacks and allocates nothing never
    /// causes an error. The clause `quiet` of `process` states this guarantee;
    /// for `write`, the guarantee follows from the clause `harmless` of
    /// [`quiet_runs`](crate::laws::quiet_runs).
    fn write(&mut self, buf: &[u8]) -> io::Result<usize>
        ensures bound { WritesAtMost result buf.now }
        ensures bytes { WriteAppends None None result buf.now }
        ensures call { ParserWrites self.old buf.now result self.new }
    {
        match self.process(buf) {
            Ok(()) => Ok(buf.len()),
            Err(error) => Err(io::Error::from(error)),
        }
    }

    /// Does nothing, since `write` parses all bytes immediately.
    fn flush(&mut self) -> io::Result<()>
        ensures done { result ≡ Ok tt }
        ensures same { self.new ≡ self.old }
    {
        Ok(())
    }
}
