//! Destinations for output, such as a `String`.

ghost use Rattle.std.specs.Prelude.{◌≡◌, ◌+◌, ◌<◌, ◌++◌, ℕ, List, length, OnOk, OnErr};
ghost use Rattle.std.specs.Prelude.{string_bytes, string_capacity, string_len};

use crate::error::Error;

/// A destination that strings are appended to.
pub trait Sink {
    /// The error that a failed write returns.
    type Error;

    ghost text: { Self → List ℕ };

    ghost refuses: { List ℕ → List ℕ → List ℕ → Type 0 } = { λ _ _ _. Unit {0} };

    /// Appends `s` to the contents of the sink.
    ///
    /// # Errors
    ///
    /// Returns the sink's own error. Each sink specifies the effect of a failed write with
    /// `refuses`, a relation among the contents before the write, `s`, and the contents after the
    /// write. For example, a `String` is unchanged, and a sink of fixed capacity may append the
    /// prefix of `s` that fits. A sink may also leave the effect unspecified.
    fn write_str(&mut self, s: &str) -> Result<(), Self::Error>
        ensures ok { OnOk result (text self.new ≡ text self.old ++ s.now) }
        ensures err { OnErr result (refuses (text self.old) s.now (text self.new)) };
}

/// A sink that appends to a string. A write fails only if the string must grow and the allocation
/// fails.
impl Sink for String {
    type Error = Error;

    ghost text = { λ s. string_bytes s };

    ghost refuses = { λ before _ after. after ≡ before };

    /// Appends `s` to the string.
    ///
    /// # Errors
    ///
    /// Returns [`Error::OutOfMemory`] if the string must grow and the allocation fails. The string
    /// is then unchanged.
    fn write_str(&mut self, s: &str) -> Result<(), Error>
        ensures ok { OnOk result (string_bytes self.new ≡ string_bytes self.old ++ s.now) }
        ensures err { OnErr result (string_bytes self.new ≡ string_bytes self.old) }
        ensures memory { OnErr result (result ≡ Err Error.OutOfMemory) }
        ensures full { OnErr result (string_capacity self.old < string_len self.old + length s.now) }
    {
        match self.push_str(s) {
            Ok(()) => Ok(()),
            Err(_) => Err(Error::OutOfMemory),
        }
    }
}
