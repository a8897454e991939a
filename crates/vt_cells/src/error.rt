//! The error type of this library.

use std::alloc::AllocError;
use std::{fmt, io};

/// An error returned by a call to this library.
#[derive(Clone, Copy, PartialEq, Eq, Debug)]
pub enum Error {
    /// An allocation failed.
    OutOfMemory,

    /// The parser ran out of memory earlier and accepts no more input.
    Failed,

    /// A mirror cannot add another viewer, because it has already assigned the last viewer number,
    /// `u64::MAX`.
    NoNumber,
}

/// Converts a failed allocation to [`Error::OutOfMemory`], for use with the `?` operator.
impl From<AllocError> for Error {
    ghost use Rattle.std.specs.Prelude.{◌≡◌};
    ghost use Rattle.vt_cells.specs.declared.error.Error.TheVariants.{OutOfMemory};

    ghost from_gives = { λ _ e. e ≡ OutOfMemory };

    fn from(_refused: AllocError) -> Error {
        Error::OutOfMemory
    }
}

/// Converts [`Error::OutOfMemory`] to an I/O error of kind `OutOfMemory`, and any other error to
/// one of kind `Other`.
impl From<Error> for io::Error {
    ghost use Rattle.std.specs.IoError.{error_kind};
    ghost use Rattle.std.specs.Prelude.{◌≡◌};
    ghost use Rattle.vt_cells.specs.Refusals.{kind_of};

    ghost from_gives = { λ refused error. error_kind error ≡ kind_of refused };

    fn from(error: Error) -> io::Error {
        io::Error::from(match error {
            Error::OutOfMemory => io::ErrorKind::OutOfMemory,
            Error::Failed | Error::NoNumber => io::ErrorKind::Other,
        })
    }
}

/// Formats the error as `out of memory`, `parser failed` or `no viewer number left`.
impl fmt::Display for Error {
    ghost use Rattle.std.specs.Prelude.{Some};
    ghost use Rattle.vt_cells.specs.Refusals.{error_text};

    ghost output = { λ e. Some (error_text e) };

    fn fmt<W: fmt::Write>(&self, f: &mut fmt::Formatter<W>) -> fmt::Result {
        match self {
            Error::OutOfMemory => f.write_str("out of memory"),
            Error::Failed => f.write_str("parser failed"),
            Error::NoNumber => f.write_str("no viewer number left"),
        }
    }
}

impl std::error::Error for Error {}
