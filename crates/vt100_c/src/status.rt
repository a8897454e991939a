//! The status codes that calls return.

ghost use Rattle.std.specs.Prelude.{◌≡◌};
ghost use Rattle.vt100_c.specs.Status.{status_of_result, status_of};

use vt100::Error;

/// The call succeeded.
pub(crate) const OK: u8 = 0;

/// An allocation failed.
pub(crate) const OUT_OF_MEMORY: u8 = 1;

/// The parser or mirror ran out of memory earlier and accepts no more input.
pub(crate) const FAILED: u8 = 2;

/// An argument is invalid.
pub(crate) const BAD_ARGUMENT: u8 = 3;

/// The handle holds an object of a kind that the call does not accept.
pub(crate) const WRONG_KIND: u8 = 4;

/// The two screens have different sizes.
pub(crate) const OTHER_SIZE: u8 = 5;

/// The handle is empty.
pub(crate) const NO_OBJECT: u8 = 6;

/// The handle that the call would fill is not empty.
pub(crate) const IN_USE: u8 = 7;

/// The mirror has no viewer number left.
pub(crate) const NO_NUMBER: u8 = 8;

/// Returns the status code of an error.
pub(crate) fn status_of(error: Error) -> u8
    ensures { result ≡ status_of error }
{
    match error {
        Error::OutOfMemory => OUT_OF_MEMORY,
        Error::Failed => FAILED,
        Error::NoNumber => NO_NUMBER,
    }
}

/// Returns `OK` if a call succeeded, otherwise the status code of its error.
pub(crate) fn answered(answer: Result<(), Error>) -> u8
    ensures { result ≡ status_of_result answer }
{
    match answer {
        Ok(()) => OK,
        Err(error) => status_of(error),
    }
}
