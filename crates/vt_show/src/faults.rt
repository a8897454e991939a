//! The faults that can end a run, with their messages and exit statuses.

ghost use Rattle.std.specs.Prelude.{◌≡◌};
ghost use Rattle.vt_show.specs.Program.{line_of, status_of};

/// The reason why a run of the program failed.
#[derive(Clone, Copy, PartialEq, Eq, Debug)]
pub enum Fault {
    /// An allocation failed.
    Memory,

    /// The input could not be read.
    Read,

    /// The output could not be written.
    Write,
}

/// Returns the message for standard error (without a trailing newline) and the exit status for a
/// fault. `None` means that the command-line arguments are invalid.
///
/// ```text
/// assert_eq!(ending(Some(Fault::Read)), ("vtshow: read failed", 1));
/// ```
pub fn ending(fault: Option<Fault>) -> (&'static str, u8)
    ensures line { result.0.now ≡ line_of fault }
    ensures status { result.1 ≡ status_of fault }
{
    match fault {
        Some(Fault::Memory) => ("vtshow: out of memory", 1),
        Some(Fault::Read) => ("vtshow: read failed", 1),
        Some(Fault::Write) => ("vtshow: write failed", 1),
        None => ("usage: vtshow ROWS COLS plain|formatted|basic", 2),
    }
}
