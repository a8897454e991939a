//! The messages and exit statuses of runs that fail.

ghost use Rattle.std.specs.Prelude.{◌≡◌};
ghost use Rattle.vt_mirror.specs.Program.{line_of, status_of};

use vt_show::Fault;

/// Returns the message for standard error (without a trailing newline) and the exit status for a
/// fault. `None` means that the command-line arguments are invalid.
///
/// # Examples
///
/// ```text
/// assert_eq!(ending(Some(Fault::Read)), ("vtmirror: read failed", 1));
/// ```
pub fn ending(fault: Option<Fault>) -> (&'static str, u8)
    ensures line { result.0.now ≡ line_of fault }
    ensures status { result.1 ≡ status_of fault }
{
    match fault {
        Some(Fault::Memory) => ("vtmirror: out of memory", 1),
        Some(Fault::Read) => ("vtmirror: read failed", 1),
        Some(Fault::Write) => ("vtmirror: write failed", 1),
        None => ("usage: vtmirror ROWS COLS EVERY", 2),
    }
}
