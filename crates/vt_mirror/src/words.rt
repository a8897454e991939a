//! The command-line arguments of the program `vtmirror`.

ghost use Rattle.std.specs.Int.NonZero.{non_zero_u16_get};
ghost use Rattle.std.specs.Prelude.{map, string_bytes, IfNone, IfSome};
ghost use Rattle.vt_mirror.specs.Program.{AskForNothing, AsksToMirror};

use std::num::NonZeroU16;
use vt_show::size;

/// Parses the number of rows, the number of columns and the number of bytes
/// between updates from exactly three command-line arguments. Returns `None` if
/// the arguments are invalid.
///
/// Each argument must consist of decimal digits and be from 1 to 65535; leading
/// zeros are allowed.
///
/// # Examples
///
/// ```text
/// assert_eq!(arguments(&["24", "80", "0"]), None);
/// ```
pub fn arguments(words: &[&str]) -> Option<(NonZeroU16, NonZeroU16, NonZeroU16)>
    ensures some { IfSome result (λ a.
        AsksToMirror (map (λ word. word.now) words.now) (non_zero_u16_get a.0)
        (non_zero_u16_get a.1) (non_zero_u16_get a.2)) }
    ensures none { IfNone result (AskForNothing (map (λ word. word.now) words.now)) }
{
    let [rows, cols, every] = words else {
        return None;
    };
    let rows = size(rows)?;
    let cols = size(cols)?;
    let every = size(every)?;
    Some((rows, cols, every))
}

/// Parses the number of rows, the number of columns and the number of bytes between updates from
/// owned command-line arguments. Returns `None` if the arguments are invalid (see [`arguments`]).
pub(crate) fn asked(words: &[String]) -> Option<(NonZeroU16, NonZeroU16, NonZeroU16)>
    ensures some { IfSome result (λ a.
        AsksToMirror (map (λ word. string_bytes word) words.now) (non_zero_u16_get a.0)
        (non_zero_u16_get a.1) (non_zero_u16_get a.2)) }
    ensures none { IfNone result (AskForNothing (map (λ word. string_bytes word) words.now)) }
{
    let [rows, cols, every] = words else {
        return None;
    };
    arguments(&[rows.as_str(), cols.as_str(), every.as_str()])
}
