//! Parsing of command-line arguments.

ghost use Rattle.std.specs.Int.NonZero.{non_zero_u16_get};
ghost use Rattle.std.specs.Prelude.{◌≡◌, ◌==◌, ℕ, map, slice_index, string_bytes, IfErr, IfNone, IfSome};
ghost use Rattle.vt_show.specs.Program.{AskForNothing, AsksToShow, IsSize, name_of};
ghost use Rattle.vt_show.specs.declared.faults.Fault.{Fault};
ghost use Rattle.vt_show.specs.declared.mode.Mode.{Mode};

use crate::faults::Fault;
use crate::mode::Mode;
use std::env::Env;
use std::num::NonZeroU16;
use std::{env, io};

/// Returns copies of the command-line arguments, without the program's name. `vtmirror` also uses
/// this function.
///
/// # Errors
///
/// Returns `None` if an argument is not UTF-8, and [`Fault::Memory`] if an allocation fails.
pub fn given_words<R: Env + AllocGlobal>(rt: &R) -> Result<Vec<String>, Option<Fault>>
    ensures { IfErr result (λ error. IfSome error (λ fault. fault ≡ Fault.Memory)) }
{
    let mut words = Vec::new(rt.alloc());
    let all = match env::args(rt) {
        Ok(all) => all,
        Err(error) if error.kind() == io::ErrorKind::OutOfMemory => return Err(Some(Fault::Memory)),
        Err(_) => return Err(None),
    };
    for word in all.skip(1) {
        if words.push(word).is_err() {
            return Err(Some(Fault::Memory));
        }
    }
    Ok(words)
}

/// Parses the number of rows, the number of columns and the mode from exactly three arguments.
/// Returns `None` if the arguments are invalid.
///
/// Each number must consist of decimal digits and be from 1 to 65535; leading zeros are allowed.
/// The modes are `plain`, `formatted` and `basic`.
///
/// ```text
/// assert_eq!(arguments(&["0", "80", "formatted"]), None);
/// ```
pub fn arguments(words: &[&str]) -> Option<(NonZeroU16, NonZeroU16, Mode)>
    ensures some { IfSome result (λ a.
        AsksToShow (map (λ word. word.now) words.now) (non_zero_u16_get a.0) (non_zero_u16_get a.1) a.2) }
    ensures none { IfNone result (AskForNothing (map (λ word. word.now) words.now)) }
{
    let [rows, cols, mode] = words else {
        return None;
    };
    let rows = size(rows)?;
    let cols = size(cols)?;
    let mode = mode_named(mode)?;
    Some((rows, cols, mode))
}

/// Parses the number of rows, the number of columns and the mode from owned command-line arguments,
/// as [`arguments`] does. Returns `None` if the arguments are invalid.
pub(crate) fn asked(words: &[String]) -> Option<(NonZeroU16, NonZeroU16, Mode)>
    ensures some { IfSome result (λ a.
        AsksToShow (map (λ word. string_bytes word) words.now) (non_zero_u16_get a.0) (non_zero_u16_get a.1) a.2) }
    ensures none { IfNone result (AskForNothing (map (λ word. string_bytes word) words.now)) }
{
    let [rows, cols, mode] = words else {
        return None;
    };
    arguments(&[rows.as_str(), cols.as_str(), mode.as_str()])
}

/// Parses a number of rows or columns. The string must consist of decimal digits, and the number
/// must be from 1 to 65535; leading zeros are allowed. Returns `None` for any other string.
///
/// ```text
/// assert_eq!(size("080"), NonZeroU16::new(80));
/// assert_eq!(size("+80"), None);
/// ```
pub fn size(word: &str) -> Option<NonZeroU16>
    ensures some { IfSome result (λ n. IsSize word.now (non_zero_u16_get n)) }
    ensures none { IfNone result ((n : ℕ) → IsSize word.now n → ⊥) }
{
    if has_sign(word) {
        return None;
    }
    match word.parse::<u16>() {
        Ok(number) => NonZeroU16::new(number),
        Err(_) => None,
    }
}

/// Returns whether the string begins with `+`, which `parse` would accept.
fn has_sign(word: &str) -> bool
    ensures { result ≡ (slice_index word.now 0 == 43) }
{
    match word.as_bytes() {
        [b'+', ..] => true,
        _ => false,
    }
}

/// Returns the mode named `word`, or `None` if there is no such mode.
fn mode_named(word: &str) -> Option<Mode>
    ensures some { IfSome result (λ mode. word.now ≡ name_of mode) }
    ensures none { IfNone result ((mode : Mode) → word.now ≡ name_of mode → ⊥) }
{
    if word == "plain" {
        return Some(Mode::Plain);
    }
    if word == "formatted" {
        return Some(Mode::Formatted);
    }
    if word == "basic" {
        return Some(Mode::Basic);
    }
    None
}
