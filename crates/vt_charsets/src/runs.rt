//! The end of a run of bytes that are written as they are.

ghost use Rattle.std.specs.Prelude.{◌≡◌, ◌≤◌, length, take, true};
ghost use Rattle.std.specs.List.{AllByRecursion};
ghost use Rattle.vt_charsets.specs.Internals.{is_kept};

/// Returns the number of leading bytes that are kept in the ground state (see [`is_kept`]).
pub(crate) fn kept_len(bytes: &[u8], is_drawing: bool) -> usize
    ensures inside { result ≤ length bytes.now }
    ensures kept { AllByRecursion (λ b. is_kept is_drawing b ≡ true) (take result bytes.now) }
{
    let mut len = 0;
    while len < bytes.len() && is_kept(bytes[len], is_drawing) {
        len += 1;
    }
    len
}

/// Returns whether a byte in the ground state is written as it is and leaves the character sets
/// unchanged, unless a single shift is pending: it is not SO, SI or ESC, and not replaced. Bytes
/// from 0x5F to 0x7E are replaced if `is_drawing` is true.
#[inline(always)]
fn is_kept(byte: u8, is_drawing: bool) -> bool
    ensures { result ≡ is_kept is_drawing byte }
{
    let is_replaced = is_drawing && byte >= 0x5F && byte < 0x7F;
    byte != 0x0E && byte != 0x0F && byte != 0x1B && !is_replaced
}
