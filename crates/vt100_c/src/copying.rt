//! Copying the text that was last stored in a handle.

ghost use Rattle.std.specs.Prelude.{◌≡◌, drop, length, min, take};
ghost use Rattle.vt100_c.specs.Due.{text_at};

use crate::handle::Handle;
use std::alloc::Global;

/// Copies as much of the text last stored in a handle as fits into `out`, and returns the number of
/// bytes copied, which is 0 if the handle is empty. The rest of `out` is unchanged.
#[unsafe(no_mangle)]
pub extern "C" fn vt100_copy(alloc: Global, handle: &mut Handle, out: &mut [u8]) -> usize
    ensures same { handle.new.held ≡ handle.old.held }
    ensures count { result ≡ min (length (text_at handle.old.held)) (length out.old) }
    ensures text { take result out.new ≡ take result (text_at handle.old.held) }
    ensures rest { drop result out.new ≡ drop result out.old }
{
    if !handle.is_full() {
        return 0;
    }
    let object = handle.take_out(alloc);
    let count = copy(object.text.as_bytes(), out);
    handle.put_back(object);
    count
}

/// Copies as many bytes as fit into `out`, and returns the number of bytes
/// copied.
pub(crate) fn copy(bytes: &[u8], out: &mut [u8]) -> usize
    ensures count { result ≡ min (length bytes.now) (length out.old) }
    ensures text { take result out.new ≡ take result bytes.now }
    ensures rest { drop result out.new ≡ drop result out.old }
{
    let count = bytes.len().min(out.len());
    out[..count].copy_from_slice(&bytes[..count]);
    count
}
