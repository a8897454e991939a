//! Translating what a program prints in DEC Special Graphics to Unicode.

ghost use Rattle.std.specs.Prelude.{◌≡◌, length};
ghost use Rattle.vt100_c.specs.Calls.{MakesOne};
ghost use Rattle.vt100_c.specs.Due.{IsAnswer};
ghost use Rattle.vt100_c.specs.Status.{ok};
ghost use Rattle.vt100_c.specs.Translating.{IsNewCharsets, TranslatesHeld, TranslatesInto, TranslatesSource};
ghost use Rattle.vt100_c.specs.Translating.{room_status, translation_due, translation_status};

use crate::copying::copy;
use crate::handle::Handle;
use crate::lifecycle::hold;
use crate::object::Source;
use crate::status::{BAD_ARGUMENT, IN_USE, NO_OBJECT, OK, OUT_OF_MEMORY, WRONG_KIND};
use std::alloc::Global;
use vt_charsets::Charsets;

/// Creates a translator of character sets at the start of its input in the empty handle `out`
/// ([`Charsets::new`]).
///
/// # Errors
///
/// Returns `IN_USE` if `out` is not empty, or `OUT_OF_MEMORY` if an allocation fails. On error,
/// nothing is changed.
#[unsafe(no_mangle)]
pub extern "C" fn vt100_charsets_new(alloc: Global, out: &mut Handle) -> u8
    ensures { MakesOne IsNewCharsets out.old.held result out.new.held }
{
    if out.is_full() {
        return IN_USE;
    }
    hold(alloc, Source::Charsets(Charsets::new()), out)
}

/// Translates bytes, stores the translation in `out` and its length in `len`
/// ([`Charsets::translate`]). `out` must have room for three times as many bytes, and its rest is
/// unchanged. Input may be split anywhere.
///
/// # Errors
///
/// Returns `NO_OBJECT` if the handle is empty, `WRONG_KIND` if it holds no translator,
/// `BAD_ARGUMENT` if `out` is too short, or `OUT_OF_MEMORY` if an allocation fails. On error,
/// nothing is changed, and the bytes may be passed again.
#[unsafe(no_mangle)]
pub extern "C" fn vt100_charsets_translate(
    alloc: Global,
    handle: &mut Handle,
    bytes: &[u8],
    out: &mut [u8],
    len: &mut usize,
) -> u8
    ensures answer { IsAnswer (translation_due (length bytes.now) (length out.old) handle.old.held) result }
    ensures ok { result ≡ ok → TranslatesHeld bytes.now out.old out.new len.new handle.old.held handle.new.held }
    ensures refused { ¬ (result ≡ ok) → (handle.new.held ≡ handle.old.held) × (out.new ≡ out.old) × (len.new ≡ len.old) }
{
    if !handle.is_full() {
        return NO_OBJECT;
    }
    let mut object = handle.take_out(alloc);
    let status = translate(alloc, &mut object.source, bytes, out, len);
    handle.put_back(object);
    status
}

/// Translates bytes with a translator, as [`vt100_charsets_translate`] does. Returns `WRONG_KIND` if
/// the source is not a translator.
fn translate(
    alloc: Global,
    source: &mut Source,
    bytes: &[u8],
    out: &mut [u8],
    len: &mut usize,
) -> u8
    ensures answer { IsAnswer (translation_status (length bytes.now) (length out.old) source.old) result }
    ensures ok { result ≡ ok → TranslatesSource bytes.now out.old out.new len.new source.old source.new }
    ensures refused { ¬ (result ≡ ok) → (source.new ≡ source.old) × (out.new ≡ out.old) × (len.new ≡ len.old) }
{
    match source {
        Source::Charsets(charsets) => translate_into(alloc, charsets, bytes, out, len),
        Source::Parser(_) => WRONG_KIND,
        Source::Screen(_) => WRONG_KIND,
        Source::Mirror(_) => WRONG_KIND,
        Source::Capture(_) => WRONG_KIND,
    }
}

/// Translates bytes, stores the translation in `out` and its length in `len`. Returns
/// `BAD_ARGUMENT` if `out` has less than three times as many bytes, or `OUT_OF_MEMORY` if an
/// allocation fails.
fn translate_into(
    alloc: Global,
    charsets: &mut Charsets,
    bytes: &[u8],
    out: &mut [u8],
    len: &mut usize,
) -> u8
    ensures answer { IsAnswer (room_status (length bytes.now) (length out.old)) result }
    ensures ok { result ≡ ok → TranslatesInto bytes.now out.old out.new len.new charsets.old charsets.new }
    ensures refused { ¬ (result ≡ ok) → (charsets.new ≡ charsets.old) × (out.new ≡ out.old) × (len.new ≡ len.old) }
{
    if out.len() / 3 < bytes.len() {
        return BAD_ARGUMENT;
    }
    let mut sink = Vec::new(alloc);
    match charsets.translate(bytes, &mut sink) {
        Ok(()) => {
            *len = copy(sink.as_slice(), out);
            OK
        }
        Err(_) => OUT_OF_MEMORY,
    }
}
