//! The texts of items, stored one after the other.

ghost use Rattle.std.specs.Prelude.{◌≡◌, ◌<◌, ◌≤◌, ◌+◌, ◌++◌, length, slice_index, vec_capacity, vec_len};
ghost use Rattle.vt_packed.specs.Items.{after_first, first_text, is_length, is_single, lead_len};
ghost use Rattle.vt_packed.specs.Items.{skipped_len, stored_text, text_len};

/// Returns the number of bytes of a UTF-8 character that begins with `byte`, or 0 if `byte` is a
/// continuation byte.
#[inline]
#[tactic(auto, using(std::proofs::lemmas::Bool::Decides::nat_tests), unfolding(crate::specs::Items::lead_len))]
fn lead_len(byte: u8) -> usize
    ensures value { result ≡ lead_len byte }
    ensures small { result ≤ 4 }
{
    match byte {
        0..=0x7F => 1,
        0x80..=0xBF => 0,
        0xC0..=0xDF => 2,
        0xE0..=0xEF => 3,
        0xF0..=0xFF => 4,
    }
}

/// Returns whether `byte` holds the length of the text after it.
#[inline]
#[tactic(auto, using(std::proofs::lemmas::Bool::Decides::nat_tests))]
fn is_length(byte: u8) -> bool
    ensures { result ≡ is_length byte }
{
    byte >= 0x80 && byte < 0xC0
}

/// Returns whether the text is a single character, that is, whether it has the length that its
/// first byte indicates.
#[inline]
#[tactic(auto, using(crate::proofs::Stored::single_none, crate::proofs::Stored::single_some))]
pub fn is_single(text: &[u8]) -> bool
    ensures { result ≡ is_single text.now }
{
    if text.is_empty() {
        return false;
    }
    text.len() == lead_len(text[0])
}

/// Appends a text to the stored texts `bytes`. The text must be shorter than 64 bytes, and memory
/// for it must already be reserved.
#[tactic(auto, unfolding(crate::specs::Items::stored_text))]
pub fn push_text(bytes: &mut Vec<u8>, text: &[u8])
    requires short { length text.now < 64 }
    requires room { vec_len bytes.old + length (stored_text text.now) ≤ vec_capacity bytes.old }
    ensures ok { bytes.new.items ≡ bytes.old.items ++ stored_text text.now }
    ensures capacity { vec_capacity bytes.old ≤ vec_capacity bytes.new }
{
    if !is_single(text) {
        bytes.push_reserved(0x80 + text.len() as u8);
    }
    let _ = bytes.extend_from_slice(text);
}

/// Returns the number of bytes before a stored text, given its first stored byte.
#[inline]
#[tactic(auto, unfolding(crate::specs::Items::skipped_len))]
fn skipped_len(byte: u8) -> usize
    ensures { result ≡ skipped_len byte }
{
    if is_length(byte) { 1 } else { 0 }
}

/// Returns the length of a stored text, given its first stored byte.
#[inline]
#[tactic(auto, using(std::proofs::lemmas::Bool::Decides::nat_tests), unfolding(crate::specs::Items::text_len))]
fn text_len(byte: u8) -> usize
    ensures value { result ≡ text_len byte }
    ensures small { result < 64 }
{
    if is_length(byte) {
        usize::from(byte - 0x80)
    } else {
        lead_len(byte)
    }
}

/// Splits stored texts into the first text and the stored texts after it. `bytes` must contain all
/// of the first text.
#[tactic(auto, unfolding(crate::specs::Items::first_text, crate::specs::Items::after_first))]
pub fn split_first(bytes: &[u8]) -> (&[u8], &[u8])
    requires nonempty { 0 < length bytes.now }
    requires whole { skipped_len (slice_index bytes.now 0) + text_len (slice_index bytes.now 0) ≤ length bytes.now }
    ensures first { result.0.now ≡ first_text bytes.now }
    ensures rest { result.1.now ≡ after_first bytes.now }
{
    let start = skipped_len(bytes[0]);
    let end = start + text_len(bytes[0]);
    (&bytes[start..end], &bytes[end..])
}
