//! Functions that find the end of a run of bytes.

ghost use Rattle.std.specs.Prelude.{◌≡◌, ◌≢◌, ◌<◌, ◌≤◌, All, false, length, map, slice_index_or, take, true, ℕ};
ghost use Rattle.std.specs.List.{AllByRecursion};
ghost use Rattle.std.specs.Simd.Lanes.{mask_l};
ghost use Rattle.vt_scan.specs.Internals.{IsUnended, is_in_range};
ghost use Rattle.vt_scan.specs.Scanner.{IsPrintableByte};

use std::simd::prelude::*;

/// Returns the number of leading bytes that are printable ASCII.
#[tactic(auto, using(crate::proofs::Lists::unprintable))]
#[inline]
pub fn printable_len(bytes: &[u8]) -> usize
    ensures inside { result ≤ length bytes.now }
    ensures printable { All IsPrintableByte (take result bytes.now) }
    ensures longest { result < length bytes.now → IsPrintableByte (slice_index_or bytes.now result 0) → ⊥ }
{
    len_before(bytes, 0x7F, 0xA0)
}

/// Returns the number of leading bytes that are not C0 control characters.
#[tactic(auto, using(crate::proofs::Lists::control))]
#[inline]
pub fn text_len(bytes: &[u8]) -> usize
    ensures inside { result ≤ length bytes.now }
    ensures text { AllByRecursion (λ b. 0x20 ≤ b) (take result bytes.now) }
    ensures longest { result < length bytes.now → slice_index_or bytes.now result 0 < 0x20 }
{
    len_before(bytes, 0x00, 0x1F)
}

/// Returns the number of leading bytes other than `;`.
#[tactic(auto, using(crate::proofs::Lists::semicolon))]
#[inline]
pub fn part_len(bytes: &[u8]) -> usize
    ensures inside { result ≤ length bytes.now }
    ensures part { All (λ b. b ≢ 0x3B) (take result bytes.now) }
    ensures longest { result < length bytes.now → slice_index_or bytes.now result 0 ≡ 0x3B }
{
    len_before(bytes, b';', 0)
}

/// Returns the number of leading bytes other than CAN, SUB and ESC, the bytes that can end an
/// ignored control string.
///
/// The fast search also stops at EM (0x19), which lies between CAN and SUB; it is then resumed.
#[inline]
pub fn unended_len(bytes: &[u8]) -> usize
    ensures inside { result ≤ length bytes.now }
    ensures unended { AllByRecursion IsUnended (take result bytes.now) }
    ensures longest { result < length bytes.now → IsUnended (slice_index_or bytes.now result 0) → ⊥ }
{
    let mut len = len_before(bytes, 0x18, 3);
    while len < bytes.len() && bytes[len] == 0x19 {
        let more = len_before(&bytes[len + 1..], 0x18, 3);
        len += 1 + more;
    }
    len
}

/// Returns the number of leading bytes that are ESC.
#[inline(always)]
pub fn escapes_len(bytes: &[u8]) -> usize
    ensures inside { result ≤ length bytes.now }
    ensures escapes { AllByRecursion (λ b. b ≡ 0x1B) (take result bytes.now) }
    ensures longest { result < length bytes.now → slice_index_or bytes.now result 0 ≢ 0x1B }
{
    let mut len = 0;
    while len < bytes.len() && bytes[len] == 0x1B {
        len += 1;
    }
    len
}

/// Returns the number of leading bytes outside the inclusive range from `low` to `low + width`,
/// which wraps around from 0xFF to 0.
#[inline(always)]
fn len_before(bytes: &[u8], low: u8, width: u8) -> usize
    ensures inside { result ≤ length bytes.now }
    ensures outside { (k : ℕ) → k < result → is_in_range low width (slice_index_or bytes.now k 0) ≡ false }
    ensures longest { result < length bytes.now → is_in_range low width (slice_index_or bytes.now result 0) ≡ true }
{
    let mut len = 0;
    while bytes.len() - len >= 16 {
        let found = lanes_in_range(u8x16::from_slice(&bytes[len..]), low, width);
        if found != 0 {
            return len + found.trailing_zeros() as usize;
        }
        len += 16;
    }
    while len < bytes.len() && !is_in_range(bytes[len], low, width) {
        len += 1;
    }
    len
}

/// Returns a mask in which bit `k` is set if the byte in lane `k` is in the range from `low` to
/// `low + width` (see [`is_in_range`]).
#[tactic(auto, using(crate::proofs::Lists::range_mask))]
#[inline(always)]
fn lanes_in_range(lanes: u8x16, low: u8, width: u8) -> u64
    ensures { result ≡ mask_l (map (is_in_range low width) lanes) }
{
    (lanes - u8x16::splat(low))
        .simd_le(u8x16::splat(width))
        .to_bitmask()
}

/// Returns whether `byte` is in the inclusive range from `low` to `low + width`, which wraps around
/// from 0xFF to 0.
#[inline(always)]
fn is_in_range(byte: u8, low: u8, width: u8) -> bool
    ensures { result ≡ is_in_range low width byte }
{
    byte.wrapping_sub(low) <= width
}
