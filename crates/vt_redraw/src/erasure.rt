//! A guess at rows that are better erased and drawn anew than drawn over.

ghost use Rattle.std.specs.Prelude.{◌≤◌, IfSome, length};
ghost use Rattle.vt_redraw.specs.Moved.{IsBand};

use crate::band::Band;
use crate::row_costs::{Numbers, RUN, fresh_cost, sequences};
use crate::view::View;
use vt_cells::Attrs;

/// The divisor that determines the minimum saving of an erasure of rows: it must be expected to
/// save more bytes than the length of the diff divided by this number.
const SHARE_DIVISOR: i32 = 16;

/// Returns whether erasing rows first may save enough bytes (see [`SHARE_DIVISOR`]). `text` is the
/// diff if no rows are erased first, and `attrs` are the terminal's attributes.
///
/// At most, it saves the bytes that move the cursor to each erased run of default blanks and erase
/// this run.
pub(crate) fn may_save(text: &str, attrs: Attrs) -> bool {
    let Ok(len) = i32::try_from(text.len()) else {
        return false;
    };
    let bytes = text.as_bytes();
    let saved = (len / SHARE_DIVISOR).saturating_add(sequences(false, attrs));
    let least = (saved / (2 * RUN)).saturating_add(1);
    // Counting them all takes far less time, and there are rarely enough.
    let all = erasing_bytes(bytes);
    all >= least && has_default_runs(bytes, least, all.saturating_sub(least))
}

/// Returns the number of bytes that may be the final byte of a sequence that erases (EL or ECH).
///
/// The bytes of each part are counted in a byte of their own, so that many can be counted at once.
fn erasing_bytes(bytes: &[u8]) -> i32 {
    let mut count = 0_i32;
    for part in bytes.chunks(255) {
        let mut count_in_part = 0_u8;
        for &byte in part {
            count_in_part = count_in_part.wrapping_add(u8::from(is_erasing(byte)));
        }
        count = count.wrapping_add(i32::from(count_in_part));
    }
    count
}

/// Returns whether the byte may be the final byte of a sequence that erases (EL or ECH).
#[inline(always)]
fn is_erasing(byte: u8) -> bool {
    byte == b'K' || byte == b'X'
}

/// Returns whether at least `least` of the bytes counted by [`erasing_bytes`] follow a reset of all
/// attributes (SGR) and no later change of attributes. The attributes are taken to be the defaults
/// at first. Stops as soon as more than `most_others` of the bytes do not follow a reset.
fn has_default_runs(bytes: &[u8], least: i32, most_others: i32) -> bool {
    let mut runs = 0_i32;
    let mut others = 0_i32;
    let mut is_default = true;
    for at in 0..bytes.len() {
        let byte = bytes[at];
        if byte == b'm' {
            is_default = is_default_after(is_default, &bytes[..at]);
        } else if is_erasing(byte) {
            if is_default {
                runs = runs.wrapping_add(1);
            } else {
                others = others.wrapping_add(1);
            }
            if runs >= least || others > most_others {
                return runs >= least;
            }
        }
    }
    false
}

/// Returns whether the attributes are probably the defaults after an `m` that follows `before`.
/// `is_default` is whether they were so before it.
fn is_default_after(is_default: bool, before: &[u8]) -> bool {
    match before.last() {
        Some(b'[') => true,
        Some(byte) => is_default && !byte.is_ascii_digit(),
        None => is_default,
    }
}

/// Returns the range of rows that saves the most bytes if it is erased and drawn anew, as a band
/// that moves by its whole height. Returns `None` if every range is expected to save too few bytes
/// (see [`SHARE_DIVISOR`]). Only the first `height` rows are examined. `here` holds the costs of
/// the rows if nothing is erased, `attrs` are the terminal's attributes, and `len` is the length of
/// the diff if nothing is erased, in bytes.
pub(crate) fn likely_erasure(
    view: &View<'_>,
    height: u16,
    here: &Numbers,
    attrs: Attrs,
    len: usize,
) -> Option<Band>
    requires inside { height ≤ length view.now.rows }
    requires few { height ≤ 256 }
    ensures { IfSome result (λ band. IsBand (length view.now.rows) band) }
{
    let least = i32::try_from(len).ok()? / SHARE_DIVISOR;
    let (top, bottom) = best_range(view, height, here, attrs, least)?;
    let band = Band {
        top,
        bottom,
        count: bottom.saturating_sub(top),
        up: true,
    };
    if band.is_within(view.rows()) {
        Some(band)
    } else {
        None
    }
}

/// Returns the first row, and the row after the last row, of the range of rows that saves the most
/// bytes if it is erased and drawn anew. Returns `None` if no range saves more than `least` bytes.
/// See [`likely_erasure`] for the other parameters.
///
/// Adds up the bytes saved row by row, and begins a new range after each row at which the sum is
/// not positive.
fn best_range(
    view: &View<'_>,
    height: u16,
    here: &Numbers,
    attrs: Attrs,
    least: i32,
) -> Option<(u16, u16)>
    requires inside { height ≤ length view.now.rows }
    requires few { height ≤ 256 }
{
    let mut first = 0_u16;
    let mut saved = 0_i32;
    let mut best = least;
    let mut range = None;
    for row in 0..height {
        let end = row + 1;
        saved = saved.saturating_add(here[usize::from(row)]);
        // A row that costs nothing now cannot begin a range, so what it costs anew is not needed.
        if saved > 0 {
            saved = saved.saturating_sub(fresh_cost(&view.row(row)));
        }
        if saved <= 0 {
            saved = 0;
            first = end;
        }
        let gain = saved.saturating_sub(sequences(end < view.rows(), attrs));
        if gain > best {
            best = gain;
            range = Some((first, end));
        }
    }
    range
}
