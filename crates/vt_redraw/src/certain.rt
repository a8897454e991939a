//! Characters on whose width terminals agree.

ghost use Rattle.std.specs.Prelude.{◌≡◌, ◌<◌, ◌≤◌, [], ◌∷◌, chars};
ghost use Rattle.vt_redraw.specs.Certain.{is_between, is_certain, is_certain_letter, is_certain_text};
ghost use Rattle.vt_redraw.specs.Certain.{is_certain_wide, is_early_letter, is_high_letter, is_late_letter};
ghost use Rattle.vt_redraw.specs.Certain.{is_low_symbol, is_powerline};

/// Returns whether terminals agree on the width of the character `c`.
pub fn is_certain(c: char) -> bool
    ensures { result ≡ is_certain c }
{
    is_certain_code(c as u32)
}

/// Returns whether terminals agree on the width of the character with the given code. Tries the most
/// common characters first.
#[inline]
#[tactic(auto, using(crate::proofs::Certainty::beyond))]
fn is_certain_code(code: u32) -> bool
    ensures { result ≡ is_certain code }
{
    if code < 0x2000 {
        return is_certain_below_symbols(code);
    }
    if code < 0x3000 {
        return is_certain_among_symbols(code);
    }
    if code > 0xffff {
        return false;
    }
    is_certain_after_symbols(code)
}

/// Returns whether terminals agree on the width of the character with the given code, which must be
/// less than U+2000. There are neither symbols nor wide characters among these, and Latin, Greek and
/// Cyrillic letters are the most common.
#[inline(always)]
#[tactic(auto, using(crate::proofs::Certainty::below_symbols))]
fn is_certain_below_symbols(code: u32) -> bool
    ensures { code < 0x2000 → result ≡ is_certain code }
{
    is_between(0x20, 0x7e, code)
        || is_between(0xae, 0x2ff, code)
        || is_between(0x3a3, 0x482, code)
        || is_low_letter(code)
}

/// Returns whether terminals agree on the width of the character with the given code, which must be
/// from U+2000 to U+2FFF. There are only symbols among these, and box drawing is the most common.
#[inline(always)]
#[tactic(auto, using(crate::proofs::Certainty::among_symbols))]
fn is_certain_among_symbols(code: u32) -> bool
    ensures { 0x2000 ≤ code → code < 0x3000 → result ≡ is_certain code }
{
    is_between(0x2500, 0x25a9, code) || is_low_symbol(code)
}

/// Returns whether terminals agree on the width of the character with the given code, which must be
/// at least U+3000. The most common of these are ideographs. Narrow characters begin at U+E000.
#[inline(always)]
#[tactic(auto, using(crate::proofs::Certainty::after_symbols))]
fn is_certain_after_symbols(code: u32) -> bool
    ensures { 0x3000 ≤ code → result ≡ is_certain code }
{
    is_between(0x4e00, 0x9fd5, code)
        || is_certain_wide(code)
        || (0xe000 <= code && (is_powerline(code) || is_high_letter(code)))
}

/// Returns whether the character with the given code is a private character that Powerline uses.
#[tactic(auto, unfolding(crate::specs::Certain::is_powerline))]
fn is_powerline(code: u32) -> bool
    ensures { result ≡ is_powerline code }
{
    is_between(0xe0a0, 0xe0a2, code) || is_between(0xe0b0, 0xe0b3, code)
}

/// Returns whether the character with the given code is an Arabic presentation form or halfwidth
/// katakana, and terminals agree that it takes one column.
#[inline(never)]
#[tactic(auto, unfolding(crate::specs::Certain::is_high_letter))]
fn is_high_letter(code: u32) -> bool
    ensures { result ≡ is_high_letter code }
{
    is_between(0xfb50, 0xfbb1, code)
        || is_between(0xfe70, 0xfe74, code)
        || is_between(0xfe76, 0xfefc, code)
        || is_between(0xff61, 0xff9d, code)
}

/// Returns whether `code` is in the inclusive range from `low` to `high`.
#[inline(always)]
fn is_between(low: u32, high: u32, code: u32) -> bool
    ensures { result ≡ is_between low high code }
{
    low <= code && code <= high
}

/// Returns whether the character with the given code, which must be less than U+2000, is a letter, a
/// digit or punctuation of a script, other than those in ASCII, and terminals agree that it takes one
/// column.
#[inline]
#[tactic(auto, using(crate::proofs::Certainty::early_letter, crate::proofs::Certainty::late_letter))]
fn is_low_letter(code: u32) -> bool
    ensures { code < 0x2000 → result ≡ is_certain_letter code }
{
    if code < 0x600 {
        return is_early_letter(code);
    }
    is_late_letter(code)
}

/// Returns what [`is_low_letter`] returns, for a code that is less than U+0600.
#[inline(never)]
#[tactic(auto, unfolding(crate::specs::Certain::is_early_letter))]
fn is_early_letter(code: u32) -> bool
    ensures { result ≡ is_early_letter code }
{
    is_between(0xa1, 0xac, code)
        || is_between(0xae, 0x2ff, code)
        || is_between(0x370, 0x377, code)
        || is_between(0x37a, 0x37f, code)
        || is_between(0x384, 0x38a, code)
        || is_between(0x38c, 0x38c, code)
        || is_between(0x38e, 0x3a1, code)
        || is_between(0x3a3, 0x482, code)
        || is_between(0x48a, 0x52f, code)
        || is_between(0x531, 0x556, code)
        || is_between(0x561, 0x587, code)
        || is_between(0x5d0, 0x5ea, code)
}

/// Returns what [`is_low_letter`] returns, for a code that is at least U+0600.
#[inline(never)]
#[tactic(auto, unfolding(crate::specs::Certain::is_late_letter))]
fn is_late_letter(code: u32) -> bool
    ensures { result ≡ is_late_letter code }
{
    is_between(0x620, 0x64a, code)
        || is_between(0x660, 0x66f, code)
        || is_between(0x671, 0x6d5, code)
        || is_between(0x904, 0x939, code)
        || is_between(0x958, 0x961, code)
        || is_between(0x964, 0x970, code)
        || is_between(0xe01, 0xe30, code)
        || is_between(0xe32, 0xe33, code)
        || is_between(0xe3f, 0xe46, code)
        || is_between(0xe4f, 0xe5b, code)
        || is_between(0x10d0, 0x10fc, code)
        || is_between(0x1e00, 0x1eff, code)
}

/// Returns whether the character with the given code is from U+2000 to U+2FFF, a symbol or
/// punctuation that belongs to no script, and terminals agree that it takes one column.
#[inline(never)]
#[tactic(auto, unfolding(crate::specs::Certain::is_low_symbol))]
fn is_low_symbol(code: u32) -> bool
    ensures { result ≡ is_low_symbol code }
{
    is_between(0x2500, 0x25a9, code)
        || is_between(0x2010, 0x2027, code)
        || is_between(0x2030, 0x203b, code)
        || is_between(0x20a0, 0x20bd, code)
        || is_between(0x2190, 0x2193, code)
        || is_between(0x219a, 0x21a8, code)
        || is_between(0x21ab, 0x21ff, code)
        || is_between(0x2200, 0x22ff, code)
        || is_between(0x239b, 0x23ce, code)
        || is_between(0x25ac, 0x25b5, code)
        || is_between(0x25b7, 0x25bf, code)
        || is_between(0x25c1, 0x25fa, code)
        || is_between(0x2605, 0x2606, code)
        || is_between(0x2713, 0x2713, code)
        || is_between(0x2717, 0x2718, code)
        || is_between(0x2768, 0x2775, code)
        || is_between(0x2794, 0x2794, code)
        || is_between(0x2798, 0x27a0, code)
        || is_between(0x2800, 0x28ff, code)
}

/// Returns whether terminals agree that the character with the given code takes two columns.
#[inline(never)]
#[tactic(auto, unfolding(crate::specs::Certain::is_certain_wide))]
fn is_certain_wide(code: u32) -> bool
    ensures { result ≡ is_certain_wide code }
{
    is_between(0x4e00, 0x9fd5, code)
        || is_between(0xac00, 0xd7a3, code)
        || is_between(0x3000, 0x3029, code)
        || is_between(0x3041, 0x3096, code)
        || is_between(0x309b, 0x30ff, code)
        || is_between(0x3105, 0x312d, code)
        || is_between(0x3400, 0x4db5, code)
        || is_between(0xf900, 0xfa6d, code)
        || is_between(0xff01, 0xff60, code)
        || is_between(0xffe0, 0xffe6, code)
}

/// Returns the code of the character whose UTF-8 encoding is the two given bytes.
#[inline(always)]
#[tactic(auto, using(crate::proofs::Certainty::two_bytes))]
fn code_of_two(lead: u8, second: u8) -> u32
    ensures { 0xC0 ≤ lead → lead < 0xE0 → chars (lead ∷ second ∷ []) ≡ result ∷ [] }
{
    u32::from(lead).saturating_sub(0xc0) * 64 + u32::from(second).saturating_sub(0x80)
}

/// Returns the code of the character whose UTF-8 encoding is the three given bytes.
#[inline(always)]
#[tactic(auto, using(crate::proofs::Certainty::three_bytes))]
fn code_of_three(lead: u8, second: u8, third: u8) -> u32
    ensures { 0xE0 ≤ lead → lead < 0xF0 → chars (lead ∷ second ∷ third ∷ []) ≡ result ∷ [] }
{
    let first_bits = u32::from(lead).saturating_sub(0xe0) * 64;
    (first_bits + u32::from(second).saturating_sub(0x80)) * 64
        + u32::from(third).saturating_sub(0x80)
}

/// Returns whether terminals agree on the width of the character whose UTF-8 encoding is the three
/// given bytes. Those from U+5000 to U+7FFF are ideographs.
#[inline(always)]
#[tactic(auto, using(crate::proofs::Certainty::ideograph_bytes))]
fn is_certain_of_three(lead: u8, second: u8, third: u8) -> bool
    ensures { 0xE0 ≤ lead → lead < 0xF0 → result ≡ is_certain_text (lead ∷ second ∷ third ∷ []) }
{
    if 0xe5 <= lead && lead <= 0xe7 {
        return true;
    }
    is_certain_code(code_of_three(lead, second, third))
}

/// Returns whether the text is a single character on whose width terminals agree.
pub fn is_certain_text(text: &str) -> bool
    ensures { result ≡ is_certain_text text.now }
{
    // A text of two or three bytes that begins with a lead byte of this length is a single
    // character.
    match text.as_bytes() {
        [lead @ 0xc0..=0xdf, second] => is_certain_code(code_of_two(*lead, *second)),
        [lead @ 0xe0..=0xef, second, third] => is_certain_of_three(*lead, *second, *third),
        _ => is_certain_character(text),
    }
}

/// Returns whether the text, of any length, is a single character on whose width terminals agree.
#[inline(never)]
#[tactic(auto, using(crate::proofs::Certainty::longer))]
fn is_certain_character(text: &str) -> bool
    ensures { result ≡ is_certain_text text.now }
{
    // Terminals do not agree on the width of any character of four bytes.
    if text.len() > 3 {
        return false;
    }
    let mut chars = text.chars();
    let Some(first) = chars.next() else {
        return false;
    };
    if chars.next().is_some() {
        return false;
    }
    is_certain(first)
}
