//! The `;`-separated parts of an operating system command, as slices of its text.

ghost use Rattle.std.specs.Prelude.{◌≡◌, ℕ, ◌≤◌, List, [], ◌∷◌, ◌++◌, length, map, nat_le, take};
ghost use Rattle.vt_scan.specs.Automaton.{parts_of};

use crate::lengths::part_len;
use std::marker::Model;

/// The maximum number of parts kept for an operating system command.
const MAX_PARTS: usize = 16;

/// The first 16 of the `;`-separated parts of an operating system command, as slices of its text.
///
/// The slices are stored in a fixed-size array, so no memory is allocated.
#[derive(Drop)]
pub struct Parts<'a> {
    table: [&'a [u8]; MAX_PARTS],
    len: usize,
}

impl<'a> Model for Parts<'a> {
    ghost Value = { List (List ℕ) };

    ghost view = { λ p. map (λ r. r.now) (take p.len p.table) };

    ghost invariant = { λ p. p.len ≤ 16 };
}

impl<'a> Parts<'a> {
    /// Splits `text` at each `;` and returns the first 16 parts.
    pub fn of(text: &'a [u8]) -> Parts<'a>
        ensures { result ≡ parts_of text.now }
    {
        let mut parts = Parts {
            table: [&[]; MAX_PARTS],
            len: 0,
        };
        let mut start = 0;
        let mut end = part_len(text);
        while end < text.len() && !parts.is_full() {
            parts.push(&text[start..end]);
            start = end + 1;
            let len = part_len(&text[start..]);
            end = start + len;
        }
        parts.push(&text[start..end]);
        parts
    }

    /// Returns whether the list has 16 parts.
    fn is_full(&self) -> bool
        ensures { result ≡ nat_le 16 (length self.now) }
    {
        self.len >= MAX_PARTS
    }

    /// Appends a part unless the list already has 16.
    fn push(&mut self, part: &'a [u8])
        ensures { (all : List (List ℕ)) → self.old ≡ take 16 all → self.new ≡ take 16 (all ++ part.now ∷ []) }
    {
        if self.len < MAX_PARTS {
            self.table[self.len] = part;
            self.len += 1;
        }
    }

    /// Returns the parts as a slice, in the order in which they appear in the command.
    #[inline]
    pub fn as_slice(&self) -> &[&'a [u8]]
        ensures { map (λ r. r.now) result.now ≡ self.now }
    {
        &self.table[..self.len]
    }
}
