//! The private marker and the intermediates of a sequence.

ghost use Rattle.std.specs.Prelude.{◌≡◌, ℕ, ◌≤◌, List, [], ◌∷◌, ◌++◌, take};

use std::marker::Model;

/// The maximum number of intermediates kept for a sequence, counting the private marker.
const MAX_MARKS: usize = 2;

/// A list that keeps the first two intermediates pushed to it. The private marker counts as an
/// intermediate.
#[derive(Drop)]
pub struct Intermediates {
    bytes: [u8; MAX_MARKS],
    len: usize,
}

impl Model for Intermediates {
    ghost Value = { List ℕ };

    ghost view = { λ m. take m.len m.bytes };

    ghost invariant = { λ m. m.len ≤ 2 };
}

impl Intermediates {
    /// Creates an empty list of intermediates.
    pub fn new() -> Self
        ensures { result ≡ [] }
    {
        Intermediates {
            bytes: [0; MAX_MARKS],
            len: 0,
        }
    }

    /// Removes all intermediates.
    #[inline]
    pub fn clear(&mut self)
        ensures { self.new ≡ [] }
    {
        self.len = 0;
    }

    /// Appends an intermediate unless the list already has two.
    #[inline]
    pub fn push(&mut self, byte: u8)
        ensures { (all : List ℕ) → self.old ≡ take 2 all → self.new ≡ take 2 (all ++ byte ∷ []) }
    {
        if self.len < MAX_MARKS {
            self.bytes[self.len] = byte;
            self.len += 1;
        }
    }

    /// Returns the intermediates in order.
    #[inline]
    pub fn as_slice(&self) -> &[u8]
        ensures { result.now ≡ self.now }
    {
        &self.bytes[..self.len]
    }
}
