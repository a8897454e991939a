//! The parameter groups of a control sequence as slices.

ghost use Rattle.std.specs.Prelude.{◌≡◌, ℕ, ◌<◌, ◌≤◌, List, [], ◌∷◌, ◌++◌, length, map, take};

use std::marker::Model;

/// The maximum number of numbers (parameters and subparameters) kept for a control sequence, and
/// therefore also the maximum number of parameter groups.
pub(crate) const MAX_NUMBERS: usize = 32;

/// The parameter groups of a control sequence, at most 32. Each group is a slice that holds a
/// parameter and its subparameters.
///
/// The slices are stored in a fixed-size array, so no memory is allocated.
#[derive(Drop)]
pub struct Groups<'a> {
    table: [&'a [u16]; MAX_NUMBERS],
    len: usize,
}

impl<'a> Model for Groups<'a> {
    ghost Value = { List (List ℕ) };

    ghost view = { λ g. map (λ r. r.now) (take g.len g.table) };

    ghost invariant = { λ g. g.len ≤ 32 };
}

impl<'a> Groups<'a> {
    /// Creates an empty list of groups.
    #[inline]
    pub fn new() -> Groups<'a>
        ensures { result ≡ [] }
    {
        Groups {
            table: [&[]; MAX_NUMBERS],
            len: 0,
        }
    }

    /// Appends a parameter group. The list must have fewer than 32 groups.
    #[inline]
    pub fn push(&mut self, group: &'a [u16])
        requires { length self.old < 32 }
        ensures { self.new ≡ self.old ++ group.now ∷ [] }
    {
        self.table[self.len] = group;
        self.len += 1;
    }

    /// Returns the groups, each as a slice of its numbers.
    #[inline]
    pub fn as_slice(&self) -> &[&'a [u16]]
        ensures { map (λ r. r.now) result.now ≡ self.now }
    {
        &self.table[..self.len]
    }
}
