//! Random choices of the number of bytes between two updates and of the actions of viewers.

ghost use Rattle.std.specs.Prelude.{◌<◌};

/// The maximum number of bytes between two updates.
const MOST: u32 = 100;

/// A linear congruential generator of random numbers.
#[derive(Clone, Copy)]
pub struct Pace {
    state: u32,
}

impl Pace {
    /// Creates a generator with the given seed.
    pub fn new(seed: u32) -> Self {
        Pace { state: seed }
    }

    /// Returns the number of bytes until the next update, from 1 to 100.
    pub fn next_length(&mut self) -> usize {
        1 + self.next_below(MOST) as usize
    }

    /// Returns the next number below `bound`, which must not be 0.
    pub fn next_below(&mut self, bound: u32) -> u32
        requires { 0 < bound }
        ensures { result < bound }
    {
        self.state = self
            .state
            .wrapping_mul(1_664_525)
            .wrapping_add(1_013_904_223);
        (self.state >> 16) % bound
    }
}

/// Returns whether the diff that follows `count` earlier diffs may move rows first. Two diffs that
/// never move rows alternate with two diffs that may do so; each kind is therefore tested after
/// itself and after the other kind.
pub fn may_scroll(count: usize) -> bool {
    count % 4 >= 2
}
