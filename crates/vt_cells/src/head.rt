//! Everything about a cell except the bytes of its text, packed into one word.

ghost use Rattle.std.specs.Prelude.{◌≡◌, ◌<◌, false, IsTrue};
ghost use Rattle.vt_cells.specs.Attrs.{default_attrs};
ghost use Rattle.vt_cells.specs.Internals.{half_shape, same_head};

use crate::attrs::Attrs;
use crate::shape::Shape;
use std::marker::Model;

/// The head of a cell: its shape (kind, width and text length) and its attributes, packed into one
/// word.
///
/// The low seven bits of the word hold the shape, and the bits above them hold the attributes. Two
/// heads are equal if and only if their words are equal.
#[derive(Clone, Copy, Debug)]
pub struct Head {
    word: u64,
}

impl Model for Head {
    ghost use Rattle.vt_cells.specs.Internals.{HeadValue, IsHead, head_back, head_of, head_word};

    ghost Value = { HeadValue };

    ghost view = { λ h. head_of h.word };

    ghost invariant = { λ h. IsHead h.word };

    ghost inverse = { λ v. record { word = head_word v } };

    ghost inverse_ok = { λ h is. λ i. record { word = head_back h.word is i } };
}

impl Head {
    /// Creates a head by packing a shape and attributes into one word.
    #[inline]
    pub fn of(shape: Shape, attrs: Attrs) -> Self
        ensures { result ≡ record { attrs = attrs; shape = shape } }
    {
        let low = shape.bits();
        let high = attrs.word();
        Head {
            word: u64::from(low) + 128 * high,
        }
    }

    /// Creates the head of a glyph that has `len` bytes of text, at most 31, and is wide if `wide`
    /// is true. If `len` is 0 and `wide` is false, creates the head of a blank.
    #[inline]
    pub fn text(len: u8, wide: bool, attrs: Attrs) -> Self
        requires { len < 32 }
        ensures { result ≡ record {
          attrs = attrs;
          shape = record { len = len; wide = wide; right_half = false };
        } }
    {
        Head::of(Shape::text(len, wide), attrs)
    }

    /// Creates the head of a continuation cell, which has default attributes and no text.
    #[inline]
    pub fn right_half() -> Self
        ensures { result ≡ record { attrs = default_attrs; shape = half_shape } }
    {
        Head::of(Shape::right_half(), Attrs::new())
    }

    /// Returns the shape of the cell.
    #[inline]
    pub fn shape(&self) -> Shape
        ensures { result ≡ self.now.shape }
    {
        Shape::of_bits((self.word % 128) as u8)
    }

    /// Returns the attributes of the cell.
    #[inline]
    pub fn attrs(&self) -> Attrs
        ensures { result ≡ self.now.attrs }
    {
        Attrs::of_word(self.word / 128)
    }

    /// Returns whether the text is longer than seven bytes.
    #[inline]
    #[tactic(auto, using(crate::proofs::Packing::short_head, crate::proofs::Packing::long_head))]
    pub fn is_long(&self) -> bool
        ensures short { result ≡ false → self.now.shape.len < 8 }
        ensures long { IsTrue result → 7 < self.now.shape.len }
    {
        self.word / 8 % 4 != 0
    }

    /// Returns the length of the text with its low three bits cleared. The result is 0 if and only
    /// if the text has at most seven bytes.
    #[inline(always)]
    #[tactic(auto, using(crate::proofs::Packing::short_bits, crate::proofs::Packing::no_long_bits))]
    pub fn long_bits(&self) -> u64
        ensures short { result ≡ 0 → self.now.shape.len < 8 }
        ensures none { self.now.shape.len < 8 → result ≡ 0 }
    {
        self.word % 32 / 8 * 8
    }

    /// Returns a bit mask that is 0 if and only if the two heads are equal and their text length is
    /// at most seven bytes.
    ///
    /// The mask contains the bits in which the two words differ, and the upper two bits of the text
    /// length of `self`, which are 0 for lengths below eight.
    #[inline(always)]
    #[tactic(auto, using(crate::proofs::Cells::heads_even, crate::proofs::Cells::short_even))]
    pub fn odd_bits(&self, other: &Head) -> u64
        ensures same { result ≡ 0 → self.now ≡ other.now }
        ensures short { result ≡ 0 → self.now.shape.len < 8 }
    {
        (self.word ^ other.word) | self.word % 32 / 8 * 8
    }

    /// Returns whether the two heads are equal.
    #[inline]
    #[tactic(auto, using(crate::proofs::Packing::heads_same))]
    pub fn is_same(&self, other: &Head) -> bool
        ensures { result ≡ same_head self.now other.now }
    {
        self.word == other.word
    }
}
