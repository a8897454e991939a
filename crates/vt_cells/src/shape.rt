//! The kind, width and text length of a cell, in one byte.

ghost use Rattle.std.specs.Prelude.{◌≡◌, ◌<◌, false, true};
ghost use Rattle.vt_cells.specs.Internals.{blank_shape, same_shape, shape_bits, shape_of};

use std::marker::Model;

/// The bit for a wide glyph in a packed [`Shape`]. The bits below it hold the length of the text.
const WIDE: u8 = 32;

/// The bit for a continuation cell in a packed [`Shape`].
const RIGHT_HALF: u8 = 64;

/// The shape of a cell, in one byte: the length of its text in bytes, whether it is a wide glyph,
/// and whether it is a continuation cell.
#[derive(Clone, Copy, Debug)]
pub struct Shape {
    bits: u8,
}

impl Model for Shape {
    ghost use Rattle.std.specs.Prelude.{◌≡◌};
    ghost use Rattle.vt_cells.specs.Internals.{ShapeValue, shape_bits, shape_of};

    ghost Value = { ShapeValue };

    ghost view = { λ s. shape_of s.bits };

    ghost invariant = { λ s. shape_bits (shape_of s.bits) ≡ s.bits };

    ghost inverse = { λ v. record { bits = shape_bits v } };

    ghost inverse_ok = { λ s h. λ i. record { bits = h i } };
}

impl Shape {
    /// Creates the shape of a glyph that has `len` bytes of text, at most 31, and is wide if `wide`
    /// is true. If `len` is 0 and `wide` is false, creates the shape of a blank.
    #[inline]
    #[tactic(auto, using(crate::proofs::Packing::text_back))]
    pub fn text(len: u8, wide: bool) -> Self
        requires { len < 32 }
        ensures { result ≡ record { len = len; wide = wide; right_half = false } }
    {
        Shape {
            bits: if wide { len + WIDE } else { len },
        }
    }

    /// Creates the shape of a continuation cell.
    #[inline]
    pub fn right_half() -> Self
        ensures { result ≡ record { len = 0; wide = false; right_half = true } }
    {
        Shape { bits: RIGHT_HALF }
    }

    /// Returns the shape packed into a byte, of which only the low seven bits are used.
    #[inline]
    #[tactic(auto, using(crate::proofs::Packing::shape_small))]
    pub fn bits(&self) -> u8
        ensures value { result ≡ shape_bits self.now }
        ensures back { shape_of result ≡ self.now }
        ensures sound { shape_bits (shape_of result) ≡ result }
        ensures small { result < 128 }
    {
        self.bits
    }

    /// Creates a shape from `bits`, which must be a value that [`Shape::bits`] can return.
    #[inline]
    pub fn of_bits(bits: u8) -> Self
        requires { shape_bits (shape_of bits) ≡ bits }
        ensures { result ≡ shape_of bits }
    {
        Shape { bits }
    }

    /// Returns the length of the text in bytes.
    #[inline]
    pub fn len(&self) -> u8
        ensures { result ≡ self.now.len }
    {
        self.bits % WIDE
    }

    /// Returns whether the cell is a wide glyph.
    #[inline]
    pub fn wide(&self) -> bool
        ensures { result ≡ self.now.wide }
    {
        self.bits / WIDE % 2 == 1
    }

    /// Returns whether the cell is a continuation cell.
    #[inline]
    #[tactic(auto, using(crate::proofs::Packing::high_bit))]
    pub fn is_right_half(&self) -> bool
        ensures { result ≡ self.now.right_half }
    {
        self.bits >= RIGHT_HALF
    }

    /// Returns whether the cell is a blank: no text, and not a continuation cell.
    #[inline]
    #[tactic(auto, using(crate::proofs::Packing::no_bits))]
    pub fn is_blank(&self) -> bool
        ensures { result ≡ same_shape self.now blank_shape }
    {
        self.bits == 0
    }
}
