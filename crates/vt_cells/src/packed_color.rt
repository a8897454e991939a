//! A color packed into 26 bits.

ghost use Rattle.std.specs.Prelude.{◌≡◌};
ghost use Rattle.vt_cells.specs.Attrs.{same_color};
ghost use Rattle.vt_cells.specs.Internals.{IsColorBits, color_bits, color_of};
ghost use Rattle.vt_cells.specs.declared.color.Color.TheVariants as color;

use crate::color::Color;
use std::marker::Model;

/// A color packed into 26 bits: its kind (default, palette index or RGB) in the low two bits, and
/// three components of eight bits above them.
///
/// Components that the kind does not use are 0. Two colors are equal if and only if their bits are
/// equal.
#[derive(Clone, Copy, Debug)]
pub struct PackedColor {
    bits: u32,
}

impl Model for PackedColor {
    ghost use Rattle.vt_cells.specs.Internals.{IsColorBits, color_bits, color_of};
    ghost use Rattle.vt_cells.specs.declared.color.Color.{Color};

    ghost Value = { Color };

    ghost view = { λ c. color_of c.bits };

    ghost invariant = { λ c. IsColorBits c.bits };

    ghost inverse = { λ v. record { bits = color_bits v } };

    ghost inverse_ok = { λ c h. λ i. record { bits = h.back i } };
}

impl PackedColor {
    /// Packs a color into 26 bits.
    #[inline]
    pub fn of(color: Color) -> Self
        ensures { result ≡ color }
    {
        match color {
            Color::Default => PackedColor { bits: 0 },
            Color::Idx(i) => PackedColor::index(i),
            Color::Rgb(r, g, b) => PackedColor::rgb(r, g, b),
        }
    }

    /// Packs a palette color, given by its index.
    #[inline]
    fn index(i: u8) -> Self
        ensures { result ≡ color.Idx i }
    {
        PackedColor {
            bits: 1 + 4 * u32::from(i),
        }
    }

    /// Packs a color given by its red, green and blue components.
    #[inline]
    fn rgb(r: u8, g: u8, b: u8) -> Self
        ensures { result ≡ color.Rgb r g b }
    {
        PackedColor {
            bits: 2 + 4 * (u32::from(r) + 256 * (u32::from(g) + 256 * u32::from(b))),
        }
    }

    /// Returns the unpacked color.
    #[inline]
    pub fn color(&self) -> Color
        ensures { result ≡ self.now }
    {
        match self.bits % 4 {
            0 => Color::Default,
            1 => Color::Idx((self.bits / 4 % 256) as u8),
            _ => Color::Rgb(
                (self.bits / 4 % 256) as u8,
                (self.bits / 4 / 256 % 256) as u8,
                (self.bits / 4 / 256 / 256 % 256) as u8,
            ),
        }
    }

    /// Returns the color as packed bits, of which only the low 26 are used.
    #[inline]
    pub fn bits(&self) -> u32
        ensures value { result ≡ color_bits self.now }
        ensures back { color_of result ≡ self.now }
        ensures sound { IsColorBits result }
    {
        self.bits
    }

    /// Creates a packed color from `bits`, which must be a value that [`PackedColor::bits`] can
    /// return.
    #[inline]
    pub fn of_bits(bits: u32) -> Self
        requires { IsColorBits bits }
        ensures { result ≡ color_of bits }
    {
        PackedColor { bits }
    }

    /// Returns whether the two colors are equal.
    #[inline]
    #[tactic(auto, using(crate::proofs::Packing::packed_same))]
    pub fn is_same(&self, other: &PackedColor) -> bool
        ensures { result ≡ same_color self.now other.now }
    {
        self.bits == other.bits
    }
}
