//! Text attributes of a cell: colors, intensity, italics, underline and inverse.

ghost use Rattle.std.specs.Prelude.{◌≡◌, ◌<◌, if◌then◌else◌};
ghost use Rattle.vt_cells.specs.Attrs.{default_attrs, is_bold, is_dim, same_attrs, same_color, same_intensity};
ghost use Rattle.vt_cells.specs.Internals.{IsAttrsWord, attrs_of_word, attrs_word, same_style, same_switches};
ghost use Rattle.vt_cells.specs.Internals.{style_of_attrs, intensity_bits, style_bits, style_of};

use crate::color::Color;
use crate::packed_color::PackedColor;
use std::marker::Model;

/// The bit for italics in a packed [`Attrs`] word. The two bits below it hold the intensity.
const ITALIC: u64 = 4;

/// The bit for underlining in a packed [`Attrs`] word.
const UNDERLINE: u64 = 8;

/// The bit for inverse video in a packed [`Attrs`] word.
const INVERSE: u64 = 16;

/// The intensity of a character. Bold and dim are mutually exclusive.
#[derive(Clone, Copy, PartialEq, Eq, Debug, Default)]
pub enum Intensity {
    /// Neither bold nor dim.
    #[default]
    Normal,

    /// Bold, or increased intensity.
    Bold,

    /// Dim, or decreased intensity.
    Dim,
}

/// The text attributes of a cell: foreground and background color, intensity, italics, underline
/// and inverse video (ECMA-48, SGR).
///
/// All six attributes are packed into one word: five bits of style and 26 bits for each color. Two
/// values are equal if and only if their words are equal.
#[derive(Clone, Copy, Debug)]
pub struct Attrs {
    word: u64,
}

/// The six attributes, unpacked from the word of an [`Attrs`].
#[derive(Clone, Copy)]
struct Parts {
    fgcolor: PackedColor,
    bgcolor: PackedColor,
    intensity: Intensity,
    italic: bool,
    underline: bool,
    inverse: bool,
}

impl Model for Attrs {
    ghost use Rattle.vt_cells.specs.Attrs as specs;
    ghost use Rattle.vt_cells.specs.Internals.{IsAttrsWord, attrs_of_word, attrs_word, word_back};

    ghost Value = { specs.Attrs };

    ghost view = { λ a. attrs_of_word a.word };

    ghost invariant = { λ a. IsAttrsWord a.word };

    ghost inverse = { λ v. record { word = attrs_word v } };

    ghost inverse_ok = { λ a h. λ i. record { word = word_back a.word h i } };
}

impl Attrs {
    /// Returns the attributes of a new screen: default colors, normal intensity and no other
    /// style.
    #[inline]
    pub fn new() -> Self
        ensures { result ≡ default_attrs }
    {
        Attrs { word: 0 }
    }

    /// Creates attributes by packing `parts` into one word.
    #[tactic(auto, using(crate::proofs::Packing::attrs_made))]
    #[inline]
    fn of(parts: Parts) -> Self
        ensures { result ≡ record {
          fgcolor = parts.fgcolor;
          bgcolor = parts.bgcolor;
          intensity = parts.intensity;
          italic = parts.italic;
          underline = parts.underline;
          inverse = parts.inverse;
        } }
    {
        let style = style_bits(
            parts.intensity,
            parts.italic,
            parts.underline,
            parts.inverse,
        );
        let front = parts.fgcolor.bits();
        let back = parts.bgcolor.bits();
        Attrs {
            word: style + 32 * (u64::from(front) + 0x400_0000 * u64::from(back)),
        }
    }

    /// Unpacks the six attributes from the word.
    #[inline]
    fn parts(&self) -> Parts
        ensures { result ≡ record {
          fgcolor = self.now.fgcolor;
          bgcolor = self.now.bgcolor;
          intensity = self.now.intensity;
          italic = self.now.italic;
          underline = self.now.underline;
          inverse = self.now.inverse;
        } }
    {
        Parts {
            fgcolor: self.front(),
            bgcolor: self.back(),
            intensity: self.intensity(),
            italic: self.italic(),
            underline: self.underline(),
            inverse: self.inverse(),
        }
    }

    /// Returns the packed word, of which only the low 57 bits are used.
    #[inline]
    #[tactic(auto, using(crate::proofs::Packing::word_small))]
    pub(crate) fn word(&self) -> u64
        ensures value { result ≡ attrs_word self.now }
        ensures back { attrs_of_word result ≡ self.now }
        ensures sound { IsAttrsWord result }
        ensures small { result < 0x200_0000_0000_0000 }
    {
        self.word
    }

    /// Creates attributes from `word`, which must be a value that [`Attrs::word`] can return.
    #[inline]
    pub(crate) fn of_word(word: u64) -> Self
        requires { IsAttrsWord word }
        ensures { result ≡ attrs_of_word word }
    {
        Attrs { word }
    }

    /// Returns the foreground color in packed form.
    #[inline]
    fn front(&self) -> PackedColor
        ensures { result ≡ self.now.fgcolor }
    {
        PackedColor::of_bits((self.word / 32 % 0x400_0000) as u32)
    }

    /// Returns the background color in packed form.
    #[inline]
    fn back(&self) -> PackedColor
        ensures { result ≡ self.now.bgcolor }
    {
        PackedColor::of_bits((self.word / 32 / 0x400_0000) as u32)
    }

    /// Returns whether all six attributes equal those of `other`.
    #[inline]
    #[tactic(auto, using(crate::proofs::Packing::words_same))]
    pub fn is_same(&self, other: &Attrs) -> bool
        ensures { result ≡ same_attrs self.now other.now }
    {
        self.word == other.word
    }

    /// Returns whether the foreground color equals that of `other`.
    #[inline]
    pub fn has_fgcolor_of(&self, other: &Attrs) -> bool
        ensures { result ≡ same_color self.now.fgcolor other.now.fgcolor }
    {
        self.front().is_same(&other.front())
    }

    /// Returns whether the background color equals that of `other`.
    #[inline]
    pub fn has_bgcolor_of(&self, other: &Attrs) -> bool
        ensures { result ≡ same_color self.now.bgcolor other.now.bgcolor }
    {
        self.back().is_same(&other.back())
    }

    /// Returns whether all attributes except the colors equal those of `other`.
    #[inline]
    #[tactic(auto, using(crate::proofs::Packing::style_bits_same))]
    pub fn has_style_of(&self, other: &Attrs) -> bool
        ensures { result ≡ same_style (style_of_attrs self.now) (style_of_attrs other.now) }
    {
        self.word % 32 == other.word % 32
    }

    /// Returns whether the intensity equals that of `other`.
    #[inline]
    #[tactic(auto, using(crate::proofs::Packing::intensity_alike))]
    pub(crate) fn has_intensity_of(&self, other: &Attrs) -> bool
        ensures { result ≡ same_intensity self.now.intensity other.now.intensity }
    {
        self.word % 32 % 4 == other.word % 32 % 4
    }

    /// Returns whether italics, underline and inverse all equal those of `other`.
    #[inline]
    #[tactic(auto, using(crate::proofs::Packing::switches_alike))]
    pub(crate) fn has_switches_of(&self, other: &Attrs) -> bool
        ensures { result ≡ same_switches self.now other.now }
    {
        self.word % 32 / 4 == other.word % 32 / 4
    }

    /// Returns the foreground color.
    #[inline]
    pub fn fgcolor(&self) -> Color
        ensures { result ≡ self.now.fgcolor }
    {
        self.front().color()
    }

    /// Returns the background color.
    #[inline]
    pub fn bgcolor(&self) -> Color
        ensures { result ≡ self.now.bgcolor }
    {
        self.back().color()
    }

    /// Returns the intensity.
    #[inline]
    pub fn intensity(&self) -> Intensity
        ensures { result ≡ self.now.intensity }
    {
        match self.word % 4 {
            0 => Intensity::Normal,
            1 => Intensity::Bold,
            _ => Intensity::Dim,
        }
    }

    /// Returns whether the intensity is bold.
    #[inline]
    pub fn bold(&self) -> bool
        ensures { result ≡ is_bold self.now }
    {
        self.intensity() == Intensity::Bold
    }

    /// Returns whether the intensity is dim.
    #[inline]
    pub fn dim(&self) -> bool
        ensures { result ≡ is_dim self.now }
    {
        self.intensity() == Intensity::Dim
    }

    /// Returns whether the italic attribute is set.
    #[inline]
    pub fn italic(&self) -> bool
        ensures { result ≡ self.now.italic }
    {
        self.word / ITALIC % 2 == 1
    }

    /// Returns whether the underline attribute is set.
    #[inline]
    pub fn underline(&self) -> bool
        ensures { result ≡ self.now.underline }
    {
        self.word / UNDERLINE % 2 == 1
    }

    /// Returns whether inverse video is set, which swaps the foreground and background colors.
    #[inline]
    pub fn inverse(&self) -> bool
        ensures { result ≡ self.now.inverse }
    {
        self.word / INVERSE % 2 == 1
    }

    /// Sets the foreground color.
    pub fn set_fgcolor(&mut self, fgcolor: Color)
        ensures { self.new ≡ record self.old { fgcolor = fgcolor } }
    {
        *self = Attrs::of(Parts {
            fgcolor: PackedColor::of(fgcolor),
            ..self.parts()
        });
    }

    /// Sets the background color.
    pub fn set_bgcolor(&mut self, bgcolor: Color)
        ensures { self.new ≡ record self.old { bgcolor = bgcolor } }
    {
        *self = Attrs::of(Parts {
            bgcolor: PackedColor::of(bgcolor),
            ..self.parts()
        });
    }

    /// Sets the intensity.
    pub fn set_intensity(&mut self, intensity: Intensity)
        ensures { self.new ≡ record self.old { intensity = intensity } }
    {
        *self = Attrs::of(Parts {
            intensity,
            ..self.parts()
        });
    }

    /// Turns italics on or off.
    pub fn set_italic(&mut self, italic: bool)
        ensures { self.new ≡ record self.old { italic = italic } }
    {
        *self = Attrs::of(Parts {
            italic,
            ..self.parts()
        });
    }

    /// Turns underlining on or off.
    pub fn set_underline(&mut self, underline: bool)
        ensures { self.new ≡ record self.old { underline = underline } }
    {
        *self = Attrs::of(Parts {
            underline,
            ..self.parts()
        });
    }

    /// Turns inverse video on or off.
    pub fn set_inverse(&mut self, inverse: bool)
        ensures { self.new ≡ record self.old { inverse = inverse } }
    {
        *self = Attrs::of(Parts {
            inverse,
            ..self.parts()
        });
    }
}

impl PartialEq for Attrs {
    ghost use Rattle.std.specs.Prelude.{◌≡◌};
    ghost use Rattle.std.specs.Cmp.{partial_equiv_from_equiv};
    ghost use Rattle.vt_cells.specs.Attrs.{same_attrs};
    ghost use Rattle.vt_cells.specs.CellEq.{attrs_eq, attrs_eq_equiv};

    ghost eq = { attrs_eq };

    ghost laws = { partial_equiv_from_equiv attrs_eq_equiv };

    /// Returns whether all six attributes equal those of `other`.
    #[inline]
    fn eq(&self, other: &Self) -> bool
        ensures value { result ≡ attrs_eq self.now other.now }
        ensures test { result ≡ same_attrs self.now other.now }
    {
        self.is_same(other)
    }
}

impl Eq for Attrs {
    ghost use Rattle.vt_cells.specs.CellEq.{attrs_eq_equiv};

    ghost laws = { attrs_eq_equiv };
}

impl Default for Attrs {
    ghost use Rattle.std.specs.Prelude.{◌≡◌};
    ghost use Rattle.vt_cells.specs.Attrs.{default_attrs};

    fn default() -> Self
        ensures { result ≡ default_attrs }
    {
        Attrs::new()
    }
}

/// Packs an intensity, italics, underline and inverse video into the low five bits of an [`Attrs`]
/// word.
#[inline]
#[tactic(auto, using(crate::proofs::Packing::style_back, crate::proofs::Packing::style_small))]
fn style_bits(intensity: Intensity, italic: bool, underline: bool, inverse: bool) -> u64
    ensures back { style_of result ≡ record {
      intensity = intensity;
      italic = italic;
      underline = underline;
      inverse = inverse;
    } }
    ensures sound { style_bits (style_of result) ≡ result }
    ensures small { result < 32 }
{
    intensity_bits(intensity)
        + switch_bits(italic, ITALIC)
        + switch_bits(underline, UNDERLINE)
        + switch_bits(inverse, INVERSE)
}

/// Returns the two bits that encode an intensity in a packed [`Attrs`] word: 0 for normal, 1 for
/// bold, 2 for dim.
#[inline]
fn intensity_bits(intensity: Intensity) -> u64
    ensures { result ≡ intensity_bits intensity }
{
    match intensity {
        Intensity::Normal => 0,
        Intensity::Bold => 1,
        Intensity::Dim => 2,
    }
}

/// Returns `bit` if `on` is true, otherwise 0.
#[inline]
fn switch_bits(on: bool, bit: u64) -> u64
    requires { bit < 32 }
    ensures { result ≡ (if on then bit else 0) }
{
    if on { bit } else { 0 }
}
