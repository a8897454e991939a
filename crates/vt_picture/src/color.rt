//! The RGB values of cell colors.

ghost use Rattle.std.specs.Prelude.{◌≡◌, ◌<◌};
ghost use Rattle.vt_picture.specs.Colors.{cube_color, level_of, middle_color, palette_color, rgb_of};

use std::fmt;
use vt100::Color;

/// A color by its red, green and blue components.
#[derive(Clone, Copy, PartialEq, Eq, Debug)]
pub struct Rgb(pub u8, pub u8, pub u8);

/// The default color of text.
pub const INK: Rgb = Rgb(0xe5, 0xe5, 0xe5);

/// The default color of the background.
pub const PAPER: Rgb = Rgb(0, 0, 0);

/// The first 16 colors of xterm's palette.
const NAMED: [Rgb; 16] = [
    Rgb(0, 0, 0),
    Rgb(0xcd, 0, 0),
    Rgb(0, 0xcd, 0),
    Rgb(0xcd, 0xcd, 0),
    Rgb(0, 0, 0xee),
    Rgb(0xcd, 0, 0xcd),
    Rgb(0, 0xcd, 0xcd),
    Rgb(0xe5, 0xe5, 0xe5),
    Rgb(0x7f, 0x7f, 0x7f),
    Rgb(0xff, 0, 0),
    Rgb(0, 0xff, 0),
    Rgb(0xff, 0xff, 0),
    Rgb(0x5c, 0x5c, 0xff),
    Rgb(0xff, 0, 0xff),
    Rgb(0, 0xff, 0xff),
    Rgb(0xff, 0xff, 0xff),
];

impl Rgb {
    /// Returns the RGB value of a cell's color; `default` is the RGB value of [`Color::Default`].
    pub fn of(color: Color, default: Rgb) -> Rgb
        ensures { result ≡ rgb_of default color }
    {
        match color {
            Color::Default => default,
            Color::Idx(index) => of_palette(index),
            Color::Rgb(red, green, blue) => Rgb(red, green, blue),
        }
    }

    /// Returns the color halfway between `self` and `other`.
    pub fn mixed(self, other: Rgb) -> Rgb
        ensures { result ≡ middle_color self other }
    {
        Rgb(
            self.0.midpoint(other.0),
            self.1.midpoint(other.1),
            self.2.midpoint(other.2),
        )
    }
}

impl fmt::Display for Rgb {
    fn fmt<W: fmt::Write>(&self, f: &mut fmt::Formatter<W>) -> fmt::Result {
        let Rgb(red, green, blue) = *self;
        write!(f, "#{red:02x}{green:02x}{blue:02x}")
    }
}

/// Returns a color of xterm's palette, which has 16 named colors, a cube with six steps per side,
/// and 24 grays.
#[tactic(auto, unfolding(crate::specs::Colors::palette_color))]
fn of_palette(index: u8) -> Rgb
    ensures { result ≡ palette_color index }
{
    match index {
        0..=15 => NAMED[usize::from(index)],
        16..=231 => of_cube(index - 16),
        232..=255 => {
            let level = 8 + 10 * (index - 232);
            Rgb(level, level, level)
        }
    }
}

/// Returns the color at an index in the palette's color cube, in which blue changes fastest.
fn of_cube(place: u8) -> Rgb
    requires { place < 216 }
    ensures { result ≡ cube_color place }
{
    Rgb(level(place / 36), level(place / 6 % 6), level(place % 6))
}

/// Returns the brightness, from 0 to 255, of a step of the palette's color cube.
fn level(step: u8) -> u8
    requires { step < 6 }
    ensures { result ≡ level_of step }
{
    if step == 0 { 0 } else { 55 + 40 * step }
}
