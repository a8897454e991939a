//! Select Graphic Rendition (SGR): the attributes that an SGR sequence sets. A *group* is a
//! parameter of the sequence with its subparameters; the numbers of a group are separated by `:`.

ghost use Rattle.std.specs.Prelude.{◌≡◌, ℕ, MatchOption};
ghost use Rattle.vt_screen.specs.Sgr.{attrs_after_setting, color_setting, silent_read, set, unhandled_read, number_read, three_read, five_read};
ghost use Rattle.vt_screen.specs.Sgr.{rgb_read, index_read, setting_read, form_read, part_read, group_read};
ghost use Rattle.vt_screen.specs.declared.sgr.GroupRead.{GroupRead};

use vt_cells::attrs::{Attrs, Intensity};
use vt_cells::color::Color;

/// A change that SGR makes to the current attributes.
#[derive(Clone, Copy, PartialEq, Eq, Debug)]
pub enum Setting {
    /// Resets all attributes to their defaults.
    Reset,

    /// Sets the foreground color.
    Foreground(Color),

    /// Sets the background color.
    Background(Color),

    /// Sets the intensity to normal, bold or dim.
    Strength(Intensity),

    /// Turns italics on or off.
    Italic(bool),

    /// Turns underlining on or off.
    Underline(bool),

    /// Turns inverse video on or off.
    Inverse(bool),
}

/// The color that an extended color sequence (SGR 38 or 48) sets: foreground
/// or background.
#[derive(Clone, Copy, PartialEq, Eq, Debug)]
pub enum Layer {
    /// The foreground color (SGR 38).
    Front,

    /// The background color (SGR 48).
    Back,
}

/// How the next parameter of an SGR sequence, together with its subparameters, is interpreted.
#[derive(Clone, Copy, PartialEq, Eq, Debug)]
pub enum Wanted {
    /// The next parameter is a setting, or begins an extended color.
    Any,

    /// The next parameter is the format of an extended color: 2 (RGB) or 5 (palette).
    Form(Layer),

    /// The next parameter is the palette index of a color.
    Index(Layer),

    /// The next parameter is the red component of a color.
    Red(Layer),

    /// The next parameter is the green component of a color whose red component has been read.
    Green(Layer, u8),

    /// The next parameter is the blue component of a color whose red and green components have been
    /// read.
    Blue(Layer, u8, u8),

    /// The rest of the sequence is ignored.
    Stopped,
}

/// The effect of one parameter of an SGR sequence, together with its subparameters.
#[derive(Clone, Copy, PartialEq, Eq, Debug)]
pub enum Reading {
    /// The parameter has no effect by itself: it is ignored, or a later parameter completes it.
    Silent,

    /// The parameter changes the attributes.
    Set(Setting),

    /// The parameter is unknown.
    Unhandled,
}

/// The effect of one parameter of an SGR sequence, and how the next parameter is interpreted.
#[derive(Clone, Copy, PartialEq, Eq, Debug)]
pub struct GroupRead {
    /// The effect of the parameter.
    pub reading: Reading,

    /// How the next parameter is interpreted.
    pub wanted: Wanted,
}

impl Setting {
    /// Returns `attrs` with the setting applied.
    pub fn applied_to(self, attrs: Attrs) -> Attrs
        ensures { result ≡ attrs_after_setting self attrs }
    {
        let mut attrs = attrs;
        match self {
            Setting::Reset => attrs = Attrs::new(),
            Setting::Foreground(color) => attrs.set_fgcolor(color),
            Setting::Background(color) => attrs.set_bgcolor(color),
            Setting::Strength(intensity) => attrs.set_intensity(intensity),
            Setting::Italic(italic) => attrs.set_italic(italic),
            Setting::Underline(underline) => attrs.set_underline(underline),
            Setting::Inverse(inverse) => attrs.set_inverse(inverse),
        }
        attrs
    }
}

impl Layer {
    /// Returns the setting that changes the color of this layer to `color`.
    fn colored(self, color: Color) -> Setting
        ensures { result ≡ color_setting self color }
    {
        match self {
            Layer::Front => Setting::Foreground(color),
            Layer::Back => Setting::Background(color),
        }
    }
}

impl GroupRead {
    /// Returns the result for an SGR parameter that has no effect by itself. The next parameter is
    /// interpreted as `wanted` specifies.
    fn silent(wanted: Wanted) -> Self
        ensures { result ≡ silent_read wanted }
    {
        GroupRead {
            reading: Reading::Silent,
            wanted,
        }
    }

    /// Returns the result for an SGR parameter that makes the change `setting`. The next parameter
    /// is interpreted as a setting.
    fn set(setting: Setting) -> Self
        ensures { result ≡ set setting }
    {
        GroupRead {
            reading: Reading::Set(setting),
            wanted: Wanted::Any,
        }
    }

    /// Returns the result for an unknown SGR parameter. The next parameter is interpreted as a
    /// setting.
    fn unknown() -> Self
        ensures { result ≡ unhandled_read }
    {
        GroupRead {
            reading: Reading::Unhandled,
            wanted: Wanted::Any,
        }
    }
}

impl Wanted {
    /// Interprets `group`, an SGR parameter with its subparameters, as `self` specifies (ECMA-48,
    /// with xterm's extended colors). For the first group of a sequence, `self` is [`Wanted::Any`].
    ///
    /// The rest of the sequence is ignored after an extended color with a component above 255. It
    /// is also ignored after an extended color that spans several groups and is incomplete or has a
    /// format other than 2 and 5. If such a color is in a single group, that group is unknown and
    /// the next group is interpreted as a setting.
    #[inline(always)]
    #[tactic(auto, unfolding(crate::specs::Sgr::group_read))]
    pub fn read(self, group: &[u16]) -> GroupRead
        ensures { result ≡ group_read self group.now }
    {
        match self {
            Wanted::Any => read_setting(group),
            Wanted::Form(layer) => read_form(layer, group),
            Wanted::Index(layer) => read_index(layer, group),
            Wanted::Red(layer) => read_red(layer, group),
            Wanted::Green(layer, red) => read_green(layer, red, group),
            Wanted::Blue(layer, red, green) => read_blue(layer, red, green, group),
            Wanted::Stopped => GroupRead::silent(Wanted::Stopped),
        }
    }
}

/// Interprets an SGR parameter with its subparameters (`group`) as a setting or the beginning of an
/// extended color. Any other parameter is unknown.
#[inline(always)]
#[tactic(auto, unfolding(crate::specs::Sgr::setting_read))]
fn read_setting(group: &[u16]) -> GroupRead
    ensures { result ≡ setting_read group.now }
{
    match group {
        [number] => read_number(*number),
        [38, form, index] => read_three(Layer::Front, *form, *index),
        [48, form, index] => read_three(Layer::Back, *form, *index),
        [38, form, red, green, blue] => read_five(Layer::Front, *form, *red, *green, *blue),
        [48, form, red, green, blue] => read_five(Layer::Back, *form, *red, *green, *blue),
        _ => GroupRead::unknown(),
    }
}

/// Interprets an SGR parameter without subparameters as a setting or the beginning of an extended
/// color. Any other number is unknown.
#[inline(always)]
#[tactic(auto, using(std::proofs::lemmas::Bool::Decides::nat_tests), unfolding(crate::specs::Sgr::number_read))]
fn read_number(number: u16) -> GroupRead
    ensures { result ≡ number_read number }
{
    match number {
        0 => GroupRead::set(Setting::Reset),
        1 => GroupRead::set(Setting::Strength(Intensity::Bold)),
        2 => GroupRead::set(Setting::Strength(Intensity::Dim)),
        22 => GroupRead::set(Setting::Strength(Intensity::Normal)),
        3 => GroupRead::set(Setting::Italic(true)),
        23 => GroupRead::set(Setting::Italic(false)),
        4 => GroupRead::set(Setting::Underline(true)),
        24 => GroupRead::set(Setting::Underline(false)),
        7 => GroupRead::set(Setting::Inverse(true)),
        27 => GroupRead::set(Setting::Inverse(false)),
        30..=37 => GroupRead::set(Setting::Foreground(Color::Idx((number - 30) as u8))),
        38 => GroupRead::silent(Wanted::Form(Layer::Front)),
        39 => GroupRead::set(Setting::Foreground(Color::Default)),
        40..=47 => GroupRead::set(Setting::Background(Color::Idx((number - 40) as u8))),
        48 => GroupRead::silent(Wanted::Form(Layer::Back)),
        49 => GroupRead::set(Setting::Background(Color::Default)),
        90..=97 => GroupRead::set(Setting::Foreground(Color::Idx((number - 82) as u8))),
        100..=107 => GroupRead::set(Setting::Background(Color::Idx((number - 92) as u8))),
        _ => GroupRead::unknown(),
    }
}

/// Interprets an SGR parameter of the form `38:5:index` or `48:5:index`, which sets a palette
/// color. The parameter is unknown unless its second number, the format `form`, is 5.
fn read_three(layer: Layer, form: u16, index: u16) -> GroupRead
    ensures { result ≡ three_read layer form index }
{
    if form != 5 {
        return GroupRead::unknown();
    }
    index_colored(layer, index)
}

/// Interprets an SGR parameter of the form `38:2:red:green:blue` or `48:2:red:green:blue`, which
/// sets an RGB color. The parameter is unknown unless its second number, the format `form`, is 2.
fn read_five(layer: Layer, form: u16, red: u16, green: u16, blue: u16) -> GroupRead
    ensures { result ≡ five_read layer form red green blue }
{
    if form != 2 {
        return GroupRead::unknown();
    }
    rgb_colored(layer, red, green, blue)
}

/// Returns the result for an SGR parameter that completes a palette color. The color of the layer
/// is set to palette color `index`. If `index` is above 255, nothing is set and the rest of the
/// sequence is ignored.
#[tactic(auto, using(std::proofs::lemmas::Bool::Decides::nat_tests), unfolding(crate::specs::Sgr::index_read))]
fn index_colored(layer: Layer, index: u16) -> GroupRead
    ensures { result ≡ index_read layer index }
{
    if index > 255 {
        return GroupRead::silent(Wanted::Stopped);
    }
    GroupRead::set(layer.colored(Color::Idx(index as u8)))
}

/// Returns the result for an SGR parameter that completes an RGB color. The color of the layer is
/// set to that color. If a component is above 255, nothing is set and the rest of the sequence is
/// ignored.
#[tactic(auto, using(std::proofs::lemmas::Bool::Decides::nat_tests), unfolding(crate::specs::Sgr::rgb_read))]
fn rgb_colored(layer: Layer, red: u16, green: u16, blue: u16) -> GroupRead
    ensures { result ≡ rgb_read layer red green blue }
{
    if red > 255 || green > 255 || blue > 255 {
        return GroupRead::silent(Wanted::Stopped);
    }
    GroupRead::set(layer.colored(Color::Rgb(red as u8, green as u8, blue as u8)))
}

/// Interprets an SGR parameter as the format of an extended color: 2 (RGB) or 5 (palette). Any
/// other parameter is unknown, and the rest of the sequence is ignored.
#[tactic(auto, using(std::proofs::lemmas::Bool::Decides::nat_tests), unfolding(crate::specs::Sgr::form_read))]
fn read_form(layer: Layer, group: &[u16]) -> GroupRead
    ensures { result ≡ form_read layer group.now }
{
    match group {
        [2] => GroupRead::silent(Wanted::Red(layer)),
        [5] => GroupRead::silent(Wanted::Index(layer)),
        _ => GroupRead {
            reading: Reading::Unhandled,
            wanted: Wanted::Stopped,
        },
    }
}

/// Returns the color component or palette index that an SGR parameter holds. Returns `None` unless
/// the parameter is a single number of at most 255.
#[tactic(auto, using(std::proofs::lemmas::Bool::Decides::nat_tests))]
fn part_of(group: &[u16]) -> Option<u8>
    ensures { MatchOption result ((next : ℕ → GroupRead) → part_read group.now next ≡ silent_read Wanted.Stopped)
        (λ part. (next : ℕ → GroupRead) → part_read group.now next ≡ next part) }
{
    match group {
        [part] if *part < 256 => Some(*part as u8),
        _ => None,
    }
}

/// Interprets an SGR parameter as the palette index of a color. Unless it is a single number of at
/// most 255, the rest of the sequence is ignored.
fn read_index(layer: Layer, group: &[u16]) -> GroupRead
    ensures { result ≡ part_read group.now (λ i. set (color_setting layer (Color.Idx i))) }
{
    match part_of(group) {
        Some(index) => GroupRead::set(layer.colored(Color::Idx(index))),
        None => GroupRead::silent(Wanted::Stopped),
    }
}

/// Interprets an SGR parameter as the red component of a color. Unless it is a single number of at
/// most 255, the rest of the sequence is ignored.
fn read_red(layer: Layer, group: &[u16]) -> GroupRead
    ensures { result ≡ part_read group.now (λ r. silent_read (Wanted.Green layer r)) }
{
    match part_of(group) {
        Some(red) => GroupRead::silent(Wanted::Green(layer, red)),
        None => GroupRead::silent(Wanted::Stopped),
    }
}

/// Interprets an SGR parameter as the green component of a color whose red component is `red`.
/// Unless it is a single number of at most 255, the rest of the sequence is ignored.
fn read_green(layer: Layer, red: u8, group: &[u16]) -> GroupRead
    ensures { result ≡ part_read group.now (λ g. silent_read (Wanted.Blue layer red g)) }
{
    match part_of(group) {
        Some(green) => GroupRead::silent(Wanted::Blue(layer, red, green)),
        None => GroupRead::silent(Wanted::Stopped),
    }
}

/// Interprets an SGR parameter as the blue component of a color whose red and green components are
/// `red` and `green`. Unless it is a single number of at most 255, the rest of the sequence is
/// ignored.
fn read_blue(layer: Layer, red: u8, green: u8, group: &[u16]) -> GroupRead
    ensures { result ≡ part_read group.now (λ b. set (color_setting layer (Color.Rgb red green b))) }
{
    match part_of(group) {
        Some(blue) => GroupRead::set(layer.colored(Color::Rgb(red, green, blue))),
        None => GroupRead::silent(Wanted::Stopped),
    }
}
