//! Appending SGR sequences to a buffer.

ghost use Rattle.std.specs.Prelude.{◌≡◌, ◌+◌, ◌<◌, ◌≤◌, [], ◌∷◌, ◌++◌};
ghost use Rattle.std.specs.Prelude.{length, if◌then◌else◌};
ghost use Rattle.vt_cells.specs.Attrs.{same_bool, same_color, same_intensity};
ghost use Rattle.vt_cells.specs.Internals.{AppendsNumbers, style_part, switches_part};
ghost use Rattle.vt_cells.specs.Op.{background_numbers, change_numbers, csi};
ghost use Rattle.vt_cells.specs.Op.{foreground_numbers, intensity_number, semicolon_list, part};

use crate::attrs::Attrs;
use crate::buffer::Buffer;
use crate::color::Color;

/// The free space, in bytes, that a buffer must have before an SGR sequence is appended. The
/// longest sequence has 14 parameters of at most three digits, each preceded by one character, and
/// the bytes `ESC` and `m`.
pub const SGR_ROOM: usize = 64;

/// Methods that append an SGR sequence or some of its parameters. `lead` is the character before
/// the next parameter: `[` before the first parameter of the sequence, `;` before any other.
/// Methods that return a character return the `lead` of the next parameter.
impl Buffer {
    /// Appends the SGR sequence that changes the attributes from `was` to `new`. The buffer must
    /// have room for [`SGR_ROOM`] bytes.
    ///
    /// Only attributes that differ have parameters, in this order: foreground, background,
    /// intensity, italics, underline, inverse. If none differs, the sequence has no parameters.
    #[inline(always)]
    pub fn push_change(&mut self, was: Attrs, new: Attrs)
        requires { length self.old + 64 ≤ 256 }
        ensures value { self.new ≡ self.old ++ csi (semicolon_list (change_numbers was new)) 0x6D }
        ensures room { length self.new ≤ length self.old + 64 }
    {
        self.push_byte(0x1B);
        let lead = self.push_foreground(b'[', was, new);
        let lead = self.push_background(lead, was, new);
        let lead = self.push_style(lead, was, new);
        if lead == b'[' {
            self.push_byte(b'[');
        }
        self.push_byte(b'm');
    }

    /// Appends the SGR parameters for the foreground color of `new` if it differs from that of
    /// `was`. `lead` is the character before the first parameter. Returns the character to put
    /// before the next parameter: `lead` if nothing was appended, otherwise `;`.
    #[inline(always)]
    #[tactic(auto, using(crate::proofs::Texts::numbers_appended), unfolding(crate::specs::Op::foreground_numbers))]
    fn push_foreground(&mut self, lead: u8, was: Attrs, new: Attrs) -> u8
        requires room { length self.old + 20 ≤ 256 }
        requires ascii { lead < 128 }
        ensures { AppendsNumbers self.old self.new lead result 20
            (part (same_color was.fgcolor new.fgcolor) (foreground_numbers new.fgcolor)) }
    {
        if was.has_fgcolor_of(&new) {
            return lead;
        }
        match new.fgcolor() {
            Color::Default => self.push_number(lead, 39),
            Color::Idx(i) if i < 8 => self.push_tens(lead, 3, i),
            Color::Idx(i) if i < 16 => self.push_number(lead, 82 + i),
            Color::Idx(i) => self.push_indexed(lead, 38, i),
            Color::Rgb(r, g, b) => self.push_parts(lead, 38, r, g, b),
        }
        b';'
    }

    /// Appends the SGR parameters for the background color of `new` if it differs from that of
    /// `was`. `lead` is the character before the first parameter. Returns the character to put
    /// before the next parameter: `lead` if nothing was appended, otherwise `;`.
    #[inline(always)]
    #[tactic(auto, using(crate::proofs::Texts::numbers_appended), unfolding(crate::specs::Op::background_numbers))]
    fn push_background(&mut self, lead: u8, was: Attrs, new: Attrs) -> u8
        requires room { length self.old + 20 ≤ 256 }
        requires ascii { lead < 128 }
        ensures { AppendsNumbers self.old self.new lead result 20
            (part (same_color was.bgcolor new.bgcolor) (background_numbers new.bgcolor)) }
    {
        if was.has_bgcolor_of(&new) {
            return lead;
        }
        match new.bgcolor() {
            Color::Default => self.push_number(lead, 49),
            Color::Idx(i) if i < 8 => self.push_tens(lead, 4, i),
            Color::Idx(i) if i < 16 => self.push_number(lead, 92 + i),
            Color::Idx(i) => self.push_indexed(lead, 48, i),
            Color::Rgb(r, g, b) => self.push_parts(lead, 48, r, g, b),
        }
        b';'
    }

    /// Appends an SGR parameter for each of intensity, italics, underline and inverse that differs
    /// between `was` and `new`. `lead` is the character before the first parameter. Returns the
    /// character to put before the next parameter: `lead` if nothing was appended, otherwise `;`.
    #[inline(always)]
    fn push_style(&mut self, lead: u8, was: Attrs, new: Attrs) -> u8
        requires room { length self.old + 16 ≤ 256 }
        requires ascii { lead < 128 }
        ensures { AppendsNumbers self.old self.new lead result 16 (style_part was new) }
    {
        let lead = self.push_intensity(lead, was, new);
        self.push_switches(lead, was, new)
    }

    /// Appends the SGR parameter for the intensity of `new` if it differs from that of `was`.
    /// `lead` is the character before the parameter. Returns the character to put before the next
    /// parameter: `lead` if nothing was appended, otherwise `;`.
    #[inline(always)]
    fn push_intensity(&mut self, lead: u8, was: Attrs, new: Attrs) -> u8
        requires room { length self.old + 4 ≤ 256 }
        requires ascii { lead < 128 }
        ensures { AppendsNumbers self.old self.new lead result 4
            (part (same_intensity was.intensity new.intensity) (intensity_number new.intensity ∷ [])) }
    {
        if was.has_intensity_of(&new) {
            return lead;
        }
        if new.bold() {
            self.push_number(lead, 1);
        } else if new.dim() {
            self.push_number(lead, 2);
        } else {
            self.push_number(lead, 22);
        }
        b';'
    }

    /// Appends an SGR parameter for each of italics, underline and inverse that differs between
    /// `was` and `new`. `lead` is the character before the first parameter. Returns the character
    /// to put before the next parameter: `lead` if nothing was appended, otherwise `;`.
    #[inline(always)]
    fn push_switches(&mut self, lead: u8, was: Attrs, new: Attrs) -> u8
        requires room { length self.old + 12 ≤ 256 }
        requires ascii { lead < 128 }
        ensures { AppendsNumbers self.old self.new lead result 12 (switches_part was new) }
    {
        if was.has_switches_of(&new) {
            return lead;
        }
        let lead = self.push_switch(lead, was.italic(), new.italic(), 3, 23);
        let lead = self.push_switch(lead, was.underline(), new.underline(), 4, 24);
        self.push_switch(lead, was.inverse(), new.inverse(), 7, 27)
    }

    /// Appends an SGR parameter if `was` and `new` differ: `on` if `new` is true, otherwise `off`.
    /// `lead` is the character before the parameter. Returns the character to put before the next
    /// parameter: `lead` if nothing was appended, otherwise `;`.
    #[inline(always)]
    #[tactic(auto, using(crate::proofs::Texts::numbers_appended))]
    fn push_switch(&mut self, lead: u8, was: bool, new: bool, on: u8, off: u8) -> u8
        requires room { length self.old + 4 ≤ 256 }
        requires ascii { lead < 128 }
        ensures { AppendsNumbers self.old self.new lead result 4
            (part (same_bool was new) ((if new then on else off) ∷ [])) }
    {
        if was == new {
            return lead;
        }
        self.push_number(lead, if new { on } else { off });
        b';'
    }

    /// Appends the SGR parameters of a palette color: `layer` (38 for the foreground, 48 for the
    /// background), 5 and `index`. `lead` is the character before the first parameter.
    #[tactic(auto, using(crate::proofs::Texts::appends_one, crate::proofs::Texts::appends_then))]
    #[inline(always)]
    fn push_indexed(&mut self, lead: u8, layer: u8, index: u8)
        requires room { length self.old + 12 ≤ 256 }
        requires ascii { lead < 128 }
        ensures { AppendsNumbers self.old self.new lead 0x3B 12 (layer ∷ 5 ∷ index ∷ []) }
    {
        self.push_number(lead, layer);
        self.push_number(b';', 5);
        self.push_number(b';', index);
    }

    /// Appends the SGR parameters of an RGB color: `layer` (38 for the foreground, 48 for the
    /// background), 2 and the three components. `lead` is the character before the first parameter.
    #[inline(always)]
    fn push_parts(&mut self, lead: u8, layer: u8, red: u8, green: u8, blue: u8)
        requires room { length self.old + 20 ≤ 256 }
        requires ascii { lead < 128 }
        ensures { AppendsNumbers self.old self.new lead 0x3B 20 (layer ∷ 2 ∷ red ∷ green ∷ blue ∷ []) }
    {
        self.push_number(lead, layer);
        self.push_number(b';', 2);
        self.push_number(b';', red);
        self.push_number(b';', green);
        self.push_number(b';', blue);
    }
}
