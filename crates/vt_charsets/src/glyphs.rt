//! The glyphs of DEC Special Graphics.

ghost use Rattle.std.specs.Prelude.{◌≡◌, ◌≤◌, ◌<◌, ◌-◌, [], length, slice_index_or};
ghost use Rattle.vt_charsets.specs.Translation.{glyphs};

/// Returns the character that a byte from 0x5F to 0x7E stands for in DEC Special Graphics.
pub(crate) fn glyph(byte: u8) -> &'static str
    requires from { 0x5F ≤ byte }
    requires to { byte < 0x7F }
    ensures glyph { result.now ≡ slice_index_or glyphs (byte - 0x5F) [] }
    ensures short { length result.now ≤ 3 }
{
    match byte {
        0x5F => " ",
        0x60 => "◆",
        0x61 => "▒",
        0x62 => "␉",
        0x63 => "␌",
        0x64 => "␍",
        0x65 => "␊",
        0x66 => "°",
        0x67 => "±",
        0x68 => "␤",
        0x69 => "␋",
        0x6A => "┘",
        0x6B => "┐",
        0x6C => "┌",
        0x6D => "└",
        0x6E => "┼",
        0x6F => "⎺",
        0x70 => "⎻",
        0x71 => "─",
        0x72 => "⎼",
        0x73 => "⎽",
        0x74 => "├",
        0x75 => "┤",
        0x76 => "┴",
        0x77 => "┬",
        0x78 => "│",
        0x79 => "≤",
        0x7A => "≥",
        0x7B => "π",
        0x7C => "≠",
        0x7D => "£",
        _ => "·",
    }
}
