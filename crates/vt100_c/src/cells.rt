//! Cells and the state of a screen, laid out for C.

/// A color. Kind 0 is the terminal's default color, kind 1 is the palette
/// color whose index is `red`, and kind 2 is the color with the components
/// `red`, `green` and `blue`.
#[repr(C)]
#[derive(Clone, Copy)]
pub struct VtColor {
    /// The kind of the color, from 0 to 2.
    pub kind: u8,
    /// The palette index or the red component; 0 for the default color.
    pub red: u8,
    /// The green component of an RGB color; 0 unless `kind` is 2 (RGB).
    pub green: u8,
    /// The blue component of an RGB color; 0 unless `kind` is 2 (RGB).
    pub blue: u8,
}

/// A cell. The first `len` bytes of `text` are its text, and the rest are 0.
#[repr(C)]
#[derive(Drop)]
pub struct VtCell {
    /// The text in UTF-8, padded with zeros.
    pub text: [u8; 30],
    /// The length of the text in bytes, from 0 to 29.
    pub len: u8,
    /// The flags of the cell: bold, dim, italic, underline and inverse in bits
    /// 0 to 4, wide in bit 5, and continuation cell in bit 6.
    pub flags: u8,
    /// The foreground color.
    pub fgcolor: VtColor,
    /// The background color.
    pub bgcolor: VtColor,
}

/// The state of a screen, without its cells. Boolean values are 0 or 1, and the
/// variants of an enum are numbered from 0.
#[repr(C)]
#[derive(Drop)]
pub struct VtState {
    /// The number of rows.
    pub rows: u16,
    /// The number of columns.
    pub cols: u16,
    /// The cursor's row, counted from 0.
    pub cursor_row: u16,
    /// The cursor's column, counted from 0; `cols` if a wrap is pending.
    pub cursor_col: u16,
    /// 1 if the alternate page is active, otherwise 0.
    pub alternate_screen: u8,
    /// 1 if the keypad is in application mode, otherwise 0.
    pub application_keypad: u8,
    /// 1 if the cursor keys are in application mode, otherwise 0.
    pub application_cursor: u8,
    /// 1 if the cursor is hidden, otherwise 0.
    pub hide_cursor: u8,
    /// 1 if bracketed paste mode is set, otherwise 0.
    pub bracketed_paste: u8,
    /// The mouse mode: 0 for none, 1 for press, 2 for press and release, 3 for button motion, and 4
    /// for any motion.
    pub mouse_protocol_mode: u8,
    /// The mouse encoding: 0 for the default encoding, 1 for UTF-8, and 2 for SGR.
    pub mouse_protocol_encoding: u8,
    /// The cursor style: 0 for the default, 1 for a blinking block, 2 for a steady block, 3 for a
    /// blinking underline, 4 for a steady underline, 5 for a blinking bar, and 6 for a steady bar.
    pub cursor_style: u8,
    /// The style of newly printed text: bold, dim, italic, underline and
    /// inverse in bits 0 to 4.
    pub flags: u8,
    /// Reserved; always 0.
    pub reserved: [u8; 3],
    /// The foreground color of newly printed text.
    pub fgcolor: VtColor,
    /// The background color of newly printed text.
    pub bgcolor: VtColor,
    /// The number of rows by which the display is scrolled back; 0 while the alternate page is
    /// active.
    pub scrollback: usize,
    /// The number of rows in scrollback; 0 while the alternate page is active.
    pub scrollback_len: usize,
    /// The maximum number of rows that scrollback keeps; 0 while the alternate page is active.
    pub scrollback_capacity: usize,
}
