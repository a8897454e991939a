//! Conversion of colors, cells and screen states for C.

ghost use Rattle.std.specs.Prelude.{◌≡◌, length};
ghost use Rattle.vt_cells.specs.Cell.{text_of};
ghost use Rattle.vt_cells.specs.Internals.{padded_text};
ghost use Rattle.vt100_c.specs.Shown.{bit, cell_flags, cell_for_c, color_for_c, cursor_style_number};
ghost use Rattle.vt100_c.specs.Shown.{mouse_encoding_number, mouse_mode_number, state_for_c, style_flags};

use crate::cells::{VtCell, VtColor, VtState};
use vt100::{Cell, Color, CursorStyle, MouseProtocolEncoding, MouseProtocolMode, Screen};

/// Converts a color to its C representation.
fn color_for_c(color: Color) -> VtColor
    ensures { result ≡ color_for_c color }
{
    match color {
        Color::Default => VtColor {
            kind: 0,
            red: 0,
            green: 0,
            blue: 0,
        },
        Color::Idx(index) => VtColor {
            kind: 1,
            red: index,
            green: 0,
            blue: 0,
        },
        Color::Rgb(red, green, blue) => VtColor {
            kind: 2,
            red,
            green,
            blue,
        },
    }
}

/// Returns `value` if `is` is true, otherwise 0.
pub(crate) fn bit(value: u8, is: bool) -> u8
    ensures { result ≡ bit value is }
{
    if is { value } else { 0 }
}

/// Converts a cell to its C representation.
pub(crate) fn cell_for_c(cell: &Cell) -> VtCell
    ensures { result ≡ cell_for_c cell.now }
{
    let mut room = [0; 30];
    let len = write_text(cell, &mut room);
    VtCell {
        text: room,
        len,
        flags: cell_flags(cell),
        fgcolor: color_for_c(cell.fgcolor()),
        bgcolor: color_for_c(cell.bgcolor()),
    }
}

/// Writes the text of a cell into `room`, padded with zeros, and returns the
/// length of the text in bytes.
#[tactic(auto, using(crate::proofs::AllCells::short, crate::proofs::AllCells::pads))]
fn write_text(cell: &Cell, room: &mut [u8; 30]) -> u8
    ensures len { result ≡ length (text_of cell.now) }
    ensures text { room.new ≡ padded_text (text_of cell.now) }
{
    let text = cell.contents().as_bytes();
    *room = [0; 30];
    room[..text.len()].copy_from_slice(text);
    text.len() as u8
}

/// Returns the flags of a cell: its style in bits 0 to 4, whether it is wide in bit 5, and whether
/// it is a continuation cell in bit 6.
fn cell_flags(cell: &Cell) -> u8
    ensures { result ≡ cell_flags cell.now }
{
    let bold_and_dim = bit(1, cell.bold()) + bit(2, cell.dim());
    let style = bold_and_dim
        + bit(4, cell.italic())
        + bit(8, cell.underline())
        + bit(16, cell.inverse());
    style + bit(32, cell.is_wide()) + bit(64, cell.is_wide_continuation())
}

/// Returns the style of newly printed text as flags: bold, dim, italic, underline and inverse in
/// bits 0 to 4.
fn style_flags(screen: &Screen) -> u8
    ensures { result ≡ style_flags screen.now.attrs }
{
    bit(1, screen.bold())
        + bit(2, screen.dim())
        + bit(4, screen.italic())
        + bit(8, screen.underline())
        + bit(16, screen.inverse())
}

/// Returns the number of a mouse mode in the C interface, from 0 to 4.
fn mouse_mode_number(mode: MouseProtocolMode) -> u8
    ensures { result ≡ mouse_mode_number mode }
{
    match mode {
        MouseProtocolMode::None => 0,
        MouseProtocolMode::Press => 1,
        MouseProtocolMode::PressRelease => 2,
        MouseProtocolMode::ButtonMotion => 3,
        MouseProtocolMode::AnyMotion => 4,
    }
}

/// Returns the number of a mouse encoding in the C interface, from 0 to 2.
fn mouse_encoding_number(encoding: MouseProtocolEncoding) -> u8
    ensures { result ≡ mouse_encoding_number encoding }
{
    match encoding {
        MouseProtocolEncoding::Default => 0,
        MouseProtocolEncoding::Utf8 => 1,
        MouseProtocolEncoding::Sgr => 2,
    }
}

/// Returns the number of a cursor style in the C interface, from 0 to 6.
fn cursor_style_number(style: CursorStyle) -> u8
    ensures { result ≡ cursor_style_number style }
{
    match style {
        CursorStyle::Default => 0,
        CursorStyle::BlinkBlock => 1,
        CursorStyle::SteadyBlock => 2,
        CursorStyle::BlinkUnderline => 3,
        CursorStyle::SteadyUnderline => 4,
        CursorStyle::BlinkVerticalBar => 5,
        CursorStyle::SteadyVerticalBar => 6,
    }
}

/// Converts the state of a screen to its C representation.
pub(crate) fn state_for_c(screen: &Screen) -> VtState
    ensures { result ≡ state_for_c screen.now }
{
    let (rows, cols) = screen.size();
    let (cursor_row, cursor_col) = screen.cursor_position();
    VtState {
        rows: rows.get(),
        cols: cols.get(),
        cursor_row,
        cursor_col,
        alternate_screen: bit(1, screen.alternate_screen()),
        application_keypad: bit(1, screen.application_keypad()),
        application_cursor: bit(1, screen.application_cursor()),
        hide_cursor: bit(1, screen.hide_cursor()),
        bracketed_paste: bit(1, screen.bracketed_paste()),
        mouse_protocol_mode: mouse_mode_number(screen.mouse_protocol_mode()),
        mouse_protocol_encoding: mouse_encoding_number(screen.mouse_protocol_encoding()),
        cursor_style: cursor_style_number(screen.cursor_style()),
        flags: style_flags(screen),
        reserved: [0; 3],
        fgcolor: color_for_c(screen.fgcolor()),
        bgcolor: color_for_c(screen.bgcolor()),
        scrollback: screen.scrollback(),
        scrollback_len: screen.scrollback_len(),
        scrollback_capacity: screen.scrollback_capacity(),
    }
}
