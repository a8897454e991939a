//! Small values: a copy equals the original, and neither copying a value nor creating a default
//! value can fail.

ghost use Rattle.std.specs.Prelude.{◌≡◌};
ghost use Rattle.vt_cells.specs.declared.color.Color.{Color};
ghost use Rattle.vt_cells.specs.declared.modes.CursorStyle.{CursorStyle};
ghost use Rattle.vt_cells.specs.declared.modes.MouseProtocolEncoding.{MouseProtocolEncoding};
ghost use Rattle.vt_cells.specs.declared.modes.MouseProtocolMode.{MouseProtocolMode};
ghost use Rattle.vt_rows.specs.Basic.{nothing_written};

use vt100::capture::BasicFormattedCaptureState;
use vt100::{Cell, Color, CursorStyle, MouseProtocolEncoding, MouseProtocolMode};

/// Returns a copy of a cell.
pub fn same_cell(cell: &Cell) -> Cell
    ensures { result ≡ cell.now }
{
    cell.clone().unwrap()
}

/// Returns a copy of a capture state.
pub fn same_state(state: &BasicFormattedCaptureState) -> BasicFormattedCaptureState
    ensures { result ≡ state.now }
{
    state.clone().unwrap()
}

/// Returns a copy of a color.
pub fn same_color(color: &Color) -> Color
    ensures { result ≡ color.now }
{
    color.clone().unwrap()
}

/// Returns a copy of a mouse mode.
pub fn same_mouse_mode(mode: &MouseProtocolMode) -> MouseProtocolMode
    ensures { result ≡ mode.now }
{
    mode.clone().unwrap()
}

/// Returns a copy of a mouse encoding.
pub fn same_mouse_encoding(encoding: &MouseProtocolEncoding) -> MouseProtocolEncoding
    ensures { result ≡ encoding.now }
{
    encoding.clone().unwrap()
}

/// Returns a copy of a cursor style.
pub fn same_cursor_style(style: &CursorStyle) -> CursorStyle
    ensures { result ≡ style.now }
{
    style.clone().unwrap()
}

/// Returns the state of a capture that has no rows yet.
pub fn first_state() -> BasicFormattedCaptureState
    ensures { result ≡ nothing_written }
{
    BasicFormattedCaptureState::default()
}

/// Returns the terminal's default color.
pub fn own_color() -> Color
    ensures { result ≡ Color.Default }
{
    Color::default()
}

/// Returns the mouse mode in which no events are reported.
pub fn no_mouse_mode() -> MouseProtocolMode
    ensures { result ≡ MouseProtocolMode.None }
{
    MouseProtocolMode::default()
}

/// Returns the default mouse encoding.
pub fn first_mouse_encoding() -> MouseProtocolEncoding
    ensures { result ≡ MouseProtocolEncoding.Default }
{
    MouseProtocolEncoding::default()
}

/// Returns the terminal's default cursor style.
pub fn own_cursor_style() -> CursorStyle
    ensures { result ≡ CursorStyle.Default }
{
    CursorStyle::default()
}
