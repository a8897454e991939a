//! The text of a screen, and the output that reproduces it.

ghost use Rattle.std.specs.Prelude.{Some};
ghost use Rattle.vt100_c.specs.Due.{IsAnswer, any_screen, due_at, due_on, start_status};
ghost use Rattle.vt100_c.specs.Texts.{KeepsText, MakesText, due_for, redraw_options_of};
ghost use Rattle.vt100_c.specs.Held.{screen_in};
ghost use Rattle.vt100_c.specs.declared.output.Text.TheVariants as text;

use crate::handle::Handle;
use crate::object::Object;
use crate::output::{Text, keep, redraw_options_in, text_in};
use crate::status::NO_OBJECT;
use std::alloc::Global;

/// Generates the text of the displayed rows, without attributes
/// ([`vt100::Screen::contents`]). Stores it in the handle and its length in
/// `len`.
///
/// # Errors
///
/// Returns `NO_OBJECT` if the handle is empty, `WRONG_KIND` if it holds neither
/// a parser nor a saved screen, or `OUT_OF_MEMORY` if the text cannot be
/// allocated. On error, nothing is changed.
#[unsafe(no_mangle)]
pub extern "C" fn vt100_contents(alloc: Global, handle: &mut Handle, len: &mut usize) -> u8
    ensures answer { IsAnswer (due_at any_screen handle.old.held) result }
    ensures text { MakesText text.Contents handle.old.held result handle.new.held }
    ensures keeps { KeepsText handle.old.held result handle.new.held len.old len.new }
{
    make(alloc, handle, Text::Contents, len)
}

/// Generates the text between two positions, without attributes
/// ([`vt100::Screen::contents_between`]). Rows and columns are counted from 0. Stores the text in
/// the handle and its length in `len`.
///
/// # Errors
///
/// Returns `NO_OBJECT` if the handle is empty, `WRONG_KIND` if it holds neither a parser nor a
/// saved screen, `BAD_ARGUMENT` if `start_row` is less than `end_row` and `start_col` is greater
/// than the number of columns, or `OUT_OF_MEMORY` if the text cannot be allocated. On error,
/// nothing is changed.
#[unsafe(no_mangle)]
pub extern "C" fn vt100_contents_between(
    alloc: Global,
    handle: &mut Handle,
    start_row: u16,
    start_col: u16,
    end_row: u16,
    end_col: u16,
    len: &mut usize,
) -> u8
    ensures answer { IsAnswer (due_at (start_status start_row start_col end_row) handle.old.held) result }
    ensures text { MakesText (text.Between start_row start_col end_row end_col) handle.old.held result handle.new.held }
    ensures keeps { KeepsText handle.old.held result handle.new.held len.old len.new }
{
    let text = Text::Between(start_row, start_col, end_row, end_col);
    make(alloc, handle, text, len)
}

/// Generates the escape sequences that redraw the screen on a plain terminal of
/// the same size ([`vt100::Screen::contents_formatted`]). Stores them in the
/// handle and their length in `len`.
///
/// # Errors
///
/// Returns `NO_OBJECT` if the handle is empty, `WRONG_KIND` if it holds neither
/// a parser nor a saved screen, or `OUT_OF_MEMORY` if the output cannot be
/// allocated. On error, nothing is changed.
#[unsafe(no_mangle)]
pub extern "C" fn vt100_contents_formatted(
    alloc: Global,
    handle: &mut Handle,
    len: &mut usize,
) -> u8
    ensures answer { IsAnswer (due_at any_screen handle.old.held) result }
    ensures text { MakesText text.Formatted handle.old.held result handle.new.held }
    ensures keeps { KeepsText handle.old.held result handle.new.held len.old len.new }
{
    make(alloc, handle, Text::Formatted, len)
}

/// Generates the escape sequences that redraw the screen on a plain terminal of the same size, with
/// options ([`vt100::Screen::contents_formatted_with`]). Bit 3 of `options` makes the redraw
/// portable; the other bits are ignored. Stores them in the handle and their length in `len`.
///
/// # Errors
///
/// Returns `NO_OBJECT` if the handle is empty, `WRONG_KIND` if it holds neither a parser nor a saved
/// screen, or `OUT_OF_MEMORY` if the output cannot be allocated. On error, nothing is changed.
#[unsafe(no_mangle)]
pub extern "C" fn vt100_contents_formatted_with(
    alloc: Global,
    handle: &mut Handle,
    options: u8,
    len: &mut usize,
) -> u8
    ensures answer { IsAnswer (due_at any_screen handle.old.held) result }
    ensures text { MakesText (text.FormattedWith (redraw_options_of options)) handle.old.held result handle.new.held }
    ensures keeps { KeepsText handle.old.held result handle.new.held len.old len.new }
{
    let chosen = redraw_options_in(options);
    make(alloc, handle, Text::FormattedWith(chosen), len)
}

/// Generates the escape sequences that redraw the screen on a terminal of the
/// same size, whatever its scroll region and origin mode are
/// ([`vt100::Screen::contents_formatted_reset`]). Stores them in the handle and
/// their length in `len`.
///
/// # Errors
///
/// Returns `NO_OBJECT` if the handle is empty, `WRONG_KIND` if it holds neither
/// a parser nor a saved screen, or `OUT_OF_MEMORY` if the output cannot be
/// allocated. On error, nothing is changed.
#[unsafe(no_mangle)]
pub extern "C" fn vt100_contents_formatted_reset(
    alloc: Global,
    handle: &mut Handle,
    len: &mut usize,
) -> u8
    ensures answer { IsAnswer (due_at any_screen handle.old.held) result }
    ensures text { MakesText text.FormattedReset handle.old.held result handle.new.held }
    ensures keeps { KeepsText handle.old.held result handle.new.held len.old len.new }
{
    make(alloc, handle, Text::FormattedReset, len)
}

/// Generates the text of the displayed rows, with SGR sequences as the only
/// escape sequences ([`vt100::Screen::contents_formatted_basic`]). Stores it in
/// the handle and its length in `len`.
///
/// # Errors
///
/// Returns `NO_OBJECT` if the handle is empty, `WRONG_KIND` if it holds neither
/// a parser nor a saved screen, or `OUT_OF_MEMORY` if the text cannot be
/// allocated. On error, nothing is changed.
#[unsafe(no_mangle)]
pub extern "C" fn vt100_contents_formatted_basic(
    alloc: Global,
    handle: &mut Handle,
    len: &mut usize,
) -> u8
    ensures answer { IsAnswer (due_at any_screen handle.old.held) result }
    ensures text { MakesText text.FormattedBasic handle.old.held result handle.new.held }
    ensures keeps { KeepsText handle.old.held result handle.new.held len.old len.new }
{
    make(alloc, handle, Text::FormattedBasic, len)
}

/// Generates the escape sequences that redraw the screen and set its input
/// modes ([`vt100::Screen::state_formatted`]). Stores them in the handle and
/// their length in `len`.
///
/// # Errors
///
/// Returns `NO_OBJECT` if the handle is empty, `WRONG_KIND` if it holds neither
/// a parser nor a saved screen, or `OUT_OF_MEMORY` if the output cannot be
/// allocated. On error, nothing is changed.
#[unsafe(no_mangle)]
pub extern "C" fn vt100_state_formatted(alloc: Global, handle: &mut Handle, len: &mut usize) -> u8
    ensures answer { IsAnswer (due_at any_screen handle.old.held) result }
    ensures text { MakesText text.State handle.old.held result handle.new.held }
    ensures keeps { KeepsText handle.old.held result handle.new.held len.old len.new }
{
    make(alloc, handle, Text::State, len)
}

/// Generates the escape sequences that redraw the screen, with options, and set its input modes
/// ([`vt100::Screen::state_formatted_with`]). Bit 3 of `options` makes the redraw portable; the
/// other bits are ignored. Stores them in the handle and their length in `len`.
///
/// # Errors
///
/// Returns `NO_OBJECT` if the handle is empty, `WRONG_KIND` if it holds neither a parser nor a saved
/// screen, or `OUT_OF_MEMORY` if the output cannot be allocated. On error, nothing is changed.
#[unsafe(no_mangle)]
pub extern "C" fn vt100_state_formatted_with(
    alloc: Global,
    handle: &mut Handle,
    options: u8,
    len: &mut usize,
) -> u8
    ensures answer { IsAnswer (due_at any_screen handle.old.held) result }
    ensures text { MakesText (text.StateWith (redraw_options_of options)) handle.old.held result handle.new.held }
    ensures keeps { KeepsText handle.old.held result handle.new.held len.old len.new }
{
    let chosen = redraw_options_in(options);
    make(alloc, handle, Text::StateWith(chosen), len)
}

/// Generates the escape sequences that move the cursor and hide or show it, for
/// a terminal that already displays the rows of the screen
/// ([`vt100::Screen::cursor_state_formatted`]). Stores them in the handle and
/// their length in `len`.
///
/// # Errors
///
/// Returns `NO_OBJECT` if the handle is empty, `WRONG_KIND` if it holds neither
/// a parser nor a saved screen, or `OUT_OF_MEMORY` if the output cannot be
/// allocated. On error, nothing is changed.
#[unsafe(no_mangle)]
pub extern "C" fn vt100_cursor_state_formatted(
    alloc: Global,
    handle: &mut Handle,
    len: &mut usize,
) -> u8
    ensures answer { IsAnswer (due_at any_screen handle.old.held) result }
    ensures text { MakesText text.CursorState handle.old.held result handle.new.held }
    ensures keeps { KeepsText handle.old.held result handle.new.held len.old len.new }
{
    make(alloc, handle, Text::CursorState, len)
}

/// Generates the escape sequences that set the current attributes
/// ([`vt100::Screen::attributes_formatted`]). Stores them in the handle and
/// their length in `len`.
///
/// # Errors
///
/// Returns `NO_OBJECT` if the handle is empty, `WRONG_KIND` if it holds neither
/// a parser nor a saved screen, or `OUT_OF_MEMORY` if the output cannot be
/// allocated. On error, nothing is changed.
#[unsafe(no_mangle)]
pub extern "C" fn vt100_attributes_formatted(
    alloc: Global,
    handle: &mut Handle,
    len: &mut usize,
) -> u8
    ensures answer { IsAnswer (due_at any_screen handle.old.held) result }
    ensures text { MakesText text.Attributes handle.old.held result handle.new.held }
    ensures keeps { KeepsText handle.old.held result handle.new.held len.old len.new }
{
    make(alloc, handle, Text::Attributes, len)
}

/// Generates the escape sequences that set the input modes
/// ([`vt100::Screen::input_mode_formatted`]). Stores them in the handle and
/// their length in `len`.
///
/// # Errors
///
/// Returns `NO_OBJECT` if the handle is empty, `WRONG_KIND` if it holds neither
/// a parser nor a saved screen, or `OUT_OF_MEMORY` if the output cannot be
/// allocated. On error, nothing is changed.
#[unsafe(no_mangle)]
pub extern "C" fn vt100_input_mode_formatted(
    alloc: Global,
    handle: &mut Handle,
    len: &mut usize,
) -> u8
    ensures answer { IsAnswer (due_at any_screen handle.old.held) result }
    ensures text { MakesText text.InputMode handle.old.held result handle.new.held }
    ensures keeps { KeepsText handle.old.held result handle.new.held len.old len.new }
{
    make(alloc, handle, Text::InputMode, len)
}

/// Generates the given kind of text or output from the screen in a handle. Stores it in the handle
/// and its length in `len`, and returns the status code.
fn make(alloc: Global, handle: &mut Handle, text: Text, len: &mut usize) -> u8
    ensures answer { IsAnswer (due_at (due_for text) handle.old.held) result }
    ensures text { MakesText text handle.old.held result handle.new.held }
    ensures keeps { KeepsText handle.old.held result handle.new.held len.old len.new }
{
    if !handle.is_full() {
        return NO_OBJECT;
    }
    let mut object = handle.take_out(alloc);
    let status = renew(&mut object, text, len);
    handle.put_back(object);
    status
}

/// Generates the given kind of text or output from an object's screen. Stores it in the object and
/// its length in `len`, and returns the status code.
fn renew(object: &mut Object, text: Text, len: &mut usize) -> u8
    ensures answer { IsAnswer (due_on (due_for text) (screen_in object.old.source)) result }
    ensures text { MakesText text (Some object.old) result (Some object.new) }
    ensures keeps { KeepsText (Some object.old) result (Some object.new) len.old len.new }
{
    let made = text_in(&object.source, text);
    keep(&mut object.text, made, len)
}
