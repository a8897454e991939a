//! Output that displays a screen on another terminal.

ghost use Rattle.std.specs.Prelude.{◌≡◌, ◌++◌, OnOk};
ghost use Rattle.vt_cells.specs.Op.{bytes_of_all};
ghost use Rattle.vt_redraw.specs.Picture.{SamePictureSize};
ghost use Rattle.vt_redraw.specs.Refusals.{RefusedOnlyIfSome};
ghost use Rattle.vt_redraw.specs.Redraw.{cursor_state, difference, difference_in, cursor_visibility_ops, redraw, redraw_in};

use crate::cursor_rule::write_cursor_alone;
use crate::drawn_rows::RowWatch;
use crate::form::Form;
use crate::script::write_script;
use crate::view::View;
use vt_cells::Sink;
use vt_cells::term::{BufWrite, ClearAttrs, ClearScreen, HideCursor};

/// Writes the full redraw of a picture. The redraw hides or shows the cursor,
/// clears the screen, and draws the picture on the blank screen.
///
/// # Errors
///
/// Returns the sink's error. Part of the output may have been written by then.
pub fn write_contents_formatted<S: Sink>(sink: &mut S, view: &View<'_>) -> Result<(), S::Error>
    ensures { OnOk result (S.text sink.new ≡ S.text sink.old ++ bytes_of_all (redraw view.now)) }
{
    write_contents_formatted_in(sink, view, Form::Fixed)
}

/// Writes the full redraw of a picture in the given form, as [`write_contents_formatted`] does in
/// the fixed form.
///
/// # Errors
///
/// Returns the sink's error. Part of the output may have been written by then.
#[tactic(auto, unfolding(crate::specs::Redraw::redraw_in))]
pub fn write_contents_formatted_in<S: Sink>(
    sink: &mut S,
    view: &View<'_>,
    form: Form,
) -> Result<(), S::Error>
    ensures { OnOk result (S.text sink.new ≡ S.text sink.old ++ bytes_of_all (redraw_in form view.now)) }
{
    HideCursor {
        state: view.hidden(),
    }
    .write_buf(sink)?;
    ClearAttrs.write_buf(sink)?;
    ClearScreen.write_buf(sink)?;
    let blank = view.blanked();
    write_script(sink, view, &blank, form, &mut ())
}

/// Writes the output that turns the display of `prev` into the display of
/// `view`. Writes nothing if both displays are equal.
///
/// # Errors
///
/// Returns the sink's error. Part of the output may have been written by then.
pub fn write_contents_diff<S: Sink>(
    sink: &mut S,
    view: &View<'_>,
    prev: &View<'_>,
) -> Result<(), S::Error>
    requires { SamePictureSize view.now prev.now }
    ensures text { OnOk result (S.text sink.new ≡ S.text sink.old ++ bytes_of_all (difference view.now prev.now)) }
    ensures nonempty { RefusedOnlyIfSome result (bytes_of_all (difference view.now prev.now)) }
{
    write_contents_diff_in(sink, view, prev, Form::Fixed, &mut ())
}

/// Writes the output that turns the display of `prev` into the display of `view` in the given form,
/// as [`write_contents_diff`] does in the fixed form, and notifies `watch` after each row.
///
/// # Errors
///
/// Returns the sink's error. Part of the output may have been written by then.
#[tactic(auto, unfolding(crate::specs::Redraw::difference_in))]
pub fn write_contents_diff_in<S: Sink, W: RowWatch<S>>(
    sink: &mut S,
    view: &View<'_>,
    prev: &View<'_>,
    form: Form,
    watch: &mut W,
) -> Result<(), S::Error>
    requires { SamePictureSize view.now prev.now }
    ensures text { OnOk result
        (S.text sink.new ≡ S.text sink.old ++ bytes_of_all (difference_in form view.now prev.now)) }
    ensures nonempty { RefusedOnlyIfSome result (bytes_of_all (difference_in form view.now prev.now)) }
{
    write_hiding(sink, view, prev)?;
    write_script(sink, view, prev, form, watch)
}

/// Writes the sequence that hides or shows the cursor if the cursor is hidden
/// in only one of the two pictures.
fn write_hiding<S: Sink>(sink: &mut S, view: &View<'_>, prev: &View<'_>) -> Result<(), S::Error>
    ensures text { OnOk result (S.text sink.new ≡ S.text sink.old ++ bytes_of_all (cursor_visibility_ops view.now prev.now)) }
    ensures nonempty { RefusedOnlyIfSome result (bytes_of_all (cursor_visibility_ops view.now prev.now)) }
{
    let state = view.hidden();
    if state == prev.hidden() {
        return Ok(());
    }
    HideCursor { state }.write_buf(sink)
}

/// Writes the sequences that hide or show the cursor and move it, for a
/// terminal that already displays the rows of the picture and has default
/// attributes.
///
/// # Errors
///
/// Returns the sink's error. Part of the output may have been written by then.
#[tactic(auto, unfolding(crate::specs::Redraw::cursor_state))]
pub fn write_cursor_state<S: Sink>(sink: &mut S, view: &View<'_>) -> Result<(), S::Error>
    ensures { OnOk result (S.text sink.new ≡ S.text sink.old ++ bytes_of_all (cursor_state view.now)) }
{
    HideCursor {
        state: view.hidden(),
    }
    .write_buf(sink)?;
    write_cursor_alone(sink, view)
}
