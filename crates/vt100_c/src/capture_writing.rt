//! Functions that write captures, which contain the text of rows with SGR sequences as the only
//! escape sequences.

ghost use Rattle.std.specs.Prelude.{◌≡◌, IfErr, IfOk, OnErr, OnOk, Some, string_bytes};
ghost use Rattle.std.specs.List.{slice_get};
ghost use Rattle.vt_rows.specs.Basic.{basic_text, nothing_written, written_after};
ghost use Rattle.vt_screen.specs.Capture.{all_rows, basic_texts, written_after_all};
ghost use Rattle.vt100_c.specs.Calls.{MakesOne};
ghost use Rattle.vt100_c.specs.Capturing.{HaveText, HoldAtCapture, HoldsCapture, OnCapture, OnReported};
ghost use Rattle.vt100_c.specs.Capturing.{due_at_capture, due_beside_capture, due_of_kinds, reported_status, state_in};
ghost use Rattle.vt100_c.specs.Due.{AnswersOrStays, IsAnswer, IsSomeAnd, any_screen, status_in};
ghost use Rattle.vt100_c.specs.Texts.{KeepsBoth, KeepsText};
ghost use Rattle.vt100_c.specs.Log.{log_in};
ghost use Rattle.vt100_c.specs.Held.{screen_in};
ghost use Rattle.vt100_c.specs.Status.{ok, out_of_memory};

use crate::event_log::Events;
use crate::event_reading::log_of;
use crate::handle::Handle;
use crate::lifecycle::hold;
use crate::object::{Object, Source, screen_of};
use crate::output::keep;
use crate::status::{BAD_ARGUMENT, IN_USE, NO_OBJECT, OUT_OF_MEMORY, WRONG_KIND};
use std::alloc::Global;
use vt100::Screen;
use vt100::capture::{BasicFormattedCaptureRange, BasicFormattedCaptureState, RowContents};

/// Creates an empty capture in the empty handle `out`. A capture is the text of rows with SGR
/// sequences as the only escape sequences.
///
/// # Errors
///
/// Returns `IN_USE` if `out` is not empty, or `OUT_OF_MEMORY` if an allocation
/// fails. On error, nothing is changed.
#[unsafe(no_mangle)]
pub extern "C" fn vt100_capture_new(alloc: Global, out: &mut Handle) -> u8
    ensures { MakesOne (λ made. made ≡ Source.Capture nothing_written) out.old.held result out.new.held }
{
    if out.is_full() {
        return IN_USE;
    }
    hold(
        alloc,
        Source::Capture(BasicFormattedCaptureState::new()),
        out,
    )
}

/// Appends all rows of a screen, including scrollback rows, to a capture.
/// `handle` must hold a parser or a saved screen. Stores the new text in the
/// handle `capture` and its length in `len`.
///
/// # Errors
///
/// Returns `NO_OBJECT` if a handle is empty, `WRONG_KIND` if `handle` holds
/// neither a parser nor a saved screen or `capture` does not hold a capture,
/// `BAD_ARGUMENT` if the same handle is passed twice, or `OUT_OF_MEMORY` if the
/// text cannot be allocated. On error, nothing is changed.
#[unsafe(no_mangle)]
pub extern "C" fn vt100_capture_screen(
    alloc: Global,
    handle: &mut Handle,
    capture: &mut Handle,
    len: &mut usize,
) -> u8
    ensures answer { IsAnswer (due_at_capture screen_in any_screen handle.old.held capture.old.held) result }
    ensures nonempty { result ≡ out_of_memory → HoldAtCapture screen_in handle.old.held capture.old.held HaveText }
    ensures text { result ≡ ok → HoldAtCapture screen_in handle.old.held capture.old.held (λ screen state.
        HoldsCapture (basic_texts state (all_rows screen)) (written_after_all state (all_rows screen))
        capture.new.held) }
    ensures keeps { KeepsBoth capture.old.held handle.old.held result capture.new.held handle.new.held len.old len.new }
{
    if !handle.is_full() || !capture.is_full() {
        return NO_OBJECT;
    }
    let mut object = capture.take_out(alloc);
    let status = screen_beside(alloc, &mut object, handle, len);
    capture.put_back(object);
    status
}

/// Appends all rows of the screen in `handle` to the capture `object`. Stores the new text in the
/// object and its length in `len`.
///
/// While a capture is being written to, its handle is empty. So if `handle` is empty, the caller
/// passed the same handle twice, and the function returns `BAD_ARGUMENT`. Otherwise, it returns the
/// status code of [`write_screen`].
fn screen_beside(alloc: Global, object: &mut Object, handle: &mut Handle, len: &mut usize) -> u8
    ensures answer { IsAnswer (due_beside_capture screen_in any_screen handle.old.held object.old) result }
    ensures nonempty { result ≡ out_of_memory → HoldAtCapture screen_in handle.old.held (Some object.old) HaveText }
    ensures text { result ≡ ok → HoldAtCapture screen_in handle.old.held (Some object.old) (λ screen state.
        HoldsCapture (basic_texts state (all_rows screen)) (written_after_all state (all_rows screen))
        (Some object.new)) }
    ensures keeps { KeepsBoth (Some object.old) handle.old.held result (Some object.new) handle.new.held len.old len.new }
{
    if !handle.is_full() {
        return BAD_ARGUMENT;
    }
    let other = handle.take_out(alloc);
    let status = write_screen(alloc, object, &other.source, len);
    handle.put_back(other);
    status
}

/// Appends all rows of the screen of `from` to the capture `object`. Stores the new text in the
/// object and its length in `len`. Returns `WRONG_KIND` if `from` has no screen or `object` is not
/// a capture, or `OUT_OF_MEMORY` if the text cannot be allocated.
fn write_screen(alloc: Global, object: &mut Object, from: &Source, len: &mut usize) -> u8
    ensures answer { IsAnswer
        (due_of_kinds any_screen (screen_in from.now) (state_in object.old.source)) result }
    ensures nonempty { result ≡ out_of_memory → OnCapture (screen_in from.now) (state_in object.old.source) HaveText }
    ensures text { result ≡ ok → OnCapture (screen_in from.now) (state_in object.old.source) (λ screen state.
        HoldsCapture (basic_texts state (all_rows screen)) (written_after_all state (all_rows screen))
        (Some object.new)) }
    ensures keeps { KeepsText (Some object.old) result (Some object.new) len.old len.new }
{
    let Some(screen) = screen_of(from) else {
        return WRONG_KIND;
    };
    let made = screen_text(alloc, screen, &mut object.source);
    keep(&mut object.text, made, len)
}

/// Returns the text to append to `capture` for all rows of a screen, and updates the state of the
/// capture. Returns `WRONG_KIND` if `capture` is not a capture, or `OUT_OF_MEMORY` if the text
/// cannot be allocated.
fn screen_text(alloc: Global, screen: &Screen, capture: &mut Source) -> Result<String, u8>
    ensures text { IfOk result (λ text. OnCapture (Some screen.now) (state_in capture.old)
        (λ screen state. string_bytes text ≡ basic_texts state (all_rows screen))) }
    ensures state { OnOk result (OnCapture (Some screen.now) (state_in capture.old)
        (λ screen state. capture.new ≡ Source.Capture (written_after_all state (all_rows screen)))) }
    ensures answer { AnswersOrStays (due_of_kinds any_screen (Some screen.now) (state_in capture.old))
        result (capture.new ≡ capture.old) }
    ensures nonempty { status_in result ≡ out_of_memory → OnCapture (Some screen.now) (state_in capture.old) HaveText }
{
    match capture {
        Source::Capture(state) => rows_text(alloc, screen, state),
        Source::Parser(_) => Err(WRONG_KIND),
        Source::Screen(_) => Err(WRONG_KIND),
        Source::Mirror(_) => Err(WRONG_KIND),
        Source::Charsets(_) => Err(WRONG_KIND),
    }
}

/// Returns the text to append to a capture in state `state` for all rows of a
/// screen, and updates the state.
///
/// # Errors
///
/// Returns `OUT_OF_MEMORY` if the text cannot be allocated. On error, the state
/// is unchanged.
fn rows_text(
    alloc: Global,
    screen: &Screen,
    state: &mut BasicFormattedCaptureState,
) -> Result<String, u8>
    ensures text { IfOk result (λ text. string_bytes text ≡ basic_texts state.old (all_rows screen.now)) }
    ensures ok { OnOk result (state.new ≡ written_after_all state.old (all_rows screen.now)) }
    ensures err { OnErr result (state.new ≡ state.old) }
    ensures memory { IfErr result (λ status. status ≡ out_of_memory) }
    ensures nonempty { OnErr result (HaveText screen.now state.old) }
{
    let mut text = String::new(alloc);
    let mut after = state.clone().unwrap();
    let range = BasicFormattedCaptureRange::Full(&mut after);
    if screen
        .write_contents_formatted_basic(&mut text, range)
        .is_err()
    {
        return Err(OUT_OF_MEMORY);
    }
    *state = after;
    Ok(text)
}

/// Appends a reported row to a capture. `index` is the index of the row, counted from 0, among the
/// rows that the parser's events have reported. Stores the new text in the handle `capture` and its
/// length in `len`.
///
/// # Errors
///
/// Returns `NO_OBJECT` if a handle is empty, `WRONG_KIND` if `parser` does not
/// hold a parser or `capture` does not hold a capture, `BAD_ARGUMENT` if the
/// same handle is passed twice or there is no such row, or `OUT_OF_MEMORY` if
/// the text cannot be allocated. On error, nothing is changed.
#[unsafe(no_mangle)]
pub extern "C" fn vt100_capture_row(
    alloc: Global,
    parser: &mut Handle,
    index: usize,
    capture: &mut Handle,
    len: &mut usize,
) -> u8
    ensures answer { IsAnswer (due_at_capture log_in (reported_status index) parser.old.held capture.old.held) result }
    ensures text { result ≡ ok → HoldAtCapture log_in parser.old.held capture.old.held (OnReported index
        (λ row state. HoldsCapture (basic_text state row) (written_after state row) capture.new.held)) }
    ensures keeps { KeepsBoth capture.old.held parser.old.held result capture.new.held parser.new.held len.old len.new }
{
    if !parser.is_full() || !capture.is_full() {
        return NO_OBJECT;
    }
    let mut object = capture.take_out(alloc);
    let status = row_beside(alloc, &mut object, parser, index, len);
    capture.put_back(object);
    status
}

/// Appends the reported row at `index` from the log in the handle `parser` to the capture `object`.
/// Stores the new text in the object and its length in `len`.
///
/// While a capture is being written to, its handle is empty. So if `parser` is empty, the caller
/// passed the same handle twice, and the function returns `BAD_ARGUMENT`. Otherwise, it returns the
/// status code of [`write_row`].
fn row_beside(
    alloc: Global,
    object: &mut Object,
    parser: &mut Handle,
    index: usize,
    len: &mut usize,
) -> u8
    ensures answer { IsAnswer (due_beside_capture log_in (reported_status index) parser.old.held object.old) result }
    ensures text { result ≡ ok → HoldAtCapture log_in parser.old.held (Some object.old) (OnReported index
        (λ row state. HoldsCapture (basic_text state row) (written_after state row) (Some object.new))) }
    ensures keeps { KeepsBoth (Some object.old) parser.old.held result (Some object.new) parser.new.held len.old len.new }
{
    if !parser.is_full() {
        return BAD_ARGUMENT;
    }
    let other = parser.take_out(alloc);
    let status = write_row(alloc, object, &other.source, index, len);
    parser.put_back(other);
    status
}

/// Appends the reported row at `index` from the log of `from` to the capture `object`. Stores the
/// new text in the object and its length in `len`. Returns `WRONG_KIND` if `from` has no log or
/// `object` is not a capture, `BAD_ARGUMENT` if there is no such row, or `OUT_OF_MEMORY` if the
/// text cannot be allocated.
fn write_row(alloc: Global, object: &mut Object, from: &Source, index: usize, len: &mut usize) -> u8
    ensures answer { IsAnswer
        (due_of_kinds (reported_status index) (log_in from.now) (state_in object.old.source)) result }
    ensures text { result ≡ ok → OnCapture (log_in from.now) (state_in object.old.source) (OnReported index
        (λ row state. HoldsCapture (basic_text state row) (written_after state row) (Some object.new))) }
    ensures keeps { KeepsText (Some object.old) result (Some object.new) len.old len.new }
{
    let Some(log) = log_of(from) else {
        return WRONG_KIND;
    };
    let made = reported_text(alloc, log, index, &mut object.source);
    keep(&mut object.text, made, len)
}

/// Returns the text to append to `capture` for the reported row at `index`, and updates the state
/// of the capture. Returns `WRONG_KIND` if `capture` is not a capture, `BAD_ARGUMENT` if there is
/// no such row, or `OUT_OF_MEMORY` if the text cannot be allocated.
fn reported_text(
    alloc: Global,
    log: &Events,
    index: usize,
    capture: &mut Source,
) -> Result<String, u8>
    ensures text { IfOk result (λ text. OnCapture (Some log.now) (state_in capture.old)
        (OnReported index (λ row state. string_bytes text ≡ basic_text state row))) }
    ensures state { OnOk result (OnCapture (Some log.now) (state_in capture.old)
        (OnReported index (λ row state. capture.new ≡ Source.Capture (written_after state row)))) }
    ensures answer { AnswersOrStays (due_of_kinds (reported_status index) (Some log.now) (state_in capture.old))
        result (capture.new ≡ capture.old) }
{
    match capture {
        Source::Capture(state) => event_text(alloc, log, index, state),
        Source::Parser(_) => Err(WRONG_KIND),
        Source::Screen(_) => Err(WRONG_KIND),
        Source::Mirror(_) => Err(WRONG_KIND),
        Source::Charsets(_) => Err(WRONG_KIND),
    }
}

/// Returns the text to append to a capture in state `state` for the reported row at `index`, and
/// updates the state. Returns `BAD_ARGUMENT` if there is no such row, or `OUT_OF_MEMORY` if the
/// text cannot be allocated.
fn event_text(
    alloc: Global,
    log: &Events,
    index: usize,
    state: &mut BasicFormattedCaptureState,
) -> Result<String, u8>
    ensures text { IfOk result
        (λ text. IsSomeAnd (slice_get log.now.rows index) (λ row. string_bytes text ≡ basic_text state.old row)) }
    ensures ok { OnOk result
        (IsSomeAnd (slice_get log.now.rows index) (λ row. state.new ≡ written_after state.old row)) }
    ensures answer { AnswersOrStays (reported_status index log.now) result (state.new ≡ state.old) }
{
    match log.row(index) {
        Some(row) => row_text(alloc, &row, state),
        None => Err(BAD_ARGUMENT),
    }
}

/// Returns the text to append to a capture in state `state` for a row, and
/// updates the state.
///
/// # Errors
///
/// Returns `OUT_OF_MEMORY` if the text cannot be allocated. On error, the state
/// is unchanged.
fn row_text(
    alloc: Global,
    row: &RowContents<'_>,
    state: &mut BasicFormattedCaptureState,
) -> Result<String, u8>
    ensures text { IfOk result (λ text. string_bytes text ≡ basic_text state.old row.now) }
    ensures ok { OnOk result (state.new ≡ written_after state.old row.now) }
    ensures err { OnErr result (state.new ≡ state.old) }
    ensures memory { IfErr result (λ status. status ≡ out_of_memory) }
{
    let mut text = String::new(alloc);
    match row.write_formatted_basic(&mut text, state) {
        Ok(()) => Ok(text),
        Err(_) => Err(OUT_OF_MEMORY),
    }
}
