//! Notes, each of which records a call to a method of `Callbacks`.

ghost use Rattle.std.specs.Prelude.{◌≡◌, map, IfOk};
ghost use Rattle.vt_notes.specs.Noting.{HasText, value_of};
ghost use Rattle.vt_screen.specs.Calls as calls;
ghost use Rattle.vt_screen.specs.Meanings.{call_of};

use std::alloc::{AllocError, Global};
use vt100::capture::{BasicFormattedCaptureState, RowContents};
use vt100::{Call, Cell};

/// A copy of a row that was reported to [`Callbacks::on_scroll`](vt100::Callbacks::on_scroll).
#[derive(Drop)]
pub struct NotedRow {
    /// The cells, from left to right.
    pub cells: Vec<Cell>,

    /// Whether the row was wrapped, that is, whether its text continued on the next row.
    pub wrapped: bool,

    /// The text of the row with SGR sequences and no other escape sequences, as if the row were the
    /// first one of a capture.
    pub text: String,
}

/// A call to a method of [`Callbacks`](vt100::Callbacks). Each variant is named after its method
/// and holds copies of the arguments.
#[derive(Drop)]
pub enum Note {
    AudibleBell,
    VisualBell,
    Resize((u16, u16)),
    SetWindowIconName(Vec<u8>),
    SetWindowTitle(Vec<u8>),
    CopyToClipboard(Vec<u8>, Vec<u8>),
    PasteFromClipboard(Vec<u8>),
    UnhandledChar(char),
    UnhandledControl(u8),
    UnhandledEscape(Option<u8>, Option<u8>, u8),
    UnhandledCsi(Option<u8>, Option<u8>, Vec<Vec<u16>>, char),
    UnhandledOsc(Vec<Vec<u8>>),
    OnScroll(NotedRow, bool),
}

impl Note {
    /// Creates a note that records a call to a callback, with copies of the call's arguments.
    ///
    /// # Errors
    ///
    /// Returns [`AllocError`] if a copy of an argument cannot be allocated.
    pub fn of_call(alloc: Global, call: Call<'_>) -> Result<Self, AllocError>
        ensures call { IfOk result (λ note. value_of note ≡ call_of call.entry) }
        ensures text { IfOk result HasText }
    {
        match call {
            Call::AudibleBell => Ok(Note::AudibleBell),
            Call::VisualBell => Ok(Note::VisualBell),
            Call::Resize(size) => Ok(Note::Resize(size)),
            Call::SetWindowIconName(name) => {
                Ok(Note::SetWindowIconName(Vec::from_slice(alloc, name)?))
            }
            Call::SetWindowTitle(title) => {
                Ok(Note::SetWindowTitle(Vec::from_slice(alloc, title)?))
            }
            Call::CopyToClipboard(kind, text) => {
                let kind = Vec::from_slice(alloc, kind)?;
                Ok(Note::CopyToClipboard(kind, Vec::from_slice(alloc, text)?))
            }
            Call::PasteFromClipboard(kind) => {
                Ok(Note::PasteFromClipboard(Vec::from_slice(alloc, kind)?))
            }
            Call::UnhandledChar(code) => Ok(Note::UnhandledChar(code)),
            Call::UnhandledControl(byte) => Ok(Note::UnhandledControl(byte)),
            Call::UnhandledEscape(first, second, byte) => {
                Ok(Note::UnhandledEscape(first, second, byte))
            }
            Call::UnhandledCsi(first, second, groups, byte) => {
                Ok(Note::UnhandledCsi(first, second, owned(alloc, groups)?, byte))
            }
            Call::UnhandledOsc(parts) => Ok(Note::UnhandledOsc(owned(alloc, parts)?)),
        }
    }

    /// Creates a note that records a row that scrolled off. `alternate` is true if the row was on
    /// the alternate page.
    ///
    /// # Errors
    ///
    /// Returns [`AllocError`] if the copy of the cells or their text cannot be allocated.
    pub fn of_scroll(
        alloc: Global,
        row: &RowContents<'_>,
        alternate: bool,
    ) -> Result<Self, AllocError>
        ensures call { IfOk result (λ note. value_of note ≡ calls.OnScroll row.now alternate) }
        ensures text { IfOk result HasText }
    {
        let cells = row.cells().to_vec(alloc)?;
        let wrapped = row.wrapped();
        let mut text = String::new(alloc);
        let mut state = BasicFormattedCaptureState::new();
        if row.write_formatted_basic(&mut text, &mut state).is_err() {
            return Err(AllocError);
        }
        let kept = NotedRow {
            cells,
            wrapped,
            text,
        };
        Ok(Note::OnScroll(kept, alternate))
    }
}

/// Returns a list with a copy of each slice, or [`AllocError`] if an allocation fails.
fn owned<T: Copy>(alloc: Global, lists: &[&[T]]) -> Result<Vec<Vec<T>>, AllocError>
    ensures { IfOk result (λ copies. map (λ copy. copy.items) copies.items ≡ map (λ list. list.now) lists.now) }
{
    let mut copies = Vec::with_capacity(alloc, lists.len())?;
    for list in lists {
        copies.push(Vec::from_slice(alloc, list)?)?;
    }
    Ok(copies)
}
