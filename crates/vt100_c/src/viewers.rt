//! The viewers of a mirror, and the updates that they receive.

ghost use Rattle.std.specs.Prelude.{◌≡◌, string_bytes};
ghost use Rattle.vt100_c.specs.Viewing.{Joins, LeavesIt, TellsCurrent, numbers, numbers_after, status_after, text_after};
ghost use Rattle.vt100_c.specs.Status.{ok};

use crate::status::{BAD_ARGUMENT, OK, status_of};
use vt_mirror::{Mirror, Update};
use vt100::Error;

/// Adds a viewer to a mirror, and stores the number of the viewer in `viewer`. Returns `NO_NUMBER`
/// if no viewer number is left, or `OUT_OF_MEMORY` if an allocation fails.
pub(crate) fn join(mirror: &mut Mirror, viewer: &mut u64) -> u8
    ensures call { Joins result viewer.old viewer.new mirror.old mirror.new }
    ensures refused { ¬ (result ≡ ok) → viewer.new ≡ viewer.old }
{
    match mirror.join() {
        Ok(number) => {
            *viewer = number;
            OK
        }
        Err(error) => status_of(error),
    }
}

/// Removes the viewer whose number is `viewer`. Returns `BAD_ARGUMENT` if there
/// is no such viewer.
pub(crate) fn leave(mirror: &mut Mirror, viewer: u64) -> u8
    ensures { LeavesIt viewer result mirror.old mirror.new }
{
    if mirror.leave(viewer) {
        OK
    } else {
        BAD_ARGUMENT
    }
}

/// Returns 1 if a viewer is up to date, as defined by [`Mirror::is_current`], otherwise 0.
pub(crate) fn current_bit(mirror: &Mirror, viewer: u64) -> u8
    ensures { TellsCurrent viewer result mirror.now }
{
    if mirror.is_current(viewer) { 1 } else { 0 }
}

/// Stores the text of an update in `text` and its length in `len`, and returns `OK`. For a full
/// update, stores the size of the screen in `rows` and `cols`. For a diff, stores 0 in both `rows`
/// and `cols`. If `answer` is `Ok(None)`, stores nothing and returns `BAD_ARGUMENT`. If `answer` is
/// an error, stores nothing and returns the status code of the error.
pub(crate) fn hand_over(
    answer: Result<Option<Update>, Error>,
    text: &mut String,
    rows: &mut u16,
    cols: &mut u16,
    len: &mut usize,
) -> u8
    ensures status { result ≡ status_after answer }
    ensures text { string_bytes text.new ≡ text_after answer (string_bytes text.old) }
    ensures numbers { numbers rows.new cols.new len.new ≡ numbers_after answer (numbers rows.old cols.old len.old) }
    ensures refused { ¬ (result ≡ ok) → numbers rows.new cols.new len.new ≡ numbers rows.old cols.old len.old }
{
    match answer {
        Ok(
            Some(
                Update::Full {
                    rows: height,
                    cols: width,
                    text: redraw,
                },
            ),
        ) => {
            *rows = height;
            *cols = width;
            *len = redraw.len();
            *text = redraw;
            OK
        }
        Ok(Some(Update::Diff(diff))) => {
            *rows = 0;
            *cols = 0;
            *len = diff.len();
            *text = diff;
            OK
        }
        Ok(None) => BAD_ARGUMENT,
        Err(error) => status_of(error),
    }
}
