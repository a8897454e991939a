//! Calls on a mirror with viewers that may allocate.

use crate::step;
use crate::step::BOTH;
use std::{fmt, io};
use vt_mirror::{Mirror, Update};
use vt100::Error;

/// A call on a mirror.
#[derive(Clone, Copy)]
enum Call {
    /// A call to [`Mirror::process`] with the given bytes.
    Process(&'static str),

    /// A call to [`Mirror::set_size`] with a number of rows and of columns.
    SetSize(u16, u16),

    /// A call to [`Mirror::join`].
    Join,

    /// A call to [`Mirror::leave`] with a viewer's number.
    Leave(u64),

    /// A call to [`Mirror::update`] with a viewer's number.
    Update(u64),

    /// A call to [`Mirror::update_scrolling`] with a viewer's number.
    UpdateScrolling(u64),

    /// A call to [`Mirror::update_with`] with a viewer's number and both options.
    UpdateWith(u64),
}

/// The result of a call on a mirror.
#[derive(Drop)]
enum Answer {
    /// The call succeeded.
    Done,

    /// The number of a new viewer.
    Number(u64),

    /// Whether there was a viewer with the number that was passed to `leave`.
    Was(bool),

    /// The update that was returned.
    Update(Update),

    /// No viewer has the number that was passed to the call.
    Nobody,

    /// The call failed.
    Refused(Error),
}

/// The calls of the first scene. Each update and each resize is requested twice, so that the second
/// call succeeds if the first one fails. Only the third line feed of the second text scrolls a row
/// into scrollback.
#[rattlefmt::skip]
const CALLS: [Call; 21] = [
    Call::Join,
    Call::Join,
    Call::Join,
    Call::Update(0),
    Call::Update(0),
    Call::Process("ab"),
    Call::Update(0),
    Call::Update(0),
    Call::SetSize(3, 4),
    Call::SetSize(3, 4),
    Call::Update(0),
    Call::Update(0),
    Call::Process("\r\nc\r\nd\r\ne"),
    Call::Process("f"),
    Call::Update(0),
    Call::Update(0),
    Call::Update(1),
    Call::Update(1),
    Call::Leave(0),
    Call::Leave(0),
    Call::Update(0),
];

/// Calls on a mirror whose viewer receives both kinds of diffs. The second text scrolls the screen:
/// a row whose glyphs have different colors moves up, and another row goes into scrollback.
#[rattlefmt::skip]
const SCROLLING_CALLS: [Call; 9] = [
    Call::Join,
    Call::UpdateScrolling(0),
    Call::UpdateScrolling(0),
    Call::Process("x\r\n\x1b[31ma\x1b[32mb\x1b[33mc\x1b[34md"),
    Call::Update(0),
    Call::Update(0),
    Call::Process("\r\nz"),
    Call::UpdateScrolling(0),
    Call::UpdateScrolling(0),
];

/// Calls on a mirror whose viewers share texts and copies of the screen.
///
/// The update of the first viewer allocates memory to keep the text for other viewers; the update
/// of the second viewer need not. If this allocation fails, the call succeeds nevertheless.
#[rattlefmt::skip]
const SHARING_CALLS: [Call; 15] = [
    Call::Join,
    Call::Join,
    Call::Join,
    Call::Update(0),
    Call::Update(0),
    Call::Update(1),
    Call::Update(1),
    Call::Process("ab"),
    Call::Update(0),
    Call::Update(0),
    Call::Update(1),
    Call::Update(1),
    Call::Process("c"),
    Call::UpdateScrolling(0),
    Call::UpdateScrolling(1),
];

/// Calls on a mirror whose viewer receives diffs with REP.
#[rattlefmt::skip]
const REPEATING_CALLS: [Call; 8] = [
    Call::Join,
    Call::SetSize(1, 12),
    Call::SetSize(1, 12),
    Call::UpdateWith(0),
    Call::UpdateWith(0),
    Call::Process("----------"),
    Call::UpdateWith(0),
    Call::UpdateWith(0),
];

/// Makes the calls on a mirror whose viewers join and leave, and prints the results.
pub fn run<R: AllocGlobal + Print>(rt: &R) -> io::Result<()> {
    println!(rt; "-- a mirror and its viewers")?;
    run_calls(rt, &CALLS)
}

/// Makes the calls on a mirror whose rows move, and prints the results.
pub fn run_scrolling<R: AllocGlobal + Print>(rt: &R) -> io::Result<()> {
    println!(rt; "-- a mirror whose rows move")?;
    run_calls(rt, &SCROLLING_CALLS)
}

/// Makes the calls on a mirror whose viewer receives diffs with REP, and prints the results.
pub fn run_repeating<R: AllocGlobal + Print>(rt: &R) -> io::Result<()> {
    println!(rt; "-- a mirror whose viewer repeats characters")?;
    run_calls(rt, &REPEATING_CALLS)
}

/// Makes the calls on a mirror whose viewers keep up with its screen, and prints the results.
pub fn run_sharing<R: AllocGlobal + Print>(rt: &R) -> io::Result<()> {
    println!(rt; "-- a mirror whose viewers share")?;
    run_calls(rt, &SHARING_CALLS)
}

/// Creates a mirror with 2 rows, 4 columns and a scrollback of one row, makes the calls on it, and
/// prints the results.
fn run_calls<R: AllocGlobal + Print>(rt: &R, calls: &[Call]) -> io::Result<()> {
    let (rows, cols) = step::size((2, 4));
    let Ok(mut mirror) = Mirror::new(rt.alloc(), rows, cols, 1) else {
        return println!(rt; "new: refused");
    };
    println!(rt; "new: ok")?;
    for call in calls {
        let answer = call.make(&mut mirror);
        println!(rt; "{call}: {answer}")?;
    }
    Ok(())
}

impl Call {
    /// Makes the call on a mirror, and returns its result.
    fn make(self, mirror: &mut Mirror) -> Answer {
        match self {
            Call::Process(text) => match mirror.process(text.as_bytes()) {
                Ok(()) => Answer::Done,
                Err(error) => Answer::Refused(error),
            },
            Call::SetSize(rows, cols) => {
                let (rows, cols) = step::size((rows, cols));
                match mirror.set_size(rows, cols) {
                    Ok(()) => Answer::Done,
                    Err(error) => Answer::Refused(error),
                }
            }
            Call::Join => match mirror.join() {
                Ok(viewer) => Answer::Number(viewer),
                Err(error) => Answer::Refused(error),
            },
            Call::Leave(viewer) => Answer::Was(mirror.leave(viewer)),
            Call::Update(viewer) => answer_of(mirror.update(viewer)),
            Call::UpdateScrolling(viewer) => answer_of(mirror.update_scrolling(viewer)),
            Call::UpdateWith(viewer) => answer_of(mirror.update_with(viewer, BOTH)),
        }
    }
}

/// Converts the result of a call that returns an update to an [`Answer`].
fn answer_of(made: Result<Option<Update>, Error>) -> Answer {
    match made {
        Ok(Some(update)) => Answer::Update(update),
        Ok(None) => Answer::Nobody,
        Err(error) => Answer::Refused(error),
    }
}

impl fmt::Display for Call {
    fn fmt<W: fmt::Write>(&self, f: &mut fmt::Formatter<W>) -> fmt::Result {
        match self {
            Call::Process(text) => write!(f, "process {}", text.as_bytes().escape_ascii()),
            Call::SetSize(rows, cols) => write!(f, "set_size {rows} {cols}"),
            Call::Join => write!(f, "join"),
            Call::Leave(viewer) => write!(f, "leave {viewer}"),
            Call::Update(viewer) => write!(f, "update {viewer}"),
            Call::UpdateScrolling(viewer) => write!(f, "update_scrolling {viewer}"),
            Call::UpdateWith(viewer) => write!(f, "update_with {viewer}"),
        }
    }
}

impl fmt::Display for Answer {
    fn fmt<W: fmt::Write>(&self, f: &mut fmt::Formatter<W>) -> fmt::Result {
        match self {
            Answer::Done => write!(f, "ok"),
            Answer::Number(viewer) => write!(f, "{viewer}"),
            Answer::Was(was) => write!(f, "{was}"),
            Answer::Update(Update::Diff(text)) => {
                write!(f, "difference [{}]", text.as_bytes().escape_ascii())
            }
            Answer::Update(Update::Full { rows, cols, text }) => {
                write!(f, "full {rows} {cols} [{}]", text.as_bytes().escape_ascii())
            }
            Answer::Nobody => write!(f, "none"),
            Answer::Refused(Error::OutOfMemory) => write!(f, "refused"),
            Answer::Refused(Error::Failed) => write!(f, "failed"),
            Answer::Refused(Error::NoNumber) => write!(f, "no number"),
        }
    }
}
