//! Tests of sequences of calls on a mirror, of what each call returns, and of a viewer whose display is
//! wrong after an unsteady screen and correct again after a steady one.

use crate::numbers::size;
use std::alloc::Global;
use std::test::Fail;
use vt_mirror::{Mirror, Update};
use vt100::{DiffOptions, Parser, Repeat};

/// A call on a mirror, with its expected result. Calls of `process` and `set_size` have none: they
/// must succeed.
#[derive(Clone, Copy, Debug)]
enum Call {
    /// Parses a string; the call must succeed.
    Process(&'static str),

    /// Resizes the mirror; the call must succeed.
    SetSize(u16, u16),

    /// Adds a viewer, which must get the given number.
    Join(u64),

    /// Removes the viewer with the given number; the flag is true if there is such a viewer.
    Leave(u64, bool),

    /// Tests whether the viewer with the given number is up to date; the flag is the expected
    /// result.
    Current(u64, bool),

    /// Requests an update for a number that no viewer has.
    Nobody(u64),

    /// Requests an update for the viewer with the given number; the update must be the given diff.
    Diff(u64, &'static str),

    /// Requests an update for the viewer with the given number; the update must be a full update
    /// with the given size, and with the given text after [`CLEAR`].
    Full(u64, (u16, u16), &'static str),

    /// Requests a scrolling update for a number that no viewer has.
    NobodyScrolling(u64),

    /// Requests a scrolling update for the viewer with the given number; the update must be the
    /// given diff.
    DiffScrolling(u64, &'static str),

    /// Requests a scrolling update for the viewer with the given number; the update must be a full
    /// update with the given size, and with the given text after [`CLEAR`].
    FullScrolling(u64, (u16, u16), &'static str),

    /// Requests an update with options for a number that no viewer has.
    NobodyWith(u64, DiffOptions),

    /// Requests an update with options for the viewer with the given number; the update must be the
    /// given diff.
    DiffWith(u64, DiffOptions, &'static str),

    /// Requests an update with options for the viewer with the given number; the update must be a
    /// full update with the given size, and with the given text after [`CLEAR`].
    FullWith(u64, DiffOptions, (u16, u16), &'static str),
}

/// Rows and columns may move, and printable ASCII characters may be repeated with REP.
const SHORT: DiffOptions = DiffOptions {
    scroll: true,
    repeat: Repeat::Ascii,
    portable: false,
};

/// Printable ASCII characters may be repeated with REP.
const REPEATING: DiffOptions = DiffOptions {
    scroll: false,
    repeat: Repeat::Ascii,
    portable: false,
};

/// The output must be portable.
const PORTABLE: DiffOptions = DiffOptions {
    scroll: false,
    repeat: Repeat::Never,
    portable: true,
};

/// The beginning of the text of a full update.
const CLEAR: &str = "\x1b[?25h\x1b[m\x1b[H\x1b[J";

#[rattlefmt::skip]
const ONE_AND_ANOTHER: [Call; 16] = [
    Call::Process("ab"),
    Call::Join(0),
    Call::Full(0, (2, 4), "ab"),
    Call::Diff(0, ""),
    Call::Process("c"),
    Call::Diff(0, "c"),
    Call::Join(1),
    Call::Full(1, (2, 4), "abc"),
    Call::SetSize(2, 4),
    Call::Diff(0, ""),
    Call::SetSize(2, 3),
    Call::Full(0, (2, 3), "abc\x1b[1;3H"),
    Call::Leave(0, true),
    Call::Leave(0, false),
    Call::Nobody(0),
    Call::Join(2),
];

/// Calls on a mirror with several viewers. Each viewer is updated from its own state, and numbers
/// are not reused.
#[rattlefmt::skip]
const APART: [Call; 19] = [
    Call::Nobody(0),
    Call::Leave(0, false),
    Call::Join(0),
    Call::Join(1),
    Call::Full(1, (2, 4), ""),
    Call::Process("ab"),
    Call::Full(0, (2, 4), "ab"),
    Call::Process("c"),
    Call::Diff(0, "c"),
    Call::Diff(1, "abc"),
    Call::Diff(0, ""),
    Call::Leave(1, true),
    Call::Nobody(1),
    Call::Nobody(2),
    Call::Process("d"),
    Call::Diff(0, "d"),
    Call::Join(2),
    Call::Full(2, (2, 4), "abcd"),
    Call::Nobody(u64::MAX),
];

/// Calls that resize a mirror. A resize affects all viewers, including a viewer that has had no
/// update so far, even if a second resize restores the earlier size.
#[rattlefmt::skip]
const RESIZED: [Call; 14] = [
    Call::Process("ab"),
    Call::Join(0),
    Call::Join(1),
    Call::Full(0, (2, 4), "ab"),
    Call::SetSize(3, 5),
    Call::SetSize(2, 4),
    Call::Full(0, (2, 4), "ab"),
    Call::Full(1, (2, 4), "ab"),
    Call::SetSize(1, 4),
    Call::Full(1, (1, 4), "ab"),
    Call::Diff(1, ""),
    Call::Process("c"),
    Call::Full(0, (1, 4), "abc"),
    Call::Diff(1, "c"),
];

/// Calls for a viewer that receives both kinds of diffs, and for a viewer that is updated less
/// often and with more changes at once. Rows move up and down; in some updates, only the rows above
/// the last row move.
#[rattlefmt::skip]
const MIXED: [Call; 21] = [
    Call::Join(0),
    Call::Join(1),
    Call::NobodyScrolling(2),
    Call::FullScrolling(0, (4, 10), ""),
    Call::Process("alpha-one\r\nbeta-two\r\ngamma-six\r\n$"),
    Call::Diff(0, "alpha-one\r\nbeta-two\r\ngamma-six\r\n$"),
    Call::FullScrolling(1, (4, 10), "alpha-one\r\nbeta-two\r\ngamma-six\r\n$"),
    Call::Process("\r\ndelta-ten"),
    Call::DiffScrolling(0, "\x1b[H\x1b[M\n\n\ndelta-ten"),
    Call::DiffScrolling(0, ""),
    Call::Process("\r\nfin"),
    Call::Diff(0, "\x1b[Hgamma-six\r\n$\x1b[K\r\ndelta-ten\r\nfin\x1b[K"),
    Call::DiffScrolling(1, "\x1b[H\x1b[2M\n\ndelta-ten\r\nfin"),
    Call::Process("\x1b[H\x1b[Ltop-line"),
    Call::DiffScrolling(0, "\x1b[H\x1b[Ltop-line"),
    Call::Process("\x1b[1;3r\x1b[3;1H\r\nnew-line\x1b[r"),
    Call::DiffScrolling(0, "\r\x1b[M\n\n\x1b[Lnew-line\x1b[H"),
    Call::SetSize(4, 9),
    Call::FullScrolling(0, (4, 9), "gamma-six\r\n$\r\nnew-line\r\ndelta-ten\x1b[H"),
    Call::Leave(0, true),
    Call::NobodyScrolling(0),
];

/// Calls that ask whether viewers are up to date. A viewer is up to date from its update until the
/// next input or resize; a resize to the current size does not count.
#[rattlefmt::skip]
const CURRENT: [Call; 22] = [
    Call::Current(0, false),
    Call::Join(0),
    Call::Join(1),
    Call::Current(0, false),
    Call::Full(0, (2, 4), ""),
    Call::Current(0, true),
    Call::Current(1, false),
    Call::Diff(0, ""),
    Call::Current(0, true),
    Call::Process("a"),
    Call::Current(0, false),
    Call::Full(1, (2, 4), "a"),
    Call::Current(1, true),
    Call::DiffScrolling(0, "a"),
    Call::Current(0, true),
    Call::SetSize(2, 4),
    Call::Current(0, true),
    Call::SetSize(2, 5),
    Call::Current(0, false),
    Call::Full(0, (2, 5), "a"),
    Call::Leave(0, true),
    Call::Current(0, false),
];

/// Calls on a mirror with several viewers. Viewers that are up to date receive the same output as a
/// single viewer would, from `update` as well as from `update_scrolling`.
#[rattlefmt::skip]
const TOGETHER: [Call; 16] = [
    Call::Join(0),
    Call::Join(1),
    Call::Join(2),
    Call::Full(0, (4, 10), ""),
    Call::FullScrolling(1, (4, 10), ""),
    Call::Process("alpha-one\r\nbeta-two\r\ngamma-six\r\n$"),
    Call::Diff(0, "alpha-one\r\nbeta-two\r\ngamma-six\r\n$"),
    Call::Diff(1, "alpha-one\r\nbeta-two\r\ngamma-six\r\n$"),
    Call::Full(2, (4, 10), "alpha-one\r\nbeta-two\r\ngamma-six\r\n$"),
    Call::Process("\r\ndelta-ten"),
    Call::DiffScrolling(0, "\x1b[H\x1b[M\n\n\ndelta-ten"),
    Call::DiffScrolling(1, "\x1b[H\x1b[M\n\n\ndelta-ten"),
    Call::DiffScrolling(2, "\x1b[H\x1b[M\n\n\ndelta-ten"),
    Call::Diff(0, ""),
    Call::DiffScrolling(1, ""),
    Call::Diff(2, ""),
];

/// Calls with options: REP repeats a character once less than it is displayed, and a row that
/// scrolled off the top is deleted.
#[rattlefmt::skip]
const WITH_OPTIONS: [Call; 10] = [
    Call::NobodyWith(0, SHORT),
    Call::Join(0),
    Call::FullWith(0, SHORT, (4, 10), ""),
    Call::Process("--------"),
    Call::DiffWith(0, SHORT, "-\x1b[7b"),
    Call::DiffWith(0, SHORT, ""),
    Call::Process("\r\nalpha\r\n==\r\ngamma"),
    Call::Diff(0, "\r\nalpha\r\n==\r\ngamma"),
    Call::Process("\r\n********"),
    Call::DiffWith(0, SHORT, "\x1b[H\x1b[M\n\n\n*\x1b[7b"),
];

/// Calls with and without the option for portable output: a full update or a diff that is portable
/// changes from dim to bold, or back, only after a reset (`CSI m`). Viewers that were last updated
/// to the same screen get different texts for different options.
#[rattlefmt::skip]
const PORTABLE_AND_NOT: [Call; 15] = [
    Call::Join(0),
    Call::Join(1),
    Call::Join(2),
    Call::Process("\x1b[2ma\x1b[22;1mb"),
    Call::FullWith(0, PORTABLE, (2, 12), "\x1b[2ma\x1b[m\x1b[1mb"),
    Call::Full(1, (2, 12), "\x1b[2ma\x1b[1mb"),
    Call::FullWith(2, PORTABLE, (2, 12), "\x1b[2ma\x1b[m\x1b[1mb"),
    Call::Process("\x1b[22;2mc"),
    Call::Diff(0, "\x1b[2mc"),
    Call::DiffWith(1, PORTABLE, "\x1b[m\x1b[2mc"),
    Call::Diff(2, "\x1b[2mc"),
    Call::Process("--------"),
    Call::DiffWith(0, REPEATING, "-\x1b[7b"),
    Call::Diff(1, "--------"),
    Call::DiffWith(2, REPEATING, "-\x1b[7b"),
];

/// Creates a mirror with the given number of rows and columns, without scrollback.
fn mirror(alloc: Global, rows_and_cols: (u16, u16)) -> Result<Mirror, Fail> {
    let (rows, cols) = size(rows_and_cols)?;
    Ok(Mirror::new(alloc, rows, cols, 0)?)
}

/// Makes the calls in order. Fails if a call does not return what is expected.
fn expect_all(mirror: &mut Mirror, calls: &[Call]) -> Result<(), Fail> {
    for (index, call) in calls.iter().enumerate() {
        if !answers(mirror, *call)? {
            return Err(Fail::new(format_args!("call {index} answers otherwise: {call:?}")));
        }
    }
    Ok(())
}

/// Makes a call on the mirror, and returns whether its result is as expected.
fn answers(mirror: &mut Mirror, call: Call) -> Result<bool, Fail> {
    match call {
        Call::Process(text) => Ok(mirror.process(text.as_bytes()).is_ok()),
        Call::SetSize(rows, cols) => {
            let (rows, cols) = size((rows, cols))?;
            Ok(mirror.set_size(rows, cols).is_ok())
        }
        Call::Join(viewer) => Ok(mirror.join()? == viewer),
        Call::Leave(viewer, was) => Ok(mirror.leave(viewer) == was),
        Call::Current(viewer, is) => Ok(mirror.is_current(viewer) == is),
        Call::Nobody(viewer) => Ok(mirror.update(viewer)?.is_none()),
        Call::Diff(viewer, text) => is_diff(mirror.update(viewer)?, text),
        Call::Full(viewer, size, text) => is_full(mirror.update(viewer)?, size, text),
        Call::NobodyScrolling(viewer) => Ok(mirror.update_scrolling(viewer)?.is_none()),
        Call::DiffScrolling(viewer, text) => is_diff(mirror.update_scrolling(viewer)?, text),
        Call::FullScrolling(viewer, size, text) => {
            is_full(mirror.update_scrolling(viewer)?, size, text)
        }
        Call::NobodyWith(viewer, options) => Ok(mirror.update_with(viewer, options)?.is_none()),
        Call::DiffWith(viewer, options, text) => {
            is_diff(mirror.update_with(viewer, options)?, text)
        }
        Call::FullWith(viewer, options, size, text) => {
            is_full(mirror.update_with(viewer, options)?, size, text)
        }
    }
}

fn is_diff(update: Option<Update>, wanted: &str) -> Result<bool, Fail> {
    match update {
        Some(Update::Diff(text)) => Ok(text.as_str() == wanted),
        _ => Ok(false),
    }
}

fn is_full(update: Option<Update>, size: (u16, u16), wanted: &str) -> Result<bool, Fail> {
    match update {
        Some(Update::Full { rows, cols, text }) => Ok(
            (rows, cols) == size && text.as_str().strip_prefix(CLEAR) == Some(wanted),
        ),
        _ => Ok(false),
    }
}

#[test]
fn tells_one_viewer_and_another(rt: HostRuntime) -> Result<(), Fail> {
    expect_all(&mut mirror(rt.alloc(), (2, 4))?, &ONE_AND_ANOTHER)
}

#[test]
fn tells_viewers_apart(rt: HostRuntime) -> Result<(), Fail> {
    expect_all(&mut mirror(rt.alloc(), (2, 4))?, &APART)
}

#[test]
fn tells_all_of_a_resize(rt: HostRuntime) -> Result<(), Fail> {
    expect_all(&mut mirror(rt.alloc(), (2, 4))?, &RESIZED)
}

#[test]
fn tells_a_viewer_by_both_kinds_of_difference(rt: HostRuntime) -> Result<(), Fail> {
    expect_all(&mut mirror(rt.alloc(), (4, 10))?, &MIXED)
}

#[test]
fn tells_whether_a_viewer_is_up_to_date(rt: HostRuntime) -> Result<(), Fail> {
    expect_all(&mut mirror(rt.alloc(), (2, 4))?, &CURRENT)
}

#[test]
fn tells_viewers_that_share_texts(rt: HostRuntime) -> Result<(), Fail> {
    expect_all(&mut mirror(rt.alloc(), (4, 10))?, &TOGETHER)
}

/// Input that leaves U+231A, made narrow by U+FE0E and U+FE0F, in the last column of the last row.
/// Printing this character makes a viewer wrap and scroll.
const UNSTEADY: &str = "one\x1b[2;2H\u{231a}\u{fe0e}\u{fe0f}\x1b[2;1H\x1b[@";

/// Input after which the display is steady again.
const STEADY: &str = "\x1b[2J\x1b[H\x1b[31mab";

const REDRAW: &str = "\x1b[?25h\x1b[m\x1b[H\x1b[J\x1b[31mab";

/// Applies the mirror's next scrolling update to the viewer's terminal, and returns whether it was
/// a full update.
fn take_update(mirror: &mut Mirror, number: u64, viewer: &mut Parser) -> Result<bool, Fail> {
    match mirror.update_scrolling(number)? {
        Some(Update::Full { text, .. }) => {
            viewer.process(text.as_bytes())?;
            Ok(true)
        }
        Some(Update::Diff(text)) => {
            viewer.process(text.as_bytes())?;
            Ok(false)
        }
        None => Err(Fail::new("no such viewer")),
    }
}

fn expect_healed(alloc: Global) -> Result<(), Fail> {
    let (rows, cols) = size((2, 3))?;
    let mut mirror = Mirror::new(alloc, rows, cols, 0)?;
    let mut viewer = Parser::new(alloc, rows, cols, 0)?;
    let number = mirror.join()?;
    let first = take_update(&mut mirror, number, &mut viewer)?;
    mirror.process(UNSTEADY.as_bytes())?;
    let unsteady = take_update(&mut mirror, number, &mut viewer)?;
    mirror.process(STEADY.as_bytes())?;
    let healing = take_update(&mut mirror, number, &mut viewer)?;
    if (first, unsteady, healing) != (true, false, true) {
        return Err(Fail::new(format_args!("full updates: {first}, {unsteady}, {healing}")));
    }
    let displayed = viewer.screen().contents_formatted()?;
    if displayed.as_str() != REDRAW {
        return Err(Fail::new(format_args!("{displayed:?} and not {REDRAW:?}")));
    }
    Ok(())
}

#[test]
fn heals_after_an_unsteady_screen(rt: HostRuntime) -> Result<(), Fail> {
    expect_healed(rt.alloc())
}

#[test]
fn repeats_characters_and_moves_rows(rt: HostRuntime) -> Result<(), Fail> {
    expect_all(&mut mirror(rt.alloc(), (4, 10))?, &WITH_OPTIONS)
}

#[test]
fn writes_portable_updates_for_those_who_ask(rt: HostRuntime) -> Result<(), Fail> {
    expect_all(&mut mirror(rt.alloc(), (2, 12))?, &PORTABLE_AND_NOT)
}
