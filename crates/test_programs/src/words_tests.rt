//! Tests of the command-line arguments of `vtshow` and `vtmirror`, and of how their runs end.

use crate::numbers::number;
use std::alloc::Global;
use std::test::Fail;
use vt_show::{Fault, Mode};

#[test]
fn vtshow_takes_words(rt: HostRuntime) -> Result<(), Fail> {
    let taken = Some((number(24)?, number(80)?, Mode::Formatted));
    assert!(rt; vt_show::arguments(&["24", "80", "formatted"]) == taken);
    assert!(rt; vt_show::arguments(&["024", "0080", "formatted"]) == taken);
    let taken = Some((number(24)?, number(80)?, Mode::Plain));
    assert!(rt; vt_show::arguments(&["24", "80", "plain"]) == taken);
    let taken = Some((number(1)?, number(65535)?, Mode::Basic));
    assert!(rt; vt_show::arguments(&["1", "65535", "basic"]) == taken);
    Ok(())
}

#[test]
fn vtmirror_takes_words(rt: HostRuntime) -> Result<(), Fail> {
    let taken = Some((number(24)?, number(80)?, number(1000)?));
    assert!(rt; vt_mirror::arguments(&["24", "80", "1000"]) == taken);
    assert!(rt; vt_mirror::arguments(&["024", "0080", "01000"]) == taken);
    let taken = Some((number(1)?, number(65535)?, number(65535)?));
    assert!(rt; vt_mirror::arguments(&["1", "65535", "65535"]) == taken);
    Ok(())
}

/// Arguments that `vtshow` rejects.
const NOT_OF_VTSHOW: [&[&str]; 11] = [
    &["0", "80", "plain"],
    &["24", "80", "Plain"],
    &["0", "80", "formatted"],
    &["24", "65536", "formatted"],
    &["+24", "80", "formatted"],
    &["24", "", "formatted"],
    &["24", "8 0", "formatted"],
    &["24", "80", "Basic"],
    &["24", "80", "Formatted"],
    &["24", "80"],
    &["24", "80", "formatted", ""],
];

/// Arguments that `vtmirror` rejects.
const NOT_OF_VTMIRROR: [&[&str]; 11] = [
    &[],
    &["24", "80"],
    &["24", "80", "1", ""],
    &["0", "80", "1"],
    &["24", "0", "1"],
    &["24", "80", "0"],
    &["24", "80", "65536"],
    &["24", "80", "+1"],
    &["24", "80", ""],
    &["24", "80", "1 "],
    &["24", "80", "plain"],
];

#[test]
fn refuses_words(rt: HostRuntime) {
    for words in &NOT_OF_VTSHOW {
        assert!(rt; vt_show::arguments(words).is_none());
    }
    for words in &NOT_OF_VTMIRROR {
        assert!(rt; vt_mirror::arguments(words).is_none());
    }
}

/// An example: how a run ends, the messages of `vtshow` and of `vtmirror`, and their exit status.
type Ending = (Option<Fault>, &'static str, &'static str, u8);

#[rattlefmt::skip]
const ENDINGS: [Ending; 4] = [
    (Some(Fault::Memory), "vtshow: out of memory", "vtmirror: out of memory", 1),
    (Some(Fault::Read), "vtshow: read failed", "vtmirror: read failed", 1),
    (Some(Fault::Write), "vtshow: write failed", "vtmirror: write failed", 1),
    (None, "usage: vtshow ROWS COLS plain|formatted|basic", "usage: vtmirror ROWS COLS EVERY", 2),
];

#[test]
fn ends_with_a_line_and_a_status(rt: HostRuntime) {
    for (fault, of_vtshow, of_vtmirror, status) in &ENDINGS {
        assert!(rt; vt_show::ending(*fault) == (*of_vtshow, *status));
        assert!(rt; vt_mirror::ending(*fault) == (*of_vtmirror, *status));
    }
}

/// An example: the command-line arguments, the input, and the expected output.
type Example = (&'static [&'static str], &'static str, &'static str);

const SHOWN: [Example; 3] = [
    (&["2", "4", "plain"], "ab\x1b[2;4Hx", "ab\n   x"),
    (&["4", "2", "plain"], "ab\x1b[2;4Hx", "ab\n x"),
    (&["1", "4", "basic"], "\x1b[31mx", "\x1b[31mx"),
];

const MIRRORED: [Example; 2] = [
    (&["2", "4", "3"], "abcd", "\x1b[?25h\x1b[m\x1b[H\x1b[Jabcd"),
    (
        &["2", "4", "6"],
        "ab\x1b[Hx",
        "\x1b[?25h\x1b[m\x1b[H\x1b[Jxb\x1b[1;2H",
    ),
];

/// Command-line arguments that are invalid.
const WRONG: [&[&str]; 3] = [&[], &["2", "4"], &["2", "4", "0"]];

fn words(alloc: Global, given: &[&str]) -> Result<Vec<String>, Fail> {
    let mut words = Vec::new(alloc);
    for word in given {
        words.push(String::from_str(alloc, word)?)?;
    }
    Ok(words)
}

#[test]
fn shows_as_asked(rt: HostRuntime) -> Result<(), Fail> {
    for (given, input, wanted) in &SHOWN {
        let words = words(rt.alloc(), given)?;
        let mut written = Vec::new(rt.alloc());
        let mut reader = input.as_bytes();
        let done = vt_show::run_words(rt.alloc(), words.as_slice(), &mut reader, &mut written);
        assert!(rt; done == Ok(()));
        assert!(rt; written.as_slice() == wanted.as_bytes());
    }
    Ok(())
}

#[test]
fn mirrors_as_asked(rt: HostRuntime) -> Result<(), Fail> {
    for (given, input, wanted) in &MIRRORED {
        let words = words(rt.alloc(), given)?;
        let mut written = Vec::new(rt.alloc());
        let mut reader = input.as_bytes();
        let done = vt_mirror::run_words(rt.alloc(), words.as_slice(), &mut reader, &mut written);
        assert!(rt; done == Ok(()));
        assert!(rt; written.as_slice() == wanted.as_bytes());
    }
    Ok(())
}

#[test]
fn reads_and_writes_nothing_for_wrong_words(rt: HostRuntime) -> Result<(), Fail> {
    for given in &WRONG {
        let words = words(rt.alloc(), given)?;
        let mut written = Vec::new(rt.alloc());
        let mut reader = b"ab".as_slice();
        let shown = vt_show::run_words(rt.alloc(), words.as_slice(), &mut reader, &mut written);
        assert!(rt; shown == Err(None));
        let told = vt_mirror::run_words(rt.alloc(), words.as_slice(), &mut reader, &mut written);
        assert!(rt; told == Err(None));
        assert!(rt; reader.len() == 2);
        assert!(rt; written.len() == 0);
    }
    Ok(())
}
