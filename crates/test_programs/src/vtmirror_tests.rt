//! Tests of the output of the engine of `vtmirror`, with 2 rows and 4 columns.

use crate::numbers::number;
use crate::streams::{Broken, Closed, Full, Slow, Unflushed};
use std::alloc::Global;
use std::io;
use std::io::{Read, Write};
use std::test::Fail;
use vt_mirror::run;
use vt_show::Fault;

fn run_every<R: Read, W: Write>(
    alloc: Global,
    reader: &mut R,
    writer: &mut W,
    every: u16,
) -> Result<Result<(), Fault>, Fail> {
    Ok(run(
        alloc,
        reader,
        writer,
        number(2)?,
        number(4)?,
        number(every)?,
    ))
}

/// An example: the number of bytes between updates, the input, and the expected output after the
/// redraw of the blank screen, with which each run begins.
type Example = (u16, &'static str, &'static str);

const BLANK: &str = "\x1b[?25h\x1b[m\x1b[H\x1b[J";

/// Test runs, each with its expected output. An update draws the current display; displays between
/// two updates are not written.
#[rattlefmt::skip]
const RUNS: [Example; 8] = [
    (2, "abcd", "abcd"),
    (1, "abcd", "abcd"),
    (3, "abcd", "abcd"),
    (100, "abcd", "abcd"),
    (1, "", ""),
    (6, "ab\x1b[Hx", "xb\x1b[1;2H"),
    (5, "ab\x1b[Hx", "ab\x1b[Hx"),
    (65535, "ab\x1b[31mc", "ab\x1b[31mc"),
];

#[test]
fn writes_updates(rt: HostRuntime) -> Result<(), Fail> {
    for (every, input, wanted) in &RUNS {
        let mut written = Vec::new(rt.alloc());
        let done = run_every(rt.alloc(), &mut input.as_bytes(), &mut written, *every)?;
        assert!(rt; done == Ok(()));
        expect_written(written.as_slice(), wanted)?;
    }
    Ok(())
}

#[test]
fn writes_the_same_for_short_reads(rt: HostRuntime) -> Result<(), Fail> {
    for (every, input, wanted) in &RUNS {
        let mut written = Vec::new(rt.alloc());
        let mut slow = Slow(input.as_bytes());
        let done = run_every(rt.alloc(), &mut slow, &mut written, *every)?;
        assert!(rt; done == Ok(()));
        expect_written(written.as_slice(), wanted)?;
    }
    Ok(())
}

/// Fails if the output after the redraw of the blank screen is not `wanted`.
fn expect_written(written: &[u8], wanted: &str) -> Result<(), Fail> {
    if written.strip_prefix(BLANK.as_bytes()) == Some(wanted.as_bytes()) {
        return Ok(());
    }
    Err(Fail::new(format_args!("written: {}", written.escape_ascii())))
}

#[test]
fn keeps_what_was_written_where_a_read_fails(rt: HostRuntime) -> Result<(), Fail> {
    for (every, wanted) in [(1, "abc"), (2, "ab"), (3, "abc"), (4, "")] {
        let mut broken = Broken {
            bytes: b"abc",
            at_once: 2,
            kind: io::ErrorKind::Interrupted,
        };
        let mut written = Vec::new(rt.alloc());
        let done = run_every(rt.alloc(), &mut broken, &mut written, every)?;
        assert!(rt; done == Err(Fault::Read));
        expect_written(written.as_slice(), wanted)?;
    }
    Ok(())
}

#[test]
fn fails_where_a_write_is_refused(rt: HostRuntime) -> Result<(), Fail> {
    let mut closed = Closed(0);
    let done = run_every(rt.alloc(), &mut b"ab".as_slice(), &mut closed, 1)?;
    assert!(rt; done == Err(Fault::Write));
    assert!(rt; closed.0 == 1);
    Ok(())
}

#[test]
fn reads_no_further_than_the_update_that_fails(rt: HostRuntime) -> Result<(), Fail> {
    let mut input = b"abc".as_slice();
    let mut full = Full {
        bytes: Vec::new(rt.alloc()),
        // The redraw of the blank screen has 15 bytes, so there is room for one more byte.
        room: 16,
    };
    let done = run_every(rt.alloc(), &mut input, &mut full, 1)?;
    assert!(rt; done == Err(Fault::Write));
    assert!(rt; input == b"c".as_slice());
    expect_written(full.bytes.as_slice(), "a")
}

#[test]
fn fails_where_a_flush_is_refused(rt: HostRuntime) -> Result<(), Fail> {
    let mut unflushed = Unflushed(Vec::new(rt.alloc()));
    let done = run_every(rt.alloc(), &mut b"ab".as_slice(), &mut unflushed, 1)?;
    assert!(rt; done == Err(Fault::Write));
    expect_written(unflushed.0.as_slice(), "")
}
