//! Tests of the output of the engine of `vtshow`.

use crate::numbers::number;
use crate::streams::{Broken, Closed, Full, Interrupting, Unflushed};
use std::alloc::Global;
use std::io;
use std::io::{Read, Write};
use std::test::Fail;
use vt_show::{Fault, Mode, run};

/// An example: a size, a mode, the input, and the expected output.
type Example = ((u16, u16), Mode, &'static str, &'static str);

#[rattlefmt::skip]
const RUNS: [Example; 3] = [
    ((4, 4), Mode::Plain, "abcd\x1b[31mx\r\n", "abcdx"),
    ((4, 4), Mode::Basic, "abcd\x1b[31mx\r\n", "abcd\x1b[31mx\n\n"),
    (
        (24, 80),
        Mode::Formatted,
        "this text is \x1b[31mRED\x1b[m",
        "\x1b[?25h\x1b[m\x1b[H\x1b[Jthis text is \x1b[31mRED\x1b[m",
    ),
];

#[test]
fn writes_the_screen(rt: HostRuntime) -> Result<(), Fail> {
    for ((rows, cols), mode, input, wanted) in &RUNS {
        let mut written = Vec::new(rt.alloc());
        let done = run(
            rt.alloc(),
            &mut input.as_bytes(),
            &mut written,
            number(*rows)?,
            number(*cols)?,
            *mode,
        );
        assert!(rt; done == Ok(()));
        assert!(rt; written.as_slice() == wanted.as_bytes());
    }
    Ok(())
}

/// Runs the engine of `vtshow` with 2 rows and 4 columns.
fn run_small<R: Read, W: Write>(
    alloc: Global,
    reader: &mut R,
    writer: &mut W,
) -> Result<Result<(), Fault>, Fail> {
    Ok(run(
        alloc,
        reader,
        writer,
        number(2)?,
        number(4)?,
        Mode::Formatted,
    ))
}

#[test]
fn writes_nothing_where_a_read_fails(rt: HostRuntime) -> Result<(), Fail> {
    for kind in [io::ErrorKind::Other, io::ErrorKind::Interrupted] {
        let mut broken = Broken {
            bytes: b"ab",
            at_once: 2,
            kind,
        };
        let mut written = Vec::new(rt.alloc());
        let done = run_small(rt.alloc(), &mut broken, &mut written)?;
        assert!(rt; done == Err(Fault::Read));
        assert!(rt; written.len() == 0);
    }
    Ok(())
}

#[test]
fn fails_where_a_write_is_refused(rt: HostRuntime) -> Result<(), Fail> {
    let mut closed = Closed(0);
    let done = run_small(rt.alloc(), &mut b"ab".as_slice(), &mut closed)?;
    assert!(rt; done == Err(Fault::Write));
    assert!(rt; closed.0 == 1);
    Ok(())
}

#[test]
fn leaves_a_beginning_where_a_write_takes_nothing(rt: HostRuntime) -> Result<(), Fail> {
    let mut full = Full {
        bytes: Vec::new(rt.alloc()),
        room: 9,
    };
    let done = run_small(rt.alloc(), &mut b"ab".as_slice(), &mut full)?;
    assert!(rt; done == Err(Fault::Write));
    assert!(rt; full.bytes.as_slice() == b"\x1b[?25h\x1b[m".as_slice());
    Ok(())
}

#[test]
fn tries_an_interrupted_write_again(rt: HostRuntime) -> Result<(), Fail> {
    let mut slow = Interrupting {
        bytes: Vec::new(rt.alloc()),
        interrupts: false,
    };
    let done = run_small(rt.alloc(), &mut b"ab".as_slice(), &mut slow)?;
    assert!(rt; done == Ok(()));
    assert!(rt; slow.bytes.as_slice() == b"\x1b[?25h\x1b[m\x1b[H\x1b[Jab".as_slice());
    Ok(())
}

#[test]
fn fails_where_a_flush_is_refused(rt: HostRuntime) -> Result<(), Fail> {
    let mut unflushed = Unflushed(Vec::new(rt.alloc()));
    let done = run_small(rt.alloc(), &mut b"ab".as_slice(), &mut unflushed)?;
    assert!(rt; done == Err(Fault::Write));
    assert!(rt; unflushed.0.as_slice() == b"\x1b[?25h\x1b[m\x1b[H\x1b[Jab".as_slice());
    Ok(())
}
