//! Calls while no memory is left: calls that do not allocate succeed, and all other calls fail.

use crate::shown::Shown;
use crate::step::{Step, size};
use crate::tally::Tally;
use std::alloc::{AllocError, Global};
use std::io;
use vt_show::{Fault, arguments, ending};
use vt100::capture::{
    BasicFormattedCaptureRange, BasicFormattedCaptureState, basic_formatted_rows,
    basic_formatted_to_plain, basic_formatted_to_plain_indexed,
};
use vt100::{Error, Parser, Screen};

/// The maximum number of blocks of memory that are allocated.
const MOST: usize = 1 << 14;

/// The sizes, in bytes, of the blocks that are allocated. Blocks of each size are allocated until
/// an allocation fails.
const SIZES: [usize; 7] = [1 << 24, 1 << 20, 1 << 16, 1 << 12, 1 << 8, 1 << 4, 1];

/// A capture that contains colors, a wide character and a newline.
const CAPTURE: &str = "\x1b[31mabc\x1b[m中\nd";

/// Calls that do not allocate. Their input contains no operating system command, scrolls no row
/// into scrollback, and enters the alternate page only after it has been created.
#[rattlefmt::skip]
const FREE: [Step; 14] = [
    Step::Process(b"\x1b[1;31mab\xe4\xb8\xad"),
    Step::Process(b"\r\n\r\n\r\nwrapped lines that leave"),
    Step::Process(b"\x1b[2J\x1b[H\x1b[3Lx\x1b[2P\x1b[@\x1b[T\x1b[5S\x1b[2M\x1bM"),
    Step::Process(b"e\xcc\x81\xe2\x9d\xa4\xef\xb8\x8f\x1b[9b"),
    Step::Process(b"\x1b[1;2;3:4;5z\x1b[8;65535;65535t\x1b[38;7m\x1b(B\x07\x1bg\x01\xff\xc2\x80"),
    Step::Process(b"\x1bPq#0\x1b\\\x1b_x\x1b\\\x1b^y\x1b\\"),
    Step::Process(b"\x1b7\x1b[2;2r\x1b[?6;25l\x1b[?1h\x1b[5 q\x1b8\x1b[3J"),
    Step::Process(b"\x1b[?1049hy\x1b[?1049l\x1b[?47hz\x1b[?47l"),
    Step::SetScrollback(1),
    Step::SetSize(2, 4),
    Step::SetScreenSize(2, 4),
    Step::Process(b"\x1bcab\r\ncd"),
    Step::Process(b"\x1b[?1h"),
    Step::SetScrollback(0),
];

/// Calls that allocate.
const TAKING: [Step; 13] = [
    Step::Redraw,
    Step::Cursor,
    Step::Attributes,
    Step::State,
    Step::Modes,
    Step::Contents,
    Step::Range,
    Step::Row(1),
    Step::Basic,
    Step::Rows,
    Step::SetSize(3, 4),
    Step::SetScreenSize(3, 4),
    Step::Process(b"x\x1b]2;t\x07"),
];

/// Creates a parser without scrollback that has entered its alternate page, and makes all calls
/// while no memory is left. Then frees the memory and repeats the calls that allocate.
pub fn run<R: AllocGlobal + Print>(rt: &R) -> io::Result<()> {
    let (rows, cols) = size((2, 4));
    let parser = Parser::new_with_callbacks(rt.alloc(), rows, cols, 0, Tally::default());
    let Ok(mut parser) = parser else {
        return println!(rt; "new: refused");
    };
    make_all(rt, &mut parser, &[Step::Process(b"\x1b[?47h\x1b[?47l")])?;
    match String::with_capacity(rt.alloc(), 256) {
        Ok(mut text) => run_scarce(rt, &mut parser, &mut text)?,
        Err(_) => println!(rt; "a text: refused")?,
    }
    println!(rt; "-- with memory")?;
    make_all(rt, &mut parser, &TAKING)
}

fn run_scarce<R: AllocGlobal + Print>(
    rt: &R,
    parser: &mut Parser<Tally>,
    text: &mut String,
) -> io::Result<()> {
    match all_memory(rt.alloc()) {
        Ok(_memory) => run_without(rt, parser, text),
        Err(_) => println!(rt; "a list of blocks: refused"),
    }
}

/// Allocates all available memory, and returns the allocated blocks.
fn all_memory(alloc: Global) -> Result<Vec<Vec<u8>>, AllocError> {
    let mut blocks = Vec::with_capacity(alloc, MOST)?;
    for size in &SIZES {
        for _ in 0..MOST {
            let Ok(block) = Vec::<u8>::with_capacity(alloc, *size) else {
                break;
            };
            if blocks.push(block).is_err() {
                break;
            }
        }
    }
    Ok(blocks)
}

fn run_without<R: AllocGlobal + Print>(
    rt: &R,
    parser: &mut Parser<Tally>,
    text: &mut String,
) -> io::Result<()> {
    println!(rt; "-- calls that take no memory")?;
    make_all(rt, parser, &FREE)?;
    capture(rt, parser.screen(), text)?;
    parser.screen_mut().clear_scrollback();
    read_capture(rt)?;
    end(rt)?;
    println!(rt; "-- calls that take memory")?;
    make_all(rt, parser, &TAKING)
}

fn make_all<R: AllocGlobal + Print>(
    rt: &R,
    parser: &mut Parser<Tally>,
    steps: &[Step],
) -> io::Result<()> {
    for step in steps {
        let answer = step.make(rt.alloc(), parser);
        println!(rt; "{step}: {answer}; {}", Shown(parser))?;
    }
    Ok(())
}

/// Appends a capture to a string that has enough capacity, and copies a cell. Neither operation
/// allocates memory.
fn capture<R: Print>(rt: &R, screen: &Screen, text: &mut String) -> io::Result<()> {
    let mut state = BasicFormattedCaptureState::new();
    let range = BasicFormattedCaptureRange::Full(&mut state);
    let is_written = screen.write_contents_formatted_basic(text, range).is_ok();
    println!(rt; "capture: {is_written}, {}", text.as_bytes().escape_ascii())?;
    let is_copied = screen.cell(0, 0).is_some_and(|cell| cell.clone().is_ok());
    println!(rt;
        "copy of a cell: {is_copied}, of a state: {}",
        state.clone().is_ok()
    )
}

fn read_capture<R: Print>(rt: &R) -> io::Result<()> {
    for piece in basic_formatted_to_plain(CAPTURE) {
        println!(rt; "piece: {}", piece.as_bytes().escape_ascii())?;
    }
    for (place, piece) in basic_formatted_to_plain_indexed(CAPTURE) {
        println!(rt; "piece at {place}: {}", piece.as_bytes().escape_ascii())?;
    }
    for row in basic_formatted_rows(CAPTURE, 2) {
        println!(rt; "row: {}", row.as_bytes().escape_ascii())?;
    }
    Ok(())
}

fn end<R: Print>(rt: &R) -> io::Result<()> {
    let are_read = arguments(&["24", "80", "plain"]).is_some();
    let (line, status) = ending(Some(Fault::Memory));
    println!(rt;
        "arguments: {are_read}; ending: {line}, {status}; {}",
        Error::OutOfMemory
    )
}
