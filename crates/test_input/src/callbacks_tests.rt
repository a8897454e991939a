//! Tests of callbacks: each method is called, with all arguments; callbacks resize the screen, swap it
//! or scroll it back in the middle of the input; they decline rows; and they can be replaced.

use crate::callbacks::Function::{self, *};
use crate::callbacks::{
    Counter, Exchanger, Resizer, Viewer, run_exchanging, run_looking_back, run_resizing,
};
use crate::examples::{expect, expect_text, read, shown, size_of};
use std::alloc::Global;
use std::test::Fail;
use vt_notes::{Note, Notes};
use vt100::capture::RowContents;
use vt100::{Call, Callbacks, Parser, Screen};

/// For each method of `Callbacks`, a sequence that invokes the method.
const CALLED: [(&[u8], Function); 12] = [
    (b"\x07", AudibleBell),
    (b"\x1bg", VisualBell),
    (b"\x1b[8t", Resize),
    (b"\x1b]1;x\x07", SetWindowIconName),
    (b"\x1b]2;x\x07", SetWindowTitle),
    (b"\x1b]52;c;aGk=\x07", CopyToClipboard),
    (b"\x1b]52;c;?\x07", PasteFromClipboard),
    (b"\xc2\x80", UnhandledChar),
    (b"\x01", UnhandledControl),
    (b"\x1b(B", UnhandledEscape),
    (b"\x1b[?5l", UnhandledCsi),
    (b"\x1b]9;x\x07", UnhandledOsc),
];

/// Test cases: input, and after how many of its bytes a callback has been invoked.
const UNITS: [(&[u8], &[usize]); 4] = [
    (b"ab\x07cd\x07", &[3, 6]),
    (b"\xE4\xB8\xAD\xC3\xA4\x07\x1b[?5lx", &[6, 11]),
    (b"\x1b]2;title\x07x\x01", &[10, 12]),
    (b"\x1b[31mab\r\n\x1b[8tc", &[13]),
];

/// Fails if parsing `bytes` does not call the method `function` exactly once, or calls any other
/// method.
fn expect_one_call(alloc: Global, bytes: &[u8], function: Function) -> Result<(), Fail> {
    let (rows, cols) = size_of((24, 80))?;
    let mut parser = Parser::new_with_callbacks(alloc, rows, cols, 0, Counter::default())?;
    parser.process(bytes)?;
    let counter = parser.callbacks();
    for (i, count) in counter.counts().iter().enumerate() {
        if *count != u8::from(i == function as usize) {
            return Err(Fail::new(format_args!("{function:?}: {i} was called {count} times")));
        }
    }
    if counter.otherwise() != 0 {
        return Err(Fail::new(format_args!("{function:?} was not called itself")));
    }
    Ok(())
}

#[test]
fn calls_each_function_itself(rt: HostRuntime) -> Result<(), Fail> {
    for (bytes, function) in &CALLED {
        expect_one_call(rt.alloc(), bytes, *function)?;
    }
    Ok(())
}

/// Returns the number of calls of all methods.
fn total(counter: &Counter) -> u32 {
    let mut total = 0_u32;
    for count in counter.counts() {
        total = total.saturating_add(u32::from(*count));
    }
    total
}

/// Fails if reading `bytes` unit by unit does not invoke callbacks exactly after the numbers of
/// bytes in `ends`.
fn expect_units(alloc: Global, bytes: &[u8], ends: &[usize]) -> Result<(), Fail> {
    let (rows, cols) = size_of((2, 8))?;
    let mut parser = Parser::new_with_callbacks(alloc, rows, cols, 0, Counter::default())?;
    let mut rest = bytes;
    let mut found = 0_usize;
    for _ in 0..bytes.len() {
        if rest.is_empty() {
            break;
        }
        let before = total(parser.callbacks());
        let (count, answer) = parser.process_unit(rest);
        answer?;
        rest = rest.get(count..).ok_or("a unit is longer than the input")?;
        let read = bytes.len().saturating_sub(rest.len());
        if total(parser.callbacks()) != before {
            if ends.get(found) != Some(&read) {
                return Err(Fail::new(format_args!("{bytes:?}: a callback after {read} bytes")));
            }
            found = found.saturating_add(1);
        }
    }
    if !rest.is_empty() || found != ends.len() {
        return Err(Fail::new(format_args!("{bytes:?}: {found} callbacks, {rest:?} is left")));
    }
    Ok(())
}

#[test]
fn ends_a_unit_at_the_byte_that_invokes_a_callback(rt: HostRuntime) -> Result<(), Fail> {
    for (bytes, ends) in &UNITS {
        expect_units(rt.alloc(), bytes, ends)?;
    }
    Ok(())
}

#[test]
fn notes_a_title(rt: HostRuntime) -> Result<(), Fail> {
    let parser = read(rt.alloc(), (24, 80), &[b"\x1b]2;title\x07"])?;
    assert!(rt; is_title(parser.callbacks().calls(), b"title"));
    Ok(())
}

#[test]
fn notes_an_icon_name_and_then_a_title(rt: HostRuntime) -> Result<(), Fail> {
    let parser = read(rt.alloc(), (24, 80), &[b"\x1b]0;", b"x\x07"])?;
    assert!(rt; is_name_and_title(parser.callbacks().calls(), b"x"));
    Ok(())
}

#[test]
fn notes_a_sequence_with_its_groups(rt: HostRuntime) -> Result<(), Fail> {
    let parser = read(rt.alloc(), (24, 80), &[b"\x1b[?5;25l"])?;
    assert!(rt; is_sequence(parser.callbacks().calls(), b'?', &[5, 25], 'l'));
    Ok(())
}

/// Returns whether `calls` consists of one call, with the title `wanted`.
fn is_title(calls: &[Note], wanted: &[u8]) -> bool {
    match calls {
        [Note::SetWindowTitle(title)] => title.as_slice() == wanted,
        _ => false,
    }
}

/// Returns whether `calls` consists of two calls: one with the icon name `wanted` and then one with
/// the title `wanted`.
fn is_name_and_title(calls: &[Note], wanted: &[u8]) -> bool {
    match calls {
        [Note::SetWindowIconName(name), Note::SetWindowTitle(title)] => {
            name.as_slice() == wanted && title.as_slice() == wanted
        }
        _ => false,
    }
}

/// Returns whether `calls` consists of one call for an unknown control sequence with the private
/// marker `marker`, the numbers `numbers` (one in each group) and the final byte `byte`.
fn is_sequence(calls: &[Note], marker: u8, numbers: &[u16], byte: char) -> bool {
    match calls {
        [Note::UnhandledCsi(first, second, groups, last)] => {
            *first == Some(marker)
                && second.is_none()
                && *last == byte
                && are_single(groups.as_slice(), numbers)
        }
        _ => false,
    }
}

/// Returns whether each group consists of one number, and these numbers equal `numbers`.
fn are_single(groups: &[Vec<u16>], numbers: &[u16]) -> bool {
    if groups.len() != numbers.len() {
        return false;
    }
    for (group, number) in groups.iter().zip(numbers) {
        if group.as_slice() != [*number].as_slice() {
            return false;
        }
    }
    true
}

/// Fails if the size or the display of a screen is not the expected one.
fn expect_screen(
    alloc: Global,
    screen: &Screen,
    size: (u16, u16),
    wanted: &str,
) -> Result<(), Fail> {
    if screen.size() != size_of(size)? {
        return Err(Fail::new(format_args!("not {size:?}")));
    }
    expect_text(shown(alloc, screen)?, wanted)
}

/// Test cases: input on a screen of two rows and four columns, and the size and display of the
/// screen after the input.
#[rattlefmt::skip]
const SIZED: [(&str, (u16, u16), &str); 7] = [
    ("ab\x1b[8;3;2tcd", (3, 2), "0:ac/ 1:d @1,1\n"),
    ("ab\x1b[8;0;2tcd", (2, 4), "0:abcd @0,4\n"),
    ("ab\x1b[8;3;0tcd", (2, 4), "0:abcd @0,4\n"),
    ("ab\x1b[8;;tcd", (2, 4), "0:abcd @0,4\n"),
    ("ab\x1b[8tcd", (2, 4), "0:abcd @0,4\n"),
    ("ab\x1b[8;1tcd", (1, 4), "0:abcd @0,4\n"),
    ("ab\x1b[8;1;65535tcd", (1, 65535), "0:abcd @0,4\n"),
];

#[test]
fn gives_the_size_that_is_asked_for(rt: HostRuntime) -> Result<(), Fail> {
    for (text, size, wanted) in &SIZED {
        for cut in 0..=text.len() {
            expect_resized(rt.alloc(), text.as_bytes(), cut, *size, wanted)?;
        }
    }
    Ok(())
}

fn expect_resized(
    alloc: Global,
    bytes: &[u8],
    cut: usize,
    size: (u16, u16),
    wanted: &str,
) -> Result<(), Fail> {
    let (rows, cols) = size_of((2, 4))?;
    let mut parser = Parser::new_with_callbacks(alloc, rows, cols, 0, Resizer::new())?;
    let (front, back) = bytes.split_at(cut.min(bytes.len()));
    run_resizing(&mut parser, front)?;
    run_resizing(&mut parser, back)?;
    if parser.callbacks().is_refused() {
        return Err(Fail::new("memory was refused"));
    }
    expect_screen(alloc, parser.screen(), size, wanted)
}

/// Test cases: input on a screen of two rows and four columns; the size and display of the screen
/// after the input; and the size and display of the screen that the callbacks hold after the input.
#[rattlefmt::skip]
const EXCHANGED: [(&str, (u16, u16), &str, (u16, u16), &str); 4] = [
    ("ab\x07c", (1, 1), "0:c @0,1\n", (2, 4), "0:ab @0,2\n"),
    ("ab\x07c\x07d", (2, 4), "0:abd @0,3\n", (1, 1), "0:c @0,1\n"),
    ("ab\x07\x1b[?1049hc\x07d\x07", (1, 1), "0:c @0,1 alternate\n", (2, 4), "0:abd @0,3\n"),
    (
        "\x1b[1;31;44m\x1b=\x1b[?25lab\x07c", (1, 1), "0:c @0,1\n",
        (2, 4), "0:ab @0,2 foreground Idx(1) background Idx(4) bold hidden keypad\n",
    ),
];

#[test]
fn exchanges_the_screen(rt: HostRuntime) -> Result<(), Fail> {
    for (text, size, seen, kept_size, kept) in &EXCHANGED {
        for cut in 0..=text.len() {
            let parser = exchanged(rt.alloc(), text.as_bytes(), cut)?;
            expect_screen(rt.alloc(), parser.screen(), *size, seen)?;
            expect_screen(rt.alloc(), parser.callbacks().kept(), *kept_size, kept)?;
        }
    }
    Ok(())
}

/// Creates a parser whose callbacks hold a new screen of one row and one column, and feeds the
/// bytes to the parser in two chunks, of which the first has at most `cut` bytes.
fn exchanged(alloc: Global, bytes: &[u8], cut: usize) -> Result<Parser<Exchanger>, Fail> {
    let (row, col) = size_of((1, 1))?;
    let small = Parser::new(alloc, row, col, 0)?;
    let exchanger = Exchanger::new(small.screen().clone()?);
    let (rows, cols) = size_of((2, 4))?;
    let mut parser = Parser::new_with_callbacks(alloc, rows, cols, 0, exchanger)?;
    let (front, back) = bytes.split_at(cut.min(bytes.len()));
    run_exchanging(&mut parser, front)?;
    run_exchanging(&mut parser, back)?;
    Ok(parser)
}

/// Test cases: input on a screen of two rows and four columns with a scrollback of ten rows, the
/// display after the input, and the display after scrolling back to the page.
#[rattlefmt::skip]
const VIEWED: [(&str, &str, &str); 2] = [
    ("a\r\nb\r\nc\x07x", "0:a 1:b @1,2 kept 1 in view 1\n", "0:b 1:cx @1,2 kept 1\n"),
    ("a\r\nb\r\nc\x07\r\nd", "0:a 1:b @1,1 kept 2 in view 2\n", "0:c 1:d @1,1 kept 2\n"),
];

#[test]
fn looks_back_at_a_bell(rt: HostRuntime) -> Result<(), Fail> {
    for (text, seen, below) in &VIEWED {
        for cut in 0..=text.len() {
            expect_looked_back(rt.alloc(), text.as_bytes(), cut, (seen, below))?;
        }
    }
    Ok(())
}

fn expect_looked_back(
    alloc: Global,
    bytes: &[u8],
    cut: usize,
    (seen, below): (&str, &str),
) -> Result<(), Fail> {
    let (rows, cols) = size_of((2, 4))?;
    let mut parser = Parser::new_with_callbacks(alloc, rows, cols, 10, Viewer::new())?;
    let (front, back) = bytes.split_at(cut.min(bytes.len()));
    run_looking_back(&mut parser, front)?;
    run_looking_back(&mut parser, back)?;
    if parser.callbacks().is_refused() {
        return Err(Fail::new("memory was refused"));
    }
    expect_screen(alloc, parser.screen(), (2, 4), seen)?;
    parser.screen_mut().set_scrollback(0)?;
    expect_screen(alloc, parser.screen(), (2, 4), below)
}

/// Callbacks that count rows.
#[derive(Clone, Copy)]
struct RowCounter {
    wants_rows: bool,
    rows: u8,
}

/// Callbacks that count rows and do not change the screen.
impl Callbacks for RowCounter {
    ghost use Rattle.std.specs.Prelude.{◌≡◌};

    ghost does = { λ _ _ before _ after. after ≡ before };

    fn otherwise(&mut self, _screen: &mut Screen, _call: Call<'_>) {}

    fn on_scroll(&mut self, _row: RowContents<'_>, _alternate: bool) {
        self.rows = self.rows.saturating_add(1);
    }

    fn wants_rows(&self) -> bool {
        self.wants_rows
    }
}

/// Returns how many rows are reported while two rows scroll off and are not kept.
fn reported(alloc: Global, wants_rows: bool) -> Result<u8, Fail> {
    let (rows, cols) = size_of((2, 4))?;
    let callbacks = RowCounter {
        wants_rows,
        rows: 0,
    };
    let mut parser = Parser::new_with_callbacks(alloc, rows, cols, 0, callbacks)?;
    parser.process(b"a\r\nb\r\nc\r\nd")?;
    Ok(parser.callbacks().rows)
}

#[test]
fn reports_rows_that_are_wanted(rt: HostRuntime) -> Result<(), Fail> {
    let wanted = reported(rt.alloc(), true)?;
    let unwanted = reported(rt.alloc(), false)?;
    if wanted != 2 || unwanted != 0 {
        return Err(Fail::new(format_args!("{wanted} rows and {unwanted} rows were reported")));
    }
    Ok(())
}

#[test]
fn wants_rows_by_default(_rt: HostRuntime) -> Result<(), Fail> {
    if !Counter::default().wants_rows() || ().wants_rows() {
        return Err(Fail::new(format_args!("the default is wrong")));
    }
    Ok(())
}

/// Checks that the screen can be resized and the callbacks replaced in the middle of a title, which
/// then ends as usual.
#[test]
fn lends_screen_and_callbacks(rt: HostRuntime) -> Result<(), Fail> {
    let mut parser = read(rt.alloc(), (2, 4), &[b"ab\x1b]2;t"])?;
    let size = size_of((3, 2))?;
    let (screen, notes) = parser.screen_and_callbacks_mut();
    screen.set_size(size.0, size.1)?;
    *notes = Notes::new(rt.alloc());
    parser.process(b"itle\x07c")?;
    assert!(rt; parser.screen().size() == size);
    let wanted = "0:ac @0,2\nset_window_title(\"title\")\n";
    expect(rt.alloc(), &parser, &[], wanted)
}

/// Checks that the callbacks can be replaced in the middle of a title, which then ends as usual.
#[test]
fn lends_callbacks(rt: HostRuntime) -> Result<(), Fail> {
    let mut parser = read(rt.alloc(), (2, 4), &[b"a\x07b\x1b]2;t"])?;
    *parser.callbacks_mut() = Notes::new(rt.alloc());
    parser.process(b"itle\x07c")?;
    let wanted = "0:abc @0,3\nset_window_title(\"title\")\n";
    expect(rt.alloc(), &parser, &[], wanted)
}
