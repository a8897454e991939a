//! Tests that the copy of a screen is equal to the original at first and independent of it.

use crate::examples::Step::{Text, View};
use crate::examples::{Pieces, Step, read_keeping, shown, taken};
use std::alloc::Global;
use std::test::Fail;
use vt_notes::Notes;
use vt100::{Parser, Screen};

/// Returns the number of rows in scrollback, the number of rows by which the display is scrolled
/// back, and the scrollback capacity.
pub(crate) fn counts(screen: &Screen) -> (usize, usize, usize) {
    (
        screen.scrollback_len(),
        screen.scrollback(),
        screen.scrollback_capacity(),
    )
}

/// Returns whether two screens agree in everything that can be observed.
fn are_alike(alloc: Global, one: &Screen, other: &Screen) -> Result<bool, Fail> {
    let (rows, cols) = one.size();
    if other.size() != (rows, cols) || counts(one) != counts(other) {
        return Ok(false);
    }
    for row in 0..rows.get() {
        for col in 0..cols.get() {
            if one.cell(row, col) != other.cell(row, col) {
                return Ok(false);
            }
        }
    }
    let (one, other) = (shown(alloc, one)?, shown(alloc, other)?);
    Ok(one.as_str() == other.as_str())
}

fn expect_alike(alloc: Global, one: &Screen, other: &Screen) -> Result<(), Fail> {
    if are_alike(alloc, one, other)? {
        return Ok(());
    }
    let (one, other) = (shown(alloc, one)?, shown(alloc, other)?);
    Err(Fail::new(format_args!("{one}is not like {other}")))
}

/// Fails if two screens display different contents at any scrollback position (the same position in
/// each).
fn expect_alike_in_view(alloc: Global, one: &mut Screen, other: &mut Screen) -> Result<(), Fail> {
    for rows in 0..=one.scrollback_len() {
        one.set_scrollback(rows)?;
        other.set_scrollback(rows)?;
        expect_alike(alloc, one, other)?;
    }
    Ok(())
}

/// Creates a parser with a copy of `screen`.
fn with_copy(alloc: Global, screen: &Screen) -> Result<Parser<Notes>, Fail> {
    let mut parser = read_keeping(alloc, (1, 1), 0, &[])?;
    *parser.screen_mut() = screen.clone()?;
    Ok(parser)
}

/// Fails if input to the second parser changes the screen of the first parser, or does not change
/// the second parser's own screen.
fn expect_own_way(
    alloc: Global,
    one: &Parser<Notes>,
    other: &mut Parser<Notes>,
) -> Result<(), Fail> {
    let before = shown(alloc, one.screen())?;
    other.process(MORE)?;
    let after = shown(alloc, one.screen())?;
    if before.as_str() != after.as_str() || are_alike(alloc, one.screen(), other.screen())? {
        return Err(Fail::new(format_args!("{before}has become {after}")));
    }
    Ok(())
}

#[rattlefmt::skip]
const CLONED: [((u16, u16), usize, &[Step]); 12] = [
    ((2, 4), 0, &[]),
    ((2, 4), 0, &[Text("ab中\x1b[1;31mx")]),
    ((2, 4), 0, &[Text("abcd")]),
    ((2, 2), 10, &[Text("abcdefg\r\n中")]),
    ((2, 2), 10, &[Text("abcdefg\r\n中"), View(2)]),
    ((2, 2), 1, &[Text("abcdefg\r\n中"), View(1)]),
    ((4, 4), 0, &[Text("\x1b[2;3r\x1b[?6h\x1b[44;2mx")]),
    ((2, 4), 0, &[Text("\x1b[1mab\x1b7\x1b[m\x1b[Hc")]),
    ((2, 4), 0, &[Text("\x1b=\x1b[?1;2004;1003;1006h\x1b[?25l\x1b[5 q")]),
    ((2, 4), 10, &[Text("a\r\nb\r\nc\x1b[?47hxyz")]),
    ((2, 4), 10, &[Text("a\r\nb\r\nc\x1b[?1049hxyz\x1b[?47l")]),
    ((2, 4), 10, &[Text("a\r\nb\r\nc\x1b[?1049hxyz\x1b[?47l"), View(1)]),
];

/// Input that a screen and its copy parse after the copy has been made.
const MORE: &[u8] = b"x\x1b[2b\x1b[?47hyz\x1b8q\x1b[?47l\r\nu\r\nv\r\nw\x1b[Hs\x1b8\x1b[7mt";

/// Applies `steps` to a new parser. Fails if a copy of its screen is not equal to the screen or not
/// independent of it.
fn expect_copied(
    alloc: Global,
    size: (u16, u16),
    capacity: usize,
    steps: &[Step],
) -> Result<(), Fail> {
    let mut parser = taken(alloc, size, capacity, steps, Pieces::Single)?;
    let mut other = with_copy(alloc, parser.screen())?;
    expect_alike(alloc, parser.screen(), other.screen())?;
    expect_own_way(alloc, &parser, &mut other)?;
    parser.process(MORE)?;
    expect_alike_in_view(alloc, parser.screen_mut(), other.screen_mut())
}

#[test]
fn a_copy_is_alike_and_goes_its_own_way(rt: HostRuntime) -> Result<(), Fail> {
    for (size, capacity, steps) in &CLONED {
        expect_copied(rt.alloc(), *size, *capacity, steps)?;
    }
    Ok(())
}

/// Consecutive inputs of a parser with nine rows of two columns, each with the display that is
/// expected after it. Most of them scroll all rows, up or down and by different numbers of rows.
#[rattlefmt::skip]
const SCROLLED: [(&str, &str); 11] = [
    ("a\r\nb\r\nc\r\nd\r\ne\r\nf\r\ng\r\nh\r\ni", "0:a 1:b 2:c 3:d 4:e 5:f 6:g 7:h 8:i @8,1\n"),
    ("\x1b[2T", "2:a 3:b 4:c 5:d 6:e 7:f 8:g @8,1\n"),
    ("\x1b[Hx\r\ny", "0:x 1:y 2:a 3:b 4:c 5:d 6:e 7:f 8:g @1,1\n"),
    ("\x1b[3T", "3:x 4:y 5:a 6:b 7:c 8:d @1,1\n"),
    ("\x1b[S", "2:x 3:y 4:a 5:b 6:c 7:d @1,1\n"),
    ("\x1b[4S", "0:a 1:b 2:c 3:d @1,1\n"),
    ("\x1b[9;1Hz\n", "0:b 1:c 2:d 7:z @8,1\n"),
    ("\x1b[H\x1bM\x1bM\x1bM", "3:b 4:c 5:d @0,0\n"),
    ("\x1b[5S", "0:d @0,0\n"),
    ("\x1b[8T", "8:d @0,0\n"),
    ("\x1b[9S", "@0,0\n"),
];

/// Fails if the display of a screen that has just parsed `input` is not `wanted`.
fn expect_shown(alloc: Global, screen: &Screen, input: &str, wanted: &str) -> Result<(), Fail> {
    let display = shown(alloc, screen)?;
    if display.as_str() == wanted {
        return Ok(());
    }
    Err(Fail::new(format_args!("{input:?} displays {display}")))
}

#[test]
fn a_page_and_its_copy_scroll_all_rows(rt: HostRuntime) -> Result<(), Fail> {
    let mut parser = read_keeping(rt.alloc(), (9, 2), 0, &[])?;
    for (input, wanted) in &SCROLLED {
        let mut other = with_copy(rt.alloc(), parser.screen())?;
        parser.process(input.as_bytes())?;
        other.process(input.as_bytes())?;
        expect_shown(rt.alloc(), parser.screen(), input, wanted)?;
        expect_shown(rt.alloc(), other.screen(), input, wanted)?;
    }
    Ok(())
}

/// Fails if a copy made by `shown_copy` has a different display or size than the screen `one`, or
/// has scrollback although `one` displays none.
fn expect_displayed(one: &Screen, copy: &Screen) -> Result<(), Fail> {
    let (text, copied) = (one.contents_formatted()?, copy.contents_formatted()?);
    let is_like = copy.size() == one.size() && copied.as_str() == text.as_str();
    if is_like && (one.scrollback() > 0 || counts(copy) == (0, 0, 0)) {
        return Ok(());
    }
    Err(Fail::new(format_args!("{text} is copied as {copied}")))
}

#[test]
fn a_copy_of_what_is_displayed_is_one_page(rt: HostRuntime) -> Result<(), Fail> {
    for (size, capacity, steps) in &CLONED {
        let parser = taken(rt.alloc(), *size, *capacity, steps, Pieces::Single)?;
        expect_displayed(parser.screen(), &parser.screen().shown_copy()?)?;
    }
    Ok(())
}
