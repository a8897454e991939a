//! Tests of which screens are steady. A screen is steady if each of its visible glyphs reproduces
//! itself when printed on a blank row.

use std::alloc::Global;
use std::test::Fail;
use test_input::examples::Step::{self, Resize, Text, View};
use test_input::examples::{Pieces, taken};
use vt100::Screen;

/// An example: a size, a scrollback capacity, the steps, and whether the screen is steady after the
/// steps.
type Example = ((u16, u16), usize, &'static [Step], bool);

/// A wide character that U+FE0E and U+FE0F make narrow. Narrowing the character leaves a space
/// after it. Printed on a blank row, its text leaves a space as well, so a glyph with this text is
/// not steady.
const NARROWED: &str = "\u{231a}\u{fe0e}\u{fe0f}";

#[rattlefmt::skip]
const EXAMPLES: [Example; 24] = [
    // Without U+FE0F: nothing, ASCII, wide characters, combining characters.
    ((24, 80), 0, &[], true),
    ((2, 4), 0, &[Text("abcd\x1b[31mef")], true),
    ((2, 4), 0, &[Text("\u{4e2d}\u{6587}\u{231a}")], true),
    ((2, 4), 0, &[Text("e\u{301}\u{302}\u{303}")], true),
    ((2, 4), 0, &[Text("\u{1f600}\u{fe0e}")], true),
    ((2, 4), 0, &[Text("\u{231a}\u{fe0e}")], true),

    // U+FE0F makes a glyph wide, or keeps it wide or narrow.
    ((2, 4), 0, &[Text("\u{2764}\u{fe0f}")], true),
    ((2, 4), 0, &[Text("a\u{2764}\u{fe0f}b")], true),
    ((2, 2), 0, &[Text("a\u{2764}\u{fe0f}")], true),
    ((2, 1), 0, &[Text("\u{2764}\u{fe0f}")], true),
    ((2, 4), 0, &[Text("\u{231a}\u{fe0f}")], true),
    ((2, 4), 0, &[Text("a\u{fe0f}")], true),

    // A glyph that is made narrow, in the first column, in the last one, and in the last row.
    ((2, 4), 0, &[Text(NARROWED)], false),
    ((2, 3), 0, &[Text("\x1b[1;2H"), Text(NARROWED), Text("\x1b[1G\x1b[@")], false),
    ((3, 4), 0, &[Text("\x1b[3;1H"), Text(NARROWED)], false),
    ((2, 4), 0, &[Text("\u{2764}\u{fe0f}"), Text(NARROWED)], false),

    // With one column the wide character is not printed.
    ((2, 1), 0, &[Text(NARROWED)], true),

    // Overwritten, erased, or scrolled off the top.
    ((2, 4), 0, &[Text(NARROWED), Text("\x1b[1;1Hx")], true),
    ((2, 4), 0, &[Text(NARROWED), Text("\x1b[2J")], true),
    ((2, 4), 10, &[Text(NARROWED), Text("\r\n\r\n")], true),

    // Visible again in scrollback.
    ((2, 4), 10, &[Text(NARROWED), Text("\r\n\r\n"), View(1)], false),

    // On the page that is not active.
    ((2, 4), 0, &[Text(NARROWED), Text("\x1b[?47h")], true),
    ((2, 4), 0, &[Text(NARROWED), Text("\x1b[?47h\x1b[?47l")], false),

    // In a column that is cut off.
    ((2, 4), 0, &[Text("\x1b[1;3H"), Text(NARROWED), Resize(2, 2)], true),
];

/// Applies the steps of an example to a new parser. Fails if `is_steady` does not return the
/// expected value for its screen.
fn expect_steady(
    alloc: Global,
    (size, capacity, steps, wanted): &Example,
    pieces: Pieces,
) -> Result<(), Fail> {
    let parser = taken(alloc, *size, *capacity, steps, pieces)?;
    if parser.screen().is_steady() != *wanted {
        return Err(Fail::new(format_args!("{steps:?}: not {wanted}")));
    }
    Ok(())
}

#[test]
fn tells_steady_screens(rt: HostRuntime) -> Result<(), Fail> {
    for example in &EXAMPLES {
        expect_steady(rt.alloc(), example, Pieces::Single)?;
        expect_steady(rt.alloc(), example, Pieces::Two(3))?;
    }
    Ok(())
}

/// A heart that U+FE0F makes wide on a screen of at least two columns.
const HEART: &str = "\u{2764}\u{fe0f}";

/// Checks that a narrow heart printed on a page of one column is not steady after a resize to more
/// columns: printed again, it is wide.
#[test]
fn tells_by_the_width_of_the_screen(rt: HostRuntime) -> Result<(), Fail> {
    expect_steady(
        rt.alloc(),
        &((2, 1), 0, &[Text(HEART)], true),
        Pieces::Single,
    )?;
    let wider: &[Step] = &[Text(HEART), Resize(2, 4)];
    expect_steady(rt.alloc(), &((2, 1), 0, wider, false), Pieces::Single)
}

/// Steps that leave a narrowed glyph in the last column of the last row. Printed again in that
/// column, the glyph is wide, so it wraps and scrolls the page.
const IN_CORNER: &[Step] = &[
    Text("one\x1b[2;2H"),
    Text(NARROWED),
    Text("\x1b[2;1H\x1b[@"),
];

/// Fails if a viewer that has parsed `first` and then `second` does not display `last`, or is not
/// in ground state with the whole page as its scroll region.
fn expect_healed(alloc: Global, first: &str, second: &str, last: &Screen) -> Result<(), Fail> {
    let mut viewer = taken(alloc, (2, 3), 0, &[], Pieces::Single)?;
    viewer.process(first.as_bytes())?;
    viewer.process(second.as_bytes())?;
    if !viewer.screen().is_sized_as(last) || viewer.screen().contents_diff(last)?.as_str() != "" {
        return Err(Fail::new("another screen is displayed"));
    }
    viewer.process(b"\x1b[Hx\x1b[2;1H\n")?;
    if viewer.screen().contents()?.as_str().contains('x') {
        return Err(Fail::new("the page does not scroll as a whole"));
    }
    Ok(())
}

/// Checks that the diff to a screen that is not steady scrolls a viewer, and that a later redraw of
/// a steady screen restores the display.
#[test]
fn redraws_heal_a_viewer(rt: HostRuntime) -> Result<(), Fail> {
    let alloc = rt.alloc();
    let fresh = taken(alloc, (2, 3), 0, &[], Pieces::Single)?;
    let mut parser = taken(alloc, (2, 3), 0, IN_CORNER, Pieces::Single)?;
    if !parser.screen().is_sized_as(fresh.screen()) {
        return Err(Fail::new("another size"));
    }
    let wrong = parser.screen().contents_diff(fresh.screen())?;
    let scrolled = parser.screen().contents_diff_scrolling(fresh.screen())?;
    let redrawn = parser.screen().contents_formatted()?;
    if parser.screen().is_steady() {
        return Err(Fail::new("the glyph in the corner is steady"));
    }
    parser.process(b"\x1b[2J\x1b[31mab")?;
    let healing = parser.screen().contents_formatted()?;
    expect_healed(alloc, wrong.as_str(), healing.as_str(), parser.screen())?;
    expect_healed(alloc, scrolled.as_str(), healing.as_str(), parser.screen())?;
    expect_healed(alloc, redrawn.as_str(), healing.as_str(), parser.screen())
}
