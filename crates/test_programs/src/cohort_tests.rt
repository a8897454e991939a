//! Tests of viewers that share the updates of a parser with callbacks.

use crate::numbers::size;
use example_calling::callbacks::{Window, read};
use example_calling::cohort::{Cohort, Message};
use std::test::Fail;
use vt100::Parser;

/// The text of a redraw before the contents.
const CLEAR: &str = "\x1b[?25h\x1b[m\x1b[H\x1b[J";

/// Fails unless `message` contains updates with the given text.
fn expect_updates(message: &Message, wanted: &str) -> Result<(), Fail> {
    match message {
        Message::Updates(text) if text.as_str() == wanted => Ok(()),
        _ => Err(Fail::new(format_args!("not the updates {wanted:?}"))),
    }
}

/// Fails unless `message` is a redraw with the given text after [`CLEAR`].
fn expect_redraw(message: &Message, wanted: &str) -> Result<(), Fail> {
    match message {
        Message::Redraw(text) if text.as_str().strip_prefix(CLEAR) == Some(wanted) => Ok(()),
        _ => Err(Fail::new(format_args!("not the redraw {wanted:?}"))),
    }
}

/// Makes the parser's screen the next version. Fails unless its number and the update are the given
/// ones.
fn advance(
    cohort: &mut Cohort,
    parser: &Parser<Window>,
    (number, update): (u64, Option<&str>),
) -> Result<(), Fail> {
    if cohort.advance(parser.screen())? != number || cohort.update() != update {
        return Err(Fail::new(format_args!("version {number} has other updates")));
    }
    Ok(())
}

#[test]
fn viewers_share_updates(rt: HostRuntime) -> Result<(), Fail> {
    let (rows, cols) = size((2, 8))?;
    let window = Window::new(rt.alloc());
    let mut parser = Parser::new_with_callbacks(rt.alloc(), rows, cols, 0, window)?;
    let mut cohort = Cohort::new(rt.alloc(), parser.screen())?;
    read(&mut parser, b"a\x07\x1b]2;title\x07")?;
    advance(&mut cohort, &parser, (1, Some("a")))?;
    read(&mut parser, b"b")?;
    advance(&mut cohort, &parser, (2, Some("b")))?;
    read(&mut parser, b"\x1b=")?;
    // What the parser reads between two versions is in no message.
    expect_updates(&cohort.message(Some(0))?, "ab")?;
    expect_redraw(&cohort.message(None)?, "ab\x1b>\x1b[?1l\x1b[?2004l")?;
    advance(&mut cohort, &parser, (3, Some("\x1b=")))?;
    expect_updates(&cohort.message(Some(0))?, "ab\x1b=")?;
    expect_updates(&cohort.message(Some(2))?, "\x1b=")?;
    expect_updates(&cohort.message(Some(3))?, "")?;
    expect_redraw(&cohort.message(Some(4))?, "ab\x1b=\x1b[?1l\x1b[?2004l")?;
    let window = parser.callbacks();
    if (window.title(), window.bells()) != (b"title", 1) {
        return Err(Fail::new("another title, or the bell did not ring once"));
    }
    Ok(())
}
