//! The complete state of a screen, as text.

use crate::tally::Tally;
use std::alloc::Global;
use std::num::NonZeroU16;
use vt100::capture::{BasicFormattedCaptureRange, BasicFormattedCaptureState};
use vt100::{Error, Parser, Screen};

/// Input that a copy of a screen parses before it is examined: none, or the sequence that activates
/// one of the pages.
const PAGES: [&[u8]; 3] = [b"", b"\x1b[?47l", b"\x1b[?47h"];

/// Inputs that make hidden state visible: first empty input, then one input each for the saved
/// cursor, the last character, the top and the bottom of the scroll region, origin mode, and the
/// saved origin mode.
const PROBES: [&[u8]; 7] = [
    b"",
    b"\x1b8",
    b"\x1b[2b",
    b"\x1b[?6h",
    b"\x1b[?6h\x1b[65535;65535H",
    b"\x1b[2;3r\x1b[H",
    b"\x1b8\x1b[2;3r\x1b[H",
];

/// The number of rows that are added to a screen to reveal how many rows have scrolled off.
const MORE_ROWS: u16 = 20;

/// Returns a string that is the same for two screens only if they agree in everything that can be
/// observed, now or later. The string covers both pages with their cursors, regions and modes;
/// saved state; the rows of scrollback and how many of them are displayed; the scrollback capacity;
/// and how many rows have scrolled off.
pub fn whole(alloc: Global, screen: &Screen) -> Result<String, Error> {
    let mut text = String::new(alloc);
    write_counts(&mut text, screen)?;
    write_rows(&mut text, screen)?;
    for page in &PAGES {
        for probe in &PROBES {
            write_probed(alloc, &mut text, screen, page, probe)?;
        }
    }
    write_views(alloc, &mut text, screen)?;
    write_resized(alloc, &mut text, screen)?;
    Ok(text)
}

/// Writes the size of a screen, the number of rows by which it is scrolled back, the number of rows
/// in scrollback, and its capacity.
fn write_counts(text: &mut String, screen: &Screen) -> Result<(), Error> {
    let (rows, cols) = screen.size();
    let (in_view, kept) = (screen.scrollback(), screen.scrollback_len());
    let capacity = screen.scrollback_capacity();
    match writeln!(text, "{rows} {cols} {in_view} {kept} {capacity}") {
        Ok(()) => Ok(()),
        Err(_) => Err(Error::OutOfMemory),
    }
}

/// Writes the basic text of all rows of a screen, including scrollback.
fn write_rows(text: &mut String, screen: &Screen) -> Result<(), Error> {
    let mut state = BasicFormattedCaptureState::new();
    let range = BasicFormattedCaptureRange::Full(&mut state);
    screen.write_contents_formatted_basic(text, range)
}

/// Writes what a copy of the screen displays after it has parsed `page` and then `probe`.
fn write_probed(
    alloc: Global,
    text: &mut String,
    screen: &Screen,
    page: &[u8],
    probe: &[u8],
) -> Result<(), Error> {
    let mut parser = with_copy(alloc, screen)?;
    parser.process(page)?;
    parser.process(probe)?;
    write_shown(text, parser.screen())
}

/// Writes a text that is the same for two screens only if they have the same display and modes.
fn write_shown(text: &mut String, screen: &Screen) -> Result<(), Error> {
    let shown = screen.state_formatted()?;
    push(text, shown.as_str())?;
    push(text, "\n")
}

fn push(text: &mut String, piece: &str) -> Result<(), Error> {
    match text.push_str(piece) {
        Ok(()) => Ok(()),
        Err(_) => Err(Error::OutOfMemory),
    }
}

/// Writes what a screen displays when it is scrolled back by each possible number of rows.
fn write_views(alloc: Global, text: &mut String, screen: &Screen) -> Result<(), Error> {
    let mut parser = with_copy(alloc, screen)?;
    for rows in 0..screen.scrollback_len().saturating_add(1) {
        parser.screen_mut().set_scrollback(rows)?;
        write_shown(text, parser.screen())?;
    }
    Ok(())
}

/// Writes what the main page displays after the screen has been resized to more rows.
fn write_resized(alloc: Global, text: &mut String, screen: &Screen) -> Result<(), Error> {
    let mut parser = with_copy(alloc, screen)?;
    let (rows, cols) = screen.size();
    let rows = rows.saturating_add(MORE_ROWS);
    parser.set_size(rows, cols)?;
    parser.process(b"\x1b[?47l")?;
    write_shown(text, parser.screen())
}

/// Creates a parser with a copy of a screen.
fn with_copy(alloc: Global, screen: &Screen) -> Result<Parser, Error> {
    let mut parser = Parser::new(alloc, NonZeroU16::MIN, NonZeroU16::MIN, 0)?;
    *parser.screen_mut() = screen.clone()?;
    Ok(parser)
}

/// Returns whether two parsers have screens that agree in everything that can be observed, and
/// callbacks with the same counts.
pub fn are_alike(alloc: Global, one: &Parser<Tally>, other: &Parser<Tally>) -> Result<bool, Error> {
    let (one_tally, other_tally) = (*one.callbacks(), *other.callbacks());
    if one_tally.titles != other_tally.titles || one_tally.reported != other_tally.reported {
        return Ok(false);
    }
    let text = whole(alloc, one.screen())?;
    Ok(text.as_str() == whole(alloc, other.screen())?.as_str())
}
