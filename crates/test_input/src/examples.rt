//! Steps on a parser as values, the observable state of a parser as one string, and checks of the
//! state and of the screen's output after each prefix of an input.

use crate::readback::{Asked, Change};
use std::alloc::{AllocError, Global};
use std::num::NonZeroU16;
use std::test::Fail;
use vt_notes::Notes;
use vt100::{
    Callbacks, Cell, Color, CursorStyle, Error, MouseProtocolEncoding, MouseProtocolMode, Parser,
    Screen,
};

/// An action on a parser or its screen.
#[derive(Clone, Copy, Debug)]
pub enum Step {
    /// Parses a string.
    Text(&'static str),

    /// Parses bytes.
    Bytes(&'static [u8]),

    /// Resizes the screen to the given number of rows and columns.
    Resize(u16, u16),

    /// Resizes the parser to the given number of rows and columns.
    ResizeParser(u16, u16),

    /// Scrolls the display back by the given number of rows.
    View(usize),

    /// Erases scrollback.
    GiveUp,
}

/// The way in which bytes are split: into two chunks, of which the first has at most the given
/// number of bytes, or into single bytes.
#[derive(Clone, Copy)]
pub enum Pieces {
    Two(usize),
    Single,
}

impl Step {
    /// Returns the bytes that the step parses.
    pub fn bytes(self) -> &'static [u8] {
        match self {
            Step::Text(text) => text.as_bytes(),
            Step::Bytes(bytes) => bytes,
            _ => &[],
        }
    }

    /// Applies the step to a parser or its screen.
    pub fn take(self, parser: &mut Parser<Notes>, pieces: Pieces) -> Result<(), Fail> {
        match self {
            Step::Text(_) | Step::Bytes(_) => feed(parser, self.bytes(), pieces)?,
            Step::Resize(rows, cols) => {
                let (rows, cols) = size_of((rows, cols))?;
                parser.screen_mut().set_size(rows, cols)?;
            }
            Step::ResizeParser(rows, cols) => {
                let (rows, cols) = size_of((rows, cols))?;
                parser.set_size(rows, cols)?;
            }
            Step::View(rows) => parser.screen_mut().set_scrollback(rows)?,
            Step::GiveUp => parser.screen_mut().clear_scrollback(),
        }
        Ok(())
    }
}

/// Converts a row count and a column count to nonzero integers. Fails if either count is 0.
pub fn size_of((rows, cols): (u16, u16)) -> Result<(NonZeroU16, NonZeroU16), Fail> {
    let rows = NonZeroU16::new(rows).ok_or("no rows")?;
    let cols = NonZeroU16::new(cols).ok_or("no columns")?;
    Ok((rows, cols))
}

/// Creates a parser of the given size with a scrollback of `capacity` rows, and applies `steps` to
/// it.
pub fn taken(
    alloc: Global,
    size: (u16, u16),
    capacity: usize,
    steps: &[Step],
    pieces: Pieces,
) -> Result<Parser<Notes>, Fail> {
    let mut parser = read_keeping(alloc, size, capacity, &[])?;
    for step in steps {
        step.take(&mut parser, pieces)?;
    }
    Ok(parser)
}

/// Returns the length in bytes of the longest input that a step in `steps` parses.
pub fn longest(steps: &[Step]) -> usize {
    let mut longest: usize = 0;
    for step in steps {
        longest = longest.max(step.bytes().len());
    }
    longest
}

/// Feeds bytes to a parser, split according to `pieces`.
pub fn feed<CB: Callbacks>(
    parser: &mut Parser<CB>,
    bytes: &[u8],
    pieces: Pieces,
) -> Result<(), Error> {
    match pieces {
        Pieces::Two(most) => {
            let cut = most.min(bytes.len());
            parser.process(&bytes[..cut])?;
            parser.process(&bytes[cut..])
        }
        Pieces::Single => {
            for piece in bytes.chunks(1) {
                parser.process(piece)?;
            }
            Ok(())
        }
    }
}

/// An example: the size of a new parser, its scrollback capacity, the steps, and the expected
/// observable state after the steps.
pub type Example = ((u16, u16), usize, &'static [Step], &'static str);

/// Checks examples, with the bytes of their steps in two chunks and one by one. Fails if the state
/// after an example's steps is not the expected one. Also fails if, after some prefix of the bytes,
/// a terminal that parses the screen's output does not display the screen.
pub fn expect_each(alloc: Global, examples: &[Example]) -> Result<(), Fail> {
    for (size, capacity, steps, wanted) in examples {
        expect_at_each_cut(alloc, *size, *capacity, steps, wanted)?;
    }
    Ok(())
}

/// Applies `steps` to new parsers, with the bytes in two chunks and one by one. Fails if a parser's
/// state afterward is not `wanted`. Also fails if, after some prefix of the bytes, a terminal that
/// parses the screen's output does not display the screen.
pub fn expect_at_each_cut(
    alloc: Global,
    size: (u16, u16),
    capacity: usize,
    steps: &[Step],
    wanted: &str,
) -> Result<(), Fail> {
    for most in 0..=longest(steps) {
        expect_after(alloc, size, capacity, steps, Pieces::Two(most), wanted)?;
    }
    expect_after(alloc, size, capacity, steps, Pieces::Single, wanted)?;
    expect_read_back_at_each_byte(alloc, size, capacity, steps)
}

/// Applies `steps` to a new parser, with their bytes split according to `pieces`. Fails if the
/// parser's state afterward is not `wanted`.
fn expect_after(
    alloc: Global,
    size: (u16, u16),
    capacity: usize,
    steps: &[Step],
    pieces: Pieces,
    wanted: &str,
) -> Result<(), Fail> {
    let parser = taken(alloc, size, capacity, steps, pieces)?;
    expect(alloc, &parser, steps, wanted)
}

/// Fails if the state of `parser` is not `wanted`. The failure message lists `steps`, the steps
/// that led to that state.
pub fn expect(
    alloc: Global,
    parser: &Parser<Notes>,
    steps: &[Step],
    wanted: &str,
) -> Result<(), Fail> {
    let found = seen(alloc, parser)?;
    if found.as_str() != wanted {
        return Err(Fail::new(format_args!("{steps:?} give {found}and not {wanted}")));
    }
    Ok(())
}

/// Fails if two strings differ.
pub fn expect_text(text: String, wanted: &str) -> Result<(), Fail> {
    if text.as_str() == wanted {
        Ok(())
    } else {
        Err(Fail::new(format_args!("{text:?} and not {wanted:?}")))
    }
}

/// Returns the observable state of a parser: a line for the display, and a line for each callback
/// that was invoked.
fn seen(alloc: Global, parser: &Parser<Notes>) -> Result<String, Fail> {
    let mut text = shown(alloc, parser.screen())?;
    text.push_str(parser.callbacks().lines(alloc)?.as_str())?;
    Ok(text)
}

/// Returns the display of a screen as a line.
///
/// Each row that is not blank is given by its number, a colon and its cells: a dot for a blank,
/// brackets around a wide glyph, and a slash at the end of a wrapped row; trailing blanks are left
/// out. The cursor position follows. All other state appears only if it is not the default: whether
/// the alternate page is active, the number of rows in scrollback and how many of them are
/// displayed, attributes, and modes.
pub fn shown(alloc: Global, screen: &Screen) -> Result<String, Fail> {
    let (rows, _cols) = screen.size();
    let mut text = String::new(alloc);
    for row in 0..rows.get() {
        write_row(&mut text, screen, row)?;
    }
    let (row, col) = screen.cursor_position();
    write!(text, "@{row},{col}")?;
    write_page(&mut text, screen)?;
    write_attributes(&mut text, screen)?;
    write_modes(&mut text, screen)?;
    text.push('\n')?;
    Ok(text)
}

/// Creates a parser of the given size, and feeds the chunks to it.
pub fn read(alloc: Global, size: (u16, u16), pieces: &[&[u8]]) -> Result<Parser<Notes>, Fail> {
    read_keeping(alloc, size, 0, pieces)
}

/// Creates a parser of the given size with a scrollback of `capacity` rows, and feeds the chunks to
/// it.
pub fn read_keeping(
    alloc: Global,
    size: (u16, u16),
    capacity: usize,
    pieces: &[&[u8]],
) -> Result<Parser<Notes>, Fail> {
    let (rows, cols) = size_of(size)?;
    let mut parser = Parser::new_with_callbacks(alloc, rows, cols, capacity, Notes::new(alloc))?;
    for piece in pieces {
        parser.process(piece)?;
    }
    Ok(parser)
}

fn write_row(text: &mut String, screen: &Screen, row: u16) -> Result<(), AllocError> {
    let (_rows, cols) = screen.size();
    let mut next = 0;
    for col in 0..cols.get() {
        let Some(cell) = screen.cell(row, col) else {
            break;
        };
        if !cell.has_contents() && !cell.is_wide_continuation() {
            continue;
        }
        if next == 0 {
            write!(text, "{row}:")?;
        }
        for _ in next..col {
            text.push('.')?;
        }
        next = col + 1;
        write_cell(text, cell)?;
    }
    if screen.row_wrapped(row) {
        text.push('/')?;
    }
    if next > 0 {
        text.push(' ')?;
    }
    Ok(())
}

fn write_cell(text: &mut String, cell: &Cell) -> Result<(), AllocError> {
    if cell.is_wide_continuation() {
        return text.push(']');
    }
    if cell.is_wide() {
        text.push('[')?;
    }
    text.push_str(cell.contents())
}

fn write_page(text: &mut String, screen: &Screen) -> Result<(), AllocError> {
    if screen.alternate_screen() {
        text.push_str(" alternate")?;
    }
    let kept = screen.scrollback_len();
    if kept > 0 {
        write!(text, " kept {kept}")?;
    }
    let in_view = screen.scrollback();
    if in_view > 0 {
        write!(text, " in view {in_view}")?;
    }
    Ok(())
}

fn write_attributes(text: &mut String, screen: &Screen) -> Result<(), AllocError> {
    let foreground = screen.fgcolor();
    if foreground != Color::Default {
        write!(text, " foreground {foreground:?}")?;
    }
    let background = screen.bgcolor();
    if background != Color::Default {
        write!(text, " background {background:?}")?;
    }
    let words = [
        (screen.bold(), " bold"),
        (screen.dim(), " dim"),
        (screen.italic(), " italic"),
        (screen.underline(), " underline"),
        (screen.inverse(), " inverse"),
    ];
    write_words(text, &words)
}

fn write_modes(text: &mut String, screen: &Screen) -> Result<(), AllocError> {
    let words = [
        (screen.hide_cursor(), " hidden"),
        (screen.application_keypad(), " keypad"),
        (screen.application_cursor(), " cursor keys"),
        (screen.bracketed_paste(), " paste"),
    ];
    write_words(text, &words)?;
    let mode = screen.mouse_protocol_mode();
    if mode != MouseProtocolMode::None {
        write!(text, " {mode:?}")?;
    }
    let encoding = screen.mouse_protocol_encoding();
    if encoding != MouseProtocolEncoding::Default {
        write!(text, " {encoding:?}")?;
    }
    let style = screen.cursor_style();
    if style != CursorStyle::Default {
        write!(text, " {style:?}")?;
    }
    Ok(())
}

/// Appends each word whose flag is `true`.
fn write_words(text: &mut String, words: &[(bool, &str)]) -> Result<(), AllocError> {
    for (on, word) in words {
        if *on {
            text.push_str(word)?;
        }
    }
    Ok(())
}

/// Applies `steps` to a new parser, and checks the screen after each byte. Fails if a terminal that
/// parses the output of `state_formatted`, or that of `state_diff` from the screen before the byte,
/// does not have the display and modes of the screen.
pub fn expect_read_back_at_each_byte(
    alloc: Global,
    size: (u16, u16),
    capacity: usize,
    steps: &[Step],
) -> Result<(), Fail> {
    let mut parser = read_keeping(alloc, size, capacity, &[])?;
    for step in steps {
        expect_step_read_back(alloc, &mut parser, *step)?;
    }
    Ok(())
}

fn expect_step_read_back(
    alloc: Global,
    parser: &mut Parser<Notes>,
    step: Step,
) -> Result<(), Fail> {
    for byte in step.bytes().chunks(1) {
        let prev = parser.screen().clone()?;
        parser.process(byte)?;
        expect_screen_read_back(alloc, parser.screen(), &prev)?;
    }
    if step.bytes().is_empty() {
        let prev = parser.screen().clone()?;
        step.take(parser, Pieces::Single)?;
        expect_screen_read_back(alloc, parser.screen(), &prev)?;
    }
    Ok(())
}

fn expect_screen_read_back(alloc: Global, screen: &Screen, prev: &Screen) -> Result<(), Fail> {
    if !is_surely_steady(screen) {
        return Ok(());
    }
    Asked::State.expect_read(alloc, screen)?;
    if !is_surely_steady(prev) || screen.size() != prev.size() {
        return Ok(());
    }
    let text = Change::State.text(screen, prev)?;
    Change::State.expect_read(alloc, screen, prev, text.as_str())
}

/// Returns whether no narrow glyph on the screen contains U+FE0F.
///
/// If so, the screen is steady: every displayed glyph reproduces itself when printed on a blank
/// row. A screen for which the function returns `false` may still be steady.
fn is_surely_steady(screen: &Screen) -> bool {
    let (rows, cols) = screen.size();
    for row in 0..rows.get() {
        for col in 0..cols.get() {
            if let Some(cell) = screen.cell(row, col)
                && !cell.is_wide()
                && cell.contents().contains('\u{fe0f}')
            {
                return false;
            }
        }
    }
    true
}
