//! Calls that may allocate, and their results.

use crate::tally::Tally;
use std::alloc::Global;
use std::fmt;
use std::num::NonZeroU16;
use vt100::capture::{BasicFormattedCaptureRange, BasicFormattedCaptureState};
use vt100::{DiffOptions, Error, Parser, RedrawOptions, Repeat, Screen};

/// The options of diffs that may move rows or columns first and may contain REP.
pub const BOTH: DiffOptions = DiffOptions {
    scroll: true,
    repeat: Repeat::Any,
    portable: false,
};

/// The options of portable diffs that may contain REP.
pub const PORTABLE: DiffOptions = DiffOptions {
    scroll: false,
    repeat: Repeat::Any,
    portable: true,
};

/// A call on a parser or on its screen.
#[derive(Clone, Copy)]
pub enum Step {
    /// Calls `process` with the given bytes.
    Process(&'static [u8]),

    /// Calls `contents_formatted` on the screen.
    Redraw,

    /// Calls `contents_formatted_reset` on the screen.
    Reset,

    /// Calls `cursor_state_formatted` on the screen.
    Cursor,

    /// Calls `attributes_formatted` on the screen.
    Attributes,

    /// Calls `state_formatted` on the screen.
    State,

    /// Calls `state_formatted_with` on the screen, for portable output.
    PortableState,

    /// Calls `input_mode_formatted` on the screen.
    Modes,

    /// Calls `contents` on the screen.
    Contents,

    /// Calls `contents_between` on the screen, from the top left corner to the fifth column of the
    /// second row.
    Range,

    /// Takes the item of the given row from the screen's iterator `rows`, whether or not the items
    /// before it are errors.
    Row(u16),

    /// Calls `contents_formatted_basic` on the screen.
    Basic,

    /// Calls `write_contents_formatted_basic` for all rows of the screen, with a `String` as the
    /// sink.
    Capture,

    /// Takes each item of the screen's iterator `rows_formatted` over all columns, and calls `next`
    /// once more after the last item.
    Rows,

    /// Calls `set_scrollback` on the screen with the given number of rows.
    SetScrollback(usize),

    /// Calls `set_size` on the parser with the given number of rows and columns.
    SetSize(u16, u16),

    /// Calls `set_size` on the screen with the given number of rows and columns.
    SetScreenSize(u16, u16),
}

/// Converts a row count and a column count to nonzero integers, replacing 0 with 1.
pub fn size((rows, cols): (u16, u16)) -> (NonZeroU16, NonZeroU16) {
    let rows = NonZeroU16::new(rows.max(1)).unwrap();
    let cols = NonZeroU16::new(cols.max(1)).unwrap();
    (rows, cols)
}

impl Step {
    /// Makes the call on `parser` or its screen, and returns its result.
    pub fn make(self, alloc: Global, parser: &mut Parser<Tally>) -> Answer {
        match self {
            Step::Process(bytes) => done(parser.process(bytes)),
            Step::Rows => formatted_rows(parser.screen()),
            Step::SetScrollback(rows) => done(parser.screen_mut().set_scrollback(rows)),
            Step::SetSize(rows, cols) => {
                let (rows, cols) = size((rows, cols));
                done(parser.set_size(rows, cols))
            }
            Step::SetScreenSize(rows, cols) => {
                let (rows, cols) = size((rows, cols));
                done(parser.screen_mut().set_size(rows, cols))
            }
            _ => self.text(alloc, parser.screen()),
        }
    }

    /// Makes a call that returns output of the screen.
    fn text(self, alloc: Global, screen: &Screen) -> Answer {
        match self {
            Step::Redraw => answer_of(screen.contents_formatted()),
            Step::Reset => answer_of(screen.contents_formatted_reset()),
            Step::Cursor => answer_of(screen.cursor_state_formatted()),
            Step::Attributes => answer_of(screen.attributes_formatted()),
            Step::State => answer_of(screen.state_formatted()),
            Step::PortableState => {
                answer_of(screen.state_formatted_with(RedrawOptions { portable: true }))
            }
            Step::Modes => answer_of(screen.input_mode_formatted()),
            Step::Contents => answer_of(screen.contents()),
            Step::Range => answer_of(screen.contents_between(0, 0, 1, 4)),
            Step::Row(row) => row_text(screen, row),
            Step::Basic => answer_of(screen.contents_formatted_basic()),
            Step::Capture => captured(alloc, screen),
            _ => Answer::NoText,
        }
    }
}

/// Converts the result of a call that returns no value to an [`Answer`].
fn done(made: Result<(), Error>) -> Answer {
    match made {
        Ok(()) => Answer::Done,
        Err(error) => Answer::Refused(error),
    }
}

/// Converts the result of a call that returns a string to an [`Answer`].
fn answer_of(made: Result<String, Error>) -> Answer {
    match made {
        Ok(text) => Answer::Text(text),
        Err(error) => Answer::Refused(error),
    }
}

/// Returns the result of taking the item of row `row` from the screen's iterator `rows`.
fn row_text(screen: &Screen, row: u16) -> Answer {
    let mut rows = screen.rows(0, u16::MAX);
    for _ in 0..row {
        let _before = rows.next();
    }
    match rows.next() {
        Some(text) => answer_of(text),
        None => Answer::NoText,
    }
}

/// Writes the basic text of all rows into a `String`, and returns the result.
fn captured(alloc: Global, screen: &Screen) -> Answer {
    let mut text = String::new(alloc);
    let mut state = BasicFormattedCaptureState::new();
    let range = BasicFormattedCaptureRange::Full(&mut state);
    match screen.write_contents_formatted_basic(&mut text, range) {
        Ok(()) => Answer::Text(text),
        Err(_) => Answer::Refused(Error::OutOfMemory),
    }
}

/// A kind of diff between two screens.
#[derive(Clone, Copy)]
pub enum Change {
    /// The output of `contents_diff`.
    Picture,

    /// The output of `contents_diff_scrolling`.
    Scrolling,

    /// The output of `contents_diff_with` with both options.
    Repeating,

    /// The output of `state_diff`.
    State,

    /// The output of `state_diff_with` in the portable form, with REP.
    PortableState,

    /// The output of `input_mode_diff`.
    Modes,

    /// The items of the iterator `rows_diff` over all columns, and the result of one more call to
    /// `next` after the last item.
    Rows,
}

impl Change {
    /// Generates the diff of this kind from `prev` to `screen`. Returns the result, or
    /// [`Answer::TwoSizes`] if the screens differ in size.
    pub fn make(self, screen: &Screen, prev: &Screen) -> Answer {
        if !screen.is_sized_as(prev) {
            return Answer::TwoSizes;
        }
        match self {
            Change::Picture => answer_of(screen.contents_diff(prev)),
            Change::Scrolling => answer_of(screen.contents_diff_scrolling(prev)),
            Change::Repeating => answer_of(screen.contents_diff_with(prev, BOTH)),
            Change::State => answer_of(screen.state_diff(prev)),
            Change::PortableState => answer_of(screen.state_diff_with(prev, PORTABLE)),
            Change::Modes => answer_of(screen.input_mode_diff(prev)),
            Change::Rows => {
                let (_rows, _cols) = screen.size();
                let mut rows = screen.rows_diff(prev, 0, u16::MAX);
                Answer::Rows(Items {
                    first: rows.next(),
                    second: rows.next(),
                    third: rows.next(),
                })
            }
        }
    }
}

/// Takes three items from `rows_formatted` over all columns, and returns them.
fn formatted_rows(screen: &Screen) -> Answer {
    let (_rows, _cols) = screen.size();
    let mut rows = screen.rows_formatted(0, u16::MAX);
    Answer::Rows(Items {
        first: rows.next(),
        second: rows.next(),
        third: rows.next(),
    })
}

/// The items of an iterator over two rows, and the result of `next` after the last row.
#[derive(Drop)]
pub struct Items {
    first: Option<Result<String, Error>>,
    second: Option<Result<String, Error>>,
    third: Option<Result<String, Error>>,
}

impl Items {
    fn has_refusal(&self) -> bool {
        matches!(self.first, Some(Err(_)))
            || matches!(self.second, Some(Err(_)))
            || matches!(self.third, Some(Err(_)))
    }
}

impl fmt::Display for Items {
    fn fmt<W: fmt::Write>(&self, f: &mut fmt::Formatter<W>) -> fmt::Result {
        write_item(f, &self.first)?;
        write!(f, ", ")?;
        write_item(f, &self.second)?;
        write!(f, ", ")?;
        write_item(f, &self.third)
    }
}

/// Writes an item of an iterator over rows, or a word for `None`.
fn write_item<W: fmt::Write>(
    f: &mut fmt::Formatter<W>,
    item: &Option<Result<String, Error>>,
) -> fmt::Result {
    match item {
        None => write!(f, "none"),
        Some(Ok(text)) => write!(f, "{} bytes {}", text.len(), text.as_bytes().escape_ascii()),
        Some(Err(_)) => write!(f, "refused"),
    }
}

impl fmt::Display for Step {
    fn fmt<W: fmt::Write>(&self, f: &mut fmt::Formatter<W>) -> fmt::Result {
        match self {
            Step::Process(bytes) => write!(f, "process {}", bytes.escape_ascii()),
            Step::Redraw => write!(f, "redraw"),
            Step::Reset => write!(f, "reset"),
            Step::Cursor => write!(f, "cursor"),
            Step::Attributes => write!(f, "attributes"),
            Step::State => write!(f, "state"),
            Step::PortableState => write!(f, "portable state"),
            Step::Modes => write!(f, "modes"),
            Step::Contents => write!(f, "contents"),
            Step::Range => write!(f, "range"),
            Step::Row(row) => write!(f, "row {row}"),
            Step::Basic => write!(f, "basic"),
            Step::Capture => write!(f, "capture"),
            Step::Rows => write!(f, "rows"),
            Step::SetScrollback(rows) => write!(f, "set_scrollback {rows}"),
            Step::SetSize(rows, cols) => write!(f, "set_size {rows} {cols}"),
            Step::SetScreenSize(rows, cols) => write!(f, "screen set_size {rows} {cols}"),
        }
    }
}

/// The result of a call on a parser or its screen.
#[derive(Drop)]
pub enum Answer {
    /// The call succeeded.
    Done,

    /// The string that the call returned.
    Text(String),

    /// The items of an iterator over rows.
    Rows(Items),

    /// An allocation failed, in this call or in an earlier call.
    Refused(Error),

    /// No output, because the screens differ in size.
    TwoSizes,

    /// No output, because there is no such row.
    NoText,
}

impl Answer {
    /// Returns whether an allocation failed in the call, including the calls that take items from
    /// its iterator.
    pub fn is_refusal(&self) -> bool {
        match self {
            Answer::Refused(Error::OutOfMemory) => true,
            Answer::Rows(items) => items.has_refusal(),
            _ => false,
        }
    }
}

impl fmt::Display for Answer {
    fn fmt<W: fmt::Write>(&self, f: &mut fmt::Formatter<W>) -> fmt::Result {
        match self {
            Answer::Done => write!(f, "ok"),
            Answer::Text(text) => {
                let bytes = text.as_bytes();
                write!(f, "ok, {} bytes {}", bytes.len(), bytes.escape_ascii())
            }
            Answer::Rows(items) => write!(f, "{items}"),
            Answer::Refused(Error::OutOfMemory) => write!(f, "refused"),
            Answer::Refused(Error::Failed) => write!(f, "failed"),
            Answer::Refused(Error::NoNumber) => write!(f, "no number"),
            Answer::TwoSizes => write!(f, "two sizes"),
            Answer::NoText => write!(f, "no text"),
        }
    }
}
