//! Checks of a screen's output on a terminal that displays something else.

use crate::examples::{Pieces, feed, read_keeping};
use std::alloc::Global;
use std::test::Fail;
use vt100::{Color, DiffOptions, Error, RedrawOptions, Screen};

/// A part of a screen's state, in which two screens of the same size can agree or differ.
#[derive(Clone, Copy, PartialEq, Eq, Debug)]
pub enum Part {
    /// The cells with their attributes.
    Cells,

    /// The wrapped flags of the rows.
    Flags,

    /// The cursor position, and whether the cursor is hidden.
    Cursor,

    /// The current attributes.
    Attributes,

    /// The input modes and the cursor style.
    Modes,
}

/// The parts of the state that make up the display.
pub const PICTURE: [Part; 4] = [Part::Cells, Part::Flags, Part::Cursor, Part::Attributes];

/// The parts of the state that make up the display, followed by the modes.
pub const PARTS: [Part; 5] = [
    Part::Cells,
    Part::Flags,
    Part::Cursor,
    Part::Attributes,
    Part::Modes,
];

impl Part {
    /// Returns whether two screens of the same size agree in this part of the state.
    pub fn is_same(self, one: &Screen, other: &Screen) -> bool {
        match self {
            Part::Cells => have_same_cells(one, other, one.size().0.get()),
            Part::Flags => have_same_flags(one, other),
            Part::Cursor => {
                one.cursor_position() == other.cursor_position()
                    && one.hide_cursor() == other.hide_cursor()
            }
            Part::Attributes => attributes(one) == attributes(other),
            Part::Modes => have_same_modes(one, other),
        }
    }
}

/// Returns whether the first `rows` rows of two screens have the same cells.
pub fn have_same_cells(one: &Screen, other: &Screen, rows: u16) -> bool {
    let (_rows, cols) = one.size();
    for row in 0..rows {
        for col in 0..cols.get() {
            if one.cell(row, col) != other.cell(row, col) {
                return false;
            }
        }
    }
    true
}

/// Returns whether two screens have the same wrapped flags, except for the last row. The flag of
/// the last row matters only while scrollback is displayed, and is not part of the display.
fn have_same_flags(one: &Screen, other: &Screen) -> bool {
    let (rows, _cols) = one.size();
    for row in 0..rows.get().saturating_sub(1) {
        if one.row_wrapped(row) != other.row_wrapped(row) {
            return false;
        }
    }
    true
}

fn attributes(screen: &Screen) -> (Color, Color, [bool; 5]) {
    let switches = [
        screen.bold(),
        screen.dim(),
        screen.italic(),
        screen.underline(),
        screen.inverse(),
    ];
    (screen.fgcolor(), screen.bgcolor(), switches)
}

fn have_same_modes(one: &Screen, other: &Screen) -> bool {
    switched_modes(one) == switched_modes(other)
        && one.mouse_protocol_mode() == other.mouse_protocol_mode()
        && one.mouse_protocol_encoding() == other.mouse_protocol_encoding()
        && one.cursor_style() == other.cursor_style()
}

fn switched_modes(screen: &Screen) -> [bool; 3] {
    [
        screen.application_keypad(),
        screen.application_cursor(),
        screen.bracketed_paste(),
    ]
}

/// Input that makes a terminal busy: wide glyphs in color everywhere, rows in scrollback, a hidden
/// cursor, attributes other than the defaults, application keypad, application cursor keys, and
/// bracketed paste. The effect of a screen's output must not depend on any of this state.
const BUSY: &[u8] =
    b"\x1b[7;32mfgh\xe4\xb8\xadij\x1b[2S\x1b[1mklm\xe4\xb8\xadnopqr\x1b[?25l\x1b=\x1b[?1;2004h";

/// The ways in which the output is split when a terminal parses it: not at all, and into single
/// bytes.
const READ: [Pieces; 2] = [Pieces::Two(usize::MAX), Pieces::Single];

/// A kind of output of a screen.
#[derive(Clone, Copy, Debug)]
pub enum Asked {
    /// The output of `contents_formatted`.
    Redraw,

    /// The output of `contents_formatted_with` in the portable form.
    Portable,

    /// The output of `cursor_state_formatted`.
    Cursor,

    /// The output of `attributes_formatted`.
    Attributes,

    /// The output of `state_formatted`.
    State,

    /// The output of `state_formatted_with` in the portable form.
    PortableState,

    /// The output of `input_mode_formatted`.
    Modes,

    /// The output of `contents_formatted_reset`, for a terminal that has a scroll region and is in
    /// origin mode.
    Reset,

    /// The output of `contents_formatted_reset`, for a terminal that displays its alternate page,
    /// has a scroll region and is in origin mode.
    ResetOnAlternate,
}

/// All kinds of output of a screen.
pub const ASKED: [Asked; 9] = [
    Asked::Redraw,
    Asked::Portable,
    Asked::Cursor,
    Asked::Attributes,
    Asked::State,
    Asked::PortableState,
    Asked::Modes,
    Asked::Reset,
    Asked::ResetOnAlternate,
];

impl Asked {
    /// Returns the output of this kind for `screen`.
    pub fn text(self, screen: &Screen) -> Result<String, Error> {
        match self {
            Asked::Redraw => screen.contents_formatted(),
            Asked::Portable => { screen.contents_formatted_with(RedrawOptions { portable: true }) }
            Asked::Cursor => screen.cursor_state_formatted(),
            Asked::Attributes => screen.attributes_formatted(),
            Asked::State => screen.state_formatted(),
            Asked::PortableState => {
                screen.state_formatted_with(RedrawOptions { portable: true })
            }
            Asked::Modes => screen.input_mode_formatted(),
            Asked::Reset | Asked::ResetOnAlternate => screen.contents_formatted_reset(),
        }
    }

    /// Feeds the output of this kind for `screen` to a terminal. Fails if, afterward, the terminal
    /// does not agree with the screen in the parts that the output sets, has changed in a different
    /// part, or has invoked a callback.
    pub fn expect_read(self, alloc: Global, screen: &Screen) -> Result<(), Fail> {
        let text = self.text(screen)?;
        let before = self.read_before(alloc, screen)?;
        for pieces in &READ {
            let bytes = (before.as_bytes(), text.as_bytes());
            expect_taken(alloc, screen, bytes, *pieces, self.taken())?;
        }
        Ok(())
    }

    /// Returns the input that the terminal parses before the output. If the output only sets the
    /// cursor, the input is a redraw. If the output is for terminals with any scroll region, the
    /// input sets a scroll region of two rows and origin mode.
    fn read_before(self, alloc: Global, screen: &Screen) -> Result<String, Error> {
        let mut text = String::new(alloc);
        match self {
            Asked::Cursor => {
                text = screen.contents_formatted()?;
                text.push_str("\x1b[m\x1b[?25l")?;
            }
            Asked::Reset => text.push_str("\x1b[2;3r\x1b[?6h")?,
            Asked::ResetOnAlternate => text.push_str("\x1b[?47hz\x1b[2;3r\x1b[?6h")?,
            _ => {}
        }
        Ok(text)
    }

    /// Returns the parts of the state that this kind of output sets. A terminal that parses the
    /// output agrees with the screen in these parts, and is unchanged in all others.
    fn taken(self) -> &'static [Part] {
        match self {
            Asked::Redraw | Asked::Portable | Asked::Reset | Asked::ResetOnAlternate => &PICTURE,
            Asked::Cursor => &[Part::Cells, Part::Flags, Part::Cursor],
            Asked::Attributes => &[Part::Attributes],
            Asked::State | Asked::PortableState => &PARTS,
            Asked::Modes => &[Part::Modes],
        }
    }
}

/// A kind of diff between two screens.
#[derive(Clone, Copy, Debug)]
pub enum Change {
    /// The output of `contents_diff`.
    Picture,

    /// The output of `contents_diff_scrolling`.
    Scrolling,

    /// The output of `contents_diff_with` with these options.
    With(DiffOptions),

    /// The output of `state_diff`.
    State,

    /// The output of `state_diff_with` with these options.
    StateWith(DiffOptions),

    /// The output of `input_mode_diff`.
    Modes,
}

impl Change {
    /// Returns the diff of this kind from `prev` to `screen`. Fails if the two screens differ in
    /// size.
    pub fn text(self, screen: &Screen, prev: &Screen) -> Result<String, Fail> {
        let (rows, cols) = screen.size();
        let (other_rows, other_cols) = prev.size();
        if rows.get() != other_rows.get() || cols.get() != other_cols.get() {
            return Err(Fail::new("screens of two sizes"));
        }
        let text = match self {
            Change::Picture => screen.contents_diff(prev),
            Change::Scrolling => screen.contents_diff_scrolling(prev),
            Change::With(options) => screen.contents_diff_with(prev, options),
            Change::State => screen.state_diff(prev),
            Change::StateWith(options) => screen.state_diff_with(prev, options),
            Change::Modes => screen.input_mode_diff(prev),
        };
        Ok(text?)
    }

    /// Feeds the diff `text` to a terminal with the display and modes of `prev`. Fails if,
    /// afterward, the terminal does not agree with `screen` in the parts that the diff sets, has
    /// changed in a different part, or has invoked a callback.
    pub fn expect_read(
        self,
        alloc: Global,
        screen: &Screen,
        prev: &Screen,
        text: &str,
    ) -> Result<(), Fail> {
        let before = prev.state_formatted()?;
        for pieces in &READ {
            let bytes = (before.as_bytes(), text.as_bytes());
            expect_taken(alloc, screen, bytes, *pieces, self.taken())?;
        }
        Ok(())
    }

    /// Returns the parts of the state that this kind of output sets. A terminal that parses the
    /// output agrees with the screen in these parts, and is unchanged in all others.
    fn taken(self) -> &'static [Part] {
        match self {
            Change::Picture | Change::Scrolling | Change::With(_) => &PICTURE,
            Change::State | Change::StateWith(_) => &PARTS,
            Change::Modes => &[Part::Modes],
        }
    }
}

/// Feeds [`BUSY`] and `before` to a terminal, and then `text` in chunks. Fails if `text` invokes a
/// callback, or if the terminal afterward differs from the screen in one of the parts `parts` or
/// has changed in any other part, including scrollback.
fn expect_taken(
    alloc: Global,
    screen: &Screen,
    (before, text): (&[u8], &[u8]),
    pieces: Pieces,
    parts: &[Part],
) -> Result<(), Fail> {
    let (rows, cols) = screen.size();
    let mut reader = read_keeping(alloc, (rows.get(), cols.get()), 100, &[BUSY, before])?;
    let mut before = reader.screen().clone()?;
    let calls = reader.callbacks().calls().len();
    feed(&mut reader, text, pieces)?;
    if reader.callbacks().calls().len() != calls {
        return Err(Fail::new(format_args!("{} calls a function", text.escape_ascii())));
    }
    expect_parts(reader.screen(), screen, &before, parts, text)?;
    expect_same_scrollback(reader.screen_mut(), &mut before, text)
}

/// Fails if the terminal `reader` differs from `screen` in one of the parts `parts`, or from its
/// earlier state `before` in any other part.
fn expect_parts(
    reader: &Screen,
    screen: &Screen,
    before: &Screen,
    parts: &[Part],
    text: &[u8],
) -> Result<(), Fail> {
    for part in &PARTS {
        let wanted = if parts.contains(part) { screen } else { before };
        if !part.is_same(reader, wanted) {
            return Err(Fail::new(format_args!("{}: other {part:?}", text.escape_ascii())));
        }
    }
    Ok(())
}

/// Fails if the scrollback of the terminal `reader` differs from that of its earlier state
/// `before`.
fn expect_same_scrollback(
    reader: &mut Screen,
    before: &mut Screen,
    text: &[u8],
) -> Result<(), Fail> {
    let kept = reader.scrollback_len();
    let was_in_view = reader.scrollback();
    reader.set_scrollback(kept)?;
    before.set_scrollback(kept)?;
    let rows = u16::try_from(kept)
        .unwrap_or(u16::MAX)
        .min(reader.size().0.get());
    if kept != before.scrollback_len()
        || was_in_view != 0
        || !have_same_cells(reader, before, rows)
    {
        return Err(Fail::new(format_args!("{}: other scrollback", text.escape_ascii())));
    }
    Ok(())
}
