//! The screen of a terminal.

ghost use Rattle.std.specs.Prelude.{◌≡◌, ◌<◌, ◌↔◌, IfOk, IfSome, IsSome, None, false, length, true};
ghost use Rattle.std.specs.List.{slice_get};
ghost use Rattle.vt_cells.specs.Attrs.{is_bold, is_dim};
ghost use Rattle.vt_cells.specs.Refusals.{OnlyOutOfMemory};
ghost use Rattle.vt_grid.specs.Page.{SameSize};
ghost use Rattle.vt_rows.specs.Cells.{at};
ghost use Rattle.vt_screen.specs.Capture.{all_rows};
ghost use Rattle.vt_screen.specs.Screen.{IsColored, IsScreen, fresh_screen, visible_row};

mod capture;
mod contents;
pub mod controls;
mod diffs;
mod input;
mod moved;
pub mod pages;
pub mod printing;
mod redraw;
pub mod resizing;
mod row_items;
pub mod scrolling;
mod state;
mod state_with;

use crate::modes::Modes;
use crate::sgr::Setting;
use std::alloc::Global;
use std::marker::Model;
use std::num::NonZeroU16;
use vt_cells::{Attrs, Cell, Color, CursorStyle, Error, MouseProtocolEncoding, MouseProtocolMode};
use vt_grid::{Grid, Scrollback, Size};
use vt_rows::RowContents;
use vt_rows::capture::cell_of;

/// The screen of a terminal: two pages of cells, one of them active, each with
/// its own cursor; scrollback above the main page; the attributes of newly
/// printed text; and the modes that a program has set.
pub struct Screen {
    alloc: Global,
    grid: Grid,
    attrs: Attrs,
    saved_attrs: Attrs,
    hidden: bool,
    modes: Modes,
    last: Option<char>,
    scrollback: Scrollback,
    other: Option<Grid>,
    other_scrollback: Scrollback,
    is_alternate: bool,
}

impl Model for Screen {
    ghost use Rattle.vt_screen.specs.Internals.{IsKept, main_scrollback};
    ghost use Rattle.vt_screen.specs.Screen.{ScreenValue};

    ghost Value = { ScreenValue };

    ghost view = { λ s. record {
      page = s.grid;
      other = s.other;
      is_alternate = s.is_alternate;
      scrollback = main_scrollback s.is_alternate s.scrollback s.other_scrollback;
      attrs = s.attrs;
      saved_attrs = s.saved_attrs;
      hidden = s.hidden;
      modes = s.modes;
      last = s.last;
    } };

    ghost invariant = { λ s. IsKept s.grid s.last
        (record { other = s.other; is_alternate = s.is_alternate; active = s.scrollback; idle = s.other_scrollback }) };
}

// `Drop` is implemented by hand so that dropping is a single call. A derived drop would be taken
// apart field by field in each caller's proof, at each of its exits.
impl Drop for Screen {
    fn drop(self) {
        let Screen {
            alloc: _,
            grid: _,
            attrs: _,
            saved_attrs: _,
            hidden: _,
            modes: _,
            last: _,
            scrollback: _,
            other: _,
            other_scrollback: _,
            is_alternate: _,
        } = self;
    }
}

/// Creates a fresh screen: all cells are default blanks, the cursor is in the
/// top left corner, the attributes are the defaults, and each mode is off or at
/// its default. Its scrollback keeps at most `scrollback_capacity` rows.
///
/// # Errors
///
/// Returns `Error::OutOfMemory` if its rows cannot be allocated.
#[tactic(auto, using(crate::proofs::StepInvariant::kept_blank))]
pub fn new_screen(
    alloc: Global,
    rows: NonZeroU16,
    cols: NonZeroU16,
    scrollback_capacity: usize,
) -> Result<Screen, Error>
    ensures fresh { IfOk result (λ screen. screen ≡ fresh_screen rows.value cols.value scrollback_capacity) }
    ensures memory { OnlyOutOfMemory result }
{
    let size = Size {
        rows: rows.get(),
        cols: cols.get(),
    };
    let grid = Grid::new(alloc, size)?;
    Ok(Screen {
        alloc,
        grid,
        attrs: Attrs::new(),
        saved_attrs: Attrs::new(),
        hidden: false,
        modes: Modes::new(),
        last: None,
        scrollback: Scrollback::new(alloc, scrollback_capacity),
        other: None,
        other_scrollback: Scrollback::new(alloc, 0),
        is_alternate: false,
    })
}

impl Screen {
    /// Returns a copy of the screen, including both pages and scrollback.
    ///
    /// # Errors
    ///
    /// Returns `Error::OutOfMemory` if the copy cannot be allocated.
    pub fn clone(&self) -> Result<Screen, Error>
        ensures ok { IfOk result (λ screen. screen ≡ self.now) }
        ensures memory { OnlyOutOfMemory result }
    {
        Ok(Screen {
            alloc: self.alloc,
            grid: self.grid.try_clone(self.alloc)?,
            attrs: self.attrs,
            saved_attrs: self.saved_attrs,
            hidden: self.hidden,
            modes: self.modes,
            last: self.last,
            scrollback: self.scrollback.try_clone()?,
            other: copied_page(&self.other, self.alloc)?,
            other_scrollback: self.other_scrollback.try_clone()?,
            is_alternate: self.is_alternate,
        })
    }
}

// The getters of a screen.
impl Screen {
    /// Returns the size of the screen in rows and columns.
    ///
    /// The clauses `whole` and `colored` state the invariant of every screen:
    /// both pages have the same size, with their cursors and scroll regions in
    /// bounds; scrollback does not exceed its capacity; the last printed
    /// character, if any, is printable; and palette indices are at most 255.
    pub fn size(&self) -> (NonZeroU16, NonZeroU16)
        ensures whole { IsScreen self.now }
        ensures colored { IsColored self.now }
        ensures rows { result.0.value ≡ length self.now.page.rows }
        ensures cols { result.1.value ≡ self.now.page.width }
    {
        let size = self.grid.size();
        // Only for the proof: this call makes the screen's invariant available.
        self.sound();
        (non_zero(size.rows), non_zero(size.cols))
    }

    /// Returns whether two screens have the same number of rows and the same number of columns.
    /// [`Screen::contents_diff`], [`Screen::contents_diff_scrolling`], [`Screen::state_diff`] and
    /// [`Screen::rows_diff`] require screens of the same size.
    ///
    /// # Examples
    ///
    /// ```text
    /// let update = if screen.is_sized_as(&before) {
    ///     screen.contents_diff(&before)?
    /// } else {
    ///     screen.contents_formatted()?
    /// };
    /// ```
    pub fn is_sized_as(&self, other: &Screen) -> bool
        ensures { result ≡ true ↔ SameSize self.now.page other.now.page }
    {
        self.size() == other.size()
    }

    /// Returns the displayed cell at a zero-based row and column, or `None` if
    /// there is no such cell. A row of scrollback may have more columns than
    /// the screen.
    #[inline]
    pub fn cell(&self, row: u16, col: u16) -> Option<&Cell>
        ensures inside { IsSome result
            ↔ ((row < length self.now.page.rows) × (col < length (visible_row self.now row).cells)) }
        ensures value { IfSome result (λ cell. cell.now ≡ at (visible_row self.now row).cells col) }
    {
        cell_of(&self.visible_row(row)?, usize::from(col))
    }

    /// Returns whether the displayed row at a zero-based index is wrapped,
    /// which means that its text continues on the next row. Returns false if
    /// there is no such row.
    pub fn row_wrapped(&self, row: u16) -> bool
        ensures { result ≡ (visible_row self.now row).wrapped }
    {
        match self.visible_row(row) {
            Some(found) => found.wrapped(),
            None => false,
        }
    }

    /// Returns the displayed row at a zero-based index: a row of scrollback if the display is
    /// scrolled back that far, otherwise a row of the page. Returns `None` if there is no such row.
    #[inline]
    fn visible_row(&self, row: u16) -> Option<RowContents<'_>>
        ensures inside { IsSome result ↔ (row < length self.now.page.rows) }
        ensures value { IfSome result (λ found. found ≡ visible_row self.now row) }
        ensures past { result ≡ None → (visible_row self.now row).wrapped ≡ false }
    {
        self.scrollback.visible_row(self.grid.rows(), row)
    }

    /// Returns the row at `index` among all rows that are kept, whether they are displayed or not:
    /// the rows of scrollback, oldest first, followed by the rows of the page. Returns `None` if
    /// there is no such row. Rows of scrollback have their own widths, without the blanks at their
    /// ends. The display is not scrolled, and its rows are not extended.
    pub fn kept_row(&self, index: usize) -> Option<RowContents<'_>>
        ensures { result ≡ slice_get (all_rows self.now) index }
    {
        if index >= self.scrollback.stacked_len(self.grid.rows()) {
            return None;
        }
        Some(self.scrollback.stacked_row(self.grid.rows(), index))
    }

    /// Returns the cursor's zero-based row and column. If the column equals the
    /// number of columns, a wrap is pending: the next character is printed on
    /// the next row.
    pub fn cursor_position(&self) -> (u16, u16)
        ensures row { result.0 ≡ self.now.page.row }
        ensures column { result.1 ≡ self.now.page.column }
    {
        let pos = self.grid.pos();
        (pos.row, pos.col)
    }

    /// Returns whether the alternate page is active (xterm, DEC private modes
    /// 47 and 1049).
    pub fn alternate_screen(&self) -> bool
        ensures { result ≡ self.now.is_alternate }
    {
        self.is_alternate
    }

    /// Returns whether the keypad sends application sequences (DECKPAM).
    pub fn application_keypad(&self) -> bool
        ensures { result ≡ self.now.modes.application_keypad }
    {
        self.modes.application_keypad
    }

    /// Returns whether the cursor keys send application sequences (DECCKM).
    pub fn application_cursor(&self) -> bool
        ensures { result ≡ self.now.modes.application_cursor }
    {
        self.modes.application_cursor
    }

    /// Returns whether the cursor is hidden (DECTCEM).
    pub fn hide_cursor(&self) -> bool
        ensures { result ≡ self.now.hidden }
    {
        self.hidden
    }

    /// Returns whether pasted text is bracketed (xterm, DEC private mode 2004).
    pub fn bracketed_paste(&self) -> bool
        ensures { result ≡ self.now.modes.bracketed_paste }
    {
        self.modes.bracketed_paste
    }

    /// Returns which mouse events are reported (xterm, DEC private modes 9,
    /// 1000, 1002 and 1003).
    pub fn mouse_protocol_mode(&self) -> MouseProtocolMode
        ensures { result ≡ self.now.modes.mouse_mode }
    {
        self.modes.mouse_mode
    }

    /// Returns the encoding of mouse events (xterm, DEC private modes 1005 and
    /// 1006).
    pub fn mouse_protocol_encoding(&self) -> MouseProtocolEncoding
        ensures { result ≡ self.now.modes.mouse_encoding }
    {
        self.modes.mouse_encoding
    }

    /// Returns the cursor style (DECSCUSR).
    pub fn cursor_style(&self) -> CursorStyle
        ensures { result ≡ self.now.modes.cursor_style }
    {
        self.modes.cursor_style
    }

    /// Returns the foreground color of newly printed text (ECMA-48, SGR).
    pub fn fgcolor(&self) -> Color
        ensures { result ≡ self.now.attrs.fgcolor }
    {
        self.attrs.fgcolor()
    }

    /// Returns the background color of newly printed text (ECMA-48, SGR).
    pub fn bgcolor(&self) -> Color
        ensures { result ≡ self.now.attrs.bgcolor }
    {
        self.attrs.bgcolor()
    }

    /// Returns whether newly printed text is bold.
    pub fn bold(&self) -> bool
        ensures { result ≡ is_bold self.now.attrs }
    {
        self.attrs.bold()
    }

    /// Returns whether newly printed text is dim.
    pub fn dim(&self) -> bool
        ensures { result ≡ is_dim self.now.attrs }
    {
        self.attrs.dim()
    }

    /// Returns whether newly printed text is italic.
    pub fn italic(&self) -> bool
        ensures { result ≡ self.now.attrs.italic }
    {
        self.attrs.italic()
    }

    /// Returns whether newly printed text is underlined.
    pub fn underline(&self) -> bool
        ensures { result ≡ self.now.attrs.underline }
    {
        self.attrs.underline()
    }

    /// Returns whether newly printed text is inverse (with foreground and
    /// background exchanged).
    pub fn inverse(&self) -> bool
        ensures { result ≡ self.now.attrs.inverse }
    {
        self.attrs.inverse()
    }
}

impl Screen {
    /// Returns the attributes of newly printed text.
    fn attrs(&self) -> Attrs
        ensures { result ≡ self.now.attrs }
    {
        self.attrs
    }
}

/// Returns a copy of `page`, or `None` if `page` is `None`.
///
/// # Errors
///
/// Returns `Error::OutOfMemory` if the copy cannot be allocated.
fn copied_page(page: &Option<Grid>, alloc: Global) -> Result<Option<Grid>, Error>
    ensures ok { IfOk result (λ copy. copy ≡ page.now) }
    ensures memory { OnlyOutOfMemory result }
{
    match page {
        Some(page) => Ok(Some(page.try_clone(alloc)?)),
        None => Ok(None),
    }
}

/// Converts a positive number to a `NonZeroU16`.
fn non_zero(number: u16) -> NonZeroU16
    requires { 0 < number }
    ensures { result.value ≡ number }
{
    NonZeroU16::new(number).unwrap()
}
