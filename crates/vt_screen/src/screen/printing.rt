//! Functions that print a single character, or a run of characters in a single edit of a row.

ghost use Rattle.std.specs.Prelude.{◌≡◌, ◌≢◌, ◌+◌, ◌-◌, ◌*◌, ◌<◌, ◌≤◌, IfSome, OnErr, OnOk, Some, length};
ghost use Rattle.vt_cells.specs.Glyph.{columns_of};
ghost use Rattle.vt_cells.specs.Refusals.{OnlyOutOfMemory};
ghost use Rattle.vt_rows.specs.Texts.{IsNarrowText, IsPrintableAscii, IsWideText};
ghost use Rattle.vt_screen.specs.Run.{Refuses, Takes, state};
ghost use Rattle.vt_screen.specs.Screen.{IsPrintable};
ghost use Rattle.vt_screen.specs.Steps as step;
ghost use Rattle.vt_screen.specs.Texts.{screen_after_text};

use super::Screen;
use crate::callbacks::Callbacks;
use crate::reporter::Reporter;
use vt_cells::{Error, columns};

/// Prints a character.
///
/// A character that is one or two columns wide becomes a glyph with the current attributes, after a
/// wrap if the row has no room for it. A combining character is appended to the glyph before the
/// cursor. A control, or a character wider than the screen, draws nothing. U+FFFD, which replaces
/// malformed UTF-8, must not be printed.
///
/// A wrap on the bottom row may scroll a row off the page, as a line feed does (see
/// [`super::scrolling::lf`]).
///
/// # Errors
///
/// Returns `Error::OutOfMemory` if there is not enough memory to keep a row that scrolls off the
/// top. On error, the screen is unchanged.
#[inline(always)]
pub fn text<CB: Callbacks>(screen: &mut Screen, callbacks: &mut CB, c: char) -> Result<(), Error>
    requires { c ≢ 0xFFFD }
    ensures done { OnOk result
        (Takes CB.does (state callbacks.old screen.old) (step.Print c) (state callbacks.new screen.new)) }
    ensures refused { OnErr result
        (Refuses (state callbacks.old screen.old) (step.Print c) (state callbacks.new screen.new)) }
    ensures memory { OnlyOutOfMemory result }
{
    let width = columns(c);
    let last = last_after(screen, c, width);
    let mut reporter = Reporter {
        callbacks,
        alternate: screen.is_alternate,
    };
    screen.grid.print_columns(
        c,
        width,
        screen.attrs,
        &mut screen.scrollback,
        &mut reporter,
    )?;
    screen.last = last;
    Ok(())
}

/// Returns the character that REP repeats after `c` has been printed, or `None` if there is no such
/// character. `width` is the number of columns of `c`, or `None` if `c` is a control.
#[inline(always)]
fn last_after(screen: &Screen, c: char, width: Option<u8>) -> Option<char>
    requires sound { c ≢ 0xFFFD }
    requires columns { width ≡ columns_of c }
    ensures value { result ≡ step.last_after c screen.now }
    ensures printable { IfSome result IsPrintable }
{
    let Some(columns) = width else {
        return screen.last;
    };
    if columns == 0 || u16::from(columns) > screen.grid.size().cols {
        return screen.last;
    }
    Some(c)
}

/// Returns the number of columns from the cursor to the end of its row, which
/// is the number of narrow characters that can be printed before a wrap.
#[inline]
pub fn room(screen: &Screen) -> u16
    ensures { result ≡ screen.now.page.width - screen.now.page.column }
{
    screen.grid.room()
}

/// Prints a run of printable ASCII in a single edit of the row, with the same effect as calling
/// [`text`] for each character. The run must not be empty and must fit on the cursor's row. No row
/// scrolls off the page, and no callback is invoked.
#[inline]
pub fn print_text(screen: &mut Screen, text: &[u8])
    requires nonempty { 0 < length text.now }
    requires room { screen.old.page.column + length text.now ≤ screen.old.page.width }
    requires printable { IsPrintableAscii text.now }
    ensures { screen.new ≡ screen_after_text text.now screen.old }
{
    screen.grid.print_text(text, screen.attrs);
    screen.last = Some(char::from(text[text.len() - 1]));
}

/// Prints a run of one-column characters in a single edit of the row, with the same effect as
/// calling [`text`] for each character. The run must not be empty and must fit on the cursor's row.
/// No row scrolls off the page, and no callback is invoked.
#[inline]
pub fn print_narrow_text(screen: &mut Screen, text: &[char])
    requires nonempty { 0 < length text.now }
    requires room { screen.old.page.column + length text.now ≤ screen.old.page.width }
    requires narrow { IsNarrowText text.now }
    ensures { screen.new ≡ screen_after_text text.now screen.old }
{
    screen.grid.print_narrow_text(text, screen.attrs);
    screen.last = Some(text[text.len() - 1]);
}

/// Prints a run of two-column characters in a single edit of the row, with the same effect as
/// calling [`text`] for each character. The run must not be empty and must fit on the cursor's row.
/// No row scrolls off the page, and no callback is invoked.
#[inline]
pub fn print_wide_text(screen: &mut Screen, text: &[char])
    requires nonempty { 0 < length text.now }
    requires room { screen.old.page.column + 2 * length text.now ≤ screen.old.page.width }
    requires wide { IsWideText text.now }
    ensures { screen.new ≡ screen_after_text text.now screen.old }
{
    let last = text[text.len() - 1];
    screen.grid.print_wide_text(text, screen.attrs);
    screen.last = Some(last);
}

/// Returns the last printed character that took up columns, which is the character that REP
/// (ECMA-48) repeats. Returns `None` if no such character has been printed since the screen was
/// created or reset (RIS).
pub fn last_char(screen: &Screen) -> Option<char>
    ensures value { result ≡ screen.now.last }
    ensures reported { result ≢ Some 0xFFFD }
{
    screen.last
}
