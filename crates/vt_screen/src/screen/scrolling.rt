//! Control functions that may scroll rows off the page, and access to
//! scrollback.

ghost use Rattle.std.specs.Prelude.{◌≡◌, IsErr, OnErr, OnOk, false, length};
ghost use Rattle.vt_cells.specs.Refusals.{OnlyOutOfMemory};
ghost use Rattle.vt_grid.specs.Scrollback.{ViewTakesMemory};
ghost use Rattle.vt_screen.specs.Run.{Refuses, Takes, state};
ghost use Rattle.vt_screen.specs.Screen.{above_page, scrolled_back};
ghost use Rattle.vt_screen.specs.Steps as step;
ghost use Rattle.vt_screen.specs.Steps.{screen_after};

use super::Screen;
use crate::callbacks::Callbacks;
use crate::reporter::Reporter;
use vt_cells::Error;

/// Moves the cursor down by one row, keeping its column (LF, VT, FF). If the
/// cursor is at the bottom of the scroll region, the region scrolls up instead.
///
/// A row that scrolls off the top of the page moves into scrollback. Each row
/// that is not kept there is reported to the callbacks.
///
/// # Errors
///
/// Returns `Error::OutOfMemory` if there is not enough memory to keep the row.
/// On error, the screen is unchanged and no callbacks are invoked.
#[inline]
pub fn lf<CB: Callbacks>(screen: &mut Screen, callbacks: &mut CB) -> Result<(), Error>
    ensures done { OnOk result
        (Takes CB.does (state callbacks.old screen.old) step.LineFeed (state callbacks.new screen.new)) }
    ensures refused { OnErr result
        (Refuses (state callbacks.old screen.old) step.LineFeed (state callbacks.new screen.new)) }
    ensures memory { OnlyOutOfMemory result }
{
    let mut reporter = Reporter {
        callbacks,
        alternate: screen.is_alternate,
    };
    screen
        .grid
        .line_feed(&mut screen.scrollback, &mut reporter)?;
    Ok(())
}

/// Scrolls the scroll region up by `count` rows and fills its bottom with
/// default blank rows (SU). Rows that scroll off the page are kept or reported,
/// as with [`lf`].
///
/// # Errors
///
/// Returns `Error::OutOfMemory` if there is not enough memory to keep the rows.
/// On error, the screen is unchanged and no callbacks are invoked.
pub fn su<CB: Callbacks>(screen: &mut Screen, callbacks: &mut CB, count: u16) -> Result<(), Error>
    ensures done { OnOk result
        (Takes CB.does (state callbacks.old screen.old) (step.ScrollUp count) (state callbacks.new screen.new)) }
    ensures refused { OnErr result
        (Refuses (state callbacks.old screen.old) (step.ScrollUp count) (state callbacks.new screen.new)) }
    ensures memory { OnlyOutOfMemory result }
{
    let mut reporter = Reporter {
        callbacks,
        alternate: screen.is_alternate,
    };
    screen
        .grid
        .scroll_up(count, &mut screen.scrollback, &mut reporter)?;
    Ok(())
}

/// Erases scrollback and reports each of its rows to the callbacks, oldest
/// first (xterm, ED 3).
pub fn erase_scrollback<CB: Callbacks>(screen: &mut Screen, callbacks: &mut CB)
    ensures { Takes CB.does (state callbacks.old screen.old) step.EraseScrollback (state callbacks.new screen.new) }
{
    let mut reporter = Reporter {
        callbacks,
        alternate: screen.is_alternate,
    };
    screen.scrollback.clear(&mut reporter);
}

impl Screen {
    /// Sets the scrollback offset, which is the number of rows by which the display is scrolled
    /// back. `rows` is clamped to the number of rows in scrollback. If it is 0, only the page is
    /// displayed.
    ///
    /// The display may be scrolled back by more rows than the screen has. In
    /// that case, the display begins that many rows above the page and contains
    /// only rows of scrollback. On the alternate page, which has no scrollback,
    /// nothing happens.
    ///
    /// Displayed rows of scrollback that are narrower than the screen are
    /// extended to its width and are then no longer wrapped. The rows stay that
    /// way when the display returns to the page.
    ///
    /// # Errors
    ///
    /// Returns `Error::OutOfMemory` if a row cannot be extended. On error, the
    /// screen is unchanged. Nothing is allocated unless a row must be extended,
    /// so returning to the page cannot fail.
    pub fn set_scrollback(&mut self, rows: usize) -> Result<(), Error>
        ensures ok { OnOk result (self.new ≡ scrolled_back rows self.old) }
        ensures err { OnErr result (self.new ≡ self.old) }
        ensures grows { IsErr result →
            (self.old.is_alternate ≡ false)
            × ViewTakesMemory (length self.old.page.rows) self.old.page.width rows self.old.scrollback }
        ensures memory { OnlyOutOfMemory result }
    {
        if self.is_alternate {
            return Ok(());
        }
        self.scrollback.set_offset(rows, self.grid.size())?;
        Ok(())
    }

    /// Erases scrollback and displays only the page. No callbacks are invoked for the erased rows,
    /// and none of them returns when the screen gets more rows. On the alternate page, which has no
    /// scrollback, nothing happens.
    pub fn clear_scrollback(&mut self)
        ensures { self.new ≡ screen_after step.EraseScrollback self.old }
    {
        self.scrollback.clear(&mut ());
    }

    /// Returns the number of rows by which the display is scrolled back, which
    /// may exceed the height of the screen. Returns 0 on the alternate page.
    pub fn scrollback(&self) -> usize
        ensures { result ≡ (above_page self.now).offset }
    {
        self.scrollback.offset()
    }

    /// Returns the number of rows in scrollback, which is 0 on the alternate
    /// page.
    pub fn scrollback_len(&self) -> usize
        ensures { result ≡ length (above_page self.now).rows }
    {
        self.scrollback.len()
    }

    /// Returns the maximum number of rows that scrollback keeps, which is 0 on
    /// the alternate page.
    pub fn scrollback_capacity(&self) -> usize
        ensures { result ≡ (above_page self.now).capacity }
    {
        self.scrollback.capacity()
    }
}
