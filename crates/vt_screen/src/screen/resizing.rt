//! Resizing the screen.

ghost use Rattle.std.specs.Prelude.{◌≡◌, ◌≢◌, ◌≤◌, [], IfOk, IfSome, IsErr, IsTrue, OnErr, OnOk};
ghost use Rattle.std.specs.Prelude.{false, length, option_map, true};
ghost use Rattle.vt_cells.specs.Refusals.{OnlyOutOfMemory};
ghost use Rattle.vt_grid.specs.Page.{blank_page};
ghost use Rattle.vt_grid.specs.Resize.{page_resized};
ghost use Rattle.vt_grid.specs.Scrollback.{no_scrollback};
ghost use Rattle.vt_screen.specs.Internals.{IsNothing, IsPageSize, pages_resized, reports_of_pages};
ghost use Rattle.vt_screen.specs.Pages as pages;
ghost use Rattle.vt_screen.specs.Pages.{calls_resized, reports_of, screen_after_resize};
ghost use Rattle.vt_screen.specs.CallsOfRun.{TakesCalls};

use super::Screen;
use super::pages::exchange;
use crate::callbacks::Callbacks;
use crate::reporter::Reporter;
use std::alloc::Global;
use std::num::NonZeroU16;
use vt_cells::Error;
use vt_grid::{Grid, Scrollback, Size};

impl Screen {
    /// Resizes both pages of the screen, as xterm does. A resize to the current
    /// size changes nothing and allocates nothing.
    ///
    /// - Fewer rows: rows below the cursor are removed first. If that is not
    ///   enough, rows scroll off the top into scrollback.
    /// - More rows: rows that scrolled off return to the top, as blank rows if scrollback did not
    ///   keep them. Blank rows at the bottom fill the rest of the page.
    /// - Columns: each row of the page is cut or extended; text is not
    ///   rewrapped.
    ///
    /// On both pages, the scroll region becomes the whole page and a pending
    /// wrap is canceled. Scrollback is no longer displayed. No callbacks are
    /// invoked for the rows that scroll off; `Parser::set_size` invokes them.
    ///
    /// # Errors
    ///
    /// Returns `Error::OutOfMemory` if an allocation fails. On error, the
    /// screen is unchanged.
    pub fn set_size(&mut self, rows: NonZeroU16, cols: NonZeroU16) -> Result<(), Error>
        ensures ok { OnOk result (self.new ≡ screen_after_resize rows.value cols.value self.old) }
        ensures err { OnErr result (self.new ≡ self.old) }
        ensures grows { IsErr result → pages.has_size rows.value cols.value self.old ≡ false }
        ensures memory { OnlyOutOfMemory result }
    {
        set_size_with_cb(self, &mut (), rows, cols)?;
        Ok(())
    }
}

/// Resizes the screen, as [`Screen::set_size`] does, and passes the rows that
/// are not kept to [`Callbacks::on_scroll`]: first the rows of scrollback and
/// the main page, then the rows of the alternate page, oldest first.
///
/// # Errors
///
/// Returns `Error::OutOfMemory` if an allocation fails. On error, the screen is
/// unchanged and no callbacks are invoked.
pub fn set_size_with_cb<CB: Callbacks>(
    screen: &mut Screen,
    callbacks: &mut CB,
    rows: NonZeroU16,
    cols: NonZeroU16,
) -> Result<(), Error>
    ensures ok { OnOk result (screen.new ≡ screen_after_resize rows.value cols.value screen.old) }
    ensures called { OnOk result
        (TakesCalls CB.does callbacks.old (calls_resized rows.value cols.value screen.old) callbacks.new) }
    ensures err { OnErr result ((screen.new ≡ screen.old) × (callbacks.new ≡ callbacks.old)) }
    ensures grows { IsErr result → pages.has_size rows.value cols.value screen.old ≡ false }
    ensures memory { OnlyOutOfMemory result }
{
    let size = Size {
        rows: rows.get(),
        cols: cols.get(),
    };
    if has_size(screen, size) {
        return Ok(());
    }
    resize_pages(screen, callbacks, size)?;
    Ok(())
}

/// Returns whether the size of the screen is `size`.
fn has_size(screen: &Screen, size: Size) -> bool
    ensures { result ≡ pages.has_size size.rows size.cols screen.now }
{
    let now = screen.grid.size();
    size.rows == now.rows && size.cols == now.cols
}

/// Resizes both pages to a size other than the current one; see
/// [`set_size_with_cb`].
///
/// # Errors
///
/// Returns `Error::OutOfMemory` if an allocation fails. On error, the screen is
/// unchanged and no callbacks are invoked.
fn resize_pages<CB: Callbacks>(
    screen: &mut Screen,
    callbacks: &mut CB,
    size: Size,
) -> Result<(), Error>
    requires size { IsPageSize size.rows size.cols }
    requires other { pages.has_size size.rows size.cols screen.old ≡ false }
    ensures ok { OnOk result (screen.new ≡ screen_after_resize size.rows size.cols screen.old) }
    ensures called { OnOk result
        (TakesCalls CB.does callbacks.old (calls_resized size.rows size.cols screen.old) callbacks.new) }
    ensures err { OnErr result ((screen.new ≡ screen.old) × (callbacks.new ≡ callbacks.old)) }
    ensures memory { OnlyOutOfMemory result }
{
    if !screen.is_alternate {
        return resize_below(screen, callbacks, size);
    }
    exchange(screen);
    let done = resize_below(screen, callbacks, size);
    exchange(screen);
    done
}

/// Resizes both pages to `size`. The main page must be active.
///
/// # Errors
///
/// Returns `Error::OutOfMemory` if an allocation fails. On error, the screen is unchanged and no
/// callbacks are invoked.
fn resize_below<CB: Callbacks>(
    screen: &mut Screen,
    callbacks: &mut CB,
    size: Size,
) -> Result<(), Error>
    requires size { IsPageSize size.rows size.cols }
    requires main { screen.old.is_alternate ≡ false }
    ensures ok { OnOk result (screen.new ≡ pages_resized size.rows size.cols screen.old) }
    ensures called { OnOk result (TakesCalls CB.does callbacks.old (reports_of_pages size.rows screen.old) callbacks.new) }
    ensures err { OnErr result ((screen.new ≡ screen.old) × (callbacks.new ≡ callbacks.old)) }
    ensures memory { OnlyOutOfMemory result }
{
    let now = screen.grid.size();
    if size.cols != now.cols {
        if size.rows == now.rows && set_cols(screen, size) {
            return Ok(());
        }
        return refit_pages(screen, size, callbacks);
    }
    if size.rows > now.rows {
        return add_rows(screen, size);
    }
    remove_rows(screen, size, callbacks)
}

/// Shrinks both pages to the height of `size`. The main page must be active. `size` must have the
/// width of the pages and at most their height.
///
/// # Errors
///
/// Returns `Error::OutOfMemory` if an allocation fails. On error, the screen is unchanged and no
/// callbacks are invoked.
fn remove_rows<CB: Callbacks>(
    screen: &mut Screen,
    size: Size,
    callbacks: &mut CB,
) -> Result<(), Error>
    requires size { IsPageSize size.rows size.cols }
    requires fewer { size.rows ≤ length screen.old.page.rows }
    requires width { size.cols ≡ screen.old.page.width }
    requires main { screen.old.is_alternate ≡ false }
    ensures ok { OnOk result (screen.new ≡ pages_resized size.rows size.cols screen.old) }
    ensures called { OnOk result (TakesCalls CB.does callbacks.old (reports_of_pages size.rows screen.old) callbacks.new) }
    ensures err { OnErr result ((screen.new ≡ screen.old) × (callbacks.new ≡ callbacks.old)) }
    ensures memory { OnlyOutOfMemory result }
{
    let mut reporter = Reporter {
        callbacks: &mut *callbacks,
        alternate: false,
    };
    screen
        .grid
        .remove_rows(size.rows, &mut screen.scrollback, &mut reporter)?;
    screen.other_scrollback.clear(&mut ());
    remove_alternate_rows(
        &mut screen.other,
        size,
        &mut screen.other_scrollback,
        callbacks,
    );
    Ok(())
}

/// Shrinks the alternate page, if there is one, to the height of `size`, and reports the rows that
/// scroll off its top. `size` must have the page's width and at most its height. `nothing` must be
/// an empty scrollback with a capacity of 0. This function never allocates, because rows of the
/// alternate page are not kept in scrollback.
fn remove_alternate_rows<CB: Callbacks>(
    page: &mut Option<Grid>,
    size: Size,
    nothing: &mut Scrollback,
    callbacks: &mut CB,
)
    requires size { IsPageSize size.rows size.cols }
    requires fewer { IfSome page.old (λ page. size.rows ≤ length page.rows) }
    requires width { IfSome page.old (λ page. size.cols ≡ page.width) }
    requires nothing { nothing.old ≡ no_scrollback 0 }
    ensures page { page.new ≡ option_map (page_resized size.rows size.cols (no_scrollback 0)) page.old }
    ensures called { TakesCalls CB.does callbacks.old (reports_of true size.rows page.old (no_scrollback 0)) callbacks.new }
    ensures nothing { IsNothing nothing.new }
{
    let Some(page) = page else {
        return;
    };
    let mut reporter = Reporter {
        callbacks,
        alternate: true,
    };
    let done = page.remove_rows(size.rows, nothing, &mut reporter);
    prove!(done.is_ok());
    // Only for the proof: the result is `Ok` and holds nothing to drop.
    let _ = done;
}

/// Extends both pages to the height of `size`. The main page must be active. `size` must have the
/// width of the pages and at least their height. No row scrolls off.
///
/// # Errors
///
/// Returns `Error::OutOfMemory` if an allocation fails. On error, the screen is unchanged.
fn add_rows(screen: &mut Screen, size: Size) -> Result<(), Error>
    requires more { length screen.old.page.rows ≤ size.rows }
    requires width { size.cols ≡ screen.old.page.width }
    requires main { screen.old.is_alternate ≡ false }
    ensures ok { OnOk result (screen.new ≡ pages_resized size.rows size.cols screen.old) }
    ensures quiet { reports_of_pages size.rows screen.old ≡ [] }
    ensures err { OnErr result (screen.new ≡ screen.old) }
    ensures memory { OnlyOutOfMemory result }
{
    screen.other_scrollback.clear(&mut ());
    screen.grid.add_rows(
        &mut screen.other,
        size.rows,
        &mut screen.scrollback,
        &mut screen.other_scrollback,
    )?;
    Ok(())
}

/// Resizes both pages to the width of `size` in place, and returns `true`. The main page must be
/// active. `size` must have the height of the pages and a different width. No row scrolls off.
///
/// Returns `false` and changes nothing if, on either page, the new width exceeds the number of
/// cells stored for each row or is less than half of that number (rounded down).
fn set_cols(screen: &mut Screen, size: Size) -> bool
    requires size { IsPageSize size.rows size.cols }
    requires height { size.rows ≡ length screen.old.page.rows }
    requires width { size.cols ≢ screen.old.page.width }
    requires main { screen.old.is_alternate ≡ false }
    ensures done { IsTrue result → screen.new ≡ pages_resized size.rows size.cols screen.old }
    ensures undone { result ≡ false → screen.new ≡ screen.old }
    ensures quiet { reports_of_pages size.rows screen.old ≡ [] }
{
    screen.other_scrollback.clear(&mut ());
    if !screen.grid.set_cols(
        &mut screen.other,
        size.cols,
        &mut screen.scrollback,
        &mut screen.other_scrollback,
    ) {
        return false;
    }
    true
}

/// Resizes both pages to `size` by moving their rows into new pages. The main page must be active.
///
/// # Errors
///
/// Returns `Error::OutOfMemory` if an allocation fails. On error, the screen is unchanged and no
/// callbacks are invoked.
fn refit_pages<CB: Callbacks>(
    screen: &mut Screen,
    size: Size,
    callbacks: &mut CB,
) -> Result<(), Error>
    requires size { IsPageSize size.rows size.cols }
    requires main { screen.old.is_alternate ≡ false }
    ensures ok { OnOk result (screen.new ≡ pages_resized size.rows size.cols screen.old) }
    ensures called { OnOk result (TakesCalls CB.does callbacks.old (reports_of_pages size.rows screen.old) callbacks.new) }
    ensures err { OnErr result ((screen.new ≡ screen.old) × (callbacks.new ≡ callbacks.old)) }
    ensures memory { OnlyOutOfMemory result }
{
    let fresh = Grid::new(screen.alloc, size)?;
    let other_fresh = fresh_page(&screen.other, screen.alloc, size)?;
    let mut reporter = Reporter {
        callbacks: &mut *callbacks,
        alternate: false,
    };
    screen
        .grid
        .set_size(fresh, &mut screen.scrollback, &mut reporter)?;
    screen.other_scrollback.clear(&mut ());
    resize_alternate(
        &mut screen.other,
        other_fresh,
        size,
        &mut screen.other_scrollback,
        callbacks,
    );
    Ok(())
}

/// Creates a blank page of size `size` to replace `page`, or returns `None` if `page` is `None`.
///
/// # Errors
///
/// Returns `Error::OutOfMemory` if the page cannot be allocated.
fn fresh_page(page: &Option<Grid>, alloc: Global, size: Size) -> Result<Option<Grid>, Error>
    requires size { IsPageSize size.rows size.cols }
    ensures ok { IfOk result (λ fresh. fresh ≡ option_map (λ _. blank_page size.rows size.cols) page.now) }
    ensures memory { OnlyOutOfMemory result }
{
    match page {
        Some(_) => Ok(Some(Grid::new(alloc, size)?)),
        None => Ok(None),
    }
}

/// Resizes the alternate page, if there is one, to `size` by moving its rows into the blank page
/// `fresh`, and reports the rows that scroll off its top. `nothing` must be an empty scrollback
/// with a capacity of 0. This function never allocates, because rows of the alternate page are not
/// kept in scrollback.
fn resize_alternate<CB: Callbacks>(
    page: &mut Option<Grid>,
    fresh: Option<Grid>,
    size: Size,
    nothing: &mut Scrollback,
    callbacks: &mut CB,
)
    requires fresh { fresh ≡ option_map (λ _. blank_page size.rows size.cols) page.old }
    requires nothing { nothing.old ≡ no_scrollback 0 }
    ensures page { page.new ≡ option_map (page_resized size.rows size.cols (no_scrollback 0)) page.old }
    ensures called { TakesCalls CB.does callbacks.old (reports_of true size.rows page.old (no_scrollback 0)) callbacks.new }
    ensures nothing { IsNothing nothing.new }
{
    let Some(fresh) = fresh else {
        return;
    };
    let Some(page) = page else {
        return;
    };
    let mut reporter = Reporter {
        callbacks,
        alternate: true,
    };
    let done = page.set_size(fresh, nothing, &mut reporter);
    prove!(done.is_ok());
    // Only for the proof: the result is `Ok` and holds nothing to drop.
    let _ = done;
}
