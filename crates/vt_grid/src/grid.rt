//! A page of rows with its cursor, scroll region and saved cursor.

ghost use Rattle.std.specs.Prelude.{◌≡◌, ◌<◌, IfOk, length};
ghost use Rattle.vt_cells.specs.Refusals.{OnlyOutOfMemory};
ghost use Rattle.vt_grid.specs.Page.{blank_page, row_at};

mod columns;
mod erasing;
pub mod moves;
mod printing;
mod resizing;
mod scrolling;
mod shifts;
mod texts;

use crate::page_rows::PageRows;
use crate::size::Size;
use std::alloc::Global;
use std::marker::Model;
use vt_cells::{Attrs, Error, Pos};

/// A page of the screen: rows of cells, a cursor, a saved cursor, a scroll region and origin mode
/// (VT510 manual: DECSC, DECSTBM, DECOM).
///
/// The cursor's column is at most the number of columns; if it equals that number, a wrap is
/// pending.
#[derive(Debug, Drop)]
pub struct Grid {
    page_rows: PageRows,
    size: Size,
    pos: Pos,
    saved_pos: Pos,
    scroll_top: u16,
    scroll_bottom: u16,
    origin_mode: bool,
    saved_origin_mode: bool,
}

impl Model for Grid {
    ghost use Rattle.vt_grid.specs.Internals.{IsSized, page_of};
    ghost use Rattle.vt_grid.specs.Page.{Page};

    ghost Value = { Page };

    ghost view = { λ g. page_of g.page_rows g.pos g.saved_pos g.scroll_top
        g.scroll_bottom g.origin_mode g.saved_origin_mode };

    ghost invariant = { λ g. IsSized g.size.rows g.size.cols
        (page_of g.page_rows g.pos g.saved_pos g.scroll_top g.scroll_bottom g.origin_mode g.saved_origin_mode) };
}

impl Grid {
    /// Creates a page of default blanks, with the cursor in the top left corner and the whole page
    /// as the scroll region.
    ///
    /// # Errors
    ///
    /// Returns [`Error::OutOfMemory`] if the rows cannot be allocated.
    pub fn new(alloc: Global, size: Size) -> Result<Grid, Error>
        requires rows { 0 < size.rows }
        requires cols { 0 < size.cols }
        ensures ok { IfOk result (λ grid. grid ≡ blank_page size.rows size.cols) }
        ensures memory { OnlyOutOfMemory result }
    {
        let page_rows = PageRows::new(alloc, size)?;
        Ok(Grid {
            page_rows,
            size,
            pos: Pos { row: 0, col: 0 },
            saved_pos: Pos { row: 0, col: 0 },
            scroll_top: 0,
            scroll_bottom: size.rows - 1,
            origin_mode: false,
            saved_origin_mode: false,
        })
    }

    /// Returns a copy of the page.
    ///
    /// # Errors
    ///
    /// Returns [`Error::OutOfMemory`] if the rows cannot be allocated.
    pub fn try_clone(&self, alloc: Global) -> Result<Grid, Error>
        ensures ok { IfOk result (λ grid. grid ≡ self.now) }
        ensures memory { OnlyOutOfMemory result }
    {
        Ok(Grid {
            page_rows: self.page_rows.try_clone(alloc)?,
            size: self.size,
            pos: self.pos,
            saved_pos: self.saved_pos,
            scroll_top: self.scroll_top,
            scroll_bottom: self.scroll_bottom,
            origin_mode: self.origin_mode,
            saved_origin_mode: self.saved_origin_mode,
        })
    }

    /// Resets the page to the state of a new page of the same size. Allocates nothing.
    pub fn clear(&mut self)
        ensures { self.new ≡ blank_page (length self.old.rows) self.old.width }
    {
        self.page_rows.clear_all(Attrs::new());
        self.pos = Pos { row: 0, col: 0 };
        self.saved_pos = Pos { row: 0, col: 0 };
        self.scroll_top = 0;
        self.scroll_bottom = self.size.rows - 1;
        self.origin_mode = false;
        self.saved_origin_mode = false;
    }

    /// Returns the number of rows and columns of the page.
    #[inline]
    pub fn size(&self) -> Size
        ensures rows { result.rows ≡ length self.now.rows }
        ensures cols { result.cols ≡ self.now.width }
    {
        self.size
    }

    /// Returns the cursor position, counted from 0. A column equal to the number of columns means
    /// that a wrap is pending.
    #[inline]
    pub fn pos(&self) -> Pos
        ensures row { result.row ≡ self.now.row }
        ensures col { result.col ≡ self.now.column }
    {
        self.pos
    }

    /// Returns the rows of the page.
    #[inline]
    pub fn rows(&self) -> &PageRows
        ensures rows { result.now.rows ≡ self.now.rows }
        ensures width { result.now.width ≡ self.now.width }
    {
        &self.page_rows
    }

    /// Returns whether a row is wrapped (its text continues on the next row), or `false` if there
    /// is no such row.
    #[inline]
    pub fn row_wrapped(&self, row: u16) -> bool
        ensures { result ≡ (row_at self.now row).wrapped }
    {
        if row < self.size.rows {
            self.page_rows.wrapped(row)
        } else {
            false
        }
    }
}
