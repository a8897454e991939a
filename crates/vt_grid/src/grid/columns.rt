//! Changing the number of columns of a page in place.

ghost use Rattle.std.specs.Prelude.{◌≡◌, ◌≢◌, ◌<◌, IfSome, IsTrue, None, false, length, option_map};
ghost use Rattle.vt_grid.specs.Resize.{page_resized, scrollback_resized};
ghost use Rattle.vt_grid.specs.Sending.{SetsColumns};

use super::Grid;
use super::resizing::resized;
use crate::scrollback::Scrollback;
use crate::size::Size;

impl Grid {
    /// Resizes this page and `other`, if there is one, to `cols` columns in place. Both pages must
    /// have the same number of columns, and `cols` must be neither that number nor 0. The rules are
    /// those of [`Grid::set_size`], with `above` as this page's scrollback and `other_above` as the
    /// other page's.
    ///
    /// Returns `false` and changes nothing if, on either page, `cols` exceeds the number of cells
    /// stored for each row, or would narrow the page to less than half of that number (rounded
    /// down). Otherwise returns `true`.
    pub fn set_cols(
        &mut self,
        other: &mut Option<Grid>,
        cols: u16,
        above: &mut Scrollback,
        other_above: &mut Scrollback,
    ) -> bool
        requires nonempty { 0 < cols }
        requires different { cols ≢ self.old.width }
        requires equal { IfSome other.old (λ page. page.width ≡ self.old.width) }
        ensures own { SetsColumns cols self.old above.old self.new above.new result }
        ensures other { IsTrue result → other.new
            ≡ option_map (λ page. page_resized (length page.rows) cols other_above.old page) other.old }
        ensures other_above { IsTrue result → IfSome other.old (λ page.
            other_above.new ≡ scrollback_resized (length page.rows) page other_above.old) }
        ensures none { other.old ≡ None → other_above.new ≡ other_above.old }
        ensures undone { result ≡ false → (other.new ≡ other.old) × (other_above.new ≡ other_above.old) }
    {
        let Some(page) = other else {
            return self.set_own_cols(cols, above);
        };
        self.set_cols_of_both(page, cols, above, other_above)
    }

    /// Resizes this page to `cols` columns, as [`Grid::set_cols`] does if there is no other page.
    /// Returns `false` and changes nothing if the page cannot be resized in place.
    fn set_own_cols(&mut self, cols: u16, above: &mut Scrollback) -> bool
        requires nonempty { 0 < cols }
        requires different { cols ≢ self.old.width }
        ensures { SetsColumns cols self.old above.old self.new above.new result }
    {
        let size = Size {
            rows: self.size.rows,
            cols,
        };
        if !self.page_rows.set_width(cols) {
            return false;
        }
        above.leave_view();
        self.pos = resized(self.pos, 0, 0, size);
        self.saved_pos = resized(self.saved_pos, 0, 0, size);
        self.scroll_top = 0;
        self.scroll_bottom = size.rows - 1;
        self.size = size;
        true
    }

    /// Resizes this page and `other` to `cols` columns, as [`Grid::set_cols`] does. Returns `false`
    /// and changes nothing if either page cannot be resized in place.
    fn set_cols_of_both(
        &mut self,
        other: &mut Grid,
        cols: u16,
        above: &mut Scrollback,
        other_above: &mut Scrollback,
    ) -> bool
        requires nonempty { 0 < cols }
        requires different { cols ≢ self.old.width }
        requires equal { other.old.width ≡ self.old.width }
        ensures own { SetsColumns cols self.old above.old self.new above.new result }
        ensures other { SetsColumns cols other.old other_above.old other.new other_above.new result }
    {
        let size = Size {
            rows: self.size.rows,
            cols,
        };
        let other_size = Size {
            rows: other.size.rows,
            cols,
        };
        if !self.page_rows.set_width_of_both(&mut other.page_rows, cols) {
            return false;
        }
        above.leave_view();
        self.pos = resized(self.pos, 0, 0, size);
        self.saved_pos = resized(self.saved_pos, 0, 0, size);
        self.scroll_top = 0;
        self.scroll_bottom = size.rows - 1;
        self.size = size;
        other_above.leave_view();
        other.pos = resized(other.pos, 0, 0, other_size);
        other.saved_pos = resized(other.saved_pos, 0, 0, other_size);
        other.scroll_top = 0;
        other.scroll_bottom = other_size.rows - 1;
        other.size = other_size;
        true
    }
}
