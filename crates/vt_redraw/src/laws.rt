//! Theorems about redraws and diffs. The functions do nothing when called; their clauses state what
//! is proved.
//!
//! A *canvas* is the part of a terminal on which redraws and diffs are drawn: the active page with
//! its cursor, the current and saved attributes, and whether the cursor is hidden. It is *plain* if
//! its scroll region is the whole page and origin mode is off. A picture is *steady* if each of its
//! glyphs reproduces itself when it is printed on a blank row.

ghost use Rattle.std.specs.Prelude.{◌≡◌, ◌+◌, ◌<◌, ◌≤◌, ◌↔◌, ◌++◌, ℕ, [], Bool, List, Some, false, length, true};
ghost use Rattle.std.specs.List.{AllByRecursion};
ghost use Rattle.vt_cells.specs.Attrs.{default_attrs};
ghost use Rattle.vt_cells.specs.Cell.{glyph};
ghost use Rattle.vt_cells.specs.Attrs.{Attrs};
ghost use Rattle.vt_cells.specs.Op.{FitsAttrs, bytes_of_all};
ghost use Rattle.vt_rows.specs.Cells.{ends_blank};
ghost use Rattle.vt_rows.specs.Row.{RowValue, blank_row};
ghost use Rattle.vt_grid.specs.Canvas.{Canvas, drawn_all};
ghost use Rattle.vt_redraw.specs.Fits.{Fits};
ghost use Rattle.vt_grid.specs.Page.{IsPlainPage, row_at};
ghost use Rattle.vt_redraw.specs.Items.{AwaitsItem, CutsNone, changed_row, formatted_row, going_on};
ghost use Rattle.vt_redraw.specs.Items.{item_of_difference, item_of_redraw, row_drawn};
ghost use Rattle.vt_redraw.specs.Doubts.{Doubts, doubts_of};
ghost use Rattle.vt_redraw.specs.Locality.{IsLocal, MayPlace, row_of_picture, Touches};
ghost use Rattle.vt_redraw.specs.Picture.{IsColoredPicture, IsPicture, Picture, SamePictureSize, Saved};
ghost use Rattle.vt_redraw.specs.Picture.{picture_of, with_cursor_of, with_picture, with_saved};
ghost use Rattle.vt_redraw.specs.Uses.{PortableOps};
ghost use Rattle.vt_redraw.specs.Redraw.{cursor_state, difference, difference_in, differences, last_picture};
ghost use Rattle.vt_redraw.specs.Redraw.{redraw, redraw_in};
ghost use Rattle.vt_redraw.specs.Steady.{HasNoSelector, IsOfSize, IsSteady, IsSteadyCell, heart_text};
ghost use Rattle.vt_redraw.specs.declared.form.Form.TheVariants.{Portable};

/// States that drawing the diff between two pictures on a plain canvas that displays the first
/// picture makes the canvas display the second. The second picture must be steady. Apart from what
/// is displayed, only the saved cursor, saved origin mode and saved attributes may change.
#[tactic(auto, using(crate::proofs::Difference::difference_draws))]
pub fn difference_draws()
    ensures { (self prev : Picture) → (any : Canvas) → IsPicture self → IsSteady self →
        IsPicture prev → SamePictureSize self prev → IsPlainPage any.page → picture_of any ≡ prev →
        (saved : Saved) × (drawn_all (difference self prev) any ≡ Some (with_saved saved (with_picture self any))) }
{}

/// States that the diff from one picture to another touches only rows that differ, the rows
/// directly below them, and possibly the end of one row. The second picture must be steady.
#[tactic(auto, using(crate::proofs::Difference::difference_local))]
pub fn difference_local()
    ensures { (self prev : Picture) → (any : Canvas) → IsPicture self → IsSteady self →
        IsPicture prev → SamePictureSize self prev → IsPlainPage any.page →
        picture_of any ≡ prev → Touches (IsLocal self prev) (difference self prev) any }
{}

/// States that the diff from a picture to itself is empty.
#[tactic(auto, using(crate::proofs::Redrawing::difference_self))]
pub fn difference_self()
    ensures { (picture : Picture) → difference picture picture ≡ [] }
{}

/// States that two pictures of the same size are equal if the diff from the
/// first picture to the second is empty and the second picture is steady.
pub fn empty_only()
    ensures { (self prev : Picture) → IsPicture self → IsSteady self → IsPicture prev →
        SamePictureSize self prev → difference self prev ≡ [] → self ≡ prev }
{}

/// States that a plain canvas displays a steady picture of its size after a redraw of the picture
/// has been drawn on it. Apart from what is displayed, only the saved cursor, origin mode and
/// attributes may change.
#[tactic(auto, using(crate::proofs::Redrawing::redraw_draws))]
pub fn redraw_draws()
    ensures { (self : Picture) → (any : Canvas) → IsPicture self → IsSteady self →
        IsPicture (picture_of any) → IsPlainPage any.page → SamePictureSize self (picture_of any) →
        (saved : Saved) × (drawn_all (redraw self) any ≡ Some (with_saved saved (with_picture self any))) }
{}

/// States that terminals agree on the effect of the portable diff between two pictures, if they
/// display the first picture on a plain canvas and differ at most in what may differ while they
/// display it. The second picture must be steady.
#[tactic(auto, using(crate::proofs::PortableScript::difference_portable))]
pub fn difference_portable()
    ensures { (self prev : Picture) → (any : Canvas) → IsPicture self → IsSteady self →
        IsPicture prev → SamePictureSize self prev → IsPlainPage any.page → picture_of any ≡ prev →
        PortableOps (difference_in Portable self prev) (doubts_of prev) any }
{}

/// States that terminals with a plain canvas of a steady picture's size agree on the effect of the
/// portable redraw of the picture, whatever they display and differ in before.
#[tactic(auto, using(crate::proofs::PortableScript::redraw_portable))]
pub fn redraw_portable()
    ensures { (self : Picture) → (any : Canvas) → (doubts : Doubts) → IsPicture self → IsSteady self →
        IsPicture (picture_of any) → IsPlainPage any.page → SamePictureSize self (picture_of any) →
        PortableOps (redraw_in Portable self) doubts any }
{}

/// States that two steady pictures of the same size are equal if their redraws
/// are equal.
pub fn redraws_only()
    ensures { (a b : Picture) → IsPicture a → IsSteady a → IsPicture b →
        IsSteady b → SamePictureSize a b → redraw a ≡ redraw b → a ≡ b }
{}

/// States that a plain canvas displays the last of several pictures after the output for each of
/// them has been drawn on it in order: for the first picture a redraw, and for each later picture
/// the diff from the picture before it. All pictures must be steady and have the size of the
/// canvas. Apart from what is displayed, only the saved cursor, origin mode and attributes may
/// change.
#[tactic(auto, using(crate::proofs::Redrawing::chain_draws))]
pub fn chain_draws()
    ensures { (self : Picture) → (nexts : List Picture) → (any : Canvas) →
        IsOfSize any.page.width (length any.page.rows) self →
        AllByRecursion (IsOfSize any.page.width (length any.page.rows)) nexts → IsPicture (picture_of any) →
        IsPlainPage any.page →
        (saved : Saved)
        × (drawn_all (redraw self ++ differences self nexts) any
        ≡ Some (with_saved saved (with_picture (last_picture self nexts) any))) }
{}

/// States that each operation in a diff contains only numbers and text that a
/// terminal parses back unchanged.
#[tactic(auto, using(crate::proofs::PictureFits::difference_fits))]
pub fn difference_fits()
    ensures { (self prev : Picture) → IsPicture self → IsColoredPicture self →
        FitsAttrs prev.attrs → AllByRecursion Fits (difference self prev) }
{}

/// States that each operation in a redraw contains only numbers and text that a
/// terminal parses back unchanged.
#[tactic(auto, using(crate::proofs::PictureFits::redraw_fits))]
pub fn redraw_fits()
    ensures { (self : Picture) → IsPicture self → IsColoredPicture self → AllByRecursion Fits (redraw self) }
{}

/// States that each operation in the output for the cursor contains only
/// numbers and text that a terminal parses back unchanged.
#[tactic(auto, using(crate::proofs::PictureFits::cursor_state_fits))]
pub fn cursor_state_fits()
    ensures { (self : Picture) → IsPicture self → IsColoredPicture self → AllByRecursion Fits (cursor_state self) }
{}

/// States that the output for the cursor gives a plain canvas the picture's cursor position, and
/// hides or shows the cursor as in the picture. The picture must be steady. The canvas must display
/// the rows of the picture and have default attributes.
#[tactic(auto, using(crate::proofs::Difference::cursor_state_draws))]
pub fn cursor_state_draws()
    ensures { (self : Picture) → (any : Canvas) → IsPicture self → IsSteady self → IsPlainPage any.page →
        any.page.rows ≡ self.rows → any.page.width ≡ self.width → any.attrs ≡ default_attrs →
        (saved : Saved) × (drawn_all (cursor_state self) any ≡ Some (with_saved saved (with_cursor_of self any))) }
{}

/// States that the output for the cursor of a steady picture touches at most
/// the end of one row.
#[tactic(auto, using(crate::proofs::Difference::cursor_state_local))]
pub fn cursor_state_local()
    ensures { (self : Picture) → (any : Canvas) → IsPicture self → IsSteady self →
        IsPlainPage any.page → any.page.rows ≡ self.rows → any.page.width ≡ self.width →
        any.attrs ≡ default_attrs → Touches (MayPlace self) (cursor_state self) any }
{}

/// States that a picture without U+FE0F in its glyphs is steady, whatever the
/// widths of its characters.
#[tactic(auto, using(crate::proofs::SteadyWithout::picture_steady))]
pub fn steady_without_selectors()
    ensures { (picture : Picture) → IsPicture picture → HasNoSelector picture → IsSteady picture }
{}

/// States that the glyph U+2764 U+FE0F is steady in a row of two or more
/// columns.
#[tactic(auto, using(crate::proofs::SteadyWithout::heart_is_steady))]
pub fn heart_steady()
    ensures { (width : ℕ) → (attrs : Attrs) → 1 < width → IsSteadyCell width (glyph heart_text true attrs) }
{}

/// States that a range of columns that covers a whole row cuts no wide character in two.
#[tactic(auto, using(crate::proofs::ItemRanges::whole_cuts_none))]
pub fn whole_cuts_none()
    ensures { (self : Picture) → (r : ℕ) → IsPicture self → r < length self.rows →
        CutsNone 0 self.width (row_of_picture self r).cells }
{}

/// States that drawing the diff for a range of columns in a row gives the canvas row the new cells
/// in that range. Apart from those cells, only the row's wrapped flag, the cursor and the
/// attributes may change. The canvas must be plain and have default attributes, its row must be the
/// old row, and its cursor must be at the start of the range. The new picture must be steady, and
/// the range must cut no wide character in two.
#[tactic(auto, using(crate::proofs::ItemDraws::difference_item_draws))]
pub fn difference_item_draws()
    ensures { (self : Picture) → (r start stop : ℕ) → (y : RowValue) → (any : Canvas) → IsPicture self → IsSteady self →
        AwaitsItem self r start y any → start ≤ stop → stop ≤ self.width →
        CutsNone start stop (row_of_picture self r).cells → CutsNone start stop y.cells →
        drawn_all (item_of_difference r start stop (row_of_picture self r) y).ops any
        ≡ Some (row_drawn r (changed_row r start stop (row_of_picture self r) y)
        (item_of_difference r start stop (row_of_picture self r) y).pen any) }
{}

/// States that drawing the diff for a whole row leaves the canvas row unwrapped
/// if the row is not wrapped in the new picture.
#[tactic(auto, using(crate::proofs::ItemRanges::item_off))]
pub fn difference_item_off()
    ensures { (r width : ℕ) → (x y : RowValue) → length x.cells ≡ width →
        x.wrapped ≡ false → (changed_row r 0 width x y).wrapped ≡ false }
{}

/// States that the diff for a whole row is empty if and only if the row is the
/// same in both pictures.
#[tactic(auto, using(crate::proofs::ItemRanges::difference_item_empty))]
pub fn difference_item_empty()
    ensures { (self prev : Picture) → (r : ℕ) → IsPicture self → IsPicture prev → SamePictureSize self prev →
        r < length self.rows →
        (bytes_of_all (item_of_difference r 0 self.width (row_of_picture self r) (row_of_picture prev r)).ops ≡ [])
        ↔ (row_of_picture self r ≡ row_of_picture prev r) }
{}

/// States that drawing the redraw for a range of columns in a row gives the canvas row the
/// picture's cells in that range. Apart from those cells, only the cursor and the attributes
/// change. The canvas must be plain and have default attributes, its row must consist of default
/// blanks, and its cursor must be at the start of the range. The picture must be steady, and the
/// range must cut no wide character in two.
#[tactic(auto, using(crate::proofs::ItemDraws::redraw_item_draws))]
pub fn redraw_item_draws()
    ensures { (self : Picture) → (r start stop : ℕ) → (linked : Bool) → (any : Canvas) → IsPicture self →
        IsSteady self → AwaitsItem self r start (blank_row default_attrs self.width) any → start ≤ stop →
        stop ≤ self.width → CutsNone start stop (row_of_picture self r).cells →
        drawn_all (item_of_redraw r start stop linked (row_of_picture self r)).ops any
        ≡ Some (row_drawn r (formatted_row start stop self.width (row_of_picture self r))
        (item_of_redraw r start stop linked (row_of_picture self r)).pen any) }
{}

/// States that the redraw for a whole row, drawn while a wrap is pending after a glyph at the end
/// of the row above, draws the row and makes the row above wrapped. The canvas must be plain and
/// have default attributes, its row must consist of default blanks, and the picture must be steady.
#[tactic(auto, using(crate::proofs::ItemDraws::redraw_item_wraps))]
pub fn redraw_item_wraps()
    ensures { (self : Picture) → (r : ℕ) → (above : RowValue) → (any : Canvas) → IsPicture self → IsSteady self →
        AwaitsItem self r self.width above any → ends_blank above.cells ≡ false → r + 1 < length self.rows →
        row_at any.page (r + 1) ≡ blank_row default_attrs self.width →
        drawn_all (item_of_redraw (r + 1) 0 self.width true (row_of_picture self (r + 1))).ops any
        ≡ Some (row_drawn (r + 1) (formatted_row 0 self.width self.width (row_of_picture self (r + 1)))
        (item_of_redraw (r + 1) 0 self.width true (row_of_picture self (r + 1))).pen (going_on r any)) }
{}

/// States that each operation in the diff for a range of columns contains only
/// numbers and text that a terminal parses back unchanged.
#[tactic(auto, using(crate::proofs::PictureFits::difference_item_fits))]
pub fn difference_item_fits()
    ensures { (self : Picture) → (r start stop : ℕ) → (y : RowValue) → IsPicture self →
        IsColoredPicture self → r < length self.rows → start ≤ stop → stop ≤ self.width →
        AllByRecursion Fits (item_of_difference r start stop (row_of_picture self r) y).ops }
{}

/// States that each operation in the redraw for a range of columns contains
/// only numbers and text that a terminal parses back unchanged.
#[tactic(auto, using(crate::proofs::PictureFits::redraw_item_fits))]
pub fn redraw_item_fits()
    ensures { (self : Picture) → (r start stop : ℕ) → (linked : Bool) → IsPicture self →
        IsColoredPicture self → r < length self.rows → start ≤ stop → stop ≤ self.width →
        AllByRecursion Fits (item_of_redraw r start stop linked (row_of_picture self r)).ops }
{}
