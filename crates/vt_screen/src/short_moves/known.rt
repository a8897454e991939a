//! The facts that are known about a terminal while it reads drawing output.

ghost use Rattle.std.specs.Prelude.{◌≡◌, IfSome, IsTrue};
ghost use Rattle.vt_redraw.specs.declared.form.Form.TheVariants.{Portable};
ghost use Rattle.vt_screen.specs.Gaps.{IsCertainElement, IsDefaultAfter, IsKeptAfter, IsKeptFrom, IsLater};

use crate::short_moves::elements::Element;
use vt_cells::Pos;
use vt_redraw::Form;
use vt_redraw::certain::is_certain;

/// What is known about a terminal that displayed a certain picture (the display of a screen) and
/// has since read drawing output.
#[derive(Clone, Copy, PartialEq, Eq, Debug)]
pub struct Known {
    /// The form of the output.
    pub form: Form,

    /// The position of the cursor. `None` if it is unknown or a wrap is pending, and in the
    /// portable form also if terminals may disagree on it.
    pub at: Option<Pos>,

    /// A position such that the terminal still displays all narrow glyphs of the picture that are
    /// at or after it in reading order. `None` if the output may have changed any cell.
    pub kept: Option<Pos>,

    /// Whether the attributes are known to be the defaults. Meaningful only if `kept` is not
    /// `None`.
    pub is_default: bool,
}

impl Known {
    /// Returns the value of `kept` after the terminal has read `element`: a position such that all
    /// narrow glyphs at or after it in reading order are still displayed. Returns `None` if no such
    /// position is known. `element` is copied to the output unchanged. `to` is the position of the
    /// cursor after `element`, or `None` if it is unknown or a wrap is pending.
    #[inline(always)]
    pub fn kept_after(self, element: Element, to: Option<Pos>) -> Option<Pos>
        ensures { IfSome result (IsKeptAfter self element to) }
    {
        match element {
            Element::Ascii | Element::Other(_) => {
                let last = to?;
                self.kept_from(last)
            }
            Element::EraseChars(count) => {
                let from = self.at?;
                if count > u16::MAX - from.col {
                    return None;
                }
                self.kept_from(Pos {
                    row: from.row,
                    col: from.col + count,
                })
            }
            Element::EraseRest => {
                let from = self.at?;
                if from.row == u16::MAX {
                    return None;
                }
                self.kept_from(Pos {
                    row: from.row + 1,
                    col: 0,
                })
            }
            Element::Hide(_) | Element::ClearAttrs | Element::Attrs => self.kept,
            _ => None,
        }
    }

    /// Returns the later of `kept` and `changed` in reading order, which is the new value of `kept`
    /// if the cells before `changed` may have changed. Returns `None` if `kept` is `None`.
    #[inline(always)]
    pub fn kept_from(self, changed: Pos) -> Option<Pos>
        ensures { IfSome result (IsKeptFrom self changed) }
    {
        let kept = self.kept?;
        Some(later(kept, changed))
    }

    /// Returns whether the position of the cursor remains known when `element` is copied unchanged.
    /// In the portable form, terminals must agree on the width of the character that it prints.
    #[inline(always)]
    pub fn keeps_place(self, element: Element) -> bool
        ensures { IsTrue result → self.form ≡ Portable → IsCertainElement element }
    {
        match self.form {
            Form::Fixed => true,
            Form::Portable => is_certain_element(element),
        }
    }

    /// Returns whether the attributes are known to be the defaults after the terminal has read
    /// `element`, which is copied to the output unchanged.
    #[inline(always)]
    pub fn is_default_after(self, element: Element) -> bool
        ensures { IsTrue result → IsDefaultAfter self.is_default element }
    {
        match element {
            Element::ClearAttrs => true,
            Element::Attrs => false,
            _ => self.is_default,
        }
    }
}

/// Returns whether terminals agree on the width of the character that `element` prints, or whether
/// it prints none.
fn is_certain_element(element: Element) -> bool
    ensures { IsTrue result → IsCertainElement element }
{
    match element {
        Element::Other(c) => is_certain(c),
        _ => true,
    }
}

/// Returns the later of two positions in reading order.
#[inline(always)]
fn later(a: Pos, b: Pos) -> Pos
    ensures { IsLater a b result }
{
    if a.row > b.row || (a.row == b.row && a.col > b.col) {
        a
    } else {
        b
    }
}
