//! Control functions that never scroll rows off the page.

ghost use Rattle.std.specs.Prelude.{◌≡◌};
ghost use Rattle.vt_screen.specs.Steps as step;
ghost use Rattle.vt_screen.specs.Steps.{display_after};

use super::Screen;
use crate::mode_step::ModeStep;
use crate::sgr::Setting;
use vt_grid::PageStep;

/// Applies a step to the active page. Erased cells become blanks with the
/// current attributes.
#[inline(always)]
pub fn apply(screen: &mut Screen, page_step: PageStep)
    ensures { screen.new ≡ display_after (step.OnPage page_step) screen.old }
{
    screen.grid.apply(page_step, screen.attrs);
}

/// Applies one SGR setting to the current attributes.
#[inline(always)]
pub fn render(screen: &mut Screen, setting: Setting)
    ensures { screen.new ≡ display_after (step.Render setting) screen.old }
{
    screen.attrs = setting.applied_to(screen.attrs);
}

/// Hides the cursor if `hidden` is true, and shows it otherwise (DECTCEM).
pub fn set_hidden(screen: &mut Screen, hidden: bool)
    ensures { screen.new ≡ display_after (step.HideCursor hidden) screen.old }
{
    screen.hidden = hidden;
}

/// Applies the change `mode_step` to the modes.
#[inline(always)]
pub fn set_mode(screen: &mut Screen, mode_step: ModeStep)
    ensures { screen.new ≡ display_after (step.SetMode mode_step) screen.old }
{
    screen.modes.apply(mode_step);
}
