//! Portable redraws and diffs of screens, and portable updates of mirrors, for every terminal that
//! obeys the laws of `vt_terminals`. The functions call those of `Screen` and `Mirror`; their clauses
//! `everywhere` state what each such terminal displays after it has read the text.
#![tactic(auto)]

ghost use Rattle.std.specs.Prelude.{◌≡◌, ◌++◌, ℕ, List, length, true, IfOk, IfSome};
ghost use Rattle.vt_everywhere.specs.Viewers.{ShowsUpdate, portable_options};
ghost use Rattle.vt_grid.specs.Page.{SameSize};
ghost use Rattle.vt_mirror.specs.Calls.{Asks};
ghost use Rattle.vt_mirror.specs.Mirror.{note_of};
ghost use Rattle.vt_redraw.specs.Steady.{IsSteady};
ghost use Rattle.vt_screen.specs.Shown.{display};
ghost use Rattle.vt_screen.specs.TextResults.{IfText};
ghost use Rattle.vt_terminals.specs.BlackBox.{BlackBox, IsLawful, ShowsAfter};
ghost use Rattle.vt_terminals.specs.Room.{HasRoom, IsPlaced};
ghost use Rattle.vt_terminals.specs.Terminal.{Positions};

use vt_cells::Error;
use vt_mirror::{Mirror, Update};
use vt_screen::{DiffOptions, RedrawOptions, Repeat, Screen};

pub mod laws;

/// Returns the portable redraw of a screen.
///
/// If the screen is steady, every lawful terminal of the screen's size that reads the text displays
/// the screen, whatever it has read before, except perhaps for the cells `near` glyphs on whose width
/// terminals may disagree. These glyphs must have room (`HasRoom`).
///
/// # Errors
///
/// Returns `Error::OutOfMemory` if the text cannot be allocated.
pub fn portable_redraw(screen: &Screen) -> Result<String, Error>
    ensures everywhere { (near : Positions) → IsSteady (display screen.now) → HasRoom near (display screen.now) →
        IfText result (λ text. (box : BlackBox) → IsLawful box → (display screen.now).width ≡ box.width →
        length (display screen.now).rows ≡ box.height → (before : List ℕ) → box.is_ready before ≡ true →
        ShowsAfter box near (display screen.now) (before ++ text)) }
{
    let _size = screen.size();
    screen.contents_formatted_with(RedrawOptions { portable: true })
}

/// Returns the portable diff from `prev` to `screen`.
///
/// If `screen` is steady, every lawful terminal that displays `prev` and reads the text displays
/// `screen`, both except perhaps for the cells `near` glyphs on whose width terminals may disagree.
/// The glyphs of `screen` must have room (`HasRoom`). On `prev`, no wrap may be pending after a glyph
/// on whose width terminals may disagree.
///
/// # Errors
///
/// Returns `Error::OutOfMemory` if the text cannot be allocated.
pub fn portable_diff(screen: &Screen, prev: &Screen) -> Result<String, Error>
    requires { SameSize screen.now.page prev.now.page }
    ensures everywhere { (near : Positions) → IsSteady (display screen.now) → HasRoom near (display screen.now) →
        IsPlaced (display prev.now) →
        IfText result (λ text. (box : BlackBox) → IsLawful box → (display screen.now).width ≡ box.width →
        length (display screen.now).rows ≡ box.height → (before : List ℕ) →
        ShowsAfter box near (display prev.now) before → ShowsAfter box near (display screen.now) (before ++ text)) }
{
    let _size = screen.size();
    let _other = prev.size();
    screen.contents_diff_with(
        prev,
        DiffOptions {
            scroll: false,
            repeat: Repeat::Never,
            portable: true,
        },
    )
}

/// Returns the next portable update of the viewer whose number is `viewer`, or `None` if there is no
/// such viewer, as [`Mirror::update_with`] does with the option `portable`.
///
/// If the mirror's screen is steady, every lawful terminal of its size that displays the screen at
/// the viewer's last update displays the mirror's screen after it has read the update, both except
/// perhaps for the cells `near` glyphs on whose width terminals may disagree. A full update needs no
/// such premise. The glyphs of both screens must have room (`HasRoom`).
/// [`laws::viewers`] states this for all updates of a viewer.
///
/// # Errors
///
/// Returns `Error::OutOfMemory` if an allocation fails, as `Mirror::update_with` does.
#[tactic(auto, using(crate::proofs::Viewers::shows_update))]
pub fn portable_update(mirror: &mut Mirror, viewer: u64) -> Result<Option<Update>, Error>
    ensures call { Asks portable_options mirror.old viewer result mirror.new }
    ensures everywhere { IfOk result (λ update.
        IfSome update (ShowsUpdate mirror.old.parser.screen (note_of mirror.old.viewers viewer))) }
{
    let options = DiffOptions {
        scroll: false,
        repeat: Repeat::Never,
        portable: true,
    };
    mirror.update_with(viewer, options)
}
