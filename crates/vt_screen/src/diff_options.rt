//! Options for diffs.

ghost use Rattle.std.specs.Prelude.{◌≡◌, false};
ghost use Rattle.vt_screen.specs.declared.repeat.Repeat.TheVariants.{Never};

use crate::repeat::Repeat;

/// Options that allow a diff to move rows or columns or to write runs of a character with REP, or
/// that make it portable.
///
/// By default, none of these applies: `Screen::contents_diff_with` then returns what
/// `Screen::contents_diff` returns.
#[derive(Clone, Copy, PartialEq, Eq, Debug)]
pub struct DiffOptions {
    /// Whether the diff may move rows or columns before it draws the remaining changes, as
    /// `Screen::contents_diff_scrolling` does.
    pub scroll: bool,

    /// The characters whose runs may be written with REP (ECMA-48, 8.3.103).
    pub repeat: Repeat,

    /// Whether the diff avoids sequences on whose effects terminals disagree. A portable diff moves
    /// no columns; with `scroll`, it may move rows.
    pub portable: bool,
}

impl Default for DiffOptions {
    fn default() -> Self
        ensures { result ≡ record { scroll = false; repeat = Never; portable = false } }
    {
        DiffOptions {
            scroll: false,
            repeat: Repeat::Never,
            portable: false,
        }
    }
}
