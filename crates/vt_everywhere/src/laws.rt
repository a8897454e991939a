//! Laws about chains of portable output and about viewers of mirrors. The functions do nothing when
//! called; their clauses state what is proved.

ghost use Rattle.std.specs.Prelude.{◌≡◌, ◌++◌, ℕ, List, None, true};
ghost use Rattle.std.specs.List.{AllByRecursion, FoldsTo};
ghost use Rattle.vt_everywhere.specs.Chains.{CanShowScreen, portable_texts};
ghost use Rattle.vt_everywhere.specs.Viewers.{ShowsLast, ViewerGoes, Viewing};
ghost use Rattle.vt_mirror.specs.Watching.{IsFresh, MirrorCall};
ghost use Rattle.vt_redraw.specs.declared.form.Form.TheVariants.{Portable};
ghost use Rattle.vt_screen.specs.Chain.{last_screen};
ghost use Rattle.vt_screen.specs.Screen.{ScreenValue};
ghost use Rattle.vt_screen.specs.Shown.{display, shown_text_in};
ghost use Rattle.vt_terminals.specs.BlackBox.{BlackBox, IsLawful, ShowsAfter};
ghost use Rattle.vt_terminals.specs.Terminal.{Positions};

/// States that a portable redraw followed by any chain of portable diffs, each from the previous
/// screen to the next, makes every lawful terminal display the last screen, whatever the terminal has
/// read before, except perhaps for the cells `near` glyphs on whose width terminals may disagree.
///
/// The screens must be steady and have the terminal's size, and their glyphs of uncertain width must
/// have room. The texts are those that [`crate::portable_redraw`] and [`crate::portable_diff`]
/// return (`text` of `contents_formatted_with` and `contents_diff_with`).
pub fn everywhere()
    ensures shows { (box : BlackBox) → IsLawful box → (near : Positions) → (self : ScreenValue) →
        (nexts : List ScreenValue) → (before : List ℕ) → CanShowScreen box near self →
        AllByRecursion (CanShowScreen box near) nexts → box.is_ready before ≡ true →
        ShowsAfter box near (display (last_screen self nexts))
        (before ++ (shown_text_in Portable self ++ portable_texts self nexts)) }
{}

/// States that every lawful terminal that reads the updates of one viewer of a mirror displays the
/// mirror's screen as it was at the viewer's last update, whatever calls were made on the mirror, and
/// whatever the terminal had read before, except perhaps for the cells `near` glyphs on whose width
/// terminals may disagree.
///
/// The mirror must be new. Each update of the viewer must be portable, without moved rows and
/// repetitions, as [`crate::portable_update`] returns it. At each of these updates, the mirror's
/// screen must be steady and have the terminal's size, and its glyphs of uncertain width must have
/// room. The viewer may have joined late, and other viewers may have any updates.
pub fn viewers()
    ensures everywhere { (box : BlackBox) → IsLawful box → (near : Positions) → (number : ℕ) →
        (calls : List MirrorCall) → (old new : Viewing) → IsFresh old.mirror → box.is_ready old.read ≡ true →
        old.seen ≡ None → FoldsTo (ViewerGoes box near number) old calls new → ShowsLast box near new }
{}
