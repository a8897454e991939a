//! The texts of updates that several viewers may request.

ghost use Rattle.std.specs.Prelude.{◌≡◌, ◌⊎◌, IfSome, Some, if◌then◌else◌};
ghost use Rattle.vt_mirror.specs.Kept.{AreOfOneVersion, HoldsDiff, IsKeptAs, IsRedrawKeptAs, no_texts};
ghost use Rattle.vt_mirror.specs.declared.texts.KeptDiff.{KeptDiff};
ghost use Rattle.vt_mirror.specs.declared.texts.KeptRedraw.{KeptRedraw};

use crate::copies::Note;
use std::alloc::Global;
use vt100::DiffOptions;

/// The text of a diff, with its options and a copy of the screen from which the diff starts.
#[derive(Drop)]
pub(crate) struct KeptDiff {
    from: Note,
    options: DiffOptions,
    text: String,
}

/// The text of a redraw, and whether it is the portable form.
#[derive(Drop)]
pub(crate) struct KeptRedraw {
    portable: bool,
    text: String,
}

/// The stored texts of updates to the current screen: the last computed redraw and, with and
/// without the option `scroll`, the last computed diff. Viewers that were last updated to the same
/// screen need the same diff if they request it with the same options.
#[derive(Drop)]
pub(crate) struct Texts {
    drawn: Option<KeptDiff>,
    scrolling: Option<KeptDiff>,
    redraw: Option<KeptRedraw>,
}

impl Texts {
    /// Creates an empty store.
    pub(crate) fn new() -> Texts
        ensures { result ≡ no_texts }
    {
        Texts {
            drawn: None,
            scrolling: None,
            redraw: None,
        }
    }

    /// Returns the last computed diff with or without `scroll`, if it is stored.
    fn last_diff(&self, scroll: bool) -> &Option<KeptDiff>
        ensures { result.now ≡ (if scroll then self.now.scrolling else self.now.drawn) }
    {
        if scroll { &self.scrolling } else { &self.drawn }
    }

    /// Returns the stored text of the diff with the given options from the screen copied in `note`
    /// to the current screen, or `None` if that text is not stored.
    pub(crate) fn diff(&self, note: &Note, options: DiffOptions) -> Option<&str>
        ensures { IfSome result (λ text. (diff : KeptDiff) × HoldsDiff self.now diff
            × AreOfOneVersion note.now diff.from × IsKeptAs options text.now diff) }
    {
        match self.last_diff(options.scroll) {
            Some(diff) if note.is_of_version(&diff.from) && diff.options == options => {
                Some(diff.text.as_str())
            }
            _ => None,
        }
    }

    /// Stores `text`, the diff with the given options from the screen copied in `note` to the
    /// current screen, if the copy has other holders, which may need the same diff. Otherwise, or
    /// if an allocation fails, nothing is changed.
    pub(crate) fn keep_diff(&mut self, note: &Note, options: DiffOptions, text: &str, alloc: Global)
        ensures diffs { (diff : KeptDiff) → HoldsDiff self.new diff →
            HoldsDiff self.old diff ⊎ ((diff.from ≡ note.now) × IsKeptAs options text.now diff) }
        ensures redraw { self.new.redraw ≡ self.old.redraw }
    {
        if !note.screen.is_held_by_others() {
            return;
        }
        let Some(from) = note.share() else {
            return;
        };
        let Ok(text) = String::from_str(alloc, text) else {
            return;
        };
        let diff = Some(KeptDiff {
            from,
            options,
            text,
        });
        if options.scroll {
            self.scrolling = diff;
        } else {
            self.drawn = diff;
        }
    }

    /// Returns the stored text of the current screen's redraw in the portable or in the fixed form,
    /// or `None` if that text is not stored.
    pub(crate) fn redraw(&self, portable: bool) -> Option<&str>
        ensures { IfSome result (λ text. (kept : KeptRedraw) × (self.now.redraw ≡ Some kept)
            × IsRedrawKeptAs portable text.now kept) }
    {
        match &self.redraw {
            Some(kept) if kept.portable == portable => Some(kept.text.as_str()),
            _ => None,
        }
    }

    /// Stores `text`, the current screen's redraw in the portable or in the fixed form. If an
    /// allocation fails, nothing is changed.
    pub(crate) fn keep_redraw(&mut self, portable: bool, text: &str, alloc: Global)
        ensures { (self.new ≡ self.old) ⊎ ((kept : KeptRedraw) × (self.new ≡ record self.old { redraw = Some kept })
            × IsRedrawKeptAs portable text.now kept) }
    {
        let Ok(text) = String::from_str(alloc, text) else {
            return;
        };
        self.redraw = Some(KeptRedraw { portable, text });
    }
}
