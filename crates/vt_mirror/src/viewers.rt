//! The viewers of a mirror.

ghost use Rattle.std.specs.Prelude.{◌≡◌, ◌≢◌, ◌⊎◌, IfNone, IfOk, IfSome, IsOk, IsTrue, None, OnErr, OnOk, Some, [], false, true, ℕ};
ghost use Rattle.vt_cells.specs.Refusals.{OnlyOutOfMemory};
ghost use Rattle.vt_mirror.specs.Calls.{JoinsMirror, Leaves, greatest};
ghost use Rattle.vt_mirror.specs.Kept.{HasVersion, HaveNext, HoldsDiff, IsCurrentNote, IsKeptAs, IsRedrawKeptAs};
ghost use Rattle.vt_mirror.specs.Kept.{IsRenewed, no_texts};
ghost use Rattle.vt_mirror.specs.Mirror.{Puts, PutsAmong, is_among, is_viewer, next_number, note_of};
ghost use Rattle.vt_mirror.specs.declared.texts.KeptDiff.{KeptDiff};
ghost use Rattle.vt_mirror.specs.declared.texts.KeptRedraw.{KeptRedraw};
ghost use Rattle.vt_screen.specs.Screen.{ScreenValue};

use crate::copies::{Note, SharedCopy};
use crate::texts::Texts;
use std::alloc::Global;
use std::collections::{BTreeMap, BTreeSet};
use std::marker::Model;
use vt100::{DiffOptions, Error, Screen};

/// The viewers of a mirror, a copy of the screen at each viewer's last update, and the stored texts
/// of updates that several viewers may request.
#[derive(Drop)]
pub(crate) struct Viewers {
    /// The last viewer number that was assigned, if any.
    last: Option<u64>,
    numbers: BTreeSet<u64>,

    /// For each viewer that has been updated since the last resize, a copy of
    /// the screen at its last update. Viewers that were updated to the same
    /// screen share one copy.
    notes: BTreeMap<u64, Note>,

    /// The last version number that was assigned to a copy, or 0 if no copy has a version.
    version: u64,

    /// A copy of the current screen, if one was made since the screen last
    /// changed.
    current: Option<Note>,

    /// The stored texts of updates to the current screen.
    texts: Texts,
}

impl Model for Viewers {
    ghost use Rattle.vt_mirror.specs.Kept.{AreKept, KeptValue, copies_of, current_in, screen_of, screens_of};

    ghost Value = { KeptValue };

    ghost view = { λ v. record {
      viewers = record { last = v.last; numbers = v.numbers.keys; notes = screens_of v.notes.entries };
      current = screen_of v.current;
      texts = v.texts;
      current_viewers = current_in v.numbers.keys v.notes.entries v.current;
    } };

    ghost invariant = { λ v. AreKept
        (record { last = v.last; numbers = v.numbers.keys; notes = screens_of v.notes.entries })
        (copies_of v.notes.entries v.current v.texts) v.version };
}

impl Viewers {
    /// Creates an empty set of viewers.
    pub(crate) fn new(alloc: Global) -> Viewers
        ensures last { result.viewers.last ≡ None }
        ensures nobody { result.viewers.numbers ≡ [] }
        ensures nothing { result.viewers.notes ≡ [] }
        ensures current { result.current ≡ None }
        ensures texts { result.texts ≡ no_texts }
        ensures nobody_current { result.current_viewers ≡ [] }
    {
        Viewers {
            last: None,
            numbers: BTreeSet::new(alloc),
            notes: BTreeMap::new(alloc),
            version: 0,
            current: None,
            texts: Texts::new(),
        }
    }

    /// Adds a viewer and returns its number: 0 for the first viewer, and otherwise the number after
    /// the last one that was assigned.
    ///
    /// # Errors
    ///
    /// Returns `Error::NoNumber` if `u64::MAX` has already been returned, and `Error::OutOfMemory`
    /// if an allocation fails. On error, nothing is changed.
    pub(crate) fn join(&mut self) -> Result<u64, Error>
        ensures call { JoinsMirror self.old.viewers result self.new.viewers }
        ensures rest { self.new ≡ record self.old {
          viewers = self.new.viewers;
          current_viewers = self.new.current_viewers;
        } }
        ensures current { (viewer : ℕ) →
            is_among self.new.current_viewers viewer ≡ is_among self.old.current_viewers viewer }
        ensures refused { OnErr result (self.new.current_viewers ≡ self.old.current_viewers) }
    {
        let Some(viewer) = next_after(self.last) else {
            return Err(Error::NoNumber);
        };
        if self.numbers.insert(viewer).is_err() {
            return Err(Error::OutOfMemory);
        }
        self.last = Some(viewer);
        Ok(viewer)
    }

    /// Removes the viewer whose number is `viewer`. Returns whether there was
    /// one.
    pub(crate) fn leave(&mut self, viewer: u64) -> bool
        ensures call { Leaves self.old.viewers viewer result self.new.viewers }
        ensures rest { self.new ≡ record self.old {
          viewers = self.new.viewers;
          current_viewers = self.new.current_viewers;
        } }
        ensures current { PutsAmong self.old.current_viewers viewer false self.new.current_viewers }
    {
        self.notes.remove(&viewer);
        self.numbers.remove(&viewer)
    }

    /// Returns whether there is a viewer whose number is `viewer`.
    pub(crate) fn has(&self, viewer: u64) -> bool
        ensures { result ≡ is_viewer self.now.viewers viewer }
    {
        self.numbers.contains(&viewer)
    }

    /// Returns the copy of the screen recorded for a viewer, and the stored text of the diff with the
    /// given options from that screen to the current one, or `None` in its place if that text is
    /// not stored. Returns `None` if no screen is recorded.
    pub(crate) fn noted(
        &self,
        viewer: u64,
        options: DiffOptions,
    ) -> Option<(&SharedCopy, Option<&str>)>
        ensures some { IfSome result (λ found. note_of self.now.viewers viewer ≡ Some found.0.now) }
        ensures kept { IfSome result (λ found. IfSome found.1 (λ text. (diff : KeptDiff) × HoldsDiff self.now.texts diff
            × (note_of self.now.viewers viewer ≡ Some diff.from.screen) × IsKeptAs options text.now diff)) }
        ensures none { IfNone result (note_of self.now.viewers viewer ≡ None) }
    {
        match self.notes.get(&viewer) {
            Some(note) => Some((&note.screen, self.texts.diff(note, options))),
            None => None,
        }
    }

    /// Returns whether a viewer has been updated since the screen last changed,
    /// which means that the screen recorded for it is the current one.
    pub(crate) fn is_current(&self, viewer: u64) -> bool
        ensures exact { result ≡ is_among self.now.current_viewers viewer }
        ensures noted { IsTrue result → (screen : ScreenValue)
            × (note_of self.now.viewers viewer ≡ Some screen) × (self.now.current ≡ Some screen) }
    {
        let Some(current) = &self.current else {
            return false;
        };
        match self.notes.get(&viewer) {
            Some(note) => note.is_of_version(current),
            None => false,
        }
    }

    /// Stores `text`, the diff with the given options from the screen recorded for a viewer to the
    /// current screen, if other viewers may need it and memory can be allocated.
    pub(crate) fn keep_diff(&mut self, viewer: u64, options: DiffOptions, text: &str, alloc: Global)
        ensures rest { self.new ≡ record self.old { texts = self.new.texts } }
        ensures redraw { self.new.texts.redraw ≡ self.old.texts.redraw }
        ensures diffs { (diff : KeptDiff) → HoldsDiff self.new.texts diff →
            HoldsDiff self.old.texts diff
            ⊎ ((note_of self.old.viewers viewer ≡ Some diff.from.screen) × IsKeptAs options text.now diff) }
    {
        let Some(note) = self.notes.get(&viewer) else {
            return;
        };
        self.texts.keep_diff(note, options, text, alloc);
    }

    /// Returns the stored text of the current screen's redraw in the portable or in the fixed form,
    /// or `None` if that text is not stored.
    pub(crate) fn kept_redraw(&self, portable: bool) -> Option<&str>
        ensures { IfSome result (λ text. (kept : KeptRedraw) × (self.now.texts.redraw ≡ Some kept)
            × IsRedrawKeptAs portable text.now kept) }
    {
        self.texts.redraw(portable)
    }

    /// Stores `text`, the redraw of the current screen in the portable or in the fixed form, if
    /// there are at least two viewers and memory can be allocated.
    pub(crate) fn keep_redraw(&mut self, portable: bool, text: &str, alloc: Global)
        ensures { (self.new ≡ self.old) ⊎ ((kept : KeptRedraw)
            × (self.new ≡ record self.old { texts = record (self.old.texts) { redraw = Some kept } })
            × IsRedrawKeptAs portable text.now kept) }
    {
        if self.numbers.len() < 2 {
            return;
        }
        self.texts.keep_redraw(portable, text, alloc);
    }

    /// Records `screen`, the current screen, as the screen at a viewer's last update.
    ///
    /// # Errors
    ///
    /// Returns `Error::OutOfMemory` if an allocation fails. On error, the records are unchanged.
    /// There is no error if the viewer is up to date.
    pub(crate) fn note(&mut self, viewer: u64, screen: &Screen, alloc: Global) -> Result<(), Error>
        requires viewer { is_viewer self.old.viewers viewer ≡ true }
        requires current { IfSome self.old.current (λ current. current ≡ screen.now) }
        ensures ok { OnOk result (Puts self.old.viewers viewer true (Some screen.now) self.new.viewers) }
        ensures last { self.new.viewers.last ≡ self.old.viewers.last }
        ensures err { OnErr result (self.new.viewers ≡ self.old.viewers) }
        ensures current { IfSome self.new.current (λ current. current ≡ screen.now) }
        ensures texts { self.new.texts ≡ self.old.texts }
        ensures noted { OnOk result
            (PutsAmong self.old.current_viewers viewer true self.new.current_viewers) }
        ensures unnoted { OnErr result (self.new.current_viewers ≡ self.old.current_viewers) }
        ensures memory { OnlyOutOfMemory result }
        ensures never { is_among self.old.current_viewers viewer ≡ true → IsOk result }
    {
        if self.is_current(viewer) {
            return Ok(());
        }
        let note = current_note(alloc, screen, &mut self.version, &mut self.current)?;
        if self.notes.insert(viewer, note).is_err() {
            return Err(Error::OutOfMemory);
        }
        Ok(())
    }

    /// Drops the copy of the current screen and the stored text of all updates.
    /// The mirror must call this function when the screen changes.
    pub(crate) fn discard_current(&mut self)
        ensures { self.new ≡ record self.old {
          current = None;
          texts = no_texts;
          current_viewers = [];
        } }
    {
        self.current = None;
        self.texts = Texts::new();
        ensure_next_version(&mut self.version, &mut self.notes);
    }

    /// Drops all copies of screens, including those recorded for viewers, and
    /// the stored text of all updates. The mirror must call this function when
    /// the size changes.
    pub(crate) fn discard_all(&mut self)
        ensures { self.new ≡ record {
          viewers = record (self.old.viewers) { notes = [] };
          current = None;
          texts = no_texts;
          current_viewers = [];
        } }
    {
        self.discard_current();
        self.notes.clear();
    }
}

/// Ensures that there is a version number for the next copy. If `version`, the last version number
/// that was assigned, is `u64::MAX`, sets it to 0 and removes the version numbers of the recorded
/// copies, `notes`.
fn ensure_next_version(version: &mut u64, notes: &mut BTreeMap<u64, Note>)
    ensures { HaveNext version.old notes.old.entries version.new notes.new.entries }
{
    if *version < u64::MAX {
        return;
    }
    notes.retain(|_, note| {
        note.version = 0;
        true
    });
    *version = 0;
}

/// Returns a note with a copy of the current screen and the version of that copy. The note shares
/// the copy in `current`; if there is none, a new copy with the next version is stored there first.
/// If the shared copy has the maximum number of handles, the note gets a copy of its own.
///
/// # Errors
///
/// Returns `Error::OutOfMemory` if a copy is needed and cannot be allocated.
fn current_note(
    alloc: Global,
    screen: &Screen,
    version: &mut u64,
    current: &mut Option<Note>,
) -> Result<Note, Error>
    requires same { IfSome current.old (λ note. note.screen ≡ screen.now) }
    requires numbered { HasVersion current.old version.old }
    ensures ok { IfOk result (IsCurrentNote screen.now current.new) }
    ensures renewed { IsRenewed screen.now version.old current.old version.new current.new }
    ensures memory { OnlyOutOfMemory result }
{
    if let Some(note) = current {
        let screen = shared_or_new(alloc, screen, &note.screen)?;
        return Ok(Note {
            version: note.version,
            screen,
        });
    }
    let kept = SharedCopy::new(alloc, screen)?;
    let screen = shared_or_new(alloc, screen, &kept)?;
    *version += 1;
    *current = Some(Note {
        version: *version,
        screen: kept,
    });
    Ok(Note {
        version: *version,
        screen,
    })
}

/// Returns another shared handle to `copy`, or a handle to a new copy of the screen if `copy` has
/// the maximum number of handles.
///
/// # Errors
///
/// Returns `Error::OutOfMemory` if a new copy is needed and cannot be allocated.
fn shared_or_new(alloc: Global, screen: &Screen, copy: &SharedCopy) -> Result<SharedCopy, Error>
    requires { copy.now ≡ screen.now }
    ensures ok { IfOk result (λ copy. copy ≡ screen.now) }
    ensures memory { OnlyOutOfMemory result }
{
    match copy.share() {
        Some(copy) => Ok(copy),
        None => SharedCopy::new(alloc, screen),
    }
}

/// Returns the number after `last`: 0 if `last` is `None`, and `None` if `last`
/// is `u64::MAX`.
fn next_after(last: Option<u64>) -> Option<u64>
    ensures some { IfSome result (λ viewer. (viewer ≡ next_number last) × (last ≢ Some greatest)) }
    ensures none { IfNone result (last ≡ Some greatest) }
{
    match last {
        Some(last) => last.checked_add(1),
        None => Some(0),
    }
}
