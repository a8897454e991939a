//! A terminal with viewers.

ghost use Rattle.std.specs.Prelude.{◌≡◌, ◌↔◌, IfOk, IfSome, IsOk, IsTrue, None, OnErr, OnOk, Some, [], false, string_bytes, true, ℕ};
ghost use Rattle.vt_cells.specs.Refusals.{OnlyOutOfMemory};
ghost use Rattle.vt_grid.specs.Page.{SameSize};
ghost use Rattle.vt_mirror.specs.Calls.{Asks, IsDiffFor, IsFullUpdate, IsPortableUpdate, IsUpdate, JoinsMirror, Leaves};
ghost use Rattle.vt_mirror.specs.Calls.{MirrorProcesses, Resizes, default_options, scrolling_options};
ghost use Rattle.vt_mirror.specs.Mirror.{Puts, PutsAmong, ShowsFreshScreen, is_current, is_viewer, note_of};
ghost use Rattle.vt_mirror.specs.Kept.{IsRedraw};
ghost use Rattle.vt_redraw.specs.Steady.{IsSteady};
ghost use Rattle.vt_redraw.specs.declared.form.Form.{Form};
ghost use Rattle.vt_scan.specs.Automaton.{State, start};
ghost use Rattle.vt_scan.specs.Scanner.{StandsFor};
ghost use Rattle.vt_screen.specs.Screen.{IsColored, IsScreen};
ghost use Rattle.vt_screen.specs.Shown.{display, form_of};
ghost use Rattle.vt_screen.specs.TextResults.{IfText};

use crate::update::Update;
use crate::viewers::Viewers;
use std::alloc::Global;
use std::marker::Model;
use std::num::NonZeroU16;
use vt100::{DiffOptions, Error, Parser, RedrawOptions, Repeat, Screen};

/// An in-memory terminal with any number of viewers: other terminals that are
/// kept in sync with it by escape sequences.
///
/// Each viewer has a number, and the mirror records what the screen displayed at each viewer's last
/// update. A viewer may therefore miss any number of calls; its next update makes up for all of
/// them. [`laws::viewers`](crate::laws::viewers) states this guarantee over any sequence of calls.
///
/// Viewers that were last updated to the same screen share one copy of it, and they also share the
/// text of their next update. An additional viewer that keeps up therefore takes little memory and
/// time. A viewer needs its own copy and its own diff only if no other viewer was last updated to
/// the same screen. A copy contains neither scrollback nor the inactive page (see
/// `Screen::shown_copy`).
///
/// # Examples
///
/// ```text
/// let mut mirror = Mirror::new(rt.alloc(), rows, cols, 0)?;
/// let viewer = mirror.join()?;
/// mirror.process(b"ab")?;
/// if let Some(Update::Full { text, .. }) = mirror.update(viewer)? {
///     assert_eq!(text.as_str(), "\x1b[?25h\x1b[m\x1b[H\x1b[Jab");
/// }
/// ```
pub struct Mirror {
    alloc: Global,
    parser: Parser,
    viewers: Viewers,
}

impl Model for Mirror {
    ghost use Rattle.vt_mirror.specs.Mirror.{MirrorValue};
    ghost use Rattle.vt_mirror.specs.Kept.{IsSharing};

    ghost Value = { MirrorValue };

    ghost view = { λ m. record {
      parser = m.parser;
      viewers = m.viewers.viewers;
      current = m.viewers.current_viewers;
    } };

    ghost invariant = { λ m. IsSharing m.parser m.viewers };
}

// `Drop` is implemented by hand so that dropping a mirror is a single call in callers' proofs, as
// for `Screen`.
impl Drop for Mirror {
    fn drop(self) {
        let Mirror {
            alloc: _,
            parser: _,
            viewers: _,
        } = self;
    }
}

impl Mirror {
    /// Creates a mirror with a fresh screen and no viewers. Scrollback keeps
    /// the last `scrollback_capacity` rows that scroll off the top.
    ///
    /// # Errors
    ///
    /// Returns `Error::OutOfMemory` if the screen cannot be allocated.
    pub fn new(
        alloc: Global,
        rows: NonZeroU16,
        cols: NonZeroU16,
        scrollback_capacity: usize,
    ) -> Result<Mirror, Error>
        ensures ground { IfOk result (λ mirror. StandsFor mirror.parser.scanner start) }
        ensures shown { IfOk result (ShowsFreshScreen rows.value cols.value scrollback_capacity) }
        ensures last { IfOk result (λ mirror. mirror.viewers.last ≡ None) }
        ensures nobody { IfOk result (λ mirror. mirror.viewers.numbers ≡ []) }
        ensures nothing { IfOk result (λ mirror. mirror.viewers.notes ≡ []) }
        ensures current { IfOk result (λ mirror. mirror.current ≡ []) }
        ensures memory { OnlyOutOfMemory result }
    {
        Ok(Mirror {
            alloc,
            parser: Parser::new(alloc, rows, cols, scrollback_capacity)?,
            viewers: Viewers::new(alloc),
        })
    }

    /// Parses `bytes` and applies them to the screen, as `Parser::process`
    /// does. Each viewer receives the changes with its next update.
    ///
    /// # Errors
    ///
    /// Returns `Error::OutOfMemory` if an allocation fails. The steps before the failing step
    /// remain in effect. From then on, the mirror reads nothing and returns `Error::Failed`, but
    /// viewers can still join, leave and be updated.
    pub fn process(&mut self, bytes: &[u8]) -> Result<(), Error>
        ensures call { MirrorProcesses self.old bytes.now result self.new }
    {
        // Only for the proof: the contract of `size` says that every screen is valid, and parsing
        // keeps the size of a valid screen.
        self.parser.screen().size();
        self.viewers.discard_current();
        self.parser.process(bytes)
    }

    /// Returns whether the mirror is in ground state: no escape sequence, control string or
    /// character is half read (see `Parser::is_ground`).
    pub fn is_ground(&self) -> bool
        ensures start { IsTrue result ↔ StandsFor self.now.parser.scanner start }
        ensures state { (state : State) → StandsFor self.now.parser.scanner state
            → IsTrue result ↔ (state ≡ start) }
    {
        self.parser.is_ground()
    }

    /// Resizes the screen, as `Parser::set_size` does. After a resize, the next update of every
    /// viewer is a full update. A resize to the current size changes nothing and never fails.
    ///
    /// # Errors
    ///
    /// Returns `Error::OutOfMemory` if an allocation fails. On error, nothing
    /// is changed.
    pub fn set_size(&mut self, rows: NonZeroU16, cols: NonZeroU16) -> Result<(), Error>
        ensures call { Resizes self.old rows.value cols.value result self.new }
    {
        if self.parser.screen().size() == (rows, cols) {
            return Ok(());
        }
        self.parser.set_size(rows, cols)?;
        self.viewers.discard_all();
        Ok(())
    }

    /// Adds a viewer and returns its number. The first viewer gets the number
    /// 0, and each later viewer gets the next number. No number is returned
    /// twice.
    ///
    /// # Errors
    ///
    /// Returns `Error::NoNumber` if and only if `u64::MAX` has already been
    /// returned, and `Error::OutOfMemory` if an allocation fails. On error,
    /// nothing is changed.
    pub fn join(&mut self) -> Result<u64, Error>
        ensures parser { self.new.parser ≡ self.old.parser }
        ensures call { JoinsMirror self.old.viewers result self.new.viewers }
        ensures current { (viewer : ℕ) → is_current self.new viewer ≡ is_current self.old viewer }
        ensures refused { OnErr result (self.new ≡ self.old) }
    {
        self.viewers.join()
    }

    /// Removes the viewer whose number is `viewer`. Returns whether there was one.
    pub fn leave(&mut self, viewer: u64) -> bool
        ensures parser { self.new.parser ≡ self.old.parser }
        ensures call { Leaves self.old.viewers viewer result self.new.viewers }
        ensures current { PutsAmong self.old.current viewer false self.new.current }
    {
        self.viewers.leave(viewer)
    }

    /// Returns the next update of the viewer whose number is `viewer`, or `None` if and only if
    /// there is no such viewer.
    ///
    /// The first update, and the first update after a resize, is a full redraw with at least one
    /// row and one column. Every other update is a diff from the screen at the viewer's last update
    /// to the current screen. The diff is empty if the display has not changed since that update.
    /// If the screen is steady (each glyph reproduces itself when printed), the diff is empty only
    /// in that case, and reading the diff touches only rows that differ, the rows directly below
    /// them, and possibly the end of one row, as with `Screen::contents_diff`.
    ///
    /// A plain terminal is one in ground state, with the full scroll region, origin mode off and no
    /// scrollback displayed. Suppose that such a terminal reads all updates of one viewer in order,
    /// and is resized to the size of each full update before it reads that update. It then displays
    /// the mirror's screen as it was at the last update, provided that the screen was steady at
    /// each update (see `Screen::contents_formatted`).
    ///
    /// # Errors
    ///
    /// Returns `Error::OutOfMemory` if the text of the update or the copy of the screen that is
    /// recorded cannot be allocated. On error, nothing is changed, and the same update can be
    /// requested again. There is no error if the viewer is up to date (clause `never`; see
    /// [`is_current`](Mirror::is_current)).
    pub fn update(&mut self, viewer: u64) -> Result<Option<Update>, Error>
        ensures call { Asks default_options self.old viewer result self.new }
        ensures never { is_current self.old viewer ≡ true → IsOk result }
    {
        self.update_with(viewer, DiffOptions::default())
    }

    /// Returns the viewer's next update, as [`update`](Mirror::update) does, except that a diff may
    /// begin by moving rows or columns.
    ///
    /// As with `Screen::contents_diff_scrolling`, the diff is never longer than the one that
    /// `update` would return or than the redraw, may be much shorter after text has scrolled, and
    /// may touch any row.
    /// If the screen at the viewer's last update was not steady, the update is a full update. A
    /// viewer that gets all its updates from this function therefore displays each steady screen,
    /// whatever came before (`laws::heals`). Each update may come from `update`, `update_scrolling`
    /// or [`update_with`](Mirror::update_with).
    ///
    /// # Errors
    ///
    /// Returns `Error::OutOfMemory` if an allocation fails, as `update` does. On error, nothing is
    /// changed, and the same update can be requested again. There is no error if the viewer is up
    /// to date and the screen is steady (clause `never`).
    pub fn update_scrolling(&mut self, viewer: u64) -> Result<Option<Update>, Error>
        ensures call { Asks scrolling_options self.old viewer result self.new }
        ensures never { is_current self.old viewer ≡ true → IsSteady (display self.old.parser.screen) → IsOk result }
    {
        let options = DiffOptions {
            scroll: true,
            ..DiffOptions::default()
        };
        self.update_with(viewer, options)
    }

    /// Returns the viewer's next update, as [`update`](Mirror::update) does, with the given
    /// options.
    ///
    /// With `scroll`, a diff may begin by moving rows or columns, and the update is a full one if
    /// the screen at the viewer's last update was not steady, as with
    /// [`update_scrolling`](Mirror::update_scrolling). Runs of the one-column characters that
    /// `repeat` allows may be written with REP (ECMA-48, 8.3.103) in a diff, as with
    /// `Screen::contents_diff_with`. Some terminals ignore REP, and tmux 3.3a performs it only after
    /// ASCII characters, so allow only what the viewer's terminal performs. Each update may use
    /// different options, and may also come from `update` or `update_scrolling`.
    ///
    /// With `portable`, the update avoids sequences on whose effects terminals disagree, as
    /// `Screen::contents_formatted_with` and `Screen::contents_diff_with` do. If the screen is
    /// steady, terminals agree on the effect of each sequence of a full update, whatever they
    /// differ in before, and terminals that display the screen at the viewer's last update agree on
    /// that of each sequence of a diff (clause `portable`).
    ///
    /// # Errors
    ///
    /// Returns `Error::OutOfMemory` if an allocation fails, as `update` does.
    /// On error, nothing is changed, and the same update can be requested
    /// again. There is no error if the viewer is up to date and the screen is
    /// steady; without `scroll`, the screen need not be steady (clause `never`).
    #[tactic(auto, using(crate::proofs::Bookkeeping::portable_update))]
    pub fn update_with(
        &mut self,
        viewer: u64,
        options: DiffOptions,
    ) -> Result<Option<Update>, Error>
        ensures call { Asks options self.old viewer result self.new }
        ensures portable { IsTrue options.portable → IfOk result (λ update.
            IfSome update (IsPortableUpdate self.old.parser.screen (note_of self.old.viewers viewer))) }
        ensures never { is_current self.old viewer ≡ true →
            (options.scroll ≡ true → IsSteady (display self.old.parser.screen)) → IsOk result }
    {
        if !self.viewers.has(viewer) {
            return Ok(None);
        }
        let update = self.next_update(viewer, options)?;
        self.note(viewer)?;
        Ok(Some(update))
    }

    /// Returns whether the viewer is up to date, which means that it has had an update since the
    /// last call to [`process`](Mirror::process) and the last change of size. The next update of
    /// such a viewer cannot fail and is an empty diff. If the screen is not steady, this does not
    /// apply to `update_scrolling` or to `update_with` with `scroll`, which then return a full
    /// update. This function allocates nothing and reads no cells.
    ///
    /// Returns `false` if there is no viewer whose number is `viewer`. After each call to
    /// `process`, returns `false` for every viewer until that viewer's next update, even if the
    /// display has not changed.
    pub fn is_current(&self, viewer: u64) -> bool
        ensures exact { result ≡ is_current self.now viewer }
        ensures noted { IsTrue result → note_of self.now.viewers viewer ≡ Some self.now.parser.screen }
    {
        self.viewers.is_current(viewer)
    }

    /// Returns an update with the full redraw of the screen, in the portable or in the fixed form.
    ///
    /// # Errors
    ///
    /// Returns `Error::OutOfMemory` if the text of the update cannot be allocated.
    fn full(&mut self, portable: bool) -> Result<Update, Error>
        ensures same { self.new ≡ self.old }
        ensures ok { IfOk result (λ update. IsFullUpdate (form_of portable) self.old.parser.screen update) }
        ensures memory { OnlyOutOfMemory result }
    {
        let screen = self.parser.screen();
        if let Some(kept) = self.viewers.kept_redraw(portable) {
            let copy = String::from_str(self.alloc, kept)?;
            return Ok(full_of(screen, copy));
        }
        let text = screen.contents_formatted_with(RedrawOptions { portable })?;
        self.viewers
            .keep_redraw(portable, text.as_str(), self.alloc);
        Ok(full_of(screen, text))
    }

    /// Returns the diff with the given options from the screen recorded for a viewer to the current
    /// screen. Returns the full redraw instead if no screen is recorded, or if `options.scroll` is
    /// true and the recorded screen is not steady.
    ///
    /// # Errors
    ///
    /// Returns `Error::OutOfMemory` if the text of the update cannot be allocated.
    fn next_update(&mut self, viewer: u64, options: DiffOptions) -> Result<Update, Error>
        ensures same { self.new ≡ self.old }
        ensures whole { IsScreen self.new.parser.screen }
        ensures colored { IsColored self.new.parser.screen }
        ensures ok { IfOk result
            (λ update. IsUpdate options self.old.parser.screen (note_of self.old.viewers viewer) update) }
        ensures memory { OnlyOutOfMemory result }
        ensures never { is_current self.old viewer ≡ true →
            (options.scroll ≡ true → IsSteady (display self.old.parser.screen)) → IsOk result }
    {
        let screen = self.parser.screen();
        // Only for the proof: the contract of `size` says that every screen is valid.
        screen.size();
        let is_current = self.viewers.is_current(viewer);
        let Some((noted, kept)) = self.viewers.noted(viewer, options) else {
            return self.full(options.portable);
        };
        if options.scroll && !noted.is_steady() {
            return self.full(options.portable);
        }
        if is_current {
            let text = String::new(self.alloc);
            return Ok(Update::Diff(text));
        }
        if let Some(text) = kept {
            let copy = String::from_str(self.alloc, text)?;
            return Ok(Update::Diff(copy));
        }
        let text = diff_between(screen, noted.screen(), options)?;
        self.viewers
            .keep_diff(viewer, options, text.as_str(), self.alloc);
        Ok(Update::Diff(text))
    }

    /// Records the current screen as the screen at a viewer's last update.
    ///
    /// # Errors
    ///
    /// Returns `Error::OutOfMemory` if an allocation fails. On error, nothing is changed.
    fn note(&mut self, viewer: u64) -> Result<(), Error>
        requires { is_viewer self.old.viewers viewer ≡ true }
        ensures parser { self.new.parser ≡ self.old.parser }
        ensures last { self.new.viewers.last ≡ self.old.viewers.last }
        ensures ok { OnOk result
            (Puts self.old.viewers viewer true (Some self.old.parser.screen) self.new.viewers) }
        ensures current { OnOk result (PutsAmong self.old.current viewer true self.new.current) }
        ensures err { OnErr result (self.new ≡ self.old) }
        ensures memory { OnlyOutOfMemory result }
        ensures never { is_current self.old viewer ≡ true → IsOk result }
    {
        let screen = self.parser.screen();
        self.viewers.note(viewer, screen, self.alloc)?;
        Ok(())
    }
}

/// Returns the diff with the given options from `prev` to `screen`.
///
/// # Errors
///
/// Returns `Error::OutOfMemory` if the diff cannot be allocated.
fn diff_between(screen: &Screen, prev: &Screen, options: DiffOptions) -> Result<String, Error>
    requires size { SameSize screen.now.page prev.now.page }
    requires steady { options.scroll ≡ true → IsSteady (display prev.now) }
    ensures text { IfText result (IsDiffFor options screen.now prev.now) }
    ensures memory { OnlyOutOfMemory result }
{
    let text = screen.contents_diff_with(prev, options)?;
    Ok(text)
}

/// Returns a full update with the given text, a redraw in some form, and the size of the screen.
fn full_of(screen: &Screen, text: String) -> Update
    ensures { (form : Form) → IsRedraw form screen.now (string_bytes text) → IsFullUpdate form screen.now result }
{
    let (rows, cols) = screen.size();
    Update::Full {
        rows: rows.get(),
        cols: cols.get(),
        text,
    }
}
