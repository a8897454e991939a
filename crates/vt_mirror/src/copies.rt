//! Copies of what a screen displays, which are shared by viewers.

ghost use Rattle.std.specs.Prelude.{◌≡◌, ◌↔◌, IfOk, IfSome, IsTrue, true};
ghost use Rattle.vt_cells.specs.Refusals.{OnlyOutOfMemory};
ghost use Rattle.vt_mirror.specs.Mirror.{ShowsAlike};
ghost use Rattle.vt_mirror.specs.Kept.{AreOfOneVersion, have_one_version};
ghost use Rattle.vt_redraw.specs.Steady.{IsSteady};
ghost use Rattle.vt_screen.specs.Shown.{display};

use std::alloc::Global;
use std::marker::Model;
use std::snapshot::Snapshot;
use std::sync::Arc;
use vt100::{Error, Screen};

/// A copy of what a screen displays. If no scrollback was displayed, the copy contains neither
/// scrollback nor the inactive page (see `Screen::shown_copy`).
///
/// In contracts, the value of a copy is the complete screen from which it was made. Code can read
/// only what that screen displays.
#[derive(Drop)]
pub(crate) struct DisplayCopy {
    of: Snapshot<Screen>,
    copy: Screen,
    is_steady: bool,
}

impl Model for DisplayCopy {
    ghost use Rattle.std.specs.Prelude.{◌↔◌, IsTrue};
    ghost use Rattle.vt_mirror.specs.Mirror.{ShowsAlike};
    ghost use Rattle.vt_redraw.specs.Steady.{IsSteady};
    ghost use Rattle.vt_screen.specs.Screen.{ScreenValue};
    ghost use Rattle.vt_screen.specs.Shown.{display};

    ghost Value = { ScreenValue };

    ghost view = { λ c. c.of.value };

    ghost invariant = { λ c.
        ShowsAlike c.of.value c.copy × (IsTrue c.is_steady ↔ IsSteady (display c.of.value)) };
}

impl DisplayCopy {
    /// Copies what `screen` displays.
    ///
    /// # Errors
    ///
    /// Returns `Error::OutOfMemory` if an allocation fails.
    fn new(screen: &Screen) -> Result<DisplayCopy, Error>
        ensures ok { IfOk result (λ copy. copy ≡ screen.now) }
        ensures memory { OnlyOutOfMemory result }
    {
        let copy = screen.shown_copy()?;
        let is_steady = screen.is_steady();
        let of = Snapshot::of(screen);
        Ok(DisplayCopy {
            of,
            copy,
            is_steady,
        })
    }

    /// Returns a screen that displays what the copied screen displayed.
    fn screen(&self) -> &Screen
        ensures { ShowsAlike self.now result.now }
    {
        &self.copy
    }

    /// Returns whether the copied screen was steady, as determined when the copy was made.
    fn is_steady(&self) -> bool
        ensures { IsTrue result ↔ IsSteady (display self.now) }
    {
        self.is_steady
    }
}

/// A copy of what a screen displays, stored once and shared by all its holders.
#[derive(Drop)]
pub(crate) struct SharedCopy {
    shared: Arc<DisplayCopy, Global>,
}

impl Model for SharedCopy {
    ghost use Rattle.std.specs.Arc.{arc_value};
    ghost use Rattle.vt_screen.specs.Screen.{ScreenValue};

    ghost Value = { ScreenValue };

    ghost view = { λ c. arc_value c.shared };
}

impl SharedCopy {
    /// Copies what `screen` displays and returns the first shared handle to the
    /// copy.
    ///
    /// # Errors
    ///
    /// Returns `Error::OutOfMemory` if an allocation fails.
    pub(crate) fn new(alloc: Global, screen: &Screen) -> Result<SharedCopy, Error>
        ensures ok { IfOk result (λ copy. copy ≡ screen.now) }
        ensures memory { OnlyOutOfMemory result }
    {
        let copy = DisplayCopy::new(screen)?;
        match Arc::new(alloc, copy) {
            Ok(shared) => Ok(SharedCopy { shared }),
            Err(_) => Err(Error::OutOfMemory),
        }
    }

    /// Returns another shared handle to the copy without allocating, or `None` if the copy already
    /// has the maximum number of handles.
    pub(crate) fn share(&self) -> Option<SharedCopy>
        ensures { IfSome result (λ copy. copy ≡ self.now) }
    {
        match Arc::try_clone(&self.shared) {
            Ok(shared) => Some(SharedCopy { shared }),
            Err(_) => None,
        }
    }

    /// Returns a screen that displays what the copied screen displayed.
    pub(crate) fn screen(&self) -> &Screen
        ensures { ShowsAlike self.now result.now }
    {
        self.shared.screen()
    }

    /// Returns whether the copied screen was steady, without reading any cells.
    pub(crate) fn is_steady(&self) -> bool
        ensures { IsTrue result ↔ IsSteady (display self.now) }
    {
        self.shared.is_steady()
    }

    /// Returns whether there are other handles to the copy.
    pub(crate) fn is_held_by_others(&self) -> bool {
        Arc::strong_count(&self.shared) > 1
    }
}

/// A copy of a screen, along with a version number. Copies with the same nonzero version are copies
/// of the same screen.
#[derive(Drop)]
pub(crate) struct Note {
    /// The version number, or 0 if the copy has none.
    pub(crate) version: u64,
    /// The copy of the screen.
    pub(crate) screen: SharedCopy,
}

impl Note {
    /// Returns another note that shares the copy of the screen, without allocating, or `None` if
    /// the reference count of the copy is at its maximum.
    pub(crate) fn share(&self) -> Option<Note>
        ensures { IfSome result (λ note. note ≡ self.now) }
    {
        let Some(screen) = self.screen.share() else {
            return None;
        };
        Some(Note {
            version: self.version,
            screen,
        })
    }

    /// Returns whether this note and `other` have the same version, which means that both hold
    /// copies of the same screen. A note without a version matches no other.
    pub(crate) fn is_of_version(&self, other: &Note) -> bool
        ensures test { result ≡ have_one_version self.now other.now }
        ensures equal { result ≡ true ↔ AreOfOneVersion self.now other.now }
    {
        self.version > 0 && self.version == other.version
    }
}
