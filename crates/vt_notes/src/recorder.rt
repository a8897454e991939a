//! Callbacks that capture the rows that are reported to them.

ghost use Rattle.std.specs.Prelude.{◌≡◌, ◌++◌, false, true, OnErr, OnOk};
ghost use Rattle.vt_cells.specs.Refusals.{OnlyOutOfMemory};
ghost use Rattle.vt_notes.specs.Noting.{nothing_recorded};
ghost use Rattle.vt_screen.specs.Capture.{all_rows, basic_texts, written_after_all};

use std::alloc::Global;
use std::marker::Model;
use vt100::capture::{BasicFormattedCaptureRange, BasicFormattedCaptureState, RowContents};
use vt100::{Call, Callbacks, Error, Screen};

/// A capture (text with SGR sequences and no other escape sequences) of the rows that scrolled off
/// the main page and were not kept in scrollback.
///
/// If memory for a row cannot be allocated, the recorder remembers that its capture is incomplete.
pub struct Recorder {
    text: String,
    state: BasicFormattedCaptureState,
    is_whole: bool,
}

impl Model for Recorder {
    ghost use Rattle.std.specs.Prelude.{string_bytes};
    ghost use Rattle.vt_notes.specs.Noting.{Recorded};

    ghost Value = { Recorded };

    ghost view = { λ r. record { text = string_bytes r.text; state = r.state; is_whole = r.is_whole } };
}

// `Drop` is implemented by hand so that dropping is a single call. The steps of a derived drop
// would be repeated at each exit of each caller's proof.
impl Drop for Recorder {
    fn drop(self) {
        let Recorder {
            text: _,
            state: _,
            is_whole: _,
        } = self;
    }
}

impl Recorder {
    /// Creates a recorder with an empty capture.
    pub fn new(alloc: Global) -> Self
        ensures { result ≡ nothing_recorded }
    {
        Recorder {
            text: String::new(alloc),
            state: BasicFormattedCaptureState::new(),
            is_whole: true,
        }
    }

    /// Returns the text captured so far.
    pub fn text(&self) -> &str
        ensures { result.now ≡ self.now.text }
    {
        self.text.as_str()
    }

    /// Appends the scrollback and the page of a screen to the capture.
    ///
    /// # Errors
    ///
    /// Returns [`Error::OutOfMemory`] if an allocation fails or has failed for an earlier row. The
    /// capture is then incomplete, and part of the new text may have been appended.
    pub fn capture(&mut self, screen: &Screen) -> Result<(), Error>
        ensures whole { OnOk result (self.old.is_whole ≡ true) }
        ensures text { OnOk result (self.new.text ≡ self.old.text ++ basic_texts self.old.state (all_rows screen.now)) }
        ensures state { OnOk result (self.new.state ≡ written_after_all self.old.state (all_rows screen.now)) }
        ensures kept { OnOk result (self.new.is_whole ≡ true) }
        ensures lost { OnErr result (self.new.is_whole ≡ false) }
        ensures memory { OnlyOutOfMemory result }
    {
        if !self.is_whole {
            return Err(Error::OutOfMemory);
        }
        let written = screen.write_contents_formatted_basic(
            &mut self.text,
            BasicFormattedCaptureRange::Full(&mut self.state),
        );
        self.is_whole = written.is_ok();
        match written {
            Ok(()) => Ok(()),
            Err(_) => Err(Error::OutOfMemory),
        }
    }
}

/// Callbacks that append each row that scrolls off the main page to the capture, ignore rows of the
/// alternate page, and do not change the screen.
impl Callbacks for Recorder {
    ghost use Rattle.vt_notes.specs.Noting.{Records};

    ghost does = { Records };

    #[tactic(auto, using(crate::proofs::Runs::other_call))]
    fn otherwise(&mut self, _screen: &mut Screen, _call: Call<'_>) {}

    #[tactic(auto, using(crate::proofs::Runs::with_none))]
    fn on_scroll(&mut self, row: RowContents<'_>, alternate: bool) {
        if alternate {
            return;
        }
        if row
            .write_formatted_basic(&mut self.text, &mut self.state)
            .is_err()
        {
            self.is_whole = false;
        }
    }
}
