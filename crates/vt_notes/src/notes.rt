//! Callbacks that record each call in a note.

ghost use Rattle.std.specs.Prelude.{◌≡◌, ◌⊎◌, map, true, All, IfOk, OnErr, OnOk};
ghost use Rattle.vt_notes.specs.Noting.{HasText, value_of, nothing_noted, with_call, with_gap};

use crate::note::Note;
use std::alloc::{AllocError, Global};
use std::marker::Model;
use vt100::capture::RowContents;
use vt100::{Call, Callbacks, Screen};

/// Callbacks that record each call in a note. If a note cannot be allocated, its call is missing,
/// and [`Notes::is_complete`] returns `false` from then on.
pub struct Notes {
    alloc: Global,
    calls: Vec<Note>,
    is_complete: bool,
}

impl Model for Notes {
    ghost use Rattle.std.specs.Prelude.{map, All};
    ghost use Rattle.vt_notes.specs.Noting.{HasText, value_of, Noted};

    ghost Value = { Noted };

    ghost view = { λ n. record { calls = map value_of n.calls.items; is_complete = n.is_complete } };

    ghost invariant = { λ n. All HasText n.calls.items };
}

// `Drop` is implemented by hand so that dropping is a single call. The steps of a derived drop
// would be repeated at each exit of each caller's proof.
impl Drop for Notes {
    fn drop(self) {
        let Notes {
            alloc: _,
            calls: _,
            is_complete: _,
        } = self;
    }
}

impl Notes {
    /// Creates an empty list of notes.
    pub fn new(alloc: Global) -> Self
        ensures { result ≡ nothing_noted }
    {
        Notes {
            alloc,
            calls: Vec::new(alloc),
            is_complete: true,
        }
    }

    /// Returns the calls noted so far, in order. Each note of a row that scrolled off contains the
    /// row's text with SGR sequences and no other escape sequences.
    pub fn calls(&self) -> &[Note]
        ensures calls { map value_of result.now ≡ self.now.calls }
        ensures texts { All HasText result.now }
    {
        self.calls.as_slice()
    }

    /// Returns whether all calls have been noted.
    pub fn is_complete(&self) -> bool
        ensures { result ≡ self.now.is_complete }
    {
        self.is_complete
    }

    /// Returns the calls noted so far as lines of text, one for each call.
    ///
    /// Each line looks like a call in Rust. Numbers and single bytes are in decimal, except that
    /// the final byte of a control sequence is a `char` literal; byte strings are in double quotes
    /// with Rust's escapes. A row that scrolled off is written as `scroll`, followed by two values:
    /// its text with SGR sequences, encoded in hexadecimal (a dot if the text is empty), and 1 if
    /// the row was on the alternate page, otherwise 0.
    ///
    /// # Errors
    ///
    /// Returns [`AllocError`] if a call is missing or the lines cannot be allocated.
    pub fn lines(&self, alloc: Global) -> Result<String, AllocError>
        ensures { OnOk result (self.now.is_complete ≡ true) }
    {
        if !self.is_complete {
            return Err(AllocError);
        }
        let mut lines = String::new(alloc);
        for call in &self.calls {
            call.write_line(&mut lines)?;
        }
        Ok(lines)
    }

    /// Appends `note`, or records that a note is missing if `note` is an error or the list cannot
    /// grow.
    fn add(&mut self, note: Result<Note, AllocError>)
        requires { IfOk note HasText }
        ensures made { IfOk note
            (λ note. (self.new ≡ with_call (value_of note) self.old) ⊎ (self.new ≡ with_gap self.old)) }
        ensures missing { OnErr note (self.new ≡ with_gap self.old) }
    {
        let Ok(note) = note else {
            self.is_complete = false;
            return;
        };
        if self.calls.push(note).is_err() {
            self.is_complete = false;
        }
    }
}

/// Callbacks that record each call in one note, with all its arguments, and do not change the
/// screen.
impl Callbacks for Notes {
    ghost use Rattle.vt_notes.specs.Noting.{NotesIt};

    ghost does = { NotesIt };

    fn otherwise(&mut self, _screen: &mut Screen, call: Call<'_>) {
        self.add(Note::of_call(self.alloc, call));
    }

    fn on_scroll(&mut self, row: RowContents<'_>, alternate: bool) {
        self.add(Note::of_scroll(self.alloc, &row, alternate));
    }
}
