//! The updates that viewers read.

ghost use Rattle.std.specs.Prelude.{◌≡◌};
ghost use Rattle.vt_mirror.specs.Internals.{text_of_update};

/// The next update for a viewer to read.
#[derive(PartialEq, Eq, Debug, Drop)]
pub enum Update {
    /// The escape sequences for a viewer that has read all its previous updates, as
    /// `Screen::contents_diff`, `Screen::contents_diff_scrolling` or `Screen::contents_diff_with`
    /// returns them; empty if nothing changed.
    Diff(String),

    /// The escape sequences for any plain terminal with `rows` rows and `cols`
    /// columns, as `Screen::contents_formatted` or `Screen::contents_formatted_with` returns them.
    Full {
        /// The number of rows of the mirror's screen.
        rows: u16,

        /// The number of columns of the mirror's screen.
        cols: u16,

        /// The escape sequences of the redraw.
        text: String,
    },
}

impl Update {
    /// Returns the escape sequences of the update.
    pub(crate) fn text(&self) -> &str
        ensures { result.now ≡ text_of_update self.now }
    {
        match self {
            Update::Diff(text) | Update::Full { text, .. } => text.as_str(),
        }
    }
}
