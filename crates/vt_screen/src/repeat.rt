//! The characters that a diff may repeat.

ghost use Rattle.std.specs.Prelude.{◌≡◌, true};
ghost use Rattle.vt_screen.specs.Repeating.{IsRepeatable};

/// The characters that a diff may repeat with REP (ECMA-48, 8.3.103).
///
/// Some terminals ignore REP, and others perform it only after some characters.
#[derive(Clone, Copy, PartialEq, Eq, Debug)]
pub enum Repeat {
    /// No characters: the diff contains no REP.
    Never,

    /// Printable ASCII characters, the only ones that tmux 3.3a repeats.
    Ascii,

    /// All characters that take one column.
    Any,
}

impl Repeat {
    /// Returns whether REP may repeat `character`, which takes one column.
    pub(crate) fn allows(self, character: char) -> bool
        ensures { result ≡ true → IsRepeatable self character }
    {
        match self {
            Repeat::Never => false,
            Repeat::Ascii => matches!(character, ' '..='~'),
            Repeat::Any => true,
        }
    }
}
