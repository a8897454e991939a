//! The lengths of consecutive diffs.

ghost use Rattle.std.specs.Prelude.{◌<◌};

use anyhow::{Result, ensure};
use std::alloc::Global;
use std::num::NonZeroU16;
use vt100::{DiffOptions, Parser, RedrawOptions, Repeat, Screen};

/// The options of a diff that may move rows or columns first and may repeat any character with REP.
pub const REPEATING: DiffOptions = DiffOptions {
    scroll: true,
    repeat: Repeat::Any,
    portable: false,
};

/// The options of a diff that may move rows or columns first and may repeat ASCII characters with
/// REP.
pub const REPEATING_ASCII: DiffOptions = DiffOptions {
    scroll: true,
    repeat: Repeat::Ascii,
    portable: false,
};

/// The options of a portable diff.
pub const PORTABLE: DiffOptions = DiffOptions {
    scroll: false,
    repeat: Repeat::Never,
    portable: true,
};

/// The options of a portable diff with shorter cursor movements.
pub const PORTABLE_SCROLLING: DiffOptions = DiffOptions {
    scroll: true,
    repeat: Repeat::Never,
    portable: true,
};

/// The total length in bytes of each kind of diff between the same screens, and of the redraws of
/// these screens.
#[derive(Clone, Copy, Default)]
pub struct Lengths {
    /// The total length in bytes of the output of `contents_diff`.
    pub plain: usize,

    /// The total length in bytes of the output of `contents_diff_scrolling`.
    pub scrolling: usize,

    /// The total length in bytes of the output of `contents_diff_with` with [`REPEATING`].
    pub repeating: usize,

    /// The total length in bytes of the output of `contents_diff_with` with [`REPEATING_ASCII`].
    pub repeating_ascii: usize,

    /// The total length in bytes of the output of `contents_diff_with` with [`PORTABLE`].
    pub portable: usize,

    /// The total length in bytes of the output of `contents_diff_with` with [`PORTABLE_SCROLLING`].
    pub portable_scrolling: usize,

    /// The total length in bytes of the output of `contents_formatted`.
    pub redraws: usize,

    /// The total length in bytes of the portable output of `contents_formatted_with`.
    pub portable_redraws: usize,
}

/// The settings for parsing a file: the size of the terminal, and how many bytes are parsed between
/// two diffs of its screen.
#[derive(Clone, Copy)]
pub struct Reading {
    /// The number of rows.
    pub rows: NonZeroU16,

    /// The number of columns.
    pub cols: NonZeroU16,

    /// The scrollback capacity in rows.
    pub capacity: usize,

    /// The number of bytes that are parsed between two diffs.
    pub every: usize,
}

impl Reading {
    /// Returns the total lengths of the diffs taken after every `every` bytes and at the end. Each
    /// diff starts from the screen at the previous diff; the first diff starts from a new screen.
    pub fn lengths(self, alloc: Global, bytes: &[u8]) -> Result<Lengths> {
        ensure!(self.every > 0, "no bytes between differences");
        let mut parser = Parser::new(alloc, self.rows, self.cols, self.capacity)?;
        sum(&mut parser, self.every, bytes)
    }
}

fn sum(parser: &mut Parser, every: usize, bytes: &[u8]) -> Result<Lengths>
    requires { 0 < every }
{
    let mut sums = Lengths::default();
    let mut prev = parser.screen().clone()?;
    for piece in bytes.chunks(every) {
        parser.process(piece)?;
        sums = sums.with(parser.screen(), &prev)?;
        prev = parser.screen().clone()?;
    }
    Ok(sums)
}

impl Lengths {
    /// Returns the totals after the lengths of the redraws of `screen` and of the diffs from `prev`
    /// to `screen` have been added.
    fn with(mut self, screen: &Screen, prev: &Screen) -> Result<Lengths> {
        ensure!(screen.is_sized_as(prev), "another size");
        let portable = RedrawOptions { portable: true };
        add(&mut self.plain, screen.contents_diff(prev)?.len());
        add(
            &mut self.scrolling,
            screen.contents_diff_scrolling(prev)?.len(),
        );
        add(
            &mut self.repeating,
            screen.contents_diff_with(prev, REPEATING)?.len(),
        );
        add(
            &mut self.repeating_ascii,
            screen.contents_diff_with(prev, REPEATING_ASCII)?.len(),
        );
        add(
            &mut self.portable,
            screen.contents_diff_with(prev, PORTABLE)?.len(),
        );
        add(
            &mut self.portable_scrolling,
            screen.contents_diff_with(prev, PORTABLE_SCROLLING)?.len(),
        );
        add(&mut self.redraws, screen.contents_formatted()?.len());
        add(
            &mut self.portable_redraws,
            screen.contents_formatted_with(portable)?.len(),
        );
        Ok(self)
    }
}

/// Adds `more` to a sum, which stays at its maximum if it would overflow.
fn add(sum: &mut usize, more: usize) {
    *sum = sum.saturating_add(more);
}
