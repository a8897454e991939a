//! A mirror, and the terminal of one of its viewers.

use std::num::NonZeroU16;
use vt_mirror::{Mirror, Update};
use vt100::{Error, Parser};

/// Feeds `output` to the mirror, and brings a viewer's terminal up to date.
pub fn show(
    mirror: &mut Mirror,
    output: &[u8],
    viewer: u64,
    terminal: &mut Parser,
) -> Result<(), Error> {
    mirror.process(output)?;
    match mirror.update(viewer)? {
        Some(update) => take(terminal, &update),
        None => Ok(()),
    }
}

/// Applies an update to a viewer's terminal: first the size, if the update is full, and then the
/// text.
fn take(terminal: &mut Parser, update: &Update) -> Result<(), Error> {
    let text = match update {
        Update::Diff(text) => text,
        Update::Full { rows, cols, text } => {
            if let (Some(rows), Some(cols)) = (NonZeroU16::new(*rows), NonZeroU16::new(*cols)) {
                terminal.set_size(rows, cols)?;
            }
            text
        }
    };
    terminal.process(text.as_bytes())
}
