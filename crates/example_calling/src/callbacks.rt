//! Callbacks for what a program asks of its terminal: bells, titles and sizes.

use std::alloc::Global;
use std::num::NonZeroU16;
use vt100::capture::RowContents;
use vt100::{Call, Callbacks, Error, Parser, Screen};

/// The largest size that a program may ask for, in rows and columns.
const GREATEST: (u16, u16) = (200, 400);

/// The maximum length, in bytes, of a command that a program may send: enough for a clipboard.
const LONGEST: usize = 1 << 20;

/// The control character CAN, which ends an unfinished operating system command.
const CANCEL: &[u8] = b"\x18";

/// A window that contains a terminal.
#[derive(Drop)]
pub struct Window {
    title: Vec<u8>,
    bells: u64,
    wanted: Option<(u16, u16)>,
    has_lost: bool,
}

impl Window {
    /// Creates a window without a title.
    pub fn new(alloc: Global) -> Self {
        Window {
            title: Vec::new(alloc),
            bells: 0,
            wanted: None,
            has_lost: false,
        }
    }

    /// Returns the title as the program sent it, which need not be UTF-8.
    pub fn title(&self) -> &[u8] {
        self.title.as_slice()
    }

    /// Returns the number of times that the bell has rung.
    pub fn bells(&self) -> u64 {
        self.bells
    }
}

impl Callbacks for Window {
    ghost use Rattle.std.specs.Prelude.{◌≡◌};

    // No callback changes the screen.
    ghost does = { λ _ _ before _ after. after ≡ before };

    fn otherwise(&mut self, _screen: &mut Screen, _call: Call<'_>) {}

    fn on_scroll(&mut self, _row: RowContents<'_>, _alternate: bool) {}

    fn audible_bell(&mut self, _screen: &mut Screen) {
        self.bells = self.bells.saturating_add(1);
    }

    fn set_window_title(&mut self, _screen: &mut Screen, title: &[u8]) {
        self.title.clear();
        if self.title.extend_from_slice(title).is_err() {
            self.has_lost = true;
        }
    }

    fn resize(&mut self, _screen: &mut Screen, size: (u16, u16)) {
        self.wanted = Some(size);
    }
}

/// Parses `bytes`. Ends an operating system command that is longer than [`LONGEST`]. If a program
/// asked for a new size, then resizes the screen, at most to [`GREATEST`].
///
/// # Errors
///
/// Returns [`Error::OutOfMemory`] if an allocation fails, in a callback or elsewhere.
pub fn read(parser: &mut Parser<Window>, bytes: &[u8]) -> Result<(), Error> {
    parser.process(bytes)?;
    if parser.pending_len() > LONGEST {
        parser.process(CANCEL)?;
    }
    let window = parser.callbacks_mut();
    if window.has_lost {
        return Err(Error::OutOfMemory);
    }
    let Some((rows, cols)) = window.wanted.take() else {
        return Ok(());
    };
    let rows = NonZeroU16::new(rows.min(GREATEST.0));
    let cols = NonZeroU16::new(cols.min(GREATEST.1));
    match (rows, cols) {
        (Some(rows), Some(cols)) => parser.set_size(rows, cols),
        _ => Ok(()),
    }
}
