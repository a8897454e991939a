//! Callbacks that change the screen, each with the relation that describes the change, and callbacks
//! that count the calls of each method.

ghost use Rattle.std.specs.Prelude.{IfOk};
ghost use Rattle.test_input.specs.Changing.{Becomes, Exchanges, LooksBack, Resizes};
ghost use Rattle.vt100.specs.Parser.{Ran};
ghost use Rattle.vt_screen.specs.Pages.{screen_after_resize};
ghost use Rattle.vt_screen.specs.Screen.{scrolled_back};

use std::marker::Model;
use std::mem;
use std::num::NonZeroU16;
use vt100::capture::RowContents;
use vt100::{Call, Callbacks, Error, Parser, Screen};

/// Callbacks that resize the screen as the program asks.
///
/// A program may ask for 65535 rows and columns. Callbacks for untrusted programs must limit the
/// size to what memory allows.
#[derive(Drop)]
pub(crate) struct Resizer {
    is_refused: bool,
}

impl Model for Resizer {
    ghost use Rattle.std.specs.Prelude.{Bool};

    ghost Value = { Bool };

    ghost view = { λ r. r.is_refused };
}

impl Resizer {
    /// Creates callbacks for which no allocation has failed yet.
    pub(crate) fn new() -> Self {
        Resizer { is_refused: false }
    }

    /// Returns whether an allocation has failed.
    pub(crate) fn is_refused(&self) -> bool {
        self.is_refused
    }

    fn give(&mut self, screen: &mut Screen, rows: NonZeroU16, cols: NonZeroU16)
        ensures { Becomes (screen_after_resize rows.value cols.value screen.old) self.old screen.old self.new screen.new }
    {
        if screen.set_size(rows, cols).is_err() {
            self.is_refused = true;
        }
    }
}

impl Callbacks for Resizer {
    ghost use Rattle.test_input.specs.Changing.{Resizes};

    ghost does = { Resizes };

    fn otherwise(&mut self, screen: &mut Screen, call: Call<'_>) {
        if let Call::Resize((rows, cols)) = call
            && let Some(rows) = NonZeroU16::new(rows)
            && let Some(cols) = NonZeroU16::new(cols)
        {
            self.give(screen, rows, cols);
        }
    }

    fn on_scroll(&mut self, _row: RowContents<'_>, _alternate: bool) {}
}

/// Callbacks that hold a second screen, and swap it with the parser's screen at each bell.
#[derive(Drop)]
pub(crate) struct Exchanger {
    kept: Screen,
}

impl Model for Exchanger {
    ghost use Rattle.vt_screen.specs.Screen.{ScreenValue};

    ghost Value = { ScreenValue };

    ghost view = { λ e. e.kept };
}

impl Exchanger {
    /// Creates callbacks that hold the screen `kept`.
    pub(crate) fn new(kept: Screen) -> Self {
        Exchanger { kept }
    }

    /// Returns the screen that the callbacks hold.
    pub(crate) fn kept(&self) -> &Screen {
        &self.kept
    }
}

impl Callbacks for Exchanger {
    ghost use Rattle.test_input.specs.Changing.{Exchanges};

    ghost does = { Exchanges };

    fn otherwise(&mut self, screen: &mut Screen, call: Call<'_>) {
        if let Call::AudibleBell = call {
            mem::swap(&mut self.kept, screen);
        }
    }

    fn on_scroll(&mut self, _row: RowContents<'_>, _alternate: bool) {}
}

/// Callbacks that, at each bell, scroll the display back so that one row of scrollback is visible.
#[derive(Drop)]
pub(crate) struct Viewer {
    is_refused: bool,
}

impl Model for Viewer {
    ghost use Rattle.std.specs.Prelude.{Bool};

    ghost Value = { Bool };

    ghost view = { λ v. v.is_refused };
}

impl Viewer {
    /// Creates callbacks for which no allocation has failed yet.
    pub(crate) fn new() -> Self {
        Viewer { is_refused: false }
    }

    /// Returns whether an allocation has failed.
    pub(crate) fn is_refused(&self) -> bool {
        self.is_refused
    }

    fn look_back(&mut self, screen: &mut Screen)
        ensures { Becomes (scrolled_back 1 screen.old) self.old screen.old self.new screen.new }
    {
        if screen.set_scrollback(1).is_err() {
            self.is_refused = true;
        }
    }
}

impl Callbacks for Viewer {
    ghost use Rattle.test_input.specs.Changing.{LooksBack};

    ghost does = { LooksBack };

    fn otherwise(&mut self, screen: &mut Screen, call: Call<'_>) {
        if let Call::AudibleBell = call {
            self.look_back(screen);
        }
    }

    fn on_scroll(&mut self, _row: RowContents<'_>, _alternate: bool) {}
}

/// Parses bytes with callbacks that resize the screen as the program asks.
pub(crate) fn run_resizing(parser: &mut Parser<Resizer>, bytes: &[u8]) -> Result<(), Error>
    ensures ran { IfOk result (λ _. Ran Resizes parser.old bytes.now parser.new) }
{
    parser.process(bytes)
}

/// Parses bytes with callbacks that swap the screen with a second screen at each bell.
pub(crate) fn run_exchanging(parser: &mut Parser<Exchanger>, bytes: &[u8]) -> Result<(), Error>
    ensures ran { IfOk result (λ _. Ran Exchanges parser.old bytes.now parser.new) }
{
    parser.process(bytes)
}

/// Parses bytes with callbacks that, at each bell, scroll the display back so that one row of
/// scrollback is visible.
pub(crate) fn run_looking_back(parser: &mut Parser<Viewer>, bytes: &[u8]) -> Result<(), Error>
    ensures ran { IfOk result (λ _. Ran LooksBack parser.old bytes.now parser.new) }
{
    parser.process(bytes)
}

/// The methods of `Callbacks` that have a default implementation.
#[derive(Clone, Copy, Debug)]
pub(crate) enum Function {
    AudibleBell,
    VisualBell,
    Resize,
    SetWindowIconName,
    SetWindowTitle,
    CopyToClipboard,
    PasteFromClipboard,
    UnhandledChar,
    UnhandledControl,
    UnhandledEscape,
    UnhandledCsi,
    UnhandledOsc,
}

/// Callbacks that count the calls of each method.
#[derive(Clone, Copy, Default)]
pub(crate) struct Counter {
    counts: [u8; 12],
    otherwise: u8,
}

impl Counter {
    /// Returns the number of calls of each method, in the order of [`Function`].
    pub(crate) fn counts(&self) -> &[u8] {
        self.counts.as_slice()
    }

    /// Returns the number of calls of `otherwise`.
    pub(crate) fn otherwise(&self) -> u8 {
        self.otherwise
    }

    fn count(&mut self, function: Function) {
        if let Some(count) = self.counts.get_mut(function as usize) {
            *count = count.saturating_add(1);
        }
    }
}

/// Callbacks that count the calls of each method and do not change the screen.
impl Callbacks for Counter {
    ghost use Rattle.std.specs.Prelude.{◌≡◌};

    ghost does = { λ _ _ before _ after. after ≡ before };

    fn otherwise(&mut self, _screen: &mut Screen, _call: Call<'_>) {
        self.otherwise = self.otherwise.saturating_add(1);
    }

    fn on_scroll(&mut self, _row: RowContents<'_>, _alternate: bool) {}

    fn audible_bell(&mut self, _screen: &mut Screen) {
        self.count(Function::AudibleBell);
    }

    fn visual_bell(&mut self, _screen: &mut Screen) {
        self.count(Function::VisualBell);
    }

    fn resize(&mut self, _screen: &mut Screen, _size: (u16, u16)) {
        self.count(Function::Resize);
    }

    fn set_window_icon_name(&mut self, _screen: &mut Screen, _name: &[u8]) {
        self.count(Function::SetWindowIconName);
    }

    fn set_window_title(&mut self, _screen: &mut Screen, _title: &[u8]) {
        self.count(Function::SetWindowTitle);
    }

    fn copy_to_clipboard(&mut self, _screen: &mut Screen, _kind: &[u8], _text: &[u8]) {
        self.count(Function::CopyToClipboard);
    }

    fn paste_from_clipboard(&mut self, _screen: &mut Screen, _kind: &[u8]) {
        self.count(Function::PasteFromClipboard);
    }

    fn unhandled_char(&mut self, _screen: &mut Screen, _code: char) {
        self.count(Function::UnhandledChar);
    }

    fn unhandled_control(&mut self, _screen: &mut Screen, _byte: u8) {
        self.count(Function::UnhandledControl);
    }

    fn unhandled_escape(
        &mut self,
        _screen: &mut Screen,
        _first: Option<u8>,
        _second: Option<u8>,
        _byte: u8,
    ) {
        self.count(Function::UnhandledEscape);
    }

    fn unhandled_csi(
        &mut self,
        _screen: &mut Screen,
        _first: Option<u8>,
        _second: Option<u8>,
        _groups: &[&[u16]],
        _byte: char,
    ) {
        self.count(Function::UnhandledCsi);
    }

    fn unhandled_osc(&mut self, _screen: &mut Screen, _parts: &[&[u8]]) {
        self.count(Function::UnhandledOsc);
    }
}
