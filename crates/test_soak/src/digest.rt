//! Callbacks that compute a hash of all calls.

use vt100::capture::RowContents;
use vt100::{Call, Callbacks, Screen};

/// Callbacks that maintain a hash of all calls so far and the number of calls.
#[derive(Clone, Copy, Default, PartialEq, Eq)]
pub struct Digest {
    calls: u64,
    sum: u64,
}

impl Digest {
    /// Adds a number to the hash (FNV-1a, applied to whole numbers instead of bytes).
    fn take(&mut self, number: u64) {
        self.sum = (self.sum ^ number).wrapping_mul(0x0100_0000_01b3);
    }

    fn take_text(&mut self, text: &[u8]) {
        for byte in text {
            self.take(u64::from(*byte));
        }
        self.take(0x100);
    }

    fn take_marker(&mut self, marker: Option<u8>) {
        self.take(marker.map_or(0x101, u64::from));
    }

    fn take_call(&mut self, call: Call<'_>) {
        match call {
            Call::AudibleBell => self.take(1),
            Call::VisualBell => self.take(2),
            Call::Resize((rows, cols)) => {
                self.take(3);
                self.take(u64::from(rows));
                self.take(u64::from(cols));
            }
            Call::SetWindowIconName(name) => self.take_texts(4, &[name]),
            Call::SetWindowTitle(title) => self.take_texts(5, &[title]),
            Call::CopyToClipboard(kind, text) => self.take_texts(6, &[kind, text]),
            Call::PasteFromClipboard(kind) => self.take_texts(7, &[kind]),
            Call::UnhandledChar(code) => self.take(0x1_0000_0000 + u64::from(u32::from(code))),
            Call::UnhandledControl(byte) => self.take(0x2_0000_0000 + u64::from(byte)),
            Call::UnhandledEscape(first, second, byte) => {
                self.take_markers(8, first, second);
                self.take(u64::from(byte));
            }
            Call::UnhandledCsi(first, second, groups, byte) => {
                self.take_markers(9, first, second);
                self.take_groups(groups);
                self.take(u64::from(u32::from(byte)));
            }
            Call::UnhandledOsc(parts) => self.take_texts(10, parts),
        }
    }

    fn take_texts(&mut self, name: u64, texts: &[&[u8]]) {
        self.take(name);
        for text in texts {
            self.take_text(text);
        }
    }

    fn take_markers(&mut self, name: u64, first: Option<u8>, second: Option<u8>) {
        self.take(name);
        self.take_marker(first);
        self.take_marker(second);
    }

    fn take_groups(&mut self, groups: &[&[u16]]) {
        for group in groups {
            for number in *group {
                self.take(u64::from(*number));
            }
            self.take(0x1_0000);
        }
    }
}

/// Callbacks that add each call to the hash and do not change the screen.
impl Callbacks for Digest {
    ghost use Rattle.std.specs.Prelude.{◌≡◌};

    ghost does = { λ _ _ before _ after. after ≡ before };

    fn otherwise(&mut self, _screen: &mut Screen, call: Call<'_>) {
        self.calls = self.calls.saturating_add(1);
        self.take_call(call);
    }

    fn on_scroll(&mut self, row: RowContents<'_>, alternate: bool) {
        self.calls = self.calls.saturating_add(1);
        self.take(u64::from(alternate));
        self.take(u64::from(row.wrapped()));
        self.take(row.cells().len() as u64);
        for cell in row.cells() {
            self.take_text(cell.contents().as_bytes());
        }
    }
}
