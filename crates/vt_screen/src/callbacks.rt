//! The callbacks through which a terminal reports to the program that embeds
//! it.

use crate::screen::Screen;
use vt_rows::RowContents;

/// A call to one of the methods of [`Callbacks`], with its arguments.
#[derive(Clone, Copy)]
pub enum Call<'a> {
    /// A call to [`Callbacks::audible_bell`].
    AudibleBell,

    /// A call to [`Callbacks::visual_bell`].
    VisualBell,

    /// A call to [`Callbacks::resize`], with the requested rows and columns.
    Resize((u16, u16)),

    /// A call to [`Callbacks::set_window_icon_name`], with the name.
    SetWindowIconName(&'a [u8]),

    /// A call to [`Callbacks::set_window_title`], with the title.
    SetWindowTitle(&'a [u8]),

    /// A call to [`Callbacks::copy_to_clipboard`], with the bytes that name the clipboards, and the
    /// Base64 text.
    CopyToClipboard(&'a [u8], &'a [u8]),

    /// A call to [`Callbacks::paste_from_clipboard`], with the bytes that name the clipboards.
    PasteFromClipboard(&'a [u8]),

    /// A call to [`Callbacks::unhandled_char`], with the character.
    UnhandledChar(char),

    /// A call to [`Callbacks::unhandled_control`], with the control byte.
    UnhandledControl(u8),

    /// A call to [`Callbacks::unhandled_escape`], with the first two
    /// intermediate bytes and the final byte.
    UnhandledEscape(Option<u8>, Option<u8>, u8),

    /// A call to [`Callbacks::unhandled_csi`], with the private marker and the intermediate bytes
    /// (only the first two of these), the parameters, and the final byte.
    UnhandledCsi(Option<u8>, Option<u8>, &'a [&'a [u16]], char),

    /// A call to [`Callbacks::unhandled_osc`], with the parts of the command.
    UnhandledOsc(&'a [&'a [u8]]),
}

/// The methods that a terminal calls for everything that its screen does not
/// display: bells, titles, clipboard access, resize requests, unknown
/// sequences, and rows that are dropped.
///
/// The relation `does` describes what each call does to the callbacks and to
/// the screen passed to it. An implementation may resize, scroll or replace
/// that screen.
///
/// Only [`Callbacks::otherwise`] and [`Callbacks::on_scroll`] must be
/// implemented. Every other method except [`Callbacks::wants_rows`] calls
/// `otherwise` by default:
///
/// ```
/// struct Tally {
///     bells: u64,
///     titles: u64,
///     rows: u64,
/// }
///
/// impl Callbacks for Tally {
///     ghost use Rattle.std.specs.Prelude.{◌≡◌};
///
///     // The screen stays as it is.
///     ghost does = { λ _ _ before _ after. after ≡ before };
///
///     fn otherwise(&mut self, _screen: &mut Screen, call: Call<'_>) {
///         match call {
///             Call::AudibleBell => self.bells = self.bells.saturating_add(1),
///             Call::SetWindowTitle(_) => self.titles = self.titles.saturating_add(1),
///             _ => {}
///         }
///     }
///
///     fn on_scroll(&mut self, _row: RowContents<'_>, _alternate: bool) {
///         self.rows = self.rows.saturating_add(1);
///     }
/// }
/// ```
pub trait Callbacks {
    ghost use Rattle.std.specs.Prelude.{◌≡◌, Bool, false, map};
    ghost use Rattle.vt_rows.specs.Row.{RowValue};
    ghost use Rattle.vt_screen.specs.Calls as calls;
    ghost use Rattle.vt_screen.specs.Calls.{CallValue};
    ghost use Rattle.vt_screen.specs.Meanings.{call_of};
    ghost use Rattle.vt_screen.specs.Screen.{ScreenValue};

    ghost does: { CallValue → Self → ScreenValue → Self → ScreenValue → Type 0 };

    /// Handles each [`Call`] whose method the implementation does not override.
    fn otherwise(&mut self, screen: &mut Screen, call: Call<'_>)
        ensures { does (call_of call.entry) self.old screen.old self.new screen.new };

    /// Called for each row that is dropped, oldest first. A row is dropped when
    /// it scrolls off the top of a page and is not kept, when scrollback drops
    /// it to make room, or when ED 3 (xterm, `CSI 3 J`) erases it. `alternate`
    /// is true if the row comes from the alternate page, which has no
    /// scrollback.
    ///
    /// A row that comes directly from the page is passed without its trailing default blanks. If a
    /// resize brings back a row that was not kept, the row is blank. It is then treated like any
    /// other row, and is reported again when it scrolls off again.
    ///
    /// RIS, [`Screen::clear_scrollback`] and [`Screen::set_size`] invoke no
    /// callbacks.
    fn on_scroll(&mut self, row: RowContents<'_>, alternate: bool)
        ensures { (screen : ScreenValue) → does (calls.OnScroll row.entry alternate) self.old screen self.new screen };

    /// Returns whether [`Callbacks::on_scroll`] must be called. If the result is `false`, a call
    /// would have no effect, so the terminal may skip it and the work of preparing the row.
    ///
    /// The terminal calls this method only when rows scroll off a page that keeps no scrollback;
    /// otherwise, it calls `on_scroll` without asking. The default implementation returns `true`.
    fn wants_rows(&self) -> bool
        ensures { result ≡ false → (row : RowValue) (alternate : Bool) (screen : ScreenValue) →
            does (calls.OnScroll row alternate) self.now screen self.now screen }
    {
        true
    }

    /// Called for BEL (ECMA-48), the audible bell.
    fn audible_bell(&mut self, screen: &mut Screen)
        ensures { does calls.AudibleBell self.old screen.old self.new screen.new }
    {
        self.otherwise(screen, Call::AudibleBell);
    }

    /// Called for the visual bell, the escape sequence `ESC g` (GNU Screen).
    fn visual_bell(&mut self, screen: &mut Screen)
        ensures { does calls.VisualBell self.old screen.old self.new screen.new }
    {
        self.otherwise(screen, Call::VisualBell);
    }

    /// Called when a program requests a new size in rows and columns with `CSI 8 ; rows ; cols t`
    /// (xterm). The screen itself has not been resized.
    ///
    /// A number that is missing at the end of the sequence defaults to the screen's current number
    /// of rows or columns. An empty number counts as 0.
    fn resize(&mut self, screen: &mut Screen, size: (u16, u16))
        ensures { does (calls.Resize size.0 size.1) self.old screen.old self.new screen.new }
    {
        self.otherwise(screen, Call::Resize(size));
    }

    /// Called with a new icon name for the window (xterm, OSC 0 and 1).
    ///
    /// `name` holds the bytes as sent; they might not be valid UTF-8. For OSC
    /// 0, a call to [`Callbacks::set_window_title`] follows.
    fn set_window_icon_name(&mut self, screen: &mut Screen, name: &[u8])
        ensures { does (calls.SetWindowIconName name.now) self.old screen.old self.new screen.new }
    {
        self.otherwise(screen, Call::SetWindowIconName(name));
    }

    /// Called with a new title for the window (xterm, OSC 0 and 2).
    ///
    /// `title` holds the bytes as sent; they might not be valid UTF-8.
    fn set_window_title(&mut self, screen: &mut Screen, title: &[u8])
        ensures { does (calls.SetWindowTitle title.now) self.old screen.old self.new screen.new }
    {
        self.otherwise(screen, Call::SetWindowTitle(title));
    }

    /// Called when a program writes to one or more clipboards (xterm, OSC 52).
    ///
    /// Each byte of `kind` names a clipboard: `c`, `p`, `q`, `s` or a digit from 0 to 7. `text`
    /// holds the Base64 characters as sent, not decoded. Either may be empty.
    fn copy_to_clipboard(&mut self, screen: &mut Screen, kind: &[u8], text: &[u8])
        ensures { does (calls.CopyToClipboard kind.now text.now) self.old screen.old self.new screen.new }
    {
        self.otherwise(screen, Call::CopyToClipboard(kind, text));
    }

    /// Called when a program requests the contents of a clipboard (xterm, OSC
    /// 52 with `?` as its text). `kind` is as in
    /// [`Callbacks::copy_to_clipboard`].
    fn paste_from_clipboard(&mut self, screen: &mut Screen, kind: &[u8])
        ensures { does (calls.PasteFromClipboard kind.now) self.old screen.old self.new screen.new }
    {
        self.otherwise(screen, Call::PasteFromClipboard(kind));
    }

    /// Called for a character that is not printed: U+FFFD, which replaces malformed UTF-8 (Unicode
    /// Standard, section 3.9, Table 3-7), or a C1 control, U+0080 to U+009F (ECMA-48).
    fn unhandled_char(&mut self, screen: &mut Screen, code: char)
        ensures { does (calls.UnhandledChar code) self.old screen.old self.new screen.new }
    {
        self.otherwise(screen, Call::UnhandledChar(code));
    }

    /// Called for an unknown single-byte control function (ECMA-48, C0 set).
    fn unhandled_control(&mut self, screen: &mut Screen, byte: u8)
        ensures { does (calls.UnhandledControl byte) self.old screen.old self.new screen.new }
    {
        self.otherwise(screen, Call::UnhandledControl(byte));
    }

    /// Called for an unknown escape sequence (ECMA-48), with its first two
    /// intermediate bytes and its final byte.
    ///
    /// The string terminator `ESC \` is treated as an unknown escape sequence:
    /// after each command or string that it ends, it is reported as
    /// `unhandled_escape(None, None, b'\\')`.
    fn unhandled_escape(
        &mut self,
        screen: &mut Screen,
        first: Option<u8>,
        second: Option<u8>,
        byte: u8,
    )
        ensures { does (calls.UnhandledEscape first second byte) self.old screen.old self.new screen.new }
    {
        self.otherwise(screen, Call::UnhandledEscape(first, second, byte));
    }

    /// Called for an unknown control sequence (ECMA-48), and for each unknown SGR setting and each
    /// unknown private mode.
    ///
    /// `first` and `second` hold the private marker and the intermediate bytes, in order. Only the
    /// first two of these bytes are passed, and a missing byte is `None`. `groups` holds the first
    /// 32 numbers of the sequence: each inner slice is a parameter with its subparameters. `byte`
    /// is the final byte. If the first intermediate byte is a space, `first` and `second` are
    /// `None` unless the final byte is `q` (DECSCUSR).
    fn unhandled_csi(
        &mut self,
        screen: &mut Screen,
        first: Option<u8>,
        second: Option<u8>,
        groups: &[&[u16]],
        byte: char,
    )
        ensures { does (calls.UnhandledCsi first second (map (λ group. group.now) groups.now) byte)
            self.old screen.old self.new screen.new }
    {
        self.otherwise(screen, Call::UnhandledCsi(first, second, groups, byte));
    }

    /// Called for an unknown operating system command (ECMA-48), with its parts, which are
    /// separated by semicolons. Only the first 16 parts are passed.
    fn unhandled_osc(&mut self, screen: &mut Screen, parts: &[&[u8]])
        ensures { does (calls.UnhandledOsc (map (λ part. part.now) parts.now)) self.old screen.old self.new screen.new }
    {
        self.otherwise(screen, Call::UnhandledOsc(parts));
    }
}

/// Callbacks that do nothing.
impl Callbacks for () {
    ghost use Rattle.std.specs.Prelude.{◌≡◌};

    ghost does = { λ _ old before new after. (new ≡ old) × (after ≡ before) };

    fn otherwise(&mut self, _screen: &mut Screen, _call: Call<'_>) {}

    fn on_scroll(&mut self, _row: RowContents<'_>, _alternate: bool) {}

    #[inline]
    fn wants_rows(&self) -> bool {
        false
    }
}
