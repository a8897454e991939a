//! Tables of calls that may allocate.

use crate::pair::Act;
use crate::step::{Change, Step};

/// A new parser, and the calls that are made on it.
#[derive(Clone, Copy)]
pub struct Scene {
    pub name: &'static str,

    /// The number of rows and the number of columns.
    pub size: (u16, u16),

    /// The scrollback capacity in rows.
    pub scrollback: usize,
    pub steps: &'static [Step],
}

/// The first group of scenes with one parser.
///
/// A call that can fail without making the parser fail is made twice, so that its effect is tested
/// even if the first call fails. Calls that do not allocate show whether the parser still accepts
/// input.
pub const SCENES: [Scene; 8] = [
    Scene {
        name: "a title, collected in memory that grows",
        size: (1, 4),
        scrollback: 0,
        steps: &[
            Step::Process(b"x"),
            Step::Process(b"\x1b]2;a title of many words\x07"),
            Step::Process(b"y"),
        ],
    },
    Scene {
        name: "a redraw",
        size: (1, 4),
        scrollback: 0,
        steps: &[Step::Process(b"x"), Step::Redraw, Step::Redraw],
    },
    Scene {
        name: "rows that are pushed, and shown longer",
        size: (1, 4),
        scrollback: 1,
        steps: &[
            Step::Process(b"x"),
            Step::Process(b"\r\n"),
            Step::Process(b"y"),
            Step::Process(b"\r\n"),
            Step::SetScrollback(1),
            Step::SetScrollback(1),
            Step::Process(b"z"),
            Step::Process(b"\r\n"),
            Step::SetScrollback(0),
            Step::Process(b"w"),
        ],
    },
    Scene {
        name: "a repetition that wraps",
        size: (1, 2),
        scrollback: 10,
        steps: &[Step::Process(b"a\x1b[5b"), Step::Process(b"z")],
    },
    Scene {
        name: "rows that are scrolled up together",
        size: (2, 4),
        scrollback: 10,
        steps: &[
            Step::Process(b"a\r\nb"),
            Step::Process(b"\x1b[2S"),
            Step::Process(b"z"),
        ],
    },
    Scene {
        name: "a glyph that becomes wide at a pending wrap",
        size: (1, 4),
        scrollback: 1,
        steps: &[
            Step::Process(b"abc\xe2\x9d\xa4"),
            Step::Process(b"\xef\xb8\x8f"),
            Step::Process(b"z"),
        ],
    },
    Scene {
        name: "another size while scrollback is in view",
        size: (2, 4),
        scrollback: 2,
        steps: &[
            Step::Process(b"a\r\nb\r\nc"),
            Step::SetScrollback(1),
            Step::SetScrollback(1),
            Step::SetSize(1, 4),
            Step::SetSize(1, 4),
            Step::Process(b"z"),
        ],
    },
    Scene {
        name: "another size once memory was refused",
        size: (1, 4),
        scrollback: 0,
        steps: &[
            Step::Process(b"\x1b]2;t\x07"),
            Step::SetSize(1, 2),
            Step::Process(b"z"),
        ],
    },
];

/// Actions on two parsers: modes, sizes, exchanged screens and a copy.
///
/// The first parser sets several modes, including the one that enters the alternate page. Then the
/// parsers exchange their screens, so that the second parser, which has not failed, continues with
/// the first parser's screen: it restores the saved cursor, writes on the alternate page and leaves
/// it. When that screen is resized, a row of the main page moves into scrollback, and a row of the
/// alternate page is reported. The first parser, whose screen came from the second parser, also
/// enters the alternate page, and its screen is resized; a row of the main page moves into
/// scrollback. At the end, the first parser gets a copy of the second parser's screen.
pub const ACTS: [Act; 12] = [
    Act::First(Step::Process(b"x")),
    Act::First(Step::Process(b"\x1b[2;3H\x1b[?1;1049;2004h")),
    Act::Exchange,
    Act::Second(Step::Process(b"\x1b8")),
    Act::Second(Step::Process(b"a\r\nb\x1b[?1049l")),
    Act::Second(Step::SetSize(1, 4)),
    Act::First(Step::Process(b"y\r\n")),
    Act::First(Step::Process(b"\x1b[?47h")),
    Act::First(Step::Process(b"c\r\nd")),
    Act::First(Step::SetScreenSize(1, 4)),
    Act::First(Step::Process(b"\x1b[?47l")),
    Act::Copy,
];

/// Actions that generate each kind of output of two screens twice.
///
/// The second screen displays a row of scrollback. The first screen has a wrapped row, wide glyphs,
/// a pending wrap and attributes.
pub const TEXTS: [Act; 13] = [
    Act::Second(Step::Process(b"a\r\nb\r\n\xe4\xb8\xad")),
    Act::Second(Step::SetScrollback(1)),
    Act::First(Step::Process(b"\x1b[1;31mab\xe4\xb8\xadxy\xe4\xb8\xad")),
    Act::First(Step::Redraw),
    Act::First(Step::Redraw),
    Act::First(Step::Cursor),
    Act::First(Step::Cursor),
    Act::First(Step::Attributes),
    Act::First(Step::Attributes),
    Act::Differ(Change::Picture),
    Act::Differ(Change::Picture),
    Act::Second(Step::Redraw),
    Act::Second(Step::Redraw),
];

/// Actions that generate further kinds of output of two screens, each kind twice. The text of a row
/// is requested even if generating the text of the previous row failed.
///
/// The second screen has a row in scrollback and a mouse mode. The first screen has a wrapped row,
/// wide glyphs, attributes, application keypad mode and a different cursor style.
pub const MORE_TEXTS: [Act; 20] = [
    Act::Second(Step::Process(b"a\r\nb\r\nc\x1b[?1000h")),
    Act::First(Step::Process(b"\x1b[1;31mab\xe4\xb8\xadxy\x1b=\x1b[2 q")),
    Act::First(Step::State),
    Act::First(Step::State),
    Act::First(Step::Modes),
    Act::First(Step::Modes),
    Act::Differ(Change::State),
    Act::Differ(Change::State),
    Act::Differ(Change::Modes),
    Act::Differ(Change::Modes),
    Act::First(Step::Contents),
    Act::First(Step::Contents),
    Act::First(Step::Range),
    Act::First(Step::Range),
    Act::First(Step::Row(1)),
    Act::First(Step::Row(1)),
    Act::First(Step::Basic),
    Act::First(Step::Basic),
    Act::Second(Step::Capture),
    Act::Second(Step::Capture),
];

/// Actions that generate, twice, a diff that moves rows first. Each time, both kinds of diffs are
/// generated, and the shorter diff is returned.
///
/// The lower row of the second screen is the upper row of the first screen, with a different color
/// for each glyph.
pub const MOVED: [Act; 4] = [
    Act::Second(Step::Process(b"x\r\n\x1b[31ma\x1b[32mb\x1b[33mc\x1b[34md")),
    Act::First(Step::Process(b"\x1b[31ma\x1b[32mb\x1b[33mc\x1b[34md\r\nz")),
    Act::Differ(Change::Scrolling),
    Act::Differ(Change::Scrolling),
];

/// Actions that generate, twice, a diff with REP. The diff without REP is generated first.
pub const REPEATED: [Act; 7] = [
    Act::First(Step::SetSize(1, 12)),
    Act::First(Step::SetSize(1, 12)),
    Act::Second(Step::SetSize(1, 12)),
    Act::Second(Step::SetSize(1, 12)),
    Act::First(Step::Process(b"----------")),
    Act::Differ(Change::Repeating),
    Act::Differ(Change::Repeating),
];

/// Actions that generate, twice each, the portable redraw of a state, a portable diff between states
/// with REP, and such a diff between states that differ only in their modes. The redraw or the diff is
/// generated first, and the output for modes is appended.
pub const STATES: [Act; 12] = [
    Act::First(Step::SetSize(1, 12)),
    Act::First(Step::SetSize(1, 12)),
    Act::Second(Step::SetSize(1, 12)),
    Act::Second(Step::SetSize(1, 12)),
    Act::First(Step::Process(b"\x1b=\x1b[?1003;1006h--------\x1b[2ma\x1b[22;1mb")),
    Act::First(Step::PortableState),
    Act::First(Step::PortableState),
    Act::Differ(Change::PortableState),
    Act::Differ(Change::PortableState),
    Act::Second(Step::Process(b"--------\x1b[2ma\x1b[22;1mb")),
    Act::Differ(Change::PortableState),
    Act::Differ(Change::PortableState),
];

/// Actions that generate the output for the rows of two screens, item by item. The item after a
/// failed item is the item of the next row.
pub const ROWS: [Act; 4] = [
    Act::Second(Step::Process(b"ab\r\ncd")),
    Act::First(Step::Process(b"\x1b[1;31mxy\r\nzw")),
    Act::First(Step::Rows),
    Act::Differ(Change::Rows),
];

/// The second group of scenes with one parser. Rows scroll off in the middle of the input, a title
/// follows text, and calls are made on a screen with all kinds of state: two pages with saved
/// cursors, scroll regions and origin modes, attributes, modes, and more rows that scrolled off
/// than scrollback keeps.
pub const MORE_SCENES: [Scene; 4] = [
    Scene {
        name: "rows that are pushed while a text is read",
        size: (2, 4),
        scrollback: 10,
        steps: &[Step::Process(b"a\r\nb\r\ncd"), Step::Process(b"z")],
    },
    Scene {
        name: "a title after text",
        size: (2, 4),
        scrollback: 0,
        steps: &[Step::Process(b"x\x1b]2;t\x07"), Step::Process(b"z")],
    },
    Scene {
        name: "a screen that has all that a screen may have",
        size: (3, 4),
        scrollback: 1,
        steps: &[
            Step::Process(b"\x1b[1;31ma\r\nb\r\nc\r\nd\r\n"),
            Step::Process(b"\x1b[2;2H\x1b7\x1b[2;3r\x1b[?6h\x1b[44mx"),
            Step::Process(b"\x1b[?47h"),
            Step::Process(b"\x1b[3;4H\x1b7\x1b[2;3r\x1b[?6hyz\x1b[?1;1003;2004h\x1b="),
            Step::SetSize(2, 5),
            Step::SetSize(2, 5),
            Step::SetScreenSize(4, 3),
            Step::SetScreenSize(4, 3),
            Step::State,
            Step::State,
            Step::Process(b"\x1b[?47l\x1b[4;1H"),
            Step::SetScrollback(1),
            Step::SetScrollback(1),
            Step::Process(b"e\r\nf"),
            Step::SetScrollback(1),
            Step::SetScrollback(1),
            Step::Process(b"z"),
        ],
    },
    Scene {
        name: "a redraw for any region",
        size: (1, 4),
        scrollback: 0,
        steps: &[Step::Process(b"x"), Step::Reset, Step::Reset],
    },
];
