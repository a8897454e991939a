//! Tables of test cases: a program's output, and what a terminal must then display.

use Property::{Background, Bold, Foreground, Inverse, Underlined};
use vt100::Color;

/// A property that a case may require of text.
#[derive(Clone, Copy, Debug)]
pub enum Property {
    Bold,
    Underlined,
    Inverse,
    Foreground(Color),
    Background(Color),
}

/// Text that must be on the screen: the row and the column of its first character, both counted
/// from 0; the text itself; and the properties that each of its characters must have.
pub type Spot = (u16, u16, &'static str, &'static [Property]);

/// A test case: a program's output, and what a terminal must display after it.
pub struct Case {
    pub name: &'static str,
    /// The number of rows of the terminal.
    pub rows: u16,
    pub columns: u16,
    pub output: &'static str,
    pub spots: &'static [Spot],
    /// The row and the column that the cursor must be at, counted from 0.
    pub cursor: (u16, u16),
}

const GREEN: Color = Color::Idx(2);

const BLUE: Color = Color::Idx(4);

const ORANGE: Color = Color::Rgb(255, 135, 0);

/// The cases that pass.
pub const CASES: [Case; 7] = [
    Case {
        name: "a prompt has the user in bold green and the folder in blue",
        rows: 2,
        columns: 24,
        output: "\x1b[1;32mada@home\x1b[m:\x1b[34m~/src\x1b[m$ ls",
        spots: &[
            (0, 0, "ada@home", &[Bold, Foreground(GREEN)]),
            (0, 9, "~/src", &[Foreground(BLUE)]),
            (0, 14, "$ ls", &[Foreground(Color::Default)]),
        ],
        cursor: (0, 18),
    },
    Case {
        name: "a bar grows in place",
        rows: 1,
        columns: 20,
        output: "[#         ]  10%\r[#####     ]  50%\r[##########] 100%",
        spots: &[(0, 0, "[##########] 100%   ", &[])],
        cursor: (0, 17),
    },
    Case {
        name: "a menu covers the screen, and its choice is inverse",
        rows: 3,
        columns: 16,
        output: "$ menu\r\n\x1b[?1049h\x1b[H\x1b[2J New\r\n\x1b[7m Open \x1b[m\r\n Quit\x1b[2;1H",
        spots: &[
            (0, 0, " New    ", &[]),
            (1, 0, " Open ", &[Inverse]),
            (2, 0, " Quit", &[]),
        ],
        cursor: (1, 0),
    },
    Case {
        name: "after the menu the prompt is back",
        rows: 3,
        columns: 16,
        output: "$ menu\r\n\x1b[?1049h\x1b[H\x1b[2J New\r\n Open\x1b[?1049l$ ",
        spots: &[(0, 0, "$ menu  ", &[]), (1, 0, "$      ", &[])],
        cursor: (1, 2),
    },
    Case {
        name: "a long line goes on in the next row",
        rows: 2,
        columns: 10,
        output: "0123456789abc",
        spots: &[(0, 0, "0123456789", &[]), (1, 0, "abc       ", &[])],
        cursor: (1, 3),
    },
    Case {
        name: "the oldest rows leave at the top",
        rows: 2,
        columns: 8,
        output: "one\r\ntwo\r\nthree",
        spots: &[(0, 0, "two   ", &[]), (1, 0, "three ", &[])],
        cursor: (1, 5),
    },
    Case {
        name: "wide characters take two columns, underlined on orange",
        rows: 1,
        columns: 12,
        output: "\x1b[4;48;2;255;135;0m日本\x1b[m ok",
        spots: &[
            (0, 0, "日本", &[Underlined, Background(ORANGE)]),
            (0, 4, " ok", &[Background(Color::Default)]),
        ],
        cursor: (0, 7),
    },
];

/// Cases that fail on purpose, because of a wrong sum and a missing color.
pub const WRONG: [Case; 2] = [
    Case {
        name: "a bill ends with its sum",
        rows: 3,
        columns: 14,
        output: "tea       3.20\r\ncake      4.50\r\nsum       7.60",
        spots: &[
            (0, 0, "tea       3.20", &[]),
            (1, 0, "cake      4.50", &[]),
            (2, 0, "sum       7.70", &[]),
        ],
        cursor: (2, 14),
    },
    Case {
        name: "a warning is in bold green",
        rows: 1,
        columns: 14,
        output: "\x1b[1mlate\x1b[m",
        spots: &[(0, 0, "late", &[Bold, Foreground(GREEN)])],
        cursor: (0, 5),
    },
];
