//! The rows that the tests pack, with the expected sizes and texts.

use crate::rows::Example;
use crate::rows::Ink::{OnBlue, Plain, Red};

/// A base character of one byte with twelve combining characters of two bytes, and one of four: 29
/// bytes, the longest text of a cell.
pub(crate) const LONG: &str =
    "e\u{301}\u{301}\u{301}\u{301}\u{301}\u{301}\u{301}\u{301}\u{301}\u{301}\u{301}\u{301}\u{1D167}";

/// Rows, each with its packed size and its basic text.
#[rattlefmt::skip]
pub(crate) const EXAMPLES: [Example; 19] = [
    Example { columns: 0, wrapped: false, puts: &[], runs: 0, bytes: 0, text: "" },
    Example { columns: 4, wrapped: false, puts: &[], runs: 0, bytes: 0, text: "" },
    Example { columns: 5, wrapped: false, puts: &[(0, "a", Plain), (1, "b", Plain), (2, "c", Plain)],
        runs: 1, bytes: 3, text: "abc" },
    // A blank between glyphs takes one byte.
    Example { columns: 4, wrapped: false, puts: &[(0, "a", Plain), (2, "b", Plain)],
        runs: 1, bytes: 3, text: "a b" },
    Example { columns: 2, wrapped: false, puts: &[(0, "a", Red), (1, "b", Plain)],
        runs: 2, bytes: 2, text: "\x1b[31ma\x1b[mb" },
    Example { columns: 3, wrapped: true, puts: &[(0, "a", Plain), (1, "b", Red), (2, "c", Plain)],
        runs: 3, bytes: 3, text: "a\x1b[31mb\x1b[mc" },
    // Wide glyphs: a single item for two cells.
    Example { columns: 4, wrapped: true, puts: &[(0, "中", Plain), (2, "文", Plain)],
        runs: 1, bytes: 6, text: "中文" },
    Example { columns: 4, wrapped: false, puts: &[(0, "a", Plain), (1, "中", Plain), (3, "b", Plain)],
        runs: 3, bytes: 5, text: "a中b" },
    Example { columns: 2, wrapped: false, puts: &[(0, "😀", Red)], runs: 1, bytes: 4, text: "\x1b[31m😀" },
    // Colored blanks at the end are kept; default blanks are not.
    Example { columns: 4, wrapped: false, puts: &[(0, "a", Plain), (2, "", OnBlue)],
        runs: 2, bytes: 3, text: "a \x1b[44m " },
    Example { columns: 3, wrapped: false, puts: &[(0, "", OnBlue), (1, "", OnBlue), (2, "", OnBlue)],
        runs: 1, bytes: 3, text: "\x1b[44m   " },
    // A space is a glyph.
    Example { columns: 3, wrapped: false, puts: &[(0, "a", Plain), (1, " ", Plain)],
        runs: 1, bytes: 2, text: "a " },
    // Texts of several characters take one byte more.
    Example { columns: 2, wrapped: false, puts: &[(0, "e\u{301}", Plain)], runs: 1, bytes: 4, text: "e\u{301}" },
    Example { columns: 3, wrapped: false, puts: &[(0, "中\u{301}", Plain), (2, "a", Plain)],
        runs: 2, bytes: 7, text: "中\u{301}a" },
    Example { columns: 1, wrapped: true, puts: &[(0, LONG, Plain)], runs: 1, bytes: 30, text: LONG },
    Example { columns: 3, wrapped: false, puts: &[(0, "д", Plain), (1, "¢", Plain), (2, "€", Plain)],
        runs: 1, bytes: 7, text: "д¢€" },
    // Halves of wide glyphs that were overwritten: a blank with the attributes of the glyph, and a
    // space.
    Example { columns: 2, wrapped: false, puts: &[(0, "中", Red), (1, "a", Plain)],
        runs: 2, bytes: 2, text: "\x1b[31m \x1b[ma" },
    Example { columns: 3, wrapped: false, puts: &[(0, "中", Red), (0, "a", Plain)],
        runs: 1, bytes: 2, text: "a " },
    Example { columns: 12, wrapped: false, puts: &[(11, "x", Plain)], runs: 1, bytes: 12, text: "           x" },
];
