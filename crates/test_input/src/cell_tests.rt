//! Tests of cells (their text, combining characters, equality and attributes), colors, errors and the
//! widths of characters.

use std::alloc::AllocError;
use std::test::Fail;
use vt_cells::cell_runs::same_run;
use vt_cells::{
    Attrs, Cell, Color, CursorStyle, Error, Intensity, MouseProtocolEncoding, MouseProtocolMode,
    Pos, cell, columns,
};

/// Returns the cell that holds the character and the combining characters in `text`.
fn cell_of_text(text: &str) -> Cell {
    let mut cell = cell::default_blank();
    for c in text.chars() {
        match columns(c) {
            Some(0) if !cell.is_wide_continuation() => cell::append(&mut cell, c),
            Some(1) if c != char::REPLACEMENT_CHARACTER => {
                cell = cell::glyph(c, false, Attrs::new());
            }
            Some(2) if c != char::REPLACEMENT_CHARACTER => {
                cell = cell::glyph(c, true, Attrs::new());
            }
            _ => {}
        }
    }
    cell
}

/// A letter with twelve combining characters, all of which are kept.
const TWELVE: &str = "e\u{301}\u{301}\u{301}\u{301}\u{301}\u{301}\u{301}\u{301}\u{301}\u{301}\
     \u{301}\u{301}";

/// A letter with twenty combining characters, of which thirteen are kept.
const TWENTY: &str = "e\u{301}\u{301}\u{301}\u{301}\u{301}\u{301}\u{301}\u{301}\u{301}\u{301}\
     \u{301}\u{301}\u{301}\u{301}\u{301}\u{301}\u{301}\u{301}\u{301}\u{301}";

const THIRTEEN: &str = "e\u{301}\u{301}\u{301}\u{301}\u{301}\u{301}\u{301}\u{301}\u{301}\u{301}\
     \u{301}\u{301}\u{301}";

/// A wide character with twenty combining characters, of which twelve are kept.
const WIDE_TWENTY: &str = "中\u{301}\u{301}\u{301}\u{301}\u{301}\u{301}\u{301}\u{301}\u{301}\u{301}\
     \u{301}\u{301}\u{301}\u{301}\u{301}\u{301}\u{301}\u{301}\u{301}\u{301}";

const WIDE_TWELVE: &str = "中\u{301}\u{301}\u{301}\u{301}\u{301}\u{301}\u{301}\u{301}\u{301}\u{301}\
     \u{301}\u{301}";

/// Test cases: a text, the part of the text that a cell keeps, whether the cell is wide, and
/// whether its text is wide.
const KEPT: [(&str, &str, bool, bool); 10] = [
    ("", "", false, false),
    ("a", "a", false, false),
    ("e\u{301}", "e\u{301}", false, false),
    (TWELVE, TWELVE, false, false),
    (TWENTY, THIRTEEN, false, false),
    (WIDE_TWENTY, WIDE_TWELVE, true, true),
    ("\u{301}", " \u{301}", false, false),
    ("中", "中", true, true),
    ("\u{2764}", "\u{2764}", false, false),
    ("\u{2764}\u{fe0f}", "\u{2764}\u{fe0f}", false, true),
];

#[test]
fn keeps_a_character_and_its_marks(rt: HostRuntime) {
    for (text, contents, wide, wide_text) in &KEPT {
        let cell = cell_of_text(text);
        let is_blank = contents.is_empty();
        assert!(rt; cell.contents() == *contents);
        assert!(rt;
            cell.has_contents() != is_blank && cell::is_blank(&cell) == is_blank,
            "at {text}"
        );
        assert!(rt;
            cell.is_wide() == *wide && cell::is_wide_text(&cell) == *wide_text,
            "at {text}"
        );
    }
    assert!(rt; TWELVE.len() == 25 && THIRTEEN.len() == 27 && WIDE_TWELVE.len() == 27);
}

/// Returns a heart with U+FE0F, which requests emoji presentation and so allows either width.
fn heart(wide: bool) -> Cell {
    match (columns('\u{2764}'), columns('\u{fe0f}')) {
        (Some(1), Some(0)) => {
            let mut cell = cell::glyph('\u{2764}', false, Attrs::new());
            cell::append(&mut cell, '\u{fe0f}');
            cell::set_wide(&mut cell, wide);
            cell
        }
        _ => cell::default_blank(),
    }
}

#[test]
fn compares_text_width_flags_and_attributes(rt: HostRuntime) {
    let mut bold = Attrs::new();
    bold.set_intensity(Intensity::Bold);
    let mut red = Attrs::new();
    red.set_fgcolor(Color::Idx(1));
    let mut shorter = cell_of_text("e\u{301}\u{301}\u{301}\u{301}");
    cell::clear(&mut shorter, Attrs::new());
    for (cell, other, same) in &[
        (cell::default_blank(), cell::blank(Attrs::new()), true),
        (shorter, cell::default_blank(), true),
        (cell::default_blank(), cell::blank(bold), false),
        (cell::default_blank(), cell::right_half(), false),
        (cell::default_blank(), cell::space(Attrs::new()), false),
        (cell_of_text("e"), cell_of_text("e"), true),
        (cell_of_text("e"), cell_of_text("e\u{301}"), false),
        (cell_of_text("e"), cell_of_text("f"), false),
        (cell_of_text(TWELVE), cell_of_text(TWELVE), true),
        (cell_of_text(TWELVE), cell_of_text(TWENTY), false),
        (
            cell_of_text("e\u{301}\u{301}\u{301}\u{301}"),
            cell_of_text("e\u{301}\u{301}\u{301}\u{302}"),
            false,
        ),
        (heart(true), heart(true), true),
        (heart(true), heart(false), false),
        (cell::blank(bold), cell::blank(bold), true),
        (cell::blank(red), cell::blank(bold), false),
        (cell::space(bold), cell::space(bold), true),
        (cell::space(bold), cell::space(Attrs::new()), false),
        (cell::space(bold), cell::space(red), false),
    ] {
        assert!(rt; (cell == other) == *same);
    }
}

#[test]
fn is_cloned_whole(rt: HostRuntime) -> Result<(), Fail> {
    let mut bold = Attrs::new();
    bold.set_intensity(Intensity::Bold);
    for cell in &[
        cell::blank(bold),
        cell::space(bold),
        cell::right_half(),
        cell_of_text("e\u{301}"),
        cell_of_text("中"),
    ] {
        assert!(rt; cell.clone()? == *cell);
    }
    Ok(())
}

#[test]
fn runs_of_the_same_cells_are_found(rt: HostRuntime) {
    let e = cell_of_text("e");
    let row = [e, e, e, e, e, e, e, e, e];
    let mut other = row;
    assert!(rt; same_run(&row, &other) == 8);
    assert!(rt; same_run(&[e, e, e, e, e, e, e], &other) == 4);
    assert!(rt; same_run(&row, &[e, e, e]) == 0);
    other[7] = cell_of_text("f");
    assert!(rt; same_run(&row, &other) == 4);
    other[3] = cell::space(Attrs::new());
    assert!(rt; same_run(&row, &other) == 0);
}

#[test]
fn agrees_in_all_but_the_bytes_of_its_text(rt: HostRuntime) {
    let mut bold = Attrs::new();
    bold.set_intensity(Intensity::Bold);
    let e = cell_of_text("e");
    assert!(rt; cell::has_head_of(&e, &cell_of_text("f")));
    assert!(rt; !cell::has_head_of(&e, &cell_of_text("\u{e9}")));
    assert!(rt; !cell::has_head_of(&e, &cell::ascii(b'f', bold)));
    assert!(rt; !cell::has_head_of(&e, &cell::default_blank()));
    let wide = cell_of_text("\u{4e2d}");
    assert!(rt; cell::has_head_of(&wide, &cell_of_text("\u{6587}")));
    assert!(rt; !cell::has_head_of(&wide, &cell_of_text("\u{2500}")));
}

#[test]
fn lends_its_attributes(rt: HostRuntime) {
    let mut attrs = Attrs::new();
    attrs.set_fgcolor(Color::Idx(1));
    attrs.set_bgcolor(Color::Rgb(2, 3, 4));
    attrs.set_intensity(Intensity::Dim);
    attrs.set_italic(true);
    attrs.set_inverse(true);
    let cell = cell::space(attrs);
    assert!(rt; cell.contents() == " ");
    assert!(rt; cell::attrs(&cell) == attrs);
    assert!(rt; cell.fgcolor() == Color::Idx(1));
    assert!(rt; cell.bgcolor() == Color::Rgb(2, 3, 4));
    assert!(rt; cell.dim() && cell.italic() && cell.inverse());
    assert!(rt; !cell.bold() && !cell.underline());
    assert!(rt; cell::right_half().is_wide_continuation());
}

#[test]
fn are_plain_at_first(rt: HostRuntime) {
    assert!(rt; Attrs::default() == Attrs::new());
    assert!(rt; Intensity::default() == Intensity::Normal);
    assert!(rt; Color::default() == Color::Default);
    assert!(rt; Pos::default() == Pos { row: 0, col: 0 });
    assert!(rt; MouseProtocolMode::default() == MouseProtocolMode::None);
    assert!(rt; MouseProtocolEncoding::default() == MouseProtocolEncoding::Default);
    assert!(rt; CursorStyle::default() == CursorStyle::Default);
}

#[test]
fn sets_each_attribute(rt: HostRuntime) {
    let mut attrs = Attrs::new();
    attrs.set_intensity(Intensity::Bold);
    assert!(rt; attrs.bold() && !attrs.dim());
    attrs.set_intensity(Intensity::Dim);
    assert!(rt; attrs.dim() && !attrs.bold());
    attrs.set_intensity(Intensity::Normal);
    assert!(rt; !attrs.dim() && !attrs.bold());
    attrs.set_fgcolor(Color::Rgb(1, 2, 3));
    attrs.set_bgcolor(Color::Idx(4));
    assert!(rt; attrs.fgcolor() == Color::Rgb(1, 2, 3));
    assert!(rt; attrs.bgcolor() == Color::Idx(4));
    attrs.set_fgcolor(Color::Default);
    attrs.set_bgcolor(Color::Default);
    attrs.set_italic(true);
    attrs.set_underline(true);
    attrs.set_inverse(true);
    assert!(rt; attrs.italic() && attrs.underline() && attrs.inverse());
    attrs.set_italic(false);
    attrs.set_underline(false);
    attrs.set_inverse(false);
    assert!(rt; attrs == Attrs::new());
}

#[test]
fn displays_errors(rt: HostRuntime) -> Result<(), Fail> {
    for (error, words) in [
        (Error::OutOfMemory, "out of memory"),
        (Error::Failed, "parser failed"),
        (Error::NoNumber, "no viewer number left"),
        (Error::from(AllocError), "out of memory"),
    ] {
        assert!(rt; error.to_string(rt.alloc())?.as_str() == words);
    }
    Ok(())
}

const COLUMNS: [(char, Option<u8>); 7] = [
    ('a', Some(1)),
    ('~', Some(1)),
    ('中', Some(2)),
    ('\u{301}', Some(0)),
    ('\u{fe0f}', Some(0)),
    ('\u{7f}', None),
    ('\u{85}', None),
];

#[test]
fn counts_columns(rt: HostRuntime) {
    for (c, wanted) in &COLUMNS {
        assert!(rt; columns(*c) == *wanted, "at {c}");
    }
}
