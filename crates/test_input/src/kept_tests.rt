//! Tests of whether anything is half read, and of the rows that a screen keeps.

use crate::examples::read_keeping;
use std::test::Fail;
use vt100::{Cell, Screen};

/// Test cases: bytes that are read one after the other, and whether nothing is half read then.
const READ: &[(&[u8], bool)] = &[
    (b"ab\n", true),
    (b"\x1B", false),
    (b"[", false),
    (b"3\n", false),
    (b"m", true),
    (b"\x1B(", false),
    (b"B", true),
    (b"\x1B[1", false),
    (b"\x18", true),
    (b"\x1B]2;title", false),
    (b"\x07", true),
    (b"\x1B]2;title\x1B", false),
    (b"\\", true),
    (b"\x1BPtitle\x07\x9C", false),
    (b"\x1B\\", true),
    (b"\xE4\xB8", false),
    (b"\xAD", true),
    (b"\xF0\x9F\x98", false),
    (b"x", true),
    (b"\xE4", false),
    (b"\x1B", false),
    (b"c", true),
    (b"\xFF\x80", true),
];

#[test]
fn knows_whether_anything_is_half_read(rt: HostRuntime) -> Result<(), Fail> {
    let mut parser = read_keeping(rt.alloc(), (2, 4), 0, &[])?;
    assert!(rt; parser.is_ground());
    for (bytes, is_ground) in READ {
        parser.process(bytes)?;
        assert!(rt; parser.is_ground() == *is_ground, "{bytes:?}");
    }
    Ok(())
}

/// Test cases: bytes that are read one after the other, and how often scrollback was erased then.
const ERASURES: &[(&[u8], u64)] = &[
    (b"a\r\nb\r\n", 0),
    (b"\x1B[3", 0),
    (b"J", 1),
    (b"\x1B[?3J\x1B[03;9J", 3),
    (b"\x1Bc", 4),
    (b"\x1B[2J\x1B[33J\x1B[;3J\x1B[3K\x1B[>3J\x1B(c", 4),
    (b"\x1B[?1049h\x1B[3J", 5),
    (b"\x1B]0;title\x1Bc", 6),
];

#[test]
fn counts_erasures_of_scrollback(rt: HostRuntime) -> Result<(), Fail> {
    let mut parser = read_keeping(rt.alloc(), (2, 4), 9, &[])?;
    for (bytes, count) in ERASURES {
        parser.process(bytes)?;
        assert!(rt; parser.scrollback_erasures() == *count, "{bytes:?}");
    }
    Ok(())
}

/// Returns the text of the first cell, or an empty string if there is none.
fn first_text(cells: &[Cell]) -> &str {
    match cells.first() {
        Some(cell) => cell.contents(),
        None => "",
    }
}

/// Returns whether a screen keeps a row at `index` that has `len` cells, the first one with the text
/// `first`, and is wrapped or not.
fn is_kept(screen: &Screen, index: usize, len: usize, first: &str, wrapped: bool) -> bool {
    match screen.kept_row(index) {
        Some(row) => {
            row.cells().len() == len && first_text(row.cells()) == first && row.wrapped() == wrapped
        }
        None => false,
    }
}

/// Test cases: the index of a row, its number of cells, the text of the first one, and whether the
/// row is wrapped. The first four rows are in scrollback.
const KEPT: &[(usize, usize, &str, bool)] = &[
    (0, 2, "a", false),
    (1, 4, "w", true),
    (2, 3, "中", false),
    (3, 0, "", false),
    (4, 4, "c", false),
    (5, 4, "e", false),
];

#[test]
fn reads_rows_that_are_not_displayed(rt: HostRuntime) -> Result<(), Fail> {
    let text = "ab\r\nwxyz中!\r\n\r\ncd\r\ne";
    let mut parser = read_keeping(rt.alloc(), (2, 4), 9, &[text.as_bytes()])?;
    for (index, len, first, wrapped) in KEPT {
        assert!(rt;
            is_kept(parser.screen(), *index, *len, first, *wrapped),
            "{index}"
        );
    }
    assert!(rt; parser.screen().kept_row(6).is_none());
    // Rows that are displayed are widened. They are found at the same index.
    parser.screen_mut().set_scrollback(2)?;
    assert!(rt; is_kept(parser.screen(), 2, 4, "中", false));
    assert!(rt; is_kept(parser.screen(), 5, 4, "e", false));
    // The alternate page has no scrollback.
    parser.process(b"\x1B[?1049hpage")?;
    assert!(rt; is_kept(parser.screen(), 0, 4, "p", false));
    assert!(rt; parser.screen().kept_row(2).is_none());
    Ok(())
}
