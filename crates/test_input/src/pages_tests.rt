//! Tests of the two pages, of scrolling and scrollback, and of resizing.

use crate::copies_tests::counts;
use crate::examples::Step::{GiveUp, Resize, ResizeParser, Text, View};
use crate::examples::{
    Example, Pieces, Step, expect, expect_at_each_cut, expect_each, read_keeping, taken,
};
use std::test::Fail;
use vt_notes::Note;

#[rattlefmt::skip]
const PAGES: [Example; 41] = [
    // The alternate page is cleared on entry, and leaving it restores the cursor.
    ((2, 4), 0, &[Text("ab\x1b[?1049hxy")], "0:xy @0,2 alternate\n"),
    ((2, 4), 0, &[Text("ab\x1b[?1049hxy"), Text("\x1b[?1049l")], "0:ab @0,2\n"),
    ((2, 4), 0, &[Text("\x1b[1mab\x1b[?1049h\x1b[m\x1b[?1049l")], "0:ab @0,2 bold\n"),
    ((2, 4), 0, &[Text("ab\x1b[?1049hxy\x1b[?1049h")], "@0,0 alternate\n"),
    ((2, 4), 0, &[Text("ab\x1b[?1049hxy\x1b[?1049h\x1b[?1049l")], "0:ab @0,2\n"),
    ((2, 4), 0, &[Text("ab\x1b[?47h\x1b[?1049l")], "0:ab @0,0\n"),

    // Leaving restores the cursor even if the main page was active.
    ((2, 4), 0, &[Text("\x1b[1mab\x1b[?1049l")], "0:ab @0,0\n"),
    ((2, 4), 0, &[Text("ab\x1b7\x1b[H\x1b[?1049l")], "0:ab @0,2\n"),

    // The page is entered and left without being cleared.
    ((2, 4), 0, &[Text("\x1b[?47hx\x1b[?47l\x1b[?47h")], "0:x @0,1 alternate\n"),
    (
        (2, 4),
        0,
        &[Text("\x1b[?47hx\x1b[?47l\x1b[?47h"), Text("\x1b[?1049h")],
        "@0,0 alternate\n",
    ),
    ((2, 4), 0, &[Text("ab\x1b[?47hx\x1b[?47h")], "0:x @0,1 alternate\n"),
    ((2, 4), 0, &[Text("ab\x1b[?47hx\x1b[?47h\x1b[?47l")], "0:ab @0,2\n"),
    ((2, 4), 0, &[Text("ab\x1b[?47l")], "0:ab @0,2\n"),

    // Attributes, saved attributes, modes and the last character are shared by both pages.
    ((2, 4), 0, &[Text("\x1b[1m\x1b[?47hx")], "0:x @0,1 alternate bold\n"),
    ((2, 4), 0, &[Text("\x1b[?47h\x1b[1m\x1b[?47l")], "@0,0 bold\n"),
    ((2, 4), 0, &[Text("ab\x1b[1m\x1b7\x1b[m\x1b[?47h\x1b[2;2H\x1b8")], "@0,0 alternate bold\n"),
    ((2, 4), 0, &[Text("\x1b[?47h\x1b=\x1b[?47l")], "@0,0 keypad\n"),
    ((2, 4), 0, &[Text("\x1b[?1;1049;2004h")], "@0,0 alternate cursor keys paste\n"),
    ((2, 4), 0, &[Text("a\x1b[?47h\x1b[2b")], "0:aa @0,2 alternate\n"),

    // The scroll region and origin mode belong to one page, and a cleared page has neither.
    ((4, 4), 0, &[Text("\x1b[2;3r\x1b[?6h\x1b[?47h\x1b[H")], "@0,0 alternate\n"),
    ((4, 4), 0, &[Text("\x1b[2;3r\x1b[?6h\x1b[?47h\x1b[?47l\x1b[H")], "@1,0\n"),
    ((4, 4), 0, &[Text("\x1b[?47h\x1b[2;3r\x1b[?6h\x1b[?1049h\x1b[H")], "@0,0 alternate\n"),
    (
        (4, 4),
        0,
        &[Text("\x1b[?47h\x1b[2;3r\x1b[?6h\x1b7\x1b[?1049h\x1b[2;3r\x1b8\x1b[H")],
        "@0,0 alternate\n",
    ),

    // The state that DECSC saves.
    ((2, 4), 0, &[Text("ab\x1b[1;31m\x1b7\x1b[m\x1b[2;1H\x1b8")], "0:ab @0,2 foreground Idx(1) bold\n"),
    ((2, 4), 0, &[Text("\x1b[1mab\x1b8")], "0:ab @0,0\n"),
    ((4, 4), 0, &[Text("\x1b[2;3r\x1b[?6h\x1b7\x1b[?6l\x1b8\x1b[H")], "@1,0\n"),

    // Everything is restored as it was saved, even with a pending wrap and outside the scroll
    // region.
    ((2, 4), 0, &[Text("abcd\x1b7\x1b[H\x1b8")], "0:abcd @0,4\n"),
    ((2, 4), 0, &[Text("abcd\x1b7\x1b[H\x1b8x")], "0:abcd/ 1:x @1,1\n"),
    ((2, 4), 0, &[Text("abcd\x1b[?1049h\x1b[?1049l")], "0:abcd @0,4\n"),
    ((2, 4), 0, &[Text("abcd\x1b[?1049h\x1b[?1049lx")], "0:abcd/ 1:x @1,1\n"),
    ((3, 4), 0, &[Text("\x1b7\x1b[2;3r\x1b8")], "@0,0\n"),
    ((3, 4), 0, &[Text("\x1b7\x1b[2;3r\x1b[?1049l")], "@0,0\n"),
    ((3, 4), 0, &[Text("abcd\x1b7\x1b[2;3r\x1b8")], "0:abcd @0,4\n"),
    ((3, 4), 0, &[Text("\x1b[?6h\x1b7\x1b[2;3r\x1b8")], "@0,0\n"),
    ((3, 4), 0, &[Text("\x1b[?6h\x1b7\x1b[2;3r\x1b[?1049l\x1b[H")], "@1,0\n"),

    // The alternate page has no scrollback, and entering it scrolls the display of the main page
    // down.
    ((2, 4), 10, &[Text("\x1b[?47ha\r\nb\r\nc")], "0:b 1:c @1,1 alternate\nscroll 61 1\n"),
    ((2, 4), 10, &[Text("a\r\nb\r\nc\x1b[?47h"), View(1)], "@0,0 alternate\n"),
    ((2, 4), 10, &[Text("a\r\nb\r\nc\x1b[?47h"), View(1), Text("\x1b[?47l")], "0:b 1:c @1,1 kept 1\n"),
    ((2, 4), 10, &[Text("a\r\nb\r\nc"), View(1), Text("\x1b[?47h\x1b[?47l")], "0:b 1:c @1,1 kept 1\n"),
    ((2, 4), 10, &[Text("a\r\nb\r\nc\x1b[?47h\x1b[3J\x1b[?47l")], "0:b 1:c @1,1 kept 1\n"),
    ((2, 4), 10, &[Text("a\r\nb\r\nc\x1b[?47h"), GiveUp, Text("\x1b[?47l")], "0:b 1:c @1,1 kept 1\n"),
];

#[test]
fn changes_pages_at_every_cut(rt: HostRuntime) -> Result<(), Fail> {
    expect_each(rt.alloc(), &PAGES)
}

/// Consecutive steps, each with the three numbers expected once the step is taken: the number of
/// rows in scrollback, the number of rows by which the display is scrolled back, and the scrollback
/// capacity.
const COUNTED: [(Step, (usize, usize, usize)); 5] = [
    (View(1), (1, 1, 10)),
    (Text("\x1b[?47h"), (0, 0, 0)),
    (View(1), (0, 0, 0)),
    (Text("\x1b[?47l"), (1, 0, 10)),
    (Text("\x1bc"), (0, 0, 10)),
];

#[test]
fn counts_rows_of_the_main_page_alone(rt: HostRuntime) -> Result<(), Fail> {
    let mut parser = read_keeping(rt.alloc(), (2, 4), 10, &[b"a\r\nb\r\nc"])?;
    for (step, wanted) in &COUNTED {
        step.take(&mut parser, Pieces::Single)?;
        assert!(rt; counts(parser.screen()) == *wanted, "after {step:?}");
    }
    Ok(())
}

#[rattlefmt::skip]
const SHOWN: [((u16, u16), usize, &str, &str); 54] = [
    // Rows that scroll off are kept, and rows beyond the capacity are reported.
    ((2, 4), 10, "a\r\nb\r\nc", "0:b 1:c @1,1 kept 1\n"),
    ((2, 4), 1, "a\r\nb\r\nc\r\nd", "0:c 1:d @1,1 kept 1\nscroll 61 0\n"),
    ((2, 1), 1, "z\r\na\r\nb", "0:a 1:b @1,1 kept 1\n"),
    ((2, 1), 1, "z\r\na\r\nb\x1b[2S", "@1,1 kept 1\nscroll 7a 0\nscroll 61 0\n"),
    ((1, 2), 0, "abc", "0:c @0,1\nscroll 6162 0\n"),
    ((2, 2), 0, "\x1b[2;2H\u{2764}\u{fe0f}", "1:[\u{2764}\u{fe0f}] @1,2\nscroll . 0\n"),
    (
        (1, 6),
        0,
        "\x1b[31ma\x1b[m\x1b[Cb\r\n",
        "@0,0\nscroll 1b5b33316d61201b5b6d62 0\n",
    ),

    // Rows are deleted and inserted, and the page scrolls down, after the whole page has scrolled up.
    (
        (3, 2),
        0,
        "a\r\nb\r\nc\r\nd\r\ne\r\nf\r\ng\r\nh\r\ni\x1b[2;1H\x1b[M",
        "0:g 1:i @1,0\nscroll 61 0\nscroll 62 0\nscroll 63 0\nscroll 64 0\nscroll 65 0\nscroll 66 0\n",
    ),
    (
        (3, 2),
        0,
        "a\r\nb\r\nc\r\nd\x1b[2;1H\x1b[L\x1b[3;1H\n",
        "1:c @2,0\nscroll 61 0\nscroll 62 0\n",
    ),
    ((3, 2), 0, "a\r\nb\r\nc\r\nd\x1b[H\x1bM", "1:b 2:c @0,0\nscroll 61 0\n"),

    // Rows that are dropped inside the page are neither kept nor reported.
    ((3, 2), 10, "a\r\nb\r\nc\x1b[2;3r\x1b[3;1H\n", "0:a 1:c @2,0\n"),
    ((3, 2), 10, "a\r\nb\r\nc\x1b[2;3r\x1b[S", "0:a 1:c @1,0\n"),
    ((2, 2), 10, "a\r\nb\x1b[H\x1b[M", "0:b @0,0\n"),
    ((2, 2), 10, "a\r\nb\x1b[T", "1:a @1,1\n"),
    ((2, 2), 10, "a\r\nb\x1b[2J", "@1,1\n"),

    // A row that becomes blank keeps nothing of the row whose cells were stored at its place.
    ((1, 4), 0, "abcd\n\n", "@0,4\nscroll 61626364 0\nscroll . 0\n"),
    ((1, 4), 0, "a\x1b[4Gd\n\n", "@0,4\nscroll 61202064 0\nscroll . 0\n"),
    ((1, 4), 0, "ab中\n\n", "@0,4\nscroll 6162e4b8ad 0\nscroll . 0\n"),
    ((1, 4), 0, "abcd\x1b[2K\n\x1b[3Gx", "0:..x @0,3\nscroll . 0\n"),
    ((1, 4), 0, "ab\x1b[H\x1b[2@\n\n", "@0,0\nscroll 20206162 0\nscroll . 0\n"),
    ((1, 4), 0, "abcd\x1b[H\x1b[P\n\n", "@0,0\nscroll 626364 0\nscroll . 0\n"),
    ((2, 4), 0, "abcd\r\n\x1b[2J\x1b[2;2Hx\n\n", "@1,2\nscroll . 0\nscroll 2078 0\n"),

    // Scrollback is cleared.
    ((2, 1), 3, "a\r\nb\r\nc\r\nd", "0:c 1:d @1,1 kept 2\n"),
    (
        (2, 1),
        3,
        "a\r\nb\r\nc\r\nd\x1b[3J",
        "0:c 1:d @1,1\nscroll 61 0\nscroll 62 0\n",
    ),

    // Rows are inserted and deleted, and the page scrolls down.
    ((3, 2), 0, "a\r\nb\r\nc\x1b[2;3r\x1b[H\x1bM", "0:a 2:b @0,0\n"),
    ((3, 2), 0, "a\r\nb\r\nc\x1b[2;3r\x1b[2;1H\x1bM", "0:a 2:b @1,0\n"),
    ((3, 2), 0, "a\r\nb\r\nc\x1bM", "0:a 1:b 2:c @1,1\n"),
    ((2, 2), 0, "abc\x1b[H\x1b[L", "1:ab @0,0\n"),
    ((2, 2), 0, "abc\x1b[H\x1bM", "1:ab @0,0\n"),
    ((3, 2), 0, "a\r\nb\r\nc\x1b[2;3r\x1b[H\x1b[L", "0:a 1:b 2:c @0,0\n"),
    ((3, 2), 0, "a\r\nb\r\nc\x1b[2;3r\x1b[H\x1b[M", "0:a 1:b 2:c @0,0\n"),

    // Columns are inserted and deleted; a wide glyph that is cut becomes blank.
    ((1, 5), 0, "a中b\x1b[1;3H\x1b[P", "0:a.b @0,2\n"),
    ((1, 4), 0, "a中\x1b[1;2H\x1b[@", "0:a.[中] @0,1\n"),
    ((1, 4), 0, "a中\x1b[1;2H\x1b[2@", "0:a @0,1\n"),

    // Erasing with a pending wrap.
    ((1, 4), 0, "abcd\x1b[X", "0:abcd @0,4\n"),
    ((1, 4), 0, "abcd\x1b[K", "0:abcd @0,4\n"),
    ((1, 4), 0, "abcd\x1b[1K", "@0,4\n"),
    ((2, 2), 0, "abcd\x1b[1;2H\x1b[J", "0:a @0,1\n"),
    ((2, 4), 0, "abcd\x1b[J", "0:abcd @0,4\n"),
    ((2, 4), 0, "\x1b[2;1Hx\x1b[Habcd\x1b[J", "0:abcd @0,4\n"),

    // Cursor movement with a pending wrap.
    ((1, 4), 0, "abcd\x1b[C", "0:abcd @0,3\n"),
    ((1, 4), 0, "abcd\x08", "0:abcd @0,3\n"),
    ((1, 8), 0, "abcdefgh\t", "0:abcdefgh @0,7\n"),

    // Cursor movement, the scroll region and origin mode.
    ((4, 4), 0, "\x1b[2;3r\x1b[?6h\x1b[4;4H", "@2,3\n"),
    ((4, 4), 0, "\x1b[2;3r\x1b[?6h\x1b[4;4H\x1b[4d", "@3,3\n"),
    ((4, 4), 0, "\x1b[2;3r\x1b[?6h", "@1,0\n"),
    ((4, 4), 0, "\x1b[2;3r", "@1,0\n"),
    ((4, 4), 0, "\x1b[4;4H\x1b[3;2r", "@0,0\n"),
    ((4, 2), 0, "\x1b[3;4r\x1b[3;1Hx\x1b[1;1H\n\n\n", "2:x @3,0\n"),
    ((4, 2), 0, "\x1b[3;4r\x1b[4;1Hx\x1b[1;1H\n\n\n\n", "2:x @3,0\n"),
    ((4, 2), 0, "\x1b[1;2r\x1b[4;1Hx\n", "3:x @3,1\n"),
    ((4, 2), 0, "\x1b[1;2r\x1b[4;1H\x1b[9A", "@0,0\n"),
    ((4, 2), 0, "\x1b[2;3r\x1b[3;1H\x1b[9A", "@1,0\n"),
    ((4, 2), 0, "\x1b[2;3r\x1b[2;1H\x1b[9B", "@2,0\n"),
];

#[test]
fn scrolls_at_every_cut(rt: HostRuntime) -> Result<(), Fail> {
    for (size, capacity, text, wanted) in &SHOWN {
        expect_at_each_cut(rt.alloc(), *size, *capacity, &[Text(text)], wanted)?;
    }
    Ok(())
}

#[rattlefmt::skip]
const LOOKED_BACK: [Example; 11] = [
    ((2, 4), 10, &[Text("a\r\nb\r\nc"), View(0)], "0:b 1:c @1,1 kept 1\n"),
    ((2, 4), 10, &[Text("a\r\nb\r\nc"), View(1)], "0:a 1:b @1,1 kept 1 in view 1\n"),
    ((2, 4), 10, &[Text("a\r\nb\r\nc"), View(5)], "0:a 1:b @1,1 kept 1 in view 1\n"),
    ((2, 4), 0, &[Text("a"), View(5)], "0:a @0,1\n"),

    // Displayed rows of scrollback stay displayed as long as they are kept.
    ((2, 4), 10, &[Text("a\r\nb\r\nc"), View(1), Text("\r\nd")], "0:a 1:b @1,1 kept 2 in view 2\n"),
    (
        (2, 4),
        1,
        &[Text("a\r\nb\r\nc"), View(1), Text("\r\nd")],
        "0:b 1:c @1,1 kept 1 in view 1\nscroll 61 0\n",
    ),
    (
        (3, 1),
        3,
        &[Text("a\r\nb\r\nc\r\nd\r\ne"), View(1), Text("\r\nf")],
        "0:b 1:c 2:d @2,1 kept 3 in view 2\n",
    ),
    (
        (3, 1),
        3,
        &[Text("a\r\nb\r\nc\r\nd\r\ne"), View(1), Text("\r\nf\r\ng"), View(9)],
        "0:b 1:c 2:d @2,1 kept 3 in view 3\nscroll 61 0\n",
    ),
    (
        (2, 1),
        1,
        &[Text("z\r\na\r\nb\x1b[2S"), View(1)],
        "0:b @1,1 kept 1 in view 1\nscroll 7a 0\nscroll 61 0\n",
    ),
    (
        (2, 1),
        3,
        &[Text("a\r\nb\r\nc\r\nd"), View(2), Text("\x1b[3J")],
        "0:c 1:d @1,1\nscroll 61 0\nscroll 62 0\n",
    ),

    // A row in scrollback is still wrapped.
    ((2, 2), 10, &[Text("abcde"), View(1)], "0:ab/ 1:cd/ @1,1 kept 1 in view 1\n"),
];

#[test]
fn looks_back_at_every_cut(rt: HostRuntime) -> Result<(), Fail> {
    expect_each(rt.alloc(), &LOOKED_BACK)
}

#[test]
fn gives_up_scrollback_in_silence(rt: HostRuntime) -> Result<(), Fail> {
    let steps = [Text("a\r\nb\r\nc\r\nd"), View(2), GiveUp];
    let parser = taken(rt.alloc(), (2, 1), 3, &steps, Pieces::Two(0))?;
    assert!(rt; parser.screen().scrollback_len() == 0);
    assert!(rt; parser.screen().scrollback_capacity() == 3);
    expect(rt.alloc(), &parser, &steps, "0:c 1:d @1,1\n")
}

#[test]
fn has_cells_to_the_end_of_each_row(rt: HostRuntime) -> Result<(), Fail> {
    let steps = [Text("abcdef\r\nghi\r\nj"), Resize(2, 3), View(1)];
    let parser = taken(rt.alloc(), (2, 6), 10, &steps, Pieces::Two(0))?;
    let screen = parser.screen();
    let last = screen.cell(0, 5).ok_or("no cell")?;
    assert!(rt; last.contents() == "f");
    for (row, col) in [(0, 6), (1, 3), (2, 0)] {
        assert!(rt; screen.cell(row, col).is_none(), "a cell at {row}, {col}");
    }
    assert!(rt; !screen.row_wrapped(2));
    Ok(())
}

#[test]
fn notes_rows_that_leave(rt: HostRuntime) -> Result<(), Fail> {
    let parser = read_keeping(rt.alloc(), (2, 2), 0, &[b"abcde\r\n"])?;
    let calls = parser.callbacks().calls();
    assert!(rt; calls.len() == 2);
    assert!(rt; is_wrapped_row(&calls[0], "ab"));
    assert!(rt; is_wrapped_row(&calls[1], "cd"));
    Ok(())
}

/// Returns whether the call reports a wrapped row of the main page that has two columns and the
/// text `text`.
fn is_wrapped_row(call: &Note, text: &str) -> bool {
    match call {
        Note::OnScroll(row, false) => {
            row.text.as_str() == text && row.cells.len() == 2 && row.wrapped
        }
        _ => false,
    }
}

/// Examples in which rows move down. Afterward, the last row of the scroll region is not wrapped.
#[rattlefmt::skip]
const MOVED_DOWN: [((u16, u16), &str, &str); 9] = [
    ((2, 2), "abc\x1b[H\x1b[L", "1:ab @0,0\n"),
    ((2, 2), "abc\x1b[T", "1:ab @1,1\n"),
    ((2, 2), "abc\x1b[H\x1bM", "1:ab @0,0\n"),
    ((3, 2), "abc\x1b[1;2r\x1b[L", "1:ab @0,0\n"),
    ((3, 2), "abc\x1b[1;2r\x1b[T", "1:ab @0,0\n"),
    ((3, 2), "abc\x1b[1;2r\x1bM", "1:ab @0,0\n"),
    ((3, 2), "abcde\x1b[H\x1b[L", "1:ab/ 2:cd @0,0\n"),
    ((3, 2), "abcde\x1b[T", "1:ab/ 2:cd @2,1\n"),
    ((3, 2), "abcde\x1b[H\x1bM", "1:ab/ 2:cd @0,0\n"),
];

#[test]
fn moves_rows_down_at_every_cut(rt: HostRuntime) -> Result<(), Fail> {
    for (size, text, wanted) in &MOVED_DOWN {
        expect_at_each_cut(rt.alloc(), *size, 0, &[Text(text)], wanted)?;
    }
    Ok(())
}

#[rattlefmt::skip]
const RESIZED: [Example; 44] = [
    // Rows come back from scrollback, and as blank rows if they were not kept.
    (
        (2, 4),
        1,
        &[Text("a\r\nb\r\nc\r\nd"), Resize(5, 4)],
        "1:b 2:c 3:d @3,1\nscroll 61 0\n",
    ),
    (
        (2, 4),
        1,
        &[Text("a\r\nb\r\nc\r\nd"), ResizeParser(5, 4)],
        "1:b 2:c 3:d @3,1\nscroll 61 0\n",
    ),
    ((3, 4), 10, &[Text("a\r\nb\r\nc"), Resize(2, 4)], "0:b 1:c @1,1 kept 1\n"),
    ((3, 4), 10, &[Text("a\r\nb\r\nc"), Resize(2, 4), Resize(3, 4)], "0:a 1:b 2:c @2,1\n"),
    ((2, 4), 3, &[Text("a\r\nb\r\nc\r\nd"), Resize(3, 4)], "0:b 1:c 2:d @2,1 kept 1\n"),
    ((3, 4), 5, &[Text("a\r\nb\r\nc"), Resize(1, 4)], "0:c @0,1 kept 2\n"),
    ((2, 4), 10, &[Text("a\r\nb\r\nc"), View(1), Resize(2, 5)], "0:b 1:c @1,1 kept 1\n"),

    // Rows scroll off the top if those below the cursor are not enough.
    ((3, 4), 0, &[Text("a\r\nb\r\nc"), ResizeParser(2, 4)], "0:b 1:c @1,1\nscroll 61 0\n"),
    ((3, 4), 0, &[Text("a\r\nb\r\nc"), Resize(2, 4)], "0:b 1:c @1,1\n"),
    ((3, 4), 0, &[Text("a\r\nb\r\nc\x1b[H"), ResizeParser(2, 4)], "0:a 1:b @0,0\n"),

    // A main page without scrollback counts the rows that scrolled off, and the alternate page does
    // not.
    ((2, 4), 0, &[Text("a\r\nb\r\nc"), Resize(3, 4)], "1:b 2:c @2,1\nscroll 61 0\n"),
    (
        (2, 4),
        0,
        &[Text("\x1b[?1049ha\r\nb\r\nc"), Resize(3, 4)],
        "0:b 1:c @1,1 alternate\nscroll 61 1\n",
    ),
    (
        (2, 4),
        0,
        &[Text("\x1b[?1049ha\r\nb\r\nc"), Resize(3, 4), Text("\x1b[?1049l")],
        "@0,0\nscroll 61 1\n",
    ),

    // Both pages are resized.
    (
        (3, 4),
        0,
        &[Text("\x1b[?1049ha\r\nb\r\nc"), ResizeParser(2, 4)],
        "0:b 1:c @1,1 alternate\nscroll 61 1\n",
    ),
    (
        (3, 4),
        0,
        &[Text("\x1b[?1049ha\r\nb\r\nc"), Resize(2, 4)],
        "0:b 1:c @1,1 alternate\n",
    ),
    (
        (3, 4),
        0,
        &[Text("a\r\nb\r\nc\x1b[?47hx\r\ny\r\nz"), ResizeParser(2, 4)],
        "0:y 1:z @1,1 alternate\nscroll 61 0\nscroll 78 1\n",
    ),
    (
        (3, 4),
        0,
        &[Text("a\r\nb\r\nc\x1b[?47hx\r\ny\r\nz"), ResizeParser(2, 4), Text("\x1b[?47l")],
        "0:b 1:c @1,1\nscroll 61 0\nscroll 78 1\n",
    ),
    (
        (3, 4),
        10,
        &[Text("a\r\nb\r\nc\x1b[?47hx\r\ny\r\nz"), ResizeParser(2, 4), Text("\x1b[?47l")],
        "0:b 1:c @1,1 kept 1\nscroll 78 1\n",
    ),

    // A page that has scrolled keeps its upper rows if rows below the cursor are removed.
    (
        (4, 2),
        0,
        &[Text("a\r\nb\r\nc\r\nd\r\ne\x1b[H"), Resize(2, 2)],
        "0:b 1:c @0,0\nscroll 61 0\n",
    ),
    (
        (4, 2),
        0,
        &[Text("a\r\nb\r\nc\r\nd\r\ne\x1b[H"), Resize(2, 2), Resize(5, 2)],
        "1:b 2:c @1,0\nscroll 61 0\n",
    ),

    // Columns: a wide glyph that is cut becomes blank, and a row stays wrapped only if its length
    // is unchanged.
    ((2, 4), 0, &[Text("ab中"), Resize(2, 3)], "0:ab @0,2\n"),
    ((2, 4), 0, &[Text("ab中x"), Resize(2, 3)], "0:ab 1:x @1,1\n"),
    ((3, 2), 0, &[Text("abcde"), Resize(2, 2)], "0:cd/ 1:e @1,1\n"),
    ((3, 2), 0, &[Text("abcde\x1b[H"), Resize(2, 2)], "0:ab/ 1:cd @0,0\n"),
    ((3, 2), 0, &[Text("abcde"), Resize(3, 3)], "0:ab 1:cd 2:e @2,1\n"),
    ((3, 2), 0, &[Text("abcde"), Resize(3, 1)], "0:a 1:c 2:e @2,0\n"),

    // Columns that were cut come back blank, on both pages.
    ((2, 4), 0, &[Text("abcd"), Resize(2, 2), Resize(2, 4)], "0:ab @0,1\n"),
    ((2, 4), 0, &[Text("ab中x"), Resize(2, 3), Resize(2, 4)], "0:ab 1:x @1,1\n"),
    ((1, 4), 0, &[Text("abcd"), Resize(1, 2), Resize(1, 4), Text("中")], "0:a[中] @0,3\n"),
    ((1, 2), 0, &[Text("ab"), Resize(1, 1), Resize(1, 3), Text("x")], "0:x @0,1\n"),
    ((2, 4), 0, &[Text("abcd"), Resize(2, 2), Resize(3, 4), Resize(3, 5)], "0:ab @0,1\n"),
    (
        (2, 4),
        0,
        &[Text("abcd\x1b[?1049h\x1b[Hwxyz"), Resize(2, 2), Resize(2, 3)],
        "0:wx @0,1 alternate\n",
    ),
    (
        (2, 4),
        0,
        &[Text("abcd\x1b[?1049h\x1b[Hwxyz"), Resize(2, 2), Resize(2, 3), Text("\x1b[?1049l")],
        "0:ab @0,1\n",
    ),

    // A pending wrap is reset, and both cursors stay on the screen.
    ((1, 4), 0, &[Text("abcd"), Resize(1, 5)], "0:abcd @0,4\n"),
    ((1, 4), 0, &[Text("abcd"), Resize(1, 5), Text("x")], "0:abcdx @0,5\n"),
    ((2, 4), 0, &[Text("abcd"), Resize(3, 4)], "0:abcd @0,3\n"),
    ((3, 4), 0, &[Text("\x1b[3;4H\x1b7\x1b[H"), Resize(2, 2), Text("\x1b8")], "@1,1\n"),

    // The scroll region becomes the whole screen, and origin mode stays.
    (
        (3, 4),
        0,
        &[Text("a\r\nb\r\nc\x1b[2;3r"), Resize(3, 5), Text("\x1b[3;1H\n")],
        "0:b 1:c @2,0\nscroll 61 0\n",
    ),
    ((4, 4), 0, &[Text("\x1b[2;3r\x1b[?6h"), Resize(4, 5), Text("\x1b[H")], "@0,0\n"),
    ((4, 4), 0, &[Text("\x1b[2;3r\x1b[?6h"), Resize(4, 5), Text("\x1b[2;3r\x1b[H")], "@1,0\n"),

    // A resize to the current size changes nothing.
    ((3, 4), 0, &[Text("abcd"), Resize(3, 4)], "0:abcd @0,4\n"),
    ((3, 4), 0, &[Text("abcd"), ResizeParser(3, 4), Text("x")], "0:abcd/ 1:x @1,1\n"),
    (
        (3, 4),
        0,
        &[Text("a\r\nb\r\nc\x1b[2;3r"), Resize(3, 4), Text("\x1b[3;1H\n")],
        "0:a 1:c @2,0\n",
    ),
    ((2, 4), 10, &[Text("a\r\nb\r\nc"), View(1), Resize(2, 4)], "0:a 1:b @1,1 kept 1 in view 1\n"),
];

#[test]
fn resizes_at_every_cut(rt: HostRuntime) -> Result<(), Fail> {
    expect_each(rt.alloc(), &RESIZED)
}
