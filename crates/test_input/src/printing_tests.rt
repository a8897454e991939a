//! Tests of printing (wraps, wide characters, combining characters, and changes of width by U+FE0F), of
//! the parser itself, and of very long inputs and very large scrollback capacities.

use crate::examples::Step::{self, Resize, ResizeParser, Text, View};
use crate::examples::{expect_at_each_cut, read, read_keeping, size_of};
use std::io::Write;
use std::test::Fail;
use vt_notes::Note;
use vt100::{Color, Parser};

#[rattlefmt::skip]
const PRINTED: [((u16, u16), &str, &str); 74] = [
    // A pending wrap.
    ((2, 4), "abcd", "0:abcd @0,4\n"),
    ((2, 4), "abcd\n", "0:abcd @1,4\n"),
    ((2, 4), "abcd\x1b[2K", "@0,4\n"),
    ((2, 4), "abcdx", "0:abcd/ 1:x @1,1\n"),
    ((2, 2), "abcde", "0:cd/ 1:e @1,1\nscroll 6162 0\n"),
    ((1, 1), "ab", "0:b @0,1\nscroll 61 0\n"),

    // Wide characters.
    ((2, 1), "中", "@0,0\n"),
    ((2, 2), "a中", "0:a 1:[中] @1,2\n"),
    ((2, 4), "abc中", "0:abc 1:[中] @1,2\n"),
    ((1, 4), "\x1b[1;2H中\x1b[H中", "0:[中] @0,2\n"),
    ((1, 6), "中ab\x1b[1;2Hx", "0:.xab @0,2\n"),
    ((1, 6), "中ab\x1b[Hx", "0:x ab @0,1\n"),

    // Runs of wide characters: up to the last column, with a column to spare, and through glyphs.
    ((2, 6), "中文字中", "0:[中][文][字]/ 1:[中] @1,2\n"),
    ((2, 5), "中文字", "0:[中][文] 1:[字] @1,2\n"),
    ((2, 1), "中文", "@0,0\n"),
    ((1, 2), "中文", "0:[文] @0,2\nscroll e4b8ad 0\n"),
    ((1, 8), "中中中\x1b[1;2H文文", "0:.[文][文] @0,5\n"),
    ((1, 6), "한글あ", "0:[한][글][あ] @0,6\n"),
    ((1, 5), "中↑文", "0:[中]↑[文] @0,5\n"),
    ((1, 4), "中文\u{301}", "0:[中][文\u{301}] @0,4\n"),

    // Runs of narrow characters: up to the last column, with ASCII between, and through wide glyphs.
    ((2, 6), "привет", "0:привет @0,6\n"),
    ((2, 4), "привет", "0:прив/ 1:ет @1,2\n"),
    ((2, 1), "éà", "0:é/ 1:à @1,1\n"),
    ((1, 8), "Ça va, à", "0:Ça va, à @0,8\n"),
    ((1, 4), "┌─┐\r│", "0:│─┐ @0,1\n"),
    ((1, 8), "中中中\x1b[1;2Héé", "0:.éé [中] @0,3\n"),
    ((1, 6), "é中à文", "0:é[中]à[文] @0,6\n"),
    ((1, 4), "éà\u{301}ü", "0:éà\u{301}ü @0,3\n"),

    // Combining characters: a cell accepts them while its text is shorter than 26 bytes.
    ((1, 4), "e\u{301}", "0:e\u{301} @0,1\n"),
    ((1, 4), "\u{301}", "@0,0\n"),
    (
        (1, 4),
        "e\u{301}\u{301}\u{301}\u{301}\u{301}\u{301}\u{301}\u{301}\u{301}\u{301}\
         \u{301}\u{301}",
        "0:e\u{301}\u{301}\u{301}\u{301}\u{301}\u{301}\u{301}\u{301}\u{301}\u{301}\
         \u{301}\u{301} @0,1\n",
    ),
    (
        (1, 4),
        "e\u{301}\u{301}\u{301}\u{301}\u{301}\u{301}\u{301}\u{301}\u{301}\u{301}\
         \u{301}\u{301}\u{301}\u{301}\u{301}\u{301}\u{301}\u{301}\u{301}\u{301}",
        "0:e\u{301}\u{301}\u{301}\u{301}\u{301}\u{301}\u{301}\u{301}\u{301}\u{301}\
         \u{301}\u{301}\u{301} @0,1\n",
    ),
    (
        (1, 4),
        "中\u{301}\u{301}\u{301}\u{301}\u{301}\u{301}\u{301}\u{301}\u{301}\u{301}\
         \u{301}\u{301}\u{301}\u{301}\u{301}\u{301}\u{301}\u{301}\u{301}\u{301}",
        "0:[中\u{301}\u{301}\u{301}\u{301}\u{301}\u{301}\u{301}\u{301}\u{301}\u{301}\
         \u{301}\u{301}] @0,2\n",
    ),

    // Glyphs of more than seven bytes that are overwritten: by a letter, a blank and a wide character,
    // within runs of printable ASCII, of narrow and of wide characters, and by a row that becomes blank.
    ((1, 4), "e\u{301}\u{301}\u{301}\u{301}\rx", "0:x @0,1\n"),
    ((1, 4), "é\u{301}\u{301}\u{301}\rx\u{301}", "0:x\u{301} @0,1\n"),
    ((1, 4), "ae\u{301}\u{301}\u{301}\u{301}b\x1b[1;2H\x1b[X", "0:a.b @0,1\n"),
    ((1, 4), "e\u{301}\u{301}\u{301}\u{301}\r中", "0:[中] @0,2\n"),
    ((1, 4), "ae\u{301}\u{301}\u{301}\u{301}\r中", "0:[中] @0,2\n"),
    (
        (1, 24),
        "\x1b[1;6He\u{301}\u{301}\u{301}\u{301}\x1b[1;16He\u{301}\u{301}\u{301}\u{301}\
         \x1b[1;19He\u{301}\u{301}\u{301}\u{301}\x1b[1;22Hé\u{301}\u{301}\u{301}\rabcdefghijklmnopqrst",
        "0:abcdefghijklmnopqrst.é\u{301}\u{301}\u{301} @0,20\n",
    ),
    (
        (1, 24),
        "\x1b[1;6He\u{301}\u{301}\u{301}\u{301}\x1b[1;19He\u{301}\u{301}\u{301}\u{301}x\r\x1b[19X",
        "0:...................x @0,0\n",
    ),
    ((1, 8), "\x1b[1;3He\u{301}\u{301}\u{301}\u{301}\rпривет", "0:привет @0,6\n"),
    ((1, 8), "e\u{301}\u{301}\u{301}\u{301}\x1b[1;4He\u{301}\u{301}\u{301}\u{301}\r中文字", "0:[中][文][字] @0,6\n"),
    (
        (2, 12),
        "\x1b[1;3He\u{301}\u{301}\u{301}\u{301}\n\n\rx",
        "1:x @1,1\nscroll 202065cc81cc81cc81cc81 0\n",
    ),

    // REP, and a character that prints nothing.
    ((1, 6), "ab\x1b[3b", "0:abbbb @0,5\n"),
    ((1, 6), "\x1b[3b", "@0,0\n"),
    ((1, 6), "a\x7fb", "0:ab @0,2\n"),

    // A glyph that becomes wide, in each column.
    ((2, 1), "\u{2764}\u{fe0f}", "0:\u{2764}\u{fe0f} @0,1\n"),
    ((2, 1), "\x1b[2;1H\u{2764}\u{fe0f}", "1:\u{2764}\u{fe0f} @1,1\n"),
    ((1, 1), "\u{2764}\u{fe0f}", "0:\u{2764}\u{fe0f} @0,1\n"),
    ((1, 2), "a\u{2764}\u{fe0f}", "0:[\u{2764}\u{fe0f}] @0,2\nscroll 61 0\n"),
    ((2, 2), "\u{2764}\u{fe0f}", "0:[\u{2764}\u{fe0f}] @0,2\n"),
    ((2, 2), "\x1b[1;2H\u{2764}\u{fe0f}", "1:[\u{2764}\u{fe0f}] @1,2\n"),
    ((2, 2), "\x1b[2;1H\u{2764}\u{fe0f}", "1:[\u{2764}\u{fe0f}] @1,2\n"),
    ((2, 2), "\x1b[2;2H\u{2764}\u{fe0f}", "1:[\u{2764}\u{fe0f}] @1,2\nscroll . 0\n"),
    ((2, 2), "a\x1b[2;2H\u{2764}\u{fe0f}", "1:[\u{2764}\u{fe0f}] @1,2\nscroll 61 0\n"),
    ((2, 2), "\x1b[2;1Hab\x1b[2;2H\u{2764}\u{fe0f}", "0:a 1:[\u{2764}\u{fe0f}] @1,2\nscroll . 0\n"),
    ((1, 3), "\u{2764}\u{fe0f}", "0:[\u{2764}\u{fe0f}] @0,2\n"),
    ((2, 3), "\x1b[1;2H\u{2764}\u{fe0f}", "0:.[\u{2764}\u{fe0f}] @0,3\n"),
    ((2, 3), "\x1b[1;3H\u{2764}\u{fe0f}", "1:[\u{2764}\u{fe0f}] @1,2\n"),
    ((2, 3), "\x1b[2;2H\u{2764}\u{fe0f}", "1:.[\u{2764}\u{fe0f}] @1,3\n"),
    ((2, 3), "ab\x1b[2;3H\u{2764}\u{fe0f}", "1:[\u{2764}\u{fe0f}] @1,2\nscroll 6162 0\n"),
    ((1, 3), "ab\u{2764}\u{fe0f}", "0:[\u{2764}\u{fe0f}] @0,2\nscroll 6162 0\n"),
    ((2, 5), "\u{2764}\u{fe0f}", "0:[\u{2764}\u{fe0f}] @0,2\n"),
    ((2, 5), "\x1b[1;2H\u{2764}\u{fe0f}", "0:.[\u{2764}\u{fe0f}] @0,3\n"),
    ((2, 5), "\x1b[1;3H\u{2764}\u{fe0f}", "0:..[\u{2764}\u{fe0f}] @0,4\n"),
    ((2, 5), "\x1b[1;4H\u{2764}\u{fe0f}", "0:...[\u{2764}\u{fe0f}] @0,5\n"),
    ((2, 5), "\x1b[1;5H\u{2764}\u{fe0f}", "1:[\u{2764}\u{fe0f}] @1,2\n"),
    ((2, 5), "abcd\u{2764}\u{fe0f}", "0:abcd 1:[\u{2764}\u{fe0f}] @1,2\n"),
    ((2, 5), "\x1b[2;5H\u{2764}\u{fe0f}", "1:[\u{2764}\u{fe0f}] @1,2\nscroll . 0\n"),
    ((2, 5), "\x1b[1;2H中\x1b[H\u{2764}\u{fe0f}", "0:[\u{2764}\u{fe0f}] @0,2\n"),
    ((2, 5), "\x1b[1;2Hx\x1b[H\u{2764}\u{fe0f}", "0:[\u{2764}\u{fe0f}] @0,2\n"),

    // The longest rows, and the largest number of rows.
    ((1, 65535), "\x1b[1;65535H中", "0:[中] @0,2\nscroll . 0\n"),
    ((65535, 1), "\x1b[65535;1Hab", "65533:a/ 65534:b @65534,1\nscroll . 0\n"),
    ((2, 4), "", "@0,0\n"),
];

#[test]
fn prints_at_every_cut(rt: HostRuntime) -> Result<(), Fail> {
    for (size, text, wanted) in &PRINTED {
        expect_at_each_cut(rt.alloc(), *size, 0, &[Text(text)], wanted)?;
    }
    Ok(())
}

#[test]
fn wraps_the_longest_row(rt: HostRuntime) -> Result<(), Fail> {
    let mut wanted = String::new(rt.alloc());
    wanted.push_str("0:b @0,1\nscroll ")?;
    for _ in 0..65534 {
        wanted.push_str("20")?;
    }
    wanted.push_str("61 0\n")?;
    let steps = [Text("\x1b[1;65535Hab")];
    expect_at_each_cut(rt.alloc(), (1, 65535), 0, &steps, wanted.as_str())
}

#[test]
fn colours_a_cell(rt: HostRuntime) -> Result<(), Fail> {
    let parser = read(rt.alloc(), (24, 80), &[b"this text is \x1b[31mRED\x1b[m"])?;
    let color = parser.screen().cell(0, 13).map(|cell| cell.fgcolor());
    assert!(rt; color == Some(Color::Idx(1)));
    Ok(())
}

#[test]
fn has_a_default_size(rt: HostRuntime) -> Result<(), Fail> {
    assert!(rt; Parser::DEFAULT_ROWS == 24 && Parser::DEFAULT_COLS == 80);
    let parser = Parser::default(rt.alloc())?;
    let (rows, cols) = parser.screen().size();
    assert!(rt; rows.get() == 24 && cols.get() == 80);
    Ok(())
}

#[test]
fn is_a_writer(rt: HostRuntime) -> Result<(), Fail> {
    let (rows, cols) = size_of((2, 4))?;
    let mut parser = Parser::new(rt.alloc(), rows, cols, 0)?;
    assert!(rt; parser.write(b"ab")? == 2);
    parser.flush()?;
    let screen = parser.screen();
    for (col, letter) in [(0, "a"), (1, "b")] {
        let cell = screen.cell(0, col).ok_or("no cell")?;
        assert!(rt; cell.contents() == letter);
    }
    assert!(rt; screen.cursor_position() == (0, 2));
    Ok(())
}

/// Test cases: input after the introducer `\e]`, and the number of bytes that are pending after the
/// input.
const COMMANDS: &[(&[u8], usize)] = &[
    (b"", 0),
    (b"2;title", 7),
    (b"2;ti\rtl\ne", 7),
    (b"2;\xC3\xA4\x9C", 5),
    (b"2;title\x07", 0),
    (b"2;title\x18", 0),
    (b"2;title\x1B", 0),
    (b"2;title\x1B\\\x1BPtitle", 0),
    (b"2;title\x1B\\\x1B[1;2", 0),
    (b"2;title\x1B\\\xE2\x8C", 0),
    (b"2;title\x1B\\\x1B]1", 1),
];

#[test]
fn counts_the_bytes_of_an_unfinished_command(rt: HostRuntime) -> Result<(), Fail> {
    for (bytes, pending) in COMMANDS {
        let parser = read(rt.alloc(), (2, 4), &[b"\x1B]", bytes])?;
        assert!(rt; parser.pending_len() == *pending, "{bytes:?}");
    }
    let parser = read(rt.alloc(), (2, 4), &[b"title\x1B\\"])?;
    assert!(rt; parser.pending_len() == 0);
    Ok(())
}

/// Test cases: a title, and the number of bytes that are pending after `2;` and the title. The
/// buffer of the second title is freed after the command.
const TITLES: &[(&[u8], usize)] = &[(&[b'a'; 1000], 1002), (&[b'a'; 5000], 5002)];

#[test]
fn ends_a_long_command(rt: HostRuntime) -> Result<(), Fail> {
    for (title, pending) in TITLES {
        for end in [&b"\x07"[..], b"\x18"] {
            let mut parser = read(rt.alloc(), (2, 4), &[b"\x1B]2;", title])?;
            assert!(rt; parser.pending_len() == *pending);
            parser.process(end)?;
            assert!(rt; parser.pending_len() == 0);
            parser.process(b"\x1B]2;b")?;
            assert!(rt; parser.pending_len() == 3);
        }
    }
    Ok(())
}

/// The largest scrollback capacities, each too large for all its rows to fit in memory.
const CAPACITIES: [usize; 4] = [
    usize::MAX,
    usize::MAX - 1,
    usize::MAX / 2 + 1,
    usize::MAX / 2,
];

/// Test cases: a size, the steps, and the display after the steps. The display is the same for all
/// of [`CAPACITIES`], because every row is kept.
#[rattlefmt::skip]
const KEPT: [((u16, u16), &[Step], &str); 8] = [
    ((2, 4), &[Text("a\r\nb\r\nc")], "0:b 1:c @1,1 kept 1\n"),
    ((2, 4), &[Text("a\r\nb\r\nc"), View(usize::MAX)], "0:a 1:b @1,1 kept 1 in view 1\n"),
    ((2, 1), &[Text("z\r\na\r\nb\x1b[65535S")], "@1,1 kept 3\n"),
    ((1, 2), &[Text("a\x1b[5b")], "0:aa @0,2 kept 2\n"),
    ((3, 4), &[Text("a\r\nb\r\nc"), ResizeParser(1, 4)], "0:c @0,1 kept 2\n"),
    ((3, 4), &[Text("a\r\nb\r\nc"), Resize(1, 4), Resize(3, 4)], "0:a 1:b 2:c @2,1\n"),
    ((1, 1), &[Text("abc"), View(2), Text("d")], "0:a @0,1 kept 3 in view 3\n"),
    ((1, 4), &[Text("a\r\nb\r\n\x1b[3J")], "@0,0\nscroll 61 0\nscroll 62 0\n"),
];

#[test]
fn keeps_rows_without_a_limit(rt: HostRuntime) -> Result<(), Fail> {
    for capacity in &CAPACITIES {
        for (size, steps, wanted) in &KEPT {
            expect_at_each_cut(rt.alloc(), *size, *capacity, steps, wanted)?;
        }
    }
    Ok(())
}

#[test]
fn keeps_many_rows(rt: HostRuntime) -> Result<(), Fail> {
    let mut text = String::new(rt.alloc());
    for _ in 0..5000 {
        text.push_str("x\r\n")?;
    }
    let parser = read_keeping(rt.alloc(), (1, 4), usize::MAX, &[text.as_bytes()])?;
    assert!(rt; parser.screen().scrollback_len() == 5000);
    assert!(rt; parser.screen().scrollback_capacity() == usize::MAX);
    Ok(())
}

#[test]
fn takes_a_title_of_a_mebibyte(rt: HostRuntime) -> Result<(), Fail> {
    let mut text = String::new(rt.alloc());
    text.push_str("\x1b]2;")?;
    for _ in 0..1_048_576 {
        text.push('x')?;
    }
    text.push('\x07')?;
    let parser = read(rt.alloc(), (24, 80), &[text.as_bytes()])?;
    assert!(rt; is_long_title(parser.callbacks().calls()));
    Ok(())
}

/// Returns whether `calls` consists of one call, with a title of 2^20 letters `x`.
fn is_long_title(calls: &[Note]) -> bool {
    match calls {
        [Note::SetWindowTitle(title)] => {
            title.len() == 1_048_576 && title.iter().all(|byte| *byte == b'x')
        }
        _ => false,
    }
}
