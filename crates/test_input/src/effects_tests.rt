//! Tests of the effect of each sequence, and of the callbacks that it invokes: SGR, modes, RIS and
//! others.

use crate::examples::Step::{Bytes, Resize, Text, View};
use crate::examples::{Example, expect_at_each_cut, expect_each, read_keeping, shown};
use std::test::Fail;

#[rattlefmt::skip]
const REPORTED: [(&[u8], &str); 66] = [
    // Attributes.
    (b"\x1b[1;31;44m", "@0,0 foreground Idx(1) background Idx(4) bold\n"),
    (b"\x1b[38;5;9m", "@0,0 foreground Idx(9)\n"),
    (b"\x1b[38;5;300m", "@0,0\n"),
    (b"\x1b[38;7;1m", "@0,0\nunhandled_csi(None, None, [[38], [7], [1]], 'm')\n"),
    (b"\x1b[1;2:3;m", "@0,0\nunhandled_csi(None, None, [[1], [2, 3], [0]], 'm')\n"),
    (
        b"\x1b[38:2::1:2:3;1m",
        "@0,0 bold\nunhandled_csi(None, None, [[38, 2, 0, 1, 2, 3], [1]], 'm')\n",
    ),
    (
        b"\x1b[38:5;9m",
        "@0,0\nunhandled_csi(None, None, [[38, 5], [9]], 'm')\nunhandled_csi(None, None, [[38, 5], [9]], 'm')\n",
    ),

    // Modes, and unknown sequences.
    (b"\x1b[?5;25l", "@0,0 hidden\nunhandled_csi(Some(63), None, [[5], [25]], 'l')\n"),
    (b"\x1b[?25$l", "@0,0 hidden\n"),
    (b"abc\x1b[H\x1b[?$J", "@0,0\n"),
    (b"\x1b[3 !q", "@0,0 BlinkUnderline\n"),
    (b"\x1b[3 q\x1b[ !q", "@0,0\n"),
    (b"\x1b[?1$p", "@0,0\nunhandled_csi(Some(63), Some(36), [[1]], 'p')\n"),
    (b"\x1b[1 p", "@0,0\nunhandled_csi(None, None, [[1]], 'p')\n"),
    (b"\x1b[>c", "@0,0\nunhandled_csi(Some(62), None, [[0]], 'c')\n"),
    (b"\x1b(B", "@0,0\nunhandled_escape(Some(40), None, 66)\n"),
    (b"\x1b7\x1b\\", "@0,0\nunhandled_escape(None, None, 92)\n"),
    (b"\x1b[? !#p", "@0,0\nunhandled_csi(Some(63), Some(32), [[0]], 'p')\n"),
    (b"\x1b[?>1hA", "0:A @0,1\n"),
    (b"\x1b[1 2qA", "0:A @0,1\n"),
    (b"\x1b[8;;50t", "@0,0\nresize(0, 50)\n"),
    (b"\x1b[8t", "@0,0\nresize(24, 80)\n"),
    (b"\x1b[8;0;0t", "@0,0\nresize(0, 0)\n"),
    (b"\x1b[8;65535;65535t", "@0,0\nresize(65535, 65535)\n"),
    (b"\x1b[8;99999999999;70000;1t", "@0,0\nresize(65535, 65535)\n"),

    // Inside a sequence: a control character, ignored bytes, and a new sequence.
    (b"ab\x1b[2\r\x80\x7fC", "0:ab @0,2\n"),
    (b"\x1b[1\r;2\x80\x7fH", "@0,1\n"),
    (b"\x1b[1\x1b[2C", "@0,2\n"),

    // The value and the count of numbers are limited.
    (b"\x1b[99999;1H\x1b[99999999999999999999C", "@23,79\n"),
    (b"\x1b[99999;99999999999999999999z", "@0,0\nunhandled_csi(None, None, [[65535], [65535]], 'z')\n"),
    (
        b"\x1b[0;0;0;0;0;0;0;0;0;0;0;0;0;0;0;0;0;0;0;0;0;0;0;0;0;0;0;0;0;0;0;0;0;0;0;0;0;0;0;1z",
        "@0,0\nunhandled_csi(None, None, [[0], [0], [0], [0], [0], [0], [0], [0], [0], [0], [0], [0], [0], [0], [0], \
        [0], [0], [0], [0], [0], [0], [0], [0], [0], [0], [0], [0], [0], [0], [0], [0], [0]], 'z')\n",
    ),
    (
        b"\x1b[0;0;0;0;0;0;0;0;0;0;0;0;0;0;0;0;0;0;0;0;0;0;0;0;0;0;0;0;0;0;0;1;0z",
        "@0,0\nunhandled_csi(None, None, [[0], [0], [0], [0], [0], [0], [0], [0], [0], [0], [0], [0], [0], [0], [0], \
        [0], [0], [0], [0], [0], [0], [0], [0], [0], [0], [0], [0], [0], [0], [0], [0], [1]], 'z')\n",
    ),
    (
        b"\x1b[0;0;0;0;0;0;0;0;0;0;0;0;0;0;0;0;0;0;0;0;0;0;0;0;0;0;0;0;0;0;0;1:2z",
        "@0,0\nunhandled_csi(None, None, [[0], [0], [0], [0], [0], [0], [0], [0], [0], [0], [0], [0], [0], [0], [0], \
        [0], [0], [0], [0], [0], [0], [0], [0], [0], [0], [0], [0], [0], [0], [0], [0], [1]], 'z')\n",
    ),
    (
        b"\x1b[0;0;0;0;0;0;0;0;0;0;0;0;0;0;0;0;0;0;0;0;0;0;0;0;0;0;0;0;0;0;0;70000z",
        "@0,0\nunhandled_csi(None, None, [[0], [0], [0], [0], [0], [0], [0], [0], [0], [0], [0], [0], [0], [0], [0], \
        [0], [0], [0], [0], [0], [0], [0], [0], [0], [0], [0], [0], [0], [0], [0], [0], [65535]], 'z')\n",
    ),

    (
        b"\x1b[0;0;0;0;0;0;0;0;0;0;0;0;0;0;0;0;0;0;0;0;0;0;0;0;0;0;0;0;0;0;0;0;0;0;0;0;0;0;0;1m",
        "@0,0\n",
    ),
    (
        b"\x1b[0;0;0;0;0;0;0;0;0;0;0;0;0;0;0;0;0;0;0;0;0;0;0;0;0;0;0;0;0;0;0;1;0m",
        "@0,0 bold\n",
    ),

    // Operating system commands and other strings.
    (b"\x1b]2;title\x07", "@0,0\nset_window_title(\"title\")\n"),
    (b"\x1b]2;\xc3\xa4\x07", "@0,0\nset_window_title(\"\\xc3\\xa4\")\n"),
    (b"\x1b]\x07", "@0,0\nunhandled_osc(\"\")\n"),
    (
        b"\x1b]0;t\x18",
        "@0,0\nset_window_icon_name(\"t\")\nset_window_title(\"t\")\nunhandled_control(24)\n",
    ),
    (b"\x1b]2;a\rb\x1b[1m", "@0,0 bold\nset_window_title(\"ab\")\n"),
    (b"\x1b]52;c;aGk=\x07", "@0,0\ncopy_to_clipboard(\"c\", \"aGk=\")\n"),
    (b"\x1b]52;c;?\x07", "@0,0\npaste_from_clipboard(\"c\")\n"),
    (b"\x1b]2;a;b\x07", "@0,0\nunhandled_osc(\"2\", \"a\", \"b\")\n"),
    (
        b"\x1b]a;b;c;d;e;f;g;h;i;j;k;l;m;n;o;p;q\x07",
        "@0,0\nunhandled_osc(\"a\", \"b\", \"c\", \"d\", \"e\", \"f\", \"g\", \"h\", \"i\", \"j\", \"k\", \"l\", \
        \"m\", \"n\", \"o\", \"p\")\n",
    ),
    (b"\x1bP1$qx\x1b\\A", "0:A @0,1\nunhandled_escape(None, None, 92)\n"),
    (b"\x1bPx\x9cy\x1b\\A", "0:A @0,1\nunhandled_escape(None, None, 92)\n"),
    (b"\x1bP\x1aA", "0:A @0,1\nunhandled_control(26)\n"),

    // UTF-8.
    (b"\xe4\xb8\xad", "0:[\u{4e2d}] @0,2\n"),
    (b"\xc3\xa9\xe4\xb8\xad\xf0\x9f\x98\x80", "0:\u{e9}[\u{4e2d}][\u{1f600}] @0,5\n"),
    (b"\xe4\xb8\x41", "0:A @0,1\nunhandled_char(65533)\n"),
    (b"\xf0\x9f\x18", "@0,0\nunhandled_char(65533)\nunhandled_control(24)\n"),
    (b"\xf0\x9f\x1bM", "@0,0\nunhandled_char(65533)\n"),
    (b"\xe0\x80\x41", "0:A @0,1\nunhandled_char(65533)\nunhandled_char(65533)\n"),
    (
        b"\xed\xa0\x80",
        "@0,0\nunhandled_char(65533)\nunhandled_char(65533)\nunhandled_char(65533)\n",
    ),
    (b"\x80A", "0:A @0,1\nunhandled_char(65533)\n"),
    (
        b"\xc0\xc1\xf5\x80",
        "@0,0\nunhandled_char(65533)\nunhandled_char(65533)\nunhandled_char(65533)\nunhandled_char(65533)\n",
    ),
    (b"\x9fA", "0:A @0,1\nunhandled_char(65533)\n"),
    (b"\x9b1mA", "0:1mA @0,3\nunhandled_char(65533)\n"),
    (b"\xc2\x80", "@0,0\nunhandled_char(128)\n"),
    (b"\xc2\x9b1m", "0:1m @0,2\nunhandled_char(155)\n"),
    (b"\xc2\x9f", "@0,0\nunhandled_char(159)\n"),
    (b"\xef\xbf\xbd", "@0,0\nunhandled_char(65533)\n"),

    // Bells and the other control characters.
    (b"a\x07", "0:a @0,1\naudible_bell()\n"),
    (b"\x1bg", "@0,0\nvisual_bell()\n"),
    (b"a\x0e\x0fb", "0:ab @0,2\n"),
];

#[test]
fn calls_at_every_cut(rt: HostRuntime) -> Result<(), Fail> {
    for (bytes, wanted) in &REPORTED {
        expect_at_each_cut(rt.alloc(), (24, 80), 0, &[Bytes(bytes)], wanted)?;
    }
    Ok(())
}

/// SGR sequences, each with the attributes after it and the callbacks that it invokes.
#[rattlefmt::skip]
const RENDERED: [(&str, &str); 41] = [
    // Single parameters.
    ("\x1b[31m\x1b[0m", "@0,0\n"),
    ("\x1b[1m", "@0,0 bold\n"),
    ("\x1b[1m\x1b[2m", "@0,0 dim\n"),
    ("\x1b[1m\x1b[22m", "@0,0\n"),
    ("\x1b[2m\x1b[22m", "@0,0\n"),
    ("\x1b[3m", "@0,0 italic\n"),
    ("\x1b[3m\x1b[23m", "@0,0\n"),
    ("\x1b[4m", "@0,0 underline\n"),
    ("\x1b[4m\x1b[24m", "@0,0\n"),
    ("\x1b[7m", "@0,0 inverse\n"),
    ("\x1b[7m\x1b[27m", "@0,0\n"),
    ("\x1b[30m", "@0,0 foreground Idx(0)\n"),
    ("\x1b[37;47m", "@0,0 foreground Idx(7) background Idx(7)\n"),
    ("\x1b[90m", "@0,0 foreground Idx(8)\n"),
    ("\x1b[97;107m", "@0,0 foreground Idx(15) background Idx(15)\n"),
    ("\x1b[31;42;39m", "@0,0 background Idx(2)\n"),
    ("\x1b[31;42;49m", "@0,0 foreground Idx(1)\n"),
    ("\x1b[100m", "@0,0 background Idx(8)\n"),

    // Long forms of colors, with colons and with semicolons.
    ("\x1b[38:5:9m", "@0,0 foreground Idx(9)\n"),
    ("\x1b[48:5:255m", "@0,0 background Idx(255)\n"),
    ("\x1b[38:2:1:2:3m", "@0,0 foreground Rgb(1, 2, 3)\n"),
    ("\x1b[48:2:255:0:9m", "@0,0 background Rgb(255, 0, 9)\n"),
    ("\x1b[48;5;9;31m", "@0,0 foreground Idx(1) background Idx(9)\n"),
    ("\x1b[38;2;1;2;3m", "@0,0 foreground Rgb(1, 2, 3)\n"),
    ("\x1b[48;2;1;2;3m", "@0,0 background Rgb(1, 2, 3)\n"),
    ("\x1b[38;5;1;38;5;2m", "@0,0 foreground Idx(2)\n"),

    // A color that does not exist or is cut short silently ends the sequence.
    ("\x1b[31;38:5:256;1m", "@0,0 foreground Idx(1)\n"),
    ("\x1b[38:2:0:256:0;1m", "@0,0\n"),
    ("\x1b[38;2;1;2m", "@0,0\n"),
    ("\x1b[38;2;1;2;256;1m", "@0,0\n"),
    ("\x1b[38;5;9:9;1m", "@0,0\n"),
    ("\x1b[38m", "@0,0\n"),

    // Unknown parameters are reported, once for each group, and may end the sequence.
    ("\x1b[38;7;1m", "@0,0\nunhandled_csi(None, None, [[38], [7], [1]], 'm')\n"),
    ("\x1b[48;5:1;1m", "@0,0\nunhandled_csi(None, None, [[48], [5, 1], [1]], 'm')\n"),
    ("\x1b[38:7:1;1m", "@0,0 bold\nunhandled_csi(None, None, [[38, 7, 1], [1]], 'm')\n"),
    ("\x1b[21m", "@0,0\nunhandled_csi(None, None, [[21]], 'm')\n"),
    ("\x1b[1:1;4m", "@0,0 underline\nunhandled_csi(None, None, [[1, 1], [4]], 'm')\n"),
    ("\x1b[108m", "@0,0\nunhandled_csi(None, None, [[108]], 'm')\n"),
    ("\x1b[98m", "@0,0\nunhandled_csi(None, None, [[98]], 'm')\n"),
    ("\x1b[29m", "@0,0\nunhandled_csi(None, None, [[29]], 'm')\n"),
    (
        "\x1b[21;29m",
        "@0,0\nunhandled_csi(None, None, [[21], [29]], 'm')\nunhandled_csi(None, None, [[21], [29]], 'm')\n",
    ),
];

#[test]
fn renders_at_every_cut(rt: HostRuntime) -> Result<(), Fail> {
    for (text, wanted) in &RENDERED {
        expect_at_each_cut(rt.alloc(), (1, 2), 0, &[Text(text)], wanted)?;
    }
    Ok(())
}

/// Test cases: input on a screen of two rows and four columns, and the modes
/// after the input.
#[rattlefmt::skip]
const MODES: [(&str, &str); 35] = [
    ("", "@0,0\n"),
    ("\x1b=", "@0,0 keypad\n"),
    ("\x1b=\x1b>", "@0,0\n"),
    ("\x1b[?1h", "@0,0 cursor keys\n"),
    ("\x1b[?1h\x1b[?1l", "@0,0\n"),
    ("\x1b[?25l", "@0,0 hidden\n"),
    ("\x1b[?25l\x1b[?25h", "@0,0\n"),
    ("\x1b[?2004h", "@0,0 paste\n"),
    ("\x1b[?2004h\x1b[?2004l", "@0,0\n"),

    // Mouse modes: a reset affects only the mode that is set.
    ("\x1b[?9h", "@0,0 Press\n"),
    ("\x1b[?1000h", "@0,0 PressRelease\n"),
    ("\x1b[?1002h", "@0,0 ButtonMotion\n"),
    ("\x1b[?1003h", "@0,0 AnyMotion\n"),
    ("\x1b[?9h\x1b[?9l", "@0,0\n"),
    ("\x1b[?1000h\x1b[?1000l", "@0,0\n"),
    ("\x1b[?1002h\x1b[?1002l", "@0,0\n"),
    ("\x1b[?1003h\x1b[?1003l", "@0,0\n"),
    ("\x1b[?1000h\x1b[?9;1002;1003l", "@0,0 PressRelease\n"),
    ("\x1b[?9;1003h", "@0,0 AnyMotion\n"),

    // Mouse encodings.
    ("\x1b[?1005h", "@0,0 Utf8\n"),
    ("\x1b[?1006h", "@0,0 Sgr\n"),
    ("\x1b[?1005h\x1b[?1005l", "@0,0\n"),
    ("\x1b[?1006h\x1b[?1006l", "@0,0\n"),
    ("\x1b[?1005h\x1b[?1006l", "@0,0 Utf8\n"),
    ("\x1b[?1006h\x1b[?1005l", "@0,0 Sgr\n"),
    ("\x1b[?1005;1006h", "@0,0 Sgr\n"),

    // Cursor styles.
    ("\x1b[1 q", "@0,0 BlinkBlock\n"),
    ("\x1b[2 q", "@0,0 SteadyBlock\n"),
    ("\x1b[3 q", "@0,0 BlinkUnderline\n"),
    ("\x1b[4 q", "@0,0 SteadyUnderline\n"),
    ("\x1b[5 q", "@0,0 BlinkVerticalBar\n"),
    ("\x1b[6 q", "@0,0 SteadyVerticalBar\n"),
    ("\x1b[6 q\x1b[0 q", "@0,0\n"),
    ("\x1b[6 q\x1b[ q", "@0,0\n"),
    ("\x1b[6 q\x1b[7 q", "@0,0 SteadyVerticalBar\nunhandled_csi(Some(32), None, [[7]], 'q')\n"),
];

#[test]
fn sets_modes_at_every_cut(rt: HostRuntime) -> Result<(), Fail> {
    for (text, wanted) in &MODES {
        expect_at_each_cut(rt.alloc(), (2, 4), 0, &[Text(text)], wanted)?;
    }
    Ok(())
}

#[test]
fn ris_takes_back_each_mode(rt: HostRuntime) -> Result<(), Fail> {
    for (text, _) in &MODES {
        let parser = read_keeping(rt.alloc(), (2, 4), 0, &[text.as_bytes(), b"\x1bc"])?;
        let found = shown(rt.alloc(), parser.screen())?;
        assert!(rt; found.as_str() == "@0,0\n", "after {text:?}");
    }
    Ok(())
}

/// Examples whose input ends in RIS or continues after RIS.
#[rattlefmt::skip]
const RESET: [Example; 11] = [
    ((2, 4), 10, &[Text("a\r\nb\r\nc\x1bc")], "@0,0\n"),
    ((2, 4), 10, &[Text("a\r\nb\r\nc"), View(1), Text("\x1bc")], "@0,0\n"),
    ((2, 4), 0, &[Text("a\r\nb\r\nc\x1bc"), Resize(3, 4)], "@0,0\nscroll 61 0\n"),
    (
        (2, 4),
        0,
        &[Text("\x1b=\x1b[?1;25;2004;1003;1006h\x1b[?25l\x1b[3 q\x1b[1;2;3;4;7;31;44mab\x1bc")],
        "@0,0\n",
    ),
    ((2, 4), 0, &[Text("\x1b[1mab\x1b7\x1bc\x1b8")], "@0,0\n"),
    ((2, 4), 0, &[Text("a\x1bc\x1b[2b")], "@0,0\n"),
    ((3, 4), 0, &[Text("\x1b[2;3r\x1bca\r\nb\r\nc\n")], "0:b 1:c @2,1\nscroll 61 0\n"),
    ((4, 4), 0, &[Text("\x1b[?6h\x1b7\x1bc\x1b8\x1b[2;3r\x1b[H")], "@0,0\n"),

    // The main page is active, and both pages are blank.
    ((2, 4), 0, &[Text("ab\x1b[?1049hx\x1bc")], "@0,0\n"),
    ((2, 4), 0, &[Text("ab\x1b[?1049hx\x1bc\x1b[?47h")], "@0,0 alternate\n"),
    ((2, 4), 0, &[Text("\x1b[?47hab\x1b7\x1bc\x1b[?47h\x1b8")], "@0,0 alternate\n"),
];

#[test]
fn resets_at_every_cut(rt: HostRuntime) -> Result<(), Fail> {
    expect_each(rt.alloc(), &RESET)
}
