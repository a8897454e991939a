//! Tests of the events that the scanner reports.

use std::alloc::Global;
use std::fmt::Write;
use std::process::Abort;
use std::test::Fail;
use vt_scan::{Event, Scanner};

fn write_bytes(text: &mut String, bytes: &[u8]) -> Result<(), Fail> {
    for byte in bytes {
        text.push(char::from(*byte))?;
    }
    Ok(())
}

fn write_groups(text: &mut String, scanner: &Scanner) -> Result<(), Fail> {
    let groups = scanner.parameters().groups();
    for group in groups.as_slice() {
        text.push('[')?;
        for number in *group {
            write!(text, " {number}")?;
        }
        text.push_str(" ]")?;
    }
    Ok(())
}

fn write_parts(text: &mut String, scanner: &Scanner) -> Result<(), Fail> {
    let parts = scanner.parts();
    for part in parts.as_slice() {
        text.push('<')?;
        write_bytes(text, part)?;
        text.push('>')?;
    }
    Ok(())
}

fn write_event(text: &mut String, scanner: &Scanner, event: Event) -> Result<(), Fail> {
    match event {
        Event::Character(c) => write!(text, "{:X}", c as u32)?,
        Event::Executed(byte) => write!(text, "execute {byte:X}")?,
        Event::Escape(byte) => {
            text.push_str("esc ")?;
            write_bytes(text, scanner.intermediates())?;
            text.push(char::from(byte))?;
        }
        Event::Csi(byte) => {
            text.push_str("csi ")?;
            write_groups(text, scanner)?;
            write_bytes(text, scanner.intermediates())?;
            text.push(char::from(byte))?;
        }
        Event::Osc => {
            text.push_str("osc ")?;
            write_parts(text, scanner)?;
        }
    }
    text.push(',')?;
    Ok(())
}

fn feed_all(text: &mut String, scanner: &mut Scanner, bytes: &[u8]) -> Result<(), Fail> {
    for byte in bytes {
        let events = scanner.feed(*byte)?;
        if let Some(event) = events.first {
            write_event(text, scanner, event)?;
        }
        if let Some(event) = events.second {
            write_event(text, scanner, event)?;
        }
    }
    Ok(())
}

/// Returns, as one string, the events that the scanner reports for bytes that arrive in two chunks.
fn shown(alloc: Global, first: &[u8], second: &[u8]) -> Result<String, Fail> {
    let mut text = String::new(alloc);
    let mut scanner = Scanner::new(alloc);
    feed_all(&mut text, &mut scanner, first)?;
    feed_all(&mut text, &mut scanner, second)?;
    Ok(text)
}

/// Test cases: bytes, and the events that the scanner reports for these bytes, in order.
const EVENTS: [(&[u8], &str); 26] = [
    (b"a~\x7F", "61,7E,7F,"),
    (b"\x1B[1;2:3;m", "csi [ 1 ][ 2 3 ][ 0 ]m,"),
    (b"\x1B[?>1hA", "41,"),
    (b"\x1B[1 2qA", "41,"),
    (b"\x1B[?1$p", "csi [ 1 ]?$p,"),
    (b"\x1B[1 p", "csi [ 1 ] p,"),
    (b"\x1B[>c", "csi [ 0 ]>c,"),
    (b"\x1B[m", "csi [ 0 ]m,"),
    (b"\x1B[? !#p", "csi [ 0 ]? p,"),
    (b"\x1B(B", "esc (B,"),
    (b"\x1B7\x1B\\", "esc 7,esc \\,"),
    (b"\x1B]0;t\x18", "osc <0><t>,execute 18,"),
    (b"\x1B]2;a\rb\x1B[1m", "osc <2><ab>,csi [ 1 ]m,"),
    (b"\x1B]2;\xC3\xA4\x07", "osc <2><\u{C3}\u{A4}>,"),
    (b"\x1B]\x07", "osc <>,"),
    (b"\x1BP1$qx\x9C\x07\x1B\\A", "esc \\,41,"),
    (b"\x1BP\x1AA", "execute 1A,41,"),
    (b"\x1B[1\r;2\x80\x7FH", "execute D,csi [ 1 ][ 2 ]H,"),
    (b"\x1B[1\x1B[2A", "csi [ 2 ]A,"),
    (b"\xF0\x9F\x18", "FFFD,execute 18,"),
    (b"\xF0\x9F\x1BM", "FFFD,esc M,"),
    (b"\xE0\x80\x41", "FFFD,FFFD,41,"),
    (b"\xED\xA0\x80", "FFFD,FFFD,FFFD,"),
    (b"\xC0\xC1\xF5\x80", "FFFD,FFFD,FFFD,FFFD,"),
    (b"\xC3\xA9\xE4\xB8\xAD\xF0\x9F\x98\x80", "E9,4E2D,1F600,"),
    (
        b"\x1B[99999;1H\x1B[99999999999999999999C",
        "csi [ 65535 ][ 1 ]H,csi [ 65535 ]C,",
    ),
];

fn check_cuts(rt: &impl Abort, alloc: Global, bytes: &[u8], events: &str) -> Result<(), Fail> {
    for (cut, _) in bytes.iter().enumerate() {
        let text = shown(alloc, &bytes[..cut], &bytes[cut..])?;
        assert!(rt; text.as_str() == events, "cut at {cut}");
    }
    Ok(())
}

#[test]
fn reads_at_every_cut(rt: HostRuntime) -> Result<(), Fail> {
    for (bytes, events) in &EVENTS {
        check_cuts(&rt, rt.alloc(), bytes, events)?;
    }
    Ok(())
}

/// Returns `ESC [`, followed by `zeros` repetitions of `0;`, followed by `rest`.
fn many_numbers(alloc: Global, zeros: u8, rest: &[u8]) -> Result<Vec<u8>, Fail> {
    let mut bytes = Vec::new(alloc);
    bytes.extend_from_slice(b"\x1B[")?;
    for _ in 0..zeros {
        bytes.extend_from_slice(b"0;")?;
    }
    bytes.extend_from_slice(rest)?;
    Ok(bytes)
}

/// Creates a scanner that has read `bytes`, which must end with an SGR sequence.
fn after_sgr(rt: &impl Abort, alloc: Global, bytes: &[u8]) -> Result<Scanner, Fail> {
    let mut scanner = Scanner::new(alloc);
    let mut text = String::new(alloc);
    feed_all(&mut text, &mut scanner, bytes)?;
    assert!(rt; text.as_str().ends_with("m,"));
    Ok(scanner)
}

/// Aborts unless the scanner holds 32 groups, the last of which consists of the number `last`.
fn expect_groups(rt: &impl Abort, scanner: &Scanner, last: u16) {
    let groups = scanner.parameters().groups();
    assert!(rt; groups.as_slice().len() == 32);
    assert!(rt; groups.as_slice().last() == Some(&&[last][..]));
}

#[test]
fn keeps_what_fits(rt: HostRuntime) -> Result<(), Fail> {
    for (zeros, rest, last) in [
        (39, &b"1m"[..], 0),
        (31, &b"1;0m"[..], 1),
        (31, &b"1:2m"[..], 1),
        (31, &b"70000m"[..], 65535),
    ] {
        let bytes = many_numbers(rt.alloc(), zeros, rest)?;
        let scanner = after_sgr(&rt, rt.alloc(), bytes.as_slice())?;
        expect_groups(&rt, &scanner, last);
    }
    let text = shown(
        rt.alloc(),
        b"\x1B]a;b;c;d;e;f;g;h;i;j;k;l;m;n;o;p;q",
        b"\x07",
    )?;
    assert!(rt; text.as_str() == "osc <a><b><c><d><e><f><g><h><i><j><k><l><m><n><o><p>,");
    Ok(())
}

#[test]
fn lends_numbers(rt: HostRuntime) -> Result<(), Fail> {
    let scanner = after_sgr(&rt, rt.alloc(), b"\x1B[7;8:9;m")?;
    let parameters = scanner.parameters();
    assert!(rt; parameters.group_count() == 3);
    assert!(rt; parameters.group(1) == &[8, 9][..]);
    for (group, number) in [(0, 7), (1, 8), (2, 0), (3, 0)] {
        assert!(rt; parameters.number(group) == number, "group {group}");
    }
    Ok(())
}

/// Checks that the introducer of a sequence is read in one call, up to its final byte.
#[test]
fn reads_introducers(rt: HostRuntime) {
    let mut scanner = Scanner::new(rt.alloc());
    assert!(rt; scanner.take_introducer(b"\x1B[1;22mA") == 6);
    assert!(rt; !scanner.take_final_byte(b' '));
    assert!(rt; scanner.take_final_byte(b'm'));
    assert!(rt; scanner.parameters().number(1) == 22);
    assert!(rt; scanner.take_introducer(b"\x1B(B") == 2);
    assert!(rt; !scanner.take_escape_byte(b'(') && scanner.take_escape_byte(b'B'));
    assert!(rt; scanner.intermediates() == &b"("[..]);
    assert!(rt; scanner.is_control(b'\r') && !scanner.is_control(0x1B));
}

/// Checks that the text of a string is read in one call, up to the byte that ends it.
#[test]
fn reads_strings(rt: HostRuntime) -> Result<(), Fail> {
    let mut scanner = Scanner::new(rt.alloc());
    let mut text = String::new(rt.alloc());
    feed_all(&mut text, &mut scanner, b"\x1BP")?;
    assert!(rt; scanner.skipped_len(b"a\x9C\r;\x1B\\") == 4);
    feed_all(&mut text, &mut scanner, b"\x1B\\\x1B]")?;
    assert!(rt; scanner.take_command_text(b"2;\xC3\xA4\x07")? == 4);
    assert!(rt; scanner.pending_len() == 4);
    feed_all(&mut text, &mut scanner, b"\x07")?;
    assert!(rt; scanner.pending_len() == 0);
    assert!(rt; text.as_str() == "esc \\,osc <2><\u{C3}\u{A4}>,");
    Ok(())
}

/// Checks that a command ends at BEL, and that ESC abandons the ESC before it.
#[test]
fn ends_commands_at_bel(rt: HostRuntime) -> Result<(), Fail> {
    let mut scanner = Scanner::new(rt.alloc());
    assert!(rt; scanner.take_introducer(b"\x1B\x1B\x1B]2;x") == 4);
    assert!(rt; scanner.take_command_text(b"2;x\x07")? == 3);
    assert!(rt; !scanner.take_command_byte(b'\n') && scanner.take_command_byte(0x07));
    let parts = scanner.parts();
    assert!(rt; parts.as_slice().len() == 2);
    assert!(rt; parts.as_slice()[1] == &b"x"[..]);
    Ok(())
}

/// Checks that a command ends at ESC, and that the next sequence has its own intermediate bytes.
#[test]
fn ends_commands_at_esc(rt: HostRuntime) {
    let mut scanner = Scanner::new(rt.alloc());
    assert!(rt; scanner.take_introducer(b"\x1B]") == 2);
    assert!(rt; scanner.take_command_byte(0x1B) && scanner.take_escape_byte(b'\\'));
    assert!(rt; scanner.take_introducer(b"\x1B[?25h") == 5);
    assert!(rt; scanner.intermediates() == &b"?"[..]);
}

/// Checks that the end of a long string is found, and that EM (0x19) does not end such a string.
#[test]
fn finds_ends_of_long_strings(rt: HostRuntime) -> Result<(), Fail> {
    let mut scanner = Scanner::new(rt.alloc());
    assert!(rt; scanner.take_introducer(b"\x1B_") == 2);
    assert!(rt;
        scanner.skipped_len(b"0123456789abcdef\x19123456789\x19bcdef0123\x1A0123456789abcdef") == 36
    );
    assert!(rt; scanner.skipped_len(b"0123456789abcdef0\x18") == 17);
    assert!(rt; scanner.feed(0x18)?.second.is_none());
    assert!(rt; scanner.take_introducer(b"\x1B]") == 2);
    Ok(())
}

/// Checks that the text of a long command is divided at each semicolon.
#[test]
fn divides_long_commands(rt: HostRuntime) -> Result<(), Fail> {
    let mut scanner = Scanner::new(rt.alloc());
    assert!(rt; scanner.take_introducer(b"\x1B]") == 2);
    let text = b"0123456789;bcdef0123456789abcde;0123\x07";
    assert!(rt; scanner.take_command_text(text)? == 36);
    let parts = scanner.parts();
    assert!(rt; parts.as_slice().len() == 3);
    assert!(rt; parts.as_slice()[1] == &b"bcdef0123456789abcde"[..]);
    assert!(rt; parts.as_slice()[2] == &b"0123"[..]);
    Ok(())
}
