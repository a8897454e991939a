//! Random numbers and choices, random bytes, and random chunks of bytes.

use rand_xoshiro::Xoshiro256PlusPlus;
use rand_xoshiro::rand_core::{Rng, SeedableRng};
use std::alloc::AllocError;
use vt100::{Callbacks, Error, Parser};

/// A generator of random numbers.
#[derive(Drop)]
pub struct Dice {
    generator: Xoshiro256PlusPlus,
}

impl Dice {
    /// Creates a generator with the given seed.
    pub fn new(seed: u64) -> Self {
        Dice {
            generator: Xoshiro256PlusPlus::seed_from_u64(seed),
        }
    }

    /// Returns a random number below `end`, or 0 if `end` is 0.
    pub fn below(&mut self, end: u32) -> u32 {
        if end == 0 {
            return 0;
        }
        self.generator.next_u32() % end
    }

    /// Returns a random number from 1 to `most`, or 1 if `most` is 0.
    pub fn up_to(&mut self, most: u32) -> u32 {
        self.below(most).saturating_add(1)
    }

    /// Returns a random byte.
    pub fn byte(&mut self) -> u8 {
        (self.generator.next_u32() >> 24) as u8
    }

    /// Returns a random index below `end`, or 0 if `end` is 0.
    pub fn place(&mut self, end: usize) -> usize {
        if end == 0 {
            return 0;
        }
        self.generator.next_u32() as usize % end
    }

    /// Returns `true` with a probability of one in `times`.
    pub fn is_one_in(&mut self, times: u32) -> bool {
        self.below(times) == 0
    }

    /// Returns a random item of `items`, or `None` if there are none.
    pub fn pick<T: Copy>(&mut self, items: &[T]) -> Option<T> {
        let place = self.place(items.len());
        items.get(place).copied()
    }
}

/// Characters that take one or two columns, combining characters, and characters that draw nothing.
const CHARACTERS: [&str; 28] = [
    "é",
    "中",
    "文",
    "한",
    "あ",
    "😀",
    "🇩",
    "ﷺ",
    "Ａ",
    "│",
    "█",
    "©",
    "❤",
    "☺",
    "\u{301}",
    "\u{308}",
    "\u{20dd}",
    "\u{200d}",
    "\u{ad}",
    "\u{85}",
    "\u{fffd}",
    "\u{2764}\u{fe0f}",
    "#\u{fe0f}",
    "\u{fe0f}",
    "\u{fe0e}",
    "\u{231a}\u{fe0e}",
    "\u{231a}\u{fe0e}\u{fe0f}",
    "中\u{fe0f}",
];

const CONTROLS: [u8; 10] = [b'\r', b'\n', b'\r', b'\n', 8, 9, 7, 11, 14, 5];

/// Final bytes of control sequences. Those of sequences that move the cursor, erase or shift cells
/// occur more than once, so that they are chosen more often.
const ENDS: &[u8] = b"ABCDEFGHIJKLMPSTX@`abdefghlmnqrstuABCDHJKLMPSTX@";

/// Bytes that follow an ESC. The final byte of RIS (`c`), which resets the terminal, occurs only
/// once, so that it is chosen rarely.
const ESCAPES: &[u8] = b"7878=>MMMcgDEHZ(#\\";

const RENDITIONS: [&str; 24] = [
    "0",
    "",
    "1",
    "2",
    "3",
    "4",
    "7",
    "22",
    "23",
    "24",
    "27",
    "31",
    "42",
    "39",
    "49",
    "91",
    "102",
    "38;5;9",
    "48;5;200",
    "38;2;1;2;3",
    "48:2:4:5:6",
    "38:5:7",
    "38;5;300",
    "5",
];

const MODES: [&str; 16] = [
    "1",
    "6",
    "7",
    "9",
    "25",
    "47",
    "1000",
    "1002",
    "1003",
    "1005",
    "1006",
    "1049",
    "2004",
    "6;25",
    "1;1049;2004",
    "5",
];

const COMMANDS: [&str; 8] = [
    "0;a",
    "1;b",
    "2;title",
    "52;c;aGk=",
    "52;c;?",
    "9;x",
    "2;a;b",
    "",
];

/// Appends a random number of random characters, control characters and sequences.
pub fn push_some(bytes: &mut Vec<u8>, dice: &mut Dice) -> Result<(), AllocError> {
    let most = if dice.is_one_in(8) { 160 } else { 12 };
    for _ in 0..dice.up_to(most) {
        push_one(bytes, dice)?;
    }
    Ok(())
}

fn push_one(bytes: &mut Vec<u8>, dice: &mut Dice) -> Result<(), AllocError> {
    match dice.below(16) {
        0..=3 => push_letters(bytes, dice),
        4..=6 => push_word(bytes, dice.pick(&CHARACTERS)),
        7 | 8 => push_byte(bytes, dice.pick(&CONTROLS)),
        9..=11 => push_sequence(bytes, dice),
        12 => push_renditions(bytes, dice),
        13 => push_modes(bytes, dice),
        14 => push_escape(bytes, dice),
        _ => push_anything(bytes, dice),
    }
}

fn push_letters(bytes: &mut Vec<u8>, dice: &mut Dice) -> Result<(), AllocError> {
    for _ in 0..dice.up_to(9) {
        push_byte(bytes, dice.pick(b"abcdefgh .~"))?;
    }
    Ok(())
}

fn push_byte(bytes: &mut Vec<u8>, byte: Option<u8>) -> Result<(), AllocError> {
    bytes.push(byte.unwrap_or(b' '))?;
    Ok(())
}

fn push_word(bytes: &mut Vec<u8>, word: Option<&str>) -> Result<(), AllocError> {
    bytes.extend_from_slice(word.unwrap_or("").as_bytes())
}

/// Appends a control sequence with up to three numbers, and sometimes with a private marker or an
/// intermediate.
fn push_sequence(bytes: &mut Vec<u8>, dice: &mut Dice) -> Result<(), AllocError> {
    push_word(bytes, Some("\x1b["))?;
    if dice.is_one_in(8) {
        push_byte(bytes, dice.pick(b"?>=!"))?;
    }
    for i in 0..dice.below(4) {
        if i > 0 {
            push_byte(bytes, Some(b';'))?;
        }
        push_number(bytes, dice)?;
    }
    if dice.is_one_in(20) {
        push_byte(bytes, dice.pick(b" $!"))?;
    }
    push_byte(bytes, dice.pick(ENDS))
}

/// Appends a number, mostly with one digit, sometimes with none or with more than one.
fn push_number(bytes: &mut Vec<u8>, dice: &mut Dice) -> Result<(), AllocError> {
    let digits = match dice.below(16) {
        0 => 0,
        1 => 2,
        2 => dice.up_to(6),
        _ => 1,
    };
    for _ in 0..digits {
        push_byte(bytes, dice.pick(b"0123456789"))?;
    }
    Ok(())
}

fn push_renditions(bytes: &mut Vec<u8>, dice: &mut Dice) -> Result<(), AllocError> {
    push_word(bytes, Some("\x1b["))?;
    for i in 0..dice.up_to(3) {
        if i > 0 {
            push_byte(bytes, Some(b';'))?;
        }
        push_word(bytes, dice.pick(&RENDITIONS))?;
    }
    push_byte(bytes, Some(b'm'))
}

fn push_modes(bytes: &mut Vec<u8>, dice: &mut Dice) -> Result<(), AllocError> {
    if dice.is_one_in(4) {
        push_word(bytes, Some("\x1b["))?;
        push_byte(bytes, dice.pick(b"0123456"))?;
        return push_word(bytes, Some(" q"));
    }
    push_word(bytes, Some("\x1b[?"))?;
    push_word(bytes, dice.pick(&MODES))?;
    push_byte(bytes, dice.pick(b"hl"))
}

/// Appends an escape sequence, an operating system command or a different kind of control string.
fn push_escape(bytes: &mut Vec<u8>, dice: &mut Dice) -> Result<(), AllocError> {
    push_byte(bytes, Some(0x1b))?;
    match dice.below(8) {
        0 | 1 => {
            push_byte(bytes, Some(b']'))?;
            push_word(bytes, dice.pick(&COMMANDS))?;
            push_word(bytes, dice.pick(&["\x07", "\x1b\\", "\x18"]))
        }
        2 => push_word(
            bytes,
            dice.pick(&["P1$qx\x1b\\", "_a\x1b\\", "^b\x18", "Xc\x1a"]),
        ),
        _ => push_byte(bytes, dice.pick(ESCAPES)),
    }
}

fn push_anything(bytes: &mut Vec<u8>, dice: &mut Dice) -> Result<(), AllocError> {
    for _ in 0..dice.up_to(5) {
        push_byte(bytes, Some(dice.byte()))?;
    }
    Ok(())
}

/// Feeds bytes to a parser: at once, in two chunks, or one by one.
pub fn feed<CB: Callbacks>(
    parser: &mut Parser<CB>,
    dice: &mut Dice,
    bytes: &[u8],
) -> Result<(), Error> {
    match dice.below(4) {
        0 => parser.process(bytes),
        1 => {
            for piece in bytes.chunks(1) {
                parser.process(piece)?;
            }
            Ok(())
        }
        _ => {
            let cut = dice.place(bytes.len()).min(bytes.len());
            let (front, back) = bytes.split_at(cut);
            parser.process(front)?;
            parser.process(back)
        }
    }
}
