//! A recorded case, read from a file.

use crate::text::bytes_of;
use anyhow::Result;
use std::alloc::Global;
use std::num::NonZeroU16;

/// A case: input for a new parser, and the expected state after it.
#[derive(Drop)]
pub struct Case<'a> {
    pub name: &'a str,
    pub rows: NonZeroU16,
    pub cols: NonZeroU16,
    pub bytes: Vec<u8>,

    /// The number of leading bytes that produce the screen from which diffs
    /// start.
    pub before: usize,

    /// Whether the final screen is steady: each of its glyphs reproduces itself
    /// when printed on a blank row.
    pub is_steady: bool,

    /// The lines that describe the cursor, the wrapped flags and the cells,
    /// each with its newline.
    pub picture: String,

    /// The lines that describe the modes and the callbacks invoked, each with
    /// its newline.
    pub others: String,

    /// The lines that specify the expected output of the screen.
    pub texts: Vec<&'a str>,
}

impl<'a> Case<'a> {
    /// Creates the case with the given name and size, and reads everything else
    /// from `lines`.
    pub fn read(
        alloc: Global,
        name: &'a str,
        rows: NonZeroU16,
        cols: NonZeroU16,
        lines: &'a str,
    ) -> Result<Case<'a>> {
        let mut case = Case {
            name,
            rows,
            cols,
            bytes: Vec::new(alloc),
            before: 0,
            is_steady: true,
            picture: String::new(alloc),
            others: String::new(alloc),
            texts: Vec::new(alloc),
        };
        for line in lines.lines() {
            case.read_line(alloc, line)?;
        }
        Ok(case)
    }

    fn read_line(&mut self, alloc: Global, line: &'a str) -> Result<()> {
        let (word, rest) = line.split_once(' ').unwrap_or((line, ""));
        match word {
            "<" => self.bytes = bytes_of(alloc, rest)?,
            "prev" => self.before = rest.parse::<usize>()?,
            "unsteady" => self.is_steady = false,
            "cursor" | "flags" | "cell" => writeln!(self.picture, "{line}")?,
            "screen" | "event" | "scroll" => writeln!(self.others, "{line}")?,
            _ => self.texts.push(line)?,
        }
        Ok(())
    }
}
