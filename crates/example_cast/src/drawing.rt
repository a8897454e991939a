//! Line drawing in recorded output.

use anyhow::Result;
use std::alloc::Global;
use vt_charsets::Charsets;

/// A translator of line drawing, and the output that it translated last.
#[derive(Drop)]
pub struct Drawing {
    charsets: Charsets,
    translated: Vec<u8>,
}

impl Drawing {
    /// Creates a translator at the beginning of a recording.
    pub fn new(alloc: Global) -> Drawing {
        Drawing {
            charsets: Charsets::new(),
            translated: Vec::new(alloc),
        }
    }

    /// Returns output with its line drawing translated to Unicode.
    pub fn translate(&mut self, text: &str) -> Result<&[u8]> {
        self.translated.clear();
        self.charsets
            .translate(text.as_bytes(), &mut self.translated)?;
        Ok(self.translated.as_slice())
    }
}
