//! Decoding runs of characters without feeding their bytes one by one.

ghost use Rattle.std.specs.Prelude.{◌≡◌, ◌≤◌, ◌*◌, All, length, map, take};
ghost use Rattle.vt_scan.specs.Automaton.{Character};
ghost use Rattle.vt_scan.specs.Texts.{IsNarrowCharacter, IsWideCharacter};
ghost use Rattle.vt_scan.specs.Scanner.{FeedsAll};

use super::Scanner;
use crate::narrow::narrow_characters;
use crate::unfinished::wide_characters;

impl Scanner {
    /// Decodes the wide characters from U+3000 to U+D7FF at the start of `bytes` into `text`, as
    /// many as fit, and returns how many it decoded. Decodes none if a sequence or a character is
    /// incomplete.
    ///
    /// Feeding the decoded bytes would only report these characters and leave the scanner
    /// unchanged, so the caller can skip them.
    #[inline]
    pub fn wide_text(&self, bytes: &[u8], text: &mut [char]) -> usize
        ensures room { result ≤ length text.new }
        ensures same { length text.new ≡ length text.old }
        ensures inside { 3 * result ≤ length bytes.now }
        ensures fed { FeedsAll self.now (take (3 * result) bytes.now) self.now (map Character (take result text.new)) }
        ensures wide { All IsWideCharacter (take result text.new) }
    {
        if self.is_ground() {
            wide_characters(bytes, text)
        } else {
            0
        }
    }

    /// Decodes the narrow characters below U+3000 at the start of `bytes` into `text`, as many as
    /// fit. Stops before three or more ASCII characters in a row and before an ASCII character in
    /// the last two bytes. Returns the number of characters decoded and the number of bytes that
    /// they take. Decodes none if a sequence or a character is incomplete.
    ///
    /// Feeding the decoded bytes would only report these characters and leave the scanner
    /// unchanged, so the caller can skip them.
    #[tactic(auto, using(crate::proofs::Characters::narrow_fed))]
    #[inline]
    pub fn narrow_text(&self, bytes: &[u8], text: &mut [char]) -> (usize, usize)
        ensures room { result.0 ≤ length text.new }
        ensures same { length text.new ≡ length text.old }
        ensures inside { result.1 ≤ length bytes.now }
        ensures fed { FeedsAll self.now (take result.1 bytes.now) self.now (map Character (take result.0 text.new)) }
        ensures narrow { All IsNarrowCharacter (take result.0 text.new) }
    {
        if self.is_ground() {
            narrow_characters(bytes, text)
        } else {
            (0, 0)
        }
    }
}
