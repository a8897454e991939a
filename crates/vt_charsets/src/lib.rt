//! Character sets of a terminal. [`Charsets`] replaces what a program prints in DEC Special Graphics,
//! the character set for line drawing, by Unicode characters, so that a parser without character
//! sets can read its output.
#![tactic(auto)]

pub mod charsets;
mod glyphs;
pub mod laws;
mod runs;
mod sets;

pub use charsets::Charsets;
