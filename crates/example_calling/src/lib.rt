//! Example callers of the terminal, which crates/vt100/CALLING.md quotes.
#![tactic(auto)]

pub mod callbacks;
pub mod cohort;
pub mod mirror;
pub mod multiplexer;
pub mod recorder;
pub mod screen_test;
