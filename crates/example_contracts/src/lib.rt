//! Small functions that call the terminal, one for each way to use it. Each has a proved contract,
//! which states what a user of the terminal wants.
#![tactic(auto)]

pub mod mirroring;
pub mod multiplexer;
pub mod recording;
pub mod screen_test;
pub mod values;
