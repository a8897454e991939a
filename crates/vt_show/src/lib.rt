//! The engine of the program `vtshow`, which writes what a terminal displays after reading the
//! program's input. The engine of `vtmirror` also uses some of the public items.
#![tactic(auto)]

mod engine;
mod faults;
mod mode;
mod words;

pub use engine::{run, run_words, write_text};
pub use faults::{Fault, ending};
pub use mode::Mode;
pub use words::{arguments, given_words, size};
