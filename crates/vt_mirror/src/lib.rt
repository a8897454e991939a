//! Mirrors, which keep any number of viewers in sync with one terminal by
//! sending them escape sequences, and the engine of the program `vtmirror`.
#![tactic(auto)]

mod copies;
mod endings;
mod engine;
pub mod laws;
mod mirror;
mod texts;
mod update;
mod viewers;
mod words;

pub use endings::ending;
pub use engine::{run, run_words};
pub use mirror::Mirror;
pub use update::Update;
pub use words::arguments;
