//! The byte automaton of a terminal: it turns bytes into characters and sequences.
#![tactic(auto)]

pub mod automaton;
pub mod event;
pub mod groups;
pub mod intermediates;
pub mod laws;
mod lengths;
pub mod narrow;
pub mod parameters;
pub mod parts;
pub mod table;
pub mod unfinished;

pub use automaton::Scanner;
pub use event::{Event, Events};
pub use groups::Groups;
pub use parameters::Parameters;
pub use parts::Parts;
