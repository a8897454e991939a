//! Callbacks that record each call with all its arguments in a note, for tests and for replaying
//! recorded cases. If no note is missing, the notes are proved to record exactly the calls that the
//! parsed input causes.
#![tactic(auto)]

pub mod laws;
mod lines;
pub mod note;
pub mod notes;
mod reading;
pub mod recorder;

pub use note::{Note, NotedRow};
pub use notes::Notes;
pub use reading::read;
pub use recorder::Recorder;
