//! Rows in packed form, which take about as much memory as their text.
#![tactic(auto)]

mod basic;
mod items;
pub mod laws;
mod packing;
mod row;
mod runs;
mod size;
mod texts;
mod unpacking;

pub use row::PackedRow;
