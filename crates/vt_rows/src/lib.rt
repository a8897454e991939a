//! Rows of cells, edits within a row, and captures.
#![tactic(auto)]

pub mod capture;
pub mod cells;
pub mod copies;
pub mod laws;
pub mod plain;
pub mod row;
pub mod shifts;
pub mod trimming;

pub use capture::{BasicFormattedCaptureRange, BasicFormattedCaptureState, Leaving, RowContents};
pub use row::Row;
