//! The C interface of the terminal. Most of its functions take pointer-sized handles and return a
//! status code.
#![tactic(auto)]

mod capture_reading;
mod capture_writing;
mod cells;
mod charsets;
mod convert;
mod copying;
mod differences;
mod displayed;
mod erasures;
mod event_log;
mod event_reading;
mod ground;
mod handle;
mod kept_rows;
pub mod laws;
mod lifecycle;
mod mirrors;
mod object;
mod output;
mod parts;
mod pending;
mod reading;
mod records;
mod row_changes;
mod row_texts;
mod rows;
mod sizes;
mod state;
mod status;
mod texts;
mod viewers;
