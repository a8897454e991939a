//! Captures (the text of rows with SGR as the only escape sequences) and the
//! types for reading them.

pub use vt_rows::capture::{
    BasicFormattedRows, BasicFormattedToPlain, BasicFormattedToPlainIndexed, basic_formatted_rows,
    basic_formatted_to_plain, basic_formatted_to_plain_indexed,
};
pub use vt_rows::{BasicFormattedCaptureRange, BasicFormattedCaptureState, RowContents};
