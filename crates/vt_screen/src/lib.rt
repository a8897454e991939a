//! The screen of a terminal: its pages, scrollback, attributes and modes, the
//! control functions that change them, and the output that redraws them.
#![tactic(auto)]

pub mod callbacks;
pub mod diff_options;
pub mod laws;
pub mod mode_step;
pub mod modes;
pub mod redraw_options;
pub mod repeat;
pub mod repeats;
mod reporter;
pub mod rows;
pub mod screen;
pub mod sgr;
mod short_moves;

pub use callbacks::{Call, Callbacks};
pub use diff_options::DiffOptions;
pub use mode_step::ModeStep;
pub use redraw_options::RedrawOptions;
pub use repeat::Repeat;
pub use rows::{Rows, RowsDiff, RowsFormatted};
pub use screen::Screen;
pub use vt_cells::{CursorStyle, MouseProtocolEncoding, MouseProtocolMode, Pos};
pub use vt_rows::RowContents;
