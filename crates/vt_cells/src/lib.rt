//! The values that a terminal screen is made of (colors, attributes, cells, positions and modes),
//! and the short escape sequences that describe changes to them.
#![tactic(auto)]

pub mod attrs;
pub mod buffer;
pub mod cell;
pub mod cell_runs;
pub mod color;
pub mod error;
mod head;
pub mod modes;
mod packed_color;
pub mod pos;
mod shape;
pub mod sink;
pub mod term;
pub mod width;

pub use attrs::{Attrs, Intensity};
pub use buffer::Buffer;
pub use cell::{Cell, MARK_LIMIT};
pub use color::Color;
pub use error::Error;
pub use modes::{CursorStyle, MouseProtocolEncoding, MouseProtocolMode};
pub use pos::Pos;
pub use sink::Sink;
pub use width::columns;
