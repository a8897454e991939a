//! A page of rows with its cursor, and the scrollback above it.
#![tactic(auto)]

pub mod flat;
pub mod grid;
pub mod page_rows;
pub mod page_step;
mod row_lists;
pub mod scrollback;
pub mod size;

pub use flat::Flat;
pub use grid::Grid;
pub use grid::moves::CursorMove;
pub use page_rows::PageRows;
pub use page_step::PageStep;
pub use scrollback::Scrollback;
pub use size::Size;
pub use vt_cells::{CursorStyle, MouseProtocolEncoding, MouseProtocolMode, Pos};
