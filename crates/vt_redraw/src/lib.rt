//! Pictures of what a screen displays, and the output that displays them on another terminal: a
//! full redraw, or a diff from what that terminal already displays.
#![tactic(auto)]

pub mod band;
pub mod band_guess;
pub mod band_moves;
mod cells;
pub mod certain;
mod cursor_rule;
pub mod drawn_rows;
mod erasure;
pub mod form;
mod items;
pub mod laws;
mod limited;
mod links;
mod passing;
pub mod pen;
pub mod picture_row;
pub mod redraw;
mod row_costs;
mod row_guess;
pub mod row_shift;
pub mod row_shifts;
mod script;
mod shift_counts;
pub mod steadiness;
pub mod view;

pub use band::Band;
pub use band_guess::{Move, likely_move};
pub use band_moves::write_moves;
pub use drawn_rows::{DrawnRows, RowWatch};
pub use form::Form;
pub use items::{write_row_diff, write_row_formatted};
pub use limited::write_contents_formatted_within;
pub use pen::Pen;
pub use picture_row::PictureRow;
pub use redraw::{
    write_contents_diff, write_contents_diff_in, write_contents_formatted,
    write_contents_formatted_in, write_cursor_state,
};
pub use row_shift::RowShift;
pub use row_shifts::write_row_shifts;
pub use steadiness::is_steady;
pub use view::View;
