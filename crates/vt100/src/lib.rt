//! An in-memory terminal emulator: it parses the bytes that a program writes and maintains the
//! screen that a user would see.
//!
//! ```text
//! use std::num::NonZeroU16;
//! use vt100::{Color, Error, Parser};
//!
//! fn main(rt: HostRuntime) -> Result<(), Error> {
//!     let (rows, cols) = (NonZeroU16::new(24).unwrap(), NonZeroU16::new(80).unwrap());
//!     let mut parser = Parser::new(rt.alloc(), rows, cols, 0)?;
//!     parser.process(b"this text is \x1b[31mRED\x1b[m")?;
//!     if let Some(cell) = parser.screen().cell(0, 13) {
//!         let is_red = cell.fgcolor() == Color::Idx(1);
//!         let _ = println!(rt; "{} is red: {is_red}", cell.contents());
//!     }
//!     let before = parser.screen().clone()?;
//!     parser.process(b"\x1b[3D\x1b[32mGREEN")?;
//!     let screen = parser.screen();
//!     let update = if screen.is_sized_as(&before) {
//!         screen.contents_diff(&before)?
//!     } else {
//!         screen.contents_formatted()?
//!     };
//!     let _ = println!(rt; "{}", screen.contents_formatted()?);
//!     let _ = println!(rt; "{update}");
//!     Ok(())
//! }
//! ```
//!
//! The example prints that `R` is red, then a redraw of the screen for any plain terminal of the
//! same size (in ground state, with the full scroll region, origin mode off and no scrollback
//! displayed), and finally an update for such a terminal that still displays the earlier screen.
#![tactic(auto)]

pub mod capture;
mod csi;
mod erasures;
pub mod laws;
mod numbers;
mod osc;
mod parser;
mod perform;
mod private_modes;
mod processing;
mod repeating;
mod sequence;
mod sgr;
mod writing;

pub use parser::Parser;
pub use vt_cells::{
    Cell, Color, CursorStyle, Error, MouseProtocolEncoding, MouseProtocolMode, Sink,
};
pub use vt_screen::{
    Call, Callbacks, DiffOptions, RedrawOptions, Repeat, Rows, RowsDiff, RowsFormatted, Screen,
};
