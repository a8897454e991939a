//! Pictures of screens: [`svg`] draws the cells of a screen, with their colors and attributes, and
//! its cursor.
#![tactic(auto)]

mod color;
mod drawing;
mod spot;

pub use drawing::svg;
