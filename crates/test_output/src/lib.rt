//! Worked examples of what a terminal outputs, through the public interfaces of its crates: redraws,
//! diffs, text and captures of a screen, which a second terminal parses, and the parts that output
//! consists of (escape sequences and the basic text of rows). Most examples are also run with their
//! bytes split at every position.
#![tactic(auto)]

#[cfg(test)]
mod capture_tests;
#[cfg(test)]
mod difference_tests;
#[cfg(test)]
mod portable_tests;
#[cfg(test)]
mod redraw_tests;
#[cfg(test)]
mod repeated_tests;
#[cfg(test)]
mod screen_capture_tests;
#[cfg(test)]
mod sequence_tests;
#[cfg(test)]
mod state_tests;
#[cfg(test)]
mod steady_tests;
#[cfg(test)]
mod text_tests;
