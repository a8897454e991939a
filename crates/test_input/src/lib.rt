//! Worked examples of what a terminal does with its input, through the public interfaces of its
//! crates: the effect of bytes on a screen, callbacks, copies of screens, and the parts that take
//! input (cells and the scanner). Most examples are also run with their bytes split at every
//! position. The tests of output in `test_output` use the same steps and checks.
#![tactic(auto)]

#[cfg(test)]
mod callbacks;
#[cfg(test)]
mod callbacks_tests;
#[cfg(test)]
mod cell_tests;
#[cfg(test)]
mod copies_tests;
#[cfg(test)]
mod effects_tests;
pub mod examples;
#[cfg(test)]
mod kept_tests;
#[cfg(test)]
mod pages_tests;
#[cfg(test)]
mod printing_tests;
pub mod readback;
#[cfg(test)]
mod scanner_tests;
