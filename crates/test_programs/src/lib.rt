//! Tests of mirrors, of the proved callers, and of what the contracts of `vtshow` and `vtmirror`
//! leave open: that runs succeed, what they write, and the command-line arguments.
#![tactic(auto)]

#[cfg(test)]
mod caller_tests;
#[cfg(test)]
mod cohort_tests;
#[cfg(test)]
mod mirror_tests;
#[cfg(test)]
mod numbers;
#[cfg(test)]
mod streams;
#[cfg(test)]
mod vtmirror_tests;
#[cfg(test)]
mod vtshow_tests;
#[cfg(test)]
mod words_tests;
