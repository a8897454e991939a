//! `vtshow ROWS COLS plain|formatted|basic`: reads what a program wrote to its terminal, and writes
//! the resulting screen: its text, the escape sequences that display it on any terminal of the same
//! size, or its text with SGR sequences.
#![tactic(auto)]

use std::env::Env;
use std::io;
use std::process::ExitCode;
use vt_show::{Fault, ending, given_words, run_words};

/// Reads standard input to its end and writes the screen to standard output, as the command-line
/// arguments specify. Returns `Err(None)` if the arguments are invalid.
fn show<R: Env + AllocGlobal + Input + Print>(rt: &R) -> Result<(), Option<Fault>> {
    let words = given_words(rt)?;
    run_words(
        rt.alloc(),
        words.as_slice(),
        &mut rt.reader(),
        &mut io::writer(rt),
    )
}

fn main(rt: HostRuntime) -> ExitCode {
    match show(&rt) {
        Ok(()) => ExitCode::SUCCESS,
        Err(fault) => {
            let (line, status) = ending(fault);
            let _ = eprintln!(rt; "{line}");
            ExitCode::from(status)
        }
    }
}
