//! `vtmirror ROWS COLS EVERY`: reads what a program wrote to its terminal, and writes the escape
//! sequences that keep a second terminal of the same size equal to that terminal: one update at the
//! start, one after every EVERY bytes, and one at the end.
#![tactic(auto)]

use std::env::Env;
use std::io;
use std::process::ExitCode;
use vt_mirror::{ending, run_words};
use vt_show::{Fault, given_words};

/// Reads standard input to its end and writes the updates to standard output, as the command-line
/// arguments specify. Returns `Err(None)` if the arguments are invalid.
fn mirror<R: Env + AllocGlobal + Input + Print>(rt: &R) -> Result<(), Option<Fault>> {
    let words = given_words(rt)?;
    run_words(
        rt.alloc(),
        words.as_slice(),
        &mut rt.reader(),
        &mut io::writer(rt),
    )
}

fn main(rt: HostRuntime) -> ExitCode {
    match mirror(&rt) {
        Ok(()) => ExitCode::SUCCESS,
        Err(fault) => {
            let (line, status) = ending(fault);
            let _ = eprintln!(rt; "{line}");
            ExitCode::from(status)
        }
    }
}
