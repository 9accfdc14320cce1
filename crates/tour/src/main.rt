//! Runs a table of cases over the plain cipher, and prints each command with its answer, in words.
#![tactic(auto)]

mod cases;
mod session;
mod words;

use std::process::ExitCode;

fn main(rt: HostRuntime) -> ExitCode {
    match cases::run(&rt) {
        Ok(()) => ExitCode::SUCCESS,
        Err(error) => {
            let _ = eprintln!(rt; "tour: {error}");
            ExitCode::FAILURE
        }
    }
}
