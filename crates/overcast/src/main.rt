//! The program `overcast`.
#![tactic(auto)]

use oc_program::{end_early, given_words, run_words};
use std::process::ExitCode;

fn main(rt: HostRuntime) -> ExitCode {
    let status = match given_words(&rt) {
        Ok(words) => run_words(&rt, words.as_slice()),
        Err(end) => end_early(&rt, end),
    };
    ExitCode::from(status)
}
