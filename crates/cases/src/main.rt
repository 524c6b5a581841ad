//! Plays tables of worked cases, and prints a line for each case: its name and `ok`, or the words
//! that came instead of the expected ones.
//!
//! First come the cases of the parts: each library plays the tables of a folder of its own in
//! `data`. Then come runs of the program itself, which this one is with any words: it starts
//! itself, row by row, as processes on real files and sockets. A table is a file in `data`, and its
//! first lines explain its rows.
#![tactic(auto)]

use oc_program::{given_words, run_words};
use std::io;
use std::process::ExitCode;

fn main(rt: HostRuntime) -> io::Result<ExitCode> {
    let Ok(words) = given_words(&rt) else {
        return Ok(ExitCode::FAILURE);
    };
    if words.is_empty() {
        play(&rt)?;
        return Ok(ExitCode::SUCCESS);
    }
    Ok(ExitCode::from(run_words(&rt, words.as_slice())))
}

/// Plays all tables.
fn play(rt: &HostRuntime) -> io::Result<()> {
    node_cases::storage::play(rt)?;
    node_cases::decisions::play(rt)?;
    wire_cases::wire::play(rt)?;
    folder_cases::play(rt)?;
    select_cases::play(rt)?;
    serve_cases::connections::play(rt)?;
    wire_cases::service::play(rt)?;
    node_cases::node::play(rt)?;
    serve_cases::serve::play(rt)?;
    process_tools::play(rt)
}
