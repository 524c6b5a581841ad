//! Replays a schedule from the standard input, without words: the status is 0 if its whole report
//! was written, otherwise 1.
//!
//! The script `overcast` runs this before the program is built. It reaches half of the program's
//! code, so a first replay without proofs takes half the time; a replay that does not finish is
//! passed to the program itself.
#![tactic(auto)]

use oc_io::{ReaderSource, WriterSink};
use oc_replay::{ReplayEnd, replay};
use oc_schedule::Scale;
use oc_world::World;
use std::process::ExitCode;

fn main(rt: HostRuntime) -> ExitCode {
    let alloc = rt.alloc();
    let mut source = ReaderSource::new(rt.stdin());
    let mut sink = WriterSink::new(rt.stdout());
    let mut world = World::empty(alloc);
    let end = replay(
        alloc,
        &mut source,
        &mut sink,
        &mut world,
        Scale::Usual,
        false,
    );
    match end {
        ReplayEnd::Done => ExitCode::SUCCESS,
        _ => ExitCode::FAILURE,
    }
}
