//! The run of a node.

use oc_base::{Bytes, NodeId};
use oc_config::read;
use oc_io::{Disk, Sink};
use oc_link::Link;
use oc_service::{About, Log, Ran, Site, Task, run_node};
use std::alloc::Global;
use test_tools::Fault;

/// The task of a node in a scene.
#[derive(Clone, Copy)]
pub struct Play {
    pub me: NodeId,
    pub turns: u32,
    pub probes: bool,
    pub log: Log,
}

/// What is told of the program in a scene.
const ABOUT: About = About {
    version: "1.0.0",
    started: 1_796_102_400,
    refused: false,
};

/// Runs a node of the configuration in this text.
pub fn run<D: Disk + Drop, L: Link + Drop, K: Sink + Drop>(
    alloc: Global,
    config: &[u8],
    play: Play,
    site: Site<D, L, K>,
) -> Result<Ran<D, L, K>, Fault> {
    let text = Bytes::of(config.to_vec(alloc)?);
    let Ok(config) = read(alloc, config) else {
        return Err(Fault::Unready);
    };
    if play.me.0 < 1 || play.me.0 as usize > config.addresses.len() {
        return Err(Fault::Unready);
    }
    let task = Task {
        me: play.me,
        turns: u64::from(play.turns),
        probes: play.probes,
        log: play.log,
        text,
        about: ABOUT,
    };
    Ok(run_node(alloc, config, task, site))
}
