use oc_config::Config;
use oc_deeds::{Dials, Log, Outbox, Works};
use oc_http::HeadReader;
use oc_io::{Disk, Sink};
use oc_keep::Kept;
use oc_link::Link;
use oc_routes::{About, Tally};
use std::alloc::Global;

/// A running node: its files, the messages to send and the requests to answer, its configuration, and its ways to the
/// world.
#[derive(Drop)]
pub struct Server<D: Disk, L: Link, K: Sink> {
    pub alloc: Global,
    pub kept: Kept<D>,
    /// The messages that are still to be sent.
    pub outbox: Outbox,
    /// The works on its connections.
    pub works: Works,
    /// The dials of the node.
    pub dials: Dials,
    pub config: Config,
    /// What is told of its program.
    pub about: About,
    /// What it counted.
    pub tally: Tally,
    /// The form of its log of inputs.
    pub log: Log,
    pub link: L,
    /// The output for its lines.
    pub sink: K,
    pub heads: HeadReader,
}
