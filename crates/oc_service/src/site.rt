use oc_io::{Disk, Sink};
use oc_keep::Files;
use oc_link::Link;

/// The site of a running node: its files, its link, and the output of its lines.
#[derive(Drop)]
pub struct Site<D: Disk, L: Link, K: Sink> {
    pub files: Files<D>,
    pub link: L,
    pub sink: K,
}
