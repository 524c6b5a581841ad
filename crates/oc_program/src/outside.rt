//! The outside of a run: all objects that it can use.

use oc_client::Pause;
use oc_io::{Disk, Sink, Source};
use oc_keep::Files;
use oc_link::{Dialler, Link};
use oc_replay::Stage;

/// The outside of a run. The input is the file that the words name, or else the standard input; the
/// three files are those of the folder that they name, or else of the present one.
#[derive(Drop)]
pub struct Outside<S: Source, K: Sink, E: Sink, T: Stage, D: Disk, L: Dialler, N: Link, P: Pause> {
    pub input: S,
    pub output: K,
    /// The error output.
    pub error: E,
    /// The stage for a replay.
    pub stage: T,
    /// The files of a node.
    pub files: Files<D>,
    /// The dialler of a client.
    pub dialler: L,
    /// The file of a client's token, named by the words.
    pub token: S,
    /// The pause of a client before it tries again.
    pub pause: P,
    /// The link of a running node, for both incoming connections and dials.
    pub link: N,
    /// When the run started, in seconds since 1970.
    pub started: u64,
}

/// The end of a run, and its outside.
#[derive(Drop)]
pub struct Ended<S: Source, K: Sink, E: Sink, T: Stage, D: Disk, L: Dialler, N: Link, P: Pause> {
    /// The number of the [`Status`](crate::Status).
    pub status: u8,
    pub outside: Outside<S, K, E, T, D, L, N, P>,
}
