use crate::Mode;
use oc_base::{CertList, IdList, LineList, Rank};

/// The status of a node, as reports show it: its position in the tree, and its view of the tree. For a node that
/// is down, the status that a start would recover.
#[derive(Clone, Debug, Drop)]
pub struct NodeStatus {
    pub up: bool,
    pub mode: Mode,
    /// The number of its last ask for a parent; 0 if it never asked.
    pub seq: u64,
    pub rank: Option<Rank>,
    /// The number of certificates of its change log that the parent has acknowledged.
    pub acked: u64,
    /// The number of certificates that were ever in its change log.
    pub length: u64,
    /// The nodes above it, nearest first.
    pub ancestors: IdList,
    /// The last certificate of each node in its table, ascending by subject.
    pub table: CertList,
    /// The nodes that its table lists beneath itself, each with its parent, ascending.
    pub listed: LineList,
}
