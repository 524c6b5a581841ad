use oc_base::{Cert, IdList, NodeId, Rank};

/// A durable change of a node's control state, as one frame of its control file keeps it.
#[derive(Clone, Debug, Drop)]
pub enum Record {
    /// The node asked that peer to be its parent, by the ask number `seq`.
    Ask {
        seq: u64,
        peer: NodeId,
    },
    /// The node joined that peer, and its own rank became this; no effect on a node that never asked.
    Joined {
        peer: NodeId,
        rank: Rank,
    },
    /// The node lost its parent, or gave up its ask.
    Lost,
    /// The node became a root.
    Acting,
    /// The node's rank became this.
    Ranked {
        rank: Rank,
    },
    /// A row of the table in the form of an earlier version. No node writes it.
    OldEntry {
        subject: NodeId,
        seq: u64,
        parent: NodeId,
        dead: bool,
    },
    /// The parent acknowledged the change log up to this place.
    Acked {
        upto: u64,
    },
    /// The node's ancestors became these, nearest first.
    Ancestors {
        ids: IdList,
    },
    /// A measurement of a peer: bytes per second, and hops.
    Rate {
        peer: NodeId,
        rate: u64,
        hops: u8,
    },
    /// The node's rank became that of a root of this epoch.
    Epoch {
        epoch: u64,
    },
    /// The change log of a joined node has this length, and is acknowledged in full.
    Base {
        acked: u64,
    },
    /// The start of a snapshot: a whole state follows, and all records before this one are void.
    Snapshot {
        generation: u64,
    },
    /// A certificate for the table.
    Entry {
        cert: Cert,
    },
    /// The node's own number and its client count.
    Info {
        number: u64,
        clients: u64,
    },
}
