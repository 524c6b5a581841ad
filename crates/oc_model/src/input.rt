use crate::Message;
use oc_base::{Bytes, GroupName, NodeId};

/// An input to a node: the clock, an operator's wish, a fault, a measurement, a client or a message.
#[derive(Clone, Debug, Drop)]
pub enum Input {
    /// The time of the clock, in seconds.
    Tick(u64),
    /// A check-in with the parent, or the search for a parent, at once.
    CheckNow,
    /// A move: the node asks this node to be its parent.
    Relocate(NodeId),
    /// The failure of a peer, which does not answer.
    Unreachable(NodeId),
    /// A fetch from this node, of more of every group.
    Pull(NodeId),
    /// A measurement of the way to a peer: bytes per second, and hops.
    Measured {
        peer: NodeId,
        rate: u64,
        hops: u8,
    },
    /// A publish: bytes for the end of a group, at the source.
    Publish {
        group: GroupName,
        bytes: Bytes,
    },
    /// A seal, which closes a group, at the source.
    Seal {
        group: GroupName,
    },
    /// A client of this area, which asks for a group from a byte on.
    Client {
        area: u8,
        start: u64,
        group: GroupName,
    },
    /// The arrival of a message.
    Delivered(Message),
}
