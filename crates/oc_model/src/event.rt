use crate::Input;
use oc_base::NodeId;

/// One line of a schedule: an event of the network.
#[derive(Clone, Debug, Drop)]
pub enum Event {
    /// The node starts from its disks.
    Up(NodeId),
    /// The node stops between two inputs.
    Crash(NodeId),
    /// An input comes to a node, which stops after this number of successful calls on its disk; `image` is the
    /// byte that the next call leaves in each unsynced byte.
    Stop { calls: u8, image: u8, act: Act },
    /// An input comes to a node.
    Do(Act),
    /// The report shows the content that the node holds.
    Held(NodeId),
    /// The report shows the state of the node.
    Show(NodeId),
    /// All nodes that are up check in and renew their leases until nothing waits.
    Settle,
    /// All nodes that are up join one tree, and then settle.
    Heal,
}

/// An act of a schedule at one node.
#[derive(Clone, Debug, Drop)]
pub enum Act {
    /// An input comes to the node. Messages go by number alone: `Input::Delivered` does nothing here.
    At { node: NodeId, input: Input },
    /// The message of this number, counted from 1 over all that were ever sent, arrives at its receiver.
    Deliver { number: u64 },
}
