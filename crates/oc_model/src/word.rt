use crate::Answer;

/// The result of an event in a report.
#[derive(Clone, Copy, Debug, PartialEq, Eq)]
pub enum Word {
    /// The node's answer.
    Node(Answer),
    /// The node is down.
    Down,
    /// No message has that number.
    NoMessage,
    /// The node is up already.
    Up,
    /// The node stopped, and its last write was lost.
    StoppedOld,
    /// The node stopped, and its last write was kept.
    StoppedNew,
    /// The network settled, in this number of acts.
    Settled(u64),
    /// The network is not in a state in which the event can be done.
    Unready,
    /// The network healed, in this number of acts.
    Healed(u64),
}
