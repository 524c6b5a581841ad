use oc_base::{IdList, NodeId};

/// A `Look` for a place, while its answer is awaited.
#[derive(Clone, Copy, Debug, PartialEq, Eq)]
pub enum Search {
    /// On the way down to a first place: this node was asked for its position.
    Descend(NodeId),
    /// A joined node's search for a better place: the parent was asked for its position.
    Review,
}

/// The most moves by reviews before a measure changes, so that a node comes to rest although each line's rate varies.
pub const MAX_MOVES: u8 = 8;

/// The most additional reviews that a wish may have to last.
pub const MAX_PATIENCE: u8 = 60;

/// The state that a start clears, except for the lists by node: lease ends, children's rates, redirection counts.
#[derive(Clone, Debug, Drop)]
pub struct Soft {
    /// The time, in seconds.
    pub clock: u64,
    /// The second of the next check.
    pub due: Option<u64>,
    /// The nodes still to be asked for a place, in their order.
    pub tries: IdList,
    /// No node has refused since the tries were last set.
    pub silent: bool,
    /// A node has refused since the last check in time.
    pub refused: bool,
    /// The second of the last check-in.
    pub checked: Option<u64>,
    pub search: Option<Search>,
    /// The clients served since the node last took clients into its own count.
    pub served: u64,
    /// The place that reviews speak for, until the node has a parent anew.
    pub wish: Option<NodeId>,
    /// The parent that the node left when it last asked for its wish, or was moved while it had one.
    pub left: Option<NodeId>,
    /// The number of reviews that spoke for the wish, less those that spoke for another place.
    pub waits: u64,
    /// The number of reviews above two that have to speak for a wish before the node asks for it.
    pub patience: u8,
    /// The number of reviews that made the node ask since a measure last changed.
    pub moves: u8,
}
