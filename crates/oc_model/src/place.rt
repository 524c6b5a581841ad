use oc_base::NodeId;

/// A node that may become the parent, with the rates by which the chooser compares places.
#[derive(Clone, Copy, Debug, PartialEq, Eq)]
pub struct Candidate {
    pub id: NodeId,
    /// The chooser's own rate to it, in bytes per second; 0 where nothing was measured.
    pub mine: u64,
    /// The candidate's rate to its own parent, as that parent told it.
    pub up: u64,
    pub hops: u8,
}

/// The result of a review, in which a joined node compares its place with others near by.
#[derive(Clone, Copy, Debug, PartialEq, Eq)]
pub enum Review {
    /// The present place is best.
    Stay,
    /// The place beneath this grandparent is better.
    Up(NodeId),
    /// The place beneath this sibling is better.
    Beneath(NodeId),
}
