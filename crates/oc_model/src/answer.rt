use oc_base::NodeId;

/// The answer of a node to an input.
#[derive(Clone, Copy, Debug, PartialEq, Eq)]
pub enum Answer {
    /// The input was taken.
    Ok,
    /// The input changes nothing.
    Ignored,
    /// A chunk begins past the bytes held.
    Gap,
    /// Only the source publishes and seals.
    NotSource,
    /// The group is not held.
    NoGroup,
    /// No further group can be held.
    Groups,
    /// The group would grow past its limit.
    TooLong,
    /// A node does not do this to itself.
    Own,
    /// The place of this node in the chain does not allow the move.
    Fixed,
    /// No node is left to be asked for a place; the next check begins anew.
    Waiting,
    /// No ask number of 64 bits is left.
    Spent,
    /// The group is sealed.
    Sealed,
    /// The client is to ask this node.
    Redirect(NodeId),
    /// The client gets this number of bytes from this node.
    Serve(u64),
}
