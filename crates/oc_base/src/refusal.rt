use crate::NodeId;

/// Why a node refuses to be the parent of a node that asks (rule 7, answer an ask).
#[derive(Clone, Copy, Debug, PartialEq, Eq)]
pub enum Refusal {
    /// The asker is the node itself.
    Own,
    /// The host is not in the tree.
    NotJoined,
    /// The asker is among the host's ancestors.
    Ancestor,
    /// The host is at the greatest depth, or deeper.
    Depth,
    /// The asker is to ask this chain member instead, so that the chain stays one line.
    Chain(NodeId),
    /// The host's rank does not precede the asker's.
    Rank,
}
