use oc_base::NodeId;
use oc_policy::{Keyring, Rule};

/// The terms by which a node reads requests.
#[derive(Clone, Copy, Drop)]
pub struct Terms<'a> {
    /// The node.
    pub me: NodeId,
    /// The number of nodes.
    pub nodes: u32,
    /// The access rules of the node.
    pub rules: &'a [Rule],
    /// The keys under one of which messages have a MAC, where the network has some.
    pub keys: Option<&'a Keyring>,
}
