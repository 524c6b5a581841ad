use std::marker::Model;

/// The numbers that all nodes of a network share.
#[derive(Clone, Copy, Debug, PartialEq, Eq)]
pub struct Sizes {
    /// The number of nodes, from 1 to 1,024.
    pub nodes: u32,
    /// The number of chain members, which are the nodes from 1 to this one: from 1 to 16, and at most that of nodes.
    pub chain: u32,
    /// The greatest number of bytes that a chunk carries, from 1 to 524,288.
    pub chunk: u32,
}

/// The description of a network: its sizes, and the area of each node. Contracts see the record of `specs/Node`.
#[derive(Debug, Drop)]
pub struct Header {
    pub sizes: Sizes,
    /// The area of each node, ascending by id.
    pub areas: Vec<u8>,
}

impl Model for Header {
    ghost use Rattle.oc_model.specs.Node as nodes;

    ghost Value = { nodes.Header };

    ghost view = { λ h. record { nodes = h.sizes.nodes; chain = h.sizes.chain; chunk = h.sizes.chunk; areas = h.areas.items } };
}
