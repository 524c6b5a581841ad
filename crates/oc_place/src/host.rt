use oc_base::{NodeId, Rank};
use std::marker::Model;

/// The facts about a node that is asked to be the parent, as far as its answer depends on them.
/// Contracts see the model's record of the same name.
#[derive(Debug, Drop)]
pub struct Host<'a> {
    pub id: NodeId,
    /// Whether the node is acting or joined.
    pub in_tree: bool,
    pub rank: Rank,
    /// The nodes above, nearest first.
    pub ancestors: &'a [NodeId],
    /// The length of the chain: its members are the nodes from 1 to this one.
    pub chain: u32,
    /// The least of the node's leased children that is a chain member and not the asker.
    pub chain_child: Option<NodeId>,
}

impl<'a> Model for Host<'a> {
    ghost use Rattle.oc_model.specs.Adoption.{Host as Asked};

    ghost Value = { Asked };

    ghost view = { λ h. record {
      me = h.id;
      in_tree = h.in_tree;
      rank = h.rank;
      ancestors = h.ancestors.now;
      chain = h.chain;
      chain_child = h.chain_child;
    } };
}
