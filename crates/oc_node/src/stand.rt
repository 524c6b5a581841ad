use oc_base::{Child, NodeId};
use std::marker::Model;

/// The position of another node, as that node told it. Contracts see the model's record of the same name.
#[derive(Drop)]
pub struct Stand<'a> {
    pub in_tree: bool,
    pub parent: Option<NodeId>,
    /// The node's rate to its parent, in bytes per second.
    pub rate: u64,
    /// The node's leased children, ascending.
    pub children: &'a [Child],
}

impl<'a> Model for Stand<'a> {
    ghost use Rattle.oc_model.specs.Looking.{Stand as Told};

    ghost Value = { Told };

    ghost view = { λ s. record {
      in_tree = s.in_tree;
      parent = s.parent;
      rate = s.rate;
      children = s.children.now;
    } };
}
