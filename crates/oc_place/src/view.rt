use oc_base::NodeId;
use oc_model::Candidate;
use std::marker::Model;

/// The present place of a joined node, for a review. Contracts see the model's record of the same name.
#[derive(Debug, Drop)]
pub struct View<'a> {
    /// The node's own rate to its parent, in bytes per second.
    pub direct: u64,
    /// The parent's rate to its own parent, as it was told.
    pub up: u64,
    /// The grandparent, and the node's own rate to it.
    pub grand: Option<(NodeId, u64)>,
    /// The other children of the parent.
    pub siblings: &'a [Candidate],
}

impl<'a> Model for View<'a> {
    ghost use Rattle.oc_model.specs.Choice.{View as Seen};

    ghost Value = { Seen };

    ghost view = { λ v. record {
      direct = v.direct;
      up = v.up;
      grand = v.grand;
      siblings = v.siblings.now;
    } };
}
