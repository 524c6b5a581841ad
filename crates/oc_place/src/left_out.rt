ghost use Rattle.std.specs.Prelude.{◌≡◌};
ghost use Rattle.oc_model.specs.Numbers.{has};
ghost use Rattle.oc_place.specs.LeftOut.{out_of};

use oc_base::NodeId;

/// The nodes that are not asked: the asker, and at most one more.
#[derive(Drop)]
pub(crate) struct LeftOut {
    pub me: NodeId,
    pub without: Option<NodeId>,
}

impl LeftOut {
    /// Whether this id is left out.
    pub fn contains(&self, id: NodeId) -> bool
        ensures { result ≡ has (out_of self.now) id }
    {
        self.me == id || self.without == Some(id)
    }
}
