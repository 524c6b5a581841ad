ghost use Rattle.std.specs.Prelude.{◌≡◌, ◌<◌, ◌↔◌, IsTrue};
ghost use Rattle.oc_base.specs.declared.limits.TheConstants.{MAX_DEPTH};
ghost use Rattle.oc_base.specs.Rank.{Precedes, beneath_of};

/// A rank, which the node keeps across restarts: a parent's rank precedes its child's, so parent links form no cycle.
#[derive(Clone, Copy, Debug, PartialEq, Eq, Hash)]
pub struct Rank {
    pub epoch: u64,
    pub depth: u32,
}

impl Rank {
    /// Whether this rank precedes the other: its epoch is greater, or the epochs are the same and its depth is smaller.
    pub fn precedes(self, other: Rank) -> bool
        ensures { IsTrue result ↔ Precedes self other }
    {
        self.epoch > other.epoch || (self.epoch == other.epoch && self.depth < other.depth)
    }

    /// The rank of a child: the same epoch, and a depth greater by one.
    pub fn beneath(self) -> Rank
        requires { self.depth < MAX_DEPTH }
        ensures { result ≡ beneath_of self }
    {
        Rank {
            epoch: self.epoch,
            depth: self.depth + 1,
        }
    }
}
