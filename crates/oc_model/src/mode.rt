ghost use Rattle.std.specs.Prelude.{◌≡◌};
ghost use Rattle.oc_model.specs.Adopting.{is_acting};
ghost use Rattle.oc_model.specs.Checking.{is_joined_to};
ghost use Rattle.oc_model.specs.Records.{is_joined};

use oc_base::NodeId;

/// The position of a node in the tree.
#[derive(Clone, Copy, Debug, PartialEq, Eq)]
pub enum Mode {
    /// Out of the tree.
    Idle,
    /// The node has asked this node to be its parent.
    Asking(NodeId),
    /// The node is a child of this node.
    Joined(NodeId),
    /// The node acts as root.
    Acting,
}

impl Mode {
    /// Whether the node acts as root.
    pub fn is_acting(self) -> bool
        ensures { result ≡ is_acting self }
    {
        matches!(self, Mode::Acting)
    }

    /// Whether the node has a parent.
    pub fn is_joined(self) -> bool
        ensures { result ≡ is_joined self }
    {
        matches!(self, Mode::Joined(_))
    }

    /// Whether the node is a child of `peer`.
    pub fn is_joined_to(self, peer: NodeId) -> bool
        ensures { result ≡ is_joined_to self peer }
    {
        match self {
            Mode::Joined(parent) => parent == peer,
            _ => false,
        }
    }
}
