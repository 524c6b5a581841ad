ghost use Rattle.std.specs.Prelude.{◌≡◌, ◌+◌, ◌-◌, ◌≤◌};

use std::fmt;
use std::marker::Model;

/// The number of a node, from 1 to the number of nodes.
#[derive(Clone, Copy, Debug, PartialEq, Eq, PartialOrd, Ord, Hash)]
pub struct NodeId(pub u32);

impl Model for NodeId {
    ghost use Rattle.std.specs.Prelude.{ℕ};

    ghost Value = { ℕ };

    ghost view = { λ n. n.0 };

    ghost inverse = { λ n. record { 0 = n } };
}

impl NodeId {
    /// The index of this node in a list by number; node 1 has index 0.
    pub fn index(self) -> usize
        requires { 1 ≤ self }
        ensures index { result ≡ self - 1 }
        ensures next { result + 1 ≡ self }
    {
        self.0 as usize - 1
    }
}

impl fmt::Display for NodeId {
    fn fmt<W: fmt::Write>(&self, f: &mut fmt::Formatter<W>) -> fmt::Result {
        let number = self.0;
        write!(f, "{number}")
    }
}
