ghost use Rattle.std.specs.Prelude.{◌≡◌, ◌↔◌, IsTrue};
ghost use Rattle.oc_base.specs.Cert.{Outranks};

use crate::NodeId;

/// A birth or death certificate: the ask `seq` of the subject went to the parent, the lease of that ask is alive or
/// dead, and the subject had served `clients` clients at its own number `number`.
#[derive(Clone, Copy, Debug, PartialEq, Eq)]
pub struct Cert {
    pub subject: NodeId,
    pub seq: u64,
    pub parent: NodeId,
    pub dead: bool,
    pub number: u64,
    pub clients: u64,
}

impl Cert {
    /// Whether this certificate is a later word on the same subject than the other one.
    pub fn outranks(&self, other: &Cert) -> bool
        requires { self.now.subject ≡ other.now.subject }
        ensures { IsTrue result ↔ Outranks self.now other.now }
    {
        self.seq > other.seq
            || (self.seq == other.seq
                && ((self.dead && !other.dead)
                    || (self.dead == other.dead && self.number > other.number)))
    }
}

/// A line of a listing: a node and its parent.
#[derive(Clone, Copy, Debug, PartialEq, Eq)]
pub struct Line {
    pub node: NodeId,
    pub parent: NodeId,
}

/// A child and its rate in bytes per second.
#[derive(Clone, Copy, Debug, PartialEq, Eq)]
pub struct Child {
    pub id: NodeId,
    pub rate: u64,
}
