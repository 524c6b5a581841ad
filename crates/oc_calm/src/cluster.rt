ghost use Rattle.std.specs.Prelude.{◌≡◌, ◌≤◌, length, OnOk, OnErr};
ghost use Rattle.std.specs.List.{range_with_len};
ghost use Rattle.oc_base.specs.declared.limits.TheConstants.{MAX_NODES};
ghost use Rattle.oc_calm.specs.Cluster.{is_ack, HasChain, HasNoStranger, HasPeerOf, IsNodeOf, IsStepOf, IsUpNode};
ghost use Rattle.oc_model.specs.Runs.{last_body};
ghost use Rattle.oc_model.specs.Table.{leased_by};
ghost use Rattle.oc_model.specs.World.{World as WorldState, after_act, ids, is_up, mode_of, node as node_in};
ghost use Rattle.oc_model.specs.WorldBounds.{clock_of};

use oc_base::{Memory, NodeId, Rank};
use oc_model::{Act, Mode};

/// All nodes of a world with the net between them. It plays acts, and shows parts of the present world.
///
/// The ids are 1, 2 and so on, in order. Each call that shows a part of a node takes the id of one that is
/// up, so an implementation need not have the state of the nodes that are down.
pub trait Cluster {
    /// The present world.
    ghost world: { Self → WorldState };

    /// Plays an act. A tick may go up to the last second of a clock, 2^41, and a delivery may name any
    /// number: one without a message does nothing. If memory runs out, the world does not
    /// change.
    fn act(&mut self, act: &Act) -> Result<(), Memory>
        requires { IsStepOf (world self.old) act.now }
        ensures ok { OnOk result (world self.new ≡ after_act (world self.old) act.now) }
        ensures err { OnErr result (world self.new ≡ world self.old) };

    /// The number of nodes, at most 1,024.
    fn nodes(&self) -> u32
        ensures ids { ids (world self.now) ≡ range_with_len 1 result }
        ensures few { result ≤ MAX_NODES };

    /// Whether a node is up.
    fn is_up(&self, node: NodeId) -> bool
        requires { IsNodeOf (world self.now) node }
        ensures { result ≡ is_up (world self.now) node };

    /// The length of the chain: its members, the nodes that can act as root, have the ids up to this number.
    fn chain(&self) -> u32
        ensures { HasChain (world self.now) result };

    /// The mode of a node, whose peer, if it has one, is a node of this world.
    fn mode(&self, node: NodeId) -> Mode
        requires { IsUpNode (world self.now) node }
        ensures mode { result ≡ mode_of (world self.now) node }
        ensures peer { HasPeerOf (world self.now) result };

    /// The number of a node's last ask for a parent.
    fn seq(&self, node: NodeId) -> u64
        requires { IsUpNode (world self.now) node }
        ensures { result ≡ (node_in (world self.now) node).control.kept.seq };

    /// The rank of a node.
    fn rank(&self, node: NodeId) -> Option<Rank>
        requires { IsUpNode (world self.now) node }
        ensures { result ≡ (node_in (world self.now) node).control.kept.rank };

    /// The time of a node's clock, in seconds.
    fn clock(&self, node: NodeId) -> u64
        requires { IsUpNode (world self.now) node }
        ensures { result ≡ clock_of (world self.now) node };

    /// The number of certificates that wait in a node's change log for its parent.
    fn waiting(&self, node: NodeId) -> u64
        requires { IsUpNode (world self.now) node }
        ensures { result ≡ length (node_in (world self.now) node).control.kept.log.waiting };

    /// The ask number by which the child has a lease of the parent, in the parent's table. The parent must be
    /// up, and all its leases are of nodes of this world.
    fn lease(&self, parent: NodeId, child: NodeId) -> Option<u64>
        requires parent { IsUpNode (world self.now) parent }
        requires child { IsNodeOf (world self.now) child }
        ensures number { result ≡ leased_by (node_in (world self.now) parent).control.kept.table parent child }
        ensures strangers { HasNoStranger (world self.now) parent };

    /// The number of all messages that were ever sent.
    fn sent(&self) -> u64
        ensures { result ≡ length (world self.now).net };

    /// Whether the message that was sent last acknowledges a check-in.
    fn last_is_ack(&self) -> bool
        ensures { result ≡ is_ack (last_body (world self.now)) };
}
