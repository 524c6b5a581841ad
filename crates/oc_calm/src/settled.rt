//! Whether a world is settled.

ghost use Rattle.std.specs.Prelude.{◌≡◌};
ghost use Rattle.std.specs.List.{list_all};
ghost use Rattle.oc_calm.specs.Cluster.{HasNoStranger, IsNodeOf, IsUpNode};
ghost use Rattle.oc_model.specs.Ready.{has_told, holds_current, is_calm, is_current, is_settled};
ghost use Rattle.oc_model.specs.Table.{leased_by};
ghost use Rattle.oc_model.specs.World.{ids, node as node_in};

use crate::Cluster;
use crate::readiness::is_ready;
use oc_base::NodeId;
use oc_model::Mode;

/// Whether one node that is up acts as root, every other node that is up has a true chain to it and the lease
/// of its last ask, no node that is up holds any other lease, and nothing waits at it for a parent.
///
/// The test takes no memory, so it climbs from each node anew, and looks for a lease between any two nodes.
pub fn is_settled<C: Cluster>(cluster: &C) -> bool
    ensures { result ≡ is_settled (C.world cluster.now) }
{
    is_ready(cluster, None) && all_calm(cluster)
}

/// Whether each node is down, or holds only current leases and has told its parent all.
fn all_calm<C: Cluster>(cluster: &C) -> bool
    ensures { result ≡ list_all (is_calm (C.world cluster.now)) (ids (C.world cluster.now)) }
{
    for number in 1..cluster.nodes() + 1 {
        if !is_calm(cluster, NodeId(number)) {
            return false;
        }
    }
    true
}

/// Whether this node is down, or holds only current leases and has told its parent all.
fn is_calm<C: Cluster>(cluster: &C, node: NodeId) -> bool
    requires { IsNodeOf (C.world cluster.now) node }
    ensures { result ≡ is_calm (C.world cluster.now) node }
{
    !cluster.is_up(node) || (holds_current(cluster, node) && has_told(cluster, node))
}

/// Whether nothing waits at a node, if it is joined.
fn has_told<C: Cluster>(cluster: &C, node: NodeId) -> bool
    requires { IsUpNode (C.world cluster.now) node }
    ensures { result ≡ has_told (C.world cluster.now) node }
{
    match cluster.mode(node) {
        Mode::Joined(_) => cluster.waiting(node) == 0,
        _ => true,
    }
}

/// Whether each lease that a node holds is that of the last ask of a node that is up and joined to it.
fn holds_current<C: Cluster>(cluster: &C, node: NodeId) -> bool
    requires { IsUpNode (C.world cluster.now) node }
    ensures { result ≡ holds_current (C.world cluster.now) node }
{
    for number in 1..cluster.nodes() + 1 {
        if !is_current(cluster, node, NodeId(number)) {
            return false;
        }
    }
    true
}

/// Whether the child is up and joined to the parent by its last ask, if it has a lease of the parent.
fn is_current<C: Cluster>(cluster: &C, parent: NodeId, child: NodeId) -> bool
    requires parent { IsUpNode (C.world cluster.now) parent }
    requires child { IsNodeOf (C.world cluster.now) child }
    ensures current { result ≡ is_current (C.world cluster.now) parent child (leased_by (node_in (C.world cluster.now) parent).control.kept.table parent child) }
    ensures strangers { HasNoStranger (C.world cluster.now) parent }
{
    match cluster.lease(parent, child) {
        Some(seq) => {
            cluster.is_up(child)
                && cluster.mode(child).is_joined_to(parent)
                && cluster.seq(child) == seq
        }
        None => true,
    }
}
