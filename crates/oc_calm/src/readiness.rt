//! Whether a world is ready to settle.

ghost use Rattle.std.specs.Prelude.{◌≡◌, IfSome, find};
ghost use Rattle.std.specs.List.{list_all};
ghost use Rattle.oc_calm.specs.Cluster.{IsNodeOf};
ghost use Rattle.oc_calm.specs.Tree.{chain_length, is_positive, AreLengths, fits_under};
ghost use Rattle.oc_model.specs.Ready.{is_root, is_ready};
ghost use Rattle.oc_model.specs.World.{ids};

use crate::Cluster;
use crate::tree::{has_way, is_linked, is_root};
use oc_base::NodeId;

/// The node with the least id that is up and acts as root.
fn first_root<C: Cluster>(cluster: &C) -> Option<NodeId>
    ensures { result ≡ find (is_root (C.world cluster.now)) (ids (C.world cluster.now)) }
{
    for number in 1..cluster.nodes() + 1 {
        if is_root(cluster, NodeId(number)) {
            return Some(NodeId(number));
        }
    }
    None
}

/// Whether the true chain of a node has any nodes, by the lengths of all.
fn is_long<C: Cluster>(cluster: &C, lengths: &[Option<u32>], node: NodeId) -> bool
    requires node { IsNodeOf (C.world cluster.now) node }
    requires lengths { AreLengths (C.world cluster.now) lengths.now }
    ensures { result ≡ is_positive (chain_length (C.world cluster.now) node) }
{
    match lengths[node.index()] {
        Some(length) => length > 0,
        None => false,
    }
}

/// Whether a node has a true chain. Without the lengths it climbs from the node.
fn has_chain<C: Cluster>(cluster: &C, lengths: Option<&[Option<u32>]>, node: NodeId) -> bool
    requires node { IsNodeOf (C.world cluster.now) node }
    requires lengths { IfSome lengths (λ lengths. AreLengths (C.world cluster.now) lengths.now) }
    ensures { result ≡ is_positive (chain_length (C.world cluster.now) node) }
{
    match lengths {
        Some(lengths) => is_long(cluster, lengths, node),
        None => has_way(cluster, node),
    }
}

/// Whether a node is down, or is the root, or is not acting and has a true chain and a lease of its parent.
#[tactic(auto, unfolding(crate::specs::Tree::fits_under))]
fn fits_under<C: Cluster>(
    cluster: &C,
    lengths: Option<&[Option<u32>]>,
    root: NodeId,
    node: NodeId,
) -> bool
    requires node { IsNodeOf (C.world cluster.now) node }
    requires lengths { IfSome lengths (λ lengths. AreLengths (C.world cluster.now) lengths.now) }
    ensures { result ≡ fits_under (C.world cluster.now) root node }
{
    !cluster.is_up(node)
        || node == root
        || (!cluster.mode(node).is_acting()
            && has_chain(cluster, lengths, node)
            && is_linked(cluster, node))
}

/// Whether `fits_under` holds of each node.
fn all_fit<C: Cluster>(cluster: &C, lengths: Option<&[Option<u32>]>, root: NodeId) -> bool
    requires { IfSome lengths (λ lengths. AreLengths (C.world cluster.now) lengths.now) }
    ensures { result ≡ list_all (fits_under (C.world cluster.now) root) (ids (C.world cluster.now)) }
{
    for number in 1..cluster.nodes() + 1 {
        if !fits_under(cluster, lengths, root, NodeId(number)) {
            return false;
        }
    }
    true
}

/// Whether one node that is up acts as root, and every other node that is up has a true chain to it and the
/// lease of its last ask. `lengths` are those of all true chains; without them it takes longer.
pub fn is_ready<C: Cluster>(cluster: &C, lengths: Option<&[Option<u32>]>) -> bool
    requires { IfSome lengths (λ lengths. AreLengths (C.world cluster.now) lengths.now) }
    ensures { result ≡ is_ready (C.world cluster.now) }
{
    match first_root(cluster) {
        Some(root) => all_fit(cluster, lengths, root),
        None => false,
    }
}
