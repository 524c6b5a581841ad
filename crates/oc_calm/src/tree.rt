//! The live tree: the links of its nodes, and the ways up along them.

ghost use Rattle.std.specs.Prelude.{◌≡◌, ◌==◌, ◌&&◌, if◌then◌else◌, IfOk, IfSome, reverse, []};
ghost use Rattle.std.specs.List.{AllByRecursion};
ghost use Rattle.oc_calm.specs.Cluster.{IsNodeOf, IsUpNode};
ghost use Rattle.oc_calm.specs.Played.{nodes_below};
ghost use Rattle.oc_calm.specs.Tree.{chain_length, is_positive, parent_of as parent_in, is_linked};
ghost use Rattle.oc_model.specs.Adopting.{is_number};
ghost use Rattle.oc_model.specs.Ready.{is_root};

use crate::Cluster;
use oc_base::{Memory, NodeId};
use oc_model::Mode;
use std::alloc::Global;

/// The parent of a node, if the node is up and joined.
#[tactic(auto, unfolding(crate::specs::Tree::parent_of))]
pub fn parent_of<C: Cluster>(cluster: &C, node: NodeId) -> Option<NodeId>
    requires { IsNodeOf (C.world cluster.now) node }
    ensures parent { result ≡ parent_in (C.world cluster.now) node }
    ensures node { IfSome result (IsNodeOf (C.world cluster.now)) }
{
    if !cluster.is_up(node) {
        return None;
    }
    match cluster.mode(node) {
        Mode::Joined(parent) => Some(parent),
        _ => None,
    }
}

/// Whether a node is up and acts as root.
pub fn is_root<C: Cluster>(cluster: &C, node: NodeId) -> bool
    requires { IsNodeOf (C.world cluster.now) node }
    ensures { result ≡ is_root (C.world cluster.now) node }
{
    cluster.is_up(node) && cluster.mode(node).is_acting()
}

/// Whether the number was found.
fn is_number(found: Option<u64>, number: u64) -> bool
    ensures { result ≡ is_number found number }
{
    match found {
        Some(other) => other == number,
        None => false,
    }
}

/// Whether a node is joined to one that is up and holds its lease at its last ask number.
pub fn is_linked<C: Cluster>(cluster: &C, node: NodeId) -> bool
    requires { IsUpNode (C.world cluster.now) node }
    ensures { result ≡ is_linked (C.world cluster.now) node }
{
    match cluster.mode(node) {
        Mode::Joined(parent) => {
            cluster.is_up(parent) && is_number(cluster.lease(parent, node), cluster.seq(node))
        }
        _ => false,
    }
}

/// Whether a node has a true chain, found by a climb from the node.
pub fn has_way<C: Cluster>(cluster: &C, node: NodeId) -> bool
    requires { IsNodeOf (C.world cluster.now) node }
    ensures { result ≡ is_positive (chain_length (C.world cluster.now) node) }
{
    let mut place = node;
    'up: for _ in 0..cluster.nodes() {
        match parent_of(cluster, place) {
            Some(parent) => place = parent,
            None => return is_root(cluster, place),
        }
    }
    false
}

/// Whether a node is the top of a tree, and acts as root.
pub fn is_top<C: Cluster>(cluster: &C, top: NodeId, node: NodeId) -> bool
    requires { IsNodeOf (C.world cluster.now) node }
    ensures { result ≡ (node == top && is_root (C.world cluster.now) node) }
{
    node == top && is_root(cluster, node)
}

/// The nodes of the true chain from a node up to the top, without the top, from the top down; none if
/// there is no such chain.
pub fn below<C: Cluster>(
    alloc: Global,
    cluster: &C,
    top: NodeId,
    node: NodeId,
) -> Result<Vec<NodeId>, Memory>
    requires { IsNodeOf (C.world cluster.now) node }
    ensures below { IfOk result (λ nodes. nodes.items ≡ nodes_below top node (C.world cluster.now)) }
    ensures nodes { IfOk result (λ nodes. AllByRecursion (IsNodeOf (C.world cluster.now)) nodes.items) }
{
    let mut nodes = Vec::new(alloc);
    let mut place = node;
    'up: for _ in 0..cluster.nodes() {
        match parent_of(cluster, place) {
            Some(parent) => {
                nodes.push(place)?;
                place = parent;
            }
            None => return Ok(turned(nodes, is_top(cluster, top, place))),
        }
    }
    Ok(turned(nodes, false))
}

/// The nodes in reverse order if `all` holds, and otherwise no nodes.
fn turned(mut nodes: Vec<NodeId>, all: bool) -> Vec<NodeId>
    ensures { result.items ≡ (if all then reverse nodes.items else []) }
{
    if all {
        nodes.reverse();
    } else {
        nodes.clear();
    }
    nodes
}
