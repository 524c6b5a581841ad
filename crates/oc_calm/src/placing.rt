//! The nodes that are in place for heal. A result for one node serves those below it, until a node moves.

ghost use Rattle.std.specs.Prelude.{◌≡◌, length, IfOk, true, false, replicate};
ghost use Rattle.oc_base.specs.Lawful.{IsNode};
ghost use Rattle.oc_calm.specs.Cluster.{IsNodeOf};
ghost use Rattle.oc_calm.specs.Placed.{ArePlaced, IsForgotten};
ghost use Rattle.oc_calm.specs.Played.{is_placed_under};
ghost use Rattle.oc_model.specs.Numbers.{at};

use crate::Cluster;
use crate::tree::{is_linked, is_top, parent_of};
use oc_base::{Memory, NodeId};
use std::alloc::Global;

/// Whether a node is the leader, which acts, or has a true chain to it on which each link has its lease.
/// `known` has the nodes that are known to be in place, by index.
pub fn is_placed<C: Cluster>(cluster: &C, known: &mut [bool], leader: NodeId, node: NodeId) -> bool
    requires node { IsNodeOf (C.world cluster.now) node }
    requires known { ArePlaced (C.world cluster.now) leader known.old }
    ensures placed { result ≡ is_placed_under (C.world cluster.now) leader node }
    ensures known { ArePlaced (C.world cluster.now) leader known.new }
{
    if !has_leased_way(cluster, known, leader, node) {
        return false;
    }
    note_placed(cluster, known, leader, node);
    true
}

/// Whether a node is known to be in place.
fn known_of(known: &[bool], node: NodeId) -> bool
    requires { IsNode (length known.now) node }
    ensures { result ≡ at known.now node false }
{
    known[node.index()]
}

/// Whether links with their leases lead up from a node to the leader, or to one that is known to be in place.
fn has_leased_way<C: Cluster>(cluster: &C, known: &[bool], leader: NodeId, node: NodeId) -> bool
    requires node { IsNodeOf (C.world cluster.now) node }
    requires known { ArePlaced (C.world cluster.now) leader known.now }
    ensures { result ≡ is_placed_under (C.world cluster.now) leader node }
{
    let mut place = node;
    'up: for _ in 0..known.len() {
        if known_of(known, place) {
            return true;
        }
        if is_top(cluster, leader, place) {
            return true;
        }
        match parent_of(cluster, place) {
            Some(parent) => {
                if !is_linked(cluster, place) {
                    return false;
                }
                place = parent;
            }
            None => return false,
        }
    }
    false
}

/// Notes that a node and all nodes on its way up are in place.
fn note_placed<C: Cluster>(cluster: &C, known: &mut [bool], leader: NodeId, node: NodeId)
    requires node { IsNodeOf (C.world cluster.now) node }
    requires placed { is_placed_under (C.world cluster.now) leader node ≡ true }
    requires known { ArePlaced (C.world cluster.now) leader known.old }
    ensures { ArePlaced (C.world cluster.now) leader known.new }
{
    let mut place = node;
    'up: for _ in 0..known.len() {
        if known_of(known, place) {
            return;
        }
        known[place.index()] = true;
        match parent_of(cluster, place) {
            Some(parent) => place = parent,
            None => return,
        }
    }
}

/// A list in which none of `nodes` nodes is known to be in place.
pub fn none_known(alloc: Global, nodes: u32) -> Result<Vec<bool>, Memory>
    ensures { IfOk result (λ known. known.items ≡ replicate nodes false) }
{
    Ok(vec![in alloc; false; nodes as usize]?)
}

/// Forgets which nodes are in place.
pub fn forget(known: &mut [bool])
    ensures { IsForgotten known.new }
{
    for placed in known.iter_mut() {
        *placed = false;
    }
}
