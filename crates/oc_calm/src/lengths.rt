//! The number of nodes of each true chain.

ghost use Rattle.std.specs.Prelude.{◌≡◌, ◌≤◌, length, None, IfOk};
ghost use Rattle.oc_base.specs.Lawful.{IsNode};
ghost use Rattle.oc_base.specs.declared.limits.TheConstants.{MAX_NODES};
ghost use Rattle.oc_calm.specs.Cluster.{IsNodeOf};
ghost use Rattle.oc_calm.specs.Tree.{length_alone, AreFound, AreFoundBut, AreLengths, EndsAt, IsKnown, KeepKnown};
ghost use Rattle.oc_model.specs.Numbers.{at};

use crate::Cluster;
use crate::tree::{is_root, parent_of};
use oc_base::{Memory, NodeId};
use std::alloc::Global;

/// The number of nodes of the true chain of a node without a parent.
#[tactic(auto, unfolding(crate::specs::Tree::length_alone))]
fn length_alone<C: Cluster>(cluster: &C, node: NodeId) -> u32
    requires { IsNodeOf (C.world cluster.now) node }
    ensures { result ≡ length_alone (C.world cluster.now) node }
{
    if is_root(cluster, node) { 1 } else { 0 }
}

/// The known length of a node's true chain.
fn found_of(lengths: &[Option<u32>], node: NodeId) -> Option<u32>
    requires { IsNode (length lengths.now) node }
    ensures { result ≡ at lengths.now node None }
{
    lengths[node.index()]
}

/// The number of nodes of each node's true chain, by the index of the node; 0 if it has none. All
/// walks together look at each node a few times.
#[tactic(auto, using(crate::proofs::FoundLengths::none_found))]
pub fn chain_lengths<C: Cluster>(alloc: Global, cluster: &C) -> Result<Vec<Option<u32>>, Memory>
    ensures lengths { IfOk result (λ lengths. AreLengths (C.world cluster.now) lengths.items) }
    ensures few { IfOk result (λ lengths. length lengths.items ≤ MAX_NODES) }
{
    let mut lengths = vec![in alloc; None; cluster.nodes() as usize]?;
    find_lengths(cluster, &mut lengths);
    Ok(lengths)
}

/// Finds the lengths of all true chains.
fn find_lengths<C: Cluster>(cluster: &C, lengths: &mut [Option<u32>])
    requires { AreFound (C.world cluster.now) lengths.old }
    ensures { AreLengths (C.world cluster.now) lengths.new }
{
    for number in 1..cluster.nodes() + 1 {
        find_length(cluster, lengths, NodeId(number));
    }
}

/// Finds the length of a node's true chain, and those of the nodes on its way up.
fn find_length<C: Cluster>(cluster: &C, lengths: &mut [Option<u32>], node: NodeId)
    requires node { IsNodeOf (C.world cluster.now) node }
    requires few { length lengths.old ≤ MAX_NODES }
    requires found { AreFound (C.world cluster.now) lengths.old }
    ensures found { AreFound (C.world cluster.now) lengths.new }
    ensures known { KeepKnown lengths.old lengths.new }
    ensures here { IsKnown lengths.new node }
{
    let way = climb(cluster, lengths, node);
    note_way(cluster, lengths, node, way);
}

/// A way up from a node, which ends at the first node with a known length.
#[derive(Clone, Copy)]
struct WayUp {
    /// The number of its links.
    steps: u32,
    /// The length of the true chain of its last node.
    length: u32,
}

/// Climbs from a node up to the first one whose length is known. It notes each node on the way as one without a
/// chain, which is right if the way comes back to it.
fn climb<C: Cluster>(cluster: &C, lengths: &mut [Option<u32>], node: NodeId) -> WayUp
    requires node { IsNodeOf (C.world cluster.now) node }
    requires few { length lengths.old ≤ MAX_NODES }
    requires found { AreFound (C.world cluster.now) lengths.old }
    ensures top { EndsAt (C.world cluster.now) node result.steps result.length }
    ensures steps { result.steps ≤ MAX_NODES }
    ensures found { AreFoundBut (C.world cluster.now) result.steps node lengths.new }
    ensures known { KeepKnown lengths.old lengths.new }
    ensures here { IsKnown lengths.new node }
{
    let mut place = node;
    let mut steps = 0;
    'up: loop {
        if let Some(length) = found_of(lengths, place) {
            return WayUp { steps, length };
        }
        let length = length_alone(cluster, place);
        lengths[place.index()] = Some(length);
        match parent_of(cluster, place) {
            Some(parent) => {
                place = parent;
                steps += 1;
            }
            None => return WayUp { steps, length },
        }
    }
}

/// Notes the length of the true chain of each node on a way up, if there is a chain.
fn note_way<C: Cluster>(cluster: &C, lengths: &mut [Option<u32>], node: NodeId, way: WayUp)
    requires node { IsNodeOf (C.world cluster.now) node }
    requires few { length lengths.old ≤ MAX_NODES }
    requires top { EndsAt (C.world cluster.now) node way.steps way.length }
    requires steps { way.steps ≤ MAX_NODES }
    requires found { AreFoundBut (C.world cluster.now) way.steps node lengths.old }
    ensures found { AreFound (C.world cluster.now) lengths.new }
    ensures known { KeepKnown lengths.old lengths.new }
{
    if way.length == 0 {
        return;
    }
    let mut place = node;
    let mut left = way.steps;
    'up: while left > 0 {
        let Some(parent) = parent_of(cluster, place) else {
            return;
        };
        lengths[place.index()] = Some(way.length + left);
        place = parent;
        left -= 1;
    }
}
