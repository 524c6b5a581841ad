//! The steps in which nodes come into one tree: the leader rises, and each other node that is up joins a chain member.

ghost use Rattle.std.specs.Prelude.{◌≡◌, ◌≤◌, length, OnOk, OnErr, IfOk, filter, nat_lt};
ghost use Rattle.std.specs.List.{AllByRecursion};
ghost use Rattle.oc_calm.specs.CalmRuns.{greatest_up, member_below, joiners, place_run, places_run, rise_once_run, rise_run};
ghost use Rattle.oc_calm.specs.Cluster.{IsNodeOf, IsUpNode, IsNumbered, IsRoll};
ghost use Rattle.oc_calm.specs.Placed.{ArePlaced};
ghost use Rattle.oc_calm.specs.Way.{Begins, Plays};
ghost use Rattle.oc_model.specs.World.{ids};

use crate::Cluster;
use crate::join_steps::join_by;
use crate::placing::{forget, is_placed, none_known};
use crate::playing::{join, play};
use oc_base::{Memory, NodeId};
use oc_model::{Act, Input, Mode};
use std::alloc::Global;

/// Makes the leader the root. It asks each earlier chain member at most twice.
pub(crate) fn rise<C: Cluster>(
    cluster: &mut C,
    leader: NodeId,
    acts: &mut u64,
) -> Result<(), Memory>
    requires { IsUpNode (C.world cluster.old) leader }
    ensures ok { OnOk result (Plays (rise_run leader) (C.world cluster.old) (C.world cluster.new) acts.old acts.new) }
    ensures err { OnErr result (Begins (rise_run leader) (C.world cluster.old) (C.world cluster.new)) }
{
    'rising: for _ in 0..2 * u64::from(leader.0) {
        if cluster.mode(leader).is_acting() {
            return Ok(());
        }
        rise_once(cluster, leader, acts)?;
    }
    Ok(())
}

/// One act towards the root's place: an idle leader checks, and any other is told that its peer is unreachable.
fn rise_once<C: Cluster>(cluster: &mut C, leader: NodeId, acts: &mut u64) -> Result<(), Memory>
    requires { IsUpNode (C.world cluster.old) leader }
    ensures ok { OnOk result (Plays (rise_once_run leader) (C.world cluster.old) (C.world cluster.new) acts.old acts.new) }
    ensures err { OnErr result (Begins (rise_once_run leader) (C.world cluster.old) (C.world cluster.new)) }
{
    match cluster.mode(leader) {
        Mode::Idle => play(
            cluster,
            &Act::At {
                node: leader,
                input: Input::CheckNow,
            },
            acts,
        ),
        Mode::Asking(peer) => play(
            cluster,
            &Act::At {
                node: leader,
                input: Input::Unreachable(peer),
            },
            acts,
        ),
        Mode::Joined(peer) => play(
            cluster,
            &Act::At {
                node: leader,
                input: Input::Unreachable(peer),
            },
            acts,
        ),
        Mode::Acting => Ok(()),
    }
}

/// Each chain member that is up and past the leader, and then each node that is up and past the chain,
/// joins unless it is in place when its turn comes. The leader is a chain member, so these are all nodes
/// past it.
pub(crate) fn all_join<C: Cluster>(
    alloc: Global,
    cluster: &mut C,
    up: &[NodeId],
    leader: NodeId,
    acts: &mut u64,
) -> Result<(), Memory>
    requires up { IsRoll (C.world cluster.old) up.now }
    requires leader { IsNodeOf (C.world cluster.old) leader }
    ensures ok { OnOk result (Plays (places_run leader) (C.world cluster.old) (C.world cluster.new) acts.old acts.new) }
    ensures err { OnErr result (Begins (places_run leader) (C.world cluster.old) (C.world cluster.new)) }
{
    let nodes = past(alloc, up, leader.0.min(cluster.chain()))?;
    let mut known = none_known(alloc, cluster.nodes())?;
    each_joins(alloc, cluster, &nodes, &mut known, leader, acts)
}

/// The nodes of this list with ids past a number.
fn past(alloc: Global, nodes: &[NodeId], number: u32) -> Result<Vec<NodeId>, Memory>
    ensures { IfOk result (λ past. past.items ≡ filter (nat_lt number) nodes.now) }
{
    let mut past = Vec::new(alloc);
    for node in nodes {
        if number < node.0 {
            past.push(*node)?;
        }
    }
    Ok(past)
}

/// Each of these nodes joins, unless it is in place when its turn comes.
fn each_joins<C: Cluster>(
    alloc: Global,
    cluster: &mut C,
    nodes: &[NodeId],
    known: &mut [bool],
    leader: NodeId,
    acts: &mut u64,
) -> Result<(), Memory>
    requires ids { IsNumbered (C.world cluster.old) }
    requires order { nodes.now ≡ joiners leader (C.world cluster.old) }
    requires nodes { AllByRecursion (IsNodeOf (C.world cluster.old)) nodes.now }
    requires leader { IsNodeOf (C.world cluster.old) leader }
    requires known { ArePlaced (C.world cluster.old) leader known.old }
    ensures ok { OnOk result (Plays (places_run leader) (C.world cluster.old) (C.world cluster.new) acts.old acts.new) }
    ensures err { OnErr result (Begins (places_run leader) (C.world cluster.old) (C.world cluster.new)) }
{
    for node in nodes {
        place(alloc, cluster, known, leader, *node, acts)?;
    }
    Ok(())
}

/// Makes a node that is not in place join the chain member before it. Then no node is known to be in place.
fn place<C: Cluster>(
    alloc: Global,
    cluster: &mut C,
    known: &mut [bool],
    leader: NodeId,
    node: NodeId,
    acts: &mut u64,
) -> Result<(), Memory>
    requires ids { IsNumbered (C.world cluster.old) }
    requires leader { IsNodeOf (C.world cluster.old) leader }
    requires node { IsNodeOf (C.world cluster.old) node }
    requires known { ArePlaced (C.world cluster.old) leader known.old }
    ensures ok { OnOk result (Plays (place_run leader node) (C.world cluster.old) (C.world cluster.new) acts.old acts.new) }
    ensures known { OnOk result (ArePlaced (C.world cluster.new) leader known.new) }
    ensures err { OnErr result (Begins (place_run leader node) (C.world cluster.old) (C.world cluster.new)) }
{
    if is_placed(cluster, known, leader, node) {
        return Ok(());
    }
    forget(known);
    let parent = member_before(cluster, leader, node);
    if parent == leader {
        join(cluster, leader, node, acts)
    } else {
        join_by(alloc, cluster, leader, parent, node, acts)
    }
}

/// The greatest chain member that is up and has a smaller id than a node; the leader if there is none.
fn member_before<C: Cluster>(cluster: &C, leader: NodeId, node: NodeId) -> NodeId
    requires ids { IsNumbered (C.world cluster.now) }
    requires leader { IsNodeOf (C.world cluster.now) leader }
    requires node { IsNodeOf (C.world cluster.now) node }
    ensures member { result ≡ member_below (C.world cluster.now) leader node }
    ensures node { IsNodeOf (C.world cluster.now) result }
{
    last_up(cluster, leader, (node.0 - 1).min(cluster.chain()))
}

/// The node with the greatest id up to this number that is up; the leader if there is none.
fn last_up<C: Cluster>(cluster: &C, leader: NodeId, most: u32) -> NodeId
    requires leader { IsNodeOf (C.world cluster.now) leader }
    requires most { most ≤ length (ids (C.world cluster.now)) }
    ensures greatest { result ≡ greatest_up (C.world cluster.now) leader most }
    ensures node { IsNodeOf (C.world cluster.now) result }
{
    let mut number = most;
    'down: while number > 0 {
        if cluster.is_up(NodeId(number)) {
            return NodeId(number);
        }
        number -= 1;
    }
    leader
}
