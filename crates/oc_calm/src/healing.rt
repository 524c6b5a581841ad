//! Heal: every node that is up joins one tree, which then settles.

ghost use Rattle.std.specs.Prelude.{◌≡◌, ◌-◌, OnOk, OnErr, IfOk, IfSome};
ghost use Rattle.std.specs.List.{list_all, AllByRecursion};
ghost use Rattle.oc_base.specs.declared.limits.TheConstants.{LAST_SECOND};
ghost use Rattle.oc_calm.specs.CalmRuns.{heal_run, leader_of, room_of};
ghost use Rattle.oc_calm.specs.Cluster.{IsUpNode, IsRoll, UpAreBefore};
ghost use Rattle.oc_calm.specs.Timely.{AreTimely};
ghost use Rattle.oc_calm.specs.Way.{Begins, Plays, acts_of, IsOnTheWay};
ghost use Rattle.oc_model.specs.Heal.{epoch_in};
ghost use Rattle.oc_model.specs.NextWorld.{next_world, word_of, heal_acts};
ghost use Rattle.oc_model.specs.declared.event.Event.TheVariants.{Heal};

use crate::Cluster;
use crate::first_steps::five_steps;
use crate::joining::{all_join, rise};
use crate::rounds::roll;
use crate::settling::play_settle;
use oc_base::{Memory, NodeId, Rank};
use oc_model::Word;
use std::alloc::Global;

/// The greatest ask number from which a node can still make 64 asks.
const MOST_SEQ: u64 = u64::MAX - 64;

/// The greatest epoch over which a root can still rise 8,192 times.
const MOST_EPOCH: u64 = u64::MAX - 8_192;

/// Joins all nodes that are up into one tree and settles it; answers `Healed` with the number of its acts, or
/// `Unready` exactly if the world is not able, and then it plays no act. No clock of a node that is up
/// may be in its last minute. If memory runs out, a prefix of the acts was played.
pub fn heal<C: Cluster>(alloc: Global, cluster: &mut C) -> Result<Word, Memory>
    requires { UpAreBefore (LAST_SECOND - 60) (C.world cluster.old) }
    ensures word { IfOk result (λ word. word ≡ word_of (C.world cluster.old) Heal) }
    ensures world { OnOk result (C.world cluster.new ≡ next_world (C.world cluster.old) Heal) }
    ensures err { OnErr result (IsOnTheWay (acts_of (heal_acts (C.world cluster.old))) (C.world cluster.old) (C.world cluster.new)) }
{
    let up = roll(alloc, cluster)?;
    let Some(leader) = first_member(cluster, &up) else {
        return Ok(Word::Unready);
    };
    if !all_have_room(cluster, &up) {
        return Ok(Word::Unready);
    }
    let mut acts = 0;
    play_heal(alloc, cluster, &up, leader, &mut acts)?;
    Ok(Word::Healed(acts))
}

/// The chain member with the least id among these nodes, which are up.
fn first_member<C: Cluster>(cluster: &C, up: &[NodeId]) -> Option<NodeId>
    requires { IsRoll (C.world cluster.now) up.now }
    ensures leader { result ≡ leader_of (C.world cluster.now) }
    ensures node { IfSome result (IsUpNode (C.world cluster.now)) }
{
    let chain = cluster.chain();
    for node in up {
        if node.0 <= chain {
            return Some(*node);
        }
    }
    None
}

/// Whether the ask numbers and epochs of these nodes are far enough from their ends.
fn all_have_room<C: Cluster>(cluster: &C, nodes: &[NodeId]) -> bool
    requires { AllByRecursion (IsUpNode (C.world cluster.now)) nodes.now }
    ensures { result ≡ list_all (room_of (C.world cluster.now)) nodes.now }
{
    for node in nodes {
        if !has_room(cluster, *node) {
            return false;
        }
    }
    true
}

/// Whether a node's ask number and epoch are far enough from their ends.
#[tactic(auto, unfolding(crate::specs::CalmRuns::room_of))]
fn has_room<C: Cluster>(cluster: &C, node: NodeId) -> bool
    requires { IsUpNode (C.world cluster.now) node }
    ensures { result ≡ room_of (C.world cluster.now) node }
{
    cluster.seq(node) <= MOST_SEQ && epoch_in(cluster.rank(node)) <= MOST_EPOCH
}

/// The epoch of a rank; 0 without a rank.
fn epoch_in(rank: Option<Rank>) -> u64
    ensures { result ≡ epoch_in rank }
{
    match rank {
        Some(rank) => rank.epoch,
        None => 0,
    }
}

/// Plays all steps of heal under this leader. `up` are the nodes that are up.
fn play_heal<C: Cluster>(
    alloc: Global,
    cluster: &mut C,
    up: &[NodeId],
    leader: NodeId,
    acts: &mut u64,
) -> Result<(), Memory>
    requires up { IsRoll (C.world cluster.old) up.now }
    requires leader { IsUpNode (C.world cluster.old) leader }
    requires time { AreTimely (heal_run leader (C.world cluster.old)).acts }
    ensures ok { OnOk result (Plays (heal_run leader) (C.world cluster.old) (C.world cluster.new) acts.old acts.new) }
    ensures err { OnErr result (Begins (heal_run leader) (C.world cluster.old) (C.world cluster.new)) }
{
    rise(cluster, leader, acts)?;
    five_steps(cluster, up, acts)?;
    all_join(alloc, cluster, up, leader, acts)?;
    play_settle(alloc, cluster, up, acts)
}
