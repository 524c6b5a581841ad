//! Settle: all nodes that are up check in and renew their leases until nothing waits.

ghost use Rattle.std.specs.Prelude.{◌≡◌, ◌≤◌, ◌-◌, ◌++◌, length, OnOk, OnErr, IfOk, filter};
ghost use Rattle.std.specs.List.{AllByRecursion};
ghost use Rattle.oc_base.specs.Lawful.{IsNode};
ghost use Rattle.oc_base.specs.declared.limits.TheConstants.{MAX_NODES, LAST_SECOND};
ghost use Rattle.oc_calm.specs.CalmRuns.{deepest_nodes, settle_run, telling_run, tellings_run};
ghost use Rattle.oc_calm.specs.Longest.{greatest_length, has_found, longest_first};
ghost use Rattle.oc_calm.specs.Cluster.{IsUpNode, IsRoll, UpAreBefore};
ghost use Rattle.oc_calm.specs.Timely.{AreTimely};
ghost use Rattle.oc_calm.specs.Way.{Begins, Plays, acts_of, IsOnTheWay};
ghost use Rattle.oc_model.specs.NextWorld.{next_world, settle_acts, word_of};
ghost use Rattle.oc_model.specs.declared.event.Event.TheVariants.{Settle};

use crate::Cluster;
use crate::first_steps::five_steps;
use crate::lengths::chain_lengths;
use crate::playing::check_in;
use crate::readiness::is_ready;
use crate::rounds::roll;
use oc_base::{Memory, NodeId};
use oc_model::Word;
use std::alloc::Global;

/// Settles a world that is ready; answers `Settled` with the number of its acts, or `Unready` exactly if the
/// world is not ready, and then it plays no act. No clock of a node that is up
/// may be in its last minute. If memory runs out, a prefix of the acts was played.
pub fn settle<C: Cluster>(alloc: Global, cluster: &mut C) -> Result<Word, Memory>
    requires { UpAreBefore (LAST_SECOND - 60) (C.world cluster.old) }
    ensures word { IfOk result (λ word. word ≡ word_of (C.world cluster.old) Settle) }
    ensures world { OnOk result (C.world cluster.new ≡ next_world (C.world cluster.old) Settle) }
    ensures err { OnErr result (IsOnTheWay (acts_of (settle_acts (C.world cluster.old))) (C.world cluster.old) (C.world cluster.new)) }
{
    let up = roll(alloc, cluster)?;
    let lengths = chain_lengths(alloc, cluster)?;
    if !is_ready(cluster, Some(lengths.as_slice())) {
        return Ok(Word::Unready);
    }
    let mut acts = 0;
    play_settle(alloc, cluster, &up, &mut acts)?;
    Ok(Word::Settled(acts))
}

/// Plays all steps of settle, also in a world that is not ready. `up` are the nodes that are up.
pub(crate) fn play_settle<C: Cluster>(
    alloc: Global,
    cluster: &mut C,
    up: &[NodeId],
    acts: &mut u64,
) -> Result<(), Memory>
    requires up { IsRoll (C.world cluster.old) up.now }
    requires time { AreTimely (settle_run (C.world cluster.old)).acts }
    ensures ok { OnOk result (Plays settle_run (C.world cluster.old) (C.world cluster.new) acts.old acts.new) }
    ensures err { OnErr result (Begins settle_run (C.world cluster.old) (C.world cluster.new)) }
{
    five_steps(cluster, up, acts)?;
    all_tell(alloc, cluster, up, acts)
}

/// Makes each node that is up tell all that waits, those with longer true chains first.
fn all_tell<C: Cluster>(
    alloc: Global,
    cluster: &mut C,
    up: &[NodeId],
    acts: &mut u64,
) -> Result<(), Memory>
    requires { IsRoll (C.world cluster.old) up.now }
    ensures ok { OnOk result (Plays tellings_run (C.world cluster.old) (C.world cluster.new) acts.old acts.new) }
    ensures err { OnErr result (Begins tellings_run (C.world cluster.old) (C.world cluster.new)) }
{
    let lengths = chain_lengths(alloc, cluster)?;
    let nodes = sorted_by_length(alloc, up, &lengths)?;
    each_tells(cluster, &nodes, acts)
}

/// Makes each of these nodes tell all that waits.
fn each_tells<C: Cluster>(cluster: &mut C, nodes: &[NodeId], acts: &mut u64) -> Result<(), Memory>
    requires order { nodes.now ≡ deepest_nodes (C.world cluster.old) }
    requires nodes { AllByRecursion (IsUpNode (C.world cluster.old)) nodes.now }
    ensures ok { OnOk result (Plays tellings_run (C.world cluster.old) (C.world cluster.new) acts.old acts.new) }
    ensures err { OnErr result (Begins tellings_run (C.world cluster.old) (C.world cluster.new)) }
{
    for node in nodes {
        tell_all(cluster, *node, acts)?;
    }
    Ok(())
}

/// Plays check-ins of a node while something waits there. Each check-in tells at least one certificate, so there are
/// at most as many check-ins as certificates that wait at first.
fn tell_all<C: Cluster>(cluster: &mut C, node: NodeId, acts: &mut u64) -> Result<(), Memory>
    requires { IsUpNode (C.world cluster.old) node }
    ensures ok { OnOk result (Plays (telling_run node) (C.world cluster.old) (C.world cluster.new) acts.old acts.new) }
    ensures err { OnErr result (Begins (telling_run node) (C.world cluster.old) (C.world cluster.new)) }
{
    let most = cluster.waiting(node);
    'telling: for _ in 0..most {
        if cluster.waiting(node) == 0 {
            return Ok(());
        }
        check_in(cluster, node, acts)?;
    }
    Ok(())
}

/// The nodes of this list with a known length above 0, the longest first; nodes of the same length keep their
/// order.
fn sorted_by_length(
    alloc: Global,
    nodes: &[NodeId],
    lengths: &[Option<u32>],
) -> Result<Vec<NodeId>, Memory>
    requires nodes { AllByRecursion (IsNode (length lengths.now)) nodes.now }
    requires few { length lengths.now ≤ MAX_NODES }
    ensures { IfOk result (λ sorted. sorted.items ≡ longest_first lengths.now nodes.now (length lengths.now)) }
{
    let mut sorted = Vec::new(alloc);
    let mut length = greatest_of(lengths).min(lengths.len() as u32);
    'levels: while length > 0 {
        push_of_length(&mut sorted, nodes, lengths, length)?;
        length -= 1;
    }
    Ok(sorted)
}

/// The greatest of these lengths; 0 if none is known.
fn greatest_of(lengths: &[Option<u32>]) -> u32
    ensures { result ≡ greatest_length lengths.now }
{
    let mut greatest: u32 = 0;
    for found in lengths {
        greatest = greatest.max(found.unwrap_or(0));
    }
    greatest
}

/// Adds the nodes of this list with this length at the end.
fn push_of_length(
    sorted: &mut Vec<NodeId>,
    nodes: &[NodeId],
    lengths: &[Option<u32>],
    wanted: u32,
) -> Result<(), Memory>
    requires { AllByRecursion (IsNode (length lengths.now)) nodes.now }
    ensures { OnOk result (sorted.new.items ≡ sorted.old.items ++ filter (has_found lengths.now wanted) nodes.now) }
{
    for node in nodes {
        if has_found(lengths, *node, wanted) {
            sorted.push(*node)?;
        }
    }
    Ok(())
}

/// Whether a node has this length.
#[tactic(auto, unfolding(crate::specs::Longest::has_found))]
fn has_found(lengths: &[Option<u32>], node: NodeId, wanted: u32) -> bool
    requires { IsNode (length lengths.now) node }
    ensures { result ≡ has_found lengths.now wanted node }
{
    match lengths[node.index()] {
        Some(found) => found == wanted,
        None => false,
    }
}
