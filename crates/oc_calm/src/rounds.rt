//! Acts of many nodes, one after another. Each call adds its acts to a count; if memory runs out, the count may
//! have any value.

ghost use Rattle.std.specs.Prelude.{OnOk, OnErr, IfOk};
ghost use Rattle.std.specs.List.{AllByRecursion};
ghost use Rattle.oc_calm.specs.Cluster.{IsNodeOf, IsRoll};
ghost use Rattle.oc_calm.specs.Played.{check_in_run, check_ins_run, ticks_run};
ghost use Rattle.oc_calm.specs.Timely.{AreTimely};
ghost use Rattle.oc_calm.specs.Way.{Begins, Plays};
ghost use Rattle.oc_model.specs.Runs.{for_each};

use crate::Cluster;
use crate::playing::{check_in, check_in_if_joined, tick};
use oc_base::{Memory, NodeId};
use std::alloc::Global;

/// The nodes that are up, ascending.
pub fn roll<C: Cluster>(alloc: Global, cluster: &C) -> Result<Vec<NodeId>, Memory>
    ensures { IfOk result (λ up. IsRoll (C.world cluster.now) up.items) }
{
    let mut up = Vec::new(alloc);
    for number in 1..cluster.nodes() + 1 {
        if cluster.is_up(NodeId(number)) {
            up.push(NodeId(number))?;
        }
    }
    Ok(up)
}

/// Moves the clock of each node that is up on by this number of seconds.
pub fn all_tick<C: Cluster>(
    cluster: &mut C,
    up: &[NodeId],
    more: u64,
    acts: &mut u64,
) -> Result<(), Memory>
    requires up { IsRoll (C.world cluster.old) up.now }
    requires time { AreTimely (ticks_run more (C.world cluster.old)).acts }
    ensures ok { OnOk result (Plays (ticks_run more) (C.world cluster.old) (C.world cluster.new) acts.old acts.new) }
    ensures err { OnErr result (Begins (ticks_run more) (C.world cluster.old) (C.world cluster.new)) }
{
    for node in up {
        tick(cluster, *node, more, acts)?;
    }
    Ok(())
}

/// Plays a check-in of each node that is up and joined.
pub fn all_check_in<C: Cluster>(
    cluster: &mut C,
    up: &[NodeId],
    acts: &mut u64,
) -> Result<(), Memory>
    requires { IsRoll (C.world cluster.old) up.now }
    ensures ok { OnOk result (Plays check_ins_run (C.world cluster.old) (C.world cluster.new) acts.old acts.new) }
    ensures err { OnErr result (Begins check_ins_run (C.world cluster.old) (C.world cluster.new)) }
{
    for node in up {
        check_in_if_joined(cluster, *node, acts)?;
    }
    Ok(())
}

/// Plays a check-in of each of these nodes.
pub fn each_checks_in<C: Cluster>(
    cluster: &mut C,
    nodes: &[NodeId],
    acts: &mut u64,
) -> Result<(), Memory>
    requires { AllByRecursion (IsNodeOf (C.world cluster.old)) nodes.now }
    ensures ok { OnOk result (Plays (for_each nodes.now check_in_run) (C.world cluster.old) (C.world cluster.new) acts.old acts.new) }
    ensures err { OnErr result (Begins (for_each nodes.now check_in_run) (C.world cluster.old) (C.world cluster.new)) }
{
    for node in nodes {
        check_in(cluster, *node, acts)?;
    }
    Ok(())
}
