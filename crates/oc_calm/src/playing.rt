//! Single acts, and small groups of them. Each call adds its acts to a count; if memory runs out, the count may
//! have any value.

ghost use Rattle.std.specs.Prelude.{◌≡◌, ◌+◌, OnOk, OnErr, IfOk};
ghost use Rattle.oc_calm.specs.Cluster.{IsNodeOf, IsStepOf, IsUpNode};
ghost use Rattle.oc_calm.specs.Played.{act_run, ack_run, check_in_run, delivery_run, joined_run, tick_run, ask_run, join_run};
ghost use Rattle.oc_calm.specs.Timely.{AreTimely};
ghost use Rattle.oc_calm.specs.Way.{Begins, Plays};

use crate::Cluster;
use oc_base::{Memory, NodeId};
use oc_model::{Act, Input, Mode};

/// Plays one act. It answers `Memory` also if the count is at its greatest value.
pub fn play<C: Cluster>(cluster: &mut C, act: &Act, acts: &mut u64) -> Result<(), Memory>
    requires { IsStepOf (C.world cluster.old) act.now }
    ensures ok { OnOk result (Plays (act_run act.now) (C.world cluster.old) (C.world cluster.new) acts.old acts.new) }
    ensures err { OnErr result (Begins (act_run act.now) (C.world cluster.old) (C.world cluster.new)) }
{
    let next = one_more(*acts)?;
    cluster.act(act)?;
    *acts = next;
    Ok(())
}

/// The next number; `Memory` after the greatest one.
fn one_more(count: u64) -> Result<u64, Memory>
    ensures { IfOk result (λ next. next ≡ count + 1) }
{
    count.checked_add(1).ok_or(Memory)
}

/// Moves the clock of a node on by this number of seconds.
pub(crate) fn tick<C: Cluster>(
    cluster: &mut C,
    node: NodeId,
    more: u64,
    acts: &mut u64,
) -> Result<(), Memory>
    requires node { IsUpNode (C.world cluster.old) node }
    requires time { AreTimely (tick_run more node (C.world cluster.old)).acts }
    ensures ok { OnOk result (Plays (tick_run more node) (C.world cluster.old) (C.world cluster.new) acts.old acts.new) }
    ensures err { OnErr result (Begins (tick_run more node) (C.world cluster.old) (C.world cluster.new)) }
{
    let now = cluster.clock(node) + more;
    play(
        cluster,
        &Act::At {
            node,
            input: Input::Tick(now),
        },
        acts,
    )
}

/// Delivers the message that was sent last.
pub fn deliver_last<C: Cluster>(cluster: &mut C, acts: &mut u64) -> Result<(), Memory>
    ensures ok { OnOk result (Plays delivery_run (C.world cluster.old) (C.world cluster.new) acts.old acts.new) }
    ensures err { OnErr result (Begins delivery_run (C.world cluster.old) (C.world cluster.new)) }
{
    let number = cluster.sent();
    play(cluster, &Act::Deliver { number }, acts)
}

/// Delivers the message that was sent last, if it acknowledges a check-in.
fn deliver_ack<C: Cluster>(cluster: &mut C, acts: &mut u64) -> Result<(), Memory>
    ensures ok { OnOk result (Plays ack_run (C.world cluster.old) (C.world cluster.new) acts.old acts.new) }
    ensures err { OnErr result (Begins ack_run (C.world cluster.old) (C.world cluster.new)) }
{
    if cluster.last_is_ack() {
        deliver_last(cluster, acts)?;
    }
    Ok(())
}

/// Plays a check-in of a node: its check, the delivery of the check-in, and the delivery of the acknowledgement.
pub fn check_in<C: Cluster>(cluster: &mut C, node: NodeId, acts: &mut u64) -> Result<(), Memory>
    requires { IsNodeOf (C.world cluster.old) node }
    ensures ok { OnOk result (Plays (check_in_run node) (C.world cluster.old) (C.world cluster.new) acts.old acts.new) }
    ensures err { OnErr result (Begins (check_in_run node) (C.world cluster.old) (C.world cluster.new)) }
{
    play(
        cluster,
        &Act::At {
            node,
            input: Input::CheckNow,
        },
        acts,
    )?;
    deliver_last(cluster, acts)?;
    deliver_ack(cluster, acts)
}

/// Plays a check-in of a node, if the node is joined.
pub(crate) fn check_in_if_joined<C: Cluster>(
    cluster: &mut C,
    node: NodeId,
    acts: &mut u64,
) -> Result<(), Memory>
    requires { IsUpNode (C.world cluster.old) node }
    ensures ok { OnOk result (Plays (joined_run node) (C.world cluster.old) (C.world cluster.new) acts.old acts.new) }
    ensures err { OnErr result (Begins (joined_run node) (C.world cluster.old) (C.world cluster.new)) }
{
    match cluster.mode(node) {
        Mode::Joined(_) => check_in(cluster, node, acts),
        _ => Ok(()),
    }
}

/// Makes a node ask another one to be its parent, and delivers the ask.
pub fn ask<C: Cluster>(
    cluster: &mut C,
    peer: NodeId,
    node: NodeId,
    acts: &mut u64,
) -> Result<(), Memory>
    requires peer { IsNodeOf (C.world cluster.old) peer }
    requires node { IsNodeOf (C.world cluster.old) node }
    ensures ok { OnOk result (Plays (ask_run peer node) (C.world cluster.old) (C.world cluster.new) acts.old acts.new) }
    ensures err { OnErr result (Begins (ask_run peer node) (C.world cluster.old) (C.world cluster.new)) }
{
    play(
        cluster,
        &Act::At {
            node,
            input: Input::Relocate(peer),
        },
        acts,
    )?;
    deliver_last(cluster, acts)
}

/// Makes a node ask another one to be its parent, and delivers the ask and the answer.
pub fn join<C: Cluster>(
    cluster: &mut C,
    peer: NodeId,
    node: NodeId,
    acts: &mut u64,
) -> Result<(), Memory>
    requires peer { IsNodeOf (C.world cluster.old) peer }
    requires node { IsNodeOf (C.world cluster.old) node }
    ensures ok { OnOk result (Plays (join_run peer node) (C.world cluster.old) (C.world cluster.new) acts.old acts.new) }
    ensures err { OnErr result (Begins (join_run peer node) (C.world cluster.old) (C.world cluster.new)) }
{
    ask(cluster, peer, node, acts)?;
    deliver_last(cluster, acts)
}
