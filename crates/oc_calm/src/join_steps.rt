//! The steps in which a node joins a chain member after an ask at the leader.

ghost use Rattle.std.specs.Prelude.{OnOk, OnErr};
ghost use Rattle.oc_calm.specs.Cluster.{IsNodeOf};
ghost use Rattle.oc_calm.specs.Played.{join_by_run, rank_run};
ghost use Rattle.oc_calm.specs.Way.{Begins, Plays};

use crate::Cluster;
use crate::playing::{ask, join, play};
use crate::rounds::each_checks_in;
use crate::tree::below;
use oc_base::{Memory, NodeId};
use oc_model::{Act, Input};
use std::alloc::Global;

/// A node joins another one after an ask at the leader, which may raise the leader's rank: the leader tells its rank
/// down to the other node, and then the node asks there.
pub fn join_by<C: Cluster>(
    alloc: Global,
    cluster: &mut C,
    leader: NodeId,
    peer: NodeId,
    node: NodeId,
    acts: &mut u64,
) -> Result<(), Memory>
    requires leader { IsNodeOf (C.world cluster.old) leader }
    requires peer { IsNodeOf (C.world cluster.old) peer }
    requires node { IsNodeOf (C.world cluster.old) node }
    ensures ok { OnOk result (Plays (join_by_run leader peer node) (C.world cluster.old) (C.world cluster.new) acts.old acts.new) }
    ensures err { OnErr result (Begins (join_by_run leader peer node) (C.world cluster.old) (C.world cluster.new)) }
{
    ask(cluster, leader, node, acts)?;
    tell_rank(alloc, cluster, leader, peer, acts)?;
    join(cluster, peer, node, acts)
}

/// The leader tells its rank down to a node: by a check of its own, and then by a check-in of each node on the way
/// down, the last of them that node.
fn tell_rank<C: Cluster>(
    alloc: Global,
    cluster: &mut C,
    leader: NodeId,
    node: NodeId,
    acts: &mut u64,
) -> Result<(), Memory>
    requires leader { IsNodeOf (C.world cluster.old) leader }
    requires node { IsNodeOf (C.world cluster.old) node }
    ensures ok { OnOk result (Plays (rank_run leader node) (C.world cluster.old) (C.world cluster.new) acts.old acts.new) }
    ensures err { OnErr result (Begins (rank_run leader node) (C.world cluster.old) (C.world cluster.new)) }
{
    play(
        cluster,
        &Act::At {
            node: leader,
            input: Input::CheckNow,
        },
        acts,
    )?;
    let nodes = below(alloc, cluster, leader, node)?;
    each_checks_in(cluster, &nodes, acts)
}
