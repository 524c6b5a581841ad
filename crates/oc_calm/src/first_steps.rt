//! The end of all leases that are not current.

ghost use Rattle.std.specs.Prelude.{OnOk, OnErr};
ghost use Rattle.oc_calm.specs.Cluster.{IsRoll};
ghost use Rattle.oc_calm.specs.Played.{five_run};
ghost use Rattle.oc_calm.specs.Timely.{AreTimely};
ghost use Rattle.oc_calm.specs.Way.{Begins, Plays};

use crate::Cluster;
use crate::rounds::{all_check_in, all_tick};
use oc_base::{Memory, NodeId};

/// The seconds by which each of the last two rounds of ticks goes on: half the duration of a lease.
const PAUSE: u64 = 15;

/// Plays the first five steps of settle, in which each lease that is not current ends: all nodes tick at their
/// present second, check in, tick 15 seconds later, check in, and tick another 15 seconds later.
pub fn five_steps<C: Cluster>(cluster: &mut C, up: &[NodeId], acts: &mut u64) -> Result<(), Memory>
    requires up { IsRoll (C.world cluster.old) up.now }
    requires time { AreTimely (five_run (C.world cluster.old)).acts }
    ensures ok { OnOk result (Plays five_run (C.world cluster.old) (C.world cluster.new) acts.old acts.new) }
    ensures err { OnErr result (Begins five_run (C.world cluster.old) (C.world cluster.new)) }
{
    all_tick(cluster, up, 0, acts)?;
    all_check_in(cluster, up, acts)?;
    all_tick(cluster, up, PAUSE, acts)?;
    all_check_in(cluster, up, acts)?;
    all_tick(cluster, up, PAUSE, acts)
}
