//! A run of events on a stage, with a summary of its last world.

ghost use Rattle.std.specs.Prelude.{◌≡◌, ◌+◌, ◌<◌, ◌≤◌, [], ◌++◌, length, OnOk, IfOk, IsErrOf};
ghost use Rattle.std.specs.List.{range_with_len};
ghost use Rattle.oc_base.specs.Lawful.{IsNode};
ghost use Rattle.oc_base.specs.declared.limits.TheConstants.{MAX_NODES};
ghost use Rattle.oc_model.specs.NextWorld.{world_after};
ghost use Rattle.oc_model.specs.World.{ids};
ghost use Rattle.oc_model.specs.WorldBounds.{IsWithinLimits};
ghost use Rattle.oc_io.specs.Faults.{NoFall, Rose};
ghost use Rattle.oc_replay.specs.Opening.{IsOpening};
ghost use Rattle.oc_replay.specs.Pieces.{SomeFront};
ghost use Rattle.oc_replay.specs.Summary.{FitsWith, count_line, plus, run_summary, summary_of_tally, summary_text, tally_at, tally_over};

use crate::Stage;
use crate::fault::ReportFault;
use crate::playing::play;
use crate::texts::{put_byte, put_byte_number};
use oc_base::{Memory, NodeId, held_in_all, put};
use oc_io::{Sink, write_all};
use oc_schedule::EventList;
use std::alloc::Global;

/// The counts of some nodes: those that are up, those of them that are joined and that act as root,
/// and the bytes that all of them hold.
#[derive(Clone, Copy, Debug, PartialEq, Eq)]
pub(crate) struct Tally {
    up: u64,
    joined: u64,
    acting: u64,
    bytes: u64,
}

impl Tally {
    /// The counts of no nodes.
    const NONE: Tally = Tally {
        up: 0,
        joined: 0,
        acting: 0,
        bytes: 0,
    };

    /// The counts of these and of other nodes together.
    fn with(self, other: Tally) -> Tally
        requires { FitsWith self other }
        ensures { result ≡ plus self other }
    {
        Tally {
            up: self.up + other.up,
            joined: self.joined + other.joined,
            acting: self.acting + other.acting,
            bytes: self.bytes + other.bytes,
        }
    }
}

/// Plays each event once on the stage, in order, and writes the summary of the last world, in which
/// each of `nodes` nodes is counted.
pub(crate) fn summarize<K: Sink, T: Stage>(
    alloc: Global,
    sink: &mut K,
    stage: &mut T,
    events: &EventList,
    nodes: u32,
) -> Result<(), ReportFault>
    requires opened { IsOpening (T.world stage.old) events.now }
    requires nodes { length (ids (T.world stage.old)) ≡ nodes }
    requires few { nodes ≤ MAX_NODES }

    // The whole summary was taken, and the stage is at the last world.
    ensures told { OnOk result
        (K.takes sink.old (run_summary (T.world stage.old) events.now) sink.new) }
    ensures played { OnOk result (T.world stage.new ≡ world_after (T.world stage.old) events.now) }

    // A prefix of the summary had been taken when a call failed, and the stage is at the last
    // world.
    ensures failed { IsErrOf result ReportFault.Sink
        → SomeFront (run_summary (T.world stage.old) events.now)
        (λ front. K.fails sink.old front sink.new) }
    ensures stopped { IsErrOf result ReportFault.Sink → T.world stage.new ≡ world_after (T.world stage.old) events.now }

    // Nothing was written when memory ran out.
    ensures memory { IsErrOf result ReportFault.Memory → K.takes sink.old [] sink.new }

    ensures count { NoFall (K.faults sink.old) (K.faults sink.new) }
    ensures cause { IsErrOf result ReportFault.Sink → Rose (K.faults sink.old) (K.faults sink.new) }
{
    let text = play_and_sum(alloc, stage, events, nodes)?;
    write_all(sink, &text)?;
    Ok(())
}

/// Plays each event once on the stage, in order, and makes the summary of the last world.
fn play_and_sum<T: Stage>(
    alloc: Global,
    stage: &mut T,
    events: &EventList,
    nodes: u32,
) -> Result<Vec<u8>, Memory>
    requires opened { IsOpening (T.world stage.old) events.now }
    requires nodes { length (ids (T.world stage.old)) ≡ nodes }
    requires few { nodes ≤ MAX_NODES }
    ensures played { OnOk result (T.world stage.new ≡ world_after (T.world stage.old) events.now) }
    ensures text { IfOk result (λ text. text.items ≡ summary_text (length events.now) (T.world stage.new)) }
{
    let sent = play(stage, events)?;
    let tally = tally_all(stage, nodes)?;
    let mut out = Vec::new(alloc);
    put_summary(&mut out, events.len() as u64, sent, &tally)?;
    Ok(out)
}

/// The counts of all nodes.
fn tally_all<T: Stage>(stage: &T, nodes: u32) -> Result<Tally, Memory>
    requires ids { ids (T.world stage.now) ≡ range_with_len 1 nodes }
    requires few { nodes ≤ MAX_NODES }
    requires limits { IsWithinLimits (T.world stage.now) }
    ensures { IfOk result (λ tally. tally ≡ tally_over (T.world stage.now) (ids (T.world stage.now))) }
{
    let mut total = Tally::NONE;
    for id in 1..nodes + 1 {
        total = total.with(tally_at(stage, NodeId(id))?);
    }
    Ok(total)
}

/// The counts of one node.
fn tally_at<T: Stage>(stage: &T, node: NodeId) -> Result<Tally, Memory>
    requires node { IsNode (length (ids (T.world stage.now))) node }
    requires limits { IsWithinLimits (T.world stage.now) }
    ensures { IfOk result (λ tally. tally ≡ tally_at (T.world stage.now) node) }
{
    let status = stage.status(node)?;
    let held = stage.held(node)?;
    Ok(Tally {
        up: u64::from(status.up),
        joined: u64::from(status.up && status.mode.is_joined()),
        acting: u64::from(status.up && status.mode.is_acting()),
        bytes: held_in_all(&held),
    })
}

/// Appends the six lines.
fn put_summary(out: &mut Vec<u8>, events: u64, messages: u64, tally: &Tally) -> Result<(), Memory>
    ensures { OnOk result (out.new.items ≡ out.old.items ++ summary_of_tally events messages tally.now) }
{
    put_count_line(out, "events", events)?;
    put_count_line(out, "messages", messages)?;
    put_count_line(out, "up", tally.up)?;
    put_count_line(out, "joined", tally.joined)?;
    put_count_line(out, "acting", tally.acting)?;
    put_count_line(out, "bytes", tally.bytes)
}

/// Appends `WORD NUMBER`.
fn put_count_line(out: &mut Vec<u8>, word: &str, count: u64) -> Result<(), Memory>
    ensures { OnOk result (out.new.items ≡ out.old.items ++ count_line word.now count) }
{
    put(out, word.as_bytes())?;
    put_byte_number(out, b' ', count)?;
    put_byte(out, b'\n')
}
