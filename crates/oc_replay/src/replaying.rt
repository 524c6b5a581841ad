//! A replay, from the bytes of a schedule to the text of a report or of a summary.

ghost use Rattle.std.specs.Prelude.{◌≡◌, ℕ, ◌≤◌, Ok, Err, List, [], ◌⊎◌, length, OnOk, IfOk, IfErr, IsErrOf};
ghost use Rattle.oc_base.specs.declared.limits.TheConstants.{MAX_NODES};
ghost use Rattle.oc_model.specs.NextWorld.{world_after};
ghost use Rattle.oc_model.specs.World.{ids};
ghost use Rattle.oc_io.specs.Faults.{NoFall, Rose};
ghost use Rattle.oc_schedule.specs.Schedule.{IsSchedule};
ghost use Rattle.oc_schedule.specs.Script.{Script};
ghost use Rattle.oc_schedule.specs.declared.fault.ScheduleFault.TheVariants.{Line};
ghost use Rattle.oc_schedule.specs.declared.scale.Scale.TheVariants.{Large};
ghost use Rattle.oc_replay.specs.Ends.{OnDone, IfText, IfLimit, OnSource, OnSink, OnMemory, OnRefusal};
ghost use Rattle.oc_replay.specs.Opening.{IsOpening};
ghost use Rattle.oc_replay.specs.Replay.{IsInput, PassesLimit, output_text, run_output, world_at};
ghost use Rattle.oc_replay.specs.Pieces.{SomeFront};

use crate::fault::ReportFault;
use crate::reporting::report;
use crate::summing::summarize;
use crate::{ReplayEnd, Stage};
use oc_io::{Sink, Source, read_all};
use oc_schedule::{EventList, Scale, Schedule, What, read};
use std::alloc::Global;

/// Reads a schedule of this scale from the source, plays it on the stage, and writes its report to the
/// sink, or with `summary` its summary.
pub fn replay<S: Source, K: Sink, T: Stage>(
    alloc: Global,
    source: &mut S,
    sink: &mut K,
    stage: &mut T,
    scale: Scale,
    summary: bool,
) -> ReplayEnd
    // The whole input came and is a schedule within the limits, its whole report was taken, and the
    // stage is at its last world.
    ensures done { OnDone result ((s : Script)
        × IsInput scale S.gives S.ended source.old source.new (Ok s)
        × IsSchedule scale s
        × K.takes sink.old (output_text summary s) sink.new
        × (T.world stage.new ≡ world_at s s.events)) }

    // The whole input came, and this is its first fault.
    ensures text { IfText result (λ line why.
        IsInput scale S.gives S.ended source.old source.new (Err (Line line why))) }
    ensures limit { IfLimit result (λ what.
        PassesLimit scale S.gives S.ended source.old source.new what) }

    // Some input came, and then a call on the source failed.
    ensures source { OnSource result (((bytes : List ℕ) × S.fails source.old bytes source.new)
        × Rose (S.faults source.old) (S.faults source.new)) }

    // If there is no schedule to play, nothing is written, and the stage is unchanged.
    ensures refused { OnRefusal result (K.takes sink.old [] sink.new × (stage.new ≡ stage.old)) }

    // The whole input came and is a schedule, a prefix of its report had been taken when a call on
    // the sink failed, and the stage is at a world on the way.
    ensures sink { OnSink result ((s : Script)
        × IsInput scale S.gives S.ended source.old source.new (Ok s)
        × SomeFront (output_text summary s) (λ front. K.fails sink.old front sink.new)
        × SomeFront s.events (λ played. T.world stage.new ≡ world_at s played)
        × Rose (K.faults sink.old) (K.faults sink.new)) }

    // Some input came, nothing is written, and the stage is unchanged; or the whole input came and
    // is a schedule, and a prefix of its report was taken.
    ensures memory { OnMemory result (
        (((bytes : List ℕ) × S.gives source.old bytes source.new) × K.takes sink.old [] sink.new × (stage.new ≡ stage.old))
        ⊎ ((s : Script)
        × IsInput scale S.gives S.ended source.old source.new (Ok s)
        × SomeFront (output_text summary s) (λ front. K.takes sink.old front sink.new))) }

    ensures source_count { NoFall (S.faults source.old) (S.faults source.new) }
    ensures sink_count { NoFall (K.faults sink.old) (K.faults sink.new) }
{
    let schedule = match schedule_in(alloc, source, scale) {
        Ok(schedule) => schedule,
        Err(end) => return end,
    };
    match play(alloc, &schedule, sink, stage, summary) {
        Ok(()) => ReplayEnd::Done,
        Err(fault) => ReplayEnd::from(fault),
    }
}

/// Reads a schedule of this scale from the source, up to its end. An error is the end of the
/// replay, and is neither `Done` nor `Sink`.
fn schedule_in<S: Source>(
    alloc: Global,
    source: &mut S,
    scale: Scale,
) -> Result<Schedule, ReplayEnd>
    ensures input { IfOk result (λ s. IsInput scale S.gives S.ended source.old source.new (Ok s)) }
    ensures lawful { IfOk result (IsSchedule scale) }
    ensures text { IfErr result (λ end. IfText end (λ line why.
        IsInput scale S.gives S.ended source.old source.new (Err (Line line why)))) }
    ensures limit { IfErr result (λ end. IfLimit end (λ what.
        PassesLimit scale S.gives S.ended source.old source.new what)) }
    ensures source { IfErr result (λ end. OnSource end (((bytes : List ℕ) × S.fails source.old bytes source.new)
        × Rose (S.faults source.old) (S.faults source.new))) }
    ensures memory { IfErr result (λ end. OnMemory end ((bytes : List ℕ) × S.gives source.old bytes source.new)) }
    ensures not_done { IfErr result (λ end. OnDone end ⊥) }
    ensures not_sink { IfErr result (λ end. OnSink end ⊥) }
    ensures count { NoFall (S.faults source.old) (S.faults source.new) }
{
    let bytes = read_all(alloc, source, scale.most(What::Bytes))?;
    let schedule = read(alloc, scale, &bytes)?;
    Ok(schedule)
}

/// Plays a schedule on the stage, beginning with its header, and writes its report or its summary.
fn play<K: Sink, T: Stage>(
    alloc: Global,
    schedule: &Schedule,
    sink: &mut K,
    stage: &mut T,
    summary: bool,
) -> Result<(), ReportFault>
    requires { IsSchedule Large schedule.now }
    ensures told { OnOk result
        (K.takes sink.old (output_text summary schedule.now) sink.new) }
    ensures played { OnOk result
        (T.world stage.new ≡ world_at schedule.now schedule.now.events) }
    ensures failed { IsErrOf result ReportFault.Sink
        → SomeFront (output_text summary schedule.now) (λ front. K.fails sink.old front sink.new) }
    ensures stopped { IsErrOf result ReportFault.Sink
        → SomeFront schedule.now.events (λ played. T.world stage.new ≡ world_at schedule.now played) }
    ensures memory { IsErrOf result ReportFault.Memory
        → SomeFront (output_text summary schedule.now) (λ front. K.takes sink.old front sink.new) }
    ensures count { NoFall (K.faults sink.old) (K.faults sink.new) }
    ensures cause { IsErrOf result ReportFault.Sink → Rose (K.faults sink.old) (K.faults sink.new) }
{
    let header = &schedule.header;
    stage.open(header)?;
    write_run(
        alloc,
        sink,
        stage,
        &schedule.events,
        header.sizes.nodes,
        summary,
    )
}

/// Plays each event once on the stage, in order, and writes the report of the run or its summary,
/// in which each of `nodes` nodes is counted.
fn write_run<K: Sink, T: Stage>(
    alloc: Global,
    sink: &mut K,
    stage: &mut T,
    events: &EventList,
    nodes: u32,
    summary: bool,
) -> Result<(), ReportFault>
    requires opened { IsOpening (T.world stage.old) events.now }
    requires nodes { length (ids (T.world stage.old)) ≡ nodes }
    requires few { nodes ≤ MAX_NODES }
    ensures told { OnOk result
        (K.takes sink.old (run_output summary (T.world stage.old) events.now) sink.new) }
    ensures played { OnOk result (T.world stage.new ≡ world_after (T.world stage.old) events.now) }
    ensures failed { IsErrOf result ReportFault.Sink
        → SomeFront (run_output summary (T.world stage.old) events.now) (λ front. K.fails sink.old front sink.new) }
    ensures stopped { IsErrOf result ReportFault.Sink
        → SomeFront events.now (λ played. T.world stage.new ≡ world_after (T.world stage.old) played) }
    ensures memory { IsErrOf result ReportFault.Memory
        → SomeFront (run_output summary (T.world stage.old) events.now) (λ front. K.takes sink.old front sink.new) }
    ensures count { NoFall (K.faults sink.old) (K.faults sink.new) }
    ensures cause { IsErrOf result ReportFault.Sink → Rose (K.faults sink.old) (K.faults sink.new) }
{
    if summary {
        summarize(alloc, sink, stage, events, nodes)
    } else {
        report(alloc, sink, stage, events)
    }
}
