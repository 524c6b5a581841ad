//! A run of events on a stage, with a report of each event as it happens.

ghost use Rattle.std.specs.Prelude.{◌≡◌, ◌+◌, ◌-◌, ◌^◌, ◌<◌, ◌++◌, Some, length, slice_get, OnOk, IfOk, IsErrOf};
ghost use Rattle.oc_model.specs.declared.event.Event.{Event as EventValue};
ghost use Rattle.oc_model.specs.Lawful.{IsEvent};
ghost use Rattle.oc_model.specs.NextWorld.{next_world, word_of, world_after};
ghost use Rattle.oc_model.specs.World.{ids, message_at};
ghost use Rattle.oc_io.specs.Faults.{NoFall, Rose};
ghost use Rattle.oc_replay.specs.Opening.{IsOpening};
ghost use Rattle.oc_replay.specs.Pieces.{SomeFront};
ghost use Rattle.oc_replay.specs.Report.{block_text, event_text, message_text, run_text, sent_from, sent_text};
ghost use Rattle.oc_replay.specs.Stage.{HasTimeFor};

use crate::fault::ReportFault;
use crate::lines::{put_held, put_message};
use crate::pieces::{pass_on, write_last};
use crate::playing::play_one;
use crate::show::put_show;
use crate::{Said, Stage};
use oc_base::Memory;
use oc_io::Sink;
use oc_model::Event;
use oc_schedule::EventList;
use std::alloc::Global;

/// Plays each event once on the stage, in order, and writes the report of the run, which begins
/// with the world of the stage.
pub(crate) fn report<K: Sink, T: Stage>(
    alloc: Global,
    sink: &mut K,
    stage: &mut T,
    events: &EventList,
) -> Result<(), ReportFault>
    requires { IsOpening (T.world stage.old) events.now }

    // The whole report was taken, and the stage is at the last world.
    ensures told { OnOk result
        (K.takes sink.old (run_text (T.world stage.old) events.now) sink.new) }
    ensures played { OnOk result
        (T.world stage.new ≡ world_after (T.world stage.old) events.now) }

    // A prefix of the report had been taken when a call failed, and the stage is at a world on the
    // way.
    ensures failed { IsErrOf result ReportFault.Sink
        → SomeFront (run_text (T.world stage.old) events.now)
        (λ front. K.fails sink.old front sink.new) }
    ensures stopped { IsErrOf result ReportFault.Sink
        → SomeFront events.now (λ played. T.world stage.new ≡ world_after (T.world stage.old) played) }

    // A prefix of the report had been taken when memory ran out.
    ensures memory { IsErrOf result ReportFault.Memory
        → SomeFront (run_text (T.world stage.old) events.now)
        (λ front. K.takes sink.old front sink.new) }

    ensures count { NoFall (K.faults sink.old) (K.faults sink.new) }
    ensures cause { IsErrOf result ReportFault.Sink → Rose (K.faults sink.old) (K.faults sink.new) }
{
    let mut out = Vec::new(alloc);
    let mut sent = 0;
    for place in 0..events.len() {
        sent = report_event_at(&mut out, stage, events, place, place as u64 + 1)?;
        pass_on(sink, &mut out)?;
    }
    write_last(sink, &mut out, events.len() as u64, sent)
}

/// Plays the event at an index, which has this number, on the stage, appends its report, and gives
/// the number of messages sent so far.
fn report_event_at<T: Stage>(
    out: &mut Vec<u8>,
    stage: &mut T,
    events: &EventList,
    place: usize,
    number: u64,
) -> Result<u64, Memory>
    requires within { place < length events.now }
    requires event { (e : EventValue) → slice_get events.now place ≡ Some e → IsEvent (length (ids (T.world stage.old))) e }
    requires time { (e : EventValue) → slice_get events.now place ≡ Some e → HasTimeFor (T.world stage.old) e }
    ensures text { (e : EventValue) → slice_get events.now place ≡ Some e → OnOk result (out.new.items ≡ out.old.items
        ++ event_text number (word_of (T.world stage.old) e) (T.world stage.old) (T.world stage.new) e) }
    ensures world { (e : EventValue) → slice_get events.now place ≡ Some e → OnOk result (T.world stage.new ≡ next_world (T.world stage.old) e) }
    ensures sent { IfOk result (λ sent. sent ≡ length (T.world stage.new).net) }
{
    let event = events.event(place);
    let sent = report_event(out, stage, number, event.get());
    // Dropped by a call, the event costs one proof; out of scope it costs one for each kind.
    drop(event);
    sent
}

/// Plays the event of this number on the stage, appends its report, and gives the number of
/// messages sent so far.
fn report_event<T: Stage>(
    out: &mut Vec<u8>,
    stage: &mut T,
    number: u64,
    event: &Event,
) -> Result<u64, Memory>
    requires event { IsEvent (length (ids (T.world stage.old))) event.now }
    requires time { HasTimeFor (T.world stage.old) event.now }
    ensures text { OnOk result (out.new.items ≡ out.old.items
        ++ event_text number (word_of (T.world stage.old) event.now) (T.world stage.old) (T.world stage.new) event.now) }
    ensures world { OnOk result (T.world stage.new ≡ next_world (T.world stage.old) event.now) }
    ensures sent { IfOk result (λ sent. sent ≡ length (T.world stage.new).net) }
{
    let said = play_one(out, stage, number, event)?;
    let sent = said.first + said.count - 1;
    put_told(out, stage, event, said)?;
    put_block(out, stage, event)?;
    Ok(sent)
}

/// Appends the messages that are reported for an event. Settle and heal may send very many, which
/// are left out.
fn put_told<T: Stage>(out: &mut Vec<u8>, stage: &T, event: &Event, said: Said) -> Result<(), Memory>
    requires first { 0 < said.first }
    requires all { said.first + said.count ≡ length (T.world stage.now).net + 1 }
    requires few { said.first + said.count < 2 ^ 64 }
    ensures { OnOk result (out.new.items ≡ out.old.items ++ sent_text said.first (T.world stage.now) event.now) }
{
    match event {
        Event::Settle | Event::Heal => Ok(()),
        _ => put_sent(out, stage, said),
    }
}

/// Appends a line for each message, beginning with the first one that the event sent.
fn put_sent<T: Stage>(out: &mut Vec<u8>, stage: &T, said: Said) -> Result<(), Memory>
    requires first { 0 < said.first }
    requires all { said.first + said.count ≡ length (T.world stage.now).net + 1 }
    requires few { said.first + said.count < 2 ^ 64 }
    ensures { OnOk result (out.new.items ≡ out.old.items ++ sent_from said.first (T.world stage.now)) }
{
    for number in said.first..said.first + said.count {
        put_one(out, stage, number)?;
    }
    Ok(())
}

/// Appends the line of the message of this number, if there is one.
fn put_one<T: Stage>(out: &mut Vec<u8>, stage: &T, number: u64) -> Result<(), Memory>
    ensures { OnOk result (out.new.items ≡ out.old.items
        ++ message_text number (message_at (T.world stage.now).net number)) }
{
    match stage.message(number)? {
        Some(message) => put_message(out, number, &message),
        None => Ok(()),
    }
}

/// Appends the block of an event.
fn put_block<T: Stage>(out: &mut Vec<u8>, stage: &T, event: &Event) -> Result<(), Memory>
    requires { IsEvent (length (ids (T.world stage.now))) event.now }
    ensures { OnOk result (out.new.items ≡ out.old.items ++ block_text (T.world stage.now) event.now) }
{
    match event {
        Event::Held(node) => put_held(out, &stage.held(*node)?),
        Event::Show(node) => put_show(out, *node, &stage.status(*node)?),
        _ => Ok(()),
    }
}
