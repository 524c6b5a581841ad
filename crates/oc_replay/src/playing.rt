//! The playing of events on a stage.

ghost use Rattle.std.specs.Prelude.{◌≡◌, ◌<◌, ◌++◌, Some, length, slice_get, OnOk, IfOk};
ghost use Rattle.oc_model.specs.declared.event.Event.{Event as EventValue};
ghost use Rattle.oc_model.specs.Lawful.{IsEvent};
ghost use Rattle.oc_model.specs.NextWorld.{next_world, word_of, world_after};
ghost use Rattle.oc_model.specs.World.{ids};
ghost use Rattle.oc_model.specs.WorldBounds.{IsWithinLimits};
ghost use Rattle.oc_replay.specs.Opening.{IsOpening};
ghost use Rattle.oc_replay.specs.Lines.{event_line};
ghost use Rattle.oc_replay.specs.Stage.{HasTimeFor, IsSaid};

use crate::lines::put_event;
use crate::{Said, Stage};
use oc_base::Memory;
use oc_model::Event;
use oc_schedule::EventList;

/// Plays the event of this number on the stage, appends the line of its word, and gives the stage's
/// answer.
pub fn play_one<T: Stage>(
    out: &mut Vec<u8>,
    stage: &mut T,
    number: u64,
    event: &Event,
) -> Result<Said, Memory>
    requires event { IsEvent (length (ids (T.world stage.old))) event.now }
    requires time { HasTimeFor (T.world stage.old) event.now }
    ensures line { OnOk result (out.new.items ≡ out.old.items ++ event_line number (word_of (T.world stage.old) event.now)) }
    ensures world { OnOk result (T.world stage.new ≡ next_world (T.world stage.old) event.now) }
    ensures said { IfOk result (λ said. IsSaid (word_of (T.world stage.old) event.now) (T.world stage.old) (T.world stage.new) said) }
{
    let said = stage.event(event)?;
    put_event(out, number, &said.word)?;
    Ok(said)
}

/// Plays the event at an index on the stage, and gives the stage's answer.
fn give_at<T: Stage>(stage: &mut T, events: &EventList, place: usize) -> Result<Said, Memory>
    requires within { place < length events.now }
    requires event { (e : EventValue) → slice_get events.now place ≡ Some e → IsEvent (length (ids (T.world stage.old))) e }
    requires time { (e : EventValue) → slice_get events.now place ≡ Some e → HasTimeFor (T.world stage.old) e }
    ensures world { (e : EventValue) → slice_get events.now place ≡ Some e → OnOk result (T.world stage.new ≡ next_world (T.world stage.old) e) }
    ensures said { (e : EventValue) → slice_get events.now place ≡ Some e → IfOk result (λ said. IsSaid (word_of (T.world stage.old) e) (T.world stage.old) (T.world stage.new) said) }
{
    let event = events.event(place);
    let said = stage.event(event.get());
    // Dropped by a call, the event costs one proof; out of scope it costs one for each kind.
    drop(event);
    said
}

/// Plays each event once on the stage, in order, and gives the number of messages sent.
pub fn play<T: Stage>(stage: &mut T, events: &EventList) -> Result<u64, Memory>
    requires { IsOpening (T.world stage.old) events.now }
    ensures played { OnOk result (T.world stage.new ≡ world_after (T.world stage.old) events.now) }
    ensures ids { OnOk result (ids (T.world stage.new) ≡ ids (T.world stage.old)) }
    ensures limits { OnOk result (IsWithinLimits (T.world stage.new)) }
    ensures sent { IfOk result (λ sent. sent ≡ length (T.world stage.new).net) }
{
    let mut sent = 0;
    for place in 0..events.len() {
        let told = give_at(stage, events, place)?;
        sent = told.first + told.count - 1;
    }
    Ok(sent)
}
