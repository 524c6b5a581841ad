ghost use Rattle.std.specs.Prelude.{◌≡◌, ◌≤◌, IfOk};
ghost use Rattle.oc_schedule.specs.Acts.{bytes_of_act};
ghost use Rattle.oc_schedule.specs.Events.{event_of, listed};
ghost use Rattle.oc_schedule.specs.Script.{published_by, settles_by};

use crate::ListedEvent;
use oc_base::NodeId;
use oc_model::{Act, Event, Input};
use std::alloc::{AllocError, Global};

/// An event in its kept form: the events that long schedules mostly have take 16 bytes, and any other event has
/// memory of its own.
#[derive(Debug, Drop)]
pub enum KeptEvent {
    /// The node starts.
    Up(NodeId),
    /// The node stops between two inputs.
    Crash(NodeId),
    /// The clock of the node shows this time, in seconds.
    Tick { node: NodeId, now: u64 },
    /// The message of this number arrives.
    Deliver { number: u64 },
    /// Any event.
    Other(Box<Event>),
}

impl KeptEvent {
    /// Any event, in memory of its own.
    pub fn other(alloc: Global, event: Event) -> Result<KeptEvent, AllocError>
        ensures { IfOk result (λ kept. event_of kept ≡ event) }
    {
        Ok(KeptEvent::Other(Box::new(alloc, event)?))
    }

    /// The event. It takes no memory.
    pub(crate) fn event(&self) -> ListedEvent<'_>
        ensures { listed result ≡ event_of self.now }
    {
        match self {
            KeptEvent::Up(node) => ListedEvent::Made(Event::Up(*node)),
            KeptEvent::Crash(node) => ListedEvent::Made(Event::Crash(*node)),
            KeptEvent::Tick { node, now } => ListedEvent::Made(Event::Do(Act::At {
                node: *node,
                input: Input::Tick(*now),
            })),
            KeptEvent::Deliver { number } => {
                ListedEvent::Made(Event::Do(Act::Deliver { number: *number }))
            }
            KeptEvent::Other(event) => ListedEvent::Lent(event),
        }
    }

    /// The bytes that the event publishes, also where a stop cuts it off.
    pub(crate) fn published(&self) -> usize
        ensures { result ≡ published_by (event_of self.now) }
    {
        match self {
            KeptEvent::Other(event) => published_by(event),
            _ => 0,
        }
    }

    /// 1 for an event that settles or heals.
    pub(crate) fn settles(&self) -> u32
        ensures value { result ≡ settles_by (event_of self.now) }
        ensures few { result ≤ 1 }
    {
        match self {
            KeptEvent::Other(event) => settles_by(event),
            _ => 0,
        }
    }
}

/// The bytes that an event publishes, also where a stop cuts it off.
fn published_by(event: &Event) -> usize
    ensures { result ≡ published_by event.now }
{
    match event {
        Event::Do(act) | Event::Stop { act, .. } => bytes_of(act),
        _ => 0,
    }
}

/// The bytes that an act publishes.
fn bytes_of(act: &Act) -> usize
    ensures { result ≡ bytes_of_act act.now }
{
    match act {
        Act::At {
            input: Input::Publish { bytes, .. },
            ..
        } => bytes.items().len(),
        _ => 0,
    }
}

/// 1 for an event that settles or heals.
fn settles_by(event: &Event) -> u32
    ensures value { result ≡ settles_by event.now }
    ensures few { result ≤ 1 }
{
    match event {
        Event::Settle | Event::Heal => 1,
        _ => 0,
    }
}
