ghost use Rattle.std.specs.Prelude.{◌≡◌, ◌==◌, ◌<◌, [], ◌∷◌, ◌++◌, length, slice_get, Some, OnOk};
ghost use Rattle.oc_schedule.specs.Events.{event_of, listed};

use crate::ListedEvent;
use crate::kept_event::KeptEvent;
use std::alloc::{AllocError, Global};
use std::marker::Model;

/// The events of a schedule, in their order. Contracts see them as a list.
///
/// Starts, crashes, ticks and deliveries take 16 bytes each.
#[derive(Debug, Drop)]
pub struct EventList {
    kept: Vec<KeptEvent>,
}

impl Model for EventList {
    ghost use Rattle.std.specs.Prelude.{List};
    ghost use Rattle.oc_model.specs.declared.event.Event.{Event};
    ghost use Rattle.oc_schedule.specs.Events.{events_of};

    ghost Value = { List Event };

    ghost view = { λ list. events_of list.kept.items };
}

impl EventList {
    /// No events. It takes no memory.
    pub fn new(alloc: Global) -> EventList
        ensures { result ≡ [] }
    {
        EventList {
            kept: Vec::new(alloc),
        }
    }

    /// The number of events.
    pub fn len(&self) -> usize
        ensures { result ≡ length self.now }
    {
        self.kept.len()
    }

    /// Whether there are no events.
    pub fn is_empty(&self) -> bool
        ensures { result ≡ (length self.now == 0) }
    {
        self.len() == 0
    }

    /// The event at a place, counted from 0. It takes no memory.
    pub fn event(&self, place: usize) -> ListedEvent<'_>
        requires { place < length self.now }
        ensures { slice_get self.now place ≡ Some (listed result) }
    {
        self.kept[place].event()
    }

    /// Puts an event at the end.
    pub fn push(&mut self, event: KeptEvent) -> Result<(), AllocError>
        ensures { OnOk result (self.new ≡ self.old ++ event_of event ∷ []) }
    {
        self.kept.push(event)?;
        Ok(())
    }
}
