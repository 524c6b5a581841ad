use crate::EventList;
use oc_model::Header;
use std::marker::Model;

/// A schedule: the header of the world, and its events in order. Contracts see it as the record `Script` of lists.
#[derive(Debug, Drop)]
pub struct Schedule {
    pub header: Header,
    /// The events, in their order.
    pub events: EventList,
}

impl Model for Schedule {
    ghost use Rattle.oc_schedule.specs.Script.{Script};

    ghost Value = { Script };

    ghost view = { λ s. record { header = s.header; events = s.events } };
}
