ghost use Rattle.std.specs.Prelude.{◌≡◌};
ghost use Rattle.oc_schedule.specs.Events.{listed};

use oc_model::Event;

/// An event of a list: made from its kept form, or lent.
#[derive(Drop)]
pub enum ListedEvent<'a> {
    Made(Event),
    Lent(&'a Event),
}

impl ListedEvent<'_> {
    /// The event.
    pub fn get(&self) -> &Event
        ensures { result.now ≡ listed self.now }
    {
        match self {
            ListedEvent::Made(event) => event,
            ListedEvent::Lent(event) => event,
        }
    }
}
