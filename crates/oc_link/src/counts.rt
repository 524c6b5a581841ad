ghost use Rattle.std.specs.Prelude.{◌≡◌};
ghost use Rattle.oc_io.specs.Tally.{counted};
ghost use Rattle.oc_link.specs.Failures as kinds;

use crate::event::{LinkEvent, Loss};

/// The counts of failed calls of a link, by their kind, and the time that it has waited. A count at the greatest
/// `u64` stays there.
#[derive(Clone, Copy, Debug)]
pub struct LinkCounts {
    /// Failed calls of `listen` and `next`.
    pub listening: u64,
    /// Requests that could not be read.
    pub reading: u64,
    /// Replies that could not be sent.
    pub writing: u64,
    /// Failed dials.
    pub dialling: u64,
    /// The milliseconds that `next` has waited in all.
    pub waited: u64,
}

impl LinkCounts {
    ghost use Rattle.oc_link.specs.Counts.{no_counts, CountsEvent};

    /// The counts of a link that was never used.
    pub fn none() -> LinkCounts
        ensures { result ≡ no_counts }
    {
        LinkCounts {
            listening: 0,
            reading: 0,
            writing: 0,
            dialling: 0,
            waited: 0,
        }
    }

    /// The counts after a call of `listen` or `next` failed.
    pub fn with_failure(self) -> LinkCounts
        ensures { result ≡ record self { listening = counted self.listening } }
    {
        LinkCounts {
            listening: self.listening.saturating_add(1),
            reading: self.reading,
            writing: self.writing,
            dialling: self.dialling,
            waited: self.waited,
        }
    }

    /// The counts after `next` gave this event and waited at most this number of milliseconds.
    pub fn with_event(self, event: LinkEvent, wait: u64) -> LinkCounts
        ensures { CountsEvent event wait self result }
    {
        let reading = raised(self.reading, fails_reading(&event));
        let writing = raised(self.writing, fails_writing(&event));
        let dialling = raised(self.dialling, fails_dialling(&event));
        LinkCounts {
            listening: self.listening,
            reading,
            writing,
            dialling,
            waited: self.waited.saturating_add(wait),
        }
    }
}

/// The count, one higher after a failure.
fn raised(count: u64, failed: bool) -> u64
    ensures { kinds.RisesAt failed count result }
{
    if failed {
        count.saturating_add(1)
    } else {
        count
    }
}

/// Whether an event tells that a request could not be read.
fn fails_reading(event: &LinkEvent) -> bool
    ensures { result ≡ kinds.fails_reading event.now }
{
    match event {
        LinkEvent::Request(arrival) => arrival.coming.has_failed(),
        _ => false,
    }
}

/// Whether an event tells that a reply could not be sent.
fn fails_writing(event: &LinkEvent) -> bool
    ensures { result ≡ kinds.fails_writing event.now }
{
    match event {
        LinkEvent::Gone(_, Loss::Failed) => true,
        _ => false,
    }
}

/// Whether an event tells that a dial failed.
fn fails_dialling(event: &LinkEvent) -> bool
    ensures { result ≡ kinds.fails_dialling event.now }
{
    match event {
        LinkEvent::Reply(_, coming) => coming.has_failed(),
        _ => false,
    }
}
