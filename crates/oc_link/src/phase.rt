ghost use Rattle.std.specs.Prelude.{◌≡◌, false};

use crate::call::{Call, Ending};
use crate::event::LinkEvent;
use crate::ids::ConnectionId;

/// The phase of a connection: waiting for a request, answering one, or over.
#[derive(Clone, Copy, Debug)]
pub enum Phase {
    /// The next request is awaited.
    Awaiting,
    /// The request was taken, and the reply is not whole.
    Answering,
    /// The last reply is given in full, and the connection ends once all bytes are sent.
    Whole,
    /// The connection ended before its reply was sent in full.
    Gone,
    /// The connection was closed at once.
    Broken,
}

/// The state of a connection, which decides on the events that may come next.
#[derive(Clone, Copy, Debug)]
pub struct Standing {
    pub phase: Phase,
    /// The number of the request that is awaited or answered, counted from 1.
    pub number: u64,
    /// Whether the connection was given bytes since its request was awaited or taken, or since
    /// there was room.
    pub fed: bool,
    /// Whether an event tells if the connection's bytes can't be sent: those of its last reply, or of one before.
    pub watched: bool,
}

impl Phase {
    ghost use Rattle.oc_link.specs.Stands.{is_awaiting, is_answering};

    /// Whether the next request is awaited.
    pub fn is_awaiting(self) -> bool
        ensures { result ≡ is_awaiting self }
    {
        match self {
            Phase::Awaiting => true,
            _ => false,
        }
    }

    /// Whether a reply is under way.
    pub fn is_answering(self) -> bool
        ensures { result ≡ is_answering self }
    {
        match self {
            Phase::Answering => true,
            _ => false,
        }
    }
}

impl Standing {
    ghost use Rattle.oc_link.specs.Stands.{untouched, stands, sees, after_finish, may_request, may_want, may_go};

    /// The state of a connection before its first event.
    pub fn untouched() -> Standing
        ensures { result ≡ untouched }
    {
        Standing {
            phase: Phase::Awaiting,
            number: 1,
            fed: false,
            watched: false,
        }
    }

    /// The state of this connection after one more call of its link.
    pub fn after(self, connection: ConnectionId, call: &Call) -> Standing
        ensures { result ≡ stands connection call.now self }
    {
        match call {
            Call::Next(event, _) => self.after_event(connection, *event),
            Call::Take(of, _) => {
                if *of != connection {
                    return self;
                }
                Standing {
                    phase: Phase::Answering,
                    number: self.number,
                    fed: false,
                    watched: self.watched,
                }
            }
            Call::Give(to, _) => Standing {
                phase: self.phase,
                number: self.number,
                fed: self.fed || *to == connection,
                watched: self.watched,
            },
            Call::Finish(of, ending) => {
                if *of == connection {
                    self.after_reply(*ending)
                } else {
                    self
                }
            }
            Call::BreakOff(of) => {
                if *of == connection {
                    self.ended(Phase::Broken)
                } else {
                    self
                }
            }
            _ => self,
        }
    }

    /// The state after an event.
    fn after_event(self, connection: ConnectionId, event: LinkEvent) -> Standing
        ensures { result ≡ sees connection event self }
    {
        match event {
            LinkEvent::Room(of) => Standing {
                phase: self.phase,
                number: self.number,
                fed: self.fed && of != connection,
                watched: self.watched,
            },
            LinkEvent::Gone(of, _) => {
                if of == connection {
                    self.ended(Phase::Gone)
                } else {
                    self
                }
            }
            _ => self,
        }
    }

    /// The state after a full reply.
    fn after_reply(self, ending: Ending) -> Standing
        ensures { result ≡ after_finish ending self }
    {
        if ending.keeps {
            Standing {
                phase: Phase::Awaiting,
                number: self.number.saturating_add(1),
                fed: false,
                watched: ending.watched || self.watched,
            }
        } else {
            Standing {
                phase: Phase::Whole,
                number: self.number,
                fed: false,
                watched: ending.watched || self.watched,
            }
        }
    }

    /// The state after the connection ended, in this phase.
    fn ended(self, phase: Phase) -> Standing
        ensures { result ≡ record self { phase = phase; watched = false } }
    {
        Standing {
            phase,
            number: self.number,
            fed: self.fed,
            watched: false,
        }
    }

    /// Whether a request of that number may come now.
    pub fn may_request(self, number: u64, permitted: bool) -> bool
        ensures { result ≡ may_request number permitted self }
    {
        self.phase.is_awaiting()
            && number == self.number
            && if permitted { self.fed } else { !self.fed }
    }

    /// Whether an event may say that there is room for more of the reply.
    pub fn may_want(self) -> bool
        ensures { result ≡ may_want self }
    {
        self.phase.is_answering() && self.fed
    }

    /// Whether an event may say that the connection is gone.
    pub fn may_go(self) -> bool
        ensures { result ≡ may_go self }
    {
        self.phase.is_answering() || self.watched
    }
}
