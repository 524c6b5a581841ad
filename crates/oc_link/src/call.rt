use crate::event::LinkEvent;
use crate::ids::{ConnectionId, DialId};
use crate::look::Look;
use oc_base::{Bytes, Text};

/// A call on a link, with its answer; the story of a link is a list of them.
#[derive(Debug, Drop)]
pub enum Call {
    /// The link waits for connections at this address.
    Listen(Text),
    /// `next` answered this event. The bytes are those that came with it: of a request only the new ones, and of a
    /// reply all.
    Next(LinkEvent, Bytes),
    /// The clock gave this number of seconds.
    Now(u64),
    /// The clock gave this number of milliseconds.
    Millis(u64),
    /// This number of bytes of a connection was taken as its request.
    Take(ConnectionId, u64),
    /// A connection got these bytes to send.
    Give(ConnectionId, Bytes),
    /// The reply of a connection was given in full.
    Finish(ConnectionId, Ending),
    /// A connection was closed at once.
    BreakOff(ConnectionId),
    /// A dial to this address began, with these bytes.
    Dial(DialId, Text, Bytes),
    /// A look at the file of the configuration gave this.
    Look(Look),
    /// This was told to the people who run the program.
    Report(Bytes),
}

/// The future of a connection after a full reply.
#[derive(Clone, Copy, Debug)]
pub struct Ending {
    /// Whether the connection stays open for the next request; otherwise it ends once all bytes are sent.
    pub keeps: bool,
    /// Whether `LinkEvent::Gone` tells if the reply could not be sent in full. It may tell so after further requests of the
    /// connection, since bytes of several replies may be on their way.
    pub watched: bool,
}
