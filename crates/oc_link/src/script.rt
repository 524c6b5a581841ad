use crate::event::{Coming, Loss};
use crate::ids::{ConnectionId, DialId};
use crate::look::Look;
use oc_base::Bytes;

/// The part of a script that one `next` of a link in memory plays, or one look.
#[derive(Debug, Drop)]
pub struct Step {
    /// The milliseconds that pass before the event.
    pub after: u64,
    pub happening: Happening,
}

/// An event of a script. If it can't come at that moment, `next` answers `Quiet`.
#[derive(Debug, Drop)]
pub enum Happening {
    /// These bytes come on a connection.
    Comes(ConnectionId, Bytes, Coming),
    /// A connection has room for more of its reply.
    Room(ConnectionId),
    /// A connection ends.
    Gone(ConnectionId, Loss),
    /// These bytes come as the reply of a dial.
    Replies(DialId, Bytes, Coming),
    /// Nothing happens.
    Quiet,
    /// `next` fails, or a `listen` that comes before it.
    Fails,
    /// A look gives this, if it comes when this is the next step. `next` answers `Quiet` at it.
    Looks(Look),
}
