ghost use Rattle.std.specs.Prelude.{◌≡◌};

use crate::ids::{ConnectionId, DialId};

/// An event at a link.
#[derive(Clone, Copy, Debug)]
pub enum LinkEvent {
    /// The next request of a connection has come in full, or as far as the node has to look at it now.
    Request(Arrival),
    /// A connection has sent enough of its reply to take more.
    Room(ConnectionId),
    /// A connection ended before its reply was given and sent in full.
    Gone(ConnectionId, Loss),
    /// The reply of a dial has come, or the dial failed.
    Reply(DialId, Coming),
    /// Nothing happened within the wait.
    Quiet,
}

/// A request that came on a connection, or the first part of one.
#[derive(Clone, Copy, Debug)]
pub struct Arrival {
    pub connection: ConnectionId,
    /// The number of the request on its connection, counted from 1.
    pub number: u64,
    /// Whether the connection was given bytes since its last reply, as the permission to send a body.
    pub permitted: bool,
    /// The end of the bytes so far.
    pub coming: Coming,
}

/// The end of the bytes that came.
#[derive(Clone, Copy, Debug)]
pub enum Coming {
    /// More may come.
    Open,
    /// Nothing more comes.
    Ended,
    /// A call failed, or the time ran out.
    Failed,
}

impl Coming {
    ghost use Rattle.oc_link.specs.Failures.{has_failed};

    /// Whether the bytes ended by a failure.
    pub fn has_failed(self) -> bool
        ensures { result ≡ has_failed self }
    {
        match self {
            Coming::Failed => true,
            _ => false,
        }
    }
}

/// The reason why a connection ended before its reply was sent in full.
#[derive(Clone, Copy, Debug)]
pub enum Loss {
    /// A call failed, or the connection made no progress for its time.
    Failed,
    /// The link closed the connection to make room for another one.
    GaveWay,
}
