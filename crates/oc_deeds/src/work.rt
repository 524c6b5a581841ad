ghost use Rattle.std.specs.Prelude.{◌≡◌};
ghost use Rattle.oc_deeds.specs.Works.{client_input, input_asked, pending};

use oc_link::ConnectionId;
use oc_model::Input;
use oc_routes::{Asked, Hint, Operation, Request, UnderWay};
use oc_select::Selection;

/// A content under way on a connection.
#[derive(Clone, Copy, Debug)]
pub struct Transfer {
    pub connection: ConnectionId,
    /// The group and the place of the bytes that are still to be given.
    pub content: UnderWay,
    /// Whether the connection's next request is awaited after the content.
    pub keeps: bool,
    /// Whether the request had an input, so that a line says if the reply cannot be sent.
    pub told: bool,
    /// The time when the content began or was given its last piece, in milliseconds.
    pub since: u64,
}

/// A request that is to be answered, without its input.
#[derive(Clone, Copy, Debug)]
pub struct Pending {
    pub connection: ConnectionId,
    /// The number of its bytes.
    pub count: u64,
    pub asked: Asked,
    /// Whether the request is the last of its connection whatever it asks.
    pub last: bool,
    /// Whether the request has an input, so that a line says if the reply cannot be sent.
    pub told: bool,
    /// Whether the request has waited, and was taken before.
    pub waited: bool,
}

/// A request of a client that follows a group and has all of its bytes. The input of the request is not kept, but made when
/// it is taken.
#[derive(Drop)]
pub struct Waiting {
    pub connection: ConnectionId,
    pub request: Request,
    /// The time when the request came, in milliseconds.
    pub since: u64,
}

/// The request on a connection, as one that is to be answered. `told` says that a line tells if its reply cannot be sent,
/// and `waited` that it was taken before.
pub fn pending_of(connection: ConnectionId, request: &Request, told: bool, waited: bool) -> Pending
    ensures { result ≡ pending connection request.now told waited }
{
    Pending {
        connection,
        count: request.count,
        asked: request.asked,
        last: request.last,
        told,
        waited,
    }
}

/// The input of a client that asks for a group; none where the node is to answer itself, or a condition answers.
pub fn client_input(asked: &Asked) -> Option<Input>
    ensures { result ≡ client_input asked.now }
{
    if asked.hint == Hint::Here {
        return None;
    }
    match asked.selection {
        Selection::NotModified | Selection::PreconditionFailed => None,
        Selection::Whole | Selection::Part { .. } | Selection::Unsatisfiable => {
            input_asked(&asked.operation)
        }
    }
}

/// The input of a client that asks for a group.
fn input_asked(operation: &Operation) -> Option<Input>
    ensures { result ≡ input_asked operation.now }
{
    match operation {
        Operation::Client {
            group,
            area,
            start,
            ..
        } => Some(Input::Client {
            area: *area,
            start: *start,
            group: *group,
        }),
        _ => None,
    }
}

/// The work on a connection.
#[derive(Drop)]
pub enum Work {
    /// A content, whose next piece is given when there is room.
    Content(Transfer),
    /// A content with nothing to give until its group has grown.
    Aside(Transfer),
    /// A follower that waits.
    Waits(Waiting),
}

impl Work {
    ghost use Rattle.oc_deeds.specs.Works.{connection_of};

    /// The connection on which the work is under way.
    pub fn connection(&self) -> ConnectionId
        ensures { result ≡ connection_of self.now }
    {
        match self {
            Work::Content(transfer) | Work::Aside(transfer) => transfer.connection,
            Work::Waits(waiting) => waiting.connection,
        }
    }
}
