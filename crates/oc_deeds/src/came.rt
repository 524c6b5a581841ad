ghost use Rattle.std.specs.Prelude.{◌≡◌};

use oc_base::NodeId;
use oc_link::{ConnectionId, Loss};
use oc_model::Input;
use oc_probe::ProbeFault;
use oc_routes::{MessageFault, Verdict};

/// The news of an event, once its bytes were read.
#[derive(Drop)]
pub enum Came {
    /// This many bytes of a request, with the verdict on them.
    Request {
        connection: ConnectionId,
        count: u64,
        verdict: Verdict,
    },
    /// A connection wants more of its reply.
    Room(ConnectionId),
    /// A connection is over before its reply was sent whole.
    Gone(ConnectionId, Loss),
    /// The reply to a message, with the input that results from it. `taken` where its status is 200, and it has its MAC
    /// where the network has keys; `refused` says why it brings no message where its status is 200.
    Reply {
        input: Option<Input>,
        taken: bool,
        refused: Option<MessageFault>,
    },
    /// The reply to a probe of a peer that began at this time, in milliseconds; `fault` where it is no answer.
    Probed {
        peer: NodeId,
        since: u64,
        fault: Option<ProbeFault>,
    },
    /// No news.
    Nothing,
}

impl Came {
    ghost use Rattle.oc_deeds.specs.Served.{is_something};

    /// Whether the news is something to be served.
    pub fn is_something(&self) -> bool
        ensures { result ≡ is_something self.now }
    {
        !matches!(self, Came::Nothing)
    }
}
