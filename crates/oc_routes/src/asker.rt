ghost use Rattle.std.specs.Prelude.{◌≡◌};
ghost use Rattle.oc_routes.specs.Askers.{asker_in, asker_of, brings_message, gets_head_alone, is_message_path};

use oc_base::words::is;
use oc_http::{Head, MESSAGE_PATH, Method, Text, begins_with_head};

/// The sender of a request that is refused.
#[derive(Clone, Copy, Debug, PartialEq, Eq)]
pub enum Asker {
    /// A client.
    Client,
    /// A client that sends a HEAD, so that the reply has no body.
    HeadAlone,
    /// Another node, which posts a message.
    Node,
}

impl Asker {
    /// The sender of a request with this head.
    pub fn of(head: &Head) -> Asker
        ensures { result ≡ asker_of head.now }
    {
        match head.method {
            Method::Head => Asker::HeadAlone,
            Method::Post if is_message_path(&head.path) => Asker::Node,
            _ => Asker::Client,
        }
    }

    /// The sender of a request that begins with these bytes, whatever fault its head has.
    pub fn of_front(bytes: &[u8]) -> Asker
        ensures { result ≡ asker_in bytes.now }
    {
        if begins_with_head(bytes) {
            Asker::HeadAlone
        } else if brings_message(bytes) {
            Asker::Node
        } else {
            Asker::Client
        }
    }

    /// Whether its reply has no body.
    pub(crate) fn gets_head_alone(self) -> bool
        ensures { result ≡ gets_head_alone self }
    {
        self == Asker::HeadAlone
    }
}

/// Whether a path is the one to which nodes post messages.
fn is_message_path(path: &Option<Text>) -> bool
    ensures { result ≡ is_message_path path.now }
{
    match path {
        Some(path) => is(path.items(), MESSAGE_PATH),
        None => false,
    }
}

/// Whether the first bytes of a request are those of a message that is posted.
fn brings_message(bytes: &[u8]) -> bool
    ensures { result ≡ brings_message bytes.now }
{
    bytes.starts_with(b"POST /!overcast ") || bytes.starts_with(b"POST /!overcast?")
}
