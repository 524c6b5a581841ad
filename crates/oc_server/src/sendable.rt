//! Messages that can be sent.

ghost use Rattle.std.specs.Prelude.{◌≡◌};
ghost use Rattle.std.specs.List.{list_all};
ghost use Rattle.oc_deeds.specs.Sending.{AreSendable, can_send, has_text};

use oc_keep::Outcome;
use oc_model::{Body, Message};

/// This outcome, where all of its messages can be sent, as those of a step can. One with a message that cannot be sent,
/// as disks that do not keep the disk model may bring about, loses all of its messages.
pub(crate) fn sendable(nodes: u32, mut outcome: Outcome) -> Outcome
    ensures sendable { AreSendable nodes result.sends }
    ensures whole { AreSendable nodes outcome.sends → result ≡ outcome }
{
    if !can_send_all(nodes, &outcome.sends) {
        outcome.sends.clear();
    }
    outcome
}

/// Whether each of these messages can be sent.
fn can_send_all(nodes: u32, messages: &[Message]) -> bool
    ensures { result ≡ list_all (can_send nodes) messages.now }
{
    messages.iter().all(|message| can_send(nodes, message))
}

/// Whether a message can be sent: its receiver is one of `nodes` nodes, and its body has a text.
fn can_send(nodes: u32, message: &Message) -> bool
    ensures { result ≡ can_send nodes message.now }
{
    let to = message.to.0;
    1 <= to && to <= nodes && has_text(&message.body)
}

/// Whether each count of a body fits the bytes that it has in its spelling.
fn has_text(body: &Body) -> bool
    ensures { result ≡ has_text body.now }
{
    match body {
        Body::LookIs { children, .. } => children.items().len() < 65_536,
        Body::Yes { ancestors, .. } | Body::CheckAck { ancestors, .. } => {
            ancestors.items().len() < 65_536
        }
        Body::CheckIn { certs, .. } => certs.items().len() < 256,
        Body::Fetch { have } => have.items().len() < 256,
        Body::Chunk { bytes, .. } => bytes.items().len() < 4_294_967_296,
        Body::Look | Body::Ask { .. } | Body::No { .. } | Body::Rejoin { .. } => true,
    }
}
