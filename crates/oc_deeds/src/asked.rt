//! Facts of a request by itself: its wait, its group in a shelf, and the receiver of its reply.

ghost use Rattle.std.specs.Prelude.{◌≡◌};
ghost use Rattle.oc_deeds.specs.Asks.{holding_in};
ghost use Rattle.oc_deeds.specs.Asks as asks;
ghost use Rattle.oc_deeds.specs.Deeds.{back_to, others_than};
ghost use Rattle.oc_deeds.specs.Deeds as deeds;
ghost use Rattle.oc_deeds.specs.Hurries.{hurries};

use crate::work::Waiting;
use oc_base::{NodeId, Shelf};
use oc_link::ConnectionId;
use oc_model::{Answer, Input, Message};
use oc_routes::{Holding, Operation, Request, split_reply};

/// The result of a request's input: the answer of its step, and the message back to its sender.
#[derive(Drop)]
pub struct Accepted {
    pub answer: Answer,
    pub back: Option<Message>,
}

/// A request that waits on this connection since this time, in milliseconds, without its input.
pub fn waiting(connection: ConnectionId, request: Request, now: u64) -> Waiting
    ensures { result ≡ asks.waiting connection request now }
{
    Waiting {
        connection,
        request: Request {
            input: None,
            ..request
        },
        since: now,
    }
}

/// The node's holding of the group that was asked for.
pub fn holding_in(operation: &Operation, shelf: &[Shelf]) -> Holding
    ensures { result ≡ holding_in operation.now shelf.now }
{
    match operation {
        Operation::Client { group, .. } => Holding::in_shelf(shelf, group),
        _ => Holding {
            there: false,
            held: 0,
            sealed: false,
        },
    }
}

/// Whether the next tick is to come soon after this answer: a publish or a seal was answered by 200.
pub fn hurries(operation: &Operation, answer: Answer) -> bool
    ensures { result ≡ hurries operation.now answer }
{
    match operation {
        Operation::Publish { .. } => answer == Answer::Ok,
        Operation::Seal { .. } => answer == Answer::Ok || answer == Answer::Ignored,
        _ => false,
    }
}

/// The sender of the message that an input is.
pub fn sender_of(input: &Input) -> Option<NodeId>
    ensures { result ≡ deeds.sender_of input.now }
{
    match input {
        Input::Delivered(message) => Some(message.from),
        _ => None,
    }
}

/// Splits messages into the one back to a sender and all others.
pub fn held_back(sender: Option<NodeId>, sends: Vec<Message>) -> (Option<Message>, Vec<Message>)
    ensures back { result.0 ≡ back_to sender sends.items }
    ensures others { result.1.items ≡ others_than sender sends.items }
{
    match sender {
        Some(sender) => split_reply(sends, sender),
        None => (None, sends),
    }
}
