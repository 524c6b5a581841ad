//! A POST of `/!overcast`: its body is a message to this node, under a key with its MAC, and the message back to the sender
//! is its reply.

ghost use Rattle.std.specs.Prelude.{◌≡◌, IfOk, IfSome, None, Some, length, option_map};
ghost use Rattle.std.specs.Option.{ForSome};
ghost use Rattle.oc_model.specs.Lawful.{IsInput};
ghost use Rattle.oc_routes.specs.Inputs.{HasLine};
ghost use Rattle.oc_routes.specs.Macs.{is_forged};
ghost use Rattle.oc_routes.specs.Message.{delivered, message_response};
ghost use Rattle.oc_routes.specs.Responses.{typed, whole};
ghost use Rattle.oc_routes.specs.Routes.{Gives};
ghost use Rattle.oc_wire.specs.MessageReading.{decoded};
ghost use Rattle.oc_wire.specs.Spelling.{HasSpelling, spelling};

use crate::connections::connection_for;
use crate::fault::RouteFault;
use crate::refused::Refused;
use crate::response::Response;
use crate::responses::{status_alone, typed, typed_head, whole};
use crate::routes::Operation;
use oc_base::{Memory, NodeId, Text};
use oc_http::{Framing, Reply};
use oc_model::{Input, Message};
use oc_policy::{Key, Keyring};
use oc_wire::{WireFault, decode, encode, is_authentic, length_with_chunk, mac_for, put_message};
use std::alloc::Global;

/// Whether an operation is to take a message whose body does not come with its MAC, where there are keys. `mac` is the
/// MAC in the head.
pub(crate) fn is_forged(
    keys: Option<&Keyring>,
    operation: &Operation,
    mac: Option<&Text>,
    body: &[u8],
) -> bool
    ensures { result ≡ is_forged (option_map (λ k. k.now) keys.entry) operation.now (option_map (λ t. t.now) mac.entry) body.now }
{
    match operation {
        Operation::Message => !is_authentic(keys, mac, body),
        _ => false,
    }
}

/// The input that a message to this node is.
pub(super) fn delivered(
    alloc: Global,
    body: &[u8],
    me: NodeId,
    nodes: u32,
) -> Result<Option<Input>, RouteFault>
    ensures said { Gives result (delivered me (decoded nodes body.now)) }
    ensures lawful { IfOk result (λ input. IfSome input (IsInput nodes me)) }
    ensures line { IfOk result (λ input. IfSome input HasLine) }
{
    match decode(alloc, body, nodes) {
        Ok(message) if message.to == me => Ok(Some(Input::Delivered(message))),
        Err(WireFault::Memory) => Err(RouteFault::Memory),
        _ => Err(RouteFault::Refused(Refused::Message)),
    }
}

/// The answer to a message: the reply to its sender, with its MAC where there is a key, or nothing.
pub(super) fn to_message(
    alloc: Global,
    reply: Option<&Message>,
    key: Option<&Key>,
    last: bool,
) -> Result<Response, Memory>
    requires { ForSome (option_map (λ m. m.now) reply) (λ m. HasSpelling m.body) }
    ensures { IfOk result (λ response. response ≡ message_response (option_map (λ k. k.now) key.entry) (option_map (λ m. m.now) reply.entry) last) }
{
    let Some(message) = reply else {
        return status_alone(alloc, 204, last);
    };
    if let (None, Some(length)) = (key, length_with_chunk(message)) {
        return with_chunk(alloc, message, length, last);
    }
    let body = encode(alloc, message)?;
    let mac = mac_for(alloc, key, &body)?;
    whole(alloc, &with_mac(body, mac), last)
}

/// A 200 with a message of this length, without a MAC. The bytes of its chunk are copied once.
fn with_chunk(
    alloc: Global,
    message: &Message,
    length_in_bytes: u64,
    last: bool,
) -> Result<Response, Memory>
    requires spelled { HasSpelling message.now.body }
    requires length { length_in_bytes ≡ length (spelling message.now) }
    ensures { IfOk result (λ response. response ≡ message_response None (Some message.now) last) }
{
    let connection = connection_for(last);
    let mut text = typed_head(alloc, Framing::Length(length_in_bytes), connection)?;
    put_message(&mut text, message)?;
    Ok(Response {
        text: Text::of(text),
        content: None,
        connection,
    })
}

/// A 200 with a message, whose MAC is this.
fn with_mac(body: Vec<u8>, mac: Option<Text>) -> Reply
    ensures { result ≡ record (typed body.items) { mac = mac } }
{
    let mut reply = typed(body);
    reply.mac = mac;
    reply
}
