ghost use Rattle.std.specs.Prelude.{◌≡◌, ◌&&◌};
ghost use Rattle.oc_base.specs.Reading as fields;
ghost use Rattle.oc_wire.specs.MessageReading.{Gives, body_at, closed, decoded, fields_at, is_node, message_at};

use crate::children::look_is_at;
use crate::codes::CODES;
use crate::fault::WireFault;
use crate::kinds::{
    ask_at, check_ack_at, check_in_at, chunk_at, fetch_at, no_at, rejoin_at, yes_at,
};
use oc_base::{FieldFault, NodeId, row_of, take_u8, take_u32};
use oc_model::{Body, Message};
use std::alloc::Global;

/// The message between `nodes` nodes that all of the bytes are, or the first fault.
#[tactic(auto, unfolding(crate::specs::MessageReading::decoded))]
pub(crate) fn read_message(alloc: Global, nodes: u32, bytes: &[u8]) -> Result<Message, WireFault>
    ensures { Gives result (decoded nodes bytes.now) }
{
    let (from, next) = take_u32(bytes, 0)?;
    let (to, next) = take_u32(bytes, next)?;
    let (code, next) = take_u8(bytes, next)?;
    let envelope = Envelope { from, to, code };
    message_at(alloc, nodes, envelope, bytes, next)
}

/// The numbers before the fields of a message.
#[derive(Clone, Copy)]
struct Envelope {
    /// The id of the sender.
    from: u32,
    /// The id of the receiver.
    to: u32,
    /// The code of the kind.
    code: u8,
}

/// The message with this envelope, whose fields begin at an index.
fn message_at(
    alloc: Global,
    nodes: u32,
    envelope: Envelope,
    bytes: &[u8],
    at: usize,
) -> Result<Message, WireFault>
    ensures { Gives result (message_at nodes envelope.from envelope.to envelope.code bytes.now at) }
{
    if !are_nodes(nodes, envelope.from, envelope.to) {
        return Err(WireFault::Stranger);
    }
    let body = body_at(alloc, envelope.code, nodes, bytes, at)?;
    closed(envelope.from, envelope.to, bytes.len(), body)
}

/// The message with this body, which ends where the bytes do.
fn closed(from: u32, to: u32, end: usize, body: (Body, usize)) -> Result<Message, WireFault>
    ensures { Gives result (closed from to end body) }
{
    let (body, next) = body;
    if next != end {
        return Err(WireFault::Trailing);
    }
    Ok(Message {
        from: NodeId(from),
        to: NodeId(to),
        body,
    })
}

/// Whether both are ids of nodes.
fn are_nodes(nodes: u32, from: u32, to: u32) -> bool
    ensures { result ≡ (is_node nodes from && is_node nodes to) }
{
    is_node(nodes, from) && is_node(nodes, to)
}

/// Whether this is the id of one of `nodes` nodes.
fn is_node(nodes: u32, id: u32) -> bool
    ensures { result ≡ is_node nodes id }
{
    1 <= id && id <= nodes
}

/// The body of the kind with this code.
fn body_at(
    alloc: Global,
    code: u8,
    nodes: u32,
    bytes: &[u8],
    at: usize,
) -> Result<(Body, usize), WireFault>
    ensures { Gives result (body_at code nodes bytes.now at) }
{
    match row_of(&CODES, code) {
        Some(row) => Ok(fields_at(alloc, row, nodes, bytes, at)?),
        None => Err(WireFault::Kind(code)),
    }
}

/// The body of the kind in this row of [`CODES`].
#[tactic(auto, using(crate::proofs::Lifts::given_same), unfolding(crate::specs::MessageReading::fields_at))]
fn fields_at(
    alloc: Global,
    row: usize,
    nodes: u32,
    bytes: &[u8],
    at: usize,
) -> Result<(Body, usize), FieldFault>
    ensures { fields.Gives result (fields_at row nodes bytes.now at) }
{
    match row {
        0 => Ok((Body::Look, at)),
        1 => look_is_at(alloc, nodes, bytes, at),
        2 => ask_at(bytes, at),
        3 => yes_at(alloc, nodes, bytes, at),
        4 => no_at(nodes, bytes, at),
        5 => check_in_at(alloc, nodes, bytes, at),
        6 => check_ack_at(alloc, nodes, bytes, at),
        7 => rejoin_at(bytes, at),
        8 => fetch_at(alloc, bytes, at),
        9 => chunk_at(alloc, false, bytes, at),
        _ => chunk_at(alloc, true, bytes, at),
    }
}
