//! A message as its bytes and as the text of a request.

ghost use Rattle.std.specs.Prelude.{◌≡◌, ◌≤◌, string_bytes, IfOk, OnOk};
ghost use Rattle.oc_base.specs.declared.limits.TheConstants.{MAX_NODES};
ghost use Rattle.oc_model.specs.Lawful.{IsMessage};
ghost use Rattle.oc_world.specs.Net.{IsSpelled, host_of, message_in, text_of};

use oc_base::{Memory, NodeId};
use oc_model::Message;
use oc_wire::{WireFault, decode, put_message, spellings_are_read, to_http};
use std::alloc::Global;

/// The host that the request to a node names: `node` and the node's id.
fn host_of(alloc: Global, node: NodeId) -> Result<String, Memory>
    ensures { IfOk result (λ host. string_bytes host ≡ host_of node) }
{
    let id = node.0;
    Ok(format!(in alloc; "node{id}")?)
}

/// The request that brings a message to its receiver.
pub(crate) fn text_of(alloc: Global, nodes: u32, message: &Message) -> Result<Vec<u8>, Memory>
    requires few { nodes ≤ MAX_NODES }
    requires lawful { IsMessage nodes message.now }
    ensures { IfOk result (λ text. text.items ≡ text_of message.now) }
{
    spellings_are_read();
    let host = host_of(alloc, message.to)?;
    let text = to_http(alloc, message, host.as_str(), None)?;
    Ok(text)
}

/// Replaces the bytes in the buffer by those of a message's request.
pub(crate) fn spell(out: &mut Vec<u8>, nodes: u32, message: &Message) -> Result<(), Memory>
    requires few { nodes ≤ MAX_NODES }
    requires lawful { IsMessage nodes message.now }
    ensures spelled { OnOk result (IsSpelled nodes out.new.items) }
    ensures message { OnOk result (message_in nodes out.new.items ≡ message.now) }
{
    spellings_are_read();
    out.clear();
    put_message(out, message)?;
    Ok(())
}

/// The message between `nodes` nodes with these bytes.
pub(crate) fn message_in(alloc: Global, bytes: &[u8], nodes: u32) -> Result<Message, Memory>
    requires few { nodes ≤ MAX_NODES }
    requires spelled { IsSpelled nodes bytes.now }
    ensures { IfOk result (λ message. message ≡ message_in nodes bytes.now) }
{
    match decode(alloc, bytes, nodes) {
        Ok(message) => Ok(message),
        Err(fault) => Err(memory_of(fault)),
    }
}

/// Lack of memory, the only reason why the bytes of a letter can't be read.
fn memory_of(fault: WireFault) -> Memory
    requires { fault ≡ WireFault.Memory }
{
    match fault {
        WireFault::Memory => Memory,
        _ => unreachable!(),
    }
}
