//! Messages of nodes: the meaning of bytes, and the bytes of messages.

ghost use Rattle.oc_wire.specs.Spelling.{HasSpelling};

use crate::wire::requests::put_fault;
use crate::wire::words::{put, put_message, put_wire_fault};
use oc_wire::{Message, decode, encode, from_http, to_http};
use std::alloc::Global;
use test_tools::{Fault, RowFields, put_hex};

/// Appends the words of a row: the message of the bytes, or their fault. If the message is written
/// as other bytes, these follow, and if its request brings another message, that.
pub fn put_words(alloc: Global, given: &str, said: &mut String) -> Result<(), Fault> {
    let mut fields = RowFields::of(given, ' ');
    let nodes = fields.small()?;
    let bytes = fields.bytes(alloc)?;
    match decode(alloc, &bytes, nodes) {
        Ok(message) => put_read(alloc, said, &message, &bytes, nodes),
        Err(fault) => put_wire_fault(said, fault),
    }
}

/// Appends a message, and its results, to an empty text.
fn put_read(
    alloc: Global,
    said: &mut String,
    message: &Message,
    bytes: &[u8],
    nodes: u32,
) -> Result<(), Fault>
    requires { HasSpelling message.now.body }
{
    put_message(said, message)?;
    let mut brought = String::new(alloc);
    put_brought(alloc, &mut brought, message, nodes)?;
    let differs = brought != *said;
    put_written(alloc, said, message, bytes)?;
    if differs {
        write!(said, ", brought as {brought}")?;
    }
    Ok(())
}

/// Appends the bytes as which a message is written, if they differ.
fn put_written(
    alloc: Global,
    said: &mut String,
    message: &Message,
    bytes: &[u8],
) -> Result<(), Fault>
    requires { HasSpelling message.now.body }
{
    let written = encode(alloc, message)?;
    if written.as_slice() == bytes {
        return Ok(());
    }
    put(said, ", written as ")?;
    put_hex(said, &written)
}

/// Appends the message that the request of a message brings.
fn put_brought(alloc: Global, said: &mut String, message: &Message, nodes: u32) -> Result<(), Fault>
    requires { HasSpelling message.now.body }
{
    match from_http(alloc, &to_http(alloc, message, "node2", None)?, nodes) {
        Ok(brought) => put_message(said, &brought),
        Err(fault) => put_fault(said, fault),
    }
}
