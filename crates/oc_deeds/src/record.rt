//! The beginning of a record.

ghost use Rattle.std.specs.Prelude.{◌≡◌, ◌++◌, IfOk, OnOk};
ghost use Rattle.oc_deeds.specs.Brief.{told_first};
ghost use Rattle.oc_deeds.specs.Records.{network_of, network_text, record_head, up_line};

use crate::brief::put_place;
use crate::log::Log;
use oc_base::{Memory, NodeId, Shelf, put, put_with_number};
use oc_model::{Header, Sizes};
use oc_node::Node;
use oc_replay::put_has_line;
use oc_schedule::{EventList, Schedule, print};
use std::alloc::Global;

/// The lines of a node that begins, and holds these groups. `Memory` where it runs out.
pub fn told_first(alloc: Global, log: Log, node: &Node, shelf: &[Shelf]) -> Result<Vec<u8>, Memory>
    ensures { IfOk result (λ text. text.items ≡ told_first log node.now.control shelf.now) }
{
    let mut text = Vec::new(alloc);
    match log {
        Log::Inputs => {}
        Log::Record => put_head(alloc, &mut text, node, shelf)?,
        Log::Brief => put_place(&mut text, node)?,
    }
    Ok(text)
}

/// Puts the beginning of a record.
fn put_head(alloc: Global, out: &mut Vec<u8>, node: &Node, shelf: &[Shelf]) -> Result<(), Memory>
    ensures { OnOk result (out.new.items ≡ out.old.items ++ record_head node.now.control shelf.now) }
{
    put(out, b"#\n")?;
    put_network(alloc, out, node)?;
    put_up_line(out, node.id())?;
    put_has_line(alloc, out, node, shelf)
}

/// Puts `up ID`.
fn put_up_line(out: &mut Vec<u8>, me: NodeId) -> Result<(), Memory>
    ensures { OnOk result (out.new.items ≡ out.old.items ++ up_line me) }
{
    put_with_number(out, b"up ", u64::from(me.0))?;
    put(out, b"\n")
}

/// Puts the header of the network of a node, and its areas.
fn put_network(alloc: Global, out: &mut Vec<u8>, node: &Node) -> Result<(), Memory>
    ensures { OnOk result (out.new.items ≡ out.old.items ++ network_text (network_of node.now.control)) }
{
    let schedule = Schedule {
        header: Header {
            sizes: Sizes {
                nodes: node.nodes(),
                chain: node.chain(),
                chunk: node.chunk(),
            },
            areas: copy(alloc, node.areas())?,
        },
        events: EventList::new(alloc),
    };
    let text = print(alloc, &schedule)?;
    put(out, &text)
}

/// A copy of these areas.
fn copy(alloc: Global, areas: &[u8]) -> Result<Vec<u8>, Memory>
    ensures { IfOk result (λ copy. copy.items ≡ areas.now) }
{
    let mut copy = Vec::new(alloc);
    put(&mut copy, areas)?;
    Ok(copy)
}
