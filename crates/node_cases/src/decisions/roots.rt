//! Roots: the order in which others are asked, and the next epoch.

use oc_base::NodeId;
use oc_place::{ask_order, raise};
use std::alloc::Global;
use test_tools::{Fault, RowFields, put_shown};

/// Puts the words of a row: the nodes that are asked, or the next epoch.
pub fn put_words(alloc: Global, given: &str, said: &mut String) -> Result<(), Fault> {
    let mut fields = RowFields::of(given, ' ');
    match fields.text() {
        "order" => put_order(alloc, fields, said),
        "raise" => put_shown(said, &raise(fields.number()?)),
        _ => Err(Fault::Field),
    }
}

/// Puts the nodes that are asked, in order.
fn put_order(alloc: Global, mut fields: RowFields<'_>, said: &mut String) -> Result<(), Fault> {
    let me = fields.node()?;
    let chain = fields.small()?;
    let ancestors = fields.nodes(alloc)?;
    put_asked(alloc, me, chain, &ancestors, fields.some_node()?, said)
}

fn put_asked(
    alloc: Global,
    me: NodeId,
    chain: u32,
    ancestors: &[NodeId],
    parent: Option<NodeId>,
    said: &mut String,
) -> Result<(), Fault> {
    // The old content of the list is no part of the answer.
    let mut asked = vec![in alloc; NodeId(77)]?;
    ask_order(me, chain, ancestors, parent, &mut asked)?;
    put_ids(&asked, said)
}

fn put_ids(ids: &[NodeId], said: &mut String) -> Result<(), Fault> {
    for id in ids {
        put_shown(said, &id.0)?;
    }
    Ok(())
}
