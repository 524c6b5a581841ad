//! Adoption: the nodes that a host refuses, and the rank that is taken.

use oc_base::{NodeId, Rank};
use oc_place::{Host, may_adopt, take_rank};
use std::alloc::Global;
use test_tools::{Fault, RowFields, put_shown};

/// Appends the words of a row: the refusal or `ok`, or the rank that is taken.
pub fn put_words(alloc: Global, given: &str, said: &mut String) -> Result<(), Fault> {
    let mut fields = RowFields::of(given, ' ');
    match fields.text() {
        "adopt" => put_adopted(alloc, fields, said),
        "take" => put_taken(fields.some_rank()?, fields.rank()?, said),
        _ => Err(Fault::Field),
    }
}

/// Appends the answer of a host to a node that asks it.
fn put_adopted(alloc: Global, mut fields: RowFields<'_>, said: &mut String) -> Result<(), Fault> {
    let id = fields.node()?;
    let in_tree = fields.text() == "in";
    let rank = fields.rank()?;
    let ancestors = fields.nodes(alloc)?;
    put_answer(id, in_tree, rank, &ancestors, fields, said)
}

fn put_answer(
    id: NodeId,
    in_tree: bool,
    rank: Rank,
    ancestors: &[NodeId],
    mut fields: RowFields<'_>,
    said: &mut String,
) -> Result<(), Fault> {
    let host = Host {
        id,
        in_tree,
        rank,
        ancestors,
        chain: fields.small()?,
        chain_child: fields.some_node()?,
    };
    match may_adopt(&host, fields.node()?, fields.some_rank()?) {
        Ok(()) => Ok(said.push_str("ok")?),
        Err(refusal) => put_shown(said, &refusal),
    }
}

/// Puts the rank that is taken, or `-` for none.
fn put_taken(own: Option<Rank>, told: Rank, said: &mut String) -> Result<(), Fault> {
    match take_rank(own, told) {
        Some(rank) => {
            let epoch = rank.epoch;
            let depth = rank.depth;
            Ok(write!(said, "{epoch}.{depth}")?)
        }
        None => Ok(said.push_str("-")?),
    }
}
