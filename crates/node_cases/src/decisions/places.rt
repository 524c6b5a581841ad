//! Places: the candidate that is chosen, and whether a place is kept.

use oc_base::NodeId;
use oc_place::{Candidate, View, choose, review};
use std::alloc::Global;
use test_tools::{Fault, RowFields, put_shown};

/// An upper bound on the candidates of a row.
const MOST: u32 = 1000;

/// Appends the words of a row: the node that is chosen, or the result of a review.
pub fn put_words(alloc: Global, given: &str, said: &mut String) -> Result<(), Fault> {
    let mut fields = RowFields::of(given, ' ');
    match fields.text() {
        "choose" => put_chosen(alloc, fields, said),
        "review" => put_reviewed(alloc, fields, said),
        _ => Err(Fault::Field),
    }
}

/// Puts the node that is chosen.
fn put_chosen(alloc: Global, mut fields: RowFields<'_>, said: &mut String) -> Result<(), Fault> {
    let direct = fields.number()?;
    let candidates = candidates_in(alloc, fields.list())?;
    put_shown(said, &choose(direct, &candidates))
}

/// Appends the result of a review.
fn put_reviewed(alloc: Global, mut fields: RowFields<'_>, said: &mut String) -> Result<(), Fault> {
    let direct = fields.number()?;
    let up = fields.number()?;
    let grand = grand_in(fields.text())?;
    let siblings = candidates_in(alloc, fields.list())?;
    let view = View {
        direct,
        up,
        grand,
        siblings: &siblings,
    };
    put_shown(said, &review(&view))
}

/// A grandparent and the node's own rate to it, as in `1:101`, or `-` for none.
fn grand_in(text: &str) -> Result<Option<(NodeId, u64)>, Fault> {
    if text == "-" {
        return Ok(None);
    }
    let mut fields = RowFields::of(text, ':');
    Ok(Some((fields.node()?, fields.number()?)))
}

/// The candidates of the fields: each has its id, the node's own rate to it, its rate to the root, and the hops.
fn candidates_in(alloc: Global, mut fields: RowFields<'_>) -> Result<Vec<Candidate>, Fault> {
    let mut list = Vec::new(alloc);
    for _ in 0..MOST {
        if fields.is_empty() {
            break;
        }
        list.push(candidate_in(fields.text())?)?;
    }
    Ok(list)
}

fn candidate_in(text: &str) -> Result<Candidate, Fault> {
    let mut parts = RowFields::of(text, ':');
    Ok(Candidate {
        id: parts.node()?,
        mine: parts.number()?,
        up: parts.number()?,
        hops: parts.byte()?,
    })
}
