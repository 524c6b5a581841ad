//! The facts about nodes by their ids.

ghost use Rattle.std.specs.Prelude.{◌≡◌, IfOk, false, option_map};
ghost use Rattle.oc_model.specs.Numbers.{at};
ghost use Rattle.oc_routes.specs.Sights.{has_address, has_row, ids_told, ids_with, is_here, is_left_out, is_missing, is_told, missing, name_of, sight_of, silence_of};

use crate::seen::Seen;
use oc_base::{Memory, NodeId};
use std::alloc::Global;
use std::marker::Model;

/// A node that is missing at an acting one.
#[derive(Clone, Copy)]
pub(crate) struct MissingNode(pub(crate) NodeId);

impl Model for MissingNode {
    ghost use Rattle.std.specs.Prelude.{ℕ};

    ghost Value = { ℕ };

    ghost view = { λ node. node.0 };

    ghost inverse = { λ x. record { 0 = x } };
}

/// The name of a node, if it has one.
pub(crate) fn name_of<'a>(seen: &Seen<'a>, node: NodeId) -> Option<&'a str>
    ensures { option_map (λ name. name.now) result ≡ name_of (sight_of seen.now) node }
{
    match seen
        .directory
        .names
        .get((node.0 as usize).saturating_sub(1))
    {
        Some(Some(name)) => Some(name.as_str()),
        _ => None,
    }
}

/// The seconds since a node was heard of, if it was since the start.
pub(crate) fn silence_of(seen: &Seen<'_>, node: NodeId) -> Option<u64>
    ensures { result ≡ silence_of (sight_of seen.now) node }
{
    let second = seen.tally.heard(node)?;
    Some(seen.node.now().saturating_sub(second))
}

/// Whether a node is listed, or is this one.
pub(crate) fn is_here(seen: &Seen<'_>, node: NodeId) -> bool
    ensures { result ≡ is_here (sight_of seen.now) node }
{
    let me = seen.node.id();
    node == me || seen.node.table().is_listed(me, node)
}

/// Whether a node is left out of the reports: it is retired, and not listed.
pub(crate) fn is_left_out(seen: &Seen<'_>, node: NodeId, listed: bool) -> bool
    ensures { result ≡ is_left_out (sight_of seen.now) node listed }
{
    is_retired(seen, node) && !listed
}

/// Whether a node is retired.
fn is_retired(seen: &Seen<'_>, node: NodeId) -> bool
    ensures { result ≡ at seen.now.directory.retired.now node false }
{
    let slot = (node.0 as usize).saturating_sub(1);
    slot < seen.directory.retired.len() && seen.directory.retired[slot]
}

fn has_address(seen: &Seen<'_>, node: NodeId) -> bool
    ensures { result ≡ has_address (sight_of seen.now) node }
{
    matches!(
        seen.directory
            .addresses
            .get((node.0 as usize).saturating_sub(1)),
        Some(Some(_))
    )
}

fn has_row(seen: &Seen<'_>, node: NodeId) -> bool
    ensures { result ≡ has_row (sight_of seen.now) node }
{
    seen.node.table().entry(node).is_some()
}

/// Whether a node is in the metrics: it has an address or a row, and is not left out.
fn is_told(seen: &Seen<'_>, node: NodeId) -> bool
    ensures { result ≡ is_told (sight_of seen.now) node }
{
    (has_address(seen, node) || has_row(seen, node))
        && !is_left_out(seen, node, is_here(seen, node))
}

/// Whether a node is missing at an acting one: it is another, with an address and without a row.
fn is_missing(seen: &Seen<'_>, node: NodeId) -> bool
    ensures { result ≡ is_missing (sight_of seen.now) node }
{
    node != seen.node.id() && has_address(seen, node) && !has_row(seen, node)
}

/// The nodes in the metrics, ascending.
pub(crate) fn ids_told(alloc: Global, seen: &Seen<'_>) -> Result<Vec<NodeId>, Memory>
    ensures { IfOk result (λ ids. ids.items ≡ ids_told (sight_of seen.now)) }
{
    let mut ids = Vec::new(alloc);
    for before in 0..seen.ids {
        let node = NodeId(before + 1);
        if is_told(seen, node) {
            ids.push(node)?;
        }
    }
    Ok(ids)
}

/// The nodes that are missing at an acting one, ascending; at any other node none.
pub(crate) fn missing(alloc: Global, seen: &Seen<'_>) -> Result<Vec<MissingNode>, Memory>
    ensures { IfOk result (λ ids. ids.items ≡ missing (sight_of seen.now)) }
{
    if seen.node.mode().is_acting() {
        ids_missing(alloc, seen)
    } else {
        Ok(Vec::new(alloc))
    }
}

/// The nodes that are missing at an acting one, ascending.
fn ids_missing(alloc: Global, seen: &Seen<'_>) -> Result<Vec<MissingNode>, Memory>
    ensures { IfOk result (λ ids. ids.items ≡ ids_with (is_missing (sight_of seen.now)) (sight_of seen.now)) }
{
    let mut ids = Vec::new(alloc);
    for before in 0..seen.ids {
        let node = NodeId(before + 1);
        if is_missing(seen, node) {
            ids.push(MissingNode(node))?;
        }
    }
    Ok(ids)
}
