//! The condition of a request that publishes or seals.

ghost use Rattle.std.specs.Prelude.{◌≡◌};
ghost use Rattle.oc_routes.specs.Conditions.{unmet, unmet_at, unmet_by, unmet_in};

use crate::connections::kept_after;
use crate::holding::Holding;
use crate::refusals::refusing;
use crate::{Operation, Refusal, Refused, Request};
use oc_base::{GroupName, NodeId, Shelf};

/// The node at which groups are published.
const SOURCE: NodeId = NodeId(1);

/// The refusal of the node `me` with this shelf for the condition of a request: at the source the group has another
/// length than the request says, and the refusal has this length. The node checks this before it takes the input.
pub fn unmet(request: &Request, me: NodeId, shelf: &[Shelf]) -> Option<Refusal>
    ensures { result ≡ unmet request.now me shelf.now }
{
    let why = unmet_in(&request.asked.operation, me, shelf)?;
    Some(refusing(kept_after(request.last, request.count), why))
}

/// The fault of an operation by its condition.
fn unmet_in(operation: &Operation, me: NodeId, shelf: &[Shelf]) -> Option<Refused>
    ensures { result ≡ unmet_in operation.now me shelf.now }
{
    match operation {
        Operation::Publish { group, at } => unmet_at(me, group, *at, shelf),
        Operation::Seal { group, at } => unmet_at(me, group, *at, shelf),
        _ => None,
    }
}

/// The fault for the condition of a group, with the length that a request says, if it says one.
fn unmet_at(me: NodeId, group: &GroupName, at: Option<u64>, shelf: &[Shelf]) -> Option<Refused>
    ensures { result ≡ unmet_at me group.now at shelf.now }
{
    if me != SOURCE {
        return None;
    }
    unmet_by(Holding::in_shelf(shelf, group).held, at)
}

/// The fault for the condition of a group of this length.
fn unmet_by(held: u64, at: Option<u64>) -> Option<Refused>
    ensures { result ≡ unmet_by held at }
{
    match at {
        Some(at) if held != at => Some(Refused::At(held)),
        _ => None,
    }
}
