//! The fields of a `LookIs`: its children have ascending ids.

ghost use Rattle.std.specs.Prelude.{◌≡◌};
ghost use Rattle.oc_base.specs.Reading.{items_at, Gives};
ghost use Rattle.oc_wire.specs.FieldReading.{child_at, children_at, look_is_at};

use crate::fields::parent_at;
use oc_base::reading::{flag_at, rate_at, u16_within_at, u32_within_at};
use oc_base::{Child, ChildList, FieldFault, NodeId};
use oc_model::Body;
use std::alloc::Global;

/// The fields of a `LookIs`.
#[tactic(auto, unfolding(crate::specs::FieldReading::look_is_at))]
pub(crate) fn look_is_at(
    alloc: Global,
    nodes: u32,
    bytes: &[u8],
    at: usize,
) -> Result<(Body, usize), FieldFault>
    ensures { Gives result (look_is_at nodes bytes.now at) }
{
    let (in_tree, next) = flag_at(bytes, at)?;
    let (parent, next) = parent_at(nodes, bytes, next)?;
    let (rate, next) = rate_at(bytes, next)?;
    let (children, next) = children_at(alloc, nodes, bytes, next)?;
    let body = Body::LookIs {
        in_tree,
        parent,
        rate,
        children,
    };
    Ok((body, next))
}

/// Children, with ascending ids.
#[tactic(auto, unfolding(crate::specs::FieldReading::children_at))]
fn children_at(
    alloc: Global,
    nodes: u32,
    bytes: &[u8],
    at: usize,
) -> Result<(ChildList, usize), FieldFault>
    ensures { Gives result (children_at nodes bytes.now at) }
{
    let (count, next) = u16_within_at(0, u16::MAX, bytes, at)?;
    count_of_children_at(alloc, nodes, count, bytes, next)
}

/// `count` children, each of a greater id than the one before it.
fn count_of_children_at(
    alloc: Global,
    nodes: u32,
    count: u16,
    bytes: &[u8],
    at: usize,
) -> Result<(ChildList, usize), FieldFault>
    ensures { Gives result (items_at (λ before. child_at before nodes bytes.now) (λ child. child.id) 0 count at) }
{
    let mut children = Vec::new(alloc);
    let mut before = NodeId(0);
    let mut next = at;
    for _ in 0..count {
        let (child, behind) = child_at(before, nodes, bytes, next)?;
        before = child.id;
        children.push(child)?;
        next = behind;
    }
    Ok((ChildList::of(children), next))
}

/// A child of a greater id than the one before it.
#[tactic(auto, unfolding(crate::specs::FieldReading::child_at, oc_base::specs::Reading::within_at))]
fn child_at(
    before: NodeId,
    nodes: u32,
    bytes: &[u8],
    at: usize,
) -> Result<(Child, usize), FieldFault>
    ensures { result ≡ child_at before nodes bytes.now at }
{
    let (id, next) = u32_within_at(0, nodes, bytes, at)?;
    if id <= before.0 {
        return Err(FieldFault::Value);
    }
    let (rate, next) = rate_at(bytes, next)?;
    let child = Child {
        id: NodeId(id),
        rate,
    };
    Ok((child, next))
}
