ghost use Rattle.std.specs.Prelude.{◌≡◌, [], ◌∷◌, ◌++◌, not, OnOk, IfOk};
ghost use Rattle.oc_model.specs.Numbers.{has};
ghost use Rattle.oc_step.specs.Told.{but};

use oc_base::{Child, Memory, NodeId};
use std::alloc::Global;

// The children that a node tells to other nodes.

/// Whether an id is not in the list.
fn is_none_of(id: NodeId, ids: &[NodeId]) -> bool
    ensures { result ≡ not (has ids.now id) }
{
    !ids.contains(&id)
}

/// Adds a child at the end, unless it is one of these nodes.
fn push_but(told: &mut Vec<Child>, child: &Child, out: &[NodeId]) -> Result<(), Memory>
    ensures { OnOk result (told.new.items ≡ told.old.items ++ but out.now (child.now ∷ [])) }
{
    if is_none_of(child.id, out) {
        told.push(*child)?;
    }
    Ok(())
}

/// The children without those that are among these nodes, in their order.
pub(crate) fn leave_out(
    alloc: Global,
    children: &[Child],
    out: &[NodeId],
) -> Result<Vec<Child>, Memory>
    ensures { IfOk result (λ made. made.items ≡ but out.now children.now) }
{
    let mut told = Vec::new(alloc);
    for child in children {
        push_but(&mut told, child, out)?;
    }
    Ok(told)
}
