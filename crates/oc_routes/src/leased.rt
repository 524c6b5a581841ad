//! The leased children of a node.

ghost use Rattle.std.specs.Prelude.{◌≡◌, None, IfOk};
ghost use Rattle.oc_model.specs.Numbers.{at};
ghost use Rattle.oc_routes.specs.Rows.{leased_among};
ghost use Rattle.oc_state.specs.Children.{told_children};

use oc_base::{Child, Memory, NodeId, Slots};
use oc_state::children::children;
use oc_updown::Table;
use std::alloc::Global;

/// A leased child.
#[derive(Clone, Copy)]
pub(crate) struct Leased {
    pub(crate) child: Child,
    /// The second at which its lease ends, where one is set.
    pub(crate) lease: Option<u64>,
}

/// The leased children of a node with this table, ascending. The ends of leases and the rates are by the
/// number of a node.
pub(crate) fn leased_of(
    alloc: Global,
    table: &Table,
    me: NodeId,
    ends: &Slots<Option<u64>>,
    rates: &Slots<u64>,
) -> Result<Vec<Leased>, Memory>
    ensures { IfOk result (λ made. made.items ≡ leased_among ends.now.items (told_children table.now.entries me rates.now.items)) }
{
    let told = children(alloc, table.rows(), me, rates)?;
    with_ends(alloc, &told, ends)
}

/// The children, each with the end of its lease.
fn with_ends(
    alloc: Global,
    children: &[Child],
    ends: &Slots<Option<u64>>,
) -> Result<Vec<Leased>, Memory>
    ensures { IfOk result (λ made. made.items ≡ leased_among ends.now.items children.now) }
{
    let mut made = Vec::new(alloc);
    for child in children {
        made.push(Leased {
            child: *child,
            lease: end_of(ends, child.id),
        })?;
    }
    Ok(made)
}

/// The end of the lease of a child.
fn end_of(ends: &Slots<Option<u64>>, child: NodeId) -> Option<u64>
    ensures { result ≡ at ends.now.items child None }
{
    let index = (child.0 as usize).saturating_sub(1);
    ends.get_or(index, None)
}
