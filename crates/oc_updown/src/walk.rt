ghost use Rattle.std.specs.Prelude.{◌≡◌, length};
ghost use Rattle.oc_model.specs.Table.{parent_in, reaches, is_listed};
ghost use Rattle.oc_updown.specs.TableView.{AreRows, entries_of};

use crate::rows::parent_of;
use oc_base::{Cert, NodeId, Slots};

/// Whether the way up from a node comes to the root. A way to the root passes each row at most once, so as
/// many steps as there are rows are enough, and the walk ends even in a loop.
#[tactic(auto, using(oc_model::proofs::Walks::walk_step, oc_model::proofs::Walks::walk_ends, oc_model::proofs::Walks::walk_over))]
pub(crate) fn reaches(rows: &Slots<Option<Cert>>, root: NodeId, node: NodeId) -> bool
    requires { AreRows rows.now.items }
    ensures { result ≡ reaches (length rows.now.items) (entries_of rows.now.items) root (parent_in (entries_of rows.now.items) node) }
{
    let mut above = parent_of(rows, node);
    for _ in 0..rows.len() {
        match above {
            None => return false,
            Some(parent) if parent == root => return true,
            Some(parent) => above = parent_of(rows, parent),
        }
    }
    false
}

/// Whether a node is listed beneath the root.
#[tactic(auto, using(oc_model::proofs::Walks::listed_walk, crate::proofs::Entries::fewer_entries))]
pub(crate) fn is_listed(rows: &Slots<Option<Cert>>, root: NodeId, node: NodeId) -> bool
    requires { AreRows rows.now.items }
    ensures { result ≡ is_listed (entries_of rows.now.items) root node }
{
    node != root && reaches(rows, root, node)
}
