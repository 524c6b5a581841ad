ghost use Rattle.std.specs.Prelude.{◌≡◌};
ghost use Rattle.oc_model.specs.Adopting.{in_tree};
ghost use Rattle.oc_model.specs.Asking.{is_asking};
ghost use Rattle.oc_model.specs.Checking.{is_peer};
ghost use Rattle.oc_model.specs.Looking.{parent_of, prefers};
ghost use Rattle.oc_state.specs.Modes.{is_idle, is_descending, is_reviewing};

use oc_base::NodeId;
use oc_model::{Mode, Search};

// Answers that a mode and a search give about another node.

/// Whether a node of this mode is in the tree.
pub fn in_tree(mode: Mode) -> bool
    ensures { result ≡ in_tree mode }
{
    matches!(mode, Mode::Joined(_) | Mode::Acting)
}

pub fn is_idle(mode: Mode) -> bool
    ensures { result ≡ is_idle mode }
{
    matches!(mode, Mode::Idle)
}

/// The parent of a node of this mode.
pub fn parent_of(mode: Mode) -> Option<NodeId>
    ensures { result ≡ parent_of mode }
{
    match mode {
        Mode::Joined(parent) => Some(parent),
        _ => None,
    }
}

/// Whether a node of this mode has asked `peer` to be its parent.
pub fn is_asking(mode: Mode, peer: NodeId) -> bool
    ensures { result ≡ is_asking mode peer }
{
    match mode {
        Mode::Asking(asked) => asked == peer,
        _ => false,
    }
}

/// Whether `peer` is the parent of a node of this mode, or has been asked to be.
pub fn is_peer(mode: Mode, peer: NodeId) -> bool
    ensures { result ≡ is_peer mode peer }
{
    match mode {
        Mode::Asking(asked) => asked == peer,
        Mode::Joined(parent) => parent == peer,
        _ => false,
    }
}

/// Whether a chain member prefers `peer` as its parent (rule 12, the line of the chain): it is acting, or its
/// parent is an earlier member than `peer`.
pub fn prefers(mode: Mode, peer: NodeId) -> bool
    ensures { result ≡ prefers mode peer }
{
    match mode {
        Mode::Acting => true,
        Mode::Joined(parent) => parent.0 < peer.0,
        _ => false,
    }
}

/// Whether the node is on a descent at `peer`.
pub fn is_descending(search: &Option<Search>, peer: NodeId) -> bool
    ensures { result ≡ is_descending search.now peer }
{
    match search {
        Some(Search::Descend(node)) => *node == peer,
        _ => false,
    }
}

/// Whether the node reviews its place.
pub fn is_reviewing(search: Option<Search>) -> bool
    ensures { result ≡ is_reviewing search }
{
    matches!(search, Some(Search::Review))
}
