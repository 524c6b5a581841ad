ghost use Rattle.std.specs.Prelude.{◌≡◌};
ghost use Rattle.oc_model.specs.Adoption.{take_rank as taken};

use oc_base::{MAX_DEPTH, Rank};

/// The rank of a node after its parent told its own: the rank beneath the told one, if that precedes the
/// node's own or the node has none; else the node's own. So a late, worse rank changes nothing, and no rank
/// is beneath one of depth `MAX_DEPTH` or more.
pub fn take_rank(own: Option<Rank>, told: Rank) -> Option<Rank>
    ensures { result ≡ taken own told }
{
    if told.depth >= MAX_DEPTH {
        return own;
    }
    let beneath = told.beneath();
    match own {
        Some(rank) if !beneath.precedes(rank) => own,
        _ => Some(beneath),
    }
}
