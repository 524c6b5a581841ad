ghost use Rattle.std.specs.Prelude.{◌≡◌, IfOk};
ghost use Rattle.oc_model.specs.Adoption.{rank_or_last, precedes_any};
ghost use Rattle.oc_model.specs.Asking.{next_epoch, ancestors_by};
ghost use Rattle.oc_state.specs.Modes.{better_rank};

use oc_base::{IdList, MAX_ANCESTORS, MAX_DEPTH, Memory, NodeId, Rank};
use oc_place::{raise, take_rank};
use std::alloc::Global;

/// The rank, or for a node without one the last of all ranks.
pub fn rank_or_last(rank: Option<Rank>) -> Rank
    ensures { result ≡ rank_or_last rank }
{
    match rank {
        Some(rank) => rank,
        None => Rank {
            epoch: 0,
            depth: MAX_DEPTH,
        },
    }
}

/// The epoch after that of a rank, or the last epoch if there is no later one.
pub fn next_epoch(rank: Rank) -> u64
    ensures { result ≡ next_epoch rank }
{
    raise(rank.epoch).unwrap_or(rank.epoch)
}

/// Whether a rank precedes that of a node; every rank precedes that of a node without one.
pub fn precedes_any(rank: Rank, other: Option<Rank>) -> bool
    ensures { result ≡ precedes_any rank other }
{
    match other {
        Some(other) => rank.precedes(other),
        None => true,
    }
}

/// The ancestors of a child of this parent, from the parent's own ones: at most 1,000, nearest first.
#[tactic(auto, using(crate::proofs::Lists::take_few))]
pub fn ancestors_by(alloc: Global, parent: NodeId, above: &[NodeId]) -> Result<IdList, Memory>
    ensures { IfOk result (λ ids. ids ≡ ancestors_by parent above.now) }
{
    let count = above.len().min(MAX_ANCESTORS - 1);
    let mut ids = Vec::with_capacity(alloc, count + 1)?;
    ids.push(parent)?;
    ids.extend_from_slice(&above[..count])?;
    Ok(IdList::of(ids))
}

/// The rank beneath the told one, if that is better than the node's own.
#[tactic(auto, using(crate::proofs::Better::better_left, crate::proofs::Better::better_found))]
pub fn better_rank(own: Option<Rank>, told: Rank) -> Option<Rank>
    ensures { result ≡ better_rank own told }
{
    let rank = take_rank(own, told);
    if rank == own { None } else { rank }
}
