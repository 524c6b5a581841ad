ghost use Rattle.std.specs.Prelude.{◌≡◌, Option, Some, None, IfErr, OnOk};
ghost use Rattle.oc_model.specs.Adoption.{adoption_refusal, chain_refusal, rank_refusal};

use crate::Host;
use crate::membership::is_among;
use oc_base::{MAX_DEPTH, NodeId, Rank, Refusal};

/// Whether the host may become the parent of the asker, which has this rank or none: Ok, or the first
/// refusal with a cause, in the order of [`Refusal`] (rule 7, answer an ask). The rank prevents cycles even
/// if the list of ancestors is out of date. Takes no memory.
pub fn may_adopt(host: &Host, asker: NodeId, rank: Option<Rank>) -> Result<(), Refusal>
    ensures adopted { OnOk result (adoption_refusal host.now asker rank ≡ None) }
    ensures refused { IfErr result (λ why. adoption_refusal host.now asker rank ≡ Some why) }
{
    match refusal(host, asker, rank) {
        Some(why) => Err(why),
        None => Ok(()),
    }
}

/// The first refusal with a cause, if there is one.
fn refusal(host: &Host, asker: NodeId, rank: Option<Rank>) -> Option<Refusal>
    ensures { result ≡ adoption_refusal host.now asker rank }
{
    if asker == host.id {
        Some(Refusal::Own)
    } else if !host.in_tree {
        Some(Refusal::NotJoined)
    } else if is_among(asker, host.ancestors) {
        Some(Refusal::Ancestor)
    } else if host.rank.depth >= MAX_DEPTH {
        Some(Refusal::Depth)
    } else {
        by_chain(host, asker).or(by_rank(host.rank, rank))
    }
}

/// The refusal that keeps the chain one line: the host is a chain member that has another one below it,
/// below which the asker belongs.
fn by_chain(host: &Host, asker: NodeId) -> Option<Refusal>
    ensures { result ≡ chain_refusal host.now asker host.now.chain_child }
{
    let child = host.chain_child?;
    if host.id.0 <= host.chain && (asker.0 > host.chain || asker.0 > child.0) {
        Some(Refusal::Chain(child))
    } else {
        None
    }
}

/// The refusal that keeps the ranks in order: a parent's rank precedes its child's.
fn by_rank(own: Rank, rank: Option<Rank>) -> Option<Refusal>
    ensures { result ≡ rank_refusal own rank }
{
    match rank {
        Some(rank) if !own.precedes(rank) => Some(Refusal::Rank),
        _ => None,
    }
}
