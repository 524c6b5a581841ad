ghost use Rattle.std.specs.Prelude.{◌≡◌, Option, Some, None};
ghost use Rattle.oc_model.specs.Choice.{chosen, is_suitable, is_nearer};
ghost use Rattle.oc_place.specs.Best.{nearer_yet};

use oc_base::NodeId;
use oc_model::Candidate;

/// Chooses the suitable candidate with the fewest hops, and of several the one with the least id; `direct`
/// is the rate of the direct way, in bytes per second.
pub fn choose(direct: u64, list: &[Candidate]) -> Option<NodeId>
    ensures { result ≡ chosen direct list.now }
{
    let mut best: Option<Candidate> = None;
    for candidate in list {
        if is_suitable(direct, candidate) {
            best = Some(nearer(best, *candidate));
        }
    }
    best.map(|candidate| candidate.id)
}

/// Whether the way through a candidate was measured, and has at least nine tenths of the direct rate.
fn is_suitable(direct: u64, candidate: &Candidate) -> bool
    ensures { result ≡ is_suitable direct candidate.now }
{
    let through = candidate.mine.min(candidate.up);
    candidate.mine != 0 && candidate.up != 0 && 10 * u128::from(through) >= 9 * u128::from(direct)
}

/// The nearer of the best so far and this one.
fn nearer(best: Option<Candidate>, candidate: Candidate) -> Candidate
    ensures { result ≡ nearer_yet best candidate }
{
    match best {
        Some(best) if !is_nearer(&candidate, &best) => best,
        _ => candidate,
    }
}

/// Whether a candidate is nearer than the other: it has fewer hops, or as many and a smaller id.
fn is_nearer(candidate: &Candidate, other: &Candidate) -> bool
    ensures { result ≡ is_nearer candidate.now other.now }
{
    candidate.hops < other.hops || (candidate.hops == other.hops && candidate.id.0 < other.id.0)
}
