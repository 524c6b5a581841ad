//! The fields of each kind of message except a `LookIs`: each function reads those of one kind at an index,
//! and gives the body and the next index, or the first fault from the left.

ghost use Rattle.std.specs.Prelude.{◌≡◌};
ghost use Rattle.oc_base.specs.Reading.{Gives};
ghost use Rattle.oc_wire.specs.FieldReading.{ask_at, yes_at, no_at, check_in_at, check_ack_at, rejoin_at, fetch_at, chunk_at};

use crate::fields::{certs_at, chunk_bytes_at, have_at, name_at, rank_or_none_at, refusal_at};
use oc_base::reading::{ancestors_at, count_at, flag_at, long_at, rank_at, rate_at, u64_within_at};
use oc_base::{FieldFault, MAX_GROUP_BYTES};
use oc_model::Body;
use std::alloc::Global;

/// The fields of an `Ask`: its number, and its rank or none.
#[tactic(auto, unfolding(crate::specs::FieldReading::ask_at))]
pub(crate) fn ask_at(bytes: &[u8], at: usize) -> Result<(Body, usize), FieldFault>
    ensures { result ≡ ask_at bytes.now at }
{
    let (seq, next) = count_at(bytes, at)?;
    let (rank, next) = rank_or_none_at(bytes, next)?;
    Ok((Body::Ask { seq, rank }, next))
}

/// The fields of a `Yes`: the number of the ask, the rank, and the ancestors.
#[tactic(auto, unfolding(crate::specs::FieldReading::yes_at))]
pub(crate) fn yes_at(
    alloc: Global,
    nodes: u32,
    bytes: &[u8],
    at: usize,
) -> Result<(Body, usize), FieldFault>
    ensures { Gives result (yes_at nodes bytes.now at) }
{
    let (seq, next) = count_at(bytes, at)?;
    let (rank, next) = rank_at(bytes, next)?;
    let (ancestors, next) = ancestors_at(alloc, nodes, bytes, next)?;
    let body = Body::Yes {
        seq,
        rank,
        ancestors,
    };
    Ok((body, next))
}

/// The fields of a `No`: the number of the ask, and the refusal.
#[tactic(auto, unfolding(crate::specs::FieldReading::no_at))]
pub(crate) fn no_at(nodes: u32, bytes: &[u8], at: usize) -> Result<(Body, usize), FieldFault>
    ensures { result ≡ no_at nodes bytes.now at }
{
    let (seq, next) = count_at(bytes, at)?;
    let (why, next) = refusal_at(nodes, bytes, next)?;
    Ok((Body::No { seq, why }, next))
}

/// The fields of a `CheckIn`: its five numbers, and its certificates.
#[tactic(auto, unfolding(crate::specs::FieldReading::check_in_at))]
pub(crate) fn check_in_at(
    alloc: Global,
    nodes: u32,
    bytes: &[u8],
    at: usize,
) -> Result<(Body, usize), FieldFault>
    ensures { Gives result (check_in_at nodes bytes.now at) }
{
    let (seq, next) = count_at(bytes, at)?;
    let (upto, next) = long_at(bytes, next)?;
    let (rate, next) = rate_at(bytes, next)?;
    let (number, next) = long_at(bytes, next)?;
    let (clients, next) = long_at(bytes, next)?;
    let (certs, next) = certs_at(alloc, nodes, bytes, next)?;
    let body = Body::CheckIn {
        seq,
        upto,
        rate,
        number,
        clients,
        certs,
    };
    Ok((body, next))
}

/// The fields of a `CheckAck`: two numbers, the rank, and the ancestors.
#[tactic(auto, unfolding(crate::specs::FieldReading::check_ack_at))]
pub(crate) fn check_ack_at(
    alloc: Global,
    nodes: u32,
    bytes: &[u8],
    at: usize,
) -> Result<(Body, usize), FieldFault>
    ensures { Gives result (check_ack_at nodes bytes.now at) }
{
    let (seq, next) = count_at(bytes, at)?;
    let (upto, next) = long_at(bytes, next)?;
    let (rank, next) = rank_at(bytes, next)?;
    let (ancestors, next) = ancestors_at(alloc, nodes, bytes, next)?;
    let body = Body::CheckAck {
        seq,
        upto,
        rank,
        ancestors,
    };
    Ok((body, next))
}

/// The field of a `Rejoin`: its number.
#[tactic(auto, unfolding(crate::specs::FieldReading::rejoin_at))]
pub(crate) fn rejoin_at(bytes: &[u8], at: usize) -> Result<(Body, usize), FieldFault>
    ensures { result ≡ rejoin_at bytes.now at }
{
    let (seq, next) = count_at(bytes, at)?;
    Ok((Body::Rejoin { seq }, next))
}

/// The field of a `Fetch`: a shelf.
#[tactic(auto, unfolding(crate::specs::FieldReading::fetch_at))]
pub(crate) fn fetch_at(alloc: Global, bytes: &[u8], at: usize) -> Result<(Body, usize), FieldFault>
    ensures { Gives result (fetch_at bytes.now at) }
{
    let (have, next) = have_at(alloc, bytes, at)?;
    Ok((Body::Fetch { have }, next))
}

/// The fields of a `Chunk`, of many bytes or of few: the group, the start, whether it is the last, and the
/// bytes.
#[tactic(auto, unfolding(crate::specs::FieldReading::chunk_at))]
pub(crate) fn chunk_at(
    alloc: Global,
    large: bool,
    bytes: &[u8],
    at: usize,
) -> Result<(Body, usize), FieldFault>
    ensures { Gives result (chunk_at large bytes.now at) }
{
    let (group, next) = name_at(bytes, at)?;
    let (start, next) = u64_within_at(0, MAX_GROUP_BYTES, bytes, next)?;
    let (last, next) = flag_at(bytes, next)?;
    let (bytes, next) = chunk_bytes_at(alloc, large, bytes, next)?;
    let body = Body::Chunk {
        group,
        start,
        bytes,
        last,
    };
    Ok((body, next))
}
