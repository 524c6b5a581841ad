//! Readers of the fields of binary formats: each reads a field at an index, and answers its value with the
//! next index, or the fault. Numbers are big-endian.

ghost use Rattle.std.specs.Prelude.{◌≡◌};
ghost use Rattle.std.specs.Int.{w8, w16, w32, w64};
ghost use Rattle.oc_base.specs.Reading.{within_at, byte_at, long_at, count_at, id_at, rate_at, flag_at, rank_at, cert_at, each_at, ancestors_at, Gives};

use crate::limits::{MAX_ANCESTORS, MAX_DEPTH, MAX_RATE};
use crate::{Cert, FieldFault, IdList, NodeId, Rank, take_u8, take_u16, take_u32, take_u64};
use std::alloc::Global;

/// Reads any byte.
pub fn byte_at(bytes: &[u8], at: usize) -> Result<(u8, usize), FieldFault>
    ensures { result ≡ byte_at bytes.now at }
{
    Ok(take_u8(bytes, at)?)
}

/// Reads a byte from `least` to `most`.
#[tactic(auto, unfolding(crate::specs::Reading::within_at))]
pub fn u8_within_at(least: u8, most: u8, bytes: &[u8], at: usize) -> Result<(u8, usize), FieldFault>
    ensures { result ≡ within_at w8 least most bytes.now at }
{
    let (number, next) = take_u8(bytes, at)?;
    if number < least || number > most {
        return Err(FieldFault::Value);
    }
    Ok((number, next))
}

/// Reads a number of two bytes from `least` to `most`.
#[tactic(auto, unfolding(crate::specs::Reading::within_at))]
pub fn u16_within_at(
    least: u16,
    most: u16,
    bytes: &[u8],
    at: usize,
) -> Result<(u16, usize), FieldFault>
    ensures { result ≡ within_at w16 least most bytes.now at }
{
    let (number, next) = take_u16(bytes, at)?;
    if number < least || number > most {
        return Err(FieldFault::Value);
    }
    Ok((number, next))
}

/// Reads a number of four bytes from `least` to `most`.
#[tactic(auto, unfolding(crate::specs::Reading::within_at))]
pub fn u32_within_at(
    least: u32,
    most: u32,
    bytes: &[u8],
    at: usize,
) -> Result<(u32, usize), FieldFault>
    ensures { result ≡ within_at w32 least most bytes.now at }
{
    let (number, next) = take_u32(bytes, at)?;
    if number < least || number > most {
        return Err(FieldFault::Value);
    }
    Ok((number, next))
}

/// Reads a number of eight bytes from `least` to `most`.
#[tactic(auto, unfolding(crate::specs::Reading::within_at))]
pub fn u64_within_at(
    least: u64,
    most: u64,
    bytes: &[u8],
    at: usize,
) -> Result<(u64, usize), FieldFault>
    ensures { result ≡ within_at w64 least most bytes.now at }
{
    let (number, next) = take_u64(bytes, at)?;
    if number < least || number > most {
        return Err(FieldFault::Value);
    }
    Ok((number, next))
}

/// Reads any number of eight bytes.
pub fn long_at(bytes: &[u8], at: usize) -> Result<(u64, usize), FieldFault>
    ensures { result ≡ long_at bytes.now at }
{
    Ok(take_u64(bytes, at)?)
}

/// Reads a number of eight bytes that is not 0.
pub fn count_at(bytes: &[u8], at: usize) -> Result<(u64, usize), FieldFault>
    ensures { result ≡ count_at bytes.now at }
{
    u64_within_at(1, u64::MAX, bytes, at)
}

/// Reads the id of one of `nodes` nodes.
pub fn id_at(nodes: u32, bytes: &[u8], at: usize) -> Result<(NodeId, usize), FieldFault>
    ensures { result ≡ id_at nodes bytes.now at }
{
    let (id, next) = u32_within_at(1, nodes, bytes, at)?;
    Ok((NodeId(id), next))
}

/// Reads a rate in bytes per second.
pub fn rate_at(bytes: &[u8], at: usize) -> Result<(u64, usize), FieldFault>
    ensures { result ≡ rate_at bytes.now at }
{
    u64_within_at(0, MAX_RATE, bytes, at)
}

/// Reads a byte that is 0 or 1, as a flag.
#[tactic(auto, unfolding(crate::specs::Reading::flag_at))]
pub fn flag_at(bytes: &[u8], at: usize) -> Result<(bool, usize), FieldFault>
    ensures { result ≡ flag_at bytes.now at }
{
    let (byte, next) = u8_within_at(0, 1, bytes, at)?;
    Ok((byte == 1, next))
}

/// Reads a rank: an epoch and a depth.
#[tactic(auto, unfolding(crate::specs::Reading::rank_at))]
pub fn rank_at(bytes: &[u8], at: usize) -> Result<(Rank, usize), FieldFault>
    ensures { result ≡ rank_at bytes.now at }
{
    let (epoch, next) = long_at(bytes, at)?;
    let (depth, next) = u32_within_at(0, MAX_DEPTH, bytes, next)?;
    Ok((Rank { epoch, depth }, next))
}

/// Reads a certificate about nodes of a network of `nodes` nodes.
#[tactic(auto, unfolding(crate::specs::Reading::cert_at))]
pub fn cert_at(nodes: u32, bytes: &[u8], at: usize) -> Result<(Cert, usize), FieldFault>
    ensures { result ≡ cert_at nodes bytes.now at }
{
    let (subject, next) = id_at(nodes, bytes, at)?;
    let (seq, next) = count_at(bytes, next)?;
    let (parent, next) = id_at(nodes, bytes, next)?;
    let (dead, next) = flag_at(bytes, next)?;
    let (number, next) = long_at(bytes, next)?;
    let (clients, next) = long_at(bytes, next)?;
    let cert = Cert {
        subject,
        seq,
        parent,
        dead,
        number,
        clients,
    };
    Ok((cert, next))
}

/// Reads the ancestors of a node, in a network of `nodes` nodes.
#[tactic(auto, unfolding(crate::specs::Reading::ancestors_at))]
pub fn ancestors_at(
    alloc: Global,
    nodes: u32,
    bytes: &[u8],
    at: usize,
) -> Result<(IdList, usize), FieldFault>
    ensures { Gives result (ancestors_at nodes bytes.now at) }
{
    let (count, next) = u16_within_at(0, MAX_ANCESTORS as u16, bytes, at)?;
    ids_at(alloc, nodes, count, bytes, next)
}

/// Reads `count` ids.
fn ids_at(
    alloc: Global,
    nodes: u32,
    count: u16,
    bytes: &[u8],
    at: usize,
) -> Result<(IdList, usize), FieldFault>
    ensures { Gives result (each_at (id_at nodes bytes.now) count at) }
{
    let mut ids = Vec::new(alloc);
    let mut next = at;
    for _ in 0..count {
        let (id, behind) = id_at(nodes, bytes, next)?;
        ids.push(id)?;
        next = behind;
    }
    Ok((IdList::of(ids), next))
}
