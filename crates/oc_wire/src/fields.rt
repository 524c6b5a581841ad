//! The fields of messages that are no plain numbers, except the children of a `LookIs`: each function reads a
//! field at an index, and gives its value and the next index, or the fault.

ghost use Rattle.std.specs.Prelude.{◌≡◌};
ghost use Rattle.oc_base.specs.Reading.{each_at, items_at, cert_at, Gives};
ghost use Rattle.oc_wire.specs.FieldReading.{node_or_none, parent_at, rank_or_none_at, refusal_with, refusal_at, name_at, is_after, next_name_at, certs_at, line_at, have_at, chunk_length_at, chunk_bytes_at};

use crate::refusals::REFUSALS;
use oc_base::reading::{
    byte_at, cert_at, flag_at, id_at, rank_at, u8_within_at, u16_within_at, u32_within_at,
    u64_within_at,
};
use oc_base::{
    Bytes, CertList, FieldFault, GroupName, MAX_CHECK_IN_CERTS, MAX_CHUNK_BYTES, MAX_GROUP_BYTES,
    MAX_GROUPS, MAX_NAME_BYTES, MIN_NAME_BYTES, NodeId, Rank, Refusal, Shelf, ShelfList, row_of,
    take_bytes,
};
use std::alloc::Global;

/// A parent, or 0 for none.
#[tactic(auto, unfolding(crate::specs::FieldReading::parent_at))]
pub(crate) fn parent_at(
    nodes: u32,
    bytes: &[u8],
    at: usize,
) -> Result<(Option<NodeId>, usize), FieldFault>
    ensures { result ≡ parent_at nodes bytes.now at }
{
    let (id, next) = u32_within_at(0, nodes, bytes, at)?;
    Ok((node_or_none(id), next))
}

/// The node with this id, where 0 is none.
fn node_or_none(id: u32) -> Option<NodeId>
    ensures { result ≡ node_or_none id }
{
    if id == 0 { None } else { Some(NodeId(id)) }
}

/// A tag, and after a tag of 1 a rank.
#[tactic(auto, unfolding(crate::specs::FieldReading::rank_or_none_at))]
pub(crate) fn rank_or_none_at(bytes: &[u8], at: usize) -> Result<(Option<Rank>, usize), FieldFault>
    ensures { result ≡ rank_or_none_at bytes.now at }
{
    let (is_ranked, next) = flag_at(bytes, at)?;
    if !is_ranked {
        return Ok((None, next));
    }
    let (rank, next) = rank_at(bytes, next)?;
    Ok((Some(rank), next))
}

/// A refusal, and the node that it names.
#[tactic(auto, unfolding(crate::specs::FieldReading::refusal_at))]
pub(crate) fn refusal_at(
    nodes: u32,
    bytes: &[u8],
    at: usize,
) -> Result<(Refusal, usize), FieldFault>
    ensures { result ≡ refusal_at nodes bytes.now at }
{
    let (code, next) = byte_at(bytes, at)?;
    refusal_with(code, nodes, bytes, next)
}

/// The refusal with this code, by the row that the code has.
#[tactic(auto, unfolding(crate::specs::FieldReading::refusal_with))]
fn refusal_with(
    code: u8,
    nodes: u32,
    bytes: &[u8],
    at: usize,
) -> Result<(Refusal, usize), FieldFault>
    ensures { result ≡ refusal_with code nodes bytes.now at }
{
    macro_rules! by_row {
        ($row:expr; $($index:literal => $refusal:expr,)*) => {
            match $row {
                $(Some($index) => $refusal,)*
                _ => Err(FieldFault::Value),
            }
        };
    }
    by_row! {
        row_of(&REFUSALS, code);
        0 => Ok((Refusal::Own, at)),
        1 => Ok((Refusal::NotJoined, at)),
        2 => Ok((Refusal::Ancestor, at)),
        3 => Ok((Refusal::Depth, at)),
        4 => {
            let (member, next) = id_at(nodes, bytes, at)?;
            Ok((Refusal::Chain(member), next))
        },
        5 => Ok((Refusal::Rank, at)),
    }
}

/// A name after its length.
#[tactic(auto, unfolding(crate::specs::FieldReading::name_at, oc_base::specs::Reading::text_at))]
pub(crate) fn name_at(bytes: &[u8], at: usize) -> Result<(GroupName, usize), FieldFault>
    ensures { result ≡ name_at bytes.now at }
{
    let (count, next) = u8_within_at(MIN_NAME_BYTES as u8, MAX_NAME_BYTES as u8, bytes, at)?;
    let (name, next) = take_bytes(bytes, next, usize::from(count))?;
    match GroupName::parse(name) {
        Ok(name) => Ok((name, next)),
        Err(_) => Err(FieldFault::Value),
    }
}

/// A name that is greater than the one before it.
#[tactic(auto, unfolding(crate::specs::FieldReading::next_name_at))]
fn next_name_at(
    before: Option<GroupName>,
    bytes: &[u8],
    at: usize,
) -> Result<(GroupName, usize), FieldFault>
    ensures { result ≡ next_name_at before bytes.now at }
{
    let (name, next) = name_at(bytes, at)?;
    if !is_after(before, name) {
        return Err(FieldFault::Value);
    }
    Ok((name, next))
}

/// Whether a name is greater than the one before it.
fn is_after(before: Option<GroupName>, name: GroupName) -> bool
    ensures { result ≡ is_after before name }
{
    match before {
        None => true,
        Some(before) => before < name,
    }
}

/// The certificates of a check-in.
#[tactic(auto, unfolding(crate::specs::FieldReading::certs_at))]
pub(crate) fn certs_at(
    alloc: Global,
    nodes: u32,
    bytes: &[u8],
    at: usize,
) -> Result<(CertList, usize), FieldFault>
    ensures { Gives result (certs_at nodes bytes.now at) }
{
    let (count, next) = u8_within_at(0, MAX_CHECK_IN_CERTS as u8, bytes, at)?;
    count_of_certs_at(alloc, nodes, count, bytes, next)
}

/// `count` certificates.
fn count_of_certs_at(
    alloc: Global,
    nodes: u32,
    count: u8,
    bytes: &[u8],
    at: usize,
) -> Result<(CertList, usize), FieldFault>
    ensures { Gives result (each_at (cert_at nodes bytes.now) count at) }
{
    let mut certs = Vec::new(alloc);
    let mut next = at;
    for _ in 0..count {
        let (cert, behind) = cert_at(nodes, bytes, next)?;
        certs.push(cert)?;
        next = behind;
    }
    Ok((CertList::of(certs), next))
}

/// A shelf, with ascending names.
#[tactic(auto, unfolding(crate::specs::FieldReading::have_at))]
pub(crate) fn have_at(
    alloc: Global,
    bytes: &[u8],
    at: usize,
) -> Result<(ShelfList, usize), FieldFault>
    ensures { Gives result (have_at bytes.now at) }
{
    let (count, next) = u8_within_at(0, MAX_GROUPS as u8, bytes, at)?;
    count_of_lines_at(alloc, count, bytes, next)
}

/// `count` lines of a shelf, each of a greater name than the one before it.
fn count_of_lines_at(
    alloc: Global,
    count: u8,
    bytes: &[u8],
    at: usize,
) -> Result<(ShelfList, usize), FieldFault>
    ensures { Gives result (items_at (λ before. line_at before bytes.now) (λ line. Some line.group) None count at) }
{
    let mut lines = Vec::new(alloc);
    let mut before = None;
    let mut next = at;
    for _ in 0..count {
        let (line, behind) = line_at(before, bytes, next)?;
        before = Some(line.group);
        lines.push(line)?;
        next = behind;
    }
    Ok((ShelfList::of(lines), next))
}

/// A line of a shelf, of a greater name than the one before it.
#[tactic(auto, unfolding(crate::specs::FieldReading::line_at))]
fn line_at(before: Option<GroupName>, bytes: &[u8], at: usize) -> Result<(Shelf, usize), FieldFault>
    ensures { result ≡ line_at before bytes.now at }
{
    let (group, next) = next_name_at(before, bytes, at)?;
    let (held, next) = u64_within_at(0, MAX_GROUP_BYTES, bytes, next)?;
    let (sealed, next) = flag_at(bytes, next)?;
    let line = Shelf {
        group,
        held,
        sealed,
    };
    Ok((line, next))
}

/// The bytes of a chunk.
#[tactic(auto, unfolding(crate::specs::FieldReading::chunk_bytes_at, oc_base::specs::Reading::text_at))]
pub(crate) fn chunk_bytes_at(
    alloc: Global,
    large: bool,
    bytes: &[u8],
    at: usize,
) -> Result<(Bytes, usize), FieldFault>
    ensures { Gives result (chunk_bytes_at large bytes.now at) }
{
    let (count, next) = chunk_length_at(large, bytes, at)?;
    let (chunk, next) = take_bytes(bytes, next, count as usize)?;
    let mut items = Vec::new(alloc);
    items.extend_from_slice(chunk)?;
    Ok((Bytes::of(items), next))
}

/// The length of a chunk in bytes: more than two bytes can count, or no more.
fn chunk_length_at(large: bool, bytes: &[u8], at: usize) -> Result<(u32, usize), FieldFault>
    ensures { result ≡ chunk_length_at large bytes.now at }
{
    if large {
        u32_within_at(65_536, MAX_CHUNK_BYTES as u32, bytes, at)
    } else {
        let (count, next) = u16_within_at(0, u16::MAX, bytes, at)?;
        Ok((u32::from(count), next))
    }
}
