//! Readers of the fields of each kind: each reads the fields at an index, and answers the record with
//! the next index, or the first fault from the left.

ghost use Rattle.std.specs.Prelude.{◌≡◌};
ghost use Rattle.oc_base.specs.Reading.{Gives};
ghost use Rattle.oc_record.specs.Reading.{ask_at, joined_at, ranked_at, old_entry_at, acked_at, ancestors_record_at, rate_record_at, epoch_at, base_at, snapshot_at, entry_at, info_at};

use oc_base::reading::{
    ancestors_at, byte_at, cert_at, count_at, flag_at, id_at, long_at, rank_at, rate_at,
    u64_within_at,
};
use oc_base::{FieldFault, MAX_BASE_ACKED};
use oc_model::Record;
use std::alloc::Global;

#[tactic(auto, unfolding(crate::specs::Reading::ask_at))]
pub fn ask_at(nodes: u32, bytes: &[u8], at: usize) -> Result<(Record, usize), FieldFault>
    ensures { result ≡ ask_at nodes bytes.now at }
{
    let (seq, next) = count_at(bytes, at)?;
    let (peer, next) = id_at(nodes, bytes, next)?;
    Ok((Record::Ask { seq, peer }, next))
}

#[tactic(auto, unfolding(crate::specs::Reading::joined_at))]
pub fn joined_at(nodes: u32, bytes: &[u8], at: usize) -> Result<(Record, usize), FieldFault>
    ensures { result ≡ joined_at nodes bytes.now at }
{
    let (peer, next) = id_at(nodes, bytes, at)?;
    let (rank, next) = rank_at(bytes, next)?;
    Ok((Record::Joined { peer, rank }, next))
}

#[tactic(auto, unfolding(crate::specs::Reading::ranked_at))]
pub fn ranked_at(bytes: &[u8], at: usize) -> Result<(Record, usize), FieldFault>
    ensures { result ≡ ranked_at bytes.now at }
{
    let (rank, next) = rank_at(bytes, at)?;
    Ok((Record::Ranked { rank }, next))
}

#[tactic(auto, unfolding(crate::specs::Reading::old_entry_at))]
pub fn old_entry_at(nodes: u32, bytes: &[u8], at: usize) -> Result<(Record, usize), FieldFault>
    ensures { result ≡ old_entry_at nodes bytes.now at }
{
    let (subject, next) = id_at(nodes, bytes, at)?;
    let (seq, next) = count_at(bytes, next)?;
    let (parent, next) = id_at(nodes, bytes, next)?;
    let (dead, next) = flag_at(bytes, next)?;
    let entry = Record::OldEntry {
        subject,
        seq,
        parent,
        dead,
    };
    Ok((entry, next))
}

#[tactic(auto, unfolding(crate::specs::Reading::acked_at))]
pub fn acked_at(bytes: &[u8], at: usize) -> Result<(Record, usize), FieldFault>
    ensures { result ≡ acked_at bytes.now at }
{
    let (upto, next) = long_at(bytes, at)?;
    Ok((Record::Acked { upto }, next))
}

#[tactic(auto, unfolding(crate::specs::Reading::ancestors_record_at))]
pub fn ancestors_record_at(
    alloc: Global,
    nodes: u32,
    bytes: &[u8],
    at: usize,
) -> Result<(Record, usize), FieldFault>
    ensures { Gives result (ancestors_record_at nodes bytes.now at) }
{
    let (ids, next) = ancestors_at(alloc, nodes, bytes, at)?;
    Ok((Record::Ancestors { ids }, next))
}

#[tactic(auto, unfolding(crate::specs::Reading::rate_record_at))]
pub fn rate_record_at(nodes: u32, bytes: &[u8], at: usize) -> Result<(Record, usize), FieldFault>
    ensures { result ≡ rate_record_at nodes bytes.now at }
{
    let (peer, next) = id_at(nodes, bytes, at)?;
    let (rate, next) = rate_at(bytes, next)?;
    let (hops, next) = byte_at(bytes, next)?;
    Ok((Record::Rate { peer, rate, hops }, next))
}

#[tactic(auto, unfolding(crate::specs::Reading::epoch_at))]
pub fn epoch_at(bytes: &[u8], at: usize) -> Result<(Record, usize), FieldFault>
    ensures { result ≡ epoch_at bytes.now at }
{
    let (epoch, next) = long_at(bytes, at)?;
    Ok((Record::Epoch { epoch }, next))
}

#[tactic(auto, unfolding(crate::specs::Reading::base_at))]
pub fn base_at(bytes: &[u8], at: usize) -> Result<(Record, usize), FieldFault>
    ensures { result ≡ base_at bytes.now at }
{
    let (acked, next) = u64_within_at(0, MAX_BASE_ACKED, bytes, at)?;
    Ok((Record::Base { acked }, next))
}

#[tactic(auto, unfolding(crate::specs::Reading::snapshot_at))]
pub fn snapshot_at(bytes: &[u8], at: usize) -> Result<(Record, usize), FieldFault>
    ensures { result ≡ snapshot_at bytes.now at }
{
    let (generation, next) = count_at(bytes, at)?;
    Ok((Record::Snapshot { generation }, next))
}

#[tactic(auto, unfolding(crate::specs::Reading::entry_at))]
pub fn entry_at(nodes: u32, bytes: &[u8], at: usize) -> Result<(Record, usize), FieldFault>
    ensures { result ≡ entry_at nodes bytes.now at }
{
    let (cert, next) = cert_at(nodes, bytes, at)?;
    Ok((Record::Entry { cert }, next))
}

#[tactic(auto, unfolding(crate::specs::Reading::info_at))]
pub fn info_at(bytes: &[u8], at: usize) -> Result<(Record, usize), FieldFault>
    ensures { result ≡ info_at bytes.now at }
{
    let (number, next) = count_at(bytes, at)?;
    let (clients, next) = long_at(bytes, next)?;
    Ok((Record::Info { number, clients }, next))
}
