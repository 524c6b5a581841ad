ghost use Rattle.std.specs.Prelude.{◌≡◌, ◌+◌, ◌<◌, ◌⊎◌, List, IfOk, IfSome, IfNone};
ghost use Rattle.oc_model.specs.declared.record.Record.{Record};
ghost use Rattle.oc_record.specs.Faults.{of_field};
ghost use Rattle.oc_record.specs.Reading.{Gives, GivesList, fields_at, record_at, decoded};
ghost use Rattle.oc_record.specs.Spelling.{records_bytes};
ghost use Rattle.oc_model.specs.Lawful.{AreRecords};

use crate::codes::CODES;
use crate::kinds::{
    acked_at, ancestors_record_at, ask_at, base_at, entry_at, epoch_at, info_at, joined_at,
    old_entry_at, ranked_at, rate_record_at, snapshot_at,
};
use crate::{Record, RecordFault};
use oc_base::reading::byte_at;
use oc_base::{FieldFault, row_of};
use std::alloc::Global;

/// Reads the records in these bytes, for a network of `nodes` nodes: all of the bytes, or the first fault.
pub fn decode(alloc: Global, bytes: &[u8], nodes: u32) -> Result<Vec<Record>, RecordFault>
    // Only the one spelling of a lawful list is accepted.
    ensures found { IfOk result (λ list. AreRecords nodes list.items × (bytes.now ≡ records_bytes list.items)) }
    ensures only { (list : List Record) → AreRecords nodes list → bytes.now ≡ records_bytes list
        → GivesList result (Ok list) }

    // The fault is the first one from the left.
    ensures exact { GivesList result (decoded nodes bytes.now) }
{
    records_of(alloc, nodes, bytes)
}

/// Reads the records up to the end.
fn records_of(alloc: Global, nodes: u32, bytes: &[u8]) -> Result<Vec<Record>, RecordFault>
    ensures { GivesList result (decoded nodes bytes.now) }
{
    let mut list = Vec::new(alloc);
    let mut at = 0;
    while at < bytes.len() {
        let (record, next) = record_at(alloc, nodes, bytes, at)?;
        list.push(record)?;
        at = next;
    }
    Ok(list)
}

/// Reads the record at an index; answers it with the next index.
#[tactic(auto, using(crate::proofs::Lifts::fault_given), unfolding(crate::specs::Reading::record_at))]
fn record_at(
    alloc: Global,
    nodes: u32,
    bytes: &[u8],
    at: usize,
) -> Result<(Record, usize), RecordFault>
    ensures { Gives result (record_at nodes bytes.now at) }
{
    let (code, next) = byte_at(bytes, at)?;
    fields_at(alloc, code, nodes, bytes, next)
}

/// Reads the fields of the kind with this code.
fn fields_at(
    alloc: Global,
    code: u8,
    nodes: u32,
    bytes: &[u8],
    at: usize,
) -> Result<(Record, usize), RecordFault>
    ensures { Gives result (fields_at code nodes bytes.now at) }
{
    macro_rules! by_row {
        ($row:expr; $($place:literal => $read:expr,)*) => {
            match $row {
                $(Some($place) => record_of($read),)*
                _ => Err(RecordFault::Kind(code)),
            }
        };
    }
    by_row! {
        row_with(code);
        0 => ask_at(nodes, bytes, at),
        1 => joined_at(nodes, bytes, at),
        2 => Ok((Record::Lost, at)),
        3 => Ok((Record::Acting, at)),
        4 => ranked_at(bytes, at),
        5 => old_entry_at(nodes, bytes, at),
        6 => acked_at(bytes, at),
        7 => ancestors_record_at(alloc, nodes, bytes, at),
        8 => rate_record_at(nodes, bytes, at),
        9 => epoch_at(bytes, at),
        10 => base_at(bytes, at),
        11 => snapshot_at(bytes, at),
        12 => entry_at(nodes, bytes, at),
        13 => info_at(bytes, at),
    }
}

/// The record that was read, or the fault of its field as that of the record.
fn record_of(read: Result<(Record, usize), FieldFault>) -> Result<(Record, usize), RecordFault>
    ensures { result ≡ of_field read }
{
    Ok(read?)
}

/// The index of the row with this code.
fn row_with(code: u8) -> Option<usize>
    ensures some { IfSome result (λ row. (code ≡ row + 1) × (row < 14)) }
    ensures none { IfNone result ((code ≡ 0) ⊎ (14 < code)) }
{
    row_of(&CODES, code)
}
