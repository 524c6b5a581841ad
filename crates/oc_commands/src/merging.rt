//! The command `merge`, which merges the records of running nodes into one schedule.
ghost use Rattle.std.specs.Prelude.{◌≡◌, ℕ, List, Ok, Err, IfOk, IfErr};
ghost use Rattle.oc_io.specs.Faults.{NoFall};
ghost use Rattle.oc_merge.specs.Records.{AreRecords};
ghost use Rattle.oc_merge.specs.Reading.{records_of};
ghost use Rattle.oc_commands.specs.AtMerge.{EndsEarly, HappenedAtMerge, IsMergedText, end_of_records};
ghost use Rattle.oc_commands.specs.Outside.{at_sink, at_source};

use oc_base::Memory;
use oc_index::{IndexedWorld, LoneNode};
use oc_io::{ReadFault, Sink, Source, read_all, write_all};
use oc_merge::{
    Cause, MAX_RECORD_BYTES, MergeEnd, Most, Records, RecordsFault, merge, read, without_missed,
};
use oc_schedule::print;
use std::alloc::Global;

/// The end of `merge`.
#[derive(Clone, Copy)]
pub enum RecordsEnd {
    /// The whole schedule of the lines that can be taken was written, and this is the end of the
    /// merge.
    Merged(MergeEnd),
    /// A line of the input, counted from 1, is refused for this reason, and nothing was written.
    Text { line: u32, cause: Cause },
    /// The input exceeds a limit, and nothing was written.
    Limit(Most),
    /// The input failed, and nothing was written.
    Source,
    /// The output failed.
    Sink,
    /// Memory ran out, and nothing was written.
    Memory,
}

/// Reads the records on the input to its end, and writes the schedule of their lines that can be
/// taken. All memory is taken before anything is written.
#[tactic(auto, using(crate::proofs::RecordsRead::happened_early))]
pub fn merge_input<S: Source, K: Sink>(alloc: Global, input: &mut S, out: &mut K) -> RecordsEnd
    ensures happened { HappenedAtMerge
        (at_source S.gives S.fails S.ended S.faults input.old input.new)
        (at_sink K.takes K.fails K.faults out.old out.new) result }
    ensures input_count { NoFall (S.faults input.old) (S.faults input.new) }
    ensures output_count { NoFall (K.faults out.old) (K.faults out.new) }
{
    let records = match records_in(alloc, input) {
        Ok(records) => records,
        Err(end) => return end,
    };
    match merged_text(alloc, records) {
        Ok((text, end)) => match write_all(out, &text) {
            Ok(()) => RecordsEnd::Merged(end),
            Err(_) => RecordsEnd::Sink,
        },
        Err(Memory) => RecordsEnd::Memory,
    }
}

/// Reads the records from the source, up to its end. An error is the end of the command.
#[tactic(auto, using(crate::proofs::RecordsRead::long_records, crate::proofs::RecordsRead::ends_at))]
fn records_in<S: Source>(alloc: Global, input: &mut S) -> Result<Records, RecordsEnd>
    ensures read { IfOk result (λ r. (bytes : List ℕ) × S.gives input.old bytes input.new × S.ended input.new × (records_of bytes ≡ Ok r)) }
    ensures lawful { IfOk result AreRecords }
    ensures ended { IfErr result (EndsEarly (at_source S.gives S.fails S.ended S.faults input.old input.new)) }
    ensures count { NoFall (S.faults input.old) (S.faults input.new) }
{
    match read_all(alloc, input, MAX_RECORD_BYTES as usize) {
        Ok(bytes) => match read(alloc, &bytes) {
            Ok(records) => Ok(records),
            Err(fault) => Err(end_of_records(fault)),
        },
        Err(ReadFault::Failed) => Err(RecordsEnd::Source),
        Err(ReadFault::TooMany) => Err(RecordsEnd::Limit(Most::Bytes)),
        Err(ReadFault::Memory) => Err(RecordsEnd::Memory),
    }
}

/// The end that a fault of records brings.
fn end_of_records(fault: RecordsFault) -> RecordsEnd
    ensures { result ≡ end_of_records fault }
{
    match fault {
        RecordsFault::Line { line, cause } => RecordsEnd::Text { line, cause },
        RecordsFault::Limit(most) => RecordsEnd::Limit(most),
        RecordsFault::Memory => RecordsEnd::Memory,
    }
}

/// The text of the merged schedule of records, without the lines of inputs that were not taken, and
/// the end of the merge.
fn merged_text(alloc: Global, records: Records) -> Result<(Vec<u8>, MergeEnd), Memory>
    requires { AreRecords records }
    ensures { IfOk result (λ merged. IsMergedText records merged.0.items merged.1) }
{
    let there = without_missed::<LoneNode>(alloc, records)?;
    let mut nodes = IndexedWorld::new(alloc, &there.header)?;
    let (schedule, end) = merge(alloc, &mut nodes, &there)?;
    Ok((print(alloc, &schedule)?, end))
}
