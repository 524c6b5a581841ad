ghost use Rattle.std.specs.Prelude.{◌≡◌, ◌||◌, not, IfOk};
ghost use Rattle.std.specs.Str.Lines.{lines};
ghost use Rattle.oc_merge.specs.Reading.{Gives, is_ended, is_none, nothing_read, read_lines, records_of};
ghost use Rattle.oc_merge.specs.Records.{AreRecords};

use crate::fault::{MAX_RECORD_BYTES, MAX_RECORD_LINES, Most, RecordsFault};
use crate::reader::Reader;
use crate::records::Records;
use oc_base::words::first_line;
use std::alloc::Global;

/// Reads the text of records, any bytes: gives the records, or the first fault.
///
/// A text of too many bytes is refused first of all. Then each line is refused for the first of
/// these reasons: there are too many lines, the line has a fault, too many bytes are published. A
/// text without a header is refused at the line after its last.
pub fn read(alloc: Global, bytes: &[u8]) -> Result<Records, RecordsFault>
    ensures exact { Gives result (records_of bytes.now) }

    // The header and the lines are within their ranges.
    ensures lawful { IfOk result AreRecords }
{
    if bytes.len() as u64 > MAX_RECORD_BYTES {
        return Err(RecordsFault::Limit(Most::Bytes));
    }
    read_lines(alloc, bytes)
}

/// Whether a text ends with a line end.
fn is_ended(bytes: &[u8]) -> bool
    ensures { result ≡ is_ended bytes.now }
{
    match bytes {
        [] => false,
        [..] => bytes[bytes.len() - 1] == b'\n',
    }
}

/// Whether a line is complete: the text ends with a line end, or this is not the last line.
#[tactic(auto, using(crate::proofs::LineEnds::none_is))]
fn is_whole(ended: bool, behind: &[u8]) -> bool
    ensures { result ≡ (ended || not (is_none (lines behind.now))) }
{
    ended || !behind.is_empty()
}

/// Reads the lines of a text in order.
fn read_lines(alloc: Global, bytes: &[u8]) -> Result<Records, RecordsFault>
    ensures { Gives result (read_lines 1 (is_ended bytes.now) nothing_read (lines bytes.now)) }
{
    let ended = is_ended(bytes);
    let mut reader = Reader::new(alloc);
    let mut number = 1;
    let mut rest = bytes;
    'lines: while !rest.is_empty() {
        let (line, behind) = first_line(rest);
        if number > MAX_RECORD_LINES {
            return Err(RecordsFault::Limit(Most::Lines));
        }
        let whole = is_whole(ended, behind);
        reader = reader.with_line(alloc, number, whole, line)?;
        number += 1;
        rest = behind;
    }
    reader.into_records(number)
}
