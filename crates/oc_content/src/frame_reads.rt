//! Reading bytes that lie across frames.

ghost use Rattle.std.specs.Prelude.{◌≡◌, ◌+◌, ◌-◌, ◌<◌, ◌≤◌, ◌++◌, ◌↔◌, None, IsTrue, IsErrOf, IfOk, OnOk, OnErr, length, take, drop, min, flat_map};
ghost use Rattle.oc_journal.specs.Promises.{OnlyReads, NoneFailed, ClosesByRead};
ghost use Rattle.oc_content.specs.ContentFile.{bytes_in};
ghost use Rattle.oc_base.specs.declared.limits.TheConstants.{MAX_GROUP_BYTES};
ghost use Rattle.oc_base.specs.Shelves.{held_of};
ghost use Rattle.oc_content.specs.ContentView.{IsIndexed};
ghost use Rattle.oc_content.specs.Indexes.{bytes_at};
ghost use Rattle.oc_content.specs.Founds.{BeginsWithin};

use crate::errors::ReadError;
use crate::index::Index;
use crate::track::Span;
use oc_base::{GroupName, Lookup, look_up};
use oc_io::{Disk, Failed};
use oc_journal::Journal;

/// Reads the bytes of a group from an offset on, as many as fit; answers their number.
pub fn read_group<D: Disk>(
    journal: &mut Journal<D>,
    index: &Index,
    group: &GroupName,
    start: u64,
    buf: &mut [u8],
) -> Result<usize, ReadError>
    requires { IsIndexed D.view journal.old index.now }
    ensures within { IfOk result (λ n. n ≤ length buf.old) }
    ensures bytes { IfOk result (λ n. IsTrue (D.view journal.old.disk).honest
        → take n buf.new ≡ take (length buf.old) (drop start (bytes_in group.now journal.old.frames))) }
    ensures no_group { IsErrOf result ReadError.NoGroup ↔ (held_of group.now index.now.shelves.items ≡ None) }
    ensures disk { IsErrOf result ReadError.Disk → ClosesByRead D.view journal.old journal.new }
    ensures none_failed { ¬ IsErrOf result ReadError.Disk → NoneFailed D.view journal.old journal.new }
    ensures same { OnlyReads D.view journal.old journal.new }
{
    let Lookup::Found(at) = look_up(&index.shelves, group) else {
        return Err(ReadError::NoGroup);
    };
    let Some((spans, skip)) = index.find(at, start) else {
        return Ok(0);
    };
    Ok(read_spans(journal, spans, skip, buf)?)
}

/// Reads the bytes of these spans from the offset `skip` of the first on, as many as fit, by one read
/// for each span concerned; answers their number.
pub fn read_spans<D: Disk>(
    journal: &mut Journal<D>,
    spans: &[Span],
    mut skip: u64,
    buf: &mut [u8],
) -> Result<usize, Failed>
    requires { skip < MAX_GROUP_BYTES }
    ensures within { IfOk result (λ n. n ≤ length buf.old) }
    ensures bytes { IfOk result (λ n. IsTrue (D.view journal.old.disk).honest
        → BeginsWithin journal.old.frames skip spans.now
        → take n buf.new ≡ take (length buf.old) (drop skip (flat_map (bytes_at journal.old.frames) spans.now))) }
    ensures disk { OnErr result (ClosesByRead D.view journal.old journal.new) }
    ensures none_failed { OnOk result (NoneFailed D.view journal.old journal.new) }
    ensures same { OnlyReads D.view journal.old journal.new }
{
    let mut count = 0;
    for span in spans {
        if count == buf.len() {
            break;
        }
        count = read_span(journal, span, skip, buf, count)?;
        skip = 0;
    }
    Ok(count)
}

/// Reads the bytes of a span from an offset on, after the `count` bytes that are in the buffer; answers
/// the number of bytes in the buffer then.
fn read_span<D: Disk>(
    journal: &mut Journal<D>,
    span: &Span,
    skip: u64,
    buf: &mut [u8],
    count: usize,
) -> Result<usize, Failed>
    requires skip { skip < MAX_GROUP_BYTES }
    requires count { count ≤ length buf.old }
    ensures within { IfOk result (λ n. (count ≤ n) × (n ≤ length buf.old)) }
    ensures count { IfOk result (λ n. IsTrue (D.view journal.old.disk).honest
        → n ≡ count + min (length buf.old - count) (length (bytes_at journal.old.frames span.now) - skip)) }
    ensures bytes { IfOk result (λ n. IsTrue (D.view journal.old.disk).honest
        → take n buf.new
        ≡ take count buf.old ++ take (n - count) (drop skip (bytes_at journal.old.frames span.now))) }
    ensures disk { OnErr result (ClosesByRead D.view journal.old journal.new) }
    ensures none_failed { OnOk result (NoneFailed D.view journal.old journal.new) }
    ensures same { OnlyReads D.view journal.old journal.new }
{
    let more = journal.peek(span.frame, u64::from(span.skip) + skip, &mut buf[count..])?;
    Ok(count + more)
}
