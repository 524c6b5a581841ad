//! The lines of a head, taken from a source one byte at a time, so that nothing after the head is taken.

ghost use Rattle.std.specs.Prelude.{◌≤◌, IfErr, OnOk, IsErrOf, vec_len, vec_capacity};
ghost use Rattle.oc_io.specs.Faults.{NoFall, Rose};
ghost use Rattle.oc_http.specs.Lines.{IsLineTaken, IsLineCut};

use crate::fault::HttpFault;
use crate::take_byte;
use oc_base::MAX_HEAD_BYTES;
use oc_io::Source;

/// Takes the rest of a line, with its end, and puts it after the bytes of the head so far. There is
/// room for them, so no memory is taken.
pub(crate) fn take_line<S: Source>(source: &mut S, bytes: &mut Vec<u8>) -> Result<(), HttpFault>
    requires short { vec_len bytes.old ≤ MAX_HEAD_BYTES }
    requires room { MAX_HEAD_BYTES ≤ vec_capacity bytes.old }
    ensures line { OnOk result (IsLineTaken S.gives source.old source.new bytes.old.items bytes.new.items) }
    ensures cut { IfErr result (IsLineCut S.gives S.fails source.old source.new bytes.old.items (S.ended source.new)) }
    ensures room { MAX_HEAD_BYTES ≤ vec_capacity bytes.new }
    ensures count { NoFall (S.faults source.old) (S.faults source.new) }
    ensures cause { IsErrOf result HttpFault.Source → Rose (S.faults source.old) (S.faults source.new) }
{
    'bytes: while bytes.len() < MAX_HEAD_BYTES {
        let Some(byte) = take_byte(source)? else {
            return Err(HttpFault::Ended);
        };
        bytes.push(byte)?;
        if byte == b'\n' {
            return Ok(());
        }
    }
    Err(HttpFault::HeadLong)
}
