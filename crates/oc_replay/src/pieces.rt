//! A text that is gathered, and written in pieces.

ghost use Rattle.std.specs.Prelude.{◌≡◌, ◌<◌, ◌++◌, length, OnOk, OnErr, IsErrOf};
ghost use Rattle.oc_io.specs.Faults.{NoFall, Rose};
ghost use Rattle.oc_replay.specs.Lines.{end_line};
ghost use Rattle.oc_replay.specs.Pieces.{PassesOn, SomeFront};
ghost use Rattle.oc_replay.specs.declared.pieces.TheConstants.{PIECE as ENOUGH};

use crate::fault::ReportFault;
use crate::lines::put_end;
use oc_io::{Failed, Sink, write_all};

/// The number of bytes gathered before they are written.
const PIECE: usize = 65_536;

/// Writes the gathered bytes, once there are enough.
pub fn pass_on<K: Sink>(sink: &mut K, out: &mut Vec<u8>) -> Result<(), Failed>
    ensures waits { length out.old.items < ENOUGH → (sink.new ≡ sink.old) × (out.new.items ≡ out.old.items) }
    ensures few { OnOk result (length out.new.items < ENOUGH) }
    ensures passed { OnOk result (PassesOn (λ bytes. K.takes sink.old bytes sink.new) out.old.items out.new.items) }
    ensures failed { OnErr result (SomeFront out.old.items (λ front. K.fails sink.old front sink.new)) }
    ensures count { NoFall (K.faults sink.old) (K.faults sink.new) }
    ensures cause { OnErr result (Rose (K.faults sink.old) (K.faults sink.new)) }
{
    if out.len() >= PIECE {
        write_all(sink, out)?;
        out.clear();
    }
    Ok(())
}

/// Writes the last part of a report: the gathered bytes, and the end line with the numbers of
/// events and messages.
pub fn write_last<K: Sink>(
    sink: &mut K,
    out: &mut Vec<u8>,
    events: u64,
    messages: u64,
) -> Result<(), ReportFault>
    ensures written { OnOk result (K.takes sink.old (out.old.items ++ end_line events messages) sink.new) }

    // When a call failed, a prefix had been taken; when memory ran out, nothing.
    ensures failed { IsErrOf result ReportFault.Sink
        → SomeFront (out.old.items ++ end_line events messages) (λ front. K.fails sink.old front sink.new) }
    ensures memory { IsErrOf result ReportFault.Memory → sink.new ≡ sink.old }
    ensures count { NoFall (K.faults sink.old) (K.faults sink.new) }
    ensures cause { IsErrOf result ReportFault.Sink → Rose (K.faults sink.old) (K.faults sink.new) }
{
    put_end(out, events, messages)?;
    write_all(sink, out)?;
    Ok(())
}
