ghost use Rattle.std.specs.Prelude.{◌≡◌, ℕ, ◌+◌, ◌<◌, ◌≤◌, length, take, OnOk, OnErr};
ghost use Rattle.oc_io.specs.Faults.{NoFall, Rose};

use crate::fault::Failed;
use crate::sink::Sink;

/// Writes all of these bytes to the sink, without taking memory.
pub fn write_all<K: Sink>(sink: &mut K, bytes: &[u8]) -> Result<(), Failed>
    ensures takes { OnOk result (K.takes sink.old bytes.now sink.new) }

    // No further write after all bytes were taken.
    ensures calls { OnOk result (K.calls sink.new ≤ K.calls sink.old + length bytes.now) }

    // A prefix of the bytes before the failed call.
    ensures fails { OnErr result
        ((n : ℕ) × (n < length bytes.now) × K.fails sink.old (take n bytes.now) sink.new) }

    ensures count { NoFall (K.faults sink.old) (K.faults sink.new) }
    ensures cause { OnErr result (Rose (K.faults sink.old) (K.faults sink.new)) }
{
    let mut done = 0;
    while done < bytes.len() {
        done += sink.write(&bytes[done..])?;
    }
    Ok(())
}
