ghost use Rattle.std.specs.Prelude.{◌≡◌, ℕ, ◌+◌, ◌<◌, ◌≤◌, List, length, vec_len, IfOk, OnOk, IsErrOf};
ghost use Rattle.oc_io.specs.Faults.{NoFall, Rose};

use crate::read_fault::ReadFault;
use crate::source::Source;
use std::alloc::{AllocError, Global};

/// The greatest number of bytes that one call of `read` asks for.
const PIECE: usize = 65_536;

/// Reads a source up to its end, and stops with `TooMany` as soon as more than `most` bytes have
/// come.
pub fn read_all<S: Source>(alloc: Global, source: &mut S, most: usize) -> Result<Vec<u8>, ReadFault>
    // All bytes up to the end.
    ensures gives { IfOk result (λ bytes. S.gives source.old bytes.items source.new) }
    ensures end { OnOk result (S.ended source.new) }
    ensures within { IfOk result (λ bytes. vec_len bytes ≤ most) }

    // No further read after the end was found.
    ensures calls { IfOk result (λ bytes. S.calls source.new ≤ S.calls source.old + length bytes.items + 1) }

    // The bytes before the fault.
    ensures failed { IsErrOf result ReadFault.Failed
        → (bytes : List ℕ) × S.fails source.old bytes source.new × (length bytes ≤ most) }
    ensures too_many { IsErrOf result ReadFault.TooMany
        → (bytes : List ℕ) × S.gives source.old bytes source.new × (most < length bytes) }
    ensures memory { IsErrOf result ReadFault.Memory
        → (bytes : List ℕ) × S.gives source.old bytes source.new × (length bytes ≤ most) }

    ensures count { NoFall (S.faults source.old) (S.faults source.new) }
    ensures cause { IsErrOf result ReadFault.Failed
        → Rose (S.faults source.old) (S.faults source.new) }
{
    let mut bytes = Vec::new(alloc);
    let mut buffer = zeros(alloc, PIECE)?;
    loop {
        let count = source.read(&mut buffer)?;
        if count == 0 {
            return Ok(bytes);
        }
        if count > most - bytes.len() {
            return Err(ReadFault::TooMany);
        }
        bytes.extend_from_slice(&buffer[..count])?;
    }
}

/// A buffer of this length.
fn zeros(alloc: Global, length_in_bytes: usize) -> Result<Vec<u8>, AllocError>
    ensures { IfOk result (λ buffer. vec_len buffer ≡ length_in_bytes) }
{
    vec![in alloc; 0; length_in_bytes]
}
