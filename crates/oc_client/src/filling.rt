//! Buffers that are filled from a source, piece by piece.

ghost use Rattle.std.specs.Prelude.{◌≡◌, ◌<◌, ◌≤◌, ℕ, List, [], length, take, IfOk, OnErr};
ghost use Rattle.oc_io.specs.Faults.{NoFall, Rose};
ghost use Rattle.oc_client.specs.Filling.{Fills};

use oc_io::{Failed, Source};

/// Reads into a buffer after its first `done` bytes, and gives the number of bytes filled then. The
/// number does not grow only at the end of the source.
pub(crate) fn read_on<S: Source>(
    source: &mut S,
    buffer: &mut [u8],
    done: usize,
) -> Result<usize, Failed>
    requires { done < length buffer.old }
    ensures within { IfOk result (λ now. now ≤ length buffer.old) }
    ensures fills { IfOk result (λ now. Fills S.gives source.old source.new done now buffer.old buffer.new) }
    ensures end { IfOk result (λ now. now ≡ done → S.ended source.new) }
    ensures fails { OnErr result (S.fails source.old [] source.new) }
    ensures count { NoFall (S.faults source.old) (S.faults source.new) }
    ensures cause { OnErr result (Rose (S.faults source.old) (S.faults source.new)) }
{
    let count = source.read(&mut buffer[done..])?;
    Ok(done + count)
}

/// Fills a buffer, and gives the number of bytes read: fewer than the buffer holds only where the
/// source ended.
pub(crate) fn fill<S: Source>(source: &mut S, buffer: &mut [u8]) -> Result<usize, Failed>
    ensures within { IfOk result (λ count. count ≤ length buffer.old) }
    ensures came { IfOk result (λ count. S.gives source.old (take count buffer.new) source.new) }
    ensures end { IfOk result (λ count. count < length buffer.old → S.ended source.new) }
    ensures fails { OnErr result ((part : List ℕ) × S.fails source.old part source.new) }
    ensures count { NoFall (S.faults source.old) (S.faults source.new) }
    ensures cause { OnErr result (Rose (S.faults source.old) (S.faults source.new)) }
{
    let mut done = 0;
    'reads: while done < buffer.len() {
        let now = read_on(source, buffer, done)?;
        if now == done {
            return Ok(now);
        }
        done = now;
    }
    Ok(done)
}
