ghost use Rattle.std.specs.Prelude.{◌≡◌, [], IfOk, OnErr, None};
ghost use Rattle.oc_io.specs.Faults.{NoFall, Rose};
ghost use Rattle.oc_http.specs.Bytes.{bytes_of};

use oc_io::{Failed, Source};

/// The next byte of a source, and nothing after it; `None` at its end.
pub fn take_byte<S: Source>(source: &mut S) -> Result<Option<u8>, Failed>
    ensures gives { IfOk result (λ byte. S.gives source.old (bytes_of byte) source.new) }
    ensures end { IfOk result (λ byte. byte ≡ None → S.ended source.new) }
    ensures fails { OnErr result (S.fails source.old [] source.new) }
    ensures count { NoFall (S.faults source.old) (S.faults source.new) }
    ensures cause { OnErr result (Rose (S.faults source.old) (S.faults source.new)) }
{
    let mut byte = [0];
    let count = source.read(&mut byte)?;
    if count == 0 {
        return Ok(None);
    }
    Ok(Some(byte[0]))
}
