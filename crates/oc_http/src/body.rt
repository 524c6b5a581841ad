//! The bodies of messages.

ghost use Rattle.std.specs.Prelude.{◌≡◌, ℕ, List, IfOk, IfErr, IsErrOf, None, length, vec_len};
ghost use Rattle.oc_io.specs.Faults.{NoFall, Rose};
ghost use Rattle.oc_http.specs.Responses.{IsLong};
ghost use Rattle.oc_http.specs.Taking.{Took, RefusesBody, RefusesContent};

use crate::fault::HttpFault;
use oc_base::MAX_BODY_BYTES;
use oc_io::{Source, read_all};
use std::alloc::{AllocError, Global};

/// Takes the next bytes of a source, as many as are wanted, and nothing after them. The memory is taken
/// first.
pub(crate) fn take_body<S: Source>(
    alloc: Global,
    source: &mut S,
    length: u64,
) -> Result<Vec<u8>, HttpFault>
    ensures gives { IfOk result (λ body. S.gives source.old body.items source.new) }
    ensures whole { IfOk result (λ body. vec_len body ≡ length) }
    ensures refused { IfErr result (λ fault. (taken : List ℕ) × Took S.gives S.fails source.old taken source.new fault
        × RefusesBody length taken (S.ended source.new) fault) }
    ensures count { NoFall (S.faults source.old) (S.faults source.new) }
    ensures cause { IsErrOf result HttpFault.Source → Rose (S.faults source.old) (S.faults source.new) }
{
    let mut body = zeros(alloc, length as usize)?;
    let mut done = 0;
    'pieces: while done < body.len() {
        let count = source.read(&mut body[done..])?;
        if count == 0 {
            return Err(HttpFault::Ended);
        }
        done += count;
    }
    Ok(body)
}

/// Takes the next bytes of a source, `length` of them, or all up to the end where there is no length.
pub(crate) fn take_content<S: Source>(
    alloc: Global,
    source: &mut S,
    length: Option<u64>,
) -> Result<Vec<u8>, HttpFault>
    ensures gives { IfOk result (λ body. S.gives source.old body.items source.new) }
    ensures long { IfOk result (λ body. IsLong length body.items) }
    ensures end { IfOk result (λ body. length ≡ None → S.ended source.new) }
    ensures refused { IfErr result (λ fault. (taken : List ℕ) × Took S.gives S.fails source.old taken source.new fault
        × RefusesContent length taken (S.ended source.new) fault) }
    ensures count { NoFall (S.faults source.old) (S.faults source.new) }
    ensures cause { IsErrOf result HttpFault.Source → Rose (S.faults source.old) (S.faults source.new) }
{
    match length {
        Some(length) => take_body(alloc, source, length),
        None => Ok(read_all(alloc, source, MAX_BODY_BYTES as usize)?),
    }
}

/// Zeros, as many as are wanted.
fn zeros(alloc: Global, length_in_bytes: usize) -> Result<Vec<u8>, AllocError>
    ensures { IfOk result (λ bytes. vec_len bytes ≡ length_in_bytes) }
{
    vec![in alloc; 0; length_in_bytes]
}
