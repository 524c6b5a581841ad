ghost use Rattle.std.specs.Prelude.{◌≡◌, ℕ, List, ◌++◌, length, IfOk, IfErr, IsErrOf, vec_len};
ghost use Rattle.oc_io.specs.Faults.{NoFall, Rose};
ghost use Rattle.oc_http.specs.Taking.{Took, SaysRequest, RefusesRequest, RefusesBody, SaysReplyHead, RefusesReplyHead, SaysReply, RefusesReply};

use crate::body::take_body;
use crate::fault::HttpFault;
use crate::head::Head;
use crate::head_reader::HeadReader;
use crate::reply::{Reply, ReplyHead};
use oc_io::Source;
use std::alloc::Global;

/// The head of a request (RFC 9112, sections 2 to 5). It is taken one byte at a time, and nothing after
/// it.
pub fn read_head<S: Source>(alloc: Global, source: &mut S) -> Result<Head, HttpFault>
    ensures read { IfOk result (λ head. (bytes : List ℕ) × S.gives source.old bytes source.new × SaysRequest bytes head) }
    ensures refused { IfErr result (λ fault. (bytes : List ℕ) × Took S.gives S.fails source.old bytes source.new fault
        × RefusesRequest bytes (S.ended source.new) fault) }
    ensures count { NoFall (S.faults source.old) (S.faults source.new) }
    ensures cause { IsErrOf result HttpFault.Source → Rose (S.faults source.old) (S.faults source.new) }
{
    HeadReader::new(alloc)?.read_head(source)
}

/// The body of a request, the bytes after its head that the head tells, and nothing after them. The
/// memory is taken first.
pub fn read_body<S: Source>(
    alloc: Global,
    source: &mut S,
    head: &Head,
) -> Result<Vec<u8>, HttpFault>
    ensures gives { IfOk result (λ body. S.gives source.old body.items source.new) }
    ensures whole { IfOk result (λ body. vec_len body ≡ head.now.length) }
    ensures refused { IfErr result (λ fault. (bytes : List ℕ) × Took S.gives S.fails source.old bytes source.new fault
        × RefusesBody head.now.length bytes (S.ended source.new) fault) }
    ensures count { NoFall (S.faults source.old) (S.faults source.new) }
    ensures cause { IsErrOf result HttpFault.Source → Rose (S.faults source.old) (S.faults source.new) }
{
    take_body(alloc, source, head.length)
}

/// The head of a response (RFC 9112, sections 2 to 5), whose body may be chunked. Nothing after it is
/// taken.
pub fn read_response_head<S: Source>(alloc: Global, source: &mut S) -> Result<ReplyHead, HttpFault>
    ensures read { IfOk result (λ head. (bytes : List ℕ) × S.gives source.old bytes source.new × SaysReplyHead bytes head) }
    ensures refused { IfErr result (λ fault. (bytes : List ℕ) × Took S.gives S.fails source.old bytes source.new fault
        × RefusesReplyHead bytes (S.ended source.new) fault) }
    ensures count { NoFall (S.faults source.old) (S.faults source.new) }
    ensures cause { IsErrOf result HttpFault.Source → Rose (S.faults source.old) (S.faults source.new) }
{
    HeadReader::new(alloc)?.read_response_head(source)
}

/// A response with its body, which without a Content-Length goes to the end of the source (RFC 9112,
/// section 6.3). Of its fields it tells Location, Overcast-Length and Overcast-Mac alone.
pub fn read_response<S: Source>(alloc: Global, source: &mut S) -> Result<Reply, HttpFault>
    ensures read { IfOk result (λ reply. (head body : List ℕ) × S.gives source.old (head ++ body) source.new
        × SaysReply head body (S.ended source.new) reply) }
    ensures refused { IfErr result (λ fault. (bytes : List ℕ) × Took S.gives S.fails source.old bytes source.new fault
        × RefusesReply bytes (S.ended source.new) fault) }
    ensures count { NoFall (S.faults source.old) (S.faults source.new) }
    ensures cause { IsErrOf result HttpFault.Source → Rose (S.faults source.old) (S.faults source.new) }
{
    HeadReader::new(alloc)?.read_response(source)
}
