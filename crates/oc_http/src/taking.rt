//! Whole heads, taken from a source. `httparse` is asked at the end of each line.

ghost use Rattle.std.specs.Prelude.{◌≡◌, ℕ, List, ◌≤◌, IfOk, IfErr, IsErrOf, length, vec_capacity};
ghost use Rattle.httparse.specs.Grammar.{ReadsRequest, ReadsResponse};
ghost use Rattle.oc_io.specs.Faults.{NoFall, Rose};
ghost use Rattle.oc_http.specs.Lines.{IsRequestTaken, IsResponseTaken};
ghost use Rattle.oc_http.specs.Taking.{Took, StopsInHead};

use crate::fault::HttpFault;
use crate::lines::take_line;
use httparse::Status;
use httparse::spans::{HeaderSpan, RequestSpans, ResponseSpans, parse_request, parse_response};
use oc_base::MAX_HEAD_BYTES;
use oc_io::Source;

/// The number of fields that there is room for: more than `MAX_HEAD_BYTES` bytes hold, since each takes three.
pub(crate) const FIELD_ROOM: usize = 2_731;

/// Takes the head of a request, and nothing after it. No memory is taken.
pub(crate) fn take_request<S: Source>(
    source: &mut S,
    bytes: &mut Vec<u8>,
    spans: &mut [HeaderSpan],
) -> Result<RequestSpans, HttpFault>
    requires bytes { MAX_HEAD_BYTES ≤ vec_capacity bytes.old }
    requires spans { FIELD_ROOM ≤ length spans.old }
    ensures whole { IfOk result (λ parts. S.gives source.old bytes.new.items source.new × IsRequestTaken bytes.new.items spans.new parts) }
    ensures stops { IfErr result (λ fault. (taken : List ℕ) × Took S.gives S.fails source.old taken source.new fault
        × StopsInHead ReadsRequest taken (S.ended source.new) fault) }
    ensures room { MAX_HEAD_BYTES ≤ vec_capacity bytes.new }
    ensures count { NoFall (S.faults source.old) (S.faults source.new) }
    ensures cause { IsErrOf result HttpFault.Source → Rose (S.faults source.old) (S.faults source.new) }
{
    bytes.clear();
    'lines: loop {
        take_line(source, bytes)?;
        match parse_request(bytes, spans) {
            Ok(Status::Complete(parts)) => return Ok(parts),
            Ok(Status::Partial) => {}
            Err(_) => return Err(HttpFault::Head),
        }
    }
}

/// Takes the head of a response, and nothing after it. No memory is taken.
pub(crate) fn take_response<S: Source>(
    source: &mut S,
    bytes: &mut Vec<u8>,
    spans: &mut [HeaderSpan],
) -> Result<ResponseSpans, HttpFault>
    requires bytes { MAX_HEAD_BYTES ≤ vec_capacity bytes.old }
    requires spans { FIELD_ROOM ≤ length spans.old }
    ensures whole { IfOk result (λ parts. S.gives source.old bytes.new.items source.new × IsResponseTaken bytes.new.items spans.new parts) }
    ensures stops { IfErr result (λ fault. (taken : List ℕ) × Took S.gives S.fails source.old taken source.new fault
        × StopsInHead ReadsResponse taken (S.ended source.new) fault) }
    ensures room { MAX_HEAD_BYTES ≤ vec_capacity bytes.new }
    ensures count { NoFall (S.faults source.old) (S.faults source.new) }
    ensures cause { IsErrOf result HttpFault.Source → Rose (S.faults source.old) (S.faults source.new) }
{
    bytes.clear();
    'lines: loop {
        take_line(source, bytes)?;
        match parse_response(bytes, spans) {
            Ok(Status::Complete(parts)) => return Ok(parts),
            Ok(Status::Partial) => {}
            Err(_) => return Err(HttpFault::Head),
        }
    }
}
