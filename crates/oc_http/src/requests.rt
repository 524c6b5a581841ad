//! The head of a request.

ghost use Rattle.std.specs.Prelude.{◌≡◌, [], IfOk};
ghost use Rattle.httparse.specs.Grammar.{ReadsRequest, RequestHead};
ghost use Rattle.oc_http.specs.Escapes.{decoded};
ghost use Rattle.oc_http.specs.Targets.{path_of, query_of};
ghost use Rattle.oc_http.specs.Requests.{method_of, is_post, after_empty_lines, begins_with_head, wanted_length, body_length, expects, read_request, read_request_parts};
ghost use Rattle.oc_http.specs.Lines.{IsRequestTaken};
ghost use Rattle.oc_http.specs.Gives.{Gives};

use crate::Fields;
use crate::escapes::decoded;
use crate::fault::HttpFault;
use crate::head::{Head, Method};
use crate::lengths::checked_length;
use crate::texts::{copy, copy_some};
use httparse::spans::{HeaderSpan, RequestSpans};
use oc_base::{MAX_BODY_BYTES, Memory, Text};
use std::alloc::Global;

/// The contents of a request's head, or its first fault. The head is all of the bytes.
pub(crate) fn read_request(
    alloc: Global,
    bytes: &[u8],
    spans: &[HeaderSpan],
    parts: RequestSpans,
) -> Result<Head, HttpFault>
    requires { IsRequestTaken bytes.now spans.now parts }
    ensures { (head : RequestHead) × ReadsRequest bytes.now head [] × Gives result (read_request head) }
{
    let fields = Fields::of(bytes, &spans[..parts.headers]);
    let method = parts.method.of(bytes);
    let target = parts.path.of(bytes);
    read_parts(alloc, method, target, parts.version, &fields)
}

/// The contents of a head with these parts, or its first fault.
fn read_parts(
    alloc: Global,
    method: &[u8],
    target: &[u8],
    minor: u8,
    fields: &Fields,
) -> Result<Head, HttpFault>
    ensures { Gives result (read_request_parts method.now target.now minor fields.now) }
{
    let method = method_of(method);
    let length = body_length(method, minor, fields)?;
    let (path, query) = path_and_query(alloc, target)?;
    let has_authorization = fields.is_present("authorization");
    let authorization = copy_some(alloc, fields.only("authorization"))?;
    let mac = copy_some(alloc, fields.only("overcast-mac"))?;
    let selectors = fields.selectors(alloc)?;
    Ok(Head {
        method,
        path,
        query,
        length,
        expects: expects(minor, fields),
        minor,
        closes: fields.closes(),
        has_authorization,
        authorization,
        mac,
        selectors,
    })
}

/// The decoded path of a target, and its query as it is, each as a text of its own.
fn path_and_query(alloc: Global, target: &[u8]) -> Result<(Option<Text>, Text), Memory>
    ensures { IfOk result (λ texts. (texts.0 ≡ decoded (path_of target.now)) × (texts.1 ≡ query_of target.now)) }
{
    let (path, query) = crate::path_and_query(target);
    let path = decoded(alloc, path)?;
    Ok((path, copy(alloc, query)?))
}

/// The length of the body in bytes, 0 where none is given, or the first fault of the head.
fn body_length(method: Method, minor: u8, fields: &Fields) -> Result<u64, HttpFault>
    ensures { result ≡ body_length method minor fields.now }
{
    if fields.are_too_many() {
        return Err(HttpFault::Fields);
    }
    if fields.has_host_fault(minor) {
        return Err(HttpFault::Host);
    }
    wanted_length(method, checked_length(fields)?)
}

/// The length that is given, 0 where none is; one that is required and missing, or too great, is a fault.
fn wanted_length(method: Method, length: Option<u64>) -> Result<u64, HttpFault>
    ensures { result ≡ wanted_length (is_post method) length }
{
    match length {
        None if method == Method::Post => Err(HttpFault::Length { missing: true }),
        None => Ok(0),
        Some(length) if length > MAX_BODY_BYTES => Err(HttpFault::BodyLong),
        Some(length) => Ok(length),
    }
}

/// The method that a text names.
fn method_of(method: &[u8]) -> Method
    ensures { result ≡ method_of method.now }
{
    match method {
        b"GET" => Method::Get,
        b"HEAD" => Method::Head,
        b"POST" => Method::Post,
        _ => Method::Other,
    }
}

/// Whether the client waits for `100 Continue`.
fn expects(minor: u8, fields: &Fields) -> bool
    ensures { result ≡ expects minor fields.now }
{
    minor == 1 && fields.has_only("expect", "100-continue")
}

/// Whether the bytes of a request, empty lines aside, begin with `HEAD`, whatever fault their head has: its reply then has
/// no body.
pub fn begins_with_head(bytes: &[u8]) -> bool
    ensures { result ≡ begins_with_head bytes.now }
{
    let rest = after_empty_lines(bytes);
    rest.len() >= 4 && &rest[..4] == b"HEAD".as_slice()
}

/// The bytes without the empty lines with which they begin (RFC 9112, section 2.2).
fn after_empty_lines(bytes: &[u8]) -> &[u8]
    ensures { result.now ≡ after_empty_lines bytes.now }
{
    let mut rest = bytes;
    'lines: loop {
        match rest {
            [b'\n', others @ ..] | [b'\r', b'\n', others @ ..] => rest = others,
            _ => return rest,
        }
    }
}
