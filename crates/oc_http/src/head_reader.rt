ghost use Rattle.std.specs.Prelude.{◌≡◌, ℕ, List, ◌++◌, ◌≤◌, vec_len, vec_capacity, IfOk, IfErr, IsErrOf};
ghost use Rattle.oc_base.specs.declared.limits.TheConstants.{MAX_HEAD_BYTES};
ghost use Rattle.oc_http.specs.declared.taking.TheConstants.{FIELD_ROOM};
ghost use Rattle.oc_io.specs.Faults.{NoFall, Rose};

use crate::body::take_content;
use crate::fault::HttpFault;
use crate::head::Head;
use crate::reply::{Reply, ReplyHead};
use crate::requests::read_request;
use crate::responses::{body_length, read_response_head, whole_fault};
use crate::taking::{FIELD_ROOM, take_request, take_response};
use httparse::spans::{EMPTY_HEADER_SPAN, HeaderSpan};
use oc_base::{Bytes, MAX_HEAD_BYTES, Memory};
use oc_io::Source;
use std::alloc::Global;

/// Reads heads, one after another, over room that is taken once: a connection that carries several
/// messages needs one reader.
#[derive(Drop)]
pub struct HeadReader {
    alloc: Global,
    bytes: Vec<u8>,
    spans: Vec<HeaderSpan>,
    ghost bytes_fit: { MAX_HEAD_BYTES ≤ vec_capacity bytes },
    ghost spans_fit: { FIELD_ROOM ≤ vec_len spans },
}

impl HeadReader {
    ghost use Rattle.oc_http.specs.Taking.{Took, SaysRequest, RefusesRequest, SaysReplyHead, RefusesReplyHead, SaysReplyStart, RefusesReplyStart, SaysReply, RefusesReply};

    pub fn new(alloc: Global) -> Result<HeadReader, Memory> {
        let mut bytes = Vec::new(alloc);
        bytes.reserve(MAX_HEAD_BYTES)?;
        let spans = vec![in alloc; EMPTY_HEADER_SPAN; FIELD_ROOM]?;
        Ok(HeadReader {
            alloc,
            bytes,
            spans,
        })
    }

    /// The head of a request, as [`crate::read_head`] gives it.
    pub fn read_head<S: Source>(&mut self, source: &mut S) -> Result<Head, HttpFault>
        ensures read { IfOk result (λ head. (bytes : List ℕ) × S.gives source.old bytes source.new × SaysRequest bytes head) }
        ensures refused { IfErr result (λ fault. (bytes : List ℕ) × Took S.gives S.fails source.old bytes source.new fault
            × RefusesRequest bytes (S.ended source.new) fault) }
        ensures count { NoFall (S.faults source.old) (S.faults source.new) }
        ensures cause { IsErrOf result HttpFault.Source → Rose (S.faults source.old) (S.faults source.new) }
    {
        let parts = take_request(source, &mut self.bytes, &mut self.spans)?;
        read_request(self.alloc, &self.bytes, &self.spans, parts)
    }

    /// The head of a response, as [`crate::read_response_head`] gives it.
    pub fn read_response_head<S: Source>(&mut self, source: &mut S) -> Result<ReplyHead, HttpFault>
        ensures read { IfOk result (λ head. (bytes : List ℕ) × S.gives source.old bytes source.new × SaysReplyHead bytes head) }
        ensures refused { IfErr result (λ fault. (bytes : List ℕ) × Took S.gives S.fails source.old bytes source.new fault
            × RefusesReplyHead bytes (S.ended source.new) fault) }
        ensures count { NoFall (S.faults source.old) (S.faults source.new) }
        ensures cause { IsErrOf result HttpFault.Source → Rose (S.faults source.old) (S.faults source.new) }
    {
        let parts = take_response(source, &mut self.bytes, &mut self.spans)?;
        read_response_head(self.alloc, &self.bytes, &self.spans, parts)
    }

    /// A whole response, as [`crate::read_response`] gives it.
    pub fn read_response<S: Source>(&mut self, source: &mut S) -> Result<Reply, HttpFault>
        ensures read { IfOk result (λ reply. (head body : List ℕ) × S.gives source.old (head ++ body) source.new
            × SaysReply head body (S.ended source.new) reply) }
        ensures refused { IfErr result (λ fault. (bytes : List ℕ) × Took S.gives S.fails source.old bytes source.new fault
            × RefusesReply bytes (S.ended source.new) fault) }
        ensures count { NoFall (S.faults source.old) (S.faults source.new) }
        ensures cause { IsErrOf result HttpFault.Source → Rose (S.faults source.old) (S.faults source.new) }
    {
        let head = self.read_response_start(source)?;
        let length = body_length(&head);
        let body = take_content(self.alloc, source, length)?;
        Ok(Reply {
            status: head.status,
            location: head.location,
            content_type: None,
            body: Bytes::of(body),
            rule: None,
            content_range: None,
            etag: None,
            accepts_ranges: false,
            group_length: head.group_length,
            mac: head.mac,
        })
    }

    /// The head of a response whose body is read too, by [`HeadReader::read_response`] or by the caller, who finds
    /// [`body_length`] bytes after it.
    pub fn read_response_start<S: Source>(&mut self, source: &mut S) -> Result<ReplyHead, HttpFault>
        ensures read { IfOk result (λ head. (bytes : List ℕ) × S.gives source.old bytes source.new × SaysReplyStart bytes head) }
        ensures refused { IfErr result (λ fault. (bytes : List ℕ) × Took S.gives S.fails source.old bytes source.new fault
            × RefusesReplyStart bytes (S.ended source.new) fault) }
        ensures count { NoFall (S.faults source.old) (S.faults source.new) }
        ensures cause { IsErrOf result HttpFault.Source → Rose (S.faults source.old) (S.faults source.new) }
    {
        let head = self.read_response_head(source)?;
        match whole_fault(&head) {
            None => Ok(head),
            Some(fault) => Err(fault),
        }
    }
}
