//! Messages as requests between nodes.

ghost use Rattle.std.specs.Prelude.{◌≡◌, ℕ, ◌≤◌, List, [], IfOk, Option, option_map};
ghost use Rattle.oc_base.specs.declared.limits.TheConstants.{MAX_NODES};
ghost use Rattle.oc_http.specs.Writing.{IsHost};
ghost use Rattle.oc_io.specs.SourceView.{source_of};
ghost use Rattle.oc_model.specs.Lawful.{IsMessage};
ghost use Rattle.oc_model.specs.declared.message.Message.{Message};
ghost use Rattle.oc_wire.specs.Requests.{is_path, is_route, IsRequest, IsRequestOrFault, AnswersRequest, IsGiven};
ghost use Rattle.oc_wire.specs.Macs.{request_of};
ghost use Rattle.oc_wire.specs.Spelling.{HasSpelling};

use crate::law::requests_have_one_answer;
use crate::{HttpWireFault, decode, encode};
use oc_base::{Memory, Text};
use oc_http::{
    Head, HttpFault, MESSAGE_PATH, Method, a_written_request_is_read, read_body, read_head,
    write_request,
};
use oc_io::MemSource;
use oc_model::Message;
use oc_policy::{Key, mac_of, macs_are_digits};
use std::alloc::Global;

/// The request that brings the message to `host`: a POST with the message's bytes as its body, and with their MAC
/// where the nodes have a key.
pub fn to_http(
    alloc: Global,
    message: &Message,
    host: &str,
    key: Option<&Key>,
) -> Result<Vec<u8>, Memory>
    requires body { HasSpelling message.now.body }
    requires host { IsHost host.now }
    ensures { IfOk result (λ text. text.items ≡ request_of (option_map (λ k. k.now) key.entry) host.now message.now) }
{
    macs_are_digits();
    let body = encode(alloc, message)?;
    match key {
        None => write_request(alloc, host, &body, None),
        Some(key) => {
            let mac = mac_of(key, &body);
            write_request(alloc, host, &body, Some(mac.digits()))
        }
    }
}

/// The message between `nodes` nodes that a request brings. Bytes after the request's body are not
/// looked at.
pub fn from_http(alloc: Global, bytes: &[u8], nodes: u32) -> Result<Message, HttpWireFault>
    ensures exact { AnswersRequest nodes bytes.now result }

    // The request that `to_http` wrote is read as the same message.
    ensures again { (key : Option (List ℕ)) (host : List ℕ) (message : Message) → nodes ≤ MAX_NODES → IsHost host
        → IsMessage nodes message → bytes.now ≡ request_of key host message → IsGiven result message }
{
    macs_are_digits();
    requests_have_one_answer();
    a_written_request_is_read();
    message_in(alloc, bytes, nodes)
}

/// The message of a request, or the first fault.
fn message_in(alloc: Global, bytes: &[u8], nodes: u32) -> Result<Message, HttpWireFault>
    ensures { AnswersRequest nodes bytes.now result }
{
    let (head, body) = request_in(alloc, bytes)?;
    message_of(alloc, &head, &body, nodes)
}

/// The message that a request with this head and this body brings, or the first fault.
fn message_of(alloc: Global, head: &Head, body: &[u8], nodes: u32) -> Result<Message, HttpWireFault>
    ensures { (bytes : List ℕ) → IsRequest bytes head.now body.now → AnswersRequest nodes bytes result }
{
    if !is_route(head) {
        return Err(HttpWireFault::Route);
    }
    Ok(decode(alloc, body, nodes)?)
}

/// The head and the body of a request.
fn request_in(alloc: Global, bytes: &[u8]) -> Result<(Head, Vec<u8>), HttpFault>
    ensures { IsRequestOrFault bytes.now result }
{
    let mut source = MemSource::new(bytes.to_vec(alloc)?, Vec::new(alloc));
    request_from(alloc, &mut source)
}

/// The head and the body of a request, from a source over its bytes.
fn request_from(alloc: Global, source: &mut MemSource) -> Result<(Head, Vec<u8>), HttpFault>
    ensures { (bytes : List ℕ) → source.old ≡ source_of bytes [] → IsRequestOrFault bytes result }
{
    let head = read_head(alloc, source)?;
    let body = read_body(alloc, source, &head)?;
    Ok((head, body))
}

/// Whether a request is a POST to the path of messages without a query.
fn is_route(head: &Head) -> bool
    ensures { result ≡ is_route head.now }
{
    head.method == Method::Post
        && is_path(&head.path, MESSAGE_PATH)
        && head.query.items().is_empty()
}

/// Whether the path of a request decodes to this one.
fn is_path(path: &Option<Text>, wanted: &str) -> bool
    ensures { result ≡ is_path path.now wanted.now }
{
    match path {
        Some(path) => path.items() == wanted.as_bytes(),
        None => false,
    }
}
