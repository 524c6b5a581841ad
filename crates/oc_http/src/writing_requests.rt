//! The requests that a node and a client send.

ghost use Rattle.std.specs.Prelude.{◌≡◌, ◌++◌, IfOk, IfSome, option_map};
ghost use Rattle.oc_http.specs.Writing.{IsHost, IsMac, request_with, get_text, probe_text, follow_text, query_text, area_text};

use crate::field_line::mac_line;
use crate::paths::PROBE_PATH;
use crate::texts::join;
use itoa::Buffer;
use oc_base::Memory;
use std::alloc::Global;

/// A node's request, a POST of a message to `host`, with the MAC of the message where the nodes have a key.
pub fn write_request<'a>(
    alloc: Global,
    host: &'a str,
    body: &'a [u8],
    mac: Option<&'a [u8]>,
) -> Result<Vec<u8>, Memory>
    requires host { IsHost host.now }
    requires mac { IfSome (option_map (λ m. m.now) mac) IsMac }
    ensures { IfOk result (λ text. text.items ≡ request_with (option_map (λ m. m.now) mac.entry) host.now body.now) }
{
    let mut length = Buffer::new();
    let length = length.format(body.len());
    let mac = mac_line(mac);
    join(
        alloc,
        &[
            b"POST /!overcast HTTP/1.1\r\nHost: ",
            host.as_bytes(),
            b"\r\nContent-Type: application/octet-stream\r\nContent-Length: ",
            length.as_bytes(),
            b"\r\n",
            mac.name,
            mac.value,
            mac.end,
            b"\r\n",
            body,
        ],
    )
}

/// The request of a download: a GET of a path, and of a query where there is one. `host` has its port
/// after a `:` where the URL has one.
pub fn write_get(
    alloc: Global,
    path: &str,
    query: Option<&str>,
    host: &str,
) -> Result<Vec<u8>, Memory>
    ensures { IfOk result (λ text. text.items ≡ get_text path.now (option_map (λ q. q.now) query.entry) host.now) }
{
    let (mark, query) = query_parts(query);
    join(
        alloc,
        &[
            b"GET ",
            path.as_bytes(),
            mark,
            query,
            b" HTTP/1.1\r\nHost: ",
            host.as_bytes(),
            b"\r\n\r\n",
        ],
    )
}

/// The request of a probe of the node at an address.
pub fn write_probe(alloc: Global, address: &str) -> Result<Vec<u8>, Memory>
    ensures { IfOk result (λ text. text.items ≡ probe_text address.now) }
{
    write_get(alloc, PROBE_PATH, None, address)
}

/// The request of a download that follows a group: a GET from byte `start` on. `area` is the area in the URL, as it is
/// written there.
pub fn write_follow<'a>(
    alloc: Global,
    path: &'a str,
    start: u64,
    area: Option<&'a str>,
    host: &'a str,
) -> Result<Vec<u8>, Memory>
    ensures { IfOk result (λ text. text.items ≡ follow_text path.now start (option_map (λ a. a.now) area.entry) host.now) }
{
    let mut digits = Buffer::new();
    let start = digits.format(start);
    let (mark, area) = area_parts(area);
    join(
        alloc,
        &[
            b"GET ",
            path.as_bytes(),
            b"?start=",
            start.as_bytes(),
            b"&follow",
            mark,
            area,
            b" HTTP/1.1\r\nHost: ",
            host.as_bytes(),
            b"\r\n\r\n",
        ],
    )
}

/// `?` and a query, where there is one.
fn query_parts(query: Option<&str>) -> (&[u8], &[u8])
    ensures { result.0.now ++ result.1.now ≡ query_text (option_map (λ q. q.now) query.entry) }
{
    match query {
        Some(query) => (b"?", query.as_bytes()),
        None => (b"", b""),
    }
}

/// `&area=` and an area, where there is one.
fn area_parts(area: Option<&str>) -> (&[u8], &[u8])
    ensures { result.0.now ++ result.1.now ≡ area_text (option_map (λ a. a.now) area.entry) }
{
    match area {
        Some(area) => (b"&area=", area.as_bytes()),
        None => (b"", b""),
    }
}
