//! Requests of a client, as text.

use crate::node::Home;
use std::io::{self, Read, Write};

/// The answer of the node to this text, up to the end of the connection.
pub fn ask(rt: &HostRuntime, home: &Home, text: &[u8]) -> io::Result<Vec<u8>> {
    let mut stream = home.connect(rt)?;
    stream.write_all(text)?;
    let mut reply = Vec::new(rt.alloc());
    stream.read_to_end(&mut reply)?;
    Ok(reply)
}

/// The text of a publish of 16 bytes or fewer to a group, after which the node ends the connection.
pub fn publish_text(rt: &HostRuntime, path: &str, bytes: &str) -> io::Result<String> {
    Ok(format!(in rt.alloc();
        "POST {} HTTP/1.1\r\nHost: localhost\r\nConnection: close\r\nContent-Length: {}\r\n\r\n{}",
        path,
        bytes.len(),
        bytes
    )?)
}

/// The text of a GET, after which the node ends the connection.
pub fn get_text(rt: &HostRuntime, path: &str) -> io::Result<String> {
    Ok(format!(in rt.alloc();
        "GET {} HTTP/1.1\r\nHost: localhost\r\nConnection: close\r\n\r\n",
        path
    )?)
}

/// Whether the reply has status 200.
pub fn is_ok(reply: &[u8]) -> bool {
    reply.starts_with(b"HTTP/1.1 200 OK\r\n")
}

/// The bytes after the head of a reply.
pub fn body_of(reply: &[u8]) -> &[u8] {
    for at in 0..reply.len() {
        if let Some(rest) = reply.get(at..) {
            if let Some(body) = rest.strip_prefix(b"\r\n\r\n") {
                return body;
            }
        }
    }
    &[]
}
