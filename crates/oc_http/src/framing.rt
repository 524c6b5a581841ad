/// The end of the content of a reply, as its head tells it (RFC 9112, section 6).
#[derive(Clone, Copy)]
pub enum Framing {
    /// The length in bytes.
    Length(u64),
    /// Chunks, the last of which is empty.
    Chunked,
}

/// The fate of the connection after a message (RFC 9112, sections 9.3 and 9.6).
#[derive(Clone, Copy, Debug)]
pub enum Persistence {
    Close,
    Keep,
}
