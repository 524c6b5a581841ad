/// A range of bytes that a client asks for (RFC 9110, section 14.1.2).
#[derive(Clone, Copy)]
pub enum Range {
    /// From the first place to the last, both included.
    Between { first: u64, last: u64 },
    /// From a place on.
    From { first: u64 },
    /// The last bytes, so many.
    Last { count: u64 },
}
