/// The end of the content of a reply (RFC 9112, section 6.3).
#[derive(Clone, Copy, Debug, PartialEq, Eq)]
pub(crate) enum ReplyFraming {
    /// The end after this number of bytes.
    Counted(u64),
    /// The end at the last chunk (RFC 9112, section 7.1).
    Chunked,
    /// The end of the connection.
    ToTheEnd,
}

/// The greatest length in bytes of a content whose length is not given: 2^40.
pub const MAX_OPEN_BYTES: u64 = 1_099_511_627_776;
