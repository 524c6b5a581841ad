use crate::content_type::ContentType;
use oc_base::{Bytes, Text};

/// A response to write, or the contents of one that was read.
#[derive(Drop)]
pub struct Reply {
    /// The status code (RFC 9110, section 15).
    pub status: u16,
    /// Where the client is sent by a 302.
    pub location: Option<Text>,
    /// The type of the content, where it is given.
    pub content_type: Option<ContentType>,
    pub body: Bytes,
    /// The number of the access rule that denied the request.
    pub rule: Option<u32>,
    /// The value of Content-Range (RFC 9110, section 14.4): the part of a 206, or the length of a content that has no byte
    /// of the asked part.
    pub content_range: Option<Text>,
    /// The value of ETag, the tag of the content with its quotes (RFC 9110, section 8.8.3).
    pub etag: Option<Text>,
    /// A client may ask for parts of the content (RFC 9110, section 14.3).
    pub accepts_ranges: bool,
    /// The length of a group in bytes: the number in the Overcast-Length field, where there is just one.
    pub group_length: Option<u64>,
    /// The MAC of the body: the value of the Overcast-Mac field, where there is just one.
    pub mac: Option<Text>,
}

/// The contents of a response's head.
#[derive(Drop)]
pub struct ReplyHead {
    /// The status code (RFC 9110, section 15).
    pub status: u16,
    /// Where the client is sent by a 302.
    pub location: Option<Text>,
    /// The length of the body in bytes, where the head gives it.
    pub length: Option<u64>,
    /// The body is sent in chunks (RFC 9112, section 7.1).
    pub chunked: bool,
    /// The server closes the connection after this response (RFC 9112, section 9.6).
    pub closes: bool,
    /// The length of a group in bytes: the number in the Overcast-Length field, where there is just one.
    pub group_length: Option<u64>,
    /// The value of the Overcast-Mac field, where there is just one.
    pub mac: Option<Text>,
}
