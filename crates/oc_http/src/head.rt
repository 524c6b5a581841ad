use oc_base::Text;
use oc_select::Selectors;

/// The method of a request, as far as it matters here.
#[derive(Clone, Copy, PartialEq, Eq)]
pub enum Method {
    Get,
    Head,
    Post,
    Other,
}

/// The contents of a request's head.
#[derive(Drop)]
pub struct Head {
    pub method: Method,
    /// The decoded path of the target, without scheme and authority; `None` where it has a `%` that does not begin an
    /// escape, or an escape of NUL or `/`.
    pub path: Option<Text>,
    /// The query: the bytes after the first `?`, as they came.
    pub query: Text,
    /// The length of the body in bytes.
    pub length: u64,
    /// The client waits for `100 Continue` before it sends the body (RFC 9110, section 10.1.1).
    pub expects: bool,
    /// 1 for version 1.1, and 0 for 1.0.
    pub minor: u8,
    /// The client closes the connection after this request (RFC 9112, section 9.6).
    pub closes: bool,
    /// There is an Authorization field (RFC 9110, section 11.6.2).
    pub has_authorization: bool,
    /// The value of the Authorization field, where there is just one.
    pub authorization: Option<Text>,
    /// The value of the Overcast-Mac field, where there is just one.
    pub mac: Option<Text>,
    /// The fields that say on what conditions a content is asked for, and which part of it.
    pub selectors: Selectors,
}
