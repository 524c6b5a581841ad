use crate::{Asked, Asker, Refused};
use oc_model::Input;
use oc_select::{RequestLine, Selectors};

/// The verdict on a connection for the bytes that came on it.
#[derive(Drop)]
pub enum Verdict {
    /// More bytes are waited for.
    Wait,
    /// The connection ended before a byte of a request, and is left without a word.
    Leave,
    /// The client is given the permission to send the body (RFC 9110, section 10.1.1).
    Permit,
    /// The request is refused.
    Refuse(Refusal),
    /// The request is whole, and is to be answered.
    Ask(Request),
}

/// A request that is whole: from here on it goes through the node as this one value.
#[derive(Drop)]
pub struct Request {
    /// The number of its bytes.
    pub count: u64,
    pub asked: Asked,
    /// Its method and its start, as far as they tell whether its Range field counts.
    pub line: RequestLine,
    /// The fields by which it selects a content; none where it follows a group, and where it asks for no group.
    pub selectors: Selectors,
    /// The input that results from the request, if any.
    pub input: Option<Input>,
    /// Whether the request is the last of its connection whatever it asks.
    pub last: bool,
}

/// The refusal of a request; [`crate::refusal_reply`] has its reply.
#[derive(Clone, Copy, Debug, PartialEq, Eq)]
pub struct Refusal {
    pub why: Refused,
    /// The sender of the request.
    pub asker: Asker,
    /// The number of the request's bytes where the connection is kept after the reply; `None` where it closes, and all
    /// that came on it is passed over.
    pub kept: Option<u64>,
}
