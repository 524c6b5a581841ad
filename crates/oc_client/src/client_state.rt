use crate::target::Target;

/// The next request of a client, and the numbers of redirections and replies that may still follow.
#[derive(Drop)]
pub(crate) struct ClientState {
    /// The URL to ask.
    pub(crate) target: Target,
    /// Whether the URL came from a Location.
    pub(crate) led: bool,
    /// The first byte of the group to ask for.
    pub(crate) start: u64,
    /// Whether the connection of the last reply is kept for the next request.
    pub(crate) kept: bool,
    /// The number of redirections that may still be followed.
    pub(crate) redirections: u8,
    /// The number of replies that are still wanted.
    pub(crate) replies: u64,
}
