/// The group to publish into, and the token for it.
#[derive(Clone, Copy, Debug)]
pub struct Destination<'a> {
    /// The URL of the group.
    pub address: &'a str,
    /// The token that each request shows, as in [`FetchOptions`](crate::FetchOptions).
    pub token: Option<&'a str>,
}
