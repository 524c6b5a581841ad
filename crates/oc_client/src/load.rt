use oc_base::Bytes;

/// The load of a request: bytes for a group, or the seal that closes the group.
#[derive(Drop)]
pub(crate) struct Load {
    pub(crate) piece: Bytes,
    pub(crate) seals: bool,
}
