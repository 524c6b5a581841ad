use oc_base::GroupName;

/// A chunk of a group, from a message.
#[derive(Drop)]
pub struct Chunk<'a> {
    pub group: &'a GroupName,
    /// The offset of the first byte in the group.
    pub start: u64,
    pub bytes: &'a [u8],
    /// Whether the group ends with these bytes, and is sealed.
    pub last: bool,
}
