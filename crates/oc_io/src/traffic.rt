/// The traffic through an adapter. A count at the greatest `u64` stays there.
#[derive(Clone, Copy, Debug, PartialEq, Eq)]
pub struct Traffic {
    /// The number of bytes that passed.
    pub bytes: u64,
    /// The number of calls that failed.
    pub faults: u64,
}
