/// The place of a byte of a group in the journal.
#[derive(Clone, Copy, Debug, PartialEq, Eq)]
pub struct Spot {
    /// The number of the frame with the byte.
    pub frame: u64,
    /// The offset of the byte in the frame's bytes.
    pub skip: u64,
}
