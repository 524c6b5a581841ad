/// The last measurement of the way to a peer. Rate and hops are 0 for a peer that was never measured.
#[derive(Clone, Copy, Debug, PartialEq, Eq)]
pub struct Reading {
    /// Bytes per second.
    pub rate: u64,
    pub hops: u8,
}
