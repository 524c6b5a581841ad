use oc_base::Cert;

/// The content of a check-in.
#[derive(Drop)]
pub struct CheckIn<'a> {
    /// The ask number at which the sender is a child.
    pub seq: u64,
    /// The place in the sender's change log after these certificates.
    pub upto: u64,
    /// The sender's rate to its parent, in bytes per second.
    pub rate: u64,
    /// The sender's own number, and its client count.
    pub number: u64,
    pub clients: u64,
    /// The next certificates of the sender's change log.
    pub certs: &'a [Cert],
}
