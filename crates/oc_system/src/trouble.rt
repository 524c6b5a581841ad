use std::fmt;
use std::io::{Error, ErrorKind};

/// The reason why a call on the system failed: the place, which is a path or an address, and the
/// system's error.
#[derive(Drop)]
pub struct Trouble<'a> {
    pub(crate) place: &'a str,
    pub(crate) error: Error,
}

impl fmt::Display for Trouble<'_> {
    fn fmt<W: fmt::Write>(&self, f: &mut fmt::Formatter<W>) -> fmt::Result {
        let place = self.place;
        let error = self.error;
        match error.kind() {
            ErrorKind::AddrInUse => write!(f, "{place}: address in use"),
            // A lock held by another program is not waited for.
            ErrorKind::WouldBlock => write!(f, "{place}: used by another program"),
            _ => write!(f, "{place}: {error}"),
        }
    }
}
