use crate::limits::{ACKNOWLEDGE_MILLIS, MOST_SPARE, SPARE_MILLIS};
use crate::socket::{Moved, read_some};
use libc::net as c;
use mio::net::TcpStream;
use std::alloc::{AllocError, Global};
use std::collections::VecDeque;
use std::net::SocketAddr;
use std::os::fd::AsRawFd;

/// A connection that is kept for the next dial to its address.
#[derive(Drop)]
struct Spare {
    stream: TcpStream,
    address: SocketAddr,
    since: u64,
}

/// The connections of dials that have their replies, at most one to an address, the oldest first.
#[derive(Drop)]
pub(crate) struct SpareConnections {
    list: VecDeque<Spare>,
}

impl SpareConnections {
    /// None so far. The memory for all is taken.
    pub(crate) fn new(alloc: Global) -> Result<SpareConnections, AllocError> {
        Ok(SpareConnections {
            list: VecDeque::with_capacity(alloc, MOST_SPARE)?,
        })
    }

    /// Keeps a connection, in place of an earlier one to its address. If there are too many, the
    /// oldest one is closed.
    pub(crate) fn keep(&mut self, stream: TcpStream, address: SocketAddr, now: u64) {
        notice_loss(&stream);
        self.list.retain(|spare| spare.address != address);
        if self.list.len() >= MOST_SPARE {
            let _closed = self.list.pop_front();
        }
        // There is room: the list is shorter than its greatest length.
        let _kept = self
            .list
            .push_back(Spare {
                stream,
                address,
                since: now,
            })
            .is_ok();
    }

    /// The kept connection to the first of these addresses that has one, with the index of the
    /// address. A connection on which anything came, or the end, is of no use any more.
    pub(crate) fn take(
        &mut self,
        addresses: &[SocketAddr],
        now: u64,
    ) -> Option<(usize, TcpStream)> {
        self.drop_old(now);
        for (index, address) in addresses.iter().enumerate() {
            if let Some(mut spare) = self.remove(*address) {
                if is_silent(&mut spare.stream) {
                    return Some((index, spare.stream));
                }
            }
        }
        None
    }

    /// Takes the connection to this address out of the list, if there is one.
    fn remove(&mut self, address: SocketAddr) -> Option<Spare> {
        let at = self.list.iter().position(|spare| spare.address == address)?;
        self.list.remove(at)
    }

    /// Closes the connections that were kept for their time.
    pub(crate) fn drop_old(&mut self, now: u64) {
        self.list
            .retain(|spare| now.saturating_sub(spare.since) < SPARE_MILLIS);
    }

    /// Closes the oldest connection; false if there is none.
    pub(crate) fn drop_oldest(&mut self) -> bool {
        self.list.pop_front().is_some()
    }
}

/// Whether neither a byte nor the end has come on a connection.
fn is_silent(stream: &mut TcpStream) -> bool {
    let mut byte = [0u8; 1];
    matches!(read_some(stream, &mut byte), Moved::Nothing)
}

/// Asks the system to end the connection soon if the peer acknowledges nothing. If the setting
/// fails, the limits of a dial remain.
fn notice_loss(stream: &TcpStream) {
    let mut value = [0u8; 16];
    value[..4].copy_from_slice(&ACKNOWLEDGE_MILLIS.to_ne_bytes());
    let fd = stream.as_raw_fd();
    let _set = unsafe { c::setsockopt(fd, c::IPPROTO_TCP, c::TCP_USER_TIMEOUT, &value, 4) };
}
