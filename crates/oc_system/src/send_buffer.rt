use crate::limits::SEND_BUFFER;
use libc::net as c;
use std::os::fd::AsRawFd;

/// Asks the system for short send buffers on the connections that this listener accepts: they
/// inherit its setting. If the setting fails, the system's default remains.
pub(crate) fn shorten_send_buffers<L: AsRawFd>(listener: &L) {
    let mut value = [0u8; 16];
    value[..4].copy_from_slice(&SEND_BUFFER.to_ne_bytes());
    let fd = listener.as_raw_fd();
    let _set = unsafe { c::setsockopt(fd, c::SOL_SOCKET, c::SO_SNDBUF, &value, 4) };
}
