use std::alloc::Global;
use std::net::{Net, SocketAddr, TcpStream, ToSocketAddrs};

/// The addresses that a text names; none if it names none. An IP address with a port needs no
/// look-up. For a host's name the system has only a call that blocks: a node whose configuration
/// has names waits for their server at each dial, so addresses are better, or names from the
/// system's own table.
pub(crate) fn addresses_of<R: Net<Stream = TcpStream>>(
    rt: &R,
    alloc: Global,
    address: &str,
) -> Vec<SocketAddr> {
    let mut addresses = Vec::new(alloc);
    if let Ok(found) = address.to_socket_addrs(rt) {
        for each in found {
            if addresses.push(each).is_err() {
                break;
            }
        }
    }
    addresses
}
