ghost use Rattle.std.specs.Prelude.{◌≡◌};

use crate::client_connection::ClientConnection;
use crate::failures::Failures;
use crate::trouble::Trouble;
use oc_io::Failed;
use oc_link::Dialler;
use std::alloc::Global;
use std::net::{Net, TcpStream};
use std::rt::Clock;

/// Sockets by which a client dials.
#[derive(Drop)]
pub struct SocketDialler<'a, R> {
    connection: ClientConnection<'a, R>,
    failures: Failures,
}

impl<'a, R: Net<Stream = TcpStream> + Clock> SocketDialler<'a, R> {
    /// A client's link over the sockets of this runtime.
    pub fn new(rt: &'a R, alloc: Global) -> SocketDialler<'a, R>
        ensures { result.failures.count ≡ 0 }
    {
        SocketDialler {
            connection: ClientConnection::new(rt, alloc),
            failures: Failures::new(alloc),
        }
    }

    /// The reason of the last failure, if a call on a dial failed.
    pub fn trouble(&self) -> Option<Trouble<'_>> {
        self.failures.trouble()
    }
}

impl<R: Net<Stream = TcpStream> + Clock> Dialler for SocketDialler<'_, R> {
    ghost use Rattle.std.specs.Prelude.{None};

    ghost story = { λ link. None };

    ghost faults = { λ link. link.failures.count };

    fn dial(&mut self, address: &str, bytes: &[u8]) -> Result<(), Failed> {
        match self.connection.reach(address, bytes) {
            Ok(()) => Ok(()),
            Err(error) => {
                self.connection.hang_up();
                Err(self.failures.keep(address, error))
            }
        }
    }

    fn dial_more(&mut self, bytes: &[u8]) -> Result<(), Failed> {
        match self.connection.ask(bytes) {
            Ok(()) => Ok(()),
            Err(error) => Err(self.failures.keep(self.connection.address(), error)),
        }
    }

    fn dial_read(&mut self, buf: &mut [u8]) -> Result<usize, Failed> {
        match self.connection.hear(buf) {
            Ok(count) => Ok(count),
            Err(error) => Err(self.failures.keep(self.connection.address(), error)),
        }
    }

    fn hang_up(&mut self) {
        self.connection.hang_up();
    }
}
