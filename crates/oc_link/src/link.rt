ghost use Rattle.std.specs.Prelude.{◌≡◌, ℕ, List, Option, OnErr, OnOk};
ghost use Rattle.oc_link.specs.declared.call.Call.{Call};
ghost use Rattle.oc_link.specs.declared.call.Call.TheVariants as acts;
ghost use Rattle.oc_link.specs.declared.counts.LinkCounts.{LinkCounts};
ghost use Rattle.oc_link.specs.Counts.{Counted, CountsListening};
ghost use Rattle.oc_link.specs.Told.{Adds, NextGives};

use crate::call::Ending;
use crate::event::LinkEvent;
use crate::ids::{ConnectionId, DialId};
use crate::look::Look;
use oc_io::Failed;

/// A network and a clock, as a running node uses them: connections that come in, and dials. Beside them the file of its
/// configuration, and the people who run it.
///
/// A link that tells its story says which calls were made and their answers. Sockets tell none; for them only
/// the clauses about counts hold. Times are in milliseconds unless a comment says seconds.
pub trait Link {
    /// The successful calls, oldest first, if the link tells them.
    ghost story: { Self → Option (List Call) };

    /// The number of failed calls so far, by their kind, and the time that the link has waited.
    ghost counts: { Self → LinkCounts };

    /// The bytes that the last event lends.
    ghost lends: { Self → List ℕ };

    /// Waits for connections at that address, a host and a port, from now on.
    fn listen(&mut self, address: &str) -> Result<(), Failed>
        ensures listens { OnOk result (Adds (acts.Listen address.now) (story self.old) (story self.new)) }
        ensures fails { OnErr result (story self.new ≡ story self.old) }
        ensures counts { CountsListening result (counts self.old) (counts self.new) };

    /// The next event, or `Quiet` when the wait is over. It is the only call that waits. The link chooses the
    /// order of several events.
    fn next(&mut self, wait: u64) -> Result<LinkEvent, Failed>
        ensures story { NextGives result (lends self.new) (story self.old) (story self.new) }
        ensures counts { Counted result wait (counts self.old) (counts self.new) };

    /// The bytes of the event that `next` gave last: of a request all that came and were not taken yet, and of a
    /// reply all. The caller reads them before any other call.
    fn lent(&self) -> &[u8]
        ensures { result.now ≡ lends self.now };

    /// Takes the first `count` bytes that came on a connection as its request; its reply is then under way.
    fn take(&mut self, connection: ConnectionId, count: u64)
        ensures story { Adds (acts.Take connection count) (story self.old) (story self.new) }
        ensures counts { counts self.new ≡ counts self.old };

    /// Gives a connection these bytes to send, all of them. An event tells later if they can't be kept or sent.
    fn give(&mut self, connection: ConnectionId, bytes: &[u8])
        ensures story { Adds (acts.Give connection bytes.now) (story self.old) (story self.new) }
        ensures counts { counts self.new ≡ counts self.old };

    /// Ends the reply of a connection, which was given in full, and says whether the connection stays open.
    fn finish(&mut self, connection: ConnectionId, ending: Ending)
        ensures story { Adds (acts.Finish connection ending) (story self.old) (story self.new) }
        ensures counts { counts self.new ≡ counts self.old };

    /// Closes a connection at once. Bytes that it was given may not have been sent.
    fn break_off(&mut self, connection: ConnectionId)
        ensures story { Adds (acts.BreakOff connection) (story self.old) (story self.new) }
        ensures counts { counts self.new ≡ counts self.old };

    /// Begins a dial to that address, and sends these bytes on it. An event tells the reply or the failure later.
    fn dial(&mut self, dial: DialId, address: &str, bytes: &[u8])
        ensures story { Adds (acts.Dial dial address.now bytes.now) (story self.old) (story self.new) }
        ensures counts { counts self.new ≡ counts self.old };

    /// The time in seconds, any number, since a moment of the link's own choice.
    fn now(&mut self) -> u64
        ensures story { Adds (acts.Now result) (story self.old) (story self.new) }
        ensures counts { counts self.new ≡ counts self.old };

    /// The time in milliseconds, any number, since a moment of the link's own choice.
    fn millis(&mut self) -> u64
        ensures story { Adds (acts.Millis result) (story self.old) (story self.new) }
        ensures counts { counts self.new ≡ counts self.old };

    /// Looks at the file of the program's configuration, where it is time to. The link chooses that time.
    fn look(&mut self) -> Look
        ensures story { Adds (acts.Look result) (story self.old) (story self.new) }
        ensures counts { counts self.new ≡ counts self.old };

    /// Tells the people who run the program this line, as far as it can be told.
    fn report(&mut self, line: &[u8])
        ensures story { Adds (acts.Report line.now) (story self.old) (story self.new) }
        ensures counts { counts self.new ≡ counts self.old };
}
