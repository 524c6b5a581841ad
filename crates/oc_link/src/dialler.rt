ghost use Rattle.std.specs.Prelude.{◌≡◌, ℕ, ◌<◌, ◌≤◌, Option, length, take, IfOk, OnErr, OnOk};
ghost use Rattle.std.specs.Option.{option_map};
ghost use Rattle.oc_io.specs.Faults.{NoFall, Rose};
ghost use Rattle.oc_link.specs.Calls.{DialFails, DialsTo, IfTold, OnOutgoing, Told};
ghost use Rattle.oc_link.specs.Exchange.{Breaks, Hears, Says, SaysFrontThenBreaks};
ghost use Rattle.oc_link.specs.Story.{Story, hung_up, IsHeardOut};

use oc_io::Failed;

/// A client's link: it makes connections, of which one at a time is the outgoing one.
///
/// A dialler that tells its story says which bytes passed. Sockets tell none; for them only the clauses about
/// counts and lengths hold. Lengths are in bytes.
pub trait Dialler {
    /// The dials so far, if the dialler tells them.
    ghost story: { Self → Option Story };

    /// The number of failed calls so far.
    ghost faults: { Self → ℕ };

    /// Makes an outgoing connection to that address, in place of the one before, and writes all
    /// these bytes on it. A failed dial leaves no outgoing connection.
    fn dial(&mut self, address: &str, bytes: &[u8]) -> Result<(), Failed>
        ensures dials { OnOk result
            (Told (DialsTo address.now bytes.now) (story self.old) (story self.new)) }
        ensures fails { OnErr result
            (Told (DialFails address.now bytes.now) (story self.old) (story self.new)) }
        ensures count { NoFall (faults self.old) (faults self.new) }
        ensures cause { OnErr result (Rose (faults self.old) (faults self.new)) };

    /// Writes all these bytes on the outgoing connection.
    fn dial_more(&mut self, bytes: &[u8]) -> Result<(), Failed>
        ensures writes { OnOk result
            (Told (OnOutgoing (Says bytes.now)) (story self.old) (story self.new)) }
        ensures breaks { OnErr result
            (Told (OnOutgoing (SaysFrontThenBreaks bytes.now)) (story self.old) (story self.new)) }
        ensures count { NoFall (faults self.old) (faults self.new) }
        ensures cause { OnErr result (Rose (faults self.old) (faults self.new)) };

    /// Reads from the outgoing connection: fills a prefix of the buffer and answers its length. 0 for a
    /// non-empty buffer means the end.
    fn dial_read(&mut self, buf: &mut [u8]) -> Result<usize, Failed>
        ensures within { IfOk result (λ n. n ≤ length buf.old) }
        ensures reads { IfOk result
            (λ n. Told (OnOutgoing (Hears (take n buf.new))) (story self.old) (story self.new)) }
        ensures end { IfOk result (λ n. n ≡ 0 → 0 < length buf.old → IfTold (story self.new) IsHeardOut) }
        ensures breaks { OnErr result (Told (OnOutgoing Breaks) (story self.old) (story self.new)) }
        ensures count { NoFall (faults self.old) (faults self.new) }
        ensures cause { OnErr result (Rose (faults self.old) (faults self.new)) };

    /// Ends the outgoing connection, if there is one.
    fn hang_up(&mut self)
        ensures story { story self.new ≡ option_map hung_up (story self.old) }
        ensures count { faults self.new ≡ faults self.old };
}
