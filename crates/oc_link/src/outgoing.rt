ghost use Rattle.std.specs.Prelude.{◌≡◌};
ghost use Rattle.oc_link.specs.Borrow.{ChangesOutgoing, Outgoing-hears-fails, Outgoing-hears-nothing, Outgoing-hears-then};
ghost use Rattle.oc_link.specs.Calls.{IfTold};
ghost use Rattle.oc_link.specs.Exchange.{Hears, HearsThenBreaks};
ghost use Rattle.oc_link.specs.Story.{IsHeardOut};

use crate::dialler::Dialler;
use oc_io::{Failed, Source};

/// The outgoing connection of a borrowed dialler, as a source of the reply.
#[derive(Drop)]
pub struct Outgoing<'a, L: Dialler> {
    /// The dialler.
    pub link: &'a mut L,
}

impl<'a, L: Dialler> Outgoing<'a, L> {
    /// The outgoing connection of this dialler. Its reads act on the borrowed dialler.
    pub fn new(link: &'a mut L) -> Outgoing<'a, L>
        ensures loan { result.link.ghost_name ≡ link.entry.ghost_name }
        ensures link { result.link.now ≡ link.old }
    {
        Outgoing { link }
    }
}

impl<L: Dialler> Source for Outgoing<'_, L> {
    ghost gives = { λ old bytes new. ChangesOutgoing (Hears bytes)
        (record { name = old.link.ghost_name; story = L.story old.link.now; faults = L.faults old.link.now })
        (record { name = new.link.ghost_name; story = L.story new.link.now; faults = L.faults new.link.now }) };

    ghost fails = { λ old bytes new. ChangesOutgoing (HearsThenBreaks bytes)
        (record { name = old.link.ghost_name; story = L.story old.link.now; faults = L.faults old.link.now })
        (record { name = new.link.ghost_name; story = L.story new.link.now; faults = L.faults new.link.now }) };

    ghost ended = { λ o. IfTold (L.story o.link.now) IsHeardOut };

    ghost calls = { λ o. 0 };

    ghost faults = { λ o. L.faults o.link.now };

    ghost gives_nothing = { λ o. Outgoing-hears-nothing
        (record { name = o.link.ghost_name; story = L.story o.link.now; faults = L.faults o.link.now }) };

    ghost gives_then = { λ a b c. Outgoing-hears-then
        (record { name = a.link.ghost_name; story = L.story a.link.now; faults = L.faults a.link.now })
        (record { name = b.link.ghost_name; story = L.story b.link.now; faults = L.faults b.link.now })
        (record { name = c.link.ghost_name; story = L.story c.link.now; faults = L.faults c.link.now }) };

    ghost gives_fails = { λ a b c. Outgoing-hears-fails
        (record { name = a.link.ghost_name; story = L.story a.link.now; faults = L.faults a.link.now })
        (record { name = b.link.ghost_name; story = L.story b.link.now; faults = L.faults b.link.now })
        (record { name = c.link.ghost_name; story = L.story c.link.now; faults = L.faults c.link.now }) };

    fn read(&mut self, buf: &mut [u8]) -> Result<usize, Failed> {
        self.link.dial_read(buf)
    }
}
