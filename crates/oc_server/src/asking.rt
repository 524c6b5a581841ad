//! The questions of a turn to its link: one event, and the time.

ghost use Rattle.std.specs.Prelude.{◌≡◌, ◌∷◌, [], Ok, List, ℕ, IfErr, IfOk};
ghost use Rattle.oc_link.specs.Told.{NextGives};
ghost use Rattle.oc_deeds.specs.Deeds.{Reads, Sees, errand_in};
ghost use Rattle.oc_server.specs.Scenes.{Breaks, Did, IsServing};
ghost use Rattle.oc_deeds.specs.Under.{Idle};

use crate::server::Server;
use oc_deeds::{Errand, TurnEnd, errand_in};
use oc_io::{Disk, Sink};
use oc_link::{Link, LinkEvent};

/// One event, and the purpose of the dial whose reply it is.
#[derive(Clone, Copy, Debug)]
pub struct Heard {
    pub event: LinkEvent,
    pub errand: Option<Errand>,
}

impl<D: Disk, L: Link, K: Sink> Server<D, L, K> {
    /// One thing that happened at the link, at the latest when this many milliseconds have passed. A dial whose reply
    /// came is over.
    pub fn sees(&mut self, wait: u64) -> Result<Heard, TurnEnd>
        requires { IsServing self.old }
        ensures did { IfOk result (λ seen. (bytes : List ℕ) × Did D.view K.takes K.faults L.story L.counts (Sees seen.event wait bytes ∷ []) self.old self.new) }
        ensures told { IfOk result (λ seen. NextGives (Ok seen.event) (L.lends self.new.link) (L.story self.old.link) (L.story self.new.link)) }
        ensures errand { IfOk result (λ seen. seen.errand ≡ errand_in seen.event self.old.dials) }
        ensures breaks { IfErr result (λ end. (end ≡ TurnEnd.Link) × Breaks D.view K.takes K.fails K.faults L.story L.counts end Idle self.old self.new) }
    {
        self.kept.recovers();
        match self.link.next(wait) {
            Ok(event) => {
                let errand = errand_in(&mut self.dials, &event);
                Ok(Heard { event, errand })
            }
            Err(_) => Err(TurnEnd::Link),
        }
    }

    /// The time in milliseconds.
    pub(crate) fn millis(&mut self) -> u64
        requires { IsServing self.old }
        ensures { Did D.view K.takes K.faults L.story L.counts (Reads result ∷ []) self.old self.new }
    {
        self.link.millis()
    }
}
