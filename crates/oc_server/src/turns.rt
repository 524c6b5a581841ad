ghost use Rattle.std.specs.Prelude.{◌≡◌, IfErr, IfOk, OnOk, unwrap_or};
ghost use Rattle.oc_keep.specs.KeptView.{IsHonest};
ghost use Rattle.oc_server.specs.Lawful.{IsReady};
ghost use Rattle.oc_server.specs.Runs.{HandleStops, Handled, LookAgainStops, LooksAgain, NextStops, NextTaken, ServeEnds, Turned, TurnStops, due_in};

use crate::server::Server;
use oc_base::Bytes;
use oc_deeds::choosing::{due_index, wait_for};
use oc_deeds::rereading::{goes_by, last_read};
use oc_deeds::{Doer, Pace, TurnEnd, deals, takes_due};
use oc_io::{Disk, Sink};
use oc_link::Link;
use oc_probe::Probing;

impl<D: Disk, L: Link, K: Sink> Server<D, L, K> {
    /// The index of the work that is due by itself at this time.
    fn due_at(&self, now: u64) -> Option<usize>
        ensures { IsHonest D.view self.now.kept → result ≡ due_in self.now now }
    {
        due_index(self.works.list(), self.kept.shelf(), now)
    }
}

/// A running node turn by turn.
#[derive(Drop)]
pub struct Turns<D: Disk, L: Link, K: Sink> {
    pub server: Server<D, L, K>,
    /// The times of its ticks.
    pub pace: Pace,
    /// The state for probes, if the node probes.
    pub probing: Option<Probing>,
    /// The bytes of its configuration that were read last; none where the last reading failed.
    pub reading: Option<Bytes>,
}

impl<D: Disk, L: Link, K: Sink> Turns<D, L, K> {
    /// Makes turns one after another, this many, or 2^64 - 1 where no number is given; or those up to one that ends partway
    /// through. Gives the end.
    pub fn serve(&mut self, turns: Option<u64>) -> TurnEnd
        requires { IsReady self.old }
        ensures { ServeEnds D.view K.takes K.fails K.faults L.story L.counts (unwrap_or turns u64.MAX) result self.old self.new }
    {
        let most = turns.unwrap_or(u64::MAX);
        'turns: for done in 0..most {
            match self.turn() {
                Ok(_) => {}
                Err(end) => return end,
            }
        }
        TurnEnd::Served
    }

    /// Makes one turn. Gives whether something was served.
    pub fn turn(&mut self) -> Result<bool, TurnEnd>
        requires { IsReady self.old }

        // A turn was done, by the news of the link and the clock; where it ended partway through, a front of it.
        ensures turned { IfOk result (λ served. Turned D.view K.takes K.faults L.story L.counts served self.old self.new) }
        ensures stops { IfErr result (λ end. TurnStops D.view K.takes K.fails K.faults L.story L.counts end self.old self.new) }

        // The node is ready for another turn.
        ensures ready { OnOk result (IsReady self.new) }
    {
        let served = self.handles()?;
        self.looks_again()?;
        Ok(served)
    }

    /// Deals with what came or was due. It answers whether something was served.
    fn handles(&mut self) -> Result<bool, TurnEnd>
        requires { IsReady self.old }
        ensures handled { IfOk result (λ served. Handled D.view K.takes K.faults L.story L.counts served self.old self.new) }
        ensures stops { IfErr result (λ end. HandleStops D.view K.takes K.fails K.faults L.story L.counts end self.old self.new) }
        ensures ready { OnOk result (IsReady self.new) }
    {
        self.server.tidies()?;
        let before = self.server.millis();
        match self.server.due_at(before) {
            Some(index) => {
                takes_due(&mut self.server, &mut self.pace, index, before)?;
                Ok(true)
            }
            None => self.takes_next(before),
        }
    }

    /// Looks at the file of the configuration, and goes by what it says now, where that may be.
    fn looks_again(&mut self) -> Result<(), TurnEnd>
        requires { IsReady self.old }
        ensures looked { OnOk result (LooksAgain D.view K.takes K.faults L.story L.counts self.old self.new) }
        ensures stops { IfErr result (λ end. LookAgainStops D.view K.takes K.fails K.faults L.story L.counts end self.old self.new) }
        ensures ready { OnOk result (IsReady self.new) }
    {
        let look = self.server.looks();
        let reread = self.server.rereads_look(&self.reading, &look)?;
        self.reading = last_read(self.reading.take(), look);
        goes_by(&mut self.server, &mut self.probing, reread)?;
        Ok(())
    }

    /// Takes one thing that happened at the link. Gives whether something was served.
    fn takes_next(&mut self, before: u64) -> Result<bool, TurnEnd>
        requires { IsReady self.old }
        ensures ready { OnOk result (IsReady self.new) }
        ensures taken { IfOk result (λ served. NextTaken D.view K.takes K.faults L.story L.counts before served self.old self.new) }
        ensures stops { IfErr result (λ end. NextStops D.view K.takes K.fails K.faults L.story L.counts end before self.old self.new) }
    {
        let wait = wait_for(&self.pace, self.server.works.list(), before);
        let happened = self.server.sees(wait)?;
        let came = self.server.understands(happened)?;
        let now = self.server.millis();
        let served = came.is_something();
        deals(
            &mut self.server,
            &mut self.pace,
            &mut self.probing,
            came,
            now,
        )?;
        Ok(served)
    }
}
