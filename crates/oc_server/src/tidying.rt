//! The beginning of a turn: the files of a node are turned over, and read ahead.

ghost use Rattle.std.specs.Prelude.{◌≡◌, ◌+◌, IfErr, OnOk, [], false};
ghost use Rattle.oc_keep.specs.KeptView.{IsRipe};
ghost use Rattle.oc_server.specs.Looks.{LooksOnly, LookStops, end_of_tidy};
ghost use Rattle.oc_server.specs.Scenes.{Breaks, Did, IsServing};
ghost use Rattle.oc_deeds.specs.Under.{Idle};

use crate::server::Server;
use oc_deeds::TurnEnd;
use oc_io::{Disk, Failed, Sink};
use oc_keep::{Kept, TidyError};
use oc_link::Link;

impl<D: Disk, L: Link, K: Sink> Server<D, L, K> {
    /// Turns the control files over, where they are ripe, and reads the bytes that a child is likely to ask for next: by now
    /// the reply of the turn before is on its way.
    pub fn tidies(&mut self) -> Result<(), TurnEnd>
        requires { IsServing self.old }
        ensures did { OnOk result (Did D.view K.takes K.faults L.story L.counts [] self.old self.new) }
        ensures breaks { IfErr result (λ end. Breaks D.view K.takes K.fails K.faults L.story L.counts end Idle self.old self.new) }

        // A ripe node gets a greater generation.
        ensures ripe { OnOk result (IsRipe self.old.kept → self.new.kept.store.generation ≡ self.old.kept.store.generation + 1) }
    {
        tidy(&mut self.kept)
    }
}

/// Turns the control files over, where they are ripe, and reads ahead.
fn tidy<D: Disk>(kept: &mut Kept<D>) -> Result<(), TurnEnd>
    requires open { kept.old.closed ≡ false }
    ensures looks { OnOk result (LooksOnly D.view kept.old kept.new) }
    ensures stops { IfErr result (λ end. LookStops D.view end kept.old kept.new) }
    ensures ripe { OnOk result (IsRipe kept.old → kept.new.store.generation ≡ kept.old.store.generation + 1) }
{
    turn_over(kept)?;
    read_ahead(kept)
}

/// Turns the control files over, where they are ripe.
fn turn_over<D: Disk>(kept: &mut Kept<D>) -> Result<(), TurnEnd>
    requires open { kept.old.closed ≡ false }
    ensures looks { OnOk result (LooksOnly D.view kept.old kept.new) }
    ensures stops { IfErr result (λ end. LookStops D.view end kept.old kept.new) }
    ensures ripe { OnOk result (IsRipe kept.old → kept.new.store.generation ≡ kept.old.store.generation + 1) }
{
    match kept.tidy() {
        Ok(_) => Ok(()),
        Err(error) => {
            kept.recovers();
            Err(end_of(error))
        }
    }
}

/// Reads the bytes that a child is likely to ask for next.
fn read_ahead<D: Disk>(kept: &mut Kept<D>) -> Result<(), TurnEnd>
    requires open { kept.old.closed ≡ false }
    ensures looks { OnOk result (LooksOnly D.view kept.old kept.new) }
    ensures stops { IfErr result (λ end. LookStops D.view end kept.old kept.new) }
    ensures generation { kept.new.store.generation ≡ kept.old.store.generation }
{
    match kept.read_ahead() {
        Ok(()) => Ok(()),
        Err(Failed) => Err(TurnEnd::Disk),
    }
}

/// The end of a turn where the files are not tidied.
fn end_of(error: TidyError) -> TurnEnd
    ensures { result ≡ end_of_tidy error }
{
    match error {
        TidyError::Closed | TidyError::Disk => TurnEnd::Disk,
        TidyError::Memory => TurnEnd::Memory,
    }
}
