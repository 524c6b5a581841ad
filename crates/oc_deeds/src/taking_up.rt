//! Works that are due by themselves, and responses on dials.

ghost use Rattle.std.specs.Prelude.{◌≡◌, ℕ, IfErr, IfOk, IfSome, OnOk, Some, slice_get};
ghost use Rattle.oc_base.specs.Lawful.{IsNode, IsRate};
ghost use Rattle.oc_model.specs.Lawful.{IsInput};
ghost use Rattle.oc_routes.specs.Lawful.{IsAsking};
ghost use Rattle.oc_deeds.specs.Asks.{takes_up, wakes};
ghost use Rattle.oc_deeds.specs.Turns.{takes_brought, takes_measure, notes_fault, probes_it, ticked, ticks_if};
ghost use Rattle.oc_deeds.specs.Works.{client_input};

use crate::choosing::free_number;
use crate::doer::Doer;
use crate::due::{Due, due_of};
use crate::ends::TurnEnd;
use crate::lines::probe_note;
use crate::moving::goes_on;
use crate::obeying::responds;
use crate::pace::Pace;
use crate::told::{takes_ahead, takes_in};
use crate::work::{Pending, client_input};
use oc_base::{MAX_TIME, NodeId};
use oc_model::Input;
use oc_probe::ProbeFault;

/// Takes up the work at an index that is due by itself: a content goes on, and a client that waits is answered.
pub fn takes_up<W: Doer>(doer: &mut W, index: usize, now: u64) -> Result<(), TurnEnd>
    requires { W.serving doer.old }
    ensures did { OnOk result (W.does (takes_up (slice_get (W.running doer.old).works index) now) doer.old doer.new) }
    ensures breaks { IfErr result (λ end. W.stops end (takes_up (slice_get (W.running doer.old).works index) now) doer.old doer.new) }
{
    W::parts_go_on();
    W::parts_stop();
    W::is_lawful();
    match due_of(doer.works(), index) {
        Due::Aside(transfer) => goes_on(doer, transfer, now),
        Due::Waits(pending) => wakes(doer, pending, now),
        Due::Nothing => Ok(()),
    }
}

/// Answers a client that waits.
fn wakes<W: Doer>(doer: &mut W, pending: Pending, now: u64) -> Result<(), TurnEnd>
    requires serving { W.serving doer.old }
    requires asks { IsAsking pending.asked }
    requires input { IfSome (client_input pending.asked) (IsInput (W.running doer.old).node.control.nodes (W.running doer.old).node.control.me) }
    ensures did { OnOk result (W.does (wakes pending now) doer.old doer.new) }
    ensures breaks { IfErr result (λ end. W.stops end (wakes pending now) doer.old doer.new) }
{
    W::parts_go_on();
    W::parts_stop();
    let input = client_input(&pending.asked);
    // A request for content does not hurry the next tick.
    let _hurries = responds(doer, pending, input, now)?;
    Ok(())
}

/// Takes the input that results from a message's reply, if there is one.
pub fn takes_brought<W: Doer>(doer: &mut W, input: Option<Input>) -> Result<(), TurnEnd>
    requires serving { W.serving doer.old }
    requires input { IfSome input (IsInput (W.running doer.old).node.control.nodes (W.running doer.old).node.control.me) }
    ensures did { OnOk result (W.does (takes_brought input) doer.old doer.new) }
    ensures breaks { IfErr result (λ end. W.stops end (takes_brought input) doer.old doer.new) }
{
    W::parts_go_on();
    W::parts_stop();
    match input {
        Some(input) => takes_in(doer, input),
        None => Ok(()),
    }
}

/// Takes the rate that was measured of a peer, with the hops of its last record.
pub fn takes_measure<W: Doer>(doer: &mut W, peer: NodeId, rate: u64) -> Result<(), TurnEnd>
    requires serving { W.serving doer.old }
    requires peer { IsNode (W.running doer.old).node.control.nodes peer }
    requires rate { IsRate rate }
    ensures did { OnOk result (W.does (takes_measure peer rate) doer.old doer.new) }
    ensures breaks { IfErr result (λ end. W.stops end (takes_measure peer rate) doer.old doer.new) }
{
    W::parts_go_on();
    W::parts_stop();
    let (_rate, hops) = doer.node().measures().get(peer);
    takes_ahead(doer, Input::Measured { peer, rate, hops })
}

/// Begins the probe of a node now.
pub fn probes_it<W: Doer>(doer: &mut W, peer: NodeId) -> Result<(), TurnEnd>
    requires serving { W.serving doer.old }
    requires peer { IsNode (W.running doer.old).node.control.nodes peer }
    ensures did { OnOk result ((started : ℕ) × W.does (probes_it (Some peer) started) doer.old doer.new) }
    ensures breaks { IfErr result (λ end. (started : ℕ) × W.stops end (probes_it (Some peer) started) doer.old doer.new) }
{
    W::parts_go_on();
    W::parts_stop();
    let now = doer.millis();
    let dial = free_number(doer.dials_made());
    doer.probes(peer, dial, now)
}

/// Asks the clock, and takes a tick, if the clock has passed the second that it has to. Gives the clock's seconds.
pub fn ticked<W: Doer>(doer: &mut W, pace: &Pace) -> Result<u64, TurnEnd>
    requires { W.serving doer.old }
    ensures did { IfOk result (λ seconds. W.does (ticked pace.now.second seconds) doer.old doer.new) }
    ensures breaks { IfErr result (λ end. (seconds : ℕ) × W.stops end (ticked pace.now.second seconds) doer.old doer.new) }
{
    W::parts_go_on();
    W::parts_stop();
    let seconds = doer.seconds();
    ticks_if(doer, pace.has_passed(seconds), seconds)?;
    Ok(seconds)
}

/// Takes a tick at these seconds, if they have passed.
fn ticks_if<W: Doer>(doer: &mut W, passed: bool, seconds: u64) -> Result<(), TurnEnd>
    requires { W.serving doer.old }
    ensures did { OnOk result (W.does (ticks_if passed seconds) doer.old doer.new) }
    ensures breaks { IfErr result (λ end. W.stops end (ticks_if passed seconds) doer.old doer.new) }
{
    W::parts_go_on();
    W::parts_stop();
    if passed {
        takes_in(doer, Input::Tick(seconds.min(MAX_TIME)))
    } else {
        Ok(())
    }
}

/// Tells why a probe took nothing.
pub fn notes_fault<W: Doer>(doer: &mut W, peer: NodeId, fault: ProbeFault) -> Result<(), TurnEnd>
    requires { W.serving doer.old }
    ensures did { OnOk result (W.does (notes_fault peer fault) doer.old doer.new) }
    ensures breaks { IfErr result (λ end. W.stops end (notes_fault peer fault) doer.old doer.new) }
{
    W::parts_go_on();
    W::parts_stop();
    doer.may_end();
    let why = probe_note(doer.alloc(), peer, fault)?;
    doer.notes(&why)
}
