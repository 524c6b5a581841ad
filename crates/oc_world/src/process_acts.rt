//! An input at a node that runs: its files are turned over if they are ripe, then all memory is
//! taken, and only then are the durable changes written.

ghost use Rattle.std.specs.Prelude.{◌≡◌, ◌+◌, IfOk, OnOk};
ghost use Rattle.std.specs.List.{AllByRecursion};
ghost use Rattle.oc_keep.specs.KeptView.{IsRipe, node_of};
ghost use Rattle.oc_keep.specs.Promises.{IsSameNode};
ghost use Rattle.oc_keep.specs.ReadyView.{CanCommit, is_written, outcome_of, told_of};
ghost use Rattle.oc_model.specs.Lawful.{IsInput, IsMessage};
ghost use Rattle.oc_model.specs.NextWorld.{writes};
ghost use Rattle.oc_model.specs.Step.{step};
ghost use Rattle.oc_world.specs.ProcessState.{IsOpen};

use oc_base::Memory;
use oc_io::Disk;
use oc_keep::{Kept, Outcome, Ready, ReadyError, TidyError};
use oc_laws_step::lawful_nodes_stay_lawful;
use oc_model::Input;

/// Turns the control files over, if they are ripe.
#[tactic(auto, using(crate::proofs::Open::open_on, crate::proofs::Open::same_node))]
fn turn_over<D: Disk>(kept: &mut Kept<D>) -> Result<(), Memory>
    requires { IsOpen D.view kept.old }
    ensures open { IsOpen D.view kept.new }
    ensures node { node_of kept.new ≡ node_of kept.old }
    ensures turned { OnOk result (IsRipe kept.old → kept.new.store.generation ≡ kept.old.store.generation + 1) }
{
    let tidied = kept.tidy();
    kept.recovers();
    match tidied {
        Ok(_) => Ok(()),
        Err(TidyError::Memory) => Err(Memory),
        Err(_) => unreachable!(),
    }
}

/// Takes all memory for the step of an input.
#[tactic(auto, using(crate::proofs::Open::open_on))]
fn prepare<D: Disk>(kept: &mut Kept<D>, input: &Input) -> Result<Ready, Memory>
    requires open { IsOpen D.view kept.old }
    requires input { IsInput kept.old.node.control.nodes kept.old.node.control.me input.now }
    ensures open { IsOpen D.view kept.new }
    ensures node { node_of kept.new ≡ node_of kept.old }
    ensures step { IfOk result (λ ready. outcome_of (node_of kept.old) ready ≡ step (node_of kept.old) input.now) }
    ensures writes { IfOk result (λ ready. is_written ready.write ≡ writes (node_of kept.old) input.now) }
    ensures commits { IfOk result (λ ready. CanCommit D.view kept.new ready) }
    ensures generation { kept.new.store.generation ≡ kept.old.store.generation }
{
    let made = kept.ready(input);
    kept.recovers();
    match made {
        Ok(ready) => Ok(ready),
        Err(ReadyError::Memory) => Err(Memory),
        Err(_) => unreachable!(),
    }
}

/// Prepares an input at a node that runs. If memory runs out, the node is unchanged; its files may
/// have been turned over.
pub(crate) fn ready<D: Disk>(kept: &mut Kept<D>, input: &Input) -> Result<Ready, Memory>
    requires open { IsOpen D.view kept.old }
    requires input { IsInput kept.old.node.control.nodes kept.old.node.control.me input.now }
    ensures open { IsOpen D.view kept.new }
    ensures node { node_of kept.new ≡ node_of kept.old }
    ensures step { IfOk result (λ ready. outcome_of (node_of kept.old) ready ≡ step (node_of kept.old) input.now) }
    ensures writes { IfOk result (λ ready. is_written ready.write ≡ writes (node_of kept.old) input.now) }
    ensures commits { IfOk result (λ ready. CanCommit D.view kept.new ready) }
    ensures lawful { IfOk result (λ ready. AllByRecursion (IsMessage kept.old.node.control.nodes) ready.plan.sends) }

    // Control files that are ripe are turned over.
    ensures turned { OnOk result (IsRipe kept.old → kept.new.store.generation ≡ kept.old.store.generation + 1) }
{
    lawful_nodes_stay_lawful();
    kept.recovers();
    turn_over(kept)?;
    let ready = prepare(kept, input)?;
    Ok(ready)
}

/// Performs an input that was prepared.
#[tactic(auto, using(crate::proofs::Open::open_on))]
pub(crate) fn commit<D: Disk>(kept: &mut Kept<D>, ready: Ready) -> Outcome
    requires open { IsOpen D.view kept.old }
    requires ready { CanCommit D.view kept.old ready }
    ensures open { IsOpen D.view kept.new }
    ensures outcome { result ≡ told_of (outcome_of (node_of kept.old) ready) }
    ensures node { node_of kept.new ≡ (outcome_of (node_of kept.old) ready).node }
    ensures same { IsSameNode kept.old.node.control kept.new.node.control }
    ensures generation { kept.new.store.generation ≡ kept.old.store.generation }
{
    let taken = kept.commit(ready);
    kept.recovers();
    match taken {
        Ok(outcome) => outcome,
        Err(_) => unreachable!(),
    }
}
