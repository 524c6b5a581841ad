//! An input made ready: its plan, its write, and the bytes that it sends.

ghost use Rattle.std.specs.Prelude.{◌≡◌, ◌≢◌, ◌↔◌, ◌⊎◌, ◌≤◌, false, IsTrue, IsErrOf, None, Some, IfOk, IfErr, OnOk, OnErr};
ghost use Rattle.oc_base.specs.declared.limits.TheConstants.{MAX_LOG_LENGTH};
ghost use Rattle.oc_content.specs.ContentFile.{IsShelved};
ghost use Rattle.oc_content.specs.Promises.{PutsNothing};
ghost use Rattle.oc_journal.specs.Promises.{ClosesByRead, NoneFailed};
ghost use Rattle.oc_keep.specs.ControlStep.{DoesControlStep, Fetches};
ghost use Rattle.oc_keep.specs.KeptView.{IsFullAt, kept_of, node_of};
ghost use Rattle.oc_keep.specs.Promises.{ChangesNothing};
ghost use Rattle.oc_keep.specs.Puts.{CanWant};
ghost use Rattle.oc_keep.specs.ReadyView.{CanCommit, IsFullToWrite, outcome_of};
ghost use Rattle.oc_model.specs.declared.want.Want.{Want};
ghost use Rattle.oc_model.specs.Lawful.{IsInput};
ghost use Rattle.oc_model.specs.Step.{plan, step};
ghost use Rattle.oc_node.specs.Planned.{IsWanting};

use crate::errors::ReadyError;
use crate::law::prepare_refuses_nothing_that_is_kept;
use crate::ready::Ready;
use crate::writing::writing;
use oc_base::Memory;
use oc_content::{Content, FetchError};
use oc_io::Disk;
use oc_laws_step::folding_is_stepping;
use oc_model::Input;
use oc_node::{Node, Plan};
use oc_record::spellings_are_read;
use oc_store::Store;
use std::alloc::Global;

/// Makes an input ready for a node on open files: takes all memory, and reads the bytes that the step sends.
pub fn make_ready<D: Disk>(
    alloc: Global,
    node: &mut Node,
    store: &mut Store<D>,
    content: &mut Content<D>,
    input: &Input,
) -> Result<Ready, ReadyError>
    requires input { IsInput node.old.control.nodes node.old.control.me input.now }
    requires log { node.old.control.kept.log.length ≤ MAX_LOG_LENGTH }
    ensures step { IfOk result (λ ready. IsTrue (D.view content.old.journal.disk).honest
        → outcome_of (node_of (kept_of node.old store.old content.old false)) ready ≡ step (node_of (kept_of node.old store.old content.old false)) input.now) }
    ensures commits { IfOk result (λ ready. CanCommit D.view (kept_of node.new store.new content.new false) ready) }
    ensures control { IfOk result (λ ready. DoesControlStep (plan node.old.control content.old.shelves input.now) node.old.control ready) }
    ensures full { IfOk result (λ ready. IsFullToWrite (kept_of node.new store.new content.new false) ready.write
        ↔ IsFullAt (kept_of node.old store.old content.old false) input.now) }
    ensures nothing { ChangesNothing D.view (kept_of node.old store.old content.old false) (kept_of node.new store.new content.new false) }
    ensures none_failed { IsErrOf result ReadyError.Disk ⊎ NoneFailed D.view content.old.journal content.new.journal }
    ensures disk { IsErrOf result ReadyError.Disk → ClosesByRead D.view content.old.journal content.new.journal
        × ¬ IsFullAt (kept_of node.old store.old content.old false) input.now }
    ensures open { IfErr result (λ error. error ≢ ReadyError.Closed) }
{
    prepare_refuses_nothing_that_is_kept();
    spellings_are_read();
    let mut plan = node.plan(input, content.groups())?;
    // Dropped by calls, the plan and its write cost less to prove than dropped at the end of their scope.
    let write = match writing(alloc, store, content, &plan, input) {
        Ok(write) => write,
        Err(Memory) => {
            drop(plan);
            return Err(ReadyError::Memory);
        }
    };
    match fetch(alloc, content, &mut plan) {
        Ok(()) => Ok(Ready::of(alloc, plan, write)?),
        Err(error) => {
            drop(plan);
            drop(write);
            Err(error)
        }
    }
}

/// Whether a disk failed while an input was made ready.
pub fn making_failed(made: &Result<Ready, ReadyError>) -> bool
    ensures { IsTrue result ↔ IsErrOf made.now ReadyError.Disk }
{
    matches!(made, Err(ReadyError::Disk))
}

/// Fetches the bytes that a plan wants, and puts them into its chunk.
fn fetch<D: Disk>(
    alloc: Global,
    content: &mut Content<D>,
    plan: &mut Plan,
) -> Result<(), ReadyError>
    requires held { CanWant content.old.shelves plan.old.wants }
    requires wanting { (w : Want) → plan.old.wants ≡ Some w → IsWanting plan.old w.count }
    requires shelved { IsTrue (D.view content.old.journal.disk).honest
        → IsShelved content.old.journal.frames content.old.shelves }
    ensures fetched { OnOk result (Fetches D.view content.old plan.old plan.new) }
    ensures rest { plan.new ≡ record plan.old { sends = plan.new.sends; room = plan.new.room } }
    ensures content { PutsNothing D.view content.old content.new }
    ensures disk { IsErrOf result ReadyError.Disk → ClosesByRead D.view content.old.journal content.new.journal }
    ensures none_failed { IsErrOf result ReadyError.Disk ⊎ NoneFailed D.view content.old.journal content.new.journal }
    ensures wanting { OnErr result (plan.old.wants ≢ None) }
    ensures open { IfErr result (λ error. error ≢ ReadyError.Closed) }
{
    let Some(want) = plan.wants() else {
        return Ok(());
    };
    match content.fetch(alloc, &want.group, want.start, want.count as usize) {
        Ok(bytes) => {
            plan.fill(bytes);
            Ok(())
        }
        Err(FetchError::Disk) => Err(ReadyError::Disk),
        Err(FetchError::Memory) => Err(ReadyError::Memory),
        // The wanted bytes are of a held group.
        Err(FetchError::NoGroup) => unreachable!(),
    }
}
