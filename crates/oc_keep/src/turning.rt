//! A snapshot of a node in the place of its control records.

ghost use Rattle.std.specs.Prelude.{◌≡◌, ◌≢◌, ◌↔◌, ◌+◌, ◌-◌, ◌^◌, ◌<◌, ◌≤◌, false, length, IsTrue, IsErrOf, MatchOption, IfOk, IfErr, IfSome};
ghost use Rattle.oc_base.specs.declared.limits.TheConstants.{MAX_BASE_ACKED, MAX_FRAME_RECORDS};
ghost use Rattle.oc_base.specs.Lawful.{IsCount};
ghost use Rattle.oc_model.specs.Lawful.{AreRecords};
ghost use Rattle.oc_model.specs.Snapshot.{snapshot};
ghost use Rattle.oc_node.specs.NodeView.{IsReached};
ghost use Rattle.oc_keep.specs.Turning.{ClosesByTurning, IsShort, Replaces};
ghost use Rattle.oc_keep.specs.Writing.{KeepsStore};

use crate::errors::TidyError;
use oc_base::{MAX_BASE_ACKED, MAX_FRAME_RECORDS, Memory};
use oc_io::Disk;
use oc_node::Node;
use oc_record::{Record, spellings_are_read};
use oc_store::{RestartError, Store};

/// Turns the control files over to a snapshot of the node, if the snapshot fits in a frame, and answers whether it
/// did. The store is open and due.
pub fn replace<D: Disk>(node: &Node, store: &mut Store<D>) -> Result<bool, TidyError>
    requires open { store.old.closed ≡ false }
    requires next { store.old.generation < 2 ^ 64 - 1 }
    requires reached { IsReached node.now.control }
    ensures short { IfOk result (λ turned. IsTrue turned ↔ IsShort (store.old.generation + 1) node.now.control.kept) }
    ensures replaces { IfOk result (λ turned. IsTrue turned → Replaces D.view (snapshot (store.old.generation + 1) node.now.control.kept) store.old store.new) }
    ensures stays { IfOk result (λ turned. turned ≡ false → store.new ≡ store.old) }
    ensures memory { IsErrOf result TidyError.Memory → KeepsStore D.view store.old store.new }
    ensures disk { IsErrOf result TidyError.Disk → ClosesByTurning D.view (snapshot (store.old.generation + 1) node.now.control.kept) store.old store.new
        × IsShort (store.old.generation + 1) node.now.control.kept }
    ensures works { IsTrue (D.view store.old.other.disk).reliable → IfErr result (λ error. error ≡ TidyError.Memory) }
    ensures open { IfErr result (λ error. error ≢ TidyError.Closed) }
{
    spellings_are_read();
    let Some(list) = short_snapshot(node, store.generation() + 1)? else {
        return Ok(false);
    };
    let prepared = store.prepare_snapshot(&list);
    // Dropping the list, and then the frame, by a call takes less to prove than dropping them at the end of their
    // scope.
    drop(list);
    let frame = prepared?;
    let turned = store.turn_over(&frame);
    drop(frame);
    match turned {
        Ok(()) => Ok(true),
        Err(RestartError::Disk) => Err(TidyError::Disk),
        Err(RestartError::Closed) => unreachable!(),
    }
}

/// Whether a disk failed while the control files were turned over.
pub fn turning_failed(turned: &Result<bool, TidyError>) -> bool
    ensures { IsTrue result ↔ IsErrOf turned.now TidyError.Disk }
{
    matches!(turned, Err(TidyError::Disk))
}

/// The snapshot of a node under this generation, if it fits in a frame and its log in a base.
fn short_snapshot(node: &Node, generation: u64) -> Result<Option<Vec<Record>>, Memory>
    ensures lawful { IfOk result (λ found. IfSome found (λ list. IsCount generation → AreRecords node.now.control.nodes list.items)) }
    ensures found { IfOk result (λ found. MatchOption found (¬ IsShort generation node.now.control.kept)
        (λ list. (list.items ≡ snapshot generation node.now.control.kept) × IsShort generation node.now.control.kept)) }
{
    if node.log().length() > MAX_BASE_ACKED {
        return Ok(None);
    }
    let list = node.snapshot(generation)?;
    if list.len() > MAX_FRAME_RECORDS {
        return Ok(None);
    }
    Ok(Some(list))
}
