//! Lines of no input.

ghost use Rattle.std.specs.Prelude.{◌≡◌, ◌++◌, IfOk, OnOk};
ghost use Rattle.oc_deeds.specs.Deeds.{note_line};
ghost use Rattle.oc_deeds.specs.Turns.{probe_note};

use oc_base::{Memory, NodeId, put, put_number};
use oc_probe::ProbeFault;
use std::alloc::Global;

/// Puts the line `! WHY`. `Memory` where it runs out.
pub fn put_note(out: &mut Vec<u8>, why: &[u8]) -> Result<(), Memory>
    ensures { OnOk result (out.new.items ≡ out.old.items ++ note_line why.now) }
{
    put(out, b"! ")?;
    put(out, why)?;
    put(out, b"\n")
}

/// The cause for which a probe took nothing. `Memory` where it runs out.
pub fn probe_note(alloc: Global, peer: NodeId, fault: ProbeFault) -> Result<Vec<u8>, Memory>
    ensures { IfOk result (λ why. why.items ≡ probe_note peer fault) }
{
    let mut why = Vec::new(alloc);
    put(&mut why, b"probe ")?;
    put_number(&mut why, u64::from(peer.0))?;
    match fault {
        ProbeFault::Link => put(&mut why, b" link")?,
        ProbeFault::Reply | ProbeFault::Memory => put(&mut why, b" reply")?,
    }
    Ok(why)
}
