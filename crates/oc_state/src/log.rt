ghost use Rattle.std.specs.Prelude.{◌≡◌, ◌+◌, ◌<◌, ◌≤◌, ◌^◌, length, IfOk};
ghost use Rattle.oc_base.specs.Lawful.{IsCert};
ghost use Rattle.oc_model.specs.Records.{noted};
ghost use Rattle.oc_model.specs.Table.{merge};

use oc_base::{Cert, Memory};
use oc_model::Mode;
use oc_updown::{ChangeLog, Table};
use std::alloc::Global;

/// Merges a certificate into the table of a node in this mode; if the node is joined, adds it at the end of the
/// log too. Takes no memory: the table must have memory for all rows, and the log room for one more. The room is
/// required in every mode, so that callers need not look at the mode.
pub(crate) fn enter(table: &mut Table, log: &mut ChangeLog, mode: Mode, cert: &Cert)
    requires cert { IsCert table.old.nodes cert.now }
    requires nodes { log.old.nodes ≡ table.old.nodes }
    requires rows { table.old.nodes ≤ table.old.room }
    requires room { length log.old.log.waiting < log.old.room }
    requires places { log.old.log.length + 1 < 2 ^ 63 }
    ensures table { table.new ≡ record table.old { entries = merge table.old.entries cert.now } }
    ensures log { log.new ≡ record log.old { log = noted mode log.old.log cert.now } }
{
    table.merge(cert);
    if let Mode::Joined(_) = mode {
        log.note(cert);
    }
}

/// Copies all waiting certificates of the log, in their order.
#[tactic(auto, using(crate::proofs::Waiting::all_are_taken))]
pub(crate) fn all_waiting(alloc: Global, log: &ChangeLog) -> Result<Vec<Cert>, Memory>
    ensures { IfOk result (λ certs. certs.items ≡ log.now.log.waiting) }
{
    let mut certs = Vec::new(alloc);
    log.take((log.length() - log.acked()) as usize, &mut certs)?;
    Ok(certs)
}
