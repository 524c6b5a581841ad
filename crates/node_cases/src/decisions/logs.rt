//! Change logs: the certificates noted, handed on and acknowledged.

ghost use Rattle.std.specs.Prelude.{◌≡◌, ◌<◌, ◌≤◌, IfOk, OnOk};

use crate::acting::{Acts, act_all};
use crate::decisions::tables::table_in;
use oc_base::{Cert, NodeId};
use oc_updown::ChangeLog;
use std::alloc::Global;
use test_tools::{Fault, RowFields, RowStep, cert_in, put_cert, put_shown};

/// The number of nodes.
const NODES: u32 = 6;

/// An upper bound on the certificates that a row notes.
const MOST: u64 = 1000;

/// A log among six nodes.
#[derive(Drop)]
struct LogOfSix {
    log: ChangeLog,
    ghost nodes: { log.nodes ≡ 6 },
}

/// Appends the words of a row: the result of each step on a new log.
pub fn put_words(alloc: Global, given: &str, said: &mut String) -> Result<(), Fault> {
    let mut changes = LogOfSix {
        log: ChangeLog::new(alloc, NODES)?,
    };
    act_all(alloc, &mut changes, given.split_ascii_whitespace(), said)
}

impl Acts for LogOfSix {
    fn act(&mut self, alloc: Global, step: RowStep<'_>, said: &mut String) -> Result<(), Fault> {
        let fields = step.fields;
        match step.word {
            "begin" => begin(alloc, self, fields),
            "note" => note_one(self, fields),
            "births" => note_births(self, fields),
            "ack" => ack(self, fields),
            "rebase" => rebase(self, fields),
            "clear" => {
                self.log.clear();
                Ok(())
            }
            "take" => take(alloc, self, fields, said),
            "state" => put_state(self, said),
            "waiting" => put_waiting(alloc, self, said),
            _ => Err(Fault::Field),
        }
    }
}

/// Restarts the log with a table of these certificates.
fn begin(alloc: Global, changes: &mut LogOfSix, fields: RowFields<'_>) -> Result<(), Fault> {
    let table = table_in(alloc, NODES, fields)?;
    changes.log.reserve(table.rows().len())?;
    changes.log.begin(&table);
    Ok(())
}

/// Puts a certificate at the end of the log.
fn note_one(changes: &mut LogOfSix, mut fields: RowFields<'_>) -> Result<(), Fault> {
    note(changes, &cert_in(fields.text())?)
}

fn note(changes: &mut LogOfSix, cert: &Cert) -> Result<(), Fault> {
    if cert.subject.0 < 1 || NODES < cert.subject.0 || changes.log.length() >= MOST {
        return Err(Fault::Field);
    }
    changes.log.reserve(1)?;
    changes.log.note(cert);
    Ok(())
}

/// Notes the given number of births of node 2, ascending by the number of the ask from 1 on.
fn note_births(changes: &mut LogOfSix, mut fields: RowFields<'_>) -> Result<(), Fault> {
    for seq in 1..=fields.number()? {
        let cert = Cert {
            subject: NodeId(2),
            seq,
            parent: NodeId(1),
            dead: false,
            number: 0,
            clients: 0,
        };
        note(changes, &cert)?;
    }
    Ok(())
}

fn ack(changes: &mut LogOfSix, mut fields: RowFields<'_>) -> Result<(), Fault> {
    changes.log.ack(fields.number()?);
    Ok(())
}

fn rebase(changes: &mut LogOfSix, mut fields: RowFields<'_>) -> Result<(), Fault> {
    let acked = fields.number()?;
    if acked > 1 << 62 {
        return Err(Fault::Field);
    }
    changes.log.rebase(acked);
    Ok(())
}

/// Puts the first certificates that wait, at most the given number, and the place after them.
fn take(
    alloc: Global,
    changes: &LogOfSix,
    mut fields: RowFields<'_>,
    said: &mut String,
) -> Result<(), Fault> {
    let limit = fields.byte()? as usize;
    let mut certs = Vec::new(alloc);
    let place = changes.log.take(limit, &mut certs)?;
    put_certs(&certs, said)?;
    put_shown(said, &place)
}

fn put_certs(certs: &[Cert], said: &mut String) -> Result<(), Fault> {
    said.push_str("[")?;
    for cert in certs {
        said.push_str(" ")?;
        put_cert(said, cert)?;
    }
    Ok(said.push_str(" ] ")?)
}

/// Appends the number of acknowledged certificates, and the number of all.
fn put_state(changes: &LogOfSix, said: &mut String) -> Result<(), Fault> {
    let acked = changes.log.acked();
    let length = changes.log.length();
    Ok(write!(said, "{acked}/{length} ")?)
}

/// Appends the nodes for which certificates wait.
fn put_waiting(alloc: Global, changes: &LogOfSix, said: &mut String) -> Result<(), Fault> {
    let mut certs = Vec::new(alloc);
    changes.log.take(usize::MAX, &mut certs)?;
    said.push_str("{")?;
    for node in 1..=NODES {
        if certs.iter().any(|cert| cert.subject == NodeId(node)) {
            write!(said, " {node}")?;
        }
    }
    Ok(said.push_str(" } ")?)
}
