ghost use Rattle.std.specs.Prelude.{◌≡◌, ◌+◌, ◌-◌, ◌^◌, ◌<◌, ◌≤◌, ◌++◌, [], ◌∷◌, Option, length, take, max, IfOk, OnOk, OnErr, IfSome};
ghost use Rattle.oc_base.specs.declared.limits.TheConstants.{MAX_BASE_ACKED};
ghost use Rattle.oc_model.specs.Node.{empty_log};
ghost use Rattle.oc_model.specs.ChangeLog.{begun_with, note, ack, acked_whole};
ghost use Rattle.oc_updown.specs.TableView.{AreRows, AreRowsFrom, entries_of};
ghost use Rattle.oc_base.specs.Lawful.{IsNode};

use crate::Table;
use crate::waiting::Waiting;
use oc_base::{Cert, Memory};
use std::alloc::Global;
use std::marker::Model;

/// The change log: the certificates for the parent, in the order in which they came, and the number of
/// acknowledged ones. Only those that wait are in memory. Places are counted from the beginning of the log.
///
/// A contract sees the number of nodes, the log, and the number of waiting certificates for which there is
/// room.
#[derive(Drop)]
pub struct ChangeLog {
    waiting: Waiting,
    acked: u64,
}

impl Model for ChangeLog {
    ghost use Rattle.std.specs.Prelude.{◌+◌, ◌^◌, ◌<◌, length as len_of};
    ghost use Rattle.oc_updown.specs.ChangeLogView.{ChangeLogView, log_of};

    ghost Value = { ChangeLogView };

    ghost view = { λ l. record { nodes = l.waiting.nodes; log = log_of l.acked l.waiting.certs; room = l.waiting.room } };

    ghost invariant = { λ l. l.acked + len_of l.waiting.certs < 2 ^ 63 };
}

impl ChangeLog {
    /// An empty log, in a network of this number of nodes.
    pub fn new(alloc: Global, nodes: u32) -> Result<ChangeLog, Memory>
        ensures log { IfOk result (λ made. made.log ≡ empty_log) }
        ensures nodes { IfOk result (λ made. made.nodes ≡ nodes) }
    {
        Ok(ChangeLog {
            waiting: Waiting::new(alloc, nodes)?,
            acked: 0,
        })
    }

    /// Makes room for this number of further certificates.
    pub fn reserve(&mut self, more: usize) -> Result<(), Memory>
        ensures room { OnOk result (length self.new.log.waiting + more ≤ self.new.room) }
        ensures stays { self.old.room ≤ self.new.room }
        ensures log { self.new.log ≡ self.old.log }
        ensures nodes { self.new.nodes ≡ self.old.nodes }
    {
        self.waiting.reserve(more)
    }

    /// Begins anew with all entries of a table, alive and dead, with nothing acknowledged. There must be room
    /// for them. Takes no memory.
    pub fn begin(&mut self, table: &Table)
        requires room { length table.now.entries ≤ self.old.room }
        requires nodes { table.now.nodes ≤ self.old.nodes }
        ensures log { self.new.log ≡ begun_with table.now.entries }
        ensures room { self.new.room ≡ self.old.room }
        ensures nodes { self.new.nodes ≡ self.old.nodes }
    {
        self.clear();
        self.waiting.push_rows(table.rows());
    }

    /// Empties the log: its length is 0 then. Takes no memory.
    pub fn clear(&mut self)
        ensures log { self.new.log ≡ empty_log }
        ensures room { self.new.room ≡ self.old.room }
        ensures nodes { self.new.nodes ≡ self.old.nodes }
    {
        self.rebase(0);
    }

    /// Empties the log, and sets its length, all of it acknowledged. Takes no memory.
    pub fn rebase(&mut self, acked: u64)
        requires { acked ≤ MAX_BASE_ACKED }
        ensures log { self.new.log ≡ acked_whole acked }
        ensures room { self.new.room ≡ self.old.room }
        ensures nodes { self.new.nodes ≡ self.old.nodes }
    {
        self.waiting.clear();
        self.acked = acked;
    }

    /// Adds a certificate at the end. There must be room for it. Takes no memory.
    #[tactic(auto, using(crate::proofs::Lengths::length_of_noted))]
    pub fn note(&mut self, cert: &Cert)
        requires subject { IsNode self.old.nodes cert.now.subject }
        requires room { length self.old.log.waiting < self.old.room }
        requires most { self.old.log.length < 2 ^ 63 - 1 }
        ensures log { self.new.log ≡ note self.old.log cert.now }
        ensures waiting { length self.new.log.waiting ≡ length self.old.log.waiting + 1 }
        ensures length { self.new.log.length ≡ self.old.log.length + 1 }
        ensures room { self.new.room ≡ self.old.room }
        ensures nodes { self.new.nodes ≡ self.old.nodes }
    {
        self.waiting.push(cert);
    }

    /// The number of acknowledged certificates.
    pub fn acked(&self) -> u64
        ensures acked { result ≡ self.now.log.acked }
        ensures below { result < 2 ^ 63 }
    {
        self.acked
    }

    /// The number of all certificates of the log, acknowledged or waiting.
    pub fn length(&self) -> u64
        ensures length { result ≡ self.now.log.length }
        ensures parts { result ≡ self.now.log.acked + length self.now.log.waiting }
        ensures below { self.now.log.length < 2 ^ 63 }
    {
        self.acked + self.waiting.len() as u64
    }

    /// Copies the first waiting certificates, at most `limit`, to the end of a vector, and answers the place
    /// after them. If memory runs out, the vector does not change.
    pub fn take(&self, limit: usize, into: &mut Vec<Cert>) -> Result<u64, Memory>
        ensures place { IfOk result (λ place. place ≡ self.now.log.acked + length (take limit self.now.log.waiting)) }
        ensures within { IfOk result (λ place. place ≤ self.now.log.length) }
        ensures certs { OnOk result (into.new.items ≡ into.old.items ++ take limit self.now.log.waiting) }
        ensures err { OnErr result (into.new.items ≡ into.old.items) }
    {
        let count = limit.min(self.waiting.len());
        into.reserve(count)?;
        self.waiting.copy_first(count, into);
        Ok(self.acked + count as u64)
    }

    /// Acknowledges up to a place, and frees the acknowledged certificates. Nothing changes if the place
    /// is past the end, or is acknowledged already. Takes no memory.
    #[tactic(auto, using(crate::proofs::Lengths::length_of_acknowledged))]
    pub fn ack(&mut self, upto: u64)
        ensures log { self.new.log ≡ ack self.old.log upto }
        ensures within { upto ≤ self.old.log.length → self.new.log.acked ≡ max self.old.log.acked upto }
        ensures past { self.old.log.length < upto → self.new.log ≡ self.old.log }
        ensures length { self.new.log.length ≡ self.old.log.length }
        ensures waiting { length self.new.log.waiting ≤ length self.old.log.waiting }
        ensures room { self.new.room ≡ self.old.room }
        ensures nodes { self.new.nodes ≡ self.old.nodes }
    {
        if self.acked < upto && upto <= self.length() {
            self.waiting.give_up((upto - self.acked) as usize);
            self.acked = upto;
        }
    }
}
