ghost use Rattle.std.specs.Prelude.{◌≡◌, ◌≢◌, ◌≤◌, ◌↔◌, IsTrue, true, false, Some, [], length, map, IfOk, IfSome, OnOk};
ghost use Rattle.oc_base.specs.declared.limits.TheConstants.{MAX_NODES};
ghost use Rattle.oc_model.specs.Status.{listing};
ghost use Rattle.oc_model.specs.Table.{newest, is_news, merge, leased_by, is_listed, IsListed, listed_in};
ghost use Rattle.oc_updown.specs.TableView.{AreTableRows, entries_of};
ghost use Rattle.oc_base.specs.Lawful.{IsCert};

use crate::listing::lines_of;
use crate::rows::{is_news, put, row_of};
use crate::walk::is_listed;
use oc_base::{Cert, Line, Memory, NodeId, Slots};
use std::alloc::Global;
use std::marker::Model;

/// The newest certificate of each node that has one. A contract sees the number of nodes, the entries
/// (ascending by subject), and the number of rows for which there is memory.
#[derive(Drop)]
pub struct Table {
    alloc: Global,
    /// The row of each node, by its index.
    rows: Slots<Option<Cert>>,
}

impl Model for Table {
    ghost use Rattle.std.specs.Prelude.{length, ◌≤◌};
    ghost use Rattle.oc_base.specs.declared.limits.TheConstants.{MAX_NODES};
    ghost use Rattle.oc_updown.specs.TableView.{TableView, AreTableRows, entries_of};

    ghost Value = { TableView };

    ghost view = { λ t. record { nodes = length t.rows.items; entries = entries_of t.rows.items; room = t.rows.room } };

    ghost invariant = { λ t. AreTableRows t.rows × (length t.rows.items ≤ MAX_NODES) };
}

impl Table {
    /// An empty table, in a network of this number of nodes, 1 to 1,024.
    #[tactic(auto, using(crate::proofs::Entries::no_entries))]
    pub fn new(alloc: Global, nodes: u32) -> Result<Table, Memory>
        requires least { 1 ≤ nodes }
        requires most { nodes ≤ MAX_NODES }
        ensures nodes { IfOk result (λ table. table.nodes ≡ nodes) }
        ensures empty { IfOk result (λ table. table.entries ≡ []) }
    {
        Ok(Table {
            alloc,
            rows: Slots::new(alloc, nodes as usize, None)?,
        })
    }

    /// Takes the memory for the rows of all nodes.
    pub fn reserve(&mut self) -> Result<(), Memory>
        ensures room { OnOk result (self.new.nodes ≤ self.new.room) }
        ensures stays { self.old.room ≤ self.new.room }
        ensures rest { self.new ≡ record self.old { room = self.new.room } }
    {
        self.rows.reserve()
    }

    /// Removes all certificates. Takes no memory.
    #[tactic(auto, using(crate::proofs::Entries::no_entries))]
    pub fn clear(&mut self)
        ensures entries { self.new.entries ≡ [] }
        ensures nodes { self.new.nodes ≡ self.old.nodes }
        ensures room { self.new.room ≡ self.old.room }
    {
        self.rows.fill(None);
    }

    /// Makes a certificate the entry of its subject, if there is none or the certificate outranks it. Answers
    /// whether the entry changed. There must be memory for the rows. Takes no memory.
    pub fn merge(&mut self, cert: &Cert) -> bool
        requires cert { IsCert self.old.nodes cert.now }
        requires room { self.old.nodes ≤ self.old.room }
        ensures news { result ≡ is_news self.old.entries cert.now }
        ensures entries { self.new.entries ≡ merge self.old.entries cert.now }
        ensures taken { IsTrue result → newest self.new.entries cert.now.subject ≡ Some cert.now }
        ensures changed { IsTrue result → newest self.old.entries cert.now.subject ≢ Some cert.now }
        ensures kept { result ≡ false → self.new.entries ≡ self.old.entries }
        ensures nodes { self.new.nodes ≡ self.old.nodes }
        ensures room { self.new.room ≡ self.old.room }
    {
        if !is_news(&self.rows, cert) {
            return false;
        }
        put(&mut self.rows, cert);
        true
    }

    /// Whether no certificate was put since the table was made or cleared, so that it is empty.
    #[tactic(auto, using(crate::proofs::Entries::no_entries_past))]
    pub fn is_blank(&self) -> bool
        ensures { IsTrue result → self.now.entries ≡ [] }
    {
        self.rows.used() == 0
    }

    /// The newest certificate of a node.
    pub fn entry(&self, subject: NodeId) -> Option<Cert>
        ensures entry { result ≡ newest self.now.entries subject }
        ensures fits { IfSome result (λ entry. (entry.subject ≡ subject) × IsCert self.now.nodes entry) }
    {
        row_of(&self.rows, subject)
    }

    /// The ask number at which the subject is a child of the parent, if its entry is alive and names this
    /// parent.
    pub fn leased_by(&self, parent: NodeId, subject: NodeId) -> Option<u64>
        ensures { result ≡ leased_by self.now.entries parent subject }
    {
        match self.entry(subject) {
            Some(cert) if !cert.dead && cert.parent == parent => Some(cert.seq),
            _ => None,
        }
    }

    /// Whether the subject is listed: a walk upwards along live certificates comes to the root. The root
    /// itself is not listed. Takes no memory.
    #[tactic(auto, using(oc_model::proofs::Walks::listed_exactly))]
    pub fn is_listed(&self, root: NodeId, subject: NodeId) -> bool
        ensures walk { result ≡ is_listed self.now.entries root subject }
        ensures listed { IsTrue result ↔ IsListed self.now.entries root subject }
    {
        is_listed(&self.rows, root, subject)
    }

    /// The listed nodes with their parents, ascending. Walks over the rows find them each time; all walks
    /// together look at each row a few times.
    #[tactic(auto, using(crate::proofs::Lines::lines_nodes))]
    pub fn listed(&self, root: NodeId) -> Result<Vec<Line>, Memory>
        ensures lines { IfOk result (λ lines. lines.items ≡ listing self.now.entries root) }
        ensures nodes { IfOk result (λ lines. map (λ line. line.node) lines.items ≡ listed_in self.now.entries root) }
    {
        lines_of(self.alloc, &self.rows, root)
    }

    /// The row of each node, in the order of their numbers.
    #[tactic(auto, using(crate::proofs::Entries::fewer_entries))]
    pub fn rows(&self) -> &Slots<Option<Cert>>
        ensures rows { AreTableRows result.now }
        ensures entries { entries_of result.now.items ≡ self.now.entries }
        ensures nodes { length result.now.items ≡ self.now.nodes }
        ensures most { self.now.nodes ≤ MAX_NODES }
        ensures fewer { length self.now.entries ≤ self.now.nodes }
    {
        &self.rows
    }
}
