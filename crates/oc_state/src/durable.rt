ghost use Rattle.std.specs.Prelude.{◌≡◌, ◌+◌, ◌<◌, ◌≤◌, ◌^◌, length, IfOk, OnOk, OnErr};
ghost use Rattle.oc_base.specs.declared.limits.TheConstants.{MAX_BASE_ACKED, MAX_NODES};
ghost use Rattle.oc_model.specs.Lawful.{AreRecords, IsRecord};
ghost use Rattle.oc_model.specs.Node.{new_durable};
ghost use Rattle.oc_model.specs.Records.{fold_one, folded};
ghost use Rattle.oc_state.specs.DurableView.{DurableView, HasRoom, IsKept, brought, brought_by};
ghost use Rattle.oc_state.specs.Position.{position_of};

use crate::Position;
use crate::log::enter;
use oc_base::{Cert, IdList, Memory, NodeId};
use oc_model::Record;
use oc_updown::{ChangeLog, Measures, Table};
use std::alloc::Global;
use std::marker::Model;

/// The durable part of a node: all of its control state that its records give. Contracts see the model's
/// record, the number of nodes, and the number of certificates and rates for which there is room.
#[derive(Drop)]
pub struct Durable {
    nodes: u32,
    position: Position,
    table: Table,
    log: ChangeLog,
    /// The number of certificates and rates for which the log has room; unless it is 0, the table has memory for all
    /// rows, and the measures for all peers. A recovery that runs out of memory leaves this number unchanged, though
    /// the log, the table and the measures keep the memory that they have.
    room: usize,
    /// The nodes above, nearest first.
    ancestors: IdList,
    measures: Measures,
    alloc: Global,
}

impl Model for Durable {
    ghost use Rattle.std.specs.Prelude.{◌≡◌, ◌<◌, ◌≤◌, length};
    ghost use Rattle.oc_state.specs.DurableView.{DurableView, durable_of};

    ghost Value = { DurableView };

    ghost view = { λ d. record {
      nodes = d.nodes;
      kept = durable_of d.position d.table.entries d.log.log d.ancestors d.measures.readings;
      room = d.room;
    } };

    ghost invariant = { λ d. (d.log.nodes ≡ d.nodes) × (d.table.nodes ≡ d.nodes) × (d.room ≤ d.log.room) × (0 < d.room → d.table.nodes ≤ d.table.room)
        × (0 < d.room → length d.measures.readings ≤ d.measures.room) };
}

impl Durable {
    /// The durable part of a new node, in a network of this number of nodes.
    pub fn new(alloc: Global, nodes: u32) -> Result<Durable, Memory>
        requires least { 1 ≤ nodes }
        requires most { nodes ≤ MAX_NODES }
        ensures nodes { IfOk result (λ made. made.nodes ≡ nodes) }
        ensures kept { IfOk result (λ made. made.kept ≡ new_durable nodes) }
    {
        Ok(Durable {
            nodes,
            position: Position::new(),
            table: Table::new(alloc, nodes)?,
            log: ChangeLog::new(alloc, nodes)?,
            room: 0,
            ancestors: IdList::of(Vec::new(alloc)),
            measures: Measures::new(alloc, nodes)?,
            alloc,
        })
    }

    /// The number of nodes.
    pub fn nodes(&self) -> u32
        ensures { result ≡ self.now.nodes }
    {
        self.nodes
    }

    pub fn position(&self) -> Position
        ensures { result ≡ position_of self.now.kept }
    {
        self.position
    }

    pub fn table(&self) -> &Table
        ensures nodes { result.now.nodes ≡ self.now.nodes }
        ensures entries { result.now.entries ≡ self.now.kept.table }
    {
        &self.table
    }

    pub fn log(&self) -> &ChangeLog
        ensures nodes { result.now.nodes ≡ self.now.nodes }
        ensures log { result.now.log ≡ self.now.kept.log }
        ensures room { self.now.room ≤ result.now.room }
    {
        &self.log
    }

    pub fn ancestors(&self) -> &[NodeId]
        ensures { result.now ≡ self.now.kept.ancestors }
    {
        self.ancestors.items()
    }

    pub fn measures(&self) -> &Measures
        ensures { result.now.readings ≡ self.now.kept.measures }
    {
        &self.measures
    }

    /// Makes room to fold these records: in the log for each certificate and rate that they bring, or for the whole
    /// table. Takes no memory if they bring none.
    pub fn reserve(&mut self, changes: &[Record]) -> Result<(), Memory>
        ensures room { OnOk result (length self.new.kept.log.waiting + (length self.new.kept.table + brought_by changes.now) ≤ self.new.room) }
        ensures stays { self.old.room ≤ self.new.room }
        ensures kept { self.new.kept ≡ self.old.kept }
        ensures nodes { self.new.nodes ≡ self.old.nodes }
    {
        self.reserve_more(brought_by(changes))
    }

    /// Makes room for this number of certificates and rates.
    #[tactic(auto, using(crate::proofs::Folding::rows_more, crate::proofs::Folding::rows_most))]
    fn reserve_more(&mut self, brought: usize) -> Result<(), Memory>
        ensures room { OnOk result (length self.new.kept.log.waiting + (length self.new.kept.table + brought) ≤ self.new.room) }
        ensures stays { self.old.room ≤ self.new.room }
        ensures kept { self.new.kept ≡ self.old.kept }
        ensures nodes { self.new.nodes ≡ self.old.nodes }
    {
        let more = rows_in_use(&self.table).checked_add(brought).ok_or(Memory)?;
        let waiting = (self.log.length() - self.log.acked()) as usize;
        let room = waiting.checked_add(more).ok_or(Memory)?;
        reserve_rows(&mut self.table, room)?;
        reserve_rates(&mut self.measures, room)?;
        self.log.reserve(more)?;
        self.room = self.room.max(room);
        Ok(())
    }

    /// Folds these records into the durable part of a new node. If memory runs out, it stays new.
    pub fn recover(&mut self, list: &[Record]) -> Result<(), Memory>
        requires new { self.old.kept ≡ new_durable self.old.nodes }
        requires most { self.old.nodes ≤ MAX_NODES }
        requires lawful { AreRecords self.old.nodes list.now }
        ensures kept { OnOk result (self.new.kept ≡ folded self.old.kept list.now) }
        ensures length { OnOk result (self.new.kept.log.length ≤ MAX_BASE_ACKED + length list.now) }
        ensures nodes { self.new.nodes ≡ self.old.nodes }
        ensures err { OnErr result (self.new ≡ self.old) }
    {
        let room = self.room;
        let folded = self.fold_list(list);
        if folded.is_err() {
            self.clear();
            self.room = room;
        }
        folded
    }

    /// Makes this the durable part of a new node. Takes no memory.
    fn clear(&mut self)
        ensures { self.new ≡ record self.old { kept = new_durable (length self.old.kept.measures) } }
    {
        self.position = Position::new();
        self.table.clear();
        self.log.clear();
        self.ancestors = IdList::of(Vec::new(self.alloc));
        self.measures.clear();
    }

    /// Folds these records, one after another. The log must be at most `MAX_BASE_ACKED` long.
    fn fold_list(&mut self, list: &[Record]) -> Result<(), Memory>
        requires lawful { AreRecords self.old.nodes list.now }
        requires kept { IsKept self.old.nodes self.old.kept }
        requires length { self.old.kept.log.length ≤ MAX_BASE_ACKED }
        ensures kept { OnOk result (self.new.kept ≡ folded self.old.kept list.now) }
        ensures length { OnOk result (self.new.kept.log.length ≤ MAX_BASE_ACKED + length list.now) }
        ensures nodes { self.new.nodes ≡ self.old.nodes }
        ensures stays { self.old.room ≤ self.new.room }
        ensures measures { length self.new.kept.measures ≡ self.new.nodes }
    {
        for change in list {
            self.fold_copy(change)?;
        }
        Ok(())
    }

    /// Folds a copy of a record, for which it takes memory.
    #[tactic(auto, using(crate::proofs::Folding::length_one, crate::proofs::Folding::room_for))]
    fn fold_copy(&mut self, change: &Record) -> Result<(), Memory>
        requires lawful { IsRecord self.old.nodes change.now }
        requires kept { IsKept self.old.nodes self.old.kept }
        requires places { self.old.kept.log.length + 1 < 2 ^ 63 }
        ensures kept { OnOk result (self.new.kept ≡ fold_one self.old.kept change.now) }
        ensures nodes { self.new.nodes ≡ self.old.nodes }
        ensures stays { self.old.room ≤ self.new.room }
        ensures err { OnErr result (self.new.kept ≡ self.old.kept) }
    {
        let change = change.clone()?;
        self.reserve_more(1)?;
        self.fold(change);
        Ok(())
    }

    /// Folds these records, one after another. Takes no memory.
    pub fn fold_all(&mut self, changes: Vec<Record>)
        requires lawful { AreRecords self.old.nodes changes.items }
        requires kept { IsKept self.old.nodes self.old.kept }
        requires room { HasRoom self.old (brought_by changes.items) }
        ensures { self.new ≡ record self.old { kept = folded self.old.kept changes.items } }
    {
        for change in changes {
            self.fold(change);
        }
    }

    /// Folds a record. Takes no memory.
    #[tactic(auto, using(crate::proofs::Folding::rows_few, crate::proofs::Folding::rows_there))]
    pub fn fold(&mut self, change: Record)
        requires lawful { IsRecord self.old.nodes change }
        requires kept { IsKept self.old.nodes self.old.kept }
        requires room { HasRoom self.old (brought change) }
        ensures { self.new ≡ record self.old { kept = fold_one self.old.kept change } }
    {
        let mode = self.position.mode;
        let has_asked = self.position.seq != 0;
        let is_joined = self.position.is_joined();
        self.position = self.position.after(&change);
        match change {
            Record::Ask { .. } | Record::Lost => self.log.clear(),
            Record::Joined { .. } if has_asked => self.log.begin(&self.table),
            Record::Acting => {
                self.log.clear();
                self.ancestors = IdList::of(Vec::new(self.alloc));
            }
            Record::OldEntry {
                subject,
                seq,
                parent,
                dead,
            } => {
                let cert = Cert {
                    subject,
                    seq,
                    parent,
                    dead,
                    number: 0,
                    clients: 0,
                };
                enter(&mut self.table, &mut self.log, mode, &cert);
            }
            Record::Entry { cert } => enter(&mut self.table, &mut self.log, mode, &cert),
            Record::Acked { upto } => self.log.ack(upto),
            Record::Ancestors { ids } => self.ancestors = ids,
            Record::Rate { peer, rate, hops } => self.measures.put(peer, rate, hops),
            Record::Base { acked } if is_joined => self.log.rebase(acked),
            Record::Snapshot { .. } => self.clear(),
            _ => {}
        }
    }
}

/// The number of certificates and rates that these records bring.
#[tactic(auto, using(crate::proofs::Folding::brought_on, crate::proofs::Folding::brought_end))]
fn brought_by(changes: &[Record]) -> usize
    ensures { result ≡ brought_by changes.now }
{
    let mut count = 0;
    for change in changes {
        count += brought(change);
    }
    count
}

/// The number of certificates and rates that a record brings.
fn brought(change: &Record) -> usize
    ensures value { result ≡ brought change.now }
    ensures few { result ≤ 1 }
{
    match change {
        Record::Entry { .. } | Record::OldEntry { .. } | Record::Rate { .. } => 1,
        _ => 0,
    }
}

/// Takes the memory for the rows of a table, unless no room is wanted.
fn reserve_rows(table: &mut Table, room: usize) -> Result<(), Memory>
    ensures room { OnOk result (0 < room → table.new.nodes ≤ table.new.room) }
    ensures stays { table.old.room ≤ table.new.room }
    ensures rest { table.new ≡ record table.old { room = table.new.room } }
{
    if room == 0 {
        return Ok(());
    }
    table.reserve()
}

/// Takes the memory for the measures, unless no room is wanted.
fn reserve_rates(measures: &mut Measures, room: usize) -> Result<(), Memory>
    ensures room { OnOk result (0 < room → length measures.new.readings ≤ measures.new.room) }
    ensures stays { measures.old.room ≤ measures.new.room }
    ensures rest { measures.new ≡ record measures.old { room = measures.new.room } }
{
    if room == 0 {
        return Ok(());
    }
    measures.reserve()
}

/// The number of rows in use, which is at least the number of certificates.
fn rows_in_use(table: &Table) -> usize
    ensures { length table.now.entries ≤ result }
{
    table.rows().used()
}
