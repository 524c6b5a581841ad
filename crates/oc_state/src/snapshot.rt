ghost use Rattle.std.specs.Prelude.{◌≡◌, [], ◌∷◌, ◌++◌, length, map, IfOk, OnOk};
ghost use Rattle.std.specs.Option.{option_to_list};
ghost use Rattle.oc_model.specs.Measures.{reading_of};
ghost use Rattle.oc_model.specs.Snapshot.{snapshot, entries, own_pair, last_ask, peer_or_first, mode_records, rank_records, ancestor_records, rates_from};
ghost use Rattle.oc_updown.specs.TableView.{AreTableRows, entries_of};
ghost use Rattle.oc_state.specs.Snapshots.{rate_record};

use crate::Position;
use crate::durable::Durable;
use crate::log::all_waiting;
use crate::ranks::rank_or_last;
use oc_base::{Cert, IdList, Memory, NodeId, Rank, Slots};
use oc_model::{Mode, Record};
use oc_updown::Measures;
use std::alloc::Global;

// A snapshot: records that give one state, whatever the state before them.

/// Adds an entry for a row, if it has a certificate.
fn push_row(list: &mut Vec<Record>, row: &Option<Cert>) -> Result<(), Memory>
    ensures { OnOk result (list.new.items ≡ list.old.items ++ entries (entries_of (row.now ∷ []))) }
{
    if let Some(cert) = row {
        list.push(Record::Entry { cert: *cert })?;
    }
    Ok(())
}

/// Adds an entry for each of these rows that has a certificate.
fn push_rows(list: &mut Vec<Record>, rows: &Slots<Option<Cert>>) -> Result<(), Memory>
    requires { AreTableRows rows.now }
    ensures { OnOk result (list.new.items ≡ list.old.items ++ entries (entries_of rows.now.items)) }
{
    for place in 0..rows.used() {
        let row = rows.get_or(place, None);
        push_row(list, &row)?;
    }
    Ok(())
}

/// Adds an entry for each of these certificates.
fn push_entries(list: &mut Vec<Record>, certs: &[Cert]) -> Result<(), Memory>
    ensures { OnOk result (list.new.items ≡ list.old.items ++ entries certs.now) }
{
    for cert in certs {
        list.push(Record::Entry { cert: *cert })?;
    }
    Ok(())
}

/// Adds the reading of a peer, if it was measured.
fn push_rate(list: &mut Vec<Record>, measures: &Measures, peer: NodeId) -> Result<(), Memory>
    ensures { OnOk result (list.new.items ≡ list.old.items ++ rate_record peer (reading_of measures.now.readings peer)) }
{
    let (rate, hops) = measures.get(peer);
    if rate != 0 || hops != 0 {
        list.push(Record::Rate { peer, rate, hops })?;
    }
    Ok(())
}

/// Adds the readings of all peers.
fn push_rates(list: &mut Vec<Record>, measures: &Measures, nodes: u32) -> Result<(), Memory>
    requires { length measures.now.readings ≡ nodes }
    ensures { OnOk result (list.new.items ≡ list.old.items ++ rates_from 1 measures.now.readings) }
{
    for before in 0..nodes {
        push_rate(list, measures, NodeId(before + 1))?;
    }
    Ok(())
}

/// The peer of a mode, or node 1 for a mode without one.
fn peer_or_first(mode: Mode) -> NodeId
    ensures { result ≡ peer_or_first mode }
{
    match mode {
        Mode::Asking(peer) => peer,
        Mode::Joined(peer) => peer,
        _ => NodeId(1),
    }
}

impl Durable {
    /// The snapshot with this running number.
    pub fn snapshot(&self, alloc: Global, generation: u64) -> Result<Vec<Record>, Memory>
        requires { length self.now.kept.measures ≡ self.now.nodes }
        ensures { IfOk result (λ list. list.items ≡ snapshot generation self.now.kept) }
    {
        let mut list = Vec::new(alloc);
        list.push(Record::Snapshot { generation })?;
        push_rows(&mut list, self.table().rows())?;
        self.push_pair(&mut list)?;
        self.push_ask(&mut list)?;
        self.push_mode(alloc, &mut list, self.position().mode)?;
        self.push_rank(&mut list, self.position().mode)?;
        self.push_ancestors(alloc, &mut list)?;
        push_rates(&mut list, self.measures(), self.nodes())?;
        Ok(list)
    }

    /// Adds the own number and the client count, for a node that has any.
    fn push_pair(&self, list: &mut Vec<Record>) -> Result<(), Memory>
        ensures { OnOk result (list.new.items ≡ list.old.items ++ own_pair self.now.kept) }
    {
        let Position {
            number,
            clients,
            ..
        } = self.position();
        if number != 0 {
            list.push(Record::Info { number, clients })?;
        }
        Ok(())
    }

    /// Adds the last ask, if there was one.
    fn push_ask(&self, list: &mut Vec<Record>) -> Result<(), Memory>
        ensures { OnOk result (list.new.items ≡ list.old.items ++ last_ask self.now.kept) }
    {
        let seq = self.position().seq;
        let peer = peer_or_first(self.position().mode);
        if seq != 0 {
            list.push(Record::Ask { seq, peer })?;
        }
        Ok(())
    }

    /// Adds the mode, for a node whose last ask is recorded; for a joined node its log too.
    fn push_mode(&self, alloc: Global, list: &mut Vec<Record>, mode: Mode) -> Result<(), Memory>
        ensures { OnOk result (list.new.items ≡ list.old.items ++ mode_records mode self.now.kept) }
    {
        match mode {
            Mode::Idle => self.push_lost(list),
            Mode::Asking(_) => Ok(()),
            Mode::Joined(peer) => {
                let rank = rank_or_last(self.position().rank);
                list.push(Record::Joined { peer, rank })?;
                self.push_log(alloc, list)
            }
            Mode::Acting => {
                list.push(Record::Acting)?;
                Ok(())
            }
        }
    }

    /// Adds the record of a lost parent, if there was an ask.
    fn push_lost(&self, list: &mut Vec<Record>) -> Result<(), Memory>
        ensures { OnOk result (list.new.items ≡ list.old.items ++ mode_records Mode.Idle self.now.kept) }
    {
        if self.position().seq != 0 {
            list.push(Record::Lost)?;
        }
        Ok(())
    }

    /// Adds the acknowledged length of the log, and the waiting certificates.
    fn push_log(&self, alloc: Global, list: &mut Vec<Record>) -> Result<(), Memory>
        ensures { OnOk result (list.new.items ≡ list.old.items ++ Record.Base self.now.kept.log.acked ∷ entries self.now.kept.log.waiting) }
    {
        let acked = self.log().acked();
        list.push(Record::Base { acked })?;
        let waiting = all_waiting(alloc, self.log())?;
        push_entries(list, &waiting)
    }

    /// Adds the rank, if there is one that the mode's records do not tell.
    fn push_rank(&self, list: &mut Vec<Record>, mode: Mode) -> Result<(), Memory>
        ensures { OnOk result (list.new.items ≡ list.old.items ++ rank_records mode self.now.kept) }
    {
        match mode {
            Mode::Joined(_) => Ok(()),
            _ => push_ranked(list, self.position().rank),
        }
    }

    /// Adds the ancestors, if there are any.
    fn push_ancestors(&self, alloc: Global, list: &mut Vec<Record>) -> Result<(), Memory>
        ensures { OnOk result (list.new.items ≡ list.old.items ++ ancestor_records self.now.kept.ancestors) }
    {
        let ancestors = self.ancestors();
        if !ancestors.is_empty() {
            let ids = IdList::of(ancestors.to_vec(alloc)?);
            list.push(Record::Ancestors { ids })?;
        }
        Ok(())
    }
}

/// Adds a rank, if there is one.
fn push_ranked(list: &mut Vec<Record>, rank: Option<Rank>) -> Result<(), Memory>
    ensures { OnOk result (list.new.items ≡ list.old.items ++ map (λ r. Record.Ranked r) (option_to_list rank)) }
{
    if let Some(rank) = rank {
        list.push(Record::Ranked { rank })?;
    }
    Ok(())
}
