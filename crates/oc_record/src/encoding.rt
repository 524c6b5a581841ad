ghost use Rattle.std.specs.Prelude.{◌≡◌, [], ◌∷◌, ◌++◌, OnOk, IfOk};
ghost use Rattle.oc_base.specs.Spelling.{four, eight, rank_bytes, lease_bytes};
ghost use Rattle.oc_record.specs.Spelling.{code_of, fields_bytes, record_bytes, records_bytes, HasSpelling, HaveSpellings};

use crate::Record;
use crate::codes::CODES;
use oc_base::writing::{put_byte, put_cert, put_flag, put_id, put_ids, put_long, put_rank};
use oc_base::{Memory, NodeId, Rank};
use std::alloc::{AllocError, Global};

/// Writes the records in their one spelling.
pub fn encode(alloc: Global, list: &[Record]) -> Result<Vec<u8>, Memory>
    requires { HaveSpellings list.now }
    ensures { IfOk result (λ bytes. bytes.items ≡ records_bytes list.now) }
{
    let mut out = Vec::new(alloc);
    for record in list {
        put_record(&mut out, record)?;
    }
    Ok(out)
}

/// Writes a record: the code of its kind, and its fields.
fn put_record(out: &mut Vec<u8>, item: &Record) -> Result<(), AllocError>
    requires { HasSpelling item.now }
    ensures { OnOk result (out.new.items ≡ out.old.items ++ record_bytes item.now) }
{
    out.push(code_of(item))?;
    put_fields(out, item)
}

/// The code of a record's kind.
fn code_of(item: &Record) -> u8
    ensures { result ≡ code_of item.now }
{
    macro_rules! by_kind {
        ($($row:literal $kind:ident)*) => {
            match item {
                $(Record::$kind { .. } => CODES[$row].code,)*
            }
        };
    }
    by_kind! {
        0 Ask
        1 Joined
        2 Lost
        3 Acting
        4 Ranked
        5 OldEntry
        6 Acked
        7 Ancestors
        8 Rate
        9 Epoch
        10 Base
        11 Snapshot
        12 Entry
        13 Info
    }
}

/// Writes the fields of a record.
fn put_fields(out: &mut Vec<u8>, item: &Record) -> Result<(), AllocError>
    requires { HasSpelling item.now }
    ensures { OnOk result (out.new.items ≡ out.old.items ++ fields_bytes item.now) }
{
    match item {
        Record::Ask { seq, peer } => put_ask(out, seq, peer),
        Record::Joined { peer, rank } => put_joined(out, peer, rank),
        Record::Lost | Record::Acting => Ok(()),
        Record::Ranked { rank } => put_rank(out, rank),
        Record::OldEntry {
            subject,
            seq,
            parent,
            dead,
        } => put_old_entry(out, subject, seq, parent, dead),
        Record::Acked { upto: number }
        | Record::Epoch { epoch: number }
        | Record::Base { acked: number }
        | Record::Snapshot { generation: number } => put_long(out, number),
        Record::Ancestors { ids } => put_ids(out, ids),
        Record::Rate { peer, rate, hops } => put_rate(out, peer, rate, hops),
        Record::Entry { cert } => put_cert(out, cert),
        Record::Info { number, clients } => put_info(out, number, clients),
    }
}

/// Writes the fields of an ask.
fn put_ask(out: &mut Vec<u8>, seq: &u64, peer: &NodeId) -> Result<(), AllocError>
    ensures { OnOk result (out.new.items ≡ out.old.items ++ (eight seq.now ++ four peer.now)) }
{
    put_long(out, seq)?;
    put_id(out, peer)
}

/// Writes the fields of a joining.
fn put_joined(out: &mut Vec<u8>, peer: &NodeId, rank: &Rank) -> Result<(), AllocError>
    ensures { OnOk result (out.new.items ≡ out.old.items ++ (four peer.now ++ rank_bytes rank.now)) }
{
    put_id(out, peer)?;
    put_rank(out, rank)
}

/// Writes the fields of an entry of the old form.
fn put_old_entry(
    out: &mut Vec<u8>,
    subject: &NodeId,
    seq: &u64,
    parent: &NodeId,
    dead: &bool,
) -> Result<(), AllocError>
    ensures { OnOk result
        (out.new.items ≡ out.old.items ++ lease_bytes subject.now seq.now parent.now dead.now) }
{
    put_id(out, subject)?;
    put_long(out, seq)?;
    put_id(out, parent)?;
    put_flag(out, dead)
}

/// Writes the fields of a measurement.
fn put_rate(out: &mut Vec<u8>, peer: &NodeId, rate: &u64, hops: &u8) -> Result<(), AllocError>
    ensures { OnOk result
        (out.new.items ≡ out.old.items ++ (four peer.now ++ eight rate.now ++ hops.now ∷ [])) }
{
    put_id(out, peer)?;
    put_long(out, rate)?;
    put_byte(out, hops)
}

/// Writes a node's own number and client count.
fn put_info(out: &mut Vec<u8>, number: &u64, clients: &u64) -> Result<(), AllocError>
    ensures { OnOk result (out.new.items ≡ out.old.items ++ (eight number.now ++ eight clients.now)) }
{
    put_long(out, number)?;
    put_long(out, clients)
}
