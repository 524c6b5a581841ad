//! The words of messages and of faults.

use oc_base::{Cert, Child, GroupName, Memory, NodeId, Rank, Refusal, Shelf};
use oc_wire::{Body, Message, WireFault};
use std::fmt::Display;
use test_tools::{Fault, put_hex, put_spelled};

/// Puts the words of a message: its sender, its receiver, its kind, and its fields in the order of the
/// bytes.
pub fn put_message(out: &mut String, message: &Message) -> Result<(), Fault> {
    put_value(out, "", message.from.0)?;
    put_number(out, u64::from(message.to.0))?;
    put_body(out, &message.body)
}

fn put_body(out: &mut String, body: &Body) -> Result<(), Fault> {
    match body {
        Body::Look => put(out, " look"),
        Body::LookIs {
            in_tree,
            parent,
            rate,
            children,
        } => put_look_is(out, *in_tree, *parent, *rate, children.items()),
        Body::Ask { seq, rank } => put_ask(out, *seq, *rank),
        Body::Yes {
            seq,
            rank,
            ancestors,
        } => put_yes(out, *seq, *rank, ancestors.items()),
        Body::No { seq, why } => put_no(out, *seq, *why),
        Body::CheckIn {
            seq,
            upto,
            rate,
            number,
            clients,
            certs,
        } => put_check_in(out, &[*seq, *upto, *rate, *number, *clients], certs.items()),
        Body::CheckAck {
            seq,
            upto,
            rank,
            ancestors,
        } => put_check_ack(out, *seq, *upto, *rank, ancestors.items()),
        Body::Rejoin { seq } => put_numbers(out, " rejoin", &[*seq]),
        Body::Fetch { have } => put_fetch(out, have.items()),
        Body::Chunk {
            group,
            start,
            bytes,
            last,
        } => put_chunk(out, group, *start, bytes.items(), *last),
    }
}

fn put_look_is(
    out: &mut String,
    in_tree: bool,
    parent: Option<NodeId>,
    rate: u64,
    children: &[Child],
) -> Result<(), Fault> {
    put(out, if in_tree { " lookis in" } else { " lookis out" })?;
    match parent {
        Some(parent) => put_id(out, parent)?,
        None => put(out, " none")?,
    }
    put_number(out, rate)?;
    for child in children {
        put_child(out, child)?;
    }
    Ok(())
}

fn put_child(out: &mut String, child: &Child) -> Result<(), Fault> {
    put_id(out, child.id)?;
    put_value(out, ":", child.rate)
}

fn put_ask(out: &mut String, seq: u64, rank: Option<Rank>) -> Result<(), Fault> {
    put_numbers(out, " ask", &[seq])?;
    match rank {
        Some(rank) => put_rank(out, rank),
        None => put(out, " none"),
    }
}

fn put_yes(out: &mut String, seq: u64, rank: Rank, ancestors: &[NodeId]) -> Result<(), Fault> {
    put_numbers(out, " yes", &[seq])?;
    put_rank(out, rank)?;
    put_ids(out, ancestors)
}

fn put_check_in(out: &mut String, numbers: &[u64], certs: &[Cert]) -> Result<(), Fault> {
    put_numbers(out, " checkin", numbers)?;
    for cert in certs {
        put_cert(out, cert)?;
    }
    Ok(())
}

fn put_check_ack(
    out: &mut String,
    seq: u64,
    upto: u64,
    rank: Rank,
    ancestors: &[NodeId],
) -> Result<(), Fault> {
    put_numbers(out, " checkack", &[seq, upto])?;
    put_rank(out, rank)?;
    put_ids(out, ancestors)
}

fn put_no(out: &mut String, seq: u64, why: Refusal) -> Result<(), Fault> {
    put_numbers(out, " no", &[seq])?;
    if let Refusal::Chain(member) = why {
        return put_value(out, " chain ", member.0);
    }
    put(out, plain_refusal(why))
}

/// The word of a refusal that has no field.
fn plain_refusal(why: Refusal) -> &'static str {
    match why {
        Refusal::Own => " own",
        Refusal::NotJoined => " notjoined",
        Refusal::Ancestor => " ancestor",
        Refusal::Depth => " depth",
        Refusal::Chain(_) => " chain",
        Refusal::Rank => " rank",
    }
}

fn put_cert(out: &mut String, cert: &Cert) -> Result<(), Fault> {
    let subject = cert.subject.0;
    let parent = cert.parent.0;
    let state = if cert.dead { "dead" } else { "alive" };
    Ok(write!(
        out,
        " {subject}/{}/{parent}/{state}/{}/{}",
        cert.seq, cert.number, cert.clients
    )?)
}

fn put_fetch(out: &mut String, have: &[Shelf]) -> Result<(), Fault> {
    put(out, " fetch")?;
    for line in have {
        put_line(out, line)?;
    }
    Ok(())
}

fn put_line(out: &mut String, line: &Shelf) -> Result<(), Fault> {
    put_name(out, &line.group)?;
    put_value(out, ":", line.held)?;
    put(out, if line.sealed { ":sealed" } else { ":open" })
}

fn put_chunk(
    out: &mut String,
    group: &GroupName,
    start: u64,
    bytes: &[u8],
    last: bool,
) -> Result<(), Fault> {
    put(out, " chunk")?;
    put_name(out, group)?;
    put_number(out, start)?;
    put(out, if last { " last" } else { " more" })?;
    put_piece(out, bytes)
}

fn put_piece(out: &mut String, bytes: &[u8]) -> Result<(), Fault> {
    if bytes.is_empty() {
        return Ok(());
    }
    put(out, " ")?;
    put_hex(out, bytes)
}

fn put_name(out: &mut String, name: &GroupName) -> Result<(), Fault> {
    put(out, " ")?;
    put_spelled(out, name.bytes())
}

fn put_ids(out: &mut String, ids: &[NodeId]) -> Result<(), Fault> {
    for id in ids {
        put_id(out, *id)?;
    }
    Ok(())
}

fn put_id(out: &mut String, id: NodeId) -> Result<(), Fault> {
    put_value(out, " ", id.0)
}

fn put_rank(out: &mut String, rank: Rank) -> Result<(), Fault> {
    put_numbers(out, "", &[rank.epoch, u64::from(rank.depth)])
}

/// Puts a word and the numbers after it.
fn put_numbers(out: &mut String, word: &str, numbers: &[u64]) -> Result<(), Fault> {
    put(out, word)?;
    for number in numbers {
        put_number(out, *number)?;
    }
    Ok(())
}

fn put_number(out: &mut String, number: u64) -> Result<(), Fault> {
    put_value(out, " ", number)
}

/// Puts a text.
pub fn put(out: &mut String, text: &str) -> Result<(), Fault> {
    Ok(out.push_str(text)?)
}

/// Puts a value after its name.
pub fn put_value<T: Display + Copy>(out: &mut String, name: &str, value: T) -> Result<(), Fault> {
    Ok(write!(out, "{name}{value}")?)
}

/// Puts a text that was written.
pub fn put_text(out: &mut String, text: Result<Vec<u8>, Memory>) -> Result<(), Fault> {
    put_spelled(out, &text?)
}

/// Puts the words of a fault.
pub fn put_wire_fault(out: &mut String, fault: WireFault) -> Result<(), Fault> {
    match fault {
        WireFault::Kind(code) => put_value(out, "kind ", code),
        _ => put(out, plain_fault(fault)),
    }
}

/// The word of a fault that has no field.
fn plain_fault(fault: WireFault) -> &'static str {
    match fault {
        WireFault::Stranger => "stranger",
        WireFault::Kind(_) => "kind",
        WireFault::Short => "short",
        WireFault::Value => "value",
        WireFault::Trailing => "trailing",
        WireFault::Memory => "memory",
    }
}
