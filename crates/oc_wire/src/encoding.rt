ghost use Rattle.std.specs.Prelude.{◌≡◌, ◌+◌, ◌<◌, ◌^◌, ◌∷◌, ◌++◌, false, length, is_some, OnOk, IfOk, IfSome};
ghost use Rattle.oc_base.specs.Spelling.{eight, flag, rank_bytes, ids_bytes};
ghost use Rattle.oc_wire.specs.Spelling.{parent_bytes, rank_or_none_bytes, why_code, why_bytes, child_bytes, children_bytes, certs_bytes, name_bytes, line_bytes, have_bytes, is_large, length_bytes, text_bytes, code_of, fields_bytes, spelling, brings_chunk, HasSpelling};

use crate::{CODES, REFUSALS};
use oc_base::writing::{put_cert, put_flag, put_id, put_ids, put_long, put_rank};
use oc_base::{
    Bytes, CertList, Child, ChildList, GroupName, IdList, Memory, NodeId, Rank, Refusal, Shelf,
    ShelfList,
};
use oc_model::{Body, Message};
use std::alloc::{AllocError, Global};

/// The memory for one message is taken at once: most messages have no more bytes.
const ROOM: usize = 256;

/// The one spelling of the message.
pub fn encode(alloc: Global, message: &Message) -> Result<Vec<u8>, Memory>
    requires { HasSpelling message.now.body }
    ensures { IfOk result (λ bytes. bytes.items ≡ spelling message.now) }
{
    let mut out = Vec::with_capacity(alloc, ROOM)?;
    put_message(&mut out, message)?;
    Ok(out)
}

/// Puts the one spelling of the message.
pub fn put_message(out: &mut Vec<u8>, message: &Message) -> Result<(), Memory>
    requires { HasSpelling message.now.body }
    ensures { OnOk result (out.new.items ≡ out.old.items ++ spelling message.now) }
{
    put_id(out, &message.from)?;
    put_id(out, &message.to)?;
    put_body(out, &message.body)?;
    Ok(())
}

/// The length of a message that brings a chunk, in bytes of its spelling; `None` for any other message.
pub fn length_with_chunk(message: &Message) -> Option<u64>
    requires { HasSpelling message.now.body }
    ensures told { is_some result ≡ brings_chunk message.now.body }
    ensures exact { IfSome result (λ count. count ≡ length (spelling message.now)) }
{
    match &message.body {
        Body::Chunk { group, bytes, .. } => Some(chunk_length(*group, bytes)),
        _ => None,
    }
}

/// The length of a message that brings these bytes of this group, in bytes of its spelling: the two ids, the code, the
/// name with its length, the start, the flag, and the bytes with their length.
fn chunk_length(group: GroupName, bytes: &Bytes) -> u64
    requires { length bytes.now < 2 ^ 32 }
    ensures { result ≡ 19 + length group + length (length_bytes (is_large bytes.now) (length bytes.now)) + length bytes.now }
{
    let counting = if is_large(bytes) { 4 } else { 2 };
    19 + u64::from(name_length(group)) + counting + bytes.items().len() as u64
}

/// The code of the kind, and the fields.
fn put_body(out: &mut Vec<u8>, body: &Body) -> Result<(), AllocError>
    requires { HasSpelling body.now }
    ensures { OnOk result (out.new.items ≡ out.old.items ++ (code_of body.now ∷ fields_bytes body.now)) }
{
    out.push(code_of(body))?;
    put_fields(out, body)
}

/// The code of the kind.
fn code_of(body: &Body) -> u8
    ensures { result ≡ code_of body.now }
{
    match body {
        Body::Look => CODES[0].code,
        Body::LookIs { .. } => CODES[1].code,
        Body::Ask { .. } => CODES[2].code,
        Body::Yes { .. } => CODES[3].code,
        Body::No { .. } => CODES[4].code,
        Body::CheckIn { .. } => CODES[5].code,
        Body::CheckAck { .. } => CODES[6].code,
        Body::Rejoin { .. } => CODES[7].code,
        Body::Fetch { .. } => CODES[8].code,
        Body::Chunk { bytes, .. } => {
            if is_large(bytes) {
                CODES[10].code
            } else {
                CODES[9].code
            }
        }
    }
}

/// The fields, one after the other.
fn put_fields(out: &mut Vec<u8>, body: &Body) -> Result<(), AllocError>
    requires { HasSpelling body.now }
    ensures { OnOk result (out.new.items ≡ out.old.items ++ fields_bytes body.now) }
{
    match body {
        Body::Look => Ok(()),
        Body::LookIs {
            in_tree,
            parent,
            rate,
            children,
        } => put_look_is(out, in_tree, parent, rate, children),
        Body::Ask { seq, rank } => {
            put_long(out, seq)?;
            put_rank_or_none(out, rank)
        }
        Body::Yes {
            seq,
            rank,
            ancestors,
        } => put_standing(out, seq, rank, ancestors),
        Body::No { seq, why } => {
            put_long(out, seq)?;
            put_refusal(out, why)
        }
        Body::CheckIn {
            seq,
            upto,
            rate,
            number,
            clients,
            certs,
        } => {
            put_numbers(out, seq, upto, rate, number, clients)?;
            put_certs(out, certs)
        }
        Body::CheckAck {
            seq,
            upto,
            rank,
            ancestors,
        } => {
            put_long(out, seq)?;
            put_standing(out, upto, rank, ancestors)
        }
        Body::Rejoin { seq } => put_long(out, seq),
        Body::Fetch { have } => put_have(out, have),
        Body::Chunk {
            group,
            start,
            bytes,
            last,
        } => put_chunk(out, group, start, last, bytes),
    }
}

/// The fields of a `LookIs`.
fn put_look_is(
    out: &mut Vec<u8>,
    in_tree: &bool,
    parent: &Option<NodeId>,
    rate: &u64,
    children: &ChildList,
) -> Result<(), AllocError>
    requires { length children.now < 2 ^ 16 }
    ensures { OnOk result (out.new.items
        ≡ out.old.items ++ (flag in_tree.now ++ parent_bytes parent.now ++ eight rate.now ++ children_bytes children.now)) }
{
    put_flag(out, in_tree)?;
    put_parent(out, parent)?;
    put_long(out, rate)?;
    put_children(out, children)
}

/// A number, a rank and ancestors.
fn put_standing(
    out: &mut Vec<u8>,
    number: &u64,
    rank: &Rank,
    ancestors: &IdList,
) -> Result<(), AllocError>
    requires { length ancestors.now < 2 ^ 16 }
    ensures { OnOk result (out.new.items ≡ out.old.items ++ (eight number.now ++ rank_bytes rank.now ++ ids_bytes ancestors.now)) }
{
    put_long(out, number)?;
    put_rank(out, rank)?;
    put_ids(out, ancestors)
}

/// The numbers of a `CheckIn`.
fn put_numbers(
    out: &mut Vec<u8>,
    seq: &u64,
    upto: &u64,
    rate: &u64,
    number: &u64,
    clients: &u64,
) -> Result<(), AllocError>
    ensures { OnOk result (out.new.items
        ≡ out.old.items ++ (eight seq.now ++ eight upto.now ++ eight rate.now ++ eight number.now ++ eight clients.now)) }
{
    put_long(out, seq)?;
    put_long(out, upto)?;
    put_long(out, rate)?;
    put_long(out, number)?;
    put_long(out, clients)
}

/// The fields of a `Chunk`.
fn put_chunk(
    out: &mut Vec<u8>,
    group: &GroupName,
    start: &u64,
    last: &bool,
    bytes: &Bytes,
) -> Result<(), AllocError>
    requires { length bytes.now < 2 ^ 32 }
    ensures { OnOk result (out.new.items
        ≡ out.old.items ++ (name_bytes group.now ++ eight start.now ++ flag last.now ++ text_bytes bytes.now)) }
{
    put_name(out, group)?;
    put_long(out, start)?;
    put_flag(out, last)?;
    put_text(out, bytes)
}

/// A parent's id, or 0 for none.
fn put_parent(out: &mut Vec<u8>, parent: &Option<NodeId>) -> Result<(), AllocError>
    ensures { OnOk result (out.new.items ≡ out.old.items ++ parent_bytes parent.now) }
{
    match parent {
        None => put_id(out, &NodeId(0)),
        Some(parent) => put_id(out, parent),
    }
}

/// 1 and the rank, or 0 for none.
fn put_rank_or_none(out: &mut Vec<u8>, rank: &Option<Rank>) -> Result<(), AllocError>
    ensures { OnOk result (out.new.items ≡ out.old.items ++ rank_or_none_bytes rank.now) }
{
    match rank {
        None => Ok(out.push(0)?),
        Some(rank) => {
            out.push(1)?;
            put_rank(out, rank)
        }
    }
}

/// The code of a refusal, and the node that it names.
fn put_refusal(out: &mut Vec<u8>, why: &Refusal) -> Result<(), AllocError>
    ensures { OnOk result (out.new.items ≡ out.old.items ++ why_bytes why.now) }
{
    out.push(why_code(why))?;
    match why {
        Refusal::Chain(member) => put_id(out, member),
        _ => Ok(()),
    }
}

/// The code of a refusal.
fn why_code(why: &Refusal) -> u8
    ensures { result ≡ why_code why.now }
{
    match why {
        Refusal::Own => REFUSALS[0].code,
        Refusal::NotJoined => REFUSALS[1].code,
        Refusal::Ancestor => REFUSALS[2].code,
        Refusal::Depth => REFUSALS[3].code,
        Refusal::Chain(_) => REFUSALS[4].code,
        Refusal::Rank => REFUSALS[5].code,
    }
}

/// The count of children in two bytes, and each of them.
fn put_children(out: &mut Vec<u8>, children: &ChildList) -> Result<(), AllocError>
    requires { length children.now < 2 ^ 16 }
    ensures { OnOk result (out.new.items ≡ out.old.items ++ children_bytes children.now) }
{
    let children = children.items();
    out.extend_from_slice(&(children.len() as u16).to_be_bytes())?;
    for child in children {
        put_child(out, child)?;
    }
    Ok(())
}

/// The id and the rate of a child.
fn put_child(out: &mut Vec<u8>, child: &Child) -> Result<(), AllocError>
    ensures { OnOk result (out.new.items ≡ out.old.items ++ child_bytes child.now) }
{
    put_id(out, &child.id)?;
    put_long(out, &child.rate)
}

/// The count of certificates in one byte, and each of them.
fn put_certs(out: &mut Vec<u8>, certs: &CertList) -> Result<(), AllocError>
    requires { length certs.now < 2 ^ 8 }
    ensures { OnOk result (out.new.items ≡ out.old.items ++ certs_bytes certs.now) }
{
    let certs = certs.items();
    out.push(certs.len() as u8)?;
    for cert in certs {
        put_cert(out, cert)?;
    }
    Ok(())
}

/// The count of lines in one byte, and each of them.
fn put_have(out: &mut Vec<u8>, have: &ShelfList) -> Result<(), AllocError>
    requires { length have.now < 2 ^ 8 }
    ensures { OnOk result (out.new.items ≡ out.old.items ++ have_bytes have.now) }
{
    let lines = have.items();
    out.push(lines.len() as u8)?;
    for line in lines {
        put_line(out, line)?;
    }
    Ok(())
}

/// A group's name, the bytes held, and whether it is sealed.
fn put_line(out: &mut Vec<u8>, line: &Shelf) -> Result<(), AllocError>
    ensures { OnOk result (out.new.items ≡ out.old.items ++ line_bytes line.now) }
{
    put_name(out, &line.group)?;
    put_long(out, &line.held)?;
    put_flag(out, &line.sealed)
}

/// The length of a name in one byte, and the name.
fn put_name(out: &mut Vec<u8>, name: &GroupName) -> Result<(), AllocError>
    ensures { OnOk result (out.new.items ≡ out.old.items ++ name_bytes name.now) }
{
    out.push(name_length(*name))?;
    out.extend_from_slice(name.bytes())
}

/// The length of a name.
fn name_length(name: GroupName) -> u8
    ensures { result ≡ length name }
{
    name.bytes().len() as u8
}

/// The length of a text in two bytes, or in four where it is a large one, and the text.
fn put_text(out: &mut Vec<u8>, text: &Bytes) -> Result<(), AllocError>
    requires { length text.now < 2 ^ 32 }
    ensures { OnOk result (out.new.items ≡ out.old.items ++ text_bytes text.now) }
{
    let large = is_large(text);
    let text = text.items();
    put_length(out, large, text.len() as u32)?;
    out.extend_from_slice(text)
}

/// Whether the length of a text takes more than two bytes.
fn is_large(text: &Bytes) -> bool
    ensures { result ≡ is_large text.now }
{
    text.items().len() >= 65_536
}

/// The length of a text, in four bytes or in two.
fn put_length(out: &mut Vec<u8>, large: bool, length: u32) -> Result<(), AllocError>
    requires { large ≡ false → length < 2 ^ 16 }
    ensures { OnOk result (out.new.items ≡ out.old.items ++ length_bytes large length) }
{
    if large {
        out.extend_from_slice(&length.to_be_bytes())
    } else {
        out.extend_from_slice(&(length as u16).to_be_bytes())
    }
}
