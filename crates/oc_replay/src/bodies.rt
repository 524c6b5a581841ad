//! The text of message bodies, appended to a buffer.

ghost use Rattle.std.specs.Prelude.{◌≡◌, ◌++◌, OnOk};
ghost use Rattle.oc_replay.specs.Bodies.{body_text, node_or_zero, rank_or_dash, rank_text, tree_text, why_text};

use crate::items::{put_count, put_list};
use crate::texts::{put_byte, put_byte_number, put_mark};
use oc_base::{
    Cert, Child, GroupName, Memory, NodeId, Rank, Refusal, Shelf, put, put_number, put_with_number,
};
use oc_model::Body;
use oc_schedule::put_bytes;

/// Appends the text of a message body.
pub(crate) fn put_body(out: &mut Vec<u8>, body: &Body) -> Result<(), Memory>
    ensures { OnOk result (out.new.items ≡ out.old.items ++ body_text body.now) }
{
    match body {
        Body::Look => put(out, b"look"),
        Body::LookIs {
            in_tree,
            parent,
            rate,
            children,
        } => put_look_is(out, *in_tree, *parent, *rate, children.items()),
        Body::Ask { seq, rank } => put_ask(out, *seq, *rank),
        Body::Yes {
            seq,
            rank,
            ancestors,
        } => put_yes(out, *seq, *rank, ancestors.items()),
        Body::No { seq, why } => put_no(out, *seq, *why),
        Body::CheckIn {
            seq,
            upto,
            rate,
            number,
            clients,
            certs,
        } => {
            put_check_in(out, *seq, *upto, *rate, certs.items())?;
            put_count(out, " ", *number, *clients)
        }
        Body::CheckAck {
            seq,
            upto,
            rank,
            ancestors,
        } => put_check_ack(out, *seq, *upto, *rank, ancestors.items()),
        Body::Rejoin { seq } => put_with_number(out, b"rejoin ", *seq),
        Body::Fetch { have } => put_fetch(out, have.items()),
        Body::Chunk {
            group,
            start,
            bytes,
            last,
        } => put_chunk(out, group, *start, bytes.items(), *last),
    }
}

/// Appends `lookis T P R [c:r ..]`.
fn put_look_is(
    out: &mut Vec<u8>,
    in_tree: bool,
    parent: Option<NodeId>,
    rate: u64,
    children: &[Child],
) -> Result<(), Memory>
    ensures { OnOk result (out.new.items ≡ out.old.items ++ body_text (Body.LookIs in_tree parent rate children.now)) }
{
    put(out, b"lookis ")?;
    put(out, tree_word(in_tree).as_bytes())?;
    put_byte(out, b' ')?;
    put_node_or_zero(out, parent)?;
    put_byte_number(out, b' ', rate)?;
    put_byte(out, b' ')?;
    put_list(out, children)
}

/// The word for a node that is in the tree or not.
fn tree_word(in_tree: bool) -> &'static str
    ensures { result.now ≡ tree_text in_tree }
{
    if in_tree { "in" } else { "out" }
}

/// Appends a node, or 0 if there is none.
fn put_node_or_zero(out: &mut Vec<u8>, node: Option<NodeId>) -> Result<(), Memory>
    ensures { OnOk result (out.new.items ≡ out.old.items ++ node_or_zero node) }
{
    match node {
        None => put_byte(out, b'0'),
        Some(node) => put_number(out, u64::from(node.0)),
    }
}

/// Appends `ask S RANK`.
fn put_ask(out: &mut Vec<u8>, seq: u64, rank: Option<Rank>) -> Result<(), Memory>
    ensures { OnOk result (out.new.items ≡ out.old.items ++ body_text (Body.Ask seq rank)) }
{
    put_with_number(out, b"ask ", seq)?;
    put_byte(out, b' ')?;
    put_rank_or_dash(out, rank)
}

/// Appends a rank, or `-` if there is none.
pub fn put_rank_or_dash(out: &mut Vec<u8>, rank: Option<Rank>) -> Result<(), Memory>
    ensures { OnOk result (out.new.items ≡ out.old.items ++ rank_or_dash rank) }
{
    match rank {
        None => put_byte(out, b'-'),
        Some(rank) => put_rank(out, rank),
    }
}

/// Appends `E.D`.
fn put_rank(out: &mut Vec<u8>, rank: Rank) -> Result<(), Memory>
    ensures { OnOk result (out.new.items ≡ out.old.items ++ rank_text rank) }
{
    put_number(out, rank.epoch)?;
    put_byte_number(out, b'.', u64::from(rank.depth))
}

/// Appends `yes S E.D [ids]`.
fn put_yes(out: &mut Vec<u8>, seq: u64, rank: Rank, ancestors: &[NodeId]) -> Result<(), Memory>
    ensures { OnOk result (out.new.items ≡ out.old.items ++ body_text (Body.Yes seq rank ancestors.now)) }
{
    put_with_number(out, b"yes ", seq)?;
    put_byte(out, b' ')?;
    put_rank(out, rank)?;
    put_byte(out, b' ')?;
    put_list(out, ancestors)
}

/// Appends `no S WHY`.
fn put_no(out: &mut Vec<u8>, seq: u64, why: Refusal) -> Result<(), Memory>
    ensures { OnOk result (out.new.items ≡ out.old.items ++ body_text (Body.No seq why)) }
{
    put_with_number(out, b"no ", seq)?;
    put_byte(out, b' ')?;
    put_why(out, why)
}

/// Appends the word of a refusal.
fn put_why(out: &mut Vec<u8>, why: Refusal) -> Result<(), Memory>
    ensures { OnOk result (out.new.items ≡ out.old.items ++ why_text why) }
{
    match why {
        Refusal::Own => put(out, b"own"),
        Refusal::NotJoined => put(out, b"notjoined"),
        Refusal::Ancestor => put(out, b"ancestor"),
        Refusal::Depth => put(out, b"depth"),
        Refusal::Chain(node) => put_with_number(out, b"chain ", u64::from(node.0)),
        Refusal::Rank => put(out, b"rank"),
    }
}

/// Appends `checkin S U R [certs]`, without the count of clients after it.
fn put_check_in(
    out: &mut Vec<u8>,
    seq: u64,
    upto: u64,
    rate: u64,
    certs: &[Cert],
) -> Result<(), Memory>
    ensures { OnOk result (out.new.items ≡ out.old.items ++ body_text (Body.CheckIn seq upto rate 0 0 certs.now)) }
{
    put_with_number(out, b"checkin ", seq)?;
    put_byte_number(out, b' ', upto)?;
    put_byte_number(out, b' ', rate)?;
    put_byte(out, b' ')?;
    put_list(out, certs)
}

/// Appends `checkack S U E.D [ids]`.
fn put_check_ack(
    out: &mut Vec<u8>,
    seq: u64,
    upto: u64,
    rank: Rank,
    ancestors: &[NodeId],
) -> Result<(), Memory>
    ensures { OnOk result (out.new.items ≡ out.old.items ++ body_text (Body.CheckAck seq upto rank ancestors.now)) }
{
    put_with_number(out, b"checkack ", seq)?;
    put_byte_number(out, b' ', upto)?;
    put_byte(out, b' ')?;
    put_rank(out, rank)?;
    put_byte(out, b' ')?;
    put_list(out, ancestors)
}

/// Appends `fetch [g@h ..]`.
fn put_fetch(out: &mut Vec<u8>, have: &[Shelf]) -> Result<(), Memory>
    ensures { OnOk result (out.new.items ≡ out.old.items ++ body_text (Body.Fetch have.now)) }
{
    put(out, b"fetch ")?;
    put_list(out, have)
}

/// Appends `chunk G START HEX`, and ` last` at the last chunk of a group.
fn put_chunk(
    out: &mut Vec<u8>,
    group: &GroupName,
    start: u64,
    bytes: &[u8],
    last: bool,
) -> Result<(), Memory>
    ensures { OnOk result (out.new.items ≡ out.old.items ++ body_text (Body.Chunk group.now start bytes.now last)) }
{
    put(out, b"chunk ")?;
    put(out, group.bytes())?;
    put_byte_number(out, b' ', start)?;
    put_byte(out, b' ')?;
    put_bytes(out, bytes)?;
    put_mark(out, last, " last")
}
