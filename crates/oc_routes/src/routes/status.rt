//! A GET or HEAD of `/-/status`, or `/!status`: the state of the node, as JSON.

ghost use Rattle.std.specs.Prelude.{◌≡◌, ◌++◌, IfOk, OnOk};
ghost use Rattle.oc_routes.specs.Json.{number_text, or_null};
ghost use Rattle.oc_routes.specs.Sights.{about_of, sight_of};
ghost use Rattle.oc_routes.specs.Status.{configuration_word, counts_text, end_text, mode_word, network_text, object_text, peer_of, place_text, program_text, rank_text, state_text, status_text, tally_text};

use crate::about::About;
use crate::arrays::put_list;
use crate::json::{put_field, put_number_or_null, put_quoted};
use crate::leased::{Leased, leased_of};
use crate::objects::put_name;
use crate::rows::{Row, rows_told};
use crate::seen::Seen;
use crate::sights::{MissingNode, missing};
use crate::tally::Tally;
use oc_base::{MAX_GROUPS, Memory, NodeId, Rank, put, put_number, put_with_number};
use oc_model::Mode;
use oc_node::Node;
use std::alloc::Global;

/// The path of the status.
pub const STATUS_PATH: &str = "/!status";

/// The path of the status in a form that shells and collectors can spell.
pub const STATUS_NAME: &str = "/-/status";

/// The report of a node at `/!status`: one object of JSON, and a line's end.
pub fn status(alloc: Global, seen: &Seen<'_>) -> Result<Vec<u8>, Memory>
    ensures { IfOk result (λ text. text.items ≡ status_text (sight_of seen.now)) }
{
    let rows = rows_told(alloc, seen)?;
    let leased = leased_of(
        alloc,
        seen.node.table(),
        seen.node.id(),
        seen.node.lease_ends(),
        seen.node.rates(),
    )?;
    let missing = missing(alloc, seen)?;
    let mut text = Vec::new(alloc);
    put_object(&mut text, seen, &rows, &leased)?;
    put_end(&mut text, seen, &missing)?;
    Ok(text)
}

/// Puts the status with these rows and children, without its end.
fn put_object(
    out: &mut Vec<u8>,
    seen: &Seen<'_>,
    rows: &[Row],
    leased: &[Leased],
) -> Result<(), Memory>
    ensures { OnOk result (out.new.items ≡ out.old.items ++ object_text (sight_of seen.now) rows.now leased.now) }
{
    put(out, b"{")?;
    put_state(out, seen)?;
    put_list(out, "ancestors", seen.node.ancestors(), seen)?;
    put_list(out, "groups", seen.shelf, seen)?;
    put_list(out, "table", rows, seen)?;
    put_list(out, "children", leased, seen)
}

/// Puts the end of the status: the node's own name, the missing nodes, the program, the counts of the run, and the
/// configuration.
#[tactic(auto, unfolding(crate::specs::Status::end_text))]
fn put_end(out: &mut Vec<u8>, seen: &Seen<'_>, missing: &[MissingNode]) -> Result<(), Memory>
    ensures { OnOk result (out.new.items ≡ out.old.items ++ end_text (sight_of seen.now) missing.now) }
{
    put_name(out, ",\"name\":", seen, seen.node.id())?;
    put_list(out, "missing", missing, seen)?;
    put_program(out, &seen.about)?;
    put_tally(out, seen.tally)?;
    put(out, b",\"configuration\":")?;
    put_quoted(out, configuration_word(seen.about.refused).as_bytes())?;
    put(out, b"}\n")
}

/// Puts the program, and its limit of groups.
fn put_program(out: &mut Vec<u8>, about: &About) -> Result<(), Memory>
    ensures { OnOk result (out.new.items ≡ out.old.items ++ program_text (about_of about.now)) }
{
    put(out, b",\"version\":")?;
    put_quoted(out, about.version.as_bytes())?;
    put_field(out, ",\"started\":", about.started)?;
    put_field(out, ",\"groups_limit\":", MAX_GROUPS as u64)
}

/// Puts the counts of the run.
fn put_tally(out: &mut Vec<u8>, tally: &Tally) -> Result<(), Memory>
    ensures { OnOk result (out.new.items ≡ out.old.items ++ tally_text tally.now) }
{
    put_field(out, ",\"served\":", tally.served())?;
    put_field(out, ",\"sent\":", tally.sent())?;
    put_field(out, ",\"refused\":{\"mac\":", tally.macs())?;
    put_field(out, ",\"message\":", tally.messages())?;
    put(out, b"}")
}

fn configuration_word(refused: bool) -> &'static str
    ensures { result.now ≡ configuration_word refused }
{
    if refused { "refused" } else { "good" }
}

/// Puts the id and the network of the node, its place in the tree, and its counts.
#[tactic(auto, unfolding(crate::specs::Status::state_text))]
fn put_state(out: &mut Vec<u8>, seen: &Seen<'_>) -> Result<(), Memory>
    ensures { OnOk result (out.new.items ≡ out.old.items ++ state_text (sight_of seen.now)) }
{
    put_network(out, seen)?;
    put_place(out, seen.node)?;
    put_counts(out, seen.node)
}

/// Puts the id of the node, and its network.
fn put_network(out: &mut Vec<u8>, seen: &Seen<'_>) -> Result<(), Memory>
    ensures { OnOk result (out.new.items ≡ out.old.items ++ network_text (sight_of seen.now)) }
{
    put_field(out, "\"node\":", u64::from(seen.node.id().0))?;
    put_field(out, ",\"nodes\":", u64::from(seen.ids))?;
    put_field(out, ",\"chain\":", u64::from(seen.node.chain()))?;
    put_field(out, ",\"chunk\":", u64::from(seen.node.chunk()))
}

/// Puts the place of the node in the tree.
fn put_place(out: &mut Vec<u8>, node: &Node) -> Result<(), Memory>
    ensures { OnOk result (out.new.items ≡ out.old.items ++ place_text node.now.control) }
{
    put(out, b",\"mode\":")?;
    put_quoted(out, mode_word(node.mode()).as_bytes())?;
    put(out, b",\"parent\":")?;
    put_node_or_null(out, peer_of(node.mode()))?;
    put_field(out, ",\"seq\":", node.seq())?;
    put(out, b",\"rank\":")?;
    put_rank_or_null(out, node.rank())
}

fn mode_word(mode: Mode) -> &'static str
    ensures { result.now ≡ mode_word mode }
{
    match mode {
        Mode::Idle => "idle",
        Mode::Asking(_) => "asking",
        Mode::Joined(_) => "joined",
        Mode::Acting => "acting",
    }
}

/// The parent, or the node that is asked to be it.
fn peer_of(mode: Mode) -> Option<NodeId>
    ensures { result ≡ peer_of mode }
{
    match mode {
        Mode::Asking(peer) | Mode::Joined(peer) => Some(peer),
        Mode::Idle | Mode::Acting => None,
    }
}

/// Puts a node, or `null` where there is none.
fn put_node_or_null(out: &mut Vec<u8>, node: Option<NodeId>) -> Result<(), Memory>
    ensures { OnOk result (out.new.items ≡ out.old.items ++ or_null number_text node) }
{
    match node {
        Some(node) => put_number_or_null(out, Some(u64::from(node.0))),
        None => put_number_or_null(out, None),
    }
}

/// Puts a rank, or `null` where there is none.
fn put_rank_or_null(out: &mut Vec<u8>, rank: Option<Rank>) -> Result<(), Memory>
    ensures { OnOk result (out.new.items ≡ out.old.items ++ or_null rank_text rank) }
{
    match rank {
        Some(rank) => put_rank(out, rank),
        None => put(out, b"null"),
    }
}

/// Puts `"E.D"`.
fn put_rank(out: &mut Vec<u8>, rank: Rank) -> Result<(), Memory>
    ensures { OnOk result (out.new.items ≡ out.old.items ++ rank_text rank) }
{
    put(out, b"\"")?;
    put_number(out, rank.epoch)?;
    put_with_number(out, b".", u64::from(rank.depth))?;
    put(out, b"\"")
}

/// Puts the clock of the node, its change log, and its own number and count of clients.
fn put_counts(out: &mut Vec<u8>, node: &Node) -> Result<(), Memory>
    ensures { OnOk result (out.new.items ≡ out.old.items ++ counts_text node.now.control) }
{
    put_field(out, ",\"clock\":", node.now())?;
    put_field(out, ",\"log\":{\"length\":", node.log().length())?;
    put_field(out, ",\"acked\":", node.log().acked())?;
    put_field(out, "},\"number\":", node.number())?;
    put_field(out, ",\"clients\":", node.clients())
}
