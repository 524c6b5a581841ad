ghost use Rattle.std.specs.Prelude.{◌≡◌, ◌+◌, ◌<◌, ◌≤◌, length, vec_len, vec_capacity, OnOk, OnErr};
ghost use Rattle.std.specs.List.{range_with_len};
ghost use Rattle.oc_model.specs.Choice.{ask_order as asked, below};
ghost use Rattle.oc_place.specs.LeftOut.{out_of};
ghost use Rattle.oc_place.specs.Once.{put_new, with_once};

use crate::left_out::LeftOut;
use crate::membership::is_among;
use oc_base::{Memory, NodeId};

/// Replaces `into` by the nodes that are asked for a place, in their order: for a chain member the earlier
/// members, the nearest first; for any other node its ancestors and then the chain. Each occurs once, and
/// neither `me` nor `without` occurs.
///
/// If memory runs out, `into` does not change. Each id is searched among those before it, so the work
/// grows with the square of the list's length: half a million steps for the longest, of 1,016 nodes.
pub fn ask_order(
    me: NodeId,
    chain: u32,
    ancestors: &[NodeId],
    without: Option<NodeId>,
    into: &mut Vec<NodeId>,
) -> Result<(), Memory>
    ensures ok { OnOk result (into.new.items ≡ asked me chain ancestors.now without) }
    ensures memory { OnErr result (into.new.items ≡ into.old.items) }
{
    into.reserve(ancestors.len() + chain as usize)?;
    into.clear();
    let left_out = LeftOut { me, without };
    if me.0 <= chain {
        put_earlier(&left_out, me.0, into);
    } else {
        put_all(&left_out, ancestors, into);
        put_chain(&left_out, chain, into);
    }
    Ok(())
}

/// Adds the ids below this number, the greatest first.
fn put_earlier(left_out: &LeftOut, number: u32, into: &mut Vec<NodeId>)
    requires room { vec_len into.old + number ≤ vec_capacity into.old }
    ensures { into.new.items ≡ with_once (out_of left_out.now) into.old.items (below number) }
{
    for earlier in (1..number).rev() {
        put(left_out, NodeId(earlier), into);
    }
}

/// Adds these ids.
fn put_all(left_out: &LeftOut, ids: &[NodeId], into: &mut Vec<NodeId>)
    requires room { vec_len into.old + length ids.now ≤ vec_capacity into.old }
    ensures items { into.new.items ≡ with_once (out_of left_out.now) into.old.items ids.now }
    ensures len { vec_len into.new ≤ vec_len into.old + length ids.now }
    ensures capacity { vec_capacity into.old ≤ vec_capacity into.new }
{
    for id in ids {
        put(left_out, *id, into);
    }
}

/// Adds the members of the chain, in their order.
fn put_chain(left_out: &LeftOut, chain: u32, into: &mut Vec<NodeId>)
    requires room { vec_len into.old + chain ≤ vec_capacity into.old }
    ensures { into.new.items ≡ with_once (out_of left_out.now) into.old.items (range_with_len 1 chain) }
{
    for before in 0..chain {
        put(left_out, NodeId(before + 1), into);
    }
}

/// Adds the id at the end, for which there is room, unless it is left out or in the list already.
fn put(left_out: &LeftOut, id: NodeId, into: &mut Vec<NodeId>)
    requires room { vec_len into.old < vec_capacity into.old }
    ensures items { into.new.items ≡ put_new (out_of left_out.now) into.old.items id }
    ensures len { vec_len into.new ≤ vec_len into.old + 1 }
    ensures capacity { vec_capacity into.old ≤ vec_capacity into.new }
{
    if !left_out.contains(id) && !is_among(id, into) {
        let _ = into.push(id);
    }
}
