//! The groups of a node in memory, without a file.

ghost use Rattle.std.specs.Prelude.{◌≡◌, IfOk, OnOk, OnErr};
ghost use Rattle.oc_base.specs.Groups.{IsAscending, group_or_empty, shelf, shelf_of, with_group};
ghost use Rattle.oc_keep.specs.Puts.{CanKeep};
ghost use Rattle.oc_model.specs.Step.{grown, kept_at, piece_of};

use oc_base::{Bytes, Group, GroupName, Lookup, Memory, Shelf, look_up};
use oc_content::past;
use oc_keep::brought;
use oc_model::Input;
use std::alloc::Global;

/// The shelf line of a group: its length and its seal.
fn line_of(group: &Group) -> Shelf
    ensures { result ≡ shelf_of group.now }
{
    Shelf {
        group: group.name,
        held: group.bytes.items().len() as u64,
        sealed: group.sealed,
    }
}

/// The shelf lines of groups, in order.
pub(crate) fn lines_of(alloc: Global, groups: &[Group]) -> Result<Vec<Shelf>, Memory>
    ensures { IfOk result (λ lines. lines.items ≡ shelf groups.now) }
{
    let mut lines = Vec::new(alloc);
    for group in groups {
        lines.push(line_of(group))?;
    }
    Ok(lines)
}

/// A copy of a group.
fn copy_of(alloc: Global, group: &Group) -> Result<Group, Memory>
    ensures { IfOk result (λ copy. copy ≡ group.now) }
{
    Ok(Group {
        name: group.name,
        bytes: Bytes::of(group.bytes.items().to_vec(alloc)?),
        sealed: group.sealed,
    })
}

/// A copy of groups.
pub(crate) fn copied(alloc: Global, groups: &[Group]) -> Result<Vec<Group>, Memory>
    ensures { IfOk result (λ copy. copy.items ≡ groups.now) }
{
    let mut copy = Vec::new(alloc);
    for group in groups {
        copy.push(copy_of(alloc, group)?)?;
    }
    Ok(copy)
}

/// Keeps the part of an input's bytes that a step keeps: the bytes from this offset of their group
/// on, and the seal if the input closes the group. If memory runs out, the groups are unchanged.
#[tactic(auto, using(crate::proofs::GroupLists::kept_is, crate::proofs::GroupLists::kept_named))]
pub(crate) fn keep(
    alloc: Global,
    groups: &mut Vec<Group>,
    input: &Input,
    start: Option<u64>,
    closes: bool,
) -> Result<(), Memory>
    requires ascending { IsAscending groups.old.items }
    requires keeps { CanKeep (shelf groups.old.items) (piece_of input.now) start closes }
    ensures ok { OnOk result (groups.new.items ≡ kept_at start groups.old.items (piece_of input.now) closes) }
    ensures err { OnErr result (groups.new.items ≡ groups.old.items) }
{
    let Some(start) = start else {
        return Ok(());
    };
    match brought(input) {
        Some((group, bytes)) => {
            put(alloc, groups, group, start, bytes, closes)?;
            Ok(())
        }
        None => unreachable!(),
    }
}

/// Adds bytes from an offset of a group on, without those that it has already, and closes the group
/// if `closes`.
#[tactic(auto, using(crate::proofs::GroupLists::put_found, crate::proofs::GroupLists::put_same, crate::proofs::GroupLists::put_free, crate::proofs::GroupLists::found_within, crate::proofs::GroupLists::free_within))]
fn put(
    alloc: Global,
    groups: &mut Vec<Group>,
    group: &GroupName,
    start: u64,
    bytes: &[u8],
    closes: bool,
) -> Result<(), Memory>
    requires { IsAscending groups.old.items }
    ensures ok { OnOk result (groups.new.items ≡ with_group (grown (group_or_empty group.now groups.old.items) start bytes.now closes) groups.old.items) }
    ensures err { OnErr result (groups.new.items ≡ groups.old.items) }
{
    match look_up(groups, group) {
        Lookup::Found(at) => {
            grow(&mut groups[at], start, bytes, closes)?;
            Ok(())
        }
        Lookup::Free(at) => {
            let mut made = Group {
                name: *group,
                bytes: Bytes::of(Vec::new(alloc)),
                sealed: false,
            };
            grow(&mut made, start, bytes, closes)?;
            groups.insert(at, made)?;
            Ok(())
        }
    }
}

/// Appends the new part of bytes from an offset on to a group, and closes it if `closes`.
fn grow(group: &mut Group, start: u64, bytes: &[u8], closes: bool) -> Result<(), Memory>
    ensures ok { OnOk result (group.new ≡ grown group.old start bytes.now closes) }
    ensures err { OnErr result (group.new ≡ group.old) }
{
    let held = group.bytes.items().len() as u64;
    group.bytes.append(past(bytes, held.saturating_sub(start)))?;
    group.sealed = group.sealed || closes;
    Ok(())
}
