ghost use Rattle.std.specs.Prelude.{◌≡◌, ◌<◌, ◌≤◌, length, set, insert, IfOk};
ghost use Rattle.oc_base.specs.Named.{same_name};
ghost use Rattle.oc_base.specs.Shelves.{line_of, IsShelf};
ghost use Rattle.oc_model.specs.Shelves.{line_at, with_line, limit, is_behind, first_behind, turn, next_behind};

use oc_base::{
    GroupName, Lookup, MAX_GROUP_BYTES, MAX_GROUPS, Memory, Shelf, held_in_all, look_up,
};
use oc_model::Answer;
use std::alloc::Global;

// The difference between two shelves.

/// Whether a line is the line of a group.
fn is_line_of(line: &Shelf, group: &GroupName) -> bool
    ensures { result ≡ same_name group.now line.now.group }
{
    group.cmp(&line.group).is_eq()
}

/// The line of a group.
pub fn line_of(shelf: &[Shelf], group: &GroupName) -> Option<Shelf>
    ensures { result ≡ line_of group.now shelf.now }
{
    for line in shelf {
        if is_line_of(line, group) {
            return Some(*line);
        }
    }
    None
}

/// The line of a group; a group that is absent has 0 bytes.
pub fn line_at(shelf: &[Shelf], group: &GroupName) -> Shelf
    ensures { result ≡ line_at group.now shelf.now }
{
    match line_of(shelf, group) {
        Some(line) => line,
        None => Shelf {
            group: *group,
            held: 0,
            sealed: false,
        },
    }
}

/// The shelf with this line in place of the line at an index.
fn replace_line(
    alloc: Global,
    shelf: &[Shelf],
    index: usize,
    line: &Shelf,
) -> Result<Vec<Shelf>, Memory>
    requires { index < length shelf.now }
    ensures { IfOk result (λ made. made.items ≡ set shelf.now index line.now) }
{
    let mut made = shelf.to_vec(alloc)?;
    made[index] = *line;
    Ok(made)
}

/// The shelf with this line inserted at an index.
fn insert_line(
    alloc: Global,
    shelf: &[Shelf],
    index: usize,
    line: &Shelf,
) -> Result<Vec<Shelf>, Memory>
    requires { index ≤ length shelf.now }
    ensures { IfOk result (λ made. made.items ≡ insert shelf.now index line.now) }
{
    let mut made = shelf.to_vec(alloc)?;
    made.insert(index, *line)?;
    Ok(made)
}

/// The shelf with this line in place of the line of the same group.
#[tactic(auto, using(crate::proofs::ShelfLines::lines_ascend, crate::proofs::ShelfLines::with_found, crate::proofs::ShelfLines::with_free, crate::proofs::ShelfLines::found_within, crate::proofs::ShelfLines::free_within))]
pub fn with_line(alloc: Global, shelf: &[Shelf], line: &Shelf) -> Result<Vec<Shelf>, Memory>
    requires { IsShelf shelf.now }
    ensures { IfOk result (λ made. made.items ≡ with_line line.now shelf.now) }
{
    match look_up(shelf, &line.group) {
        Lookup::Found(index) => replace_line(alloc, shelf, index, line),
        Lookup::Free(index) => insert_line(alloc, shelf, index, line),
    }
}

/// The limit that a group would exceed at this length in bytes, if any.
pub fn limit(shelf: &[Shelf], group: &GroupName, end: u64) -> Option<Answer>
    ensures { result ≡ limit shelf.now group.now end }
{
    if line_of(shelf, group).is_none() && shelf.len() >= MAX_GROUPS {
        Some(Answer::Groups)
    } else if end > MAX_GROUP_BYTES {
        Some(Answer::TooLong)
    } else {
        None
    }
}

/// Whether the other node has less of a group: no such group, fewer bytes, or as many without the seal that
/// is here.
fn is_behind(other: &Option<Shelf>, line: &Shelf) -> bool
    ensures { result ≡ is_behind other.now line.now }
{
    match other {
        Some(other) => {
            other.held < line.held || (other.held == line.held && line.sealed && !other.sealed)
        }
        None => true,
    }
}

/// The first group of which the other node has less.
fn first_behind(have: &[Shelf], shelf: &[Shelf]) -> Option<Shelf>
    ensures { result ≡ first_behind have.now shelf.now }
{
    for line in shelf {
        if is_behind(&line_of(have, &line.group), line) {
            return Some(*line);
        }
    }
    None
}

/// The index of the line whose turn it is: each chunk of this size that the other holds moves the turn on by one.
#[tactic(auto, using(crate::proofs::ShelfLines::held_short))]
fn turn(have: &[Shelf], shelf: &[Shelf], chunk: u64) -> usize
    requires have { IsShelf have.now }
    requires chunk { 1 ≤ chunk }
    requires some { 1 ≤ length shelf.now }
    ensures turn { result ≡ turn chunk have.now shelf.now }
    ensures within { result < length shelf.now }
{
    (held_in_all(have) / chunk % shelf.len() as u64) as usize
}

/// The first group of which the other node has less, from the group on whose turn it is.
#[tactic(auto, using(crate::proofs::ShelfLines::behind_empty))]
pub fn next_behind(have: &[Shelf], shelf: &[Shelf], chunk: u64) -> Option<Shelf>
    requires have { IsShelf have.now }
    requires chunk { 1 ≤ chunk }
    ensures { result ≡ next_behind chunk have.now shelf.now }
{
    if shelf.is_empty() {
        return None;
    }
    let place = turn(have, shelf, chunk);
    match first_behind(have, &shelf[place..]) {
        Some(line) => Some(line),
        None => first_behind(have, &shelf[..place]),
    }
}
