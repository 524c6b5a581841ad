//! The state of a group before bytes are put to it, and the part of the bytes that is new.

ghost use Rattle.std.specs.Prelude.{◌≡◌, None, Some, ℕ, drop};
ghost use Rattle.oc_content.specs.GroupStates.{group_state};

use oc_base::{MAX_GROUPS, Shelf};

/// The state of a group; an absent one counts as empty.
#[derive(Clone, Copy)]
pub struct GroupState {
    /// The number of bytes of the group.
    pub held: u64,
    pub sealed: bool,
    /// Whether the group is new, although there are 64 groups already.
    pub one_too_many: bool,
}

impl GroupState {
    /// The state of the group with this line.
    pub fn of_line(shelf: &Shelf) -> GroupState
        ensures { (groups : ℕ) → result ≡ group_state (Some shelf.now) groups }
    {
        GroupState {
            held: shelf.held,
            sealed: shelf.sealed,
            one_too_many: false,
        }
    }

    /// The state of an absent group beside `groups` others.
    pub fn absent(groups: usize) -> GroupState
        ensures { result ≡ group_state None groups }
    {
        GroupState {
            held: 0,
            sealed: false,
            one_too_many: groups >= MAX_GROUPS,
        }
    }
}

/// The bytes after the first `held_of_them`, which the group has already.
pub fn past(bytes: &[u8], held_of_them: u64) -> &[u8]
    ensures { result.now ≡ drop held_of_them bytes.now }
{
    let skip = held_of_them.min(bytes.len() as u64) as usize;
    &bytes[skip..]
}
