ghost use Rattle.std.specs.Prelude.{◌≡◌, ◌^◌, ◌<◌};
ghost use Rattle.oc_base.specs.Shelves.{held_in_all};

use crate::GroupName;

/// A line of a shelf: the group, the number of bytes held, and whether the group is sealed.
#[derive(Clone, Copy, Debug, PartialEq, Eq)]
pub struct Shelf {
    pub group: GroupName,
    /// The number of bytes held.
    pub held: u64,
    pub sealed: bool,
}

/// The sum of the lengths of all groups, in bytes.
pub fn held_in_all(shelf: &[Shelf]) -> u64
    requires { held_in_all shelf.now < 2 ^ 64 }
    ensures { result ≡ held_in_all shelf.now }
{
    let mut held = 0;
    for line in shelf {
        held += line.held;
    }
    held
}
