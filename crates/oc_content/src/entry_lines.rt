//! The change of a group's line by an entry.

ghost use Rattle.std.specs.Prelude.{◌≡◌, ◌+◌, ◌^◌, ◌<◌, ◌≤◌, length, vec_capacity, All};
ghost use Rattle.oc_base.specs.declared.limits.TheConstants.{MAX_GROUP_BYTES};
ghost use Rattle.oc_content.specs.Lines.{changed, line_with};

use crate::heading::Heading;
use oc_base::Shelf;

/// Adds `count` bytes, and the seal if the heading has it, to the line of the group at an index.
pub fn grow_at(shelves: &mut Vec<Shelf>, at: usize, heading: &Heading, count: u64)
    requires within { at < length shelves.old.items }
    requires short { All (λ s. s.held ≤ MAX_GROUP_BYTES) shelves.old.items }
    requires few { count ≤ MAX_GROUP_BYTES }
    ensures lines { shelves.new.items ≡ changed (line_with heading.now count) at shelves.old.items }
    ensures memory { vec_capacity shelves.new ≡ vec_capacity shelves.old }
{
    grow(&mut shelves[at], heading, count);
}

/// Adds `count` bytes, and the seal if the heading has it, to the line of a group.
fn grow(shelf: &mut Shelf, heading: &Heading, count: u64)
    requires { shelf.old.held + count < 2 ^ 64 }
    ensures { shelf.new ≡ line_with heading.now count shelf.old }
{
    shelf.held += count;
    shelf.sealed = shelf.sealed || heading.seals;
}
