ghost use Rattle.std.specs.Prelude.{◌≡◌, ℕ, List};
ghost use Rattle.oc_base.specs.Named.{AreAscending, LooksUp};

use crate::{Group, GroupName, Shelf};
use std::cmp::Ordering;

/// An item with the name of a group.
pub trait Named {
    /// The bytes of its name.
    ghost name_of: { Self → List ℕ };

    /// Its name.
    fn name(&self) -> &GroupName
        ensures { result.now ≡ name_of self.now };
}

impl Named for Group {
    ghost use Rattle.oc_base.specs.declared.group.Group.{Group};

    ghost name_of = { λ (k : Group). k.name };

    fn name(&self) -> &GroupName {
        &self.name
    }
}

impl Named for Shelf {
    ghost use Rattle.oc_base.specs.declared.shelf.Shelf.{Shelf};

    ghost name_of = { λ (l : Shelf). l.group };

    fn name(&self) -> &GroupName {
        &self.group
    }
}

/// The result of a search for a name in a list ascending by name.
#[derive(Clone, Copy, Debug, PartialEq, Eq)]
pub enum Lookup {
    /// The name is at this index.
    Found(usize),
    /// The name is absent, and would be at this index.
    Free(usize),
}

/// Searches for a name in a list ascending by name, from the front.
pub fn look_up<T: Named>(items: &[T], name: &GroupName) -> Lookup
    requires { AreAscending T.name_of items.now }
    ensures { LooksUp T.name_of items.now name.now result }
{
    for (at, item) in items.iter().enumerate() {
        match name.cmp(item.name()) {
            Ordering::Less => return Lookup::Free(at),
            Ordering::Equal => return Lookup::Found(at),
            Ordering::Greater => {}
        }
    }
    Lookup::Free(items.len())
}
