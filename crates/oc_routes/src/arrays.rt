//! Arrays of JSON, put at the end of a buffer.

ghost use Rattle.std.specs.Prelude.{◌≡◌, ℕ, List, ◌++◌, OnOk};
ghost use Rattle.oc_routes.specs.Json.{array_text, separated};
ghost use Rattle.oc_routes.specs.Sights.{Sight, sight_of};
ghost use Rattle.oc_routes.specs.Status.{list_text};

use crate::seen::Seen;
use oc_base::{Memory, put};

/// An item of an array.
pub(crate) trait ArrayItem {
    /// The text of the item, at a node that is seen so.
    ghost text: { Sight → Self → List ℕ };

    /// Puts its text.
    fn put(&self, out: &mut Vec<u8>, seen: &Seen<'_>) -> Result<(), Memory>
        ensures { OnOk result (out.new.items ≡ out.old.items ++ text (sight_of seen.now) self.now) };
}

/// Puts `,"NAME":[..]`.
#[tactic(auto, unfolding(crate::specs::Status::list_text))]
pub(crate) fn put_list<I: ArrayItem>(
    out: &mut Vec<u8>,
    name: &str,
    items: &[I],
    seen: &Seen<'_>,
) -> Result<(), Memory>
    ensures { OnOk result (out.new.items ≡ out.old.items ++ list_text name.now (I.text (sight_of seen.now)) items.now) }
{
    put(out, b",\"")?;
    put(out, name.as_bytes())?;
    put(out, b"\":")?;
    put_array(out, items, seen)
}

/// Puts an array.
fn put_array<I: ArrayItem>(out: &mut Vec<u8>, items: &[I], seen: &Seen<'_>) -> Result<(), Memory>
    ensures { OnOk result (out.new.items ≡ out.old.items ++ array_text (I.text (sight_of seen.now)) items.now) }
{
    put(out, b"[")?;
    put_separated(out, items, seen)?;
    put(out, b"]")
}

/// Puts the items, with a comma between each two.
fn put_separated<I: ArrayItem>(
    out: &mut Vec<u8>,
    items: &[I],
    seen: &Seen<'_>,
) -> Result<(), Memory>
    ensures { OnOk result (out.new.items ≡ out.old.items ++ separated (I.text (sight_of seen.now)) items.now) }
{
    let Some((first, rest)) = items.split_first() else {
        return Ok(());
    };
    first.put(out, seen)?;
    for item in rest {
        put(out, b",")?;
        item.put(out, seen)?;
    }
    Ok(())
}
