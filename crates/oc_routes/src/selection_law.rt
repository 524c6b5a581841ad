//! Laws of what a client selects of the content of a group.

ghost use Rattle.std.specs.Prelude.{◌≡◌, ℕ, ◌+◌, ◌<◌, ◌≤◌, ◌^◌, Bool, List, Some};
ghost use Rattle.oc_base.specs.declared.group.Group.{Group};
ghost use Rattle.oc_select.specs.Meaning.{IsNamed};
ghost use Rattle.oc_select.specs.Tags.{tag_of};
ghost use Rattle.oc_select.specs.declared.content.Content.{Content};
ghost use Rattle.oc_select.specs.declared.selection.Selection.TheVariants.{NotModified, Part};
ghost use Rattle.oc_select.specs.declared.selectors.RequestLine.{RequestLine};
ghost use Rattle.oc_select.specs.declared.selectors.Selectors.{Selectors};
ghost use Rattle.oc_routes.specs.Contents.{begun, owed, part_of};
ghost use Rattle.oc_routes.specs.Group.{chosen};
ghost use Rattle.oc_routes.specs.Selections.{client_selection, content_here, content_of};
ghost use Rattle.oc_routes.specs.declared.hint.Hint.{Hint};
ghost use Rattle.oc_routes.specs.declared.holding.Holding.{Holding};
ghost use Rattle.oc_routes.specs.declared.response.GroupRange.{GroupRange};
ghost use Rattle.oc_routes.specs.declared.showing.Client.{Client};

use oc_select::{
    a_part_is_within_its_content, a_tag_tells_the_bytes, what_was_not_modified_is_known,
};

/// The part that a client selects has a byte, and lies within the content that it is shown; and the content of the reply to
/// it is this part of the group's bytes, whatever the group is by then.
pub fn a_part_is_those_bytes_of_its_group()
    ensures within { (hint : Hint) (h : Holding) (start : ℕ) (line : RequestLine) (selectors : Selectors) (first count : ℕ)
        → client_selection hint h start line selectors ≡ Part first count → (0 < count) × (first + count ≤ (content_here hint h start).length) }
    ensures given { (client : Client) (sealed : Bool) (all : ℕ) (content : Content) (first count : ℕ) (range : GroupRange) (groups : List Group)
        → (chosen client (Part first count) sealed all content).content ≡ Some range
        → owed (Some (begun client.group range)) groups ≡ part_of client.group first count groups }
{
    a_part_is_within_its_content();
}

/// A client is told that a group was not modified only where it named the tag of the content that it would be given, or `*`.
pub fn a_client_that_is_told_nothing_knows_the_tag()
    ensures { (hint : Hint) (h : Holding) (start : ℕ) (line : RequestLine) (selectors : Selectors)
        → client_selection hint h start line selectors ≡ NotModified → IsNamed (tag_of (content_here hint h start)) selectors.if_none_match }
{
    what_was_not_modified_is_known();
}

/// Contents of one group with the same tag are the same bytes of the group, be their lengths open or not.
pub fn a_tag_tells_the_bytes_of_a_group()
    ensures { (group : List ℕ) (a b : ℕ) (p q : Bool) (groups : List Group) → a < 2 ^ 64 → b < 2 ^ 64
        → tag_of (content_of a p) ≡ tag_of (content_of b q) → part_of group 0 a groups ≡ part_of group 0 b groups }
{
    a_tag_tells_the_bytes();
}
