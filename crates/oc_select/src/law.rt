ghost use Rattle.std.specs.Prelude.{◌≡◌, ℕ, ◌+◌, ◌<◌, ◌≤◌, ◌⊎◌, List, [], ◌∷◌, true, Some};
ghost use Rattle.oc_select.specs.Tags.{tag_of};
ghost use Rattle.httpdate.specs.Date.{date_text, unix_secs};
ghost use Rattle.httpdate.specs.declared.date.HttpDate.{HttpDate};
ghost use Rattle.oc_select.specs.Naming.{naming};
ghost use Rattle.oc_select.specs.Conditions.{change_of, date_in};
ghost use Rattle.oc_select.specs.Ranges.{part_of, range_asked};
ghost use Rattle.oc_select.specs.Selecting.{selection};
ghost use Rattle.oc_select.specs.Values.{no_selectors};
ghost use Rattle.oc_select.specs.Meaning.{IsContent, IsNamed, IsNoYounger, bytes_of};
ghost use Rattle.oc_select.specs.Examples.{AreTags, AreRanges, AreOrders, AreTexts, AreTypes};
ghost use Rattle.oc_select.specs.declared.content.Content.{Content};
ghost use Rattle.oc_select.specs.declared.naming.Comparison.TheVariants.{Weak};
ghost use Rattle.oc_select.specs.declared.naming.Naming.TheVariants.{Named};
ghost use Rattle.oc_select.specs.declared.range.Range.{Range};
ghost use Rattle.oc_select.specs.declared.selection.Selection.TheVariants.{NotModified, Part, Unsatisfiable, Whole};
ghost use Rattle.oc_select.specs.declared.selectors.RequestLine.{RequestLine};
ghost use Rattle.oc_select.specs.declared.selectors.Selectors.{Selectors};

/// A part lies within its content and has at least one byte.
pub fn a_part_is_within_its_content()
    ensures { (content : Content) (line : RequestLine) (s : Selectors) (start count : ℕ) → selection content line s ≡ Part start count
        → (0 < count) × (start + count ≤ content.length) }
{}

/// Only a GET with a Range field is given a part, the one that the field asks for, or is told that there is none.
pub fn a_part_is_the_one_that_is_asked_for()
    ensures part { (content : Content) (line : RequestLine) (s : Selectors) (start count : ℕ) → selection content line s ≡ Part start count
        → (line.is_get ≡ true) × ((range : Range) × (range_asked s.range ≡ Some range) × (part_of content.length range ≡ Part start count)) }
    ensures none { (content : Content) (line : RequestLine) (s : Selectors) → selection content line s ≡ Unsatisfiable
        → (line.is_get ≡ true) × ((range : Range) × (range_asked s.range ≡ Some range) × (part_of content.length range ≡ Unsatisfiable)) }
{}

/// A client is told that a content was not modified only where If-None-Match has its tag or `*`, or the content is no
/// younger than the date of If-Modified-Since, and there is no If-None-Match.
pub fn what_was_not_modified_is_known()
    ensures { (content : Content) (line : RequestLine) (s : Selectors) → selection content line s ≡ NotModified
        → IsNamed (tag_of content) s.if_none_match
        ⊎ ((s.if_none_match ≡ []) × IsNoYounger (change_of content.source) s.if_modified_since) }
{}

/// Contents of one path with the same tag have the same bytes, wherever a node holds the same bytes of its groups.
pub fn a_tag_tells_the_bytes()
    ensures { (group : List ℕ → List ℕ) (path : List ℕ) (a b : Content) → IsContent a → IsContent b → tag_of a ≡ tag_of b
        → bytes_of group path a ≡ bytes_of group path b }
{}

/// What a client was given is known when it sends it back: the tag of a content names it in a list of tags, and the text of
/// its last change is the date of its second.
pub fn what_was_given_is_known()
    ensures tag { (content : Content) → naming Weak (tag_of content) (tag_of content ∷ []) ≡ Named }
    ensures date { (change : HttpDate) → date_in (date_text change ∷ []) ≡ Some (unix_secs change) }
{}

/// A request with none of the fields is given all.
pub fn a_plain_request_is_given_all()
    ensures { (content : Content) (line : RequestLine)
        → selection content line no_selectors ≡ Whole }
{}

/// Worked examples compute from the definitions.
pub fn examples_compute()
    ensures tags { AreTags }
    ensures ranges { AreRanges }
    ensures orders { AreOrders }
    ensures texts { AreTexts }
    ensures types { AreTypes }
{}
