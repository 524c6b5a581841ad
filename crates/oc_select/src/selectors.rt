use oc_base::Text;
use std::alloc::Global;
use std::marker::Model;

/// The values of the fields of one name, in the order in which they came. Contracts see the list of them.
#[derive(Drop)]
pub struct Values {
    items: Vec<Text>,
}

impl Model for Values {
    ghost use Rattle.std.specs.Prelude.{List, ℕ};

    ghost Value = { List (List ℕ) };

    ghost view = { λ values. values.items.items };
}

impl Values {
    ghost use Rattle.std.specs.Prelude.{◌≡◌, []};

    /// The values of a name that no field has. No memory is taken.
    pub fn none(alloc: Global) -> Values
        ensures { result ≡ [] }
    {
        Values::of(Vec::new(alloc))
    }

    pub fn of(items: Vec<Text>) -> Values
        ensures { result ≡ items.items }
    {
        Values { items }
    }

    pub fn items(&self) -> &[Text]
        ensures { result.now ≡ self.now }
    {
        self.items.as_slice()
    }
}

/// The fields of a request's head that say on what conditions a content is asked for, and which part of it: the values of
/// each name.
#[derive(Drop)]
pub struct Selectors {
    pub if_match: Values,
    pub if_none_match: Values,
    pub if_modified_since: Values,
    pub if_unmodified_since: Values,
    pub if_range: Values,
    pub range: Values,
}

impl Selectors {
    ghost use Rattle.std.specs.Prelude.{◌≡◌};
    ghost use Rattle.oc_select.specs.Values.{no_selectors};

    /// None of the fields. No memory is taken.
    pub fn none(alloc: Global) -> Selectors
        ensures { result ≡ no_selectors }
    {
        Selectors {
            if_match: Values::none(alloc),
            if_none_match: Values::none(alloc),
            if_modified_since: Values::none(alloc),
            if_unmodified_since: Values::none(alloc),
            if_range: Values::none(alloc),
            range: Values::none(alloc),
        }
    }
}

/// What else of a request tells whether its Range field counts.
#[derive(Clone, Copy)]
pub struct RequestLine {
    /// The method is GET, and not HEAD.
    pub is_get: bool,
    /// The query has a part that is `start` or begins with `start=`.
    pub has_start: bool,
}
