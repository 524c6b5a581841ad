ghost use Rattle.std.specs.Prelude.{◌≡◌, ◌↔◌, ◌<◌, IsTrue, nat_eq, option_map};
ghost use Rattle.std.specs.Option.{ForSome};
ghost use Rattle.oc_policy.specs.Covering.{part_covers, parts_cover};
ghost use Rattle.oc_policy.specs.Rules.{same_action, is_absent_or, rule_matches, rule_covers};

use crate::demand::Demand;
use crate::prefix::Prefix;
use oc_base::GroupName;

/// The action of a request on a group. HEAD counts as `Get`.
#[derive(Clone, Copy, Debug, PartialEq, Eq)]
pub enum Action {
    /// The request reads the group.
    Get,
    /// The request publishes to the group or seals it.
    Post,
}

/// An access rule: whether the requests that it speaks of are allowed.
#[derive(Clone, Copy, Debug)]
pub struct Rule {
    /// Whether the requests that the rule matches are allowed.
    pub allow: bool,
    /// The action; none speaks of both.
    pub action: Option<Action>,
    /// The groups.
    pub prefix: Prefix,
    /// The area that the request names; none speaks of each.
    pub area: Option<u8>,
    /// The token that the request has to show, if it has to show one.
    pub token: Demand,
}

impl Rule {
    /// Whether the rule speaks of this request.
    pub fn matches<'a>(
        &self,
        action: Action,
        group: Option<&'a GroupName>,
        area: u8,
        shown: Option<&'a [u8]>,
    ) -> bool
        ensures { result ≡ rule_matches self.now action (option_map (λ g. g.now) group.entry) area (option_map (λ s. s.now) shown.entry) }
    {
        matches_action(self.action, action)
            && matches_area(self.area, area)
            && self.token.is_met(shown)
            && self.prefix.speaks_of(group)
    }

    /// Whether this rule matches all that the other one matches.
    pub(crate) fn covers(&self, other: &Rule) -> bool
        ensures { IsTrue result ↔ rule_covers self.now other.now }
    {
        let holds = self.prefix.covers(&other.prefix);
        self.covers_parts(other) && holds
    }

    /// The test of action, area and token.
    fn covers_parts(&self, other: &Rule) -> bool
        ensures test { result ≡ parts_cover self.now other.now }
        ensures range { ForSome other.now.area (λ area. area < 256) }
    {
        let covers_area = covers_area(self.area, other.area);
        covers_action(self.action, other.action) && covers_area && self.token.covers(&other.token)
    }
}

fn matches_action(part: Option<Action>, action: Action) -> bool
    ensures { result ≡ is_absent_or same_action part action }
{
    match part {
        None => true,
        Some(own) => own == action,
    }
}

fn matches_area(part: Option<u8>, area: u8) -> bool
    ensures { result ≡ is_absent_or nat_eq part area }
{
    match part {
        None => true,
        Some(own) => own == area,
    }
}

/// Whether the first part speaks of each action that the second speaks of.
fn covers_action(part: Option<Action>, other: Option<Action>) -> bool
    ensures { result ≡ part_covers same_action part other }
{
    match other {
        None => part.is_none(),
        Some(action) => matches_action(part, action),
    }
}

/// Whether the first part speaks of each area that the second speaks of.
fn covers_area(part: Option<u8>, other: Option<u8>) -> bool
    ensures test { result ≡ part_covers nat_eq part other }
    ensures range { ForSome other (λ area. area < 256) }
{
    match other {
        None => part.is_none(),
        Some(area) => matches_area(part, area),
    }
}
