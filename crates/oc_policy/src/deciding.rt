ghost use Rattle.std.specs.Prelude.{◌≡◌, ◌≤◌, length, Some, option_map};
ghost use Rattle.oc_policy.specs.Rules.{first_match, verdict, verdict_of};

use crate::rule::{Action, Rule};
use oc_base::GroupName;

/// The decision of the access rules on a request.
#[derive(Clone, Copy, Debug, PartialEq, Eq)]
pub enum Decision {
    Allowed,
    /// The rule with this number, counted from 1, denies it.
    Denied(u32),
}

/// The greatest number of rules in a list.
pub const MAX_RULES: usize = 256;

/// The decision of the first rule that matches; a request that no rule matches is allowed. `group` is the group that
/// is asked for, or a page of a node by its name, such as `/-/status`; only rules for `/` speak of a request without a
/// name, `None`. `shown` is the value of the request's Authorization field, `None` where it has none, or more than
/// one. Takes no memory.
pub fn decide<'a>(
    rules: &'a [Rule],
    action: Action,
    group: Option<&'a GroupName>,
    area: u8,
    shown: Option<&'a [u8]>,
) -> Decision
    requires { length rules.now ≤ MAX_RULES }
    ensures { result ≡ verdict rules.now action (option_map (λ g. g.now) group.entry) area (option_map (λ s. s.now) shown.entry) }
{
    match first_match(rules, action, group, area, shown) {
        Some(place) => rules[place].says(place as u32 + 1),
        None => Decision::Allowed,
    }
}

/// The place of the first rule that matches.
fn first_match<'a>(
    rules: &'a [Rule],
    action: Action,
    group: Option<&'a GroupName>,
    area: u8,
    shown: Option<&'a [u8]>,
) -> Option<usize>
    ensures { result ≡ first_match rules.now action (option_map (λ g. g.now) group.entry) area (option_map (λ s. s.now) shown.entry) }
{
    rules
        .iter()
        .position(|rule| rule.matches(action, group, area, shown))
}

impl Rule {
    /// The decision of the rule, which has this number, on a request that it matches.
    fn says(&self, number: u32) -> Decision
        ensures { result ≡ verdict_of (Some self.now) number }
    {
        if self.allow {
            Decision::Allowed
        } else {
            Decision::Denied(number)
        }
    }
}
