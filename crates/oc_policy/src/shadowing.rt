ghost use Rattle.std.specs.Prelude.{ℕ, ◌≤◌, ◌<◌, length, IfSome, IfNone};
ghost use Rattle.oc_policy.specs.Covering.{Shadows};

use crate::deciding::MAX_RULES;
use crate::rule::Rule;

/// The number of the first rule before the one with this number that covers it: that matches all requests which
/// it matches. Rules are counted from 1. Takes no memory.
pub fn shadow(rules: &[Rule], index: u32) -> Option<u32>
    requires few { length rules.now ≤ MAX_RULES }
    requires first { 1 ≤ index }
    requires last { index ≤ length rules.now }
    ensures some { IfSome result (λ j. Shadows rules.now j index) }
    ensures least { IfSome result (λ j. (k : ℕ) → k < j → ¬ Shadows rules.now k index) }
    ensures none { IfNone result ((k : ℕ) → ¬ Shadows rules.now k index) }
{
    let place = index as usize - 1;
    let rule = &rules[place];
    for (before, earlier) in rules[..place].iter().enumerate() {
        if earlier.covers(rule) {
            return Some(before as u32 + 1);
        }
    }
    None
}
