ghost use Rattle.std.specs.Prelude.{◌≡◌, ◌≢◌, ℕ, ◌<◌, ◌-◌, IfSome, List, Option, Some, length};
ghost use Rattle.hex.specs.Hex.{IsBytes, encode_lower};
ghost use Rattle.oc_base.specs.Names.{IsGroupName};
ghost use Rattle.oc_policy.specs.declared.rule.Action.{Action};
ghost use Rattle.oc_policy.specs.declared.rule.Rule.{Rule};
ghost use Rattle.oc_policy.specs.Rules.{first_match};
ghost use Rattle.oc_policy.specs.Covering.{Shadows};
ghost use Rattle.oc_policy.specs.Listing.{rule_line};
ghost use Rattle.oc_policy.specs.Hmac.{hmac};
ghost use Rattle.oc_policy.specs.Keys.{AreLowerDigits, mac_digits};
ghost use Rattle.oc_policy.specs.declared.deciding.Decision.TheVariants.{Denied};
ghost use Rattle.oc_policy.specs.declared.mac.TheConstants.{MAC_DIGITS};

/// A rule that an earlier one covers is never the first that matches, so it denies nothing and lets
/// nothing pass.
pub fn a_shadowed_rule_decides_nothing()
    ensures { (rules : List Rule) (j i : ℕ) → Shadows rules j i
        → (action : Action) (group : Option (List ℕ)) (area : ℕ) (shown : Option (List ℕ)) → IfSome group IsGroupName → area < 256
        → first_match rules action group area shown ≢ Some (i - 1) }
{}

/// The lines of two rules that differ in their tokens alone are the same: no line tells a token.
pub fn no_line_tells_a_token()
    ensures { (rule : Rule) (first second : List ℕ) (number : ℕ) (by : Option ℕ)
        → rule_line number (record rule { token = Some first }) by ≡ rule_line number (record rule { token = Some second }) by }
{}

/// The MAC of each body under each key is [`MAC_DIGITS`](crate::MAC_DIGITS) digits.
pub fn macs_are_digits()
    ensures count { (key body : List ℕ) → length (mac_digits key body) ≡ MAC_DIGITS }
    ensures digits { (key body : List ℕ) → AreLowerDigits (mac_digits key body) }
{}

/// Bytes with the same spelling are the same.
pub fn no_two_digests_have_one_spelling()
    ensures { (first second : List ℕ) → IsBytes first → IsBytes second → encode_lower first ≡ encode_lower second
        → first ≡ second }
{}
