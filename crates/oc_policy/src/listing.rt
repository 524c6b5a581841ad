//! The lines of rules.

ghost use Rattle.std.specs.Prelude.{◌≡◌, ◌++◌, ◌≤◌, IfOk, OnOk, length};
ghost use Rattle.oc_policy.specs.declared.deciding.TheConstants.{MAX_RULES as MOST_RULES};
ghost use Rattle.oc_policy.specs.Listing.{IsListing, allow_text, area_text, method_text, rule_line, rule_text, shadow_text, token_text};

use crate::demand::Demand;
use crate::rule::{Action, Rule};
use crate::shadowing::shadow;
use oc_base::{Memory, put, put_number};
use std::alloc::Global;

/// The lines of these rules, in their order: the number of a rule from 1, whether it allows, the method,
/// the prefix and the area that it speaks of, with `any` for an absent part, and ` token` where it has a token, which
/// is not told; and after a rule that is shadowed the number of the first rule that shadows it.
pub fn rules_text(alloc: Global, rules: &[Rule]) -> Result<Vec<u8>, Memory>
    requires few { length rules.now ≤ MOST_RULES }
    ensures { IfOk result (λ text. IsListing rules.now text.items) }
{
    let mut text = Vec::new(alloc);
    for (place, rule) in rules.iter().enumerate() {
        let number = place as u32 + 1;
        let by = shadow(rules, number);
        put_line(&mut text, number, rule, by)?;
    }
    Ok(text)
}

/// Puts the line of the rule with this number, which rule `by` shadows, if there is one.
fn put_line(out: &mut Vec<u8>, number: u32, rule: &Rule, by: Option<u32>) -> Result<(), Memory>
    ensures { OnOk result (out.new.items ≡ out.old.items ++ rule_line number rule.now by) }
{
    put_number(out, u64::from(number))?;
    put(out, b" ")?;
    put_rule(out, rule)?;
    put_shadow(out, by)?;
    put(out, b"\n")
}

/// Puts the text of a rule.
fn put_rule(out: &mut Vec<u8>, rule: &Rule) -> Result<(), Memory>
    ensures { OnOk result (out.new.items ≡ out.old.items ++ rule_text rule.now) }
{
    put(out, allow_word(rule.allow).as_bytes())?;
    put(out, b" ")?;
    put(out, method_word(rule.action).as_bytes())?;
    put(out, b" ")?;
    put(out, rule.prefix.bytes())?;
    put(out, b" ")?;
    put_area(out, rule.area)?;
    put(out, token_mark(rule.token).as_bytes())
}

/// The mark of a rule with a token.
fn token_mark(token: Demand) -> &'static str
    ensures { result.now ≡ token_text token }
{
    if token.is_some() { " token" } else { "" }
}

/// Whether a rule allows.
fn allow_word(allow: bool) -> &'static str
    ensures { result.now ≡ allow_text allow }
{
    if allow { "allow" } else { "deny" }
}

/// The method that a rule speaks of.
fn method_word(action: Option<Action>) -> &'static str
    ensures { result.now ≡ method_text action }
{
    match action {
        Some(Action::Get) => "get",
        Some(Action::Post) => "post",
        None => "any",
    }
}

/// Puts the area that a rule speaks of.
fn put_area(out: &mut Vec<u8>, area: Option<u8>) -> Result<(), Memory>
    ensures { OnOk result (out.new.items ≡ out.old.items ++ area_text area) }
{
    match area {
        Some(area) => put_number(out, u64::from(area)),
        None => put(out, b"any"),
    }
}

/// Puts the mark of a rule that another one shadows.
fn put_shadow(out: &mut Vec<u8>, by: Option<u32>) -> Result<(), Memory>
    ensures { OnOk result (out.new.items ≡ out.old.items ++ shadow_text by) }
{
    match by {
        Some(number) => {
            put(out, b" shadowed by ")?;
            put_number(out, u64::from(number))
        }
        None => Ok(()),
    }
}
