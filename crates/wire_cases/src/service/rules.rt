//! Access rules as words.

use oc_policy::{Action, MAX_RULES, Rule, shadow};
use test_tools::Fault;

/// Appends each rule with its number, and the number of the rule that shadows it, if any.
pub(crate) fn put_rules(said: &mut String, rules: &[Rule]) -> Result<(), Fault> {
    if rules.len() > MAX_RULES {
        return Err(Fault::Unready);
    }
    for (place, rule) in rules.iter().enumerate() {
        let number = place as u32 + 1;
        put_rule(said, number, rule)?;
        if let Some(earlier) = shadow(rules, number) {
            write!(said, " shadowed by {earlier}")?;
        }
        said.push_str(";")?;
    }
    Ok(())
}

/// Puts a rule with its number.
fn put_rule(said: &mut String, number: u32, rule: &Rule) -> Result<(), Fault> {
    let verb = if rule.allow { "allow" } else { "deny" };
    let method = match rule.action {
        Some(Action::Get) => "get",
        Some(Action::Post) => "post",
        None => "any",
    };
    let prefix = rule.prefix;
    write!(said, " {number} {verb} {method} {prefix} ")?;
    match rule.area {
        Some(area) => write!(said, "{area}")?,
        None => said.push_str("any")?,
    }
    if rule.token.is_some() {
        said.push_str(" token")?;
    }
    Ok(())
}
