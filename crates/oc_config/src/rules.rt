//! The tables of access rules.

ghost use Rattle.std.specs.Prelude.{◌≡◌, ◌≤◌, [], IfOk, length, vec_len};
ghost use Rattle.toml.specs.View.{view};
ghost use Rattle.oc_config.specs.Values.{GivesBy, section_of, sections_of};
ghost use Rattle.oc_config.specs.AccessRules.{rule_tables_in, rules_from, rule_in, allow_in, prefix_in, method_in, method_of, token_in, token_of};

use crate::config_key::ConfigKey;
use crate::fault::ConfigFault;
use crate::section::Section;
use crate::section_name::Kind;
use crate::values::tables;
use oc_policy::{Action, Demand, MAX_RULES, Prefix, Rule, Token};
use std::alloc::Global;
use toml::Value;

/// The tables of the access rules; none where the configuration has no such key.
pub(crate) fn rule_tables<'a>(
    alloc: Global,
    top: &Section<'a>,
) -> Result<Vec<Section<'a>>, ConfigFault>
    ensures said { GivesBy (λ v. sections_of v.items) result (rule_tables_in (section_of top.now)) }
    ensures count { IfOk result (λ v. vec_len v ≤ MAX_RULES) }
{
    match top.value_at(ConfigKey::Rule) {
        None => Ok(Vec::new(alloc)),
        Some(value) => tables(
            alloc,
            value,
            Kind::Rule,
            0,
            MAX_RULES as u32,
            top.refuses(ConfigKey::Rule),
        ),
    }
}

/// The rules of these tables, in their order.
pub(crate) fn rules(alloc: Global, tables: &[Section<'_>]) -> Result<Vec<Rule>, ConfigFault>
    ensures said { GivesBy (λ v. v.items) result (rules_from [] (sections_of tables.now)) }
    ensures count { IfOk result (λ v. vec_len v ≡ length tables.now) }
{
    let mut rules = Vec::new(alloc);
    for table in tables {
        rules.push(rule(table)?)?;
    }
    Ok(rules)
}

/// The rule of a table.
fn rule(table: &Section<'_>) -> Result<Rule, ConfigFault>
    ensures { result ≡ rule_in (section_of table.now) }
{
    Ok(Rule {
        allow: allow(table)?,
        prefix: prefix(table)?,
        action: method(table)?,
        area: table.area()?,
        token: Demand::of(token(table)?),
    })
}

fn allow(table: &Section<'_>) -> Result<bool, ConfigFault>
    ensures { result ≡ allow_in (section_of table.now) }
{
    let value = table.required(ConfigKey::Allow)?;
    value.as_bool().ok_or(table.refuses(ConfigKey::Allow))
}

fn prefix(table: &Section<'_>) -> Result<Prefix, ConfigFault>
    ensures { result ≡ prefix_in (section_of table.now) }
{
    let fault = table.refuses(ConfigKey::Prefix);
    match table.required(ConfigKey::Prefix)?.as_str() {
        Some(text) => Prefix::parse(text.as_bytes()).map_err(|_| fault),
        None => Err(fault),
    }
}

fn method(table: &Section<'_>) -> Result<Option<Action>, ConfigFault>
    ensures { result ≡ method_in (section_of table.now) }
{
    match table.value_at(ConfigKey::Method) {
        None => Ok(None),
        Some(value) => match action(value) {
            Some(action) => Ok(Some(action)),
            None => Err(table.refuses(ConfigKey::Method)),
        },
    }
}

fn token(table: &Section<'_>) -> Result<Option<Token>, ConfigFault>
    ensures { result ≡ token_in (section_of table.now) }
{
    match table.value_at(ConfigKey::Token) {
        None => Ok(None),
        Some(value) => match token_of(value) {
            Some(token) => Ok(Some(token)),
            None => Err(table.refuses(ConfigKey::Token)),
        },
    }
}

/// The token that a value is.
fn token_of(value: &Value) -> Option<Token>
    ensures { result ≡ token_of (view value.now) }
{
    Token::parse(value.as_str()?.as_bytes()).ok()
}

/// The action that a value names.
fn action(value: &Value) -> Option<Action>
    ensures { result ≡ method_of (view value.now) }
{
    match value.as_str() {
        Some("get") => Some(Action::Get),
        Some("post") => Some(Action::Post),
        _ => None,
    }
}
