//! The verdict on the bytes of a row, and the access rules of a row.

ghost use Rattle.std.specs.Prelude.{◌≤◌, IfOk, length};
ghost use Rattle.oc_routes.specs.Asks.{IsLawfulVerdict};

use oc_base::NodeId;
use oc_http::HeadReader;
use oc_link::{Arrival, Coming, ConnectionId};
use oc_policy::{Action, Demand, Keyring, MAX_RULES, Prefix, Rule, Token};
use oc_routes::{Terms, Verdict, judge};
use std::alloc::Global;
use test_tools::{Fault, RowFields};

/// The number of nodes.
pub const NODES: u32 = 3;

/// The verdict of the node `me`, with these access rules and without a key, on the whole bytes of a connection: a request of
/// this number, whose body is permitted, and then the end.
pub fn verdict_on(
    alloc: Global,
    me: NodeId,
    rules: &[Rule],
    number: u64,
    bytes: &[u8],
) -> Result<Verdict, Fault>
    requires { length rules.now ≤ MAX_RULES }
    ensures { IfOk result (IsLawfulVerdict 3 me) }
{
    let keys: Option<&Keyring> = None;
    let terms = Terms {
        me,
        nodes: NODES,
        rules,
        keys,
    };
    let arrival = Arrival {
        connection: ConnectionId(7),
        number,
        permitted: true,
        coming: Coming::Ended,
    };
    let mut heads = HeadReader::new(alloc)?;
    Ok(judge(alloc, &mut heads, &terms, arrival, bytes)?)
}

/// The rules in a text, with commas between them, or `-` for none. Each is `allow` or `deny`,
/// `get`, `post` or `any`, a prefix, an area or `any`, and a token if one is required, with colons
/// between them.
pub fn rules_in(alloc: Global, text: &str) -> Result<Vec<Rule>, Fault>
    ensures { IfOk result (λ rules. length rules.items ≤ MAX_RULES) }
{
    let mut rules = Vec::new(alloc);
    let mut left = RowFields::of(if text == "-" { "" } else { text }, ',');
    for _ in 0..MAX_RULES {
        if left.is_empty() {
            break;
        }
        rules.push(rule_in(RowFields::of(left.text(), ':'))?)?;
    }
    Ok(rules)
}

fn rule_in(mut fields: RowFields<'_>) -> Result<Rule, Fault> {
    let allow = match fields.text() {
        "allow" => true,
        "deny" => false,
        _ => return Err(Fault::Field),
    };
    let action = match fields.text() {
        "get" => Some(Action::Get),
        "post" => Some(Action::Post),
        "any" => None,
        _ => return Err(Fault::Field),
    };
    let Ok(prefix) = Prefix::parse(fields.text().as_bytes()) else {
        return Err(Fault::Field);
    };
    let area = match fields.text() {
        "any" => None,
        text => Some(RowFields::of(text, ' ').byte()?),
    };
    let token = demand_in(fields.text())?;
    Ok(Rule {
        allow,
        action,
        prefix,
        area,
        token,
    })
}

fn demand_in(text: &str) -> Result<Demand, Fault> {
    if text.is_empty() {
        return Ok(Demand::nothing());
    }
    match Token::parse(text.as_bytes()) {
        Ok(token) => Ok(Demand::of(Some(token))),
        Err(_) => Err(Fault::Field),
    }
}
