//! The hint in the query of a GET or HEAD of a group, besides start and area.

ghost use Rattle.std.specs.Prelude.{◌≡◌, ◌≤◌, length, IfOk};
ghost use Rattle.oc_base.specs.declared.limits.TheConstants.{MAX_START as START_LIMIT};
ghost use Rattle.oc_policy.specs.declared.deciding.TheConstants.{MAX_RULES as MOST_RULES};
ghost use Rattle.oc_routes.specs.Hints.{asked_with_hint, hint_for, hint_in, hint_of};
ghost use Rattle.oc_routes.specs.Lawful.{IsAsking};
ghost use Rattle.oc_select.specs.declared.selection.Selection.TheVariants as Selected;
ghost use Rattle.oc_http.specs.Queries.{parts};
ghost use Rattle.oc_routes.specs.Queries.{first_value, has_part};

use crate::{Operation, Refused, first_value, has_part, number_told, route};
use oc_base::MAX_START;
use oc_http::{Head, Method};
use oc_policy::Rule;
use oc_select::Selection;

/// The hint of a client that asks for a group: its knowledge of the group.
#[derive(Clone, Copy, Debug, PartialEq, Eq)]
pub enum Hint {
    /// No knowledge.
    Plain,
    /// The node that is asked is to answer itself.
    Here,
    /// The group is sealed with this many bytes.
    Of(u64),
    /// The group is there.
    Known,
}

/// The operation of a head, its hint, and what it selects of a group's content.
#[derive(Clone, Copy, Debug)]
pub struct Asked {
    pub operation: Operation,
    pub hint: Hint,
    /// All of the content, until a node that holds the group has settled the request.
    pub selection: Selection,
}

/// The operation of the head of a request under these access rules, with the hint of its query, or the first
/// fault: of the method, the path, the query, and then the rule that denies it. Takes no memory.
pub fn route_with_hint(head: &Head, rules: &[Rule]) -> Result<Asked, Refused>
    requires { length rules.now ≤ MOST_RULES }
    ensures said { result ≡ asked_with_hint head.now rules.now }
    ensures lawful { IfOk result IsAsking }
    ensures whole { IfOk result (λ asked. asked.selection ≡ Selected.Whole) }
{
    match route(head, rules) {
        Ok(operation) => match operation {
            Operation::Client { .. } => Ok(Asked {
                operation,
                hint: hint_for(head.method, head.query.items())?,
                selection: Selection::Whole,
            }),
            Operation::Report { .. } => {
                let _hint = hint_for(head.method, head.query.items())?;
                Ok(plain(operation))
            }
            _ => Ok(plain(operation)),
        },
        Err(Refused::Denied { rule, needs_token }) => {
            let _hint = hint_for(head.method, head.query.items())?;
            Err(Refused::Denied { rule, needs_token })
        }
        Err(why) => Err(why),
    }
}

/// This operation, without a hint.
fn plain(operation: Operation) -> Asked
    ensures { result ≡ record { operation = operation; hint = Hint.Plain; selection = Selected.Whole } }
{
    Asked {
        operation,
        hint: Hint::Plain,
        selection: Selection::Whole,
    }
}

/// The hint of a query; only that of a GET or HEAD has one.
fn hint_for(method: Method, query: &[u8]) -> Result<Hint, Refused>
    ensures { result ≡ hint_for method query.now }
{
    match method {
        Method::Get | Method::Head => hint_in(query),
        Method::Post | Method::Other => Ok(Hint::Plain),
    }
}

/// The hint of a query.
fn hint_in(query: &[u8]) -> Result<Hint, Refused>
    ensures { result ≡ hint_in query.now }
{
    let length = number_told(MAX_START, first_value(b"of=", query))?;
    Ok(hint_of(has_part("here", query), has_part("known", query), length))
}

/// The hint of these parts together.
fn hint_of(here: bool, known: bool, length: Option<u64>) -> Hint
    ensures { result ≡ hint_of here known length }
{
    if here {
        return Hint::Here;
    }
    match length {
        Some(length) => Hint::Of(length),
        None if known => Hint::Known,
        None => Hint::Plain,
    }
}
