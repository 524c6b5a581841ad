//! The table of routes: the operation at each path, the access rules that speak of it, the input that results, and the
//! reply. Each route has a file of its own, and a row in each of the functions here.
//!
//! | path | method | file | operation | input | reply |
//! | --- | --- | --- | --- | --- | --- |
//! | `/!overcast` | POST | `message` | `Message` | `Delivered` | the message that goes back, or 204 |
//! | `/!probe` | GET, HEAD | `probe` | `Probe` | none | `PROBE_BYTES` bytes |
//! | `/-/status`, `/!status` | GET, HEAD | `status` | `Report` | none | the state of the node, as JSON |
//! | `/-/metrics`, `/!metrics` | GET, HEAD | `metrics` | `Report` | none | its metrics, for Prometheus |
//! | `/-/`, `/!` | GET, HEAD | `page` | `Report` | none | the page that draws the status |
//! | any other that is `/-` or begins with `/-/` | all | | | | 404 |
//! | the name of a group | GET, HEAD | `group` | `Client` | `Client`; none where a condition answers | the group's bytes, or a redirection |
//! | the name of a group | POST | `publish` | `Publish` | `Publish` | a status |
//! | the name of a group | POST with `seal` | `seal` | `Seal` | `Seal` | a status |
//!
//! A path is looked up in [`resource_at`] alone, once a request: another name of a route is another row there. A POST of a
//! group may name by `at=N` the length that its group has to have; the layer above looks whether it has this length.
//!
//! The laws look at no single route: that of tokens rests on the names of which the rules speak ([`name_of`]), those of MACs,
//! of failures and of plain lines on the input that a body gives (`proofs/Bodies`), which computes for a route without one.

ghost use Rattle.std.specs.Prelude.{◌≡◌, ◌≤◌, length, IfOk, IfSome, map, option_map, string_bytes};
ghost use Rattle.std.specs.Option.{ForSome};
ghost use Rattle.oc_base.specs.Names.{IsGroupName};
ghost use Rattle.oc_base.specs.declared.limits.TheConstants.{MAX_AREA as AREA_LIMIT, MAX_START as START_LIMIT, MAX_PUBLISH_BYTES};
ghost use Rattle.oc_model.specs.Lawful.{IsInput};
ghost use Rattle.oc_routes.specs.Inputs.{HasLine};
ghost use Rattle.oc_routes.specs.Lawful.{IsAsked, IsAsking, IsResource};
ghost use Rattle.oc_routes.specs.Routes.{Gives, action_of, asked, asked_at, asked_of_group, group_in, input_asked, is_conditional, is_own, name_of, needs_token, permitted, permitted_by, report_name, resource_at, resource_in, resource_named, response_for, would_allow};
ghost use Rattle.oc_wire.specs.Spelling.{HasSpelling};

pub(crate) mod group;
pub(crate) mod message;
pub(crate) mod metrics;
pub(crate) mod page;
pub(crate) mod probe;
pub(crate) mod publish;
pub(crate) mod seal;
pub(crate) mod status;

use crate::addresses::source_in;
use crate::answered::Answered;
use crate::directory::Directory;
use crate::fault::RouteFault;
use crate::hint::Asked;
use crate::manner::{Manner, manner_of};
use crate::query::{Query, query_in};
use crate::refused::Refused;
use crate::report::{Report, report_response};
use crate::response::Response;
use crate::showing::{Client, to_client};
use message::{delivered, to_message};
use metrics::{METRICS_NAME, METRICS_PATH};
use oc_base::words::is;
use oc_base::{Bytes, GroupName, Memory, NodeId};
use oc_http::{Head, MESSAGE_PATH, Method, PROBE_PATH, Text};
use oc_model::Input;
use oc_policy::{Action, Decision, Demand, MAX_RULES, Rule, decide};
use page::{PAGE_NAME, PAGE_PATH};
use probe::to_probe;
use publish::to_publish;
use seal::to_seal;
use status::{STATUS_NAME, STATUS_PATH};
use std::alloc::Global;

/// The resource that a path names.
#[derive(Clone, Copy, Debug)]
pub(crate) enum Resource {
    Messages,
    Probe,
    Report(Report),
    Group(GroupName),
}

/// The operation that a request asks of a node.
#[derive(Clone, Copy, Debug)]
pub enum Operation {
    /// The body is a message to take.
    Message,
    /// The body goes at the end of a group, where the group has the length `at`, if one is given.
    Publish {
        group: GroupName,
        at: Option<u64>,
    },
    /// A group is to be closed, where it has the length `at`, if one is given.
    Seal {
        group: GroupName,
        at: Option<u64>,
    },
    /// A group is to be given from byte `start` on, to a client in this area.
    Client {
        group: GroupName,
        area: u8,
        start: u64,
        manner: Manner,
    },
    /// The content by which rates are measured is to be given.
    Probe {
        manner: Manner,
    },
    /// A report of the node is to be given.
    Report {
        report: Report,
        manner: Manner,
    },
}

/// The operation of the head of a request under these access rules, or the first fault: of the method, the
/// path, the query, and then the rule that denies it. Takes no memory.
pub fn route(head: &Head, rules: &[Rule]) -> Result<Operation, Refused>
    requires { length rules.now ≤ MAX_RULES }
    ensures said { result ≡ asked head.now rules.now }
    ensures lawful { IfOk result IsAsked }
{
    let action = action_of(head.method)?;
    let resource = resource_named(action, &head.path)?;
    let query = query_in(head.query.items(), is_conditional(action, &resource))?;
    permit(
        rules,
        action,
        &resource,
        query.area,
        !head.has_authorization,
        shown_by(&head.authorization),
    )?;
    Ok(asked_at(head.method, head.minor, &query, &resource))
}

/// The action of a method.
pub(crate) fn action_of(method: Method) -> Result<Action, Refused>
    ensures { result ≡ action_of method }
{
    match method {
        Method::Get | Method::Head => Ok(Action::Get),
        Method::Post => Ok(Action::Post),
        Method::Other => Err(Refused::Method),
    }
}

/// The resource of the path that was asked for; refused where an escape is broken.
fn resource_named(action: Action, path: &Option<Text>) -> Result<Resource, Refused>
    ensures said { result ≡ resource_named action path.now }
    ensures lawful { IfOk result IsResource }
{
    match path {
        Some(path) => resource_in(action, path.items()),
        None => Err(Refused::Path),
    }
}

/// The resource of a path, where it has a route for this action: a row of the table, or else a group, where the path is not
/// the program's own.
fn resource_in(action: Action, path: &[u8]) -> Result<Resource, Refused>
    ensures said { result ≡ resource_in action path.now }
    ensures lawful { IfOk result IsResource }
{
    match resource_at(action, path) {
        Some(resource) => Ok(resource),
        None if is_own(path) => Err(Refused::Path),
        None => group_in(path),
    }
}

/// The rows of the table: the resources that are read, and those that are posted, at a path that names no group.
fn resource_at(action: Action, path: &[u8]) -> Option<Resource>
    ensures said { result ≡ resource_at action path.now }
    ensures lawful { IfSome result IsResource }
{
    match action {
        Action::Get if is(path, PROBE_PATH) => Some(Resource::Probe),
        Action::Get if is(path, STATUS_PATH) => Some(Resource::Report(Report::Status)),
        Action::Get if is(path, STATUS_NAME) => Some(Resource::Report(Report::Status)),
        Action::Get if is(path, METRICS_PATH) => Some(Resource::Report(Report::Metrics)),
        Action::Get if is(path, METRICS_NAME) => Some(Resource::Report(Report::Metrics)),
        Action::Get if is(path, PAGE_PATH) => Some(Resource::Report(Report::Page)),
        Action::Get if is(path, PAGE_NAME) => Some(Resource::Report(Report::Page)),
        Action::Post if is(path, MESSAGE_PATH) => Some(Resource::Messages),
        _ => None,
    }
}

/// Whether a path is the program's, and no group's: `/-`, and all that begins with `/-/`.
fn is_own(path: &[u8]) -> bool
    ensures { result ≡ is_own path.now }
{
    is(path, "/-") || path.starts_with(b"/-/")
}

/// The group that a path names.
#[tactic(auto, using(crate::proofs::Names::parsed_is_name))]
fn group_in(path: &[u8]) -> Result<Resource, Refused>
    ensures said { result ≡ group_in path.now }
    ensures lawful { IfOk result IsResource }
{
    match GroupName::parse(path) {
        Ok(group) => Ok(Resource::Group(group)),
        Err(_) => Err(Refused::Path),
    }
}

/// Whether a condition counts: in a POST of a group.
fn is_conditional(action: Action, resource: &Resource) -> bool
    ensures { result ≡ is_conditional action resource.now }
{
    matches!((action, resource), (Action::Post, Resource::Group(_)))
}

/// Refuses a request that the rules deny. `shown` is the text in its only Authorization field, and `bare` says that the
/// request has no such field.
fn permit(
    rules: &[Rule],
    action: Action,
    resource: &Resource,
    area: u8,
    bare: bool,
    shown: Option<&[u8]>,
) -> Result<(), Refused>
    requires { length rules.now ≤ MAX_RULES }
    ensures { result ≡ permitted rules.now action resource.now area bare (option_map (λ s. s.now) shown.entry) }
{
    let Some(name) = name_of(resource) else {
        return Ok(());
    };
    match decide(rules, action, Some(&name), area, shown) {
        Decision::Allowed => Ok(()),
        Decision::Denied(rule) => Err(Refused::Denied {
            rule,
            needs_token: bare && needs_token(rules, action, &name, area, rule),
        }),
    }
}

/// The name by which the access rules speak of a resource; none where it is permitted to all.
fn name_of(resource: &Resource) -> Option<GroupName>
    ensures { result ≡ name_of resource.now }
{
    match resource {
        Resource::Group(group) => Some(*group),
        Resource::Report(report) => Some(report_name(*report)),
        _ => None,
    }
}

/// The name by which the access rules speak of a report, as of a group. That of the page is `/-`, which lies within the
/// same prefixes as `/-/`.
fn report_name(report: Report) -> GroupName
    ensures { result ≡ report_name report }
{
    let name: &[u8] = match report {
        Report::Status => b"/-/status",
        Report::Metrics => b"/-/metrics",
        Report::Page => b"/-",
    };
    match GroupName::parse(name) {
        Ok(name) => name,
        Err(_) => unreachable!(),
    }
}

/// Whether one of the rules before the one of this number would allow, with its token, the action that this one denies.
fn needs_token(rules: &[Rule], action: Action, name: &GroupName, area: u8, number: u32) -> bool
    requires { length rules.now ≤ MAX_RULES }
    ensures { result ≡ needs_token rules.now action name.now area number }
{
    rules
        .iter()
        .take((number as usize).saturating_sub(1))
        .any(|rule| would_allow(action, name, area, rule))
}

/// Whether a rule allows, and would match this action if its token was shown.
fn would_allow(action: Action, name: &GroupName, area: u8, rule: &Rule) -> bool
    ensures { result ≡ would_allow action name.now area rule.now }
{
    let asking_nothing = Rule {
        token: Demand::nothing(),
        ..*rule
    };
    rule.allow && asking_nothing.matches(action, Some(name), area, None)
}

/// The text that a request shows: the value of its Authorization field, where there is just one.
fn shown_by(authorization: &Option<Text>) -> Option<&[u8]>
    ensures { option_map (λ s. s.now) result ≡ authorization.now }
{
    match authorization {
        Some(value) => Some(value.items()),
        None => None,
    }
}

/// The operation on a resource.
fn asked_at(method: Method, minor: u8, query: &Query, resource: &Resource) -> Operation
    requires resource { IsResource resource.now }
    requires start { query.now.start ≤ START_LIMIT }
    requires area { query.now.area ≤ AREA_LIMIT }
    ensures said { result ≡ asked_at method minor query.now resource.now }
    ensures lawful { IsAsked result }
{
    match resource {
        Resource::Messages => Operation::Message,
        Resource::Probe => Operation::Probe {
            manner: manner_of(method, minor, query.follow),
        },
        Resource::Report(report) => Operation::Report {
            report: *report,
            manner: manner_of(method, minor, query.follow),
        },
        Resource::Group(group) => asked_of_group(method, minor, query, group),
    }
}

/// The operation on a group.
fn asked_of_group(method: Method, minor: u8, query: &Query, group: &GroupName) -> Operation
    requires group { IsGroupName group.now }
    requires start { query.now.start ≤ START_LIMIT }
    requires area { query.now.area ≤ AREA_LIMIT }
    ensures said { result ≡ asked_of_group method minor query.now group.now }
    ensures lawful { IsAsked result }
{
    let group = *group;
    match method {
        Method::Post if query.seal => Operation::Seal {
            group,
            at: query.at,
        },
        Method::Post => Operation::Publish {
            group,
            at: query.at,
        },
        _ => Operation::Client {
            group,
            area: query.area,
            start: query.start,
            manner: manner_of(method, minor, query.follow),
        },
    }
}

/// The input of the node `me`, one of `nodes` nodes, that results from the operation and the body of the
/// request; a probe and a report give none. Refused for a body that is no message to this node, and for a body of
/// a request to seal.
pub fn input_of(
    alloc: Global,
    operation: &Operation,
    body: Vec<u8>,
    me: NodeId,
    nodes: u32,
) -> Result<Option<Input>, RouteFault>
    requires asks { IsAsked operation.now }
    requires body { length body.items ≤ MAX_PUBLISH_BYTES }
    ensures said { Gives result (input_asked nodes me operation.now body.items) }

    // The input is one of this node, and has a line.
    ensures lawful { IfOk result (λ input. IfSome input (IsInput nodes me)) }
    ensures line { IfOk result (λ input. IfSome input HasLine) }
{
    match operation {
        Operation::Message => delivered(alloc, &body, me, nodes),
        Operation::Publish { group, .. } => Ok(Some(Input::Publish {
            group: *group,
            bytes: Bytes::of(body),
        })),
        Operation::Seal { .. } if !body.is_empty() => Err(RouteFault::Refused(Refused::Body)),
        Operation::Seal { group, .. } => Ok(Some(Input::Seal { group: *group })),
        Operation::Client {
            group,
            area,
            start,
            ..
        } => Ok(Some(Input::Client {
            area: *area,
            start: *start,
            group: *group,
        })),
        Operation::Probe { .. } | Operation::Report { .. } => Ok(None),
    }
}

/// The answer to a request; `last` says that it is the last of its connection whatever it asks.
pub fn respond(
    alloc: Global,
    asked: Asked,
    last: bool,
    answered: &Answered<'_>,
    network: &Directory<'_>,
) -> Result<Response, Memory>
    requires asks { IsAsking asked }
    requires back { ForSome (option_map (λ m. m.now) answered.now.back) (λ m. HasSpelling m.body) }
    ensures { IfOk result (λ response. response
        ≡ response_for asked last answered.now.answer (option_map (λ m. m.now) answered.now.back) answered.now.holding
        (map (option_map string_bytes) network.now.addresses.now) (option_map (λ k. k.now) network.now.key) answered.now.report.now) }
{
    match &asked.operation {
        Operation::Message => to_message(alloc, answered.back, network.key, last),
        Operation::Publish { group, .. } => to_publish(
            alloc,
            answered.answer,
            source_in(network.addresses),
            group,
            last,
        ),
        Operation::Seal { group, .. } => to_seal(
            alloc,
            answered.answer,
            source_in(network.addresses),
            group,
            last,
        ),
        Operation::Client {
            group,
            start,
            manner,
            ..
        } => {
            let client = Client {
                group: *group,
                start: *start,
                manner: *manner,
                hint: asked.hint,
                selection: asked.selection,
                last,
            };
            to_client(alloc, &client, answered, network.addresses)
        }
        Operation::Probe { manner } => to_probe(alloc, *manner, last),
        Operation::Report { report, manner } => {
            report_response(alloc, *report, *manner, last, answered.report)
        }
    }
}
