//! The parts of a URL's query that a client uses.

ghost use Rattle.std.specs.Prelude.{◌≡◌, ◌<◌, ◌==◌, ◌≤◌, [], ◌∷◌, length, IfNone, IfSome, codes, unwrap_or, option_map};
ghost use Rattle.std.specs.List.{slice_split};
ghost use Rattle.std.specs.Str.{byte};
ghost use Rattle.oc_base.specs.declared.limits.TheConstants.{MAX_START as START_LIMIT};
ghost use Rattle.oc_http.specs.Queries.{parts};
ghost use Rattle.oc_client.specs.Queries.{behind, first_value, start_said, first_start, start_of, area_of, is_knowledge, first_knowledge, knowledge_of};

use oc_base::MAX_START;
use oc_base::words::number;

/// The first byte to read, from the query of a URL: the first `start=` that is a number of at most
/// `MAX_START`, and 0 if there is none.
pub(crate) fn start(query: Option<&str>) -> u64
    ensures { result ≡ start_of (option_map (λ q. q.now) query.entry) }
{
    match query {
        Some(query) => first_start(query).unwrap_or(0),
        None => 0,
    }
}

/// The area in the query of a URL, as text.
pub(crate) fn area(query: Option<&str>) -> Option<&str>
    ensures { option_map (λ a. a.now) result ≡ area_of (option_map (λ q. q.now) query.entry) }
{
    first_area(query?)
}

/// The knowledge of a group in the query of a URL, as text: the first part that is `known` or
/// begins with `of=`.
pub(crate) fn knowledge(query: Option<&str>) -> Option<&str>
    ensures { option_map (λ k. k.now) result ≡ knowledge_of (option_map (λ q. q.now) query.entry) }
{
    first_knowledge(query?)
}

fn first_start(query: &str) -> Option<u64>
    ensures { result ≡ first_start (parts query.now) }
{
    let mut rest = query;
    'parts: loop {
        let (part, behind) = first_part(rest);
        if let Some(start) = start_in(part) {
            return Some(start);
        }
        rest = behind?;
    }
}

fn first_area(query: &str) -> Option<&str>
    ensures { option_map (λ a. a.now) result ≡ first_value (codes "area=") (parts query.now) }
{
    let mut rest = query;
    'parts: loop {
        let (part, behind) = first_part(rest);
        if let Some(area) = part.strip_prefix("area=") {
            return Some(area);
        }
        rest = behind?;
    }
}

fn first_knowledge(query: &str) -> Option<&str>
    ensures { option_map (λ k. k.now) result ≡ first_knowledge (parts query.now) }
{
    let mut rest = query;
    'parts: loop {
        let (part, behind) = first_part(rest);
        if is_knowledge(part) {
            return Some(part);
        }
        rest = behind?;
    }
}

/// Whether a part of a query gives knowledge of a group.
fn is_knowledge(part: &str) -> bool
    ensures { result ≡ is_knowledge part.now }
{
    part == "known" || part.strip_prefix("of=").is_some()
}

/// The start in a part of a query.
fn start_in(part: &str) -> Option<u64>
    ensures { result ≡ start_said (behind (codes "start=") part.now) }
{
    let value = part.strip_prefix("start=")?;
    number(value.as_bytes(), 0, MAX_START).ok()
}

/// The first part of a query, and the rest after it; `None` as the rest if there is only one part.
fn first_part(query: &str) -> (&str, Option<&str>)
    ensures last { IfNone result.1 (parts query.now ≡ result.0.now ∷ []) }
    ensures first { IfSome result.1 (λ rest. parts query.now ≡ result.0.now ∷ parts rest.now) }
    ensures shorter { IfSome result.1 (λ rest. length rest.now < length query.now) }
{
    match query.split_once('&') {
        Some((part, rest)) => (part, Some(rest)),
        None => (query, None),
    }
}
