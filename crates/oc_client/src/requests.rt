//! The parts of requests.

ghost use Rattle.std.specs.Prelude.{◌≡◌, string_bytes, option_map, IfOk};
ghost use Rattle.oc_http.specs.Writing.{area_text, query_text};
ghost use Rattle.oc_client.specs.Requests.{authorization_line, more_text, query_from, news_query};

use oc_base::Memory;
use std::alloc::Global;

/// The line that shows a token, if there is one.
pub(crate) fn authorization_line(alloc: Global, token: Option<&str>) -> Result<String, Memory>
    ensures { IfOk result (λ line. string_bytes line ≡ authorization_line (option_map (λ t. t.now) token.entry)) }
{
    match token {
        Some(token) => Ok(format!(in alloc; "Authorization: Bearer {token}\r\n")?),
        None => Ok(String::new(alloc)),
    }
}

/// `?` and the query of a request for a content, with the first byte to ask for where one is given.
pub(crate) fn query_from(
    alloc: Global,
    from: Option<u64>,
    query: Option<&str>,
) -> Result<String, Memory>
    ensures { IfOk result (λ text. string_bytes text ≡ query_from from (option_map (λ q. q.now) query.entry)) }
{
    match from {
        Some(from) => {
            let more = more_text(alloc, query)?;
            Ok(format!(in alloc; "?start={from}{more}")?)
        }
        None => query_text(alloc, query),
    }
}

/// `?` and the query of a request for the news of a group.
pub(crate) fn news_query(
    alloc: Global,
    start: u64,
    area: Option<&str>,
    knowledge: Option<&str>,
) -> Result<String, Memory>
    ensures { IfOk result (λ text. string_bytes text
        ≡ news_query start (option_map (λ a. a.now) area.entry) (option_map (λ k. k.now) knowledge.entry)) }
{
    let area = area_text(alloc, area)?;
    let more = more_text(alloc, knowledge)?;
    Ok(format!(in alloc; "?start={start}&follow{area}{more}")?)
}

/// `?` and a query, where there is one.
fn query_text(alloc: Global, query: Option<&str>) -> Result<String, Memory>
    ensures { IfOk result (λ text. string_bytes text ≡ query_text (option_map (λ q. q.now) query.entry)) }
{
    match query {
        Some(query) => Ok(format!(in alloc; "?{query}")?),
        None => Ok(String::new(alloc)),
    }
}

/// `&area=` and an area, where there is one.
pub(crate) fn area_text(alloc: Global, area: Option<&str>) -> Result<String, Memory>
    ensures { IfOk result (λ text. string_bytes text ≡ area_text (option_map (λ a. a.now) area.entry)) }
{
    match area {
        Some(area) => Ok(format!(in alloc; "&area={area}")?),
        None => Ok(String::new(alloc)),
    }
}

/// `&` and more of a query, where there is more.
fn more_text(alloc: Global, more: Option<&str>) -> Result<String, Memory>
    ensures { IfOk result (λ text. string_bytes text ≡ more_text (option_map (λ m. m.now) more.entry)) }
{
    match more {
        Some(more) => Ok(format!(in alloc; "&{more}")?),
        None => Ok(String::new(alloc)),
    }
}
