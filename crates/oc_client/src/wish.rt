//! The content that a client wants from servers.

ghost use Rattle.std.specs.Prelude.{◌≡◌, option_map, string_bytes, IfOk};
ghost use Rattle.oc_client.specs.Requests.{from_at, knowledge_at};
ghost use Rattle.oc_client.specs.Wishes.{wish_of, from_of, request_of, whole_request, news_request};

use crate::client_state::ClientState;
use crate::fetch_options::FetchOptions;
use crate::query::knowledge;
use crate::requests::{authorization_line, news_query, query_from};
use oc_base::Memory;
use std::alloc::Global;

/// The content that a client wants.
#[derive(Drop)]
pub(crate) enum Wish<'a> {
    /// The content of a URL, once.
    Whole(&'a FetchOptions<'a>),
    /// The news of a group, for the area that the URL gives.
    News(&'a FetchOptions<'a>, Option<String>),
}

impl<'a> Wish<'a> {
    /// The first byte to ask for at first, if one is given.
    pub(crate) fn from(&self) -> Option<u64>
        ensures { result ≡ from_of (wish_of self.now) }
    {
        match self {
            Wish::Whole(manner) | Wish::News(manner, _) => manner.first_byte(),
        }
    }
}

/// The request of a client in a state.
pub(crate) fn write_request(
    alloc: Global,
    wish: &Wish<'_>,
    state: &ClientState,
) -> Result<Vec<u8>, Memory>
    ensures { IfOk result (λ text. text.items ≡ request_of (wish_of wish.now) state.now) }
{
    match wish {
        Wish::Whole(manner) => write_whole(alloc, manner, state),
        Wish::News(manner, area) => {
            let area = area.as_ref().map(|area| area.as_str());
            write_news(alloc, manner, area, state)
        }
    }
}

/// The request for the content of a URL. The first request may give a first byte; a Location gives
/// its own.
fn write_whole(
    alloc: Global,
    manner: &FetchOptions<'_>,
    state: &ClientState,
) -> Result<Vec<u8>, Memory>
    ensures { IfOk result (λ text. text.items ≡ whole_request manner.now state.now) }
{
    let url = state.target.url();
    let path = url.path();
    let query = query_from(alloc, from_at(state.led, manner.first_byte()), url.query())?;
    let host = state.target.host();
    let authorization = authorization_line(alloc, manner.shown_token())?;
    let text = format!(in alloc;
        "GET {path}{query} HTTP/1.1\r\nHost: {host}\r\n{authorization}\r\n"
    )?;
    Ok(text.into_bytes())
}

/// The request for the news of a group, with the knowledge of the group that a Location gives.
fn write_news(
    alloc: Global,
    manner: &FetchOptions<'_>,
    area: Option<&str>,
    state: &ClientState,
) -> Result<Vec<u8>, Memory>
    ensures { IfOk result (λ text. text.items ≡ news_request manner.now (option_map (λ a. a.now) area.entry) state.now) }
{
    let url = state.target.url();
    let path = url.path();
    let known = knowledge_at(state.led, url.query());
    let query = news_query(alloc, state.start, area, known)?;
    let host = state.target.host();
    let authorization = authorization_line(alloc, manner.shown_token())?;
    let text = format!(in alloc;
        "GET {path}{query} HTTP/1.1\r\nHost: {host}\r\n{authorization}\r\n"
    )?;
    Ok(text.into_bytes())
}

/// The first byte of the next request, unless its URL gives one.
fn from_at(led: bool, from: Option<u64>) -> Option<u64>
    ensures { result ≡ from_at led from }
{
    if led { None } else { from }
}

/// The part of the next request that gives knowledge of the group.
fn knowledge_at(led: bool, query: Option<&str>) -> Option<&str>
    ensures { option_map (λ k. k.now) result ≡ knowledge_at led (option_map (λ q. q.now) query.entry) }
{
    if led { knowledge(query) } else { None }
}
