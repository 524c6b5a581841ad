//! The answer that a client is shown by its hint.

ghost use Rattle.std.specs.Prelude.{◌≡◌, ◌++◌, IfOk, OnOk, map, option_map, string_bytes};
ghost use Rattle.oc_routes.specs.Group.{chosen, given_response, group_response, here_response, selection_here, sent_response, served_or_past, shown_response};
ghost use Rattle.oc_routes.specs.Selections.{IsSelection};
ghost use Rattle.oc_routes.specs.Shown.{here_answer, known_shown, location_of, of_shown, follow_text, shown, shown_as, start_text, told_text};

use crate::hint::Hint;
use crate::holding::Holding;
use crate::routes::group::{
    known, no_group, not_met, nowhere, out_of_range, part_served, past, sent_to, served,
};
use crate::selecting::{content_here, content_of, is_past};
use crate::{Answered, Manner, Response, address_of};
use oc_base::{GroupName, Memory, put, put_with_number};
use oc_http::put_path;
use oc_model::Answer;
use oc_select::{Content, Selection};
use std::alloc::Global;

/// A client that asks for a group, with its hint, and what it selects of the content.
#[derive(Clone, Copy, Debug)]
pub(crate) struct Client {
    pub(crate) group: GroupName,
    pub(crate) start: u64,
    pub(crate) manner: Manner,
    pub(crate) hint: Hint,
    pub(crate) selection: Selection,
    /// Whether its request is the last of its connection whatever it asks.
    pub(crate) last: bool,
}

/// An answer, whether its group is sealed, and the group's length, as a client is shown them.
#[derive(Clone, Copy, Debug)]
pub(crate) struct Shown {
    pub answer: Answer,
    pub sealed: bool,
    pub length: u64,
}

/// The answer to a client, where the addresses of the nodes are these.
pub(crate) fn to_client(
    alloc: Global,
    client: &Client,
    answered: &Answered<'_>,
    addresses: &[Option<String>],
) -> Result<Response, Memory>
    requires { IsSelection client.now.selection }
    ensures { IfOk result (λ response. response
        ≡ group_response client.now answered.now.answer answered.now.holding (map (option_map string_bytes) addresses.now)) }
{
    let holding = answered.holding;
    match client.selection {
        Selection::NotModified => {
            let content = content_here(client.hint, holding, client.start);
            known(alloc, &content, client.last)
        }
        Selection::PreconditionFailed => not_met(alloc, client.manner, client.last),
        Selection::Whole | Selection::Part { .. } | Selection::Unsatisfiable => {
            let shown = as_shown(client.hint, answered.answer, holding, client.start);
            as_seen(alloc, client, shown, holding, addresses)
        }
    }
}

/// The answer to a client that is shown this.
fn as_seen(
    alloc: Global,
    client: &Client,
    shown: Shown,
    holding: Holding,
    addresses: &[Option<String>],
) -> Result<Response, Memory>
    requires { IsSelection client.now.selection }
    ensures { IfOk result (λ response. response
        ≡ shown_response client.now shown holding (map (option_map string_bytes) addresses.now)) }
{
    let Shown { answer, .. } = shown;
    match answer {
        Answer::Redirect(node) => sent_on(alloc, client, holding, address_of(addresses, node)),
        _ => given(alloc, client, shown, holding),
    }
}

/// The reply to a client that is not sent elsewhere.
fn given(alloc: Global, client: &Client, shown: Shown, holding: Holding) -> Result<Response, Memory>
    requires { IsSelection client.now.selection }
    ensures { IfOk result (λ response. response ≡ given_response client.now shown.answer shown.sealed shown.length holding) }
{
    match shown.answer {
        Answer::Serve(count) => {
            let content = content_of(shown.length, shown.sealed);
            served_or_past(alloc, client, shown.sealed, count, &content, holding)
        }
        _ => no_group(alloc, client.manner, client.last),
    }
}

/// The bytes that are here, for a client where the node to which it would be sent has no address; one that follows,
/// which would ask without end, is told this.
fn here(alloc: Global, client: &Client, holding: Holding) -> Result<Response, Memory>
    requires { IsSelection client.now.selection }
    ensures { IfOk result (λ response. response ≡ here_response client.now client.now.manner holding) }
{
    match client.manner {
        Manner::Follow => nowhere(alloc, client.manner, client.last),
        Manner::Once | Manner::HeadAlone => {
            let shown = Shown {
                answer: here_answer(holding, client.start),
                sealed: holding.sealed,
                length: holding.held,
            };
            let client = Client {
                selection: selection_here(client.hint, holding.sealed, client.selection),
                ..*client
            };
            given(alloc, &client, shown, holding)
        }
    }
}

/// What a client selects of the bytes that are here: where it told the length of a group that is not sealed, no part.
fn selection_here(hint: Hint, sealed: bool, selection: Selection) -> Selection
    requires { IsSelection selection }
    ensures is { result ≡ selection_here hint sealed selection }
    ensures lawful { IsSelection result }
{
    match hint {
        Hint::Of(_) if !sealed => Selection::Whole,
        _ => selection,
    }
}

/// Sends a client to the node at an address; where that is empty the node has none, and the client is given what is here.
fn sent_on(
    alloc: Global,
    client: &Client,
    holding: Holding,
    address: &str,
) -> Result<Response, Memory>
    requires { IsSelection client.now.selection }
    ensures { IfOk result (λ response. response ≡ sent_response client.now address.now holding) }
{
    if address.is_empty() {
        return here(alloc, client, holding);
    }
    let told = told_text(alloc, client.hint, holding)?;
    let location = location_of(alloc, address, client, &told)?;
    sent_to(alloc, location, client.last)
}

/// Gives a client what it selected of a content, `count` bytes of which it would be given, or tells it that its start is past
/// the end.
fn served_or_past(
    alloc: Global,
    client: &Client,
    sealed: bool,
    count: u64,
    content: &Content,
    holding: Holding,
) -> Result<Response, Memory>
    requires { IsSelection client.now.selection }
    ensures { IfOk result (λ response. response ≡ served_or_past client.now sealed count content.now holding) }
{
    if is_past(client.start, holding) {
        return past(alloc, client.manner, holding.held, client.last);
    }
    chosen(alloc, client, sealed, count, content)
}

/// Gives a client what it selected of a content.
fn chosen(
    alloc: Global,
    client: &Client,
    sealed: bool,
    count: u64,
    content: &Content,
) -> Result<Response, Memory>
    requires { IsSelection client.now.selection }
    ensures { IfOk result (λ response. response ≡ chosen client.now client.now.selection sealed count content.now) }
{
    match client.selection {
        Selection::Part { start, count } => part_served(alloc, client, content, start, count),
        Selection::Unsatisfiable => {
            out_of_range(alloc, client.manner, content.length, client.last)
        }
        Selection::Whole | Selection::NotModified | Selection::PreconditionFailed => {
            served(alloc, client, sealed, count, content)
        }
    }
}

/// The answer of a step, whether the group is sealed, and its length, as the client is shown them.
pub(crate) fn as_shown(hint: Hint, answer: Answer, holding: Holding, start: u64) -> Shown
    ensures { result ≡ shown hint answer holding start }
{
    let Holding { held, sealed, .. } = holding;
    match hint {
        Hint::Plain => shown_as(answer, sealed, held),
        Hint::Here => shown_as(here_answer(holding, start), sealed, held),
        Hint::Of(length) => of_shown(length, answer, sealed, held, start),
        Hint::Known => known_shown(answer, sealed, held),
    }
}

fn shown_as(answer: Answer, sealed: bool, length: u64) -> Shown
    ensures { result ≡ shown_as answer sealed length }
{
    Shown {
        answer,
        sealed,
        length,
    }
}

/// The answer of the node itself.
pub(crate) fn here_answer(holding: Holding, start: u64) -> Answer
    ensures { result ≡ here_answer holding start }
{
    if holding.there {
        Answer::Serve(holding.held.saturating_sub(start))
    } else {
        Answer::NoGroup
    }
}

/// The answer to a client that tells the length of the group: a group that is not sealed here is given up to this
/// length, as one that is sealed.
fn of_shown(length: u64, answer: Answer, sealed: bool, held: u64, start: u64) -> Shown
    ensures { result ≡ of_shown length answer sealed held start }
{
    match answer {
        Answer::Serve(_) | Answer::NoGroup if !sealed => {
            shown_as(Answer::Serve(length.saturating_sub(start)), true, length)
        }
        _ => shown_as(answer, sealed, held),
    }
}

/// A group that is known and not held counts as an open one without a byte.
fn known_shown(answer: Answer, sealed: bool, held: u64) -> Shown
    ensures { result ≡ known_shown answer sealed held }
{
    match answer {
        Answer::NoGroup => shown_as(Answer::Serve(0), false, held),
        _ => shown_as(answer, sealed, held),
    }
}

/// The hint about a group for the next node.
fn told_text(alloc: Global, hint: Hint, holding: Holding) -> Result<Vec<u8>, Memory>
    ensures { IfOk result (λ text. text.items ≡ told_text hint holding) }
{
    let mut text = Vec::new(alloc);
    if holding.sealed {
        put_with_number(&mut text, b"of=", holding.held)?;
        return Ok(text);
    }
    match hint {
        Hint::Of(length) => put_with_number(&mut text, b"of=", length)?,
        _ => put(&mut text, b"known")?,
    }
    Ok(text)
}

/// The URL to which a client is sent.
fn location_of(
    alloc: Global,
    address: &str,
    client: &Client,
    told: &[u8],
) -> Result<Vec<u8>, Memory>
    ensures { IfOk result (λ url. url.items ≡ location_of address.now client.now.group client.now.start told.now client.now.manner) }
{
    let mut place = String::new(alloc);
    place.push_str("http://")?;
    place.push_str(address)?;
    put_path(&mut place, client.group.bytes())?;
    let mut url = place.into_bytes();
    put(&mut url, b"?")?;
    put_start(&mut url, client.start)?;
    put(&mut url, told)?;
    put_follow(&mut url, client.manner)?;
    Ok(url)
}

/// Puts the byte from which a client asks, where it is not the first.
fn put_start(url: &mut Vec<u8>, start: u64) -> Result<(), Memory>
    ensures { OnOk result (url.new.items ≡ url.old.items ++ start_text start) }
{
    if start == 0 {
        return Ok(());
    }
    put_with_number(url, b"start=", start)?;
    put(url, b"&")
}

/// Puts the part `follow`, where the client follows the group.
fn put_follow(url: &mut Vec<u8>, manner: Manner) -> Result<(), Memory>
    ensures { OnOk result (url.new.items ≡ url.old.items ++ follow_text manner) }
{
    match manner {
        Manner::Follow => put(url, b"&follow"),
        Manner::HeadAlone | Manner::Once => Ok(()),
    }
}
