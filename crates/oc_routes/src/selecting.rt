//! What a request selects of the content of a group, at a node that holds the group so.

ghost use Rattle.std.specs.Prelude.{◌≡◌, ℕ, IfOk};
ghost use Rattle.oc_routes.specs.Asks.{IsLawfulAsk};
ghost use Rattle.oc_select.specs.Selecting.{selection};
ghost use Rattle.oc_select.specs.declared.selection.Selection.TheVariants.{Whole};
ghost use Rattle.oc_routes.specs.Selections.{IsSelection, client_selection, content_here, content_of, has_start, input_by, is_get, is_past, line_of, selection_of, selectors_for, settled, with_selection, would_give};

use crate::hint::Hint;
use crate::holding::Holding;
use crate::showing::{as_shown, here_answer};
use crate::verdict::Request;
use crate::{Asked, Manner, Operation, first_value, has_part};
use oc_base::Memory;
use oc_http::{Head, Method};
use oc_model::{Answer, Input};
use oc_select::{
    Content, RequestLine, Selection, Selectors, Source, a_part_is_within_its_content, select,
};
use std::alloc::Global;

/// What a head tells besides its fields of whether its Range field counts.
pub(crate) fn line_of(head: &Head) -> RequestLine
    ensures { result ≡ line_of head.now }
{
    RequestLine {
        is_get: is_get(head.method),
        has_start: has_start(head.query.items()),
    }
}

fn is_get(method: Method) -> bool
    ensures { result ≡ is_get method }
{
    method == Method::Get
}

/// Whether a query has a part that is `start` or begins with `start=`.
fn has_start(query: &[u8]) -> bool
    ensures { result ≡ has_start query.now }
{
    has_part("start", query) || first_value(b"start=", query).is_some()
}

/// The fields by which a request selects a content: those of a GET or HEAD of a group that does not follow it.
pub(crate) fn selectors_for(alloc: Global, operation: &Operation, selectors: Selectors) -> Selectors
    ensures { result ≡ selectors_for operation.now selectors }
{
    match operation {
        Operation::Client {
            manner: Manner::Once | Manner::HeadAlone,
            ..
        } => selectors,
        _ => Selectors::none(alloc),
    }
}

/// The request as a node answers it that holds its group so: with what it selects of the content, and without its input
/// where a condition answers it (RFC 9110, section 13.2.1).
pub fn settled(alloc: Global, request: Request, holding: Holding) -> Result<Request, Memory>
    ensures settled { IfOk result (λ to_answer. to_answer ≡ settled request holding) }
    ensures lawful { IfOk result (λ to_answer. (nodes me : ℕ) → IsLawfulAsk nodes me request → request.asked.selection ≡ Whole
        → IsLawfulAsk nodes me to_answer) }
{
    let selection = selection_of(alloc, &request, holding)?;
    Ok(with_selection(request, selection))
}

/// A request with this selection.
fn with_selection(request: Request, selection: Selection) -> Request
    ensures { result ≡ with_selection request selection }
{
    Request {
        count: request.count,
        asked: Asked {
            selection,
            ..request.asked
        },
        line: request.line,
        selectors: request.selectors,
        input: input_by(selection, request.input),
        last: request.last,
    }
}

/// The input of a request with this selection: none where a condition answers it.
fn input_by(selection: Selection, input: Option<Input>) -> Option<Input>
    ensures { result ≡ input_by selection input }
{
    match selection {
        Selection::NotModified | Selection::PreconditionFailed => None,
        Selection::Whole | Selection::Part { .. } | Selection::Unsatisfiable => input,
    }
}

/// What a request selects at a node that holds its group so.
fn selection_of(alloc: Global, request: &Request, holding: Holding) -> Result<Selection, Memory>
    ensures selection { IfOk result (λ s. s ≡ selection_of request.now.asked.operation request.now.asked.hint holding request.now.line request.now.selectors) }
    ensures lawful { IfOk result IsSelection }
{
    match &request.asked.operation {
        Operation::Client {
            start,
            manner: Manner::Once | Manner::HeadAlone,
            ..
        } => client_selection(alloc, request, *start, holding),
        _ => Ok(Selection::Whole),
    }
}

/// What a client selects that asks for a group from this start on.
fn client_selection(
    alloc: Global,
    request: &Request,
    start: u64,
    holding: Holding,
) -> Result<Selection, Memory>
    ensures selection { IfOk result (λ s. s ≡ client_selection request.now.asked.hint holding start request.now.line request.now.selectors) }
    ensures lawful { IfOk result IsSelection }
{
    let hint = request.asked.hint;
    if !would_give(hint, holding, start) {
        return Ok(Selection::Whole);
    }
    let shown = as_shown(hint, here_answer(holding, start), holding, start);
    selected(
        alloc,
        shown.length,
        shown.sealed,
        request.line,
        &request.selectors,
    )
}

/// What a request selects of a group of this length.
fn selected(
    alloc: Global,
    length: u64,
    sealed: bool,
    line: RequestLine,
    selectors: &Selectors,
) -> Result<Selection, Memory>
    ensures selection { IfOk result (λ s. s ≡ selection (content_of length sealed) line selectors.now) }
    ensures lawful { IfOk result IsSelection }
{
    a_part_is_within_its_content();
    select(alloc, &content_of(length, sealed), line, selectors)
}

/// Whether the node itself would give content to a client.
fn would_give(hint: Hint, holding: Holding, start: u64) -> bool
    ensures { result ≡ would_give hint holding start }
{
    let shown = as_shown(hint, here_answer(holding, start), holding, start);
    matches!(shown.answer, Answer::Serve(_)) && !is_past(start, holding)
}

/// Whether the start is past the end of a group that is sealed here; the end itself is not past it.
pub(crate) fn is_past(start: u64, holding: Holding) -> bool
    ensures { result ≡ is_past start holding }
{
    holding.sealed && holding.held < start
}

/// The content that a client is shown by the node itself.
pub(crate) fn content_here(hint: Hint, holding: Holding, start: u64) -> Content
    ensures { result ≡ content_here hint holding start }
{
    let shown = as_shown(hint, here_answer(holding, start), holding, start);
    content_of(shown.length, shown.sealed)
}

/// The content of a group with this length, whose length is open where it is not sealed.
pub(crate) fn content_of(length: u64, sealed: bool) -> Content
    ensures { result ≡ content_of length sealed }
{
    Content {
        length,
        source: Source::Group { is_open: !sealed },
    }
}
