//! A POST of a group with a part `seal` in its query, and without a body: the group is closed.

ghost use Rattle.std.specs.Prelude.{◌≡◌, IfOk};
ghost use Rattle.oc_http.specs.Writing.{HasPhrase};
ghost use Rattle.oc_routes.specs.Seal.{seal_response, seal_status};

use crate::reasons::seal_line;
use crate::response::Response;
use crate::responses::{status_alone, told};
use oc_base::{GroupName, Memory};
use oc_model::Answer;
use std::alloc::Global;

/// The reply to a seal, by the answer of its step; `source` is the address of the source.
pub(super) fn to_seal(
    alloc: Global,
    answer: Answer,
    source: &str,
    group: &GroupName,
    last: bool,
) -> Result<Response, Memory>
    ensures { IfOk result (λ response. response ≡ seal_response answer source.now group.now last) }
{
    let status = seal_status(answer);
    if status == 200 {
        return status_alone(alloc, 200, last);
    }
    told(
        alloc,
        status,
        seal_line(alloc, answer, source, group)?,
        last,
    )
}

/// The status of a reply to a seal.
fn seal_status(answer: Answer) -> u16
    ensures status { result ≡ seal_status answer }
    ensures phrase { HasPhrase result }
{
    match answer {
        Answer::Ok | Answer::Ignored => 200,
        Answer::NoGroup => 404,
        _ => 403,
    }
}
