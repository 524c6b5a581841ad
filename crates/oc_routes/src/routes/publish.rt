//! A POST of a group: its body is added at the end of the group.

ghost use Rattle.std.specs.Prelude.{◌≡◌, IfOk};
ghost use Rattle.oc_http.specs.Writing.{HasPhrase};
ghost use Rattle.oc_routes.specs.Publish.{publish_response, publish_status};

use crate::reasons::publish_line;
use crate::response::Response;
use crate::responses::{status_alone, told};
use oc_base::{GroupName, Memory};
use oc_model::Answer;
use std::alloc::Global;

/// The reply to a publish, by the answer of its step; `source` is the address of the source.
pub(super) fn to_publish(
    alloc: Global,
    answer: Answer,
    source: &str,
    group: &GroupName,
    last: bool,
) -> Result<Response, Memory>
    ensures { IfOk result (λ response. response ≡ publish_response answer source.now group.now last) }
{
    let status = publish_status(answer);
    if status == 200 {
        return status_alone(alloc, 200, last);
    }
    told(
        alloc,
        status,
        publish_line(alloc, answer, source, group)?,
        last,
    )
}

/// The status of a reply to a publish.
fn publish_status(answer: Answer) -> u16
    ensures status { result ≡ publish_status answer }
    ensures phrase { HasPhrase result }
{
    match answer {
        Answer::Ok => 200,
        Answer::TooLong => 413,
        _ => 403,
    }
}
