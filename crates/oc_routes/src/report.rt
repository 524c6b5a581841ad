//! The reports of a node to those who look after it. [`crate::routes`] has a file for each report.

ghost use Rattle.std.specs.Prelude.{◌≡◌, IfOk};
ghost use Rattle.oc_routes.specs.Reports.{content_type_of, report_of, report_response, report_text};
ghost use Rattle.oc_routes.specs.Sights.{sight_of};

use crate::connections::connection_for;
use crate::manner::{Manner, body_for};
use crate::response::Response;
use crate::responses::typed_as;
use crate::routes::Operation;
use crate::routes::metrics::metrics;
use crate::routes::page::page_copy;
use crate::routes::status::status;
use crate::seen::Seen;
use oc_base::{Memory, Text, put};
use oc_http::{ContentType, Framing, write_reply_head};
use std::alloc::Global;

/// A report of a node.
#[derive(Clone, Copy, Debug, PartialEq, Eq)]
pub enum Report {
    /// The state of the node, as JSON.
    Status,
    /// The metrics of the node, for Prometheus.
    Metrics,
    /// The page that shows the status.
    Page,
}

impl Report {
    /// The type of the report's text.
    pub(crate) fn content_type(self) -> ContentType
        ensures { result ≡ content_type_of self }
    {
        match self {
            Report::Status => ContentType::Json,
            Report::Metrics => ContentType::Metrics,
            Report::Page => ContentType::Html,
        }
    }
}

/// The text of the report that an operation asks for; empty where it asks for none.
pub fn report_of(alloc: Global, operation: &Operation, seen: &Seen<'_>) -> Result<Vec<u8>, Memory>
    ensures { IfOk result (λ text. text.items ≡ report_of operation.now (sight_of seen.now)) }
{
    match operation {
        Operation::Report { report, .. } => report_text(alloc, *report, seen),
        _ => Ok(Vec::new(alloc)),
    }
}

/// The text of a report.
fn report_text(alloc: Global, report: Report, seen: &Seen<'_>) -> Result<Vec<u8>, Memory>
    ensures { IfOk result (λ text. text.items ≡ report_text report (sight_of seen.now)) }
{
    match report {
        Report::Status => status(alloc, seen),
        Report::Metrics => metrics(alloc, seen),
        Report::Page => page_copy(alloc),
    }
}

/// The reply to one who asks for a report, whose text this is.
pub(crate) fn report_response(
    alloc: Global,
    report: Report,
    manner: Manner,
    last: bool,
    text: &[u8],
) -> Result<Response, Memory>
    ensures { IfOk result (λ response. response ≡ report_response report manner last text.now) }
{
    let connection = connection_for(last);
    let reply = typed_as(report.content_type(), Vec::new(alloc));
    let framing = Framing::Length(text.len() as u64);
    let mut reported = write_reply_head(alloc, &reply, framing, connection)?;
    put(&mut reported, body_for(manner, text))?;
    Ok(Response {
        text: Text::of(reported),
        content: None,
        connection,
    })
}
