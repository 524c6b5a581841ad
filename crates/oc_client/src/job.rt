//! The requests of one publishing.

ghost use Rattle.std.specs.Prelude.{◌≡◌, string_bytes, option_map, IfOk};
ghost use Rattle.oc_client.specs.Addresses.{host_of};
ghost use Rattle.oc_client.specs.PutRequests.{seal_part, from_lines, place_query};
ghost use Rattle.oc_client.specs.Queries.{area_of};
ghost use Rattle.oc_http.specs.Writing.{area_text};

use crate::effort::Doing;
use crate::load::Load;
use crate::publication::Publication;
use crate::query::area;
use crate::requests::{area_text, authorization_line};
use crate::target::Target;
use oc_base::Memory;
use std::alloc::Global;
use url::Url;

/// The target of a publishing, as the texts that its requests have in common.
#[derive(Drop)]
pub(crate) struct Job<'a> {
    pub(crate) alloc: Global,
    pub(crate) plan: Publication,
    pub(crate) target: Target,
    /// The token that each request shows, if any.
    pub(crate) token: Option<&'a str>,
    /// The header lines with the Host and the token.
    lines: String,
    /// The area part of each query, taken from the URL.
    area: String,
    ghost lines_are: { string_bytes lines ≡ from_lines (host_of target) (option_map (λ t. t.now) token) },
    ghost area_is: { string_bytes area ≡ area_text (area_of target.query) },
}

impl<'a> Job<'a> {
    ghost use Rattle.oc_client.specs.Efforts.{request_of};
    ghost use Rattle.oc_client.specs.Jobs.{goal_of};
    ghost use Rattle.oc_client.specs.PutRequests.{request_text, ask_text, publish_text};

    pub(crate) fn new(
        alloc: Global,
        plan: Publication,
        url: Url,
        token: Option<&'a str>,
    ) -> Result<Job<'a>, Memory>
        ensures plan { IfOk result (λ job. job.plan ≡ plan) }
        ensures goal { IfOk result (λ job. goal_of job ≡ record { url = url; token = option_map (λ t. t.now) token.entry }) }
    {
        let area = area_text(alloc, area(url.query()))?;
        let target = Target::new(alloc, url)?;
        let lines = from_lines(alloc, target.host(), token)?;
        Ok(Job {
            alloc,
            plan,
            target,
            token,
            lines,
            area,
        })
    }

    /// The next request of a client with this load.
    pub(crate) fn request(&self, load: &Load, doing: Doing) -> Result<Vec<u8>, Memory>
        ensures { IfOk result (λ text. text.items ≡ request_text (goal_of self.now) (request_of load.now doing)) }
    {
        match doing {
            Doing::Posting { at, .. } => self.write_publish(load, at),
            Doing::Finding | Doing::Checking { .. } => self.write_ask(),
        }
    }

    fn write_ask(&self) -> Result<Vec<u8>, Memory>
        ensures { IfOk result (λ text. text.items ≡ ask_text (goal_of self.now)) }
    {
        let path = self.target.url().path();
        let area = self.area.as_str();
        let lines = self.lines.as_str();
        let text = format!(in self.alloc; "HEAD {path}?here{area} HTTP/1.1\r\n{lines}\r\n")?;
        Ok(text.into_bytes())
    }

    fn write_publish(&self, load: &Load, at: u64) -> Result<Vec<u8>, Memory>
        ensures { IfOk result (λ text. text.items ≡ publish_text (goal_of self.now) at load.now) }
    {
        let path = self.target.url().path();
        let query = self.place_query(load.seals, at)?;
        let lines = self.lines.as_str();
        let count = load.piece.items().len();
        let head = format!(in self.alloc;
            "POST {path}?{query} HTTP/1.1\r\n{lines}Content-Type: application/octet-stream\r\nContent-Length: {count}\r\n\r\n"
        )?;
        let mut text = head.into_bytes();
        text.extend_from_slice(load.piece.items())?;
        Ok(text)
    }

    /// The query of a request that sends bytes or a seal.
    fn place_query(&self, seals: bool, at: u64) -> Result<String, Memory>
        ensures { IfOk result (λ text. string_bytes text ≡ place_query seals at (area_of self.now.target.query)) }
    {
        let seal = seal_part(seals);
        let area = self.area.as_str();
        Ok(format!(in self.alloc; "{seal}at={at}{area}")?)
    }
}

/// The header lines for a Host, and for a token where there is one.
fn from_lines(alloc: Global, host: &str, token: Option<&str>) -> Result<String, Memory>
    ensures { IfOk result (λ text. string_bytes text ≡ from_lines host.now (option_map (λ t. t.now) token.entry)) }
{
    let authorization = authorization_line(alloc, token)?;
    Ok(format!(in alloc; "Host: {host}\r\n{authorization}")?)
}

/// The query part that closes the group.
fn seal_part(seals: bool) -> &'static str
    ensures { result.now ≡ seal_part seals }
{
    if seals { "seal&" } else { "" }
}
