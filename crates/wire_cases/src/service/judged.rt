//! The verdict on the bytes that came on a connection.

use crate::service::asking::NODES;
use crate::service::requests::put_refusal;
use oc_base::NodeId;
use oc_http::HeadReader;
use oc_link::{Arrival, Coming, ConnectionId};
use oc_policy::{Key, Keyring};
use oc_routes::{Hint, Operation, Refusal, Report, Request, Terms, Verdict, judge};
use std::alloc::Global;
use test_tools::{Fault, RowFields, spelled_in};

/// Puts the words of a row: the verdict.
pub fn put_words(alloc: Global, given: &str, said: &mut String) -> Result<(), Fault> {
    let (came, rest) = given.split_once(' ').unwrap_or((given, ""));
    let (key, text) = rest.split_once(' ').unwrap_or((rest, ""));
    let arrival = arrival_in(RowFields::of(came, ','))?;
    let keys = keyring_in(alloc, key)?;
    let terms = Terms {
        me: NodeId(1),
        nodes: NODES,
        rules: &[],
        keys: keys.as_ref(),
    };
    let bytes = spelled_in(alloc, text)?;
    let mut heads = HeadReader::new(alloc)?;
    let verdict = judge(alloc, &mut heads, &terms, arrival, &bytes)?;
    put_verdict(alloc, said, &verdict)
}

/// The arrival in a text such as `open,1` or `ended,16,permitted`.
fn arrival_in(mut fields: RowFields<'_>) -> Result<Arrival, Fault> {
    let coming = match fields.text() {
        "open" => Coming::Open,
        "ended" => Coming::Ended,
        "failed" => Coming::Failed,
        _ => return Err(Fault::Field),
    };
    let number = fields.number()?;
    Ok(Arrival {
        connection: ConnectionId(7),
        number,
        permitted: fields.text() == "permitted",
        coming,
    })
}

/// The keys of the network, of which there is one; none for `-`.
fn keyring_in(alloc: Global, text: &str) -> Result<Option<Keyring>, Fault> {
    if text == "-" {
        return Ok(None);
    }
    match Key::parse(text.as_bytes()) {
        Some(key) => Ok(Some(Keyring {
            key,
            accept: Vec::new(alloc),
        })),
        None => Err(Fault::Field),
    }
}

fn put_verdict(alloc: Global, said: &mut String, verdict: &Verdict) -> Result<(), Fault> {
    match verdict {
        Verdict::Wait => Ok(said.push_str("wait")?),
        Verdict::Leave => Ok(said.push_str("leave")?),
        Verdict::Permit => Ok(said.push_str("permit")?),
        Verdict::Refuse(refusal) => put_refused(alloc, said, *refusal),
        Verdict::Ask(request) => put_request(said, request),
    }
}

/// Puts the line and the reply of a refused request, and before them the number of its bytes where its connection is kept.
fn put_refused(alloc: Global, said: &mut String, refusal: Refusal) -> Result<(), Fault> {
    if let Some(count) = refusal.kept {
        write!(said, "{count} ")?;
    }
    put_refusal(alloc, said, refusal)
}

/// Appends the length of a request in bytes, its meaning, and its other parts.
fn put_request(said: &mut String, request: &Request) -> Result<(), Fault> {
    let count = request.count;
    let asks = word_of(&request.asked.operation);
    write!(said, "{count} {asks}")?;
    put_hint(said, request.asked.hint)?;
    if request.last {
        said.push_str(" last")?;
    }
    Ok(())
}

fn word_of(operation: &Operation) -> &'static str {
    match operation {
        Operation::Message => "message",
        Operation::Publish { .. } => "publish",
        Operation::Seal { .. } => "seal",
        Operation::Client { .. } => "client",
        Operation::Probe { .. } => "probe",
        Operation::Report { report, .. } => match report {
            Report::Status => "status",
            Report::Metrics => "metrics",
            Report::Page => "page",
        },
    }
}

fn put_hint(said: &mut String, hint: Hint) -> Result<(), Fault> {
    match hint {
        Hint::Plain => Ok(()),
        Hint::Here => Ok(said.push_str(" here")?),
        Hint::Known => Ok(said.push_str(" known")?),
        Hint::Of(length) => Ok(write!(said, " of {length}")?),
    }
}
