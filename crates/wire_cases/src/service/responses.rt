//! The reply to a request, given the answer of its step.

ghost use Rattle.std.specs.Prelude.{IfOk, option_map};
ghost use Rattle.std.specs.Option.{ForSome};
ghost use Rattle.oc_routes.specs.Lawful.{IsAsking};
ghost use Rattle.oc_wire.specs.Spelling.{HasSpelling};

use crate::service::asking::verdict_on;
use oc_base::NodeId;
use oc_model::{Answer, Message};
use oc_routes::{
    Answered, Directory, Holding, Operation, Persistence, Request, Response, Verdict, respond,
    settled,
};
use oc_wire::decode;
use std::alloc::Global;
use test_tools::{Fault, RowFields, put_spelled, spelled_in};

/// Appends the words of a row: the further use of the connection, the content that is sent, and the
/// text.
pub fn put_words(alloc: Global, given: &str, said: &mut String) -> Result<(), Fault> {
    let (turn, rest) = given.split_once(' ').unwrap_or((given, ""));
    let (reply, text) = rest.split_once(' ').unwrap_or((rest, ""));
    // A `match`, since the check does not find the type of the answer in a `?` that is an argument.
    match turn_in(RowFields::of(turn, ',')) {
        Ok(turn) => put_answered(alloc, turn, reply, text, said),
        Err(fault) => Err(fault),
    }
}

/// How many bytes the node holds of the group that is asked for, where a row says nothing of them.
const HELD: u64 = 9;

/// What comes to a request besides its bytes.
#[derive(Clone, Copy)]
struct Turn {
    /// The number of the request on its connection.
    number: u64,
    answer: Answer,
    sealed: bool,
    /// How many bytes the node holds of the group that is asked for.
    held: u64,
}

/// Puts the words of the row of this turn.
fn put_answered(
    alloc: Global,
    turn: Turn,
    reply: &str,
    text: &str,
    said: &mut String,
) -> Result<(), Fault> {
    let reply = RowFields::of(reply, ' ').bytes(alloc)?;
    let request = request_in(alloc, turn, &spelled_in(alloc, text)?)?;
    put_response(said, &response_of(alloc, &request, turn, &reply)?)
}

/// The request in the bytes of a connection, as a node answers it that holds the group so.
fn request_in(alloc: Global, turn: Turn, bytes: &[u8]) -> Result<Request, Fault>
    ensures { IfOk result (λ request. IsAsking request.asked) }
{
    match verdict_on(alloc, NodeId(1), &[], turn.number, bytes)? {
        Verdict::Ask(request) => Ok(settled(alloc, request, holding_in(turn))?),
        _ => Err(Fault::Unready),
    }
}

/// The holding of a turn.
fn holding_in(turn: Turn) -> Holding {
    Holding {
        there: true,
        held: turn.held,
        sealed: turn.sealed,
    }
}

/// The turn of a text such as `1,serve:3,open` or `1,serve:3,open,5`.
fn turn_in(mut fields: RowFields<'_>) -> Result<Turn, Fault> {
    let number = fields.number()?;
    let answer = answer_in(RowFields::of(fields.text(), ':'))?;
    let sealed = match fields.text() {
        "sealed" => true,
        "open" => false,
        _ => return Err(Fault::Field),
    };
    let held = if fields.is_empty() {
        HELD
    } else {
        fields.number()?
    };
    Ok(Turn {
        number,
        answer,
        sealed,
        held,
    })
}

fn answer_in(mut fields: RowFields<'_>) -> Result<Answer, Fault> {
    match fields.text() {
        "ok" => Ok(Answer::Ok),
        "ignored" => Ok(Answer::Ignored),
        "notsource" => Ok(Answer::NotSource),
        "nogroup" => Ok(Answer::NoGroup),
        "groups" => Ok(Answer::Groups),
        "toolong" => Ok(Answer::TooLong),
        "sealed" => Ok(Answer::Sealed),
        "redirect" => Ok(Answer::Redirect(NodeId(fields.small()?))),
        "serve" => Ok(Answer::Serve(fields.number()?)),
        _ => Err(Fault::Field),
    }
}

/// The response, if the message of these bytes goes back to the sender, or if this is the node's
/// report about itself.
fn response_of(alloc: Global, request: &Request, turn: Turn, back: &[u8]) -> Result<Response, Fault>
    requires { IsAsking request.now.asked }
{
    if back.is_empty() || matches!(request.asked.operation, Operation::Report { .. }) {
        return respond_with(alloc, request, turn, None, back);
    }
    match decode(alloc, back, 3) {
        Ok(message) => respond_with(alloc, request, turn, Some(&message), b""),
        Err(_) => Err(Fault::Field),
    }
}

fn respond_with(
    alloc: Global,
    request: &Request,
    turn: Turn,
    reply: Option<&Message>,
    report: &[u8],
) -> Result<Response, Fault>
    requires asks { IsAsking request.now.asked }
    requires reply { ForSome (option_map (λ m. m.now) reply) (λ m. HasSpelling m.body) }
{
    let addresses = addresses(alloc)?;
    let answered = Answered {
        answer: turn.answer,
        back: reply,
        holding: holding_in(turn),
        report,
    };
    let network = Directory {
        addresses: &addresses,
        names: &[],
        retired: &[],
        key: None,
    };
    Ok(respond(alloc, request.asked, request.last, &answered, &network)?)
}

fn addresses(alloc: Global) -> Result<Vec<Option<String>>, Fault> {
    let mut addresses = Vec::new(alloc);
    addresses.push(Some(format!(in alloc; "127.0.0.1:7001")?))?;
    addresses.push(Some(format!(in alloc; "127.0.0.1:7002")?))?;
    addresses.push(Some(format!(in alloc; "node.example:80")?))?;
    addresses.push(None)?;
    Ok(addresses)
}

fn put_response(said: &mut String, response: &Response) -> Result<(), Fault> {
    said.push_str(match response.connection {
        Persistence::Close => "close ",
        Persistence::Keep => "keep ",
    })?;
    if let Some(content) = response.content {
        let start = content.start;
        let count = content.count;
        let coding = if content.chunked { "chunked" } else { "plain" };
        write!(said, "{start}+{count} {coding} ")?;
    }
    put_text(said, response.text.items())
}

/// Puts a text, with the number of the bytes `x` at its end in their place.
fn put_text(said: &mut String, text: &[u8]) -> Result<(), Fault> {
    let mut front = text;
    for _ in 0..text.len() {
        let [before @ .., b'x'] = front else {
            break;
        };
        front = before;
    }
    put_spelled(said, front)?;
    let count = text.len().saturating_sub(front.len());
    if count > 0 {
        write!(said, " x*{count}")?;
    }
    Ok(())
}
