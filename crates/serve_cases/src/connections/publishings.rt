//! Publishings over a link and of an input in memory.

use crate::connections::conversations::link_in;
use crate::connections::texts::{put_text, text_in};
use oc_client::{Aside, Destination, Pause, ProgressLines, Publication, PutEnd, WriteMode, put};
use oc_io::MemSink;
use oc_link::{Dialler, MemDialler, Outgoing};
use std::alloc::Global;
use std::str;
use test_tools::{Fault, RowFields, RowStep};

/// The capacity for the lines, in bytes.
const ROOM: usize = 10_000;

/// An upper bound on the dials of a row.
const MOST_DIALS: u64 = 20;

/// The pauses that were made.
#[derive(Drop)]
struct Pauses(u64);

impl Pause for Pauses {
    fn pause(&mut self) {
        self.0 = self.0.saturating_add(1);
    }
}

/// Appends the words of a row: the end of the publishing, the pauses, the lines, and the requests
/// sent on each dial.
pub fn put_words(alloc: Global, given: &str, said: &mut String) -> Result<(), Fault> {
    let mut fields = RowFields::of(given, ' ');
    let mut call = RowStep::of(fields.text());
    let plan = plan_in(&mut call)?;
    let token = call.fields.text();
    let address = text_in(alloc, fields.text())?;
    let Ok(address) = str::from_utf8(&address) else {
        return Err(Fault::Field);
    };
    let to = Destination {
        address,
        token: if token == "-" { None } else { Some(token) },
    };
    let text = text_in(alloc, fields.text())?;
    let cut = fields.small()?;
    let link_fails = fields.text();
    let mut feed = feed_in(alloc, text, cut, fields.numbers(alloc)?)?;
    let mut input = Outgoing::new(&mut feed);
    let mut link = link_in(alloc, fields.list(), cut, link_fails)?;
    let mut aside = Aside {
        pause: Pauses(0),
        lines: ProgressLines::new(MemSink::new(alloc, ROOM, Vec::new(alloc))?, true),
    };
    let end = put(alloc, &to, plan, &mut input, &mut link, &mut aside);
    if end == PutEnd::Done {
        aside.lines.finish();
    }
    tell(end, &link, aside, said)
}

/// The input of a row: a connection on which this text comes, at most `cut` bytes in one read. The
/// calls with these numbers fail; call 1 makes the connection.
fn feed_in(alloc: Global, text: Vec<u8>, cut: u32, fails: Vec<u64>) -> Result<MemDialler, Fault> {
    let cut = cut as usize;
    if cut < 1 {
        return Err(Fault::Field);
    }
    let mut feed = MemDialler::new(alloc, vec![in alloc; text]?, 0, cut, fails)?;
    match feed.dial("", b"") {
        Ok(()) => Ok(feed),
        Err(_) => Err(Fault::Field),
    }
}

/// The publication of a row: `new`, `append` or `resume`, and `seal`, `live`, `live+seal` or `-`.
fn plan_in(call: &mut RowStep<'_>) -> Result<Publication, Fault> {
    let place = match call.word {
        "new" => WriteMode::New,
        "append" => WriteMode::Append,
        "resume" => WriteMode::Resume,
        _ => return Err(Fault::Field),
    };
    let (live, seal) = match call.fields.text() {
        "seal" => (false, true),
        "live" => (true, false),
        "live+seal" => (true, true),
        _ => (false, false),
    };
    Ok(Publication { place, seal, live })
}

/// Appends the end of a publishing, the number of its pauses, its lines, and the requests sent on
/// each dial.
fn tell(
    end: PutEnd,
    link: &MemDialler,
    aside: Aside<Pauses, MemSink>,
    said: &mut String,
) -> Result<(), Fault> {
    let Aside { pause, lines } = aside;
    write!(said, "{end:?} {} ", pause.0)?;
    put_text(said, lines.into_sink().text())?;
    for at in 0..MOST_DIALS {
        let Some(request) = link.dialled(at) else {
            break;
        };
        said.push_str(" ")?;
        put_text(said, request)?;
    }
    Ok(())
}
