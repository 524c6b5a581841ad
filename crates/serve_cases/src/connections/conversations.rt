//! Downloads over a link and onto a sink in memory.

use crate::connections::texts::{put_text, text_in, texts_in};
use oc_client::{FetchOptions, GetEnd, follow, get};
use oc_io::{MemSink, Sink};
use oc_link::{Dialler, MemDialler};
use std::alloc::Global;
use std::str;
use test_tools::{Fault, RowFields, RowStep};

/// The capacity of a link and of a sink, in bytes.
const ROOM: usize = 1_000_000;

/// An upper bound on the dials of a row.
const MOST_DIALS: u64 = 20;

/// Appends the words of a row: the end of the download, the bytes written, and the requests sent on
/// each dial.
pub fn put_words(alloc: Global, given: &str, said: &mut String) -> Result<(), Fault> {
    let mut fields = RowFields::of(given, ' ');
    let call = RowStep::of(fields.text());
    let address = text_in(alloc, fields.text())?;
    put_conversation(alloc, call, &address, fields, said)
}

/// Appends the words of a call for this address; the fields have the link and the sink.
fn put_conversation(
    alloc: Global,
    call: RowStep<'_>,
    address: &[u8],
    mut fields: RowFields<'_>,
    said: &mut String,
) -> Result<(), Fault> {
    let cut = fields.small()?;
    let link_fails = fields.text();
    let mut sink = MemSink::new(alloc, ROOM, fields.numbers(alloc)?)?;
    let mut link = link_in(alloc, fields.list(), cut, link_fails)?;
    let end = download(alloc, call, address, &mut link, &mut sink)?;
    tell(end, &link, &sink, said)
}

/// A link with these replies, of which one read gives at most `cut` bytes, and whose calls with these
/// numbers fail.
pub fn link_in(
    alloc: Global,
    replies: RowFields<'_>,
    cut: u32,
    fails: &str,
) -> Result<MemDialler, Fault> {
    let cut = cut as usize;
    if cut < 1 {
        return Err(Fault::Field);
    }
    let replies = texts_in(alloc, replies)?;
    let fails = RowFields::of(fails, ' ').numbers(alloc)?;
    Ok(MemDialler::new(alloc, replies, ROOM, cut, fails)?)
}

/// Makes the call of a row.
fn download<L: Dialler, S: Sink>(
    alloc: Global,
    mut call: RowStep<'_>,
    address: &[u8],
    link: &mut L,
    sink: &mut S,
) -> Result<GetEnd, Fault> {
    let Ok(address) = str::from_utf8(address) else {
        return Err(Fault::Field);
    };
    match call.word {
        "get" => {
            let manner = manner_in(&mut call.fields)?;
            Ok(get(alloc, address, &manner, link, sink))
        }
        "follow" => {
            let times = call.fields.number()?;
            let manner = manner_in(&mut call.fields)?;
            Ok(follow(alloc, address, times, &manner, link, sink))
        }
        _ => Err(Fault::Field),
    }
}

/// The first byte to ask for and the token, if they are given.
fn manner_in<'a>(fields: &mut RowFields<'a>) -> Result<FetchOptions<'a>, Fault> {
    let from = given(fields.text());
    let token = given(fields.text());
    Ok(FetchOptions {
        from: match from {
            Some(from) => Some(RowFields::of(from, ' ').number()?),
            None => None,
        },
        token,
    })
}

/// A field that may be `-` or missing.
fn given(field: &str) -> Option<&str> {
    match field {
        "" | "-" => None,
        field => Some(field),
    }
}

/// Appends the end of a download, the bytes written, and the requests sent on each dial.
fn tell(end: GetEnd, link: &MemDialler, sink: &MemSink, said: &mut String) -> Result<(), Fault> {
    write!(said, "{end:?} ")?;
    put_text(said, sink.text())?;
    for at in 0..MOST_DIALS {
        let Some(request) = link.dialled(at) else {
            break;
        };
        said.push_str(" ")?;
        put_text(said, request)?;
    }
    Ok(())
}
