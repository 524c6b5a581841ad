//! Dials of a client in memory: the result of each call, and the bytes kept.

use oc_link::{Dialler, MemDialler};
use std::alloc::Global;
use test_tools::{Fault, RowFields, RowStep, put_hex};

/// An upper bound on the calls of a row.
const MOST: u32 = 100;

/// Appends the words of a row: the result of each call.
pub fn put_words(alloc: Global, given: &str, said: &mut String) -> Result<(), Fault> {
    let mut fields = RowFields::of(given, ' ');
    let mut link = link_in(alloc, &mut fields)?;
    play(alloc, &mut link, fields, said)
}

/// The link of the first fields.
fn link_in(alloc: Global, fields: &mut RowFields<'_>) -> Result<MemDialler, Fault> {
    let mut replies = fields.list();
    let room = fields.small()? as usize;
    let cut = fields.small()? as usize;
    if cut < 1 {
        return Err(Fault::Field);
    }
    let fails = fields.numbers(alloc)?;
    let replies = replies.all_bytes(alloc)?;
    Ok(MemDialler::new(alloc, replies, room, cut, fails)?)
}

/// Makes the calls, and appends the result of each.
fn play(
    alloc: Global,
    link: &mut MemDialler,
    mut calls: RowFields<'_>,
    said: &mut String,
) -> Result<(), Fault> {
    for _ in 0..MOST {
        if calls.is_empty() {
            break;
        }
        act(alloc, link, RowStep::of(calls.text()), said)?;
    }
    Ok(())
}

/// Makes a call, and appends its result.
fn act(
    alloc: Global,
    link: &mut MemDialler,
    mut step: RowStep<'_>,
    said: &mut String,
) -> Result<(), Fault> {
    match step.word {
        "hang_up" => link.hang_up(),
        "dialled" => return put_kept(link.dialled(step.fields.number()?), said),
        _ => return put_asked(alloc, link, step, said),
    }
    Ok(())
}

/// Makes a call with a result, and appends the result and a space.
fn put_asked<L: Dialler>(
    alloc: Global,
    link: &mut L,
    step: RowStep<'_>,
    said: &mut String,
) -> Result<(), Fault> {
    ask(alloc, link, step, said)?;
    Ok(said.push_str(" ")?)
}

/// Appends the bytes that are kept, if there are any.
fn put_kept(kept: Option<&[u8]>, said: &mut String) -> Result<(), Fault> {
    match kept {
        Some(bytes) => put_hex(said, bytes)?,
        None => said.push_str("none")?,
    }
    Ok(said.push_str(" ")?)
}

/// Makes a call of a link with a result, and appends the result.
fn ask<L: Dialler>(
    alloc: Global,
    link: &mut L,
    step: RowStep<'_>,
    said: &mut String,
) -> Result<(), Fault> {
    match step.word {
        "dial" => dial(alloc, link, step.fields, said),
        "dial_more" => dial_more(alloc, link, step.fields, said),
        "dial_read" => dial_read(alloc, link, step.fields, said),
        _ => Err(Fault::Field),
    }
}

fn put_done(done: bool, said: &mut String) -> Result<(), Fault> {
    Ok(said.push_str(if done { "ok" } else { "failed" })?)
}

fn dial<L: Dialler>(
    alloc: Global,
    link: &mut L,
    mut fields: RowFields<'_>,
    said: &mut String,
) -> Result<(), Fault> {
    let address = fields.text();
    let bytes = fields.bytes(alloc)?;
    put_done(link.dial(address, &bytes).is_ok(), said)
}

fn dial_more<L: Dialler>(
    alloc: Global,
    link: &mut L,
    mut fields: RowFields<'_>,
    said: &mut String,
) -> Result<(), Fault> {
    let bytes = fields.bytes(alloc)?;
    put_done(link.dial_more(&bytes).is_ok(), said)
}

fn dial_read<L: Dialler>(
    alloc: Global,
    link: &mut L,
    mut fields: RowFields<'_>,
    said: &mut String,
) -> Result<(), Fault> {
    let mut buffer = vec![in alloc; 0; fields.byte()? as usize]?;
    match link.dial_read(&mut buffer) {
        Ok(count) => put_hex(said, &buffer[..count]),
        Err(_) => Ok(said.push_str("failed")?),
    }
}
