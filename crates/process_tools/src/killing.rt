//! Kills of a node in the middle of publishing.

use crate::asking::{ask, body_of, get_text, is_ok, publish_text};
use crate::node::{Home, end};
use std::alloc::{AllocError, Global};
use std::io::{self, Write};
use std::thread;
use std::time::Duration;

/// The number of kills.
const KILLS: u32 = 50;

/// The piece that is published again and again.
const PIECE: &str = "one more piece.\n";

/// The number of different times between the last publish and the kill, one step apart.
const DELAYS: u32 = 9;

const STEP_MICROS: u64 = 150;

/// Kills a node fifty times while a publish is under way. After each kill `check` of its files, and
/// a GET once it runs again, must give every piece that was answered 200, and only whole pieces.
/// Gives a message on a loss, or none.
pub fn kill_often(rt: &HostRuntime) -> io::Result<Option<String>> {
    let home = Home::new(rt, "killed")?;
    kill_there(rt, &home)
}

fn kill_there(rt: &HostRuntime, home: &Home) -> io::Result<Option<String>> {
    let mut answered = 0usize;
    for number in 0..KILLS {
        answered = answered.saturating_add(publish_and_kill(rt, home, number)?);
        let checked = checked_pieces(rt, home)?;
        let served = served_pieces(rt, home)?;
        if checked < Some(answered) || served != checked {
            return Ok(Some(told_loss(rt.alloc(), number, answered, checked, served)?));
        }
        answered = checked.unwrap_or(answered);
    }
    Ok(None)
}

/// A message on the pieces lost at a kill.
fn told_loss(
    alloc: Global,
    number: u32,
    answered: usize,
    checked: Option<usize>,
    served: Option<usize>,
) -> Result<String, AllocError> {
    format!(in alloc; "kill {number}: {answered} answered, {checked:?} checked, {served:?} served")
}

/// Starts the node, publishes a few pieces, begins one more, and kills the node; gives the number
/// of pieces answered 200.
fn publish_and_kill(rt: &HostRuntime, home: &Home, number: u32) -> io::Result<usize> {
    let node = home.start(rt)?;
    let answered = publish_few(rt, home, number)?;
    end(node)?;
    Ok(answered)
}

/// Publishes a few pieces, and begins one more.
fn publish_few(rt: &HostRuntime, home: &Home, number: u32) -> io::Result<usize> {
    let text = publish_text(rt, "/log", PIECE)?;
    let answered = publish_all(rt, home, text.as_bytes(), number % 4)?;
    begin_last(rt, home, text.as_bytes(), number % DELAYS)?;
    Ok(answered)
}

/// Publishes this text `count` times, and gives the number of answers 200.
fn publish_all(rt: &HostRuntime, home: &Home, text: &[u8], count: u32) -> io::Result<usize> {
    let mut answered = 0usize;
    for _ in 0..count {
        if is_ok(&ask(rt, home, text)?) {
            answered = answered.saturating_add(1);
        }
    }
    Ok(answered)
}

/// Begins one more request, and waits for `steps` steps instead of the answer. The connection stays
/// open until then.
fn begin_last(rt: &HostRuntime, home: &Home, text: &[u8], steps: u32) -> io::Result<()> {
    let mut last = home.connect(rt)?;
    last.write_all(text)?;
    let wait = STEP_MICROS.saturating_mul(u64::from(steps));
    thread::sleep(rt, Duration::from_micros(wait));
    Ok(())
}

/// The number of pieces that `check` finds in the node's files; none if the length is not that of
/// whole pieces.
fn checked_pieces(rt: &HostRuntime, home: &Home) -> io::Result<Option<usize>> {
    let output = home.output(rt, &["check", "1", "1", "1"])?;
    let text = std::str::from_utf8(&output.stdout).unwrap_or("");
    for line in text.lines() {
        if let Some(held) = line.strip_prefix("  /log ") {
            return Ok(held.parse::<usize>().ok().and_then(whole_pieces));
        }
    }
    Ok(Some(0))
}

/// The number of pieces that the node serves once it runs again; none if it serves anything else.
fn served_pieces(rt: &HostRuntime, home: &Home) -> io::Result<Option<usize>> {
    let node = home.start(rt)?;
    let pieces = pieces_there(rt, home)?;
    end(node)?;
    Ok(pieces)
}

/// The number of pieces that a running node serves.
fn pieces_there(rt: &HostRuntime, home: &Home) -> io::Result<Option<usize>> {
    let request = get_text(rt, "/log")?;
    let reply = ask(rt, home, request.as_bytes())?;
    Ok(pieces_in(&reply))
}

/// The number of pieces in a reply; none if it has anything else.
fn pieces_in(reply: &[u8]) -> Option<usize> {
    if reply.starts_with(b"HTTP/1.1 404 ") {
        return Some(0);
    }
    let body = body_of(reply);
    if is_ok(reply) && are_pieces(body) {
        whole_pieces(body.len())
    } else {
        None
    }
}

/// Whether bytes consist of the same piece again and again.
fn are_pieces(bytes: &[u8]) -> bool {
    bytes
        .chunks(PIECE.len())
        .all(|piece| piece == PIECE.as_bytes())
}

/// The number of pieces in `bytes` bytes, if it is whole.
fn whole_pieces(bytes: usize) -> Option<usize> {
    if bytes % PIECE.len() == 0 {
        Some(bytes / PIECE.len())
    } else {
        None
    }
}
