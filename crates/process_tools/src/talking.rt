//! Conversations with a node, or with the program, byte by byte.

use crate::node::Home;
use crate::playing::tell;
use std::io::{self, ErrorKind, Read, Write};
use std::net::{Shutdown, TcpStream};
use std::time::Duration;
use std::{fs, thread};
use test_tools::spelled_in;

/// The longest wait for a byte and for the peer's end, in milliseconds.
const PATIENCE_MILLIS: u64 = 15_000;

/// The number of bytes in one read, and the pause after each piece of a slow read.
const PIECE: usize = 65_536;

const SLOW_MILLIS: u64 = 10;

/// The number of bytes shown in a message on unexpected bytes.
const TOLD: usize = 80;

/// A step of a conversation.
#[derive(Clone, Copy)]
enum Step<'a> {
    /// Sends these bytes, as far as the peer takes them.
    Send(&'a str),
    /// Expects these bytes next.
    Hear(&'a str),
    /// Expects these bytes next, and reads them slowly.
    HearSlowly(&'a str),
    /// Expects the peer's end.
    End,
    /// Sends the end.
    Shut,
    /// Pauses for this time, in milliseconds.
    Pause(u64),
}

impl<'a> Step<'a> {
    /// The step spelled by a text, if it is one.
    fn read(text: &'a str) -> Option<Step<'a>> {
        let (word, rest) = text.split_once(' ').unwrap_or((text, ""));
        match word {
            ">" => Some(Step::Send(rest)),
            "<" => Some(Step::Hear(rest)),
            "slowly" => Some(Step::HearSlowly(rest)),
            "end" => Some(Step::End),
            "shut" => Some(Step::Shut),
            "pause" => Some(Step::Pause(rest.parse::<u64>().ok()?)),
            _ => None,
        }
    }
}

/// Plays the rows of a table of conversations with a node, each on the given number of connections,
/// one after another.
pub fn play_talks(rt: &HostRuntime, home: &Home, table: &str) -> io::Result<()> {
    let rows = fs::read_to_string(rt, table)?;
    for row in rows.lines() {
        if !row.is_empty() && !row.starts_with('#') {
            let (name, rest) = row.split_once(' ').unwrap_or((row, ""));
            let (times, steps) = rest.trim_start().split_once(' ').unwrap_or((rest, ""));
            tell(rt, name, talk_often(rt, home, times, steps))?;
        }
    }
    Ok(())
}

/// Has a conversation `times` times, or until one goes otherwise.
fn talk_often(
    rt: &HostRuntime,
    home: &Home,
    times: &str,
    steps: &str,
) -> io::Result<Option<String>> {
    let times = times.parse::<u32>().map_err(|_| no_row())?;
    for _ in 0..times {
        let mut stream = home.connect(rt)?;
        if let Some(told) = talk(rt, &mut stream, steps)? {
            return Ok(Some(told));
        }
    }
    Ok(None)
}

/// Performs the steps of a conversation, with ` ^ ` between them, and gives a message if other
/// bytes came than expected.
pub fn talk(rt: &HostRuntime, stream: &mut TcpStream, steps: &str) -> io::Result<Option<String>> {
    stream.set_read_timeout(Some(Duration::from_millis(PATIENCE_MILLIS)))?;
    let mut rest = steps;
    for _ in 0..steps.len() {
        let (step, behind) = rest.split_once(" ^ ").unwrap_or((rest, ""));
        let step = Step::read(step.trim()).ok_or(no_row())?;
        if let Some(told) = take_step(rt, stream, step)? {
            return Ok(Some(told));
        }
        if behind.is_empty() {
            break;
        }
        rest = behind;
    }
    Ok(None)
}

/// The error for a row that cannot be read.
fn no_row() -> io::Error {
    io::Error::from(ErrorKind::InvalidInput)
}

fn take_step(
    rt: &HostRuntime,
    stream: &mut TcpStream,
    step: Step<'_>,
) -> io::Result<Option<String>> {
    match step {
        Step::Send(text) => {
            let bytes = spelled(rt, text)?;
            // A peer that refuses a request need not take all of its bytes.
            let _sent = stream.write_all(&bytes).is_ok();
            Ok(None)
        }
        Step::Hear(text) => hear(rt, stream, text, 0),
        Step::HearSlowly(text) => hear(rt, stream, text, SLOW_MILLIS),
        Step::End => hear_end(rt, stream),
        Step::Shut => {
            stream.shutdown(Shutdown::Write)?;
            Ok(None)
        }
        Step::Pause(millis) => {
            thread::sleep(rt, Duration::from_millis(millis));
            Ok(None)
        }
    }
}

/// The bytes that a text spells.
fn spelled(rt: &HostRuntime, text: &str) -> io::Result<Vec<u8>> {
    spelled_in(rt.alloc(), text).map_err(|_| no_row())
}

/// Reads the number of bytes that a text spells, with a pause after each piece, and gives a message
/// if one of them differs.
fn hear(
    rt: &HostRuntime,
    stream: &mut TcpStream,
    text: &str,
    pause: u64,
) -> io::Result<Option<String>> {
    let wanted = spelled(rt, text)?;
    let mut piece = Vec::from_elem(rt.alloc(), 0u8, PIECE)?;
    let mut heard = 0usize;
    for _ in 0..wanted.len() {
        let rest = wanted.get(heard..).unwrap_or(&[]);
        if rest.is_empty() {
            break;
        }
        let room = rest.len().min(piece.len());
        let count = stream.read(&mut piece[..room])?;
        let came = piece.get(..count).unwrap_or(&[]);
        if count == 0 || !rest.starts_with(came) {
            return told_bytes(rt, heard, came);
        }
        heard = heard.saturating_add(count);
        if pause > 0 {
            thread::sleep(rt, Duration::from_millis(pause));
        }
    }
    Ok(None)
}

/// Reads the peer's end, and gives a message if other bytes came. A reset is not an end.
fn hear_end(rt: &HostRuntime, stream: &mut TcpStream) -> io::Result<Option<String>> {
    let mut byte = [0u8; 1];
    let count = stream.read(&mut byte)?;
    if count == 0 {
        return Ok(None);
    }
    told_bytes(rt, 0, b"more")
}

/// A message with the bytes after the first `heard` ones.
fn told_bytes(rt: &HostRuntime, heard: usize, came: &[u8]) -> io::Result<Option<String>> {
    let front = came.get(..TOLD).unwrap_or(came);
    let text = std::str::from_utf8(front).unwrap_or("no text").trim_end();
    Ok(Some(format!(in rt.alloc(); "behind {heard} bytes, {text}")?))
}
