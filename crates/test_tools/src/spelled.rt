//! Bytes as printable text: other bytes are spelled with a `\`, as `\r`, `\n`, `\t`, `\\`, `\xHH`
//! in hexadecimal, and `\{N:BYTES}` for N times these bytes.

use crate::fault::Fault;
use std::alloc::Global;

/// The number of equal bytes in a row above which they are spelled once with their number.
const LONG: usize = 64;

/// The meaning of the next character of a spelled text.
#[derive(Clone, Copy)]
enum State {
    /// A byte, or the start of an escape.
    Plain,
    /// The character after a `\`.
    Escape,
    /// The first digit of a byte.
    High,
    /// The second digit of a byte, after this value of the first.
    Low(u8),
    /// A digit of a repetition count, after the digits of this value.
    Count(usize),
}

/// The state of reading bytes from a spelled text.
#[derive(Drop)]
struct Spelled {
    bytes: Vec<u8>,
    state: State,
    /// The start of the bytes that are repeated, and their number of repetitions.
    repeated: Option<(usize, usize)>,
}

/// The bytes that a text spells.
pub fn spelled_in(alloc: Global, text: &str) -> Result<Vec<u8>, Fault> {
    let mut reading = Spelled {
        bytes: Vec::new(alloc),
        state: State::Plain,
        repeated: None,
    };
    for byte in text.as_bytes() {
        take(alloc, &mut reading, *byte)?;
    }
    Ok(reading.bytes)
}

/// Takes the next byte of the text.
fn take(alloc: Global, reading: &mut Spelled, byte: u8) -> Result<(), Fault> {
    match reading.state {
        State::Plain => take_plain(alloc, reading, byte),
        State::Escape => take_escape(reading, byte),
        State::High => {
            reading.state = State::Low(digit_in(byte)?);
            Ok(())
        }
        State::Low(high) => take_low(reading, high, byte),
        State::Count(count) => take_count(reading, count, byte),
    }
}

/// Takes the second digit of a byte.
fn take_low(reading: &mut Spelled, high: u8, byte: u8) -> Result<(), Fault> {
    let low = digit_in(byte)?;
    reading.state = State::Plain;
    Ok(reading.bytes.push(high.wrapping_mul(16) | low)?)
}

/// Takes a digit of a repetition count, or the colon after it.
fn take_count(reading: &mut Spelled, count: usize, byte: u8) -> Result<(), Fault> {
    if byte == b':' {
        reading.repeated = Some((reading.bytes.len(), count));
        reading.state = State::Plain;
    } else {
        let digit = usize::from(digit_in(byte)?);
        reading.state = State::Count(count.saturating_mul(10).saturating_add(digit));
    }
    Ok(())
}

fn take_plain(alloc: Global, reading: &mut Spelled, byte: u8) -> Result<(), Fault> {
    match (byte, reading.repeated) {
        (b'\\', _) => reading.state = State::Escape,
        (b'}', Some((start, count))) => {
            reading.repeated = None;
            repeat(alloc, &mut reading.bytes, start, count)?;
        }
        _ => reading.bytes.push(byte)?,
    }
    Ok(())
}

fn take_escape(reading: &mut Spelled, byte: u8) -> Result<(), Fault> {
    reading.state = match byte {
        b'x' => State::High,
        b'{' => State::Count(0),
        _ => {
            reading.bytes.push(unescaped(byte)?)?;
            State::Plain
        }
    };
    Ok(())
}

/// The byte that a character means after a `\`.
fn unescaped(byte: u8) -> Result<u8, Fault> {
    match byte {
        b'r' => Ok(b'\r'),
        b'n' => Ok(b'\n'),
        b't' => Ok(b'\t'),
        b'\\' => Ok(b'\\'),
        _ => Err(Fault::Field),
    }
}

/// Repeats the bytes from `start` on, `count` times in all.
fn repeat(alloc: Global, bytes: &mut Vec<u8>, start: usize, count: usize) -> Result<(), Fault> {
    let Some(piece) = bytes.get(start..) else {
        return Err(Fault::Field);
    };
    let piece = piece.to_vec(alloc)?;
    for _ in 1..count {
        bytes.extend_from_slice(&piece)?;
    }
    Ok(())
}

/// The value of a hexadecimal digit.
fn digit_in(byte: u8) -> Result<u8, Fault> {
    match byte {
        b'0'..=b'9' => Ok(byte - b'0'),
        b'a'..=b'f' => Ok(byte - b'a' + 10),
        _ => Err(Fault::Field),
    }
}

/// Appends bytes in spelled form.
pub fn put_spelled(out: &mut String, bytes: &[u8]) -> Result<(), Fault> {
    let mut left = bytes;
    for _ in 0..bytes.len() {
        left = put_next(out, left)?;
    }
    Ok(())
}

/// Appends the first of these bytes, or a run of many equal ones with its number, and gives the
/// rest.
fn put_next<'a>(out: &mut String, bytes: &'a [u8]) -> Result<&'a [u8], Fault> {
    let [first, rest @ ..] = bytes else {
        return Ok(bytes);
    };
    let count = run_of(*first, bytes);
    if count <= LONG {
        put_byte(out, *first)?;
        return Ok(rest);
    }
    write!(out, "\\{{{count}:")?;
    put_byte(out, *first)?;
    out.push('}')?;
    Ok(bytes.get(count..).unwrap_or(&[]))
}

/// The number of equal bytes at the front.
fn run_of(first: u8, bytes: &[u8]) -> usize {
    for (place, byte) in bytes.iter().enumerate() {
        if *byte != first {
            return place;
        }
    }
    bytes.len()
}

fn put_byte(out: &mut String, byte: u8) -> Result<(), Fault> {
    let escape = match byte {
        b'\r' => "\\r",
        b'\n' => "\\n",
        b'\t' => "\\t",
        b'\\' => "\\\\",
        b' '..=b'~' => return Ok(out.push(char::from(byte))?),
        _ => return Ok(write!(out, "\\x{byte:02x}")?),
    };
    Ok(out.push_str(escape)?)
}
