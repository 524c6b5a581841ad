//! The content log of a disk: the bytes put, sealed, read and recovered.

use crate::acting::{Acts, act_all};
use oc_base::GroupName;
use oc_content::{AppendError, Content, FileError, NewBytes, ReadError};
use oc_io::Disk;
use std::alloc::Global;
use std::str::SplitAsciiWhitespace;
use test_tools::{
    Fault, RowDisk, RowFields, RowStep, disk_in, group_in, put_disk, put_hex, put_shelf, put_shown,
};

/// The greatest length of a piece, in bytes.
const MOST: usize = 1_000_000;

/// An upper bound on the reads of a group.
const MOST_READS: u32 = 1000;

/// Appends the words of a row: the result of each step, and then the content of the disk after a
/// crash.
pub fn put_words(alloc: Global, given: &str, said: &mut String) -> Result<(), Fault> {
    let mut fields = given.split_ascii_whitespace();
    let shown = fields.next().unwrap_or("");
    let disk = disk_in(alloc, fields.next().unwrap_or(""))?;
    play(alloc, shown, disk, fields, said)
}

/// Loads the content log of a disk, performs the steps, and appends the content of the disk after a
/// crash.
fn play<D: RowDisk>(
    alloc: Global,
    shown: &str,
    disk: D,
    steps: SplitAsciiWhitespace<'_>,
    said: &mut String,
) -> Result<(), Fault> {
    match Content::load(alloc, disk) {
        Ok(mut content) => {
            act_all(alloc, &mut content, steps, said)?;
            show(alloc, shown, content.into_disk().crashed(), said)
        }
        Err((disk, error)) => refused(alloc, shown, disk, error, said),
    }
}

/// Appends the reason why a disk was refused, and if a call on it failed, its content after a
/// crash.
fn refused<D: RowDisk>(
    alloc: Global,
    shown: &str,
    disk: D,
    error: FileError,
    said: &mut String,
) -> Result<(), Fault> {
    put_shown(said, &error)?;
    match error {
        FileError::Disk => show(alloc, shown, disk.crashed(), said),
        _ => Ok(()),
    }
}

impl<D: Disk> Acts for Content<D> {
    fn act(&mut self, alloc: Global, step: RowStep<'_>, said: &mut String) -> Result<(), Fault> {
        match step.word {
            "put" => put(alloc, self, step.fields, false, said),
            "seal" => put(alloc, self, step.fields, true, said),
            "spot" => put_spot(self, step.fields, said),
            "read" => read(alloc, self, step.fields, said),
            _ => Err(Fault::Field),
        }
    }
}

/// Puts bytes to a group, and appends the number of bytes held, or the error.
fn put<D: Disk>(
    alloc: Global,
    content: &mut Content<D>,
    mut fields: RowFields<'_>,
    last: bool,
    said: &mut String,
) -> Result<(), Fault> {
    let group = group_in(fields.text())?;
    let start = fields.number()?;
    let bytes = fields.bytes(alloc)?;
    if bytes.len() > MOST {
        return Err(Fault::Field);
    }
    let added = NewBytes {
        group: &group,
        start,
        bytes: &bytes,
        last,
    };
    match content.prepare(alloc, &added) {
        Ok(piece) if piece.adds() => put_held(content.commit(piece), said),
        Ok(_piece) => Ok(said.push_str("nothing ")?),
        Err(error) => put_shown(said, &error),
    }
}

/// Appends the number of bytes held, or the error.
fn put_held(held: Result<u64, AppendError>, said: &mut String) -> Result<(), Fault> {
    match held {
        Ok(held) => put_shown(said, &held),
        Err(error) => put_shown(said, &error),
    }
}

/// Appends the frame that holds a byte of a group, and the offset in its bytes, or `-`.
fn put_spot<D: Disk>(
    content: &Content<D>,
    mut fields: RowFields<'_>,
    said: &mut String,
) -> Result<(), Fault> {
    let group = group_in(fields.text())?;
    match content.spot(&group, fields.number()?) {
        Some(spot) => Ok(write!(said, "{}/{} ", spot.frame, spot.skip)?),
        None => Ok(said.push_str("- ")?),
    }
}

/// Appends the bytes of a group from an offset on, read in pieces of at most the given size, or the
/// error.
fn read<D: Disk>(
    alloc: Global,
    content: &mut Content<D>,
    mut fields: RowFields<'_>,
    said: &mut String,
) -> Result<(), Fault> {
    let group = group_in(fields.text())?;
    let start = fields.number()?;
    let mut piece = vec![in alloc; 0; fields.byte()? as usize]?;
    put_read(alloc, content, &group, start, &mut piece, said)
}

/// Appends the bytes read in pieces of the buffer's size, or the error.
fn put_read<D: Disk>(
    alloc: Global,
    content: &mut Content<D>,
    group: &GroupName,
    start: u64,
    piece: &mut [u8],
    said: &mut String,
) -> Result<(), Fault> {
    let mut bytes = Vec::new(alloc);
    match read_all(content, group, start, piece, &mut bytes)? {
        None => {
            put_hex(said, &bytes)?;
            Ok(said.push_str(" ")?)
        }
        Some(error) => put_shown(said, &error),
    }
}

/// Reads the bytes of a group from an offset on, in pieces of the buffer's size. Gives the error,
/// if there is one.
fn read_all<D: Disk>(
    content: &mut Content<D>,
    group: &GroupName,
    start: u64,
    piece: &mut [u8],
    bytes: &mut Vec<u8>,
) -> Result<Option<ReadError>, Fault> {
    for _ in 0..MOST_READS {
        let at = start.saturating_add(bytes.len() as u64);
        match content.read(group, at, piece) {
            Ok(0) => break,
            Ok(count) => bytes.extend_from_slice(&piece[..count])?,
            Err(error) => return Ok(Some(error)),
        }
    }
    Ok(None)
}

/// Appends the bytes of a disk, or the lines of its groups.
fn show<D: Disk + Drop>(
    alloc: Global,
    shown: &str,
    disk: D,
    said: &mut String,
) -> Result<(), Fault> {
    if shown == "bytes" {
        return put_disk(alloc, said, disk);
    }
    match Content::load(alloc, disk) {
        Ok(content) => put_shelf(said, content.groups()),
        Err(_) => Err(Fault::Unready),
    }
}
