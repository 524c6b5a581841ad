//! The journal of a disk: the frames appended, restarted, read and recovered.

use crate::acting::{Acts, act_all};
use oc_io::Disk;
use oc_journal::{Frame, Journal, LoadError};
use std::alloc::Global;
use std::str::SplitAsciiWhitespace;
use test_tools::{Fault, RowDisk, RowFields, RowStep, disk_in, put_disk, put_hex, put_shown};

/// Appends the words of a row: the result of each step, and then the content of the disk after a
/// crash.
pub fn put_words(alloc: Global, given: &str, said: &mut String) -> Result<(), Fault> {
    let mut fields = given.split_ascii_whitespace();
    let shown = fields.next().unwrap_or("");
    let disk = disk_in(alloc, fields.next().unwrap_or(""))?;
    play(alloc, shown, disk, fields, said)
}

/// Loads the journal of a disk, performs the steps, and appends the content of the disk after a
/// crash.
fn play<D: RowDisk>(
    alloc: Global,
    shown: &str,
    disk: D,
    steps: SplitAsciiWhitespace<'_>,
    said: &mut String,
) -> Result<(), Fault> {
    match Journal::load(alloc, disk) {
        Ok(mut journal) => {
            act_all(alloc, &mut journal, steps, said)?;
            show(alloc, shown, journal.into_disk().crashed(), said)
        }
        Err((disk, error)) => refused(alloc, shown, disk, error, said),
    }
}

/// Appends the reason why a disk was refused, and if a call on it failed, its content after a
/// crash.
fn refused<D: RowDisk>(
    alloc: Global,
    shown: &str,
    disk: D,
    error: LoadError,
    said: &mut String,
) -> Result<(), Fault> {
    put_shown(said, &error)?;
    match error {
        LoadError::Disk => show(alloc, shown, disk.crashed(), said),
        _ => Ok(()),
    }
}

impl<D: Disk> Acts for Journal<D> {
    fn act(&mut self, alloc: Global, step: RowStep<'_>, said: &mut String) -> Result<(), Fault> {
        match step.word {
            "append" => append(alloc, self, step.fields, said),
            "restart" => restart(self, said),
            "peek" => peek(alloc, self, step.fields, said),
            _ => Err(Fault::Field),
        }
    }
}

/// Appends a frame to the journal, and the error to the words, if there is one.
fn append<D: Disk>(
    alloc: Global,
    journal: &mut Journal<D>,
    mut fields: RowFields<'_>,
    said: &mut String,
) -> Result<(), Fault> {
    let body = fields.bytes(alloc)?;
    match Frame::new(alloc, &body) {
        Ok(frame) => append_frame(journal, &frame, said),
        Err(_) => Err(Fault::Field),
    }
}

fn append_frame<D: Disk>(
    journal: &mut Journal<D>,
    frame: &Frame,
    said: &mut String,
) -> Result<(), Fault> {
    journal.reserve(frame)?;
    match journal.append(frame) {
        Ok(()) => Ok(()),
        Err(error) => put_shown(said, &error),
    }
}

/// Restarts a journal, and if that fails restarts it again; appends each error.
fn restart<D: Disk>(journal: &mut Journal<D>, said: &mut String) -> Result<(), Fault> {
    for _ in 0..2 {
        match journal.restart() {
            Ok(()) => break,
            Err(error) => put_shown(said, &error)?,
        }
    }
    Ok(())
}

/// Appends at most the given number of bytes of a frame's body, from an offset on.
fn peek<D: Disk>(
    alloc: Global,
    journal: &mut Journal<D>,
    mut fields: RowFields<'_>,
    said: &mut String,
) -> Result<(), Fault> {
    let index = fields.number()?;
    let skip = u64::from(fields.small()?);
    let mut part = vec![in alloc; 0; fields.byte()? as usize]?;
    put_part(journal, index, skip, &mut part, said)
}

/// Appends the bytes that fit the buffer, or the error.
fn put_part<D: Disk>(
    journal: &mut Journal<D>,
    index: u64,
    skip: u64,
    part: &mut [u8],
    said: &mut String,
) -> Result<(), Fault> {
    match journal.peek(index, skip, part) {
        Ok(count) => {
            put_hex(said, &part[..count])?;
            Ok(said.push_str(" ")?)
        }
        Err(error) => put_shown(said, &error),
    }
}

/// Appends the bytes of a disk, or the frames of its journal.
fn show<D: Disk + Drop>(
    alloc: Global,
    shown: &str,
    disk: D,
    said: &mut String,
) -> Result<(), Fault> {
    if shown == "bytes" {
        return put_disk(alloc, said, disk);
    }
    match Journal::load(alloc, disk) {
        Ok(mut journal) => put_frames(alloc, &mut journal, said),
        Err(_) => Err(Fault::Unready),
    }
}

/// Appends the frames of a journal, each in brackets.
fn put_frames<D: Disk>(
    alloc: Global,
    journal: &mut Journal<D>,
    said: &mut String,
) -> Result<(), Fault> {
    let mut body = Vec::new(alloc);
    for index in 0..journal.count() {
        put_frame(journal, index, &mut body, said)?;
    }
    Ok(())
}

fn put_frame<D: Disk>(
    journal: &mut Journal<D>,
    index: u64,
    body: &mut Vec<u8>,
    said: &mut String,
) -> Result<(), Fault> {
    let Ok(true) = journal.frame(index, body) else {
        return Err(Fault::Unready);
    };
    said.push_str("[")?;
    put_hex(said, body)?;
    Ok(said.push_str("]")?)
}
