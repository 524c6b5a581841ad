use crate::limits::{CONFIG_READS, LOOK_MILLIS, MOST_CONFIG, PIECE};
use oc_base::Bytes;
use oc_link::Look;
use std::alloc::Global;
use std::fs::{File, Metadata, OpenFile, metadata};
use std::io::{self, ErrorKind, Read};
use std::os::unix::fs::MetadataExt;
use std::rt::Files;

/// The file of a configuration, which is looked at from time to time. It is read where it changed, and has not changed
/// again until the next look: so a file that is being written, or is away for a moment, is left alone. What is no
/// regular file is never read.
#[derive(Drop)]
pub(crate) struct ConfigWatch<'a> {
    path: &'a str,
    /// The time of the next look, in milliseconds.
    look_at: u64,
    /// What the last look found.
    seen: Option<Found>,
    /// What was found when it was read last.
    read: Option<Found>,
}

/// What a look finds at the path of a file.
#[derive(Clone, Copy, PartialEq, Eq)]
enum Found {
    Regular(Stamp),
    /// Something that is no regular file.
    Other,
    /// Nothing, or the system does not tell.
    Away,
}

/// What the system tells of a file, and what differs where it has changed, as exactly as the system tells it.
#[derive(Clone, Copy, PartialEq, Eq)]
struct Stamp {
    size: u64,
    /// The times of change of the bytes and of the status, in seconds and nanoseconds.
    modified: (i64, i64),
    changed: (i64, i64),
    device: u64,
    number: u64,
}

impl<'a> ConfigWatch<'a> {
    /// The file at this path, which was read at the start.
    pub(crate) fn new(path: &'a str) -> ConfigWatch<'a> {
        ConfigWatch {
            path,
            look_at: 0,
            seen: None,
            read: None,
        }
    }

    /// The path of the file.
    pub(crate) fn path(&self) -> &'a str {
        self.path
    }

    /// The first look is due when some time has passed since this one.
    pub(crate) fn begin(&mut self, now: u64) {
        self.look_at = now.saturating_add(LOOK_MILLIS);
    }

    /// Looks at the file at this time, if a look is due.
    pub(crate) fn look<R: Files<File = File>>(&mut self, rt: &R, alloc: Global, now: u64) -> Look {
        if now < self.look_at {
            return Look::Nothing;
        }
        self.look_at = now.saturating_add(LOOK_MILLIS);
        let before = self.seen;
        let found = found_at(rt, self.path);
        self.seen = Some(found);
        if before != Some(found) || self.read == Some(found) {
            return Look::Nothing;
        }
        match found {
            Found::Regular(stamp) => self.reads(rt, alloc, stamp),
            Found::Other => Look::Nothing,
            Found::Away => {
                self.read = Some(found);
                Look::Failed
            }
        }
    }

    /// Reads the file that has this stamp. Where it has another one then, nothing was read.
    fn reads<R: Files<File = File>>(&mut self, rt: &R, alloc: Global, stamp: Stamp) -> Look {
        let read = bytes_at(rt, alloc, self.path);
        let found = found_at(rt, self.path);
        self.seen = Some(found);
        if found != Found::Regular(stamp) {
            return Look::Nothing;
        }
        self.read = Some(found);
        match read {
            Ok(bytes) => Look::Text(Bytes::of(bytes)),
            Err(_) => Look::Failed,
        }
    }
}

/// What is at this path, through links.
fn found_at<R: Files>(rt: &R, path: &str) -> Found {
    match metadata(rt, path) {
        Ok(told) => {
            if told.is_file() {
                Found::Regular(stamp_of(&told))
            } else {
                Found::Other
            }
        }
        Err(_) => Found::Away,
    }
}

fn stamp_of(told: &Metadata) -> Stamp {
    Stamp {
        size: told.len(),
        modified: (told.mtime(), told.mtime_nsec()),
        changed: (told.ctime(), told.ctime_nsec()),
        device: told.dev(),
        number: told.ino(),
    }
}

/// The bytes of a file, or the first of them where it has too many.
fn bytes_at<R: Files<File = File>>(rt: &R, alloc: Global, path: &str) -> io::Result<Vec<u8>> {
    let mut file = File::open(rt, path)?;
    let mut bytes = Vec::new(alloc);
    let mut piece = Vec::from_elem(alloc, 0u8, PIECE)?;
    for _ in 0..CONFIG_READS {
        if bytes.len() >= MOST_CONFIG {
            return Ok(bytes);
        }
        let count = file.read(&mut piece)?;
        if count == 0 {
            return Ok(bytes);
        }
        bytes.extend_from_slice(&piece[..count])?;
    }
    Err(io::Error::from(ErrorKind::Other))
}
