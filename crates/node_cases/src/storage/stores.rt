//! The store of a node's control records on two disks.

ghost use Rattle.std.specs.Prelude.{◌≤◌, length};
ghost use Rattle.oc_record.specs.Spelling.{HaveSpellings, records_bytes};

use crate::acting::{Acts, act_all};
use oc_base::MAX_FRAME_BYTES;
use oc_io::Disk;
use oc_store::{FileError, Record, Store, StoreError};
use std::alloc::Global;
use std::str::SplitAsciiWhitespace;
use test_tools::{Fault, RowDisk, RowFields, RowStep, disk_in, put_disk, put_shown};

/// The number of nodes.
const NODES: u32 = 2;

/// Appends the words of a row: the result of each step, and then the content of the disks after a
/// crash.
pub fn put_words(alloc: Global, given: &str, said: &mut String) -> Result<(), Fault> {
    let mut fields = given.split_ascii_whitespace();
    let shown = fields.next().unwrap_or("");
    let first = disk_in(alloc, fields.next().unwrap_or(""))?;
    let second = disk_in(alloc, fields.next().unwrap_or(""))?;
    play(alloc, shown, first, second, fields, said)
}

/// Loads the store of two disks, performs the steps, and appends the content of the disks after a
/// crash.
fn play<D: RowDisk>(
    alloc: Global,
    shown: &str,
    first: D,
    second: D,
    steps: SplitAsciiWhitespace<'_>,
    said: &mut String,
) -> Result<(), Fault> {
    match Store::load(alloc, first, second, NODES) {
        Ok((mut store, _list)) => {
            act_all(alloc, &mut store, steps, said)?;
            let (first, second) = store.into_disks();
            show(alloc, shown, first.crashed(), second.crashed(), said)
        }
        Err((first, second, error)) => refused(alloc, shown, first, second, error, said),
    }
}

/// Appends the reason why two disks were refused, and if a call on one failed, their content after
/// a crash.
fn refused<D: RowDisk>(
    alloc: Global,
    shown: &str,
    first: D,
    second: D,
    error: StoreError,
    said: &mut String,
) -> Result<(), Fault> {
    put_shown(said, &error)?;
    match error.cause {
        FileError::Disk => show(alloc, shown, first.crashed(), second.crashed(), said),
        _ => Ok(()),
    }
}

impl<D: Disk> Acts for Store<D> {
    fn act(&mut self, _alloc: Global, step: RowStep<'_>, said: &mut String) -> Result<(), Fault> {
        match step.word {
            "ask" => ask(self, step.fields, said),
            "lost" => commit(self, &[Record::Lost], said),
            "turn" => turn_over(self, said),
            "generation" => put_shown(said, &self.generation()),
            "due" => put_shown(said, &self.due()),
            _ => Err(Fault::Field),
        }
    }
}

/// Commits an ask, and appends the error, if there is one.
fn ask<D: Disk>(
    store: &mut Store<D>,
    mut fields: RowFields<'_>,
    said: &mut String,
) -> Result<(), Fault> {
    let seq = fields.number()?;
    let peer = fields.node()?;
    commit(store, &[Record::Ask { seq, peer }], said)
}

/// Commits records, and appends the error, if there is one.
fn commit<D: Disk>(store: &mut Store<D>, records: &[Record], said: &mut String) -> Result<(), Fault>
    requires spelled { HaveSpellings records.now }
    requires fits { length (records_bytes records.now) ≤ MAX_FRAME_BYTES }
{
    let frame = store.prepare(records)?;
    match store.commit(&frame) {
        Ok(()) => Ok(()),
        Err(error) => put_shown(said, &error),
    }
}

/// Turns over to the next generation, and appends the error, if there is one.
fn turn_over<D: Disk>(store: &mut Store<D>, said: &mut String) -> Result<(), Fault> {
    let generation = store.generation();
    if generation == u64::MAX {
        return Err(Fault::Unready);
    }
    let snapshot = Record::Snapshot {
        generation: generation + 1,
    };
    let frame = store.prepare_snapshot(&[snapshot])?;
    match store.turn_over(&frame) {
        Ok(()) => Ok(()),
        Err(error) => put_shown(said, &error),
    }
}

/// Appends the bytes of both disks, or the records recovered from them.
fn show<D: Disk + Drop>(
    alloc: Global,
    shown: &str,
    first: D,
    second: D,
    said: &mut String,
) -> Result<(), Fault> {
    if shown == "nothing" {
        return Ok(());
    }
    if shown == "bytes" {
        put_disk(alloc, said, first)?;
        said.push_str(" ")?;
        return put_disk(alloc, said, second);
    }
    match Store::load(alloc, first, second, NODES) {
        Ok((_store, list)) => put_shown(said, &list),
        Err(_) => Err(Fault::Unready),
    }
}
