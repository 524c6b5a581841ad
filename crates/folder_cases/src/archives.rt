//! The bytes of a group, what a folder of them shows, and the lines from which a publisher goes on.

use crate::reading::{feed, part_of_block};
use crate::words::{put_entries, put_path};
use oc_folder::{Index, LastLine};
use std::alloc::Global;
use test_tools::{Fault, spelled_in};

/// Appends the words of a row: a line for each batch, with those of the entries that are shown from then on, the line of
/// the end, and those of all entries so far.
pub fn put_words(alloc: Global, given: &str, said: &mut String) -> Result<(), Fault> {
    let bytes = spelled_in(alloc, given)?;
    let mut index = Index::new(alloc)?;
    for _ in 0..bytes.len() {
        let batches = index.batches();
        if !feed(alloc, &mut index, &bytes)? {
            break;
        }
        if index.batches() != batches {
            put_batch(alloc, said, &index)?;
        }
    }
    put_end(alloc, said, &index, &bytes)
}

fn put_batch(alloc: Global, said: &mut String, index: &Index) -> Result<(), Fault> {
    let (end, batches) = (index.end(), index.batches());
    write!(said, "shown {end} batches {batches}, ")?;
    put_entries(alloc, said, index.shown())
}

fn put_end(alloc: Global, said: &mut String, index: &Index, bytes: &[u8]) -> Result<(), Fault> {
    let count = bytes.len() as u64;
    let sound = if index.is_sound() { 1 } else { 0 };
    let rest = index.rest(count, part_of_block(index, bytes));
    write!(said, "at {count} sound {sound} rest {rest}, ")?;
    let last = index.last_line(count)?;
    match last {
        LastLine::Drop => put_entries(alloc, said, index.shown())?,
        _ => put_entries(alloc, said, index.entries())?,
    }
    put_last_line(said, &last)
}

fn put_last_line(said: &mut String, line: &LastLine) -> Result<(), Fault> {
    let word = match line {
        LastLine::Foreign => "foreign",
        LastLine::Drop => "drop",
        LastLine::Open => "open",
        LastLine::Whole => "whole",
        LastLine::Rest(came, path) => {
            write!(said, "rest {came} ")?;
            return put_path(said, path.items());
        }
    };
    Ok(said.push_str(word)?)
}
