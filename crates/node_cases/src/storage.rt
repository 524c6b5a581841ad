//! The storage of a node on disks.

mod contents;
mod journals;
mod records;
mod stores;

use std::alloc::Global;
use std::io;
use test_tools::{Cases, Fault};

/// The words of the rows, by table.
struct StorageTables;

impl Cases for StorageTables {
    fn put_words(alloc: Global, table: &str, given: &str, said: &mut String) -> Result<(), Fault> {
        match table {
            "journals" => journals::put_words(alloc, given, said),
            "records" => records::put_words(alloc, given, said),
            "stores" => stores::put_words(alloc, given, said),
            "contents" => contents::put_words(alloc, given, said),
            _ => Err(Fault::Field),
        }
    }
}

/// Plays the tables, one after another.
pub fn play(rt: &HostRuntime) -> io::Result<()> {
    test_tools::play::<StorageTables, _>(
        rt,
        "storage",
        &["journals", "records", "stores", "contents"],
    )
}
