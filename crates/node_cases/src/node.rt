//! A node, alone and on its three files.

mod acts;
mod files;
mod given;
mod inputs;
mod keeps;
mod steps;
mod stops;
mod trials;

use oc_io::MemDisk;
use std::alloc::Global;
use std::io;
use test_tools::{Cases, Fault};

/// The words of the rows, by table.
struct NodeTables;

impl Cases for NodeTables {
    fn put_words(alloc: Global, table: &str, given: &str, said: &mut String) -> Result<(), Fault> {
        match table {
            "steps" => steps::put_words(alloc, given, said),
            "keeps" => keeps::put_words::<MemDisk>(alloc, given, said),
            "trials" => trials::put_words::<MemDisk>(alloc, given, said),
            "stops" => stops::put_words::<MemDisk>(alloc, given, said),
            _ => Err(Fault::Field),
        }
    }
}

/// Plays the tables, one after another.
pub fn play(rt: &HostRuntime) -> io::Result<()> {
    test_tools::play::<NodeTables, _>(rt, "node", &["steps", "keeps", "trials", "stops"])
}
