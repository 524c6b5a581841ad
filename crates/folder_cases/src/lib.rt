//! Worked cases of folders: the bytes of groups, and what they are read as.
//!
//! The tables are in the folder `folders` of `crates/cases/data`. A line is printed for each row: the names of its table
//! and of the row and `ok`, or the words that came instead of the expected ones. The first lines of a table explain its
//! rows.
#![tactic(auto)]

mod archives;
mod paths;
mod reading;
mod words;

use std::alloc::Global;
use std::io;
use test_tools::{Cases, Fault};

/// The words of the rows, by table.
struct FolderTables;

impl Cases for FolderTables {
    fn put_words(alloc: Global, table: &str, given: &str, said: &mut String) -> Result<(), Fault> {
        match table {
            "archives" => archives::put_words(alloc, given, said),
            "paths" => paths::put_words(alloc, given, said),
            _ => Err(Fault::Field),
        }
    }
}

/// Plays the tables, one after another.
pub fn play(rt: &HostRuntime) -> io::Result<()> {
    test_tools::play::<FolderTables, _>(rt, "folders", &["archives", "paths"])
}
