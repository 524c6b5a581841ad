//! Worked cases of requests for contents: what they select, and the values of the fields of their replies.
//!
//! The tables are in the folder `selects` of `crates/cases/data`. A line is printed for each row: the names of its table
//! and of the row and `ok`, or the words that came instead of the expected ones. The first lines of a table explain its
//! rows.
#![tactic(auto)]

mod contents;
mod requests;
mod texts;

use std::alloc::Global;
use std::io;
use test_tools::{Cases, Fault};

/// The words of the rows, by table.
struct SelectTables;

impl Cases for SelectTables {
    fn put_words(alloc: Global, table: &str, given: &str, said: &mut String) -> Result<(), Fault> {
        match table {
            "tags" | "dates" | "ranges" | "orders" => requests::put_words(alloc, given, said),
            "values" => texts::put_values(alloc, given, said),
            "types" => texts::put_type(alloc, given, said),
            _ => Err(Fault::Field),
        }
    }
}

/// Plays the tables, one after another.
pub fn play(rt: &HostRuntime) -> io::Result<()> {
    let tables = ["tags", "dates", "ranges", "orders", "values", "types"];
    test_tools::play::<SelectTables, _>(rt, "selects", &tables)
}
