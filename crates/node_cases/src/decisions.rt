//! The decisions and the memory of a node.

mod adoptions;
mod leases;
mod logs;
mod measures;
mod places;
mod redirects;
mod roots;
mod tables;

use std::alloc::Global;
use std::io;
use test_tools::{Cases, Fault};

/// The words of the rows, by table.
struct DecisionTables;

impl Cases for DecisionTables {
    fn put_words(alloc: Global, table: &str, given: &str, said: &mut String) -> Result<(), Fault> {
        match table {
            "tables" => tables::put_words(alloc, given, said),
            "logs" => logs::put_words(alloc, given, said),
            "leases" => leases::put_words(alloc, given, said),
            "adoptions" => adoptions::put_words(alloc, given, said),
            "places" => places::put_words(alloc, given, said),
            "roots" => roots::put_words(alloc, given, said),
            "measures" => measures::put_words(alloc, given, said),
            "redirects" => redirects::put_words(alloc, given, said),
            _ => Err(Fault::Field),
        }
    }
}

/// Plays the tables, one after another.
pub fn play(rt: &HostRuntime) -> io::Result<()> {
    test_tools::play::<DecisionTables, _>(
        rt,
        "decisions",
        &[
            "tables",
            "logs",
            "leases",
            "adoptions",
            "places",
            "roots",
            "measures",
            "redirects",
        ],
    )
}
