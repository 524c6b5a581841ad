//! The messages of nodes, and HTTP.

mod heads;
mod messages;
mod pieces;
mod requests;
mod texts;
mod words;

use std::alloc::Global;
use std::io;
use test_tools::{Cases, Fault};

/// The words of the rows, by table.
struct WireTables;

impl Cases for WireTables {
    fn put_words(alloc: Global, table: &str, given: &str, said: &mut String) -> Result<(), Fault> {
        match table {
            "messages" => messages::put_words(alloc, given, said),
            "requests" => requests::put_words(alloc, given, said),
            "texts" => texts::put_words(alloc, given, said),
            "heads" => heads::put_words(alloc, given, said),
            _ => Err(Fault::Field),
        }
    }
}

/// Plays the tables, one after another.
pub fn play(rt: &HostRuntime) -> io::Result<()> {
    test_tools::play::<WireTables, _>(rt, "wire", &["messages", "requests", "texts", "heads"])
}
