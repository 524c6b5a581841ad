//! Dials, rates and peers, and conversations of the clients with servers in memory.

mod conversations;
mod dials;
mod peers;
mod publishings;
mod rates;
mod texts;

use std::alloc::Global;
use std::io;
use test_tools::{Cases, Fault};

/// The words of the rows, by table.
struct ConnectionTables;

impl Cases for ConnectionTables {
    fn put_words(alloc: Global, table: &str, given: &str, said: &mut String) -> Result<(), Fault> {
        match table {
            "dials" => dials::put_words(alloc, given, said),
            "rates" => rates::put_words(given, said),
            "peers" => peers::put_words(alloc, given, said),
            "conversations" => conversations::put_words(alloc, given, said),
            "publishings" => publishings::put_words(alloc, given, said),
            _ => Err(Fault::Field),
        }
    }
}

/// Plays the tables, one after another.
pub fn play(rt: &HostRuntime) -> io::Result<()> {
    let tables = ["dials", "rates", "peers", "conversations", "publishings"];
    test_tools::play::<ConnectionTables, _>(rt, "connections", &tables)
}
