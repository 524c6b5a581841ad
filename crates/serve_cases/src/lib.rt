//! Worked cases of clients and of running nodes, in memory.
//!
//! Each module plays the tables of one folder of `crates/cases/data`, and prints a line for each
//! row: the names of its table and of the row and `ok`, or the words that came instead of the
//! expected ones. The first lines of a table explain its rows.
//!
//! - `connections`: dials, rates and peers, and conversations of the clients with servers.
//! - `serve`: the turns of a running node. A row names a setting, which is a row of `settings.txt`,
//!   and has a scene: the events of the node's turns.
#![tactic(auto)]

pub mod connections;
pub mod serve;
