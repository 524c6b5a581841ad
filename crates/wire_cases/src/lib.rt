//! Worked cases of bytes and texts: messages between nodes, HTTP, and the texts that a node and a client read and write.
//!
//! Each module plays the tables of one folder of `crates/cases/data`, and prints a line for each
//! row: the names of its table and of the row and `ok`, or the words that came instead of the
//! expected ones. The first lines of a table explain its rows.
//!
//! - `wire`: messages as bytes and as requests, and heads and bodies of HTTP messages.
//! - `service`: configurations, access rules, measures, chunked coding, and the meaning and the
//!   replies of requests.
#![tactic(auto)]

pub mod service;
pub mod wire;
