//! Worked cases of one node: its storage, its decisions, and its work with its files.
//!
//! Each module plays the tables of one folder of `crates/cases/data`, and prints a line for each
//! row: the names of its table and of the row and `ok`, or the words that came instead of the
//! expected ones. The first lines of a table explain its rows.
//!
//! - `storage`: journals, control records, the two control files, and the content log, on disks that fail and crash.
//! - `decisions`: certificate tables, change logs, leases, adoptions, places in the tree, roots, measures and redirection.
//! - `node`: a node alone, step by step; and one on its three files, with every crash.
#![tactic(auto)]

mod acting;
pub mod decisions;
pub mod node;
pub mod storage;
