//! Runs of a program as processes, on real files and sockets, row by row.
//!
//! The program is the one that runs: it starts itself, with the words of a row. [`play`] plays the
//! rows of `runs.txt`, each a run with its words and its input; those of `served.txt`, with a node
//! that it has started, and those of `talks.txt`, conversations with that node; those of
//! `peers.txt`, with a peer that it plays itself; three nodes, of which it kills one; and last it
//! kills a node in the middle of publishing, again and again. It prints a line for each: its name
//! and `ok`, or the first difference from the expected end.
#![tactic(auto)]

mod asking;
mod case;
mod ending;
mod following;
mod killing;
mod node;
mod peering;
mod playing;
mod serving;
mod starting;
mod talking;
mod texts;

pub use playing::play;
