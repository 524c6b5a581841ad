//! All nodes of a network on their files, and every message between them.
//!
//! A [`World`] keeps each node as a process on three disks in memory, up or down, and each message
//! as the bytes of its request, from which the text of that request follows. A node that is up runs
//! by the same `Kept` as the one node of the running program; a node that is down has no state in
//! memory: its state is recovered from its files.
//!
//! The contract for the layers above: [`World::event`] leaves exactly the model's `next_world`, and
//! gives the model's word and the messages that were sent; so a [`World`] is a stage of a replay.
//! An act at a node whose control files are ripe leaves them with a greater generation. At each
//! moment between two calls every crash of a node's disks leaves the durable part of the node that
//! a contract sees: [`World::into_disks`] gives the disks, with that as its contract.
//!
//! `specs/ProcessView` and `specs/ProcessState` define the view of one node and its files,
//! `specs/Net` the view of the messages, and `specs/World` the world of the model that these make.
#![tactic(auto)]

mod acting;
mod arrivals;
mod cluster;
mod letter;
mod net;
mod pools;
mod process;
mod process_acts;
mod process_state;
mod process_status;
mod processes;
mod stage;
mod starting;
mod stopping;
mod texts;
mod world;

pub use world::World;
