//! The state of a node, in the parts that its rules read and change.
//!
//! [`Durable`] is the part that a stop leaves: only records change it, and a snapshot of it has few records
//! that replace all earlier ones. [`Position`] is its small part: the position in the tree, and the node's
//! counts. The part that a start clears has three pieces: [`Volatile`], the nodes still to be asked
//! ([`Tries`]), and the lists with an item for each node, which a [`ListUpdate`] changes.
//!
//! The modules `modes`, `ranks`, `children` and `shelves` answer the questions that the rules ask.
//!
//! The layers above rely on these: folding records gives the model's `folded`, a snapshot is the model's
//! `snapshot`, and each question is answered as the model's definition of the same name says.
#![tactic(auto)]

pub mod children;
mod durable;
mod list_update;
mod log;
pub mod modes;
mod position;
pub mod ranks;
pub mod shelves;
mod snapshot;
mod tries;
mod volatile;

pub use durable::Durable;
pub use list_update::{ListUpdate, reserve_lists, update_all};
pub use position::Position;
pub use tries::Tries;
pub use volatile::Volatile;
