//! Laws of folders in every world that events lead to from a new one: what a node shows of a group is the folder as it
//! was at the source after some batch, whole, and it never goes back.
//!
//! A node shows what an index of its bytes has come to (`oc_folder`). Two facts carry the laws: each node holds a
//! beginning of the source's bytes, and no node ever loses a byte, by a start or a stop either (`proofs/Grown`). So the
//! readings of a node and of the source go through the same states, one further than the other, and a reading that goes on
//! never goes back (`proofs/Later`).
//!
//! [`folders_are_snapshots`], [`folders_go_forward`] and [`clients_sent_on_go_forward`] have no premise, and hold after any
//! events, in any order, and in each world on the way. [`groups_are_read`] says that each group has a reading, so that they
//! speak of something. [`folders_compute`] has a worked run.
#![tactic(auto)]

mod examples;
mod law;

pub use examples::folders_compute;
pub use law::{
    clients_sent_on_go_forward, folders_are_snapshots, folders_go_forward, groups_are_read,
};
