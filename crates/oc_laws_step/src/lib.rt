//! Laws of one step of a node, for every node and every input, about the definitions of `oc_model`.
//!
//! A law is a public function with an empty body; code that relies on the law calls it, and may then use
//! its clauses. [`folding_is_stepping`] says that the records of a step hold its whole durable change, so
//! that "the state after the input" and "the state after a crash and a restart" are one fold of one list.
//! [`snapshots_stand_for_all`] says that a snapshot may replace all records before it.
//! [`steps_fit_a_frame`] says that the records of one input fit one frame. [`reached_nodes_are_sound`] has
//! the property of nodes that all this needs: a new node has it, and keeps it for any inputs.
//! [`lawful_nodes_stay_lawful`] says that lawful inputs lead to lawful nodes, records and messages. The
//! other laws are about the orders that decide in a step: of ranks, and of certificates.
#![tactic(auto)]

mod folding;
mod frames;
mod lawful;
mod order;
mod reached;
mod snapshots;

pub use folding::folding_is_stepping;
pub use frames::steps_fit_a_frame;
pub use lawful::lawful_nodes_stay_lawful;
pub use order::{
    certificates_are_ordered, merging_finds_the_newest, ranks_are_ordered, ranks_never_worsen,
};
pub use reached::reached_nodes_are_sound;
pub use snapshots::snapshots_stand_for_all;
