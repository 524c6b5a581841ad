//! `settle` and `heal`, which bring a world of nodes to rest, act by act, over anything that plays acts.
//!
//! A [`Cluster`] is the whole interface of the layer below: it plays an act, and shows a few parts of the present
//! world. [`settle`] and [`heal`] choose each act in the world that the earlier ones left, and play exactly the
//! acts of the model, `settle_acts` and `heal_acts`. If memory runs out, they have played a prefix of these acts.
//! [`is_settled`] says whether there is anything left to settle.
//!
//! Each inner call that plays acts has the contract `Plays` for a run of the model, or `Begins` if memory ran out
//! (`specs/Way`). `playing` has single acts and small groups of them, `rounds` the acts of many nodes;
//! `tree` and `lengths` have the links of the nodes and the length of each way up to the root; `readiness`,
//! `first_steps` and `settling` are for settle, `placing`, `join_steps` and `joining` for heal. The runs are
//! in `specs/Played` and `specs/CalmRuns` under names that proofs don't unfold, so that each proof uses only the
//! facts it needs.
#![tactic(auto)]

mod cluster;
mod first_steps;
mod healing;
mod join_steps;
mod joining;
mod lengths;
mod placing;
mod playing;
mod readiness;
mod rounds;
mod settled;
mod settling;
mod tree;

pub use cluster::Cluster;
pub use healing::heal;
pub use settled::is_settled;
pub use settling::settle;
