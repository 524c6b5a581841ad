//! The law that a network comes to rest by itself: nobody changes it any more, its nodes tick, and each message
//! arrives or its sender is told that it failed.
//!
//! `specs/Rounds` says what a round of such a run is, `specs/Rest` what rest is. [`rounds_compute`] has worked
//! examples of both, and of two runs that are none: one in which a failure is not told, and one in which the
//! nodes take turns without a clock; [`trees_compute`] of leases that end and of nodes that find a place.
//!
//! Proved whole is the law for a new network in which one chain member is up: [`new_networks_rest`]. Of every
//! world that events lead to, whatever places, ranks and leases its nodes have, and in which one chain member is
//! up and no way was measured, it is proved that the network becomes one tree by itself, that it stays one, and
//! that no lease is stale then: [`networks_of_one_member_become_ready`], [`trees_stay`], [`stale_leases_end`]. What
//! is not proved of it is that the nodes have told all that they know in the end. Of the way with several chain
//! members, and with measures, seven parts are proved: [`failures_are_noticed`], which holds of any world, and
//! [`asks_end`], [`joined_nodes_are_leased`], [`nodes_keep_their_parents`], [`least_members_become_roots`],
//! [`roots_forget_the_down`] and [`children_forget_the_down`], which hold of every world that events lead to.
#![tactic(auto)]

mod examples;
mod law;

pub use examples::{rounds_compute, trees_compute};
pub use law::{
    asks_end, children_forget_the_down, failures_are_noticed, joined_nodes_are_leased,
    least_members_become_roots, networks_of_one_member_become_ready, new_networks_rest,
    nodes_keep_their_parents, roots_forget_the_down, stale_leases_end, trees_stay,
};
