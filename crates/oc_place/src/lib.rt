//! A node's place in the tree: its choice of a place, its choice of children, and the order of its asks.
//!
//! A node looks for a place that is as far from the source as possible and about as fast as a direct one. In a
//! descent from the root it chooses among the children of the node it asked; when joined, it compares its place with
//! its grandparent and its siblings, as in Overcast (Jannotti et al., OSDI 2000, section 4.2). The exact margin of
//! ten per cent and the choice by hops and then by id are our own. Rates are in bytes per second, 0 for one not
//! measured. [`choose`] is `chosen` and [`review`] is `reviewed` of the model, for all rates.
//! [`the_nearest_suitable_is_chosen`] says that a chosen candidate is suitable, and that no suitable one has fewer hops,
//! or as many and a smaller id.
//!
//! Parent links make no cycle, since a parent's rank precedes its child's and a rank never gets worse. [`may_adopt`]
//! ensures the first and [`take_rank`] the second. A contract sees a [`Host`] as the model's, and each call as the
//! model's function of the same name. [`may_adopt`] answers the first refusal with a cause, and Ok exactly if none
//! has a cause ([`the_first_cause_refuses`]). The laws of `oc_laws_step` say that a new rank is the old one or
//! precedes it, and that precedence is a strict order.
//!
//! The nodes from 1 to `chain` form one line beneath the source, so that one of them can act as the root, as in
//! Overcast (section 4.4). The order in which a node asks is our own rule: a chain member asks the members before it,
//! the nearest first, and any other node its ancestors and then the chain. [`ask_order`] is the model's list, which
//! has each node once, without the asker and the node that is left out ([`each_is_asked_once`]).
//!
//! The epoch of a rank rises one by one: [`raise`] gives the next one, or none after the last number.
//!
//! Only [`ask_order`] takes memory.
#![tactic(auto)]

mod adopt;
mod choosing;
mod host;
mod law;
mod left_out;
mod membership;
mod numbers;
mod order;
mod reviewing;
mod take;
mod view;

pub use adopt::may_adopt;
pub use choosing::choose;
pub use host::Host;
pub use law::{each_is_asked_once, the_first_cause_refuses, the_nearest_suitable_is_chosen};
pub use numbers::raise;
pub use oc_base::Refusal;
pub use oc_model::{Candidate, Review};
pub use order::ask_order;
pub use reviewing::review;
pub use take::take_rank;
pub use view::View;
