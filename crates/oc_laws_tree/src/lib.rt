//! Laws of the tree in every world that events lead to from a new one: the knowledge of parents, the lines
//! of tables, and the causes of wrong lines in a root's table. These have no premise.
//!
//! They rest on the fine machine of `oc_laws_world`, and have the same form: a law is a public function with
//! an empty body, and a property that holds `Always` holds after any events and in each world on the way.
//! [`own_numbers_have_one_count`], [`grants_are_known`],
//! [`acknowledged_facts_are_known`] and [`children_are_covered`] are invariants of the small changes;
//! [`every_line_is_explained`], [`every_count_is_informed`] and [`settled_trees_are_listed_exactly`]
//! follow from them in each single world; [`lease_ends_lie_ahead`] is an invariant of the events.
//!
//! Three more are about any world: [`explanations_follow`] says from which properties the explanations
//! follow, [`settled_trees_have_no_cause`] and [`walks_are_listings`] say what the terms in them mean.
//!
//! Laws of settle and heal: when they are refused, the world after them, and the number of their acts.
//!
//! They rest on the laws of the tree, and have the same form. The crates above use [`ready_worlds_settle`]:
//! from every ready world that events lead to, settle leaves a tree whose root lists exactly the nodes in
//! it. [`able_worlds_heal`] says so of heal, within the limits of a header, and
//! [`heal_goes_step_by_step`] describes its four steps.
//!
//! Two facts carry the proofs. A fact that is told is never news to the parent that it names, nor is a fact
//! about a child whose lease that node holds at its present number; so a check-in neither makes nor ends
//! such a lease. And each lease end is later than the clock, by at most the duration of a lease; so ticks
//! that go on by thirty seconds, with the check-ins between, end each lease that is not current and no other.
//! Passes over the nodes (`proofs/Passes`) extend the effect of one tick or one check-in to a whole step.
#![tactic(auto)]

mod counts;
mod coverage;
mod examples;
mod grants;
mod healing;
mod lease_ends;
mod listings;
mod refusals;
mod sessions;
mod settling;

pub use counts::own_numbers_have_one_count;
pub use coverage::children_are_covered;
pub use examples::causes_occur;
pub use grants::grants_are_known;
pub use healing::{able_worlds_heal, heal_goes_step_by_step};
pub use lease_ends::lease_ends_lie_ahead;
pub use listings::{
    every_count_is_informed, every_line_is_explained, explanations_follow,
    settled_trees_are_listed_exactly, settled_trees_have_no_cause, walks_are_listings,
};
pub use refusals::{unable_worlds_refuse_heal, unready_worlds_refuse_settle};
pub use sessions::acknowledged_facts_are_known;
pub use settling::{ready_worlds_settle, settle_takes_few_acts};
