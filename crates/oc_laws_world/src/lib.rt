//! Laws of every world that events lead to from a new one, about the definitions of `oc_model`, without a
//! premise.
//!
//! A law is a public function with an empty body. Code that relies on the law calls it, and may then use
//! its clauses. [`content_stays_true`], [`ranks_hold`], [`parent_links_form_no_cycle`] and
//! [`ask_numbers_have_one_peer`] say what holds `Always`: after any list of events, and in each world on
//! the way, as a replay needs it. The lemmas about processes and groups in `proofs/` concern the model
//! alone, for the crates above.
//!
//! [`only_chain_nodes_redirect`] is about one step. [`records_are_schedules`] says that the records of
//! running nodes make such a list of events; [`merging_takes_the_most`] and [`missed_inputs_are_found`] say
//! how the records tell which one.
//!
//! The laws of the tree are invariants of one fine machine (`proofs/Machine`), a transition system with
//! some twenty small changes of one node: every step, start and stop is a sequence of them. `proofs/Laws`
//! extends their invariants to every list of events.
#![tactic(auto)]

mod content;
mod numbers;
mod ranks;
mod records;
mod redirects;
mod worlds;

pub use content::content_stays_true;
pub use numbers::ask_numbers_have_one_peer;
pub use ranks::{parent_links_form_no_cycle, ranks_hold};
pub use records::{
    merges_compute, merging_takes_the_most, missed_inputs_are_found, records_are_schedules,
};
pub use redirects::only_chain_nodes_redirect;
pub use worlds::{chains_are_computed, events_go_on, tests_decide};
