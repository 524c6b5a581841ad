//! The step of a node under way, and the plan as its result.
//!
//! A [`Step`] borrows the node as it is [`Before`] the step, and holds only the changes, so the cost of a step
//! depends on the parts that its rules look at. A rule leads the step on in a few ways: by a record, a message,
//! an answer, bytes that are kept or wanted, and changes of the parts that a start clears.
//!
//! The resulting [`Plan`] holds all memory that the step takes, and is taken apart into its [`Changes`].
//!
//! The layer above relies on this: a contract sees a [`Step`] as the model's step under way (`Plan` of
//! `oc_model`), each way to lead it on is the model's definition, and a finished plan is the step so far.
#![tactic(auto)]

mod before;
mod next_certs;
mod plan;
mod since;
mod step;
mod told;

pub use before::Before;
pub use plan::{Changes, Plan};
pub use step::Step;
