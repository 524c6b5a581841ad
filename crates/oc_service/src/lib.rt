//! A node from its files to the end of its turns.
//!
//! [`run_node`] is the call for the layer above. It loads the node of a configuration from its
//! three files, has its link listen, takes the measures, and makes the number of turns of its task.
//! At the end of each turn it looks at the file of its configuration, and goes by what the file says
//! then. Its [`Site`] is given by the caller and given back.
//!
//! `specs/WhatNodeDoes` defines the deeds of a node on one page: a machine whose steps are turns,
//! given the reports of the link and the clock in each. The contract of [`run_node`] is that
//! definition (`NodeEnds`): the lines written are those of the machine's deeds, the calls on the
//! link are theirs, and every crash leaves the node after them. If the run ended early, a prefix of
//! these deeds was done, perhaps with one more input under way. In both cases each connection was
//! given the replies to its requests (`specs/WhatNodeGives`, by the law of `oc_server`), a line `!
//! source` or `! write` was written only if the link reported that failure (`specs/Failures`), and
//! at each prefix of the deeds every crash at any moment left the node of the inputs so far, or
//! with one more (`specs/AtAnyMoment`).
//!
//! [`lines_of_failures_raise_counts`] says the part about failures by the counts of the link, and
//! [`the_same_bytes_are_answered_alike`] that the cuts between the bytes of a request make no difference.
//! [`machine_computes`] is a worked example of the machine: a node that reads its configuration again.
#![tactic(auto)]

mod law;
mod loading;
mod measuring;
mod probing;
mod running;
mod site;

pub use law::{
    lines_of_failures_raise_counts, machine_computes, the_same_bytes_are_answered_alike,
};
pub use oc_deeds::{Log, TurnEnd};
pub use oc_routes::About;
pub use running::{NodeEnd, Ran, Task, run_node};
pub use site::Site;
