//! The up/down protocol of one node: the change log, which holds the certificates for its parent,
//! and the leases of its children.
//!
//! As in the Overcast paper (section 4.3), a child reports births and deaths to its parent as they come,
//! each once, and a parent takes a child to be dead that it has not heard of for the duration of a lease.
//!
//! The certificate table: a node's knowledge of the nodes below it, as the newest certificate of each.
//!
//! A table keeps a row for each node, so a question about one node costs the same for any number of
//! nodes. The list of all nodes beneath a root is never kept: a walk over the rows finds it, as in the
//! up/down protocol of the Overcast paper (section 4.3), in which the newest birth or death certificate
//! of a node counts.
//!
//! The choice of the node to which a client is sent.
//!
//! A root redirects a client to a node that its own table lists, as in Overcast (Jannotti et al., OSDI
//! 2000, section 4.5). The choice among these is our own rule: a node past the chain, in the client's
//! area if there is one, and of these the one that was named to the fewest clients.
//!
//! The layers above rely on these: [`select`] is `selected` of the model, and takes no memory;
//! [`the_freest_listed_is_selected`] says which node that is: one past the chain that is listed, in the
//! client's area if such a node is there, of those the one that was named to the fewest clients, and of
//! several the one with the least id.
//!
//! [`location`] and [`follow_location`] write the texts that tell the client where to go.
//!
//! The measures of a node: the rate and the hops that were put last for each peer.
//!
//! A contract sees [`Measures`] as the list of readings by the number of a peer, as in the model.
//! The layers above rely on this: [`Measures::get`] gives the reading that was put last for that peer,
//! or `(0, 0)`; [`what_was_put_last_is_got`] says so for every sequence of puts.
//!
//! [`read_lines`] reads the measure lines of a configuration: exactly the measures of its lines, or
//! the first bad line and its cause (`measures_in`).
#![tactic(auto)]

mod change_log;
mod children;
mod last_put;
mod leases;
mod listing;
mod locating;
mod measure_fault;
mod measure_lines;
mod measures;
mod post;
mod preference;
mod redirection_law;
mod rows;
mod selecting;
mod table;
mod waiting;
mod walk;

pub use change_log::ChangeLog;
pub use last_put::what_was_put_last_is_got;
pub use leases::{LEASE_TIME, Leases};
pub use locating::{follow_location, location};
pub use measure_fault::MeasureFault;
pub use measure_lines::{Measure, read_lines};
pub use measures::Measures;
pub use oc_base::Line;
pub use redirection_law::the_freest_listed_is_selected;
pub use selecting::select;
pub use table::Table;
