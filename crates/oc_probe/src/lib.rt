//! Rates to other nodes, and the peer to be measured next.
//!
//! A probe downloads [`PROBE_BYTES`] bytes from a node. Its rate in bytes per second is [`rate_of`] two
//! readings of the clock in milliseconds, before the dial and after the last byte; a [`ProbeFault`] says why
//! there is none.
//!
//! A [`Gauge`] keeps the last five rates of each peer and gives their median (`IsMedian`, of which
//! [`rates_have_one_median`] says that there is one), and a [`Rotation`] gives the peers in turn, for ever.
//! Neither takes memory after `Gauge::new`. A node keeps both ([`Probing`]).
#![tactic(auto)]

mod fault;
mod gauge;
mod law;
mod probing;
mod rate;
mod recent;
mod rotation;

pub use fault::ProbeFault;
pub use gauge::Gauge;
pub use law::rates_have_one_median;
pub use oc_base::{Memory, NodeId};
pub use probing::Probing;
pub use rate::{PROBE_BYTES, rate_of};
pub use rotation::Rotation;
