//! The edge: the real things that a program hands to the parts that are proved over any source, disk and link. They
//! are files as disks ([`FileDisk`]), a program's input ([`Input`]), the standard streams that were closed
//! ([`ClosedStreams`]), the sockets by which a client dials ([`SocketDialler`]), and sockets as the link of a running node
//! ([`SocketLink`]), which looks at the file of the node's configuration, too. All numbers, times and bounds are in
//! `limits`.
//!
//! The edge is trusted: each thing tells no more than the system does, of a file its size, of sockets counts and
//! lengths alone, and no story. Each counts its failures, makes interrupted calls again, and keeps the reason why its last call
//! failed ([`Trouble`]).
//!
//! No socket of a node blocks: one thread and one wait serve the incoming connections and the
//! dials. [`SocketLink`] hands out one event at a time, in turns over all connections and dials
//! that have one; bytes to send go out as far as a socket takes them, and the rest as the socket
//! has room. The safety of the link is proved, and that each of its calls ends, and that only
//! `next` waits, and no longer than it may. The end of a message is a pure function of its bytes,
//! with an exact contract (`specs/Extent.antt`); the link knows no more of HTTP.
#![tactic(auto)]

mod client_connection;
mod closed_streams;
mod config_watch;
mod connection;
mod dial;
mod extent;
mod failures;
mod file_disk;
mod incoming;
mod input;
mod limits;
mod link;
mod names;
mod passing;
mod places;
mod poller;
mod reply;
mod reply_body;
mod send_buffer;
mod socket;
mod socket_dialler;
mod sockets;
mod spares;
mod timed_stream;
mod times;
mod tools;
mod trouble;
mod turn_queue;
mod unsent;

pub use closed_streams::ClosedStreams;
pub use file_disk::{FileDisk, FilePlace};
pub use input::{Input, NamedFile};
pub use link::SocketLink;
pub use socket_dialler::SocketDialler;
pub use trouble::Trouble;
