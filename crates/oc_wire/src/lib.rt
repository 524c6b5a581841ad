//! Messages between nodes as bytes and as HTTP requests: each message has one spelling, and each
//! refusal of bytes names their first fault.
//!
//! A message is spelled by its sender, its receiver, the code of its kind and the fields of that kind,
//! numbers big-endian, and nothing after them. `specs/Spelling` has the one spelling of each message,
//! `specs/FieldReading` and `specs/MessageReading` the fields and the message that bytes spell, or their first
//! fault, and `specs/Requests` the message that the bytes of a request bring.
//!
//! The contracts used above: [`decode`] gives a message exactly where the bytes are its spelling, and else
//! the first fault; [`encode`] writes that spelling; no two messages have one spelling, which rests
//! on no two kinds, and no two refusals, having one code. [`from_http`] gives the message that a POST to
//! `/!overcast` brings, or the first fault; it reads the request that [`to_http`] wrote as the same message, and
//! there is one answer to the bytes of a request. Where the nodes have keys, [`mac_for`] is the MAC in the head of a
//! message under the first of them, and [`is_authentic`] tells whether a head has the MAC under any: a message
//! under none of them is believed by nobody ([`messages_have_macs_under_a_key`]).
#![tactic(auto)]

mod children;
mod codes;
mod decoding;
mod encoding;
mod fault;
mod fields;
mod http;
mod http_fault;
mod kinds;
mod law;
mod macs;
mod message_decoding;
mod refusals;

pub use codes::CODES;
pub use decoding::decode;
pub use encoding::{encode, length_with_chunk, put_message};
pub use fault::WireFault;
pub use http::{from_http, to_http};
pub use http_fault::HttpWireFault;
pub use law::{
    codes_are_distinct, examples_are_read, least_lengths_are_exact, messages_have_macs_under_a_key,
    no_two_messages_have_one_spelling, requests_have_one_answer, spellings_are_read,
};
pub use macs::{is_authentic, mac_for};
pub use oc_model::{Body, Message};
pub use oc_policy::{Key, Keyring};
pub use refusals::REFUSALS;
