//! The access rules of a node, and the keys of a network with the MAC of a message under one of them.
//!
//! A rule speaks of an action, of the groups within a prefix and of an area, and may ask for a token; a rule without
//! one of these parts speaks of all. [`decide`] gives the decision of the first rule that matches (`verdict`), and allows
//! where none matches. [`shadow`] names the first earlier rule that covers a rule: one that matches all that the rule
//! matches, over all actions, group names and areas (`rule_covers`). [`a_shadowed_rule_decides_nothing`] is the law
//! between the two. [`rules_text`] writes exactly the lines of the rules (`IsListing`), each with the number of the
//! first rule that shadows it, if there is one; no line tells a token ([`no_line_tells_a_token`]).
//!
//! [`Key::parse`] gives the bytes that a text spells, exactly where it spells a key (`specs/Keys`). [`mac_of`] is the MAC
//! of a body under a key: HMAC-SHA-256, which `specs/Hmac` defines as RFC 2104 does over the definition of SHA-256 that
//! `sha2` is proved of, in digits ([`macs_are_digits`]) that spell nothing else ([`no_two_digests_have_one_spelling`]).
//! [`is_mac_of`] tells whether a text is this MAC, byte for byte, and [`is_mac_in`] whether it is that of one of the keys
//! of a [`Keyring`]. No call copies the body, and only [`rules_text`] takes memory.
//!
//! Tokens and MACs are compared over all their bytes, wherever the first that differs is: the time that this
//! takes tells nobody how many were right. No contract promises this: the loop of `are_same` has no way out.
#![tactic(auto)]

mod deciding;
mod demand;
mod hmac;
mod key;
mod keyring;
mod law;
mod listing;
mod mac;
mod prefix;
mod rule;
mod same;
mod shadowing;
mod token;

pub use deciding::{Decision, MAX_RULES, decide};
pub use demand::Demand;
pub use hmac::hmac_sha256;
pub use key::Key;
pub use keyring::{Keyring, MAX_ACCEPTED, is_mac_in};
pub use law::{
    a_shadowed_rule_decides_nothing, macs_are_digits, no_line_tells_a_token,
    no_two_digests_have_one_spelling,
};
pub use listing::rules_text;
pub use mac::{MAC_DIGITS, Mac, is_mac_of, mac_of};
pub use oc_base::{GroupName, NameFault};
pub use prefix::Prefix;
pub use rule::{Action, Rule};
pub use shadowing::shadow;
pub use token::{MAX_TOKEN_BYTES, Token, TokenFault};
