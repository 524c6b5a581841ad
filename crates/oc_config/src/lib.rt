//! The configuration of a network: its nodes, its measures, and the rules of who may read and post.
//!
//! A configuration is a TOML text. [`read`] is the function that the layers above use: it gives exactly what
//! `settings_of` makes of the bytes, the settings or the first fault, unless memory runs out. The settings that are
//! read are within the ranges (`IsConfig`), and those of a node are those of the table with its id
//! ([`each_node_has_its_table`]).
//!
//! The table of a text is that of `toml` (`parse_document`); `specs/Reading` has the meaning of a table, with its
//! faults in their order, `specs/Nodes` the meaning of the table of a node, `specs/Accepted` that of the keys of
//! the network, `specs/AccessRules` that of the table of a rule, and `specs/Known` the keys that are none.
//!
//! A node that runs may read its configuration again: [`config_change`] gives its configuration from then on
//! (`specs/Changes`), and [`a_change_keeps_the_network`] tells what stays.
#![tactic(auto)]

mod address;
mod change;
mod config;
mod config_key;
mod fault;
mod fault_text;
mod key_name;
mod keyring;
mod known;
mod law;
mod name;
mod node_entry;
mod nodes;
mod reading;
mod rules;
mod section;
mod section_name;
mod values;

pub use change::{Running, config_change, has_measure};
pub use config::{Config, FIRST_CHUNK, MAX_CHUNK};
pub use config_key::ConfigKey;
pub use fault::ConfigFault;
pub use fault_text::put_fault;
pub use key_name::KeyName;
pub use law::{
    a_change_keeps_the_network, each_address_is_a_host, each_node_has_its_table, examples_are_read,
    examples_are_taken_over,
};
pub use name::MAX_NAME_BYTES;
pub use oc_base::Why;
pub use oc_policy::{Action, Demand, Key as NodeKey, Keyring, MAX_ACCEPTED, Prefix, Rule, Token};
pub use oc_updown::Measure;
pub use reading::read;
pub use section_name::SectionName;
