//! A configuration that is read again while a node runs.

ghost use Rattle.std.specs.Prelude.{◌≡◌, Option, length, option_map, slice_index_or, None, ◌-◌, ◌≤◌, string_bytes};
ghost use Rattle.oc_config.specs.Changes.{config_change, has_measure, keeps_areas, keeps_nodes, listen_at, restart_key, same_measure, same_presence, same_text};

use crate::config::Config;
use crate::config_key::ConfigKey;
use oc_base::NodeId;
use oc_policy::Keyring;
use oc_updown::Measure;

/// A node that runs while its configuration is read again.
#[derive(Clone, Copy)]
pub struct Running {
    pub me: NodeId,
    /// Whether the node writes a record, which has one header for all entries after it.
    pub recorded: bool,
}

/// The configuration of a node after it was read again: all of the new one, or the first key, in the order of
/// `restart_key`, whose change needs a new start of the node; then the old one stays.
pub fn config_change(running: Running, old: &Config, new: Config) -> Result<Config, ConfigKey>
    ensures { result ≡ config_change running old.now new }
{
    match restart_key(&running, old, &new) {
        Some(key) => Err(key),
        None => Ok(new),
    }
}

/// The first key whose change needs a new start of the node.
fn restart_key(running: &Running, old: &Config, new: &Config) -> Option<ConfigKey>
    ensures { result ≡ restart_key running.now old.now new.now }
{
    if !keeps_nodes(running, old.addresses.len(), new.addresses.len()) {
        Some(ConfigKey::Nodes)
    } else if old.chain != new.chain {
        Some(ConfigKey::Chain)
    } else if old.chunk != new.chunk {
        Some(ConfigKey::Chunk)
    } else if !same_presence(&old.keys, &new.keys) {
        Some(ConfigKey::NodeKey)
    } else if !keeps_listen(running.me, old, new) {
        Some(ConfigKey::Listen)
    } else if !keeps_areas(running, &old.areas, &new.areas) {
        Some(ConfigKey::Area)
    } else {
        None
    }
}

/// Whether the greatest id may go from one to the other: it may grow, except where the node writes a record.
fn keeps_nodes(running: &Running, old: usize, new: usize) -> bool
    ensures { result ≡ keeps_nodes running.now old new }
{
    if running.recorded {
        old == new
    } else {
        old <= new
    }
}

/// Whether both have keys, or neither has.
fn same_presence(old: &Option<Keyring>, new: &Option<Keyring>) -> bool
    ensures { result ≡ same_presence old.now new.now }
{
    old.is_some() == new.is_some()
}

/// Whether a node listens where it listened before.
fn keeps_listen(node: NodeId, old: &Config, new: &Config) -> bool
    ensures { result ≡ same_text (listen_at node old.now) (listen_at node new.now) }
{
    same_text(listen_at(node, old), listen_at(node, new))
}

/// The address at which a node listens.
fn listen_at(node: NodeId, config: &Config) -> Option<&str>
    ensures { option_map (λ s. s.now) result ≡ listen_at node config.now }
{
    match config.listens.get((node.0 as usize).saturating_sub(1)) {
        Some(Some(listen)) => Some(listen.as_str()),
        _ => None,
    }
}

fn same_text(old: Option<&str>, new: Option<&str>) -> bool
    ensures { result ≡ same_text (option_map (λ s. s.now) old.entry) (option_map (λ s. s.now) new.entry) }
{
    match (old, new) {
        (None, None) => true,
        (Some(old), Some(new)) => old == new,
        (None, Some(_)) | (Some(_), None) => false,
    }
}

/// Whether the areas may go from one to the other: the areas of a node that writes a record stay.
fn keeps_areas(running: &Running, old: &[u8], new: &[u8]) -> bool
    ensures { result ≡ keeps_areas running.now old.now new.now }
{
    if running.recorded { old == new } else { true }
}

/// Whether a measure is one of these. A node takes those of its own measures from a configuration that is taken over
/// which the configuration before had not.
pub fn has_measure(measure: Measure, measures: &[Measure]) -> bool
    ensures { result ≡ has_measure measure measures.now }
{
    measures.iter().any(|it| same_measure(measure, *it))
}

fn same_measure(first: Measure, second: Measure) -> bool
    ensures { result ≡ same_measure first second }
{
    first == second
}
