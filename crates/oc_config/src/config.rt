ghost use Rattle.std.specs.Prelude.{◌≡◌, option_map};
ghost use Rattle.oc_config.specs.Settings.{key_of};

use oc_policy::{Key, Keyring, Rule};
use oc_updown::Measure;
use std::marker::Model;

/// The greatest number of bytes of a chunk that a configuration can ask for.
pub const MAX_CHUNK: u32 = 524_288;

/// The number of bytes of a chunk where a configuration has none.
pub const FIRST_CHUNK: u32 = 262_144;

/// The settings of a configuration. Contracts see them as the record `Settings` of lists.
///
/// The lists of the nodes have a place for each id, from 1 to the greatest that a node can have, also where no table has
/// it.
#[derive(Drop)]
pub struct Config {
    /// The number of chain members: the nodes 1 to this one.
    pub chain: u32,
    /// The greatest number of bytes of a group that one chunk carries.
    pub(crate) chunk: u32,
    /// The keys of the network, if it has some.
    pub keys: Option<Keyring>,
    /// Whether each node is retired, by its id.
    pub retired: Vec<bool>,
    /// The address that others are told of each node, by its id: a host, `:` and a port. A node that is retired has none,
    /// nor has an id without a table.
    pub addresses: Vec<Option<String>>,
    /// The address at which each node listens, by its id: its `listen`, or its address where it has none.
    pub listens: Vec<Option<String>>,
    /// The area of each node, by its id.
    pub areas: Vec<u8>,
    /// The name of each node, by its id, if it has one.
    pub names: Vec<Option<String>>,
    /// The measures, in the order of the text.
    pub measures: Vec<Measure>,
    /// The access rules, in their order.
    pub rules: Vec<Rule>,
}

impl Config {
    /// The greatest number of bytes of a group that one chunk carries: 1 to [`MAX_CHUNK`], and [`FIRST_CHUNK`]
    /// where the text has none.
    pub fn chunk(&self) -> u32
        ensures { result ≡ self.now.chunk }
    {
        self.chunk
    }

    /// The key for the MACs of messages that go out, if the network has one.
    pub fn key(&self) -> Option<&Key>
        ensures { option_map (λ k. k.now) result ≡ key_of self.now.keys }
    {
        match &self.keys {
            Some(ring) => Some(&ring.key),
            None => None,
        }
    }
}

impl Model for Config {
    ghost use Rattle.std.specs.Prelude.{map, option_map, string_bytes};
    ghost use Rattle.oc_config.specs.Settings.{Settings};

    ghost Value = { Settings };

    ghost view = { λ c. record {
      chain = c.chain;
      chunk = c.chunk;
      keys = c.keys;
      retired = c.retired.items;
      addresses = map (option_map string_bytes) c.addresses.items;
      listens = map (option_map string_bytes) c.listens.items;
      areas = c.areas.items;
      names = map (option_map string_bytes) c.names.items;
      measures = c.measures.items;
      rules = c.rules.items;
    } };
}
