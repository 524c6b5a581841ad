ghost use Rattle.std.specs.Prelude.{◌≡◌};
ghost use Rattle.oc_config.specs.Keys.{keys_at, place_in};

use crate::config_key::ConfigKey;
use std::fmt;

/// A table of a configuration. Tables of an array are numbered from 1, in the order of the text.
#[derive(Clone, Copy, Debug)]
pub enum SectionName {
    /// The whole text.
    Top,
    /// The table of a node, by its number.
    Node(u32),
    /// The table of a rule, by its number.
    Rule(u32),
}

impl SectionName {
    /// The keys that the table can have.
    pub(crate) fn keys(self) -> &'static [ConfigKey]
        ensures { result.now ≡ keys_at self }
    {
        match self {
            SectionName::Top => &[
                ConfigKey::Chain,
                ConfigKey::Nodes,
                ConfigKey::Chunk,
                ConfigKey::NodeKey,
                ConfigKey::Accept,
                ConfigKey::Node,
                ConfigKey::Measures,
                ConfigKey::Rule,
            ],
            SectionName::Node(_) => &[
                ConfigKey::Id,
                ConfigKey::Retired,
                ConfigKey::Address,
                ConfigKey::Listen,
                ConfigKey::Area,
                ConfigKey::Name,
            ],
            SectionName::Rule(_) => &[
                ConfigKey::Allow,
                ConfigKey::Prefix,
                ConfigKey::Method,
                ConfigKey::Area,
                ConfigKey::Token,
            ],
        }
    }
}

/// The table before a fault, unless it is the whole text.
impl fmt::Display for SectionName {
    fn fmt<W: fmt::Write>(&self, f: &mut fmt::Formatter<W>) -> fmt::Result {
        match self {
            SectionName::Top => Ok(()),
            SectionName::Node(number) => write!(f, "node {number}: "),
            SectionName::Rule(number) => write!(f, "rule {number}: "),
        }
    }
}

/// The kind of the tables of an array.
#[derive(Clone, Copy)]
pub(crate) enum Kind {
    Node,
    Rule,
}

impl Kind {
    /// The table of this number.
    pub(crate) fn place(self, number: u32) -> SectionName
        ensures { result ≡ place_in self number }
    {
        match self {
            Kind::Node => SectionName::Node(number),
            Kind::Rule => SectionName::Rule(number),
        }
    }
}
