ghost use Rattle.std.specs.Prelude.{◌≡◌};
ghost use Rattle.oc_config.specs.Keys.{key_text};

use std::fmt;

/// A key of a configuration.
#[derive(Clone, Copy, Debug)]
pub enum ConfigKey {
    Chain,
    Nodes,
    Chunk,
    /// The key of the nodes.
    NodeKey,
    /// The keys that are accepted besides the key of the nodes.
    Accept,
    Node,
    Id,
    Retired,
    Address,
    Listen,
    /// The area of a node or of a rule.
    Area,
    Name,
    Measures,
    Rule,
    Allow,
    Prefix,
    Method,
    Token,
}

impl ConfigKey {
    /// The key as it appears in the text.
    pub fn word(self) -> &'static str
        ensures { result.now ≡ key_text self }
    {
        match self {
            ConfigKey::Chain => "chain",
            ConfigKey::Nodes => "nodes",
            ConfigKey::Chunk => "chunk",
            ConfigKey::NodeKey => "key",
            ConfigKey::Accept => "accept",
            ConfigKey::Node => "node",
            ConfigKey::Id => "id",
            ConfigKey::Retired => "retired",
            ConfigKey::Address => "address",
            ConfigKey::Listen => "listen",
            ConfigKey::Area => "area",
            ConfigKey::Name => "name",
            ConfigKey::Measures => "measures",
            ConfigKey::Rule => "rule",
            ConfigKey::Allow => "allow",
            ConfigKey::Prefix => "prefix",
            ConfigKey::Method => "method",
            ConfigKey::Token => "token",
        }
    }
}

impl fmt::Display for ConfigKey {
    fn fmt<W: fmt::Write>(&self, f: &mut fmt::Formatter<W>) -> fmt::Result {
        f.write_str(self.word())
    }
}
