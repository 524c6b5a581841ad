ghost use Rattle.std.specs.Prelude.{◌≡◌, ◌++◌, nat_eq, codes, option_map};
ghost use Rattle.std.specs.List.{starts_with};
ghost use Rattle.oc_policy.specs.Prefixes.{IsPrefix, parsed_prefix, is_within};
ghost use Rattle.oc_policy.specs.Rules.{speaks_of};

use oc_base::{GroupName, NameFault};
use std::fmt;
use std::marker::Model;

/// The groups that a rule speaks of: `/` for all of them, or a group name for that group and for those
/// whose names begin with it and a `/`. Contracts see it as its bytes.
#[derive(Clone, Copy)]
pub struct Prefix {
    /// The name; none for `/`.
    name: Option<GroupName>,
}

impl Model for Prefix {
    ghost use Rattle.std.specs.Prelude.{ℕ, List, IsTrue, is_none};
    ghost use Rattle.std.specs.Option.{ForSome};
    ghost use Rattle.std.proofs.Common.{ap};
    ghost use Rattle.oc_base.specs.Names.{name_fault};
    ghost use Rattle.oc_policy.specs.PrefixBytes.{bytes_of, name_in, name_again};

    ghost Value = { List ℕ };

    ghost view = { λ p. bytes_of p.name };

    ghost invariant = { λ p. ForSome p.name (λ name. IsTrue (is_none (name_fault name))) };

    ghost inverse = { λ bytes. record { name = name_in bytes } };

    ghost inverse_ok = { λ p h. ap (λ name. record { name = name }) (name_again p.name h) };
}

impl Prefix {
    /// Reads a prefix, and takes no memory: `/` alone, or a group name with the faults of
    /// [`GroupName::parse`].
    pub fn parse(bytes: &[u8]) -> Result<Prefix, NameFault>
        ensures { result ≡ parsed_prefix bytes.now }
    {
        match bytes {
            [b'/'] => Ok(Prefix { name: None }),
            _ => Ok(Prefix {
                name: Some(GroupName::parse(bytes)?),
            }),
        }
    }

    /// The prefix's bytes.
    pub fn bytes(&self) -> &[u8]
        ensures bytes { result.now ≡ self.now }
        ensures lawful { IsPrefix self.now }
    {
        match &self.name {
            Some(name) => name.bytes(),
            None => b"/",
        }
    }

    /// Whether this prefix speaks of a group, or, without one, of a request that names no group.
    pub(crate) fn speaks_of(&self, group: Option<&GroupName>) -> bool
        ensures { result ≡ speaks_of self.now (option_map (λ g. g.now) group.entry) }
    {
        match group {
            Some(group) => is_within(self.bytes(), group.bytes()),
            None => matches!(self.bytes(), [b'/']),
        }
    }

    /// Whether this prefix holds the other one.
    pub(crate) fn covers(&self, other: &Prefix) -> bool
        ensures test { result ≡ is_within self.now other.now }
        ensures own { IsPrefix self.now }
        ensures other { IsPrefix other.now }
    {
        is_within(self.bytes(), other.bytes())
    }
}

/// Whether the prefix is `/`, or is the name, or the name begins with it and a `/`.
fn is_within(prefix: &[u8], name: &[u8]) -> bool
    ensures { result ≡ is_within prefix.now name.now }
{
    match prefix {
        [b'/'] => true,
        _ => prefix == name || begins_with_segments(name, prefix),
    }
}

/// Whether the name begins with the prefix and a `/`.
fn begins_with_segments(name: &[u8], prefix: &[u8]) -> bool
    ensures { result ≡ starts_with nat_eq name.now (prefix.now ++ codes "/") }
{
    match name.strip_prefix(prefix) {
        Some(rest) => begins_with_slash(rest),
        None => false,
    }
}

fn begins_with_slash(rest: &[u8]) -> bool
    ensures { result ≡ starts_with nat_eq rest.now (codes "/") }
{
    matches!(rest, [b'/', ..])
}

impl fmt::Debug for Prefix {
    fn fmt<W: fmt::Write>(&self, f: &mut fmt::Formatter<W>) -> fmt::Result {
        match &self.name {
            Some(name) => write!(f, "{name}"),
            None => write!(f, "/"),
        }
    }
}

impl fmt::Display for Prefix {
    fn fmt<W: fmt::Write>(&self, f: &mut fmt::Formatter<W>) -> fmt::Result {
        write!(f, "{self:?}")
    }
}
