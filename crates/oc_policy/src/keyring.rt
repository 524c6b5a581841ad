ghost use Rattle.std.specs.Prelude.{◌≡◌};
ghost use Rattle.std.specs.List.{list_any};
ghost use Rattle.oc_policy.specs.Keys.{is_mac_in, is_mac_under};

use crate::key::Key;
use crate::mac::is_mac_of;
use std::marker::Model;

/// The greatest number of keys that are accepted besides the first.
pub const MAX_ACCEPTED: usize = 4;

/// The keys of a network. Contracts see the record of lists of `specs/Keys`.
#[derive(Drop)]
pub struct Keyring {
    /// The key for the MACs of messages that go out.
    pub key: Key,
    /// The other keys under which a message that comes may have its MAC.
    pub accept: Vec<Key>,
}

impl Model for Keyring {
    ghost use Rattle.oc_policy.specs.Keys as keys;

    ghost Value = { keys.Keyring };

    ghost view = { λ r. record { key = r.key; accept = r.accept.items } };
}

/// Whether a text is the MAC of a body under one of the keys of a network, as [`is_mac_of`] has it.
pub fn is_mac_in(ring: &Keyring, body: &[u8], text: &[u8]) -> bool
    ensures { result ≡ is_mac_in ring.now body.now text.now }
{
    is_mac_under(&ring.key, body, text) || is_mac_under_any(&ring.accept, body, text)
}

fn is_mac_under_any(keys: &[Key], body: &[u8], text: &[u8]) -> bool
    ensures { result ≡ list_any (is_mac_under body.now text.now) keys.now }
{
    keys.iter().any(|key| is_mac_under(key, body, text))
}

fn is_mac_under(key: &Key, body: &[u8], text: &[u8]) -> bool
    ensures { result ≡ is_mac_under body.now text.now key.now }
{
    is_mac_of(key, body, text)
}
