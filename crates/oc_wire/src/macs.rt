//! The MACs of messages, where the nodes have a key.

ghost use Rattle.std.specs.Prelude.{◌≡◌, IfOk, option_map};
ghost use Rattle.oc_wire.specs.Macs.{is_authentic, mac_for};

use oc_base::{Memory, Text};
use oc_policy::{Key, Keyring, is_mac_in, mac_of};
use std::alloc::Global;

/// The MAC for the head of a message with this body, as [`Reply`](oc_http::Reply) takes it: that of the body under
/// the key of the nodes, and none where they have no key.
pub fn mac_for(alloc: Global, key: Option<&Key>, body: &[u8]) -> Result<Option<Text>, Memory>
    ensures { IfOk result (λ mac. mac ≡ mac_for (option_map (λ k. k.now) key.entry) body.now) }
{
    match key {
        None => Ok(None),
        Some(key) => Ok(Some(Text::of(mac_of(key, body).digits().to_vec(alloc)?))),
    }
}

/// Whether a message is from a node of the network: its head has the MAC of its body under one of the keys, byte for
/// byte. Without keys each is. The time that the test takes does not tell how much of a MAC was right.
pub fn is_authentic(keys: Option<&Keyring>, said: Option<&Text>, body: &[u8]) -> bool
    ensures { result ≡ is_authentic (option_map (λ k. k.now) keys.entry) (option_map (λ t. t.now) said.entry) body.now }
{
    match (keys, said) {
        (None, _) => true,
        (Some(_), None) => false,
        (Some(keys), Some(said)) => is_mac_in(keys, body, said.items()),
    }
}
