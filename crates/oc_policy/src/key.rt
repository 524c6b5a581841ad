ghost use Rattle.std.specs.Prelude.{◌≡◌, ◌↔◌, IsSome};
ghost use Rattle.oc_policy.specs.Keys.{IsKeyText, key_in};

use std::fmt;
use std::marker::Model;

/// The least number of bytes of a key.
pub(crate) const MIN_KEY_BYTES: usize = 16;

/// The greatest number of bytes of a key: a block of SHA-256.
pub(crate) const MAX_KEY_BYTES: usize = 64;

/// The key of a network: 16 to 64 bytes, which only its nodes know. Contracts see the bytes.
///
/// The `Debug` of a key tells nothing of the bytes, and a key has no `Display` and no comparison.
#[derive(Drop)]
pub struct Key {
    bytes: [u8; MAX_KEY_BYTES],
    len: usize,
}

impl Model for Key {
    ghost use Rattle.std.specs.Prelude.{ℕ, ◌≤◌, List, take};
    ghost use Rattle.oc_policy.specs.declared.key.TheConstants.{MAX_KEY_BYTES};

    ghost Value = { List ℕ };

    ghost view = { λ k. take k.len k.bytes };

    ghost invariant = { λ k. k.len ≤ MAX_KEY_BYTES };
}

impl Key {
    /// Reads a key: 32 to 128 hexadecimal digits of either case, an even number. It takes no memory.
    pub fn parse(text: &[u8]) -> Option<Key>
        ensures value { result ≡ key_in text.now }
        ensures spelled { IsSome result ↔ IsKeyText text.now }
    {
        Key::spelled(text)
    }

    /// The key that a text spells.
    fn spelled(text: &[u8]) -> Option<Key>
        ensures { result ≡ key_in text.now }
    {
        if text.len() < 2 * MIN_KEY_BYTES || text.len() > 2 * MAX_KEY_BYTES {
            return None;
        }
        let len = text.len() / 2;
        let mut bytes = [0; MAX_KEY_BYTES];
        match hex::decode_to_slice(text, &mut bytes[..len]) {
            Ok(()) => Some(Key { bytes, len }),
            Err(_) => None,
        }
    }

    /// The key's bytes.
    pub(crate) fn bytes(&self) -> &[u8]
        ensures { result.now ≡ self.now }
    {
        &self.bytes[..self.len]
    }
}

impl fmt::Debug for Key {
    ghost use Rattle.std.specs.Prelude.{codes, Some};

    // The output is the same for each key.
    ghost debug_output = { λ _. Some (codes "Key(..)") };

    fn fmt<W: fmt::Write>(&self, f: &mut fmt::Formatter<W>) -> fmt::Result {
        f.write_str("Key(..)")
    }
}
