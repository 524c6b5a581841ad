ghost use Rattle.std.specs.Prelude.{◌≡◌, ◌≤◌, length};
ghost use Rattle.std.specs.List.{list_all};
ghost use Rattle.oc_config.specs.Keys.{is_key_byte, is_plain_key, shown_key};
ghost use Rattle.oc_config.specs.declared.key_name.TheConstants.{MAX_KEY_BYTES};

use oc_base::put_in_front;
use std::fmt;
use std::marker::Model;

/// The greatest number of bytes of a key that a fault shows.
pub(crate) const MAX_KEY_BYTES: usize = 64;

/// A key that no table can have, as a fault shows it: 1 to 64 letters, digits, `-` and `_` as they are, and `?` in
/// place of any other key. Contracts see it as its bytes.
#[derive(Clone, Copy)]
pub struct KeyName {
    bytes: [u8; MAX_KEY_BYTES],
    len: u8,
}

impl Model for KeyName {
    ghost use Rattle.std.specs.Prelude.{◌≡◌, ℕ, ◌-◌, ◌≤◌, List, ◌++◌, length, take, replicate};
    ghost use Rattle.oc_config.specs.declared.key_name.TheConstants.{MAX_KEY_BYTES};
    ghost use Rattle.oc_policy.specs.Padding.{length_of_front, padded_again};

    ghost Value = { List ℕ };

    ghost view = { λ n. take n.len n.bytes };

    ghost invariant = { λ n. (n.len ≤ MAX_KEY_BYTES) × (length n.bytes ≡ MAX_KEY_BYTES)
        × (n.bytes ≡ take n.len n.bytes ++ replicate (MAX_KEY_BYTES - n.len) 0) };

    ghost inverse = { λ xs. record { bytes = xs ++ replicate (MAX_KEY_BYTES - length xs) 0; len = length xs } };

    ghost inverse_ok = { λ n h i. record {
      bytes = padded_again MAX_KEY_BYTES n.len n.bytes h.0 h.1 h.2 i;
      len = length_of_front MAX_KEY_BYTES n.len n.bytes h.0 h.1 i;
    } };
}

impl KeyName {
    /// The key, as a fault shows it.
    pub(crate) fn shown(key: &[u8]) -> KeyName
        ensures { result ≡ shown_key key.now }
    {
        if is_plain_key(key) {
            KeyName::padded(key)
        } else {
            KeyName::padded(b"?")
        }
    }

    /// The bytes that are shown.
    pub fn bytes(&self) -> &[u8]
        ensures { result.now ≡ self.now }
    {
        &self.bytes[..usize::from(self.len)]
    }

    fn padded(key: &[u8]) -> KeyName
        requires { length key.now ≤ MAX_KEY_BYTES }
        ensures { result ≡ key.now }
    {
        let mut bytes = [0; MAX_KEY_BYTES];
        put_in_front(&mut bytes, key);
        KeyName {
            bytes,
            len: key.len() as u8,
        }
    }
}

/// Whether a fault shows a key as it is.
fn is_plain_key(key: &[u8]) -> bool
    ensures { result ≡ is_plain_key key.now }
{
    !key.is_empty() && key.len() <= MAX_KEY_BYTES && are_key_bytes(key)
}

fn are_key_bytes(bytes: &[u8]) -> bool
    ensures { result ≡ list_all is_key_byte bytes.now }
{
    bytes.iter().all(|b| is_key_byte(*b))
}

fn is_key_byte(byte: u8) -> bool
    ensures { result ≡ is_key_byte byte }
{
    matches!(byte, b'a'..=b'z' | b'A'..=b'Z' | b'0'..=b'9' | b'-' | b'_')
}

impl fmt::Debug for KeyName {
    fn fmt<W: fmt::Write>(&self, f: &mut fmt::Formatter<W>) -> fmt::Result {
        for byte in self.bytes() {
            let letter = char::from(*byte);
            write!(f, "{letter}")?;
        }
        Ok(())
    }
}

impl fmt::Display for KeyName {
    fn fmt<W: fmt::Write>(&self, f: &mut fmt::Formatter<W>) -> fmt::Result {
        write!(f, "{self:?}")
    }
}
