ghost use Rattle.std.specs.Prelude.{◌≡◌, ◌↔◌, IsTrue, length};
ghost use Rattle.hex.specs.Hex.{encode_lower};
ghost use Rattle.oc_policy.specs.Keys.{mac_digits};
ghost use Rattle.oc_policy.specs.declared.mac.TheConstants.{MAC_DIGITS};

use crate::hmac::hmac_sha256;
use crate::key::Key;
use crate::same::are_same;
use std::marker::Model;

/// The number of digits of a MAC.
pub const MAC_DIGITS: usize = 64;

/// A MAC as it is written in a head: 64 hexadecimal digits in lower case. Contracts see the digits.
#[derive(Drop)]
pub struct Mac {
    digits: [u8; MAC_DIGITS],
}

impl Model for Mac {
    ghost use Rattle.std.specs.Prelude.{ℕ, List};

    ghost Value = { List ℕ };

    ghost view = { λ m. m.digits };
}

impl Mac {
    /// The digits.
    pub fn digits(&self) -> &[u8]
        ensures value { result.now ≡ self.now }
        ensures count { length result.now ≡ MAC_DIGITS }
    {
        &self.digits
    }

    fn spelled(digest: &[u8; 32]) -> Mac
        ensures { result ≡ encode_lower digest.now }
    {
        let mut digits = [0; MAC_DIGITS];
        // There is room for exactly these digits, so they are written.
        let _written = hex::encode_to_slice(digest, &mut digits);
        Mac { digits }
    }
}

/// The MAC of a body under a key.
pub fn mac_of(key: &Key, body: &[u8]) -> Mac
    ensures { result ≡ mac_digits key.now body.now }
{
    Mac::spelled(&hmac_sha256(key.bytes(), body))
}

/// Whether a text is the MAC of a body under a key: these 64 digits, in lower case, and nothing else. It looks at all
/// digits of a text of this length.
pub fn is_mac_of(key: &Key, body: &[u8], text: &[u8]) -> bool
    ensures { IsTrue result ↔ (text.now ≡ mac_digits key.now body.now) }
{
    let mac = mac_of(key, body);
    are_same(text, mac.digits())
}
